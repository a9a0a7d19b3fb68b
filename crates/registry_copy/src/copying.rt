//! A whole registry.
ghost use Rattle.std.specs.Prelude.{◌≡◌, false, IfOk, OnOk, All, sum_by};
ghost use Rattle.registry_model.specs.Usage.{in_64_bits};
ghost use Rattle.registry_copy.specs.Copying.{IsCopy, HasRepos};
ghost use Rattle.registry_copy.specs.Faults.{IsDamaged, IsOccupied};
ghost use Rattle.registry_copy.specs.Fit.{IsFit, IsFitOfUsage};
ghost use Rattle.registry_copy.specs.Parts.{RepoOfUsage, IsTaken};
ghost use Rattle.registry_copy.specs.Steps.{side, Chain, Meets, IsStep, StaysUnlessSource, SpendsBoth};

use crate::copied::Copied;
use crate::fault::{CopyFault, of_source};
use crate::repository::copy_repo;
use crate::restore::Restore;
use oci_types::RepoName;
use registry_checking::Watch;
use registry_checking::progress::Progress;
use registry_model::{Keeper, Usage};
use std::alloc::Global;

/// How many upload sessions are open in repositories.
fn count_uploads(usages: &[(RepoName, Usage)]) -> u64
    ensures { result ≡ in_64_bits (sum_by (λ u. u.1.sessions) usages.now) }
{
    let mut number: u64 = 0;
    for (_, usage) in usages {
        number = number.saturating_add(usage.sessions);
    }
    number
}

/// Copies the repositories of which these are the usages.
fn copy_repos<A: Keeper, B: Restore, W: Watch>(
    alloc: Global,
    from: &mut A,
    to: &mut B,
    usages: &[(RepoName, Usage)],
    progress: &mut Progress<'_, W>,
) -> Result<(), CopyFault>
    ensures { IsStep (side A.is_honest A.kept from.old from.new) (side B.is_honest B.kept to.old to.new)
        result (λ a _. Chain (RepoOfUsage a) usages.now) (λ a. All (IsFitOfUsage a) usages.now)
        (λ a w. Meets (RepoOfUsage a) IsTaken usages.now w) }
{
    for (repo, usage) in usages {
        copy_repo(alloc, from, to, repo, usage.quota, progress)?;
    }
    Ok(())
}

/// Copies a registry, repository by repository in byte order of their names, and tells how much it was: what
/// they hold, their quotas and last numbers, and the levels on them. Open upload sessions are left out, and
/// nothing changes in the registry that is copied. Each digest is compared with its bytes.
///
/// Want of memory may come at any time. Behind an error the registry into which it was copied has some part.
pub fn copy_registry<A: Keeper, B: Restore, W: Watch>(
    alloc: Global,
    watch: &W,
    from: &mut A,
    to: &mut B,
) -> Result<Copied, CopyFault>
    ensures copied { A.is_honest from.new → B.is_honest to.new
        → IfOk result (λ told. IsCopy (A.kept from.old).world told (B.kept to.old) (B.kept to.new)) }
    ensures untouched { A.is_honest from.new
        → StaysUnlessSource result (A.kept from.old) (A.kept from.new) }
    ensures damaged { A.is_honest from.new → IsDamaged result → IsFit (A.kept from.old).world → ⊥ }
    ensures occupied { A.is_honest from.new → B.is_honest to.new → IsOccupied result
        → HasRepos (B.kept to.old).world }
    ensures spends { SpendsBoth result (A.kept from.old).spent (A.kept from.new).spent
        (B.kept to.old).spent (B.kept to.new).spent }
    ensures unspent { OnOk result ((A.kept from.old).spent ≡ false) }
    ensures honest { A.is_honest from.new → A.is_honest from.old }
    ensures trusted { B.is_honest to.new → B.is_honest to.old }
{
    let usages = of_source(from.usages(alloc))?;
    let mut progress = Progress::new(watch, &usages);
    copy_repos(alloc, from, to, &usages, &mut progress)?;
    Ok(Copied {
        repos: usages.len() as u64,
        uploads: count_uploads(&usages),
    })
}
