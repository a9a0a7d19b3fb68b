//! One repository.
ghost use Rattle.std.specs.Prelude.{◌≡◌, ◌≤◌, true};
ghost use Rattle.registry_model.specs.Keeping.{Asks};
ghost use Rattle.registry_model.specs.Limits.{largest};
ghost use Rattle.registry_model.specs.Lookups.{last_number_at};
ghost use Rattle.registry_model.specs.World.{has_repo};
ghost use Rattle.registry_copy.specs.Fit.{IsFitAt};
ghost use Rattle.registry_copy.specs.Parts.{RepoBegins, RepoComes, HeldComes};
ghost use Rattle.registry_copy.specs.Restoring.{set_last};
ghost use Rattle.registry_copy.specs.Steps.{side, IsPut, IsStep};

use crate::contents::ContentKind;
use crate::fault::{CopyFault, of_source, of_target};
use crate::levels::copy_levels;
use crate::listed::{copy_contents, copy_tags};
use crate::restore::Restore;
use oci_types::RepoName;
use registry_checking::Watch;
use registry_checking::progress::Progress;
use registry_model::{Keeper, LARGEST_QUOTA, LARGEST_SESSION_NUMBER, Quota};
use std::alloc::Global;

/// Makes an empty repository of the copy, with a quota in bytes. `Occupied`: one of the name is there.
fn begin_repo<B: Keeper>(to: &mut B, repo: &RepoName, quota: u64) -> Result<(), CopyFault>
    ensures { IsPut (side B.is_honest B.kept to.old to.new) result (RepoBegins repo.now quota)
        (quota ≤ largest) (λ w. has_repo w repo.now ≡ true) }
{
    if quota > LARGEST_QUOTA {
        return Err(CopyFault::Damaged);
    }
    match of_target(to.has_repo(repo)) {
        Ok(true) => Err(CopyFault::Occupied),
        Ok(false) => of_target(to.set_repo(repo, Quota { bytes: quota })),
        Err(fault) => Err(fault),
    }
}

/// Copies the last number that an upload session of a repository got.
fn copy_last<A: Keeper, B: Restore>(
    from: &mut A,
    to: &mut B,
    repo: &RepoName,
) -> Result<(), CopyFault>
    requires there { Asks (B.is_honest to.old) (B.kept to.old) (λ w. has_repo w repo.now ≡ true) }
    requires new { Asks (B.is_honest to.old) (B.kept to.old) (λ w. last_number_at w repo.now ≡ 0) }
    ensures { IsStep (side A.is_honest A.kept from.old from.new) (side B.is_honest B.kept to.old to.new)
        result (λ a _ w w'. w' ≡ set_last w repo.now (last_number_at a repo.now)) (λ a. IsFitAt a repo.now)
        (λ _ _. ⊥) }
{
    match of_source(from.last_number(repo)) {
        Ok(number) if number <= LARGEST_SESSION_NUMBER => of_target(to.set_last(repo, number)),
        Ok(_) => Err(CopyFault::Damaged),
        Err(fault) => Err(fault),
    }
}

/// Copies what a repository holds: blobs, then manifests, then tags.
fn copy_held<A: Keeper, B: Keeper, W: Watch>(
    alloc: Global,
    from: &mut A,
    to: &mut B,
    repo: &RepoName,
    progress: &mut Progress<'_, W>,
) -> Result<(), CopyFault>
    requires { Asks (B.is_honest to.old) (B.kept to.old) (λ w. has_repo w repo.now ≡ true) }
    ensures { IsStep (side A.is_honest A.kept from.old from.new) (side B.is_honest B.kept to.old to.new)
        result (λ a _. HeldComes a repo.now) (λ a. IsFitAt a repo.now) (λ _ _. ⊥) }
{
    copy_contents(alloc, from, to, repo, ContentKind::Blob, progress)?;
    copy_contents(alloc, from, to, repo, ContentKind::Manifest, progress)?;
    copy_tags(alloc, from, to, repo)
}

/// Copies a repository that has this quota, with the levels on it. Its open upload sessions are left out.
pub(crate) fn copy_repo<A: Keeper, B: Restore, W: Watch>(
    alloc: Global,
    from: &mut A,
    to: &mut B,
    repo: &RepoName,
    quota: u64,
    progress: &mut Progress<'_, W>,
) -> Result<(), CopyFault>
    ensures { IsStep (side A.is_honest A.kept from.old from.new) (side B.is_honest B.kept to.old to.new)
        result (λ a _. RepoComes a repo.now quota) (λ a. IsFitAt a repo.now × (quota ≤ largest))
        (λ _ w. has_repo w repo.now ≡ true) }
{
    begin_repo(to, repo, quota)?;
    copy_last(from, to, repo)?;
    copy_held(alloc, from, to, repo, progress)?;
    copy_levels(alloc, from, to, repo)
}
