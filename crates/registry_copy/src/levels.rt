//! The levels of tokens on a repository.
ghost use Rattle.std.specs.Prelude.{◌≡◌, true, ⊤};
ghost use Rattle.registry_model.specs.Keeping.{Asks};
ghost use Rattle.registry_model.specs.World.{has_repo};
ghost use Rattle.registry_copy.specs.Parts.{LevelComes, LevelsCome};
ghost use Rattle.registry_copy.specs.Steps.{side, Chain, IsPut, IsStep};

use crate::fault::{CopyFault, of_source, of_target};
use oci_types::{RepoName, Token};
use registry_model::{Keeper, Level};
use std::alloc::Global;

/// Gives tokens these levels on a repository of the copy.
fn give_levels<B: Keeper>(
    to: &mut B,
    repo: &RepoName,
    levels: &[(Token, Level)],
) -> Result<(), CopyFault>
    requires { Asks (B.is_honest to.old) (B.kept to.old) (λ w. has_repo w repo.now ≡ true) }
    ensures { IsPut (side B.is_honest B.kept to.old to.new) result
        (Chain (LevelComes repo.now) levels.now) ⊤ (λ _. ⊥) }
{
    for (token, level) in levels {
        of_target(to.grant(token, repo, *level))?;
    }
    Ok(())
}

/// Copies the levels of all tokens on a repository.
pub(crate) fn copy_levels<A: Keeper, B: Keeper>(
    alloc: Global,
    from: &mut A,
    to: &mut B,
    repo: &RepoName,
) -> Result<(), CopyFault>
    requires { Asks (B.is_honest to.old) (B.kept to.old) (λ w. has_repo w repo.now ≡ true) }
    ensures { IsStep (side A.is_honest A.kept from.old from.new) (side B.is_honest B.kept to.old to.new)
        result (λ a _. LevelsCome a repo.now) (λ _. ⊤) (λ _ _. ⊥) }
{
    match of_source(from.levels(alloc, repo)) {
        Ok(levels) => give_levels(to, repo, &levels),
        Err(fault) => Err(fault),
    }
}
