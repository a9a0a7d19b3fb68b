//! The last number that an upload session got.
ghost use Rattle.std.specs.Prelude.{◌≡◌, ◌≤◌};
ghost use Rattle.registry_model.specs.World.{repo_at, update_repo};
ghost use Rattle.registry_model.specs.Keeping.{bare};
ghost use Rattle.registry_model.specs.Limits.{largest};
ghost use Rattle.registry_maps.specs.Maps.{world_of};

use super::MapKeeper;
use oci_types::{Fault, RepoName};
use registry_copy::Restore;
use registry_model::Keeper;

impl MapKeeper {
    /// Counts the session numbers of a repository up to this one as given out, and no other, so that a
    /// registry which goes on where another ended gives none twice. Nothing where the repository is not
    /// there.
    pub fn set_last_number(&mut self, name: &RepoName, last: u64)
        requires { last ≤ largest }
        ensures { let w = world_of self.old.repos self.old.grants in
            ⟦<MapKeeper as Keeper>⟧.kept self.new
            ≡ bare (update_repo w name.now (λ r. record r { last = last }) (repo_at w name.now)) }
    {
        if let Some(repository) = self.repos.get_mut(name) {
            repository.last = last;
        }
    }
}

impl Restore for MapKeeper {
    fn set_last(&mut self, repo: &RepoName, number: u64) -> Result<(), Fault> {
        self.set_last_number(repo, number);
        Ok(())
    }
}
