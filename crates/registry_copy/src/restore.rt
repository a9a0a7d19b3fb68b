ghost use Rattle.std.specs.Prelude.{◌≡◌, ◌≤◌, true};
ghost use Rattle.registry_model.specs.Keeping.{Asks, Writes, Spends};
ghost use Rattle.registry_model.specs.Limits.{largest};
ghost use Rattle.registry_model.specs.Lookups.{last_number_at};
ghost use Rattle.registry_model.specs.World.{has_repo};
ghost use Rattle.registry_copy.specs.Restoring.{set_last};

use oci_types::{Fault, RepoName};
use registry_model::Keeper;

/// A keeper into which a registry can be copied.
pub trait Restore: Keeper {
    /// Sets the last number that an upload session of a repository got, which is there (`has_repo` tells), to
    /// one that is not below it (`last_number`); at most 9,223,372,036,854,775,807. The next session gets the
    /// number behind it.
    fn set_last(&mut self, repo: &RepoName, number: u64) -> Result<(), Fault>
        requires there { Asks (Self.is_honest self.old) (Self.kept self.old)
            (λ w. has_repo w repo.now ≡ true) }
        requires rises { Asks (Self.is_honest self.old) (Self.kept self.old)
            (λ w. last_number_at w repo.now ≤ number) }
        requires fits { number ≤ largest }
        ensures made { Self.is_honest self.new → Writes result
            (set_last (Self.kept self.old).world repo.now number) (Self.kept self.old) (Self.kept self.new) }
        ensures spends { Spends result (Self.kept self.old) (Self.kept self.new) }
        ensures honest { Self.is_honest self.new → Self.is_honest self.old };
}
