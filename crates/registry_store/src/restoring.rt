//! The store as a keeper into which a registry can be copied.
ghost use Rattle.std.specs.Prelude.{◌≡◌, ◌≤◌, true};
ghost use Rattle.registry_copy.specs.Restoring.{set_last};
ghost use Rattle.registry_model.specs.Limits.{largest};
ghost use Rattle.registry_model.specs.Lookups.{last_number_at};
ghost use Rattle.registry_model.specs.World.{has_repo};
ghost use Rattle.registry_store.specs.KeptWrites.{AsksOf, WritesOnce};

use crate::fault_noting::note_fault;
use crate::origin::Origin;
use crate::reclaim::Reclaim;
use crate::store::Store;
use oci_types::{Fault, RepoName};
use registry_copy::Restore;
use sqlite::Alter;

impl<S: Alter, O: Origin, C: Reclaim> Restore for Store<S, O, C> {
    fn set_last(&mut self, repo: &RepoName, number: u64) -> Result<(), Fault>
        requires there { AsksOf S.Store C.Contents O.is_ours self.old (λ w. has_repo w repo.now ≡ true) }
        requires rises { AsksOf S.Store C.Contents O.is_ours self.old
            (λ w. last_number_at w repo.now ≤ number) }
        requires fits { number ≤ largest }
        ensures { WritesOnce S.Store C.Contents O.is_ours self.old self.new result
            (λ w. set_last w repo.now number) }
    {
        if self.spent {
            return Err(Fault::Storage);
        }
        let answer = store_writes::set_last(&mut self.conn, repo, number);
        note_fault(&mut self.spent, answer)
    }
}
