//! What is known of usages follows what was written.
ghost use Rattle.std.specs.Prelude.{◌≡◌, OnOk, OnErr};
ghost use Rattle.registry_store.specs.Usages.{known_at, Sets, IsNext};

use crate::known_usages::KnownUsages;
use oci_types::{Fault, RepoName};
use store_reads::Change;

/// What is known of the repository follows the change, where the write was made.
pub(crate) fn follow_made<T>(
    known: &mut KnownUsages,
    repo: &RepoName,
    change: Option<Change>,
    made: &Result<T, Fault>,
)
    ensures followed { OnOk made.now
        (Sets known.old known.new repo.now (IsNext (known_at known.old repo.now) change)) }
    ensures kept { OnErr made.now (known.new ≡ known.old) }
{
    match made {
        Ok(_) => known.follow(repo, change),
        Err(_) => {}
    }
}
