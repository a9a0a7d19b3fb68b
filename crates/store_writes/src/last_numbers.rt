//! The last number that an upload session of a repository got, where a registry goes on from another.
ghost use Rattle.std.specs.Prelude.{◌≡◌, ◌≤◌, ◌<◌, ◌^◌};
ghost use Rattle.registry_copy.specs.Restoring.{set_last};
ghost use Rattle.registry_model.specs.Lookups.{last_number_at};
ghost use Rattle.store_contents.specs.Layouts.{Layout};
ghost use Rattle.store_statements.specs.Between.{CrashLeaves, GoesBack, MakesWorld, Relates, StaysOnMemory};
ghost use Rattle.store_statements.specs.Changes.{with_last};
ghost use Rattle.store_statements.specs.Clauses.{Changes, KeepsInside, Lasts, LastsUncommitted, WorldHas};
ghost use Rattle.store_statements.specs.Keys.{of_first};
ghost use Rattle.store_statements.specs.PlaceChanges.{KeepsPlaces};
ghost use Rattle.store_statements.specs.Steps.{repos_changed};

use crate::change::Change;
use crate::changing::make;
use oci_types::{Fault, RepoName};
use sqlite::{Alter, Connection, Transaction};
use store_statements::repos;

/// Sets the number in the row of the repository.
pub(crate) fn put_last<S: Alter>(
    tx: &mut Transaction<'_, S>,
    repo: &str,
    number: u64,
) -> Result<(), Fault>
    requires fits { number < 2 ^ 63 }
    ensures set { (l : Layout) → Changes S.Store l tx.old.conn.now tx.new.conn.now result
        (repos_changed (of_first repo.now) (with_last number)) }
    ensures kept { (l : Layout) → KeepsInside S.Store l tx.old.conn.now tx.new.conn.now }
    ensures same_reference { tx.new.conn.ghost_name ≡ tx.old.conn.ghost_name }
    ensures survives { LastsUncommitted S.Store tx.old.conn.now tx.new.conn.now }
{
    match repos::set_last(tx, repo, number) {
        Ok(_) => Ok(()),
        Err(fault) => Err(fault),
    }
}

/// Sets the last number that an upload session of a repository got, to one that is not below it.
pub fn set_last<S: Alter>(
    conn: &mut Connection<S>,
    repo: &RepoName,
    number: u64,
) -> Result<(), Fault>
    requires fits { number < 2 ^ 63 }
    ensures made { (l : Layout) → WorldHas S.Store l conn.old (λ w. last_number_at w repo.now ≤ number)
        → MakesWorld S.Store l conn.old conn.new result (λ w. set_last w repo.now number) }
    ensures stays { (l : Layout)
        → Relates S.Store l conn.old conn.new result (λ t u. u.contents ≡ t.contents) }
    ensures places { (l : Layout) → Relates S.Store l conn.old conn.new result KeepsPlaces }
    ensures memory { (l : Layout) → StaysOnMemory S.Store l conn.old conn.new result }
    ensures back { (l : Layout) → GoesBack S.Store l conn.old conn.new result }
    ensures crash { (l : Layout) → WorldHas S.Store l conn.old (λ w. last_number_at w repo.now ≤ number)
        → CrashLeaves S.Store l conn.old conn.new result (λ w. set_last w repo.now number) }
    ensures survives { Lasts S.Store conn.old conn.new }
{
    let repo = repo.as_str();
    make(conn, Change::SetLast { repo, number })
}
