//! Repositories that are made or get a quota, and that go, with what is known of usages.
ghost use Rattle.registry_model.specs.Command.{set_repo, drop_repo};
ghost use Rattle.store_contents.specs.Layouts.{Layout};
ghost use Rattle.store_statements.specs.Between.{CrashLeaves, MakesWorld, Relates, StaysOnMemory};
ghost use Rattle.store_statements.specs.Clauses.{Lasts};
ghost use Rattle.store_statements.specs.PlaceChanges.{KeepsPlaces};
ghost use Rattle.registry_store.specs.Usages.{IsKnown, StaysKnown};

use crate::known_usages::KnownUsages;
use oci_types::{Fault, RepoName};
use registry_model::Quota;
use sqlite::{Alter, Connection};

/// Makes an empty repository, or sets the quota of one that is there. What is known of it has the quota:
/// of one that was not there it was known that it holds nothing.
pub(crate) fn set_repo<S: Alter>(
    conn: &mut Connection<S>,
    known: &mut KnownUsages,
    name: &RepoName,
    quota: Quota,
) -> Result<(), Fault>
    ensures made { (l : Layout) → MakesWorld S.Store l conn.old conn.new result
        (λ w. set_repo w name.now quota.bytes) }
    ensures places { (l : Layout) → Relates S.Store l conn.old conn.new result KeepsPlaces }
    ensures memory { (l : Layout) → StaysOnMemory S.Store l conn.old conn.new result }
    ensures crash { (l : Layout) → CrashLeaves S.Store l conn.old conn.new result
        (λ w. set_repo w name.now quota.bytes) }
    ensures survives { Lasts S.Store conn.old conn.new }
    ensures known { (l : Layout) → IsKnown S.Store l conn.old known.old
        → StaysKnown S.Store l conn.old conn.new known.new result }
{
    match store_writes::set_repo(conn, name, quota) {
        Ok(()) => {
            known.set_quota(name, quota.bytes);
            Ok(())
        }
        Err(fault) => Err(fault),
    }
}

/// Takes a repository away, of which nothing is known any more.
pub(crate) fn drop_repo<S: Alter>(
    conn: &mut Connection<S>,
    known: &mut KnownUsages,
    name: &RepoName,
) -> Result<(), Fault>
    ensures made { (l : Layout)
        → MakesWorld S.Store l conn.old conn.new result (λ w. drop_repo w name.now) }
    ensures places { (l : Layout) → Relates S.Store l conn.old conn.new result KeepsPlaces }
    ensures memory { (l : Layout) → StaysOnMemory S.Store l conn.old conn.new result }
    ensures crash { (l : Layout)
        → CrashLeaves S.Store l conn.old conn.new result (λ w. drop_repo w name.now) }
    ensures survives { Lasts S.Store conn.old conn.new }
    ensures known { (l : Layout) → IsKnown S.Store l conn.old known.old
        → StaysKnown S.Store l conn.old conn.new known.new result }
{
    known.forget(name);
    store_writes::drop_repo(conn, name)
}
