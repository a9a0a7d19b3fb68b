//! A repository is made, or its quota is set.
ghost use Rattle.std.specs.Prelude.{◌≡◌, ◌<◌, ◌^◌};
ghost use Rattle.registry_model.specs.Command.{set_repo};
ghost use Rattle.store_contents.specs.Layouts.{Layout};
ghost use Rattle.store_statements.specs.Between.{CrashLeaves, GoesBack, MakesWorld, Relates, StaysOnMemory};
ghost use Rattle.store_statements.specs.Clauses.{KeepsInside, Lasts, LastsUncommitted, StepsInside};
ghost use Rattle.store_statements.specs.PlaceChanges.{KeepsPlaces};
ghost use Rattle.store_writes.specs.Puts.{QuotaIsPut};

use crate::change::Change;
use crate::changing::make;
use oci_types::{Fault, RepoName};
use registry_model::Quota;
use sqlite::{Alter, Connection, Transaction};
use store_statements::repos::{add_repo, set_quota};

/// Sets the quota, where the repository is there, and else adds it.
pub(crate) fn put_quota<S: Alter>(
    tx: &mut Transaction<'_, S>,
    name: &str,
    quota: u64,
) -> Result<(), Fault>
    requires fits { quota < 2 ^ 63 }
    ensures put { (l : Layout) → StepsInside S.Store l tx.old.conn.now tx.new.conn.now result
        (λ t u. QuotaIsPut t u name.now quota) }
    ensures kept { (l : Layout) → KeepsInside S.Store l tx.old.conn.now tx.new.conn.now }
    ensures same_reference { tx.new.conn.ghost_name ≡ tx.old.conn.ghost_name }
    ensures survives { LastsUncommitted S.Store tx.old.conn.now tx.new.conn.now }
{
    let count = set_quota(tx, name, quota)?;
    if count == 0 {
        add_repo(tx, name, quota)
    } else {
        Ok(())
    }
}

/// Makes an empty repository, or sets the quota of one that is there and changes nothing else. The quota is
/// in bytes.
pub fn set_repo<S: Alter>(
    conn: &mut Connection<S>,
    name: &RepoName,
    quota: Quota,
) -> Result<(), Fault>
    ensures made { (l : Layout)
        → MakesWorld S.Store l conn.old conn.new result (λ w. set_repo w name.now quota.bytes) }
    ensures stays { (l : Layout)
        → Relates S.Store l conn.old conn.new result (λ t u. u.contents ≡ t.contents) }
    ensures places { (l : Layout) → Relates S.Store l conn.old conn.new result KeepsPlaces }
    ensures memory { (l : Layout) → StaysOnMemory S.Store l conn.old conn.new result }
    ensures back { (l : Layout) → GoesBack S.Store l conn.old conn.new result }
    ensures crash { (l : Layout)
        → CrashLeaves S.Store l conn.old conn.new result (λ w. set_repo w name.now quota.bytes) }
    ensures survives { Lasts S.Store conn.old conn.new }
{
    make(
        conn,
        Change::SetRepo {
            repo: name.as_str(),
            quota: quota.bytes,
        },
    )
}
