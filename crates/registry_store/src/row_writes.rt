//! Writes of rows that bring no bytes.
ghost use Rattle.std.specs.Prelude.{◌≡◌, true};
ghost use Rattle.registry_model.specs.World.{has_repo};
ghost use Rattle.store_contents.specs.Layouts.{Layout};
ghost use Rattle.store_statements.specs.Between.{CrashLeaves, MakesWorld, Relates, StaysOnMemory};
ghost use Rattle.store_statements.specs.Clauses.{Lasts, WorldHas};
ghost use Rattle.store_statements.specs.PlaceChanges.{KeepsPlaces};
ghost use Rattle.registry_store.specs.Usages.{IsKnown, StaysKnown};
ghost use Rattle.registry_store.specs.Writes.{Asks, BringsNone, makes};

use crate::counted_writes::make_counted;
use crate::known_usages::KnownUsages;
use crate::write::Write;
use oci_types::{Fault, RepoName};
use sqlite::{Alter, Connection};
use std::alloc::Global;

/// Makes a write that brings no bytes; what is known of the repository's usage follows.
pub(crate) fn write_rows<S: Alter>(
    alloc: Global,
    conn: &mut Connection<S>,
    known: &mut KnownUsages,
    repo: &RepoName,
    write: Write<'_>,
) -> Result<(), Fault>
    requires rows { BringsNone write }
    ensures made { (l : Layout) → WorldHas S.Store l conn.old (Asks write.entry repo.now)
        → MakesWorld S.Store l conn.old conn.new result (makes write.entry repo.now) }
    ensures places { (l : Layout) → WorldHas S.Store l conn.old (Asks write.entry repo.now)
        → Relates S.Store l conn.old conn.new result KeepsPlaces }
    ensures memory { (l : Layout) → WorldHas S.Store l conn.old (Asks write.entry repo.now)
        → StaysOnMemory S.Store l conn.old conn.new result }
    ensures crash { (l : Layout) → WorldHas S.Store l conn.old (Asks write.entry repo.now)
        → CrashLeaves S.Store l conn.old conn.new result (makes write.entry repo.now) }
    ensures survives { Lasts S.Store conn.old conn.new }
    ensures known { (l : Layout) → IsKnown S.Store l conn.old known.old
        → WorldHas S.Store l conn.old (Asks write.entry repo.now)
        → WorldHas S.Store l conn.old (λ w. has_repo w repo.now ≡ true)
        → StaysKnown S.Store l conn.old conn.new known.new result }
{
    match make_counted(alloc, conn, known, repo, write) {
        Ok(_) => Ok(()),
        Err(fault) => Err(fault),
    }
}
