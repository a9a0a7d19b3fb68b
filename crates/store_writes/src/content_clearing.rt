//! What nothing names is freed.
ghost use Rattle.std.specs.Prelude.{◌≡◌, ◌||◌, ◌∷◌, [], ℤ, None, OnOk, IsOkAnd, IfOk, if◌then◌else◌};
ghost use Rattle.std.specs.BTreeSet.{keys};
ghost use Rattle.std.specs.Ordering.{int_eq};
ghost use Rattle.sqlite.specs.State.{HasCleanDisk};
ghost use Rattle.sqlite.specs.Held.{state};
ghost use Rattle.store_contents.specs.Layouts.{Layout, InTables};
ghost use Rattle.store_statements.specs.Between.{CrashLeaves, GoesBack, MakesWorld, Relates, StaysOnMemory};
ghost use Rattle.store_statements.specs.Clauses.{ChangesNothingInside, KeepsInside, Lasts, LastsUncommitted, StepsInside};
ghost use Rattle.store_statements.specs.Held.{IsReady, held};
ghost use Rattle.store_writes.specs.Naming.{AreUnnamed, is_among, is_named, ContentsGone, Cleared};

use crate::change::Change;
use crate::changing::make;
use oci_types::Fault;
use sqlite::{Alter, Connection, Transaction};
use std::alloc::Global;
use std::collections::BTreeSet;
use store_contents::{ContentId, remove, unlinked};
use store_statements::blobs::blob_contents;
use store_statements::manifests::manifest_contents;
use store_statements::pieces::piece_contents;

fn insert(set: &mut BTreeSet<ContentId>, id: ContentId) -> Result<(), Fault>
    ensures { OnOk result
        ((i : ℤ) → is_among (keys set.new) i ≡ (is_among (keys set.old) i || int_eq i id.id)) }
{
    match set.insert(id) {
        Ok(_) => Ok(()),
        Err(_) => Err(Fault::Memory),
    }
}

fn insert_all(set: &mut BTreeSet<ContentId>, ids: &[ContentId]) -> Result<(), Fault>
    ensures { OnOk result
        ((i : ℤ) → is_among (keys set.new) i ≡ (is_among (keys set.old) i || is_among ids.now i)) }
{
    for id in ids {
        insert(set, *id)?;
    }
    Ok(())
}

/// Adds the contents that were found.
fn insert_found(
    set: &mut BTreeSet<ContentId>,
    found: Result<Vec<ContentId>, Fault>,
) -> Result<(), Fault>
    ensures { OnOk result (IsOkAnd found (λ ids. (i : ℤ)
        → is_among (keys set.new) i ≡ (is_among (keys set.old) i || is_among ids.items i))) }
{
    match found {
        Ok(ids) => insert_all(set, &ids),
        Err(fault) => Err(fault),
    }
}

/// Puts the contents that something names into an empty set. Nothing of the tables changes.
fn add_named<S: Alter>(
    alloc: Global,
    tx: &mut Transaction<'_, S>,
    set: &mut BTreeSet<ContentId>,
) -> Result<(), Fault>
    ensures named { (l : Layout) → HasCleanDisk (state S.Store tx.new.conn.now)
        → IsReady l (state S.Store tx.old.conn.now)
        → OnOk result (keys set.old ≡ [] → (i : ℤ)
        → is_among (keys set.new) i ≡ is_named (held l (state S.Store tx.old.conn.now)) i) }
    ensures same { (l : Layout) → ChangesNothingInside S.Store l tx.old.conn.now tx.new.conn.now result }
    ensures kept { (l : Layout) → KeepsInside S.Store l tx.old.conn.now tx.new.conn.now }
    ensures same_reference { tx.new.conn.ghost_name ≡ tx.old.conn.ghost_name }
    ensures survives { LastsUncommitted S.Store tx.old.conn.now tx.new.conn.now }
{
    insert_found(set, blob_contents(alloc, tx))?;
    insert_found(set, manifest_contents(alloc, tx))?;
    insert_found(set, piece_contents(alloc, tx))
}

/// Takes the content out, where it is there.
fn take_content<S: Alter>(tx: &mut Transaction<'_, S>, id: ContentId) -> Result<(), Fault>
    ensures taken { StepsInside S.Store InTables tx.old.conn.now tx.new.conn.now result
        (λ t u. ContentsGone t u (id ∷ [])) }
    ensures kept { KeepsInside S.Store InTables tx.old.conn.now tx.new.conn.now }
    ensures same_reference { tx.new.conn.ghost_name ≡ tx.old.conn.ghost_name }
    ensures survives { LastsUncommitted S.Store tx.old.conn.now tx.new.conn.now }
{
    remove(tx, id)
}

/// Takes the contents out, where they are there.
fn take_contents<S: Alter>(tx: &mut Transaction<'_, S>, ids: &[ContentId]) -> Result<(), Fault>
    ensures taken { StepsInside S.Store InTables tx.old.conn.now tx.new.conn.now result
        (λ t u. ContentsGone t u ids.now) }
    ensures kept { KeepsInside S.Store InTables tx.old.conn.now tx.new.conn.now }
    ensures same_reference { tx.new.conn.ghost_name ≡ tx.old.conn.ghost_name }
    ensures survives { LastsUncommitted S.Store tx.old.conn.now tx.new.conn.now }
{
    for id in ids {
        take_content(tx, *id)?;
    }
    Ok(())
}

/// The ids of the contents that nothing names, each once, wherever their bytes are. Nothing changes.
pub(crate) fn unnamed<S: Alter>(
    alloc: Global,
    tx: &mut Transaction<'_, S>,
) -> Result<Vec<ContentId>, Fault>
    ensures unnamed { (l : Layout) → HasCleanDisk (state S.Store tx.new.conn.now)
        → IsReady l (state S.Store tx.old.conn.now)
        → IfOk result (λ ids. AreUnnamed l (state S.Store tx.old.conn.now) ids.items) }
    ensures same { (l : Layout) → ChangesNothingInside S.Store l tx.old.conn.now tx.new.conn.now result }
    ensures kept { (l : Layout) → KeepsInside S.Store l tx.old.conn.now tx.new.conn.now }
    ensures same_reference { tx.new.conn.ghost_name ≡ tx.old.conn.ghost_name }
    ensures survives { LastsUncommitted S.Store tx.old.conn.now tx.new.conn.now }
{
    let mut set = BTreeSet::new(alloc);
    add_named(alloc, tx, &mut set)?;
    unlinked(alloc, tx, &set)
}

/// Takes out each content that nothing names.
pub(crate) fn clear_contents<S: Alter>(
    alloc: Global,
    tx: &mut Transaction<'_, S>,
) -> Result<(), Fault>
    ensures cleared { StepsInside S.Store InTables tx.old.conn.now tx.new.conn.now result
        (λ t u. Cleared t u) }
    ensures kept { KeepsInside S.Store InTables tx.old.conn.now tx.new.conn.now }
    ensures same_reference { tx.new.conn.ghost_name ≡ tx.old.conn.ghost_name }
    ensures survives { LastsUncommitted S.Store tx.old.conn.now tx.new.conn.now }
{
    let ids = unnamed(alloc, tx)?;
    take_contents(tx, &ids)
}

/// Frees each content that no blob, manifest or upload session names: exactly the others stay, and the
/// world does not change. A failure frees nothing.
pub fn clear<S: Alter>(alloc: Global, conn: &mut Connection<S>) -> Result<(), Fault>
    ensures made { MakesWorld S.Store InTables conn.old conn.new result (λ w. w) }
    ensures freed { Relates S.Store InTables conn.old conn.new result
        (λ t u. (id : ℤ) → u.contents id ≡ (if is_named t id then t.contents id else None)) }
    ensures memory { StaysOnMemory S.Store InTables conn.old conn.new result }
    ensures back { GoesBack S.Store InTables conn.old conn.new result }
    ensures crash { CrashLeaves S.Store InTables conn.old conn.new result (λ w. w) }
    ensures survives { Lasts S.Store conn.old conn.new }
{
    make(conn, Change::Clear { alloc })
}
