//! The contents that nothing names.
ghost use Rattle.std.specs.Prelude.{◌≡◌, ◌∷◌, ◌++◌, [], map, filter, not, IfOk, OnOk};
ghost use Rattle.std.specs.List.Sorted.{IsPermutation};
ghost use Rattle.sqlite.specs.State.{HasCleanDisk, IsUnchanged, KeepsCommit, Survives};
ghost use Rattle.sqlite.specs.Held.{state};
ghost use Rattle.store_contents.specs.Layouts.{Holds, Layout};
ghost use Rattle.store_contents.specs.Linked.{is_linked, id_shown, ids_in};
ghost use Rattle.store_contents.specs.Read.{IsRead};

use crate::content_id::ContentId;
use crate::fault::{fault_of, told};
use oci_types::Fault;
use sqlite::{Alter, Error, ErrorCode, Row, Transaction};
use std::alloc::Global;
use std::collections::BTreeSet;

/// Appends the id where the set lacks it.
fn push_if_lacking(
    ids: &mut Vec<ContentId>,
    linked: &BTreeSet<ContentId>,
    id: ContentId,
) -> Result<(), Error>
    ensures { OnOk result
        (ids.new.items ≡ ids.old.items ++ filter (λ it. not (is_linked linked.now it)) (id ∷ [])) }
{
    if linked.contains(&id) {
        return Ok(());
    }
    match ids.push(id) {
        Ok(()) => Ok(()),
        Err(_) => Err(Error::SqliteFailure(ErrorCode::OutOfMemory)),
    }
}

/// The ids that the rows show and the set lacks, in the order of the rows.
fn lacking(
    alloc: Global,
    rows: &[Row],
    linked: &BTreeSet<ContentId>,
) -> Result<Vec<ContentId>, Error>
    ensures { IfOk result
        (λ ids. ids.items ≡ filter (λ id. not (is_linked linked.now id)) (map id_shown rows.now)) }
{
    let mut ids = Vec::new(alloc);
    for row in rows {
        let id: i64 = row.get(0)?;
        push_if_lacking(&mut ids, linked, ContentId::new(id))?;
    }
    Ok(ids)
}

/// The same of what a query gave.
fn all_lacking(
    alloc: Global,
    shown: Result<Vec<Row>, Error>,
    linked: &BTreeSet<ContentId>,
) -> Result<Vec<ContentId>, Fault>
    ensures { IsRead shown result
        (λ rows ids. ids.items ≡ filter (λ id. not (is_linked linked.now id)) (map id_shown rows)) }
{
    match shown {
        Ok(rows) => told(lacking(alloc, &rows, linked)),
        Err(error) => Err(fault_of(error)),
    }
}

/// The ids of the contents that are not in the set, each once, in any order, wherever their bytes are.
/// Nothing changes.
///
/// After a fault the caller gives the transaction up, and the tables are those from before it.
pub fn unlinked<S: Alter>(
    alloc: Global,
    tx: &mut Transaction<'_, S>,
    linked: &BTreeSet<ContentId>,
) -> Result<Vec<ContentId>, Fault>
    ensures ids { (l : Layout) → HasCleanDisk (state S.Store tx.new.conn.now)
        → Holds l (state S.Store tx.old.conn.now).now
        → IfOk result
        (λ ids. IsPermutation
        (filter (λ id. not (is_linked linked.now id)) (ids_in l (state S.Store tx.old.conn.now).now))
        ids.items) }
    ensures same { (l : Layout) → HasCleanDisk (state S.Store tx.new.conn.now)
        → Holds l (state S.Store tx.old.conn.now).now
        → OnOk result (IsUnchanged (state S.Store tx.old.conn.now) (state S.Store tx.new.conn.now)) }
    ensures kept { (l : Layout) → HasCleanDisk (state S.Store tx.new.conn.now)
        → Holds l (state S.Store tx.old.conn.now).now
        → KeepsCommit (state S.Store tx.old.conn.now) (state S.Store tx.new.conn.now) }
    ensures same_reference { tx.new.conn.ghost_name ≡ tx.old.conn.ghost_name }
    ensures survives { Survives (state S.Store tx.old.conn.now) (state S.Store tx.new.conn.now) (λ _. ⊥) }
{
    all_lacking(
        alloc,
        tx.query_all("SELECT id FROM registry_contents", &[]),
        linked,
    )
}
