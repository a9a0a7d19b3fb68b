//! A content that nothing names any more.
ghost use Rattle.std.specs.Prelude.{◌≡◌, [], filter, OnOk};
ghost use Rattle.sqlite.specs.State.{HasCleanDisk, KeepsCommit, Survives};
ghost use Rattle.sqlite.specs.Held.{state};
ghost use Rattle.store_contents.specs.Places.{of_content, place_rows};
ghost use Rattle.store_places.specs.Places.{IsInside, Removes, RemovesPlaces, RemovesRow};

use oci_types::Fault;
use sqlite::{Alter, Transaction, params};
use store_contents::{ContentId, done};

/// Takes the rows of the content's places out.
fn remove_places<S: Alter>(tx: &mut Transaction<'_, S>, id: ContentId) -> Result<(), Fault>
    ensures removed { HasCleanDisk (state S.Store tx.new.conn.now) → IsInside (state S.Store tx.old.conn.now)
        → OnOk result
        (RemovesPlaces (state S.Store tx.old.conn.now).now (state S.Store tx.new.conn.now).now id.id
        × IsInside (state S.Store tx.new.conn.now)) }
    ensures kept { HasCleanDisk (state S.Store tx.new.conn.now) → IsInside (state S.Store tx.old.conn.now)
        → KeepsCommit (state S.Store tx.old.conn.now) (state S.Store tx.new.conn.now) }
    ensures same_reference { tx.new.conn.ghost_name ≡ tx.old.conn.ghost_name }
    ensures survives { Survives (state S.Store tx.old.conn.now) (state S.Store tx.new.conn.now) (λ _. ⊥) }
{
    done(tx.execute(
        "DELETE FROM registry_places WHERE content = ?1",
        params![id.get()],
    ))
}

/// Takes the row of a content out that has no places.
fn remove_row<S: Alter>(tx: &mut Transaction<'_, S>, id: ContentId) -> Result<(), Fault>
    ensures removed { HasCleanDisk (state S.Store tx.new.conn.now) → IsInside (state S.Store tx.old.conn.now)
        → filter (of_content id.id) (place_rows (state S.Store tx.old.conn.now).now) ≡ []
        → OnOk result
        (RemovesRow (state S.Store tx.old.conn.now).now (state S.Store tx.new.conn.now).now id.id
        × IsInside (state S.Store tx.new.conn.now)) }
    ensures kept { HasCleanDisk (state S.Store tx.new.conn.now) → IsInside (state S.Store tx.old.conn.now)
        → KeepsCommit (state S.Store tx.old.conn.now) (state S.Store tx.new.conn.now) }
    ensures same_reference { tx.new.conn.ghost_name ≡ tx.old.conn.ghost_name }
    ensures survives { Survives (state S.Store tx.old.conn.now) (state S.Store tx.new.conn.now) (λ _. ⊥) }
{
    done(tx.execute(
        "DELETE FROM registry_contents WHERE id = ?1",
        params![id.get()],
    ))
}

/// Takes the content out with its places, where it is there. Its bytes stay where they are in the pack. No
/// other content changes, nor does any other table; whether something names it is the caller's to know.
///
/// After a fault the caller gives the transaction up, and the tables are those from before it.
pub fn remove_content<S: Alter>(tx: &mut Transaction<'_, S>, id: ContentId) -> Result<(), Fault>
    ensures removed { HasCleanDisk (state S.Store tx.new.conn.now) → IsInside (state S.Store tx.old.conn.now)
        → OnOk result
        (Removes (state S.Store tx.old.conn.now).now (state S.Store tx.new.conn.now).now id.id
        × IsInside (state S.Store tx.new.conn.now)) }
    ensures kept { HasCleanDisk (state S.Store tx.new.conn.now) → IsInside (state S.Store tx.old.conn.now)
        → KeepsCommit (state S.Store tx.old.conn.now) (state S.Store tx.new.conn.now) }
    ensures same_reference { tx.new.conn.ghost_name ≡ tx.old.conn.ghost_name }
    ensures survives { Survives (state S.Store tx.old.conn.now) (state S.Store tx.new.conn.now) (λ _. ⊥) }
{
    remove_places(tx, id)?;
    remove_row(tx, id)
}
