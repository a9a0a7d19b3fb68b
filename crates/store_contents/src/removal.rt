//! A content that nothing names any more.
ghost use Rattle.std.specs.Prelude.{◌≡◌, OnOk};
ghost use Rattle.sqlite.specs.State.{HasCleanDisk, KeepsCommit, Survives};
ghost use Rattle.sqlite.specs.Held.{state};
ghost use Rattle.store_contents.specs.Contents.{IsInside, Removes};

use crate::content_id::ContentId;
use crate::fault::done;
use oci_types::Fault;
use sqlite::{Alter, Transaction, params};

/// Takes the content out, where it is there. No other content changes, nor does any other table; whether
/// something names it is the caller's to know.
///
/// After a fault the caller gives the transaction up, and the tables are those from before it.
pub fn remove<S: Alter>(tx: &mut Transaction<'_, S>, id: ContentId) -> Result<(), Fault>
    ensures removed { HasCleanDisk (state S.Store tx.new.conn.now) → IsInside (state S.Store tx.old.conn.now)
        → OnOk result
        (Removes (state S.Store tx.old.conn.now).now (state S.Store tx.new.conn.now).now id.id) }
    ensures inside { HasCleanDisk (state S.Store tx.new.conn.now) → IsInside (state S.Store tx.old.conn.now)
        → OnOk result (IsInside (state S.Store tx.new.conn.now)) }
    ensures kept { HasCleanDisk (state S.Store tx.new.conn.now) → IsInside (state S.Store tx.old.conn.now)
        → KeepsCommit (state S.Store tx.old.conn.now) (state S.Store tx.new.conn.now) }
    ensures same_reference { tx.new.conn.ghost_name ≡ tx.old.conn.ghost_name }
    ensures survives { Survives (state S.Store tx.old.conn.now) (state S.Store tx.new.conn.now) (λ _. ⊥) }
{
    done(tx.execute(
        "DELETE FROM registry_contents WHERE id = ?1",
        params![id.get()],
    ))
}
