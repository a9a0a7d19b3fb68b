//! A content is deleted beside the pack, in which its bytes stay.
ghost use Rattle.std.specs.Prelude.{◌≡◌, ◌∷◌, ℕ, List, Err, OnOk, IfOk, ⊤};
ghost use Rattle.sqlite.specs.State.{HasCleanDisk};
ghost use Rattle.sqlite.specs.Held.{state};
ghost use Rattle.store_pack.specs.Commits.{IsSettled, Stays, Becomes, Outcomes};
ghost use Rattle.store_contents.specs.Places.{bytes_in, place_rows, runs_of};
ghost use Rattle.store_places.specs.Places.{Removes};
ghost use Rattle.store_pack.specs.Joint.{IsJoint, IsDurable, HasLess, CrashesInto, Older, AreAged};

use crate::commit::commit_removal;
use oci_types::Fault;
use sqlite::{Alter, Connection};
use sqlite_disk::Disk;
use store_contents::ContentId;
use store_statements::open_check::checked_fault;

/// Takes a content out in a transaction of its own. Want of memory is told only where the connection is seen
/// to be open, and its rows are as they were.
fn remove_rows<S: Alter>(conn: &mut Connection<S>, id: ContentId) -> Result<(), Fault>
    ensures removed { HasCleanDisk (state S.Store conn.new) → IsSettled (state S.Store conn.old)
        → IfOk result (λ it. Becomes (λ a b (v : ⊤). Removes a b id.id)
        (state S.Store conn.old) (state S.Store conn.new) it) }
    ensures memory { HasCleanDisk (state S.Store conn.new) → IsSettled (state S.Store conn.old)
        → result ≡ Err Fault.Memory → Stays (state S.Store conn.old) (state S.Store conn.new) }
    ensures crash { HasCleanDisk (state S.Store conn.new) → IsSettled (state S.Store conn.old)
        → Outcomes (λ a b (v : ⊤). Removes a b id.id)
        (state S.Store conn.old) (state S.Store conn.new) }
{
    match commit_removal(conn, id) {
        Ok(()) => Ok(()),
        Err(fault) => Err(checked_fault(conn, fault)),
    }
}

/// Deletes a content, where it is there: its rows are taken out in a transaction of their own, and its bytes
/// stay in the pack, at places that no row names from now on. No other content changes.
///
/// After `Fault::Memory` nothing has changed. After `Fault::Storage` the connection may not be used again
/// before it is opened anew; what is found then is the contents as they were, or without this one. `disk` is
/// only looked at by the contract. The database from before the call may be found again beside the pack, as a
/// copy that somebody kept: its places are kept until they are written (`older`).
pub fn delete_content<S: Alter, D: Disk>(
    conn: &mut Connection<S>,
    disk: &D,
    id: ContentId,
) -> Result<(), Fault>
    ensures deleted { HasCleanDisk (state S.Store conn.new) → IsJoint (state S.Store conn.old) D.Disk disk.now
        → OnOk result
        (HasLess (bytes_in (state S.Store conn.new).now (D.Disk.seen disk.now))
        (bytes_in (state S.Store conn.old).now (D.Disk.seen disk.now)) id.id) }
    ensures rows { HasCleanDisk (state S.Store conn.new) → IsSettled (state S.Store conn.old)
        → OnOk result (Removes (state S.Store conn.old).now (state S.Store conn.new).now id.id) }
    ensures memory { HasCleanDisk (state S.Store conn.new) → IsSettled (state S.Store conn.old)
        → result ≡ Err Fault.Memory → Stays (state S.Store conn.old) (state S.Store conn.new) }
    ensures joint { HasCleanDisk (state S.Store conn.new) → IsJoint (state S.Store conn.old) D.Disk disk.now
        → (result ≡ Err Fault.Storage → ⊥) → IsJoint (state S.Store conn.new) D.Disk disk.now }
    ensures crash { HasCleanDisk (state S.Store conn.new) → IsJoint (state S.Store conn.old) D.Disk disk.now
        → CrashesInto (state S.Store conn.old) (state S.Store conn.new) D.Disk disk.now disk.now
        (λ w. HasLess w (bytes_in (state S.Store conn.old).now (D.Disk.seen disk.now)) id.id) }
    ensures durable { IsJoint (state S.Store conn.new) D.Disk disk.now
        → IsDurable (state S.Store conn.new) D.Disk disk.now }
    ensures older { (age : ℕ) (olds : List Older) → IsJoint (state S.Store conn.old) D.Disk disk.now
        → AreAged D.Disk disk.now olds
        → AreAged D.Disk disk.now ((age, runs_of (place_rows (state S.Store conn.old).now)) ∷ olds) }
{
    remove_rows(conn, id)
}
