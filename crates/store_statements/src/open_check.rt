//! What a failure leaves.
ghost use Rattle.std.specs.Prelude.{◌≡◌, IsTrue, false};
ghost use Rattle.sqlite.specs.State.{HasCleanDisk, Shows};
ghost use Rattle.sqlite.specs.Held.{state};
ghost use Rattle.store_statements.specs.Clauses.{LastsUncommitted, LeavesEither};

use oci_types::Fault;
use sqlite::{Alter, Connection};

/// Whether the connection is open and outside a transaction. It writes nothing: it asks for the statement
/// without words, which reads nothing. Where there is no memory for that, the answer is `false`.
fn is_open<S: Alter>(conn: &mut Connection<S>) -> bool
    ensures open { HasCleanDisk (state S.Store conn.new) → IsTrue result
        → Shows (state S.Store conn.old) (state S.Store conn.new) (state S.Store conn.old).now
        (state S.Store conn.old).now false }
    ensures left { LeavesEither S.Store conn.old conn.new }
    ensures survives { LastsUncommitted S.Store conn.old conn.new }
{
    if !conn.is_autocommit() {
        return false;
    }
    conn.prepare("").is_ok()
}

/// What a fault is to the store's caller: want of memory only where the connection is seen to be open, so
/// that nothing has changed.
pub fn checked_fault<S: Alter>(conn: &mut Connection<S>, fault: Fault) -> Fault
    ensures memory { HasCleanDisk (state S.Store conn.new) → result ≡ Fault.Memory
        → Shows (state S.Store conn.old) (state S.Store conn.new) (state S.Store conn.old).now
        (state S.Store conn.old).now false }
    ensures left { LeavesEither S.Store conn.old conn.new }
    ensures survives { LastsUncommitted S.Store conn.old conn.new }
{
    if fault == Fault::Memory && is_open(conn) {
        Fault::Memory
    } else {
        Fault::Storage
    }
}
