//! The shape that each change has: its work in a transaction of its own.
ghost use Rattle.store_statements.specs.Ends.{Ends};

use oci_types::Fault;
use sqlite::{Alter, Transaction};
use store_contents::fault_of;

/// Commits the transaction where its work was done, and gives it up where the work failed.
pub fn end<S: Alter>(tx: Transaction<'_, S>, done: Result<(), Fault>) -> Result<(), Fault>
    ensures ended { Ends S.Store tx.entry.conn.now tx.exit.0.now done result }
{
    match done {
        Ok(()) => match tx.commit() {
            Ok(()) => Ok(()),
            Err(error) => Err(fault_of(error)),
        },
        Err(fault) => Err(fault),
    }
}

/// Does the work in a transaction that is begun where none is open.
#[macro_export]
macro_rules! alone {
    ($conn:ident, $tx:ident, $work:expr) => {{
        if !$conn.is_autocommit() {
            return Err(oci_types::Fault::Storage);
        }
        let mut $tx = $conn.transaction();
        let done = $work;
        $crate::transaction::end($tx, done)
    }};
}
