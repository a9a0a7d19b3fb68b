//! What a failure is to the store's caller.
ghost use Rattle.store_statements.specs.Told.{Checked};

use crate::open_check::checked_fault;
use oci_types::Fault;
use sqlite::{Alter, Connection};

/// What was found, or done. Of a failure want of memory is told only where the connection is seen to be open
/// still and nothing has changed, and else a failure of the storage.
pub fn checked<S: Alter, T>(conn: &mut Connection<S>, found: Result<T, Fault>) -> Result<T, Fault>
    ensures told { Checked S.Store conn.old conn.new found result }
{
    match found {
        Ok(value) => Ok(value),
        Err(fault) => Err(checked_fault(conn, fault)),
    }
}
