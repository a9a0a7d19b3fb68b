//! The bytes of a content.
ghost use Rattle.std.specs.Prelude.{◌≡◌, ◌⊎◌, false, option_map, IfOk, IfErr, OnOk, ⊤};
ghost use Rattle.sqlite.specs.State.{HasCleanDisk, IsUnchanged, IsRolledBack, KeepsCommit, Survives};
ghost use Rattle.sqlite.specs.Held.{state};
ghost use Rattle.sqlite.specs.Order.{column};
ghost use Rattle.store_contents.specs.Contents.{HoldsContents, bytes_in};
ghost use Rattle.store_contents.specs.Read.{IsRead};
ghost use Rattle.store_contents.specs.Search.{blob_of, first_bytes, GivesBytes};

use crate::content_id::ContentId;
use crate::fault::{fault_of, told};
use oci_types::Fault;
use sqlite::types::ValueRef;
use sqlite::{Alter, Connection, Error, ErrorCode, Row, Rows, Transaction, params};
use std::alloc::Global;

/// The bytes that the first row shows, if there is a row.
fn bytes_shown(rows: &[Row]) -> Result<Option<Vec<u8>>, Error>
    ensures { IfOk result (λ o. option_map (λ bytes. bytes.items) o ≡ first_bytes rows.now) }
{
    match rows.first() {
        Some(row) => {
            let bytes: Vec<u8> = row.get(0)?;
            Ok(Some(bytes))
        }
        None => Ok(None),
    }
}

/// The same of what a query gave.
fn all_bytes(shown: Result<Vec<Row>, Error>) -> Result<Option<Vec<u8>>, Fault>
    ensures { IsRead shown result (λ rows o. option_map (λ bytes. bytes.items) o ≡ first_bytes rows) }
{
    match shown {
        Ok(rows) => told(bytes_shown(&rows)),
        Err(error) => Err(fault_of(error)),
    }
}

/// The bytes of the content, or `None` where there is no such content. Nothing changes.
///
/// After a fault the caller gives the transaction up, and the tables are those from before it.
pub fn bytes_of<S: Alter>(
    tx: &mut Transaction<'_, S>,
    id: ContentId,
) -> Result<Option<Vec<u8>>, Fault>
    ensures found { HasCleanDisk (state S.Store tx.new.conn.now)
        → HoldsContents (state S.Store tx.old.conn.now).now
        → IfOk result
        (λ o. option_map (λ bytes. bytes.items) o ≡ bytes_in (state S.Store tx.old.conn.now).now id.id) }
    ensures same { HasCleanDisk (state S.Store tx.new.conn.now)
        → HoldsContents (state S.Store tx.old.conn.now).now
        → OnOk result (IsUnchanged (state S.Store tx.old.conn.now) (state S.Store tx.new.conn.now)) }
    ensures kept { HasCleanDisk (state S.Store tx.new.conn.now)
        → HoldsContents (state S.Store tx.old.conn.now).now
        → KeepsCommit (state S.Store tx.old.conn.now) (state S.Store tx.new.conn.now) }
    ensures same_reference { tx.new.conn.ghost_name ≡ tx.old.conn.ghost_name }
    ensures survives { Survives (state S.Store tx.old.conn.now) (state S.Store tx.new.conn.now) (λ _. ⊥) }
{
    all_bytes(tx.query_all(
        "SELECT bytes FROM registry_contents WHERE id = ?1",
        params![id.get()],
    ))
}

/// The bytes that the row shows.
fn copied(alloc: Global, row: &Row) -> Result<Option<Vec<u8>>, Error>
    ensures { IfOk result (λ o. option_map (λ bytes. bytes.items) o ≡ blob_of (column row.now 0)) }
{
    match row.get_ref(0) {
        Ok(ValueRef::Blob(bytes)) => match Vec::from_slice(alloc, bytes) {
            Ok(copy) => Ok(Some(copy)),
            Err(_) => Err(Error::SqliteFailure(ErrorCode::OutOfMemory)),
        },
        _ => Ok(None),
    }
}

/// The bytes that the first row shows, or `None` where there is no row.
fn first_copied<S: Alter>(alloc: Global, rows: &mut Rows<'_, S>) -> Result<Option<Vec<u8>>, Error>
    ensures found { HasCleanDisk (state S.Store rows.new.conn.now)
        → IfOk result
        (λ o. GivesBytes S.Store rows.old.conn.now rows.new.conn.now
        (option_map (λ bytes. bytes.items) o)) }
    ensures same { HasCleanDisk (state S.Store rows.new.conn.now)
        → OnOk result (IsUnchanged (state S.Store rows.old.conn.now) (state S.Store rows.new.conn.now)) }
    ensures failed { HasCleanDisk (state S.Store rows.new.conn.now)
        → IfErr result
        (λ _. IsUnchanged (state S.Store rows.old.conn.now) (state S.Store rows.new.conn.now) ⊎ IsRolledBack
        (state S.Store rows.old.conn.now) (state S.Store rows.new.conn.now)) }
    ensures same_reference { rows.new.conn.ghost_name ≡ rows.old.conn.ghost_name }
    ensures mode { rows.old.conn.now.in_transaction ≡ false → rows.new.conn.now.in_transaction ≡ false }
    ensures survives { Survives (state S.Store rows.old.conn.now) (state S.Store rows.new.conn.now) (λ _. ⊥) }
{
    rows.advance()?;
    match rows.get() {
        Some(row) => copied(alloc, row),
        None => Ok(None),
    }
}

/// The bytes are copied once, from where the database has them.
fn peek<S: Alter>(
    alloc: Global,
    conn: &mut Connection<S>,
    id: i64,
) -> Result<Option<Vec<u8>>, Error>
    ensures found { HasCleanDisk (state S.Store conn.new) → HoldsContents (state S.Store conn.old).now
        → IfOk result (λ o. option_map (λ bytes. bytes.items) o ≡ bytes_in (state S.Store conn.old).now id) }
    ensures same { HasCleanDisk (state S.Store conn.new) → HoldsContents (state S.Store conn.old).now
        → OnOk result (IsUnchanged (state S.Store conn.old) (state S.Store conn.new)) }
    ensures failed { HasCleanDisk (state S.Store conn.new) → HoldsContents (state S.Store conn.old).now
        → IfErr result
        (λ _. IsUnchanged (state S.Store conn.old) (state S.Store conn.new) ⊎ IsRolledBack
        (state S.Store conn.old) (state S.Store conn.new)) }
    ensures mode { (state S.Store conn.old).in_transaction ≡ false
        → (state S.Store conn.new).in_transaction ≡ false }
    ensures survives { (HasCleanDisk (state S.Store conn.old) → HoldsContents (state S.Store conn.old).now)
        → Survives (state S.Store conn.old) (state S.Store conn.new) (λ _. ⊥) }
    ensures lasts { Survives (state S.Store conn.old) (state S.Store conn.new) (λ _. ⊤) }
{
    let mut rows = conn.query(
        "SELECT bytes FROM registry_contents WHERE id = ?1",
        params![id],
    )?;
    first_copied(alloc, &mut rows)
}

/// The bytes of the content over a connection, outside a transaction too, or `None` where there is no such
/// content. They are copied once. Nothing changes; a fault leaves the tables as they were, or as the last
/// commit left them.
pub fn read_bytes<S: Alter>(
    alloc: Global,
    conn: &mut Connection<S>,
    id: ContentId,
) -> Result<Option<Vec<u8>>, Fault>
    ensures found { HasCleanDisk (state S.Store conn.new) → HoldsContents (state S.Store conn.old).now
        → IfOk result
        (λ o. option_map (λ bytes. bytes.items) o ≡ bytes_in (state S.Store conn.old).now id.id) }
    ensures same { HasCleanDisk (state S.Store conn.new) → HoldsContents (state S.Store conn.old).now
        → OnOk result (IsUnchanged (state S.Store conn.old) (state S.Store conn.new)) }
    ensures failed { HasCleanDisk (state S.Store conn.new) → HoldsContents (state S.Store conn.old).now
        → IfErr result
        (λ _. IsUnchanged (state S.Store conn.old) (state S.Store conn.new) ⊎ IsRolledBack
        (state S.Store conn.old) (state S.Store conn.new)) }
    ensures mode { (state S.Store conn.old).in_transaction ≡ false
        → (state S.Store conn.new).in_transaction ≡ false }
    ensures survives { (HasCleanDisk (state S.Store conn.old) → HoldsContents (state S.Store conn.old).now)
        → Survives (state S.Store conn.old) (state S.Store conn.new) (λ _. ⊥) }
    ensures lasts { Survives (state S.Store conn.old) (state S.Store conn.new) (λ _. ⊤) }
{
    told(peek(alloc, conn, id.get()))
}
