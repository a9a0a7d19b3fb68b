//! The content that has some bytes.
ghost use Rattle.std.specs.Prelude.{◌≡◌, true, false, IfOk, OnOk, IfSome, MatchOption, ℤ, ◌≢◌, None, Some};
ghost use Rattle.std.specs.List.{list_any};
ghost use Rattle.sqlite.specs.State.{HasCleanDisk, IsUnchanged, KeepsCommit, Survives};
ghost use Rattle.sqlite.specs.Held.{state};
ghost use Rattle.store_contents.specs.Contents.{HoldsContents, bytes_in, sha256_text};
ghost use Rattle.store_contents.specs.Read.{IsRead};
ghost use Rattle.store_contents.specs.Search.{shows_bytes, shows_content, ShowsFirst};

use crate::fault::{fault_of, told};
use oci_types::Fault;
use sqlite::types::ValueRef;
use sqlite::{Alter, Error, Row, Transaction, params};

/// The bytes are compared where the row has them.
fn shows(row: &Row, bytes: &[u8]) -> bool
    ensures { result ≡ shows_bytes bytes.now row.now }
{
    match row.get_ref(1) {
        Ok(ValueRef::Blob(there)) => there == bytes,
        _ => false,
    }
}

/// The id that the first row with the bytes shows.
fn id_among(rows: &[Row], bytes: &[u8]) -> Result<Option<i64>, Error>
    ensures none { IfOk result (λ o. o ≡ None → list_any (shows_bytes bytes.now) rows.now ≡ false) }
    ensures some { IfOk result (λ o. IfSome o (λ id. list_any (shows_content id bytes.now) rows.now ≡ true)) }
{
    for row in rows {
        if shows(row, bytes) {
            let id = row.get(0)?;
            return Ok(Some(id));
        }
    }
    Ok(None)
}

/// The same of what a query gave.
fn first_with(shown: Result<Vec<Row>, Error>, bytes: &[u8]) -> Result<Option<i64>, Fault>
    ensures { IsRead shown result (ShowsFirst bytes.now) }
{
    match shown {
        Ok(rows) => told(id_among(&rows, bytes)),
        Err(error) => Err(fault_of(error)),
    }
}

/// The id of the content that has the bytes, if there is one.
pub(crate) fn find<S: Alter>(
    tx: &mut Transaction<'_, S>,
    sha256: &str,
    bytes: &[u8],
) -> Result<Option<i64>, Fault>
    requires hashed { sha256.now ≡ sha256_text bytes.now }
    ensures found { HasCleanDisk (state S.Store tx.new.conn.now)
        → HoldsContents (state S.Store tx.old.conn.now).now
        → IfOk result
        (λ o. MatchOption o ((i : ℤ) → bytes_in (state S.Store tx.old.conn.now).now i ≢ Some bytes.now)
        (λ id. bytes_in (state S.Store tx.old.conn.now).now id ≡ Some bytes.now)) }
    ensures same { HasCleanDisk (state S.Store tx.new.conn.now)
        → HoldsContents (state S.Store tx.old.conn.now).now
        → OnOk result (IsUnchanged (state S.Store tx.old.conn.now) (state S.Store tx.new.conn.now)) }
    ensures kept { HasCleanDisk (state S.Store tx.new.conn.now)
        → HoldsContents (state S.Store tx.old.conn.now).now
        → KeepsCommit (state S.Store tx.old.conn.now) (state S.Store tx.new.conn.now) }
    ensures same_reference { tx.new.conn.ghost_name ≡ tx.old.conn.ghost_name }
    ensures survives { Survives (state S.Store tx.old.conn.now) (state S.Store tx.new.conn.now) (λ _. ⊥) }
{
    first_with(
        tx.query_all(
            "SELECT id, bytes FROM registry_contents WHERE sha256 = ?1",
            params![sha256],
        ),
        bytes,
    )
}
