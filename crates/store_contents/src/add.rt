//! A content that is not there yet.
ghost use Rattle.std.specs.Prelude.{◌≡◌, ◌≢◌, ℤ, IfOk, OnOk, Some};
ghost use Rattle.sqlite.specs.State.{HasCleanDisk, KeepsCommit, Survives};
ghost use Rattle.sqlite.specs.Held.{state};
ghost use Rattle.store_contents.specs.Contents.{IsInside, Adds, bytes_in, sha256_text};

use crate::content_id::ContentId;
use crate::fault::fault_of;
use oci_types::Fault;
use sqlite::{Alter, Transaction, params};

/// Puts the bytes in under a new id, which is the answer.
pub(crate) fn add<S: Alter>(
    tx: &mut Transaction<'_, S>,
    sha256: &str,
    bytes: &[u8],
) -> Result<ContentId, Fault>
    requires hashed { sha256.now ≡ sha256_text bytes.now }
    ensures added { HasCleanDisk (state S.Store tx.new.conn.now) → IsInside (state S.Store tx.old.conn.now)
        → ((i : ℤ) → bytes_in (state S.Store tx.old.conn.now).now i ≢ Some bytes.now)
        → IfOk result
        (λ it. Adds (state S.Store tx.old.conn.now).now (state S.Store tx.new.conn.now).now it.id
        bytes.now) }
    ensures inside { HasCleanDisk (state S.Store tx.new.conn.now) → IsInside (state S.Store tx.old.conn.now)
        → ((i : ℤ) → bytes_in (state S.Store tx.old.conn.now).now i ≢ Some bytes.now)
        → OnOk result (IsInside (state S.Store tx.new.conn.now)) }
    ensures kept { HasCleanDisk (state S.Store tx.new.conn.now) → IsInside (state S.Store tx.old.conn.now)
        → KeepsCommit (state S.Store tx.old.conn.now) (state S.Store tx.new.conn.now) }
    ensures same_reference { tx.new.conn.ghost_name ≡ tx.old.conn.ghost_name }
    ensures survives { Survives (state S.Store tx.old.conn.now) (state S.Store tx.new.conn.now) (λ _. ⊥) }
{
    match tx.execute(
        "INSERT INTO registry_contents (sha256, size, bytes) VALUES (?1, ?2, ?3)",
        params![sha256, bytes.len() as i64, bytes],
    ) {
        Ok(_) => Ok(ContentId::new(tx.last_insert_rowid())),
        Err(error) => Err(fault_of(error)),
    }
}
