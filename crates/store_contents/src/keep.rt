//! The content that has some bytes, which is there or is added.
ghost use Rattle.std.specs.Prelude.{◌≡◌, OnOk, IfOk};
ghost use Rattle.sqlite.specs.State.{HasCleanDisk, KeepsCommit, Survives};
ghost use Rattle.sqlite.specs.Held.{state};
ghost use Rattle.sha2.specs.Sha256.{sha256};
ghost use Rattle.store_contents.specs.Contents.{IsInside, FindsOrAdds, sha256_text};

use crate::add::add;
use crate::content_id::ContentId;
use crate::search::find;
use oci_types::Fault;
use sha2::{Digest, Sha256};
use sqlite::{Alter, Transaction};
use std::alloc::Global;

/// The content that has the bytes: it is the one that was there, or it is added. Whole bytes decide; the
/// digest only narrows the search. No other content changes, nor does any other table.
///
/// After a fault the caller gives the transaction up, and the tables are those from before it.
/// `Fault::Memory` where memory was refused, `Fault::Storage` where the database failed otherwise.
pub fn find_or_add<S: Alter>(
    alloc: Global,
    tx: &mut Transaction<'_, S>,
    bytes: &[u8],
) -> Result<ContentId, Fault>
    ensures content { HasCleanDisk (state S.Store tx.new.conn.now) → IsInside (state S.Store tx.old.conn.now)
        → IfOk result
        (λ it. FindsOrAdds (state S.Store tx.old.conn.now).now (state S.Store tx.new.conn.now).now it.id
        bytes.now) }
    ensures inside { HasCleanDisk (state S.Store tx.new.conn.now) → IsInside (state S.Store tx.old.conn.now)
        → OnOk result (IsInside (state S.Store tx.new.conn.now)) }
    ensures kept { HasCleanDisk (state S.Store tx.new.conn.now) → IsInside (state S.Store tx.old.conn.now)
        → KeepsCommit (state S.Store tx.old.conn.now) (state S.Store tx.new.conn.now) }
    ensures same_reference { tx.new.conn.ghost_name ≡ tx.old.conn.ghost_name }
    ensures survives { Survives (state S.Store tx.old.conn.now) (state S.Store tx.new.conn.now) (λ _. ⊥) }
{
    find_or_add_with(alloc, tx, Sha256::digest(bytes), bytes)
}

/// As `find_or_add`, with the SHA-256 of the bytes (FIPS 180-4), so that bytes which a caller has hashed are
/// not hashed again.
pub fn find_or_add_with<S: Alter>(
    alloc: Global,
    tx: &mut Transaction<'_, S>,
    hash: [u8; 32],
    bytes: &[u8],
) -> Result<ContentId, Fault>
    requires hashed { hash ≡ sha256 bytes.now }
    ensures content { HasCleanDisk (state S.Store tx.new.conn.now) → IsInside (state S.Store tx.old.conn.now)
        → IfOk result
        (λ it. FindsOrAdds (state S.Store tx.old.conn.now).now (state S.Store tx.new.conn.now).now it.id
        bytes.now) }
    ensures inside { HasCleanDisk (state S.Store tx.new.conn.now) → IsInside (state S.Store tx.old.conn.now)
        → OnOk result (IsInside (state S.Store tx.new.conn.now)) }
    ensures kept { HasCleanDisk (state S.Store tx.new.conn.now) → IsInside (state S.Store tx.old.conn.now)
        → KeepsCommit (state S.Store tx.old.conn.now) (state S.Store tx.new.conn.now) }
    ensures same_reference { tx.new.conn.ghost_name ≡ tx.old.conn.ghost_name }
    ensures survives { Survives (state S.Store tx.old.conn.now) (state S.Store tx.new.conn.now) (λ _. ⊥) }
{
    let Ok(text) = hex::encode(alloc, hash) else {
        return Err(Fault::Memory);
    };
    find_or_add_hashed(tx, text.as_str(), bytes)
}

/// The same with the SHA-256 as 64 lower-case hexadecimal digits.
pub fn find_or_add_hashed<S: Alter>(
    tx: &mut Transaction<'_, S>,
    sha256: &str,
    bytes: &[u8],
) -> Result<ContentId, Fault>
    requires hashed { sha256.now ≡ sha256_text bytes.now }
    ensures content { HasCleanDisk (state S.Store tx.new.conn.now) → IsInside (state S.Store tx.old.conn.now)
        → IfOk result
        (λ it. FindsOrAdds (state S.Store tx.old.conn.now).now (state S.Store tx.new.conn.now).now it.id
        bytes.now) }
    ensures inside { HasCleanDisk (state S.Store tx.new.conn.now) → IsInside (state S.Store tx.old.conn.now)
        → OnOk result (IsInside (state S.Store tx.new.conn.now)) }
    ensures kept { HasCleanDisk (state S.Store tx.new.conn.now) → IsInside (state S.Store tx.old.conn.now)
        → KeepsCommit (state S.Store tx.old.conn.now) (state S.Store tx.new.conn.now) }
    ensures same_reference { tx.new.conn.ghost_name ≡ tx.old.conn.ghost_name }
    ensures survives { Survives (state S.Store tx.old.conn.now) (state S.Store tx.new.conn.now) (λ _. ⊥) }
{
    match find(tx, sha256, bytes) {
        Ok(Some(id)) => Ok(ContentId::new(id)),
        Ok(None) => add(tx, sha256, bytes),
        Err(fault) => Err(fault),
    }
}
