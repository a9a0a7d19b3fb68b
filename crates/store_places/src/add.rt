//! A content whose bytes stand in the pack: its row, and a row for each of its places.
ghost use Rattle.std.specs.Prelude.{◌≡◌, ◌<◌, ◌^◌, [], filter, IfOk, OnOk};
ghost use Rattle.std.specs.List.{AllByRecursion};
ghost use Rattle.sqlite.specs.State.{HasCleanDisk, KeepsCommit, Survives};
ghost use Rattle.sqlite.specs.Held.{state};
ghost use Rattle.registry_pack.specs.Extents.{size_of, starts_at, total_of};
ghost use Rattle.store_contents.specs.Places.{of_content, place_rows};
ghost use Rattle.hex.specs.Hex.{encode_lower};
ghost use Rattle.store_places.specs.Places.{IsInside, Adds, AreBefore, PutsContent, PutsPlace, PutsPlaces, has_content};

use crate::source::total;
use oci_types::Fault;
use registry_pack::Extent;
use sqlite::{Alter, Transaction, params};
use std::alloc::Global;
use store_contents::{ContentId, done, fault_of};

/// Puts the row of a content in under a new id, which is the answer. It has no places yet.
fn put_content<S: Alter>(
    tx: &mut Transaction<'_, S>,
    sha256: &str,
    size: usize,
) -> Result<ContentId, Fault>
    requires fits { size < 2 ^ 63 }
    ensures put { HasCleanDisk (state S.Store tx.new.conn.now) → IsInside (state S.Store tx.old.conn.now)
        → IfOk result
        (λ it. PutsContent (state S.Store tx.old.conn.now).now (state S.Store tx.new.conn.now).now it.id
        sha256.now size × IsInside (state S.Store tx.new.conn.now)) }
    ensures kept { HasCleanDisk (state S.Store tx.new.conn.now) → IsInside (state S.Store tx.old.conn.now)
        → KeepsCommit (state S.Store tx.old.conn.now) (state S.Store tx.new.conn.now) }
    ensures same_reference { tx.new.conn.ghost_name ≡ tx.old.conn.ghost_name }
    ensures survives { Survives (state S.Store tx.old.conn.now) (state S.Store tx.new.conn.now) (λ _. ⊥) }
{
    match tx.execute(
        "INSERT INTO registry_contents (sha256, size) VALUES (?1, ?2)",
        params![sha256, size as i64],
    ) {
        Ok(_) => Ok(ContentId::new(tx.last_insert_rowid())),
        Err(error) => Err(fault_of(error)),
    }
}

/// Puts the row of a place in: the content's bytes from `start` on stand at the extent. Its places so far
/// begin before.
fn put_place<S: Alter>(
    tx: &mut Transaction<'_, S>,
    id: ContentId,
    start: usize,
    extent: Extent,
) -> Result<(), Fault>
    requires fits { start < 2 ^ 63 }
    ensures put { HasCleanDisk (state S.Store tx.new.conn.now) → IsInside (state S.Store tx.old.conn.now)
        → has_content (state S.Store tx.old.conn.now).now id.id
        → AreBefore start (filter (of_content id.id) (place_rows (state S.Store tx.old.conn.now).now))
        → OnOk result
        (PutsPlace (state S.Store tx.old.conn.now).now (state S.Store tx.new.conn.now).now id.id start
        (starts_at extent) (size_of extent) × IsInside (state S.Store tx.new.conn.now)) }
    ensures kept { HasCleanDisk (state S.Store tx.new.conn.now) → IsInside (state S.Store tx.old.conn.now)
        → KeepsCommit (state S.Store tx.old.conn.now) (state S.Store tx.new.conn.now) }
    ensures same_reference { tx.new.conn.ghost_name ≡ tx.old.conn.ghost_name }
    ensures survives { Survives (state S.Store tx.old.conn.now) (state S.Store tx.new.conn.now) (λ _. ⊥) }
{
    done(tx.execute(
        "INSERT INTO registry_places (content, start, size, at) VALUES (?1, ?2, ?3, ?4)",
        params![
            id.get(),
            start as i64,
            extent.size() as i64,
            extent.at() as i64
        ],
    ))
}

/// Puts the rows of the places in, one behind the other, of a content that has none.
fn put_places<S: Alter>(
    tx: &mut Transaction<'_, S>,
    id: ContentId,
    extents: &[Extent],
) -> Result<(), Fault>
    requires fits { total_of extents.now < 2 ^ 63 }
    requires some { AllByRecursion (λ e. 0 < size_of e) extents.now }
    ensures put { HasCleanDisk (state S.Store tx.new.conn.now) → IsInside (state S.Store tx.old.conn.now)
        → has_content (state S.Store tx.old.conn.now).now id.id
        → filter (of_content id.id) (place_rows (state S.Store tx.old.conn.now).now) ≡ []
        → OnOk result
        (PutsPlaces (state S.Store tx.old.conn.now).now (state S.Store tx.new.conn.now).now id.id 0
        extents.now × IsInside (state S.Store tx.new.conn.now)) }
    ensures kept { HasCleanDisk (state S.Store tx.new.conn.now) → IsInside (state S.Store tx.old.conn.now)
        → has_content (state S.Store tx.old.conn.now).now id.id
        → filter (of_content id.id) (place_rows (state S.Store tx.old.conn.now).now) ≡ []
        → KeepsCommit (state S.Store tx.old.conn.now) (state S.Store tx.new.conn.now) }
    ensures same_reference { tx.new.conn.ghost_name ≡ tx.old.conn.ghost_name }
    ensures survives { Survives (state S.Store tx.old.conn.now) (state S.Store tx.new.conn.now) (λ _. ⊥) }
{
    let mut start = 0;
    for extent in extents {
        put_place(tx, id, start, *extent)?;
        start += extent.size();
    }
    Ok(())
}

/// Puts a content in whose bytes stand at these extents of the pack, under a new id, which is the answer. Its
/// SHA-256 is given as 64 digits, as the column has it. That the bytes stand there, and last, is the caller's
/// to see to, and so is that no other content has these bytes where that matters. No other content changes,
/// nor does any other table.
///
/// After a fault the caller gives the transaction up, and the tables are those from before it.
pub fn add_content<S: Alter>(
    tx: &mut Transaction<'_, S>,
    sha256: &str,
    extents: &[Extent],
) -> Result<ContentId, Fault>
    requires fits { total_of extents.now < 2 ^ 63 }
    requires some { AllByRecursion (λ e. 0 < size_of e) extents.now }
    ensures added { HasCleanDisk (state S.Store tx.new.conn.now) → IsInside (state S.Store tx.old.conn.now)
        → IfOk result
        (λ it. Adds (state S.Store tx.old.conn.now).now (state S.Store tx.new.conn.now).now it.id sha256.now
        extents.now × IsInside (state S.Store tx.new.conn.now)) }
    ensures kept { HasCleanDisk (state S.Store tx.new.conn.now) → IsInside (state S.Store tx.old.conn.now)
        → KeepsCommit (state S.Store tx.old.conn.now) (state S.Store tx.new.conn.now) }
    ensures same_reference { tx.new.conn.ghost_name ≡ tx.old.conn.ghost_name }
    ensures survives { Survives (state S.Store tx.old.conn.now) (state S.Store tx.new.conn.now) (λ _. ⊥) }
{
    let id = put_content(tx, sha256, total(extents))?;
    put_places(tx, id, extents)?;
    Ok(id)
}

/// As [`add_content`], with the SHA-256 as bytes (FIPS 180-4).
pub fn add_hashed<S: Alter>(
    alloc: Global,
    tx: &mut Transaction<'_, S>,
    hash: [u8; 32],
    extents: &[Extent],
) -> Result<ContentId, Fault>
    requires fits { total_of extents.now < 2 ^ 63 }
    requires some { AllByRecursion (λ e. 0 < size_of e) extents.now }
    ensures added { HasCleanDisk (state S.Store tx.new.conn.now) → IsInside (state S.Store tx.old.conn.now)
        → IfOk result
        (λ it. Adds (state S.Store tx.old.conn.now).now (state S.Store tx.new.conn.now).now it.id
        (encode_lower hash) extents.now × IsInside (state S.Store tx.new.conn.now)) }
    ensures kept { HasCleanDisk (state S.Store tx.new.conn.now) → IsInside (state S.Store tx.old.conn.now)
        → KeepsCommit (state S.Store tx.old.conn.now) (state S.Store tx.new.conn.now) }
    ensures same_reference { tx.new.conn.ghost_name ≡ tx.old.conn.ghost_name }
    ensures survives { Survives (state S.Store tx.old.conn.now) (state S.Store tx.new.conn.now) (λ _. ⊥) }
{
    let Ok(text) = hex::encode(alloc, hash) else {
        return Err(Fault::Memory);
    };
    add_content(tx, text.as_str(), extents)
}
