//! Bytes that are kept once, as links and pieces name them.
ghost use Rattle.std.specs.Prelude.{◌≡◌, ◌<◌, ◌^◌, true, ℕ, List, [], IfSome};
ghost use Rattle.std.specs.List.{AllByRecursion};
ghost use Rattle.sha2.specs.Sha256.{sha256};
ghost use Rattle.oci_types.specs.Digest.{matches};
ghost use Rattle.registry_pack.specs.Extents.{AreWithin, bytes_at, size_of, total_of};
ghost use Rattle.store_contents.specs.Layouts.{Layout, InTables, InPack};
ghost use Rattle.store_places.specs.Places.{runs_at};
ghost use Rattle.store_places.specs.Source.{Fits, IfBytes, Suits, runs_in, text_in};
ghost use Rattle.store_statements.specs.Between.{Finds, Keeps, Stays};
ghost use Rattle.store_statements.specs.Clauses.{KeepsInside, Lasts, LastsUncommitted};
ghost use Rattle.store_statements.specs.ContentShown.{has_sha256_digest};
ghost use Rattle.store_statements.specs.StepsFrom.{KeepsContent};

use crate::open_check::checked_fault;
use oci_types::Fault;
use registry_pack::Extent;
use sqlite::{Alter, Connection, Transaction};
use std::alloc::Global;
use store_contents::{
    ContentId, find_or_add, find_or_add_hashed, find_or_add_with, is_hashed, is_hashed_in_pack,
};
use store_places::{Source, add_hashed};

/// The content of the tables that has the bytes: it was there, or it is added.
pub fn keep<S: Alter>(
    alloc: Global,
    tx: &mut Transaction<'_, S>,
    bytes: &[u8],
) -> Result<ContentId, Fault>
    ensures content { KeepsContent S.Store InTables tx.old.conn.now tx.new.conn.now result bytes.now
        [] }
    ensures kept { KeepsInside S.Store InTables tx.old.conn.now tx.new.conn.now }
    ensures same_reference { tx.new.conn.ghost_name ≡ tx.old.conn.ghost_name }
    ensures survives { LastsUncommitted S.Store tx.old.conn.now tx.new.conn.now }
{
    find_or_add(alloc, tx, bytes)
}

/// The bytes of a content in the tables that a digest matches: one of sha256 spares hashing them again.
fn keep_bytes<S: Alter>(
    alloc: Global,
    tx: &mut Transaction<'_, S>,
    digest: &str,
    bytes: &[u8],
) -> Result<ContentId, Fault>
    requires matching { matches digest.now bytes.now ≡ true }
    ensures content { KeepsContent S.Store InTables tx.old.conn.now tx.new.conn.now result bytes.now
        [] }
    ensures kept { KeepsInside S.Store InTables tx.old.conn.now tx.new.conn.now }
    ensures same_reference { tx.new.conn.ghost_name ≡ tx.old.conn.ghost_name }
    ensures survives { LastsUncommitted S.Store tx.old.conn.now tx.new.conn.now }
{
    match digest.strip_prefix("sha256:") {
        Some(sha256) => find_or_add_hashed(tx, sha256, bytes),
        None => find_or_add(alloc, tx, bytes),
    }
}

/// The same with their SHA-256, where it is known.
fn keep_hashed<S: Alter>(
    alloc: Global,
    tx: &mut Transaction<'_, S>,
    hash: Option<[u8; 32]>,
    bytes: &[u8],
) -> Result<ContentId, Fault>
    requires hashed { IfSome hash (λ h. h ≡ sha256 bytes.now) }
    ensures content { KeepsContent S.Store InTables tx.old.conn.now tx.new.conn.now result bytes.now
        [] }
    ensures kept { KeepsInside S.Store InTables tx.old.conn.now tx.new.conn.now }
    ensures same_reference { tx.new.conn.ghost_name ≡ tx.old.conn.ghost_name }
    ensures survives { LastsUncommitted S.Store tx.old.conn.now tx.new.conn.now }
{
    match hash {
        Some(hash) => find_or_add_with(alloc, tx, hash, bytes),
        None => find_or_add(alloc, tx, bytes),
    }
}

/// A new content whose bytes stand in the pack.
fn keep_extents<S: Alter>(
    alloc: Global,
    tx: &mut Transaction<'_, S>,
    extents: &[Extent],
    hash: [u8; 32],
) -> Result<ContentId, Fault>
    requires fits { total_of extents.now < 2 ^ 63 }
    requires some { AllByRecursion (λ e. 0 < size_of e) extents.now }
    ensures content { (file : List ℕ) → AreWithin file extents.now → hash ≡ sha256 (bytes_at file extents.now)
        → KeepsContent S.Store (InPack file) tx.old.conn.now tx.new.conn.now result
        (bytes_at file extents.now) (runs_at extents.now) }
    ensures kept { (file : List ℕ) → KeepsInside S.Store (InPack file) tx.old.conn.now tx.new.conn.now }
    ensures same_reference { tx.new.conn.ghost_name ≡ tx.old.conn.ghost_name }
    ensures survives { LastsUncommitted S.Store tx.old.conn.now tx.new.conn.now }
{
    add_hashed(alloc, tx, hash, extents)
}

/// The content that has the bytes of a source, which match the digest. In the tables it is one that was
/// there, or it is added; in a pack it is always added.
pub fn keep_matching<S: Alter>(
    alloc: Global,
    tx: &mut Transaction<'_, S>,
    digest: &str,
    source: Source<'_>,
) -> Result<ContentId, Fault>
    requires fits { Fits source }
    requires matching { IfBytes (λ bytes. matches digest.now bytes ≡ true) source }
    ensures content { (l : Layout) → Suits l source.entry
        → KeepsContent S.Store l tx.old.conn.now tx.new.conn.now result (text_in l source.entry)
        (runs_in source.entry) }
    ensures kept { (l : Layout) → Suits l source.entry
        → KeepsInside S.Store l tx.old.conn.now tx.new.conn.now }
    ensures same_reference { tx.new.conn.ghost_name ≡ tx.old.conn.ghost_name }
    ensures survives { LastsUncommitted S.Store tx.old.conn.now tx.new.conn.now }
{
    match source {
        Source::Bytes(bytes) => keep_bytes(alloc, tx, digest, bytes),
        Source::Extents(extents, hash) => keep_extents(alloc, tx, extents, hash),
    }
}

/// The same with the SHA-256 of bytes in memory, where it is known: then they are not hashed again.
pub fn keep_with<S: Alter>(
    alloc: Global,
    tx: &mut Transaction<'_, S>,
    hash: Option<[u8; 32]>,
    source: Source<'_>,
) -> Result<ContentId, Fault>
    requires fits { Fits source }
    requires hashed { IfBytes (λ bytes. IfSome hash (λ h. h ≡ sha256 bytes)) source }
    ensures content { (l : Layout) → Suits l source.entry
        → KeepsContent S.Store l tx.old.conn.now tx.new.conn.now result (text_in l source.entry)
        (runs_in source.entry) }
    ensures kept { (l : Layout) → Suits l source.entry
        → KeepsInside S.Store l tx.old.conn.now tx.new.conn.now }
    ensures same_reference { tx.new.conn.ghost_name ≡ tx.old.conn.ghost_name }
    ensures survives { LastsUncommitted S.Store tx.old.conn.now tx.new.conn.now }
{
    match source {
        Source::Bytes(bytes) => keep_hashed(alloc, tx, hash, bytes),
        Source::Extents(extents, hash) => keep_extents(alloc, tx, extents, hash),
    }
}

/// Whether the content's bytes have the digest, of one of sha256; of any other `false`, as where there is no
/// such content. No bytes are read.
pub fn has_digest<S: Alter>(
    conn: &mut Connection<S>,
    content: ContentId,
    digest: &str,
) -> Result<bool, Fault>
    ensures found { Finds S.Store InTables conn.old conn.new result
        (λ t has. has ≡ has_sha256_digest (t.contents content.id) digest.now) }
    ensures settled { Stays S.Store InTables conn.old conn.new result }
    ensures kept { Keeps S.Store InTables conn.old conn.new }
    ensures survives { Lasts S.Store conn.old conn.new }
{
    match digest.strip_prefix("sha256:") {
        Some(sha256) => match is_hashed(conn, content, sha256) {
            Ok(found) => Ok(found),
            Err(fault) => Err(checked_fault(conn, fault)),
        },
        None => Ok(false),
    }
}

/// The same where the bytes of contents are in a pack: it is known by rows alone.
pub fn has_digest_in_pack<S: Alter>(
    conn: &mut Connection<S>,
    content: ContentId,
    digest: &str,
) -> Result<bool, Fault>
    ensures found { (file : List ℕ) → Finds S.Store (InPack file) conn.old conn.new result
        (λ t has. has ≡ has_sha256_digest (t.contents content.id) digest.now) }
    ensures settled { (file : List ℕ) → Stays S.Store (InPack file) conn.old conn.new result }
    ensures kept { (file : List ℕ) → Keeps S.Store (InPack file) conn.old conn.new }
    ensures survives { Lasts S.Store conn.old conn.new }
{
    match digest.strip_prefix("sha256:") {
        Some(sha256) => match is_hashed_in_pack(conn, content, sha256) {
            Ok(found) => Ok(found),
            Err(fault) => Err(checked_fault(conn, fault)),
        },
        None => Ok(false),
    }
}
