//! The rows of links to blobs.
ghost use Rattle.std.specs.Prelude.{◌≡◌, ◌<◌, ◌^◌, map, filter, find, None, option_map};
ghost use Rattle.std.specs.List.Sorted.{IsPermutation};
ghost use Rattle.sqlite_keyed.specs.Lists.{sort_by};
ghost use Rattle.store_schema.specs.Rows.{bytes_at, natural_at};
ghost use Rattle.store_contents.specs.Layouts.{Layout};
ghost use Rattle.store_statements.specs.Keys.{of_first, has_key};
ghost use Rattle.store_statements.specs.Changes.{blob_columns};
ghost use Rattle.store_statements.specs.Between.{Finds, Keeps, Stays};
ghost use Rattle.store_statements.specs.Clauses.{Adds, Changes, ChangesNothingInside, FindsInside, KeepsInside, Lasts, LastsUncommitted};
ghost use Rattle.store_statements.specs.FirstRows.{blob_shown};
ghost use Rattle.store_statements.specs.ManifestShown.{by_second};
ghost use Rattle.store_statements.specs.Shown.{blob_link, content_named};
ghost use Rattle.store_statements.specs.Steps.{blobs_without, BlobComes};

use crate::reading::{FromRow, all, first};
use crate::telling::checked;
use oci_types::{Digest, Fault};
use sqlite::{Alter, Connection, Error, Row, Transaction, params};
use std::alloc::Global;
use store_contents::{ContentId, done};

/// What a repository has of a blob: its size in bytes, and the content that it is.
#[derive(Clone, Copy)]
pub struct BlobLink {
    pub size: u64,
    pub content: ContentId,
}

/// Takes the link out, where it is there.
pub fn take_blob_link<S: Alter>(
    tx: &mut Transaction<'_, S>,
    repo: &str,
    digest: &str,
) -> Result<(), Fault>
    ensures taken { (l : Layout) → Changes S.Store l tx.old.conn.now tx.new.conn.now result
        (blobs_without (has_key repo.now digest.now)) }
    ensures kept { (l : Layout) → KeepsInside S.Store l tx.old.conn.now tx.new.conn.now }
    ensures same_reference { tx.new.conn.ghost_name ≡ tx.old.conn.ghost_name }
    ensures survives { LastsUncommitted S.Store tx.old.conn.now tx.new.conn.now }
{
    done(tx.execute(
        "DELETE FROM registry_blob_links WHERE repo = ?1 AND digest = ?2",
        params![repo, digest],
    ))
}

/// Takes all links of the repository out.
pub fn take_blob_links<S: Alter>(tx: &mut Transaction<'_, S>, repo: &str) -> Result<(), Fault>
    ensures taken { (l : Layout) → Changes S.Store l tx.old.conn.now tx.new.conn.now result
        (blobs_without (of_first repo.now)) }
    ensures kept { (l : Layout) → KeepsInside S.Store l tx.old.conn.now tx.new.conn.now }
    ensures same_reference { tx.new.conn.ghost_name ≡ tx.old.conn.ghost_name }
    ensures survives { LastsUncommitted S.Store tx.old.conn.now tx.new.conn.now }
{
    done(tx.execute(
        "DELETE FROM registry_blob_links WHERE repo = ?1",
        params![repo],
    ))
}

/// Puts a link in that is not there. The size is in bytes.
pub fn add_blob_link<S: Alter>(
    tx: &mut Transaction<'_, S>,
    repo: &str,
    digest: &str,
    size: u64,
    content: ContentId,
) -> Result<(), Fault>
    requires fits { size < 2 ^ 63 }
    ensures added { (l : Layout) → Adds S.Store l tx.old.conn.now tx.new.conn.now result
        (λ t. find (has_key repo.now digest.now) t.blobs ≡ None) BlobComes
        (blob_columns repo.now digest.now size content.id) }
    ensures kept { (l : Layout) → KeepsInside S.Store l tx.old.conn.now tx.new.conn.now }
    ensures same_reference { tx.new.conn.ghost_name ≡ tx.old.conn.ghost_name }
    ensures survives { LastsUncommitted S.Store tx.old.conn.now tx.new.conn.now }
{
    done(tx.execute(
        "INSERT INTO registry_blob_links (repo, digest, size, content) VALUES (?1, ?2, ?3, ?4)",
        params![repo, digest, size as i64, content.get()],
    ))
}

impl FromRow for BlobLink {
    ghost shown = { blob_shown };

    fn read(_alloc: Global, row: &Row) -> Result<BlobLink, Error> {
        let size: u64 = row.get(0)?;
        let id: i64 = row.get(1)?;
        Ok(BlobLink {
            size,
            content: ContentId::new(id),
        })
    }
}

/// The repository's link to the blob, if there is one.
pub fn find_blob_link<S: Alter>(
    conn: &mut Connection<S>,
    repo: &str,
    digest: &str,
) -> Result<Option<BlobLink>, Fault>
    ensures found { (l : Layout) → Finds S.Store l conn.old conn.new result
        (λ t o. o ≡ option_map blob_link (find (has_key repo.now digest.now) t.blobs)) }
    ensures settled { (l : Layout) → Stays S.Store l conn.old conn.new result }
    ensures kept { (l : Layout) → Keeps S.Store l conn.old conn.new }
    ensures survives { Lasts S.Store conn.old conn.new }
{
    let shown = conn.query_all(
        "SELECT size, content FROM registry_blob_links WHERE repo = ?1 AND digest = ?2",
        params![repo, digest],
    );
    let found = first(shown);
    checked(conn, found)
}

/// The size in bytes of each blob of the repository, in any order.
pub fn blob_sizes<S: Alter>(
    alloc: Global,
    conn: &mut Connection<S>,
    repo: &str,
) -> Result<Vec<u64>, Fault>
    ensures found { (l : Layout) → Finds S.Store l conn.old conn.new result
        (λ t sizes. IsPermutation (map (λ r. natural_at r 3) (filter (of_first repo.now) t.blobs))
        sizes.items) }
    ensures settled { (l : Layout) → Stays S.Store l conn.old conn.new result }
    ensures survives { Lasts S.Store conn.old conn.new }
{
    let shown = conn.query_all(
        "SELECT size FROM registry_blob_links WHERE repo = ?1",
        params![repo],
    );
    let found = all(alloc, shown);
    checked(conn, found)
}

/// The digest of each blob of the repository, in byte order.
pub fn list_blob_digests<S: Alter>(
    alloc: Global,
    conn: &mut Connection<S>,
    repo: &str,
) -> Result<Vec<Digest>, Fault>
    ensures found { (l : Layout) → Finds S.Store l conn.old conn.new result
        (λ t digests. digests.items ≡ map (λ r. bytes_at r 2)
        (sort_by by_second (filter (of_first repo.now) t.blobs))) }
    ensures settled { (l : Layout) → Stays S.Store l conn.old conn.new result }
    ensures survives { Lasts S.Store conn.old conn.new }
{
    let shown = conn.query_all(
        "SELECT digest FROM registry_blob_links WHERE repo = ?1 ORDER BY digest",
        params![repo],
    );
    let found = all(alloc, shown);
    checked(conn, found)
}

/// The content that each blob's link names, of all repositories, in any order. Nothing changes.
pub fn blob_contents<S: Alter>(
    alloc: Global,
    tx: &mut Transaction<'_, S>,
) -> Result<Vec<ContentId>, Fault>
    ensures found { (l : Layout) → FindsInside S.Store l tx.old.conn.now tx.new.conn.now result
        (λ t ids. IsPermutation (map (content_named 4) t.blobs) ids.items) }
    ensures same { (l : Layout) → ChangesNothingInside S.Store l tx.old.conn.now tx.new.conn.now result }
    ensures kept { (l : Layout) → KeepsInside S.Store l tx.old.conn.now tx.new.conn.now }
    ensures same_reference { tx.new.conn.ghost_name ≡ tx.old.conn.ghost_name }
    ensures survives { LastsUncommitted S.Store tx.old.conn.now tx.new.conn.now }
{
    all(
        alloc,
        tx.query_all("SELECT content FROM registry_blob_links", &[]),
    )
}
