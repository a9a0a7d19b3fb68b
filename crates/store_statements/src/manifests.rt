//! The rows of the links to manifests.
ghost use Rattle.std.specs.Prelude.{◌≡◌, ◌<◌, ◌^◌, map, find, filter, option_map, None};
ghost use Rattle.std.specs.List.Sorted.{IsPermutation};
ghost use Rattle.sqlite_keyed.specs.Lists.{sort_by};
ghost use Rattle.store_schema.specs.Rows.{bytes_at, natural_at};
ghost use Rattle.store_contents.specs.Layouts.{Layout};
ghost use Rattle.store_statements.specs.Keys.{of_first, has_key};
ghost use Rattle.store_statements.specs.Changes.{manifest_columns};
ghost use Rattle.store_statements.specs.Between.{Finds, Keeps, Stays};
ghost use Rattle.store_statements.specs.Clauses.{Adds, Changes, ChangesNothingInside, FindsInside, KeepsInside, Lasts, LastsUncommitted};
ghost use Rattle.store_statements.specs.Steps.{manifests_without, ManifestComes};
ghost use Rattle.store_statements.specs.ManifestShown.{by_second, link_shown, manifest_link, manifest_content};

use crate::reading::{FromRow, all, first};
use crate::telling::checked;
use oci_types::{Digest, Fault, Kind};
use sqlite::{Alter, Connection, Error, ErrorCode, Row, Transaction, params};
use std::alloc::Global;
use store_contents::{ContentId, done};

/// A manifest of a repository: its size in bytes, its kind, and the content that is its bytes.
#[derive(Clone, Copy)]
pub struct ManifestLink {
    pub size: u64,
    pub kind: Kind,
    pub content: ContentId,
}

/// Puts a link in whose digest the repository has not. `size` is at most `i64::MAX`.
pub fn add_manifest_link<S: Alter>(
    tx: &mut Transaction<'_, S>,
    repo: &str,
    digest: &str,
    size: u64,
    kind: Kind,
    subject: Option<&str>,
    content: ContentId,
) -> Result<(), Fault>
    requires { size < 2 ^ 63 }
    ensures added { (l : Layout) → Adds S.Store l tx.old.conn.now tx.new.conn.now result
        (λ t. find (has_key repo.now digest.now) t.manifests ≡ None) ManifestComes
        (manifest_columns repo.now digest.now size kind (option_map (λ text. text.now) subject.entry)
        content.id) }
    ensures kept { (l : Layout) → KeepsInside S.Store l tx.old.conn.now tx.new.conn.now }
    ensures same_reference { tx.new.conn.ghost_name ≡ tx.old.conn.ghost_name }
    ensures survives { LastsUncommitted S.Store tx.old.conn.now tx.new.conn.now }
{
    done(tx.execute(
        "INSERT INTO registry_manifest_links (repo, digest, size, kind, subject, content) \
         VALUES (?1, ?2, ?3, ?4, ?5, ?6)",
        params![
            repo,
            digest,
            size as i64,
            i64::from(kind.number()),
            subject,
            content.get()
        ],
    ))
}

/// Takes the link out, where it is there.
pub fn take_manifest_link<S: Alter>(
    tx: &mut Transaction<'_, S>,
    repo: &str,
    digest: &str,
) -> Result<(), Fault>
    ensures taken { (l : Layout) → Changes S.Store l tx.old.conn.now tx.new.conn.now result
        (manifests_without (has_key repo.now digest.now)) }
    ensures kept { (l : Layout) → KeepsInside S.Store l tx.old.conn.now tx.new.conn.now }
    ensures same_reference { tx.new.conn.ghost_name ≡ tx.old.conn.ghost_name }
    ensures survives { LastsUncommitted S.Store tx.old.conn.now tx.new.conn.now }
{
    done(tx.execute(
        "DELETE FROM registry_manifest_links WHERE repo = ?1 AND digest = ?2",
        params![repo, digest],
    ))
}

/// Takes out all links of the repository.
pub fn take_manifest_links<S: Alter>(tx: &mut Transaction<'_, S>, repo: &str) -> Result<(), Fault>
    ensures taken { (l : Layout) → Changes S.Store l tx.old.conn.now tx.new.conn.now result
        (manifests_without (of_first repo.now)) }
    ensures kept { (l : Layout) → KeepsInside S.Store l tx.old.conn.now tx.new.conn.now }
    ensures same_reference { tx.new.conn.ghost_name ≡ tx.old.conn.ghost_name }
    ensures survives { LastsUncommitted S.Store tx.old.conn.now tx.new.conn.now }
{
    done(tx.execute(
        "DELETE FROM registry_manifest_links WHERE repo = ?1",
        params![repo],
    ))
}

impl FromRow for ManifestLink {
    ghost shown = { link_shown };

    fn read(_alloc: Global, row: &Row) -> Result<ManifestLink, Error> {
        let size: u64 = row.get(0)?;
        let number: u64 = row.get(1)?;
        let id: i64 = row.get(2)?;
        let kind = match number {
            1 => Kind::Image,
            2 => Kind::Index,
            _ => return Err(Error::SqliteFailure(ErrorCode::DatabaseCorrupt)),
        };
        Ok(ManifestLink {
            size,
            kind,
            content: ContentId::new(id),
        })
    }
}

/// The link of the digest, if the repository has it.
pub fn find_manifest_link<S: Alter>(
    conn: &mut Connection<S>,
    repo: &str,
    digest: &str,
) -> Result<Option<ManifestLink>, Fault>
    ensures found { (l : Layout) → Finds S.Store l conn.old conn.new result
        (λ t o. o ≡ option_map manifest_link (find (has_key repo.now digest.now) t.manifests)) }
    ensures settled { (l : Layout) → Stays S.Store l conn.old conn.new result }
    ensures kept { (l : Layout) → Keeps S.Store l conn.old conn.new }
    ensures survives { Lasts S.Store conn.old conn.new }
{
    let shown = conn.query_all(
        "SELECT size, kind, content FROM registry_manifest_links WHERE repo = ?1 AND digest = ?2",
        params![repo, digest],
    );
    let found = first(shown);
    checked(conn, found)
}

/// The sizes in bytes of the manifests of the repository, in any order.
pub fn manifest_sizes<S: Alter>(
    alloc: Global,
    conn: &mut Connection<S>,
    repo: &str,
) -> Result<Vec<u64>, Fault>
    ensures found { (l : Layout) → Finds S.Store l conn.old conn.new result
        (λ t sizes. IsPermutation (map (λ r. natural_at r 3) (filter (of_first repo.now) t.manifests))
        sizes.items) }
    ensures settled { (l : Layout) → Stays S.Store l conn.old conn.new result }
    ensures survives { Lasts S.Store conn.old conn.new }
{
    let shown = conn.query_all(
        "SELECT size FROM registry_manifest_links WHERE repo = ?1",
        params![repo],
    );
    let found = all(alloc, shown);
    checked(conn, found)
}

/// The digest of each manifest of the repository, in byte order.
pub fn list_manifest_digests<S: Alter>(
    alloc: Global,
    conn: &mut Connection<S>,
    repo: &str,
) -> Result<Vec<Digest>, Fault>
    ensures found { (l : Layout) → Finds S.Store l conn.old conn.new result
        (λ t digests. digests.items ≡ map (λ r. bytes_at r 2)
        (sort_by by_second (filter (of_first repo.now) t.manifests))) }
    ensures settled { (l : Layout) → Stays S.Store l conn.old conn.new result }
    ensures survives { Lasts S.Store conn.old conn.new }
{
    let shown = conn.query_all(
        "SELECT digest FROM registry_manifest_links WHERE repo = ?1 ORDER BY digest",
        params![repo],
    );
    let found = all(alloc, shown);
    checked(conn, found)
}

/// The content of each manifest of each repository, in any order. Nothing changes.
pub fn manifest_contents<S: Alter>(
    alloc: Global,
    tx: &mut Transaction<'_, S>,
) -> Result<Vec<ContentId>, Fault>
    ensures found { (l : Layout) → FindsInside S.Store l tx.old.conn.now tx.new.conn.now result
        (λ t ids. IsPermutation (map manifest_content t.manifests) ids.items) }
    ensures same { (l : Layout) → ChangesNothingInside S.Store l tx.old.conn.now tx.new.conn.now result }
    ensures kept { (l : Layout) → KeepsInside S.Store l tx.old.conn.now tx.new.conn.now }
    ensures same_reference { tx.new.conn.ghost_name ≡ tx.old.conn.ghost_name }
    ensures survives { LastsUncommitted S.Store tx.old.conn.now tx.new.conn.now }
{
    all(
        alloc,
        tx.query_all("SELECT content FROM registry_manifest_links", &[]),
    )
}
