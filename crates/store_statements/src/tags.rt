//! The rows of tags.
ghost use Rattle.std.specs.Prelude.{◌≡◌, find, filter, length, option_map, None};
ghost use Rattle.store_schema.specs.Rows.{bytes_at};
ghost use Rattle.store_contents.specs.Layouts.{Layout};
ghost use Rattle.store_statements.specs.Keys.{of_first, has_key};
ghost use Rattle.store_statements.specs.Changes.{with_digest, tag_columns};
ghost use Rattle.store_statements.specs.Between.{Finds, Keeps, Stays};
ghost use Rattle.store_statements.specs.Clauses.{Adds, Changes, FindsInside, KeepsInside, Lasts, LastsUncommitted};
ghost use Rattle.store_statements.specs.Steps.{names_digest, tags_without, tags_changed, TagComes};

use crate::reading::{count_rows, first_on};
use crate::telling::checked;
use oci_types::{Digest, Fault};
use sqlite::{Alter, Connection, Transaction, params};
use std::alloc::Global;
use store_contents::{done, told};

/// Takes the tag out, where it is there.
pub fn take_tag<S: Alter>(tx: &mut Transaction<'_, S>, repo: &str, tag: &str) -> Result<(), Fault>
    ensures taken { (l : Layout) → Changes S.Store l tx.old.conn.now tx.new.conn.now result
        (tags_without (has_key repo.now tag.now)) }
    ensures kept { (l : Layout) → KeepsInside S.Store l tx.old.conn.now tx.new.conn.now }
    ensures same_reference { tx.new.conn.ghost_name ≡ tx.old.conn.ghost_name }
    ensures survives { LastsUncommitted S.Store tx.old.conn.now tx.new.conn.now }
{
    done(tx.execute(
        "DELETE FROM registry_tags WHERE repo = ?1 AND tag = ?2",
        params![repo, tag],
    ))
}

/// Sets the tag to the digest, where it is there, and tells how many rows that were: one, or none.
pub fn set_tag<S: Alter>(
    tx: &mut Transaction<'_, S>,
    repo: &str,
    tag: &str,
    digest: &str,
) -> Result<usize, Fault>
    ensures set { (l : Layout) → Changes S.Store l tx.old.conn.now tx.new.conn.now result
        (tags_changed (has_key repo.now tag.now) (with_digest digest.now)) }
    ensures counted { (l : Layout) → FindsInside S.Store l tx.old.conn.now tx.new.conn.now result
        (λ t n. n ≡ length (filter (has_key repo.now tag.now) t.tags)) }
    ensures kept { (l : Layout) → KeepsInside S.Store l tx.old.conn.now tx.new.conn.now }
    ensures same_reference { tx.new.conn.ghost_name ≡ tx.old.conn.ghost_name }
    ensures survives { LastsUncommitted S.Store tx.old.conn.now tx.new.conn.now }
{
    told(tx.execute(
        "UPDATE registry_tags SET digest = ?3 WHERE repo = ?1 AND tag = ?2",
        params![repo, tag, digest],
    ))
}

/// Puts a tag in that is not there.
pub fn add_tag<S: Alter>(
    tx: &mut Transaction<'_, S>,
    repo: &str,
    tag: &str,
    digest: &str,
) -> Result<(), Fault>
    ensures added { (l : Layout) → Adds S.Store l tx.old.conn.now tx.new.conn.now result
        (λ t. find (has_key repo.now tag.now) t.tags ≡ None) TagComes
        (tag_columns repo.now tag.now digest.now) }
    ensures kept { (l : Layout) → KeepsInside S.Store l tx.old.conn.now tx.new.conn.now }
    ensures same_reference { tx.new.conn.ghost_name ≡ tx.old.conn.ghost_name }
    ensures survives { LastsUncommitted S.Store tx.old.conn.now tx.new.conn.now }
{
    done(tx.execute(
        "INSERT INTO registry_tags (repo, tag, digest) VALUES (?1, ?2, ?3)",
        params![repo, tag, digest],
    ))
}

/// Takes out the tags of the repository that name the digest.
pub fn take_tags_named<S: Alter>(
    tx: &mut Transaction<'_, S>,
    repo: &str,
    digest: &str,
) -> Result<(), Fault>
    ensures taken { (l : Layout) → Changes S.Store l tx.old.conn.now tx.new.conn.now result
        (tags_without (names_digest repo.now digest.now)) }
    ensures kept { (l : Layout) → KeepsInside S.Store l tx.old.conn.now tx.new.conn.now }
    ensures same_reference { tx.new.conn.ghost_name ≡ tx.old.conn.ghost_name }
    ensures survives { LastsUncommitted S.Store tx.old.conn.now tx.new.conn.now }
{
    done(tx.execute(
        "DELETE FROM registry_tags WHERE repo = ?1 AND digest = ?2",
        params![repo, digest],
    ))
}

/// Takes out all tags of the repository.
pub fn take_tags<S: Alter>(tx: &mut Transaction<'_, S>, repo: &str) -> Result<(), Fault>
    ensures taken { (l : Layout) → Changes S.Store l tx.old.conn.now tx.new.conn.now result
        (tags_without (of_first repo.now)) }
    ensures kept { (l : Layout) → KeepsInside S.Store l tx.old.conn.now tx.new.conn.now }
    ensures same_reference { tx.new.conn.ghost_name ≡ tx.old.conn.ghost_name }
    ensures survives { LastsUncommitted S.Store tx.old.conn.now tx.new.conn.now }
{
    done(tx.execute("DELETE FROM registry_tags WHERE repo = ?1", params![repo]))
}

/// The digest that the tag names, if it is there.
pub fn find_tag<S: Alter>(
    alloc: Global,
    conn: &mut Connection<S>,
    repo: &str,
    tag: &str,
) -> Result<Option<Digest>, Fault>
    ensures found { (l : Layout) → Finds S.Store l conn.old conn.new result
        (λ t o. o ≡ option_map (λ r. bytes_at r 3) (find (has_key repo.now tag.now) t.tags)) }
    ensures settled { (l : Layout) → Stays S.Store l conn.old conn.new result }
    ensures kept { (l : Layout) → Keeps S.Store l conn.old conn.new }
    ensures survives { Lasts S.Store conn.old conn.new }
{
    let shown = conn.query_all(
        "SELECT digest FROM registry_tags WHERE repo = ?1 AND tag = ?2",
        params![repo, tag],
    );
    let found = first_on(alloc, shown);
    checked(conn, found)
}

/// How many tags the repository has.
pub fn count_tags<S: Alter>(conn: &mut Connection<S>, repo: &str) -> Result<usize, Fault>
    ensures found { (l : Layout) → Finds S.Store l conn.old conn.new result
        (λ t n. n ≡ length (filter (of_first repo.now) t.tags)) }
    ensures settled { (l : Layout) → Stays S.Store l conn.old conn.new result }
    ensures survives { Lasts S.Store conn.old conn.new }
{
    let shown = conn.query_all(
        "SELECT tag FROM registry_tags WHERE repo = ?1",
        params![repo],
    );
    let found = count_rows(shown);
    checked(conn, found)
}

/// How many tags of the repository name the digest.
pub fn count_tags_named<S: Alter>(
    conn: &mut Connection<S>,
    repo: &str,
    digest: &str,
) -> Result<usize, Fault>
    ensures found { (l : Layout) → Finds S.Store l conn.old conn.new result
        (λ t n. n ≡ length (filter (names_digest repo.now digest.now) t.tags)) }
    ensures settled { (l : Layout) → Stays S.Store l conn.old conn.new result }
    ensures kept { (l : Layout) → Keeps S.Store l conn.old conn.new }
    ensures survives { Lasts S.Store conn.old conn.new }
{
    let shown = conn.query_all(
        "SELECT tag FROM registry_tags WHERE repo = ?1 AND digest = ?2",
        params![repo, digest],
    );
    let found = count_rows(shown);
    checked(conn, found)
}
