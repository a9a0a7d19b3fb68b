//! The tags of a repository with the digests that they name.
ghost use Rattle.std.specs.Prelude.{◌≡◌, filter, map};
ghost use Rattle.sqlite_keyed.specs.Lists.{sort_by};
ghost use Rattle.store_contents.specs.Layouts.{Layout};
ghost use Rattle.store_statements.specs.Keys.{of_first};
ghost use Rattle.store_statements.specs.Between.{Finds, Stays};
ghost use Rattle.store_statements.specs.Clauses.{Lasts};
ghost use Rattle.store_statements.specs.ManifestShown.{by_second, tag_row, tag_shown};

use crate::reading::{FromRow, all, parsed};
use crate::telling::checked;
use oci_types::{Digest, Fault, Tag};
use sqlite::{Alter, Connection, Error, Row, params};
use std::alloc::Global;

impl FromRow for (Tag, Digest) {
    ghost shown = { tag_shown };

    fn read(alloc: Global, row: &Row) -> Result<(Tag, Digest), Error> {
        let text: String = row.get(1)?;
        let digest = parsed(Digest::parse(alloc, text.as_str()))?;
        let tag = Tag::read(alloc, row)?;
        Ok((tag, digest))
    }
}

/// The tags of the repository, in byte order, each with the digest that it names.
pub fn list_tags<S: Alter>(
    alloc: Global,
    conn: &mut Connection<S>,
    repo: &str,
) -> Result<Vec<(Tag, Digest)>, Fault>
    ensures found { (l : Layout) → Finds S.Store l conn.old conn.new result
        (λ t tags. tags.items ≡ map tag_row (sort_by by_second (filter (of_first repo.now) t.tags))) }
    ensures settled { (l : Layout) → Stays S.Store l conn.old conn.new result }
    ensures survives { Lasts S.Store conn.old conn.new }
{
    let shown = conn.query_all(
        "SELECT tag, digest FROM registry_tags WHERE repo = ?1 ORDER BY tag",
        params![repo],
    );
    let found = all(alloc, shown);
    checked(conn, found)
}
