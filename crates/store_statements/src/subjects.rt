//! The manifests that name a digest as their subject.
ghost use Rattle.std.specs.Prelude.{◌≡◌, true, map, filter};
ghost use Rattle.sqlite_keyed.specs.Lists.{sort_by};
ghost use Rattle.oci_types.specs.Digest.{is_digest};
ghost use Rattle.store_contents.specs.Layouts.{Layout};
ghost use Rattle.store_statements.specs.Keys.{on_subject};
ghost use Rattle.store_statements.specs.Between.{Finds, Stays};
ghost use Rattle.store_statements.specs.Clauses.{Lasts};
ghost use Rattle.store_statements.specs.ManifestShown.{by_second, referrer, referrer_shown};

use crate::reading::{FromRow, all};
use crate::telling::checked;
use oci_types::{Digest, Fault};
use sqlite::{Alter, Connection, Error, Row, params};
use std::alloc::Global;
use store_contents::ContentId;

impl FromRow for (Digest, ContentId) {
    ghost shown = { referrer_shown };

    fn read(alloc: Global, row: &Row) -> Result<(Digest, ContentId), Error> {
        let id: i64 = row.get(1)?;
        let digest = Digest::read(alloc, row)?;
        Ok((digest, ContentId::new(id)))
    }
}

/// The manifests of the repository whose subject is the digest, each with its content, in the order of
/// their digests.
pub fn manifests_on_subject<S: Alter>(
    alloc: Global,
    conn: &mut Connection<S>,
    repo: &str,
    digest: &str,
) -> Result<Vec<(Digest, ContentId)>, Fault>
    requires digest { is_digest digest.now ≡ true }
    ensures found { (l : Layout) → Finds S.Store l conn.old conn.new result
        (λ t found. found.items ≡ map referrer
        (sort_by by_second (filter (on_subject repo.now digest.now) t.manifests))) }
    ensures settled { (l : Layout) → Stays S.Store l conn.old conn.new result }
    ensures survives { Lasts S.Store conn.old conn.new }
{
    let shown = conn.query_all(
        "SELECT digest, content FROM registry_manifest_links WHERE repo = ?1 AND subject = ?2 \
         ORDER BY digest",
        params![repo, digest],
    );
    let found = all(alloc, shown);
    checked(conn, found)
}
