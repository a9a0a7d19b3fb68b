//! The manifests of repositories.
ghost use Rattle.std.specs.Prelude.{◌≡◌};
ghost use Rattle.sqlite.specs.Held.{state};
ghost use Rattle.registry_model.specs.Lookups.{manifest_at, manifest_size_at, manifest_digests_at};
ghost use Rattle.registry_model.specs.Keeping.{manifest_shown, digests_shown};
ghost use Rattle.store_contents.specs.Layouts.{Layout};
ghost use Rattle.store_statements.specs.Between.{Keeps, Stays, Tells};
ghost use Rattle.store_statements.specs.Clauses.{Lasts};
ghost use Rattle.store_bytes.specs.Reading.{IsReadable, IsAsWas};

use crate::contents::content;
use oci_types::{Digest, Fault, Kind, RepoName};
use sqlite::{Alter, Connection};
use std::alloc::Global;
use store_bytes::Contents;
use store_statements::manifests::{find_manifest_link, list_manifest_digests};

/// The kind of a manifest, and its length in bytes. Reads no manifest.
pub fn manifest_size<S: Alter>(
    conn: &mut Connection<S>,
    repo: &RepoName,
    digest: &Digest,
) -> Result<Option<(Kind, u64)>, Fault>
    ensures found { (l : Layout) → Tells S.Store l conn.old conn.new result
        (λ w v. v ≡ manifest_size_at w repo.now digest.now) }
    ensures settled { (l : Layout) → Stays S.Store l conn.old conn.new result }
    ensures kept { (l : Layout) → Keeps S.Store l conn.old conn.new }
    ensures survives { Lasts S.Store conn.old conn.new }
{
    match find_manifest_link(conn, repo.as_str(), digest.as_str()) {
        Ok(Some(link)) => Ok(Some((link.kind, link.size))),
        Ok(None) => Ok(None),
        Err(fault) => Err(fault),
    }
}

/// The kind and the bytes of a manifest.
pub fn manifest<S: Alter, C: Contents>(
    alloc: Global,
    conn: &mut Connection<S>,
    contents: &mut C,
    repo: &RepoName,
    digest: &Digest,
) -> Result<Option<(Kind, Vec<u8>)>, Fault>
    ensures found { IsReadable C.Contents contents.old contents.new (state S.Store conn.old)
        → Tells S.Store (C.Contents.layout contents.old) conn.old conn.new result
        (λ w v. manifest_shown v ≡ manifest_at w repo.now digest.now) }
    ensures settled { Stays S.Store (C.Contents.layout contents.old) conn.old conn.new result }
    ensures survives { Lasts S.Store conn.old conn.new }
    ensures same { IsAsWas C.Contents contents.old contents.new }
{
    match find_manifest_link(conn, repo.as_str(), digest.as_str()) {
        Ok(Some(link)) => match content(alloc, conn, contents, link.content) {
            Ok(bytes) => Ok(Some((link.kind, bytes))),
            Err(fault) => Err(fault),
        },
        Ok(None) => Ok(None),
        Err(fault) => Err(fault),
    }
}

/// The digests of a repository's manifests, in byte order. Reads no manifest.
pub fn manifest_digests<S: Alter>(
    alloc: Global,
    conn: &mut Connection<S>,
    repo: &RepoName,
) -> Result<Vec<Digest>, Fault>
    ensures found { (l : Layout) → Tells S.Store l conn.old conn.new result
        (λ w digests. digests_shown digests ≡ manifest_digests_at w repo.now) }
    ensures settled { (l : Layout) → Stays S.Store l conn.old conn.new result }
    ensures survives { Lasts S.Store conn.old conn.new }
{
    list_manifest_digests(alloc, conn, repo.as_str())
}
