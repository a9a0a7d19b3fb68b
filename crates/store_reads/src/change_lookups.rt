//! What a write is going to change of what a repository holds, by look-ups of what is there. `None` where
//! that cannot be told. No table changes, unless the storage fails.
ghost use Rattle.std.specs.Prelude.{◌≡◌, length, IfSome, Some, None};
ghost use Rattle.oci_types.specs.Text.{Text};
ghost use Rattle.registry_model.specs.Ask.{text_in};
ghost use Rattle.registry_model.specs.Sessions.{finished};
ghost use Rattle.registry_model.specs.Manifests.{with_manifest};
ghost use Rattle.registry_model.specs.Lookups.{blob_at, blob_size_at, session_size_at, with_mounted};
ghost use Rattle.store_contents.specs.Layouts.{Layout};
ghost use Rattle.store_statements.specs.Between.{Keeps, Stays, Tells};
ghost use Rattle.store_statements.specs.Clauses.{Lasts, WorldHas};
ghost use Rattle.store_reads.specs.Usages.{Foretells, new_tags, or_untold};

use crate::usage_change::{Change, NO_CHANGE};
use crate::{blob_size, manifest_size, session_size};
use oci_types::{Digest, Fault, RepoName, Tag};
use sqlite::{Alter, Connection};
use std::alloc::Global;

/// A change that was not told for want of memory is one that is not known, and no failure: the error that is
/// left is `Fault::Storage`.
pub fn or_untold(change: Result<Option<Change>, Fault>) -> Result<Option<Change>, Fault>
    ensures { result ≡ or_untold change }
{
    match change {
        Err(Fault::Memory) => Ok(None),
        told => told,
    }
}

/// Of a mount of a blob that the repository has not.
fn source_change<S: Alter>(
    conn: &mut Connection<S>,
    from: &RepoName,
    to: &RepoName,
    digest: &Digest,
) -> Result<Option<Change>, Fault>
    ensures found { (l : Layout) → WorldHas S.Store l conn.old (λ w. blob_size_at w to.now digest.now ≡ None)
        → Tells S.Store l conn.old conn.new result
        (λ w change. IfSome change
        (Foretells w to.now (with_mounted digest.now (blob_at w from.now digest.now)))) }
    ensures settled { (l : Layout) → Stays S.Store l conn.old conn.new result }
    ensures kept { (l : Layout) → Keeps S.Store l conn.old conn.new }
    ensures survives { Lasts S.Store conn.old conn.new }
{
    match blob_size(conn, from, digest) {
        Ok(Some(size)) => Ok(Some(Change {
            added: size,
            blobs: 1,
            ..NO_CHANGE
        })),
        Ok(None) => Ok(None),
        Err(fault) => Err(fault),
    }
}

/// Of a mount of a blob of the repository `from`, in bytes and blobs. `None` where neither repository has it.
pub fn mount_change<S: Alter>(
    conn: &mut Connection<S>,
    from: &RepoName,
    to: &RepoName,
    digest: &Digest,
) -> Result<Option<Change>, Fault>
    ensures found { (l : Layout) → Tells S.Store l conn.old conn.new result
        (λ w change. IfSome change
        (Foretells w to.now (with_mounted digest.now (blob_at w from.now digest.now)))) }
    ensures settled { (l : Layout) → Stays S.Store l conn.old conn.new result }
    ensures kept { (l : Layout) → Keeps S.Store l conn.old conn.new }
    ensures survives { Lasts S.Store conn.old conn.new }
{
    match blob_size(conn, to, digest) {
        Ok(Some(_)) => Ok(Some(NO_CHANGE)),
        Ok(None) => source_change(conn, from, to, digest),
        Err(fault) => Err(fault),
    }
}

/// Of the end of a session that has so many bytes, where `added` is the length of the blob.
fn end_change<S: Alter>(
    conn: &mut Connection<S>,
    repo: &RepoName,
    number: u64,
    size: u64,
    digest: &Digest,
    added: u64,
) -> Result<Option<Change>, Fault>
    ensures found { (l : Layout)
        → WorldHas S.Store l conn.old (λ w. session_size_at w repo.now number ≡ Some size)
        → (bytes : Text) → length bytes ≡ added → Tells S.Store l conn.old conn.new result
        (λ w change. IfSome change
        (Foretells w repo.now (λ r. finished r number digest.now bytes))) }
    ensures settled { (l : Layout) → Stays S.Store l conn.old conn.new result }
    ensures kept { (l : Layout) → Keeps S.Store l conn.old conn.new }
    ensures survives { Lasts S.Store conn.old conn.new }
{
    let ended = Change {
        gone: size,
        ended: 1,
        ..NO_CHANGE
    };
    match blob_size(conn, repo, digest) {
        Ok(Some(_)) => Ok(Some(ended)),
        Ok(None) => Ok(Some(Change {
            added,
            blobs: 1,
            ..ended
        })),
        Err(fault) => Err(fault),
    }
}

/// Of the end of a session whose bytes are a blob, in bytes, blobs and sessions. `None` where it is not open.
pub fn finish_change<S: Alter>(
    conn: &mut Connection<S>,
    repo: &RepoName,
    number: u64,
    digest: &Digest,
    bytes: &[u8],
) -> Result<Option<Change>, Fault>
    ensures found { (l : Layout) → Tells S.Store l conn.old conn.new result
        (λ w change. IfSome change
        (Foretells w repo.now (λ r. finished r number digest.now bytes.now))) }
    ensures settled { (l : Layout) → Stays S.Store l conn.old conn.new result }
    ensures kept { (l : Layout) → Keeps S.Store l conn.old conn.new }
    ensures survives { Lasts S.Store conn.old conn.new }
{
    match session_size(conn, repo, number) {
        Ok(Some(size)) => end_change(conn, repo, number, size, digest, bytes.len() as u64),
        Ok(None) => Ok(None),
        Err(fault) => Err(fault),
    }
}

/// How many tags more: 1 where one is set that is not there.
fn count_new_tags<S: Alter>(
    alloc: Global,
    conn: &mut Connection<S>,
    repo: &RepoName,
    tag: Option<&Tag>,
) -> Result<u64, Fault>
    ensures found { (l : Layout) → Tells S.Store l conn.old conn.new result
        (λ w n. n ≡ new_tags w repo.now (text_in tag.entry)) }
    ensures settled { (l : Layout) → Stays S.Store l conn.old conn.new result }
    ensures kept { (l : Layout) → Keeps S.Store l conn.old conn.new }
    ensures survives { Lasts S.Store conn.old conn.new }
{
    let Some(tag) = tag else {
        return Ok(0);
    };
    match crate::tag(alloc, conn, repo, tag) {
        Ok(Some(_)) => Ok(0),
        Ok(None) => Ok(1),
        Err(fault) => Err(fault),
    }
}

/// Of a manifest that brings so many tags.
fn tagged_change<S: Alter>(
    conn: &mut Connection<S>,
    repo: &RepoName,
    digest: &Digest,
    bytes: &[u8],
    tag: Option<&Tag>,
    tags: u64,
) -> Result<Option<Change>, Fault>
    ensures found { (l : Layout)
        → WorldHas S.Store l conn.old (λ w. tags ≡ new_tags w repo.now (text_in tag.entry))
        → Tells S.Store l conn.old conn.new result
        (λ w change. IfSome change
        (Foretells w repo.now (λ r. with_manifest r digest.now bytes.now (text_in tag.entry)))) }
    ensures settled { (l : Layout) → Stays S.Store l conn.old conn.new result }
    ensures kept { (l : Layout) → Keeps S.Store l conn.old conn.new }
    ensures survives { Lasts S.Store conn.old conn.new }
{
    match manifest_size(conn, repo, digest) {
        Ok(Some(_)) => Ok(Some(Change { tags, ..NO_CHANGE })),
        Ok(None) => Ok(Some(Change {
            added: bytes.len() as u64,
            manifests: 1,
            tags,
            ..NO_CHANGE
        })),
        Err(fault) => Err(fault),
    }
}

/// Of a manifest with a tag or without one, in bytes, manifests and tags.
pub fn manifest_change<S: Alter>(
    alloc: Global,
    conn: &mut Connection<S>,
    repo: &RepoName,
    digest: &Digest,
    bytes: &[u8],
    tag: Option<&Tag>,
) -> Result<Option<Change>, Fault>
    ensures found { (l : Layout) → Tells S.Store l conn.old conn.new result
        (λ w change. IfSome change
        (Foretells w repo.now (λ r. with_manifest r digest.now bytes.now (text_in tag.entry)))) }
    ensures settled { (l : Layout) → Stays S.Store l conn.old conn.new result }
    ensures kept { (l : Layout) → Keeps S.Store l conn.old conn.new }
    ensures survives { Lasts S.Store conn.old conn.new }
{
    match count_new_tags(alloc, conn, repo, tag) {
        Ok(tags) => tagged_change(conn, repo, digest, bytes, tag, tags),
        Err(fault) => Err(fault),
    }
}
