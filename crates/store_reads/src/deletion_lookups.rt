//! What a deletion is going to take from what a repository holds, by look-ups of what is there. `None` where
//! that cannot be told. No table changes, unless the storage fails.
ghost use Rattle.std.specs.Prelude.{◌≡◌, ◌↔◌, IsTrue, IfSome};
ghost use Rattle.std.specs.Option.{IsSomeAnd};
ghost use Rattle.std.specs.List.Sorted.{IsStrictlySortedBy};
ghost use Rattle.registry_model.specs.World.{text_cmp};
ghost use Rattle.registry_model.specs.Blobs.{without_blob};
ghost use Rattle.registry_model.specs.Pruning.{without_blobs};
ghost use Rattle.registry_model.specs.Manifests.{without_manifest, without_tag};
ghost use Rattle.registry_model.specs.Command.{without_sessions};
ghost use Rattle.store_contents.specs.Layouts.{Layout};
ghost use Rattle.store_statements.specs.Between.{Keeps, Stays, Tells};
ghost use Rattle.store_statements.specs.Clauses.{Lasts, WorldHas};
ghost use Rattle.store_reads.specs.Usages.{Foretells, AreNaming, gone_too};

use crate::tallies::tallied;
use crate::usage_change::{Change, NO_CHANGE};
use crate::{blob_size, manifest_size};
use oci_types::{Digest, Fault, RepoName, Tag};
use sqlite::{Alter, Connection};
use std::alloc::Global;
use store_statements::tags::count_tags_named;
use store_statements::uploads::upload_sizes;

/// Of the deletion of a blob, in bytes and blobs: of none where it is not there.
pub fn delete_blob_change<S: Alter>(
    conn: &mut Connection<S>,
    repo: &RepoName,
    digest: &Digest,
) -> Result<Option<Change>, Fault>
    ensures found { (l : Layout) → Tells S.Store l conn.old conn.new result
        (λ w change. IfSome change (Foretells w repo.now (λ r. without_blob r digest.now))) }
    ensures settled { (l : Layout) → Stays S.Store l conn.old conn.new result }
    ensures kept { (l : Layout) → Keeps S.Store l conn.old conn.new }
    ensures survives { Lasts S.Store conn.old conn.new }
{
    match blob_size(conn, repo, digest) {
        Ok(Some(size)) => Ok(Some(Change {
            gone: size,
            blobs_gone: 1,
            ..NO_CHANGE
        })),
        Ok(None) => Ok(Some(NO_CHANGE)),
        Err(fault) => Err(fault),
    }
}

/// Whether each digest stands behind the one before it, in the order of bytes.
fn ascend(digests: &[Digest]) -> bool
    ensures { IsTrue result ↔ IsStrictlySortedBy text_cmp digests.now }
{
    for i in 1..digests.len() {
        if digests[i - 1] >= digests[i] {
            return false;
        }
    }
    true
}

/// The change, where a blob of this size goes too. `None` past 64 bits.
fn with_one_gone(change: Option<Change>, size: Option<u64>) -> Option<Change>
    ensures { IfSome result (λ c. IsSomeAnd change (λ before. c ≡ gone_too size before)) }
{
    let change = change?;
    let Some(size) = size else {
        return Some(change);
    };
    match (
        change.gone.checked_add(size),
        change.blobs_gone.checked_add(1),
    ) {
        (Some(gone), Some(blobs_gone)) => Some(Change {
            gone,
            blobs_gone,
            ..change
        }),
        _ => None,
    }
}

/// Of the deletion of blobs whose digests ascend.
fn ascending_blobs_change<S: Alter>(
    conn: &mut Connection<S>,
    repo: &RepoName,
    digests: &[Digest],
) -> Result<Option<Change>, Fault>
    requires { IsStrictlySortedBy text_cmp digests.now }
    ensures found { (l : Layout) → Tells S.Store l conn.old conn.new result
        (λ w change. IfSome change (Foretells w repo.now (λ r. without_blobs r digests.now))) }
    ensures settled { (l : Layout) → Stays S.Store l conn.old conn.new result }
    ensures kept { (l : Layout) → Keeps S.Store l conn.old conn.new }
    ensures survives { Lasts S.Store conn.old conn.new }
{
    let mut change = Some(NO_CHANGE);
    for digest in digests {
        change = with_one_gone(change, blob_size(conn, repo, digest)?);
    }
    Ok(change)
}

/// Of the deletion of several blobs, in bytes and blobs; a digest of which there is no blob adds nothing.
/// `None` past 64 bits, and where the digests do not ascend: one that stands twice would count twice.
pub fn delete_blobs_change<S: Alter>(
    conn: &mut Connection<S>,
    repo: &RepoName,
    digests: &[Digest],
) -> Result<Option<Change>, Fault>
    ensures found { (l : Layout) → Tells S.Store l conn.old conn.new result
        (λ w change. IfSome change (Foretells w repo.now (λ r. without_blobs r digests.now))) }
    ensures settled { (l : Layout) → Stays S.Store l conn.old conn.new result }
    ensures kept { (l : Layout) → Keeps S.Store l conn.old conn.new }
    ensures survives { Lasts S.Store conn.old conn.new }
{
    if ascend(digests) {
        ascending_blobs_change(conn, repo, digests)
    } else {
        Ok(None)
    }
}

/// How many tags of the repository name the digest.
fn count_tags_naming<S: Alter>(
    conn: &mut Connection<S>,
    repo: &RepoName,
    digest: &Digest,
) -> Result<u64, Fault>
    ensures found { (l : Layout) → Tells S.Store l conn.old conn.new result
        (λ w n. AreNaming w repo.now digest.now n) }
    ensures settled { (l : Layout) → Stays S.Store l conn.old conn.new result }
    ensures kept { (l : Layout) → Keeps S.Store l conn.old conn.new }
    ensures survives { Lasts S.Store conn.old conn.new }
{
    match count_tags_named(conn, repo.as_str(), digest.as_str()) {
        Ok(count) => Ok(count as u64),
        Err(fault) => Err(fault),
    }
}

/// Of the deletion of a manifest that so many tags name.
fn named_manifest_change<S: Alter>(
    conn: &mut Connection<S>,
    repo: &RepoName,
    digest: &Digest,
    tags_gone: u64,
) -> Result<Option<Change>, Fault>
    ensures found { (l : Layout)
        → WorldHas S.Store l conn.old (λ w. AreNaming w repo.now digest.now tags_gone)
        → Tells S.Store l conn.old conn.new result
        (λ w change. IfSome change (Foretells w repo.now (λ r. without_manifest r digest.now))) }
    ensures settled { (l : Layout) → Stays S.Store l conn.old conn.new result }
    ensures kept { (l : Layout) → Keeps S.Store l conn.old conn.new }
    ensures survives { Lasts S.Store conn.old conn.new }
{
    match manifest_size(conn, repo, digest) {
        Ok(Some((_, size))) => Ok(Some(Change {
            gone: size,
            manifests_gone: 1,
            tags_gone,
            ..NO_CHANGE
        })),
        Ok(None) => Ok(Some(Change {
            tags_gone,
            ..NO_CHANGE
        })),
        Err(fault) => Err(fault),
    }
}

/// Of the deletion of a manifest and of the tags that name it, in bytes, manifests and tags. The tags go
/// also where there is no such manifest.
pub fn delete_manifest_change<S: Alter>(
    conn: &mut Connection<S>,
    repo: &RepoName,
    digest: &Digest,
) -> Result<Option<Change>, Fault>
    ensures found { (l : Layout) → Tells S.Store l conn.old conn.new result
        (λ w change. IfSome change (Foretells w repo.now (λ r. without_manifest r digest.now))) }
    ensures settled { (l : Layout) → Stays S.Store l conn.old conn.new result }
    ensures kept { (l : Layout) → Keeps S.Store l conn.old conn.new }
    ensures survives { Lasts S.Store conn.old conn.new }
{
    match count_tags_naming(conn, repo, digest) {
        Ok(tags) => named_manifest_change(conn, repo, digest, tags),
        Err(fault) => Err(fault),
    }
}

/// Of the deletion of a tag: one tag where it is there.
pub fn delete_tag_change<S: Alter>(
    alloc: Global,
    conn: &mut Connection<S>,
    repo: &RepoName,
    tag: &Tag,
) -> Result<Option<Change>, Fault>
    ensures found { (l : Layout) → Tells S.Store l conn.old conn.new result
        (λ w change. IfSome change (Foretells w repo.now (λ r. without_tag r tag.now))) }
    ensures settled { (l : Layout) → Stays S.Store l conn.old conn.new result }
    ensures kept { (l : Layout) → Keeps S.Store l conn.old conn.new }
    ensures survives { Lasts S.Store conn.old conn.new }
{
    match crate::tag(alloc, conn, repo, tag) {
        Ok(Some(_)) => Ok(Some(Change {
            tags_gone: 1,
            ..NO_CHANGE
        })),
        Ok(None) => Ok(Some(NO_CHANGE)),
        Err(fault) => Err(fault),
    }
}

/// Of the end of all open upload sessions, in bytes and sessions. `None` where their bytes may be more than
/// 64 bits tell.
pub fn drop_sessions_change<S: Alter>(
    alloc: Global,
    conn: &mut Connection<S>,
    repo: &RepoName,
) -> Result<Option<Change>, Fault>
    ensures found { (l : Layout) → Tells S.Store l conn.old conn.new result
        (λ w change. IfSome change (Foretells w repo.now without_sessions)) }
    ensures settled { (l : Layout) → Stays S.Store l conn.old conn.new result }
    ensures kept { (l : Layout) → Keeps S.Store l conn.old conn.new }
    ensures survives { Lasts S.Store conn.old conn.new }
{
    match tallied(upload_sizes(alloc, conn, repo.as_str())) {
        Ok(tally) if tally.bytes < u64::MAX => Ok(Some(Change {
            gone: tally.bytes,
            ended: tally.number,
            ..NO_CHANGE
        })),
        Ok(_) => Ok(None),
        Err(fault) => Err(fault),
    }
}
