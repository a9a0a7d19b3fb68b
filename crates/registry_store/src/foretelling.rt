//! What a write is going to change of a usage that is known, told before it.
ghost use Rattle.std.specs.Prelude.{◌≡◌, None, IfSome, IfErr};
ghost use Rattle.store_contents.specs.Layouts.{Layout};
ghost use Rattle.store_statements.specs.Between.{Keeps, Stays, Tells};
ghost use Rattle.store_statements.specs.Clauses.{Lasts};
ghost use Rattle.store_reads.specs.Usages.{Foretells};
ghost use Rattle.registry_store.specs.Usages.{known_at};
ghost use Rattle.registry_store.specs.Writes.{becomes};

use crate::known_usages::KnownUsages;
use crate::write::Write;
use oci_types::{Fault, RepoName};
use sqlite::{Alter, Connection};
use std::alloc::Global;
use store_reads::{
    Change, delete_blob_change, delete_blobs_change, delete_manifest_change, delete_tag_change,
    drop_sessions_change, finish_change, manifest_change, mount_change, or_untold,
};

/// What the write is going to change.
fn look_up<S: Alter>(
    alloc: Global,
    conn: &mut Connection<S>,
    repo: &RepoName,
    write: Write<'_>,
) -> Result<Option<Change>, Fault>
    ensures found { (l : Layout) → Tells S.Store l conn.old conn.new result
        (λ w change. IfSome change (Foretells w repo.now (becomes write.entry repo.now w))) }
    ensures settled { (l : Layout) → Stays S.Store l conn.old conn.new result }
    ensures kept { (l : Layout) → Keeps S.Store l conn.old conn.new }
    ensures survives { Lasts S.Store conn.old conn.new }
{
    match write {
        Write::Mount { from, digest } => mount_change(conn, from, repo, digest),
        Write::PutManifest {
            digest,
            bytes,
            tag,
            ..
        } => manifest_change(alloc, conn, repo, digest, bytes, tag),
        Write::Finish {
            number,
            digest,
            bytes,
            ..
        } => finish_change(conn, repo, number, digest, bytes),
        Write::DeleteBlob { digest } => delete_blob_change(conn, repo, digest),
        Write::DeleteBlobs { digests } => delete_blobs_change(conn, repo, digests),
        Write::DeleteManifest { digest } => delete_manifest_change(conn, repo, digest),
        Write::DeleteTag { tag } => delete_tag_change(alloc, conn, repo, tag),
        Write::DropSessions => drop_sessions_change(alloc, conn, repo),
    }
}

/// The same where the usage of the repository is known. Where it is not, the change is of no use, and
/// nothing is looked up. The only failure is `Fault::Storage`.
pub(crate) fn foretell<S: Alter>(
    alloc: Global,
    conn: &mut Connection<S>,
    known: &KnownUsages,
    repo: &RepoName,
    write: Write<'_>,
) -> Result<Option<Change>, Fault>
    ensures found { (l : Layout) → Tells S.Store l conn.old conn.new result
        (λ w change. IfSome change (Foretells w repo.now (becomes write.entry repo.now w))) }
    ensures unasked { known_at known.now repo.now ≡ None → conn.new ≡ conn.old }
    ensures settled { (l : Layout) → Stays S.Store l conn.old conn.new result }
    ensures kept { (l : Layout) → Keeps S.Store l conn.old conn.new }
    ensures survives { Lasts S.Store conn.old conn.new }
    ensures failing { IfErr result (λ fault. fault ≡ Fault.Storage) }
{
    if known.usage(repo).is_none() {
        return Ok(None);
    }
    or_untold(look_up(alloc, conn, repo, write))
}
