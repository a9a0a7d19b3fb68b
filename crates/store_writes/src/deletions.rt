//! What is deleted: tags, manifests and blobs.
ghost use Rattle.std.specs.Prelude.{◌≡◌};
ghost use Rattle.registry_model.specs.Lookups.{delete_blob, delete_manifest, delete_tag};
ghost use Rattle.registry_model.specs.Pruning.{delete_blobs};
ghost use Rattle.store_contents.specs.Layouts.{Layout};
ghost use Rattle.store_statements.specs.Between.{CrashLeaves, GoesBack, MakesWorld, Relates, StaysOnMemory};
ghost use Rattle.store_statements.specs.Clauses.{Changes, KeepsInside, Lasts, LastsUncommitted};
ghost use Rattle.store_statements.specs.Steps.{without_manifest};
ghost use Rattle.store_statements.specs.PlaceChanges.{KeepsPlaces};
ghost use Rattle.store_writes.specs.Deleting.{without_blob_links};

use crate::change::Change;
use crate::changing::make;
use oci_types::{Digest, Fault, RepoName, Tag};
use sqlite::{Alter, Connection, Transaction};
use store_statements::blobs::take_blob_link;
use store_statements::manifests::take_manifest_link;
use store_statements::tags::take_tags_named;

/// Takes a tag away.
pub fn delete_tag<S: Alter>(
    conn: &mut Connection<S>,
    repo: &RepoName,
    tag: &Tag,
) -> Result<(), Fault>
    ensures made { (l : Layout)
        → MakesWorld S.Store l conn.old conn.new result (λ w. delete_tag w repo.now tag.now) }
    ensures stays { (l : Layout)
        → Relates S.Store l conn.old conn.new result (λ t u. u.contents ≡ t.contents) }
    ensures places { (l : Layout) → Relates S.Store l conn.old conn.new result KeepsPlaces }
    ensures memory { (l : Layout) → StaysOnMemory S.Store l conn.old conn.new result }
    ensures back { (l : Layout) → GoesBack S.Store l conn.old conn.new result }
    ensures crash { (l : Layout)
        → CrashLeaves S.Store l conn.old conn.new result (λ w. delete_tag w repo.now tag.now) }
    ensures survives { Lasts S.Store conn.old conn.new }
{
    make(
        conn,
        Change::TakeTag {
            repo: repo.as_str(),
            tag: tag.as_str(),
        },
    )
}

/// Takes a blob away; its content stays until it is cleared.
pub fn delete_blob<S: Alter>(
    conn: &mut Connection<S>,
    repo: &RepoName,
    digest: &Digest,
) -> Result<(), Fault>
    ensures made { (l : Layout)
        → MakesWorld S.Store l conn.old conn.new result (λ w. delete_blob w repo.now digest.now) }
    ensures stays { (l : Layout)
        → Relates S.Store l conn.old conn.new result (λ t u. u.contents ≡ t.contents) }
    ensures places { (l : Layout) → Relates S.Store l conn.old conn.new result KeepsPlaces }
    ensures memory { (l : Layout) → StaysOnMemory S.Store l conn.old conn.new result }
    ensures back { (l : Layout) → GoesBack S.Store l conn.old conn.new result }
    ensures crash { (l : Layout)
        → CrashLeaves S.Store l conn.old conn.new result (λ w. delete_blob w repo.now digest.now) }
    ensures survives { Lasts S.Store conn.old conn.new }
{
    make(
        conn,
        Change::TakeBlob {
            repo: repo.as_str(),
            digest: digest.as_str(),
        },
    )
}

/// Takes the links to the blobs out, where they are there.
pub(crate) fn take_links_to<S: Alter>(
    tx: &mut Transaction<'_, S>,
    repo: &str,
    digests: &[Digest],
) -> Result<(), Fault>
    ensures taken { (l : Layout) → Changes S.Store l tx.old.conn.now tx.new.conn.now result
        (without_blob_links repo.now digests.now) }
    ensures kept { (l : Layout) → KeepsInside S.Store l tx.old.conn.now tx.new.conn.now }
    ensures same_reference { tx.new.conn.ghost_name ≡ tx.old.conn.ghost_name }
    ensures survives { LastsUncommitted S.Store tx.old.conn.now tx.new.conn.now }
{
    for digest in digests {
        take_blob_link(tx, repo, digest.as_str())?;
    }
    Ok(())
}

/// Takes blobs away, all or none; their contents stay until they are cleared.
pub fn delete_blobs<S: Alter>(
    conn: &mut Connection<S>,
    repo: &RepoName,
    digests: &[Digest],
) -> Result<(), Fault>
    ensures made { (l : Layout)
        → MakesWorld S.Store l conn.old conn.new result (λ w. delete_blobs w repo.now digests.now) }
    ensures stays { (l : Layout)
        → Relates S.Store l conn.old conn.new result (λ t u. u.contents ≡ t.contents) }
    ensures places { (l : Layout) → Relates S.Store l conn.old conn.new result KeepsPlaces }
    ensures memory { (l : Layout) → StaysOnMemory S.Store l conn.old conn.new result }
    ensures back { (l : Layout) → GoesBack S.Store l conn.old conn.new result }
    ensures crash { (l : Layout)
        → CrashLeaves S.Store l conn.old conn.new result (λ w. delete_blobs w repo.now digests.now) }
    ensures survives { Lasts S.Store conn.old conn.new }
{
    make(
        conn,
        Change::TakeBlobs {
            repo: repo.as_str(),
            digests,
        },
    )
}

/// Takes the link to a manifest out, and the tags that name it.
pub(crate) fn take_manifest<S: Alter>(
    tx: &mut Transaction<'_, S>,
    repo: &str,
    digest: &str,
) -> Result<(), Fault>
    ensures taken { (l : Layout) → Changes S.Store l tx.old.conn.now tx.new.conn.now result
        (without_manifest repo.now digest.now) }
    ensures kept { (l : Layout) → KeepsInside S.Store l tx.old.conn.now tx.new.conn.now }
    ensures same_reference { tx.new.conn.ghost_name ≡ tx.old.conn.ghost_name }
    ensures survives { LastsUncommitted S.Store tx.old.conn.now tx.new.conn.now }
{
    take_manifest_link(tx, repo, digest)?;
    take_tags_named(tx, repo, digest)
}

/// Takes a manifest away, and each tag that names it.
pub fn delete_manifest<S: Alter>(
    conn: &mut Connection<S>,
    repo: &RepoName,
    digest: &Digest,
) -> Result<(), Fault>
    ensures made { (l : Layout)
        → MakesWorld S.Store l conn.old conn.new result (λ w. delete_manifest w repo.now digest.now) }
    ensures stays { (l : Layout)
        → Relates S.Store l conn.old conn.new result (λ t u. u.contents ≡ t.contents) }
    ensures places { (l : Layout) → Relates S.Store l conn.old conn.new result KeepsPlaces }
    ensures memory { (l : Layout) → StaysOnMemory S.Store l conn.old conn.new result }
    ensures back { (l : Layout) → GoesBack S.Store l conn.old conn.new result }
    ensures crash { (l : Layout) → CrashLeaves S.Store l conn.old conn.new result
        (λ w. delete_manifest w repo.now digest.now) }
    ensures survives { Lasts S.Store conn.old conn.new }
{
    make(
        conn,
        Change::TakeManifest {
            repo: repo.as_str(),
            digest: digest.as_str(),
        },
    )
}
