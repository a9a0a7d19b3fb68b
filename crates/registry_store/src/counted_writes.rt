//! Writes to what a repository holds, with what is known of usages.
ghost use Rattle.std.specs.Prelude.{◌≡◌, true};
ghost use Rattle.registry_model.specs.World.{has_repo};
ghost use Rattle.store_contents.specs.Layouts.{Layout};
ghost use Rattle.store_statements.specs.Between.{CrashLeaves, MakesWorld, RelatesBy, StaysOnMemory};
ghost use Rattle.store_statements.specs.Clauses.{Lasts, WorldHas};
ghost use Rattle.registry_store.specs.Usages.{IsKnown, StaysKnown};
ghost use Rattle.registry_store.specs.Writes.{Asks, Fits, Places, Suits, makes};

use crate::came::none_came;
use crate::following::follow_made;
use crate::foretelling::foretell;
use crate::known_usages::KnownUsages;
use crate::write::Write;
use oci_types::{Fault, RepoName};
use sqlite::{Alter, Connection};
use std::alloc::Global;

/// Makes a write to a repository, and answers whether the bytes came that it was handed.
fn make<S: Alter>(
    alloc: Global,
    conn: &mut Connection<S>,
    repo: &RepoName,
    write: Write<'_>,
) -> Result<bool, Fault>
    requires fits { Fits write }
    ensures made { (l : Layout) → Suits l write.entry
        → WorldHas S.Store l conn.old (Asks write.entry repo.now)
        → MakesWorld S.Store l conn.old conn.new result (makes write.entry repo.now) }
    ensures places { (l : Layout) → Suits l write.entry
        → WorldHas S.Store l conn.old (Asks write.entry repo.now)
        → RelatesBy S.Store l conn.old conn.new result (Places write.entry) }
    ensures memory { (l : Layout) → Suits l write.entry
        → WorldHas S.Store l conn.old (Asks write.entry repo.now)
        → StaysOnMemory S.Store l conn.old conn.new result }
    ensures crash { (l : Layout) → Suits l write.entry
        → WorldHas S.Store l conn.old (Asks write.entry repo.now)
        → CrashLeaves S.Store l conn.old conn.new result (makes write.entry repo.now) }
    ensures survives { Lasts S.Store conn.old conn.new }
{
    match write {
        Write::Mount { from, digest } => none_came(store_writes::mount(conn, from, repo, digest)),
        Write::PutManifest {
            digest,
            source,
            manifest,
            tag,
            ..
        } => store_writes::put_manifest(alloc, conn, repo, digest, source, manifest, tag),
        Write::Finish {
            number,
            digest,
            source,
            ..
        } => store_writes::finish(alloc, conn, repo, number, digest, source),
        Write::DeleteBlob { digest } => none_came(store_writes::delete_blob(conn, repo, digest)),
        Write::DeleteBlobs { digests } => none_came(store_writes::delete_blobs(
            conn, repo, digests,
        )),
        Write::DeleteManifest { digest } => {
            none_came(store_writes::delete_manifest(conn, repo, digest))
        }
        Write::DeleteTag { tag } => none_came(store_writes::delete_tag(conn, repo, tag)),
        Write::DropSessions => none_came(store_writes::drop_sessions(conn, repo)),
    }
}

/// Makes a write to a repository, and answers whether the bytes came that it was handed; what is known of its
/// usage follows.
pub(crate) fn make_counted<S: Alter>(
    alloc: Global,
    conn: &mut Connection<S>,
    known: &mut KnownUsages,
    repo: &RepoName,
    write: Write<'_>,
) -> Result<bool, Fault>
    requires fits { Fits write }
    ensures made { (l : Layout) → Suits l write.entry
        → WorldHas S.Store l conn.old (Asks write.entry repo.now)
        → MakesWorld S.Store l conn.old conn.new result (makes write.entry repo.now) }
    ensures places { (l : Layout) → Suits l write.entry
        → WorldHas S.Store l conn.old (Asks write.entry repo.now)
        → RelatesBy S.Store l conn.old conn.new result (Places write.entry) }
    ensures memory { (l : Layout) → Suits l write.entry
        → WorldHas S.Store l conn.old (Asks write.entry repo.now)
        → StaysOnMemory S.Store l conn.old conn.new result }
    ensures crash { (l : Layout) → Suits l write.entry
        → WorldHas S.Store l conn.old (Asks write.entry repo.now)
        → CrashLeaves S.Store l conn.old conn.new result (makes write.entry repo.now) }
    ensures survives { Lasts S.Store conn.old conn.new }
    ensures known { (l : Layout) → Suits l write.entry → IsKnown S.Store l conn.old known.old
        → WorldHas S.Store l conn.old (Asks write.entry repo.now)
        → WorldHas S.Store l conn.old (λ w. has_repo w repo.now ≡ true)
        → StaysKnown S.Store l conn.old conn.new known.new result }
{
    let Ok(change) = foretell(alloc, conn, known, repo, write) else {
        return Err(Fault::Storage);
    };
    let made = make(alloc, conn, repo, write);
    follow_made(known, repo, change, &made);
    made
}
