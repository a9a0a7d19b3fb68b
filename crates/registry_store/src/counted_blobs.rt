//! Blobs that come, with what is known of usages.
ghost use Rattle.std.specs.Prelude.{◌≡◌, ◌≤◌, true, length};
ghost use Rattle.oci_types.specs.Digest.{matches};
ghost use Rattle.registry_model.specs.Limits.{largest_blob};
ghost use Rattle.registry_model.specs.World.{has_repo};
ghost use Rattle.registry_model.specs.Lookups.{put_blob};
ghost use Rattle.store_contents.specs.Layouts.{Layout};
ghost use Rattle.store_places.specs.Source.{Suits, text_in};
ghost use Rattle.store_statements.specs.Between.{CrashLeaves, MakesWorld, RelatesBy, StaysOnMemory};
ghost use Rattle.store_statements.specs.Clauses.{Lasts, WorldHas};
ghost use Rattle.store_statements.specs.PlaceChanges.{PutsPlaces};
ghost use Rattle.registry_store.specs.Usages.{IsKnown, StaysKnown};
ghost use Rattle.registry_store.specs.Writes.{AreOf};

use crate::known_usages::KnownUsages;
use oci_types::{Digest, Fault, RepoName};
use sqlite::{Alter, Connection};
use std::alloc::Global;
use store_places::Source;
use store_reads::put_change;

/// Puts a blob in, and answers whether its bytes came; a digest that is there keeps its bytes.
pub(crate) fn put_blob<S: Alter>(
    alloc: Global,
    conn: &mut Connection<S>,
    known: &mut KnownUsages,
    repo: &RepoName,
    digest: &Digest,
    bytes: &[u8],
    source: Source<'_>,
) -> Result<bool, Fault>
    requires matching { matches digest.now bytes.now ≡ true }
    requires fits { length bytes.now ≤ largest_blob }
    requires kept { AreOf source bytes.now }
    ensures made { (l : Layout) → Suits l source.entry → text_in l source.entry ≡ bytes.now
        → WorldHas S.Store l conn.old (λ w. has_repo w repo.now ≡ true)
        → MakesWorld S.Store l conn.old conn.new result
        (λ w. put_blob w repo.now digest.now bytes.now) }
    ensures places { (l : Layout) → Suits l source.entry
        → RelatesBy S.Store l conn.old conn.new result (PutsPlaces source.entry) }
    ensures memory { (l : Layout) → Suits l source.entry → StaysOnMemory S.Store l conn.old conn.new result }
    ensures crash { (l : Layout) → Suits l source.entry → text_in l source.entry ≡ bytes.now
        → WorldHas S.Store l conn.old (λ w. has_repo w repo.now ≡ true)
        → CrashLeaves S.Store l conn.old conn.new result
        (λ w. put_blob w repo.now digest.now bytes.now) }
    ensures survives { Lasts S.Store conn.old conn.new }
    ensures known { (l : Layout) → Suits l source.entry → text_in l source.entry ≡ bytes.now
        → IsKnown S.Store l conn.old known.old
        → WorldHas S.Store l conn.old (λ w. has_repo w repo.now ≡ true)
        → StaysKnown S.Store l conn.old conn.new known.new result }
{
    match store_writes::put_blob(alloc, conn, repo, digest, source) {
        Ok(came) => {
            known.follow(repo, Some(put_change(came, bytes)));
            Ok(came)
        }
        Err(fault) => Err(fault),
    }
}
