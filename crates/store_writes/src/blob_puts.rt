//! A blob comes, with its bytes.
ghost use Rattle.std.specs.Prelude.{◌≡◌, ◌<◌, ◌^◌, true, is_none};
ghost use Rattle.oci_types.specs.Digest.{matches};
ghost use Rattle.registry_model.specs.World.{has_repo};
ghost use Rattle.registry_model.specs.Lookups.{blob_at, put_blob};
ghost use Rattle.store_contents.specs.Layouts.{Layout};
ghost use Rattle.store_places.specs.Source.{Fits, IfBytes, Suits, size_in, text_in};
ghost use Rattle.store_statements.specs.Changes.{Grow};
ghost use Rattle.store_statements.specs.PlaceChanges.{PutsContent, PutsPlaces};
ghost use Rattle.store_statements.specs.Between.{CrashLeaves, GoesBack, MakesWorld, Relates, RelatesBy, StaysOnMemory, Tells};
ghost use Rattle.store_statements.specs.Clauses.{Lasts, WorldHas};

use crate::change::Change;
use crate::changing::make;
use oci_types::{Digest, Fault, RepoName};
use sqlite::{Alter, Connection};
use std::alloc::Global;
use store_places::Source;
use store_statements::blobs::find_blob_link;

/// Puts a blob in, and answers whether it came: a digest that is there keeps its bytes.
pub fn put_blob<S: Alter>(
    alloc: Global,
    conn: &mut Connection<S>,
    repo: &RepoName,
    digest: &Digest,
    source: Source<'_>,
) -> Result<bool, Fault>
    requires right { Fits source }
    requires fits { size_in source < 2 ^ 63 }
    requires matching { IfBytes (λ bytes. matches digest.now bytes ≡ true) source }
    ensures made { (l : Layout) → Suits l source.entry
        → WorldHas S.Store l conn.old (λ w. has_repo w repo.now ≡ true)
        → MakesWorld S.Store l conn.old conn.new result
        (λ w. put_blob w repo.now digest.now (text_in l source.entry)) }
    ensures came { (l : Layout) → Tells S.Store l conn.old conn.new result
        (λ w came. came ≡ is_none (blob_at w repo.now digest.now)) }
    ensures grows { (l : Layout) → Suits l source.entry
        → Relates S.Store l conn.old conn.new result (λ t u. Grow t.contents u.contents) }
    ensures places { (l : Layout) → Suits l source.entry
        → RelatesBy S.Store l conn.old conn.new result (PutsPlaces source.entry) }
    ensures contents { (l : Layout) → Suits l source.entry
        → RelatesBy S.Store l conn.old conn.new result (PutsContent (text_in l source.entry)) }
    ensures memory { (l : Layout) → Suits l source.entry → StaysOnMemory S.Store l conn.old conn.new result }
    ensures back { (l : Layout) → Suits l source.entry → GoesBack S.Store l conn.old conn.new result }
    ensures crash { (l : Layout) → Suits l source.entry
        → WorldHas S.Store l conn.old (λ w. has_repo w repo.now ≡ true)
        → CrashLeaves S.Store l conn.old conn.new result
        (λ w. put_blob w repo.now digest.now (text_in l source.entry)) }
    ensures survives { Lasts S.Store conn.old conn.new }
{
    let repo = repo.as_str();
    let digest = digest.as_str();
    match find_blob_link(conn, repo, digest) {
        Ok(Some(_)) => Ok(false),
        Ok(None) => {
            let blob = Change::AddBlob {
                alloc,
                repo,
                digest,
                source,
            };
            match make(conn, blob) {
                Ok(()) => Ok(true),
                Err(fault) => Err(fault),
            }
        }
        Err(fault) => Err(fault),
    }
}
