//! A manifest is put, and a tag set to it.
ghost use Rattle.std.specs.Prelude.{◌≡◌, ◌<◌, ◌^◌, true, find, is_none, None, Ok};
ghost use Rattle.sqlite.specs.State.{HasCleanDisk, KeepsCommit};
ghost use Rattle.sqlite.specs.Held.{state};
ghost use Rattle.oci_types.specs.Manifest.{shown, manifest_in};
ghost use Rattle.oci_types.specs.Digest.{matches};
ghost use Rattle.registry_model.specs.Ask as ask;
ghost use Rattle.registry_model.specs.Lookups.{manifest_at, put_manifest};
ghost use Rattle.registry_model.specs.World.{has_repo};
ghost use Rattle.store_contents.specs.Layouts.{Layout};
ghost use Rattle.store_places.specs.Source.{Fits, IfBytes, Suits, size_in, text_in};
ghost use Rattle.store_statements.specs.Keys.{has_key};
ghost use Rattle.store_statements.specs.Registry.{is_repo};
ghost use Rattle.store_writes.specs.Worlds.{KeepsWhole, TurnsFresh, TurnsThere, IsWhole, tagged};
ghost use Rattle.store_statements.specs.Changes.{Grow};
ghost use Rattle.store_statements.specs.PlaceChanges.{PutsContent, PutsPlaces};
ghost use Rattle.store_statements.specs.Between.{CrashLeaves, GoesBack, MakesWorld, Relates, RelatesBy, StaysOnMemory, Tells};
ghost use Rattle.store_statements.specs.Clauses.{Lasts, LastsUncommitted, WorldHas};
ghost use Rattle.store_statements.specs.Held.{held};

use crate::change::Change;
use crate::changing::{make, tell_came};
use oci_types::{Digest, Fault, Manifest, RepoName, Tag};
use sqlite::{Alter, Connection, Transaction};
use std::alloc::Global;
use store_places::Source;
use store_statements::contents::keep_matching;
use store_statements::manifests::{add_manifest_link, find_manifest_link};
use store_statements::tags::{add_tag, set_tag};

/// Where there is a tag, sets it to the digest, if it is there, and else adds it.
pub(crate) fn put_tag_if<S: Alter>(
    tx: &mut Transaction<'_, S>,
    repo: &str,
    tag: Option<&Tag>,
    digest: &str,
) -> Result<(), Fault>
    ensures made { (l : Layout) → TurnsThere S.Store l tx.old.conn.now tx.new.conn.now result repo.now
        (λ w. tagged w repo.now (ask.text_in tag.entry) digest.now) }
    ensures kept { (l : Layout) → KeepsWhole S.Store l tx.old.conn.now tx.new.conn.now }
    ensures same_reference { tx.new.conn.ghost_name ≡ tx.old.conn.ghost_name }
    ensures survives { LastsUncommitted S.Store tx.old.conn.now tx.new.conn.now }
{
    match tag {
        Some(tag) => {
            let tag = tag.as_str();
            let count = set_tag(tx, repo, tag, digest)?;
            if count == 0 {
                add_tag(tx, repo, tag, digest)
            } else {
                Ok(())
            }
        }
        None => Ok(()),
    }
}

/// The digest of the manifest that this one refers to.
fn subject_of(manifest: &Manifest) -> Option<&str>
    ensures { ask.text_in result ≡ manifest.now.subject }
{
    match &manifest.subject {
        Some(subject) => Some(subject.as_str()),
        None => None,
    }
}

/// Adds a manifest whose digest the repository has not. `manifest` is what the bytes read as.
fn add_manifest<S: Alter>(
    alloc: Global,
    tx: &mut Transaction<'_, S>,
    repo: &str,
    digest: &str,
    source: Source<'_>,
    manifest: &Manifest,
) -> Result<(), Fault>
    requires right { Fits source }
    requires fits { size_in source < 2 ^ 63 }
    requires matching { IfBytes (λ bytes. matches digest.now bytes ≡ true) source }
    ensures made { (l : Layout) → Suits l source.entry
        → manifest_in (text_in l source.entry) ≡ Ok (shown manifest.now)
        → TurnsFresh S.Store l tx.old.conn.now tx.new.conn.now result repo.now digest.now source.entry
        (λ w. put_manifest w repo.now digest.now (text_in l source.entry) None) }
    ensures kept { (l : Layout) → Suits l source.entry
        → KeepsWhole S.Store l tx.old.conn.now tx.new.conn.now }
    ensures same_reference { tx.new.conn.ghost_name ≡ tx.old.conn.ghost_name }
    ensures survives { LastsUncommitted S.Store tx.old.conn.now tx.new.conn.now }
{
    let content = keep_matching(alloc, tx, digest, source)?;
    let size = source.len() as u64;
    add_manifest_link(
        tx,
        repo,
        digest,
        size,
        manifest.kind,
        subject_of(manifest),
        content,
    )
}

/// Adds a manifest whose digest the repository has not, and sets the tag, if there is one, to it.
pub(crate) fn add_tagged<S: Alter>(
    alloc: Global,
    tx: &mut Transaction<'_, S>,
    repo: &str,
    digest: &str,
    source: Source<'_>,
    manifest: &Manifest,
    tag: Option<&Tag>,
) -> Result<(), Fault>
    requires right { Fits source }
    requires fits { size_in source < 2 ^ 63 }
    requires matching { IfBytes (λ bytes. matches digest.now bytes ≡ true) source }
    ensures made { (l : Layout) → Suits l source.entry
        → manifest_in (text_in l source.entry) ≡ Ok (shown manifest.now)
        → TurnsFresh S.Store l tx.old.conn.now tx.new.conn.now result repo.now digest.now source.entry
        (λ w. put_manifest w repo.now digest.now (text_in l source.entry) (ask.text_in tag.entry)) }
    ensures kept { (l : Layout) → Suits l source.entry
        → manifest_in (text_in l source.entry) ≡ Ok (shown manifest.now)
        → HasCleanDisk (state S.Store tx.new.conn.now) → IsWhole l (state S.Store tx.old.conn.now)
        → is_repo (held l (state S.Store tx.old.conn.now)).repos repo.now ≡ true
        → find (has_key repo.now digest.now) (held l (state S.Store tx.old.conn.now)).manifests ≡ None
        → KeepsCommit (state S.Store tx.old.conn.now) (state S.Store tx.new.conn.now) }
    ensures same_reference { tx.new.conn.ghost_name ≡ tx.old.conn.ghost_name }
    ensures survives { LastsUncommitted S.Store tx.old.conn.now tx.new.conn.now }
{
    add_manifest(alloc, tx, repo, digest, source, manifest)?;
    put_tag_if(tx, repo, tag, digest)
}

/// Adds a manifest, where the repository has not its digest, sets the tag to it, if one is given, and answers
/// whether it came. `manifest` is what the bytes read as.
pub fn put_manifest<S: Alter>(
    alloc: Global,
    conn: &mut Connection<S>,
    repo: &RepoName,
    digest: &Digest,
    source: Source<'_>,
    manifest: &Manifest,
    tag: Option<&Tag>,
) -> Result<bool, Fault>
    requires right { Fits source }
    requires fits { size_in source < 2 ^ 63 }
    requires matching { IfBytes (λ bytes. matches digest.now bytes ≡ true) source }
    ensures made { (l : Layout) → Suits l source.entry
        → manifest_in (text_in l source.entry) ≡ Ok (shown manifest.now)
        → WorldHas S.Store l conn.old (λ w. has_repo w repo.now ≡ true)
        → MakesWorld S.Store l conn.old conn.new result
        (λ w. put_manifest w repo.now digest.now (text_in l source.entry) (ask.text_in tag.entry)) }
    ensures came { (l : Layout) → Tells S.Store l conn.old conn.new result
        (λ w came. came ≡ is_none (manifest_at w repo.now digest.now)) }
    ensures grows { (l : Layout) → Suits l source.entry
        → manifest_in (text_in l source.entry) ≡ Ok (shown manifest.now)
        → WorldHas S.Store l conn.old (λ w. has_repo w repo.now ≡ true)
        → Relates S.Store l conn.old conn.new result (λ t u. Grow t.contents u.contents) }
    ensures places { (l : Layout) → Suits l source.entry
        → manifest_in (text_in l source.entry) ≡ Ok (shown manifest.now)
        → WorldHas S.Store l conn.old (λ w. has_repo w repo.now ≡ true)
        → RelatesBy S.Store l conn.old conn.new result (PutsPlaces source.entry) }
    ensures contents { (l : Layout) → Suits l source.entry
        → manifest_in (text_in l source.entry) ≡ Ok (shown manifest.now)
        → WorldHas S.Store l conn.old (λ w. has_repo w repo.now ≡ true)
        → RelatesBy S.Store l conn.old conn.new result (PutsContent (text_in l source.entry)) }
    ensures memory { (l : Layout) → Suits l source.entry
        → manifest_in (text_in l source.entry) ≡ Ok (shown manifest.now)
        → WorldHas S.Store l conn.old (λ w. has_repo w repo.now ≡ true)
        → StaysOnMemory S.Store l conn.old conn.new result }
    ensures back { (l : Layout) → Suits l source.entry
        → manifest_in (text_in l source.entry) ≡ Ok (shown manifest.now)
        → WorldHas S.Store l conn.old (λ w. has_repo w repo.now ≡ true)
        → GoesBack S.Store l conn.old conn.new result }
    ensures crash { (l : Layout) → Suits l source.entry
        → manifest_in (text_in l source.entry) ≡ Ok (shown manifest.now)
        → WorldHas S.Store l conn.old (λ w. has_repo w repo.now ≡ true)
        → CrashLeaves S.Store l conn.old conn.new result
        (λ w. put_manifest w repo.now digest.now (text_in l source.entry) (ask.text_in tag.entry)) }
    ensures survives { Lasts S.Store conn.old conn.new }
{
    let repo = repo.as_str();
    let digest = digest.as_str();
    match find_manifest_link(conn, repo, digest) {
        Ok(Some(_)) => tell_came(make(conn, Change::SetTag { repo, tag, digest }), false),
        Ok(None) => {
            let pushed = Change::AddManifest {
                alloc,
                repo,
                digest,
                source,
                manifest,
                tag,
            };
            tell_came(make(conn, pushed), true)
        }
        Err(fault) => Err(fault),
    }
}
