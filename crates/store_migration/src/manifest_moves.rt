//! Manifests are moved.
ghost use Rattle.std.specs.Prelude.{◌≡◌, ◌<◌, ◌^◌, length, find, option_map, Some, OnOk, IfOk};
ghost use Rattle.sqlite.specs.State.{HasCleanDisk, KeepsCommit};
ghost use Rattle.sqlite.specs.Held.{state};
ghost use Rattle.oci_types.specs.Manifest.{manifest_in};
ghost use Rattle.registry_model.specs.Manifests.{kind_in};
ghost use Rattle.registry_model.specs.Referrers.{subject_or_none};
ghost use Rattle.store_schema.specs.Rows.{bytes_at};
ghost use Rattle.store_contents.specs.Layouts.{InTables};
ghost use Rattle.store_statements.specs.Keys.{has_key};
ghost use Rattle.store_statements.specs.Clauses.{LastsUncommitted};
ghost use Rattle.store_statements.specs.Held.{IsReady, held};
ghost use Rattle.store_migration.specs.Olds.{old_of};
ghost use Rattle.store_migration.specs.Moving.{IsUnderway, Moves, MovesOn, KeepsUnderway, CountsOld, without_manifest, without_listed_manifests, without_manifests};

use crate::old_keys::Key;
use crate::old_manifests::{manifest_bytes, manifest_keys, take_manifest};
use crate::watch::{OldTable, Watch};
use oci_documents::read_manifest;
use oci_types::{Fault, Kind, Manifest, ManifestFault};
use sqlite::{Alter, Transaction};
use std::alloc::Global;
use store_statements::contents::keep;
use store_statements::manifests::add_manifest_link;
use store_statements::numbers::LARGEST;

/// The digest of the manifest that this one refers to.
fn subject_of(manifest: &Manifest) -> Option<&str>
    ensures { option_map (λ text. text.now) result ≡ manifest.now.subject }
{
    match &manifest.subject {
        Some(subject) => Some(subject.as_str()),
        None => None,
    }
}

/// Moves a manifest whose row has these bytes, of the kind and the subject as which they read.
fn move_as<S: Alter>(
    alloc: Global,
    tx: &mut Transaction<'_, S>,
    repo: &str,
    digest: &str,
    bytes: &[u8],
    kind: Kind,
    subject: Option<&str>,
) -> Result<(), Fault>
    requires fits { length bytes.now < 2 ^ 63 }
    requires of_kind { kind ≡ kind_in bytes.now }
    requires of_subject { option_map (λ text. text.now) subject ≡ subject_or_none (manifest_in bytes.now) }
    ensures moved { HasCleanDisk (state S.Store tx.new.conn.now)
        → IsReady InTables (state S.Store tx.old.conn.now)
        → IsUnderway (held InTables (state S.Store tx.old.conn.now))
        → option_map (λ r. bytes_at r 6)
        (find (has_key repo.now digest.now)
        (old_of (held InTables (state S.Store tx.old.conn.now))).manifests)
        ≡ Some bytes.now
        → OnOk result
        (IsReady InTables (state S.Store tx.new.conn.now) × Moves (without_manifest repo.now digest.now)
        (held InTables (state S.Store tx.old.conn.now)) (held InTables (state S.Store tx.new.conn.now))) }
    ensures kept { HasCleanDisk (state S.Store tx.new.conn.now)
        → IsReady InTables (state S.Store tx.old.conn.now)
        → IsUnderway (held InTables (state S.Store tx.old.conn.now))
        → option_map (λ r. bytes_at r 6)
        (find (has_key repo.now digest.now)
        (old_of (held InTables (state S.Store tx.old.conn.now))).manifests)
        ≡ Some bytes.now
        → KeepsCommit (state S.Store tx.old.conn.now) (state S.Store tx.new.conn.now) }
    ensures same_reference { tx.new.conn.ghost_name ≡ tx.old.conn.ghost_name }
    ensures survives { LastsUncommitted S.Store tx.old.conn.now tx.new.conn.now }
{
    match keep(alloc, tx, bytes) {
        Ok(content) => {
            let size = bytes.len() as u64;
            match add_manifest_link(tx, repo, digest, size, kind, subject, content) {
                Ok(()) => take_manifest(tx, repo, digest),
                Err(fault) => Err(fault),
            }
        }
        Err(fault) => Err(fault),
    }
}

/// The same, where the bytes are read first: what is no manifest counts as an image manifest without a
/// subject.
fn move_found<S: Alter>(
    alloc: Global,
    tx: &mut Transaction<'_, S>,
    repo: &str,
    digest: &str,
    bytes: &[u8],
) -> Result<(), Fault>
    requires fits { length bytes.now < 2 ^ 63 }
    ensures moved { HasCleanDisk (state S.Store tx.new.conn.now)
        → IsReady InTables (state S.Store tx.old.conn.now)
        → IsUnderway (held InTables (state S.Store tx.old.conn.now))
        → option_map (λ r. bytes_at r 6)
        (find (has_key repo.now digest.now)
        (old_of (held InTables (state S.Store tx.old.conn.now))).manifests)
        ≡ Some bytes.now
        → OnOk result
        (IsReady InTables (state S.Store tx.new.conn.now) × Moves (without_manifest repo.now digest.now)
        (held InTables (state S.Store tx.old.conn.now)) (held InTables (state S.Store tx.new.conn.now))) }
    ensures kept { HasCleanDisk (state S.Store tx.new.conn.now)
        → IsReady InTables (state S.Store tx.old.conn.now)
        → IsUnderway (held InTables (state S.Store tx.old.conn.now))
        → option_map (λ r. bytes_at r 6)
        (find (has_key repo.now digest.now)
        (old_of (held InTables (state S.Store tx.old.conn.now))).manifests)
        ≡ Some bytes.now
        → KeepsCommit (state S.Store tx.old.conn.now) (state S.Store tx.new.conn.now) }
    ensures same_reference { tx.new.conn.ghost_name ≡ tx.old.conn.ghost_name }
    ensures survives { LastsUncommitted S.Store tx.old.conn.now tx.new.conn.now }
{
    match read_manifest(alloc, bytes) {
        Ok(manifest) => {
            let subject = subject_of(&manifest);
            move_as(alloc, tx, repo, digest, bytes, manifest.kind, subject)
        }
        Err(ManifestFault::Memory) => Err(Fault::Memory),
        Err(_) => move_as(alloc, tx, repo, digest, bytes, Kind::Image, None),
    }
}

/// Moves the row of a manifest: its bytes are found or added among the contents, a link comes that names
/// them, with the kind and the subject as which they read, and the row goes. Where the key has no row,
/// nothing is moved. Its bytes are in memory meanwhile.
pub fn move_manifest<S: Alter>(
    alloc: Global,
    tx: &mut Transaction<'_, S>,
    repo: &str,
    digest: &str,
) -> Result<(), Fault>
    ensures moved { MovesOn S.Store tx.old.conn.now tx.new.conn.now result
        (without_manifest repo.now digest.now) }
    ensures kept { KeepsUnderway S.Store tx.old.conn.now tx.new.conn.now }
    ensures same_reference { tx.new.conn.ghost_name ≡ tx.old.conn.ghost_name }
    ensures survives { LastsUncommitted S.Store tx.old.conn.now tx.new.conn.now }
{
    match manifest_bytes(tx, repo, digest) {
        Ok(Some(bytes)) => {
            if bytes.len() as u64 > LARGEST {
                return Err(Fault::Storage);
            }
            move_found(alloc, tx, repo, digest, &bytes)
        }
        Ok(None) => Ok(()),
        Err(fault) => Err(fault),
    }
}

/// Moves the rows of these manifests, one after the other, says so, and answers how many they are.
fn move_listed<S: Alter, W: Watch>(
    alloc: Global,
    tx: &mut Transaction<'_, S>,
    keys: &[Key],
    watch: &mut W,
) -> Result<usize, Fault>
    ensures moved { MovesOn S.Store tx.old.conn.now tx.new.conn.now result
        (without_listed_manifests keys.now) }
    ensures counted { IfOk result (λ n. n ≡ length keys.now) }
    ensures kept { KeepsUnderway S.Store tx.old.conn.now tx.new.conn.now }
    ensures same_reference { tx.new.conn.ghost_name ≡ tx.old.conn.ghost_name }
    ensures survives { LastsUncommitted S.Store tx.old.conn.now tx.new.conn.now }
{
    let mut done = 0;
    for key in keys {
        watch.moved(OldTable::Manifests, done, keys.len());
        move_manifest(alloc, tx, &key.repo, &key.digest)?;
        done += 1;
    }
    watch.moved(OldTable::Manifests, done, keys.len());
    Ok(done)
}

/// Moves the row of each manifest, with the bytes of one of them in memory at a time, and answers how many
/// there were.
pub fn move_manifests<S: Alter, W: Watch>(
    alloc: Global,
    tx: &mut Transaction<'_, S>,
    watch: &mut W,
) -> Result<usize, Fault>
    ensures moved { MovesOn S.Store tx.old.conn.now tx.new.conn.now result without_manifests }
    ensures counted { CountsOld S.Store tx.old.conn.now tx.new.conn.now result (λ old. old.manifests) }
    ensures kept { KeepsUnderway S.Store tx.old.conn.now tx.new.conn.now }
    ensures same_reference { tx.new.conn.ghost_name ≡ tx.old.conn.ghost_name }
    ensures survives { LastsUncommitted S.Store tx.old.conn.now tx.new.conn.now }
{
    let keys = manifest_keys(alloc, tx)?;
    move_listed(alloc, tx, &keys, watch)
}
