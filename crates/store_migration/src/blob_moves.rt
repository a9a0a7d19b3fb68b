//! Blobs are moved.
ghost use Rattle.std.specs.Prelude.{◌≡◌, ◌<◌, ◌^◌, length, find, option_map, Some, OnOk, IfOk};
ghost use Rattle.sqlite.specs.State.{HasCleanDisk, KeepsCommit};
ghost use Rattle.sqlite.specs.Held.{state};
ghost use Rattle.store_schema.specs.Rows.{bytes_at};
ghost use Rattle.store_contents.specs.Layouts.{InTables};
ghost use Rattle.store_statements.specs.Keys.{has_key};
ghost use Rattle.store_statements.specs.Clauses.{LastsUncommitted};
ghost use Rattle.store_statements.specs.Held.{IsReady, held};
ghost use Rattle.store_migration.specs.Olds.{old_of};
ghost use Rattle.store_migration.specs.Moving.{IsUnderway, Moves, MovesOn, KeepsUnderway, CountsOld, without_blob, without_listed_blobs, without_blobs};

use crate::old_blobs::{blob_bytes, blob_keys, take_blob};
use crate::old_keys::Key;
use crate::watch::{OldTable, Watch};
use oci_types::Fault;
use sqlite::{Alter, Transaction};
use std::alloc::Global;
use store_statements::blobs::add_blob_link;
use store_statements::contents::keep;
use store_statements::numbers::LARGEST;

/// Moves a blob whose row has these bytes; its digest is not looked at.
fn move_found<S: Alter>(
    alloc: Global,
    tx: &mut Transaction<'_, S>,
    repo: &str,
    digest: &str,
    bytes: &[u8],
) -> Result<(), Fault>
    requires fits { length bytes.now < 2 ^ 63 }
    ensures moved { HasCleanDisk (state S.Store tx.new.conn.now)
        → IsReady InTables (state S.Store tx.old.conn.now)
        → IsUnderway (held InTables (state S.Store tx.old.conn.now))
        → option_map (λ r. bytes_at r 4)
        (find (has_key repo.now digest.now) (old_of (held InTables (state S.Store tx.old.conn.now))).blobs)
        ≡ Some bytes.now
        → OnOk result
        (IsReady InTables (state S.Store tx.new.conn.now) × Moves (without_blob repo.now digest.now)
        (held InTables (state S.Store tx.old.conn.now)) (held InTables (state S.Store tx.new.conn.now))) }
    ensures kept { HasCleanDisk (state S.Store tx.new.conn.now)
        → IsReady InTables (state S.Store tx.old.conn.now)
        → IsUnderway (held InTables (state S.Store tx.old.conn.now))
        → option_map (λ r. bytes_at r 4)
        (find (has_key repo.now digest.now) (old_of (held InTables (state S.Store tx.old.conn.now))).blobs)
        ≡ Some bytes.now
        → KeepsCommit (state S.Store tx.old.conn.now) (state S.Store tx.new.conn.now) }
    ensures same_reference { tx.new.conn.ghost_name ≡ tx.old.conn.ghost_name }
    ensures survives { LastsUncommitted S.Store tx.old.conn.now tx.new.conn.now }
{
    match keep(alloc, tx, bytes) {
        Ok(content) => match add_blob_link(tx, repo, digest, bytes.len() as u64, content) {
            Ok(()) => take_blob(tx, repo, digest),
            Err(fault) => Err(fault),
        },
        Err(fault) => Err(fault),
    }
}

/// Moves the row of a blob: its bytes are found or added among the contents, a link comes that names them,
/// and the row goes. Where the key has no row, nothing is moved. Its bytes are in memory meanwhile.
pub fn move_blob<S: Alter>(
    alloc: Global,
    tx: &mut Transaction<'_, S>,
    repo: &str,
    digest: &str,
) -> Result<(), Fault>
    ensures moved { MovesOn S.Store tx.old.conn.now tx.new.conn.now result
        (without_blob repo.now digest.now) }
    ensures kept { KeepsUnderway S.Store tx.old.conn.now tx.new.conn.now }
    ensures same_reference { tx.new.conn.ghost_name ≡ tx.old.conn.ghost_name }
    ensures survives { LastsUncommitted S.Store tx.old.conn.now tx.new.conn.now }
{
    match blob_bytes(tx, repo, digest) {
        Ok(Some(bytes)) => {
            if bytes.len() as u64 > LARGEST {
                return Err(Fault::Storage);
            }
            move_found(alloc, tx, repo, digest, &bytes)
        }
        Ok(None) => Ok(()),
        Err(fault) => Err(fault),
    }
}

/// Moves the rows of these blobs, one after the other, says so, and answers how many they are.
fn move_listed<S: Alter, W: Watch>(
    alloc: Global,
    tx: &mut Transaction<'_, S>,
    keys: &[Key],
    watch: &mut W,
) -> Result<usize, Fault>
    ensures moved { MovesOn S.Store tx.old.conn.now tx.new.conn.now result (without_listed_blobs keys.now) }
    ensures counted { IfOk result (λ n. n ≡ length keys.now) }
    ensures kept { KeepsUnderway S.Store tx.old.conn.now tx.new.conn.now }
    ensures same_reference { tx.new.conn.ghost_name ≡ tx.old.conn.ghost_name }
    ensures survives { LastsUncommitted S.Store tx.old.conn.now tx.new.conn.now }
{
    let mut done = 0;
    for key in keys {
        watch.moved(OldTable::Blobs, done, keys.len());
        move_blob(alloc, tx, &key.repo, &key.digest)?;
        done += 1;
    }
    watch.moved(OldTable::Blobs, done, keys.len());
    Ok(done)
}

/// Moves the row of each blob, with the bytes of one of them in memory at a time, and answers how many there
/// were.
pub fn move_blobs<S: Alter, W: Watch>(
    alloc: Global,
    tx: &mut Transaction<'_, S>,
    watch: &mut W,
) -> Result<usize, Fault>
    ensures moved { MovesOn S.Store tx.old.conn.now tx.new.conn.now result without_blobs }
    ensures counted { CountsOld S.Store tx.old.conn.now tx.new.conn.now result (λ old. old.blobs) }
    ensures kept { KeepsUnderway S.Store tx.old.conn.now tx.new.conn.now }
    ensures same_reference { tx.new.conn.ghost_name ≡ tx.old.conn.ghost_name }
    ensures survives { LastsUncommitted S.Store tx.old.conn.now tx.new.conn.now }
{
    let keys = blob_keys(alloc, tx)?;
    move_listed(alloc, tx, &keys, watch)
}
