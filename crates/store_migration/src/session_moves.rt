//! Upload sessions are moved.
ghost use Rattle.std.specs.Prelude.{◌≡◌, ◌<◌, ◌^◌, [], length, find, option_map, None, Some, OnOk, IfOk};
ghost use Rattle.sqlite.specs.State.{HasCleanDisk, KeepsCommit};
ghost use Rattle.sqlite.specs.Held.{state};
ghost use Rattle.store_schema.specs.Rows.{bytes_at};
ghost use Rattle.store_contents.specs.Layouts.{InTables};
ghost use Rattle.store_statements.specs.Keys.{of_session, has_start};
ghost use Rattle.store_statements.specs.Changes.{with_size};
ghost use Rattle.store_statements.specs.Clauses.{KeepsInside, LastsUncommitted};
ghost use Rattle.store_statements.specs.Held.{IsReady, held};
ghost use Rattle.store_statements.specs.Steps.{PieceStored, uploads_changed};
ghost use Rattle.store_migration.specs.Olds.{old_of};
ghost use Rattle.store_migration.specs.Moving.{IsUnderway, SessionStored, Moves, MovesOn, KeepsUnderway, CountsOld, without_session, without_listed_sessions, without_sessions};

use crate::old_keys::SessionKey;
use crate::old_sessions::{session_bytes, session_keys, take_session};
use crate::watch::{OldTable, Watch};
use oci_types::Fault;
use sqlite::{Alter, Transaction};
use std::alloc::Global;
use store_statements::contents::keep;
use store_statements::numbers::LARGEST;
use store_statements::pieces::add_piece;
use store_statements::uploads::{add_upload, set_size};

/// Gives an empty session its bytes: its size is theirs, and they are its one piece.
fn fill<S: Alter>(
    alloc: Global,
    tx: &mut Transaction<'_, S>,
    repo: &str,
    number: u64,
    bytes: &[u8],
) -> Result<(), Fault>
    requires number_fits { number < 2 ^ 63 }
    requires fits { length bytes.now < 2 ^ 63 }
    ensures filled { HasCleanDisk (state S.Store tx.new.conn.now)
        → IsReady InTables (state S.Store tx.old.conn.now)
        → find (has_start repo.now number 0) (held InTables (state S.Store tx.old.conn.now)).pieces ≡ None
        → OnOk result
        (IsReady InTables (state S.Store tx.new.conn.now) × PieceStored
        (uploads_changed (of_session repo.now number) (with_size (length bytes.now))
        (held InTables (state S.Store tx.old.conn.now)))
        (held InTables (state S.Store tx.new.conn.now)) repo.now number 0 bytes.now []) }
    ensures kept { KeepsInside S.Store InTables tx.old.conn.now tx.new.conn.now }
    ensures same_reference { tx.new.conn.ghost_name ≡ tx.old.conn.ghost_name }
    ensures survives { LastsUncommitted S.Store tx.old.conn.now tx.new.conn.now }
{
    match set_size(tx, repo, number, bytes.len() as u64) {
        Ok(_) => match keep(alloc, tx, bytes) {
            Ok(content) => add_piece(tx, repo, number, 0, bytes.len() as u64, content),
            Err(fault) => Err(fault),
        },
        Err(fault) => Err(fault),
    }
}

/// Opens a session that is not there under its number, with these bytes; an empty one gets no piece.
fn add_session<S: Alter>(
    alloc: Global,
    tx: &mut Transaction<'_, S>,
    repo: &str,
    number: u64,
    bytes: &[u8],
) -> Result<(), Fault>
    requires number_fits { number < 2 ^ 63 }
    requires fits { length bytes.now < 2 ^ 63 }
    ensures stored { HasCleanDisk (state S.Store tx.new.conn.now)
        → IsReady InTables (state S.Store tx.old.conn.now)
        → find (of_session repo.now number) (held InTables (state S.Store tx.old.conn.now)).uploads ≡ None
        → find (has_start repo.now number 0) (held InTables (state S.Store tx.old.conn.now)).pieces ≡ None
        → OnOk result
        (IsReady InTables (state S.Store tx.new.conn.now)
        × SessionStored (held InTables (state S.Store tx.old.conn.now))
        (held InTables (state S.Store tx.new.conn.now)) repo.now number bytes.now) }
    ensures kept { HasCleanDisk (state S.Store tx.new.conn.now)
        → IsReady InTables (state S.Store tx.old.conn.now)
        → find (of_session repo.now number) (held InTables (state S.Store tx.old.conn.now)).uploads ≡ None
        → KeepsCommit (state S.Store tx.old.conn.now) (state S.Store tx.new.conn.now) }
    ensures same_reference { tx.new.conn.ghost_name ≡ tx.old.conn.ghost_name }
    ensures survives { LastsUncommitted S.Store tx.old.conn.now tx.new.conn.now }
{
    match add_upload(tx, repo, number) {
        Ok(()) => {
            if bytes.is_empty() {
                return Ok(());
            }
            fill(alloc, tx, repo, number, bytes)
        }
        Err(fault) => Err(fault),
    }
}

/// Moves a session whose row has these bytes.
fn move_found<S: Alter>(
    alloc: Global,
    tx: &mut Transaction<'_, S>,
    repo: &str,
    number: u64,
    bytes: &[u8],
) -> Result<(), Fault>
    requires number_fits { number < 2 ^ 63 }
    requires fits { length bytes.now < 2 ^ 63 }
    ensures moved { HasCleanDisk (state S.Store tx.new.conn.now)
        → IsReady InTables (state S.Store tx.old.conn.now)
        → IsUnderway (held InTables (state S.Store tx.old.conn.now))
        → option_map (λ r. bytes_at r 4)
        (find (of_session repo.now number) (old_of (held InTables (state S.Store tx.old.conn.now))).sessions)
        ≡ Some bytes.now
        → OnOk result
        (IsReady InTables (state S.Store tx.new.conn.now) × Moves (without_session repo.now number)
        (held InTables (state S.Store tx.old.conn.now)) (held InTables (state S.Store tx.new.conn.now))) }
    ensures kept { HasCleanDisk (state S.Store tx.new.conn.now)
        → IsReady InTables (state S.Store tx.old.conn.now)
        → IsUnderway (held InTables (state S.Store tx.old.conn.now))
        → option_map (λ r. bytes_at r 4)
        (find (of_session repo.now number) (old_of (held InTables (state S.Store tx.old.conn.now))).sessions)
        ≡ Some bytes.now
        → KeepsCommit (state S.Store tx.old.conn.now) (state S.Store tx.new.conn.now) }
    ensures same_reference { tx.new.conn.ghost_name ≡ tx.old.conn.ghost_name }
    ensures survives { LastsUncommitted S.Store tx.old.conn.now tx.new.conn.now }
{
    match add_session(alloc, tx, repo, number, bytes) {
        Ok(()) => take_session(tx, repo, number),
        Err(fault) => Err(fault),
    }
}

/// Moves the row of an upload session: it is opened under its own number, and no number is given out; its
/// bytes, if there are any, become its one piece; and the row goes. Where the key has no row, nothing is
/// moved. Its bytes are in memory meanwhile.
pub fn move_session<S: Alter>(
    alloc: Global,
    tx: &mut Transaction<'_, S>,
    repo: &str,
    number: u64,
) -> Result<(), Fault>
    requires number_fits { number < 2 ^ 63 }
    ensures moved { MovesOn S.Store tx.old.conn.now tx.new.conn.now result
        (without_session repo.now number) }
    ensures kept { KeepsUnderway S.Store tx.old.conn.now tx.new.conn.now }
    ensures same_reference { tx.new.conn.ghost_name ≡ tx.old.conn.ghost_name }
    ensures survives { LastsUncommitted S.Store tx.old.conn.now tx.new.conn.now }
{
    match session_bytes(tx, repo, number) {
        Ok(Some(bytes)) => {
            if bytes.len() as u64 > LARGEST {
                return Err(Fault::Storage);
            }
            move_found(alloc, tx, repo, number, &bytes)
        }
        Ok(None) => Ok(()),
        Err(fault) => Err(fault),
    }
}

/// Moves the rows of these sessions, one after the other, says so, and answers how many they are.
fn move_listed<S: Alter, W: Watch>(
    alloc: Global,
    tx: &mut Transaction<'_, S>,
    keys: &[SessionKey],
    watch: &mut W,
) -> Result<usize, Fault>
    ensures moved { MovesOn S.Store tx.old.conn.now tx.new.conn.now result
        (without_listed_sessions keys.now) }
    ensures counted { IfOk result (λ n. n ≡ length keys.now) }
    ensures kept { KeepsUnderway S.Store tx.old.conn.now tx.new.conn.now }
    ensures same_reference { tx.new.conn.ghost_name ≡ tx.old.conn.ghost_name }
    ensures survives { LastsUncommitted S.Store tx.old.conn.now tx.new.conn.now }
{
    let mut done = 0;
    for key in keys {
        watch.moved(OldTable::Sessions, done, keys.len());
        if key.number > LARGEST {
            return Err(Fault::Storage);
        }
        move_session(alloc, tx, &key.repo, key.number)?;
        done += 1;
    }
    watch.moved(OldTable::Sessions, done, keys.len());
    Ok(done)
}

/// Moves the row of each upload session, with the bytes of one of them in memory at a time, and answers how
/// many there were.
pub fn move_sessions<S: Alter, W: Watch>(
    alloc: Global,
    tx: &mut Transaction<'_, S>,
    watch: &mut W,
) -> Result<usize, Fault>
    ensures moved { MovesOn S.Store tx.old.conn.now tx.new.conn.now result without_sessions }
    ensures counted { CountsOld S.Store tx.old.conn.now tx.new.conn.now result (λ old. old.sessions) }
    ensures kept { KeepsUnderway S.Store tx.old.conn.now tx.new.conn.now }
    ensures same_reference { tx.new.conn.ghost_name ≡ tx.old.conn.ghost_name }
    ensures survives { LastsUncommitted S.Store tx.old.conn.now tx.new.conn.now }
{
    let keys = session_keys(alloc, tx)?;
    move_listed(alloc, tx, &keys, watch)
}
