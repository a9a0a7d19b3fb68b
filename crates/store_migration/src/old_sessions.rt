//! The rows of upload sessions in schema 1: each has its whole bytes.
ghost use Rattle.std.specs.Prelude.{◌≡◌, map, find, option_map, ◌<◌, ◌^◌};
ghost use Rattle.std.specs.List.Sorted.{IsPermutation};
ghost use Rattle.store_schema.specs.Rows.{bytes_at};
ghost use Rattle.store_contents.specs.Layouts.{InTables};
ghost use Rattle.store_statements.specs.Keys.{of_session};
ghost use Rattle.store_statements.specs.Changes.{without};
ghost use Rattle.store_statements.specs.Clauses.{KeepsInside, LastsUncommitted};
ghost use Rattle.store_migration.specs.Clauses.{FindsOld, ChangesNothingOld, KeepsOld, ChangesOld};
ghost use Rattle.store_migration.specs.Listed.{session_of};
ghost use Rattle.store_migration.specs.Shown.{session_shown, shown};

use crate::first_bytes::first_bytes;
use crate::old_keys::{SessionKey, keys_of};
use oci_types::Fault;
use sqlite::{Alter, Transaction, params};
use std::alloc::Global;
use store_contents::done;

/// The key of each row, in any order. Nothing changes.
pub fn session_keys<S: Alter>(
    alloc: Global,
    tx: &mut Transaction<'_, S>,
) -> Result<Vec<SessionKey>, Fault>
    ensures found { FindsOld S.Store tx.old.conn.now tx.new.conn.now result
        (λ old keys. IsPermutation (map session_of old.sessions) (map session_shown keys.items)) }
    ensures same { ChangesNothingOld S.Store tx.old.conn.now tx.new.conn.now result }
    ensures kept { KeepsOld S.Store tx.old.conn.now tx.new.conn.now }
    ensures same_reference { tx.new.conn.ghost_name ≡ tx.old.conn.ghost_name }
    ensures survives { LastsUncommitted S.Store tx.old.conn.now tx.new.conn.now }
{
    keys_of(
        alloc,
        tx.query_all("SELECT repo, number FROM registry_sessions", &[]),
    )
}

/// The bytes of an upload session, if its row is there. Nothing changes.
pub fn session_bytes<S: Alter>(
    tx: &mut Transaction<'_, S>,
    repo: &str,
    number: u64,
) -> Result<Option<Vec<u8>>, Fault>
    requires fits { number < 2 ^ 63 }
    ensures found { FindsOld S.Store tx.old.conn.now tx.new.conn.now result
        (λ old o. shown o ≡ option_map (λ r. bytes_at r 4) (find (of_session repo.now number) old.sessions)) }
    ensures same { ChangesNothingOld S.Store tx.old.conn.now tx.new.conn.now result }
    ensures kept { KeepsOld S.Store tx.old.conn.now tx.new.conn.now }
    ensures same_reference { tx.new.conn.ghost_name ≡ tx.old.conn.ghost_name }
    ensures survives { LastsUncommitted S.Store tx.old.conn.now tx.new.conn.now }
{
    first_bytes(tx.query_all(
        "SELECT bytes FROM registry_sessions WHERE repo = ?1 AND number = ?2",
        params![repo, number as i64],
    ))
}

/// Takes the row of an upload session out, where it is there.
pub fn take_session<S: Alter>(
    tx: &mut Transaction<'_, S>,
    repo: &str,
    number: u64,
) -> Result<(), Fault>
    requires fits { number < 2 ^ 63 }
    ensures taken { ChangesOld S.Store tx.old.conn.now tx.new.conn.now result
        (λ old. record old { sessions = without (of_session repo.now number) old.sessions }) }
    ensures kept { KeepsInside S.Store InTables tx.old.conn.now tx.new.conn.now }
    ensures same_reference { tx.new.conn.ghost_name ≡ tx.old.conn.ghost_name }
    ensures survives { LastsUncommitted S.Store tx.old.conn.now tx.new.conn.now }
{
    done(tx.execute(
        "DELETE FROM registry_sessions WHERE repo = ?1 AND number = ?2",
        params![repo, number as i64],
    ))
}
