//! The rows of blobs in schema 1: each has its whole bytes.
ghost use Rattle.std.specs.Prelude.{◌≡◌, map, find, option_map};
ghost use Rattle.std.specs.List.Sorted.{IsPermutation};
ghost use Rattle.store_schema.specs.Rows.{bytes_at};
ghost use Rattle.store_contents.specs.Layouts.{InTables};
ghost use Rattle.store_statements.specs.Keys.{has_key};
ghost use Rattle.store_statements.specs.Changes.{without};
ghost use Rattle.store_statements.specs.Clauses.{KeepsInside, LastsUncommitted};
ghost use Rattle.store_migration.specs.Clauses.{FindsOld, ChangesNothingOld, KeepsOld, ChangesOld};
ghost use Rattle.store_migration.specs.Listed.{key_of};
ghost use Rattle.store_migration.specs.Shown.{key_shown, shown};

use crate::first_bytes::first_bytes;
use crate::old_keys::{Key, keys_of};
use oci_types::Fault;
use sqlite::{Alter, Transaction, params};
use std::alloc::Global;
use store_contents::done;

/// The key of each row, in any order. Nothing changes.
pub fn blob_keys<S: Alter>(alloc: Global, tx: &mut Transaction<'_, S>) -> Result<Vec<Key>, Fault>
    ensures found { FindsOld S.Store tx.old.conn.now tx.new.conn.now result
        (λ old keys. IsPermutation (map key_of old.blobs) (map key_shown keys.items)) }
    ensures same { ChangesNothingOld S.Store tx.old.conn.now tx.new.conn.now result }
    ensures kept { KeepsOld S.Store tx.old.conn.now tx.new.conn.now }
    ensures same_reference { tx.new.conn.ghost_name ≡ tx.old.conn.ghost_name }
    ensures survives { LastsUncommitted S.Store tx.old.conn.now tx.new.conn.now }
{
    keys_of(
        alloc,
        tx.query_all("SELECT repo, digest FROM registry_blobs", &[]),
    )
}

/// The bytes of a blob, if its row is there. Nothing changes.
pub fn blob_bytes<S: Alter>(
    tx: &mut Transaction<'_, S>,
    repo: &str,
    digest: &str,
) -> Result<Option<Vec<u8>>, Fault>
    ensures found { FindsOld S.Store tx.old.conn.now tx.new.conn.now result
        (λ old o. shown o ≡ option_map (λ r. bytes_at r 4) (find (has_key repo.now digest.now) old.blobs)) }
    ensures same { ChangesNothingOld S.Store tx.old.conn.now tx.new.conn.now result }
    ensures kept { KeepsOld S.Store tx.old.conn.now tx.new.conn.now }
    ensures same_reference { tx.new.conn.ghost_name ≡ tx.old.conn.ghost_name }
    ensures survives { LastsUncommitted S.Store tx.old.conn.now tx.new.conn.now }
{
    first_bytes(tx.query_all(
        "SELECT bytes FROM registry_blobs WHERE repo = ?1 AND digest = ?2",
        params![repo, digest],
    ))
}

/// Takes the row of a blob out, where it is there.
pub fn take_blob<S: Alter>(
    tx: &mut Transaction<'_, S>,
    repo: &str,
    digest: &str,
) -> Result<(), Fault>
    ensures taken { ChangesOld S.Store tx.old.conn.now tx.new.conn.now result
        (λ old. record old { blobs = without (has_key repo.now digest.now) old.blobs }) }
    ensures kept { KeepsInside S.Store InTables tx.old.conn.now tx.new.conn.now }
    ensures same_reference { tx.new.conn.ghost_name ≡ tx.old.conn.ghost_name }
    ensures survives { LastsUncommitted S.Store tx.old.conn.now tx.new.conn.now }
{
    done(tx.execute(
        "DELETE FROM registry_blobs WHERE repo = ?1 AND digest = ?2",
        params![repo, digest],
    ))
}
