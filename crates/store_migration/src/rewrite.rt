//! The tables of schema 1 become those of schema 2, inside a transaction.
ghost use Rattle.std.specs.Prelude.{◌≡◌, IsTrue, OnOk, IfOk, IfErr};
ghost use Rattle.sqlite.specs.State.{HasCleanDisk, KeepsCommit};
ghost use Rattle.sqlite.specs.Held.{state};
ghost use Rattle.store_schema.specs.Beside.{AreFree, names_of_two};
ghost use Rattle.store_contents.specs.Layouts.{InTables};
ghost use Rattle.store_statements.specs.Clauses.{LastsUncommitted};
ghost use Rattle.store_statements.specs.Held.{IsReady, held};
ghost use Rattle.store_migration.specs.Olds.{old_of};
ghost use Rattle.store_migration.specs.Moving.{IsUnderway, KeepsUnderway};
ghost use Rattle.store_opening.specs.Asking.{IsUnnumbered, IsWanting};
ghost use Rattle.store_migration.specs.OldFile.{HoldsOldRegistry, olds_in, old_world_in};
ghost use Rattle.store_migration.specs.Rewriting.{Rewrites, StandsFor, counts};

use crate::{Watch, move_blobs, move_manifests, move_sessions, raise_version};
use oci_types::Fault;
use sqlite::{Alter, Transaction};
use std::alloc::Global;
use store_opening::{OpenFault, fault_in_making};
use store_schema::make_tables_of_two;

/// How many rows were moved.
#[derive(Clone, Copy)]
pub struct MovedRows {
    pub blobs: usize,
    pub manifests: usize,
    pub sessions: usize,
}

/// A fault of a statement, as an opening's.
fn opening_fault(fault: Fault) -> OpenFault
    ensures wanting { IsWanting result }
    ensures unnumbered { IsUnnumbered result }
{
    match fault {
        Fault::Memory => OpenFault::Memory,
        Fault::Storage => OpenFault::Storage,
    }
}

/// Moves every row, then says that the tables are of schema 2.
fn move_rows<S: Alter, W: Watch>(
    alloc: Global,
    tx: &mut Transaction<'_, S>,
    watch: &mut W,
) -> Result<MovedRows, Fault>
    ensures moved { HasCleanDisk (state S.Store tx.new.conn.now)
        → IsReady InTables (state S.Store tx.old.conn.now)
        → IsUnderway (held InTables (state S.Store tx.old.conn.now))
        → OnOk result
        (IsReady InTables (state S.Store tx.new.conn.now)
        × Rewrites (held InTables (state S.Store tx.old.conn.now))
        (held InTables (state S.Store tx.new.conn.now))) }
    ensures counted { HasCleanDisk (state S.Store tx.new.conn.now)
        → IsReady InTables (state S.Store tx.old.conn.now)
        → IsUnderway (held InTables (state S.Store tx.old.conn.now))
        → IfOk result (λ m. m ≡ counts (old_of (held InTables (state S.Store tx.old.conn.now)))) }
    ensures kept { KeepsUnderway S.Store tx.old.conn.now tx.new.conn.now }
    ensures same_reference { tx.new.conn.ghost_name ≡ tx.old.conn.ghost_name }
    ensures survives { LastsUncommitted S.Store tx.old.conn.now tx.new.conn.now }
{
    let blobs = move_blobs(alloc, tx, watch)?;
    let manifests = move_manifests(alloc, tx, watch)?;
    let sessions = move_sessions(alloc, tx, watch)?;
    match raise_version(tx) {
        Ok(()) => Ok(MovedRows {
            blobs,
            manifests,
            sessions,
        }),
        Err(fault) => Err(fault),
    }
}

/// Makes the tables of schema 2 beside those of schema 1, and moves every row. `NotARegistry`: one of their
/// names is taken.
pub(crate) fn rewrite<S: Alter, W: Watch>(
    alloc: Global,
    tx: &mut Transaction<'_, S>,
    watch: &mut W,
) -> Result<MovedRows, OpenFault>
    requires { HasCleanDisk (state S.Store tx.old.conn.now)
        → IsTrue (state S.Store tx.old.conn.now).in_transaction }
    ensures made { HasCleanDisk (state S.Store tx.new.conn.now)
        → HoldsOldRegistry (state S.Store tx.old.conn.now).now
        → OnOk result
        (IsReady InTables (state S.Store tx.new.conn.now)
        × StandsFor (held InTables (state S.Store tx.new.conn.now))
        (old_world_in (state S.Store tx.old.conn.now).now)) }
    ensures counted { HasCleanDisk (state S.Store tx.new.conn.now)
        → HoldsOldRegistry (state S.Store tx.old.conn.now).now
        → IfOk result (λ m. m ≡ counts (olds_in (state S.Store tx.old.conn.now).now)) }
    ensures wanting { HasCleanDisk (state S.Store tx.new.conn.now)
        → HoldsOldRegistry (state S.Store tx.old.conn.now).now → IfErr result IsWanting }
    ensures unnumbered { IfErr result IsUnnumbered }
    ensures free { HasCleanDisk (state S.Store tx.new.conn.now)
        → OnOk result (AreFree (state S.Store tx.old.conn.now).now.schema names_of_two) }
    ensures kept { HasCleanDisk (state S.Store tx.new.conn.now)
        → HoldsOldRegistry (state S.Store tx.old.conn.now).now
        → KeepsCommit (state S.Store tx.old.conn.now) (state S.Store tx.new.conn.now) }
    ensures same_reference { tx.new.conn.ghost_name ≡ tx.old.conn.ghost_name }
    ensures survives { LastsUncommitted S.Store tx.old.conn.now tx.new.conn.now }
{
    match make_tables_of_two(tx) {
        Ok(()) => match move_rows(alloc, tx, watch) {
            Ok(moved) => Ok(moved),
            Err(fault) => Err(opening_fault(fault)),
        },
        Err(error) => Err(fault_in_making(error)),
    }
}
