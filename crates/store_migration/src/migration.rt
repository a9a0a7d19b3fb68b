//! The migration of a database.
ghost use Rattle.std.specs.Prelude.{◌≡◌, ◌≢◌, ℤ, pos, Some, None, Ok, OnOk, OnErr, IfOk, IfErr, IfSome, IsErrAnd, MatchOption};
ghost use Rattle.sqlite.specs.State.{HasCleanDisk};
ghost use Rattle.sqlite.specs.Held.{state};
ghost use Rattle.store_schema.specs.Beside.{AreFree, names_of_two};
ghost use Rattle.store_contents.specs.Layouts.{InTables};
ghost use Rattle.store_statements.specs.Clauses.{Lasts};
ghost use Rattle.store_statements.specs.Held.{SettlesOn, StaysSettled, IsBack};
ghost use Rattle.store_opening.specs.Opening.{IsIdle, KnowsVersion, HoldsRegistry, versions_in};
ghost use Rattle.store_opening.specs.Asking.{IsWanting, IsWantingOr, IsUnnumbered, IsOfSchema, ShowsAlone};
ghost use Rattle.store_migration.specs.OldFile.{HoldsOldRegistry, olds_in, old_world_in};
ghost use Rattle.store_migration.specs.Rewriting.{counts};
ghost use Rattle.store_migration.specs.Migrating.{number_of, CrashMigrates, IsRefused, NamesNeither, IsTold};

use crate::Watch;
use crate::rewrite::{MovedRows, rewrite};
use sqlite::{Alter, Connection};
use std::alloc::Global;
use store_opening::{OpenFault, fault_in_opening, read_version};

/// The schemas that are read.
#[derive(Clone, Copy)]
enum Known {
    One,
    Two,
}

/// What the schema that was found comes to: 1 or 2.
fn only_known(found: Result<i64, OpenFault>) -> Result<Known, OpenFault>
    ensures known { IfOk result (λ k. found ≡ Ok (number_of k)) }
    ensures other { IfErr result (IsRefused found) }
{
    match found {
        Ok(1) => Ok(Known::One),
        Ok(2) => Ok(Known::Two),
        Ok(found) => Err(OpenFault::Schema(found)),
        Err(fault) => Err(fault),
    }
}

/// The tables of schema 1 become those of schema 2, all or none, in a transaction of its own.
fn take_over<S: Alter, W: Watch>(
    alloc: Global,
    conn: &mut Connection<S>,
    watch: &mut W,
) -> Result<MovedRows, OpenFault>
    ensures moved { HasCleanDisk (state S.Store conn.new) → HoldsOldRegistry (state S.Store conn.old).now
        → OnOk result
        (SettlesOn InTables (state S.Store conn.new) (old_world_in (state S.Store conn.old).now)) }
    ensures counted { HasCleanDisk (state S.Store conn.new) → HoldsOldRegistry (state S.Store conn.old).now
        → IfOk result (λ m. m ≡ counts (olds_in (state S.Store conn.old).now)) }
    ensures wanting { HasCleanDisk (state S.Store conn.new) → HoldsOldRegistry (state S.Store conn.old).now
        → IfErr result IsWanting }
    ensures back { HasCleanDisk (state S.Store conn.new) → IsIdle (state S.Store conn.old)
        → HoldsOldRegistry (state S.Store conn.old).now
        → OnErr result (IsBack (state S.Store conn.old) (state S.Store conn.new)) }
    ensures free { HasCleanDisk (state S.Store conn.new)
        → OnOk result (AreFree (state S.Store conn.old).now.schema names_of_two) }
    ensures unnumbered { IfErr result IsUnnumbered }
    ensures crash { CrashMigrates S.Store conn.old conn.new result }
    ensures survives { Lasts S.Store conn.old conn.new }
{
    if !conn.is_autocommit() {
        return Err(OpenFault::Storage);
    }
    let mut tx = conn.transaction();
    let moved = rewrite(alloc, &mut tx, watch)?;
    match tx.commit() {
        Ok(()) => Ok(moved),
        Err(error) => Err(fault_in_opening(error)),
    }
}

/// A registry of schema 1 becomes one of schema 2, which stands for the same world, in one transaction; and
/// `watch` is told how far it is. Answers how many rows were moved; `None` where it is of schema 2 already,
/// and nothing is done. `Schema`: it is of another. `NotARegistry`: it says none, or a name that schema 2 has
/// is taken. After a fault the tables are as before. The bytes of one row at a time are in memory.
pub fn migrate_open<S: Alter, W: Watch>(
    alloc: Global,
    conn: &mut Connection<S>,
    watch: &mut W,
) -> Result<Option<MovedRows>, OpenFault>
    ensures moved { HasCleanDisk (state S.Store conn.new) → IsIdle (state S.Store conn.old)
        → HoldsOldRegistry (state S.Store conn.old).now
        → OnOk result
        (SettlesOn InTables (state S.Store conn.new) (old_world_in (state S.Store conn.old).now)) }
    ensures counted { HasCleanDisk (state S.Store conn.new) → IsIdle (state S.Store conn.old)
        → HoldsOldRegistry (state S.Store conn.old).now
        → IfOk result (λ o. o ≡ Some (counts (olds_in (state S.Store conn.old).now))) }
    ensures wanting { HasCleanDisk (state S.Store conn.new) → HoldsOldRegistry (state S.Store conn.old).now
        → IfErr result IsWanting }
    ensures found { HasCleanDisk (state S.Store conn.new) → IsIdle (state S.Store conn.old)
        → HoldsRegistry (state S.Store conn.old).now
        → OnOk result (StaysSettled InTables (state S.Store conn.old) (state S.Store conn.new)) }
    ensures nothing { HasCleanDisk (state S.Store conn.new) → HoldsRegistry (state S.Store conn.old).now
        → IfOk result (λ o. o ≡ None) }
    ensures unmoved { HasCleanDisk (state S.Store conn.new) → HoldsRegistry (state S.Store conn.old).now
        → IfErr result IsWanting }
    ensures other { HasCleanDisk (state S.Store conn.new)
        → KnowsVersion (state S.Store conn.old).now.schema
        → (n : ℤ) → ShowsAlone (versions_in (state S.Store conn.old).now) n → n ≢ pos 1 → n ≢ pos 2
        → IsErrAnd result (IsWantingOr (OpenFault.Schema n)) }
    ensures unsaid { HasCleanDisk (state S.Store conn.new)
        → KnowsVersion (state S.Store conn.old).now.schema
        → ((n : ℤ) → ShowsAlone (versions_in (state S.Store conn.old).now) n → ⊥)
        → IsErrAnd result (IsWantingOr OpenFault.NotARegistry) }
    ensures asked { HasCleanDisk (state S.Store conn.new)
        → IfOk result
        (λ o. MatchOption o (IsOfSchema (state S.Store conn.old) (pos 2))
        (λ m. IsOfSchema (state S.Store conn.old) (pos 1))) }
    ensures free { HasCleanDisk (state S.Store conn.new)
        → IfOk result (λ o. IfSome o (λ m. AreFree (state S.Store conn.old).now.schema names_of_two)) }
    ensures another { IfErr result NamesNeither }
    ensures told { HasCleanDisk (state S.Store conn.new) → IfErr result (IsTold (state S.Store conn.old)) }
    ensures back { HasCleanDisk (state S.Store conn.new) → IsIdle (state S.Store conn.old)
        → HoldsOldRegistry (state S.Store conn.old).now
        → OnErr result (IsBack (state S.Store conn.old) (state S.Store conn.new)) }
    ensures left { HasCleanDisk (state S.Store conn.new) → IsIdle (state S.Store conn.old)
        → (IsOfSchema (state S.Store conn.old) (pos 1) → ⊥)
        → IsBack (state S.Store conn.old) (state S.Store conn.new) }
    ensures crash { CrashMigrates S.Store conn.old conn.new result }
    ensures survives { Lasts S.Store conn.old conn.new }
{
    match only_known(read_version(conn)) {
        Ok(Known::One) => match take_over(alloc, conn, watch) {
            Ok(moved) => Ok(Some(moved)),
            Err(fault) => Err(fault),
        },
        Ok(Known::Two) => Ok(None),
        Err(fault) => Err(fault),
    }
}
