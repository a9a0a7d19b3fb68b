//! The opening of a registry on a database.
ghost use Rattle.std.specs.Prelude.{◌≡◌, ◌≢◌, ℤ, pos, true, false, Ok, OnOk, OnErr, IfOk, IfErr};
ghost use Rattle.sqlite.specs.State.{HasCleanDisk};
ghost use Rattle.sqlite.specs.Held.{state};
ghost use Rattle.store_schema.specs.Schema.{no_schema};
ghost use Rattle.store_schema.specs.Making.{IsEmptyWith};
ghost use Rattle.store_schema.specs.Beside.{AreFree, registry_names};
ghost use Rattle.registry_model.specs.World.{no_world};
ghost use Rattle.store_contents.specs.Layouts.{InTables};
ghost use Rattle.store_statements.specs.Clauses.{Lasts};
ghost use Rattle.store_statements.specs.Held.{HoldsTables, StaysSettled, SettlesOn, IsBack};
ghost use Rattle.store_opening.specs.Opening.{IsIdle, IsOpenedBeside, HoldsRegistry, SaysTwo, versions_in, has_version_table};
ghost use Rattle.store_opening.specs.Asking.{IsWanting, IsWantingOr, IsTold, IsUnnumbered, NamesNotTwo, IsOfSchema, ShowsAlone};

use crate::making::create;
use crate::version::read_version;
use sqlite::{Alter, Connection, Error, ErrorCode};

/// Why a database is not opened as a registry.
#[derive(Clone, Copy)]
pub enum OpenFault {
    /// Memory was refused.
    Memory,
    /// The database failed.
    Storage,
    /// The tables are of another schema than the one that is asked for.
    Schema(i64),
    /// There are tables of these names that are not a registry's.
    NotARegistry,
}

/// Why a database fails in its opening: want of memory is told apart from all others.
pub fn fault_in_opening(error: Error) -> OpenFault
    ensures wanting { IsWanting result }
    ensures unnumbered { IsUnnumbered result }
{
    match error {
        Error::SqliteFailure(ErrorCode::OutOfMemory) => OpenFault::Memory,
        _ => OpenFault::Storage,
    }
}

/// Whether a table says which schema the tables are. Reads no row.
fn is_marked<S: Alter>(conn: &Connection<S>) -> bool
    ensures { result ≡ has_version_table (state S.Store conn.now).now.schema }
{
    conn.schema().table_named(b"registry_schema").is_some()
}

/// What the schema that was found comes to: 2 alone is served.
fn only_two(found: Result<i64, OpenFault>) -> Result<(), OpenFault>
    ensures two { OnOk result (found ≡ Ok (pos 2)) }
    ensures other { IfErr result
        (λ e. IfOk found (λ n. (n ≢ pos 2) × (e ≡ OpenFault.Schema n)) × IfErr found (λ f. e ≡ f)) }
{
    match found {
        Ok(2) => Ok(()),
        Ok(found) => Err(OpenFault::Schema(found)),
        Err(fault) => Err(fault),
    }
}

/// Makes the tables of a registry where no table says that they are there; else sees that they are of
/// schema 2. Whatever the database is: outside a transaction a refusal leaves it as it was, where it is open
/// still, and `Schema` names the one number that it says. `NotARegistry`: it says none, or a name is taken.
/// Tables of another number than 2, or of none or several, are refused so, and by no other fault but want of
/// memory or a failure; an empty database and a registry's of schema 2 by these two alone. Where no table
/// says it, the tables are made only where each of their names is free, and all that was there stays.
pub fn take_up<S: Alter>(conn: &mut Connection<S>) -> Result<(), OpenFault>
    ensures made { HasCleanDisk (state S.Store conn.new) → IsEmptyWith no_schema (state S.Store conn.old).now
        → OnOk result (SettlesOn InTables (state S.Store conn.new) no_world) }
    ensures found { HasCleanDisk (state S.Store conn.new) → IsIdle (state S.Store conn.old)
        → HoldsRegistry (state S.Store conn.old).now
        → OnOk result (StaysSettled InTables (state S.Store conn.old) (state S.Store conn.new)) }
    ensures unmade { HasCleanDisk (state S.Store conn.new)
        → IsEmptyWith no_schema (state S.Store conn.old).now → IfErr result IsWanting }
    ensures wanting { HasCleanDisk (state S.Store conn.new) → HoldsRegistry (state S.Store conn.old).now
        → IfErr result IsWanting }
    ensures two { HasCleanDisk (state S.Store conn.new) → HoldsTables InTables (state S.Store conn.old).now
        → OnOk result (SaysTwo (state S.Store conn.old).now) }
    ensures other { HasCleanDisk (state S.Store conn.new) → HoldsTables InTables (state S.Store conn.old).now
        → (n : ℤ) → ShowsAlone (versions_in (state S.Store conn.old).now) n → n ≢ pos 2
        → IfErr result (IsWantingOr (OpenFault.Schema n)) }
    ensures unsaid { HasCleanDisk (state S.Store conn.new) → HoldsTables InTables (state S.Store conn.old).now
        → ((n : ℤ) → ShowsAlone (versions_in (state S.Store conn.old).now) n → ⊥)
        → IfErr result (IsWantingOr OpenFault.NotARegistry) }
    ensures asked { HasCleanDisk (state S.Store conn.new)
        → has_version_table (state S.Store conn.old).now.schema ≡ true
        → OnOk result (IsOfSchema (state S.Store conn.old) (pos 2)) }
    ensures free { HasCleanDisk (state S.Store conn.new)
        → has_version_table (state S.Store conn.old).now.schema ≡ false
        → OnOk result (AreFree (state S.Store conn.old).now.schema registry_names) }
    ensures beside { HasCleanDisk (state S.Store conn.new)
        → has_version_table (state S.Store conn.old).now.schema ≡ false
        → OnOk result (IsOpenedBeside (state S.Store conn.old).now (state S.Store conn.new)) }
    ensures unmarked { has_version_table (state S.Store conn.old).now.schema ≡ false
        → IfErr result (IsWantingOr OpenFault.NotARegistry) }
    ensures unanswered { HasCleanDisk (state S.Store conn.new)
        → ((n : ℤ) → IsOfSchema (state S.Store conn.old) n → ⊥)
        → IfErr result (IsWantingOr OpenFault.NotARegistry) }
    ensures told { HasCleanDisk (state S.Store conn.new) → IfErr result (IsTold (state S.Store conn.old)) }
    ensures another { IfErr result NamesNotTwo }
    ensures back { HasCleanDisk (state S.Store conn.new) → IsIdle (state S.Store conn.old)
        → OnErr result (IsBack (state S.Store conn.old) (state S.Store conn.new)) }
    ensures survives { Lasts S.Store conn.old conn.new }
{
    if !is_marked(conn) {
        return create(conn);
    }
    only_two(read_version(conn))
}
