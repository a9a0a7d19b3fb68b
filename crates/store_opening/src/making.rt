//! The making of a registry's tables.
ghost use Rattle.std.specs.Prelude.{◌≡◌, OnOk, OnErr, IfErr, IsTrue};
ghost use Rattle.sqlite.specs.State.{HasCleanDisk, KeepsCommit};
ghost use Rattle.sqlite.specs.Effect.{Database};
ghost use Rattle.sqlite.specs.Held.{state};
ghost use Rattle.store_schema.specs.Schema.{no_schema};
ghost use Rattle.store_schema.specs.Making.{IsEmptyWith, IsOther};
ghost use Rattle.store_schema.specs.Beside.{AreFree, Comes, registry_names, registry_tables};
ghost use Rattle.registry_model.specs.World.{no_world};
ghost use Rattle.store_contents.specs.Layouts.{InTables};
ghost use Rattle.store_statements.specs.Clauses.{Lasts, LastsUncommitted};
ghost use Rattle.store_statements.specs.Held.{IsReady, SettlesOn, IsBack};
ghost use Rattle.store_opening.specs.Opening.{IsIdle, IsMadeBeside, IsOpenedBeside};
ghost use Rattle.store_opening.specs.Asking.{IsTaking, IsUnnumbered, IsWanting};
ghost use Rattle.store_statements.specs.Steps.{VersionComes, IsNew};

use crate::opening::{OpenFault, fault_in_opening};
use sqlite::{Alter, Connection, Error, ErrorCode, Transaction};
use sqlite_resolve::CompileError;
use store_schema::make_tables;

/// Why tables are not made: a name that is taken is told apart.
pub fn fault_in_making(error: Error) -> OpenFault
    ensures unnumbered { IsUnnumbered result }
    ensures wanting { IsOther error → IsWanting result }
    ensures taken { IsTaking error → result ≡ OpenFault.NotARegistry }
{
    match error {
        Error::SqliteFailure(ErrorCode::OutOfMemory) => OpenFault::Memory,
        Error::SqliteFailure(ErrorCode::NameTaken) => OpenFault::NotARegistry,
        Error::SqlInputError(CompileError::Exists) => OpenFault::NotARegistry,
        _ => OpenFault::Storage,
    }
}

/// Writes which schema the tables are.
fn add_version<S: Alter>(tx: &mut Transaction<'_, S>) -> Result<(), OpenFault>
    requires begun { HasCleanDisk (state S.Store tx.old.conn.now)
        → IsTrue (state S.Store tx.old.conn.now).in_transaction }
    ensures added { HasCleanDisk (state S.Store tx.new.conn.now)
        → IsReady InTables (state S.Store tx.old.conn.now)
        → OnOk result
        (VersionComes InTables (state S.Store tx.old.conn.now) (state S.Store tx.new.conn.now)) }
    ensures wanting { IfErr result IsWanting }
    ensures beside { HasCleanDisk (state S.Store tx.new.conn.now)
        → (first : Database) → Comes registry_names registry_tables first (state S.Store tx.old.conn.now).now
        → OnOk result (IsMadeBeside first (state S.Store tx.new.conn.now)) }
    ensures inside { HasCleanDisk (state S.Store tx.new.conn.now)
        → OnOk result (IsTrue (state S.Store tx.new.conn.now).in_transaction) }
    ensures kept { HasCleanDisk (state S.Store tx.new.conn.now)
        → KeepsCommit (state S.Store tx.old.conn.now) (state S.Store tx.new.conn.now) }
    ensures same_reference { tx.new.conn.ghost_name ≡ tx.old.conn.ghost_name }
    ensures survives { LastsUncommitted S.Store tx.old.conn.now tx.new.conn.now }
{
    match tx.execute("INSERT INTO registry_schema (version) VALUES (2)", &[]) {
        Ok(_) => Ok(()),
        Err(error) => Err(fault_in_opening(error)),
    }
}

/// Makes the tables, with the version, beside what there is. `NotARegistry`: one of their names is taken.
fn make<S: Alter>(tx: &mut Transaction<'_, S>) -> Result<(), OpenFault>
    requires { HasCleanDisk (state S.Store tx.old.conn.now)
        → IsTrue (state S.Store tx.old.conn.now).in_transaction }
    ensures made { HasCleanDisk (state S.Store tx.new.conn.now)
        → IsEmptyWith no_schema (state S.Store tx.old.conn.now).now
        → OnOk result (IsNew InTables (state S.Store tx.new.conn.now)) }
    ensures wanting { HasCleanDisk (state S.Store tx.new.conn.now)
        → IsEmptyWith no_schema (state S.Store tx.old.conn.now).now → IfErr result IsWanting }
    ensures unnumbered { IfErr result IsUnnumbered }
    ensures free { HasCleanDisk (state S.Store tx.new.conn.now)
        → OnOk result (AreFree (state S.Store tx.old.conn.now).now.schema registry_names) }
    ensures beside { HasCleanDisk (state S.Store tx.new.conn.now)
        → OnOk result (IsMadeBeside (state S.Store tx.old.conn.now).now (state S.Store tx.new.conn.now)) }
    ensures inside { HasCleanDisk (state S.Store tx.new.conn.now)
        → OnOk result (IsTrue (state S.Store tx.new.conn.now).in_transaction) }
    ensures kept { HasCleanDisk (state S.Store tx.new.conn.now)
        → KeepsCommit (state S.Store tx.old.conn.now) (state S.Store tx.new.conn.now) }
    ensures same_reference { tx.new.conn.ghost_name ≡ tx.old.conn.ghost_name }
    ensures survives { LastsUncommitted S.Store tx.old.conn.now tx.new.conn.now }
{
    match make_tables(tx) {
        Ok(()) => add_version(tx),
        Err(error) => Err(fault_in_making(error)),
    }
}

/// Makes the tables, all or none, in a transaction of its own, beside what there is, which stays. In an empty
/// database, and over any schema that the store knows, where no further table has a row that may go with a
/// repository, they stand for the world without repositories and grants. `NotARegistry`: one of their names
/// is taken.
pub(crate) fn create<S: Alter>(conn: &mut Connection<S>) -> Result<(), OpenFault>
    ensures made { HasCleanDisk (state S.Store conn.new) → IsEmptyWith no_schema (state S.Store conn.old).now
        → OnOk result (SettlesOn InTables (state S.Store conn.new) no_world) }
    ensures wanting { HasCleanDisk (state S.Store conn.new)
        → IsEmptyWith no_schema (state S.Store conn.old).now → IfErr result IsWanting }
    ensures back { HasCleanDisk (state S.Store conn.new) → IsIdle (state S.Store conn.old)
        → OnErr result (IsBack (state S.Store conn.old) (state S.Store conn.new)) }
    ensures free { HasCleanDisk (state S.Store conn.new)
        → OnOk result (AreFree (state S.Store conn.old).now.schema registry_names) }
    ensures beside { HasCleanDisk (state S.Store conn.new)
        → OnOk result (IsOpenedBeside (state S.Store conn.old).now (state S.Store conn.new)) }
    ensures unnumbered { IfErr result IsUnnumbered }
    ensures survives { Lasts S.Store conn.old conn.new }
{
    if !conn.is_autocommit() {
        return Err(OpenFault::Storage);
    }
    let mut tx = conn.transaction();
    make(&mut tx)?;
    match tx.commit() {
        Ok(()) => Ok(()),
        Err(error) => Err(fault_in_opening(error)),
    }
}
