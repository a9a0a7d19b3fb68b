//! The making of the tables of a registry over a pack.
ghost use Rattle.std.specs.Prelude.{◌≡◌, ◌↔◌, OnOk, OnErr, IfErr, Err, IsTrue};
ghost use Rattle.sqlite.specs.State.{HasCleanDisk, KeepsCommit};
ghost use Rattle.sqlite.specs.Held.{state};
ghost use Rattle.store_schema.specs.Schema.{no_schema};
ghost use Rattle.store_schema.specs.PackSchema.{pack_schema};
ghost use Rattle.store_schema.specs.Making.{IsEmptyWith};
ghost use Rattle.store_statements.specs.Clauses.{Lasts, LastsUncommitted};
ghost use Rattle.store_statements.specs.Held.{IsBack};
ghost use Rattle.store_opening.specs.Opening.{IsIdle};
ghost use Rattle.store_opening.specs.Asking.{IsUnnumbered, IsWanting};
ghost use Rattle.pack_opening.specs.Making.{IsFilled, IsNewPack, IsVersioned, LeavesNew};

use oci_types::Fault;
use sqlite::{Alter, Connection, Transaction};
use store_opening::{OpenFault, fault_in_making, fault_in_opening};
use store_pack::put_pack_row;
use store_schema::make_tables_of_pack;

/// A fault of the rows, as the opening tells it.
fn fault_in_rows(fault: Fault) -> OpenFault
    ensures { IsWanting result }
{
    match fault {
        Fault::Memory => OpenFault::Memory,
        Fault::Storage => OpenFault::Storage,
    }
}

/// Writes that the tables are of schema 3.
fn add_version<S: Alter>(tx: &mut Transaction<'_, S>) -> Result<(), OpenFault>
    requires begun { HasCleanDisk (state S.Store tx.old.conn.now)
        → IsTrue (state S.Store tx.old.conn.now).in_transaction }
    ensures added { HasCleanDisk (state S.Store tx.new.conn.now)
        → IsEmptyWith pack_schema (state S.Store tx.old.conn.now).now
        → OnOk result (IsVersioned (state S.Store tx.new.conn.now).now) }
    ensures wanting { IfErr result IsWanting }
    ensures inside { HasCleanDisk (state S.Store tx.new.conn.now)
        → OnOk result (IsTrue (state S.Store tx.new.conn.now).in_transaction) }
    ensures kept { HasCleanDisk (state S.Store tx.new.conn.now)
        → KeepsCommit (state S.Store tx.old.conn.now) (state S.Store tx.new.conn.now) }
    ensures same_reference { tx.new.conn.ghost_name ≡ tx.old.conn.ghost_name }
    ensures survives { LastsUncommitted S.Store tx.old.conn.now tx.new.conn.now }
{
    match tx.execute("INSERT INTO registry_schema (version) VALUES (3)", &[]) {
        Ok(_) => Ok(()),
        Err(error) => Err(fault_in_opening(error)),
    }
}

/// Writes which pack belongs to them, of age 0.
fn add_pack<S: Alter>(tx: &mut Transaction<'_, S>, mark: &[u8; 16]) -> Result<(), OpenFault>
    requires begun { HasCleanDisk (state S.Store tx.old.conn.now)
        → IsTrue (state S.Store tx.old.conn.now).in_transaction }
    ensures added { HasCleanDisk (state S.Store tx.new.conn.now)
        → IsVersioned (state S.Store tx.old.conn.now).now
        → OnOk result (IsFilled mark.now (state S.Store tx.new.conn.now).now) }
    ensures wanting { IfErr result IsWanting }
    ensures inside { HasCleanDisk (state S.Store tx.new.conn.now)
        → IsVersioned (state S.Store tx.old.conn.now).now
        → OnOk result (IsTrue (state S.Store tx.new.conn.now).in_transaction) }
    ensures kept { HasCleanDisk (state S.Store tx.new.conn.now)
        → IsVersioned (state S.Store tx.old.conn.now).now
        → KeepsCommit (state S.Store tx.old.conn.now) (state S.Store tx.new.conn.now) }
    ensures same_reference { tx.new.conn.ghost_name ≡ tx.old.conn.ghost_name }
    ensures survives { LastsUncommitted S.Store tx.old.conn.now tx.new.conn.now }
{
    match put_pack_row(tx, mark, 0) {
        Ok(()) => Ok(()),
        Err(fault) => Err(fault_in_rows(fault)),
    }
}

/// Writes both rows.
fn add_rows<S: Alter>(tx: &mut Transaction<'_, S>, mark: &[u8; 16]) -> Result<(), OpenFault>
    requires begun { HasCleanDisk (state S.Store tx.old.conn.now)
        → IsTrue (state S.Store tx.old.conn.now).in_transaction }
    ensures added { HasCleanDisk (state S.Store tx.new.conn.now)
        → IsEmptyWith pack_schema (state S.Store tx.old.conn.now).now
        → OnOk result (IsFilled mark.now (state S.Store tx.new.conn.now).now) }
    ensures wanting { IfErr result IsWanting }
    ensures inside { HasCleanDisk (state S.Store tx.new.conn.now)
        → IsEmptyWith pack_schema (state S.Store tx.old.conn.now).now
        → OnOk result (IsTrue (state S.Store tx.new.conn.now).in_transaction) }
    ensures kept { HasCleanDisk (state S.Store tx.new.conn.now)
        → IsEmptyWith pack_schema (state S.Store tx.old.conn.now).now
        → KeepsCommit (state S.Store tx.old.conn.now) (state S.Store tx.new.conn.now) }
    ensures same_reference { tx.new.conn.ghost_name ≡ tx.old.conn.ghost_name }
    ensures survives { LastsUncommitted S.Store tx.old.conn.now tx.new.conn.now }
{
    match add_version(tx) {
        Ok(()) => add_pack(tx, mark),
        Err(fault) => Err(fault),
    }
}

/// Makes the tables in an empty database, with both rows.
fn make<S: Alter>(tx: &mut Transaction<'_, S>, mark: &[u8; 16]) -> Result<(), OpenFault>
    requires { HasCleanDisk (state S.Store tx.old.conn.now)
        → IsTrue (state S.Store tx.old.conn.now).in_transaction }
    ensures made { HasCleanDisk (state S.Store tx.new.conn.now)
        → IsEmptyWith no_schema (state S.Store tx.old.conn.now).now
        → OnOk result (IsFilled mark.now (state S.Store tx.new.conn.now).now) }
    ensures wanting { HasCleanDisk (state S.Store tx.new.conn.now)
        → IsEmptyWith no_schema (state S.Store tx.old.conn.now).now → IfErr result IsWanting }
    ensures unnumbered { IfErr result IsUnnumbered }
    ensures inside { HasCleanDisk (state S.Store tx.new.conn.now)
        → IsEmptyWith no_schema (state S.Store tx.old.conn.now).now
        → OnOk result (IsTrue (state S.Store tx.new.conn.now).in_transaction) }
    ensures kept { HasCleanDisk (state S.Store tx.new.conn.now)
        → IsEmptyWith no_schema (state S.Store tx.old.conn.now).now
        → KeepsCommit (state S.Store tx.old.conn.now) (state S.Store tx.new.conn.now) }
    ensures same_reference { tx.new.conn.ghost_name ≡ tx.old.conn.ghost_name }
    ensures survives { LastsUncommitted S.Store tx.old.conn.now tx.new.conn.now }
{
    match make_tables_of_pack(tx) {
        Ok(()) => add_rows(tx, mark),
        Err(error) => Err(fault_in_making(error)),
    }
}

/// Makes them, all or none, in a transaction of its own.
fn create<S: Alter>(conn: &mut Connection<S>, mark: &[u8; 16]) -> Result<(), OpenFault>
    ensures made { HasCleanDisk (state S.Store conn.new) → IsEmptyWith no_schema (state S.Store conn.old).now
        → OnOk result (IsNewPack mark.now (state S.Store conn.new)) }
    ensures wanting { HasCleanDisk (state S.Store conn.new)
        → IsEmptyWith no_schema (state S.Store conn.old).now → IfErr result IsWanting }
    ensures back { HasCleanDisk (state S.Store conn.new) → IsIdle (state S.Store conn.old)
        → IsEmptyWith no_schema (state S.Store conn.old).now
        → OnErr result (IsBack (state S.Store conn.old) (state S.Store conn.new)) }
    ensures crash { HasCleanDisk (state S.Store conn.new) → IsIdle (state S.Store conn.old)
        → IsEmptyWith no_schema (state S.Store conn.old).now
        → LeavesNew mark.now (state S.Store conn.old) (state S.Store conn.new) result }
    ensures unnumbered { IfErr result IsUnnumbered }
    ensures survives { Lasts S.Store conn.old conn.new }
{
    if !conn.is_autocommit() {
        return Err(OpenFault::Storage);
    }
    let mut tx = conn.transaction();
    make(&mut tx, mark)?;
    match tx.commit() {
        Ok(()) => Ok(()),
        Err(error) => Err(fault_in_opening(error)),
    }
}

/// Whether the database has no table, index or view. Reads no row.
pub fn is_bare<S: Alter>(conn: &Connection<S>) -> bool
    ensures { IsTrue result ↔ ((state S.Store conn.now).now.schema ≡ no_schema) }
{
    let schema = conn.schema();
    schema.tables.is_empty() && schema.indexes.is_empty() && schema.views.is_empty()
}

/// Makes the tables of a registry over a pack, all or none, in an empty database: with the version 3, and the
/// mark of the pack, of age 0. They stand for the world without repositories and grants. `NotARegistry`: the
/// database has a table, an index or a view already, and stays as it is.
pub fn create_tables<S: Alter>(conn: &mut Connection<S>, mark: &[u8; 16]) -> Result<(), OpenFault>
    ensures made { HasCleanDisk (state S.Store conn.new) → IsEmptyWith no_schema (state S.Store conn.old).now
        → OnOk result (IsNewPack mark.now (state S.Store conn.new)) }
    ensures bare { OnOk result ((state S.Store conn.old).now.schema ≡ no_schema) }
    ensures taken { ((state S.Store conn.old).now.schema ≡ no_schema → ⊥)
        → (result ≡ Err OpenFault.NotARegistry) × (conn.new ≡ conn.old) }
    ensures wanting { HasCleanDisk (state S.Store conn.new)
        → IsEmptyWith no_schema (state S.Store conn.old).now → IfErr result IsWanting }
    ensures back { HasCleanDisk (state S.Store conn.new) → IsIdle (state S.Store conn.old)
        → OnErr result (IsBack (state S.Store conn.old) (state S.Store conn.new)) }
    ensures crash { HasCleanDisk (state S.Store conn.new) → IsIdle (state S.Store conn.old)
        → IsEmptyWith no_schema (state S.Store conn.old).now
        → LeavesNew mark.now (state S.Store conn.old) (state S.Store conn.new) result }
    ensures unnumbered { IfErr result IsUnnumbered }
    ensures survives { Lasts S.Store conn.old conn.new }
{
    if !is_bare(conn) {
        return Err(OpenFault::NotARegistry);
    }
    create(conn, mark)
}
