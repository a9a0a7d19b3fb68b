//! The opening and the making of a registry whose contents are in a pack.
ghost use Rattle.std.specs.Prelude.{◌≡◌, false, IsTrue, IfOk, IfErr, ⊤};
ghost use Rattle.sqlite.specs.State.{HasCleanDisk, Survives};
ghost use Rattle.sqlite.specs.Held.{state};
ghost use Rattle.registry_model.specs.World.{no_world};
ghost use Rattle.store_contents.specs.Layouts.{InPack};
ghost use Rattle.store_opening.specs.Opening.{IsIdle};
ghost use Rattle.store_schema.specs.Making.{IsEmptyWith};
ghost use Rattle.store_schema.specs.Schema.{no_schema};
ghost use Rattle.store_statements.specs.Held.{IsBack, world_in};
ghost use Rattle.pack_opening.specs.Making.{IsPackRegistry};
ghost use Rattle.layout_opening.specs.Opening.{IsInPack, layout_in};

use crate::fault::LayoutFault;
use crate::tables::LayoutStore;
use either::Either;
use pack_opening::{create_tables, take_up_pack};
use registry_pack::OpenError;
use registry_store::Store;
use sqlite::{Alter, Connection};
use sqlite_disk::Disk;
use std::alloc::Global;
use store_pack::{PackContents, PackFault};

/// The registry in the tables of a database and the pack in `disk`. No row changes, and the file is only
/// read.
pub(crate) fn take_up_beside<S: Alter, D: Disk + Drop, R: Drop>(
    alloc: Global,
    mut conn: Connection<S>,
    disk: D,
) -> Result<LayoutStore<S, D>, (LayoutFault<R>, Connection<S>)>
    requires usable { IsTrue (D.Disk.is_usable disk) }
    requires ours { HasCleanDisk (state S.Store conn) → IsIdle (state S.Store conn)
        × IsPackRegistry (D.Disk.seen disk) (state S.Store conn).now }
    ensures layout { IfOk result (λ s. layout_in s.contents ≡ InPack (D.Disk.seen disk)) }
    ensures found { IfOk result
        (λ s. HasCleanDisk (state S.Store s.conn)
        → (state S.Store s.conn).now ≡ (state S.Store conn).now) }
    ensures unspent { IfOk result (λ s. s.spent ≡ false) }
    ensures survives { IfOk result (λ s. Survives (state S.Store conn) (state S.Store s.conn) (λ _. ⊤)) }
{
    match take_up_pack(&mut conn) {
        Ok(()) => {}
        Err(fault) => return Err((LayoutFault::Tables(fault), conn)),
    }
    match PackContents::open(alloc, &mut conn, disk) {
        Ok(contents) => Ok(Store::over(alloc, conn, Either::Right(contents))),
        Err(fault) => Err((LayoutFault::Pack(fault), conn)),
    }
}

/// A registry without repositories and grants in an empty database, whose contents are in a new pack in
/// `disk`. The pack lasts before its tables are made. A refusal leaves the database as it was, where it is
/// open still.
pub(crate) fn make_beside<S: Alter, D: Disk + Drop, R: Drop>(
    alloc: Global,
    mut conn: Connection<S>,
    disk: D,
    mark: [u8; 16],
) -> Result<LayoutStore<S, D>, (LayoutFault<R>, Connection<S>)>
    requires usable { IsTrue (D.Disk.is_usable disk) }
    requires ours { HasCleanDisk (state S.Store conn) → IsIdle (state S.Store conn)
        × IsEmptyWith no_schema (state S.Store conn).now }
    ensures layout { IfOk result (λ s. IsInPack (layout_in s.contents)) }
    ensures made { IfOk result
        (λ s. HasCleanDisk (state S.Store s.conn)
        → world_in (layout_in s.contents) (state S.Store s.conn) ≡ no_world) }
    ensures unspent { IfOk result (λ s. s.spent ≡ false) }
    ensures survives { IfOk result (λ s. Survives (state S.Store conn) (state S.Store s.conn) (λ _. ⊤)) }
    ensures refused { IfErr result
        (λ e. HasCleanDisk (state S.Store e.1) → IsIdle (state S.Store conn)
        → IsBack (state S.Store conn) (state S.Store e.1)) }
{
    let contents = match PackContents::create(alloc, disk, mark) {
        Ok(contents) => contents,
        Err(error) => {
            let fault = PackFault::Pack(OpenError::Disk(error));
            return Err((LayoutFault::Pack(fault), conn));
        }
    };
    match create_tables(&mut conn, &mark) {
        Ok(()) => Ok(Store::over(alloc, conn, Either::Right(contents))),
        Err(fault) => Err((LayoutFault::Tables(fault), conn)),
    }
}
