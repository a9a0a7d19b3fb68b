//! The opening of a registry whose contents are in its tables.
ghost use Rattle.std.specs.Prelude.{◌≡◌, false, IfOk, IfErr, ⊤};
ghost use Rattle.sqlite.specs.State.{HasCleanDisk, Survives};
ghost use Rattle.sqlite.specs.Held.{state};
ghost use Rattle.registry_model.specs.World.{no_world};
ghost use Rattle.registry_store.specs.Opening.{IsOurs};
ghost use Rattle.store_contents.specs.Layouts.{InTables};
ghost use Rattle.store_opening.specs.Asking.{NamesNotTwo};
ghost use Rattle.store_opening.specs.Opening.{HoldsRegistry, IsIdle};
ghost use Rattle.store_schema.specs.Making.{IsEmptyWith};
ghost use Rattle.store_schema.specs.Schema.{no_schema};
ghost use Rattle.store_statements.specs.Held.{IsBack, world_in};
ghost use Rattle.layout_opening.specs.Opening.{layout_in};

use either::Either;
use registry_store::{OpenFault, Ours, Store};
use sqlite::{Alter, Connection};
use sqlite_disk::Disk;
use std::alloc::Global;
use store_bytes::TableContents;
use store_pack::PackContents;

/// A registry of either layout.
pub type LayoutStore<S, D> = Store<S, Ours, Either<TableContents, PackContents<D>>>;

/// The registry in the tables of a database, which are made where there are none, as `Store::adopt` has it.
pub(crate) fn take_up_tables<S: Alter, D: Disk + Drop>(
    alloc: Global,
    conn: Connection<S>,
) -> Result<LayoutStore<S, D>, (OpenFault, Connection<S>)>
    requires ours { HasCleanDisk (state S.Store conn)
        → IsIdle (state S.Store conn) × IsOurs (state S.Store conn).now }
    ensures layout { IfOk result (λ s. layout_in s.contents ≡ InTables) }
    ensures made { IfOk result
        (λ s. HasCleanDisk (state S.Store s.conn) → IsEmptyWith no_schema (state S.Store conn).now
        → world_in InTables (state S.Store s.conn) ≡ no_world) }
    ensures found { IfOk result
        (λ s. HasCleanDisk (state S.Store s.conn) → IsIdle (state S.Store conn)
        → HoldsRegistry (state S.Store conn).now
        → (state S.Store s.conn).now ≡ (state S.Store conn).now) }
    ensures unspent { IfOk result (λ s. s.spent ≡ false) }
    ensures survives { IfOk result (λ s. Survives (state S.Store conn) (state S.Store s.conn) (λ _. ⊤)) }
    ensures another { IfErr result (λ e. NamesNotTwo e.0) }
    ensures refused { IfErr result
        (λ e. HasCleanDisk (state S.Store e.1) → IsIdle (state S.Store conn)
        → IsBack (state S.Store conn) (state S.Store e.1)) }
{
    match Store::<S, Ours>::adopt(alloc, conn) {
        Ok(store) => {
            let (conn, contents) = store.into_parts();
            Ok(Store::over(alloc, conn, Either::Left(contents)))
        }
        Err((fault, conn)) => Err((fault, conn)),
    }
}
