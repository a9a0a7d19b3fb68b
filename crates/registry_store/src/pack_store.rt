//! A registry in memory whose bytes are in a pack.
ghost use Rattle.std.specs.Prelude.{◌≡◌, false, IfOk, IsTrue};
ghost use Rattle.sqlite.specs.Held.{state};
ghost use Rattle.sqlite.specs.Steps.{over_memory};
ghost use Rattle.registry_model.specs.World.{no_world};
ghost use Rattle.registry_pack.specs.Pack.{file_of};
ghost use Rattle.store_contents.specs.Layouts.{InPack};
ghost use Rattle.store_statements.specs.Held.{world_in};

use crate::origin::Ours;
use crate::store::Store;
use pack_opening::create_tables;
use sqlite::{Connection, MemStore};
use sqlite_disk::Disk;
use std::alloc::Global;
use store_opening::OpenFault;
use store_pack::PackContents;

impl<D: Disk + Drop> Store<MemStore, Ours, PackContents<D>> {
    /// A registry in memory, without repositories and grants, whose bytes are in a new pack in `disk`, an
    /// empty file. Its refusal is want of memory or a failure.
    pub fn in_pack(
        alloc: Global,
        disk: D,
        mark: [u8; 16],
    ) -> Result<Store<MemStore, Ours, PackContents<D>>, OpenFault>
        requires usable { IsTrue (D.Disk.is_usable disk) }
        ensures empty { IfOk result (λ s. world_in (InPack (D.Disk.seen (file_of s.contents.pack)))
            (state over_memory s.conn) ≡ no_world) }
        ensures unspent { IfOk result (λ s. s.spent ≡ false) }
    {
        let Ok(mut conn) = Connection::open_in_memory(alloc) else {
            return Err(OpenFault::Memory);
        };
        match create_tables(&mut conn, &mark) {
            Ok(()) => match PackContents::create(alloc, disk, mark) {
                Ok(contents) => Ok(Store::over(alloc, conn, contents)),
                Err(_) => Err(OpenFault::Storage),
            },
            Err(fault) => Err(fault),
        }
    }
}
