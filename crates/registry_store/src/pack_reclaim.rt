//! Contents that nothing names go from a pack, and their space comes back.
ghost use Rattle.std.specs.Prelude.{◌≡◌, Err, OnOk};

use crate::reclaim::Reclaim;
use oci_types::Fault;
use sqlite::{Alter, Connection};
use sqlite_disk::Disk;
use std::alloc::Global;
use store_pack::PackContents;
use store_writes::clear_pack;

/// The contents are gone, also where memory was wanting: their space comes back with the next call.
fn or_later(given: Result<(), Fault>) -> Result<(), Fault>
    ensures done { OnOk result (given ≡ Err Fault.Storage → ⊥) }
    ensures failed { result ≡ Err Fault.Memory → ⊥ }
{
    match given {
        Ok(()) | Err(Fault::Memory) => Ok(()),
        Err(Fault::Storage) => Err(Fault::Storage),
    }
}

impl<D: Disk + Drop> Reclaim for PackContents<D> {
    fn clear<S: Alter>(&mut self, alloc: Global, conn: &mut Connection<S>) -> Result<(), Fault> {
        match clear_pack(alloc, conn) {
            Ok(()) => {
                let given = self.give_back(alloc, conn);
                // (where the file cannot be made shorter, its end is written again)
                let _ = self.trim();
                or_later(given)
            }
            Err(fault) => Err(fault),
        }
    }
}
