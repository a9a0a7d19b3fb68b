//! Bytes that get a place of their own in the pack.
ghost use Rattle.std.specs.Prelude.{◌≡◌, ◌⊎◌, ◌≤◌, ◌<◌, ℕ, length, OnOk, IfOk, IsTrue};
ghost use Rattle.registry_pack.specs.Blocks.{IsInBlocks, IsInUse};
ghost use Rattle.registry_pack.specs.Extents.{size_of, starts_at};
ghost use Rattle.registry_pack.specs.Pack.{IsWritable, KeepsFile, KeepsRetired, file_of, head_of};
ghost use Rattle.registry_pack.specs.Standing.{KeepsElsewhere, Lasts};
ghost use Rattle.store_pack.specs.Contents.{Places, Spares};

use oci_types::Fault;
use registry_pack::{Extent, Pack};
use sqlite_disk::Disk;

/// The blocks of an extent that no row has named may be written again. Where memory is wanting for that they
/// stay unused until the pack is opened anew.
pub(crate) fn release<D: Disk>(pack: &mut Pack<D>, extent: Extent)
    ensures writable { (p : ℕ) → IsWritable pack.new p → IsWritable pack.old p ⊎ IsInBlocks extent p }
    ensures retired { KeepsRetired pack.old pack.new }
    ensures file { KeepsFile pack.old pack.new }
{
    match pack.release(extent) {
        Ok(()) | Err(_) => {}
    }
}

/// Writes the bytes at an extent, and makes them last. Where they could not be written the extent is
/// released.
fn fill<D: Disk>(pack: &mut Pack<D>, extent: Extent, bytes: &[u8]) -> Result<(), Fault>
    requires usable { IsTrue (D.Disk.is_usable (file_of pack.old)) }
    requires some { 0 < length bytes.now }
    requires size { size_of extent ≡ length bytes.now }
    ensures lasts { OnOk result (Lasts D.Disk (file_of pack.new) (starts_at extent) bytes.now) }
    ensures elsewhere { KeepsElsewhere D.Disk (starts_at extent) (length bytes.now)
        (file_of pack.old) (file_of pack.new) }
    ensures closed { OnOk result ((p : ℕ) → IsWritable pack.new p → IsWritable pack.old p) }
    ensures writable { (p : ℕ) → IsWritable pack.new p → IsWritable pack.old p ⊎ IsInBlocks extent p }
    ensures retired { KeepsRetired pack.old pack.new }
    ensures head { head_of pack.new ≡ head_of pack.old }
{
    if pack.write(extent, 0, bytes).is_err() {
        release(pack, extent);
        return Err(Fault::Memory);
    }
    match pack.sync() {
        Ok(()) => Ok(()),
        Err(_) => Err(Fault::Storage),
    }
}

/// Cuts off the end of the file what may be written, where the file may be used still: what a write took that
/// found no room on the disk is given back.
fn cut_end<D: Disk>(pack: &mut Pack<D>)
    ensures { Spares pack.old pack.new }
{
    if pack.may_be_used() {
        let _ = pack.trim();
    }
}

/// Writes the bytes at an extent that was free, and makes them last. `Fault::Memory` where there is no room
/// for them, or they could not be written: the place is free as before, and if it was at the end of the file,
/// it is cut off. `Fault::Storage` where the file could not be synced: it may not be used again.
pub(crate) fn place<D: Disk>(pack: &mut Pack<D>, bytes: &[u8]) -> Result<Extent, Fault>
    requires usable { IsTrue (D.Disk.is_usable (file_of pack.old)) }
    requires some { 0 < length bytes.now }
    ensures placed { IfOk result (Places pack.old pack.new bytes.now) }
    ensures spares { Spares pack.old pack.new }
{
    let Some(extent) = pack.allocate(bytes.len()) else {
        return Err(Fault::Memory);
    };
    match fill(pack, extent, bytes) {
        Ok(()) => Ok(extent),
        Err(fault) => {
            cut_end(pack);
            Err(fault)
        }
    }
}

/// The same of the blocks of each of the extents.
pub(crate) fn release_all<D: Disk>(pack: &mut Pack<D>, extents: &[Extent])
    ensures writable { (p : ℕ) → IsWritable pack.new p → IsWritable pack.old p ⊎ IsInUse extents.now p }
    ensures retired { KeepsRetired pack.old pack.new }
    ensures file { KeepsFile pack.old pack.new }
{
    for extent in extents {
        release(pack, *extent);
    }
}
