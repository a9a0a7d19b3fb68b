//! The pack of a registry is opened by what its rows say.
ghost use Rattle.std.specs.Prelude.{◌≡◌, ◌<◌, ◌≤◌, ℕ, List, IsTrue, IfOk, OnOk};
ghost use Rattle.sqlite.specs.State.{HasCleanDisk, IsUnchanged};
ghost use Rattle.sqlite.specs.Held.{state};
ghost use Rattle.registry_pack.specs.declared.head.Head.{Head};
ghost use Rattle.registry_pack.specs.declared.head.HeadCopy.{HeadCopy};
ghost use Rattle.registry_pack.specs.Heads.{Says};
ghost use Rattle.registry_pack.specs.Pack.{file_of, mark_of, age_of};
ghost use Rattle.registry_pack.specs.Standing.{KeepsAll};
ghost use Rattle.std.specs.List.{AllByRecursion};
ghost use Rattle.registry_pack.specs.Extents.{size_of, starts_at};
ghost use Rattle.store_pack.specs.Contents.{AreApart, IsPlaced};
ghost use Rattle.store_pack.specs.Opening.{AreSpared, AreThere};
ghost use Rattle.store_pack.specs.Pack.{PackSays};
ghost use Rattle.store_contents.specs.Places.{HoldsPlaces, place_rows, runs_of};
ghost use Rattle.store_statements.specs.Clauses.{Lasts};

use crate::pack_row::read_pack_row;
use crate::reading::extents_in_use;
use oci_types::Fault;
use registry_pack::{Extent, HEAD, OpenError, Pack};
use sqlite::{Alter, Connection};
use sqlite_disk::Disk;
use std::alloc::Global;

/// Why the pack of a registry was not opened.
#[derive(Debug, Drop)]
pub enum PackFault {
    /// The rows could not be read.
    Rows(Fault),
    /// There is no row that says which pack it is.
    Unnamed,
    /// A row names no bytes, or some of the pack's head.
    Misplaced,
    /// The file was not opened.
    Pack(OpenError),
}

/// Whether each of the extents has bytes, and none in the head.
fn are_placed(extents: &[Extent]) -> bool
    ensures { IsTrue result → AllByRecursion (λ e. IsPlaced (starts_at e, size_of e)) extents.now }
{
    for extent in extents {
        if extent.at() < HEAD || extent.size() == 0 {
            return false;
        }
    }
    true
}

/// Opens the pack of a registry: which one it is, its age, and what of it is in use are as the rows say. No
/// row changes, and the file is only read.
pub fn open_pack<S: Alter, D: Disk + Drop>(
    alloc: Global,
    conn: &mut Connection<S>,
    disk: D,
) -> Result<Pack<D>, PackFault>
    requires usable { IsTrue (D.Disk.is_usable disk) }
    ensures says { HasCleanDisk (state S.Store conn.new) → HoldsPlaces (state S.Store conn.old).now
        → IfOk result (λ pack. PackSays (state S.Store conn.old).now (mark_of pack) (age_of pack)) }
    ensures same { HasCleanDisk (state S.Store conn.new) → HoldsPlaces (state S.Store conn.old).now
        → OnOk result (IsUnchanged (state S.Store conn.old) (state S.Store conn.new)) }
    // A database of a lower age than its pack is an older copy, and is never opened with it.
    ensures older { HasCleanDisk (state S.Store conn.new) → HoldsPlaces (state S.Store conn.old).now
        → IfOk result (λ pack. IsTrue (D.Disk.is_clean (file_of pack))
        → (copy : HeadCopy) (said : Head) → Says (D.Disk.seen disk) copy said
        → (said.mark ≡ mark_of pack) × (said.age ≤ age_of pack)) }
    ensures there { HasCleanDisk (state S.Store conn.new) → HoldsPlaces (state S.Store conn.old).now
        → IfOk result (λ pack. IsTrue (D.Disk.is_clean (file_of pack))
        → AreThere (D.Disk.seen disk) (runs_of (place_rows (state S.Store conn.old).now))) }
    ensures spared { HasCleanDisk (state S.Store conn.new) → HoldsPlaces (state S.Store conn.old).now
        → IfOk result (λ pack. IsTrue (D.Disk.is_clean (file_of pack))
        → AreSpared pack (runs_of (place_rows (state S.Store conn.old).now))) }
    ensures placed { HasCleanDisk (state S.Store conn.new) → HoldsPlaces (state S.Store conn.old).now
        → OnOk result (AllByRecursion IsPlaced (runs_of (place_rows (state S.Store conn.old).now))) }
    ensures apart { IfOk result AreApart }
    ensures kept { IfOk result (λ pack. KeepsAll D.Disk disk (file_of pack)) }
    ensures usable { IfOk result (λ pack. IsTrue (D.Disk.is_usable (file_of pack))) }
    ensures survives { Lasts S.Store conn.old conn.new }
{
    let row = match read_pack_row(conn) {
        Ok(Some(row)) => row,
        Ok(None) => return Err(PackFault::Unnamed),
        Err(fault) => return Err(PackFault::Rows(fault)),
    };
    let used = match extents_in_use(alloc, conn) {
        Ok(used) => used,
        Err(fault) => return Err(PackFault::Rows(fault)),
    };
    if !are_placed(&used) {
        return Err(PackFault::Misplaced);
    }
    match Pack::open(alloc, disk, row.mark, row.age, used) {
        Ok(pack) => Ok(pack),
        Err(error) => Err(PackFault::Pack(error)),
    }
}
