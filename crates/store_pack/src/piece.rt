//! A piece of a stage, written where no content stands.
ghost use Rattle.std.specs.Prelude.{◌≡◌, ◌<◌, List, length, IsTrue, OnOk};
ghost use Rattle.sqlite.specs.State.{HasCleanDisk};
ghost use Rattle.sqlite.specs.Held.{state};
ghost use Rattle.sqlite_disk.specs.Disk.{Holds};
ghost use Rattle.registry_pack.specs.Standing.{KeepsElsewhere};
ghost use Rattle.store_contents.specs.Places.{bytes_in, place_rows, runs_of};
ghost use Rattle.store_pack.specs.Joint.{IsJoint, IsSame, IsDurable, IsFree, Older, AreAside, AreAged};

use registry_pack::write;
use sqlite::{Alter, Connection};
use sqlite_disk::Disk;
use std::io;

/// Writes bytes to the pack beside the rows of a connection. Where none of the places that the rows name has
/// any of these bytes, no content changes, and none that lasts is lost: also where the write fails, and
/// whatever a crash leaves of both. So a place may be written again as soon as the commit that removed its
/// content has been answered. `conn` is only looked at by the contract.
pub fn write_piece<S: Alter, D: Disk>(
    conn: &Connection<S>,
    disk: &mut D,
    at: usize,
    bytes: &[u8],
) -> io::Result<()>
    requires usable { IsTrue (D.Disk.is_usable disk.old) }
    ensures written { OnOk result (0 < length bytes.now → Holds (D.Disk.seen disk.new) at bytes.now) }
    ensures elsewhere { KeepsElsewhere D.Disk at (length bytes.now) disk.old disk.new }
    ensures joint { IsJoint (state S.Store conn.now) D.Disk disk.old
        → IsFree at (length bytes.now) (runs_of (place_rows (state S.Store conn.now).now))
        → IsJoint (state S.Store conn.now) D.Disk disk.new
        × IsSame (bytes_in (state S.Store conn.now).now (D.Disk.seen disk.new))
        (bytes_in (state S.Store conn.now).now (D.Disk.seen disk.old)) }
    ensures durable { IsJoint (state S.Store conn.now) D.Disk disk.new
        → IsDurable (state S.Store conn.now) D.Disk disk.new }
    ensures aged { (olds : List Older) → AreAside D.Disk disk.old olds at (length bytes.now)
        → AreAged D.Disk disk.new olds }
    ensures usable { IsTrue (D.Disk.is_usable disk.new) }
{
    write(disk, at, bytes)
}
