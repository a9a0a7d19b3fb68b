//! Bytes of the file that are written, made to last and cut off.
ghost use Rattle.std.specs.Prelude.{◌≡◌, ◌<◌, ℕ, List, length, is_ok, IsTrue, IfOk, OnOk};
ghost use Rattle.sqlite_disk.specs.Disk.{Holds};
ghost use Rattle.registry_pack.specs.Standing.{Lasts, KeepsAll, KeepsElsewhere, KeepsBelow};

use sqlite_disk::Disk;
use std::io;

/// Writes the bytes at this offset; the file grows to hold them. What stands or lasts elsewhere does so
/// still, also where the write fails; the disk may then be used again, and these bytes may have changed. What
/// was written lasts only once a `sync` succeeds.
pub fn write<D: Disk>(disk: &mut D, at: usize, bytes: &[u8]) -> io::Result<()>
    requires usable { IsTrue (D.Disk.is_usable disk.old) }
    ensures written { OnOk result (0 < length bytes.now → Holds (D.Disk.seen disk.new) at bytes.now) }
    ensures elsewhere { KeepsElsewhere D.Disk at (length bytes.now) disk.old disk.new }
    ensures usable { IsTrue (D.Disk.is_usable disk.new) }
{
    disk.write_at(at, bytes)
}

/// All that stands in the file lasts from now on. After an error the disk may not be used again.
pub fn sync<D: Disk>(disk: &mut D) -> io::Result<()>
    requires usable { IsTrue (D.Disk.is_usable disk.old) }
    ensures lasting { OnOk result
        ((a : ℕ) (bytes : List ℕ) → Holds (D.Disk.seen disk.old) a bytes → Lasts D.Disk disk.new a bytes) }
    ensures kept { KeepsAll D.Disk disk.old disk.new }
    ensures usable { D.Disk.is_usable disk.new ≡ is_ok result }
{
    disk.sync()
}

/// Makes the file `len` bytes long: what lies behind goes, and a shorter file grows. What stands or lasts
/// below does so still, also where the call fails.
pub fn cut<D: Disk>(disk: &mut D, len: usize) -> io::Result<()>
    requires usable { IsTrue (D.Disk.is_usable disk.old) }
    ensures len { OnOk result (length (D.Disk.seen disk.new) ≡ len) }
    ensures below { KeepsBelow D.Disk len disk.old disk.new }
    ensures usable { IsTrue (D.Disk.is_usable disk.new) }
{
    disk.set_len(len)
}

/// How many bytes the file has.
pub fn length<D: Disk>(disk: &mut D) -> io::Result<usize>
    requires usable { IsTrue (D.Disk.is_usable disk.old) }
    ensures len { IfOk result (λ n. IsTrue (D.Disk.is_clean disk.new) → n ≡ length (D.Disk.seen disk.old)) }
    ensures kept { KeepsAll D.Disk disk.old disk.new }
    ensures usable { IsTrue (D.Disk.is_usable disk.new) }
{
    disk.len()
}
