//! What is done with the bytes of the pack's file.
ghost use Rattle.std.specs.Prelude.{◌≡◌, ◌+◌, ◌≤◌, ◌<◌, ℕ, List, length, is_ok, IsTrue, IfOk, OnOk};
ghost use Rattle.sqlite_disk.specs.Disk.{Holds};
ghost use Rattle.registry_pack.specs.Extents.{starts_at, size_of};
ghost use Rattle.registry_pack.specs.Standing.{Lasts, KeepsAll, KeepsElsewhere};
ghost use Rattle.registry_pack.specs.Content.{ReadsPiece, IsCompared};
ghost use Rattle.registry_pack.specs.Pack.{file_of, KeepsSpace};

use crate::content::{self, Compared};
use crate::extent::Extent;
use crate::pack::Pack;
use crate::places;
use sqlite_disk::Disk;
use std::io;

impl<D: Disk> Pack<D> {
    /// Whether the file may be used: it may not after a `sync` has failed, or a `renew` in its sync.
    pub fn may_be_used(&self) -> bool
        ensures { result ≡ D.Disk.is_usable (file_of self.now) }
    {
        self.disk.may_be_used()
    }

    /// Writes the bytes at the extent, from its `from`th byte on (the first is 0). What stands or lasts
    /// elsewhere does so still, also where the write fails; the file may then be used again, and these bytes
    /// may have changed. What was written lasts only once a `sync` succeeds.
    pub fn write(&mut self, extent: Extent, from: usize, bytes: &[u8]) -> io::Result<()>
        requires usable { IsTrue (D.Disk.is_usable (file_of self.old)) }
        requires within { from + length bytes.now ≤ size_of extent }
        ensures written { OnOk result (0 < length bytes.now
            → Holds (D.Disk.seen (file_of self.new)) (starts_at extent + from) bytes.now) }
        ensures elsewhere { KeepsElsewhere D.Disk (starts_at extent + from) (length bytes.now)
            (file_of self.old) (file_of self.new) }
        ensures usable { IsTrue (D.Disk.is_usable (file_of self.new)) }
        ensures space { KeepsSpace self.old self.new }
    {
        places::write(&mut self.disk, extent.at() + from, bytes)
    }

    /// All that stands in the file lasts from now on. After an error the file may not be used again.
    pub fn sync(&mut self) -> io::Result<()>
        requires usable { IsTrue (D.Disk.is_usable (file_of self.old)) }
        ensures lasting { OnOk result ((a : ℕ) (bytes : List ℕ)
            → Holds (D.Disk.seen (file_of self.old)) a bytes → Lasts D.Disk (file_of self.new) a bytes) }
        ensures kept { KeepsAll D.Disk (file_of self.old) (file_of self.new) }
        ensures usable { D.Disk.is_usable (file_of self.new) ≡ is_ok result }
        ensures space { KeepsSpace self.old self.new }
    {
        places::sync(&mut self.disk)
    }

    /// How many bytes the file has.
    pub fn length(&mut self) -> io::Result<usize>
        requires usable { IsTrue (D.Disk.is_usable (file_of self.old)) }
        ensures len { IfOk result (λ n. IsTrue (D.Disk.is_clean (file_of self.new))
            → n ≡ length (D.Disk.seen (file_of self.old))) }
        ensures kept { KeepsAll D.Disk (file_of self.old) (file_of self.new) }
        ensures usable { IsTrue (D.Disk.is_usable (file_of self.new)) }
        ensures space { KeepsSpace self.old self.new }
    {
        places::length(&mut self.disk)
    }

    /// Reads bytes of a content as the function `read_piece` does.
    pub fn read_piece(
        &mut self,
        extents: &[Extent],
        from: usize,
        buf: &mut [u8],
    ) -> io::Result<usize>
        requires usable { IsTrue (D.Disk.is_usable (file_of self.old)) }
        requires room { 0 < length buf.old }
        ensures read { IfOk result (λ n. ReadsPiece (IsTrue (D.Disk.is_clean (file_of self.new)))
            (D.Disk.seen (file_of self.old)) extents.now from buf.old buf.new n) }
        ensures kept { KeepsAll D.Disk (file_of self.old) (file_of self.new) }
        ensures usable { IsTrue (D.Disk.is_usable (file_of self.new)) }
        ensures space { KeepsSpace self.old self.new }
    {
        content::read_piece(&mut self.disk, extents, from, buf)
    }

    /// Compares a piece of two contents as the function `compare_piece` does.
    pub fn compare_piece(
        &mut self,
        ones: &[Extent],
        others: &[Extent],
        from: usize,
        buf: &mut [u8],
        other_buf: &mut [u8],
    ) -> io::Result<Compared>
        requires usable { IsTrue (D.Disk.is_usable (file_of self.old)) }
        requires room { 0 < length buf.old }
        requires same_room { length other_buf.old ≡ length buf.old }
        ensures compared { IfOk result (IsCompared (IsTrue (D.Disk.is_clean (file_of self.new)))
            (D.Disk.seen (file_of self.old)) ones.now others.now from) }
        ensures kept { KeepsAll D.Disk (file_of self.old) (file_of self.new) }
        ensures usable { IsTrue (D.Disk.is_usable (file_of self.new)) }
        ensures space { KeepsSpace self.old self.new }
    {
        content::compare_piece(&mut self.disk, ones, others, from, buf, other_buf)
    }
}
