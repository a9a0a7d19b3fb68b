//! The pack in a new age, in which space is used again that rows once named.
ghost use Rattle.std.specs.Prelude.{◌≡◌, ◌⊎◌, ◌↔◌, ◌+◌, ◌≤◌, ◌<◌, ℕ, length, IsTrue, IfErr, OnOk, OnErr};
ghost use Rattle.registry_pack.specs.Blocks.{IsInUse};
ghost use Rattle.registry_pack.specs.declared.head.Head.{Head};
ghost use Rattle.registry_pack.specs.Standing.{KeepsElsewhere, KeepsBelow};
ghost use Rattle.registry_pack.specs.Heads.{AreLasting, OneStands};
ghost use Rattle.registry_pack.specs.Pack.{file_of, head_of, mark_of, age_of, end_of};
ghost use Rattle.registry_pack.specs.Pack.{IsWritable, IsRetired, KeepsFile, KeepsRetired};
ghost use Rattle.registry_pack.specs.Pack.{KeepsSpace, KeepsWritable};
ghost use Rattle.registry_pack.specs.Ages.{IsReason};

use crate::blocks::HEAD;
use crate::extent::Extent;
use crate::heads::write_heads;
use crate::pack::Pack;
use crate::pack_opening::blocks_in_use;
use crate::places;
use sqlite_disk::Disk;
use std::alloc::AllocError;
use std::io;

/// Why no new age began.
#[derive(Debug, Drop)]
pub enum RenewError {
    /// Memory was wanting, and nothing was written.
    Memory,
    /// There is no higher age, and nothing was written.
    LastAge,
    /// The head could not be written or synced. A copy of it may say the new age.
    Disk(io::Error),
}

impl<D: Disk> Pack<D> {
    /// What lies behind the head and before the end is retired from now on, where it is neither in a block of
    /// these extents nor free: so is space that was lost. What may be written stays so. Takes memory for the
    /// extents and for the holes between them; after an error, which is want of it, nothing changed.
    pub fn reclaim(&mut self, used: Vec<Extent>) -> Result<(), AllocError>
        ensures ok { OnOk result ((p : ℕ) → IsRetired self.new p ↔ ((8192 ≤ p) × (p < end_of self.new)
            × (IsInUse used.items p → ⊥) × (IsWritable self.old p → ⊥))) }
        ensures err { OnErr result (KeepsRetired self.old self.new) }
        ensures writable { KeepsWritable self.old self.new }
        ensures file { KeepsFile self.old self.new }
    {
        let in_use = blocks_in_use(*used.allocator(), &used, self.end)?;
        let taken = in_use.union(&self.free)?;
        self.retired = taken.gaps(HEAD, self.end)?;
        Ok(())
    }

    /// Begins the next age, which the database has committed: both copies of the head say it, each synced
    /// before the other is written, and what was retired is free. After an error the age stays, and nothing
    /// that was retired is free; a call that follows writes the same age. Takes memory for the holes of both.
    pub fn renew(&mut self) -> Result<(), RenewError>
        requires usable { IsTrue (D.Disk.is_usable (file_of self.old)) }
        ensures heads { OnOk result (AreLasting D.Disk (file_of self.new) (head_of self.new)) }
        ensures age { OnOk result (age_of self.new ≡ age_of self.old + 1) }
        ensures mark { mark_of self.new ≡ mark_of self.old }
        ensures writable { OnOk result
            ((p : ℕ) → IsWritable self.new p ↔ (IsWritable self.old p ⊎ IsRetired self.old p)) }
        ensures none_retired { OnOk result ((p : ℕ) → IsRetired self.new p → ⊥) }
        ensures err { OnErr result (KeepsSpace self.old self.new) }
        ensures reason { IfErr result (IsReason self.old self.new) }
        // The second copy stands as it was until the first one lasts.
        ensures one_stands { (head : Head) → head.age ≡ age_of self.old + 1 → head.mark ≡ mark_of self.old
            → OneStands D.Disk (file_of self.old) (file_of self.new) head }
        ensures elsewhere { KeepsElsewhere D.Disk 0 8192 (file_of self.old) (file_of self.new) }
        ensures usable { OnOk result (IsTrue (D.Disk.is_usable (file_of self.new))) }
    {
        if self.head.age == u64::MAX {
            return Err(RenewError::LastAge);
        }
        let Ok(free) = self.free.union(&self.retired) else {
            return Err(RenewError::Memory);
        };
        let head = self.head.of_next_age();
        if let Err(error) = write_heads(&mut self.disk, &head) {
            return Err(RenewError::Disk(error));
        }
        self.head = head;
        self.free = free;
        self.retired.clear();
        Ok(())
    }

    /// Cuts free space off the file's end. What may be written stays so, since all behind the end may be.
    /// What stands or lasts below stays so, also after an error; the file may then be used again.
    pub fn trim(&mut self) -> io::Result<()>
        requires usable { IsTrue (D.Disk.is_usable (file_of self.old)) }
        ensures order { end_of self.new ≤ end_of self.old }
        ensures cut { OnOk result
            (end_of self.new < end_of self.old → length (D.Disk.seen (file_of self.new)) ≡ end_of self.new) }
        ensures below { KeepsBelow D.Disk (end_of self.new) (file_of self.old) (file_of self.new) }
        ensures heads { KeepsBelow D.Disk 8192 (file_of self.old) (file_of self.new) }
        ensures writable { (p : ℕ) → IsWritable self.new p ↔ IsWritable self.old p }
        ensures retired { KeepsRetired self.old self.new }
        ensures head { head_of self.new ≡ head_of self.old }
        ensures usable { IsTrue (D.Disk.is_usable (file_of self.new)) }
    {
        let from = self.retired.end().max(HEAD);
        let end = self.free.trim_from(from, self.end);
        if end == self.end {
            return Ok(());
        }
        self.end = end;
        places::cut(&mut self.disk, end)
    }
}
