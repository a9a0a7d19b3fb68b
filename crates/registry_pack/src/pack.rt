//! The pack: its file and its free space.
ghost use Rattle.std.specs.Prelude.{◌≡◌, ◌%◌, ◌≤◌, ◌<◌, ◌^◌};
ghost use Rattle.registry_pack.specs.Space.{holes_in};
ghost use Rattle.registry_pack.specs.Blocks.{AreBefore, AreWhole};

use crate::blocks::{LAST_END, block_ceil, blocks_of};
use crate::extent::Extent;
use crate::head::Head;
use crate::places;
use crate::space::Space;
use sqlite_disk::Disk;
use std::alloc::AllocError;
use std::io;

/// The file beside the database, and which of its space may be written. Space that no row names is *free*, so
/// that it may be written now, or *retired*: an older copy of the database may name it still, so it may be
/// written only in the next age. All other space is in use.
///
/// A database of a lower age than its pack is an older copy, and is refused when the pack is opened.
#[derive(Drop)]
pub struct Pack<D: Disk> {
    pub(crate) disk: D,
    pub(crate) head: Head,
    /// Free space below `end`.
    pub(crate) free: Space,
    pub(crate) retired: Space,
    /// The offset from which on all is free.
    pub(crate) end: usize,
    ghost behind_head: { 8192 ≤ end },
    ghost fits: { end < 2 ^ 63 },
    ghost whole: { end % 4096 ≡ 0 },
    ghost free_before: { AreBefore end (holes_in free) },
    ghost free_whole: { AreWhole (holes_in free) },
    ghost retired_before: { AreBefore end (holes_in retired) },
    ghost retired_whole: { AreWhole (holes_in retired) },
}

impl<D: Disk> Pack<D> {
    ghost use Rattle.std.specs.Prelude.{◌⊎◌, ◌↔◌, ◌+◌, ◌<◌, ℕ, length, IsTrue, IsNone, IfSome, IfNone, OnOk, OnErr};
    ghost use Rattle.registry_pack.specs.Extents.{starts_at, size_of};
    ghost use Rattle.registry_pack.specs.Blocks.{IsInBlocks, block_ceil as ceil_of};
    ghost use Rattle.registry_pack.specs.Pack.{IsWritable, IsRetired, KeepsFile, KeepsWritable, KeepsRetired};
    ghost use Rattle.registry_pack.specs.Pack.{file_of, mark_of, age_of, end_of, AreWritable};

    /// The same bytes stand in the database that the pack belongs to.
    pub fn mark(&self) -> [u8; 16]
        ensures { result ≡ mark_of self.now }
    {
        self.head.mark
    }

    /// The age that the database has committed.
    pub fn age(&self) -> u64
        ensures { result ≡ age_of self.now }
    {
        self.head.age
    }

    /// The file.
    pub fn into_disk(self) -> D
        ensures { result ≡ file_of self }
    {
        let Pack {
            disk,
            head: _,
            free: _,
            retired: _,
            end: _,
        } = self;
        disk
    }

    /// An extent of `size` bytes, which begins at a multiple of `BLOCK` and takes whole blocks: from the
    /// first free space that has room, else behind all. `None` where it would end too far, and nothing
    /// changes then.
    pub fn allocate(&mut self, size: usize) -> Option<Extent>
        requires some { 0 < size }
        ensures size { IfSome result (λ e. size_of e ≡ size) }
        ensures place { IfSome result (λ e. (8192 ≤ starts_at e) × (starts_at e % 4096 ≡ 0)) }
        ensures was_writable { IfSome result (λ e. (p : ℕ) → IsInBlocks e p → IsWritable self.old p) }
        ensures after { IfSome result
            (λ e. (p : ℕ) → IsWritable self.new p ↔ (IsWritable self.old p × ¬ IsInBlocks e p)) }
        // No free space in front of it had room.
        ensures first { IfSome result (λ e. (at : ℕ) → at + ceil_of size ≤ end_of self.old
            → AreWritable self.old at (ceil_of size) → starts_at e ≤ at) }
        ensures no_room { IfNone result (2 ^ 63 ≤ end_of self.old + ceil_of size) }
        ensures no_free_room { IfNone result ((at : ℕ) → at + ceil_of size ≤ end_of self.old
            → AreWritable self.old at (ceil_of size) → ⊥) }
        ensures none { IfNone result (KeepsWritable self.old self.new) }
        ensures retired { KeepsRetired self.old self.new }
        ensures file { KeepsFile self.old self.new }
    {
        if size > LAST_END {
            return None;
        }
        let room = block_ceil(size);
        if let Some(blocks) = self.free.take(room) {
            return Extent::new(blocks.at(), size);
        }
        if room > LAST_END - self.end {
            return None;
        }
        let at = self.end;
        self.end += room;
        Extent::new(at, size)
    }

    /// The blocks of an extent that no row has named are free from now on. After an error, which is want of
    /// memory, nothing changed.
    pub fn release(&mut self, extent: Extent) -> Result<(), AllocError>
        ensures ok { OnOk result
            ((p : ℕ) → IsWritable self.new p ↔ (IsWritable self.old p ⊎ IsInBlocks extent p)) }
        ensures err { OnErr result (KeepsWritable self.old self.new) }
        ensures retired { KeepsRetired self.old self.new }
        ensures file { KeepsFile self.old self.new }
    {
        self.free.give(blocks_of(extent, self.end))
    }

    /// The blocks of an extent that rows have named are retired from now on, but for what was never handed
    /// out. After an error, which is want of memory, nothing changed.
    pub fn retire(&mut self, extent: Extent) -> Result<(), AllocError>
        ensures ok { OnOk result ((p : ℕ) → IsRetired self.new p
            ↔ (IsRetired self.old p ⊎ (IsInBlocks extent p × (p < end_of self.old)))) }
        ensures err { OnErr result (KeepsRetired self.old self.new) }
        ensures writable { KeepsWritable self.old self.new }
        ensures file { KeepsFile self.old self.new }
    {
        self.retired.give(blocks_of(extent, self.end))
    }
}
