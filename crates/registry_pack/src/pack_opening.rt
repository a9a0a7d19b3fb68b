//! A pack that is made in a new file, or opened beside the database that it belongs to.
ghost use Rattle.std.specs.Prelude.{◌≡◌, ◌↔◌, ◌+◌, ◌%◌, ◌^◌, ◌≤◌, ◌<◌, ℕ, List, length, max};
ghost use Rattle.std.specs.Prelude.{IsTrue, IfOk, IfErr, OnOk};
ghost use Rattle.registry_pack.specs.declared.extent.Extent.{Extent};
ghost use Rattle.registry_pack.specs.declared.head.Head.{Head};
ghost use Rattle.registry_pack.specs.declared.head.HeadCopy.{HeadCopy};
ghost use Rattle.registry_pack.specs.declared.pack_opening.OpenError.TheVariants.{Memory, Disk as DiskFailed};
ghost use Rattle.registry_pack.specs.Extents.{AreWithin};
ghost use Rattle.registry_pack.specs.Blocks.{IsInUse, block_ceil as ceil_of};
ghost use Rattle.registry_pack.specs.Heads.{Says, AreLasting};
ghost use Rattle.registry_pack.specs.Space.{IsFreeIn};
ghost use Rattle.registry_pack.specs.Standing.{KeepsAll};
ghost use Rattle.registry_pack.specs.Opening.{Belongs, IsChecked, IsReason};
ghost use Rattle.registry_pack.specs.Pack.{file_of, head_of, mark_of, age_of, end_of as pack_end};
ghost use Rattle.registry_pack.specs.Pack.{IsWritable, IsRetired};

use crate::blocks::{HEAD, LAST_END, block_ceil, blocks_of};
use crate::extent::Extent;
use crate::head::{Head, HeadCopy};
use crate::heads::{read_head, write_heads};
use crate::holes::end_of;
use crate::pack::Pack;
use crate::places;
use crate::space::Space;
use sqlite_disk::Disk;
use std::alloc::{AllocError, Global};
use std::io;

/// Why a file was not opened as a pack.
#[derive(Debug, Drop)]
pub enum OpenError {
    /// Memory was wanting.
    Memory,
    /// The file could not be read, or is longer than a pack may be.
    Disk(io::Error),
    /// Neither copy of the head is one.
    Missing,
    /// A copy of the head has another mark: the file belongs to another database.
    Foreign,
    /// A copy of the head has a higher age: the database is an older copy.
    Newer,
    /// The file ends before a used extent does.
    Short,
}

impl From<io::Error> for OpenError {
    ghost from_gives = { λ error e. e ≡ DiskFailed error };

    fn from(error: io::Error) -> OpenError {
        OpenError::Disk(error)
    }
}

impl From<AllocError> for OpenError {
    ghost from_gives = { λ _ e. e ≡ Memory };

    fn from(_error: AllocError) -> OpenError {
        OpenError::Memory
    }
}

/// Whether this copy is a head's. An error if it is one of another mark, or of a higher age.
fn check_copy<D: Disk>(
    disk: &mut D,
    copy: HeadCopy,
    mark: &[u8; 16],
    age: u64,
) -> Result<bool, OpenError>
    requires usable { IsTrue (D.Disk.is_usable disk.old) }
    ensures ok { IfOk result (λ is_one. IsTrue (D.Disk.is_clean disk.new)
        → IsChecked (D.Disk.seen disk.old) mark.now age copy is_one) }
    ensures err { IfErr result (λ e. (used : List Extent)
        → IsReason (IsTrue (D.Disk.is_clean disk.new)) (D.Disk.seen disk.old) mark.now age used e) }
    ensures kept { KeepsAll D.Disk disk.old disk.new }
    ensures usable { IsTrue (D.Disk.is_usable disk.new) }
{
    let Some(head) = read_head(disk, copy)? else {
        return Ok(false);
    };
    if head.mark != *mark {
        return Err(OpenError::Foreign);
    }
    if age < head.age {
        return Err(OpenError::Newer);
    }
    Ok(true)
}

/// An error if the file is not the pack of the database that has this mark and age.
fn check_heads<D: Disk>(disk: &mut D, mark: &[u8; 16], age: u64) -> Result<(), OpenError>
    requires usable { IsTrue (D.Disk.is_usable disk.old) }
    ensures ok { OnOk result
        (IsTrue (D.Disk.is_clean disk.new) → Belongs (D.Disk.seen disk.old) mark.now age) }
    ensures err { IfErr result (λ e. (used : List Extent)
        → IsReason (IsTrue (D.Disk.is_clean disk.new)) (D.Disk.seen disk.old) mark.now age used e) }
    ensures kept { KeepsAll D.Disk disk.old disk.new }
    ensures usable { IsTrue (D.Disk.is_usable disk.new) }
{
    let first = check_copy(disk, HeadCopy::First, mark, age)?;
    let second = check_copy(disk, HeadCopy::Second, mark, age)?;
    if first || second {
        Ok(())
    } else {
        Err(OpenError::Missing)
    }
}

/// The offset of the first block behind the file. An error if an extent ends behind the file.
fn find_end<D: Disk>(disk: &mut D, used: &[Extent]) -> Result<usize, OpenError>
    requires usable { IsTrue (D.Disk.is_usable disk.old) }
    ensures bounds { IfOk result (λ end. (8192 ≤ end) × (end < 2 ^ 63) × (end % 4096 ≡ 0)) }
    ensures end { IfOk result (λ end. IsTrue (D.Disk.is_clean disk.new)
        → end ≡ ceil_of (max (length (D.Disk.seen disk.old)) 8192)) }
    ensures within { IfOk result
        (λ _. IsTrue (D.Disk.is_clean disk.new) → AreWithin (D.Disk.seen disk.old) used.now) }
    ensures err { IfErr result (λ e. (mark : List ℕ) (age : ℕ)
        → IsReason (IsTrue (D.Disk.is_clean disk.new)) (D.Disk.seen disk.old) mark age used.now e) }
    ensures kept { KeepsAll D.Disk disk.old disk.new }
    ensures usable { IsTrue (D.Disk.is_usable disk.new) }
{
    let len = places::length(disk)?;
    if len > LAST_END {
        let error = io::Error::new(io::ErrorKind::FileTooLarge, "the pack is too long");
        return Err(OpenError::Disk(error));
    }
    for extent in used {
        if len < end_of(*extent) {
            return Err(OpenError::Short);
        }
    }
    Ok(block_ceil(len.max(HEAD)))
}

/// The blocks that the extents have bytes in, but for the head and for what lies from `end` on.
pub(crate) fn blocks_in_use(alloc: Global, used: &[Extent], end: usize) -> Result<Space, AllocError>
    requires { end < 2 ^ 63 }
    ensures { IfOk result
        (λ space. (p : ℕ) → IsFreeIn space p ↔ (IsInUse used.now p × (p < end))) }
{
    let mut blocks = Vec::new(alloc);
    for extent in used {
        blocks.push(blocks_of(*extent, end))?;
    }
    Space::of(blocks)
}

impl<D: Disk + Drop> Pack<D> {
    /// Makes a pack in a file that is new and empty: both copies of the head, of age 0, last.
    pub fn create(alloc: Global, mut disk: D, mark: [u8; 16]) -> io::Result<Pack<D>>
        requires usable { IsTrue (D.Disk.is_usable disk) }
        ensures heads { IfOk result (λ pack. AreLasting D.Disk (file_of pack) (head_of pack)) }
        ensures mark { IfOk result (λ pack. mark_of pack ≡ mark) }
        ensures age { IfOk result (λ pack. age_of pack ≡ 0) }
        ensures writable { IfOk result (λ pack. (p : ℕ) → IsWritable pack p ↔ (8192 ≤ p)) }
        ensures none_retired { IfOk result (λ pack. (p : ℕ) → IsRetired pack p → ⊥) }
        ensures usable { IfOk result (λ pack. IsTrue (D.Disk.is_usable (file_of pack))) }
    {
        let head = Head { mark, age: 0 };
        write_heads(&mut disk, &head)?;
        Ok(Pack {
            disk,
            head,
            free: Space::none(alloc),
            retired: Space::none(alloc),
            end: HEAD,
        })
    }

    /// Opens the pack of a database: `mark` and `age` are what it says, and `used` are the extents that its
    /// rows name. What they leave before the end of the file is retired, and all behind it may be written.
    /// The file is not changed. Takes memory for the extents and the holes between them.
    pub fn open(
        alloc: Global,
        mut disk: D,
        mark: [u8; 16],
        age: u64,
        used: Vec<Extent>,
    ) -> Result<Pack<D>, OpenError>
        requires usable { IsTrue (D.Disk.is_usable disk) }
        ensures belongs { IfOk result (λ pack. IsTrue (D.Disk.is_clean (file_of pack))
            → Belongs (D.Disk.seen disk) mark age) }
        // A database of a lower age is never opened with the pack.
        ensures older { IfOk result (λ pack. IsTrue (D.Disk.is_clean (file_of pack))
            → (copy : HeadCopy) (said : Head) → Says (D.Disk.seen disk) copy said → age < said.age → ⊥) }
        ensures within { IfOk result (λ pack. IsTrue (D.Disk.is_clean (file_of pack))
            → AreWithin (D.Disk.seen disk) used.items) }
        ensures end { IfOk result (λ pack. IsTrue (D.Disk.is_clean (file_of pack))
            → pack_end pack ≡ ceil_of (max (length (D.Disk.seen disk)) 8192)) }
        ensures writable { IfOk result (λ pack. (p : ℕ) → IsWritable pack p ↔ (pack_end pack ≤ p)) }
        ensures retired { IfOk result (λ pack. (p : ℕ)
            → IsRetired pack p ↔ ((8192 ≤ p) × (p < pack_end pack) × ¬ IsInUse used.items p)) }
        ensures mark { IfOk result (λ pack. mark_of pack ≡ mark) }
        ensures age { IfOk result (λ pack. age_of pack ≡ age) }
        ensures kept { IfOk result (λ pack. KeepsAll D.Disk disk (file_of pack)) }
        ensures usable { IfOk result (λ pack. IsTrue (D.Disk.is_usable (file_of pack))) }
        // Of the file as the calls left it, which were reads.
        ensures err { IfErr result (λ e. (file : D) × (KeepsAll D.Disk disk file
            × IsReason (IsTrue (D.Disk.is_clean file)) (D.Disk.seen disk) mark age used.items e)) }
    {
        check_heads(&mut disk, &mark, age)?;
        let end = find_end(&mut disk, &used)?;
        let free = Space::none(alloc);
        let blocks = blocks_in_use(alloc, &used, end)?;
        let retired = blocks.gaps(HEAD, end)?;
        Ok(Pack {
            disk,
            head: Head { mark, age },
            free,
            retired,
            end,
        })
    }
}
