//! The copies of the head in the file, read and written.
ghost use Rattle.std.specs.Prelude.{◌≡◌, IsTrue, IfOk, OnOk, MatchOption};
ghost use Rattle.registry_pack.specs.declared.head.Head.{Head};
ghost use Rattle.registry_pack.specs.Heads.{offset_of, head_bytes, Says, AreLasting, OneStands};
ghost use Rattle.registry_pack.specs.Standing.{Lasts, KeepsAll, KeepsElsewhere};

use crate::head::{Head, HeadCopy, SIZE};
use crate::places;
use sqlite_disk::Disk;
use std::io;

/// The head that this copy says; `None` if the file is too short, or if its bytes there are no head's.
pub fn read_head<D: Disk>(disk: &mut D, copy: HeadCopy) -> io::Result<Option<Head>>
    requires usable { IsTrue (D.Disk.is_usable disk.old) }
    ensures found { IfOk result (λ found. IsTrue (D.Disk.is_clean disk.new) → MatchOption found
        ((head : Head) → Says (D.Disk.seen disk.old) copy head → ⊥) (Says (D.Disk.seen disk.old) copy)) }
    ensures kept { KeepsAll D.Disk disk.old disk.new }
    ensures usable { IsTrue (D.Disk.is_usable disk.new) }
{
    let at = copy.offset();
    if places::length(disk)? < at + SIZE {
        return Ok(None);
    }
    let mut bytes = [0; SIZE];
    disk.read_at(at, &mut bytes)?;
    let head = Head::from_bytes(&bytes);
    if head.to_bytes() != bytes {
        return Ok(None);
    }
    Ok(Some(head))
}

/// Writes this copy of the head. The other copy stays as it is, and what was written lasts only once a `sync`
/// succeeds.
pub fn write_head<D: Disk>(disk: &mut D, copy: HeadCopy, head: &Head) -> io::Result<()>
    requires usable { IsTrue (D.Disk.is_usable disk.old) }
    ensures written { OnOk result (Says (D.Disk.seen disk.new) copy head.now) }
    ensures elsewhere { KeepsElsewhere D.Disk (offset_of copy) 75 disk.old disk.new }
    ensures usable { IsTrue (D.Disk.is_usable disk.new) }
{
    places::write(disk, copy.offset(), &head.to_bytes())
}

/// Writes this copy of the head and syncs, so that it lasts. After an error it may have changed, and the disk
/// may not be used again if the sync failed.
fn replace_head<D: Disk>(disk: &mut D, copy: HeadCopy, head: &Head) -> io::Result<()>
    requires usable { IsTrue (D.Disk.is_usable disk.old) }
    ensures lasting { OnOk result (Lasts D.Disk disk.new (offset_of copy) (head_bytes head.now)) }
    ensures elsewhere { KeepsElsewhere D.Disk (offset_of copy) 75 disk.old disk.new }
    ensures usable { OnOk result (IsTrue (D.Disk.is_usable disk.new)) }
{
    write_head(disk, copy, head)?;
    places::sync(disk)
}

/// Writes both copies of the head, each synced before the other is written. After an error one of them says
/// what it said, or this head, and the disk may not be used again if a sync failed.
pub(crate) fn write_heads<D: Disk>(disk: &mut D, head: &Head) -> io::Result<()>
    requires usable { IsTrue (D.Disk.is_usable disk.old) }
    ensures lasting { OnOk result (AreLasting D.Disk disk.new head.now) }
    ensures one_stands { OneStands D.Disk disk.old disk.new head.now }
    ensures elsewhere { KeepsElsewhere D.Disk 0 8192 disk.old disk.new }
    ensures usable { OnOk result (IsTrue (D.Disk.is_usable disk.new)) }
{
    replace_head(disk, HeadCopy::First, head)?;
    replace_head(disk, HeadCopy::Second, head)
}
