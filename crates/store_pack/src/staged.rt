//! The end of a stage: its bytes stand in the pack, and rows that name them are committed behind a sync.
ghost use Rattle.std.specs.Prelude.{◌≡◌, ◌<◌, ◌^◌, ℤ, List, Err, IfOk, IsTrue};
ghost use Rattle.std.specs.List.{AllByRecursion};
ghost use Rattle.sqlite.specs.State.{HasCleanDisk, Survives};
ghost use Rattle.sqlite.specs.Held.{state};
ghost use Rattle.registry_pack.specs.Extents.{AreWithin, bytes_at, size_of, total_of};
ghost use Rattle.registry_pack.specs.Standing.{KeepsAll};
ghost use Rattle.store_contents.specs.declared.content_id.ContentId.{ContentId};
ghost use Rattle.store_pack.specs.Commits.{IsSettled, Stays, Becomes, Outcomes};
ghost use Rattle.store_contents.specs.Places.{bytes_in};
ghost use Rattle.store_places.specs.Places.{Adds};
ghost use Rattle.store_pack.specs.Joint.{IsJoint, HasMore, CrashesInto, Older, AreAged};

use crate::commit::commit_content;
use oci_types::Fault;
use registry_pack::{Extent, sync};
use sqlite::{Alter, Connection};
use sqlite_disk::Disk;
use store_contents::ContentId;
use store_statements::open_check::checked_fault;

/// Adds a content in a transaction of its own. Want of memory is told only where the connection is seen to be
/// open, and its rows are as they were.
fn put_rows<S: Alter>(
    conn: &mut Connection<S>,
    sha256: &str,
    extents: &[Extent],
) -> Result<ContentId, Fault>
    requires fits { total_of extents.now < 2 ^ 63 }
    requires some { AllByRecursion (λ e. 0 < size_of e) extents.now }
    ensures put { HasCleanDisk (state S.Store conn.new) → IsSettled (state S.Store conn.old)
        → IfOk result (λ it. Becomes (λ a b (v : ContentId). Adds a b v.id sha256.now extents.now)
        (state S.Store conn.old) (state S.Store conn.new) it) }
    ensures memory { HasCleanDisk (state S.Store conn.new) → IsSettled (state S.Store conn.old)
        → result ≡ Err Fault.Memory → Stays (state S.Store conn.old) (state S.Store conn.new) }
    ensures crash { HasCleanDisk (state S.Store conn.new) → IsSettled (state S.Store conn.old)
        → Outcomes (λ a b (v : ContentId). Adds a b v.id sha256.now extents.now)
        (state S.Store conn.old) (state S.Store conn.new) }
{
    match commit_content(conn, sha256, extents) {
        Ok(id) => Ok(id),
        Err(fault) => Err(checked_fault(conn, fault)),
    }
}

/// The end of a stage whose bytes stand at these extents of the pack: they last from now on, and a content of
/// them is committed, whose id is the answer. Its SHA-256 is given as 64 digits. The pack is synced before
/// the rows are written, so that no row names bytes that a crash may take.
///
/// After `Fault::Memory` nothing has changed. After `Fault::Storage` neither the connection nor the pack may
/// be used again before both are opened anew; what is found then is the contents as they were, or with this
/// one.
pub fn put_staged<S: Alter, D: Disk>(
    conn: &mut Connection<S>,
    disk: &mut D,
    sha256: &str,
    extents: &[Extent],
) -> Result<ContentId, Fault>
    requires usable { IsTrue (D.Disk.is_usable disk.old) }
    requires fits { total_of extents.now < 2 ^ 63 }
    requires some { AllByRecursion (λ e. 0 < size_of e) extents.now }
    requires stands { AreWithin (D.Disk.seen disk.old) extents.now }
    ensures put { HasCleanDisk (state S.Store conn.new) → IsJoint (state S.Store conn.old) D.Disk disk.old
        → IfOk result
        (λ it. HasMore (bytes_in (state S.Store conn.new).now (D.Disk.seen disk.new))
        (bytes_in (state S.Store conn.old).now (D.Disk.seen disk.old)) it.id
        (bytes_at (D.Disk.seen disk.old) extents.now)) }
    ensures rows { HasCleanDisk (state S.Store conn.new) → IsSettled (state S.Store conn.old)
        → IfOk result
        (λ it. Adds (state S.Store conn.old).now (state S.Store conn.new).now it.id sha256.now extents.now) }
    ensures memory { HasCleanDisk (state S.Store conn.new) → IsSettled (state S.Store conn.old)
        → result ≡ Err Fault.Memory → Stays (state S.Store conn.old) (state S.Store conn.new) }
    ensures joint { HasCleanDisk (state S.Store conn.new) → IsJoint (state S.Store conn.old) D.Disk disk.old
        → (result ≡ Err Fault.Storage → ⊥) → IsJoint (state S.Store conn.new) D.Disk disk.new }
    ensures crash { HasCleanDisk (state S.Store conn.new) → IsJoint (state S.Store conn.old) D.Disk disk.old
        → CrashesInto (state S.Store conn.old) (state S.Store conn.new) D.Disk disk.old disk.new
        (λ w. (id : ℤ) × HasMore w (bytes_in (state S.Store conn.old).now (D.Disk.seen disk.old)) id
        (bytes_at (D.Disk.seen disk.old) extents.now)) }
    ensures kept { KeepsAll D.Disk disk.old disk.new }
    ensures usable { (result ≡ Err Fault.Storage → ⊥) → IsTrue (D.Disk.is_usable disk.new) }
    ensures aged { (olds : List Older) → AreAged D.Disk disk.old olds → AreAged D.Disk disk.new olds }
{
    let Ok(()) = sync(disk) else {
        return Err(Fault::Storage);
    };
    put_rows(conn, sha256, extents)
}
