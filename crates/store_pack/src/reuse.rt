//! Space of the pack that no row names is used again.
ghost use Rattle.std.specs.Prelude.{◌≡◌, ◌+◌, ◌≤◌, ℕ, List, Err, IsTrue, OnOk};
ghost use Rattle.std.specs.List.{AllByRecursion};
ghost use Rattle.sqlite.specs.Effect.{Database};
ghost use Rattle.sqlite.specs.State.{HasCleanDisk};
ghost use Rattle.sqlite.specs.Held.{state};
ghost use Rattle.registry_pack.specs.declared.head.HeadCopy.TheVariants.{Second};
ghost use Rattle.registry_pack.specs.Heads.{AreLasting};
ghost use Rattle.registry_pack.specs.Pack.{IsWritable, age_of, file_of, head_of, mark_of};
ghost use Rattle.registry_pack.specs.Standing.{KeepsElsewhere};
ghost use Rattle.store_contents.specs.Layouts.{InPack};
ghost use Rattle.store_contents.specs.Places.{HoldsPlaces, place_rows, runs_of};
ghost use Rattle.store_statements.specs.Between.{CrashLeaves};
ghost use Rattle.store_statements.specs.Clauses.{Lasts};
ghost use Rattle.store_statements.specs.Held as held;
ghost use Rattle.store_bytes.specs.Keeping.{AllPlaces, KeepsBytes};
ghost use Rattle.store_pack.specs.Commits.{IsSettled};
ghost use Rattle.store_pack.specs.Contents.{AreApart, IsRemembered, IsSpared, Refuses};
ghost use Rattle.store_pack.specs.Pack.{PackSays, SaysAge};
ghost use Rattle.store_pack.specs.Reuse.{IsOutside, KeepsTables};

use crate::age::raise_age;
use crate::reading::extents_in_use;
use oci_types::Fault;
use registry_pack::Pack;
use sqlite::{Alter, Connection};
use sqlite_disk::Disk;
use std::alloc::Global;

/// A new age in which all space is free that no row names, also what was lost. What rows name is neither free
/// nor retired. No content, no place and no byte of them changes, also in what a crash leaves at any moment.
///
/// After `Fault::Memory` the old age goes on, and the call may be made again; the rows may say the new age
/// already. After `Fault::Storage` both have to be opened anew.
pub(crate) fn reuse<S: Alter, D: Disk>(
    alloc: Global,
    conn: &mut Connection<S>,
    pack: &mut Pack<D>,
) -> Result<(), Fault>
    requires usable { IsTrue (D.Disk.is_usable (file_of pack.old)) }
    ensures says { HasCleanDisk (state S.Store conn.new) → IsSettled (state S.Store conn.old)
        → SaysAge (state S.Store conn.old).now pack.old
        → OnOk result (PackSays (state S.Store conn.new).now (mark_of pack.new) (age_of pack.new)) }
    ensures named { HasCleanDisk (state S.Store conn.new) → IsSettled (state S.Store conn.old)
        → SaysAge (state S.Store conn.old).now pack.old → (result ≡ Err Fault.Storage → ⊥)
        → SaysAge (state S.Store conn.new).now pack.new }
    ensures tables { (file : List ℕ) → HasCleanDisk (state S.Store conn.new)
        → held.IsSettled (InPack file) (state S.Store conn.old)
        → SaysAge (state S.Store conn.old).now pack.old → (result ≡ Err Fault.Storage → ⊥)
        → KeepsTables file (state S.Store conn.old) (state S.Store conn.new) }
    ensures crash { (file : List ℕ) → SaysAge (state S.Store conn.old).now pack.old
        → CrashLeaves S.Store (InPack file) conn.old conn.new result (λ w. w) }
    ensures survives { Lasts S.Store conn.old conn.new }
    ensures spared { HasCleanDisk (state S.Store conn.new) → HoldsPlaces (state S.Store conn.old).now
        → AllByRecursion (IsSpared pack.old) (runs_of (place_rows (state S.Store conn.old).now))
        → AllByRecursion (IsSpared pack.new) (runs_of (place_rows (state S.Store conn.old).now)) }
    ensures remembered { HasCleanDisk (state S.Store conn.new) → HoldsPlaces (state S.Store conn.old).now
        → AllByRecursion (IsRemembered pack.old) (runs_of (place_rows (state S.Store conn.old).now))
        → AllByRecursion (IsRemembered pack.new) (runs_of (place_rows (state S.Store conn.old).now)) }
    // All that no row names may be written.
    ensures given { HasCleanDisk (state S.Store conn.new) → HoldsPlaces (state S.Store conn.old).now
        → OnOk result ((p : ℕ) → 8192 ≤ p
        → IsOutside (runs_of (place_rows (state S.Store conn.old).now)) p → IsWritable pack.new p) }
    ensures apart { AreApart pack.old → AreApart pack.new }
    ensures age { OnOk result (age_of pack.new ≡ age_of pack.old + 1) }
    ensures mark { mark_of pack.new ≡ mark_of pack.old }
    ensures heads { OnOk result (AreLasting D.Disk (file_of pack.new) (head_of pack.new)) }
    ensures refused { OnOk result ((age : ℕ) → age ≤ age_of pack.old → Refuses pack.new age) }
    // Unless the storage failed, a database that was refused is so still; else where the second copy of the
    // head says so, which stands until the first one lasts.
    ensures refuses { (age : ℕ) → age ≤ age_of pack.old → (it : Refuses pack.old age)
        → (result ≡ Err Fault.Storage → it.copy ≡ Second) → Refuses pack.new age }
    ensures bytes { (db : Database)
        → AllPlaces (IsRemembered pack.old) (InPack (D.Disk.seen (file_of pack.old))) db
        → KeepsBytes (InPack (D.Disk.seen (file_of pack.old))) (InPack (D.Disk.seen (file_of pack.new))) db }
    ensures elsewhere { KeepsElsewhere D.Disk 0 8192 (file_of pack.old) (file_of pack.new) }
    ensures usable { (result ≡ Err Fault.Storage → ⊥) → IsTrue (D.Disk.is_usable (file_of pack.new)) }
{
    match extents_in_use(alloc, conn) {
        Ok(used) => match pack.reclaim(used) {
            Ok(()) => raise_age(conn, pack),
            Err(_) => Err(Fault::Memory),
        },
        Err(fault) => Err(fault),
    }
}
