//! A new age: committed in the database, then written to the head of the pack.
ghost use Rattle.std.specs.Prelude.{◌≡◌, ◌⊎◌, ◌↔◌, ◌+◌, ◌<◌, ◌≤◌, ◌^◌, ℕ, List, Err, IfOk, IsTrue, OnErr, OnOk, ⊤};
ghost use Rattle.sqlite.specs.State.{HasCleanDisk};
ghost use Rattle.sqlite.specs.Held.{state};
ghost use Rattle.registry_pack.specs.Heads.{AreLasting};
ghost use Rattle.registry_pack.specs.Pack.{file_of, head_of, mark_of, age_of, IsWritable, IsRetired, KeepsSpace};
ghost use Rattle.registry_pack.specs.Standing.{KeepsElsewhere};
ghost use Rattle.store_pack.specs.Commits.{IsSettled, Stays, Becomes, Outcomes};
ghost use Rattle.store_statements.specs.Clauses.{Lasts};
ghost use Rattle.store_pack.specs.Pack.{MayPutPack, PackSays, PutsPack};
ghost use Rattle.store_pack.specs.Reuse.{OneStands};
ghost use Rattle.store_contents.specs.Places.{bytes_in, place_rows, runs_of};
ghost use Rattle.store_pack.specs.Joint.{IsJoint, IsSame, IsFree, IsRefused, CrashesInto, Older};

use crate::commit::commit_age;
use oci_types::Fault;
use registry_pack::{Pack, RenewError};
use sqlite::{Alter, Connection};
use sqlite_disk::Disk;
use store_statements::open_check::checked_fault;

/// The last age that a column of the database has.
const LAST: u64 = 9_223_372_036_854_775_807;

/// Sets the age of the rows in a transaction of its own. Want of memory is told only where the connection is
/// seen to be open, and its rows are as they were.
fn set_rows<S: Alter>(conn: &mut Connection<S>, age: u64) -> Result<(), Fault>
    requires fits { age < 2 ^ 63 }
    ensures set { HasCleanDisk (state S.Store conn.new) → IsSettled (state S.Store conn.old)
        → (mark : List ℕ) (was : ℕ) → PackSays (state S.Store conn.old).now mark was
        → IfOk result (λ it. Becomes (λ a b (v : ⊤). PutsPack a b mark age)
        (state S.Store conn.old) (state S.Store conn.new) it) }
    ensures memory { HasCleanDisk (state S.Store conn.new) → IsSettled (state S.Store conn.old)
        → (mark : List ℕ) (was : ℕ) → PackSays (state S.Store conn.old).now mark was
        → result ≡ Err Fault.Memory → Stays (state S.Store conn.old) (state S.Store conn.new) }
    ensures crash { HasCleanDisk (state S.Store conn.new) → IsSettled (state S.Store conn.old)
        → (mark : List ℕ) (was : ℕ) → PackSays (state S.Store conn.old).now mark was
        → Outcomes (λ a b (v : ⊤). PutsPack a b mark age)
        (state S.Store conn.old) (state S.Store conn.new) }
    ensures survives { Lasts S.Store conn.old conn.new }
{
    match commit_age(conn, age) {
        Ok(()) => Ok(()),
        Err(fault) => Err(checked_fault(conn, fault)),
    }
}

/// What an error of the pack is to a caller.
fn fault_in(error: RenewError) -> Fault
    ensures { result ≡ Fault.Memory → error ≡ RenewError.Memory }
{
    match error {
        RenewError::Memory => Fault::Memory,
        RenewError::LastAge | RenewError::Disk(_) => Fault::Storage,
    }
}

/// Begins a new age: the rows say it first, then both copies of the pack's head. From then on every database
/// of a lower age is refused beside the pack, and what was retired may be written. No content changes, also
/// in what a crash leaves at any moment.
///
/// After `Fault::Memory` the old age goes on, and the call may be made again; the rows may say the new age
/// already. After `Fault::Storage`, which is also told at the last age (9,223,372,036,854,775,806), both have
/// to be opened anew.
pub fn raise_age<S: Alter, D: Disk>(
    conn: &mut Connection<S>,
    pack: &mut Pack<D>,
) -> Result<(), Fault>
    requires usable { IsTrue (D.Disk.is_usable (file_of pack.old)) }
    ensures rows { HasCleanDisk (state S.Store conn.new) → IsSettled (state S.Store conn.old)
        → (was : ℕ) → PackSays (state S.Store conn.old).now (mark_of pack.old) was
        → OnOk result
        (PutsPack (state S.Store conn.old).now (state S.Store conn.new).now (mark_of pack.new)
        (age_of pack.new)) }
    ensures settled { HasCleanDisk (state S.Store conn.new) → IsSettled (state S.Store conn.old)
        → (was : ℕ) → PackSays (state S.Store conn.old).now (mark_of pack.old) was
        → (result ≡ Err Fault.Storage → ⊥)
        → IsSettled (state S.Store conn.new) × MayPutPack (state S.Store conn.old).now
        (state S.Store conn.new).now (mark_of pack.old) (age_of pack.old + 1) }
    ensures outcomes { HasCleanDisk (state S.Store conn.new) → IsSettled (state S.Store conn.old)
        → (was : ℕ) → PackSays (state S.Store conn.old).now (mark_of pack.old) was
        → Outcomes (λ a b (v : ⊤). PutsPack a b (mark_of pack.old) (age_of pack.old + 1))
        (state S.Store conn.old) (state S.Store conn.new) }
    ensures survives { Lasts S.Store conn.old conn.new }
    ensures mark { mark_of pack.new ≡ mark_of pack.old }
    ensures age { OnOk result (age_of pack.new ≡ age_of pack.old + 1) }
    ensures refused { OnOk result
        ((old : Older) → old.0 ≤ age_of pack.old → IsRefused D.Disk (file_of pack.new) old) }
    ensures heads { OnOk result (AreLasting D.Disk (file_of pack.new) (head_of pack.new)) }
    // The second copy stands as it was until the first one lasts.
    ensures one_stands { OneStands D.Disk (file_of pack.old) (file_of pack.new) (age_of pack.old + 1) }
    ensures memory { result ≡ Err Fault.Memory → file_of pack.new ≡ file_of pack.old }
    ensures writable { OnOk result
        ((p : ℕ) → IsWritable pack.new p ↔ (IsWritable pack.old p ⊎ IsRetired pack.old p)) }
    ensures none_retired { OnOk result ((p : ℕ) → IsRetired pack.new p → ⊥) }
    ensures err { OnErr result (KeepsSpace pack.old pack.new) }
    ensures joint { HasCleanDisk (state S.Store conn.new)
        → IsJoint (state S.Store conn.old) D.Disk (file_of pack.old)
        → PackSays (state S.Store conn.old).now (mark_of pack.old) (age_of pack.old)
        → IsFree 0 8192 (runs_of (place_rows (state S.Store conn.old).now))
        → (result ≡ Err Fault.Storage → ⊥)
        → IsJoint (state S.Store conn.new) D.Disk (file_of pack.new)
        × IsSame (bytes_in (state S.Store conn.new).now (D.Disk.seen (file_of pack.new)))
        (bytes_in (state S.Store conn.old).now (D.Disk.seen (file_of pack.old))) }
    ensures crash { HasCleanDisk (state S.Store conn.new)
        → IsJoint (state S.Store conn.old) D.Disk (file_of pack.old)
        → PackSays (state S.Store conn.old).now (mark_of pack.old) (age_of pack.old)
        → IsFree 0 8192 (runs_of (place_rows (state S.Store conn.old).now))
        → CrashesInto (state S.Store conn.old) (state S.Store conn.new) D.Disk (file_of pack.old)
        (file_of pack.new)
        (λ w. IsSame w (bytes_in (state S.Store conn.old).now (D.Disk.seen (file_of pack.old)))) }
    ensures elsewhere { KeepsElsewhere D.Disk 0 8192 (file_of pack.old) (file_of pack.new) }
    ensures usable { (result ≡ Err Fault.Storage → ⊥) → IsTrue (D.Disk.is_usable (file_of pack.new)) }
{
    if pack.age() >= LAST - 1 {
        return Err(Fault::Storage);
    }
    match set_rows(conn, pack.age() + 1) {
        Ok(()) => match pack.renew() {
            Ok(()) => Ok(()),
            Err(error) => Err(fault_in(error)),
        },
        Err(fault) => Err(fault),
    }
}
