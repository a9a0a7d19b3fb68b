//! A pack as the place where the bytes of contents are.
ghost use Rattle.std.specs.Prelude.{◌≡◌, IfSome};
ghost use Rattle.sha2.specs.Sha256.{sha256};
ghost use Rattle.registry_pack.specs.Pack.{file_of};
ghost use Rattle.store_contents.specs.Layouts.{InPack};
ghost use Rattle.store_bytes.specs.Staging.{extents_staged};
ghost use Rattle.store_pack.specs.Contents.{AreApart, IsRemembered, IsSpared, Names, Owns, Refuses};

use crate::content::read_content;
use crate::opening::{PackFault, open_pack};
use crate::placing::{place, release_all};
use crate::reuse::reuse;
use oci_types::Fault;
use registry_pack::{OpenError, Pack};
use sha2::{Digest, Sha256};
use sqlite::{Alter, Connection};
use sqlite_disk::Disk;
use std::alloc::Global;
use std::io;
use store_bytes::{Contents, Staged};
use store_contents::ContentId;
use store_statements::contents::has_digest_in_pack;

/// The pack of a registry. What rows name is neither free nor retired, so that it is not written over.
#[derive(Drop)]
pub struct PackContents<D: Disk + Drop> {
    pub(crate) pack: Pack<D>,
    ghost apart: { AreApart pack },
}

/// The SHA-256 of the bytes, taken where it is not known.
fn sha256_of(bytes: &[u8], known: Option<[u8; 32]>) -> [u8; 32]
    requires { IfSome known (λ h. h ≡ sha256 bytes.now) }
    ensures { result ≡ sha256 bytes.now }
{
    match known {
        Some(hash) => hash,
        None => Sha256::digest(bytes),
    }
}

impl<D: Disk + Drop> PackContents<D> {
    ghost use Rattle.std.specs.Prelude.{◌+◌, ◌≤◌, ◌<◌, IsTrue, IfOk, OnOk};
    ghost use Rattle.std.specs.List.{AllByRecursion};
    ghost use Rattle.sqlite.specs.State.{HasCleanDisk, IsUnchanged};
    ghost use Rattle.sqlite.specs.Held.{state};
    ghost use Rattle.registry_pack.specs.declared.head.Head.{Head};
    ghost use Rattle.registry_pack.specs.declared.head.HeadCopy.{HeadCopy};
    ghost use Rattle.registry_pack.specs.Heads.{AreLasting, Says};
    ghost use Rattle.registry_pack.specs.Pack.{age_of, head_of, mark_of};
    ghost use Rattle.store_contents.specs.Places.{HoldsPlaces, place_rows, runs_of};
    ghost use Rattle.store_statements.specs.Clauses.{Lasts};
    ghost use Rattle.store_pack.specs.Pack.{PackSays};

    /// A new pack in a file that is new and empty, of age 0.
    pub fn create(alloc: Global, disk: D, mark: [u8; 16]) -> io::Result<PackContents<D>>
        requires usable { IsTrue (D.Disk.is_usable disk) }
        ensures heads { IfOk result
            (λ it. AreLasting D.Disk (file_of it.pack) (head_of it.pack)) }
        ensures mark { IfOk result (λ it. mark_of it.pack ≡ mark) }
        ensures age { IfOk result (λ it. age_of it.pack ≡ 0) }
        ensures usable { IfOk result (λ it. IsTrue (D.Disk.is_usable (file_of it.pack))) }
    {
        let pack = Pack::create(alloc, disk, mark)?;
        Ok(PackContents { pack })
    }

    /// The pack of a registry, as `open_pack` opens it. What stands in it lasts from then on, and all that
    /// the rows name is spared.
    pub fn open<S: Alter>(
        alloc: Global,
        conn: &mut Connection<S>,
        disk: D,
    ) -> Result<PackContents<D>, PackFault>
        requires usable { IsTrue (D.Disk.is_usable disk) }
        ensures says { HasCleanDisk (state S.Store conn.new) → HoldsPlaces (state S.Store conn.old).now
            → IfOk result
            (λ it. PackSays (state S.Store conn.old).now (mark_of it.pack) (age_of it.pack)) }
        ensures same { HasCleanDisk (state S.Store conn.new) → HoldsPlaces (state S.Store conn.old).now
            → OnOk result (IsUnchanged (state S.Store conn.old) (state S.Store conn.new)) }
        ensures older { HasCleanDisk (state S.Store conn.new) → HoldsPlaces (state S.Store conn.old).now
            → IfOk result (λ it. IsTrue (D.Disk.is_clean (file_of it.pack))
            → (copy : HeadCopy) (said : Head) → Says (D.Disk.seen disk) copy said
            → (said.mark ≡ mark_of it.pack) × (said.age ≤ age_of it.pack)) }
        ensures spared { HasCleanDisk (state S.Store conn.new) → HoldsPlaces (state S.Store conn.old).now
            → IfOk result (λ it. IsTrue (D.Disk.is_clean (file_of it.pack))
            → AllByRecursion (IsSpared it.pack) (runs_of (place_rows (state S.Store conn.old).now))) }
        ensures file { IfOk result (λ it. D.Disk.seen (file_of it.pack) ≡ D.Disk.seen disk) }
        ensures usable { IfOk result (λ it. IsTrue (D.Disk.is_usable (file_of it.pack))) }
        ensures survives { Lasts S.Store conn.old conn.new }
    {
        let mut pack = open_pack(alloc, conn, disk)?;
        match pack.sync() {
            Ok(()) => Ok(PackContents { pack }),
            Err(error) => Err(PackFault::Pack(OpenError::Disk(error))),
        }
    }
}

impl<D: Disk + Drop> PackContents<D> {
    ghost use Rattle.std.specs.Prelude.{◌+◌, ◌≤◌, ℕ, List, Err, IsTrue, OnOk};
    ghost use Rattle.std.specs.List.{AllByRecursion};
    ghost use Rattle.sqlite.specs.Effect.{Database};
    ghost use Rattle.sqlite.specs.State.{HasCleanDisk};
    ghost use Rattle.sqlite.specs.Held.{state};
    ghost use Rattle.registry_pack.specs.declared.head.HeadCopy.TheVariants.{Second};
    ghost use Rattle.registry_pack.specs.Heads.{AreLasting};
    ghost use Rattle.registry_pack.specs.Pack.{IsWritable, age_of, head_of, mark_of};
    ghost use Rattle.registry_pack.specs.Standing.{KeepsElsewhere};
    ghost use Rattle.store_contents.specs.Places.{HoldsPlaces, place_rows, runs_of};
    ghost use Rattle.store_statements.specs.Between.{CrashLeaves};
    ghost use Rattle.store_statements.specs.Clauses.{Lasts};
    ghost use Rattle.store_statements.specs.Held as held;
    ghost use Rattle.store_bytes.specs.Keeping.{AllPlaces, KeepsBytes};
    ghost use Rattle.store_pack.specs.Commits.{IsSettled};
    ghost use Rattle.store_pack.specs.Pack.{PackSays, SaysAge};
    ghost use Rattle.store_pack.specs.Reuse.{IsOutside, KeepsTables};

    /// Gives the space back that no row names, also what was lost: a new age begins, in which it may be
    /// written. So it is called behind a removal. What rows name is spared, and no content, no place and no
    /// byte of them changes, also in what a crash leaves at any moment. Each database of the age before, or
    /// of a lower one, is refused beside the pack from then on.
    ///
    /// After `Fault::Memory` the old age goes on, and the call may be made again; the rows may say the new
    /// age already. After `Fault::Storage` connection and pack have to be opened anew.
    pub fn give_back<S: Alter>(
        &mut self,
        alloc: Global,
        conn: &mut Connection<S>,
    ) -> Result<(), Fault>
        ensures says { HasCleanDisk (state S.Store conn.new) → IsSettled (state S.Store conn.old)
            → SaysAge (state S.Store conn.old).now self.old.pack → OnOk result
            (PackSays (state S.Store conn.new).now (mark_of self.new.pack) (age_of self.new.pack)) }
        ensures named { HasCleanDisk (state S.Store conn.new) → IsSettled (state S.Store conn.old)
            → SaysAge (state S.Store conn.old).now self.old.pack → (result ≡ Err Fault.Storage → ⊥)
            → SaysAge (state S.Store conn.new).now self.new.pack }
        ensures tables { (file : List ℕ) → HasCleanDisk (state S.Store conn.new)
            → held.IsSettled (InPack file) (state S.Store conn.old)
            → SaysAge (state S.Store conn.old).now self.old.pack → (result ≡ Err Fault.Storage → ⊥)
            → KeepsTables file (state S.Store conn.old) (state S.Store conn.new) }
        ensures crash { (file : List ℕ) → SaysAge (state S.Store conn.old).now self.old.pack
            → CrashLeaves S.Store (InPack file) conn.old conn.new result (λ w. w) }
        ensures survives { Lasts S.Store conn.old conn.new }
        ensures spared { HasCleanDisk (state S.Store conn.new)
            → HoldsPlaces (state S.Store conn.old).now
            → AllByRecursion (IsSpared self.old.pack) (runs_of (place_rows (state S.Store conn.old).now))
            → AllByRecursion (IsSpared self.new.pack)
            (runs_of (place_rows (state S.Store conn.old).now)) }
        ensures remembered { HasCleanDisk (state S.Store conn.new)
            → HoldsPlaces (state S.Store conn.old).now
            → AllByRecursion (IsRemembered self.old.pack)
            (runs_of (place_rows (state S.Store conn.old).now))
            → AllByRecursion (IsRemembered self.new.pack)
            (runs_of (place_rows (state S.Store conn.old).now)) }
        // All that no row names may be written.
        ensures given { HasCleanDisk (state S.Store conn.new) → HoldsPlaces (state S.Store conn.old).now
            → OnOk result ((p : ℕ) → 8192 ≤ p
            → IsOutside (runs_of (place_rows (state S.Store conn.old).now)) p
            → IsWritable self.new.pack p) }
        ensures age { OnOk result (age_of self.new.pack ≡ age_of self.old.pack + 1) }
        ensures mark { mark_of self.new.pack ≡ mark_of self.old.pack }
        ensures heads { OnOk result
            (AreLasting D.Disk (file_of self.new.pack) (head_of self.new.pack)) }
        ensures refused { OnOk result
            ((age : ℕ) → age ≤ age_of self.old.pack → Refuses self.new.pack age) }
        // Unless the storage failed, a database that was refused is so still; else where the second copy of
        // the head says so, which stands until the first one lasts.
        ensures refuses { (age : ℕ) → age ≤ age_of self.old.pack → (it : Refuses self.old.pack age)
            → (result ≡ Err Fault.Storage → it.copy ≡ Second) → Refuses self.new.pack age }
        ensures bytes { (db : Database)
            → AllPlaces (IsRemembered self.old.pack) (InPack (D.Disk.seen (file_of self.old.pack))) db
            → KeepsBytes (InPack (D.Disk.seen (file_of self.old.pack)))
            (InPack (D.Disk.seen (file_of self.new.pack))) db }
        ensures elsewhere { KeepsElsewhere D.Disk 0 8192 (file_of self.old.pack) (file_of self.new.pack) }
    {
        if !self.pack.may_be_used() {
            return Err(Fault::Storage);
        }
        reuse(alloc, conn, &mut self.pack)
    }
}

impl<D: Disk + Drop> PackContents<D> {
    ghost use Rattle.std.specs.Prelude.{◌≤◌, ◌<◌, ◌↔◌, ℕ, List, length, IsTrue, OnOk};
    ghost use Rattle.sqlite.specs.Effect.{Database};
    ghost use Rattle.sqlite.specs.Order.{Row};
    ghost use Rattle.registry_pack.specs.Pack.{IsWritable, end_of, head_of};
    ghost use Rattle.store_bytes.specs.Keeping.{AllPlaces, KeepsBytes};

    /// Cuts space off the end of the file that may be written: it may be so still, and the file grows when it
    /// is. No byte changes that rows name, or have named in this age, also in what a crash leaves. After an
    /// error the file may be used again; it is as long as it was, or shorter. A pack whose storage has failed
    /// is not touched.
    pub fn trim(&mut self) -> io::Result<()>
        ensures end { end_of self.new.pack ≤ end_of self.old.pack }
        ensures cut { OnOk result (end_of self.new.pack < end_of self.old.pack
            → length (D.Disk.seen (file_of self.new.pack)) ≡ end_of self.new.pack) }
        ensures writable { (p : ℕ) → IsWritable self.new.pack p ↔ IsWritable self.old.pack p }
        ensures head { head_of self.new.pack ≡ head_of self.old.pack }
        ensures names { (rows : List Row) → Names self.old.pack rows → Names self.new.pack rows }
        ensures spared { (run : ℕ × ℕ) → IsSpared self.old.pack run → IsSpared self.new.pack run }
        ensures remembered { (run : ℕ × ℕ) → IsRemembered self.old.pack run
            → IsRemembered self.new.pack run }
        ensures bytes { (db : Database)
            → AllPlaces (IsRemembered self.old.pack) (InPack (D.Disk.seen (file_of self.old.pack))) db
            → KeepsBytes (InPack (D.Disk.seen (file_of self.old.pack)))
            (InPack (D.Disk.seen (file_of self.new.pack))) db }
        ensures refuses { (age : ℕ) → Refuses self.old.pack age → Refuses self.new.pack age }
        ensures clean { IsTrue (D.Disk.is_clean (file_of self.new.pack))
            → IsTrue (D.Disk.is_clean (file_of self.old.pack)) }
    {
        if !self.pack.may_be_used() {
            return Ok(());
        }
        self.pack.trim()
    }
}

impl<D: Disk + Drop> Contents for PackContents<D> {
    ghost use Rattle.store_pack.specs.Lasting.{Leaves, pack_lasts};

    ghost layout = { λ c. InPack (D.Disk.seen (file_of c.pack)) };

    ghost may_leave = { λ c l. Leaves c.pack l };

    ghost is_clean = { λ c. D.Disk.is_clean (file_of c.pack) };

    ghost remembers = { λ c run. IsRemembered c.pack run };

    ghost spares = { λ c run. IsSpared c.pack run };

    ghost owns = { λ c staged. Owns c.pack (extents_staged staged) };

    ghost names = { λ c rows. Names c.pack rows };

    ghost refuses = { λ c age. Refuses c.pack age };

    ghost remembers_spared = { λ c run spared. spared.remembered };

    ghost lasts = { λ c l may db spared. pack_lasts c.pack l may db spared };

    fn are_in_tables(&self) -> bool {
        false
    }

    fn has_digest<S: Alter>(
        &self,
        conn: &mut Connection<S>,
        id: ContentId,
        digest: &str,
    ) -> Result<bool, Fault> {
        has_digest_in_pack(conn, id, digest)
    }

    fn read<S: Alter>(
        &mut self,
        alloc: Global,
        conn: &mut Connection<S>,
        id: ContentId,
    ) -> Result<Option<Vec<u8>>, Fault> {
        if !self.pack.may_be_used() {
            return Err(Fault::Storage);
        }
        read_content(alloc, conn, &mut self.pack, id)
    }

    fn stage(
        &mut self,
        alloc: Global,
        bytes: &[u8],
        hash: Option<[u8; 32]>,
    ) -> Result<Staged, Fault> {
        let hash = sha256_of(bytes, hash);
        let Ok(mut extents) = Vec::with_capacity(alloc, 1) else {
            return Err(Fault::Memory);
        };
        if bytes.is_empty() {
            return Ok(Staged::AtExtents(extents, hash));
        }
        if !self.pack.may_be_used() {
            return Err(Fault::Storage);
        }
        let extent = place(&mut self.pack, bytes)?;
        match extents.push(extent) {
            Ok(()) => Ok(Staged::AtExtents(extents, hash)),
            Err(_) => Err(Fault::Memory),
        }
    }

    fn give_up(&mut self, staged: Staged) {
        if let Staged::AtExtents(extents, _) = staged {
            release_all(&mut self.pack, &extents);
        }
    }
}
