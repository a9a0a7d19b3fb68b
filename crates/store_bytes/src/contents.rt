//! Where the bytes of contents are.
ghost use Rattle.std.specs.Prelude.{◌≡◌, ◌<◌, ◌^◌, ℕ, List, Bool, length, option_map, OnOk, IfOk, IfSome, IsTrue};
ghost use Rattle.std.specs.List.{AllByRecursion};
ghost use Rattle.sha2.specs.Sha256.{sha256};
ghost use Rattle.sqlite.specs.Effect.{Database};
ghost use Rattle.sqlite.specs.Order.{Row};
ghost use Rattle.sqlite.specs.Held.{state};
ghost use Rattle.store_contents.specs.Layouts.{Layout, InTables};
ghost use Rattle.store_statements.specs.Between.{Finds, Keeps, Stays};
ghost use Rattle.store_statements.specs.Clauses.{Lasts};
ghost use Rattle.store_statements.specs.ContentShown.{has_sha256_digest};
ghost use Rattle.store_bytes.specs.declared.staged.Staged.{Staged};
ghost use Rattle.store_bytes.specs.Keeping.{AreOfKind, KeepsBytes, AllPlaces};
ghost use Rattle.store_bytes.specs.Staging.{HasSize, IsClear, IsStaged, runs_staged};

use crate::staged::Staged;
use oci_types::Fault;
use sqlite::{Alter, Connection};
use std::alloc::Global;
use store_contents::ContentId;

/// Where the bytes of contents are: cells of the tables, or runs of bytes of a pack beside the database,
/// whose rows say which (`Layout`). A call that failed with `Fault::Storage` may be followed by none that
/// succeeds.
pub trait Contents: Drop {
    /// The layout, with the bytes that the pack has now.
    ghost layout: { Self → Layout };

    /// The layouts that a crash at this moment may leave.
    ghost may_leave: { Self → Layout → Type 0 };

    /// No wrong answer of a disk has been taken as true.
    ghost is_clean: { Self → Bool };

    /// These bytes of the pack, by their offset and their number, stand whatever a crash leaves, and are not
    /// written over in this age.
    ghost remembers: { Self → ℕ × ℕ → Type 0 };

    /// Nor are they in the next age: what rows name is so.
    ghost spares: { Self → ℕ × ℕ → Type 0 };

    /// Rows never named what was staged so, so it may be given up.
    ghost owns: { Self → Staged → Type 0 };

    /// The rows of `registry_pack` say which pack it is, and of which age.
    ghost names: { Self → List Row → Type 0 };

    /// A database of this age is an older copy, which is never opened with the pack.
    ghost refuses: { Self → ℕ → Type 0 };

    ghost remembers_spared: { (c : Self) (run : ℕ × ℕ) → spares c run → remembers c run };

    // A crash leaves all contents of a database whose places are remembered.
    ghost lasts: { (c : Self) (l : Layout) → may_leave c l → (db : Database)
        → AllPlaces (remembers c) (layout c) db → KeepsBytes (layout c) l db };

    /// Whether bytes are cells of the tables.
    fn are_in_tables(&self) -> bool
        ensures { IsTrue result → layout self.now ≡ InTables };

    /// Whether the content's bytes have the digest, of one of sha256; of any other `false`, as where there is
    /// no such content. No bytes are read, so it is known of each layout of this kind.
    fn has_digest<S: Alter>(
        &self,
        conn: &mut Connection<S>,
        id: ContentId,
        digest: &str,
    ) -> Result<bool, Fault>
        ensures found { (l : Layout) → AreOfKind (layout self.now) l
            → Finds S.Store l conn.old conn.new result
            (λ t has. has ≡ has_sha256_digest (t.contents id.id) digest.now) }
        ensures settled { (l : Layout) → AreOfKind (layout self.now) l
            → Stays S.Store l conn.old conn.new result }
        ensures kept { (l : Layout) → AreOfKind (layout self.now) l → Keeps S.Store l conn.old conn.new }
        ensures survives { Lasts S.Store conn.old conn.new };

    /// The bytes of the content, or `None` where there is no such content. Nothing changes.
    fn read<S: Alter>(
        &mut self,
        alloc: Global,
        conn: &mut Connection<S>,
        id: ContentId,
    ) -> Result<Option<Vec<u8>>, Fault>
        ensures found { IsTrue (is_clean self.new)
            → AllPlaces (remembers self.old) (layout self.old) (state S.Store conn.old).now
            → Finds S.Store (layout self.old) conn.old conn.new result
            (λ t found. option_map (λ bytes. bytes.items) found ≡ t.contents id.id) }
        ensures settled { Stays S.Store (layout self.old) conn.old conn.new result }
        ensures survives { Lasts S.Store conn.old conn.new }
        ensures layout { layout self.new ≡ layout self.old }
        ensures crash { (l : Layout) → may_leave self.new l → may_leave self.old l }
        ensures clean { IsTrue (is_clean self.new) → IsTrue (is_clean self.old) }
        ensures spares { (run : ℕ × ℕ) → spares self.old run → spares self.new run }
        ensures remembers { (run : ℕ × ℕ) → remembers self.old run → remembers self.new run }
        ensures names { (rows : List Row) → names self.old rows → names self.new rows }
        ensures refuses { (age : ℕ) → refuses self.old age → refuses self.new age };

    /// Brings bytes where they last, if the layout keeps bytes elsewhere than in rows, for a write of rows
    /// that follows; `hash` is their SHA-256 (FIPS 180-4) where it is known. No content changes, whatever the
    /// answer.
    ///
    /// `Fault::Memory` where memory or room for them is wanting.
    fn stage(
        &mut self,
        alloc: Global,
        bytes: &[u8],
        hash: Option<[u8; 32]>,
    ) -> Result<Staged, Fault>
        requires hashed { IfSome hash (λ h. h ≡ sha256 bytes.now) }
        ensures staged { IfOk result (IsStaged (layout self.new) bytes.now) }
        ensures lasting { IfOk result
            (λ it. (l : Layout) → may_leave self.new l → IsStaged l bytes.now it) }
        ensures size { IfOk result (HasSize (length bytes.now)) }
        ensures spared { IfOk result (λ it. AllByRecursion (spares self.new) (runs_staged it)) }
        ensures clear { IfOk result (λ it. (run : ℕ × ℕ) → remembers self.old run → IsClear it run) }
        ensures owned { IfOk result (owns self.new) }
        ensures bytes { (db : Database) → AllPlaces (remembers self.old) (layout self.old) db
            → KeepsBytes (layout self.old) (layout self.new) db }
        ensures clean { IsTrue (is_clean self.new) → IsTrue (is_clean self.old) }
        ensures spares { (run : ℕ × ℕ) → spares self.old run → spares self.new run }
        ensures remembers { (run : ℕ × ℕ) → remembers self.old run → remembers self.new run }
        ensures names { (rows : List Row) → names self.old rows → names self.new rows }
        ensures refuses { (age : ℕ) → refuses self.old age → refuses self.new age };

    /// What was staged is given up: no committed row names it, and none has. Its place may be written again.
    fn give_up(&mut self, staged: Staged)
        requires owned { owns self.old staged }
        ensures layout { layout self.new ≡ layout self.old }
        ensures crash { (l : Layout) → may_leave self.new l → may_leave self.old l }
        ensures clean { IsTrue (is_clean self.new) → IsTrue (is_clean self.old) }
        ensures spares { (run : ℕ × ℕ) → spares self.old run → IsClear staged run → spares self.new run }
        ensures remembers { (run : ℕ × ℕ) → remembers self.old run → IsClear staged run
            → remembers self.new run }
        ensures names { (rows : List Row) → names self.old rows → names self.new rows }
        ensures refuses { (age : ℕ) → refuses self.old age → refuses self.new age };
}
