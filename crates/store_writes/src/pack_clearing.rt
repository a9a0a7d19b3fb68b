//! What nothing names is freed beside a pack, with its places.
ghost use Rattle.std.specs.Prelude.{◌≡◌, ◌∷◌, [], ℕ, ℤ, List, None, if◌then◌else◌};
ghost use Rattle.store_contents.specs.Layouts.{InPack};
ghost use Rattle.store_statements.specs.Between.{CrashLeaves, GoesBack, MakesWorld, Relates, StaysOnMemory};
ghost use Rattle.store_statements.specs.Clauses.{KeepsInside, Lasts, LastsUncommitted, StepsInside};
ghost use Rattle.store_writes.specs.Naming.{is_named, Cleared, FreesPlaces, PlacedGone};

use crate::change::Change;
use crate::changing::make;
use crate::content_clearing::unnamed;
use oci_types::Fault;
use sqlite::{Alter, Connection, Transaction};
use std::alloc::Global;
use store_contents::ContentId;
use store_places::remove_content;

/// Takes the content out with its places, where it is there.
fn take_placed<S: Alter>(tx: &mut Transaction<'_, S>, id: ContentId) -> Result<(), Fault>
    ensures taken { (file : List ℕ)
        → StepsInside S.Store (InPack file) tx.old.conn.now tx.new.conn.now result
        (λ t u. PlacedGone t u (id ∷ [])) }
    ensures kept { (file : List ℕ) → KeepsInside S.Store (InPack file) tx.old.conn.now tx.new.conn.now }
    ensures same_reference { tx.new.conn.ghost_name ≡ tx.old.conn.ghost_name }
    ensures survives { LastsUncommitted S.Store tx.old.conn.now tx.new.conn.now }
{
    remove_content(tx, id)
}

/// Takes the contents out with their places, where they are there.
fn take_all_placed<S: Alter>(tx: &mut Transaction<'_, S>, ids: &[ContentId]) -> Result<(), Fault>
    ensures taken { (file : List ℕ)
        → StepsInside S.Store (InPack file) tx.old.conn.now tx.new.conn.now result
        (λ t u. PlacedGone t u ids.now) }
    ensures kept { (file : List ℕ) → KeepsInside S.Store (InPack file) tx.old.conn.now tx.new.conn.now }
    ensures same_reference { tx.new.conn.ghost_name ≡ tx.old.conn.ghost_name }
    ensures survives { LastsUncommitted S.Store tx.old.conn.now tx.new.conn.now }
{
    for id in ids {
        take_placed(tx, *id)?;
    }
    Ok(())
}

/// Takes out each content that nothing names, with its places.
pub(crate) fn clear_placed<S: Alter>(
    alloc: Global,
    tx: &mut Transaction<'_, S>,
) -> Result<(), Fault>
    ensures cleared { (file : List ℕ)
        → StepsInside S.Store (InPack file) tx.old.conn.now tx.new.conn.now result
        (λ t u. Cleared t u × FreesPlaces t u) }
    ensures kept { (file : List ℕ) → KeepsInside S.Store (InPack file) tx.old.conn.now tx.new.conn.now }
    ensures same_reference { tx.new.conn.ghost_name ≡ tx.old.conn.ghost_name }
    ensures survives { LastsUncommitted S.Store tx.old.conn.now tx.new.conn.now }
{
    let ids = unnamed(alloc, tx)?;
    take_all_placed(tx, &ids)
}

/// Frees each content that no blob, manifest or upload session names, of a registry whose bytes are in a
/// pack: exactly the others stay, with their places, and the world does not change. A failure frees nothing.
/// The bytes stay in the pack until its space is given back.
pub fn clear_pack<S: Alter>(alloc: Global, conn: &mut Connection<S>) -> Result<(), Fault>
    ensures made { (file : List ℕ) → MakesWorld S.Store (InPack file) conn.old conn.new result (λ w. w) }
    ensures freed { (file : List ℕ) → Relates S.Store (InPack file) conn.old conn.new result
        (λ t u. (id : ℤ) → u.contents id ≡ (if is_named t id then t.contents id else None)) }
    ensures places { (file : List ℕ)
        → Relates S.Store (InPack file) conn.old conn.new result (λ t u. FreesPlaces t u) }
    ensures beside { (file : List ℕ)
        → Relates S.Store (InPack file) conn.old conn.new result (λ t u. u.beside ≡ t.beside) }
    ensures memory { (file : List ℕ) → StaysOnMemory S.Store (InPack file) conn.old conn.new result }
    ensures back { (file : List ℕ) → GoesBack S.Store (InPack file) conn.old conn.new result }
    ensures crash { (file : List ℕ)
        → CrashLeaves S.Store (InPack file) conn.old conn.new result (λ w. w) }
    ensures survives { Lasts S.Store conn.old conn.new }
{
    make(conn, Change::ClearPack { alloc })
}
