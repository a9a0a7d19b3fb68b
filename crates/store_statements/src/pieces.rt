//! The rows of the pieces of upload sessions.
ghost use Rattle.std.specs.Prelude.{◌≡◌, ◌<◌, ◌^◌, map, find, None};
ghost use Rattle.std.specs.List.Sorted.{IsPermutation};
ghost use Rattle.store_contents.specs.Layouts.{Layout};
ghost use Rattle.store_statements.specs.Keys.{of_first, of_session, has_start};
ghost use Rattle.store_statements.specs.Changes.{piece_columns};
ghost use Rattle.store_statements.specs.World.{pieces_of};
ghost use Rattle.store_statements.specs.Between.{Finds, Keeps, Stays};
ghost use Rattle.store_statements.specs.Clauses.{Adds, Changes, ChangesNothingInside, FindsInside, KeepsInside, Lasts, LastsUncommitted};
ghost use Rattle.store_statements.specs.Shown.{content_named};
ghost use Rattle.store_statements.specs.Steps.{pieces_without, PieceComes};

use crate::reading::all;
use crate::telling::checked;
use oci_types::Fault;
use sqlite::{Alter, Connection, Transaction, params};
use std::alloc::Global;
use store_contents::{ContentId, done};

/// Takes all pieces of the session out.
pub fn take_pieces_of<S: Alter>(
    tx: &mut Transaction<'_, S>,
    repo: &str,
    number: u64,
) -> Result<(), Fault>
    requires fits { number < 2 ^ 63 }
    ensures taken { (l : Layout) → Changes S.Store l tx.old.conn.now tx.new.conn.now result
        (pieces_without (of_session repo.now number)) }
    ensures kept { (l : Layout) → KeepsInside S.Store l tx.old.conn.now tx.new.conn.now }
    ensures same_reference { tx.new.conn.ghost_name ≡ tx.old.conn.ghost_name }
    ensures survives { LastsUncommitted S.Store tx.old.conn.now tx.new.conn.now }
{
    done(tx.execute(
        "DELETE FROM registry_pieces WHERE repo = ?1 AND number = ?2",
        params![repo, number as i64],
    ))
}

/// Takes the pieces of all sessions of the repository out.
pub fn take_pieces<S: Alter>(tx: &mut Transaction<'_, S>, repo: &str) -> Result<(), Fault>
    ensures taken { (l : Layout) → Changes S.Store l tx.old.conn.now tx.new.conn.now result
        (pieces_without (of_first repo.now)) }
    ensures kept { (l : Layout) → KeepsInside S.Store l tx.old.conn.now tx.new.conn.now }
    ensures same_reference { tx.new.conn.ghost_name ≡ tx.old.conn.ghost_name }
    ensures survives { LastsUncommitted S.Store tx.old.conn.now tx.new.conn.now }
{
    done(tx.execute("DELETE FROM registry_pieces WHERE repo = ?1", params![repo]))
}

/// Puts a piece in where none of the session begins. `start` and `size` are in bytes.
pub fn add_piece<S: Alter>(
    tx: &mut Transaction<'_, S>,
    repo: &str,
    number: u64,
    start: u64,
    size: u64,
    content: ContentId,
) -> Result<(), Fault>
    requires number_fits { number < 2 ^ 63 }
    requires start_fits { start < 2 ^ 63 }
    requires size_fits { size < 2 ^ 63 }
    ensures added { (l : Layout) → Adds S.Store l tx.old.conn.now tx.new.conn.now result
        (λ t. find (has_start repo.now number start) t.pieces ≡ None) PieceComes
        (piece_columns repo.now number start size content.id) }
    ensures kept { (l : Layout) → KeepsInside S.Store l tx.old.conn.now tx.new.conn.now }
    ensures same_reference { tx.new.conn.ghost_name ≡ tx.old.conn.ghost_name }
    ensures survives { LastsUncommitted S.Store tx.old.conn.now tx.new.conn.now }
{
    done(tx.execute(
        "INSERT INTO registry_pieces (repo, number, start, size, content) VALUES (?1, ?2, ?3, ?4, ?5)",
        params![
            repo,
            number as i64,
            start as i64,
            size as i64,
            content.get()
        ],
    ))
}

/// The contents of the session's pieces, in the order in which they were appended.
pub fn pieces_in_order<S: Alter>(
    alloc: Global,
    conn: &mut Connection<S>,
    repo: &str,
    number: u64,
) -> Result<Vec<ContentId>, Fault>
    requires fits { number < 2 ^ 63 }
    ensures found { (l : Layout) → Finds S.Store l conn.old conn.new result
        (λ t ids. ids.items ≡ map (content_named 5) (pieces_of t.pieces repo.now number)) }
    ensures settled { (l : Layout) → Stays S.Store l conn.old conn.new result }
    ensures kept { (l : Layout) → Keeps S.Store l conn.old conn.new }
    ensures survives { Lasts S.Store conn.old conn.new }
{
    let shown = conn.query_all(
        "SELECT content FROM registry_pieces WHERE repo = ?1 AND number = ?2 ORDER BY start",
        params![repo, number as i64],
    );
    let found = all(alloc, shown);
    checked(conn, found)
}

/// The content that each piece names, of all sessions, in any order. Nothing changes.
pub fn piece_contents<S: Alter>(
    alloc: Global,
    tx: &mut Transaction<'_, S>,
) -> Result<Vec<ContentId>, Fault>
    ensures found { (l : Layout) → FindsInside S.Store l tx.old.conn.now tx.new.conn.now result
        (λ t ids. IsPermutation (map (content_named 5) t.pieces) ids.items) }
    ensures same { (l : Layout) → ChangesNothingInside S.Store l tx.old.conn.now tx.new.conn.now result }
    ensures kept { (l : Layout) → KeepsInside S.Store l tx.old.conn.now tx.new.conn.now }
    ensures same_reference { tx.new.conn.ghost_name ≡ tx.old.conn.ghost_name }
    ensures survives { LastsUncommitted S.Store tx.old.conn.now tx.new.conn.now }
{
    all(
        alloc,
        tx.query_all("SELECT content FROM registry_pieces", &[]),
    )
}
