//! Where the bytes of contents stand in the pack.
ghost use Rattle.std.specs.Prelude.{◌≡◌, ◌==◌, not, map, find, is_some, length, IfOk, MatchOption, None};
ghost use Rattle.std.specs.List.Sorted.{IsPermutation};
ghost use Rattle.sqlite.specs.Tree.{has_rowid};
ghost use Rattle.registry_pack.specs.Extents.{starts_at, size_of};
ghost use Rattle.store_statements.specs.Told.{IsRead};
ghost use Rattle.store_statements.specs.Clauses.{Lasts};
ghost use Rattle.store_contents.specs.Places.{content_rows, place_rows, places_of, runs_of};
ghost use Rattle.store_places.specs.Places.{has_content, runs_at};
ghost use Rattle.store_pack.specs.Reads.{ChangesNothing, Finds, Keeps, LastsUnchanged, Reads, StaysSettled, run_shown};

use oci_types::Fault;
use registry_pack::Extent;
use sqlite::{Alter, Connection, Error, ErrorCode, Row, params};
use std::alloc::Global;
use store_contents::{ContentId, fault_of, told};
use store_statements::telling::checked;

/// The extent that the row shows: its size, and its offset.
fn extent_shown(row: &Row) -> Result<Extent, Error>
    ensures { IfOk result (λ e. (starts_at e, size_of e) ≡ run_shown row.now) }
{
    let size: u64 = row.get(0)?;
    let at: u64 = row.get(1)?;
    match Extent::new(at as usize, size as usize) {
        Some(extent) => Ok(extent),
        None => Err(Error::SqliteFailure(ErrorCode::DatabaseCorrupt)),
    }
}

/// The extents that the rows show, in the order of the rows.
fn extents_shown(alloc: Global, rows: &[Row]) -> Result<Vec<Extent>, Error>
    ensures { IfOk result (λ es. runs_at es.items ≡ map run_shown rows.now) }
{
    let mut extents = Vec::new(alloc);
    for row in rows {
        let extent = extent_shown(row)?;
        extents.push(extent)?;
    }
    Ok(extents)
}

/// The same of what a query gave.
fn all_extents(alloc: Global, shown: Result<Vec<Row>, Error>) -> Result<Vec<Extent>, Fault>
    ensures { IsRead shown result (λ rows es. runs_at es.items ≡ map run_shown rows) }
{
    match shown {
        Ok(rows) => told(extents_shown(alloc, &rows)),
        Err(error) => Err(fault_of(error)),
    }
}

/// Whether a query gave a row.
fn any_row(shown: Result<Vec<Row>, Error>) -> Result<bool, Fault>
    ensures { IsRead shown result (λ rows any. any ≡ not (length rows == 0)) }
{
    match shown {
        Ok(rows) => Ok(!rows.is_empty()),
        Err(error) => Err(fault_of(error)),
    }
}

/// Whether there is a content of this id.
fn has_row<S: Alter>(conn: &mut Connection<S>, id: ContentId) -> Result<bool, Fault>
    ensures { Reads S.Store conn.old conn.new result
        (λ db any. any ≡ is_some (find (has_rowid id.id) (content_rows db))) }
{
    let shown = conn.query_all(
        "SELECT size FROM registry_contents WHERE id = ?1",
        params![id.get()],
    );
    let found = any_row(shown);
    checked(conn, found)
}

/// The extents of the content's places, in the order of its bytes.
fn extents_in_order<S: Alter>(
    alloc: Global,
    conn: &mut Connection<S>,
    id: ContentId,
) -> Result<Vec<Extent>, Fault>
    ensures { Reads S.Store conn.old conn.new result
        (λ db es. runs_at es.items ≡ runs_of (places_of (place_rows db) id.id)) }
{
    let shown = conn.query_all(
        "SELECT size, at FROM registry_places WHERE content = ?1 ORDER BY start",
        params![id.get()],
    );
    let found = all_extents(alloc, shown);
    checked(conn, found)
}

/// Where the bytes of the content stand in the pack: its extents, in the order of its bytes, or `None` where
/// there is no such content. Nothing changes.
///
/// Columns that make no extent are `Fault::Storage`. After `Fault::Memory` the connection may be used again;
/// after `Fault::Storage` it may have been shut.
pub fn extents_of<S: Alter>(
    alloc: Global,
    conn: &mut Connection<S>,
    id: ContentId,
) -> Result<Option<Vec<Extent>>, Fault>
    ensures found { Finds S.Store conn.old conn.new result
        (λ db o. MatchOption o (find (has_rowid id.id) (content_rows db) ≡ None)
        (λ es. has_content db id.id × (runs_at es.items ≡ runs_of (places_of (place_rows db) id.id)))) }
    ensures same { ChangesNothing S.Store conn.old conn.new result }
    ensures settled { StaysSettled S.Store conn.old conn.new result }
    ensures kept { Keeps S.Store conn.old conn.new }
    ensures survives { LastsUnchanged S.Store conn.old conn.new }
    ensures lasts { Lasts S.Store conn.old conn.new }
{
    if !has_row(conn, id)? {
        return Ok(None);
    }
    let extents = extents_in_order(alloc, conn, id)?;
    Ok(Some(extents))
}

/// The extents of the places of all contents, in any order: what is in use of the pack. Nothing changes.
///
/// Faults are as for [`extents_of`].
pub fn extents_in_use<S: Alter>(
    alloc: Global,
    conn: &mut Connection<S>,
) -> Result<Vec<Extent>, Fault>
    ensures found { Finds S.Store conn.old conn.new result
        (λ db es. IsPermutation (runs_of (place_rows db)) (runs_at es.items)) }
    ensures same { ChangesNothing S.Store conn.old conn.new result }
    ensures settled { StaysSettled S.Store conn.old conn.new result }
    ensures kept { Keeps S.Store conn.old conn.new }
    ensures survives { LastsUnchanged S.Store conn.old conn.new }
    ensures lasts { Lasts S.Store conn.old conn.new }
{
    let shown = conn.query_all("SELECT size, at FROM registry_places", &[]);
    let found = all_extents(alloc, shown);
    checked(conn, found)
}
