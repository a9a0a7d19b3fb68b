//! What the rows that a query showed read as.
ghost use Rattle.std.specs.Prelude.{◌≡◌, ◌==◌, map, option_map, slice_get, length, not, IfOk, Ok};
ghost use Rattle.sqlite.specs.Order.{Row};
ghost use Rattle.store_schema.specs.Rows.{bytes_at, natural_at};
ghost use Rattle.store_statements.specs.Shown.{content_named};
ghost use Rattle.store_statements.specs.Told.{IsRead};

use oci_types::{Digest, Fault, NameFault, RepoName, Tag};
use sqlite::{Error, ErrorCode, Row};
use std::alloc::Global;
use store_contents::{ContentId, fault_of, told};

/// A value that a row shows.
pub(crate) trait FromRow: Drop {
    /// What the row reads as.
    ghost shown: { Row → Self };

    /// What is none is told as a failure of the database.
    fn read(alloc: Global, row: &Row) -> Result<Self, Error>
        ensures { IfOk result (λ value. value ≡ shown row.now) };
}

impl FromRow for u64 {
    ghost shown = { λ row. natural_at row 0 };

    fn read(_alloc: Global, row: &Row) -> Result<u64, Error> {
        row.get(0)
    }
}

impl FromRow for ContentId {
    ghost shown = { content_named 0 };

    fn read(_alloc: Global, row: &Row) -> Result<ContentId, Error> {
        let id: i64 = row.get(0)?;
        Ok(ContentId::new(id))
    }
}

/// What was parsed of a text in a row.
pub(crate) fn parsed<T>(name: Result<T, NameFault>) -> Result<T, Error>
    ensures { IfOk result (λ value. name ≡ Ok value) }
{
    match name {
        Ok(value) => Ok(value),
        Err(NameFault::Memory) => Err(Error::SqliteFailure(ErrorCode::OutOfMemory)),
        Err(_) => Err(Error::SqliteFailure(ErrorCode::DatabaseCorrupt)),
    }
}

impl FromRow for Digest {
    ghost shown = { λ row. bytes_at row 0 };

    fn read(alloc: Global, row: &Row) -> Result<Digest, Error> {
        let text: String = row.get(0)?;
        parsed(Digest::parse(alloc, text.as_str()))
    }
}

impl FromRow for Tag {
    ghost shown = { λ row. bytes_at row 0 };

    fn read(alloc: Global, row: &Row) -> Result<Tag, Error> {
        let text: String = row.get(0)?;
        parsed(Tag::parse(alloc, text.as_str()))
    }
}

impl FromRow for RepoName {
    ghost shown = { λ row. bytes_at row 0 };

    fn read(alloc: Global, row: &Row) -> Result<RepoName, Error> {
        let text: String = row.get(0)?;
        parsed(RepoName::parse(alloc, text.as_str()))
    }
}

/// What each row reads as, in the order of the rows.
pub(crate) fn each<T: FromRow>(alloc: Global, rows: &[Row]) -> Result<Vec<T>, Error>
    ensures { IfOk result (λ values. values.items ≡ map T.shown rows.now) }
{
    let mut values = Vec::new(alloc);
    for row in rows {
        let value = T::read(alloc, row)?;
        values.push(value)?;
    }
    Ok(values)
}

/// What the first row reads as, if there is a row.
fn first_of<T: FromRow>(alloc: Global, rows: &[Row]) -> Result<Option<T>, Error>
    ensures { IfOk result (λ o. o ≡ option_map T.shown (slice_get rows.now 0)) }
{
    match rows.first() {
        Some(row) => match T::read(alloc, row) {
            Ok(value) => Ok(Some(value)),
            Err(error) => Err(error),
        },
        None => Ok(None),
    }
}

/// What each row that a query gave reads as.
pub(crate) fn all<T: FromRow>(
    alloc: Global,
    shown: Result<Vec<Row>, Error>,
) -> Result<Vec<T>, Fault>
    ensures { IsRead shown result (λ rows values. values.items ≡ map T.shown rows) }
{
    match shown {
        Ok(rows) => told(each(alloc, &rows)),
        Err(error) => Err(fault_of(error)),
    }
}

/// What the first row that a query gave reads as.
pub(crate) fn first_on<T: FromRow>(
    alloc: Global,
    shown: Result<Vec<Row>, Error>,
) -> Result<Option<T>, Fault>
    ensures { IsRead shown result (λ rows o. o ≡ option_map T.shown (slice_get rows 0)) }
{
    match shown {
        Ok(rows) => told(first_of(alloc, &rows)),
        Err(error) => Err(fault_of(error)),
    }
}

/// The same on the allocator of the rows.
pub(crate) fn first<T: FromRow>(shown: Result<Vec<Row>, Error>) -> Result<Option<T>, Fault>
    ensures { IsRead shown result (λ rows o. o ≡ option_map T.shown (slice_get rows 0)) }
{
    match shown {
        Ok(rows) => told(first_of(*rows.allocator(), &rows)),
        Err(error) => Err(fault_of(error)),
    }
}

/// How many rows a query gave.
pub(crate) fn count_rows(shown: Result<Vec<Row>, Error>) -> Result<usize, Fault>
    ensures { IsRead shown result (λ rows n. n ≡ length rows) }
{
    match shown {
        Ok(rows) => Ok(rows.len()),
        Err(error) => Err(fault_of(error)),
    }
}

/// Whether a query gave a row.
pub(crate) fn any_row(shown: Result<Vec<Row>, Error>) -> Result<bool, Fault>
    ensures { IsRead shown result (λ rows any. any ≡ not (length rows == 0)) }
{
    match shown {
        Ok(rows) => Ok(!rows.is_empty()),
        Err(error) => Err(fault_of(error)),
    }
}
