//! The bytes that a row shows.
ghost use Rattle.std.specs.Prelude.{◌≡◌, option_map, slice_get, IfOk, IsOkAnd};
ghost use Rattle.store_schema.specs.Rows.{bytes_at};
ghost use Rattle.store_migration.specs.Shown.{shown};

use oci_types::Fault;
use sqlite::{Error, Row};
use store_contents::{fault_of, told};

/// The bytes that the first of the rows shows first, if there is one.
fn bytes_in(rows: &[Row]) -> Result<Option<Vec<u8>>, Error>
    ensures { IfOk result (λ o. shown o ≡ option_map (λ r. bytes_at r 0) (slice_get rows.now 0)) }
{
    match rows.first() {
        Some(row) => {
            let bytes: Vec<u8> = row.get(0)?;
            Ok(Some(bytes))
        }
        None => Ok(None),
    }
}

/// The same of rows that were asked for.
pub(crate) fn first_bytes(rows: Result<Vec<Row>, Error>) -> Result<Option<Vec<u8>>, Fault>
    ensures { IfOk result (λ o. IsOkAnd rows
        (λ found. shown o ≡ option_map (λ r. bytes_at r 0) (slice_get found.items 0))) }
{
    match rows {
        Ok(rows) => told(bytes_in(&rows)),
        Err(error) => Err(fault_of(error)),
    }
}
