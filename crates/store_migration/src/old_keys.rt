//! By what the rows of the old tables are known.
ghost use Rattle.std.specs.Prelude.{◌≡◌, string_bytes, IfOk, IsOkAnd};
ghost use Rattle.sqlite.specs.Order.{Row};
ghost use Rattle.store_schema.specs.Rows.{bytes_at, natural_at};
ghost use Rattle.store_migration.specs.Shown.{AllShown};

use oci_types::Fault;
use sqlite::{Error, Row};
use std::alloc::Global;
use store_contents::{fault_of, told};

/// Of a blob or a manifest.
#[derive(Drop)]
pub struct Key {
    pub repo: String,
    pub digest: String,
}

/// Of an upload session.
#[derive(Drop)]
pub struct SessionKey {
    pub repo: String,
    pub number: u64,
}

/// A key that a row shows first.
pub(crate) trait FromRow: Drop {
    /// The row shows this key.
    ghost shows: { Row → Self → Type 0 };

    fn read(row: &Row) -> Result<Self, Error>
        ensures { IfOk result (shows row.now) };
}

impl FromRow for Key {
    ghost shows = { λ row key. (string_bytes key.repo ≡ bytes_at row 0)
        × (string_bytes key.digest ≡ bytes_at row 1) };

    fn read(row: &Row) -> Result<Key, Error> {
        let repo: String = row.get(0)?;
        let digest: String = row.get(1)?;
        Ok(Key { repo, digest })
    }
}

impl FromRow for SessionKey {
    ghost shows = { λ row key. (string_bytes key.repo ≡ bytes_at row 0)
        × (key.number ≡ natural_at row 1) };

    fn read(row: &Row) -> Result<SessionKey, Error> {
        let repo: String = row.get(0)?;
        let number: u64 = row.get(1)?;
        Ok(SessionKey { repo, number })
    }
}

/// The keys that the rows show first, in their order.
fn keys_in<K: FromRow>(alloc: Global, rows: &[Row]) -> Result<Vec<K>, Error>
    ensures { IfOk result (λ keys. AllShown K.shows rows.now keys.items) }
{
    let mut keys = Vec::new(alloc);
    for row in rows {
        let key = K::read(row)?;
        keys.push(key)?;
    }
    Ok(keys)
}

/// The same of rows that were asked for.
pub(crate) fn keys_of<K: FromRow>(
    alloc: Global,
    rows: Result<Vec<Row>, Error>,
) -> Result<Vec<K>, Fault>
    ensures { IfOk result (λ keys. IsOkAnd rows (λ found. AllShown K.shows found.items keys.items)) }
{
    match rows {
        Ok(rows) => told(keys_in(alloc, &rows)),
        Err(error) => Err(fault_of(error)),
    }
}
