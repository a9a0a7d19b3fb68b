//! The row that says which pack belongs to the database, and of which age its rows are.
ghost use Rattle.std.specs.Prelude.{◌≡◌, ◌<◌, ◌^◌, [], ℕ, List, IfOk, MatchOption, OnOk};
ghost use Rattle.sqlite.specs.State.{HasCleanDisk, KeepsCommit};
ghost use Rattle.sqlite.specs.Held.{state};
ghost use Rattle.store_statements.specs.Told.{IsRead};
ghost use Rattle.store_statements.specs.Clauses.{Lasts, LastsUncommitted};
ghost use Rattle.store_contents.specs.Places.{pack_rows};
ghost use Rattle.store_places.specs.Places.{IsInside};
ghost use Rattle.store_pack.specs.Pack.{PackSays, PutsPack, Shows, ShowsOnly};
ghost use Rattle.store_pack.specs.Reads.{ChangesNothing, Finds, Keeps, LastsUnchanged, StaysSettled};

use oci_types::Fault;
use sqlite::types::ValueRef;
use sqlite::{Alter, Connection, Error, ErrorCode, Row, Transaction, params};
use store_contents::{done, fault_of, told};
use store_statements::telling::checked;

/// What the row of `registry_pack` says.
#[derive(Clone, Copy, Debug, PartialEq, Eq)]
pub struct PackRow {
    /// The same bytes stand in the head of the pack.
    pub mark: [u8; 16],
    /// Rises each time before space of the pack is used again.
    pub age: u64,
}

/// What the row shows. Columns that are no mark of 16 bytes and no age are told as a failure of the database.
fn row_shown(row: &Row) -> Result<PackRow, Error>
    ensures { IfOk result (Shows row.now) }
{
    let age = row.get(1)?;
    if let ValueRef::Blob(bytes) = row.get_ref(0)?
        && let Ok(mark) = <[u8; 16]>::try_from(bytes)
    {
        return Ok(PackRow { mark, age });
    }
    Err(Error::SqliteFailure(ErrorCode::DatabaseCorrupt))
}

/// What the one row shows, if there is a row. Several are told as a failure of the database.
fn only_row_shown(rows: &[Row]) -> Result<Option<PackRow>, Error>
    ensures { IfOk result (ShowsOnly rows.now) }
{
    match rows {
        [] => Ok(None),
        [row] => match row_shown(row) {
            Ok(said) => Ok(Some(said)),
            Err(error) => Err(error),
        },
        _ => Err(Error::SqliteFailure(ErrorCode::DatabaseCorrupt)),
    }
}

/// The same of what a query gave.
fn only_row(shown: Result<Vec<Row>, Error>) -> Result<Option<PackRow>, Fault>
    ensures { IsRead shown result ShowsOnly }
{
    match shown {
        Ok(rows) => told(only_row_shown(&rows)),
        Err(error) => Err(fault_of(error)),
    }
}

/// What the row says, or `None` where there is none. Nothing changes.
///
/// Several rows are `Fault::Storage`, as is a row whose columns are no mark of 16 bytes and no age. After
/// `Fault::Memory` the connection may be used again; after `Fault::Storage` it may have been shut.
pub fn read_pack_row<S: Alter>(conn: &mut Connection<S>) -> Result<Option<PackRow>, Fault>
    ensures found { Finds S.Store conn.old conn.new result
        (λ db o. MatchOption o (pack_rows db ≡ []) (λ said. PackSays db said.mark said.age)) }
    ensures same { ChangesNothing S.Store conn.old conn.new result }
    ensures settled { StaysSettled S.Store conn.old conn.new result }
    ensures kept { Keeps S.Store conn.old conn.new }
    ensures survives { LastsUnchanged S.Store conn.old conn.new }
    ensures lasts { Lasts S.Store conn.old conn.new }
{
    let shown = conn.query_all("SELECT mark, age FROM registry_pack", &[]);
    let found = only_row(shown);
    checked(conn, found)
}

/// Sets the age where there is one row. Its mark stays, and all other tables are as they were.
///
/// After a fault the caller gives the transaction up, and the tables are those from before it.
pub fn set_age<S: Alter>(tx: &mut Transaction<'_, S>, age: u64) -> Result<(), Fault>
    requires fits { age < 2 ^ 63 }
    ensures set { HasCleanDisk (state S.Store tx.new.conn.now) → IsInside (state S.Store tx.old.conn.now)
        → (mark : List ℕ) → (was : ℕ) → PackSays (state S.Store tx.old.conn.now).now mark was
        → OnOk result
        (PutsPack (state S.Store tx.old.conn.now).now (state S.Store tx.new.conn.now).now mark age
        × IsInside (state S.Store tx.new.conn.now)) }
    ensures kept { HasCleanDisk (state S.Store tx.new.conn.now) → IsInside (state S.Store tx.old.conn.now)
        → KeepsCommit (state S.Store tx.old.conn.now) (state S.Store tx.new.conn.now) }
    ensures same_reference { tx.new.conn.ghost_name ≡ tx.old.conn.ghost_name }
    ensures survives { LastsUncommitted S.Store tx.old.conn.now tx.new.conn.now }
{
    done(tx.execute("UPDATE registry_pack SET age = ?1", params![age as i64]))
}

/// Puts the row in where there is none. All other tables are as they were.
///
/// After a fault the caller gives the transaction up, and the tables are those from before it.
pub fn put_pack_row<S: Alter>(
    tx: &mut Transaction<'_, S>,
    mark: &[u8; 16],
    age: u64,
) -> Result<(), Fault>
    requires fits { age < 2 ^ 63 }
    ensures put { HasCleanDisk (state S.Store tx.new.conn.now) → IsInside (state S.Store tx.old.conn.now)
        → pack_rows (state S.Store tx.old.conn.now).now ≡ []
        → OnOk result
        (PutsPack (state S.Store tx.old.conn.now).now (state S.Store tx.new.conn.now).now mark.now age
        × IsInside (state S.Store tx.new.conn.now)) }
    ensures kept { HasCleanDisk (state S.Store tx.new.conn.now) → IsInside (state S.Store tx.old.conn.now)
        → KeepsCommit (state S.Store tx.old.conn.now) (state S.Store tx.new.conn.now) }
    ensures same_reference { tx.new.conn.ghost_name ≡ tx.old.conn.ghost_name }
    ensures survives { LastsUncommitted S.Store tx.old.conn.now tx.new.conn.now }
{
    done(tx.execute(
        "INSERT INTO registry_pack (mark, age) VALUES (?1, ?2)",
        params![&mark[..], age as i64],
    ))
}
