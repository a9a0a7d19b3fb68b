//! Which schema the tables of a database are.
ghost use Rattle.std.specs.Prelude.{ℤ, ◌∷◌, [], OnOk, IfOk, IfErr, map};
ghost use Rattle.std.specs.List.Sorted.{IsPermutation};
ghost use Rattle.sqlite.specs.State.{HasCleanDisk, IsUnchanged};
ghost use Rattle.sqlite.specs.Held.{state};
ghost use Rattle.sqlite.specs.Order.{column};
ghost use Rattle.store_contents.specs.Layouts.{InTables};
ghost use Rattle.store_statements.specs.Clauses.{LastsUncommitted};
ghost use Rattle.store_statements.specs.Held.{LeavesAsWas, held};
ghost use Rattle.store_opening.specs.Opening.{KnowsVersion, versions_in};
ghost use Rattle.store_opening.specs.Asking.{IsWanting, IsWantingOr, IsFailing, IsUnnumbered, ShowsAlone, AnswersVersion, IsOfSchema};

use crate::opening::OpenFault;
use sqlite::{Alter, Connection, Error, ErrorCode, Row};

/// Why the version is not read: a text that the tables do not answer is told apart.
fn fault_in_reading(error: Error) -> OpenFault
    ensures wanting { IsFailing error → IsWanting result }
    ensures unnumbered { IsUnnumbered result }
{
    match error {
        Error::SqliteFailure(ErrorCode::OutOfMemory) => OpenFault::Memory,
        Error::SqlInputError(_) => OpenFault::NotARegistry,
        _ => OpenFault::Storage,
    }
}

/// The versions that the tables say they are. Whatever they are, nothing is written.
fn version_rows<S: Alter>(conn: &mut Connection<S>) -> Result<Vec<Row>, Error>
    ensures shown { HasCleanDisk (state S.Store conn.new) → KnowsVersion (state S.Store conn.old).now.schema
        → IfOk result
        (λ rows. IsPermutation (map (λ r. column r 1 ∷ []) (held InTables (state S.Store conn.old)).version)
        rows.items) }
    ensures same { HasCleanDisk (state S.Store conn.new)
        → OnOk result (IsUnchanged (state S.Store conn.old) (state S.Store conn.new)) }
    ensures failing { HasCleanDisk (state S.Store conn.new) → KnowsVersion (state S.Store conn.old).now.schema
        → IfErr result IsFailing }
    ensures left { HasCleanDisk (state S.Store conn.new)
        → LeavesAsWas (state S.Store conn.old) (state S.Store conn.new) }
    ensures answered { HasCleanDisk (state S.Store conn.new)
        → IfOk result (λ rows. AnswersVersion (state S.Store conn.old) rows.items) }
    ensures survives { LastsUncommitted S.Store conn.old conn.new }
{
    conn.query_all("SELECT version FROM registry_schema", &[])
}

/// The one version that the rows say, a whole number.
fn version_in(rows: &[Row]) -> Result<i64, OpenFault>
    ensures alone { IfOk result (ShowsAlone rows.now) }
    ensures whole { (n : ℤ) → ShowsAlone rows.now n → IfErr result IsWanting }
    ensures none { IfErr result (IsWantingOr OpenFault.NotARegistry) }
    ensures unnumbered { IfErr result IsUnnumbered }
{
    let [row] = rows else {
        return Err(OpenFault::NotARegistry);
    };
    match row.get(0) {
        Ok(version) => Ok(version),
        Err(Error::SqliteFailure(ErrorCode::OutOfMemory)) => Err(OpenFault::Memory),
        Err(_) => Err(OpenFault::NotARegistry),
    }
}

/// Which schema the tables are. `NotARegistry`: no table says it, or not one row with a whole number. Nothing
/// is written, whatever the database is.
pub fn read_version<S: Alter>(conn: &mut Connection<S>) -> Result<i64, OpenFault>
    ensures alone { HasCleanDisk (state S.Store conn.new) → KnowsVersion (state S.Store conn.old).now.schema
        → IfOk result (ShowsAlone (versions_in (state S.Store conn.old).now)) }
    ensures same { HasCleanDisk (state S.Store conn.new)
        → OnOk result (IsUnchanged (state S.Store conn.old) (state S.Store conn.new)) }
    ensures whole { HasCleanDisk (state S.Store conn.new) → KnowsVersion (state S.Store conn.old).now.schema
        → (n : ℤ) → ShowsAlone (versions_in (state S.Store conn.old).now) n → IfErr result IsWanting }
    ensures none { IfErr result (IsWantingOr OpenFault.NotARegistry) }
    ensures left { HasCleanDisk (state S.Store conn.new)
        → LeavesAsWas (state S.Store conn.old) (state S.Store conn.new) }
    ensures told { HasCleanDisk (state S.Store conn.new) → IfOk result (IsOfSchema (state S.Store conn.old)) }
    ensures unnumbered { IfErr result IsUnnumbered }
    ensures survives { LastsUncommitted S.Store conn.old conn.new }
{
    match version_rows(conn) {
        Ok(rows) => version_in(&rows),
        Err(error) => Err(fault_in_reading(error)),
    }
}
