//! The migration of a file.
ghost use Rattle.std.specs.Prelude.{IfErr};
ghost use Rattle.store_migration.specs.Migrating.{NamesNeither};

use crate::Watch;
use crate::migration::migrate_open;
use crate::rewrite::MovedRows;
use sqlite::{Alter, Connection, Error, FileStore, Start};
use sqlite_disk::Disk;
use std::alloc::Global;
use store_opening::{OpenFault, fault_in_opening, let_go};

/// `migrate_open` over the database file at the path, its log beside it, which is opened and closed again. A
/// file that is no database is `Storage`; so is one that was taken over and could not be closed. What is
/// supposed of the file is given as for an opening, so that a program has one copy of the database's code.
pub fn migrate<F: Start, W: Watch>(
    rt: &HostRuntime,
    path: &str,
    start: F,
    watch: &mut W,
) -> Result<Option<MovedRows>, OpenFault>
    ensures another { IfErr result NamesNeither }
{
    migrate_files(
        rt.alloc(),
        Connection::open_from(rt, path, false, start),
        watch,
    )
}

/// `migrate_open` over the files of a database that was opened, which are closed again; what is left of files
/// that were not is let go.
fn migrate_files<D: Disk + Drop, L: Drop, W: Watch>(
    alloc: Global,
    opened: Result<Connection<FileStore<D>>, (Error, L)>,
    watch: &mut W,
) -> Result<Option<MovedRows>, OpenFault>
    ensures another { IfErr result NamesNeither }
{
    match opened {
        Ok(conn) => {
            let (moved, conn) = migrate_own(alloc, conn, watch);
            match moved {
                Ok(moved) => match conn.close() {
                    Ok(()) => Ok(moved),
                    Err(error) => Err(fault_in_opening(error)),
                },
                Err(fault) => {
                    let_go(conn);
                    Err(fault)
                }
            }
        }
        Err((error, _)) => Err(fault_in_opening(error)),
    }
}

/// `migrate_open` over a connection that is given back.
fn migrate_own<S: Alter, W: Watch>(
    alloc: Global,
    mut conn: Connection<S>,
    watch: &mut W,
) -> (Result<Option<MovedRows>, OpenFault>, Connection<S>)
    ensures another { IfErr result.0 NamesNeither }
{
    let moved = migrate_open(alloc, &mut conn, watch);
    (moved, conn)
}
