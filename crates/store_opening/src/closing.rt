//! The end of a database that is given up.

use sqlite::{Connection, FileStore};
use sqlite_disk::Disk;

/// Closes the files of a database as they are: what the log holds stays there. How each part of a connection
/// over files is dropped takes long to prove, so it is done here alone.
pub fn let_go<D: Disk + Drop>(_conn: Connection<FileStore<D>>) {}
