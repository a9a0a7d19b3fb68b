//! New database files.
use std::fs::OpenOptions;
use std::io::{IsTerminal, Write};
use std::os::unix::fs::OpenOptionsExt;

/// Whether SQLite takes the path for that of a file.
pub fn names_a_file(path: &str) -> bool {
    path != ":memory:" && !path.starts_with("file:")
}

/// Makes the file of a new database, which its owner alone may read and write, where nothing is at the
/// path; an opening takes an empty file for a new database. On a terminal it is said that it was made.
/// Where the file cannot be made, the opening tells.
pub fn begin(rt: &HostRuntime, path: &str) {
    if !names_a_file(path) {
        return;
    }
    let made = OpenOptions::new()
        .write(true)
        .create_new(true)
        .mode(0o600)
        .open(rt, path);
    let mut err = rt.stderr();
    if made.is_ok() && err.is_terminal() {
        let _ = writeln!(
            err,
            "registry: {path} was not there: a new database is made"
        );
    }
}
