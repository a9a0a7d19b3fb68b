//! What is wrong with the path of a database that failed, as it can be seen there afterwards.
use crate::beginning::names_a_file;
use registry_orders::Cause;
use sqlite::Unknown;
use sqlite_std_file::OpenError;
use std::fs::OpenOptions;
use std::io::{ErrorKind, Read, Write};
use std::os::unix::fs::OpenOptionsExt;
use std::{fs, io};

/// What the file of a database begins with.
const MAGIC: &[u8; 16] = b"SQLite format 3\0";

/// Whether the file holds something that is no database; unknown where it is not read.
fn is_foreign(rt: &HostRuntime, path: &str) -> io::Result<bool> {
    let mut file = fs::open(rt, path)?;
    let mut head = [0; 16];
    let count = file.read(&mut head)?;
    Ok(count != 0 && head.as_slice() != MAGIC.as_slice())
}

/// Writes a page to a new file, and takes that away again.
fn write_page(rt: &HostRuntime, path: &str) -> io::Result<()> {
    let page = vec![in rt.alloc(); 0; 4096]?;
    let mut file = OpenOptions::new()
        .write(true)
        .create_new(true)
        .mode(0o600)
        .open(rt, path)?;
    let written = file.write_all(page.as_slice());
    let synced = file.sync_all();
    fs::remove_file(rt, path)?;
    written?;
    synced
}

/// Whether the disk takes no page beside the file.
fn is_full(rt: &HostRuntime, path: &str) -> io::Result<bool> {
    let beside = format!(in rt.alloc(); "{path}-full")?;
    match write_page(rt, beside.as_str()) {
        Ok(()) => Ok(false),
        Err(error) => Ok(is_of_space(error.kind())),
    }
}

fn is_of_space(kind: ErrorKind) -> bool {
    matches!(kind, ErrorKind::StorageFull | ErrorKind::QuotaExceeded)
}

/// What is wrong where the files of a database can be opened.
fn cause_in_files(rt: &HostRuntime, path: &str) -> Option<Cause> {
    if is_foreign(rt, path).unwrap_or(false) {
        return Some(Cause::NoDatabase);
    }
    if is_full(rt, path).unwrap_or(false) {
        return Some(Cause::DiskFull);
    }
    None
}

/// Who may not do what, where opening was denied.
fn cause_of_denial(rt: &HostRuntime, path: &str) -> Cause {
    match fs::open(rt, path) {
        Err(error) if error.kind() == ErrorKind::PermissionDenied => Cause::NoRightToRead,
        _ => Cause::NoRightToWrite,
    }
}

/// What stands at the path in place of a plain file.
fn cause_of_kind(rt: &HostRuntime, path: &str) -> Cause {
    match fs::metadata(rt, path) {
        Ok(found) if found.is_dir() => Cause::IsFolder,
        _ => Cause::NoPlainFile,
    }
}

/// What is wrong where the files of a database cannot be opened.
pub(crate) fn cause_of_opening(rt: &HostRuntime, path: &str, kind: ErrorKind) -> Option<Cause> {
    match kind {
        ErrorKind::NotFound | ErrorKind::NotADirectory => Some(Cause::NoFolder),
        ErrorKind::PermissionDenied => Some(cause_of_denial(rt, path)),
        ErrorKind::ReadOnlyFilesystem => Some(Cause::ReadOnly),
        ErrorKind::Unsupported | ErrorKind::IsADirectory => Some(cause_of_kind(rt, path)),
        _ if is_of_space(kind) => Some(Cause::DiskFull),
        _ => None,
    }
}

/// Opens the files of a database, and closes them.
fn try_files(rt: &HostRuntime, path: &str) -> Result<(), OpenError> {
    let _files = sqlite_std_file::open(rt, path, Unknown)?;
    Ok(())
}

/// Why the database at a path is not opened, or cannot be written. It is asked for while this process has
/// it closed: its files are opened once more, as an opening does, and what that answers is told.
pub fn cause_at(rt: &HostRuntime, path: &str) -> Option<Cause> {
    if !names_a_file(path) {
        return Some(Cause::NoFileName);
    }
    match try_files(rt, path) {
        Ok(()) => cause_in_files(rt, path),
        Err(OpenError::Busy) => Some(Cause::InUse),
        Err(OpenError::HotJournal) => Some(Cause::Journal),
        Err(OpenError::OutOfMemory) => None,
        Err(OpenError::Io(error)) => cause_of_opening(rt, path, error.kind()),
    }
}
