//! The socket at which a server takes orders. Nobody but its owner can connect to it.
use registry_orders::Cause;
use std::alloc::Global;
use std::fs::Permissions;
use std::io::ErrorKind;
use std::os::unix::fs::{FileTypeExt, PermissionsExt};
use std::os::unix::net::{UnixListener, UnixStream};
use std::{fs, io};

/// What is wrong with the path, where the kind of the error tells.
fn cause_of(kind: ErrorKind) -> Option<Cause> {
    match kind {
        ErrorKind::NotFound | ErrorKind::NotADirectory => Some(Cause::NoFolder),
        ErrorKind::PermissionDenied => Some(Cause::NoRightToWrite),
        ErrorKind::ReadOnlyFilesystem => Some(Cause::ReadOnly),
        ErrorKind::AddrInUse => Some(Cause::ServerThere),
        ErrorKind::InvalidInput => Some(Cause::NoFileName),
        _ => None,
    }
}

fn cause_of_error(error: io::Error) -> Option<Cause> {
    cause_of(error.kind())
}

/// Whether what is at a path is a socket.
fn is_socket(rt: &HostRuntime, path: &str) -> Result<bool, ErrorKind> {
    match fs::symlink_metadata(rt, path) {
        Ok(found) => Ok(found.file_type().is_socket()),
        Err(error) => Err(error.kind()),
    }
}

/// Asks whether a server listens at a path. The error is why none can be asked.
fn knock(rt: &HostRuntime, path: &str) -> Result<(), ErrorKind> {
    match UnixStream::connect(rt, path) {
        Ok(_) => Ok(()),
        Err(error) => Err(error.kind()),
    }
}

/// Takes away the socket that a dead server left at a path. The error is that something else is there, or a
/// server that lives.
fn clear(rt: &HostRuntime, path: &str) -> Result<(), Option<Cause>> {
    match is_socket(rt, path) {
        Ok(true) => {}
        Ok(false) => return Err(Some(Cause::NoSocket)),
        Err(ErrorKind::NotFound) => return Ok(()),
        Err(kind) => return Err(cause_of(kind)),
    }
    match knock(rt, path) {
        Ok(()) => Err(Some(Cause::ServerThere)),
        Err(ErrorKind::ConnectionRefused) => fs::remove_file(rt, path).map_err(cause_of_error),
        Err(kind) => Err(cause_of(kind)),
    }
}

/// Lets those go who connected before the socket was its owner's alone.
fn turn_away(listener: &UnixListener) -> io::Result<()> {
    listener.set_nonblocking(true)?;
    for _ in 0..u64::MAX {
        if listener.accept().is_err() {
            break;
        }
    }
    listener.set_nonblocking(false)
}

/// Makes a socket that was bound at a path that nobody asks for its owner's alone, and moves it then.
fn settle(rt: &HostRuntime, listener: &UnixListener, beside: &str, path: &str) -> io::Result<()> {
    fs::set_permissions(rt, beside, Permissions::from_mode(0o600))?;
    turn_away(listener)?;
    fs::rename(rt, beside, path)
}

/// Listens at a path, by way of another one beside it. What a dead server left at either is taken away.
fn listen_by(rt: &HostRuntime, beside: &str, path: &str) -> Result<UnixListener, Option<Cause>> {
    clear(rt, path)?;
    clear(rt, beside)?;
    let listener = UnixListener::bind(rt, beside).map_err(cause_of_error)?;
    match settle(rt, &listener, beside, path) {
        Ok(()) => Ok(listener),
        Err(error) => {
            let _ = fs::remove_file(rt, beside);
            Err(cause_of(error.kind()))
        }
    }
}

/// Listens for orders at a path. What a dead server left there is taken away. The socket is bound at the
/// path with `.new` behind it, given mode 0600 there, and moved. An error has what is wrong with the path,
/// as far as it can be seen; a path of more than 103 bytes is none of a socket.
pub fn listen_for_orders(
    rt: &HostRuntime,
    alloc: Global,
    path: &str,
) -> Result<UnixListener, Option<Cause>> {
    match format!(in alloc; "{path}.new") {
        Ok(beside) => listen_by(rt, beside.as_str(), path),
        Err(_) => Err(None),
    }
}

/// Takes the socket away at which orders were taken, if they were.
pub fn stop_orders(rt: &HostRuntime, path: Option<&str>) {
    if let Some(path) = path {
        let _ = fs::remove_file(rt, path);
    }
}
