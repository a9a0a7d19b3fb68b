//! Where a server listens, and what is said of an address: what is served there, or why it is not to be had.
ghost use Rattle.std.specs.Prelude.{◌≡◌, true, OnOk, OnErr, IfErr};

use crate::order_socket::listen_for_orders;
use libc::net::listen as set_queue;
use oci_types::Fault;
use os::FromRawFd;
use registry_model::Keeper;
use registry_orders::{Cause, Failure};
use std::alloc::Global;
use std::io;
use std::io::ErrorKind;
use std::net::TcpListener;
use std::os::fd::{AsRawFd, IntoRawFd};
use std::os::unix::net::UnixListener;

/// What is written in the place of an address where a listener is handed over.
const HANDED_OVER: &str = "fd:3";

/// So many connections may wait until they are taken, as far as the system allows it (on Linux
/// net.core.somaxconn). With the standard library's 128 a burst of more clients overruns the queue, and those
/// that found no room in it come again after a second.
const QUEUE: i32 = 4_096;

/// Where a server takes connections, and where orders, if anywhere.
#[derive(Drop)]
pub struct Listeners {
    pub connections: TcpListener,
    pub orders: Option<UnixListener>,
}

/// The place at which a server cannot listen, and why, as far as it can be seen.
#[derive(Clone, Copy)]
pub struct NotBound<'a> {
    pub place: &'a str,
    pub cause: Option<Cause>,
}

/// The listener that was handed over, as by a socket unit of systemd, which gives it as the first descriptor
/// behind standard error (sd_listen_fds). An error is that there is no socket.
fn handed_over() -> io::Result<TcpListener> {
    let listener = unsafe { TcpListener::from_raw_fd(3) };
    match listener.local_addr() {
        Ok(_) => Ok(listener),
        Err(error) => {
            // What else is open there is not closed.
            let _ = listener.into_raw_fd();
            Err(error)
        }
    }
}

/// Listens at an address, with room for many that wait. Asked again of a socket that listens, `listen`
/// changes the length of its queue alone (POSIX.1-2017); where it fails, that stays as it was.
fn bind(rt: &HostRuntime, address: &str) -> io::Result<TcpListener> {
    let listener = TcpListener::bind(rt, address)?;
    let _ = set_queue(listener.as_raw_fd(), QUEUE);
    Ok(listener)
}

/// Listens at an address, or takes the listener that was handed over where that is asked for.
fn listener_at(rt: &HostRuntime, address: &str) -> io::Result<TcpListener> {
    if address == HANDED_OVER {
        return handed_over();
    }
    bind(rt, address)
}

/// Listens at an address for connections, and then for orders at the path of a socket, if one is given.
pub fn listen<'a>(
    rt: &HostRuntime,
    address: &'a str,
    orders: Option<&'a str>,
) -> Result<Listeners, NotBound<'a>> {
    let connections = match listener_at(rt, address) {
        Ok(listener) => listener,
        Err(error) => {
            return Err(NotBound {
                place: address,
                cause: cause_at_address(address, error.kind()),
            });
        }
    };
    let orders = match orders {
        Some(place) => match listen_for_orders(rt, rt.alloc(), place) {
            Ok(listener) => Some(listener),
            Err(cause) => return Err(NotBound { place, cause }),
        },
        None => None,
    };
    Ok(Listeners {
        connections,
        orders,
    })
}

/// Why nobody listens, where the kind of the error tells.
fn cause_at_address(address: &str, kind: ErrorKind) -> Option<Cause> {
    if address == HANDED_OVER {
        Some(Cause::NoSocket)
    } else {
        cause_of_binding(kind)
    }
}

/// Why an address is not listened on, where the kind of the error tells.
pub fn cause_of_binding(kind: ErrorKind) -> Option<Cause> {
    match kind {
        ErrorKind::AddrInUse => Some(Cause::PortInUse),
        ErrorKind::AddrNotAvailable => Some(Cause::Elsewhere),
        ErrorKind::PermissionDenied => Some(Cause::NoRightToPort),
        ErrorKind::InvalidInput => Some(Cause::NoAddress),
        ErrorKind::Uncategorized => Some(Cause::NoHost),
        _ => None,
    }
}

/// The line that says which registry is served on which address, and how many repositories it has; none where
/// memory is wanting for it. The error is a storage failure.
pub fn introduction<K: Keeper>(
    alloc: Global,
    keeper: &mut K,
    listener: &TcpListener,
    path: &str,
) -> Result<Option<String>, Failure>
    ensures honest { K.is_honest keeper.new → K.is_honest keeper.old }
    ensures stays { OnOk result (K.is_honest keeper.new → K.kept keeper.new ≡ K.kept keeper.old) }
    ensures spent { OnErr result ((K.kept keeper.new).spent ≡ true) }
    ensures fails { IfErr result (λ failure. failure ≡ Failure.StorageFailure) }
{
    let count = match keeper.count_repos() {
        Ok(count) => count,
        Err(Fault::Memory) => return Ok(None),
        Err(Fault::Storage) => return Err(Failure::StorageFailure),
    };
    let Ok(address) = listener.local_addr() else {
        return Ok(None);
    };
    let many = if count == 1 {
        "repository"
    } else {
        "repositories"
    };
    Ok(format!(in alloc; "registry: serving {path} ({count} {many}) on {address}\n").ok())
}
