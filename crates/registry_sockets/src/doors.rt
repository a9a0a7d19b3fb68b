//! The doors of a server.
ghost use Rattle.std.specs.Prelude.{◌≡◌, [], IfOk};

use crate::stopping::watch;
use mio::net::TcpListener;
use mio::{Interest, Registry, Token};
use order_sockets::Callers;
use std::alloc::Global;
use std::os::fd::RawFd;
use std::os::unix::net::UnixListener;
use std::{io, net};

/// The listener's token; the others are below it (`stopping`, `callers`), first the numbers of connections.
pub(crate) const LISTENER: Token = Token(usize::MAX);

/// Where connections are taken, and where orders are, if they are; and what is watched beside them, if
/// anything: a descriptor that is never read, as that of standard input. Where nobody holds its other end any
/// more, the server stops. The system refuses to watch a file or the null device, which have no other end.
#[derive(Drop)]
pub struct Doors {
    pub listener: net::TcpListener,
    pub orders: Option<UnixListener>,
    pub watched: Option<RawFd>,
}

impl Doors {
    /// Has them watched: the one to which connections come, and those who give orders.
    pub(crate) fn open(
        self,
        alloc: Global,
        registry: &Registry,
    ) -> io::Result<(TcpListener, Callers)>
        ensures { IfOk result (λ both. both.1.callers.items ≡ []) }
    {
        let Doors {
            listener,
            orders,
            watched,
        } = self;
        let listener = listening(registry, listener, watched)?;
        let callers = Callers::new(alloc, registry, orders)?;
        Ok((listener, callers))
    }
}

/// The door to which connections come, which is watched with the others.
fn listening(
    registry: &Registry,
    listener: net::TcpListener,
    watched: Option<RawFd>,
) -> io::Result<TcpListener> {
    listener.set_nonblocking(true)?;
    let mut listener = TcpListener::from_std(listener);
    registry.register(&mut listener, LISTENER, Interest::READABLE)?;
    watch(registry, watched)?;
    Ok(listener)
}
