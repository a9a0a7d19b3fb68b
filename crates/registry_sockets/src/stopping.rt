//! How a server stops that is asked to.

use crate::peer::Peer;
use crate::sockets::Sockets;
use mio::event::Event;
use mio::unix::SourceFd;
use mio::{Interest, Registry, Token};
use std::io;
use std::os::fd::RawFd;
use std::time::Duration;

/// The token of what is watched, which is none of a caller.
const WATCHED: Token = Token(usize::MAX - 1);

/// After so many seconds a server that is to stop waits for nobody any more.
const STOP_PATIENCE: u64 = 10;

/// Has it told when the other end of a descriptor is closed, if one is watched. What comes over it is never
/// read, and is told once, as mio tells everything, so that it holds up no wait.
pub fn watch(registry: &Registry, watched: Option<RawFd>) -> io::Result<()> {
    match watched {
        Some(descriptor) => {
            registry.register(&mut SourceFd(&descriptor), WATCHED, Interest::READABLE)
        }
        None => Ok(()),
    }
}

/// Whether an event says that the other end of what is watched is closed.
pub fn is_end(event: &Event) -> bool {
    event.token() == WATCHED && (event.is_read_closed() || event.is_error())
}

impl Sockets {
    /// Begins to stop, where somebody asked for it, or the other end of what is watched is closed: no more
    /// connections are taken.
    pub(crate) fn stop_if(&mut self, asked: bool) {
        if self.stops.is_none() && (self.ended || asked) {
            self.stops = Some(self.now);
            self.left = 0;
            self.door = None;
        }
    }

    /// Whether a connection goes because the server stops: at once where nothing of it is in hand, and any in
    /// the end.
    pub(crate) fn goes_by_stop(&self, peer: &Peer) -> bool {
        match self.stops {
            Some(since) => {
                let waited = self.now.saturating_sub(since);
                peer.is_done() || waited >= Duration::from_secs(STOP_PATIENCE)
            }
            None => false,
        }
    }
}
