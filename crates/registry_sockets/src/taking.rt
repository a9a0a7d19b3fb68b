//! How connections are taken.
//!
//! Who came stands in the door until there is a place. Where all are taken, the place of one is given away
//! that rests: of several the one that was open longest, at once where the next request is one that a client
//! sends again on another connection. So where clients pull, each who waits is taken within as many replies
//! as there are places; where they push, when one of them has rested for a second or others have waited for
//! five. A server may close a connection that rests at any time (RFC 9112, section 9.5); nothing that came is
//! lost.
ghost use Rattle.registry_server.specs.Events.{Carries};
ghost use Rattle.registry_server.specs.Showing.{connected};

use crate::peer::Peer;
use crate::peers::{first_to_give_way, list, peer_of};
use crate::sockets::Sockets;
use libc::EMFILE;
use mio::net::TcpStream;
use mio::{Interest, Token};
use registry_http::FramingRefusal;
use registry_http::fixed_text::write_refusal;
use registry_server::Connections;
use std::alloc::Global;
use std::io;
use std::io::ErrorKind;
use std::time::Duration;

/// Who has waited for so many seconds for a place gets that of any that rests.
const LONG: u64 = 5;

/// The system's tables of descriptors are full (POSIX.1-2017, `ENFILE`).
const ENFILE: i32 = 23;

/// What came of a look for the next connection.
#[derive(Clone, Copy)]
pub enum Came {
    /// None is there, or none may be taken now.
    Nobody,
    /// One was there, and another may be.
    Somebody,
    /// Likewise, but memory was wanting for it.
    TurnedAway,
}

impl Sockets {
    /// Whether one has waited for long for a place.
    fn is_pressing(&self) -> bool {
        match self.waiting {
            Some(since) => self.now.saturating_sub(since) >= Duration::from_secs(LONG),
            None => false,
        }
    }

    /// The one whose place is given away.
    fn first_to_go(&self, connections: &Connections) -> Option<u64> {
        first_to_give_way(&self.peers, connections, self.is_pressing(), self.now)
    }

    /// Whether one that waits can be taken now.
    pub(crate) fn takes_next(&self, connections: &Connections) -> bool {
        let free = self.door.is_some() && self.peers.len() < self.places;
        free || (self.waiting.is_some() && self.first_to_go(connections).is_some())
    }

    /// Reads once more from one whose place is to be given away. Says how many bytes it held before of a
    /// request, if it has sent nothing since.
    fn hear_last(&mut self, connections: &mut Connections, number: u64) -> Option<usize>
        ensures { Carries (connected connections.old) (connected connections.new) }
    {
        let now = self.now;
        let peer = peer_of(&mut self.peers, number)?;
        let before = peer.coming;
        peer.readable = true;
        let may = peer.hear(connections, &mut self.room, now);
        self.pending = self.pending || may;
        let _ = list(&mut self.awake, peer);
        (peer.coming == before).then_some(before)
    }

    /// Lets one go whose place is given away, and says whether it went. From one that rests nothing is taken
    /// that came.
    fn give_place_of(&mut self, connections: &mut Connections, number: u64) -> bool
        ensures { Carries (connected connections.old) (connected connections.new) }
    {
        match self.hear_last(connections, number) {
            Some(0) => {
                let rested = connections.close_resting(number);
                if rested {
                    self.let_go(number);
                }
                rested
            }
            Some(_) => {
                self.dismiss(connections, number);
                true
            }
            None => false,
        }
    }

    /// Makes a place, if there is one that gives way.
    fn make_place(&mut self, connections: &mut Connections) -> bool
        ensures { Carries (connected connections.old) (connected connections.new) }
    {
        match self.first_to_go(connections) {
            Some(number) => self.give_place_of(connections, number),
            None => false,
        }
    }

    /// Whether there is a place for one more, or one can be made.
    fn has_place(&mut self, connections: &mut Connections) -> bool
        ensures { Carries (connected connections.old) (connected connections.new) }
    {
        if self.peers.len() < self.places {
            return true;
        }
        self.make_place(connections)
    }

    /// Has the socket of a connection watched, and keeps it; says whether it could.
    fn keep(&mut self, number: u64, stream: TcpStream) -> bool {
        let mut stream = stream;
        let interest = Interest::READABLE | Interest::WRITABLE;
        let token = Token(number as usize);
        let registered = self.poll.registry().register(&mut stream, token, interest);
        if registered.is_err() {
            return false;
        }
        let mut peer = Peer::new(number, stream);
        let _ = list(&mut self.awake, &mut peer);
        self.peers.push(peer).is_ok()
    }

    /// Takes a connection that came. Where memory is wanting for it, it is told so and closed, as where the
    /// system refuses it.
    fn welcome(&mut self, alloc: Global, connections: &mut Connections, stream: TcpStream) -> Came
        ensures { Carries (connected connections.old) (connected connections.new) }
    {
        let mut stream = stream;
        let _ = stream.set_nodelay(true);
        let Ok(number) = connections.open(alloc) else {
            let _ = write_refusal(FramingRefusal::NoBufferMemory, &mut stream);
            return Came::TurnedAway;
        };
        if self.keep(number, stream) {
            return Came::Somebody;
        }
        let _ = connections.close(number);
        Came::Somebody
    }

    /// The system has no descriptor for one that came, or no memory: a place is made, if one gives way. An
    /// error is that nobody is there.
    fn none_to_have(&mut self, connections: &mut Connections, error: io::Error) -> io::Result<Came>
        ensures { Carries (connected connections.old) (connected connections.new) }
    {
        if self.peers.is_empty() {
            return Err(error);
        }
        self.is_short = matches!(error.raw_os_error(), Some(EMFILE | ENFILE));
        self.waiting = Some(self.waiting.unwrap_or(self.now));
        if self.make_place(connections) {
            Ok(Came::Somebody)
        } else {
            Ok(Came::Nobody)
        }
    }

    /// What it comes to that none was taken. An error is that none can be, and nobody is there.
    fn none_taken(&mut self, connections: &mut Connections, error: io::Error) -> io::Result<Came>
        ensures { Carries (connected connections.old) (connected connections.new) }
    {
        match error.kind() {
            ErrorKind::WouldBlock => {
                self.knocks = false;
                self.waiting = None;
                Ok(Came::Nobody)
            }
            ErrorKind::ConnectionAborted | ErrorKind::Interrupted => Ok(Came::Somebody),
            _ => self.none_to_have(connections, error),
        }
    }

    /// Has the next one that came stand in the door. An error is that none can be taken, and nobody is there.
    fn open_door(&mut self, connections: &mut Connections) -> io::Result<Came>
        ensures { Carries (connected connections.old) (connected connections.new) }
    {
        if !self.knocks || self.left == 0 {
            return Ok(Came::Nobody);
        }
        let Some(listener) = &self.listener else {
            return Ok(Came::Nobody);
        };
        match listener.accept() {
            Ok((stream, _)) => {
                self.left = self.left.saturating_sub(1);
                self.door = Some(stream);
                self.waiting = Some(self.waiting.unwrap_or(self.now));
                Ok(Came::Somebody)
            }
            Err(error) => self.none_taken(connections, error),
        }
    }

    /// Takes the one in the door, if there is a place.
    fn take_from_door(&mut self, alloc: Global, connections: &mut Connections) -> Came
        ensures { Carries (connected connections.old) (connected connections.new) }
    {
        if !self.has_place(connections) {
            return Came::Nobody;
        }
        match self.door.take() {
            Some(stream) => {
                self.waiting = None;
                self.welcome(alloc, connections, stream)
            }
            None => Came::Nobody,
        }
    }

    /// Takes the next one that came, if one may be taken. An error is that none can be, and nobody is there.
    pub fn accept_one(&mut self, alloc: Global, connections: &mut Connections) -> io::Result<Came>
        ensures { Carries (connected connections.old) (connected connections.new) }
    {
        if self.door.is_none() {
            self.open_door(connections)
        } else {
            Ok(self.take_from_door(alloc, connections))
        }
    }
}
