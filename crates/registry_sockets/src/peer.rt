//! One of many sockets, and what is known of it without asking it again.
ghost use Rattle.std.specs.Prelude.{◌≡◌, ◌≤◌, length, IfSome};
ghost use Rattle.registry_server.specs.Open.{outgoing_of};
ghost use Rattle.registry_server.specs.Showing.{connected};
ghost use Rattle.registry_server.specs.Events.{Carries};

use crate::standing::Standing;
use mio::event::Event;
use mio::net::TcpStream;
use registry_http::End;
use registry_server::{Connections, Receipt, Step, Turn, Wants};
use std::alloc::Global;
use std::io::{ErrorKind, IoSlice, Read};
use std::net::Shutdown;
use std::time::Duration;

/// So often a socket is written to, before others have their turn.
const WRITES: usize = 16;

/// So often what is let fall is read.
const READS: usize = 16;

/// After so many milliseconds of rest room is given back.
const REST: u64 = 1_000;

/// One who was refused is heard on until it was silent for so many milliseconds, and so many seconds at most.
const LINGER: u64 = 2_000;

const MOST_LINGER: u64 = 30;

/// A socket, and the number of its connection.
pub struct Peer {
    pub number: u64,
    stream: TcpStream,
    /// More may be there to be read.
    pub readable: bool,
    /// More may be taken.
    pub writable: bool,
    /// It has closed its end, so that the input's end is there to be read.
    closed: bool,
    /// It failed.
    pub failed: bool,
    /// It was refused, and may go on to send what it was refused for.
    refused: bool,
    /// Since when what it sends is let fall.
    lingers: Option<Duration>,
    /// Its connection may keep room that holds nothing.
    keeps_room: bool,
    /// It stands on the list of those for which something may be to be done.
    pub listed: bool,
    /// Since when it has taken nothing of what is to go out.
    pub stuck: Option<Duration>,
    /// What its last reply tells of it.
    pub standing: Standing,
    /// What its connection waits for, and how many bytes it holds of requests and of replies.
    pub wants: Option<Wants>,
    pub coming: usize,
    pub going: usize,
    /// When the first of what it holds of a request came.
    pub began: Duration,
}

impl Drop for Peer {
    fn drop(self) {
        let Peer {
            number: _,
            stream: _,
            readable: _,
            writable: _,
            closed: _,
            failed: _,
            refused: _,
            lingers: _,
            keeps_room: _,
            listed: _,
            stuck: _,
            standing: _,
            wants: _,
            coming: _,
            going: _,
            began: _,
        } = self;
    }
}

impl Peer {
    pub fn new(number: u64, stream: TcpStream) -> Peer {
        Peer {
            number,
            stream,
            readable: true,
            writable: true,
            closed: false,
            failed: false,
            refused: false,
            lingers: None,
            keeps_room: false,
            listed: false,
            stuck: None,
            standing: Standing::new(),
            wants: Some(Wants::Bytes),
            coming: 0,
            going: 0,
            began: Duration::ZERO,
        }
    }

    /// It is to be read.
    pub fn speaks(&self) -> bool {
        self.readable && !self.failed && self.wants == Some(Wants::Bytes)
    }

    /// The same, and its connection takes what comes.
    pub fn may_speak(&self, connections: &Connections) -> bool {
        self.speaks() && connections.takes(self.number) > 0
    }

    /// It is to be written to.
    pub fn listens(&self) -> bool {
        self.writable && !self.failed && self.going > 0
    }

    /// It is between two requests.
    pub fn rests(&self) -> bool {
        self.coming == 0 && self.going == 0
    }

    /// It is between two requests, and nobody who was refused and is heard on.
    pub fn is_done(&self) -> bool {
        self.rests() && !self.refused
    }

    /// What it sends is read, and let fall.
    pub fn drains(&self) -> bool {
        self.refused && self.readable && !self.failed && self.wants == Some(Wants::Nothing)
    }

    /// Something may be to be done for it before anything happens to it.
    pub fn is_awake(&self) -> bool {
        let over = self.failed || self.wants == Some(Wants::Nothing);
        over || self.speaks() || self.listens()
    }

    /// Whether one who was refused is heard on.
    fn is_heard_on(&self, connections: &Connections, now: Duration) -> bool {
        let begun = self.lingers.unwrap_or(now);
        self.refused
            && connections.silence(self.number) < LINGER
            && now.saturating_sub(begun) < Duration::from_secs(MOST_LINGER)
    }

    /// It failed, or all is said, and it is not heard on.
    pub fn ended(&self, connections: &Connections, now: Duration) -> bool {
        self.failed || (self.wants == Some(Wants::Nothing) && !self.is_heard_on(connections, now))
    }

    /// Notes what it was found ready for.
    pub fn note(&mut self, event: &Event) {
        let failed = event.is_error();
        let closed = event.is_read_closed();
        self.closed = self.closed || closed || failed;
        self.readable = self.readable || self.closed || event.is_readable();
        self.writable = self.writable || failed || event.is_writable() || event.is_write_closed();
    }

    /// Looks at what its connection holds and waits for.
    pub fn look(&mut self, connections: &Connections) {
        self.going = connections.outgoing(self.number).len();
        let held = connections.held(self.number);
        self.coming = held.saturating_sub(self.going);
        self.wants = connections.wants(self.number);
    }

    /// Bytes came, as many as there was room for or fewer.
    fn heard(&mut self, whole: bool) {
        // Fewer were all; the end of the input is told with an event.
        self.readable = self.closed || whole;
        self.keeps_room = true;
    }

    fn read_failed(&mut self, kind: ErrorKind) {
        match kind {
            ErrorKind::WouldBlock => self.readable = false,
            ErrorKind::Interrupted => {}
            _ => self.failed = true,
        }
    }

    fn write_failed(&mut self, kind: ErrorKind, now: Duration)
        ensures { self.new.number ≡ self.old.number }
    {
        match kind {
            ErrorKind::WouldBlock => {
                self.writable = false;
                self.stuck = Some(self.stuck.unwrap_or(now));
            }
            ErrorKind::Interrupted => {}
            _ => self.failed = true,
        }
    }

    /// Reads once, at most as many bytes as its connection takes.
    fn read_once(&mut self, connections: &mut Connections, room: &mut [u8])
        ensures { Carries (connected connections.old) (connected connections.new) }
    {
        let most = connections.takes(self.number).min(room.len());
        let room = &mut room[..most];
        match self.stream.read(room) {
            Ok(0) => {
                self.readable = false;
                let _ = connections.finish(self.number);
            }
            Ok(count) => {
                let count = count.min(most);
                match connections.receive(self.number, &room[..count]) {
                    Receipt::Taken | Receipt::NotOpen => {}
                    // No more was read than there is room for.
                    Receipt::NoRoom => unreachable!(),
                }
                self.heard(count == most);
            }
            Err(error) => self.read_failed(error.kind()),
        }
    }

    /// Ends the output to one who was refused, and lets fall what it still sends: a connection that is closed
    /// before all that came was read takes with it what the other side was told (RFC 9112, section 9.6).
    fn drain(&mut self, connections: &mut Connections, room: &mut [u8], now: Duration)
        ensures { connected connections.new ≡ connected connections.old }
    {
        if self.lingers.is_none() {
            self.lingers = Some(now);
            let _ = self.stream.shutdown(Shutdown::Write);
        }
        for _ in 0..READS {
            match self.stream.read(room) {
                Ok(0) => self.failed = true,
                Ok(count) => connections.note_moved(self.number, count),
                Err(error) => self.read_failed(error.kind()),
            }
            if !self.readable || self.failed {
                return;
            }
        }
    }

    /// The same, if it is one whose words are let fall.
    pub fn drain_if(&mut self, connections: &mut Connections, room: &mut [u8], now: Duration)
        ensures { connected connections.new ≡ connected connections.old }
    {
        if self.drains() {
            self.drain(connections, room, now);
        }
    }

    /// Reads once, if it may.
    pub fn hear_if(&mut self, may: bool, connections: &mut Connections, room: &mut [u8])
        ensures { Carries (connected connections.old) (connected connections.new) }
    {
        if may {
            self.read_once(connections, room);
            self.look(connections);
        }
    }

    /// Reads once, if its connection takes what comes, or lets it fall, if it was refused; says whether its
    /// connection was to take something.
    pub fn hear(&mut self, connections: &mut Connections, room: &mut [u8], now: Duration) -> bool
        ensures { Carries (connected connections.old) (connected connections.new) }
    {
        if self.coming == 0 {
            self.began = now;
        }
        let may = self.may_speak(connections);
        self.hear_if(may, connections, room);
        self.drain_if(connections, room, now);
        may
    }

    /// Writes once; answers how many bytes went.
    fn write_once(&mut self, connections: &Connections, now: Duration) -> Option<usize>
        ensures bound { IfSome result (λ count. count
            ≤ length (outgoing_of self.old.number (connected connections.now).slots)) }
        ensures number { self.new.number ≡ self.old.number }
    {
        let going = connections.outgoing(self.number);
        if going.is_empty() {
            return None;
        }
        let parts = [IoSlice::new(going.head), IoSlice::new(going.body)];
        match self.stream.write_vectored(&parts) {
            Ok(0) => {
                self.failed = true;
                None
            }
            Ok(count) => {
                self.stuck = None;
                Some(count.min(going.len()))
            }
            Err(error) => {
                self.write_failed(error.kind(), now);
                None
            }
        }
    }

    /// Writes what is to go out, as far as it is taken, but not for ever.
    fn write_out(&mut self, connections: &mut Connections, now: Duration)
        ensures { Carries (connected connections.old) (connected connections.new) }
    {
        for _ in 0..WRITES {
            let Some(count) = self.write_once(connections, now) else {
                return;
            };
            let _ = connections.sent(self.number, count);
        }
    }

    /// The same, and looks what is left.
    fn tell(&mut self, connections: &mut Connections, now: Duration)
        ensures { Carries (connected connections.old) (connected connections.new) }
    {
        self.write_out(connections, now);
        self.look(connections);
    }

    /// The same, if it is to be written to.
    pub fn tell_if(&mut self, takes: bool, connections: &mut Connections, now: Duration)
        ensures { Carries (connected connections.old) (connected connections.new) }
    {
        if takes {
            self.tell(connections, now);
        }
    }

    /// Sends what came of a turn of its own.
    pub fn tell_of(&mut self, turn: &Turn, connections: &mut Connections, now: Duration)
        ensures { Carries (connected connections.old) (connected connections.new) }
    {
        self.refused = matches!(turn.step, Step::Ended(End::Refused(_)));
        if let Some(standing) = Standing::after(turn) {
            self.standing = standing;
        }
        self.tell(connections, now);
    }

    /// Where it rests for some time, gives back the room that its connection keeps.
    pub fn rest(&mut self, alloc: Global, connections: &mut Connections)
        ensures { connected connections.new ≡ connected connections.old }
    {
        if self.keeps_room && self.rests() && connections.silence(self.number) >= REST {
            self.keeps_room = false;
            connections.give_back(alloc, self.number);
        }
    }
}
