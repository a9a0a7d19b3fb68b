//! The sockets of a crowd.
ghost use Rattle.std.specs.Prelude.{◌≡◌, [], IfOk};
ghost use Rattle.registry_server.specs.Events.{Carries};
ghost use Rattle.registry_server.specs.Showing.{connected};
ghost use Rattle.order_sockets.specs.Calls.{all_called};

use crate::doors::{Doors, LISTENER};
use crate::peer::Peer;
use crate::peers::{is_any_ready, list, peer_of, take};
use crate::stopping::is_end;
use mio::net::{TcpListener, TcpStream};
use mio::{Events, Poll};
use order_sockets::Callers;
use registry_server::{Connections, Step, Turn};
use request_log::Cut;
use std::alloc::{AllocError, Global};
use std::io;
use std::time::Duration;

/// How many bytes are read at once.
const ROOM: usize = 65_536;

/// How many events are taken at once, and how many connections.
pub const EVENTS: usize = 256;

/// How many seconds it is waited at most, so that silence is noticed.
const WAIT: u64 = 1;

/// A listener, and the sockets that were taken there.
pub struct Sockets {
    pub poll: Poll,
    events: Events,
    /// Where they come, once they may.
    pub(crate) listener: Option<TcpListener>,
    /// So many connections are still to be taken.
    pub(crate) left: u64,
    /// One may wait to be taken.
    pub(crate) knocks: bool,
    /// One that came, for which there is no place yet, and how many places there are.
    pub(crate) door: Option<TcpStream>,
    pub places: usize,
    /// Since when one waits for a place.
    pub(crate) waiting: Option<Duration>,
    /// The system had no descriptor for one that came, and this was not said yet.
    pub is_short: bool,
    /// Some connection may have a turn to take.
    pub pending: bool,
    /// In the order of their numbers.
    pub peers: Vec<Peer>,
    /// The numbers of those for which something may be to be done before anything happens to them.
    pub(crate) awake: Vec<u64>,
    /// When all were looked at last.
    pub(crate) swept: Duration,
    /// The replies that were cut off, and were not said yet.
    pub cuts: Vec<Cut>,
    /// Nobody holds the other end of what is watched.
    pub(crate) ended: bool,
    /// Since when it is to stop.
    pub(crate) stops: Option<Duration>,
    pub(crate) room: Vec<u8>,
    pub now: Duration,
}

impl Drop for Sockets {
    fn drop(self) {
        let Sockets {
            poll: _,
            events: _,
            listener: _,
            left: _,
            knocks: _,
            door: _,
            places: _,
            waiting: _,
            is_short: _,
            pending: _,
            peers: _,
            awake: _,
            swept: _,
            cuts: _,
            ended: _,
            stops: _,
            room: _,
            now: _,
        } = self;
    }
}

/// Room for what happens, and for what is read at once.
fn rooms(alloc: Global) -> Result<(Events, Vec<u8>), AllocError> {
    let events = Events::with_capacity(alloc, EVENTS)?;
    Ok((events, vec![in alloc; 0; ROOM]?))
}

/// Where a turn came to something that is to go out, silence begins now: it was the server that made wait.
fn excuse_answered(connections: &mut Connections, turn: &Turn)
    ensures { connected connections.new ≡ connected connections.old }
{
    if turn.step != Step::Waits {
        connections.excuse(turn.number);
    }
}

impl Sockets {
    /// Nobody, and nobody can come yet; in the end so many connections. An error is that of the system, or
    /// want of memory.
    pub fn new(alloc: Global, net: &HostRuntime, connections: u64) -> io::Result<Sockets> {
        let (events, room) = rooms(alloc)?;
        Ok(Sockets {
            poll: Poll::new(net)?,
            events,
            listener: None,
            left: connections,
            knocks: true,
            door: None,
            places: 0,
            waiting: None,
            is_short: false,
            pending: false,
            peers: Vec::new(alloc),
            awake: Vec::new(alloc),
            swept: Duration::ZERO,
            cuts: Vec::new(alloc),
            ended: false,
            stops: None,
            room,
            now: Duration::ZERO,
        })
    }

    /// Those may come who come to these doors; gives those who give orders. An error is that of the system,
    /// also where it refuses to watch what is to be watched.
    pub fn open(&mut self, alloc: Global, doors: Doors) -> io::Result<Callers>
        ensures { IfOk result (λ callers. all_called callers.callers.items ≡ []) }
    {
        let (listener, callers) = doors.open(alloc, self.poll.registry())?;
        self.listener = Some(listener);
        Ok(callers)
    }

    /// Whether something is to be done before anything happens.
    fn is_busy(&mut self, connections: &Connections, callers: &Callers) -> bool {
        (self.pending && connections.has_room_for_reply())
            || is_any_ready(&mut self.peers, &self.awake, connections)
            || callers.is_any_ready()
            || self.takes_next(connections)
    }

    /// For how long it may be waited, if not for ever; not for ever where something is to be said.
    fn patience(
        &mut self,
        connections: &Connections,
        callers: &Callers,
        speaks: bool,
    ) -> Option<Duration> {
        let quiet = !self.knocks && callers.is_quiet();
        if self.is_busy(connections, callers) {
            Some(Duration::ZERO)
        } else if self.peers.is_empty() && quiet && !speaks {
            None
        } else {
            Some(Duration::from_secs(WAIT))
        }
    }

    /// Notes what happened.
    fn note_events(&mut self, callers: &mut Callers)
        ensures { all_called callers.new.callers.items ≡ all_called callers.old.callers.items }
    {
        for event in self.events.iter() {
            if event.token() == LISTENER {
                self.knocks = true;
            }
            self.ended = self.ended || is_end(event);
            callers.note(event);
            if let Some(peer) = peer_of(&mut self.peers, event.token().0 as u64) {
                peer.note(event);
                let _ = list(&mut self.awake, peer);
            }
        }
    }

    /// Waits until something happens, and notes what; not for long where something is to be said.
    pub fn wait(
        &mut self,
        connections: &Connections,
        callers: &mut Callers,
        speaks: bool,
    ) -> io::Result<()>
        ensures { all_called callers.new.callers.items ≡ all_called callers.old.callers.items }
    {
        let limit = self.patience(connections, callers, speaks);
        self.poll.poll(&mut self.events, limit)?;
        self.note_events(callers);
        Ok(())
    }

    /// How many milliseconds it is.
    pub fn millis(&self) -> u64 {
        u64::try_from(self.now.as_millis()).unwrap_or(u64::MAX)
    }

    /// The one at a place of the list.
    fn awake_at(&mut self, at: usize) -> Option<&mut Peer> {
        let number = self.awake.get(at).copied()?;
        peer_of(&mut self.peers, number)
    }

    /// Reads the one at a place of the list, if it may be read.
    fn hear_at(&mut self, connections: &mut Connections, at: usize)
        ensures { Carries (connected connections.old) (connected connections.new) }
    {
        let now = self.now;
        let Some(number) = self.awake.get(at).copied() else {
            return;
        };
        if let Some(peer) = peer_of(&mut self.peers, number) {
            let may = peer.hear(connections, &mut self.room, now);
            self.pending = self.pending || may;
        }
    }

    /// Reads each that may be read, once, as many bytes as its connection takes, and lets fall what those
    /// send who were refused.
    pub fn hear_all(&mut self, connections: &mut Connections)
        ensures { Carries (connected connections.old) (connected connections.new) }
    {
        for at in 0..self.awake.len() {
            self.hear_at(connections, at);
        }
    }

    /// Writes to the one at a place of the list, if it takes something.
    fn tell_at(&mut self, connections: &mut Connections, at: usize)
        ensures { Carries (connected connections.old) (connected connections.new) }
    {
        let now = self.now;
        if let Some(peer) = self.awake_at(at) {
            let takes = peer.listens();
            peer.tell_if(takes, connections, now);
            self.pending = self.pending || takes;
        }
    }

    /// Writes to each that takes something.
    pub(crate) fn tell_all(&mut self, connections: &mut Connections)
        ensures { Carries (connected connections.old) (connected connections.new) }
    {
        for at in 0..self.awake.len() {
            self.tell_at(connections, at);
        }
    }

    /// Sends what came of a turn.
    fn tell_peer_of(&mut self, connections: &mut Connections, turn: &Turn)
        ensures { Carries (connected connections.old) (connected connections.new) }
    {
        let now = self.now;
        excuse_answered(connections, turn);
        if let Some(peer) = peer_of(&mut self.peers, turn.number) {
            peer.tell_of(turn, connections, now);
            let _ = list(&mut self.awake, peer);
        }
    }

    /// The same, and looks after those that wait for the room that the turn may have made.
    pub fn tell_of(&mut self, connections: &mut Connections, turn: &Turn)
        ensures { Carries (connected connections.old) (connected connections.new) }
    {
        self.tell_peer_of(connections, turn);
        connections.stir_waiting();
    }

    /// The server worked for a time in which nobody was heard: the silence of all begins now.
    pub fn excuse_all(&mut self, connections: &mut Connections)
        ensures { connected connections.new ≡ connected connections.old }
    {
        for peer in self.peers.iter() {
            connections.excuse(peer.number);
        }
    }

    /// Notes where a reply is cut off.
    fn note_cut(&mut self, peer: &Peer) {
        if peer.going > 0 && !peer.failed {
            let (number, left) = (peer.number, peer.going);
            let _ = self.cuts.push(Cut { number, left });
        }
    }

    /// Takes out the one of this number.
    pub(crate) fn let_go(&mut self, number: u64) {
        if let Some(peer) = take(&mut self.peers, number) {
            self.note_cut(&peer);
        }
    }

    /// Lets one connection go.
    pub(crate) fn dismiss(&mut self, connections: &mut Connections, number: u64)
        ensures { Carries (connected connections.old) (connected connections.new) }
    {
        let _ = connections.close(number);
        self.let_go(number);
    }

    /// Lets the one go that came last.
    fn dismiss_last(&mut self, connections: &mut Connections)
        ensures { Carries (connected connections.old) (connected connections.new) }
    {
        if let Some(peer) = self.peers.pop() {
            let _ = connections.close(peer.number);
            self.note_cut(&peer);
        }
    }

    /// Everybody goes, with what can be told at once.
    pub fn leave(&mut self, connections: &mut Connections)
        ensures { Carries (connected connections.old) (connected connections.new) }
    {
        self.tell_all(connections);
        for _ in 0..self.peers.len() {
            self.dismiss_last(connections);
        }
    }

    /// Whether all have come and gone.
    pub fn has_ended(&self) -> bool {
        self.left == 0 && self.peers.is_empty() && self.door.is_none()
    }
}
