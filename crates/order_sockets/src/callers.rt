//! Those who give orders while connections are served.
ghost use Rattle.std.specs.Prelude.{◌≡◌, ◌||◌, [], false, IfOk};
ghost use Rattle.std.specs.List.{list_any};
ghost use Rattle.order_sockets.specs.Calling.{Come, AttendsAll, AttendsRound, Stay, NotesStop};
ghost use Rattle.order_sockets.specs.Calls.{all_called};

use crate::caller::Caller;
use mio::event::Event;
use mio::net::{UnixListener, UnixStream};
use mio::{Interest, Registry, Token};
use registry_model::Keeper;
use registry_service::Service;
use std::alloc::Global;
use std::io;
use std::io::ErrorKind;
use std::os::unix::net;
use std::time::Duration;

/// The token of the listener, and the first one of a caller; connections have numbers below both.
const DESK: Token = Token(1 << 62);

/// So many callers may be there at once; others wait to be taken.
const MOST: usize = 16;

/// One that gives no order for so many seconds goes where another waits.
const SILENCE: u64 = 1;

/// A socket at which orders are given, if there is one, and those who came there.
pub struct Callers {
    listener: Option<UnixListener>,
    /// One may wait to be taken.
    knocks: bool,
    callers: Vec<Caller>,
    /// Those of them who asked the server to stop and were there as it left: they see by the end of what they
    /// read that it has ended.
    asked: Vec<Caller>,
    /// The token of the one that comes next.
    next: usize,
    /// One of them, who may be gone, asked the server to stop.
    stopping: bool,
}

impl Drop for Callers {
    fn drop(self) {
        let Callers {
            listener: _,
            knocks: _,
            callers: _,
            asked: _,
            next: _,
            stopping: _,
        } = self;
    }
}

/// Has a listener watched, if there is one.
fn listening(
    registry: &Registry,
    listener: Option<net::UnixListener>,
) -> io::Result<Option<UnixListener>> {
    let Some(listener) = listener else {
        return Ok(None);
    };
    listener.set_nonblocking(true)?;
    let mut listener = UnixListener::from_std(listener);
    registry.register(&mut listener, DESK, Interest::READABLE)?;
    Ok(Some(listener))
}

/// Tells the one that an event is of.
fn note_each(callers: &mut [Caller], event: &Event)
    ensures { all_called callers.new ≡ all_called callers.old }
{
    for caller in callers.iter_mut() {
        caller.note(event);
    }
}

/// Attends each in turn.
fn attend_each<K: Keeper>(
    callers: &mut [Caller],
    alloc: Global,
    service: &mut Service<K>,
    now: Duration,
)
    ensures honest { K.is_honest service.new → K.is_honest service.old }
    ensures attends { K.is_honest service.new → AttendsAll (all_called callers.old) (all_called callers.new)
        (K.kept service.old) (K.kept service.new) }
{
    for caller in callers.iter_mut() {
        caller.attend(alloc, service, now);
    }
}

/// Whether one of them asked the server to stop.
fn any_stops(callers: &[Caller]) -> bool
    ensures { result ≡ list_any (λ c. c.stops) callers.now }
{
    callers.iter().any(|caller| caller.stops)
}

/// Where the one stands that has been silent longest of those that have given no order.
fn oldest_silent(callers: &[Caller], now: Duration) -> Option<usize> {
    let mut oldest = None;
    let mut longest = Duration::from_secs(SILENCE);
    for (at, caller) in callers.iter().enumerate() {
        let silence = caller.silence(now);
        if silence >= longest {
            oldest = Some(at);
            longest = silence;
        }
    }
    oldest
}

impl Callers {
    /// Nobody but those who come to the listener. An error is that of the system.
    pub fn new(
        alloc: Global,
        registry: &Registry,
        listener: Option<net::UnixListener>,
    ) -> io::Result<Callers>
        ensures { IfOk result (λ callers. (callers.callers.items ≡ []) × (callers.stopping ≡ false)) }
    {
        let listener = listening(registry, listener)?;
        Ok(Callers {
            knocks: listener.is_some(),
            listener,
            callers: Vec::new(alloc),
            asked: Vec::new(alloc),
            next: DESK.0 + 1,
            stopping: false,
        })
    }

    /// Nobody is there, and nobody waits to be taken.
    pub fn is_quiet(&self) -> bool {
        self.callers.is_empty() && !self.knocks
    }

    /// Whether one who came asked the server to stop.
    pub fn is_asked_to_stop(&self) -> bool
        ensures { result ≡ self.now.stopping }
    {
        self.stopping
    }

    /// Whether something is to be done before anything happens.
    pub fn is_any_ready(&self) -> bool {
        let takes = self.knocks && self.callers.len() < MOST;
        takes || self.callers.iter().any(|caller| caller.is_ready())
    }

    /// Tells the one that an event is of.
    pub fn note(&mut self, event: &Event)
        ensures same { all_called self.new.callers.items ≡ all_called self.old.callers.items }
        ensures stopping { self.new.stopping ≡ self.old.stopping }
    {
        if event.token() == DESK {
            self.knocks = true;
        }
        note_each(&mut self.callers, event);
    }

    /// Has the socket of one that came watched, and keeps it, if the system and memory allow.
    fn admit(&mut self, alloc: Global, registry: &Registry, stream: UnixStream, now: Duration)
        ensures come { Come (all_called self.old.callers.items) (all_called self.new.callers.items) }
        ensures stopping { self.new.stopping ≡ self.old.stopping }
    {
        let mut stream = stream;
        let token = Token(self.next);
        self.next = self.next.saturating_add(1);
        let interest = Interest::READABLE | Interest::WRITABLE;
        if registry.register(&mut stream, token, interest).is_ok() {
            let _ = self.callers.push(Caller::new(alloc, token, stream, now));
        }
    }

    /// Takes the next one that came.
    fn accept_next(&mut self, alloc: Global, registry: &Registry, now: Duration)
        ensures come { Come (all_called self.old.callers.items) (all_called self.new.callers.items) }
        ensures stopping { self.new.stopping ≡ self.old.stopping }
    {
        let Some(listener) = &self.listener else {
            self.knocks = false;
            return;
        };
        match listener.accept() {
            Ok((stream, _)) => self.admit(alloc, registry, stream, now),
            Err(error) => match error.kind() {
                ErrorKind::ConnectionAborted | ErrorKind::Interrupted => {}
                _ => self.knocks = false,
            },
        }
    }

    /// Takes those who came, as far as there is room.
    fn accept_all(&mut self, alloc: Global, registry: &Registry, now: Duration)
        ensures come { Come (all_called self.old.callers.items) (all_called self.new.callers.items) }
        ensures stopping { self.new.stopping ≡ self.old.stopping }
    {
        for _ in 0..MOST {
            if !self.knocks || self.callers.len() >= MOST {
                return;
            }
            self.accept_next(alloc, registry, now);
        }
    }

    /// Notes whether one of those who are there asked the server to stop.
    fn note_stop(&mut self)
        ensures callers { self.new.callers ≡ self.old.callers }
        ensures stopping { self.new.stopping
            ≡ (self.old.stopping || list_any (λ c. c.stops) self.old.callers.items) }
    {
        if any_stops(&self.callers) {
            self.stopping = true;
        }
    }

    /// Whether the one at a place is to go.
    fn is_to_go(&self, at: usize, now: Duration) -> bool {
        match self.callers.get(at) {
            Some(caller) => caller.leaves(now),
            None => false,
        }
    }

    /// Lets the one at a place go, if it is to go; says where the next is.
    fn dismiss_if(&mut self, at: usize, now: Duration) -> usize
        ensures stay { Stay (all_called self.new.callers.items) (all_called self.old.callers.items) }
        ensures stopping { self.new.stopping ≡ self.old.stopping }
    {
        if self.is_to_go(at, now) && at < self.callers.len() {
            self.callers.remove(at);
            return at;
        }
        at.saturating_add(1)
    }

    /// Lets those go that have their answer, failed, or were silent for too long.
    fn dismiss_ended(&mut self, now: Duration)
        ensures stay { Stay (all_called self.new.callers.items) (all_called self.old.callers.items) }
        ensures stopping { self.new.stopping ≡ self.old.stopping }
    {
        let mut at = 0;
        for _ in 0..self.callers.len() {
            at = self.dismiss_if(at, now);
        }
    }

    /// Where another waits and there is no room, the one goes that has been silent longest without an order,
    /// if one has for a second.
    fn give_room(&mut self, now: Duration)
        ensures stay { Stay (all_called self.new.callers.items) (all_called self.old.callers.items) }
        ensures stopping { self.new.stopping ≡ self.old.stopping }
    {
        if !self.knocks || self.callers.len() < MOST {
            return;
        }
        if let Some(at) = oldest_silent(&self.callers, now) {
            if at < self.callers.len() {
                self.callers.remove(at);
            }
        }
    }

    /// Lets those go that are to go, and one for another that waits.
    fn dismiss_all(&mut self, now: Duration)
        ensures stay { Stay (all_called self.new.callers.items) (all_called self.old.callers.items) }
        ensures stopping { self.new.stopping ≡ self.old.stopping }
    {
        self.dismiss_ended(now);
        self.give_room(now);
    }

    /// One round: takes those who came, carries out the order of each whose line got whole, answers, and lets
    /// go. Who asks the server to stop is heard though it goes.
    pub fn attend<K: Keeper>(
        &mut self,
        alloc: Global,
        registry: &Registry,
        service: &mut Service<K>,
        now: Duration,
    )
        ensures honest { K.is_honest service.new → K.is_honest service.old }
        ensures attends { K.is_honest service.new
            → AttendsRound (all_called self.old.callers.items) (all_called self.new.callers.items)
            (K.kept service.old) (K.kept service.new) }
        ensures stops { K.is_honest service.new
            → NotesStop (all_called self.old.callers.items) (all_called self.new.callers.items)
            self.old.stopping self.new.stopping (K.kept service.old) (K.kept service.new) }
    {
        self.accept_all(alloc, registry, now);
        attend_each(&mut self.callers, alloc, service, now);
        self.note_stop();
        self.dismiss_all(now);
    }

    /// Everybody goes, with what can be told at once. Who asked the server to stop is kept, and nothing is
    /// done for it any more.
    pub fn leave(&mut self, now: Duration)
        ensures none { self.new.callers.items ≡ [] }
        ensures stopping { self.new.stopping ≡ self.old.stopping }
    {
        while let Some(caller) = self.callers.pop() {
            let mut caller = caller;
            caller.tell(now);
            if caller.stops {
                let _ = self.asked.push(caller);
            }
        }
    }
}
