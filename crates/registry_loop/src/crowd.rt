//! Many sockets by readiness, in one thread.
ghost use Rattle.std.specs.Prelude.{◌≡◌, [], true, false, IfOk, OnOk, OnErr};
ghost use Rattle.registry_server.specs.Events.{Carries, Leads};
ghost use Rattle.registry_server.specs.Showing.{connected};
ghost use Rattle.registry_server.specs.Lives.{NoneSilent};
ghost use Rattle.order_sockets.specs.Calls.{all_called};
ghost use Rattle.order_sockets.specs.Calling.{AttendsRound};
ghost use Rattle.registry_loop.specs.Together.{bounds_of, most_silence, Round, GoesRounds};

use crate::gathering::Gathering;
use order_sockets::Callers;
use registry_holding::Holder;
use registry_model::{Keeper, Settings};
use registry_orders::Limits;
use registry_server::{Bounds, Connections};
use registry_service::Service;
use registry_sockets::{Doors, EVENTS, Sockets};
use request_log::Log;
use std::alloc::Global;
use std::io;
use std::io::Write;
use std::time::{Clock, Duration};

/// For how many milliseconds requests are answered before sockets are looked at again; one is in any case.
const MOST_WORK: u64 = 50;

/// Work that took so many seconds is nobody's silence.
const LONG_WORK: u64 = 1;

/// A listener, and the sockets that were taken there; and those who give orders.
#[derive(Drop)]
pub struct Crowd<'a, T: Clock, E: Write> {
    pub(crate) clock: &'a T,
    pub(crate) log: Log<'a, E>,
    limits: Limits,
    pub(crate) sockets: Sockets,
    callers: Callers,
}

/// Half of the buffer is for requests, and half for replies.
fn bounds_for(at_once: usize, buffer: u64) -> Bounds
    ensures { result ≡ bounds_of at_once buffer }
{
    let half = (buffer / 2) as usize;
    Bounds {
        at_once,
        coming: half,
        going: half,
    }
}

/// Says what was done for no request: replies that were cut off, and that descriptors are wanting.
fn say_others<T: Clock, E: Write>(
    alloc: Global,
    clock: &T,
    log: &mut Log<'_, E>,
    sockets: &mut Sockets,
) {
    let now = sockets.now;
    if sockets.is_short {
        sockets.is_short = false;
        log.say_short(alloc, clock, now, sockets.peers.len());
    }
    for cut in sockets.cuts.iter() {
        log.say_cut(alloc, clock, now, cut);
    }
    sockets.cuts.clear();
    log.note_second(alloc, clock, now);
}

impl<'a, T: Clock, E: Write> Crowd<'a, T, E> {
    /// Nobody, and nobody can come yet; in the end so many connections. An error is that of the system, or
    /// want of memory.
    pub fn new(
        alloc: Global,
        net: &HostRuntime,
        clock: &'a T,
        log: Log<'a, E>,
        limits: Limits,
        connections: u64,
    ) -> io::Result<Crowd<'a, T, E>>
        ensures limits { IfOk result (λ crowd. crowd.limits ≡ limits) }
        ensures callers { IfOk result (λ crowd. all_called crowd.callers.callers.items ≡ []) }
    {
        let sockets = Sockets::new(alloc, net, connections)?;
        let callers = Callers::new(alloc, sockets.poll.registry(), None)?;
        Ok(Crowd {
            clock,
            log,
            limits,
            sockets,
            callers,
        })
    }

    /// Notes when it is.
    fn look_at_clock(&mut self, connections: &mut Connections)
        ensures same { connected connections.new ≡ connected connections.old }
        ensures limits { self.new.limits ≡ self.old.limits }
        ensures callers { all_called self.new.callers.callers.items
            ≡ all_called self.old.callers.callers.items }
    {
        if let Ok(now) = self.clock.monotonic() {
            self.sockets.now = now;
        }
        connections.tick(self.sockets.millis());
    }

    /// The server has worked since a moment of the clock, and heard nobody meanwhile. Where that was for
    /// long it is nobody's silence.
    fn note_work(&mut self, connections: &mut Connections, began: Duration)
        ensures same { connected connections.new ≡ connected connections.old }
        ensures limits { self.new.limits ≡ self.old.limits }
        ensures callers { all_called self.new.callers.callers.items
            ≡ all_called self.old.callers.callers.items }
    {
        self.look_at_clock(connections);
        if self.sockets.now.saturating_sub(began) >= Duration::from_secs(LONG_WORK) {
            self.sockets.excuse_all(connections);
        }
    }

    /// Has one request answered, if there is room for a reply; says whether there may be another.
    fn answer_one<K: Holder>(
        &mut self,
        alloc: Global,
        connections: &mut Connections,
        service: &mut Service<K>,
    ) -> bool
        ensures honest { K.is_honest service.new → K.is_honest service.old }
        ensures leads { K.is_honest service.new → Leads
            (connected connections.old) (K.kept service.old)
            (connected connections.new) (K.kept service.new) }
        ensures limits { self.new.limits ≡ self.old.limits }
        ensures callers { all_called self.new.callers.callers.items
            ≡ all_called self.old.callers.callers.items }
    {
        if service.spent() {
            return false;
        }
        let began = self.sockets.now;
        match connections.turn(alloc, service) {
            Some(turn) => {
                self.note_work(connections, began);
                let took = self.sockets.now.saturating_sub(began);
                let now = self.sockets.now;
                self.log
                    .say_turn(alloc, self.clock, connections, &turn, took, now);
                self.sockets.tell_of(connections, &turn);
                true
            }
            None => {
                // Where there is no room for a reply, some may wait for their turn.
                self.sockets.pending = !connections.has_room_for_reply();
                false
            }
        }
    }

    /// Lets go what is staged of connections that are gone, looks after those that wait for that room, and
    /// has requests answered, as long as there is room for replies, and others need not wait for long.
    fn answer_all<K: Holder>(
        &mut self,
        alloc: Global,
        connections: &mut Connections,
        service: &mut Service<K>,
    )
        ensures honest { K.is_honest service.new → K.is_honest service.old }
        ensures leads { K.is_honest service.new → Leads
            (connected connections.old) (K.kept service.old)
            (connected connections.new) (K.kept service.new) }
        ensures limits { self.new.limits ≡ self.old.limits }
        ensures callers { all_called self.new.callers.callers.items
            ≡ all_called self.old.callers.callers.items }
    {
        connections.let_go(service);
        connections.stir_waiting();
        let began = self.sockets.now;
        for _ in 0..EVENTS {
            let more = self.answer_one(alloc, connections, service);
            let worked = self.sockets.now.saturating_sub(began);
            if !more || worked >= Duration::from_millis(MOST_WORK) {
                return;
            }
        }
    }

    /// Has the orders carried out that are there, between two requests.
    fn take_orders<K: Keeper>(&mut self, alloc: Global, service: &mut Service<K>)
        ensures honest { K.is_honest service.new → K.is_honest service.old }
        ensures attends { K.is_honest service.new
            → AttendsRound (all_called self.old.callers.callers.items)
            (all_called self.new.callers.callers.items) (K.kept service.old) (K.kept service.new) }
        ensures limits { self.new.limits ≡ self.old.limits }
    {
        let now = self.sockets.now;
        let registry = self.sockets.poll.registry();
        self.callers.attend(alloc, registry, service, now);
    }

    /// The same; that it took time is nobody's silence.
    fn carry_out<K: Keeper>(
        &mut self,
        alloc: Global,
        connections: &mut Connections,
        service: &mut Service<K>,
    )
        ensures honest { K.is_honest service.new → K.is_honest service.old }
        ensures attends { K.is_honest service.new
            → AttendsRound (all_called self.old.callers.callers.items)
            (all_called self.new.callers.callers.items) (K.kept service.old) (K.kept service.new) }
        ensures same { connected connections.new ≡ connected connections.old }
        ensures limits { self.new.limits ≡ self.old.limits }
    {
        let began = self.sockets.now;
        self.take_orders(alloc, service);
        self.note_work(connections, began);
    }

    /// The beginning of a round: waits, and takes those who came.
    fn begin_round(
        &mut self,
        alloc: Global,
        connections: &mut Connections,
        at_once: usize,
    ) -> io::Result<()>
        ensures leads { Carries (connected connections.old) (connected connections.new) }
        ensures limits { self.new.limits ≡ self.old.limits }
        ensures callers { all_called self.new.callers.callers.items
            ≡ all_called self.old.callers.callers.items }
    {
        let speaks = self.log.has_left_out();
        self.sockets.wait(connections, &mut self.callers, speaks)?;
        self.look_at_clock(connections);
        self.accept_all(alloc, connections, at_once)
    }

    /// The end of a round: begins to stop if that was asked, writes, and lets go. Behind it none is open that
    /// has been silent for as long as may be.
    fn end_round(&mut self, alloc: Global, connections: &mut Connections)
        ensures leads { Carries (connected connections.old) (connected connections.new) }
        ensures none { NoneSilent (most_silence self.old.limits) connections.new }
        ensures limits { self.new.limits ≡ self.old.limits }
        ensures callers { all_called self.new.callers.callers.items
            ≡ all_called self.old.callers.callers.items }
    {
        let limit = self.limits.idle.saturating_mul(1_000);
        let asked = self.callers.is_asked_to_stop();
        self.sockets.end_round(alloc, connections, limit, asked);
        say_others(alloc, self.clock, &mut self.log, &mut self.sockets);
    }

    /// One round: takes those who came, reads, has requests answered and orders carried out, begins to stop
    /// if that was asked, writes, and lets go. Behind it none is open that has been silent for as long as may
    /// be.
    fn serve_round<K: Holder>(
        &mut self,
        alloc: Global,
        connections: &mut Connections,
        service: &mut Service<K>,
        at_once: usize,
    ) -> io::Result<()>
        ensures honest { K.is_honest service.new → K.is_honest service.old }
        ensures round { K.is_honest service.new → OnOk result (Round
            (connected connections.old) (all_called self.old.callers.callers.items) (K.kept service.old)
            (connected connections.new) (all_called self.new.callers.callers.items) (K.kept service.new)) }
        ensures failed { K.is_honest service.new → OnErr result (Leads
            (connected connections.old) (K.kept service.old)
            (connected connections.new) (K.kept service.new)
            × (all_called self.new.callers.callers.items ≡ all_called self.old.callers.callers.items)) }
        ensures limits { self.new.limits ≡ self.old.limits }
        ensures none { OnOk result (NoneSilent (most_silence self.old.limits) connections.new) }
    {
        self.begin_round(alloc, connections, at_once)?;
        self.sockets.hear_all(connections);
        self.answer_all(alloc, connections, service);
        self.carry_out(alloc, connections, service);
        self.end_round(alloc, connections);
        Ok(())
    }

    /// Serves in rounds until all have come and gone; or the service is spent: then everybody goes, and the
    /// answer is `false`.
    fn serve_rounds<K: Holder>(
        &mut self,
        alloc: Global,
        connections: &mut Connections,
        service: &mut Service<K>,
        at_once: usize,
    ) -> io::Result<bool>
        ensures honest { K.is_honest service.new → K.is_honest service.old }
        ensures serves { K.is_honest service.new → GoesRounds
            (connected connections.old) (all_called self.old.callers.callers.items) (K.kept service.old)
            (connected connections.new) (K.kept service.new) }
        ensures none { OnOk result (self.new.callers.callers.items ≡ []) }
        ensures limits { self.new.limits ≡ self.old.limits }
        ensures spent { IfOk result (λ over. over ≡ false → (K.kept service.new).spent ≡ true) }
    {
        for _ in 0..u64::MAX {
            if service.spent() {
                self.sockets.leave(connections);
                self.callers.leave(self.sockets.now);
                return Ok(false);
            }
            if self.sockets.has_ended() {
                self.callers.leave(self.sockets.now);
                return Ok(true);
            }
            self.serve_round(alloc, connections, service, at_once)?;
        }
        self.callers.leave(self.sockets.now);
        Ok(true)
    }
}

impl<'a, T: Clock, E: Write> Gathering for Crowd<'a, T, E> {
    ghost use Rattle.order_sockets.specs.Calls.{all_called};

    ghost buffer = { λ c. c.limits.buffer };

    ghost callers = { λ c. all_called c.callers.callers.items };

    fn open(&mut self, alloc: Global, doors: Doors) -> io::Result<()> {
        self.callers = self.sockets.open(alloc, doors)?;
        Ok(())
    }

    fn introduce(&mut self, line: &str) {
        self.log.introduce(line);
    }

    fn serve_all<K: Holder>(
        &mut self,
        alloc: Global,
        service: &mut Service<K>,
        settings: Settings,
        at_once: usize,
    ) -> io::Result<bool> {
        let mut connections = Connections::new(
            alloc,
            settings,
            bounds_for(at_once, self.limits.buffer),
        )?;
        self.serve_rounds(alloc, &mut connections, service, at_once)
    }
}
