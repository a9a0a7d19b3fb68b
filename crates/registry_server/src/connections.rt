ghost use Rattle.std.specs.Prelude.{◌≡◌, true, false, ◌<◌, ◌≤◌, ◌^◌, ◌⊎◌, ◌↔◌, length, option_map, if◌then◌else◌, ◌==◌, Some, None, All, IsTrue, IfOk, IfErr, IfSome, IfNone};
ghost use Rattle.registry_server.specs.Open.{are_numbered};
ghost use Rattle.registry_server.specs.Room.{IsWithin};
ghost use Rattle.registry_server.specs.Held.{IsKept};
ghost use Rattle.registry_server.specs.Slots.{slot_of, slots_of};

use crate::bounds::Bounds;
use crate::connection::{Connection, find, find_stirred, oldest_without, to_back};
use crate::life::Life;
use crate::receipt::Receipt;
use crate::refusal::Refusal;
use crate::sums::Sums;
use crate::turn::Turn;
use crate::waiting::Waiting;
use crate::{Exchange, FieldRoom, Receiver, Wants};
use registry_holding::Holder;
use registry_model::Settings;
use registry_outbox::Outgoing;
use registry_service::Service;
use std::alloc::{AllocError, Global};

/// The conversations of many connections, each under a number of its own.
///
/// It reads nothing and writes nothing itself, and it takes no turn but when it is asked to. A call for a
/// number that is not open does nothing, and says so.
pub struct Connections {
    /// In the order in which they take their turns.
    pub(crate) connections: Vec<Connection>,
    /// The number of the connection that comes next.
    next: u64,
    /// How many may be open at once, and how much they may hold.
    pub(crate) bounds: Bounds,
    settings: Settings,
    /// The time that was handed in last, in milliseconds.
    pub(crate) time: u64,
    /// What all of them find header fields in, one turn after the other.
    fields: FieldRoom,
    /// What they hold together.
    pub(crate) sums: Sums,
    /// So many of them from the front are not to be looked at.
    resting: usize,
    /// None of them gave its last sign of life before this time.
    pub(crate) oldest: u64,
    /// When that was last looked up in all of them.
    pub(crate) looked: u64,
    /// The numbers of those that are gone, of which something may still be staged.
    pub(crate) gone: Vec<u64>,
    /// Those that wait for room to stage a body.
    pub(crate) waiting: Waiting,
    ghost numbered: { are_numbered next (slots_of connections.items) ≡ true },
    ghost within: { IsWithin bounds (slots_of connections.items) },
    ghost fits: { bounds.coming < 2 ^ 64 },
    ghost kept: { IsKept sums resting oldest time connections.items },
}

impl Drop for Connections {
    fn drop(self) {
        let Connections {
            connections: _,
            next: _,
            bounds: _,
            settings: _,
            time: _,
            fields: _,
            sums: _,
            resting: _,
            oldest: _,
            looked: _,
            gone: _,
            waiting: _,
        } = self;
    }
}

impl Connections {
    ghost use Rattle.registry_conversation.specs.Shown.{coming_len, wants_of};
    ghost use Rattle.registry_conversation.specs.Receiving.{ActsOn};
    ghost use Rattle.registry_outbox.specs.Outboxes.{outgoing_text};
    ghost use Rattle.registry_server.specs.Open.{none, FoundAt, conversation_of, outgoing_of, held_of, Opens, Refuses, Changes, Closes, TakesTurn, IfOpen, IfResting, with_slots, hears, sends, Finishes, Sends};
    ghost use Rattle.registry_server.specs.Room.{going_sum, IsReceived};
    ghost use Rattle.registry_server.specs.Events.{Leads, Carries};
    ghost use Rattle.registry_server.specs.Showing.{connected};
    ghost use Rattle.registry_server.specs.Lives.{alive_at, sent_by, life_of};
    ghost use Rattle.registry_server.specs.Lives.{LivesBut, LivesOn, LivesThrough};
    ghost use Rattle.registry_server.specs.TurnTelling.{TellsTurn};

    /// No connection; they may take so much together, and these are the settings of all. The time is 0. It
    /// fails only for want of memory.
    pub fn new(alloc: Global, settings: Settings, bounds: Bounds) -> Result<Connections, AllocError>
        ensures none { IfOk result (λ connections. connected connections ≡ none settings bounds) }
        ensures time { IfOk result (λ connections. connections.time ≡ 0) }
    {
        let fields = FieldRoom::new(alloc)?;
        Ok(Connections {
            connections: Vec::new(alloc),
            next: 0,
            bounds,
            settings,
            time: 0,
            fields,
            sums: Sums { over: 0, going: 0 },
            resting: 0,
            oldest: 0,
            looked: 0,
            gone: Vec::new(alloc),
            waiting: Waiting::new(alloc),
        })
    }

    /// A connection came. Answers its number, which no connection had before. Where it is refused nothing
    /// has changed. That it came is a sign of life.
    pub fn open(&mut self, alloc: Global) -> Result<u64, Refusal>
        ensures opens { IfOk result (λ number. Opens number (connected self.old) (connected self.new)) }
        ensures begins { IfOk result (λ number.
            LivesBut number (Some (alive_at self.old.time)) self.old self.new) }
        ensures refuses { IfErr result (λ refusal. Refuses refusal (connected self.old)
            × (connected self.new ≡ connected self.old)) }
        ensures lives { IfErr result (λ refusal. LivesOn self.old self.new) }
        ensures leads { Carries (connected self.old) (connected self.new) }
    {
        if self.connections.len() >= self.bounds.at_once {
            return Err(Refusal::Full);
        }
        if self.next == u64::MAX {
            return Err(Refusal::NoNumber);
        }
        let Ok(conversation) = Box::new(alloc, Receiver::new(alloc)) else {
            return Err(Refusal::Memory);
        };
        let Ok(()) = self.gone.reserve(self.connections.len() + 1) else {
            return Err(Refusal::Memory);
        };
        let Ok(()) = self.waiting.reserve(self.connections.len() + 1) else {
            return Err(Refusal::Memory);
        };
        let number = self.next;
        let connection = Connection {
            number,
            conversation,
            stirred: false,
            life: Life::at(self.time),
        };
        let Ok(()) = self.connections.push(connection) else {
            return Err(Refusal::Memory);
        };
        self.next = number + 1;
        Ok(number)
    }

    /// Where the connection of this number stands.
    pub(crate) fn place_of(&self, number: u64) -> Option<usize>
        ensures found { IfSome result (λ at. FoundAt number at (connected self.now).slots) }
        ensures none { IfNone result (conversation_of number (connected self.now).slots ≡ None) }
    {
        find(&self.connections, number)
    }

    /// The connection of this number.
    pub(crate) fn under(&self, number: u64) -> Option<&Connection>
        ensures shown { option_map (λ c. (slot_of c.now).conversation) result
            ≡ conversation_of number (connected self.now).slots }
        ensures life { option_map (λ c. c.now.life) result ≡ life_of number self.now }
    {
        let at = self.place_of(number)?;
        Some(&self.connections[at])
    }

    /// These bytes came on a connection, as `Receiver::receive` takes them, if there is room for them:
    /// they are no more than `room` says. Where they are not taken nothing has changed.
    pub fn receive(&mut self, number: u64, bytes: &[u8]) -> Receipt
        ensures receives { IsReceived result number bytes.now (connected self.old) (connected self.new) }
        ensures lives { LivesThrough result number bytes.now self.old self.new }
        ensures leads { Carries (connected self.old) (connected self.new) }
    {
        let room = self.room(number);
        match self.place_of(number) {
            Some(at) => {
                if bytes.len() > room {
                    return Receipt::NoRoom;
                }
                self.connections[at].receive(bytes, self.time, &mut self.sums);
                self.resting = self.resting.min(at);
                Receipt::Taken
            }
            None => Receipt::NotOpen,
        }
    }

    /// A connection's input has ended. Says whether it is open.
    pub fn finish(&mut self, number: u64) -> bool
        ensures finishes { IfOpen result number (Changes number Finishes hears)
            (connected self.old) (connected self.new) }
        ensures lives { LivesOn self.old self.new }
        ensures leads { Carries (connected self.old) (connected self.new) }
    {
        match self.place_of(number) {
            Some(at) => {
                self.connections[at].finish();
                self.resting = self.resting.min(at);
                true
            }
            None => false,
        }
    }

    /// The bytes that are to go out on a connection; none where it is not open.
    pub fn outgoing(&self, number: u64) -> Outgoing<'_>
        ensures { outgoing_text result ≡ outgoing_of number (connected self.now).slots }
    {
        match self.under(number) {
            Some(connection) => connection.conversation.outgoing(),
            None => Outgoing {
                head: &[],
                body: &[],
            },
        }
    }

    /// So many of the bytes that were to go out on a connection went. Says whether it is open. The last byte
    /// of a reply is a sign of life.
    pub fn sent(&mut self, number: u64, count: usize) -> bool
        requires { count ≤ length (outgoing_of number (connected self.old).slots) }
        ensures sends { IfOpen result number (Changes number (Sends count) (sends count))
            (connected self.old) (connected self.new) }
        ensures lives { LivesBut number (option_map
            (sent_by count (length (outgoing_of number (connected self.new).slots) == 0) self.old.time)
            (life_of number self.old)) self.old self.new }
        ensures leads { Carries (connected self.old) (connected self.new) }
    {
        match self.place_of(number) {
            Some(at) => {
                self.connections[at].sent(count, self.time, &mut self.sums);
                self.resting = self.resting.min(at);
                true
            }
            None => false,
        }
    }

    /// What a connection waits for, once it has no turn to take; `None` where it is not open.
    pub fn wants(&self, number: u64) -> Option<Wants>
        ensures { result ≡ option_map wants_of (conversation_of number (connected self.now).slots) }
    {
        match self.under(number) {
            Some(connection) => Some(connection.conversation.wants()),
            None => None,
        }
    }

    /// The request in hand on a connection, or else the one that was answered last, as a log tells it; none
    /// where it is not open. No contract speaks of it.
    pub fn exchange(&self, number: u64) -> Option<&Exchange> {
        match self.under(number) {
            Some(connection) => Some(connection.conversation.exchange()),
            None => None,
        }
    }

    /// How many bytes a connection holds, as `Receiver::held` has it; 0 where it is not open.
    pub fn held(&self, number: u64) -> usize
        ensures { result ≡ held_of number (connected self.now).slots }
    {
        match self.under(number) {
            Some(connection) => connection.conversation.held(),
            None => 0,
        }
    }

    /// Gives back the room of a connection that holds nothing, as `Receiver::give_back` does.
    pub fn give_back(&mut self, alloc: Global, number: u64)
        ensures same { connected self.new ≡ connected self.old }
        ensures lives { LivesOn self.old self.new }
    {
        if let Some(at) = self.place_of(number) {
            self.connections[at].give_back(alloc);
        }
    }

    /// A connection is gone: what was held of it is let go, and nothing of it is answered any more. What is
    /// staged of its body in hand is let go by `let_go`. Says whether it was open.
    pub fn close(&mut self, number: u64) -> bool
        ensures closes { IfOpen result number (Closes number) (connected self.old) (connected self.new) }
        ensures lives { LivesBut number None self.old self.new }
        ensures leads { Carries (connected self.old) (connected self.new) }
    {
        match self.place_of(number) {
            Some(at) => {
                let gone = self.connections.remove(at);
                // (there is room for it since it came)
                let _ = self.gone.push(number);
                self.waiting.remove(number);
                self.sums.take(&gone.conversation);
                self.resting = self.resting.saturating_sub(1);
                self.oldest = oldest_without(
                    &self.connections,
                    gone.life.since,
                    self.oldest,
                    self.time,
                );
                true
            }
            None => false,
        }
    }

    /// Closes a connection that rests, so that another one may come in its place: nothing came on it that is
    /// not answered, and nothing is to go out. Says whether it was closed. Where it holds anything, or is not
    /// open, nothing has changed.
    pub fn close_resting(&mut self, number: u64) -> bool
        ensures closes { IfResting result number (connected self.old) (connected self.new) }
        ensures lives { LivesBut number (if result then None else life_of number self.old)
            self.old self.new }
        ensures leads { Carries (connected self.old) (connected self.new) }
    {
        match self.under(number) {
            Some(connection) => {
                if connection.conversation.held() > 0 {
                    return false;
                }
                self.close(number)
            }
            None => false,
        }
    }

    /// Whether there is room for a reply: those that wait to go out have fewer bytes than are the bound.
    pub fn has_room_for_reply(&self) -> bool
        ensures { IsTrue result ↔ (going_sum (connected self.now).slots < (connected self.now).bounds.going) }
    {
        self.sums.going < self.bounds.going as u128
    }

    /// One connection takes one turn, as `Receiver::answer_next` does: the first that is to be looked
    /// at, which goes behind all others. None takes one where nothing came for any that it has not
    /// answered yet, nor where the replies that wait to go out are as many bytes as may.
    ///
    /// A connection that waited for more bytes is not looked at again before something comes for it, and one
    /// that answered not before its reply has gone out: so none holds more than one reply. What is told of a
    /// turn is told of the request that it answered or refused, and of no other.
    pub fn turn<K: Holder>(&mut self, alloc: Global, service: &mut Service<K>) -> Option<Turn>
        ensures honest { K.is_honest service.new → K.is_honest service.old }
        ensures takes { IfSome result (λ turn. TakesTurn turn.number turn.step
            (λ c c'. (K.is_honest service.new
            → ActsOn (connected self.old).settings turn.step turn.number c (K.kept service.old)
            c' (K.kept service.new))
            × (coming_len c' ≤ coming_len c))
            (connected self.old).slots (connected self.new).slots
            × (connected self.new ≡ with_slots (connected self.old) (connected self.new).slots)
            × (going_sum (connected self.old).slots < (connected self.old).bounds.going)) }
        ensures idle { IfNone result ((connected self.new ≡ connected self.old) × (service.new ≡ service.old)
            × (All (λ s. s.stirred ≡ false) (connected self.old).slots
            ⊎ ((connected self.old).bounds.going ≤ going_sum (connected self.old).slots))) }
        ensures tells { K.is_honest service.new → IfSome result (λ turn.
            TellsTurn turn.number turn.step turn.report (connected self.old) (K.kept service.old)
            (connected self.new) (K.kept service.new)) }
        ensures lives { LivesOn self.old self.new }
        ensures leads { K.is_honest service.new → Leads (connected self.old) (K.kept service.old)
            (connected self.new) (K.kept service.new) }
    {
        if !self.has_room_for_reply() {
            return None;
        }
        let Some(at) = find_stirred(&self.connections, self.resting) else {
            self.resting = self.connections.len();
            return None;
        };
        let turn = self.connections[at].answer_next(
            alloc,
            service,
            self.settings,
            &mut self.fields,
            &mut self.sums,
            &mut self.waiting,
        );
        to_back(&mut self.connections, at);
        self.resting = at;
        Some(turn)
    }
}
