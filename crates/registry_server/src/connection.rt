ghost use Rattle.std.specs.Prelude.{◌≡◌, ◌<◌, ◌≤◌, ◌-◌, ◌==◌, false, length, take, get_or, None, IfSome, IfNone, All};
ghost use Rattle.registry_server.specs.Open.{LastAt, StirredAt, conversation_of};
ghost use Rattle.registry_server.specs.Slots.{slots_of, IsMoved};
ghost use Rattle.registry_server.specs.declared.connection.Connection.{Connection};
ghost use Rattle.oci_types.specs.Text.{Text};

use crate::life::Life;
use crate::sums::Sums;
use crate::turn::Turn;
use crate::waiting::Waiting;
use crate::{FieldRoom, Receiver, Step};
use registry_holding::Holder;
use registry_model::Settings;
use registry_service::Service;
use std::alloc::Global;

/// An open connection.
pub struct Connection {
    pub number: u64,
    /// Elsewhere, so that what stands in a row of connections is small.
    pub conversation: Box<Receiver>,
    /// Nothing is to go out on it, and something came for it that it was not asked about yet, or its last
    /// reply has gone out.
    pub stirred: bool,
    pub life: Life,
}

impl Drop for Connection {
    fn drop(self) {
        let Connection {
            number: _,
            conversation: _,
            stirred: _,
            life: _,
        } = self;
    }
}

impl Connection {
    ghost use Rattle.registry_conversation.specs.Shown.{coming_len};
    ghost use Rattle.registry_server.specs.Open.{Becomes, Hears, Finishes, Sends, hears, sends, goes_on};
    ghost use Rattle.registry_server.specs.Slots.{slot_of};
    ghost use Rattle.registry_server.specs.Held.{with_other};
    ghost use Rattle.registry_server.specs.Lives.{alive_at, moved_by, sent_by};
    ghost use Rattle.registry_conversation.specs.Receiving.{ActsOn, Lies, TellsApart};

    /// These bytes came on it.
    pub fn receive(&mut self, bytes: &[u8], time: u64, sums: &mut Sums)
        ensures becomes { Becomes (Hears bytes.now) (hears (slot_of self.old)) (slot_of self.old)
            (slot_of self.new) }
        ensures lives { self.new.life ≡ moved_by (length bytes.now) time self.old.life }
        ensures sums { sums.new ≡ with_other (slot_of self.old).conversation
            (slot_of self.new).conversation sums.old }
    {
        let heard = self.conversation.listens() && self.conversation.outgoing().is_empty();
        sums.take(&self.conversation);
        self.conversation.receive(bytes);
        sums.add(&self.conversation);
        self.stirred = heard || self.stirred;
        self.life = self.life.moved(bytes.len(), time);
    }

    /// Its input has ended.
    pub fn finish(&mut self)
        ensures becomes { Becomes Finishes (hears (slot_of self.old)) (slot_of self.old) (slot_of self.new) }
        ensures lives { self.new.life ≡ self.old.life }
    {
        let heard = self.conversation.listens() && self.conversation.outgoing().is_empty();
        self.conversation.finish();
        self.stirred = heard || self.stirred;
    }

    /// So many of its bytes that were to go out went.
    pub fn sent(&mut self, count: usize, time: u64, sums: &mut Sums)
        requires { count ≤ length (slot_of self.old).conversation.going }
        ensures becomes { Becomes (Sends count) (sends count (slot_of self.old)) (slot_of self.old)
            (slot_of self.new) }
        ensures lives { self.new.life
            ≡ sent_by count (length (slot_of self.new).conversation.going == 0) time self.old.life }
        ensures sums { sums.new ≡ with_other (slot_of self.old).conversation
            (slot_of self.new).conversation sums.old }
    {
        sums.take(&self.conversation);
        self.conversation.sent(count);
        sums.add(&self.conversation);
        let whole = self.conversation.outgoing().is_empty();
        self.stirred = whole || self.stirred;
        self.life = self.life.sent(count, whole, time);
    }

    /// So many bytes moved that it is not told of.
    pub fn note_moved(&mut self, count: usize, time: u64)
        ensures same { slot_of self.new ≡ slot_of self.old }
        ensures lives { self.new.life ≡ moved_by count time self.old.life }
    {
        self.life = self.life.moved(count, time);
    }

    /// Its silence begins anew.
    pub fn excuse(&mut self, time: u64)
        ensures same { slot_of self.new ≡ slot_of self.old }
        ensures lives { self.new.life ≡ alive_at time }
    {
        self.life = Life::at(time);
    }

    /// Gives back the room that holds nothing.
    pub fn give_back(&mut self, alloc: Global)
        ensures same { slot_of self.new ≡ slot_of self.old }
        ensures lives { self.new.life ≡ self.old.life }
    {
        self.conversation.give_back(alloc);
    }

    /// Behind a turn that came to this.
    fn settle(&mut self, step: Step)
        ensures settles { slot_of self.new ≡ record {
          number = self.old.number;
          conversation = (slot_of self.old).conversation;
          stirred = goes_on step (slot_of self.old).conversation;
        } }
        ensures lives { self.new.life ≡ self.old.life }
    {
        let goes_on = matches!(step, Step::Answered | Step::Interim);
        self.stirred = goes_on && self.conversation.outgoing().is_empty();
    }

    /// It takes a turn. Where it answered a request, or has told its client to go on with the body, it is
    /// to be looked at again once nothing is to go out.
    pub fn answer_next<K: Holder>(
        &mut self,
        alloc: Global,
        service: &mut Service<K>,
        settings: Settings,
        fields: &mut FieldRoom,
        sums: &mut Sums,
        waiting: &mut Waiting,
    ) -> Turn
        ensures honest { K.is_honest service.new → K.is_honest service.old }
        ensures number { result.number ≡ self.old.number }
        ensures acts { Becomes (λ c c'. K.is_honest service.new
            → ActsOn settings result.step self.old.number c (K.kept service.old) c' (K.kept service.new))
            (goes_on result.step (slot_of self.new).conversation) (slot_of self.old) (slot_of self.new) }
        ensures fewer { coming_len (slot_of self.new).conversation
            ≤ coming_len (slot_of self.old).conversation }
        ensures lives { self.new.life ≡ self.old.life }
        ensures sums { sums.new ≡ with_other (slot_of self.old).conversation
            (slot_of self.new).conversation sums.old }
        ensures tells { K.is_honest service.new → (apart : Text)
            → Lies self.old.number (K.kept service.old) (slot_of self.old).conversation apart
            → TellsApart settings result.step self.old.number apart (slot_of self.old).conversation
            (K.kept service.old) (slot_of self.new).conversation (K.kept service.new) result.report }
    {
        let had_stage = self.conversation.has_stage();
        let may_stage = waiting.may_take(self.number);
        sums.take(&self.conversation);
        let step = self
            .conversation
            .answer_next(alloc, service, self.number, settings, fields, may_stage);
        sums.add(&self.conversation);
        let let_go = had_stage && !self.conversation.has_stage();
        waiting.note_turn(self.number, self.conversation.waits_for_room(), let_go);
        let report = self.conversation.take_report();
        self.settle(step);
        Turn {
            number: self.number,
            step,
            report,
        }
    }
}

/// Where the last connection of this number stands. It looks from the back, where those stand that had their
/// turns last.
pub(crate) fn find(connections: &[Connection], number: u64) -> Option<usize>
    ensures found { IfSome result (λ at. LastAt number at (slots_of connections.now)) }
    ensures none { IfNone result (conversation_of number (slots_of connections.now) ≡ None) }
{
    for i in (0..connections.len()).rev() {
        if connections[i].number == number {
            return Some(i);
        }
    }
    None
}

/// Where the first connection stands that is to be looked at; so many from the front are not.
pub(crate) fn find_stirred(connections: &[Connection], resting: usize) -> Option<usize>
    requires { All (λ s. s.stirred ≡ false) (take resting (slots_of connections.now)) }
    ensures found { IfSome result (λ at. StirredAt at (slots_of connections.now)) }
    ensures none { IfNone result (All (λ s. s.stirred ≡ false) (slots_of connections.now)) }
{
    for i in resting..connections.len() {
        if connections[i].stirred {
            return Some(i);
        }
    }
    None
}

/// Where the first connection stands that has been silent for so long.
pub fn find_silent(connections: &[Connection], time: u64, limit: u64) -> Option<usize>
    ensures found { IfSome result (λ at. (at < length connections.now)
        × (c : Connection) × (c ≡ get_or connections.now at c) × (limit ≤ time - c.life.since)) }
    ensures none { IfNone result (All (λ c. time - c.life.since < limit) connections.now) }
{
    for (i, connection) in connections.iter().enumerate() {
        if time.saturating_sub(connection.life.since) >= limit {
            return Some(i);
        }
    }
    None
}

/// The earliest last sign of life of all of them, or `time`, where that is earlier.
pub(crate) fn oldest(connections: &[Connection], time: u64) -> u64
    ensures past { result ≤ time }
    ensures each { All (λ c. result ≤ c.life.since) connections.now }
{
    let mut oldest = time;
    for connection in connections.iter() {
        oldest = oldest.min(connection.life.since);
    }
    oldest
}

/// The same, or an earlier time, where one is gone: it gave its last sign of life at `gone`, and with it no
/// life was earlier than `before`. It walks over them only where the one that is gone was the earliest.
pub(crate) fn oldest_without(connections: &[Connection], gone: u64, before: u64, time: u64) -> u64
    requires past { before ≤ time }
    requires each { All (λ c. before ≤ c.life.since) connections.now }
    ensures past { result ≤ time }
    ensures each { All (λ c. result ≤ c.life.since) connections.now }
{
    if gone == before {
        oldest(connections, time)
    } else {
        before
    }
}

/// Puts a connection behind all others.
pub fn to_back(connections: &mut [Connection], at: usize)
    requires { at < length connections.old }
    ensures { IsMoved at connections.old connections.new }
{
    connections[at..].rotate_left(1);
}
