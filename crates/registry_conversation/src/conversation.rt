ghost use Rattle.std.specs.Prelude.{◌≡◌, ◌+◌, ◌<◌, ◌≤◌, [], true, false, length, drop, min, None, MatchResult};
ghost use Rattle.std.specs.Io.KnownBytes.{Consumes};

use crate::exchange::Exchange;
use crate::part::Part;
use crate::phase::{Phase, Step, Wants};
use crate::read_fault::ReadFault;
use registry_http::buffer::{Buffer, LINES};
use registry_http::ending::Stop;
use registry_http::{End, FramingRefusal};
use registry_outbox::outbox::{Outbox, Outgoing};
use registry_outbox::report::Report;
use std::alloc::Global;
use std::io::Read;

/// What has come of one connection and is not answered yet, and what is to go out on it (RFC 9112).
///
/// It reads when it is asked to, and writes nothing itself. However its input is cut, what was taken of a
/// body is not looked at again; a head, the line of a chunk and a trailer are looked for again from their
/// first byte when more has come, and are 16,384, 1,024 and 16,384 bytes at most. The body of a reply goes
/// out as the service made it, and is not copied.
///
/// Where memory for the head of a reply is wanting, the request is answered 503, or 500 by a service that is
/// spent, and nothing has changed: so with heads of at most 4,096 bytes. With a longer one, or where the
/// reply before has not gone out, it ends with `WriteFailed`: of the text in hand exactly the first `written`
/// bytes are to go out, and a request whose reply it was took effect.
#[derive(Drop)]
pub struct Conversation {
    pub(crate) buffer: Buffer,
    pub(crate) phase: Phase,
    /// The input has ended.
    pub(crate) finished: bool,
    pub(crate) outbox: Outbox,
    /// What a log tells of the request in hand.
    pub(crate) exchange: Exchange,
}

impl Conversation {
    ghost use Rattle.registry_conversation.specs.Shown.{begun, with_finished, with_phase, with_going, with_none, listens, wants_of, coming_len, held_len};
    ghost use Rattle.registry_conversation.specs.ConversationShowing.{shown};
    ghost use Rattle.registry_outbox.specs.Outboxes.{outgoing_text};
    ghost use Rattle.registry_outbox.specs.Reports.{TellsRefusal, Reported};
    ghost use Rattle.registry_conversation.specs.Stepping.{Refuses, Receives, Reads};

    /// A conversation to which nothing has come. It takes no memory before something does.
    pub fn new(alloc: Global) -> Conversation
        ensures { shown result ≡ begun }
    {
        Conversation {
            buffer: Buffer::new(alloc),
            phase: Phase::Head,
            finished: false,
            outbox: Outbox::new(alloc),
            exchange: Exchange::new(alloc),
        }
    }

    /// Whether bytes that come are kept: the input goes on, and there may be a further request.
    pub fn listens(&self) -> bool
        ensures { result ≡ listens (shown self.now) }
    {
        match self.phase {
            Phase::Head => !self.finished,
            Phase::Body(_) => !self.finished,
            Phase::Ended(_) => false,
        }
    }

    /// For how many bytes there should be room; where that is not known, for so many.
    fn missing(&self, unknown: usize) -> usize
        requires { 0 < unknown }
        ensures { 0 < result }
    {
        let here = self.buffer.behind().len();
        let whole = match self.phase {
            Phase::Body(Part::Length { size, came }) => size.saturating_sub(came),
            Phase::Body(Part::Data { size, came, .. }) => size.saturating_sub(came),
            _ => 0,
        };
        if here < whole { whole - here } else { unknown }
    }

    /// Ends the conversation.
    pub(crate) fn end(&mut self, end: End) -> Step
        ensures step { result ≡ Step.Ended end }
        ensures report { self.new.outbox.report ≡ self.old.outbox.report }
        ensures ends { shown self.new ≡ with_phase (shown self.old) (Phase.Ended end) }
    {
        self.phase = Phase::Ended(end);
        Step::Ended(end)
    }

    /// Lets go all bytes that came.
    fn let_go(&mut self)
        ensures { shown self.new ≡ with_none (shown self.old) }
    {
        let buffer = &mut self.buffer;
        buffer.forget();
        let rest = buffer.behind().len();
        buffer.skip(rest);
    }

    /// Refuses what has come, and lets it go: no further request is read.
    pub(crate) fn refuse(&mut self, refusal: FramingRefusal) -> Step
        ensures refuses { Refuses result refusal (shown self.old) (shown self.new) }
        ensures tells { Reported self.new.outbox.report (shown self.old).going (shown self.new).going
            (λ r. TellsRefusal r refusal) }
    {
        self.let_go();
        let end = self.outbox.put_refusal(refusal);
        self.end(end)
    }

    /// These bytes came. Bytes behind the end of the input, or on a conversation that has ended, are none of
    /// it. Where memory for them is wanting, it ends with the refusal `NoBufferMemory`.
    pub fn receive(&mut self, bytes: &[u8])
        ensures ignores { listens (shown self.old) ≡ false → shown self.new ≡ shown self.old }
        ensures keeps { listens (shown self.old) ≡ true
            → Receives bytes.now (shown self.old) (shown self.new) }
        ensures sized { coming_len (shown self.new) ≤ coming_len (shown self.old) + length bytes.now }
    {
        if !self.listens() {
            return;
        }
        let none = bytes.is_empty();
        if none {
            return;
        }
        let mut left = bytes;
        // Each read takes a byte, or the last.
        'reads: for _ in 0..bytes.len() {
            let missing = self.missing(left.len().max(1));
            match self.buffer.read_more(&mut left, missing) {
                Ok(()) => {}
                Err(_) => {
                    let _ = self.refuse(FramingRefusal::NoBufferMemory);
                    return;
                }
            }
            let whole = left.is_empty();
            if whole {
                return;
            }
        }
        let _ = self.refuse(FramingRefusal::NoBufferMemory);
    }

    /// Reads some bytes, at least one and at most 1,048,576, which then came; or finds that the input has
    /// ended. They are read to where they are kept. Where memory for them is wanting, it ends with the
    /// refusal `NoBufferMemory`.
    pub fn read_from<R: Read>(&mut self, reader: &mut R) -> Result<(), ReadFault>
        requires { listens (shown self.old) ≡ true }
        ensures cases { MatchResult result
            (λ _. Reads (R.remaining reader.old) (R.remaining reader.new) (shown self.old) (shown self.new))
            (λ _. Consumes (R.remaining reader.old) (R.remaining reader.new) []) }
        ensures sized { coming_len (shown self.new) ≤ coming_len (shown self.old) + 1048576 }
    {
        let missing = self.missing(LINES);
        match self.buffer.read_more(reader, missing) {
            Ok(()) => Ok(()),
            Err(Stop::AtEnd) => {
                self.finish();
                Ok(())
            }
            Err(Stop::Broken) => Err(ReadFault),
            Err(Stop::Refuse(refusal)) => {
                let _ = self.refuse(refusal);
                Ok(())
            }
        }
    }

    /// The input has ended. What has come is answered all the same.
    pub fn finish(&mut self)
        ensures { shown self.new ≡ with_finished (shown self.old) }
    {
        self.finished = true;
    }

    /// The bytes that are to go out.
    pub fn outgoing(&self) -> Outgoing<'_>
        ensures { outgoing_text result ≡ (shown self.now).going }
    {
        self.outbox.outgoing()
    }

    /// So many of the bytes that were to go out went.
    pub fn sent(&mut self, count: usize)
        requires { count ≤ length (shown self.old).going }
        ensures { shown self.new ≡ with_going (shown self.old) (drop count (shown self.old).going) }
    {
        self.outbox.sent(count);
    }

    /// What it waits for, once a turn came to nothing more.
    pub fn wants(&self) -> Wants
        ensures { result ≡ wants_of (shown self.now) }
    {
        if !self.outgoing().is_empty() {
            return Wants::Room;
        }
        match self.phase {
            Phase::Head => Wants::Bytes,
            Phase::Body(_) => Wants::Bytes,
            Phase::Ended(_) => Wants::Nothing,
        }
    }

    /// What was answered or refused in the last turn, or was refused since for want of memory; none where
    /// that was asked before.
    pub fn take_report(&mut self) -> Option<Report>
        ensures report { result ≡ self.old.outbox.report }
        ensures none { self.new.outbox.report ≡ None }
        ensures same { shown self.new ≡ shown self.old }
    {
        self.outbox.take_report()
    }

    /// The request in hand, or else the one that was answered last, as a log tells it.
    pub fn exchange(&self) -> &Exchange {
        &self.exchange
    }

    /// How many bytes it holds that came and are not answered.
    pub fn coming(&self) -> usize
        ensures { result ≡ coming_len (shown self.now) }
    {
        self.buffer.before().len() + self.buffer.behind().len()
    }

    /// The same, and those that are to go out; more than 18,446,744,073,709,551,615 count as so many.
    pub fn held(&self) -> usize
        ensures { result ≡ min (held_len (shown self.now)) usize.MAX }
    {
        self.coming().saturating_add(self.outgoing().len())
    }

    /// Gives back room for bytes that come, where none are held, and for heads of replies, where none is to
    /// go out; it is made anew as it is wanted.
    pub fn give_back(&mut self, alloc: Global)
        ensures { shown self.new ≡ shown self.old }
    {
        self.outbox.give_back(alloc);
        if self.coming() == 0 {
            self.buffer = Buffer::new(alloc);
        }
    }
}
