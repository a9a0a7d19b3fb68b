//! A connection that keeps no large body itself.

ghost use Rattle.std.specs.Prelude.{◌≡◌, ◌+◌, ◌≤◌, true, false, length, drop, min, None};

use crate::body_place::BodyPlace;
use crate::phase::Wants;
use crate::{Conversation, Exchange};
use registry_outbox::Outgoing;
use registry_outbox::report::Report;
use std::alloc::Global;

/// A conversation that keeps no large body itself: what comes of one is staged by a service.
///
/// It is a conversation as every other, but for where the bytes of the body in hand lie. Once more than
/// 49,152 bytes of its request were taken, a body that is pushed to an upload is staged (OCI Distribution
/// Specification 1.1, Pushing blobs); one on whose bytes no answer depends is counted and let fall; a
/// manifest stays. Where there is no room for a stage the connection waits, and is not to be read. Where
/// memory for it is wanting the body is let fall: its request is answered 503, or as it is without the bytes.
#[derive(Drop)]
pub struct Receiver {
    pub(crate) conversation: Conversation,
    pub(crate) place: BodyPlace,
    /// The body in hand waits for room to be staged.
    pub(crate) waits: bool,
}

impl Receiver {
    ghost use Rattle.registry_conversation.specs.Shown.{begun, with_finished, with_going, listens, wants_of, coming_len, held_len};
    ghost use Rattle.registry_conversation.specs.Stepping.{Receives};
    ghost use Rattle.registry_conversation.specs.Receiving.{received};
    ghost use Rattle.registry_outbox.specs.Outboxes.{outgoing_text};

    /// A connection to which nothing has come. It takes no memory before something does.
    pub fn new(alloc: Global) -> Receiver
        ensures { received result ≡ begun }
    {
        Receiver {
            conversation: Conversation::new(alloc),
            place: BodyPlace::Buffer,
            waits: false,
        }
    }

    /// Whether the body in hand waits for room to be staged: nothing is to be read meanwhile, and a turn with
    /// `may_stage` tries it again.
    pub fn waits_for_room(&self) -> bool {
        self.waits
    }

    /// Whether the body in hand is staged.
    pub fn has_stage(&self) -> bool {
        matches!(self.place, BodyPlace::Stage)
    }

    /// Whether bytes that come are kept, as `Conversation::listens` has it.
    pub fn listens(&self) -> bool
        ensures { result ≡ listens (received self.now) }
    {
        self.conversation.listens()
    }

    /// These bytes came, as `Conversation::receive` takes them.
    pub fn receive(&mut self, bytes: &[u8])
        ensures ignores { listens (received self.old) ≡ false → received self.new ≡ received self.old }
        ensures keeps { listens (received self.old) ≡ true
            → Receives bytes.now (received self.old) (received self.new) }
        ensures sized { coming_len (received self.new) ≤ coming_len (received self.old) + length bytes.now }
    {
        self.conversation.receive(bytes);
    }

    /// The input has ended. What has come is answered all the same.
    pub fn finish(&mut self)
        ensures { received self.new ≡ with_finished (received self.old) }
    {
        self.conversation.finish();
    }

    /// The bytes that are to go out.
    pub fn outgoing(&self) -> Outgoing<'_>
        ensures { outgoing_text result ≡ (received self.now).going }
    {
        self.conversation.outgoing()
    }

    /// So many of the bytes that were to go out went.
    pub fn sent(&mut self, count: usize)
        requires { count ≤ length (received self.old).going }
        ensures { received self.new
            ≡ with_going (received self.old) (drop count (received self.old).going) }
    {
        self.conversation.sent(count);
    }

    /// What it waits for, once a turn came to nothing more.
    pub fn wants(&self) -> Wants
        ensures { result ≡ wants_of (received self.now) }
    {
        self.conversation.wants()
    }

    /// What was answered or refused in the last turn, as `Conversation::take_report` tells it.
    pub fn take_report(&mut self) -> Option<Report>
        ensures report { result ≡ self.old.conversation.outbox.report }
        ensures none { self.new.conversation.outbox.report ≡ None }
        ensures same { received self.new ≡ received self.old }
    {
        self.conversation.take_report()
    }

    /// The request in hand, or else the one that was answered last, as a log tells it.
    pub fn exchange(&self) -> &Exchange {
        self.conversation.exchange()
    }

    /// How many bytes it holds that came and are not answered; those of a body that lies apart do not count.
    pub fn coming(&self) -> usize
        ensures { result ≡ coming_len (received self.now) }
    {
        self.conversation.coming()
    }

    /// The same, and those that are to go out; more than 18,446,744,073,709,551,615 count as so many.
    pub fn held(&self) -> usize
        ensures { result ≡ min (held_len (received self.now)) usize.MAX }
    {
        self.conversation.held()
    }

    /// Gives back room that holds nothing, as `Conversation::give_back` does.
    pub fn give_back(&mut self, alloc: Global)
        ensures { received self.new ≡ received self.old }
    {
        self.conversation.give_back(alloc);
    }
}
