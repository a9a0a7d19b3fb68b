//! The turns of a conversation.

ghost use Rattle.std.specs.Prelude.{◌≡◌, ◌≤◌, ◌++◌, [], length, None, IfSome, IfNone};
ghost use Rattle.std.specs.Bool.{MatchBool};
ghost use Rattle.oci_types.specs.Text.{Text};
ghost use Rattle.httparse.specs.Grammar.{RequestHead};
ghost use Rattle.registry_model.specs.declared.settings.Settings.{Settings};
ghost use Rattle.registry_model.specs.Keeping.{HeldStays, state_of};
ghost use Rattle.registry_service.specs.Bodies.{from_body};
ghost use Rattle.registry_http.specs.Expecting.{continue_if};

use crate::heading::{FoundHead, Heading, find_head};
use crate::part::{Part, Taken, take_body};
use crate::phase::{Phase, Step};
use crate::replying::reply_to;
use crate::{Conversation, FieldRoom};
use httparse::spans::RequestSpans;
use registry_http::framing::Framing;
use registry_http::head::{Parsed, parse_head};
use registry_http::{End, FramingRefusal};
use registry_model::{Keeper, Settings};
use registry_service::{RequestBody, Service, WholeBody};
use std::alloc::Global;

impl Conversation {
    ghost use Rattle.registry_conversation.specs.Shown.{coming_len};
    ghost use Rattle.registry_http.specs.Reading.{Parses};
    ghost use Rattle.registry_conversation.specs.ConversationShowing.{shown};
    ghost use Rattle.registry_conversation.specs.Headings.{BeginsAt, HeadIsThere, IsHead};
    ghost use Rattle.registry_conversation.specs.Holding.{Holds, HoldsAs, HoldsWhole};
    ghost use Rattle.registry_conversation.specs.Stepping.{Acts, LeadsOn, Waited};
    ghost use Rattle.registry_conversation.specs.Telling.{Tells};

    /// The request in hand is not whole: more bytes are missing, or the input ended there.
    pub(crate) fn wait(&mut self, end: End) -> Step
        ensures waits { Waited result end (shown self.old) (shown self.new) }
        ensures report { self.new.outbox.report ≡ self.old.outbox.report }
    {
        if !self.finished {
            return Step::Waits;
        }
        self.end(end)
    }

    /// The reply stands in what is to go out.
    fn close_if(&mut self, closing: bool)
        ensures going { (shown self.new).going ≡ (shown self.old).going }
        ensures finished { (shown self.new).finished ≡ (shown self.old).finished }
        ensures rest { coming_len (shown self.new) ≡ length (shown self.old).unread }
        ensures report { self.new.outbox.report ≡ self.old.outbox.report }
        ensures next { (settings : Settings)
            → MatchBool closing ((shown self.new).phase ≡ Phase.Ended End.Closed)
            (Holds settings (shown self.new) (shown self.old).unread []) }
    {
        self.buffer.forget();
        if closing {
            self.phase = Phase::Ended(End::Closed);
        } else {
            self.phase = Phase::Head;
        }
    }

    /// Finds the head that what was taken begins with.
    pub(crate) fn taken_head(&self, room: &mut FieldRoom) -> Option<RequestSpans>
        ensures found { IfSome result (λ spans.
            Parses (Parsed.Whole spans) (shown self.now).taken room.new.spans.items) }
        ensures none { IfNone result ((h : RequestHead) (v : Text)
            → HeadIsThere h (shown self.now).taken v → ⊥) }
    {
        let taken = self.buffer.before();
        match parse_head(taken, &mut room.spans) {
            Parsed::Whole(spans) => Some(spans),
            Parsed::NotYet => None,
            Parsed::Never => None,
        }
    }

    /// Answers the request that was taken. Its head is found again where it stands, and so need not be
    /// kept while its body comes.
    fn reply<K: Keeper>(
        &mut self,
        alloc: Global,
        service: &mut Service<K>,
        settings: Settings,
        room: &mut FieldRoom,
    ) -> Step
        ensures honest { K.is_honest service.new → K.is_honest service.old }
        ensures holds { K.is_honest service.new → HeldStays (K.kept service.old) (K.kept service.new) }
        ensures finished { (shown self.new).finished ≡ (shown self.old).finished }
        ensures fewer { coming_len (shown self.new) ≤ coming_len (shown self.old) }
        ensures leads { LeadsOn result (shown self.old) (shown self.new) }
        ensures acts { K.is_honest service.new → (b said : Text)
            → HoldsWhole settings (shown self.old).taken (shown self.old).unread b said
            → Tells settings result b said (shown self.old) (state_of (K.kept service.old))
            (state_of (K.kept service.new)) (shown self.new) self.old.outbox.report self.new.outbox.report }
    {
        let Some(spans) = self.taken_head(room) else {
            return self.refuse(FramingRefusal::UnreadableHead);
        };
        let taken = self.buffer.before();
        let head = &taken[..spans.len];
        let found = &room.spans[..spans.headers];
        let body = WholeBody(&taken[spans.len..]);
        let outbox = &mut self.outbox;
        match reply_to(alloc, service, settings, head, found, &spans, body, outbox) {
            Ok(closing) => {
                self.close_if(closing);
                Step::Answered
            }
            Err(fault) => self.end(End::WriteFailed {
                written: fault.written,
            }),
        }
    }

    /// Answers the request whose head was taken, and nothing behind it: its body lies elsewhere.
    pub(crate) fn reply_to_head<K: Keeper, B: RequestBody<K>>(
        &mut self,
        alloc: Global,
        service: &mut Service<K>,
        settings: Settings,
        room: &mut FieldRoom,
        body: B,
    ) -> Step
        ensures honest { K.is_honest service.new → K.is_honest service.old }
        ensures holds { K.is_honest service.new → (t : Text) → B.is_body body (K.kept service.old) t
            → HeldStays (from_body (B.stage body) (K.kept service.old) (K.kept service.new))
            (K.kept service.new) }
        ensures finished { (shown self.new).finished ≡ (shown self.old).finished }
        ensures fewer { coming_len (shown self.new) ≤ coming_len (shown self.old) }
        ensures leads { LeadsOn result (shown self.old) (shown self.new) }
        ensures acts { K.is_honest service.new → (t b said : Text) → IsHead (shown self.old).taken
            → B.is_body body (K.kept service.old) t
            → HoldsWhole settings ((shown self.old).taken ++ t) (shown self.old).unread b said
            → Tells settings result b said (shown self.old) (state_of (K.kept service.old))
            (state_of (K.kept service.new)) (shown self.new) self.old.outbox.report self.new.outbox.report }
    {
        let Some(spans) = self.taken_head(room) else {
            return self.refuse(FramingRefusal::UnreadableHead);
        };
        let taken = self.buffer.before();
        let head = &taken[..spans.len];
        let found = &room.spans[..spans.headers];
        let outbox = &mut self.outbox;
        match reply_to(alloc, service, settings, head, found, &spans, body, outbox) {
            Ok(closing) => {
                self.close_if(closing);
                Step::Answered
            }
            Err(fault) => self.end(End::WriteFailed {
                written: fault.written,
            }),
        }
    }

    /// Takes what has come of the body in hand, from this part on, and answers the request if it is whole.
    fn go_on<K: Keeper>(
        &mut self,
        alloc: Global,
        service: &mut Service<K>,
        settings: Settings,
        room: &mut FieldRoom,
        part: Part,
    ) -> Step
        ensures honest { K.is_honest service.new → K.is_honest service.old }
        ensures holds { K.is_honest service.new → HeldStays (K.kept service.old) (K.kept service.new) }
        ensures finished { (shown self.new).finished ≡ (shown self.old).finished }
        ensures fewer { coming_len (shown self.new) ≤ coming_len (shown self.old) }
        ensures leads { LeadsOn result (shown self.old) (shown self.new) }
        ensures acts { K.is_honest service.new → (b said : Text)
            → HoldsAs settings (Phase.Body part) (shown self.old).taken (shown self.old).unread b said
            → Tells settings result b said (shown self.old) (state_of (K.kept service.old))
            (state_of (K.kept service.new)) (shown self.new) self.old.outbox.report self.new.outbox.report }
    {
        match take_body(&mut self.buffer, &mut room.spans, part, settings) {
            Taken::Whole(_) => self.reply(alloc, service, settings, room),
            Taken::Missing(next) => {
                self.phase = Phase::Body(next);
                self.wait(End::Cut)
            }
            Taken::Refused(refusal) => self.refuse(refusal),
        }
    }

    /// Goes on with the body behind a head that was taken. Where the client waits for a 100 that is put out
    /// first, and the body is for the next turn (RFC 9110, section 10.1.1).
    fn begin_body<K: Keeper>(
        &mut self,
        alloc: Global,
        service: &mut Service<K>,
        settings: Settings,
        room: &mut FieldRoom,
        awaits: bool,
        part: Part,
    ) -> Step
        requires { (shown self.old).phase ≡ Phase.Head }
        ensures honest { K.is_honest service.new → K.is_honest service.old }
        ensures holds { K.is_honest service.new → HeldStays (K.kept service.old) (K.kept service.new) }
        ensures finished { (shown self.new).finished ≡ (shown self.old).finished }
        ensures fewer { coming_len (shown self.new) ≤ coming_len (shown self.old) }
        ensures leads { LeadsOn result (shown self.old) (shown self.new) }
        ensures acts { K.is_honest service.new → (b : Text)
            → HoldsAs settings (Phase.Body part) (shown self.old).taken (shown self.old).unread b
            (continue_if awaits)
            → Tells settings result b [] (shown self.old) (state_of (K.kept service.old))
            (state_of (K.kept service.new)) (shown self.new) self.old.outbox.report self.new.outbox.report }
    {
        if !awaits {
            return self.go_on(alloc, service, settings, room, part);
        }
        match self.outbox.put_continue() {
            Ok(()) => {
                self.phase = Phase::Body(part);
                Step::Interim
            }
            Err(fault) => self.end(End::WriteFailed {
                written: fault.written,
            }),
        }
    }

    /// Takes a head off the unread bytes, and then what has come of the body behind it.
    fn take_head<K: Keeper>(
        &mut self,
        alloc: Global,
        service: &mut Service<K>,
        settings: Settings,
        room: &mut FieldRoom,
        heading: Heading,
    ) -> Step
        requires within { heading.len ≤ length (shown self.old).unread }
        requires head { (shown self.old).phase ≡ Phase.Head }
        ensures honest { K.is_honest service.new → K.is_honest service.old }
        ensures holds { K.is_honest service.new → HeldStays (K.kept service.old) (K.kept service.new) }
        ensures finished { (shown self.new).finished ≡ (shown self.old).finished }
        ensures fewer { coming_len (shown self.new) ≤ coming_len (shown self.old) }
        ensures leads { LeadsOn result (shown self.old) (shown self.new) }
        ensures acts { K.is_honest service.new → (b : Text)
            → BeginsAt settings heading b → (shown self.old).taken ≡ [] → (shown self.old).unread ≡ b
            → Tells settings result b [] (shown self.old) (state_of (K.kept service.old))
            (state_of (K.kept service.new)) (shown self.new) self.old.outbox.report self.new.outbox.report }
    {
        self.exchange.note_head(self.buffer.behind());
        self.buffer.pass(heading.len);
        match heading.framing {
            Framing::Length(count) => {
                self.begin_body(
                    alloc,
                    service,
                    settings,
                    room,
                    heading.awaits,
                    Part::Length {
                        size: count,
                        came: 0,
                    },
                )
            }
            Framing::Chunked => {
                self.begin_body(
                    alloc,
                    service,
                    settings,
                    room,
                    heading.awaits,
                    Part::Line(0),
                )
            }
            Framing::Refused(refusal) => self.refuse(refusal),
        }
    }

    /// Looks for the head of the next request.
    fn begin<K: Keeper>(
        &mut self,
        alloc: Global,
        service: &mut Service<K>,
        settings: Settings,
        room: &mut FieldRoom,
    ) -> Step
        requires { (shown self.old).phase ≡ Phase.Head }
        ensures honest { K.is_honest service.new → K.is_honest service.old }
        ensures holds { K.is_honest service.new → HeldStays (K.kept service.old) (K.kept service.new) }
        ensures finished { (shown self.new).finished ≡ (shown self.old).finished }
        ensures fewer { coming_len (shown self.new) ≤ coming_len (shown self.old) }
        ensures leads { LeadsOn result (shown self.old) (shown self.new) }
        ensures acts { K.is_honest service.new → (b said : Text) → Holds settings (shown self.old) b said
            → Tells settings result b said (shown self.old) (state_of (K.kept service.old))
            (state_of (K.kept service.new)) (shown self.new) self.old.outbox.report self.new.outbox.report }
    {
        match find_head(self.buffer.behind(), &mut room.spans, settings) {
            FoundHead::Whole(heading) => self.take_head(alloc, service, settings, room, heading),
            FoundHead::NotYet => {
                let unread = self.buffer.behind();
                let none = unread.is_empty();
                if none {
                    self.wait(End::Closed)
                } else {
                    self.wait(End::Cut)
                }
            }
            FoundHead::Never => {
                self.exchange.forget();
                self.refuse(FramingRefusal::UnreadableHead)
            }
        }
    }

    /// Takes the next turn: answers one request if one is whole, and else says that it waits for more
    /// bytes, or how it ended (RFC 9112, section 9.3). Once it has ended it says so again. Where a client
    /// waits for a 100, that alone is put out, and the body takes the next turn: no turn puts out two
    /// texts. What was answered or refused is told by `take_report`.
    pub fn answer_next<K: Keeper>(
        &mut self,
        alloc: Global,
        service: &mut Service<K>,
        settings: Settings,
        room: &mut FieldRoom,
    ) -> Step
        ensures honest { K.is_honest service.new → K.is_honest service.old }
        ensures holds { K.is_honest service.new → HeldStays (K.kept service.old) (K.kept service.new) }
        ensures finished { (shown self.new).finished ≡ (shown self.old).finished }
        ensures fewer { coming_len (shown self.new) ≤ coming_len (shown self.old) }
        ensures leads { LeadsOn result (shown self.old) (shown self.new) }
        ensures over { (e : End) → (shown self.old).phase ≡ Phase.Ended e
            → (result ≡ Step.Ended e) × (shown self.new ≡ shown self.old) × (service.new ≡ service.old) }
        ensures acts { K.is_honest service.new → (b said : Text) → Holds settings (shown self.old) b said
            → Acts settings result b said (shown self.old) (state_of (K.kept service.old))
            (state_of (K.kept service.new)) (shown self.new) }
        ensures tells { K.is_honest service.new → (b said : Text) → Holds settings (shown self.old) b said
            → Tells settings result b said (shown self.old) (state_of (K.kept service.old))
            (state_of (K.kept service.new)) (shown self.new) None self.new.outbox.report }
    {
        match self.phase {
            Phase::Head => {
                self.outbox.report = None;
                self.begin(alloc, service, settings, room)
            }
            Phase::Body(part) => {
                self.outbox.report = None;
                self.go_on(alloc, service, settings, room, part)
            }
            Phase::Ended(end) => Step::Ended(end),
        }
    }
}
