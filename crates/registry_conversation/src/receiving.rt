//! The turns of a connection whose body in hand may lie apart from its head.

ghost use Rattle.std.specs.Prelude.{◌≡◌, ◌≤◌, ◌++◌, length, take, true, Some, None};
ghost use Rattle.oci_types.specs.Text.{Text};
ghost use Rattle.registry_model.specs.declared.settings.Settings.{Settings};
ghost use Rattle.registry_model.specs.Keeping.{HeldStays, state_of};
ghost use Rattle.registry_service.specs.Bodies.{from_body};

use crate::FieldRoom;
use crate::body_place::BodyPlace;
use crate::body_plan::{BodyPlan, plan_body};
use crate::part::{Part, Taken, take_body};
use crate::phase::{Phase, Step};
use crate::receiver::Receiver;
use registry_holding::Holder;
use registry_http::End;
use registry_model::Settings;
use registry_service::{CountedBody, Service, StagedBody};
use std::alloc::Global;

/// So many bytes of a request at most are kept in memory of its connection, where its body may be staged: a
/// head, and 32,768 bytes behind it. It is less than each connection may hold whatever others do.
const MOST_BUFFERED: usize = 49_152;

impl Receiver {
    ghost use Rattle.registry_http.specs.Buffering.{before};
    ghost use Rattle.registry_conversation.specs.declared.part.Part.{Part};
    ghost use Rattle.registry_conversation.specs.Shown.{Shown, coming_len};
    ghost use Rattle.registry_conversation.specs.ConversationShowing.{shown};
    ghost use Rattle.registry_conversation.specs.Holding.{HoldsWhole};
    ghost use Rattle.registry_conversation.specs.Stepping.{LeadsOn};
    ghost use Rattle.registry_conversation.specs.Telling.{Tells};
    ghost use Rattle.registry_conversation.specs.Receiving.{Lies, LiesApart, Shortens, StageIsKept, TellsApart};
    ghost use Rattle.registry_conversation.specs.Receiving.{is_apart, joined, received};
    ghost use Rattle.registry_conversation.specs.Headings.{IsHead};

    /// Puts what came of the body in hand, behind a head of so many bytes, where the plan has it, and tells
    /// where: where memory is wanting, nowhere.
    fn put_first<K: Holder>(
        &self,
        service: &mut Service<K>,
        key: u64,
        head: usize,
        plan: BodyPlan,
    ) -> BodyPlace
        requires { head ≤ length (before self.now.conversation.buffer) }
        ensures honest { K.is_honest service.new → K.is_honest service.old }
        ensures holds { K.is_honest service.new → HeldStays
            (from_body (Some key) (K.kept service.old) (K.kept service.new)) (K.kept service.new) }
        ensures same { K.is_honest service.new
            → state_of (K.kept service.new) ≡ state_of (K.kept service.old) }
        ensures apart { is_apart result ≡ true }
        ensures lies { K.is_honest service.new → (front more : Text)
            → before self.now.conversation.buffer ≡ front ++ more → length front ≡ head → IsHead front
            → LiesApart result key (K.kept service.new) front more }
    {
        let BodyPlan::Stage { size, with_sha512 } = plan else {
            return BodyPlace::Nowhere;
        };
        match service.stage(key, size, with_sha512) {
            Ok(()) => {}
            Err(_) => return BodyPlace::Nowhere,
        }
        let taken = self.conversation.buffer.before();
        match service.stage_more(key, &taken[head..]) {
            Ok(()) => BodyPlace::Stage,
            Err(_) => {
                service.unstage(key);
                BodyPlace::Nowhere
            }
        }
    }

    /// Finds a place for what came of the body in hand, where that is much.
    fn place_body<K: Holder>(
        &mut self,
        alloc: Global,
        service: &mut Service<K>,
        key: u64,
        room: &mut FieldRoom,
        part: Part,
        may_stage: bool,
    )
        requires { self.old.place ≡ BodyPlace.Buffer }
        ensures honest { K.is_honest service.new → K.is_honest service.old }
        ensures holds { K.is_honest service.new → HeldStays
            (from_body (Some key) (K.kept service.old) (K.kept service.new)) (K.kept service.new) }
        ensures same { K.is_honest service.new
            → state_of (K.kept service.new) ≡ state_of (K.kept service.old) }
        ensures lies { K.is_honest service.new → (apart : Text)
            × LiesApart self.new.place key (K.kept service.new) (received self.new).taken apart
            × (joined apart (received self.new) ≡ shown self.old.conversation) }
        ensures rest { Shortens (received self.old) (received self.new) }
        ensures report { self.new.conversation.outbox.report ≡ self.old.conversation.outbox.report }
    {
        if self.conversation.buffer.before().len() <= MOST_BUFFERED {
            return;
        }
        let Some(spans) = self.conversation.taken_head(room) else {
            return;
        };
        let taken = self.conversation.buffer.before();
        let fields = &room.spans[..spans.headers];
        let came = taken.len() - spans.len;
        let plan = plan_body(alloc, &taken[..spans.len], fields, &spans, part, came);
        self.waits = plan.waits(service, may_stage);
        if plan.keeps() || self.waits {
            return;
        }
        self.place = self.put_first(service, key, spans.len, plan);
        self.conversation.buffer.keep_front(spans.len);
    }

    /// Takes a turn of a conversation whose body in hand lies behind its head.
    fn turn<K: Holder>(
        &mut self,
        alloc: Global,
        service: &mut Service<K>,
        key: u64,
        settings: Settings,
        room: &mut FieldRoom,
        may_stage: bool,
    ) -> Step
        requires { self.old.place ≡ BodyPlace.Buffer }
        ensures honest { K.is_honest service.new → K.is_honest service.old }
        ensures finished { (received self.new).finished ≡ (received self.old).finished }
        ensures fewer { coming_len (received self.new) ≤ coming_len (received self.old) }
        ensures leads { LeadsOn result (received self.old) (received self.new) }
        ensures turns { K.is_honest service.new → (apart : Text)
            → TellsApart settings result key apart (received self.old) (K.kept service.old)
            (received self.new) (K.kept service.new) self.new.conversation.outbox.report }
    {
        let step = self
            .conversation
            .answer_next(alloc, service, settings, room);
        match self.conversation.phase {
            Phase::Head => {}
            Phase::Ended(_) => {}
            Phase::Body(part) => self.place_body(alloc, service, key, room, part, may_stage),
        }
        step
    }

    /// Puts what was taken of a body behind a head of so many bytes to the rest of it, which lies apart.
    fn put_apart<K: Holder>(&mut self, service: &mut Service<K>, key: u64, head: usize)
        requires { head ≤ length (before self.old.conversation.buffer) }
        ensures honest { K.is_honest service.new → K.is_honest service.old }
        ensures holds { K.is_honest service.new → HeldStays
            (from_body (Some key) (K.kept service.old) (K.kept service.new)) (K.kept service.new) }
        ensures same { K.is_honest service.new
            → state_of (K.kept service.new) ≡ state_of (K.kept service.old) }
        ensures apart { is_apart self.old.place ≡ true → is_apart self.new.place ≡ true }
        ensures unstaged { K.is_honest service.new
            → StageIsKept self.old.place self.new.place key (K.kept service.new) }
        ensures lies { K.is_honest service.new → is_apart self.old.place ≡ true → (front more apart : Text)
            → before self.old.conversation.buffer ≡ front ++ more → length front ≡ head
            → LiesApart self.old.place key (K.kept service.old) front apart
            → LiesApart self.new.place key (K.kept service.new) front (apart ++ more) }
        ensures rest { is_apart self.old.place ≡ true → received self.new ≡ (record (received self.old)
            { place = self.new.place; taken = take head (received self.old).taken }) }
        ensures report { self.new.conversation.outbox.report ≡ self.old.conversation.outbox.report }
    {
        match self.place {
            BodyPlace::Buffer => return,
            BodyPlace::Nowhere => {}
            BodyPlace::Stage => {
                let taken = self.conversation.buffer.before();
                match service.stage_more(key, &taken[head..]) {
                    Ok(()) => {}
                    Err(_) => {
                        service.unstage(key);
                        self.place = BodyPlace::Nowhere;
                    }
                }
            }
        }
        self.conversation.buffer.keep_front(head);
    }

    /// Answers the request whose head was taken, and whose body, of so many bytes, lies apart. Then nothing
    /// is staged.
    fn reply<K: Holder>(
        &mut self,
        alloc: Global,
        service: &mut Service<K>,
        key: u64,
        settings: Settings,
        room: &mut FieldRoom,
        size: usize,
    ) -> Step
        ensures honest { K.is_honest service.new → K.is_honest service.old }
        ensures finished { (received self.new).finished ≡ (received self.old).finished }
        ensures fewer { coming_len (received self.new) ≤ coming_len (received self.old) }
        ensures leads { LeadsOn result (received self.old) (received self.new) }
        ensures acts { K.is_honest service.new → is_apart self.old.place ≡ true → (apart b said : Text)
            → LiesApart self.old.place key (K.kept service.old) (received self.old).taken apart
            → size ≡ length apart
            → HoldsWhole settings ((received self.old).taken ++ apart)
            (received self.old).unread b said
            → HeldStays (from_body (Some key) (K.kept service.old) (K.kept service.new))
            (K.kept service.new)
            × Tells settings result b said (received self.old) (state_of (K.kept service.old))
            (state_of (K.kept service.new)) (received self.new)
            self.old.conversation.outbox.report self.new.conversation.outbox.report }
        ensures place { self.new.place ≡ BodyPlace.Buffer }
        ensures unstaged { K.is_honest service.new → (K.kept service.new).held.stages key ≡ None }
    {
        let step = match self.place {
            BodyPlace::Stage => {
                let body = StagedBody { key, size };
                self.conversation
                    .reply_to_head(alloc, service, settings, room, body)
            }
            _ => self
                .conversation
                .reply_to_head(alloc, service, settings, room, CountedBody(size)),
        };
        self.place = BodyPlace::Buffer;
        service.unstage(key);
        step
    }

    /// Takes what has come of the body in hand, which lies apart, from this part on, and answers the request
    /// if it is whole.
    fn go_on<K: Holder>(
        &mut self,
        alloc: Global,
        service: &mut Service<K>,
        key: u64,
        settings: Settings,
        room: &mut FieldRoom,
        part: Part,
    ) -> Step
        requires apart { is_apart self.old.place ≡ true }
        requires body { (received self.old).phase ≡ Phase.Body part }
        ensures honest { K.is_honest service.new → K.is_honest service.old }
        ensures finished { (received self.new).finished ≡ (received self.old).finished }
        ensures fewer { coming_len (received self.new) ≤ coming_len (received self.old) }
        ensures leads { LeadsOn result (received self.old) (received self.new) }
        ensures turns { K.is_honest service.new → (apart : Text)
            → Lies key (K.kept service.old) (received self.old) apart
            → TellsApart settings result key apart (received self.old) (K.kept service.old)
            (received self.new) (K.kept service.new) self.new.conversation.outbox.report }
        ensures unstaged { K.is_honest service.new
            → StageIsKept self.old.place self.new.place key (K.kept service.new) }
    {
        self.conversation.outbox.report = None;
        let head = self.conversation.buffer.before().len();
        match take_body(
            &mut self.conversation.buffer,
            &mut room.spans,
            part,
            settings,
        ) {
            Taken::Whole(size) => {
                self.put_apart(service, key, head);
                self.reply(alloc, service, key, settings, room, size)
            }
            Taken::Missing(next) => {
                self.put_apart(service, key, head);
                self.conversation.phase = Phase::Body(next);
                self.conversation.wait(End::Cut)
            }
            Taken::Refused(refusal) => {
                self.place = BodyPlace::Buffer;
                service.unstage(key);
                self.conversation.refuse(refusal)
            }
        }
    }

    /// Takes the next turn, as `Conversation::answer_next` does, but that a large body is staged as it comes,
    /// and its request answered over the stage. What is staged under the number of the connection belongs to
    /// the request in hand; nobody else may use that number. It is let go when that request was answered.
    /// Without `may_stage` no stage is begun.
    pub fn answer_next<K: Holder>(
        &mut self,
        alloc: Global,
        service: &mut Service<K>,
        key: u64,
        settings: Settings,
        room: &mut FieldRoom,
        may_stage: bool,
    ) -> Step
        ensures honest { K.is_honest service.new → K.is_honest service.old }
        ensures finished { (received self.new).finished ≡ (received self.old).finished }
        ensures fewer { coming_len (received self.new) ≤ coming_len (received self.old) }
        ensures leads { LeadsOn result (received self.old) (received self.new) }
        ensures over { (e : End) → (received self.old).phase ≡ Phase.Ended e
            → (result ≡ Step.Ended e) × (received self.new ≡ received self.old)
            × (service.new ≡ service.old) }
        ensures turns { K.is_honest service.new → (apart : Text)
            → Lies key (K.kept service.old) (received self.old) apart
            → TellsApart settings result key apart (received self.old) (K.kept service.old)
            (received self.new) (K.kept service.new) self.new.conversation.outbox.report }
        ensures unstaged { K.is_honest service.new → (part : Part)
            → (received self.old).phase ≡ Phase.Body part
            → StageIsKept self.old.place self.new.place key (K.kept service.new) }
    {
        self.waits = false;
        match self.conversation.phase {
            Phase::Ended(end) => Step::Ended(end),
            Phase::Head => {
                self.place = BodyPlace::Buffer;
                self.turn(alloc, service, key, settings, room, may_stage)
            }
            Phase::Body(part) => match self.place {
                BodyPlace::Buffer => self.turn(alloc, service, key, settings, room, may_stage),
                _ => self.go_on(alloc, service, key, settings, room, part),
            },
        }
    }
}
