//! Conversations by hand: requests that are cut, that stand one behind the other, that wait and that end
//! early.

use crate::setting::{Registry, same, setting};
use crate::texts::{
    BAD_REQUEST, CONTINUE, HELLO, IN_CHUNKS, PUSH, THREE_REPLIES, THREE_REQUESTS, filled,
};
use registry_http::{End, FramingRefusal};
use registry_model::Settings;
use registry_server::{Conversation, FieldRoom, Step, Wants};
use std::alloc::Global;
use std::process::Abort;

/// The body `hello` by its length.
const BY_LENGTH: &str = "Content-Length: 5\r\n\r\nhello";

/// A conversation, the registry that it is had with, and what went out of it.
struct Talk {
    conversation: Conversation,
    room: FieldRoom,
    registry: Registry,
    output: Vec<u8>,
}

impl Drop for Talk {
    fn drop(self) {
        let Talk {
            conversation: _,
            room: _,
            registry: _,
            output: _,
        } = self;
    }
}

fn new_talk(rt: &impl Abort, alloc: Global) -> Talk {
    Talk {
        conversation: Conversation::new(alloc),
        room: FieldRoom::new(alloc).expect(rt, "memory"),
        registry: setting(rt, alloc),
        output: Vec::new(alloc),
    }
}

/// A turn, after which nothing goes out.
fn step(alloc: Global, talk: &mut Talk) -> Step {
    talk.conversation.answer_next(
        alloc,
        &mut talk.registry,
        Settings::profile(),
        &mut talk.room,
    )
}

/// Some bytes go out, if there are so many.
fn go(rt: &impl Abort, talk: &mut Talk, count: usize) {
    let going = talk.conversation.outgoing();
    let count = count.min(going.len());
    let of_head = count.min(going.head.len());
    talk.output
        .extend_from_slice(&going.head[..of_head])
        .expect(rt, "memory");
    talk.output
        .extend_from_slice(&going.body[..count - of_head])
        .expect(rt, "memory");
    talk.conversation.sent(count);
}

/// A turn, after which all bytes go out, in two parts.
fn turn(rt: &impl Abort, alloc: Global, talk: &mut Talk) -> Step {
    let step = step(alloc, talk);
    go(rt, talk, 100);
    go(rt, talk, usize::MAX);
    step
}

/// Turns until nothing more comes of them.
fn turns(rt: &impl Abort, alloc: Global, talk: &mut Talk) -> Step {
    for _ in 0..10 {
        let step = turn(rt, alloc, talk);
        if !matches!(step, Step::Answered | Step::Interim) {
            return step;
        }
    }
    Step::Answered
}

/// Whatever is in hand where the input is cut, the same goes out.
fn is_cut_at(rt: &impl Abort, alloc: Global, input: &[u8], output: &[u8], at: usize) {
    let (front, rest) = input.split_at(at.min(input.len()));
    let mut talk = new_talk(rt, alloc);
    talk.conversation.receive(front);
    let _ = turns(rt, alloc, &mut talk);
    assert!(rt; output.starts_with(talk.output.as_slice()));
    talk.conversation.give_back(alloc);
    talk.conversation.receive(rest);
    talk.conversation.finish();
    let step = turns(rt, alloc, &mut talk);
    same(rt, at, step, Step::Ended(End::Closed));
    same(rt, at, talk.output.as_slice(), output);
}

/// Three requests, by their length and in chunks, cut at every byte; and what goes round the replies.
#[test]
fn requests_cut_at_every_byte(rt: HostRuntime) {
    let (alloc, waited) = (rt.alloc(), "HTTP/1.1 100 Continue\r\n\r\n{body}");
    for (body, whole) in [(BY_LENGTH, "{body}"), (IN_CHUNKS, waited)] {
        let input = filled(&rt, alloc, THREE_REQUESTS, "team/app", HELLO, body);
        let replies = filled(&rt, alloc, THREE_REPLIES, "team/app", HELLO, "hello");
        let output = filled(&rt, alloc, whole, "", "", replies.as_str());
        for at in 0..input.len() + 1 {
            is_cut_at(&rt, alloc, input.as_bytes(), output.as_bytes(), at);
        }
    }
}

/// What happens to a conversation, and what comes of it. A body stands for the word in a text of what comes,
/// and `hello` in one of what goes.
#[derive(Clone, Copy)]
enum Event<'a> {
    /// Bytes come.
    Hear(&'a str, &'a str),
    /// The input ends.
    Finish,
    /// Room that holds nothing is given back.
    GiveBack,
    /// A turn comes to this, after which nothing goes out.
    Step(Step),
    /// A turn comes to this, after which all goes out.
    Turn(Step),
    /// This has gone out.
    Went(&'a str),
    /// A turn answers a request with a body of so many bytes; a log is told it, and no query.
    Answers(&'a str, usize),
    /// It holds so many bytes, and waits for this.
    Holds(usize, Wants),
}

fn happens(rt: &impl Abort, alloc: Global, place: usize, talk: &mut Talk, event: Event) {
    match event {
        Event::Hear(text, body) => {
            let text = filled(rt, alloc, text, "team/app", HELLO, body);
            talk.conversation.receive(text.as_bytes());
        }
        Event::Finish => talk.conversation.finish(),
        Event::GiveBack => talk.conversation.give_back(alloc),
        Event::Step(wanted) => same(rt, place, step(alloc, talk), wanted),
        Event::Turn(wanted) => same(rt, place, turn(rt, alloc, talk), wanted),
        Event::Went(output) => {
            let output = filled(rt, alloc, output, "team/app", HELLO, "hello");
            same(rt, place, talk.output.as_slice(), output.as_bytes());
        }
        Event::Answers(line, came) => {
            let line = filled(rt, alloc, line, "team/app", HELLO, "");
            let before = talk.output.len();
            same(rt, place, turn(rt, alloc, talk), Step::Answered);
            assert!(rt; before < talk.output.len());
            same(
                rt,
                place,
                talk.conversation.exchange().line(),
                line.as_bytes(),
            );
            let report = talk.conversation.take_report().expect(rt, "a report");
            same(rt, place, report.came, came);
            same(rt, place, report.went, talk.output.len() - before);
        }
        Event::Holds(held, wants) => {
            same(rt, place, talk.conversation.held(), held);
            same(rt, place, talk.conversation.wants(), wants);
        }
    }
}

/// All of it happens, one after the other.
fn all_happens(rt: &impl Abort, alloc: Global, events: &[Event]) {
    let mut talk = new_talk(rt, alloc);
    for (place, event) in events.iter().enumerate() {
        happens(rt, alloc, place, &mut talk, *event);
    }
}

/// Three requests that came at once take three turns, and a log is told each in its turn.
static AT_ONCE: [Event; 7] = [
    Event::Hear(THREE_REQUESTS, BY_LENGTH),
    Event::Answers("POST /v2/{name}/blobs/uploads/", 5),
    Event::Answers("GET /v2/{name}/blobs/{digest}", 0),
    Event::Answers("HEAD /v2/{name}/blobs/{digest}", 0),
    Event::Went(THREE_REPLIES),
    Event::Turn(Step::Ended(End::Closed)),
    Event::Went(THREE_REPLIES),
];

#[test]
fn one_request_a_turn(rt: HostRuntime) {
    all_happens(&rt, rt.alloc(), AT_ONCE.as_slice());
}

/// The reply to a push whose client waits.
const CONTINUE_AND_CREATED: &str = "HTTP/1.1 100 Continue\r\n\r\n\
      HTTP/1.1 201 Created\r\nContent-Length: 0\r\nDocker-Content-Digest: {digest}\r\n\
      Location: /v2/{name}/blobs/{digest}\r\n\r\n";

/// A client that waits is told so once, before its body came, in a turn of its own.
static WAITING: [Event; 13] = [
    Event::Hear(PUSH, "Expect: 100-continue\r\nContent-Length: 5\r\n\r\n"),
    Event::Turn(Step::Interim),
    Event::Went(CONTINUE),
    Event::Turn(Step::Waits),
    Event::Went(CONTINUE),
    Event::Turn(Step::Waits),
    Event::Went(CONTINUE),
    Event::Hear("hel", ""),
    Event::Turn(Step::Waits),
    Event::Went(CONTINUE),
    Event::Hear("lo", ""),
    Event::Turn(Step::Answered),
    Event::Went(CONTINUE_AND_CREATED),
];

#[test]
fn continue_before_the_body(rt: HostRuntime) {
    all_happens(&rt, rt.alloc(), WAITING.as_slice());
}

/// Where the body came with the head, the 100 still goes out before the request is answered, and alone.
static NOT_WAITING: [Event; 5] = [
    Event::Hear(
        PUSH,
        "Expect: 100-continue\r\nContent-Length: 5\r\n\r\nhello",
    ),
    Event::Turn(Step::Interim),
    Event::Went(CONTINUE),
    Event::Answers("POST /v2/{name}/blobs/uploads/", 5),
    Event::Went(CONTINUE_AND_CREATED),
];

#[test]
fn continue_in_a_turn_of_its_own(rt: HostRuntime) {
    all_happens(&rt, rt.alloc(), NOT_WAITING.as_slice());
}

const REFUSED: Step = Step::Ended(End::Refused(FramingRefusal::UnreadableChunk));

/// A refusal is the end, and bytes behind it come to nothing.
static REFUSAL: [Event; 9] = [
    Event::Hear(
        "POST / HTTP/1.1\r\nHost: r\r\nTransfer-Encoding: chunked\r\n\r\n3\r\nabcX",
        "",
    ),
    Event::Step(REFUSED),
    Event::Holds(BAD_REQUEST.len(), Wants::Room),
    Event::Turn(REFUSED),
    Event::Went(BAD_REQUEST),
    Event::Holds(0, Wants::Nothing),
    Event::Hear("GET /v2/ HTTP/1.1\r\nHost: r\r\n\r\n", ""),
    Event::Turn(REFUSED),
    Event::Went(BAD_REQUEST),
];

#[test]
fn refusal_ends_it(rt: HostRuntime) {
    all_happens(&rt, rt.alloc(), REFUSAL.as_slice());
}

/// Whatever comes behind the end of the input completes no head.
static CUT: [Event; 11] = [
    Event::Holds(0, Wants::Bytes),
    Event::Hear("GET /v2/ HT", ""),
    Event::Turn(Step::Waits),
    Event::Went(""),
    Event::Holds(11, Wants::Bytes),
    Event::GiveBack,
    Event::Holds(11, Wants::Bytes),
    Event::Finish,
    Event::Hear("TP/1.1\r\nHost: r\r\n\r\n", ""),
    Event::Turn(Step::Ended(End::Cut)),
    Event::Went(""),
];

#[test]
fn input_ends_in_a_head(rt: HostRuntime) {
    all_happens(&rt, rt.alloc(), CUT.as_slice());
}
