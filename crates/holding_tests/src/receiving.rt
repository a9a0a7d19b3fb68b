//! Connections that stage a large body as it comes: what they hold of it, and what they answer.

use crate::requests::{Registry, registry_with};
use registry_conversation::{FieldRoom, Receiver, Step};
use registry_http::End;
use registry_model::Settings;
use std::alloc::Global;
use std::process::Abort;

/// The digests of `0123456789`, 20,000 times (FIPS 180-4; Python's hashlib).
pub const LARGE: &str = "sha256:8ddf9b2317645923bc681372ebcfc99afec63b3a6870db4b6ee7bc1bd56eb262";

/// The same of 40,000 times.
const TWICE: &str = "sha512:a27028ed9f8ef77762569f74b80a541546565d667e75eec58833af841b52813e\
     d78d9b31437566be6ba6827f11b96f7ae4563ae6b571a7ae6f4e57436d783c02";

/// That of `abc`.
const OTHER: &str = "sha256:ba7816bf8f01cfea414140de5dae2223b00361a396177a9cb410ff61f20015ad";

/// How a body of 200,000 bytes is framed.
#[derive(Clone, Copy)]
pub enum Framing {
    ByLength,
    /// Each piece is a chunk.
    InChunks,
}

/// A connection, and the registry that it is had with.
pub struct Talk {
    pub receiver: Receiver,
    room: FieldRoom,
    pub registry: Registry,
}

impl Drop for Talk {
    fn drop(self) {
        let Talk {
            receiver: _,
            room: _,
            registry: _,
        } = self;
    }
}

pub fn new_talk(rt: &impl Abort, alloc: Global) -> Talk {
    Talk {
        receiver: Receiver::new(alloc),
        room: FieldRoom::new(alloc).expect(rt, "memory"),
        registry: registry_with(rt, alloc, 1_000_000),
    }
}

/// These bytes come, and it takes a turn.
fn step(alloc: Global, talk: &mut Talk, bytes: &[u8]) -> Step {
    talk.receiver.receive(bytes);
    talk.receiver.answer_next(
        alloc,
        &mut talk.registry,
        7,
        Settings::profile(),
        &mut talk.room,
        true,
    )
}

/// The head of a request by `t1` comes.
pub fn begin(alloc: Global, talk: &mut Talk, target: &str, digest: &str, framing: Framing) {
    let _ = step(alloc, talk, target.as_bytes());
    let _ = step(alloc, talk, digest.as_bytes());
    let _ = step(
        alloc,
        talk,
        b" HTTP/1.1\r\nHost: x\r\nAuthorization: Bearer t1\r\n",
    );
    let framed = match framing {
        Framing::ByLength => "Content-Length: 200000\r\n\r\n",
        Framing::InChunks => "Transfer-Encoding: chunked\r\n\r\n",
    };
    let _ = step(alloc, talk, framed.as_bytes());
}

/// So many pieces of a thousand bytes come of a body; the connection holds less than 65,536 at once.
pub fn come_in(
    rt: &impl Abort,
    alloc: Global,
    talk: &mut Talk,
    framing: Framing,
    pieces: usize,
) -> Step {
    let mut last = Step::Waits;
    for _ in 0..pieces {
        if let Framing::InChunks = framing {
            let _ = step(alloc, talk, b"3e8\r\n");
        }
        for _ in 0..100 {
            talk.receiver.receive(b"0123456789");
        }
        last = step(alloc, talk, b"");
        if let Framing::InChunks = framing {
            last = step(alloc, talk, b"\r\n");
        }
        assert!(rt; talk.receiver.coming() < 65_536);
    }
    last
}

/// A body of 200,000 bytes comes.
fn come(rt: &impl Abort, alloc: Global, talk: &mut Talk, framing: Framing) -> Step {
    let last = come_in(rt, alloc, talk, framing, 200);
    if let Framing::InChunks = framing {
        return step(alloc, talk, b"0\r\n\r\n");
    }
    last
}

/// Whether what is to go out begins so; then it goes out.
pub fn is_told(rt: &impl Abort, talk: &mut Talk, start: &str) {
    let going = talk.receiver.outgoing();
    assert!(rt; going.head.starts_with(start.as_bytes()));
    let count = going.len();
    talk.receiver.sent(count);
}

/// What is asked, by which digest, how its body is framed, and how the reply begins.
type Row = (&'static str, &'static str, Framing, &'static str);

static ROWS: [Row; 8] = [
    (PUSH, LARGE, Framing::ByLength, "HTTP/1.1 201 "),
    (PUSH, LARGE, Framing::InChunks, "HTTP/1.1 201 "),
    (PUSH, OTHER, Framing::InChunks, "HTTP/1.1 400 "),
    (PUSH_ELSEWHERE, LARGE, Framing::ByLength, "HTTP/1.1 403 "),
    (OPEN, "", Framing::ByLength, "HTTP/1.1 202 "),
    (APPEND, "", Framing::InChunks, "HTTP/1.1 202 "),
    (CLOSE, OTHER, Framing::ByLength, "HTTP/1.1 400 "),
    (CLOSE, TWICE, Framing::ByLength, "HTTP/1.1 201 "),
];

pub const PUSH: &str = "POST /v2/team/app/blobs/uploads/?digest=";

const PUSH_ELSEWHERE: &str = "POST /v2/team/other/blobs/uploads/?digest=";

const OPEN: &str = "POST /v2/team/app/blobs/uploads/";

const APPEND: &str = "PATCH /v2/team/app/blobs/uploads/1";

const CLOSE: &str = "PUT /v2/team/app/blobs/uploads/1?digest=";

/// Large bodies are answered as any other, and the connection holds little of them.
#[test]
fn large_bodies_are_staged(rt: HostRuntime) {
    let alloc = rt.alloc();
    let talk = &mut new_talk(&rt, alloc);
    for (target, digest, framing, start) in ROWS.iter() {
        begin(alloc, talk, target, digest, *framing);
        let last = come(&rt, alloc, talk, *framing);
        assert!(&rt; matches!(last, Step::Answered));
        is_told(&rt, talk, start);
    }
}

/// Where the input ends inside a body that is staged, nothing is pushed.
#[test]
fn a_body_that_is_cut_is_not_pushed(rt: HostRuntime) {
    let alloc = rt.alloc();
    let talk = &mut new_talk(&rt, alloc);
    begin(alloc, talk, PUSH, LARGE, Framing::ByLength);
    for _ in 0..19_999 {
        talk.receiver.receive(b"0123456789");
        let _ = step(alloc, talk, b"");
    }
    talk.receiver.finish();
    let last = step(alloc, talk, b"");
    assert!(&rt; matches!(last, Step::Ended(End::Cut)));
    assert!(&rt; talk.receiver.outgoing().is_empty());
}

/// The head of a request without a token, or of a manifest that is larger than any.
const UNREAD: [(&str, usize, &str); 2] = [
    (
        "POST /v2/team/app/blobs/uploads/?digest=sha256:0 HTTP/1.1\r\nHost: x\r\n\
          Content-Length: 200000\r\n\r\n",
        200,
        "HTTP/1.1 401 ",
    ),
    (
        "PUT /v2/team/app/manifests/v1 HTTP/1.1\r\nHost: x\r\nAuthorization: Bearer t1\r\n\
          Content-Length: 4195000\r\n\r\n",
        4_195,
        "HTTP/1.1 413 ",
    ),
];

/// A body on which no answer depends is let fall as it comes, and the request is answered all the same.
#[test]
fn bodies_that_nobody_reads_are_counted(rt: HostRuntime) {
    let alloc = rt.alloc();
    let talk = &mut new_talk(&rt, alloc);
    for (head, count, start) in UNREAD.iter() {
        let mut last = step(alloc, talk, head.as_bytes());
        for _ in 0..*count {
            last = step(alloc, talk, &[b'x'; 1_000]);
            assert!(&rt; talk.receiver.coming() < 65_536);
            assert!(&rt; !talk.receiver.has_stage());
        }
        assert!(&rt; matches!(last, Step::Answered));
        is_told(&rt, talk, start);
    }
}
