//! Connections that end by a failed read or write, and heads that no byte can complete.

use crate::setting::{Registry, connect, empty, is_answered, is_told, same, setting};
use crate::streams::{Reads, Writes};
use crate::texts::{
    ABC, BAD_REQUEST, BLOB_UNKNOWN, CONTINUE, CREATED, FOUND, GET, PUSH, TOKEN_REQUIRED, filled,
};
use registry_http::{End, FramingRefusal};
use std::alloc::Global;
use std::process::Abort;

/// The request for the base twice.
const TWICE: &str =
    "GET /v2/ HTTP/1.1\r\nHost: r\r\nAuthorization: Bearer t1\r\n\r\nGET /v2/ HTTP/1.1\r\nHost: r\r\n\
      Authorization: Bearer t1\r\n\r\n";

/// The replies to them, of 72 bytes each.
const BASES: &str =
    "HTTP/1.1 200 OK\r\nContent-Length: 2\r\nContent-Type: application/json\r\n\r\n{}\
      HTTP/1.1 200 OK\r\nContent-Length: 2\r\nContent-Type: application/json\r\n\r\n{}";

/// Heads that no byte can complete.
static HOPELESS: [&[u8]; 5] = [
    // The first bytes of a ClientHello, as OpenSSL sends it.
    b"\x16\x03\x01\x02\x00\x01\x00\x01\xfc\x03\x03\x37\xf9\xe5\x33\x86\x6b\x5e\x26\x1f\
      \x04\xa2\x85\xea\xa9\x27\x85\x35\x11\x48\xa4\x08\xa9\x40\xf5\x19\x9a\x52\x69\xe5\
      \x5b\xc1\xaa\x20\x80\x01\xd6\xa3\x3a\xc3\x5b\x33\xdf\x33\xe8\xd9\x8e\x81\x96\x7d\
      \x35\x63\x8b\xc0\x55\xe9\x5f\xbe\xa6\xfe\xd4\xdc\xbf\xd4\xb6\x4e\x00\x24\x13\x02",
    // The preface of HTTP/2.
    b"PRI * HTTP/2.0\r\n\r\nSM\r\n\r\n",
    b"GET /v2/ HTTP/1.1\r\nHost: r\r\nno colon\r\n",
    b"GET /v2/ HTTP/1.1\r\nHost : r\r\n",
    b"GET  /v2/ HTTP/1.1\r\n",
];

/// Such a head is refused at once, though the input does not end. Clients begin with a TLS ClientHello, wait
/// for the answer and go on in plain HTTP after it.
#[test]
fn hopeless_heads_are_refused_at_once(rt: HostRuntime) {
    let alloc = rt.alloc();
    let mut registry = setting(&rt, alloc);
    let (end, output) = (
        End::Refused(FramingRefusal::UnreadableHead),
        BAD_REQUEST.as_bytes(),
    );
    for (place, head) in HOPELESS.iter().enumerate() {
        let all = Reads::of(head, usize::MAX);
        let mut reader = Reads { room: 1, ..all };
        is_answered(&rt, alloc, &mut registry, place, &mut reader, end, output);
    }
}

/// The head of a push by curl.
const OF_CURL: &[u8] = b"POST /v2/team/app/blobs/uploads/?digest=\
      sha256:ba7816bf8f01cfea414140de5dae2223b00361a396177a9cb410ff61f20015ad HTTP/1.1\r\n\
      Host: 127.0.0.1:7000\r\nUser-Agent: curl/7.88.1\r\nAccept: */*\r\n\
      Authorization: Bearer t1\r\nContent-Length: 3\r\n\
      Content-Type: application/x-www-form-urlencoded\r\nExpect: 100-continue\r\n\r\nabc";

const TO_CURL: &str = "HTTP/1.1 100 Continue\r\n\r\n\
      HTTP/1.1 201 Created\r\nContent-Length: 0\r\nDocker-Content-Digest: {digest}\r\n\
      Location: /v2/{name}/blobs/{digest}\r\n\r\n";

/// curl asks before it sends a long body: it is told to go on before a byte of the body is there.
#[test]
fn continue_is_written_before_the_body_comes(rt: HostRuntime) {
    let alloc = rt.alloc();
    let mut registry = setting(&rt, alloc);
    let (head, _) = OF_CURL.split_at(OF_CURL.len() - 3);
    let all = Reads::of(head, usize::MAX);
    let (mut reader, end) = (Reads { room: 1, ..all }, End::ReadFailed);
    is_answered(
        &rt,
        alloc,
        &mut registry,
        0,
        &mut reader,
        end,
        CONTINUE.as_bytes(),
    );
    let output = filled(&rt, alloc, TO_CURL, "team/app", ABC, "");
    let (mut reader, end) = (OF_CURL, End::Closed);
    is_answered(
        &rt,
        alloc,
        &mut registry,
        1,
        &mut reader,
        end,
        output.as_bytes(),
    );
}

/// A request, and the beginning of a second.
const ONE_AND_MORE: &[u8] = b"GET /v2/ HTTP/1.1\r\nHost: r\r\n\r\nGET /v2/ HT";

/// Two requests, of which the first has a body in chunks.
const CHUNKS_AND_ONE: &[u8] =
    b"POST /v2/ HTTP/1.1\r\nHost: r\r\nTransfer-Encoding: Chunked\r\n\r\n3\r\nabc\r\n0\r\n\
      X: y\r\n\r\nGET / HTTP/1.1\r\nHost: r\r\n\r\n";

/// In the middle of a second request, and behind one whose body comes in chunks, over a registry to which no
/// token is known: so many requests are answered.
#[test]
fn reader_fails_at_a_read(rt: HostRuntime) {
    let alloc = rt.alloc();
    for (input, requests) in [(ONE_AND_MORE, 1), (CHUNKS_AND_ONE, 2)] {
        let mut registry = empty(alloc);
        let all = Reads::of(input, 1);
        let (mut reader, end) = (
            Reads {
                room: input.len(),
                ..all
            },
            End::ReadFailed,
        );
        let output = TOKEN_REQUIRED.repeat(alloc, requests).expect(&rt, "memory");
        is_answered(
            &rt,
            alloc,
            &mut registry,
            requests,
            &mut reader,
            end,
            output.as_bytes(),
        );
    }
}

/// What comes; whether the writer fails, or takes no more, behind so many bytes; how the connection ends; and
/// what is to be written, of which the first so many bytes are.
type Stop = (&'static str, bool, usize, End, &'static str);

/// Serves a connection whose writer stops.
fn is_stopped(rt: &impl Abort, alloc: Global, registry: &mut Registry, stop: &Stop) {
    let (input, fails, room, end, wanted) = *stop;
    let input = filled(rt, alloc, input, "team/app", ABC, BODY);
    let size = if fails { 1 } else { usize::MAX };
    let taken = Vec::new(alloc);
    let mut writer = Writes {
        room,
        size,
        fails,
        taken,
    };
    let found = connect(alloc, registry, &mut input.as_bytes(), &mut writer);
    same(rt, room, found, end);
    let wanted = wanted.as_bytes().get(..room);
    same(rt, room, Some(writer.taken.as_slice()), wanted);
}

fn are_stopped(rt: &impl Abort, alloc: Global, stops: &[Stop]) {
    let mut registry = setting(rt, alloc);
    for stop in stops.iter() {
        is_stopped(rt, alloc, &mut registry, stop);
    }
}

/// The request for the base without a token.
const NO_TOKEN: &str = "GET /v2/ HTTP/1.1\r\nHost: r\r\n\r\n";

/// Writers that take one byte a call, and then fail.
static FAILING: [Stop; 5] = [
    (TWICE, true, 82, End::WriteFailed { written: 10 }, BASES),
    (TWICE, true, 0, End::WriteFailed { written: 0 }, BASES),
    (TWICE, true, 72, End::WriteFailed { written: 0 }, BASES),
    (TWICE, true, 71, End::WriteFailed { written: 71 }, BASES),
    (
        NO_TOKEN,
        true,
        3,
        End::WriteFailed { written: 3 },
        TOKEN_REQUIRED,
    ),
];

/// After a failed write what went out of the text in hand is told exactly.
#[test]
fn writer_fails_midway(rt: HostRuntime) {
    are_stopped(&rt, rt.alloc(), FAILING.as_slice());
}

/// The body of the pushes below, and its length.
const BODY: &str = "Content-Length: 3\r\n\r\nabc";

/// A push whose client waits.
const WAITING: &str = "POST /v2/{name}/blobs/uploads/?digest={digest} HTTP/1.1\r\nHost: r\r\n\
      Authorization: Bearer t1\r\nExpect: 100-continue\r\n{body}";

static NOT_TOLD: Stop = (WAITING, true, 5, End::WriteFailed { written: 5 }, CONTINUE);

static NO_REPLY: Stop = (PUSH, true, 0, End::WriteFailed { written: 0 }, "");

/// The blob of a push whose client was not told to go on is not there; the one whose reply could not be
/// written is.
#[test]
fn writer_fails_behind_a_push(rt: HostRuntime) {
    let alloc = rt.alloc();
    let mut registry = setting(&rt, alloc);
    for (stop, reply) in [(&NOT_TOLD, BLOB_UNKNOWN), (&NO_REPLY, FOUND)] {
        is_stopped(&rt, alloc, &mut registry, stop);
        is_told(&rt, alloc, &mut registry, ABC, GET, reply);
    }
}

/// Writers that take no more. The replies have 72 bytes.
static FULL: [Stop; 7] = [
    (TWICE, false, 0, End::WriteFailed { written: 0 }, BASES),
    (TWICE, false, 1, End::WriteFailed { written: 1 }, BASES),
    (TWICE, false, 71, End::WriteFailed { written: 71 }, BASES),
    (TWICE, false, 72, End::WriteFailed { written: 0 }, BASES),
    (TWICE, false, 100, End::WriteFailed { written: 28 }, BASES),
    (TWICE, false, 143, End::WriteFailed { written: 71 }, BASES),
    (TWICE, false, 144, End::Closed, BASES),
];

/// A writer that takes no more bytes ends the connection like one that fails: of the reply in hand exactly
/// so many went out.
#[test]
fn writer_takes_no_more(rt: HostRuntime) {
    are_stopped(&rt, rt.alloc(), FULL.as_slice());
}
