//! However an input is cut into reads, the same is answered; and an input that ends early, or whose reader
//! fails.

use crate::setting::{Registry, add, empty, grant, is_answered, is_told, setting};
use crate::streams::Reads;
use crate::texts::{
    ABC, BLOB_UNKNOWN, CREATED, DELETE, DELETED, GET, HELLO, IN_CHUNKS, PUSH, THREE_REPLIES,
    THREE_REQUESTS, filled,
};
use registry_http::End;
use registry_model::Level;
use std::alloc::Global;
use std::process::Abort;

/// The sha256 digest of 200,000 bytes `k`.
const LONG: &str = "sha256:dbbfafdac3d58b172f1786c19e4d2fb673ba22515c3fc6eb3e6232220a476595";

/// The body `abc` by its length.
const BY_LENGTH: &str = "Content-Length: 3\r\n\r\nabc";

/// The same in a chunk.
const IN_A_CHUNK: &str = "Transfer-Encoding: chunked\r\n\r\n3\r\nabc\r\n0\r\n\r\n";

/// A push and the fetch behind it.
const PUSH_AND_GET: &str = "POST /v2/{name}/blobs/uploads/?digest={digest} HTTP/1.1\r\nHost: r\r\n\
      Authorization: Bearer t1\r\n{body}\
      GET /v2/{name}/blobs/{digest} HTTP/1.1\r\nHost: r\r\nAuthorization: Bearer t1\r\n\r\n";

/// The replies to both.
const CREATED_AND_FOUND: &str =
    "HTTP/1.1 201 Created\r\nContent-Length: 0\r\nDocker-Content-Digest: {digest}\r\n\
      Location: /v2/{name}/blobs/{digest}\r\n\r\n\
      HTTP/1.1 200 OK\r\nContent-Length: {length}\r\nContent-Type: application/octet-stream\r\n\
      Docker-Content-Digest: {digest}\r\n\r\n{body}";

/// Both, and how long the push is, and the reply to it.
struct Pair {
    input: String,
    pushed: usize,
    output: String,
    created: usize,
}

impl Drop for Pair {
    fn drop(self) {
        let Pair {
            input: _,
            pushed: _,
            output: _,
            created: _,
        } = self;
    }
}

/// The push of `abc` with these fields and this body, and the fetch of it.
fn push_and_get(rt: &impl Abort, alloc: Global, rest: &str) -> Pair {
    let (name, data) = ("team/app", "abc");
    Pair {
        input: filled(rt, alloc, PUSH_AND_GET, name, ABC, rest),
        pushed: filled(rt, alloc, PUSH, name, ABC, rest).len(),
        output: filled(rt, alloc, CREATED_AND_FOUND, name, ABC, data),
        created: filled(rt, alloc, CREATED, name, ABC, data).len(),
    }
}

/// How a connection ends to which so many bytes come, and how many are written: none, those of the first
/// reply, or all.
fn end_at(pair: &Pair, come: usize) -> (End, usize) {
    if come == pair.input.len() {
        (End::Closed, pair.output.len())
    } else if come > pair.pushed {
        (End::Cut, pair.created)
    } else if come == pair.pushed {
        (End::Closed, pair.created)
    } else if come > 0 {
        (End::Cut, 0)
    } else {
        (End::Closed, 0)
    }
}

/// The first so many bytes of a text, or all.
fn first(text: &str, count: usize) -> &[u8] {
    let (first, _) = text.as_bytes().split_at(count.min(text.len()));
    first
}

/// So many bytes come, behind which the input ends, or a read fails.
fn is_stopped_at(
    rt: &impl Abort,
    alloc: Global,
    registry: &mut Registry,
    pair: &Pair,
    come: usize,
) {
    let (end, written) = end_at(pair, come);
    let output = first(pair.output.as_str(), written);
    let mut reader = first(pair.input.as_str(), come);
    is_answered(rt, alloc, registry, come, &mut reader, end, output);
    let all = Reads::of(pair.input.as_bytes(), 1);
    let (mut reader, end) = (Reads { room: come, ..all }, End::ReadFailed);
    is_answered(rt, alloc, registry, come, &mut reader, end, output);
}

/// A request that is not whole leaves nothing behind, so one registry serves for all places.
fn is_stopped_at_each_byte(rt: &impl Abort, alloc: Global, rest: &str) {
    let pair = push_and_get(rt, alloc, rest);
    let mut registry = setting(rt, alloc);
    for come in 0..pair.input.len() + 1 {
        if come == pair.pushed {
            is_told(rt, alloc, &mut registry, ABC, GET, BLOB_UNKNOWN);
        }
        is_stopped_at(rt, alloc, &mut registry, &pair, come);
    }
}

/// `Closed` between requests and `Cut` inside one, or `ReadFailed`; what was written are the replies of the
/// whole requests before.
#[test]
fn input_stopped_at_each_byte(rt: HostRuntime) {
    for rest in [BY_LENGTH, IN_A_CHUNK] {
        is_stopped_at_each_byte(&rt, rt.alloc(), rest);
    }
}

/// Serves one connection in these reads, and deletes the blob that was pushed.
fn is_served(
    rt: &impl Abort,
    alloc: Global,
    registry: &mut Registry,
    mut reader: Reads,
    output: &[u8],
    mut delete: &[u8],
) {
    let (place, end) = (reader.cut, End::Closed);
    is_answered(rt, alloc, registry, place, &mut reader, end, output);
    is_answered(
        rt,
        alloc,
        registry,
        place,
        &mut delete,
        end,
        DELETED.as_bytes(),
    );
}

/// Wherever the input is cut into two reads, and in reads of several sizes, the same is written.
fn is_cut_anywhere(rt: &impl Abort, alloc: Global, digest: &str, input: &[u8], output: &[u8]) {
    let mut registry = setting(rt, alloc);
    let delete = filled(rt, alloc, DELETE, "team/app", digest, "");
    let delete = delete.as_bytes();
    for cut in 1..input.len() + 1 {
        let whole = Reads::of(input, usize::MAX);
        is_served(
            rt,
            alloc,
            &mut registry,
            Reads { cut, ..whole },
            output,
            delete,
        );
    }
    for size in [1, 2, 7, 100] {
        let reader = Reads::of(input, size);
        is_served(rt, alloc, &mut registry, reader, output, delete);
    }
}

/// A push by length, an empty line, a fetch, and the head of a fetch that closes the connection, with
/// bytes behind it.
#[test]
fn whole_input_in_all_cuts(rt: HostRuntime) {
    let alloc = rt.alloc();
    let input = filled(&rt, alloc, THREE_REQUESTS, "team/app", ABC, BY_LENGTH);
    let output = filled(&rt, alloc, THREE_REPLIES, "team/app", ABC, "abc");
    is_cut_anywhere(&rt, alloc, ABC, input.as_bytes(), output.as_bytes());
}

/// A push in chunks, with an extension, a trailer and a client that waits, and a fetch with a body,
/// which is read and ignored.
const CHUNKED: &str = "POST /v2/{name}/blobs/uploads/?digest={digest} HTTP/1.1\r\nHost: r\r\n\
      Authorization: Bearer t1\r\n{body}\
      GET /v2/{name}/blobs/{digest} HTTP/1.1\r\nHost: r\r\nAuthorization: Bearer t1\r\n\
      Content-Length: 4\r\n\r\nGET ";

const TO_CHUNKED: &str = "HTTP/1.1 100 Continue\r\n\r\n\
      HTTP/1.1 201 Created\r\nContent-Length: 0\r\nDocker-Content-Digest: {digest}\r\n\
      Location: /v2/{name}/blobs/{digest}\r\n\r\n\
      HTTP/1.1 200 OK\r\nContent-Length: {length}\r\nContent-Type: application/octet-stream\r\n\
      Docker-Content-Digest: {digest}\r\n\r\n{body}";

#[test]
fn chunked_input_in_all_cuts(rt: HostRuntime) {
    let alloc = rt.alloc();
    let input = filled(&rt, alloc, CHUNKED, "team/app", HELLO, IN_CHUNKS);
    let output = filled(&rt, alloc, TO_CHUNKED, "team/app", HELLO, "hello");
    is_cut_anywhere(&rt, alloc, HELLO, input.as_bytes(), output.as_bytes());
}

/// A body of 200,000 bytes: parts of so many, so many times; the texts round a part, and round all of them.
type Long = (usize, usize, &'static str, &'static str);

const CHUNKS: &str = "Transfer-Encoding: chunked\r\n\r\n{body}0\r\n\r\n";

/// By its length, in chunks of 1,000 and in chunks of 40,000.
static LONG_BODIES: [Long; 3] = [
    (200_000, 1, "{body}", "Content-Length: 200000\r\n\r\n{body}"),
    (1_000, 200, "3e8\r\n{body}\r\n", CHUNKS),
    (40_000, 5, "9c40\r\n{body}\r\n", CHUNKS),
];

/// Such a body, behind its fields.
fn written(rt: &impl Abort, alloc: Global, (count, times, part, whole): Long) -> String {
    let data = "k".repeat(alloc, count).expect(rt, "memory");
    let part = filled(rt, alloc, part, "", "", data.as_str());
    let parts = part.repeat(alloc, times).expect(rt, "memory");
    filled(rt, alloc, whole, "", "", parts.as_str())
}

/// A registry with room for 200,000 bytes.
fn large_setting(rt: &impl Abort, alloc: Global) -> Registry {
    let mut registry = empty(alloc);
    add(rt, alloc, &mut registry, "team/app", 1_000_000_000);
    grant(rt, alloc, &mut registry, "t1", "team/app", Level::Push);
    registry
}

/// Pushes 200,000 bytes with these fields and this body, and fetches them, in reads of several sizes.
fn is_pushed(rt: &impl Abort, alloc: Global, rest: &str) {
    let data = "k".repeat(alloc, 200_000).expect(rt, "memory");
    let input = filled(rt, alloc, PUSH_AND_GET, "team/app", LONG, rest);
    let output = filled(
        rt,
        alloc,
        CREATED_AND_FOUND,
        "team/app",
        LONG,
        data.as_str(),
    );
    for size in [999, 4_096, 65_536, 65_537, 131_072, 1_000_000] {
        let mut registry = large_setting(rt, alloc);
        let mut reader = Reads::of(input.as_bytes(), size);
        let (end, output) = (End::Closed, output.as_bytes());
        is_answered(rt, alloc, &mut registry, size, &mut reader, end, output);
    }
}

/// A body that is longer than a read, and than the room for one.
#[test]
fn body_longer_than_a_read(rt: HostRuntime) {
    for long in LONG_BODIES.iter() {
        let rest = written(&rt, rt.alloc(), *long);
        is_pushed(&rt, rt.alloc(), rest.as_str());
    }
}
