//! Whose turn it is, who has room, and what comes of a connection that is gone.

use crate::play::{Act, Sight, all_happens};
use crate::texts::{LARGE_HEAD, SMALL};
use registry_http::End;
use registry_server::{LARGEST, Receipt, Refusal, SHARE, Step, Wants};

/// Two requests.
const TWO: &[u8] = b"GET /v2/ HTTP/1.1\r\nHost: r\r\n\r\nGET /v2/ HTTP/1.1\r\nHost: r\r\n\r\n";

/// Two connections with two requests each take turns, one request at a time, and none before its last reply
/// has gone out.
static TURNS: [Act; 25] = [
    Act::Open(Ok(0)),
    Act::Open(Ok(1)),
    Act::Open(Err(Refusal::Full)),
    Act::Hear(0, TWO, Receipt::Taken),
    Act::Hear(1, TWO, Receipt::Taken),
    Act::See(Sight::Held(0, TWO.len())),
    Act::Turn(0, Step::Answered),
    Act::Turn(1, Step::Answered),
    Act::NoTurn,
    Act::Send(0, usize::MAX),
    Act::Send(1, usize::MAX),
    Act::Turn(0, Step::Answered),
    Act::Turn(1, Step::Answered),
    Act::NoTurn,
    Act::Send(0, usize::MAX),
    Act::Send(1, usize::MAX),
    Act::Turn(0, Step::Waits),
    Act::Turn(1, Step::Waits),
    Act::NoTurn,
    Act::See(Sight::Held(0, 0)),
    Act::GiveBack(0),
    Act::NoTurn,
    Act::Finish(1, true),
    Act::Turn(1, Step::Ended(End::Closed)),
    Act::NoTurn,
];

/// Nothing of a connection that is gone is answered, and its number is given to no other.
static GONE: [Act; 14] = [
    Act::Open(Ok(0)),
    Act::Hear(0, SMALL, Receipt::Taken),
    Act::Close(0, true),
    Act::Close(0, false),
    Act::NoTurn,
    Act::Open(Ok(1)),
    Act::Hear(0, SMALL, Receipt::NotOpen),
    Act::Finish(0, false),
    Act::NoTurn,
    Act::See(Sight::Going(0, 0)),
    Act::See(Sight::Wants(0, None)),
    Act::See(Sight::Wants(1, Some(Wants::Bytes))),
    Act::See(Sight::Silence(0, 0)),
    Act::See(Sight::Room(0, 0)),
];

/// How many bytes of a body make up a share with the head before it.
const REST: usize = SHARE - LARGE_HEAD.len();

/// Of two large requests the second waits where there is room for one, and a small one does not; the second
/// goes on when the first was answered.
static LARGE: [Act; 20] = [
    Act::Open(Ok(0)),
    Act::Open(Ok(1)),
    Act::Open(Ok(2)),
    Act::Hear(0, LARGE_HEAD, Receipt::Taken),
    Act::HearBody(0, 200_000, Receipt::Taken),
    Act::Hear(1, LARGE_HEAD, Receipt::Taken),
    Act::HearBody(1, 200_000, Receipt::NoRoom),
    Act::See(Sight::Room(1, REST)),
    Act::HearBody(1, REST, Receipt::Taken),
    Act::See(Sight::Room(1, 0)),
    Act::Hear(2, SMALL, Receipt::Taken),
    Act::Turn(0, Step::Waits),
    Act::Turn(1, Step::Waits),
    Act::Turn(2, Step::Answered),
    Act::HearBody(0, 800_000, Receipt::Taken),
    Act::Turn(0, Step::Answered),
    Act::See(Sight::Room(1, LARGEST)),
    Act::HearBody(1, 1_000_000 - REST, Receipt::Taken),
    Act::Turn(1, Step::Answered),
    Act::NoTurn,
];

/// Where a reply fills the room for replies, none is answered before it has gone out.
static FULL: [Act; 9] = [
    Act::Open(Ok(0)),
    Act::Hear(0, SMALL, Receipt::Taken),
    Act::Open(Ok(1)),
    Act::Hear(1, SMALL, Receipt::Taken),
    Act::Turn(0, Step::Answered),
    Act::See(Sight::HasRoom(false)),
    Act::NoTurn,
    Act::Send(0, usize::MAX),
    Act::Turn(1, Step::Answered),
];

#[test]
fn one_request_and_then_the_next_connection(rt: HostRuntime) {
    all_happens(&rt, rt.alloc(), 2, 1_000_000, TURNS.as_slice());
}

#[test]
fn nothing_of_one_that_is_gone(rt: HostRuntime) {
    all_happens(&rt, rt.alloc(), 1, 1_000_000, GONE.as_slice());
}

#[test]
fn a_small_request_waits_for_no_large_one(rt: HostRuntime) {
    all_happens(&rt, rt.alloc(), 3, 1_000_000, LARGE.as_slice());
}

#[test]
fn no_turn_where_replies_fill_the_room(rt: HostRuntime) {
    all_happens(&rt, rt.alloc(), 2, 1, FULL.as_slice());
}
