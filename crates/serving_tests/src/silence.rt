//! What is a sign of life on a connection, and who has given none for how long.

use crate::play::{Act, Play, Sight, all_happens, go_on, happens, new_play};
use crate::setting::empty;
use crate::texts::{LARGE_HEAD, SMALL};
use registry_server::life::SIGN_OF_LIFE;
use registry_server::{Receipt, Step};
use std::alloc::Global;
use std::process::Abort;

/// When the connections come, in milliseconds.
const BEGIN: u64 = 5_000;

/// Two connections come then.
static BOTH_COME: [Act; 3] = [Act::Tick(BEGIN), Act::Open(Ok(0)), Act::Open(Ok(1))];

/// For how long one was silent whose head came a byte a second.
const OF_HEAD: u64 = 1_000 * (LARGE_HEAD.len() as u64 - 1);

/// 65,536 bytes are a sign of life, whether they were taken or let fall; the head was taken before these.
static BEHIND_HEAD: [Act; 5] = [
    Act::See(Sight::Silence(0, OF_HEAD)),
    Act::HearBody(0, SIGN_OF_LIFE - LARGE_HEAD.len() - 1, Receipt::Taken),
    Act::See(Sight::Silence(0, OF_HEAD)),
    Act::Move(0, 1),
    Act::See(Sight::Silence(0, 0)),
];

/// The last byte of a reply is a sign of life, and none before it.
static REPLY: [Act; 14] = [
    Act::Tick(BEGIN),
    Act::Open(Ok(0)),
    Act::Open(Ok(1)),
    Act::Hear(1, SMALL, Receipt::Taken),
    Act::Turn(1, Step::Answered),
    Act::NoTurn,
    Act::Tick(BEGIN + 10_000),
    Act::Send(1, 1),
    Act::See(Sight::Silence(1, 10_000)),
    Act::Send(1, usize::MAX),
    Act::See(Sight::Silence(1, 0)),
    Act::Turn(1, Step::Waits),
    Act::NoTurn,
    Act::See(Sight::Silence(1, 0)),
];

/// One that has been silent for just so long is named, and none that is gone.
static NAMED: [Act; 12] = [
    Act::Tick(BEGIN),
    Act::Open(Ok(0)),
    Act::Open(Ok(1)),
    Act::Tick(BEGIN + 1_000),
    Act::Move(1, SIGN_OF_LIFE),
    Act::Tick(BEGIN + 3_000),
    Act::See(Sight::Silent(3_000, Some(0))),
    Act::See(Sight::Silent(3_001, None)),
    Act::Close(0, true),
    Act::See(Sight::Silence(0, 0)),
    Act::See(Sight::Silent(3_000, None)),
    Act::See(Sight::Silent(2_000, Some(1))),
];

/// A byte of the head comes, and is looked at.
fn hears_byte(rt: &impl Abort, alloc: Global, play: &mut Play, time: u64, byte: &[u8]) {
    happens(rt, alloc, 0, play, Act::Tick(time));
    happens(rt, alloc, 1, play, Act::Hear(0, byte, Receipt::Taken));
    happens(rt, alloc, 2, play, Act::Turn(0, Step::Waits));
    happens(rt, alloc, 3, play, Act::NoTurn);
}

/// A head that comes a byte a second, each of which is looked at, is no sign of life.
#[test]
fn a_byte_a_second_is_silence(rt: HostRuntime) {
    let alloc = rt.alloc();
    let mut play = new_play(&rt, alloc, empty(alloc), 2, 1_000_000);
    go_on(&rt, alloc, &mut play, BOTH_COME.as_slice());
    let mut time = BEGIN;
    for byte in LARGE_HEAD.chunks(1) {
        hears_byte(&rt, alloc, &mut play, time, byte);
        time = time.saturating_add(1_000);
    }
    go_on(&rt, alloc, &mut play, BEHIND_HEAD.as_slice());
}

#[test]
fn a_reply_that_went_whole_is_life(rt: HostRuntime) {
    all_happens(&rt, rt.alloc(), 2, 1_000_000, REPLY.as_slice());
}

#[test]
fn who_was_silent_is_named(rt: HostRuntime) {
    all_happens(&rt, rt.alloc(), 2, 1_000_000, NAMED.as_slice());
}
