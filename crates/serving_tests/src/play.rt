//! What happens to connections and what must come of it, as data.

use crate::setting::{Registry, empty, same};
use registry_model::Settings;
use registry_server::{Bounds, Connections, Receipt, Refusal, Step, Turn, Wants};
use std::alloc::Global;
use std::process::Abort;

/// Connections, and the registry that they are served by.
pub struct Play {
    pub connections: Connections,
    pub registry: Registry,
}

impl Drop for Play {
    fn drop(self) {
        let Play {
            connections: _,
            registry: _,
        } = self;
    }
}

/// One thing that happens, and what it comes to. The first number is a connection's.
#[derive(Clone, Copy)]
pub enum Act<'a> {
    /// It is this time.
    Tick(u64),
    /// A connection comes.
    Open(Result<u64, Refusal>),
    /// These bytes come.
    Hear(u64, &'a [u8], Receipt),
    /// So many bytes `x` come.
    HearBody(u64, usize, Receipt),
    /// The input ends; whether it is open.
    Finish(u64, bool),
    /// It is gone; whether it was open.
    Close(u64, bool),
    /// It takes a turn.
    Turn(u64, Step),
    /// None has a turn to take.
    NoTurn,
    /// So many bytes go out, or all that are to go.
    Send(u64, usize),
    /// So many bytes are read and let fall.
    Move(u64, usize),
    GiveBack(u64),
    /// Nothing happens, and this is seen.
    See(Sight),
}

/// What is seen of connections.
#[derive(Clone, Copy)]
pub enum Sight {
    /// How many bytes it holds.
    Held(u64, usize),
    /// How many bytes are to go out.
    Going(u64, usize),
    /// How many bytes it may be given.
    Room(u64, usize),
    Wants(u64, Option<Wants>),
    /// For how long it was silent.
    Silence(u64, u64),
    /// Who was silent for so long.
    Silent(u64, Option<u64>),
    /// Whether there is room for a reply.
    HasRoom(bool),
}

/// So many connections at once, no room for requests but their shares and one that is largest, and so much
/// for replies.
pub fn new_play(
    rt: &impl Abort,
    alloc: Global,
    registry: Registry,
    at_once: usize,
    going: usize,
) -> Play {
    let bounds = Bounds {
        at_once,
        coming: 0,
        going,
    };
    Play {
        connections: Connections::new(alloc, Settings::profile(), bounds).expect(rt, "memory"),
        registry,
    }
}

/// Some bytes go out, if there are so many.
pub fn send(
    rt: &impl Abort,
    connections: &mut Connections,
    number: u64,
    count: usize,
    output: &mut Vec<u8>,
) {
    let going = connections.outgoing(number);
    let count = count.min(going.len());
    let of_head = count.min(going.head.len());
    output
        .extend_from_slice(&going.head[..of_head])
        .expect(rt, "memory");
    output
        .extend_from_slice(&going.body[..count - of_head])
        .expect(rt, "memory");
    let _ = connections.sent(number, count);
}

/// Whose turn it was, and what it came to.
fn told(turn: Option<Turn>) -> Option<(u64, Step)> {
    match turn {
        Some(turn) => Some((turn.number, turn.step)),
        None => None,
    }
}

fn is_seen(rt: &impl Abort, place: usize, connections: &Connections, sight: Sight) {
    match sight {
        Sight::Held(number, count) => same(rt, place, connections.held(number), count),
        Sight::Going(number, count) => same(rt, place, connections.outgoing(number).len(), count),
        Sight::Room(number, count) => same(rt, place, connections.room(number), count),
        Sight::Wants(number, wants) => same(rt, place, connections.wants(number), wants),
        Sight::Silence(number, time) => same(rt, place, connections.silence(number), time),
        Sight::Silent(limit, number) => same(rt, place, connections.silent(limit), number),
        Sight::HasRoom(has) => same(rt, place, connections.has_room_for_reply(), has),
    }
}

/// It happens, and that comes of it.
pub fn happens(rt: &impl Abort, alloc: Global, place: usize, play: &mut Play, act: Act) {
    let connections = &mut play.connections;
    match act {
        Act::Tick(time) => connections.tick(time),
        Act::Open(opened) => same(rt, place, connections.open(alloc), opened),
        Act::Hear(number, bytes, receipt) => {
            same(rt, place, connections.receive(number, bytes), receipt);
        }
        Act::HearBody(number, count, receipt) => {
            let body = vec![in alloc; b'x'; count].expect(rt, "memory");
            same(rt, place, connections.receive(number, &body), receipt);
        }
        Act::Finish(number, is_open) => same(rt, place, connections.finish(number), is_open),
        Act::Close(number, was_open) => same(rt, place, connections.close(number), was_open),
        Act::Turn(number, step) => {
            let turn = connections.turn(alloc, &mut play.registry);
            same(rt, place, told(turn), Some((number, step)));
        }
        Act::NoTurn => {
            let turn = connections.turn(alloc, &mut play.registry);
            same(rt, place, told(turn), None);
        }
        Act::Send(number, count) => send(rt, connections, number, count, &mut Vec::new(alloc)),
        Act::Move(number, count) => connections.note_moved(number, count),
        Act::GiveBack(number) => connections.give_back(alloc, number),
        Act::See(sight) => is_seen(rt, place, connections, sight),
    }
}

/// All of it happens, one after the other.
pub fn go_on(rt: &impl Abort, alloc: Global, play: &mut Play, acts: &[Act]) {
    for (place, act) in acts.iter().enumerate() {
        happens(rt, alloc, place, play, *act);
    }
}

/// The same, from no connections and an empty registry on.
pub fn all_happens(rt: &impl Abort, alloc: Global, at_once: usize, going: usize, acts: &[Act]) {
    let mut play = new_play(rt, alloc, empty(alloc), at_once, going);
    go_on(rt, alloc, &mut play, acts);
}
