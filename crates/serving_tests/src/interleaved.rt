//! Eight connections at once, whose requests are cut and interleaved by a small generator.

use crate::play::{Play, new_play, send};
use crate::setting::{add, empty, grant, same};
use crate::texts::{HELLO, THREE_REPLIES, THREE_REQUESTS, filled};
use registry_model::Level;
use registry_server::{Connections, Wants};
use std::alloc::Global;
use std::process::Abort;

/// A connection's number, what comes on it and how much of that came, and what went out on it and is to.
struct Client {
    number: u64,
    input: String,
    came: usize,
    output: Vec<u8>,
    wanted: String,
}

impl Drop for Client {
    fn drop(self) {
        let Client {
            number: _,
            input: _,
            came: _,
            output: _,
            wanted: _,
        } = self;
    }
}

/// A body that comes in chunks.
const CHUNKS: &str = "Transfer-Encoding: chunked\r\n\r\n2\r\nhe\r\n3\r\nllo\r\n0\r\n\r\n";

/// Some bytes come.
fn hear(connections: &mut Connections, client: &mut Client, count: usize) {
    let bytes = client.input.as_bytes();
    if client.came <= bytes.len() {
        let rest = &bytes[client.came..];
        let end = count.min(rest.len());
        let _ = connections.receive(client.number, &rest[..end]);
        client.came += end;
    }
}

/// A number below `bound`, and the seed of the next.
fn draw(seed: &mut u64, bound: usize) -> usize {
    *seed = seed
        .wrapping_mul(6_364_136_223_846_793_005)
        .wrapping_add(1_442_695_040_888_963_407);
    let drawn = (*seed >> 40) as usize;
    if bound == 0 { 0 } else { drawn % bound }
}

/// One thing happens, to any of them.
fn happen(rt: &impl Abort, alloc: Global, play: &mut Play, clients: &mut [Client], seed: &mut u64) {
    let which = draw(seed, clients.len());
    let count = draw(seed, 60);
    let what = draw(seed, 3);
    let connections = &mut play.connections;
    if let Some(client) = clients.get_mut(which) {
        match what {
            0 => hear(connections, client, count),
            1 => send(rt, connections, client.number, count, &mut client.output),
            _ => {
                let _ = connections.turn(alloc, &mut play.registry);
            }
        }
    }
}

/// All that is left comes, is answered and goes out, a reply before the next request is answered.
fn settle(rt: &impl Abort, alloc: Global, play: &mut Play, clients: &mut [Client]) {
    let connections = &mut play.connections;
    for client in clients.iter_mut() {
        hear(connections, client, usize::MAX);
        let _ = connections.finish(client.number);
    }
    for _ in 0..100 {
        for client in clients.iter_mut() {
            send(
                rt,
                connections,
                client.number,
                usize::MAX,
                &mut client.output,
            );
        }
        if connections.turn(alloc, &mut play.registry).is_none() {
            break;
        }
    }
}

/// A connection with a push, a fetch, and a HEAD that closes it, of a repository of its own.
fn come(rt: &impl Abort, alloc: Global, play: &mut Play, name: &str) -> Client {
    add(rt, alloc, &mut play.registry, name, 1000);
    grant(rt, alloc, &mut play.registry, "t1", name, Level::Delete);
    Client {
        number: play.connections.open(alloc).expect(rt, "a number"),
        input: filled(rt, alloc, THREE_REQUESTS, name, HELLO, CHUNKS),
        came: 0,
        output: Vec::new(alloc),
        wanted: filled(rt, alloc, THREE_REPLIES, name, HELLO, "hello"),
    }
}

/// Their repositories.
static NAMES: [&str; 8] = [
    "team/a0", "team/a1", "team/a2", "team/a3", "team/a4", "team/a5", "team/a6", "team/a7",
];

fn all_come(rt: &impl Abort, alloc: Global, play: &mut Play) -> Vec<Client> {
    let mut clients = Vec::new(alloc);
    for name in NAMES.iter() {
        clients
            .push(come(rt, alloc, play, name))
            .expect(rt, "memory");
    }
    clients
}

/// Eight connections, which are cut and interleaved by this seed: all that comes is answered as if each were
/// alone, and goes out.
fn are_interleaved(rt: &impl Abort, alloc: Global, mut seed: u64) {
    let mut play = new_play(rt, alloc, empty(alloc), 8, 1_000_000);
    let mut clients = all_come(rt, alloc, &mut play);
    for _ in 0..400 {
        happen(rt, alloc, &mut play, clients.as_mut_slice(), &mut seed);
    }
    settle(rt, alloc, &mut play, clients.as_mut_slice());
    for client in clients.iter() {
        same(rt, 0, client.output.as_slice(), client.wanted.as_bytes());
        same(
            rt,
            1,
            play.connections.wants(client.number),
            Some(Wants::Nothing),
        );
    }
}

#[test]
fn eight_connections_interleaved(rt: HostRuntime) {
    for seed in 0..40 {
        are_interleaved(&rt, rt.alloc(), seed);
    }
}
