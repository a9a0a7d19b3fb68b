//! What is staged of connections that are gone, and who waits for room to stage a body.

use crate::requests::{Registry, registry_with, registry_within};
use registry_holding::Holder;
use registry_model::Settings;
use registry_server::{Bounds, Connections, Receipt};
use registry_service::Service;
use std::alloc::Global;
use std::process::Abort;

/// The head of an upload of 200,000 bytes.
const HEAD: &[u8] = b"POST /v2/team/app/blobs/uploads/?digest=sha256:0 HTTP/1.1\r\nHost: x\r\n\
      Authorization: Bearer t1\r\nContent-Length: 200000\r\n\r\n";

/// These bytes come on a connection, and it takes a turn.
fn come(
    rt: &impl Abort,
    alloc: Global,
    connections: &mut Connections,
    registry: &mut Registry,
    number: u64,
    bytes: &[u8],
) {
    let receipt = connections.receive(number, bytes);
    assert!(rt; matches!(receipt, Receipt::Taken));
    let _ = connections.turn(alloc, registry);
}

/// Whether something is staged under a number.
fn is_staged(rt: &impl Abort, registry: Registry, number: u64) -> (Registry, bool) {
    let mut holder = registry.into_keeper();
    let staged = holder.staged(number).expect(rt, "an answer");
    (Service::new(holder), staged.is_some())
}

/// Two connections.
fn two(rt: &impl Abort, alloc: Global) -> (Connections, u64, u64) {
    let bounds = Bounds {
        at_once: 2,
        coming: 0,
        going: 1_000_000,
    };
    let made = Connections::new(alloc, Settings::profile(), bounds);
    let mut connections = made.expect(rt, "memory");
    let first = connections.open(alloc).expect(rt, "a number");
    let second = connections.open(alloc).expect(rt, "another");
    (connections, first, second)
}

/// The head of an upload comes, and 60,000 bytes of its body.
fn begin(
    rt: &impl Abort,
    alloc: Global,
    connections: &mut Connections,
    registry: &mut Registry,
    number: u64,
) {
    come(rt, alloc, connections, registry, number, HEAD);
    for _ in 0..60 {
        come(rt, alloc, connections, registry, number, &[b'x'; 1_000]);
    }
}

/// The stage of a connection that was closed goes when it is asked to, and no other one.
#[test]
fn nothing_stays_staged_of_one_that_is_gone(rt: HostRuntime) {
    let alloc = rt.alloc();
    let (mut connections, first, second) = two(&rt, alloc);
    let mut registry = registry_with(&rt, alloc, 1_000_000);
    begin(&rt, alloc, &mut connections, &mut registry, first);
    begin(&rt, alloc, &mut connections, &mut registry, second);
    assert!(&rt; connections.close(first));
    let (mut registry, staged) = is_staged(&rt, registry, first);
    assert!(&rt; staged);
    connections.let_go(&mut registry);
    let (registry, staged) = is_staged(&rt, registry, first);
    assert!(&rt; !staged);
    let (_, staged) = is_staged(&rt, registry, second);
    assert!(&rt; staged);
}

/// Where there is room for one body of two, the second waits until the first is gone.
#[test]
fn a_body_waits_for_room(rt: HostRuntime) {
    let alloc = rt.alloc();
    let (mut connections, first, second) = two(&rt, alloc);
    let mut registry = registry_within(&rt, alloc, 1_000_000, 300_000);
    begin(&rt, alloc, &mut connections, &mut registry, first);
    assert!(&rt; connections.has_stage(first));
    begin(&rt, alloc, &mut connections, &mut registry, second);
    assert!(&rt; connections.waits_for_stage(second));
    assert!(&rt; connections.takes(first) > 0);
    assert!(&rt; connections.takes(second) == 0);
    connections.stir_waiting();
    assert!(&rt; connections.turn(alloc, &mut registry).is_none());
    assert!(&rt; connections.close(first));
    connections.let_go(&mut registry);
    connections.stir_waiting();
    assert!(&rt; connections.turn(alloc, &mut registry).is_some());
    assert!(&rt; connections.has_stage(second));
    assert!(&rt; connections.takes(second) > 0);
}
