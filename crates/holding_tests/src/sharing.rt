//! Blobs whose bytes several readers hold at once.

use crate::requests::{Registry, registry_over, request};
use oci_types::{Digest, RepoName, Token};
use registry_holding::Holding;
use registry_maps::MapKeeper;
use registry_model::{AdminCommand, Body, Level, Quota, Request, Route, Verb};
use std::alloc::Global;
use std::process::Abort;
use std::rc::Rc;

const LARGE: usize = 70_000;

/// So many bytes, and their digest.
fn blob(rt: &impl Abort, alloc: Global, size: usize) -> (Vec<u8>, Digest) {
    let bytes = vec![in alloc; b'x'; size].expect(rt, "memory");
    let digest = Digest::of_sha256(alloc, bytes.as_slice()).expect(rt, "a digest");
    (bytes, digest)
}

/// The status of the reply to a request, and the bytes of its body if others may hold them.
fn ask(alloc: Global, registry: &mut Registry, asked: &Request<'_>) -> (u16, Option<Rc<Vec<u8>>>) {
    let reply = registry.handle(alloc, asked);
    let bytes = match &reply.body {
        Body::Shared(bytes) => bytes.clone().ok(),
        _ => None,
    };
    (reply.status.code(), bytes)
}

fn push(alloc: Global, registry: &mut Registry, name: &str, digest: &str, bytes: &[u8]) -> u16 {
    let asked = Request {
        body: bytes,
        ..request("t1", Verb::Post, Route::Uploads { name }, Some(digest))
    };
    ask(alloc, registry, &asked).0
}

fn get(alloc: Global, registry: &mut Registry, name: &str, digest: &str) -> Option<Rc<Vec<u8>>> {
    ask(
        alloc,
        registry,
        &request("t1", Verb::Get, Route::Blob { name, digest }, None),
    )
    .1
}

/// The status of the reply to a deletion.
fn delete(alloc: Global, registry: &mut Registry, name: &str, digest: &str) -> u16 {
    ask(
        alloc,
        registry,
        &request("t1", Verb::Delete, Route::Blob { name, digest }, None),
    )
    .0
}

/// Makes an empty repository.
fn add(rt: &impl Abort, alloc: Global, registry: &mut Registry, name: &str) {
    let name = &RepoName::parse(alloc, name).expect(rt, "a name");
    let quota = Quota::new(1_000_000).expect(rt, "a quota");
    let added = registry.admin(alloc, &AdminCommand::AddRepo { name, quota });
    added.expect(rt, "a repository");
}

/// `t1` may do everything in a repository.
fn grant(rt: &impl Abort, alloc: Global, registry: &mut Registry, name: &str) {
    let name = &RepoName::parse(alloc, name).expect(rt, "a name");
    let token = &Token::parse(alloc, "t1").expect(rt, "a token");
    let level = Level::Delete;
    let granted = registry.admin(alloc, &AdminCommand::Grant { token, name, level });
    granted.expect(rt, "a level");
}

/// Drops a repository.
fn drop_repo(rt: &impl Abort, alloc: Global, registry: &mut Registry, name: &str) {
    let name = &RepoName::parse(alloc, name).expect(rt, "a name");
    let dropped = registry.admin(alloc, &AdminCommand::DropRepo { name });
    dropped.expect(rt, "nothing");
}

/// The repositories `team/app` and `team/web`, where so many bytes of blobs are held that were read last.
fn two_within(rt: &impl Abort, alloc: Global, recent: usize) -> Registry {
    let holding = Holding::within(alloc, MapKeeper::new(alloc), u64::MAX, recent);
    let mut registry = registry_over(rt, alloc, holding, 1_000_000);
    grant(rt, alloc, &mut registry, "team/app");
    add(rt, alloc, &mut registry, "team/web");
    grant(rt, alloc, &mut registry, "team/web");
    registry
}

/// Pushes a blob of so many bytes, and gives them and their digest.
fn pushed(
    rt: &impl Abort,
    alloc: Global,
    registry: &mut Registry,
    name: &str,
    size: usize,
) -> (Vec<u8>, Digest) {
    let (bytes, digest) = blob(rt, alloc, size);
    let status = push(alloc, registry, name, digest.as_str(), bytes.as_slice());
    assert_eq!(rt; status, 201);
    (bytes, digest)
}

/// Who reads a large blob while another does holds the same bytes, also behind writes that leave the blob.
/// Of another repository, and of a small blob, the bytes are other ones.
#[test]
fn readers_hold_the_same_bytes(rt: HostRuntime) {
    let alloc = rt.alloc();
    let mut registry = two_within(&rt, alloc, 0);
    let (bytes, digest) = pushed(&rt, alloc, &mut registry, "team/app", LARGE);
    let _ = pushed(&rt, alloc, &mut registry, "team/web", LARGE);
    let first = get(alloc, &mut registry, "team/app", digest.as_str()).expect(&rt, "bytes");
    assert!(&rt; first.as_slice() == bytes.as_slice());
    let (small, short) = pushed(&rt, alloc, &mut registry, "team/app", 5);
    let second = get(alloc, &mut registry, "team/app", digest.as_str()).expect(&rt, "bytes");
    assert!(&rt; Rc::ptr_eq(&first, &second));
    let other = get(alloc, &mut registry, "team/web", digest.as_str()).expect(&rt, "bytes");
    assert!(&rt; !Rc::ptr_eq(&first, &other));
    assert!(&rt; other.as_slice() == bytes.as_slice());
    let one = get(alloc, &mut registry, "team/app", short.as_str()).expect(&rt, "bytes");
    let two = get(alloc, &mut registry, "team/app", short.as_str()).expect(&rt, "bytes");
    assert!(&rt; !Rc::ptr_eq(&one, &two));
    assert!(&rt; two.as_slice() == small.as_slice());
}

/// A blob that is deleted while its bytes are held is not found; who holds them holds them whole. Pushed
/// again, it is read anew.
#[test]
fn deleted_blobs_are_not_shared(rt: HostRuntime) {
    let alloc = rt.alloc();
    let mut registry = two_within(&rt, alloc, 0);
    let (bytes, digest) = pushed(&rt, alloc, &mut registry, "team/app", LARGE);
    let held = get(alloc, &mut registry, "team/app", digest.as_str()).expect(&rt, "bytes");
    let status = delete(alloc, &mut registry, "team/app", digest.as_str());
    assert_eq!(&rt; status, 202);
    let none = get(alloc, &mut registry, "team/app", digest.as_str());
    assert!(&rt; none.is_none());
    assert!(&rt; held.as_slice() == bytes.as_slice());
    let _ = pushed(&rt, alloc, &mut registry, "team/app", LARGE);
    let again = get(alloc, &mut registry, "team/app", digest.as_str()).expect(&rt, "bytes");
    assert!(&rt; !Rc::ptr_eq(&held, &again));
    assert!(&rt; again.as_slice() == bytes.as_slice());
}

/// The same of a repository that is dropped.
#[test]
fn dropped_blobs_are_not_shared(rt: HostRuntime) {
    let alloc = rt.alloc();
    let mut registry = two_within(&rt, alloc, 0);
    let (bytes, digest) = pushed(&rt, alloc, &mut registry, "team/web", LARGE);
    let held = get(alloc, &mut registry, "team/web", digest.as_str()).expect(&rt, "bytes");
    drop_repo(&rt, alloc, &mut registry, "team/web");
    add(&rt, alloc, &mut registry, "team/web");
    grant(&rt, alloc, &mut registry, "team/web");
    let none = get(alloc, &mut registry, "team/web", digest.as_str());
    assert!(&rt; none.is_none());
    assert!(&rt; held.as_slice() == bytes.as_slice());
}

/// Bytes that nobody holds any more are read anew.
#[test]
fn bytes_that_nobody_holds_are_read_anew(rt: HostRuntime) {
    let alloc = rt.alloc();
    let mut registry = two_within(&rt, alloc, 0);
    let (bytes, digest) = pushed(&rt, alloc, &mut registry, "team/app", LARGE);
    for _ in 0..3 {
        let held = get(alloc, &mut registry, "team/app", digest.as_str()).expect(&rt, "bytes");
        assert!(&rt; held.as_slice() == bytes.as_slice());
        assert_eq!(&rt; Rc::strong_count(&held), 1);
    }
}

/// Bytes that were read last are held until others take their room, or the blob is deleted.
#[test]
fn bytes_that_were_read_last_are_held(rt: HostRuntime) {
    let alloc = rt.alloc();
    let mut registry = two_within(&rt, alloc, 100_000);
    let (_, digest) = pushed(&rt, alloc, &mut registry, "team/app", LARGE);
    let (_, second) = pushed(&rt, alloc, &mut registry, "team/app", LARGE + 1);
    let (_, large) = pushed(&rt, alloc, &mut registry, "team/app", 100_001);
    let first = get(alloc, &mut registry, "team/app", digest.as_str()).expect(&rt, "bytes");
    assert_eq!(&rt; Rc::strong_count(&first), 2);
    let other = get(alloc, &mut registry, "team/app", second.as_str()).expect(&rt, "bytes");
    assert_eq!(&rt; Rc::strong_count(&other), 2);
    assert_eq!(&rt; Rc::strong_count(&first), 1);
    let status = delete(alloc, &mut registry, "team/app", digest.as_str());
    assert_eq!(&rt; status, 202);
    assert_eq!(&rt; Rc::strong_count(&other), 1);
    let alone = get(alloc, &mut registry, "team/app", large.as_str()).expect(&rt, "bytes");
    assert_eq!(&rt; Rc::strong_count(&alone), 1);
}
