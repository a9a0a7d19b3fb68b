//! What is held in memory beside a keeper: bodies that come, and contents that go out.

use crate::setting::{is_told, same, setting};
use crate::texts::{ABC, BLOB_UNKNOWN, CREATED, DELETE, DELETED, GET};
use oci_types::{Digest, RepoName};
use registry_holding::Holder;
use registry_service::Service;
use std::process::Abort;

/// A push of `abc`.
const PUSH_ABC: &str = "POST /v2/{name}/blobs/uploads/?digest={digest} HTTP/1.1\r\nHost: r\r\n\
      Authorization: Bearer t1\r\nContent-Length: 3\r\n\r\nabc";

/// The first bytes of the SHA-256 of `abc` and of no bytes (FIPS 180-4; `printf abc | sha256sum`).
const SUM_OF_ABC: [u8; 4] = [0xba, 0x78, 0x16, 0xbf];

const SUM_OF_NONE: [u8; 4] = [0xe3, 0xb0, 0xc4, 0x42];

/// The stage of this number has so many bytes, of this SHA-256.
fn is_staged<H: Holder>(rt: &impl Abort, holder: &mut H, key: u64, size: u64, sha256: [u8; 4]) {
    let found = holder.staged(key).expect(rt, "a stage");
    let sum = found.expect(rt, "its sum");
    same(rt, 0, sum.size, size);
    same(rt, 1, &sum.sha256[..4], sha256.as_slice());
}

/// Stages grow and go, each alone, and no request sees one.
#[test]
fn stages_are_apart(rt: HostRuntime) {
    let alloc = rt.alloc();
    let mut holder = setting(&rt, alloc).into_keeper();
    holder.stage(7, 3, false).expect(&rt, "a stage");
    holder.stage(8, 0, true).expect(&rt, "another");
    holder.stage_more(7, b"a").expect(&rt, "a piece");
    holder.stage_more(7, b"bc").expect(&rt, "the next");
    is_staged(&rt, &mut holder, 7, 3, SUM_OF_ABC);
    is_staged(&rt, &mut holder, 8, 0, SUM_OF_NONE);
    let mut registry = Service::new(holder);
    is_told(&rt, alloc, &mut registry, ABC, GET, BLOB_UNKNOWN);
    let mut holder = registry.into_keeper();
    is_staged(&rt, &mut holder, 7, 3, SUM_OF_ABC);
    holder.unstage(7);
    let gone = holder.staged(7).expect(&rt, "an answer");
    same(&rt, 2, gone.is_none(), true);
    is_staged(&rt, &mut holder, 8, 0, SUM_OF_NONE);
}

/// A content that is pinned is read in pieces, also when its blob was deleted.
#[test]
fn a_pin_outlives_its_blob(rt: HostRuntime) {
    let alloc = rt.alloc();
    let mut registry = setting(&rt, alloc);
    is_told(&rt, alloc, &mut registry, ABC, PUSH_ABC, CREATED);
    let mut holder = registry.into_keeper();
    let name = RepoName::parse(alloc, "team/app").expect(&rt, "a name");
    let digest = Digest::parse(alloc, ABC).expect(&rt, "a digest");
    let size = holder.pin(7, &name, &digest).expect(&rt, "a pin");
    same(&rt, 0, size, Some(3));
    let mut registry = Service::new(holder);
    is_told(&rt, alloc, &mut registry, ABC, DELETE, DELETED);
    is_told(&rt, alloc, &mut registry, ABC, GET, BLOB_UNKNOWN);
    let mut holder = registry.into_keeper();
    let mut room = [0; 2];
    let read = holder.read_pin(7, 1, &mut room).expect(&rt, "its bytes");
    same(&rt, 1, read, 2);
    same(&rt, 2, room.as_slice(), b"bc".as_slice());
    holder.unpin(7);
    let read = holder.read_pin(7, 0, &mut room).expect(&rt, "none");
    same(&rt, 3, read, 0);
}
