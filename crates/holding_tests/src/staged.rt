ghost use Rattle.operation_parts.specs.Operating.{HasRepo, IsUnspent};

use blob_operations::uploads::open_session;
use oci_types::{Digest, RepoName, Verdict};
use registry_holding::{Holder, Holding};
use registry_maps::MapKeeper;
use registry_model::{Keeper, Quota, Status};
use staged_operations::blobs::push_staged_blob;
use staged_operations::session_close::close_staged_session;
use staged_operations::uploads::append_staged_chunk;
use std::process::Abort;

/// The digests of `abc` (FIPS 180-4; `printf abc | sha256sum`, `printf abc | sha512sum`).
pub const ABC: &str = "sha256:ba7816bf8f01cfea414140de5dae2223b00361a396177a9cb410ff61f20015ad";

pub const WIDE: &str = "sha512:ddaf35a193617abacc417349ae20413112e6fa4e89a97ea20a9eeee64b55d39a\
      2192992a274fc1a836ba3c23a3feebbd454d4423643ce80e2a9ac94fa54ca49f";

/// Stages these bytes under a number, where the repository is there.
fn stage<H: Holder>(rt: &impl Abort, holder: &mut H, name: &RepoName, key: u64, bytes: &[u8])
    ensures unspent { IsUnspent (H.kept holder.new) }
    ensures there { H.is_honest holder.new → HasRepo (H.kept holder.new) name.now }
{
    holder
        .stage(key, bytes.len() as u64, true)
        .expect(rt, "a stage");
    holder.stage_more(key, bytes).expect(rt, "its bytes");
    let there = holder.has_repo(name).expect(rt, "an answer");
    assert!(rt; there);
}

/// What is staged becomes a blob, a chunk of a session, and its last chunk, where its digest is right.
#[test]
fn stages_are_written(rt: HostRuntime) {
    let alloc = rt.alloc();
    let holder = &mut Holding::new(alloc, MapKeeper::new(alloc));
    let name = &RepoName::parse(alloc, "team/app").expect(&rt, "a name");
    let quota = Quota::new(9).expect(&rt, "a quota");
    holder.set_repo(name, quota).expect(&rt, "a repository");
    stage(&rt, holder, name, 7, b"abc");
    let pushed = push_staged_blob(holder, alloc, name, ABC, 7).expect(&rt, "a reply");
    assert!(rt; matches!(pushed.status, Status::Created));
    stage(&rt, holder, name, 8, b"ab");
    let opened = open_session(holder, alloc, name).expect(&rt, "a reply");
    assert!(rt; matches!(opened.status, Status::Accepted));
    stage(&rt, holder, name, 8, b"ab");
    let appended = append_staged_chunk(holder, alloc, name, "1", None, 8).expect(&rt, "a reply");
    assert!(rt; matches!(appended.status, Status::Accepted));
    stage(&rt, holder, name, 8, b"c");
    let closed = close_staged_session(holder, alloc, name, "1", Some(WIDE), None, 8);
    assert!(rt; matches!(closed.expect(&rt, "a reply").status, Status::Created));
    let wide = Digest::parse(alloc, WIDE).expect(&rt, "a digest");
    let size = holder.blob_size(name, &wide).expect(&rt, "a look");
    assert!(rt; size == Some(3));
}

/// A stage tells whether a digest is that of its bytes.
#[test]
fn stages_are_verified(rt: HostRuntime) {
    let alloc = rt.alloc();
    let mut holder = Holding::new(alloc, MapKeeper::new(alloc));
    let wide = Digest::parse(alloc, WIDE).expect(&rt, "a digest");
    holder.stage(7, 3, true).expect(&rt, "a stage");
    holder.stage_more(7, b"ab").expect(&rt, "its bytes");
    let verdict = holder.verdict(7, &wide).expect(&rt, "a verdict");
    assert!(rt; matches!(verdict, Some(Verdict::Differs)));
    holder.stage_more(7, b"c").expect(&rt, "its last byte");
    let verdict = holder.verdict(7, &wide).expect(&rt, "a verdict");
    assert!(rt; matches!(verdict, Some(Verdict::Matches)));
}

/// Stages share their room: each takes as much as is expected of it, or as a largest blob.
#[test]
fn stages_share_their_room(rt: HostRuntime) {
    let alloc = rt.alloc();
    let mut holder = Holding::within(alloc, MapKeeper::new(alloc), 10, 0);
    assert!(&rt; holder.stage(1, 6, false).is_ok());
    assert!(&rt; holder.stage(2, 5, false).is_err());
    assert!(&rt; holder.stage(2, 4, false).is_ok());
    holder.unstage(1);
    assert!(&rt; holder.stage(3, 0, false).is_err());
    assert!(&rt; holder.stage(3, 6, false).is_ok());
}
