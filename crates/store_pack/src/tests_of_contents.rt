//! A pack together with its rows, through a crash, a removal and a new age.
ghost use Rattle.std.specs.Prelude.{◌<◌, ◌^◌, length};
ghost use Rattle.std.specs.List.{AllByRecursion};
ghost use Rattle.registry_pack.specs.Extents.{size_of, total_of};

use crate::tests::{add, extent, find_extents, open_tables, remove};
use crate::{PackContents, PackFault, put_pack_row};
use sha2::{Digest, Sha256};
use sqlite::{Connection, MemStore};
use sqlite_disk::{Crash, Memory};
use std::alloc::Global;
use std::process::Abort;
use std::test::Fail;
use store_bytes::{Contents, Staged};
use store_contents::ContentId;
use store_statements::contents::keep_with;

const MARK: [u8; 16] = [7; 16];

/// A new pack, and the row that says so.
fn made(
    rt: &impl Abort,
    alloc: Global,
    conn: &mut Connection<MemStore>,
) -> Result<PackContents<Memory>, Fail> {
    assert!(rt; conn.is_autocommit());
    let mut tx = conn.transaction();
    put_pack_row(&mut tx, &MARK, 0)?;
    tx.commit()?;
    Ok(PackContents::create(alloc, Memory::new(alloc), MARK)?)
}

/// The bytes are staged, and rows that name them are committed.
fn keep(
    rt: &impl Abort,
    alloc: Global,
    conn: &mut Connection<MemStore>,
    contents: &mut PackContents<Memory>,
    bytes: &[u8],
) -> Result<ContentId, Fail>
    requires fits { length bytes.now < 2 ^ 63 }
{
    let staged = contents.stage(alloc, bytes, Some(Sha256::digest(bytes)))?;
    assert!(rt; conn.is_autocommit());
    let mut tx = conn.transaction();
    let id = keep_with(alloc, &mut tx, None, staged.source(bytes))?;
    tx.commit()?;
    Ok(id)
}

fn read(
    alloc: Global,
    conn: &mut Connection<MemStore>,
    contents: &mut PackContents<Memory>,
    id: ContentId,
) -> Result<Vec<u8>, Fail> {
    let found = contents.read(alloc, conn, id)?;
    Ok(found.ok_or("it is not there")?)
}

/// Where the one extent of a content begins.
fn offset(alloc: Global, conn: &mut Connection<MemStore>, id: ContentId) -> Result<usize, Fail> {
    let extents = find_extents(alloc, conn, id)?.ok_or("it is not there")?;
    let first = extents.first().ok_or("it has no place")?;
    Ok(first.at())
}

/// The pack, opened over what a crash leaves of its file.
fn reopened(
    alloc: Global,
    conn: &mut Connection<MemStore>,
    contents: PackContents<Memory>,
) -> Result<PackContents<Memory>, Fail> {
    let PackContents { pack } = contents;
    let mut disk = pack.into_disk();
    disk.crash();
    Ok(PackContents::open(alloc, conn, disk)?)
}

#[test]
fn a_content_is_read_behind_a_crash(rt: HostRuntime) -> Result<(), Fail> {
    let alloc = rt.alloc();
    let mut conn = open_tables(alloc)?;
    let mut contents = made(&rt, alloc, &mut conn)?;
    let id = keep(&rt, alloc, &mut conn, &mut contents, b"abc")?;
    let bytes = read(alloc, &mut conn, &mut contents, id)?;
    assert_eq!(rt; bytes.as_slice(), b"abc".as_slice());
    let mut contents = reopened(alloc, &mut conn, contents)?;
    let bytes = read(alloc, &mut conn, &mut contents, id)?;
    assert_eq!(rt; bytes.as_slice(), b"abc".as_slice());
    let none = keep(&rt, alloc, &mut conn, &mut contents, b"")?;
    assert!(rt; read(alloc, &mut conn, &mut contents, none)?.is_empty());
    Ok(())
}

/// Where what is staged stands.
fn offset_staged(staged: &Staged) -> Option<usize> {
    match staged {
        Staged::AtExtents(extents, _) => Some(extents.first()?.at()),
        Staged::InRow => None,
    }
}

#[test]
fn what_is_given_up_makes_room(rt: HostRuntime) -> Result<(), Fail> {
    let alloc = rt.alloc();
    let mut contents = PackContents::create(alloc, Memory::new(alloc), MARK)?;
    let staged = contents.stage(alloc, b"abc", Some(Sha256::digest(b"abc")))?;
    assert_eq!(rt; offset_staged(&staged), Some(8192));
    contents.give_up(staged);
    let staged = contents.stage(alloc, b"de", Some(Sha256::digest(b"de")))?;
    assert_eq!(rt; offset_staged(&staged), Some(8192));
    let other = contents.stage(alloc, b"f", Some(Sha256::digest(b"f")))?;
    assert_eq!(rt; offset_staged(&other), Some(12_288));
    Ok(())
}

#[test]
fn a_place_is_used_again_in_a_new_age(rt: HostRuntime) -> Result<(), Fail> {
    let alloc = rt.alloc();
    let mut conn = open_tables(alloc)?;
    let mut contents = made(&rt, alloc, &mut conn)?;
    let gone = keep(&rt, alloc, &mut conn, &mut contents, b"abc")?;
    assert_eq!(rt; offset(alloc, &mut conn, gone)?, 8192);
    let stays = keep(&rt, alloc, &mut conn, &mut contents, b"def")?;
    remove(&rt, &mut conn, gone)?;
    let behind = keep(&rt, alloc, &mut conn, &mut contents, b"ghi")?;
    assert_eq!(rt; offset(alloc, &mut conn, behind)?, 16_384);
    contents.give_back(alloc, &mut conn)?;
    let again = keep(&rt, alloc, &mut conn, &mut contents, b"jkl")?;
    assert_eq!(rt; offset(alloc, &mut conn, again)?, 8192);
    let mut contents = reopened(alloc, &mut conn, contents)?;
    for (id, bytes) in [(stays, b"def"), (behind, b"ghi"), (again, b"jkl")] {
        let found = read(alloc, &mut conn, &mut contents, id)?;
        assert_eq!(rt; found.as_slice(), bytes.as_slice());
    }
    Ok(())
}

fn outcome(opened: Result<PackContents<Memory>, PackFault>) -> &'static str {
    match opened {
        Ok(_) => "opened",
        Err(PackFault::Rows(_)) => "rows",
        Err(PackFault::Unnamed) => "unnamed",
        Err(PackFault::Misplaced) => "misplaced",
        Err(PackFault::Pack(_)) => "pack",
    }
}

#[test]
fn a_place_in_the_head_is_not_opened(rt: HostRuntime) -> Result<(), Fail> {
    let alloc = rt.alloc();
    let mut conn = open_tables(alloc)?;
    let unnamed = PackContents::open(alloc, &mut conn, Memory::new(alloc));
    assert_eq!(rt; outcome(unnamed), "unnamed");
    let mut contents = made(&rt, alloc, &mut conn)?;
    let id = keep(&rt, alloc, &mut conn, &mut contents, b"abc")?;
    assert_eq!(rt; offset(alloc, &mut conn, id)?, 8192);
    let extents = [extent(&rt, 8191, 2)];
    add(&rt, &mut conn, &extents)?;
    let PackContents { pack } = contents;
    let mut disk = pack.into_disk();
    disk.crash();
    let misplaced = PackContents::open(alloc, &mut conn, disk);
    assert_eq!(rt; outcome(misplaced), "misplaced");
    Ok(())
}
