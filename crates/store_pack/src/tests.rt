//! Each function over a database in memory.
ghost use Rattle.std.specs.Prelude.{◌≡◌, ◌<◌, ◌^◌, IfOk, IsTrue};
ghost use Rattle.std.specs.List.{AllByRecursion};
ghost use Rattle.sqlite_disk.specs.Memory.{memory_is_usable};
ghost use Rattle.registry_pack.specs.Extents.{size_of, starts_at, total_of};
ghost use Rattle.registry_pack.specs.Pack.{file_of};

use crate::{
    PackRow, extents_in_use, extents_of, put_pack_row, put_staged, read_content, read_pack_row,
    set_age,
};
use registry_pack::{Extent, Pack, write};
use sqlite::{Connection, MemStore};
use sqlite_disk::{Crash, Memory};
use std::alloc::Global;
use std::process::Abort;
use std::test::Fail;
use store_contents::ContentId;
use store_places::{Source, add_content, remove_content};
use store_statements::contents::keep_with;

const SHA256: &str = "ba7816bf8f01cfea414140de5dae2223b00361a396177a9cb410ff61f20015ad";

pub(crate) fn open_tables(alloc: Global) -> Result<Connection<MemStore>, Fail> {
    let mut conn = Connection::open_in_memory(alloc)?;
    conn.execute_batch(
        "CREATE TABLE registry_pack (mark BLOB NOT NULL, age INTEGER NOT NULL) STRICT; \
         CREATE TABLE registry_contents (id INTEGER PRIMARY KEY, sha256 TEXT NOT NULL, \
         size INTEGER NOT NULL) STRICT; \
         CREATE TABLE registry_places (content INTEGER NOT NULL, start INTEGER NOT NULL, \
         size INTEGER NOT NULL, at INTEGER NOT NULL, PRIMARY KEY (content, start)) STRICT",
    )?;
    Ok(conn)
}

pub(crate) fn extent(rt: &impl Abort, at: usize, size: usize) -> Extent
    ensures at { starts_at result ≡ at }
    ensures size { size_of result ≡ size }
{
    Extent::new(at, size).expect(rt, "it ends too far")
}

pub(crate) fn add(
    rt: &impl Abort,
    conn: &mut Connection<MemStore>,
    extents: &[Extent],
) -> Result<ContentId, Fail>
    requires fits { total_of extents.now < 2 ^ 63 }
    requires some { AllByRecursion (λ e. 0 < size_of e) extents.now }
{
    assert!(rt; conn.is_autocommit());
    let mut tx = conn.transaction();
    let id = add_content(&mut tx, SHA256, extents)?;
    tx.commit()?;
    Ok(id)
}

pub(crate) fn remove(
    rt: &impl Abort,
    conn: &mut Connection<MemStore>,
    id: ContentId,
) -> Result<(), Fail> {
    assert!(rt; conn.is_autocommit());
    let mut tx = conn.transaction();
    remove_content(&mut tx, id)?;
    tx.commit()?;
    Ok(())
}

pub(crate) fn find_extents(
    alloc: Global,
    conn: &mut Connection<MemStore>,
    id: ContentId,
) -> Result<Option<Vec<Extent>>, Fail> {
    let found = extents_of(alloc, conn, id)?;
    Ok(found)
}

fn find_in_use(alloc: Global, conn: &mut Connection<MemStore>) -> Result<Vec<Extent>, Fail> {
    let extents = extents_in_use(alloc, conn)?;
    Ok(extents)
}

#[test]
fn a_content_stands_at_its_extents_until_it_goes(rt: HostRuntime) -> Result<(), Fail> {
    let alloc = rt.alloc();
    let mut conn = open_tables(alloc)?;
    let extents = [extent(&rt, 900, 4), extent(&rt, 10, 7), extent(&rt, 500, 1)];
    let others = [extent(&rt, 20, 3)];
    let id = add(&rt, &mut conn, &extents)?;
    let other = add(&rt, &mut conn, &others)?;
    let there = find_extents(alloc, &mut conn, id)?.ok_or("it is not there")?;
    assert_eq!(rt; there.as_slice(), extents.as_slice());
    let there = find_extents(alloc, &mut conn, other)?.ok_or("the other is not there")?;
    assert_eq!(rt; there.as_slice(), others.as_slice());
    assert_eq!(rt; find_in_use(alloc, &mut conn)?.len(), 4);
    remove(&rt, &mut conn, id)?;
    assert!(rt; find_extents(alloc, &mut conn, id)?.is_none());
    assert_eq!(rt;
        find_in_use(alloc, &mut conn)?.as_slice(),
        others.as_slice()
    );
    Ok(())
}

// of `abc`
const HASH: [u8; 32] = [
    0xba, 0x78, 0x16, 0xbf, 0x8f, 0x01, 0xcf, 0xea, 0x41, 0x41, 0x40, 0xde, 0x5d, 0xae, 0x22, 0x23,
    0xb0, 0x03, 0x61, 0xa3, 0x96, 0x17, 0x7a, 0x9c, 0xb4, 0x10, 0xff, 0x61, 0xf2, 0x00, 0x15, 0xad,
];

fn keep(
    alloc: Global,
    rt: &impl Abort,
    conn: &mut Connection<MemStore>,
    extents: &[Extent],
) -> Result<ContentId, Fail>
    requires fits { total_of extents.now < 2 ^ 63 }
    requires some { AllByRecursion (λ e. 0 < size_of e) extents.now }
{
    assert!(rt; conn.is_autocommit());
    let mut tx = conn.transaction();
    let id = keep_with(alloc, &mut tx, None, Source::Extents(extents, HASH))?;
    tx.commit()?;
    Ok(id)
}

#[test]
fn a_source_in_the_pack_is_kept_where_it_stands(rt: HostRuntime) -> Result<(), Fail> {
    let alloc = rt.alloc();
    let mut conn = open_tables(alloc)?;
    let extents = [extent(&rt, 8192, 1), extent(&rt, 4096, 2)];
    let id = keep(alloc, &rt, &mut conn, &extents)?;
    let there = find_extents(alloc, &mut conn, id)?.ok_or("it is not there")?;
    assert_eq!(rt; there.as_slice(), extents.as_slice());
    // equal bytes at other places are another content
    let others = [extent(&rt, 12288, 3)];
    let other = keep(alloc, &rt, &mut conn, &others)?;
    assert!(rt; other != id);
    assert_eq!(rt; find_in_use(alloc, &mut conn)?.len(), 3);
    Ok(())
}

fn stage(
    rt: &impl Abort,
    conn: &mut Connection<MemStore>,
    disk: &mut Memory,
) -> Result<ContentId, Fail>
    requires { IsTrue (memory_is_usable disk.old) }
{
    write(disk, 8, b"abc")?;
    let extents = [extent(rt, 8, 3)];
    let id = put_staged(conn, disk, SHA256, &extents)?;
    Ok(id)
}

#[test]
fn a_stage_is_put_over_a_file(rt: HostRuntime) -> Result<(), Fail> {
    let alloc = rt.alloc();
    let mut conn = open_tables(alloc)?;
    let mut disk = Memory::new(alloc);
    let id = stage(&rt, &mut conn, &mut disk)?;
    disk.crash();
    let there = find_extents(alloc, &mut conn, id)?.ok_or("it is not there")?;
    assert_eq!(rt; there.as_slice(), [extent(&rt, 8, 3)].as_slice());
    assert_eq!(rt; disk.bytes(), b"\0\0\0\0\0\0\0\0abc".as_slice());
    Ok(())
}

/// A pack of 65,536 zeros and `abcd` at 12,288, and of `efg` at 8,192.
fn made_pack(rt: &impl Abort, alloc: Global) -> Result<Pack<Memory>, Fail>
    ensures { IfOk result (λ pack. IsTrue (memory_is_usable (file_of pack))) }
{
    let mut pack = Pack::create(alloc, Memory::new(alloc), [7; 16])?;
    pack.write(extent(rt, 12_288, 65_540), 65_536, b"abcd")?;
    pack.write(extent(rt, 8_192, 3), 0, b"efg")?;
    Ok(pack)
}

fn find_bytes(
    alloc: Global,
    conn: &mut Connection<MemStore>,
    pack: &mut Pack<Memory>,
    id: ContentId,
) -> Result<Option<Vec<u8>>, Fail>
    requires { IsTrue (memory_is_usable (file_of pack.old)) }
    ensures { IsTrue (memory_is_usable (file_of pack.new)) }
{
    let found = read_content(alloc, conn, pack, id)?;
    Ok(found)
}

#[test]
fn the_bytes_of_a_content_are_read(rt: HostRuntime) -> Result<(), Fail> {
    let alloc = rt.alloc();
    let mut conn = open_tables(alloc)?;
    let mut pack = made_pack(&rt, alloc)?;
    let extents = [extent(&rt, 12_288, 65_540), extent(&rt, 8_192, 3)];
    let id = add(&rt, &mut conn, &extents)?;
    let bytes = find_bytes(alloc, &mut conn, &mut pack, id)?.ok_or("it is not there")?;
    let mut wanted = vec![in alloc; 0; 65_536]?;
    wanted.extend_from_slice(b"abcdefg")?;
    assert_eq!(rt; bytes.as_slice(), wanted.as_slice());
    remove(&rt, &mut conn, id)?;
    assert!(rt; find_bytes(alloc, &mut conn, &mut pack, id)?.is_none());
    Ok(())
}

fn put_row(rt: &impl Abort, conn: &mut Connection<MemStore>) -> Result<(), Fail> {
    assert!(rt; conn.is_autocommit());
    let mut tx = conn.transaction();
    put_pack_row(&mut tx, &[7; 16], 1)?;
    tx.commit()?;
    Ok(())
}

fn grow_older(rt: &impl Abort, conn: &mut Connection<MemStore>) -> Result<(), Fail> {
    assert!(rt; conn.is_autocommit());
    let mut tx = conn.transaction();
    set_age(&mut tx, 5)?;
    tx.commit()?;
    Ok(())
}

fn read_row(conn: &mut Connection<MemStore>) -> Result<Option<PackRow>, Fail> {
    let row = read_pack_row(conn)?;
    Ok(row)
}

#[test]
fn the_row_of_the_pack_is_read(rt: HostRuntime) -> Result<(), Fail> {
    let mut conn = open_tables(rt.alloc())?;
    assert_eq!(rt; read_row(&mut conn)?, None);
    put_row(&rt, &mut conn)?;
    let mark = [7; 16];
    assert_eq!(rt; read_row(&mut conn)?, Some(PackRow { mark, age: 1 }));
    grow_older(&rt, &mut conn)?;
    assert_eq!(rt; read_row(&mut conn)?, Some(PackRow { mark, age: 5 }));
    Ok(())
}
