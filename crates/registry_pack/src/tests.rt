//! Each function on a disk in memory, through a crash and where its calls fail.
use crate::{
    Compared, Extent, Head, HeadCopy, compare_piece, cut, length, read_head, read_piece, run_from,
    sync, write, write_head,
};
use sqlite_disk::{Crash, Fuse, Memory};
use std::io;
use std::process::Abort;

fn extent(rt: &impl Abort, at: usize, size: usize) -> Extent {
    Extent::new(at, size).expect(rt, "it ends too far")
}

#[test]
fn a_content_is_read_across_its_extents(rt: HostRuntime) -> io::Result<()> {
    let mut disk = Memory::new(rt.alloc());
    write(&mut disk, 4, b"abcd--efg")?;
    sync(&mut disk)?;
    let extents = [extent(&rt, 4, 4), extent(&rt, 9, 0), extent(&rt, 10, 3)];
    let mut buf = *b"---";
    assert_eq!(rt; read_piece(&mut disk, &extents, 3, &mut buf)?, 1);
    assert_eq!(rt; buf.as_slice(), b"d--".as_slice());
    assert_eq!(rt; read_piece(&mut disk, &extents, 4, &mut buf)?, 3);
    assert_eq!(rt; buf.as_slice(), b"efg".as_slice());
    assert_eq!(rt; read_piece(&mut disk, &extents, 7, &mut buf)?, 0);
    Ok(())
}

#[test]
fn a_run_ends_with_its_extent(rt: HostRuntime) {
    let extents = [extent(&rt, 4, 4), extent(&rt, 9, 0), extent(&rt, 10, 3)];
    assert_eq!(rt; run_from(&extents, 1), Some(extent(&rt, 5, 3)));
    assert_eq!(rt; run_from(&extents, 5), Some(extent(&rt, 11, 2)));
    assert_eq!(rt; run_from(&extents, 7), None);
}

#[test]
fn a_file_is_cut(rt: HostRuntime) -> io::Result<()> {
    let mut disk = Memory::new(rt.alloc());
    write(&mut disk, 2, b"abc")?;
    assert_eq!(rt; length(&mut disk)?, 5);
    cut(&mut disk, 4)?;
    assert_eq!(rt; disk.bytes(), b"\0\0ab".as_slice());
    Ok(())
}

#[test]
fn equal_contents_are_the_same(rt: HostRuntime) -> io::Result<()> {
    let mut disk = Memory::new(rt.alloc());
    write(&mut disk, 0, b"abcd ab cd")?;
    let ones = [extent(&rt, 0, 4)];
    let others = [extent(&rt, 5, 2), extent(&rt, 8, 2)];
    let mut buf = [0; 3];
    let mut other_buf = [0; 3];
    let found = compare_piece(&mut disk, &ones, &others, 0, &mut buf, &mut other_buf)?;
    assert_eq!(rt; found, Compared::Same(2));
    let found = compare_piece(&mut disk, &ones, &others, 2, &mut buf, &mut other_buf)?;
    assert_eq!(rt; found, Compared::Same(2));
    let found = compare_piece(&mut disk, &ones, &others, 4, &mut buf, &mut other_buf)?;
    assert_eq!(rt; found, Compared::Same(0));
    Ok(())
}

#[test]
fn other_contents_are_different(rt: HostRuntime) -> io::Result<()> {
    let mut disk = Memory::new(rt.alloc());
    write(&mut disk, 0, b"abcdabce")?;
    let ones = [extent(&rt, 0, 4)];
    let others = [extent(&rt, 4, 4)];
    let mut buf = [0; 3];
    let mut other_buf = [0; 3];
    let found = compare_piece(&mut disk, &ones, &others, 3, &mut buf, &mut other_buf)?;
    assert_eq!(rt; found, Compared::Different);
    let found = compare_piece(&mut disk, &ones, &[], 0, &mut buf, &mut other_buf)?;
    assert_eq!(rt; found, Compared::Different);
    Ok(())
}

// The last 32 bytes are from Python's hashlib.
#[test]
fn a_head_is_written_and_read(rt: HostRuntime) -> io::Result<()> {
    let head = Head {
        mark: [0, 1, 2, 3, 4, 5, 6, 7, 8, 9, 10, 11, 12, 13, 14, 15],
        age: 258,
    };
    let bytes =
        b"firkhen contents 1\n\x00\x01\x02\x03\x04\x05\x06\x07\x08\x09\x0a\x0b\x0c\x0d\x0e\x0f\
        \x00\x00\x00\x00\x00\x00\x01\x02\xd9\x79\xc3\xe1\x0c\xee\xd6\xf8\x6a\x43\xf4\x80\x44\xff\xc1\xcb\
        \x26\xee\x73\x46\xa4\xa0\x7b\x45\xc1\x8b\x17\xe4\xeb\xad\x71\x52";
    let mut disk = Memory::new(rt.alloc());
    assert_eq!(rt; read_head(&mut disk, HeadCopy::First)?, None);
    write_head(&mut disk, HeadCopy::First, &head)?;
    assert_eq!(rt; disk.bytes(), bytes.as_slice());
    write_head(&mut disk, HeadCopy::Second, &head)?;
    assert_eq!(rt; read_head(&mut disk, HeadCopy::Second)?, Some(head));
    Ok(())
}

#[test]
fn what_was_synced_stands_after_a_crash(rt: HostRuntime) -> io::Result<()> {
    let head = Head {
        mark: [7; 16],
        age: 1,
    };
    let mut disk = Memory::new(rt.alloc());
    write_head(&mut disk, HeadCopy::First, &head)?;
    write(&mut disk, 80, b"abcd")?;
    sync(&mut disk)?;
    write(&mut disk, 84, b"efgh")?;
    disk.crash();
    assert_eq!(rt; length(&mut disk)?, 84);
    let mut buf = *b"----";
    assert_eq!(rt;
        read_piece(&mut disk, &[extent(&rt, 80, 4)], 0, &mut buf)?,
        4
    );
    assert_eq!(rt; buf.as_slice(), b"abcd".as_slice());
    assert_eq!(rt; read_head(&mut disk, HeadCopy::First)?, Some(head));
    Ok(())
}

#[test]
fn where_calls_fail_the_bytes_stand(rt: HostRuntime) -> io::Result<()> {
    let mut disk = Fuse::new(Memory::new(rt.alloc()), 1);
    write(&mut disk, 0, b"abcd")?;
    let mut buf = [0; 4];
    assert!(rt; read_piece(&mut disk, &[extent(&rt, 0, 4)], 0, &mut buf).is_err());
    assert!(rt; read_head(&mut disk, HeadCopy::First).is_err());
    assert!(rt; write(&mut disk, 2, b"xy").is_err());
    assert!(rt; sync(&mut disk).is_err());
    assert_eq!(rt; disk.inner().bytes(), b"abcd".as_slice());
    Ok(())
}
