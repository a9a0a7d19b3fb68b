//! A pack through openings, ages, a crash and calls that fail.
ghost use Rattle.std.specs.Prelude.{IsTrue, IfOk};
ghost use Rattle.sqlite_disk.specs.Memory.{memory_is_usable};

use crate::{Extent, HEAD, OpenError, Pack, RenewError};
use sqlite_disk::{Crash, Fuse, Memory};
use std::alloc::Global;
use std::process::Abort;
use std::test::Fail;

const MARK: [u8; 16] = [7; 16];

fn extent(at: usize, size: usize) -> Result<Extent, Fail> {
    Ok(Extent::new(at, size).ok_or("it ends too far")?)
}

/// What a crash leaves of a file of 16,388 bytes and age 1, with `abcd` at 8,192 and `efgh` at 16,384.
fn made(rt: &impl Abort, alloc: Global) -> Result<Memory, Fail>
    ensures { IfOk result (λ disk. IsTrue (memory_is_usable disk)) }
{
    let mut pack = Pack::create(alloc, Memory::new(alloc), MARK)?;
    let first = pack.allocate(5000).ok_or("there is no room")?;
    assert_eq!(rt; first.size(), 5000);
    pack.write(first, 0, b"abcd")?;
    let second = pack.allocate(4).ok_or("there is no room")?;
    assert_eq!(rt; second.size(), 4);
    pack.write(second, 0, b"efgh")?;
    pack.sync()?;
    pack.renew()?;
    let mut disk = pack.into_disk();
    disk.crash();
    Ok(disk)
}

fn outcome(opened: Result<Pack<Memory>, OpenError>) -> &'static str {
    match opened {
        Ok(_) => "opened",
        Err(OpenError::Memory) => "no memory",
        Err(OpenError::Disk(_)) => "disk",
        Err(OpenError::Missing) => "missing",
        Err(OpenError::Foreign) => "foreign",
        Err(OpenError::Newer) => "newer",
        Err(OpenError::Short) => "short",
    }
}

#[test]
fn a_hole_is_used_in_the_next_age_only(rt: HostRuntime) -> Result<(), Fail> {
    let alloc = rt.alloc();
    let disk = made(&rt, alloc)?;
    let used = vec![in alloc; extent(16_384, 4)?]?;
    let mut pack = Pack::open(alloc, disk, MARK, 1, used)?;
    assert_eq!(rt; pack.age(), 1);
    assert_eq!(rt; pack.mark(), MARK);
    assert_eq!(rt; pack.length()?, 16_388);
    let mut buf = [0; 4];
    assert_eq!(rt; pack.read_piece(&[extent(16_384, 4)?], 0, &mut buf)?, 4);
    assert_eq!(rt; buf.as_slice(), b"efgh".as_slice());
    assert_eq!(rt; pack.allocate(1), Some(extent(20_480, 1)?));
    pack.renew()?;
    assert_eq!(rt; pack.age(), 2);
    assert_eq!(rt; pack.allocate(4097), Some(extent(8192, 4097)?));
    assert_eq!(rt; pack.allocate(1), Some(extent(24_576, 1)?));
    Ok(())
}

#[test]
fn what_does_not_belong_is_not_opened(rt: HostRuntime) -> Result<(), Fail> {
    let alloc = rt.alloc();
    let used = vec![in alloc; extent(8192, 5000)?, extent(16_384, 4)?]?;
    assert_eq!(rt;
        outcome(Pack::open(alloc, made(&rt, alloc)?, MARK, 1, used)),
        "opened"
    );
    let older = Pack::open(alloc, made(&rt, alloc)?, MARK, 0, Vec::new(alloc));
    assert_eq!(rt; outcome(older), "newer");
    let foreign = Pack::open(alloc, made(&rt, alloc)?, [8; 16], 1, Vec::new(alloc));
    assert_eq!(rt; outcome(foreign), "foreign");
    let used = vec![in alloc; extent(16_384, 5)?]?;
    assert_eq!(rt;
        outcome(Pack::open(alloc, made(&rt, alloc)?, MARK, 1, used)),
        "short"
    );
    let missing = Pack::open(alloc, Memory::new(alloc), MARK, 1, Vec::new(alloc));
    assert_eq!(rt; outcome(missing), "missing");
    Ok(())
}

#[test]
fn space_is_released_and_retired(rt: HostRuntime) -> Result<(), Fail> {
    let alloc = rt.alloc();
    let mut pack = Pack::create(alloc, Memory::new(alloc), MARK)?;
    assert_eq!(rt; pack.length()?, 4171);
    let first = pack.allocate(4097).ok_or("there is no room")?;
    assert_eq!(rt; first, extent(HEAD, 4097)?);
    let second = pack.allocate(1).ok_or("there is no room")?;
    assert_eq!(rt; second, extent(16_384, 1)?);
    pack.release(first)?;
    assert_eq!(rt; pack.allocate(4096), Some(extent(8192, 4096)?));
    assert_eq!(rt; pack.allocate(4096), Some(extent(12_288, 4096)?));
    pack.retire(first)?;
    assert_eq!(rt; pack.allocate(8192), Some(extent(20_480, 8192)?));
    pack.renew()?;
    assert_eq!(rt; pack.allocate(8192), Some(extent(8192, 8192)?));
    Ok(())
}

#[test]
fn what_is_neither_in_use_nor_free_is_reclaimed(rt: HostRuntime) -> Result<(), Fail> {
    let alloc = rt.alloc();
    let mut pack = Pack::create(alloc, Memory::new(alloc), MARK)?;
    assert_eq!(rt; pack.allocate(4096), Some(extent(8192, 4096)?));
    let used = pack.allocate(1).ok_or("there is no room")?;
    let free = pack.allocate(4096).ok_or("there is no room")?;
    let last = pack.allocate(1).ok_or("there is no room")?;
    pack.release(free)?;
    pack.reclaim(vec![in alloc; last, used]?)?;
    // what was free is so still, and what was lost is free in the next age
    assert_eq!(rt; pack.allocate(4096), Some(free));
    assert_eq!(rt; pack.allocate(1), Some(extent(24_576, 1)?));
    pack.renew()?;
    assert_eq!(rt; pack.allocate(4096), Some(extent(8192, 4096)?));
    assert_eq!(rt; pack.allocate(1), Some(extent(28_672, 1)?));
    Ok(())
}

#[test]
fn free_space_is_cut_off(rt: HostRuntime) -> Result<(), Fail> {
    let alloc = rt.alloc();
    let mut pack = Pack::create(alloc, Memory::new(alloc), MARK)?;
    let first = pack.allocate(1).ok_or("there is no room")?;
    let second = pack.allocate(5000).ok_or("there is no room")?;
    assert_eq!(rt; second.size(), 5000);
    pack.write(second, 0, b"abcd")?;
    pack.trim()?;
    assert_eq!(rt; pack.length()?, 12_292);
    pack.release(second)?;
    pack.trim()?;
    assert_eq!(rt; pack.length()?, 12_288);
    pack.retire(first)?;
    pack.trim()?;
    assert_eq!(rt; pack.length()?, 12_288);
    pack.renew()?;
    pack.trim()?;
    assert_eq!(rt; pack.length()?, 8192);
    Ok(())
}

#[test]
fn where_the_disk_fails_the_age_stays(rt: HostRuntime) -> Result<(), Fail> {
    let alloc = rt.alloc();
    assert!(rt; Pack::create(alloc, Fuse::new(Memory::new(alloc), 3), MARK).is_err());
    let mut pack = Pack::create(alloc, Fuse::new(Memory::new(alloc), 5), MARK)?;
    let first = pack.allocate(1).ok_or("there is no room")?;
    pack.retire(first)?;
    assert!(rt; pack.renew().is_err());
    assert_eq!(rt; pack.age(), 0);
    assert!(rt; !pack.may_be_used());
    assert_eq!(rt; pack.allocate(1), Some(extent(12_288, 1)?));
    Ok(())
}

#[test]
fn there_is_a_last_age(rt: HostRuntime) -> Result<(), Fail> {
    let alloc = rt.alloc();
    let mut pack = Pack::open(alloc, made(&rt, alloc)?, MARK, u64::MAX, Vec::new(alloc))?;
    let is_last = match pack.renew() {
        Err(RenewError::LastAge) => true,
        _ => false,
    };
    assert!(rt; is_last);
    assert_eq!(rt; pack.age(), u64::MAX);
    Ok(())
}

#[test]
fn room_ends(rt: HostRuntime) -> Result<(), Fail> {
    let alloc = rt.alloc();
    let mut pack = Pack::create(alloc, Memory::new(alloc), MARK)?;
    assert_eq!(rt; pack.allocate(usize::MAX), None);
    assert_eq!(rt; pack.allocate(9_223_372_036_854_763_521), None);
    let all = 9_223_372_036_854_763_520;
    assert_eq!(rt; pack.allocate(all), Some(extent(8192, all)?));
    assert_eq!(rt; pack.allocate(1), None);
    Ok(())
}
