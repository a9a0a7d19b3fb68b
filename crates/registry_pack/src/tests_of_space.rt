//! Free space on small lists, and beside a table of 64 bytes.
use crate::{Extent, Space};
use std::alloc::Global;
use std::test::Fail;

fn extent(at: usize, size: usize) -> Result<Extent, Fail> {
    Ok(Extent::new(at, size).ok_or("it ends too far")?)
}

fn space(alloc: Global, holes: &[(usize, usize)]) -> Result<Space, Fail> {
    let mut extents = Vec::new(alloc);
    for (at, size) in holes {
        extents.push(extent(*at, *size)?)?;
    }
    Ok(Space::of(extents)?)
}

fn has(space: &Space, holes: &[(usize, usize)]) -> bool {
    let shown = space.holes();
    shown.len() == holes.len()
        && shown.iter().zip(holes).all(|(hole, (at, size))| hole.at() == *at
            && hole.size() == *size)
}

#[test]
fn joins_what_overlaps_or_touches(rt: HostRuntime) -> Result<(), Fail> {
    let alloc = rt.alloc();
    let mixed = space(alloc, &[(6, 2), (0, 4), (4, 1), (9, 0)])?;
    assert!(rt; has(&mixed, &[(0, 5), (6, 2)]));
    assert_eq!(rt; mixed.total(), 7);
    assert!(rt; has(&space(alloc, &[(3, 5), (0, 4)])?, &[(0, 8)]));
    assert!(rt; has(&space(alloc, &[(2, 3), (0, 10)])?, &[(0, 10)]));
    assert!(rt; has(&Space::none(alloc), &[]));
    Ok(())
}

#[test]
fn gives(rt: HostRuntime) -> Result<(), Fail> {
    // Behind a hole, before one, between two, apart, before all, behind all, over all, inside one, empty.
    let cases: [(usize, usize, &[(usize, usize)]); 9] = [
        (15, 2, &[(10, 7), (20, 5), (30, 5)]),
        (18, 2, &[(10, 5), (18, 7), (30, 5)]),
        (15, 5, &[(10, 15), (30, 5)]),
        (16, 3, &[(10, 5), (16, 3), (20, 5), (30, 5)]),
        (0, 3, &[(0, 3), (10, 5), (20, 5), (30, 5)]),
        (40, 1, &[(10, 5), (20, 5), (30, 5), (40, 1)]),
        (12, 20, &[(10, 25)]),
        (11, 2, &[(10, 5), (20, 5), (30, 5)]),
        (16, 0, &[(10, 5), (20, 5), (30, 5)]),
    ];
    for (at, size, want) in cases {
        let mut free = space(rt.alloc(), &[(10, 5), (20, 5), (30, 5)])?;
        free.give(extent(at, size)?)?;
        assert!(rt; has(&free, want), "at {at}");
    }
    Ok(())
}

#[test]
fn takes_from_the_first_or_the_largest(rt: HostRuntime) -> Result<(), Fail> {
    let mut free = space(rt.alloc(), &[(0, 2), (4, 3), (10, 8)])?;
    assert_eq!(rt; free.take(3), Some(extent(4, 3)?));
    assert_eq!(rt; free.take(3), Some(extent(10, 3)?));
    assert!(rt; has(&free, &[(0, 2), (13, 5)]));
    assert_eq!(rt; free.take(6), None);
    assert_eq!(rt; free.take_most(6), Some(extent(13, 5)?));
    assert_eq!(rt; free.take_most(1), Some(extent(0, 1)?));
    assert_eq!(rt; free.take_most(9), Some(extent(1, 1)?));
    assert_eq!(rt; free.take_most(1), None);
    Ok(())
}

#[test]
fn trims(rt: HostRuntime) -> Result<(), Fail> {
    let mut free = space(rt.alloc(), &[(0, 2), (4, 3)])?;
    assert_eq!(rt; free.trim(9), 9);
    assert_eq!(rt; free.trim(7), 4);
    assert!(rt; has(&free, &[(0, 2)]));
    assert_eq!(rt; free.trim(2), 0);
    assert_eq!(rt; free.trim(0), 0);
    Ok(())
}

#[test]
fn finds_gaps_and_adds(rt: HostRuntime) -> Result<(), Fail> {
    let used = space(rt.alloc(), &[(0, 2), (4, 3), (10, 8)])?;
    assert!(rt; has(&used.gaps(0, 20)?, &[(2, 2), (7, 3), (18, 2)]));
    assert!(rt; has(&used.gaps(5, 11)?, &[(7, 3)]));
    assert!(rt; has(&used.gaps(12, 15)?, &[]));
    assert!(rt; has(&used.gaps(19, 12)?, &[]));
    let mut free = space(rt.alloc(), &[(0, 2), (8, 2)])?;
    free.add(space(rt.alloc(), &[(2, 3), (20, 1)])?)?;
    assert!(rt; has(&free, &[(0, 5), (8, 2), (20, 1)]));
    Ok(())
}
