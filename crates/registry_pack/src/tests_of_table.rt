//! Free space beside a table that has for each of 64 bytes whether it is free, over many steps.
use crate::{Extent, Space};
use std::process::Abort;
use std::test::Fail;

fn covers(extent: Extent, p: usize) -> bool {
    extent.at() <= p && p - extent.at() < extent.size()
}

fn is_like(space: &Space, table: &[bool; 64]) -> bool {
    for p in 0..64 {
        let is_free = space.holes().iter().any(|hole| covers(*hole, p));
        if is_free != table[p] {
            return false;
        }
    }
    true
}

fn put(table: &mut [bool; 64], extent: Extent, is_free: bool) {
    for p in 0..64 {
        if covers(extent, p) {
            table[p] = is_free;
        }
    }
}

fn longest_run(table: &[bool; 64]) -> usize {
    let mut longest = 0usize;
    let mut run = 0usize;
    for is_free in table {
        run = if *is_free { run.saturating_add(1) } else { 0 };
        longest = longest.max(run);
    }
    longest
}

fn step(
    rt: &impl Abort,
    space: &mut Space,
    table: &mut [bool; 64],
    number: u32,
) -> Result<(), Fail> {
    let at = (number >> 8) as usize % 56;
    let size = (number >> 16) as usize % 8 + 1;
    let most = longest_run(table);
    let taken = match number >> 30 {
        0 | 1 => {
            let extent = Extent::new(at, size).ok_or("it ends too far")?;
            space.give(extent)?;
            put(table, extent, true);
            return Ok(());
        }
        2 => {
            let taken = space.take(size);
            assert_eq!(rt; taken.is_some(), size <= most);
            taken
        }
        _ => {
            let taken = space.take_most(size);
            assert_eq!(rt; taken.is_some(), 0 < most);
            taken
        }
    };
    if let Some(extent) = taken {
        assert_eq!(rt; extent.size(), size.min(most));
        put(table, extent, false);
    }
    Ok(())
}

#[test]
fn is_like_a_table(rt: HostRuntime) -> Result<(), Fail> {
    let mut table = [false; 64];
    let mut space = Space::none(rt.alloc());
    let mut number = 1u32;
    for i in 0..300 {
        number = number.wrapping_mul(1_664_525).wrapping_add(1_013_904_223);
        step(&rt, &mut space, &mut table, number)?;
        assert!(rt; is_like(&space, &table), "after step {i}");
    }
    let gaps = space.gaps(0, 64)?;
    let mut others = table;
    for p in 0..64 {
        others[p] = !table[p];
    }
    assert!(rt; is_like(&gaps, &others));
    assert_eq!(rt; space.total() + gaps.total(), 64);
    space.add(gaps)?;
    assert_eq!(rt; space.trim(64), 0);
    Ok(())
}
