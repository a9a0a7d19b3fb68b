//! The tables over databases in memory.
use crate::{create_tables, find_version, take_up_pack};
use sqlite::{Connection, MemStore};
use std::alloc::Global;
use std::test::Fail;
use store_opening::{OpenFault, take_up};
use store_pack::{PackRow, read_pack_row};

const MARK: [u8; 16] = [7; 16];

fn open_new(alloc: Global) -> Result<Connection<MemStore>, Fail> {
    let mut conn = Connection::open_in_memory(alloc)?;
    create_tables(&mut conn, &MARK)
        .ok()
        .ok_or("no tables were made")?;
    Ok(conn)
}

#[test]
fn tables_are_made_and_found(rt: HostRuntime) -> Result<(), Fail> {
    let mut conn = open_new(rt.alloc())?;
    let version = find_version(&mut conn).ok().ok_or("no version")?;
    assert_eq!(rt; version, Some(3));
    let row = read_pack_row(&mut conn)?;
    assert_eq!(rt; row, Some(PackRow { mark: MARK, age: 0 }));
    take_up_pack(&mut conn).ok().ok_or("not taken up")?;
    Ok(())
}

#[test]
fn what_is_there_is_not_made_again(rt: HostRuntime) -> Result<(), Fail> {
    let mut conn = open_new(rt.alloc())?;
    let again = create_tables(&mut conn, &[8; 16]);
    assert!(rt; matches!(again, Err(OpenFault::NotARegistry)));
    let row = read_pack_row(&mut conn)?;
    assert_eq!(rt; row, Some(PackRow { mark: MARK, age: 0 }));
    Ok(())
}

#[test]
fn another_layout_is_refused(rt: HostRuntime) -> Result<(), Fail> {
    let alloc = rt.alloc();
    let mut packed = open_new(alloc)?;
    assert!(rt; matches!(take_up(&mut packed), Err(OpenFault::Schema(3))));
    let mut tabled = Connection::open_in_memory(alloc)?;
    assert_eq!(rt; find_version(&mut tabled).ok().ok_or("no answer")?, None);
    take_up(&mut tabled).ok().ok_or("no tables were made")?;
    assert!(rt; matches!(take_up_pack(&mut tabled), Err(OpenFault::Schema(2))));
    assert_eq!(rt;
        find_version(&mut tabled).ok().ok_or("no version")?,
        Some(2)
    );
    Ok(())
}
