//! Tests of names, lists of names and the shelf.

use super::fixture::{NULL, map_of};
use cell_core::name::{Name, NameFault, Names};
use cell_core::shelf::Shelf;
use cell_core_test_maps::assert_same;
use std::alloc::{AllocGlobal, Global};
use std::test::Fail;

// Short texts, some of which are names.
const TEXTS: [(&[u8], Option<NameFault>); 6] = [
    (b"1a", Some(NameFault::BadName)),
    (b"", Some(NameFault::BadName)),
    (b".a", Some(NameFault::BadName)),
    (b"a-b", Some(NameFault::BadName)),
    (b"_land.2", None),
    (b"Z9", None),
];

#[test]
fn reads_names(rt: HostRuntime) -> Result<(), Fail> {
    for &(text, fault) in &TEXTS {
        assert_same!(rt; Name::read(rt.alloc(), text).err(), fault);
    }
    Ok(())
}

#[test]
fn copies_names(rt: HostRuntime) -> Result<(), Fail> {
    let name = Name::read(rt.alloc(), b"_land.2")?;
    let copy = name.copy(rt.alloc())?;
    assert_same!(rt; copy.bytes(), b"_land.2".as_slice());
    Ok(())
}

#[test]
fn finds_names(rt: HostRuntime) -> Result<(), Fail> {
    let mut names = Names::new(rt.alloc());
    names.push(Name::read(rt.alloc(), b"g")?)?;
    assert_same!(rt; (names.len(), names.find(b"g")), (1, Some(0)));
    Ok(())
}

// Returns a shelf with one map named g.
fn shelf_of_one(alloc: Global) -> Result<Shelf, Fail> {
    let map = map_of(alloc, 1, 3, &[7, NULL, 1])?;
    let mut shelf = Shelf::new(alloc, map.region());
    let name = Name::read(alloc, b"g")?;
    if shelf.add(name, map).is_err() {
        return Err("not added".into());
    }
    Ok(shelf)
}

#[test]
fn finds_maps(rt: HostRuntime) -> Result<(), Fail> {
    let shelf = shelf_of_one(rt.alloc())?;
    if shelf.len() != 1 {
        return Err("not one map".into());
    }
    assert_same!(rt; (shelf.find(b"g"), shelf.find(b"h")), (Some(0), None));
    assert_same!(rt; shelf.name(0).bytes(), b"g".as_slice());
    assert!(rt; shelf.map(0).region() == shelf.region());
    Ok(())
}
