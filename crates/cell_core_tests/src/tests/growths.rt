//! Tests that calls that run out of memory leave their object unchanged and succeed when repeated.
//!
//! In a normal run every allocation succeeds. tools/hostile makes allocations fail in turn, one per run, and checks
//! that each call is repeated in some of the runs.

ghost use Rattle.std.specs.Prelude.{◌≡◌, length};

use super::fixture::{NULL, cells, map_of};
use cell_core::cell::Cell;
use cell_core::map::{CellMap, MapBuilder};
use cell_core::name::{Name, Names};
use cell_core::region::Region;
use cell_core::shelf::{Shelf, ShelfFault, ShelfRefused};
use cell_core_test_maps::assert_same;
use std::alloc::AllocGlobal;
use std::process::Abort;
use std::test::Fail;

const NAMES: [&[u8]; 15] = [
    b"a", b"b", b"c", b"d", b"e", b"f", b"g", b"h", b"i", b"j", b"k", b"l", b"m", b"n", b"o",
];

// Reports that a call failed and is repeated.
fn report_again<R: Eprint>(rt: &R) {
    let _ = eprintln!(rt; "made again");
}

fn push_row<R: Abort + AllocGlobal + Eprint>(
    rt: &R,
    builder: &mut MapBuilder,
    row: &[Cell],
) -> Result<(), Fail>
    requires { length row.now ≡ builder.old.region.cols }
    ensures { builder.new.region ≡ builder.old.region }
{
    let left = builder.rows_left();
    if left == 0 {
        return Err("no row is left".into());
    }
    if builder.push_row(row).is_err() {
        report_again(rt);
        assert_same!(rt; builder.rows_left(), left);
        builder.push_row(row)?;
    }
    Ok(())
}

// Pushes five rows.
fn push_rows<R: Abort + AllocGlobal + Eprint>(
    rt: &R,
    builder: &mut MapBuilder,
    row: &[Cell],
) -> Result<(), Fail>
    requires { length row.now ≡ builder.old.region.cols }
    ensures { builder.new.region ≡ builder.old.region }
{
    push_row(rt, builder, row)?;
    push_row(rt, builder, row)?;
    push_row(rt, builder, row)?;
    push_row(rt, builder, row)?;
    push_row(rt, builder, row)
}

#[test]
fn a_refused_row_is_pushed_again(rt: HostRuntime) -> Result<(), Fail> {
    let row = cells(rt.alloc(), &[1, 2, NULL, 2, 1, 1])?;
    let region = Region::new(5, 0, 6, 0, 5, 6)?;
    if row.len() != region.cols() as usize {
        return Err("no row".into());
    }
    let mut builder = MapBuilder::new(rt.alloc(), region);
    push_rows(&rt, &mut builder, row.as_slice())?;
    if builder.rows_left() != 0 {
        return Err("rows are left".into());
    }
    let map = builder.finish();
    let mut found = [Cell::null(); 6];
    map.copy_row(4, &mut found);
    assert_same!(rt; found.as_slice(), row.as_slice());
    Ok(())
}

fn set_label<R: Abort + AllocGlobal + Eprint>(
    rt: &R,
    map: &mut CellMap,
    category: i32,
    before: Option<&[u8]>,
    text: &[u8],
) -> Result<(), Fail> {
    if category == i32::MIN {
        return Err("no category".into());
    }
    if map.set_label(category, text).is_err() {
        report_again(rt);
        assert_same!(rt; map.label(category), before, "category {category}");
        map.set_label(category, text)?;
    }
    assert_same!(rt; map.label(category), Some(text), "category {category}");
    Ok(())
}

#[test]
fn a_refused_label_is_set_again(rt: HostRuntime) -> Result<(), Fail> {
    let mut map = map_of(rt.alloc(), 1, 2, &[1, NULL])?;
    for category in 0..20 {
        set_label(&rt, &mut map, category, None, b"low")?;
    }
    for category in 5..9 {
        set_label(&rt, &mut map, category, Some(b"low".as_slice()), b"wood")?;
    }
    for category in 9..20 {
        assert_same!(rt; map.label(category), Some(b"low".as_slice()));
    }
    Ok(())
}

// Checks that a failed push left the list unchanged, then pushes the name again.
fn push_again<R: Abort + Eprint>(
    rt: &R,
    names: &mut Names,
    count: usize,
    name: Name,
) -> Result<(), Fail> {
    report_again(rt);
    assert_same!(rt; names.len(), count);
    if names.find(name.bytes()).is_some() {
        return Err("a part of a name".into());
    }
    names.push(name)?;
    Ok(())
}

fn push_name<R: Abort + AllocGlobal + Eprint>(
    rt: &R,
    names: &mut Names,
    text: &[u8],
) -> Result<(), Fail> {
    let count = names.len();
    let name = Name::read(rt.alloc(), text)?;
    let again = name.copy(rt.alloc())?;
    if names.find(name.bytes()).is_some() {
        return Err("a name twice".into());
    }
    if names.push(name).is_err() {
        push_again(rt, names, count, again)?;
    }
    assert_same!(rt; names.find(text), Some(count));
    Ok(())
}

#[test]
fn a_refused_name_is_pushed_again(rt: HostRuntime) -> Result<(), Fail> {
    let mut names = Names::new(rt.alloc());
    for &text in &NAMES {
        push_name(&rt, &mut names, text)?;
    }
    for (place, text) in NAMES.iter().enumerate() {
        assert_same!(rt; names.find(*text), Some(place));
    }
    Ok(())
}

// Checks that the shelf is unchanged after it rejected a map for lack of memory, then adds the map again.
fn add_again<R: Abort + Eprint>(
    rt: &R,
    shelf: &mut Shelf,
    count: usize,
    text: &[u8],
    refused: ShelfRefused,
) {
    report_again(rt);
    assert_same!(rt; (refused.fault, refused.name.bytes()), (ShelfFault::Memory, text));
    assert_same!(rt; (shelf.len(), shelf.find(text)), (count, None));
    assert!(rt; shelf.add(refused.name, refused.map).is_ok());
}

fn add<R: Abort + AllocGlobal + Eprint>(
    rt: &R,
    shelf: &mut Shelf,
    text: &[u8],
    map: CellMap,
) -> Result<(), Fail> {
    let count = shelf.len();
    let name = Name::read(rt.alloc(), text)?;
    if let Err(refused) = shelf.add(name, map) {
        add_again(rt, shelf, count, text, refused);
    }
    assert_same!(rt; shelf.find(text), Some(count));
    Ok(())
}

#[test]
fn a_refused_map_is_added_again(rt: HostRuntime) -> Result<(), Fail> {
    let region = Region::new(1, 0, 1, 0, 1, 2)?;
    let mut shelf = Shelf::new(rt.alloc(), region);
    for (place, text) in NAMES.iter().enumerate() {
        let map = map_of(rt.alloc(), 1, 2, &[place as i32, NULL])?;
        add(&rt, &mut shelf, *text, map)?;
    }
    for place in 0..shelf.len() {
        assert_same!(rt;
            shelf.map(place).cell(0, 0).get(),
            i32::try_from(place).ok()
        );
    }
    Ok(())
}
