//! Builds maps, and shelves of maps.

ghost use Rattle.std.specs.Prelude.{◌<◌, ◌≤◌, ◌↔◌, All, IsTrue, length};

use cell_core::map::CellMap;
use cell_core::name::Name;
use cell_core::shelf::Shelf;
use cell_core_test_maps::maps::map_of_categories;
use std::alloc::Global;
use std::test::Fail;

/// Adds a map to the shelf.
pub(crate) fn add(alloc: Global, shelf: &mut Shelf, name: &[u8], map: CellMap) -> Result<(), Fail> {
    let name = Name::read(alloc, name)?;
    match shelf.add(name, map) {
        Ok(()) => Ok(()),
        Err(_) => Err("the shelf refused a map")?,
    }
}

/// Returns a map with these categories, or an `Err` if the last row is not full.
pub(crate) fn filled(alloc: Global, categories: &[i32], cols: u32) -> Result<CellMap, Fail>
    requires { 0 < cols }
{
    Ok(map_of_categories(alloc, categories, cols)?.ok_or("no map")?)
}

const NAMES: [&[u8]; 3] = [b"a", b"b", b"c"];

/// Returns a shelf with maps named `a`, `b` and so on, each with `cols` columns.
pub(crate) fn shelf_of(alloc: Global, maps: &[&[i32]], cols: u32) -> Result<Shelf, Fail>
    requires { 0 < cols }
{
    let Some(first) = maps.first() else {
        return Err("no map".into());
    };
    let region = filled(alloc, *first, cols)?.region();
    let mut shelf = Shelf::new(alloc, region);
    for (name, categories) in NAMES.iter().zip(maps) {
        add(alloc, &mut shelf, *name, filled(alloc, *categories, cols)?)?;
    }
    Ok(shelf)
}

// Returns whether all picks are indices on the shelf.
fn are_places(shelf: &Shelf, picks: &[usize]) -> bool
    ensures { IsTrue result ↔ All (λ i. i < length shelf.now.maps) picks.now }
{
    let count = shelf.len();
    picks.iter().all(|i| *i < count)
}

/// Returns whether the picks are valid: 1 to 16 indices on the shelf.
pub(crate) fn are_picks(shelf: &Shelf, picks: &[usize]) -> bool
    ensures picked { IsTrue result → All (λ i. i < length shelf.now.maps) picks.now }
    ensures some { IsTrue result → 0 < length picks.now }
    ensures few { IsTrue result → length picks.now ≤ 16 }
{
    if picks.is_empty() || picks.len() > 16 {
        return false;
    }
    are_places(shelf, picks)
}
