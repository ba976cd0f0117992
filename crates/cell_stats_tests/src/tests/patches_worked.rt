//! Tests of the patches of a worked map, whose measures were found by hand.

use super::maps::filled;
use cell_clumps::clump::{Joining, clump_with};
use cell_core_test_maps::assert_same;
use cell_core_test_maps::maps::NULL_CATEGORY;
use cell_patches::measuring::{patch_measures, patch_measures_in_tile};
use cell_patches::patch::Patch;
use cell_patches::tile_position::TilePosition;
use cell_patches::zones::zones_of_patches;
use std::alloc::AllocGlobal;
use std::test::Fail;

// Rows of seven columns. By edges, each class has two patches; by edges and corners, only class 3 has two.
const WORKED: [i32; 42] = [
    1,
    1,
    1,
    1,
    1,
    2,
    2, //
    1,
    1,
    1,
    1,
    1,
    NULL_CATEGORY,
    2, //
    1,
    1,
    1,
    1,
    1,
    2,
    3, //
    1,
    1,
    1,
    1,
    1,
    1,
    3, //
    1,
    1,
    1,
    1,
    1,
    NULL_CATEGORY,
    1, //
    NULL_CATEGORY,
    3,
    3,
    3,
    3,
    1,
    1, //
];

#[test]
fn only_tile_has_rows_and_columns_of_full_map(rt: HostRuntime) -> Result<(), Fail> {
    let map = filled(rt.alloc(), &WORKED, 7)?;
    let numbers = clump_with(rt.alloc(), &map, Joining::Edges)?;
    let position = TilePosition {
        top: 0,
        left: 0,
        first_row: 100,
        first_col: 2000,
    };
    let fits = numbers.region().rows() < 1000 && numbers.region().cols() < 1000;
    if !fits {
        return Err(Fail::from("a larger map"));
    }
    let patches = patch_measures_in_tile(rt.alloc(), &map, position, &numbers, Joining::Edges, 1)?;
    let wanted = Patch {
        class: 1,
        cells: 26,
        ends: 12,
        flanks: 10,
        core: 10,
        first_row: 100,
        last_row: 104,
        first_col: 2000,
        last_col: 2005,
    };
    assert_same!(rt; patches.first(), Some(&wanted));
    Ok(())
}

#[test]
fn sides_to_null_are_counted(rt: HostRuntime) -> Result<(), Fail> {
    let map = filled(rt.alloc(), &[5, 5, 5, 5, NULL_CATEGORY, 5], 3)?;
    let numbers = clump_with(rt.alloc(), &map, Joining::Edges)?;
    let patches = patch_measures(rt.alloc(), &map, &numbers, Joining::Edges, 1)?;
    let patch = patches.first().ok_or("no patch")?;
    assert_same!(rt; (patch.cells, patch.ends, patch.flanks), (5, 6, 6));
    Ok(())
}

#[test]
fn a_patch_has_a_main_zone(rt: HostRuntime) -> Result<(), Fail> {
    let map = filled(rt.alloc(), &[5, 5, 5, 5, NULL_CATEGORY, 5], 3)?;
    let zones = filled(rt.alloc(), &[10, 20, 20, NULL_CATEGORY, 10, 10], 3)?;
    let numbers = clump_with(rt.alloc(), &map, Joining::Edges)?;
    let is_same = zones.region() == numbers.region();
    if !is_same {
        return Err(Fail::from("zones of another region"));
    }
    let main = zones_of_patches(rt.alloc(), &numbers, &zones, 1)?;
    assert_same!(rt; main.first(), Some(&Some(10)));
    Ok(())
}
