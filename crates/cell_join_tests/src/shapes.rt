//! Tests of four tiles that meet at a corner, and of the order of numbers. `tools/join` joins tiles of many shapes.

use crate::tiles::{Whole, joined_numbers};
use cell_clumps::clump::Joining;
use cell_core_test_maps::assert_same;
use std::alloc::AllocGlobal;
use std::test::Fail;

#[test]
fn four_tiles_meet_at_a_crossing(rt: HostRuntime) -> Result<(), Fail> {
    let whole = Whole {
        categories: &[1, 2, 2, 1],
        cols: 2,
    };
    let edges = joined_numbers(rt.alloc(), whole, &[1, 1], &[1, 1], Joining::Edges)?;
    assert_same!(rt; edges.0.as_slice(), [1, 2, 3, 4].as_slice());
    let corners = joined_numbers(
        rt.alloc(),
        whole,
        &[1, 1],
        &[1, 1],
        Joining::EdgesAndCorners,
    )?;
    assert_same!(rt; (corners.0.as_slice(), corners.1), ([1, 2, 2, 1].as_slice(), 2));
    Ok(())
}

#[test]
fn clumps_are_numbered_by_rows_and_not_by_tiles(rt: HostRuntime) -> Result<(), Fail> {
    let whole = Whole {
        categories: &[1, 2, 3, 4],
        cols: 2,
    };
    let joined = joined_numbers(rt.alloc(), whole, &[2], &[1, 1], Joining::Edges)?;
    assert_same!(rt; joined.0.as_slice(), [1, 2, 3, 4].as_slice());
    Ok(())
}
