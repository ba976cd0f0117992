//! Tests of maps: cells, runs and labels.

use super::fixture::{NULL, cell, map_of};
use cell_core::cell::Cell;
use cell_core::map::{CellMap, MapBuilder};
use cell_core::region::Region;
use cell_core_test_maps::assert_same;
use std::alloc::{AllocGlobal, Global};
use std::process::Abort;
use std::test::Fail;

const ROWS: u32 = 3;

const COLS: u32 = 4;

const GRID: [i32; 12] = [1, 1, 2, NULL, 1, 2, 2, 2, 3, 3, 1, 1];

// Checks the runs of a row, given as categories and lengths.
fn expect_runs<R: Abort + AllocGlobal>(
    rt: &R,
    map: &CellMap,
    row: u32,
    wanted: &[(i32, u32)],
) -> Result<(), Fail> {
    assert!(rt; row < map.region().rows());
    assert_same!(rt; map.runs(row).len(), wanted.len(), "row {row}");
    let found: Vec<(Cell, u32)> = map.runs(row).collect(rt.alloc())?;
    assert_same!(rt; found.len(), wanted.len(), "row {row}");
    for (run, wanted) in found.iter().zip(wanted) {
        assert_same!(rt; *run, (cell(wanted.0), wanted.1), "row {row}");
    }
    Ok(())
}

// Checks the runs of several rows.
fn expect_runs_of_rows<R: Abort + AllocGlobal>(
    rt: &R,
    map: &CellMap,
    rows: &[(u32, &[(i32, u32)])],
) -> Result<(), Fail> {
    for (row, wanted) in rows {
        expect_runs(rt, map, *row, *wanted)?;
    }
    Ok(())
}

#[test]
fn keeps_the_rows_that_are_pushed(rt: HostRuntime) -> Result<(), Fail> {
    let (one, other) = (Cell::value(1).ok_or("null")?, Cell::value(2).ok_or("null")?);
    let region = Region::new(1, 0, 1, 0, 2, 2)?;
    let mut builder = MapBuilder::new(rt.alloc(), region);
    builder.push_row(&[one, other])?;
    builder.push_row(&[other, one])?;
    let map = builder.finish();
    assert_same!(rt; (map.cell(0, 1), map.cell(1, 1)), (other, one));
    Ok(())
}

#[test]
fn gives_its_runs(rt: HostRuntime) -> Result<(), Fail> {
    let map = map_of(rt.alloc(), ROWS, COLS, &GRID)?;
    expect_runs_of_rows(
        &rt,
        &map,
        &[
            (0, &[(1, 2), (2, 1), (NULL, 1)]),
            (1, &[(1, 1), (2, 3)]),
            (2, &[(3, 2), (1, 2)]),
        ],
    )
}

// Returns the cell at a row and a column, or `None` outside the map.
fn cell_at(map: &CellMap, row: u32, col: u32) -> Option<Cell> {
    let region = map.region();
    if row < region.rows() && col < region.cols() {
        Some(map.cell(row, col))
    } else {
        None
    }
}

// Checks the stretches of a row, given as categories and lengths.
fn expect_stretches<R: Abort + AllocGlobal>(
    rt: &R,
    map: &CellMap,
    row: u32,
    wanted: &[(i32, u32)],
) -> Result<(), Fail> {
    assert!(rt; row < map.region().rows());
    let found: Vec<(Cell, u32)> = map.stretches(row).collect(rt.alloc())?;
    assert_same!(rt; found.len(), wanted.len(), "row {row}");
    for (stretch, wanted) in found.iter().zip(wanted) {
        assert_same!(rt; *stretch, (cell(wanted.0), wanted.1), "row {row}");
    }
    Ok(())
}

const FEW_RUNS: [i32; 18] = [
    501, 501, 502, 502, 502, NULL, NULL, NULL, NULL, NULL, NULL, NULL, NULL, NULL, NULL, NULL,
    NULL, NULL,
];

const MANY_RUNS: [i32; 18] = [
    501, 502, 501, 502, 501, 502, 501, 502, 501, 502, 501, 502, 501, 502, 501, 502, 501, 502,
];

// Checks that a row with few runs is read run by run, and a row with many runs cell by cell.
#[test]
fn gives_its_stretches(rt: HostRuntime) -> Result<(), Fail> {
    let map = map_of(rt.alloc(), 1, 18, &FEW_RUNS)?;
    expect_stretches(&rt, &map, 0, &[(501, 2), (502, 3), (NULL, 13)])?;
    let map = map_of(rt.alloc(), 1, 18, &MANY_RUNS)?;
    let mut cells = [(0, 1); 18];
    for col in 0..18 {
        cells[col].0 = MANY_RUNS[col];
    }
    expect_stretches(&rt, &map, 0, &cells)
}

const FIVE: [i32; 5] = [7, -2147483647, -2147483647, NULL, 0];

#[test]
fn gives_its_cells(rt: HostRuntime) -> Result<(), Fail> {
    let map = map_of(rt.alloc(), 1, 5, &FIVE)?;
    assert_same!(rt; (map.region().rows(), map.region().cols()), (1, 5));
    for &(col, number) in &[
        (0, Some(7)),
        (2, Some(-2147483647)),
        (3, None),
        (4, Some(0)),
    ] {
        if let Some(cell) = cell_at(&map, 0, col) {
            assert_same!(rt; cell.get(), number, "column {col}");
        }
    }
    Ok(())
}

#[test]
fn copies_a_row(rt: HostRuntime) -> Result<(), Fail> {
    let map = map_of(rt.alloc(), 1, 5, &FIVE)?;
    let region = map.region();
    if region.rows() != 1 || region.cols() != 5 {
        return Err("no such map".into());
    }
    let mut row = [Cell::null(); 5];
    map.copy_row(0, &mut row);
    for (found, number) in row.iter().zip(FIVE.iter()) {
        assert_same!(rt; *found, cell(*number));
    }
    Ok(())
}

#[test]
fn keeps_labels(rt: HostRuntime) -> Result<(), Fail> {
    let mut map = map_of(rt.alloc(), ROWS, COLS, &GRID)?;
    assert_same!(rt; map.label(3), None);
    map.set_label(3, b"forest")?;
    map.set_label(-2147483647, b"")?;
    map.set_label(1, b"open water")?;
    assert_same!(rt; map.label(3), Some(b"forest".as_slice()));
    map.set_label(3, b"wood")?;
    let table = [
        (-2147483647, Some(b"".as_slice())),
        (1, Some(b"open water".as_slice())),
        (2, None),
        (3, Some(b"wood".as_slice())),
        (i32::MIN, None),
    ];
    for &(category, label) in &table {
        assert_same!(rt; map.label(category), label, "category {category}");
    }
    expect_runs(&rt, &map, 0, &[(1, 2), (2, 1), (NULL, 1)])
}
