//! Tests of complete texts, read in pieces of seven bytes.

use cell_ascii::grid_fault::{GridFault, GridKind};
use cell_ascii::grid_reader::read_map;
use cell_ascii::writer::write_map;
use cell_ascii_reading::number::coordinate_of_text;
use cell_core::map::CellMap;
use cell_core::region::RegionFault;
use cell_core::sink::MemorySink;
use cell_core::source::MemorySource;
use cell_core_test_maps::assert_same;
use std::alloc::AllocGlobal;
use std::process::Abort;
use std::test::Fail;

const GRID: &[u8] =
    b"north: 3\nsouth: 0\neast: 4\nwest: 0\nrows: 3\ncols: 4\n1 1 2 *\n1 2 2 2\n3 3 1 1\n";

fn read<R: AllocGlobal>(rt: &R, text: &[u8]) -> Result<Result<CellMap, GridFault>, Fail> {
    let bytes = text.to_vec(rt.alloc())?;
    Ok(read_map(rt.alloc(), MemorySource::new(bytes, 7, false)).map)
}

// Reads the map of a valid text.
fn read_good<R: AllocGlobal>(rt: &R, text: &[u8]) -> Result<CellMap, Fail> {
    Ok(read(rt, text)??)
}

fn expect_fault<R: Abort + AllocGlobal>(
    rt: &R,
    text: &[u8],
    kind: GridKind,
    line: u64,
) -> Result<(), Fail> {
    let found = read(rt, text)?.err();
    assert_same!(rt; found, Some(GridFault { kind, line }));
    Ok(())
}

fn expect_faults<R: Abort + AllocGlobal>(
    rt: &R,
    table: &[(&[u8], GridKind, u64)],
) -> Result<(), Fail> {
    for (text, kind, line) in table {
        expect_fault(rt, text, *kind, *line)?;
    }
    Ok(())
}

// Returns the category of a cell, or `None` if the cell is null or outside the map.
fn category(map: &CellMap, row: u32, col: u32) -> Option<i32> {
    let region = map.region();
    if row < region.rows() && col < region.cols() {
        return map.cell(row, col).get();
    }
    None
}

// Checks the categories of these cells.
fn expect_categories<R: Abort>(rt: &R, map: &CellMap, cells: &[(u32, u32, Option<i32>)]) {
    for (row, col, wanted) in cells {
        assert_same!(rt; category(map, *row, *col), *wanted, "{row} {col}");
    }
}

// Returns a text followed by `count` equal bytes.
fn followed_by<R: AllocGlobal>(rt: &R, text: &[u8], byte: u8, count: u32) -> Result<Vec<u8>, Fail> {
    let mut bytes = text.to_vec(rt.alloc())?;
    for _ in 0..count {
        bytes.push(byte)?;
    }
    Ok(bytes)
}

#[test]
fn reads_a_grid(rt: HostRuntime) -> Result<(), Fail> {
    let source = MemorySource::new(GRID.to_vec(rt.alloc())?, 7, false);
    let map = read_map(rt.alloc(), source).map?;
    assert_same!(rt; (map.region().rows(), map.region().cols()), (3, 4));
    expect_categories(&rt, &map, &[(0, 2, Some(2)), (0, 3, None), (2, 0, Some(3))]);
    Ok(())
}

// Texts with an error in the header, with its kind and line.
const HEADER_FAULTS: [(&[u8], GridKind, u64); 8] = [
    (b"", GridKind::MissingKey, 1),
    (b"north: 3 4\n", GridKind::BadHeader, 1),
    (b"kind: int\n", GridKind::BadHeader, 1),
    (b"type: int\n", GridKind::MissingKey, 2),
    (b"north: 1\nnorth: 1\n", GridKind::TwiceKey, 2),
    (
        b"north: 12345678901\nsouth: 0\neast: 4\nwest: 0\nrows: 3\ncols: 4\n1 1 2 *\n1 2 2 2\n3 3 1 1\n",
        GridKind::BadNumber,
        1,
    ),
    (
        b"north: 3\nsouth: 0\neast: 4\nwest: 0\nrows: 99999999999\ncols: 4\n1 1 2 *\n1 2 2 2\n3 3 1 1\n",
        GridKind::BadNumber,
        5,
    ),
    (
        b"north: 3\nsouth: 0\neast: 4\nwest: 0\nrows: 3\ncols: 4\ntype: float\n1 1 2 *\n1 2 2 2\n3 3 1 1\n",
        GridKind::BadType,
        7,
    ),
];

#[test]
fn reports_faults_of_a_header(rt: HostRuntime) -> Result<(), Fail> {
    expect_faults(&rt, &HEADER_FAULTS)
}

// Texts with an error in the region, with its kind and line.
const REGION_FAULTS: [(&[u8], GridKind, u64); 3] = [
    (
        b"north: 3\nsouth: 0\neast: 4\nwest: 0\nrows: -1\ncols: 4\n1 1 2 *\n1 2 2 2\n3 3 1 1\n",
        GridKind::Region(RegionFault::BadRows),
        7,
    ),
    (
        b"north: 0\nsouth: 0\neast: 4\nwest: 0\nrows: 3\ncols: 4\n1 1 2 *\n1 2 2 2\n3 3 1 1\n",
        GridKind::Region(RegionFault::BadExtent),
        7,
    ),
    (
        b"north: 3\nsouth: 0\neast: 4\nwest: 0\nrows: -1\ncols: 4\n",
        GridKind::Region(RegionFault::BadRows),
        7,
    ),
];

#[test]
fn reports_faults_of_a_region(rt: HostRuntime) -> Result<(), Fail> {
    expect_faults(&rt, &REGION_FAULTS)
}

// Regions with more cells than there are categories above 0, and a region with exactly as many.
const SIZE_FAULTS: [(&[u8], GridKind, u64); 3] = [
    (
        b"north: 1\nsouth: 0\neast: 1\nwest: 0\nrows: 65535\ncols: 65535\n7\n",
        GridKind::Region(RegionFault::TooManyCells),
        7,
    ),
    (
        b"north: 1\nsouth: 0\neast: 1\nwest: 0\nrows: 65536\ncols: 65535\n7\n",
        GridKind::Region(RegionFault::BadRows),
        7,
    ),
    (
        b"north: 1\nsouth: 0\neast: 1\nwest: 0\nrows: 65535\ncols: 32768\n7\n",
        GridKind::TooFew,
        8,
    ),
];

#[test]
fn reports_too_many_cells(rt: HostRuntime) -> Result<(), Fail> {
    expect_faults(&rt, &SIZE_FAULTS)
}

// Texts with too few or too many cells, with the kind and line of the error.
const CELL_FAULTS: [(&[u8], GridKind, u64); 3] = [
    (
        b"north: 3\nsouth: 0\neast: 4\nwest: 0\nrows: 3\ncols: 4\n",
        GridKind::TooFew,
        7,
    ),
    (
        b"north: 3\nsouth: 0\neast: 4\nwest: 0\nrows: 3\ncols: 4\n1 1 2 *\n1 2 2 2\n3 3 1\n",
        GridKind::TooFew,
        10,
    ),
    (
        b"north: 3\nsouth: 0\neast: 4\nwest: 0\nrows: 3\ncols: 4\n1 1 2 *\n1 2 2 2\n3 3 1 1 5\n",
        GridKind::TooMany,
        9,
    ),
];

#[test]
fn reports_faults_of_cells(rt: HostRuntime) -> Result<(), Fail> {
    expect_faults(&rt, &CELL_FAULTS)
}

// Texts with cells that are invalid because of the null text or the multiplier.
const NULL_FAULTS: [(&[u8], GridKind, u64); 2] = [
    (
        b"north: 1\nsouth: 0\neast: 3\nwest: 0\nrows: 1\ncols: 3\nnull: -9\nmultiplier: 3\n* 9 -2\n",
        GridKind::BadCell,
        9,
    ),
    (
        b"north: 1\nsouth: 0\neast: 3\nwest: 0\nrows: 1\ncols: 3\nnull: -9\nmultiplier: 2\n1073741824 1 1\n",
        GridKind::CellRange,
        9,
    ),
];

#[test]
fn reads_null_and_multiplier(rt: HostRuntime) -> Result<(), Fail> {
    let row =
        b"north: 1\nsouth: 0\neast: 3\nwest: 0\nrows: 1\ncols: 3\nnull: -9\nmultiplier: 3\n-9 9 -2\n";
    let map = read_good(&rt, row)?;
    assert_same!(rt; (map.region().rows(), map.region().cols()), (1, 3));
    expect_categories(
        &rt,
        &map,
        &[(0, 0, None), (0, 1, Some(27)), (0, 2, Some(-6))],
    );
    expect_faults(&rt, &NULL_FAULTS)
}

// Texts followed by a repeated byte: the text, the byte, the number of repetitions, and the error.
const LIMITS: [(&[u8], u8, u32, Option<GridFault>); 5] = [
    (GRID, b' ', 1048575, None),
    (
        GRID,
        b' ',
        1048576,
        Some(GridFault {
            kind: GridKind::ReaderStuck,
            line: 10,
        }),
    ),
    (
        b"north: 3 ",
        b'1',
        65,
        Some(GridFault {
            kind: GridKind::BadHeader,
            line: 1,
        }),
    ),
    (
        b"north: ",
        b'1',
        65,
        Some(GridFault {
            kind: GridKind::LongToken,
            line: 1,
        }),
    ),
    (
        b"north: 1\nsouth: 0\neast: 1\nwest: 0\nrows: 1\ncols: 1\n",
        b'1',
        65,
        Some(GridFault {
            kind: GridKind::LongToken,
            line: 7,
        }),
    ),
];

#[test]
fn limits_words_and_blanks(rt: HostRuntime) -> Result<(), Fail> {
    for &(text, byte, count, wanted) in &LIMITS {
        let text = followed_by(&rt, text, byte, count)?;
        assert_same!(rt; read(&rt, text.as_slice())?.err(), wanted);
    }
    Ok(())
}

#[test]
fn writes_a_grid(rt: HostRuntime) -> Result<(), Fail> {
    let map = read_good(&rt, GRID)?;
    let mut sink = MemorySink::new(vec![in rt.alloc(); 0u8; 100]?, 3, false);
    let length = write_map(&map, b"*", &mut sink)?;
    assert_same!(rt; length, GRID.len() as u64);
    assert_same!(rt; sink.bytes(), GRID);
    Ok(())
}

#[test]
fn reads_what_it_writes(rt: HostRuntime) -> Result<(), Fail> {
    assert_same!(rt; coordinate_of_text(b"10.50"), Some(1050000000));
    assert_same!(rt; coordinate_of_text(b"-.25"), Some(-25000000));
    assert_same!(rt; coordinate_of_text(b"north"), None);
    let row = b"north: 10.50\nsouth: -.25\neast: 4.\nwest: +0\nrows: 1\ncols: 2\n7 *";
    let map = read_good(&rt, row)?;
    let mut sink = MemorySink::new(vec![in rt.alloc(); 0u8; 100]?, 3, false);
    assert_same!(rt; write_map(&map, b"-9", &mut sink)?, 71);
    let again = read_good(&rt, sink.bytes())?;
    let region = again.region();
    assert_same!(rt; (region, region.rows(), region.cols()), (map.region(), 1, 2));
    expect_categories(&rt, &again, &[(0, 0, Some(7)), (0, 1, None)]);
    Ok(())
}
