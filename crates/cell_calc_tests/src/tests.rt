//! Tests of worked values of expressions over a map with three rows.

use crate::evaluation::values_along;
use cell_calc::{Bound, CalcFault, CalcKind, Expr, parse, resolve};
use cell_core::cell::Cell;
use cell_core::map::{CellMap, MapBuilder};
use cell_core::name::{Name, Names};
use cell_core::region::Region;
use cell_core::shelf::Shelf;
use cell_core_test_maps::assert_same;
use rcell::map_of_values::evaluate;
use std::alloc::Global;
use std::process::Abort;
use std::test::Fail;

pub(crate) const NULL: i32 = i32::MIN;

// The worked map, with three rows of four cells.
const ROWS: [[i32; 4]; 3] = [[1, 1, 2, NULL], [1, 2, 2, 2], [3, 3, 1, 1]];

fn cell_of(number: i32) -> Cell {
    match Cell::value(number) {
        Some(cell) => cell,
        None => Cell::null(),
    }
}

pub(crate) fn number_of(cell: Cell) -> i32 {
    match cell.get() {
        Some(number) => number,
        None => NULL,
    }
}

fn cells_of(alloc: Global, numbers: [i32; 4]) -> Result<Vec<Cell>, Fail> {
    let mut cells = Vec::new(alloc);
    for number in numbers {
        cells.push(cell_of(number))?;
    }
    Ok(cells)
}

pub(crate) fn worked_map(alloc: Global) -> Result<CellMap, Fail> {
    let region = Region::new(3, 0, 4, 0, 3, 4)?;
    let mut builder = MapBuilder::new(alloc, region);
    for &row in &ROWS {
        let cells = cells_of(alloc, row)?;
        if builder.rows_left() == 0 || cells.len() != region.cols() as usize {
            return Err("no row".into());
        }
        builder.push_row(cells.as_slice())?;
    }
    if builder.rows_left() != 0 {
        return Err("rows left".into());
    }
    Ok(builder.finish())
}

// Returns a shelf with the worked map, named g.
pub(crate) fn worked_shelf(alloc: Global) -> Result<Shelf, Fail> {
    let map = worked_map(alloc)?;
    let mut shelf = Shelf::new(alloc, map.region());
    let name = Name::read(alloc, b"g")?;
    match shelf.add(name, map) {
        Ok(()) => Ok(shelf),
        Err(_) => Err("not added".into()),
    }
}

pub(crate) fn worked_names(alloc: Global) -> Result<Names, Fail> {
    let mut names = Names::new(alloc);
    let name = Name::read(alloc, b"g")?;
    if names.find(name.bytes()).is_none() {
        names.push(name)?;
    }
    Ok(names)
}

pub(crate) fn expression(alloc: Global, text: &[u8]) -> Result<Expr, Fail> {
    let mut assignment = b"x = ".to_vec(alloc)?;
    assignment.extend_from_slice(text)?;
    if assignment.len() > 65535 {
        return Err("too long".into());
    }
    match parse(alloc, assignment.as_slice()) {
        Ok(assignment) => Ok(assignment.expr),
        Err(_) => Err("no assignment".into()),
    }
}

// Parses an expression and replaces its map names with indices.
pub(crate) fn bound_of(alloc: Global, names: &Names, text: &[u8]) -> Result<Bound, Fail> {
    let expr = expression(alloc, text)?;
    Ok(resolve(alloc, &expr, names)?)
}

// Evaluates an expression over a shelf.
pub(crate) fn map_of(alloc: Global, bound: &Bound, shelf: &Shelf) -> Result<CellMap, Fail> {
    if bound.top() > shelf.len() {
        return Err("no such map".into());
    }
    Ok(evaluate(alloc, bound, shelf)?)
}

// Evaluates an expression over the worked map.
pub(crate) fn values(alloc: Global, text: &[u8]) -> Result<CellMap, Fail> {
    let bound = bound_of(alloc, &worked_names(alloc)?, text)?;
    map_of(alloc, &bound, &worked_shelf(alloc)?)
}

pub(crate) fn at(map: &CellMap, row: u32, col: u32) -> i32 {
    let region = map.region();
    if row < region.rows() && col < region.cols() {
        return number_of(map.cell(row, col));
    }
    NULL
}

// Expressions whose value is the same at every cell, each with this value.
const VALUES: [(&str, i32); 41] = [
    ("2147483647 + 1", NULL),
    ("2147483647 + 2", NULL),
    ("-2147483647 - 1", NULL),
    ("1 + 2 * 3 - -4", 11),
    ("7 / -2", -3),
    ("-7 % 3", -1),
    ("5 % 0", NULL),
    ("2147483647 + 1 - 1", NULL),
    ("1073741824 * -2", NULL),
    ("65536 * 65536 * 0", NULL),
    ("abs(-2147483647)", 2147483647),
    ("-2147483647 / -1", 2147483647),
    ("- - 3", 3),
    ("if(0, null(), 4)", 4),
    ("if(null(), 1, 2)", NULL),
    ("if(7)", 1),
    ("if(0, 3)", 0),
    ("1 < 2 < 3", 1),
    ("mode(1,1,null())", NULL),
    ("mode(2,1,2,1)", 1),
    ("max(3, null())", NULL),
    ("nrows() * 100 + ncols()", 304),
    ("10 - 4 - 3", 3),
    ("!0 + 1", 2),
    ("2 < 3 == 1", 1),
    ("0 ? 5 : 1 ? 6 : 7", 6),
    ("0 &&& null()", 0),
    ("1 &&& null()", NULL),
    ("null() ||| 5", 1),
    ("0 ||| null()", NULL),
    ("1 && 0 &&& null()", 0),
    ("null() && 0 &&& 0", 0),
    ("5 ||| null() && 0", 1),
    ("eval(null(), 4)", 4),
    ("eval(1, 2, 3)", 3),
    ("nmin(null(), 2)", 2),
    ("nmin(3, null(), 2)", 2),
    ("nmax(null(), -4)", -4),
    ("nmode(null(), null())", NULL),
    ("nmode(2, null(), 1, 2, 1)", 1),
    ("g[255,-255]", NULL),
];

fn expect_everywhere<R: Abort>(rt: &R, map: &CellMap, text: &str, wanted: i32) {
    for row in 0..3 {
        for col in 0..4 {
            assert_same!(rt; at(map, row, col), wanted, "{text} {row} {col}");
        }
    }
}

#[test]
fn expressions_have_one_value_everywhere(rt: HostRuntime) -> Result<(), Fail> {
    for &(text, wanted) in &VALUES {
        let map = values(rt.alloc(), text.as_bytes())?;
        expect_everywhere(&rt, &map, text, wanted);
    }
    Ok(())
}

// Expressions, each with the column of its first unknown name.
const UNKNOWN_NAMES: [(&[u8], Option<u32>); 4] = [
    (b"g + 1", None),
    (b"h", Some(5)),
    (b"g + h[1,0] * k", Some(9)),
    (b"max(g, if(1, k, h))", Some(18)),
];

#[test]
fn unknown_names_are_found(rt: HostRuntime) -> Result<(), Fail> {
    let alloc = rt.alloc();
    let names = worked_names(alloc)?;
    for &(text, column) in &UNKNOWN_NAMES {
        let expr = expression(alloc, text)?;
        assert_same!(rt; expr.first_unknown(&names), column);
        let wanted = column.map(|column| CalcFault {
            kind: CalcKind::UnknownMap,
            column,
        });
        assert_same!(rt; resolve(alloc, &expr, &names).err(), wanted);
    }
    Ok(())
}

// Parses an expression and evaluates it along a row of the worked map with [`values_along`].
fn worked_row(
    alloc: Global,
    text: &[u8],
    row: u32,
    cells: &mut [Cell],
) -> Result<Option<bool>, Fail> {
    let bound = bound_of(alloc, &worked_names(alloc)?, text)?;
    let shelf = worked_shelf(alloc)?;
    let region = shelf.region();
    if bound.top() > shelf.len() || region.rows() <= row || region.cols() as usize != cells.len() {
        return Err("no such map".into());
    }
    Ok(values_along(alloc, &bound, &shelf, row, cells)?)
}

// In a normal run every allocation succeeds. tools/hostile makes allocations fail in turn, one per run, and checks that
// the row is evaluated again in some of the runs.
#[test]
fn a_refused_row_is_evaluated_again(rt: HostRuntime) -> Result<(), Fail> {
    let text = b"(g + 1) * (g[1,0] + 1) + max(g, mode(g, 1))";
    let mut cells = [cell_of(77); 4];
    if let Some(is_unchanged) = worked_row(rt.alloc(), text, 0, &mut cells)? {
        let _ = eprintln!(rt; "made again");
        assert!(rt; is_unchanged);
    }
    for (cell, wanted) in cells.iter().zip([5, 7, 11, NULL].iter()) {
        assert_same!(rt; number_of(*cell), *wanted);
    }
    Ok(())
}

#[test]
fn a_row_is_evaluated_from_windows_that_were_moved(rt: HostRuntime) -> Result<(), Fail> {
    let mut cells = [cell_of(77); 4];
    worked_row(rt.alloc(), b"g[1,0] + g[-1,0]", 1, &mut cells)?;
    for (cell, wanted) in cells.iter().zip([4, 4, 3, NULL].iter()) {
        assert_same!(rt; number_of(*cell), *wanted);
    }
    Ok(())
}
