//! Builds small maps from their categories, row by row.

ghost use Rattle.std.specs.Prelude.{◌≡◌};

use cell_core::cell::Cell;
use cell_core::map::{CellMap, MapBuilder};
use cell_core::region::Region;
use std::alloc::{AllocError, Global};
use std::test::Fail;

/// Stands for null in a list of categories.
pub const NULL: i32 = i32::MIN;

/// Returns the cell of a category, or null.
pub fn cell(number: i32) -> Cell {
    Cell::value(number).unwrap_or(Cell::null())
}

/// Returns the cells of a list of categories.
pub fn cells(alloc: Global, numbers: &[i32]) -> Result<Vec<Cell>, AllocError> {
    numbers.iter().map(|number| cell(*number)).collect(alloc)
}

/// Returns the map of these categories, from the top left, or an `Err` if they do not fill its rows.
pub fn map_of(alloc: Global, rows: u32, cols: u32, numbers: &[i32]) -> Result<CellMap, Fail> {
    let region = Region::new(1, 0, 1, 0, rows, cols)?;
    let cells = cells(alloc, numbers)?;
    let width = region.cols() as usize;
    let mut builder = MapBuilder::new(alloc, region);
    for row in cells.chunks(width) {
        if row.len() != width || builder.rows_left() == 0 {
            return Err("no such row".into());
        }
        builder.push_row(row)?;
    }
    if builder.rows_left() != 0 {
        return Err("rows are left".into());
    }
    Ok(builder.finish())
}
