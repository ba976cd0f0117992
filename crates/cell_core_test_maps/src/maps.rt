//! Converts between maps and lists of categories, row by row from the top left.

ghost use Rattle.std.specs.Prelude.{◌<◌};

use cell_core::cell::Cell;
use cell_core::map::{CellMap, MapBuilder};
use cell_core::memory::Memory;
use cell_core::region::Region;
use std::alloc::Global;

/// Stands for null in a list of categories. It is not a category itself.
pub const NULL_CATEGORY: i32 = i32::MIN;

fn cells_of_categories(alloc: Global, categories: &[i32]) -> Result<Vec<Cell>, Memory> {
    let mut cells = Vec::new(alloc);
    for category in categories {
        cells.push(Cell::value(*category).unwrap_or(Cell::null()))?;
    }
    Ok(cells)
}

/// Returns the map of these categories in rows of `cols` columns, or `None` if the last row is not full.
pub fn map_of_categories(
    alloc: Global,
    categories: &[i32],
    cols: u32,
) -> Result<Option<CellMap>, Memory>
    requires { 0 < cols }
{
    let rows = u32::try_from(categories.len() / cols as usize).unwrap_or(0);
    let Ok(region) = Region::new(1, 0, 1, 0, rows, cols) else {
        return Ok(None);
    };
    let mut builder = MapBuilder::new(alloc, region);
    for row in categories.chunks(cols as usize) {
        let cells = cells_of_categories(alloc, row)?;
        if cells.len() as u64 != region.cols() as u64 || builder.rows_left() == 0 {
            return Ok(None);
        }
        builder.push_row(&cells)?;
    }
    if builder.rows_left() != 0 {
        return Ok(None);
    }
    Ok(Some(builder.finish()))
}

/// Returns the categories of a map.
pub fn categories_of_map(alloc: Global, map: &CellMap) -> Result<Vec<i32>, Memory> {
    let region = map.region();
    let mut buffer = vec![in alloc; Cell::null(); region.cols() as usize]?;
    let row = buffer.as_mut_slice();
    let mut categories = Vec::new(alloc);
    for r in 0..region.rows() {
        map.copy_row(r, row);
        for cell in row.iter() {
            categories.push(cell.get().unwrap_or(NULL_CATEGORY))?;
        }
    }
    Ok(categories)
}
