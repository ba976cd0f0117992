//! Replaces the labels of a map with numbers.

ghost use Rattle.std.specs.Prelude.{◌≡◌, ◌<◌, All, length, map, IfOk};
ghost use Rattle.cell_core.specs.Grid.{empty_category_labels};
ghost use Rattle.cell_clumps.specs.parts.RunsOfLabels.{clump_number_cell_of_label};

use crate::kept_labels::RowClumpLabels;
use cell_core::cell::Cell;
use cell_core::map::{CellMap, MapBuilder};
use cell_core::memory::Memory;
use cell_core::region::Region;
use std::alloc::Global;

// Returns the clump map. Frees the labels of each row before its numbers are stored, so that labels and numbers
// together take no more memory than one of the two.
pub(crate) fn clump_map_of_labels(
    alloc: Global,
    region: Region,
    table: &[u32],
    rows: Vec<RowClumpLabels>,
    cells: &mut [Cell],
) -> Result<CellMap, Memory>
    requires small { All (λ number. number < 2147483648) table.now }
    requires wide { All (λ row. length row ≡ region.cols) rows.items }
    requires count { length rows.items ≡ region.rows }
    requires width { length cells.old ≡ region.cols }
    ensures { IfOk result (λ made. made ≡ record {
      region = region;
      rows = map (map (clump_number_cell_of_label table.now)) rows.items;
      labels = empty_category_labels;
    }) }
{
    let mut builder = MapBuilder::new(alloc, region);
    for labels in rows {
        labels.write_clump_numbers_of_row(table, cells);
        builder.push_row(cells)?;
    }
    Ok(builder.finish())
}
