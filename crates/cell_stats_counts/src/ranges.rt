//! Estimates the range of a map's categories from some of its rows.
//!
//! No contract says that a range contains all categories: categories outside are also counted, but more slowly.

ghost use Rattle.std.specs.Prelude.{◌<◌};
ghost use Rattle.cell_stats_combinations.specs.Combinations.{ArePicksOnShelf};

use crate::paired::SlotLayout;
use cell_core::map::CellMap;
use cell_core::shelf::Shelf;
use cell_core_values::small_cells::cell_of_byte;
use cell_stats_combinations::scattered::CategoryCodeRange;

// The approximate number of rows of a map that are sampled.
const SAMPLED_ROWS: u32 = 8;

// Maximum number of categories that have their own place.
const MAX_CATEGORIES_WITH_OWN_SLOT: u64 = 16777216;

// The byte that stands for the largest category.
const BYTE_OF_LARGEST_CATEGORY: u8 = 254;

// What the sampled rows contain: the range of the categories, and the number of stretches.
#[derive(Clone, Copy)]
struct CategorySample {
    range: CategoryCodeRange,
    stretches: u64,
}

impl CategorySample {
    // Returns the sample with one more row.
    fn with_row(mut self, map: &CellMap, row: u32) -> CategorySample
        requires { row < map.now.region.rows }
    {
        if let Some(bytes) = map.bytes(row) {
            let range = self.range.with(cell_of_byte(0));
            self.range = range.with(cell_of_byte(BYTE_OF_LARGEST_CATEGORY));
            self.stretches = self.stretches.wrapping_add(bytes.len() as u64);
            return self;
        }
        for (cell, _) in map.stretches(row) {
            self.range = self.range.with(cell);
            self.stretches = self.stretches.wrapping_add(1);
        }
        self
    }

    // Returns a layout with a place for each category, if there are hardly more categories than stretches. Some places
    // are left free on both sides.
    fn layout(self, times: u64) -> SlotLayout {
        let CategoryCodeRange { smallest, largest } = self.range;
        if smallest > largest {
            return SlotLayout::hashed();
        }
        let margin = (largest - smallest) / 16;
        let first = smallest.saturating_sub(margin).max(1);
        let last = largest.saturating_add(margin);
        let own = last.wrapping_sub(first).wrapping_add(1);
        let stretches = self.stretches.wrapping_mul(times);
        if own
            > stretches
                .saturating_mul(2)
                .min(MAX_CATEGORIES_WITH_OWN_SLOT)
        {
            return SlotLayout::hashed();
        }
        let own = own as usize;
        SlotLayout { first, own }
    }
}

// Returns the layout in which combinations of the picked maps are searched.
pub(crate) fn slot_layout_for_maps(shelf: &Shelf, picks: &[usize]) -> SlotLayout
    requires { ArePicksOnShelf shelf.now picks.now }
{
    if let [place] = picks {
        let map = shelf.map(*place);
        let rows = map.region().rows();
        let apart = (rows / SAMPLED_ROWS).max(1);
        let mut sample = CategorySample {
            range: CategoryCodeRange::new(),
            stretches: 0,
        };
        for row in 0..rows {
            if row % apart == 0 || row == rows - 1 {
                sample = sample.with_row(map, row);
            }
        }
        return sample.layout(u64::from(apart));
    }
    SlotLayout::hashed()
}
