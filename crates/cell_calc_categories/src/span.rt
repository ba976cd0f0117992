//! Spans of categories.

ghost use Rattle.std.specs.Prelude.{◌≡◌, ◌<◌, ◌≤ℤ◌, ◌-ℤ◌, ◌+ℤ◌, ℕ, pos, All, IfSome};
ghost use Rattle.cell_core.specs.Grid.{row_at};
ghost use Rattle.cell_core.specs.Runs.{cells_of_runs};
ghost use Rattle.cell_core_values.specs.SmallCells.{cells_of_bytes};
ghost use Rattle.cell_calc_categories.specs.parts.CategorySpans.{IsValidCategoryInterval, IsCellInCategoryInterval, IsIntervalInsideInterval, IsTablePlaceOfCell, IsTableSizeOfInterval};

use cell_core::cell::Cell;
use cell_core::map::CellMap;
use cell_core::stretches::RunsOrCells;

// A table is built only if the map has at least this many cells per category of its span, so that building it costs
// little.
const MIN_CELLS_PER_CATEGORY_FOR_TABLE: u32 = 8;

// Maximum number of table entries, so that the table stays in the cache.
const MOST_VALUE_TABLE_ENTRIES: u32 = 65536;

// The largest category that a byte stands for.
const GREATEST_BYTE_CATEGORY: i32 = 254;

/// The categories from a smallest to a largest one, inclusive.
#[derive(Clone, Copy)]
pub(crate) struct CategoryInterval {
    pub(crate) least: i32,
    pub(crate) greatest: i32,
}

impl CategoryInterval {
    /// Returns the number of table entries: one per category, and one for null at the end.
    pub(crate) fn size(self) -> usize
        requires { IsValidCategoryInterval self }
        ensures { IsTableSizeOfInterval self result }
    {
        (self.greatest as i64 - self.least as i64 + 2) as usize
    }

    /// Returns the table index of a cell.
    #[inline(always)]
    pub(crate) fn place(self, cell: Cell) -> usize
        requires span { IsValidCategoryInterval self }
        requires within { IsCellInCategoryInterval self cell }
        ensures { IsTablePlaceOfCell self result cell }
    {
        match cell.get() {
            Some(category) => (category as i64 - self.least as i64) as usize,
            None => (self.greatest as i64 - self.least as i64 + 1) as usize,
        }
    }

    /// Returns the cell at a table index.
    pub(crate) fn cell(self, place: usize) -> Cell
        requires span { IsValidCategoryInterval self }
        requires place { pos place ≤ℤ ((self.greatest -ℤ self.least) +ℤ pos 1) }
        ensures at { IsTablePlaceOfCell self place result }
        ensures within { IsCellInCategoryInterval self result }
    {
        let category = self.least as i64 + place as i64;
        if category > self.greatest as i64 {
            return Cell::null();
        }
        match Cell::value(category as i32) {
            Some(cell) => cell,
            None => Cell::null(),
        }
    }

    // Extends the span to contain a cell.
    #[inline(always)]
    fn with(self, cell: Cell) -> CategoryInterval
        requires { IsValidCategoryInterval self }
        ensures span { IsValidCategoryInterval result }
        ensures within { IsCellInCategoryInterval result cell }
        ensures wider { IsIntervalInsideInterval self result }
    {
        match cell.get() {
            Some(category) => CategoryInterval {
                least: self.least.min(category),
                greatest: self.greatest.max(category),
            },
            None => self,
        }
    }

    // Extends the span to contain cells.
    fn extended_by_cells(self, cells: &[Cell]) -> CategoryInterval
        requires { IsValidCategoryInterval self }
        ensures span { IsValidCategoryInterval result }
        ensures within { All (IsCellInCategoryInterval result) cells.now }
        ensures wider { IsIntervalInsideInterval self result }
    {
        let mut span = self;
        for cell in cells {
            span = span.with(*cell);
        }
        span
    }

    // Extends the span to contain the cells of stretches.
    fn extended_by_stretches(self, stretches: RunsOrCells<'_>) -> CategoryInterval
        requires { IsValidCategoryInterval self }
        ensures span { IsValidCategoryInterval result }
        ensures within { All (IsCellInCategoryInterval result) (cells_of_runs stretches.entry) }
        ensures wider { IsIntervalInsideInterval self result }
    {
        let mut span = self;
        for (cell, _count) in stretches {
            span = span.with(cell);
        }
        span
    }

    // Returns the span itself, because it already contains all cells stored as bytes.
    fn with_bytes(self, bytes: &[u8]) -> CategoryInterval
        requires { IsValidCategoryInterval self }
        ensures same { result ≡ self }
        ensures within { All (IsCellInCategoryInterval self) (cells_of_bytes bytes.now) }
    {
        let _first = bytes.first();
        self
    }

    // Extends the span to contain the cells of a map's row.
    fn with_row(self, given: &CellMap, row: u32) -> CategoryInterval
        requires span { IsValidCategoryInterval self }
        requires row { row < given.now.region.rows }
        ensures span { IsValidCategoryInterval result }
        ensures within { All (IsCellInCategoryInterval result) (row_at given.now row) }
        ensures wider { IsIntervalInsideInterval self result }
    {
        if let Some(bytes) = given.bytes(row) {
            return self.with_bytes(bytes);
        }
        match given.cells(row) {
            Some(cells) => self.extended_by_cells(cells),
            None => self.extended_by_stretches(given.stretches(row)),
        }
    }
}

/// Returns the smallest span that contains the cells of a map and all cells that bytes stand for, unless it is too wide
/// for a table.
pub(crate) fn category_interval_of_map(given: &CellMap) -> Option<CategoryInterval>
    ensures span { IfSome result IsValidCategoryInterval }
    ensures within { IfSome result (λ span. (row : ℕ) → row < given.now.region.rows
        → All (IsCellInCategoryInterval span) (row_at given.now row)) }
{
    let region = given.region();
    let places = region.rows() * region.cols() / MIN_CELLS_PER_CATEGORY_FOR_TABLE;
    let most = places.min(MOST_VALUE_TABLE_ENTRIES) as usize;
    let mut span = CategoryInterval {
        least: 0,
        greatest: GREATEST_BYTE_CATEGORY,
    };
    for row in 0..region.rows() {
        if span.size() > most {
            return None;
        }
        span = span.with_row(given, row);
    }
    if span.size() > most {
        return None;
    }
    Some(span)
}
