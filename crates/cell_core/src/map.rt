//! Maps of cells, and the builder that creates them.

ghost use Rattle.std.specs.Prelude.{◌≡◌, ◌≢◌, ◌+◌, ◌<◌, ◌++◌, [], ◌∷◌, length, All, IfSome, OnOk, OnErr};
ghost use Rattle.std.specs.Option.{option_map};
ghost use Rattle.std.specs.FinMap.{get, insert};
ghost use Rattle.cell_core_values.specs.Cell.{IsNullOrCategory};
ghost use Rattle.cell_core_values.specs.SmallCells.{cells_of_bytes};
ghost use Rattle.cell_core.specs.Grid.{Grid, UnfinishedMap, cell_at, row_at, RowsFillRegion, AreRowsOfUnfinishedMap, CellsAreNullOrCategories, empty_category_labels};
ghost use Rattle.cell_core.specs.Runs.{AreMaximalRuns, cells_of_runs};

use crate::map_rows::Rows;
use crate::runs::Runs;
use crate::stretches::RunsOrCells;
use cell_core_values::cell::Cell;
use cell_core_values::memory::Memory;
use cell_core_values::region::Region;
use std::alloc::Global;
use std::collections::BTreeMap;
use std::marker::Model;

/// A raster map of whole numbers (GRASS: a CELL map) with its region, its rows from the top, and the labels of its
/// categories. Rows and columns are counted from 0. A row is stored as runs, or as cells if these take less memory.
/// Each cell takes one byte if every cell of the row is null or between 0 and 254.
#[derive(Debug, Drop)]
pub struct CellMap {
    alloc: Global,
    rows: Rows,
    labels: BTreeMap<i32, Vec<u8>>,
}

impl Model for CellMap {
    ghost use Rattle.std.specs.Prelude.{map};
    ghost use Rattle.std.specs.FinMap.{from_entries};
    ghost use Rattle.cell_core.specs.Grid.{Grid, RowsFillRegion, CellsAreNullOrCategories};
    ghost use Rattle.cell_core.specs.parts.GridCode.{grid_encoding};

    ghost Value = { Grid };

    ghost coded = { grid_encoding };

    ghost view = { λ m. record { region = m.rows.region; rows = m.rows.rows; labels = from_entries (map (λ e. (e.0, e.1.items)) m.labels.entries) } };

    ghost invariant = { λ m. RowsFillRegion m.rows.region m.rows.rows × CellsAreNullOrCategories m.rows.rows };
}

impl CellMap {
    /// Returns the region that the map covers.
    pub fn region(&self) -> Region
        ensures value { result ≡ self.now.region }
        ensures filled { RowsFillRegion self.now.region self.now.rows }
    {
        self.rows.region()
    }

    /// Returns the cell at a row and a column. Walks the runs of the row, because a run stores its length and not its
    /// end. To read many cells, use `copy_row` or `runs`.
    pub fn cell(&self, row: u32, col: u32) -> Cell
        requires row_in_range { row < self.now.region.rows }
        requires col_in_range { col < self.now.region.cols }
        ensures { result ≡ cell_at self.now row col }
    {
        self.rows.row(row).cell(col)
    }

    /// Copies the cells of a row, from left to right, into a slice with one cell per column. Not inlined, because the
    /// compiler then makes faster loops over cells in the callers.
    #[inline(never)]
    pub fn copy_row(&self, row: u32, cells: &mut [Cell])
        requires row_in_range { row < self.now.region.rows }
        requires width { length cells.old ≡ self.now.region.cols }
        ensures { cells.new ≡ row_at self.now row }
    {
        self.rows.row(row).copy_to(cells);
    }

    /// Returns an iterator over the runs of a row, from left to right.
    pub fn runs(&self, row: u32) -> Runs<'_>
        requires row_in_range { row < self.now.region.rows }
        ensures written { cells_of_runs result ≡ row_at self.now row }
        ensures width { length (cells_of_runs result) ≡ self.now.region.cols }
        ensures runs { AreMaximalRuns result }
    {
        self.rows.row(row).runs()
    }

    /// Returns an iterator over a row, from left to right, in its stored form: run by run, or cell by cell.
    pub fn stretches(&self, row: u32) -> RunsOrCells<'_>
        requires row_in_range { row < self.now.region.rows }
        ensures written { cells_of_runs result ≡ row_at self.now row }
        ensures width { length (cells_of_runs result) ≡ self.now.region.cols }
        ensures some { All (λ run. 0 < run.1) result }
    {
        self.rows.row(row).stretches()
    }

    /// Returns the bytes that stand for the cells of a row, from left to right, if the row is stored as bytes.
    pub fn bytes(&self, row: u32) -> Option<&[u8]>
        requires row_in_range { row < self.now.region.rows }
        ensures cells { IfSome result (λ bytes. cells_of_bytes bytes.now ≡ row_at self.now row) }
        ensures width { IfSome result (λ bytes. length bytes.now ≡ self.now.region.cols) }
    {
        self.rows.row(row).bytes()
    }

    /// Returns the cells of a row, from left to right, if the row is stored as cells.
    pub fn cells(&self, row: u32) -> Option<&[Cell]>
        requires row_in_range { row < self.now.region.rows }
        ensures { IfSome result (λ cells. cells.now ≡ row_at self.now row) }
    {
        self.rows.row(row).cells()
    }

    /// Provides the fact that each cell is null or a category, and does nothing at run time. It is a separate call so
    /// that only laws that need the fact carry it.
    pub fn prove_cells_are_in_range(&self)
        ensures { CellsAreNullOrCategories self.now.rows }
    {
        // Reading the field lets the proof use the invariant of the rows.
        let _ = &self.rows;
    }

    /// Returns the label last set for a category, or `None` if it has no label.
    pub fn label(&self, category: i32) -> Option<&[u8]>
        ensures { option_map (λ text. text.now) result ≡ get self.now.labels category }
    {
        match self.labels.get(&category) {
            Some(text) => Some(text.as_slice()),
            None => None,
        }
    }

    /// Sets the label of a category to a copy of `text`.
    ///
    /// # Errors
    ///
    /// [`Memory`] if memory runs out; the map is then unchanged.
    pub fn set_label(&mut self, category: i32, text: &[u8]) -> Result<(), Memory>
        requires { category ≢ i32.MIN }
        ensures ok { OnOk result
            (self.new ≡ record self.old { labels = insert self.old.labels category text.now }) }
        ensures err { OnErr result (self.new ≡ self.old) }
    {
        // Both the copy and the entry may run out of memory, so the text is copied before the labels change.
        let label = Vec::from_slice(self.alloc, text)?;
        self.labels.insert(category, label)?;
        Ok(())
    }
}

/// Builds a map row by row, from the top.
#[derive(Debug, Drop)]
pub struct MapBuilder {
    alloc: Global,
    rows: Rows,
}

impl Model for MapBuilder {
    ghost use Rattle.cell_core.specs.Grid.{UnfinishedMap};

    ghost Value = { UnfinishedMap };

    ghost view = { λ m. m.rows };
}

impl MapBuilder {
    /// Returns a builder for a map of this region, without rows. Does not allocate.
    pub fn new(alloc: Global, region: Region) -> MapBuilder
        ensures { result ≡ record { region = region; rows = [] } }
    {
        MapBuilder {
            alloc,
            rows: Rows::new(alloc, region),
        }
    }

    /// Returns the number of rows still to be pushed.
    pub fn rows_left(&self) -> u32
        ensures count { result + length self.now.rows ≡ self.now.region.rows }
        ensures draft { AreRowsOfUnfinishedMap self.now.region self.now.rows }
    {
        self.rows.region().rows() - self.rows.len()
    }

    /// Appends a row at the bottom, with one cell per column. There must be a row left to push.
    ///
    /// # Errors
    ///
    /// [`Memory`] if memory for the row runs out; the builder is then unchanged.
    pub fn push_row(&mut self, row: &[Cell]) -> Result<(), Memory>
        requires width { length row.now ≡ self.old.region.cols }
        requires room { length self.old.rows < self.old.region.rows }
        ensures ok { OnOk result
            (self.new ≡ record self.old { rows = self.old.rows ++ row.now ∷ [] }) }
        ensures err { OnErr result (self.new ≡ self.old) }
    {
        self.rows.push_row(row)
    }

    /// Appends a row given as bytes at the bottom, like [`MapBuilder::push_row`].
    ///
    /// # Errors
    ///
    /// [`Memory`] if memory for the row runs out; the builder is then unchanged.
    pub fn push_row_of_bytes(&mut self, bytes: &[u8]) -> Result<(), Memory>
        requires width { length bytes.now ≡ self.old.region.cols }
        requires room { length self.old.rows < self.old.region.rows }
        ensures ok { OnOk result
            (self.new ≡ record self.old { rows = self.old.rows ++ cells_of_bytes bytes.now ∷ [] }) }
        ensures err { OnErr result (self.new ≡ self.old) }
    {
        self.rows.push_row_of_bytes(bytes)
    }

    /// Appends a row given as runs at the bottom, like [`MapBuilder::push_row`]. The row is stored as these runs, which
    /// take no more memory than its cells if there are at most half as many runs as cells.
    ///
    /// # Errors
    ///
    /// [`Memory`] if memory for the row runs out; the builder is then unchanged.
    pub fn push_row_of_runs(&mut self, runs: &[(Cell, u32)]) -> Result<(), Memory>
        requires runs { AreMaximalRuns runs.now }
        requires width { length (cells_of_runs runs.now) ≡ self.old.region.cols }
        requires room { length self.old.rows < self.old.region.rows }
        ensures ok { OnOk result
            (self.new ≡ record self.old { rows = self.old.rows ++ cells_of_runs runs.now ∷ [] }) }
        ensures err { OnErr result (self.new ≡ self.old) }
    {
        self.rows.push_row_of_runs(runs)
    }

    /// Returns the map of the pushed rows, without labels. All rows must have been pushed.
    pub fn finish(self) -> CellMap
        requires { length self.rows ≡ self.region.rows }
        ensures { result ≡ record {
          region = self.region;
          rows = self.rows;
          labels = empty_category_labels;
        } }
    {
        let MapBuilder { alloc, rows } = self;
        CellMap {
            alloc,
            rows,
            labels: BTreeMap::new(alloc),
        }
    }
}
