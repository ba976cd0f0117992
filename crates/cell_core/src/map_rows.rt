//! Stores the rows of a map.

ghost use Rattle.std.specs.Prelude.{◌≡◌, ◌<◌, ◌++◌, [], ◌∷◌, length, OnOk, OnErr, slice_index_or};
ghost use Rattle.cell_core_values.specs.SmallCells.{cells_of_bytes};
ghost use Rattle.cell_core.specs.Grid.{AreRowsOfUnfinishedMap, CellsAreNullOrCategories};
ghost use Rattle.cell_core.specs.Runs.{AreMaximalRuns, cells_of_runs};

use crate::row::Row;
use crate::row_view::RowView;
use cell_core_values::cell::Cell;
use cell_core_values::memory::Memory;
use cell_core_values::region::Region;
use std::alloc::Global;
use std::marker::Model;

/// The rows of a region, from the top.
#[derive(Debug, Drop)]
pub(crate) struct Rows {
    region: Region,
    alloc: Global,
    kept: Vec<Row>,
}

impl Model for Rows {
    ghost use Rattle.cell_core.specs.Grid.{UnfinishedMap};
    ghost use Rattle.cell_core.specs.parts.MapRows.{RowsFillValidRegion};

    ghost Value = { UnfinishedMap };

    ghost view = { λ m. record { region = m.region; rows = m.kept.items } };

    ghost invariant = { λ m. RowsFillValidRegion m.region m.kept.items };
}

impl Rows {
    // Returns an empty list of rows. Does not allocate.
    pub(crate) fn new(alloc: Global, region: Region) -> Rows
        ensures { result ≡ record { region = region; rows = [] } }
    {
        Rows {
            region,
            alloc,
            kept: Vec::new(alloc),
        }
    }

    pub(crate) fn region(&self) -> Region
        ensures { result ≡ self.now.region }
    {
        self.region
    }

    // Returns the number of rows.
    pub(crate) fn len(&self) -> u32
        ensures count { result ≡ length self.now.rows }
        ensures draft { AreRowsOfUnfinishedMap self.now.region self.now.rows }
        ensures cells { CellsAreNullOrCategories self.now.rows }
    {
        self.kept.len() as u32
    }

    // Returns the row at index `place`.
    pub(crate) fn row(&self, place: u32) -> RowView<'_>
        requires { place < length self.now.rows }
        ensures { result ≡ slice_index_or self.now.rows place [] }
    {
        self.kept[place as usize].view()
    }

    // Appends a row at the bottom.
    pub(crate) fn push_row(&mut self, row: &[Cell]) -> Result<(), Memory>
        requires width { length row.now ≡ self.old.region.cols }
        requires room { length self.old.rows < self.old.region.rows }
        ensures ok { OnOk result
            (self.new ≡ record self.old { rows = self.old.rows ++ row.now ∷ [] }) }
        ensures err { OnErr result (self.new ≡ self.old) }
    {
        self.kept.push(Row::of(self.alloc, row)?)?;
        Ok(())
    }

    // Appends a row given as bytes at the bottom.
    pub(crate) fn push_row_of_bytes(&mut self, row: &[u8]) -> Result<(), Memory>
        requires width { length row.now ≡ self.old.region.cols }
        requires room { length self.old.rows < self.old.region.rows }
        ensures ok { OnOk result
            (self.new ≡ record self.old { rows = self.old.rows ++ cells_of_bytes row.now ∷ [] }) }
        ensures err { OnErr result (self.new ≡ self.old) }
    {
        self.kept.push(Row::of_bytes(self.alloc, row)?)?;
        Ok(())
    }

    // Appends the row that the runs encode.
    pub(crate) fn push_row_of_runs(&mut self, runs: &[(Cell, u32)]) -> Result<(), Memory>
        requires runs { AreMaximalRuns runs.now }
        requires width { length (cells_of_runs runs.now) ≡ self.old.region.cols }
        requires room { length self.old.rows < self.old.region.rows }
        ensures ok { OnOk result
            (self.new ≡ record self.old { rows = self.old.rows ++ cells_of_runs runs.now ∷ [] }) }
        ensures err { OnErr result (self.new ≡ self.old) }
    {
        self.kept.push(Row::of_runs(self.alloc, runs)?)?;
        Ok(())
    }
}
