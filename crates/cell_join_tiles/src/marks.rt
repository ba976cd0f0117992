//! Lines of cells along the sides of tiles, with the labels of their clumps.

ghost use Rattle.std.specs.Prelude.{ℕ, ◌≡◌, ◌++◌, ◌+◌, ◌<◌, ◌^◌, IfOk, OnOk, None, length, sum, slice_index, slice_index_or};
ghost use Rattle.cell_join_tiles.specs.Values.{value_of_tile_side};
ghost use Rattle.cell_join_tiles.specs.parts.RowLabels.{AreClumpCountsUpToRows, label_of_clump_from_first_labels};
ghost use Rattle.cell_join_tiles.specs.parts.RowMarks.{clump_from_number, labelled_category_of_cell, labelled_categories_of_side};

use crate::border::TileSide;
use crate::row_labels::label_of_tile_clump;
use cell_core::cell::Cell;
use cell_core::memory::Memory;
use std::alloc::Global;

// The category of a cell, and the label of its clump.
#[derive(Clone, Copy, Debug, PartialEq, Eq)]
pub(crate) struct Mark {
    pub(crate) category: i32,
    pub(crate) label: u64,
}

// Returns the cell at index `place`, or null after the end.
fn cell_at_place_or_null(cells: &[Cell], place: usize) -> Cell
    ensures { result ≡ slice_index_or cells.now place None }
{
    match cells.get(place) {
        Some(cell) => *cell,
        None => Cell::null(),
    }
}

// Returns the clump with this number, counted from 0.
fn clump_from_number(number: Cell) -> Option<u64>
    ensures { result ≡ clump_from_number number }
{
    let category = number.get()?;
    let Ok(number) = u64::try_from(category) else {
        return None;
    };
    if number == 0 {
        return None;
    }
    Some(number - 1)
}

// Returns the mark of a tile's cell, if it is not null.
fn labelled_category_of_cell(
    firsts: &[u64],
    begun: &[u64],
    ends: &[u64],
    cell: Cell,
    number: Cell,
) -> Option<Mark>
    requires long { length firsts.now ≡ length begun.now }
    requires ends { AreClumpCountsUpToRows begun.now ends.now }
    requires fits { (i : ℕ) → i < length begun.now →
        slice_index firsts.now i + slice_index begun.now i < 2 ^ 64 }
    ensures { result ≡ labelled_category_of_cell
        (label_of_clump_from_first_labels firsts.now begun.now) (sum begun.now) cell number }
{
    let category = cell.get()?;
    let clump = clump_from_number(number)?;
    let label = label_of_tile_clump(firsts, begun, ends, clump)?;
    Some(Mark { category, label })
}

// Adds the marks of the cells of a tile's side to a line.
pub(crate) fn add_labelled_categories_of_side(
    line: &mut Vec<Option<Mark>>,
    firsts: &[u64],
    begun: &[u64],
    ends: &[u64],
    side: &TileSide,
) -> Result<(), Memory>
    requires long { length firsts.now ≡ length begun.now }
    requires ends { AreClumpCountsUpToRows begun.now ends.now }
    requires fits { (i : ℕ) → i < length begun.now →
        slice_index firsts.now i + slice_index begun.now i < 2 ^ 64 }
    ensures { OnOk result (line.new.items ≡ line.old.items
        ++ labelled_categories_of_side (label_of_clump_from_first_labels firsts.now begun.now)
        (sum begun.now) (value_of_tile_side side.now)) }
{
    for place in 0..side.cells.len() {
        let cell = cell_at_place_or_null(&side.cells, place);
        let number = cell_at_place_or_null(&side.numbers, place);
        line.push(labelled_category_of_cell(firsts, begun, ends, cell, number))?;
    }
    Ok(())
}
