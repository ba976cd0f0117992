//! Finds borders that no tile can have.

ghost use Rattle.std.specs.Prelude.{◌≡◌, ◌<◌, ◌^◌, None, sum, slice_index_or};
ghost use Rattle.cell_join_tiles.specs.Values.{value_of_tile_border, value_of_tile_side};
ghost use Rattle.rcell_pipe_borders.specs.BorderChecks.{sides_agree_at_all_corners, is_valid_border, sides_agree_at_corner, cell_fits_patch_number, is_valid_tile_side, is_valid_side_cell, adjacent_cells_fit_numbers, side_cell, side_patch_number};

use cell_core::cell::Cell;
use cell_join_tiles::border::{TileBorder, TileSide};

// Returns the cell at index `k`, or null after the end.
fn cell_at_or_null(cells: &[Cell], k: usize) -> Cell
    ensures { result ≡ slice_index_or cells.now k None }
{
    match cells.get(k) {
        Some(cell) => *cell,
        None => Cell::null(),
    }
}

// Returns whether a cell and its patch's number match.
fn cell_fits_patch_number(patches: u64, cell: Cell, number: Cell) -> bool
    ensures { result ≡ cell_fits_patch_number patches cell number }
{
    match cell.get() {
        None => match number.get() {
            None => true,
            Some(_) => false,
        },
        Some(_) => match number.get() {
            None => false,
            Some(number) => match u64::try_from(number) {
                Ok(patch) => 1 <= patch && patch <= patches,
                Err(_) => false,
            },
        },
    }
}

// Returns whether two adjacent cells have one number if they have one category, and two numbers otherwise.
fn adjacent_cells_fit_numbers(side: &TileSide, i: usize, k: usize) -> bool
    ensures { result ≡ adjacent_cells_fit_numbers (value_of_tile_side side.now) i k }
{
    let is_same = cell_at_or_null(&side.numbers, i) == cell_at_or_null(&side.numbers, k);
    if cell_at_or_null(&side.cells, i) == cell_at_or_null(&side.cells, k) {
        is_same
    } else {
        !is_same
    }
}

// Returns whether a cell of a side matches its number and the cell before it.
fn is_valid_side_cell(patches: u64, side: &TileSide, k: usize) -> bool
    ensures { result ≡ is_valid_side_cell patches (value_of_tile_side side.now) k }
{
    cell_fits_patch_number(
        patches,
        cell_at_or_null(&side.cells, k),
        cell_at_or_null(&side.numbers, k),
    ) && adjacent_cells_fit_numbers(side, k.saturating_sub(1), k)
}

fn is_valid_tile_side(patches: u64, side: &TileSide) -> bool
    ensures { result ≡ is_valid_tile_side patches (value_of_tile_side side.now) }
{
    let mut is_good = true;
    for k in 0..side.cells.len() {
        is_good = is_good & is_valid_side_cell(patches, side, k);
    }
    is_good
}

// Returns whether two sides agree about the corner at index `i` of one and index `k` of the other.
fn sides_agree_at_corner(one: &TileSide, i: usize, other: &TileSide, k: usize) -> bool
    ensures { result ≡ sides_agree_at_corner (value_of_tile_side one.now) i
        (value_of_tile_side other.now) k }
{
    cell_at_or_null(&one.cells, i) == cell_at_or_null(&other.cells, k)
        && cell_at_or_null(&one.numbers, i) == cell_at_or_null(&other.numbers, k)
}

fn sides_agree_at_all_corners(border: &TileBorder) -> bool
    ensures { result ≡ sides_agree_at_all_corners (value_of_tile_border border.now) }
{
    let last_col = border.first.cells.len().saturating_sub(1);
    let last_col_below = border.last.cells.len().saturating_sub(1);
    let last_row = border.left.cells.len().saturating_sub(1);
    let last_row_right = border.right.cells.len().saturating_sub(1);
    sides_agree_at_corner(&border.first, 0, &border.left, 0)
        && sides_agree_at_corner(&border.first, last_col, &border.right, 0)
        && sides_agree_at_corner(&border.last, 0, &border.left, last_row)
        && sides_agree_at_corner(&border.last, last_col_below, &border.right, last_row_right)
}

fn patch_count_of_rows(begun: &[u64]) -> u64
    requires { sum begun.now < 2 ^ 64 }
    ensures { result ≡ sum begun.now }
{
    let mut patches = 0;
    for count in begun {
        patches += *count;
    }
    patches
}

/// Returns whether the sides match their numbers and agree about the corners.
pub(crate) fn is_valid_border(border: &TileBorder) -> bool
    requires { sum border.now.begun.items < 2 ^ 64 }
    ensures { result ≡ is_valid_border (value_of_tile_border border.now) }
{
    let patches = patch_count_of_rows(&border.begun);
    is_valid_tile_side(patches, &border.first)
        && is_valid_tile_side(patches, &border.last)
        && is_valid_tile_side(patches, &border.left)
        && is_valid_tile_side(patches, &border.right)
        && sides_agree_at_all_corners(border)
}
