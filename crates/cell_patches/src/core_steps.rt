//! Computes how many steps each cell is inside its category. A diamond contains all cells within a number of steps of its
//! centre. The largest diamond of equal cells with a given lowest cell follows from the largest diamonds whose lowest cells
//! are in the two rows above.

ghost use Rattle.std.specs.Prelude.{◌≡◌, ℕ, ◌+◌, ◌<◌, ◌≤◌, length, min, slice_index_or, IfOk};
ghost use Rattle.cell_patches.specs.parts.Passes.{cell_equals_four_cells_above, RowsGiveDiamondStepsOfCell, RowsGiveDiamondStepsOfRow};

use crate::near_rows::RowsAroundRow;
use cell_core::memory::Memory;
use std::alloc::Global;

// Returns whether the cell to the right of column `west` equals the three cells above it and the cell two rows above.
#[inline(always)]
fn cell_equals_four_cells_above(lines: &RowsAroundRow<'_>, west: usize) -> bool
    requires here { west + 1 < length lines.now.here.now }
    requires above { west + 2 < length lines.now.above.now }
    requires second_above { west + 1 < length lines.now.second_above.now }
    ensures { result ≡ cell_equals_four_cells_above lines.now west }
{
    let cell = lines.here[west + 1];
    (lines.above[west + 1] == cell)
        & ((lines.above[west] == cell)
            & ((lines.above[west + 2] == cell) & (lines.second_above[west + 1] == cell)))
}

// Returns the steps of the largest diamond whose lowest cell is to the right of column `west`: one more than the
// smallest number of steps at the cells to the upper left, to the upper right, and two rows above.
#[inline(always)]
fn diamond_steps_of_cell(
    lines: &RowsAroundRow<'_>,
    west: usize,
    above: &[u32],
    second_above: &[u32],
) -> u32
    requires here { west + 1 < length lines.now.here.now }
    requires above { west + 2 < length lines.now.above.now }
    requires second_above { west + 1 < length lines.now.second_above.now }
    requires steps_above { length above.now ≡ length lines.now.above.now }
    requires steps_second_above { length second_above.now ≡ length lines.now.second_above.now }
    ensures { RowsGiveDiamondStepsOfCell lines.now (west + 1) above.now second_above.now result }
{
    let least = above[west].min(above[west + 2]).min(second_above[west + 1]);
    let steps = least.saturating_add(1);
    if cell_equals_four_cells_above(lines, west) {
        steps
    } else {
        0
    }
}

// Writes the steps for each cell of a row, which are 0 before. They stay 0 in the first and the last column, and in
// the first two rows.
fn write_diamond_steps_of_row(
    lines: &RowsAroundRow<'_>,
    above: &[u32],
    second_above: &[u32],
    here: &mut [u32],
)
    requires wide { length here.old ≡ length lines.now.here.now }
    requires steps_above { length above.now ≡ length lines.now.above.now }
    requires steps_second_above { length second_above.now ≡ length lines.now.second_above.now }
    requires zeros { (c : ℕ) → slice_index_or here.old c 0 ≡ 0 }
    ensures { RowsGiveDiamondStepsOfRow lines.now above.now second_above.now here.new }
{
    let rows = *lines;
    let end = here
        .len()
        .min(lines.second_above.len())
        .min(lines.above.len().saturating_sub(1));
    for col in 1..end {
        here[col] = diamond_steps_of_cell(&rows, col - 1, above, second_above);
    }
}

// Returns the steps of each cell of a row.
pub(crate) fn diamond_steps_of_row(
    alloc: Global,
    lines: &RowsAroundRow<'_>,
    above: &[u32],
    second_above: &[u32],
) -> Result<Vec<u32>, Memory>
    requires above { length above.now ≡ length lines.now.above.now }
    requires second_above { length second_above.now ≡ length lines.now.second_above.now }
    ensures steps { IfOk result (λ steps.
        RowsGiveDiamondStepsOfRow lines.now above.now second_above.now steps.items) }
    ensures wide { IfOk result (λ steps. length steps.items ≡ length lines.now.here.now) }
{
    let mut steps = vec![in alloc; 0u32; lines.here.len()]?;
    write_diamond_steps_of_row(lines, above, second_above, steps.as_mut_slice());
    Ok(steps)
}
