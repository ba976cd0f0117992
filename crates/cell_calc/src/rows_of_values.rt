//! Evaluates expressions along rows.

ghost use Rattle.std.specs.Prelude.{◌≡◌, ◌<◌, ◌≤◌, ℕ, List, [], ◌∷◌, length, slice_get, slice_index_or, All, None, IfOk, OnOk, OnErr};
ghost use Rattle.cell_core.specs.Grid.{Grid};
ghost use Rattle.cell_calc_language.specs.Applied.{grid_position};
ghost use Rattle.cell_calc.specs.RowValues.{at};
ghost use Rattle.cell_calc_grammar.specs.Postfix.{operands_after_steps, StepsHaveEnoughOperands};
ghost use Rattle.cell_calc_language.specs.Reach.{map_place_limit_of_formula, rows_read_above_by_formula, rows_read_below_by_formula};
ghost use Rattle.cell_calc_language.specs.Value.{value};
ghost use Rattle.cell_calc.specs.Window.{IsWindowOfMap, IsWindowAtRowWithReach};
ghost use Rattle.cell_calc.specs.parts.Operands.{CanEvaluateStep, step_result_from_windows};
ghost use Rattle.cell_calc.specs.parts.InPlace.{StepDependsOnlyOnOwnCells};
ghost use Rattle.cell_calc.specs.CommonStretches.{AreCommonSpanWidths};
ghost use Rattle.cell_calc.specs.parts.Columns.{ColumnHasFirstCellsOfSpan};

use crate::along::values_along_strip;
use crate::common_stretches::{spread_values_over_spans, windows_of_first_span_cells};
use crate::in_place::span_widths_if_worthwhile;
use crate::strip::{RowStrip, SpareRows};
use crate::window::RowWindow;
use cell_calc_grammar::step::Step;
use cell_calc_language::bound::Bound;
use cell_core::cell::Cell;
use cell_core::memory::Memory;
use cell_core::region::Region;
use std::alloc::Global;

// Number of columns computed at a time, so that the intermediate rows stay in the cache.
const STRIP_COLUMNS: usize = 1024;

// Returns the values of an expression along the first columns of a row, strip by strip.
pub(crate) fn values_along_first_columns(
    alloc: Global,
    steps: &[Step<usize>],
    region: Region,
    row: u32,
    cols: usize,
    windows: &[RowWindow],
) -> Result<Vec<Cell>, Memory>
    requires row { row < region.rows }
    requires cols { cols ≤ region.cols }
    requires ready { All (CanEvaluateStep windows.now) steps.now }
    requires enough { StepsHaveEnoughOperands steps.now 0 }
    ensures width { IfOk result (λ cells. length cells.items ≡ cols) }
    ensures each { IfOk result (λ cells. (c : ℕ) → c < cols
        → at cells.items c ∷ [] ≡ operands_after_steps (step_result_from_windows windows.now
        (grid_position region row c)) steps.now []) }
{
    let _all = region.cols();
    let mut operands = Vec::new(alloc);
    let mut spare = SpareRows {
        free: Vec::new(alloc),
        arguments: Vec::new(alloc),
    };
    // If there is only one strip, its row is returned without a copy.
    if cols <= STRIP_COLUMNS {
        let strip = RowStrip {
            region,
            row,
            from: 0,
            width: cols,
        };
        let only = values_along_strip(alloc, steps, &strip, windows, &mut operands, &mut spare)?;
        return Ok(only);
    }
    let mut cells = Vec::with_capacity(alloc, cols)?;
    let mut from = 0;
    'strips: while from < cols {
        let width = STRIP_COLUMNS.min(cols - from);
        let strip = RowStrip {
            region,
            row,
            from,
            width,
        };
        let values = values_along_strip(alloc, steps, &strip, windows, &mut operands, &mut spare)?;
        cells.extend_from_slice(values.as_slice())?;
        spare.free.push(values)?;
        from += width;
    }
    Ok(cells)
}

// Returns one value per span of a row, which is the value at each of its columns.
fn value_of_each_span(
    alloc: Global,
    steps: &[Step<usize>],
    region: Region,
    row: u32,
    windows: &[RowWindow],
    widths: &[u32],
) -> Result<Vec<Cell>, Memory>
    requires row { row < region.rows }
    requires in_place { All StepDependsOnlyOnOwnCells steps.now }
    requires ready { All (CanEvaluateStep windows.now) steps.now }
    requires enough { StepsHaveEnoughOperands steps.now 0 }
    requires stretches { AreCommonSpanWidths region.cols windows.now widths.now }
    ensures count { IfOk result (λ values. length values.items ≡ length widths.now) }
    ensures each { IfOk result (λ values. (k c : ℕ) → k < length widths.now
        → ColumnHasFirstCellsOfSpan widths.now windows.now k c → at values.items k ∷ []
        ≡ operands_after_steps (step_result_from_windows windows.now
        (grid_position region row c)) steps.now []) }
{
    let _all = region.cols();
    let short = windows_of_first_span_cells(alloc, windows, widths)?;
    let values = values_along_first_columns(
        alloc,
        steps,
        region,
        row,
        widths.len(),
        short.as_slice(),
    )?;
    Ok(values)
}

// Writes the values of an expression along a row. Computes one value per span if there are few spans, otherwise one
// value per column.
fn write_expression_values_of_row(
    alloc: Global,
    steps: &[Step<usize>],
    region: Region,
    row: u32,
    windows: &[RowWindow],
    cells: &mut [Cell],
) -> Result<(), Memory>
    requires row { row < region.rows }
    requires width { length cells.old ≡ region.cols }
    requires ready { All (CanEvaluateStep windows.now) steps.now }
    requires enough { StepsHaveEnoughOperands steps.now 0 }
    ensures each { OnOk result ((c : ℕ) → c < region.cols
        → at cells.new c ∷ [] ≡ operands_after_steps (step_result_from_windows windows.now
        (grid_position region row c)) steps.now []) }
    ensures err { OnErr result (cells.new ≡ cells.old) }
{
    let cols = region.cols() as usize;
    if let Some(widths) = span_widths_if_worthwhile(alloc, steps, windows, cols)? {
        let values = value_of_each_span(alloc, steps, region, row, windows, widths.as_slice())?;
        spread_values_over_spans(values.as_slice(), widths.as_slice(), cells);
        return Ok(());
    }
    let values = values_along_first_columns(alloc, steps, region, row, cols, windows)?;
    cells.copy_from_slice(values.as_slice());
    Ok(())
}

/// Writes the values of an expression along a row into a slice. The windows must be at this row.
///
/// # Errors
///
/// [`Memory`] if memory runs out; the slice is then unchanged.
pub fn eval_row(
    alloc: Global,
    bound: &Bound,
    region: &Region,
    row: u32,
    windows: &[RowWindow],
    cells: &mut [Cell],
) -> Result<(), Memory>
    requires row { row < region.now.rows }
    requires width { length cells.old ≡ region.now.cols }
    requires windows { (i : ℕ) → i < map_place_limit_of_formula bound.now
        → IsWindowAtRowWithReach row (rows_read_above_by_formula i bound.now)
        (rows_read_below_by_formula i bound.now) (slice_get windows.now i) }
    ensures ok { OnOk result ((maps : List Grid)
        → ((i : ℕ) → i < map_place_limit_of_formula bound.now
        → IsWindowOfMap (slice_get windows.now i) (slice_get maps i))
        → (c : ℕ) → c < region.now.cols
        → slice_index_or cells.new c None ≡ value bound.now maps (grid_position region.now row c)) }
    ensures err { OnErr result (cells.new ≡ cells.old) }
{
    write_expression_values_of_row(alloc, bound.steps(), *region, row, windows, cells)?;
    Ok(())
}
