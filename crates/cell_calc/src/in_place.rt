//! Finds expressions that need only one value per span of a row in which no map changes.

ghost use Rattle.std.specs.Prelude.{◌≡◌, ◌≤◌, All, IfOk, IfSome, true};
ghost use Rattle.cell_calc.specs.parts.InPlace.{StepDependsOnlyOnOwnCells};
ghost use Rattle.cell_calc.specs.CommonStretches.{AreCommonSpanWidths};

use crate::common_stretches::{any_row_begins_with_many_changes, span_widths_if_few};
use crate::window::RowWindow;
use cell_calc_grammar::function::Function;
use cell_calc_grammar::step::Step;
use cell_core::memory::Memory;
use std::alloc::Global;

// If an expression has at least this many steps per map, spans save more than finding them costs.
const MIN_STEPS_PER_MAP_FOR_SPANS: usize = 16;

// Returns whether an expression has enough steps per map.
fn has_enough_steps_for_spans(steps: &[Step<usize>], windows: &[RowWindow]) -> bool {
    steps.len() / MIN_STEPS_PER_MAP_FOR_SPANS >= windows.len()
}

// Returns whether a step gives the same value for the same cells in every column of a row.
fn step_depends_only_on_own_cells(step: Step<usize>) -> bool
    ensures { result ≡ true → StepDependsOnlyOnOwnCells step }
{
    match step {
        Step::Map { down, right, .. } => down == 0 && right == 0,
        Step::Call(Function::Column, _) => false,
        _ => true,
    }
}

// Returns whether every step gives the same value for the same cells in every column of a row.
fn steps_depend_only_on_own_cells(steps: &[Step<usize>]) -> bool
    ensures { result ≡ true → All StepDependsOnlyOnOwnCells steps.now }
{
    for step in steps {
        if !step_depends_only_on_own_cells(*step) {
            return false;
        }
    }
    true
}

/// Returns the widths of the spans in the windows' rows, if one value per span is enough and there are few spans.
pub(crate) fn span_widths_if_worthwhile(
    alloc: Global,
    steps: &[Step<usize>],
    windows: &[RowWindow],
    cols: usize,
) -> Result<Option<Vec<u32>>, Memory>
    requires { cols ≤ 65535 }
    ensures in_place { IfOk result (λ found. IfSome found
        (λ widths. All StepDependsOnlyOnOwnCells steps.now)) }
    ensures stretches { IfOk result
        (λ found. IfSome found (λ widths. AreCommonSpanWidths cols windows.now widths.items)) }
{
    if !has_enough_steps_for_spans(steps, windows)
        || any_row_begins_with_many_changes(windows)
        || !steps_depend_only_on_own_cells(steps)
    {
        return Ok(None);
    }
    let found = span_widths_if_few(alloc, windows, cols)?;
    Ok(found)
}
