//! Rewrites expressions for tiles.

ghost use Rattle.std.specs.Prelude.{◌≡◌, ◌≤◌, ◌++◌, flat_map, IfOk, OnOk};
ghost use Rattle.cell_calc_language.specs.Reach.{map_place_limit_of_formula};
ghost use Rattle.cell_core_values.specs.Region.{RegionValue};
ghost use Rattle.cell_join_numbers.specs.Parts.{Rectangle};
ghost use Rattle.rcell_plan.specs.Rewriting.{IsPlaceInFullMap, IsPlaceWithinLimits};
ghost use Rattle.rcell_plan.specs.TileLaw.{placed};
ghost use Rattle.rcell_plan.specs.parts.RewrittenSteps.{call_step_rewritten_for_tile, step_rewritten_for_tile};

use cell_calc_grammar::function::Function;
use cell_calc_grammar::operator::Operator;
use cell_calc_grammar::step::Step;
use cell_calc_language::bound::Bound;
use cell_core::memory::Memory;
use std::alloc::Global;

/// The size of the full map, and its row and column, counted from 0, that are the first of a tile's maps.
#[derive(Clone, Copy, Debug)]
pub struct PlaceInFullMap {
    pub rows: u32,
    pub cols: u32,
    pub top: u32,
    pub left: u32,
}

// Appends a call, rewritten for a tile.
fn push_call_rewritten_for_tile(
    steps: &mut Vec<Step<usize>>,
    function: Function,
    count: usize,
    place: PlaceInFullMap,
) -> Result<(), Memory>
    ensures { OnOk result (steps.new.items
        ≡ steps.old.items ++ call_step_rewritten_for_tile place function count) }
{
    match function {
        Function::Row => {
            steps.push(Step::Call(function, count))?;
            steps.push(Step::Number(place.top))?;
            steps.push(Step::Binary(Operator::Plus))?;
        }
        Function::Column => {
            steps.push(Step::Call(function, count))?;
            steps.push(Step::Number(place.left))?;
            steps.push(Step::Binary(Operator::Plus))?;
        }
        Function::RowCount => steps.push(Step::Number(place.rows))?,
        Function::ColumnCount => steps.push(Step::Number(place.cols))?,
        _ => steps.push(Step::Call(function, count))?,
    }
    Ok(())
}

// Appends a step, rewritten for a tile.
fn push_step_rewritten_for_tile(
    steps: &mut Vec<Step<usize>>,
    step: Step<usize>,
    place: PlaceInFullMap,
) -> Result<(), Memory>
    ensures { OnOk result
        (steps.new.items ≡ steps.old.items ++ step_rewritten_for_tile place step) }
{
    match step {
        Step::Call(function, count) => push_call_rewritten_for_tile(steps, function, count, place),
        _ => {
            steps.push(step)?;
            Ok(())
        }
    }
}

fn steps_rewritten_for_tile(
    alloc: Global,
    given: &[Step<usize>],
    place: PlaceInFullMap,
) -> Result<Vec<Step<usize>>, Memory>
    ensures { IfOk result
        (λ steps. steps.items ≡ flat_map (step_rewritten_for_tile place) given.now) }
{
    let mut steps = Vec::with_capacity(alloc, given.len())?;
    for step in given {
        push_step_rewritten_for_tile(&mut steps, *step, place)?;
    }
    Ok(steps)
}

/// Returns an expression rewritten for a tile: `row()` and `col()` count in the full map, and `nrows()` and `ncols()`
/// are its numbers of rows and columns.
///
/// # Errors
///
/// Returns [`Memory`] if memory runs out.
pub fn expression_rewritten_for_tile(
    alloc: Global,
    bound: &Bound,
    place: PlaceInFullMap,
) -> Result<Bound, Memory>
    requires { IsPlaceWithinLimits place }
    ensures value { IfOk result (λ made. (region : RegionValue) (r : Rectangle)
        → IsPlaceInFullMap place region r → made ≡ placed region r bound.now) }
    ensures maps { IfOk result
        (λ made. map_place_limit_of_formula made ≤ map_place_limit_of_formula bound.now) }
{
    let steps = steps_rewritten_for_tile(alloc, bound.steps(), place)?;
    Ok(Bound::of_steps(steps))
}
