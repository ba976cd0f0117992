//! Expressions over indices of maps.

ghost use Rattle.std.specs.Prelude.{◌≡◌, ◌<◌, ◌≤◌, max, All};
ghost use Rattle.cell_calc_grammar.specs.Postfix.{postfix, value_of_step_map_or_default, fold_maps_of_steps};
ghost use Rattle.cell_calc_language.specs.Reach.{map_place_limit_at_offset, rows_read_above_at_offset, rows_read_below_at_offset, map_place_limit_of_formula, rows_read_above_by_formula, rows_read_below_by_formula, FormulaIsWithinLimits};
ghost use Rattle.cell_calc_language.specs.parts.TreeSteps.{StepIsWithinLimits};

use cell_calc_grammar::step::Step;
use std::marker::Model;

/// An expression whose maps are indices into a list of maps.
#[derive(Drop)]
pub struct Bound {
    pub(crate) steps: Vec<Step<usize>>,
}

impl Model for Bound {
    ghost use Rattle.std.specs.Prelude.{ℕ, List};
    ghost use Rattle.std.specs.Coded.{code_by, codes};
    ghost use Rattle.cell_calc_grammar.specs.declared.step.Step.{Step};
    ghost use Rattle.cell_calc_grammar.proofs.PostfixLemmas.{tree-postfix};
    ghost use Rattle.cell_calc_language.specs.Formula.{Formula};
    ghost use Rattle.cell_calc_grammar.specs.Postfix.{postfix, tree_of_steps};
    ghost use Rattle.cell_calc_language.specs.parts.TreeSteps.{AreStepsOfAllowedExpression};

    ghost Value = { Formula };

    ghost coded = { code_by (List (Step ℕ)) (Prim.hlevel codes) postfix tree_of_steps tree-postfix };

    ghost view = { λ b. tree_of_steps b.steps.items };

    ghost invariant = { λ b. AreStepsOfAllowedExpression b.steps.items };
}

fn map_place_limit_of_step(step: Step<usize>) -> usize
    requires { StepIsWithinLimits step }
    ensures { result ≡ value_of_step_map_or_default map_place_limit_at_offset 0 step }
{
    match step {
        Step::Map { leaf, .. } => leaf + 1,
        _ => 0,
    }
}

fn top(steps: &[Step<usize>]) -> usize
    requires { All StepIsWithinLimits steps.now }
    ensures { result ≡ fold_maps_of_steps map_place_limit_at_offset 0 max steps.now }
{
    let mut top = 0;
    for step in steps {
        top = top.max(map_place_limit_of_step(*step));
    }
    top
}

fn rows_read_above_by_step(i: usize, step: Step<usize>) -> u32
    requires { StepIsWithinLimits step }
    ensures value { result ≡ value_of_step_map_or_default (rows_read_above_at_offset i) 0 step }
    ensures bound { result ≤ 255 }
{
    match step {
        Step::Map { leaf, down, .. } => {
            if i == leaf && down < 0 {
                -(down as i64) as u32
            } else {
                0
            }
        }
        _ => 0,
    }
}

fn up(i: usize, steps: &[Step<usize>]) -> u32
    requires { All StepIsWithinLimits steps.now }
    ensures value { result ≡ fold_maps_of_steps (rows_read_above_at_offset i) 0 max steps.now }
    ensures bound { result ≤ 255 }
{
    let mut up = 0;
    for step in steps {
        up = up.max(rows_read_above_by_step(i, *step));
    }
    up
}

fn rows_read_below_by_step(i: usize, step: Step<usize>) -> u32
    requires { StepIsWithinLimits step }
    ensures value { result ≡ value_of_step_map_or_default (rows_read_below_at_offset i) 0 step }
    ensures bound { result ≤ 255 }
{
    match step {
        Step::Map { leaf, down, .. } => {
            if i == leaf && down > 0 {
                down as u32
            } else {
                0
            }
        }
        _ => 0,
    }
}

fn down(i: usize, steps: &[Step<usize>]) -> u32
    requires { All StepIsWithinLimits steps.now }
    ensures value { result ≡ fold_maps_of_steps (rows_read_below_at_offset i) 0 max steps.now }
    ensures bound { result ≤ 255 }
{
    let mut down = 0;
    for step in steps {
        down = down.max(rows_read_below_by_step(i, *step));
    }
    down
}

impl Bound {
    /// Returns one more than the largest index that is read, or 0 if no map is read. Does not allocate.
    pub fn top(&self) -> usize
        ensures { result ≡ map_place_limit_of_formula self.now }
    {
        top(self.steps.as_slice())
    }

    /// Returns the numbers of rows above and below a cell that the expression reads in the map at index `i`. Does not
    /// allocate.
    pub fn reach(&self, i: usize) -> (u32, u32)
        requires { i < map_place_limit_of_formula self.now }
        ensures up { result.0 ≡ rows_read_above_by_formula i self.now }
        ensures down { result.1 ≡ rows_read_below_by_formula i self.now }
        ensures bound { (result.0 ≤ 255) × (result.1 ≤ 255) }
    {
        let steps = self.steps.as_slice();
        (up(i, steps), down(i, steps))
    }

    /// Returns the steps of the expression in postfix order. Does not allocate.
    pub fn steps(&self) -> &[Step<usize>]
        ensures steps { result.now ≡ postfix self.now }
        ensures proper { FormulaIsWithinLimits self.now }
    {
        &self.steps
    }
}
