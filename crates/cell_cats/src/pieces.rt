//! Cuts the number line into pieces of categories with the same output. The time to find a cell's new category then
//! grows only with the logarithm of the number of ranges.

ghost use Rattle.std.specs.Prelude.{◌≡◌, ℤ, negsuc, ◌≤ℤ◌, List, Option, IfOk, OnOk};
ghost use Rattle.std.specs.BTreeMap.{get};
ghost use Rattle.std.specs.Ordering.{int_cmp};
ghost use Rattle.cell_cats.specs.Rule.{RuleValue, new_category, new_cell_of_output};
ghost use Rattle.cell_cats.specs.parts.Pieces.{IntervalsHaveOutputs, IntervalsAgreeWithRules, IsRangeClearedOfIntervalStarts, AreIntervalOutputsChangedBy, outputs_after_range_assigned, outputs_after_rule_assigned};

use crate::rule::{Output, Rule};
use crate::rules::Rules;
use cell_core::cell::Cell;
use cell_core::memory::Memory;
use std::alloc::Global;
use std::collections::BTreeMap;

// Maps the start of each piece to its output. The last piece may start after the largest category.
//
// Contracts only state which lookups find a start. They do not mention the order of the entries.
#[derive(Drop)]
pub(crate) struct RuleOutputIntervals {
    starts: BTreeMap<i64, Option<Output>>,
}

impl RuleOutputIntervals {
    // Returns the pieces into which the rules cut the number line: at most two per range, plus one.
    pub(crate) fn of_rules(alloc: Global, rules: &Rules) -> Result<RuleOutputIntervals, Memory>
        ensures { IfOk result (λ pieces. IntervalsAgreeWithRules rules.now pieces) }
    {
        let mut pieces = RuleOutputIntervals::whole(alloc, rules.output_of_last_star_rule())?;
        for rule in rules.as_slice() {
            pieces.add_output_of_rule(rule)?;
        }
        Ok(pieces)
    }

    // Returns a single piece that covers all numbers.
    fn whole(alloc: Global, output: Option<Output>) -> Result<RuleOutputIntervals, Memory>
        ensures { IfOk result (λ pieces. IntervalsHaveOutputs (λ _. output) pieces) }
    {
        let mut starts = BTreeMap::new(alloc);
        starts.insert(i64::from(i32::MIN), output)?;
        Ok(RuleOutputIntervals { starts })
    }

    // Assigns the output of a rule to the categories that it lists.
    fn add_output_of_rule(&mut self, rule: &Rule) -> Result<(), Memory>
        ensures { OnOk result (AreIntervalOutputsChangedBy
            (outputs_after_rule_assigned rule.now) self.old self.new) }
    {
        for ends in rule.ranges() {
            self.assign_output_to_range(*ends, rule.output())?;
        }
        Ok(())
    }

    // Assigns an output to the categories of a range. Each start inside the range is removed for good, so n ranges take
    // n log n steps.
    fn assign_output_to_range(&mut self, ends: (i32, i32), output: Output) -> Result<(), Memory>
        ensures { OnOk result (AreIntervalOutputsChangedBy
            (outputs_after_range_assigned ends output) self.old self.new) }
    {
        let from = i64::from(ends.0.min(ends.1));
        let to = i64::from(ends.0.max(ends.1));
        let after = self.output_of_number(to + 1);
        self.starts.insert(to + 1, after)?;
        self.clear(from, to);
        self.starts.insert(from, Some(output))?;
        Ok(())
    }

    // Removes all starts between two numbers, inclusive.
    fn clear(&mut self, from: i64, to: i64)
        requires { from ≤ℤ to }
        ensures { IsRangeClearedOfIntervalStarts from to (get int_cmp self.old.starts)
            (get int_cmp self.new.starts) }
    {
        while let Some((start, _)) = self.starts.range(from..=to).next() {
            let start = *start;
            self.starts.remove(&start);
        }
    }

    // Returns the output of the piece that contains `place`.
    fn output_of_number(&self, place: i64) -> Option<Output>
        requires { negsuc 2147483647 ≤ℤ place }
        ensures { (outputs : ℤ → Option Output) → IntervalsHaveOutputs outputs self.now
            → result ≡ outputs place }
    {
        match self.starts.range(..=place).next_back() {
            Some((_, output)) => *output,
            None => None,
        }
    }

    // Returns the new category of a cell.
    pub(crate) fn apply(&self, cell: Cell) -> Cell
        ensures { (rules : List RuleValue) → IntervalsAgreeWithRules rules self.now
            → result ≡ new_category rules cell }
    {
        let Some(x) = cell.get() else {
            return Cell::null();
        };
        match self.output_of_number(i64::from(x)) {
            Some(output) => output.of(cell),
            None => Cell::null(),
        }
    }
}
