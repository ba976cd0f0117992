//! Lists of rules.

ghost use Rattle.std.specs.Prelude.{◌≡◌, [], OnErr};
ghost use Rattle.std.specs.Option.{option_map};
ghost use Rattle.cell_core_values.specs.Answers.{EqualsUnlessOutOfMemory};
ghost use Rattle.cell_cats.specs.Rule.{new_category, output_for_category, output_of_last_passing_rule, is_star_rule, new_cell_of_output};
ghost use Rattle.cell_cats.specs.RuleReading.{line_kind_and_rules_after_line};

use crate::line::{is_blank_or_comment_line, rule_of_line};
use crate::rule::{Output, Rule};
use cell_core::cell::Cell;
use cell_core::memory::Memory;
use cell_core_values::blanks::trimmed_text;
use std::alloc::{AllocError, AllocFailed, Global};
use std::marker::Model;

/// The kinds of valid lines.
#[derive(Clone, Copy, Debug, PartialEq, Eq)]
pub enum LineKind {
    /// A line with a rule.
    Rule,
    /// A blank line or a comment.
    Skipped,
    /// The line `end`, which ends the rules.
    End,
}

/// Why a rule line is invalid.
#[derive(Clone, Copy, Debug, PartialEq, Eq)]
pub enum RuleFault {
    /// The line does not have the form of a rule.
    BadRule,
    /// A number in the line is not whole, or is out of range.
    BadNumber,
    /// Memory ran out.
    Memory,
}

impl From<Memory> for RuleFault {
    ghost use Rattle.std.specs.Prelude.{◌≡◌};
    ghost use Rattle.cell_cats.specs.declared.rules.RuleFault.TheVariants.{Memory};

    ghost from_gives = { λ _ fault. fault ≡ Memory };

    fn from(_e: Memory) -> RuleFault {
        RuleFault::Memory
    }
}

impl From<AllocError> for RuleFault {
    ghost use Rattle.std.specs.Prelude.{◌≡◌};
    ghost use Rattle.cell_cats.specs.declared.rules.RuleFault.TheVariants.{Memory};

    ghost from_gives = { λ _ fault. fault ≡ Memory };

    fn from(_e: AllocError) -> RuleFault {
        RuleFault::Memory
    }
}

impl<T: Drop> From<AllocFailed<T>> for RuleFault {
    ghost use Rattle.std.specs.Prelude.{◌≡◌};
    ghost use Rattle.cell_cats.specs.declared.rules.RuleFault.TheVariants.{Memory};

    ghost from_gives = { λ _ fault. fault ≡ Memory };

    fn from(_e: AllocFailed<T>) -> RuleFault {
        RuleFault::Memory
    }
}

/// A list of rules, in the order in which they were added.
#[derive(Debug, Drop)]
pub struct Rules {
    alloc: Global,
    rules: Vec<Rule>,
}

impl Model for Rules {
    ghost use Rattle.std.specs.Prelude.{List};
    ghost use Rattle.cell_cats.specs.Rule.{RuleValue};

    ghost Value = { List RuleValue };

    ghost view = { λ r. r.rules.items };
}

impl Rules {
    /// Returns an empty list, under which every cell becomes null. Does not allocate.
    pub fn new(alloc: Global) -> Rules
        ensures { result ≡ [] }
    {
        Rules {
            alloc,
            rules: Vec::new(alloc),
        }
    }

    // Returns the output of the last rule for `*`.
    pub(crate) fn output_of_last_star_rule(&self) -> Option<Output>
        ensures { result ≡ output_of_last_passing_rule is_star_rule self.now }
    {
        let mut starred = None;
        for rule in &self.rules {
            if rule.is_star() {
                starred = Some(rule.output());
            }
        }
        starred
    }

    // Returns the output for a category.
    fn output_for_category(&self, x: i32) -> Option<Output>
        ensures { result ≡ output_for_category self.now x }
    {
        let mut listing = None;
        for rule in &self.rules {
            if rule.lists(x) {
                listing = Some(rule.output());
            }
        }
        listing.or(self.output_of_last_star_rule())
    }

    /// Returns the new category of a cell.
    pub fn apply(&self, cell: Cell) -> Cell
        ensures { result ≡ new_category self.now cell }
    {
        let Some(x) = cell.get() else {
            return Cell::null();
        };
        match self.output_for_category(x) {
            Some(output) => output.of(cell),
            None => Cell::null(),
        }
    }

    /// Returns the rules in order.
    pub fn as_slice(&self) -> &[Rule]
        ensures { result.now ≡ self.now }
    {
        self.rules.as_slice()
    }

    /// Adds the rule that a line spells. The line must not contain a line feed.
    ///
    /// # Errors
    ///
    /// [`RuleFault::BadRule`] if the line does not have the form of a rule, otherwise [`RuleFault::BadNumber`] if a
    /// number is invalid; [`RuleFault::Memory`] if memory runs out. The rules are then unchanged, and more lines may be
    /// added.
    pub fn add_line(&mut self, line: &[u8]) -> Result<LineKind, RuleFault>
        ensures said { EqualsUnlessOutOfMemory RuleFault.Memory (λ kind. (kind, self.new)) result
            (line_kind_and_rules_after_line self.old line.now) }
        ensures unchanged { OnErr result (self.new ≡ self.old) }
    {
        let text = trimmed_text(line);
        if is_blank_or_comment_line(text) {
            return Ok(LineKind::Skipped);
        }
        if text == b"end".as_slice() {
            return Ok(LineKind::End);
        }
        let rule = rule_of_line(self.alloc, line)?;
        self.rules.push(rule)?;
        Ok(LineKind::Rule)
    }
}
