//! Rules of r.reclass.

ghost use Rattle.std.specs.Prelude.{◌≡◌, ◌≢◌, ℤ, Some, IfSome};
ghost use Rattle.std.specs.List.{list_any};
ghost use Rattle.std.specs.Option.{option_map};
ghost use Rattle.cell_cats.specs.Rule.{is_between_ends, lists, is_star_rule, new_cell_of_output, labelled_category};

use cell_core::cell::Cell;
use std::marker::Model;

/// The output of a rule.
#[derive(Clone, Copy, Debug)]
pub enum Output {
    /// Keeps the category.
    Same,
    /// Replaces the category with null or another category.
    To(Cell),
}

impl Output {
    /// Returns the cell that replaces a non-null cell.
    pub fn of(self, cell: Cell) -> Cell
        ensures { IfSome cell (λ x. result ≡ new_cell_of_output x (Some self)) }
    {
        match self {
            Output::Same => cell,
            Output::To(other) => other,
        }
    }
}

/// A rule: the ends of the ranges that it lists, or `None` for `*`; its output; and its label, which may be empty.
#[derive(Debug, Drop)]
pub struct Rule {
    listed: Option<Vec<(i32, i32)>>,
    output: Output,
    label: Vec<u8>,
}

impl Model for Rule {
    ghost use Rattle.std.specs.Option.{option_map};
    ghost use Rattle.cell_cats.specs.Rule.{RuleValue};

    ghost Value = { RuleValue };

    ghost view = { λ r. record { listed = option_map (λ ranges. ranges.items) r.listed; output = r.output; label = r.label.items } };
}

// Returns whether a category is between two ends, which may be in either order.
fn is_category_between_ends(ends: (i32, i32), x: i32) -> bool
    ensures { result ≡ is_between_ends ends x }
{
    (ends.0 <= x && x <= ends.1) || (ends.1 <= x && x <= ends.0)
}

impl Rule {
    /// Returns the rule with these parts.
    pub fn new(listed: Option<Vec<(i32, i32)>>, output: Output, label: Vec<u8>) -> Rule
        ensures { result ≡ record {
          listed = option_map (λ ranges. ranges.items) listed;
          output = output;
          label = label.items;
        } }
    {
        Rule {
            listed,
            output,
            label,
        }
    }

    /// Returns whether the rule lists a category.
    pub fn lists(&self, x: i32) -> bool
        ensures { result ≡ lists x self.now }
    {
        self.ranges()
            .iter()
            .any(|ends| is_category_between_ends(*ends, x))
    }

    // Returns the ends of the ranges that the rule lists, or none for `*`.
    pub(crate) fn ranges(&self) -> &[(i32, i32)]
        ensures { (x : ℤ) → lists x self.now ≡ list_any
            (λ ends. is_between_ends ends x) result.now }
    {
        match &self.listed {
            Some(ranges) => ranges.as_slice(),
            None => &[],
        }
    }

    /// Returns whether the rule is for `*`.
    pub fn is_star(&self) -> bool
        ensures { result ≡ is_star_rule self.now }
    {
        self.listed.is_none()
    }

    /// Returns the output for the categories of the rule.
    pub fn output(&self) -> Output
        ensures { result ≡ self.now.output }
    {
        self.output
    }

    /// Returns the label, which is empty if the rule has none.
    pub fn label(&self) -> &[u8]
        ensures { result.now ≡ self.now.label }
    {
        &self.label
    }

    /// Returns the category that the rule labels, if there is one.
    pub fn labelled_category(&self) -> Option<i32>
        ensures value { result ≡ labelled_category self.now }
        ensures range { IfSome result (λ category. category ≢ i32.MIN) }
    {
        if self.label.is_empty() {
            return None;
        }
        match self.output {
            Output::Same => None,
            Output::To(cell) => cell.get(),
        }
    }
}
