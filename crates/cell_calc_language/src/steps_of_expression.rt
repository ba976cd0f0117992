//! Expressions made of their steps.

ghost use Rattle.std.specs.Prelude.{◌≡◌};
ghost use Rattle.cell_calc_grammar.specs.Postfix.{postfix, tree_of_steps};
ghost use Rattle.cell_calc_language.specs.Reach.{FormulaIsWithinLimits};

use crate::bound::Bound;
use cell_calc_grammar::step::Step;

impl Bound {
    /// Returns the expression with these steps in postfix order.
    pub fn of_steps(steps: Vec<Step<usize>>) -> Bound
        requires steps { steps.items ≡ postfix (tree_of_steps steps.items) }
        requires proper { FormulaIsWithinLimits (tree_of_steps steps.items) }
        ensures { result ≡ tree_of_steps steps.items }
    {
        Bound { steps }
    }
}
