//! Expressions.

ghost use Rattle.std.specs.Prelude.{◌≡◌};
ghost use Rattle.cell_calc_language.specs.Grammatical.{IsGrammatical};
ghost use Rattle.cell_calc_grammar.specs.Postfix.{postfix};
ghost use Rattle.cell_calc_language.specs.Unknown.{first_unknown};

use crate::unknown::first_unknown_name_column;
use cell_calc_grammar::map_name::MapNameAtColumn;
use cell_calc_grammar::step::Step;
use cell_core_values::name::Names;
use std::marker::Model;

/// An expression of r.mapcalc. Its numbers are categories, its offsets are from -255 to 255, and each function accepts
/// its number of arguments.
#[derive(Drop)]
pub struct Expr {
    pub(crate) steps: Vec<Step<MapNameAtColumn>>,
}

impl Model for Expr {
    ghost use Rattle.std.specs.Prelude.{List};
    ghost use Rattle.std.specs.Coded.{code_by, codes};
    ghost use Rattle.cell_calc_grammar.specs.declared.step.Step.{Step};
    ghost use Rattle.cell_calc_grammar.specs.declared.map_name.MapNameAtColumn.{MapNameAtColumn};
    ghost use Rattle.cell_calc_grammar.proofs.PostfixLemmas.{tree-postfix};
    ghost use Rattle.cell_calc_grammar.specs.Term.{Term};
    ghost use Rattle.cell_calc_grammar.specs.Postfix.{postfix, tree_of_steps};
    ghost use Rattle.cell_calc_language.specs.Grammatical.{AreStepsOfExpression};

    ghost Value = { Term };

    ghost coded = { code_by (List (Step MapNameAtColumn)) (Prim.hlevel codes) postfix tree_of_steps tree-postfix };

    ghost view = { λ e. tree_of_steps e.steps.items };

    ghost invariant = { λ e. AreStepsOfExpression e.steps.items };
}

impl Expr {
    /// Returns the column of the first map name, in the order of the text, that is not in the list. Does not allocate.
    pub fn first_unknown(&self, names: &Names) -> Option<u32>
        ensures { result ≡ first_unknown names.now self.now }
    {
        first_unknown_name_column(self.steps(), names)
    }

    /// Returns the steps of the expression in postfix order. Does not allocate.
    pub fn steps(&self) -> &[Step<MapNameAtColumn>]
        ensures steps { result.now ≡ postfix self.now }
        ensures grammatical { IsGrammatical self.now }
    {
        &self.steps
    }
}
