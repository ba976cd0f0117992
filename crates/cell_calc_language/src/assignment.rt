//! Parses assignments.

ghost use Rattle.std.specs.Prelude.{◌≡◌, ◌≤◌, List, length, IfOk, IfErr};
ghost use Rattle.cell_calc_language.specs.declared.assignment.Assignment.{Assignment};
ghost use Rattle.cell_calc_grammar.specs.declared.token.TokenAtColumn.{TokenAtColumn};
ghost use Rattle.cell_calc_language.specs.Assignment.{AreTokensOfAssignment, IsAssignmentText};
ghost use Rattle.cell_calc_language.specs.GrammarFault.{IsFaultOfAssignmentText};

use crate::expr::Expr;
use crate::token_parsing::assignment_of_tokens;
use cell_calc_grammar::calc_fault::CalcFault;
use cell_calc_grammar::tokens::tokens;
use cell_core_values::name::Name;
use std::alloc::Global;

/// `NAME = EXPRESSION`: the name of the map that r.mapcalc creates, and its expression.
#[derive(Drop)]
pub struct Assignment {
    pub target: Name,
    pub expr: Expr,
}

/// Parses `NAME = EXPRESSION` (r.mapcalc manual; whole numbers, the operators and functions of specs/Operator and
/// specs/Function).
///
/// # Errors
///
/// The first error in the text's tokens, otherwise the first error in its grammar, both read from the left. Columns
/// count bytes from 1, and the end of the text is the column after its last byte. `Memory`, with column 0, if memory
/// runs out.
pub fn parse(alloc: Global, text: &[u8]) -> Result<Assignment, CalcFault>
    requires { length text.now ≤ 65535 }
    ensures ok { IfOk result (λ a. IsAssignmentText text.now a) }
    ensures only { IfOk result (λ a. (b : Assignment) → IsAssignmentText text.now b → b ≡ a) }
    ensures fault { IfErr result (λ fault. IsFaultOfAssignmentText text.now fault) }
{
    let found = tokens(alloc, text)?;
    assignment_of_tokens(alloc, text.len() as u32 + 1, &found)
}

/// A list of tokens stands for at most one assignment.
pub fn tokens_denote_one_assignment()
    ensures { (ts : List TokenAtColumn) (a b : Assignment) → AreTokensOfAssignment ts a
        → AreTokensOfAssignment ts b
        → a ≡ b }
{}
