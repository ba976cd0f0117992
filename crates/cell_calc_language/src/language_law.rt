//! Laws about errors in the grammar.

ghost use Rattle.cell_calc_language.specs.GrammarLaw.{TokensAreAssignmentOrFault, AtMostOneGrammarFault};

/// A list of tokens has at most one error in the grammar: the first that reading from the left can show.
pub fn at_most_one_grammar_fault()
    ensures { AtMostOneGrammarFault }
{}

/// Each list of tokens stands for an assignment or has an error in the grammar.
pub fn tokens_are_assignment_or_fault()
    ensures { TokensAreAssignmentOrFault }
{}
