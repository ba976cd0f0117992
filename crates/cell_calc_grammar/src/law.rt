//! Laws about reading tokens.

ghost use Rattle.cell_calc_grammar.specs.ReadingLaw.{TokensDenoteOneExpression, ExpressionReadingHasOneOutcome, ReadingAgreesWithGrammar};

/// Reading ends with an expression if and only if the tokens stand for it (r.mapcalc manual).
pub fn reading_agrees_with_grammar()
    ensures { ReadingAgreesWithGrammar }
{}

/// Reading has at most one outcome.
pub fn expression_reading_has_one_outcome()
    ensures { ExpressionReadingHasOneOutcome }
{}

/// Tokens stand for at most one expression.
pub fn tokens_denote_one_expression()
    ensures { TokensDenoteOneExpression }
{}
