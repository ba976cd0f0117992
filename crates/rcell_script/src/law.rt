//! Laws of scripts.

ghost use Rattle.rcell_script.specs.ScriptLaw.{ScriptsHaveNoFault, TextDenotesAtMostOneScript, ScriptReadingMatchesMeaning};

use cell_calc_language::assignment::tokens_denote_one_assignment;

/// A text denotes at most one list of statements.
pub fn text_denotes_at_most_one_script()
    ensures { TextDenotesAtMostOneScript }
{
    tokens_denote_one_assignment();
}

/// A text that is a script has no error.
pub fn scripts_have_no_fault()
    ensures { ScriptsHaveNoFault }
{
    tokens_denote_one_assignment();
}

/// Reading a text line by line returns statements exactly if the text is a script of these statements.
pub fn script_reading_matches_meaning()
    ensures { ScriptReadingMatchesMeaning }
{}
