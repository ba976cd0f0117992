//! A law of all script texts.

ghost use Rattle.rcell_law.specs.JudgedLaw.{TextsAreScriptsOrHaveFault};

/// Each text either is a script over known maps and has no error, or has a first error and is not a script (profile).
pub fn texts_are_scripts_or_have_fault()
    ensures { TextsAreScriptsOrHaveFault }
{}
