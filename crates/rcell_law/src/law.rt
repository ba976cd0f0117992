//! Laws of the outputs of all scripts.

ghost use Rattle.rcell_law.specs.CutScript.{CutScriptGivesSameOutput, CutScriptTextGivesSameOutput};
ghost use Rattle.rcell_law.specs.OutputExists.{AcceptedScriptsHaveOutput, FittingStatementsHaveOutput};
ghost use Rattle.rcell_law.specs.ReadAgain.{LabelsChangeOnlyPrintedLabels, WrittenMapsGiveSameOutput, WrittenMapsAreGrids};
ghost use Rattle.rcell_law.specs.RunMaps.{RunMapsAreWritable};

/// If the maps that r.out.ascii wrote are the grids of a second run, they are read as the same maps without labels.
pub fn written_maps_are_grids()
    ensures { WrittenMapsAreGrids }
{}

/// The labels of maps do not affect the output of statements that print no labels.
pub fn labels_change_only_printed_labels()
    ensures { LabelsChangeOnlyPrintedLabels }
{}

/// If the maps that r.out.ascii wrote are the grids of a second run, they produce the same tables and texts.
pub fn written_maps_give_same_output()
    ensures { WrittenMapsGiveSameOutput }
{}

/// Statements that fit the maps of a shelf have an output: values, new categories and clump numbers always exist.
pub fn fitting_statements_have_output()
    ensures { FittingStatementsHaveOutput }
{}

/// Every accepted script over grids of one region has an output.
pub fn accepted_scripts_have_output()
    ensures { AcceptedScriptsHaveOutput }
{}

/// Cut a script in two, write the maps that the first part made, and read them back as grids. The second part then
/// writes what the full script would have written.
pub fn cut_script_gives_same_output()
    ensures { CutScriptGivesSameOutput }
{}

/// The law `cut_script_gives_same_output` for texts: the two parts form one script, whose output is their concatenated output.
pub fn cut_script_text_gives_same_output()
    ensures { CutScriptTextGivesSameOutput }
{}

/// Each map of a run can be written and read back, with any null text that is not a whole number.
pub fn run_maps_are_writable()
    ensures { RunMapsAreWritable }
{}
