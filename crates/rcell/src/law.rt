//! Laws of the output.

ghost use Rattle.rcell.specs.OutputLaw.{StatementsHaveOneOutput, ScriptInPartsHasSameOutput};
ghost use Rattle.rcell.specs.SourcesLaw.{ReadsAgreeWithKnownBytes};
ghost use Rattle.rcell.specs.StatsLaw.{StatsCountsSumToRegionCells, StatsWritesTablesOfItsMaps};

use cell_clumps::law::clump_map_is_unique;
use cell_core::source::Source;
use cell_stats::law::{table_counts_add_up_to_cells, table_lists_occurring_combinations};

/// Statements over a shelf have exactly one output.
pub fn statements_have_one_output()
    ensures { StatementsHaveOneOutput }
{
    clump_map_is_unique();
}

/// Executing a script is the same as executing its first part, and then its second part over the shelf that the first
/// part left. The outputs are concatenated.
pub fn script_in_parts_has_same_output()
    ensures { ScriptInPartsHasSameOutput }
{}

/// Without `-1`, r.stats writes the printed form of every list that is a table of its maps, or of the rest of the table
/// after a combination. There is at least one of these lists.
pub fn stats_writes_tables_of_its_maps()
    ensures { StatsWritesTablesOfItsMaps }
{
    table_lists_occurring_combinations();
}

/// With `-c`, and without `-n`, `-N`, `-1` and `after`, r.stats writes one line per entry of its maps' table. Each line
/// ends in the count of the entry, and the counts add up to the number of cells in the region.
pub fn stats_counts_sum_to_region_cells()
    ensures { StatsCountsSumToRegionCells }
{
    table_lists_occurring_combinations();
    table_counts_add_up_to_cells();
}

/// If the bytes of the sources of a run are known, the reads agree with them. So the clauses of `run` on supposed
/// contents hold for the known bytes.
pub fn reads_agree_with_known_bytes<R: Source>()
    ensures { ReadsAgreeWithKnownBytes R.coming R.supposed }
{}
