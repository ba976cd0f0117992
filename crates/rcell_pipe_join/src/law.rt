//! The laws of join requests.

ghost use Rattle.rcell_pipe_join.specs.FrameSumLaw.{TableFramesAddUp};
ghost use Rattle.rcell_pipe_join.specs.JoinLaw.{RunsNumberFullMapPatches};
ghost use Rattle.rcell_pipe_join.specs.PatchSumLaw.{PatchTablesAddUp};
ghost use Rattle.rcell_pipe_join.specs.RunSumLaw.{TablesOfRunsAddUp};
ghost use Rattle.rcell_pipe_join.specs.SumLaw.{TablesOfTilesAddUp};

use cell_join_patches::law::renumbered_tiles_are_full_clump_map;

/// If a map is cut into tiles, and the request has their borders, the numbers in the response are the numbers that
/// r.clump gives to the patches of the full map, and the number of patches is theirs.
pub fn runs_number_full_map_patches()
    ensures { RunsNumberFullMapPatches }
{}

/// If maps are cut into tiles that contain each cell once, and the request has their tables, the sums in the response
/// are the table of the full maps, and their counts add up to the number of cells that are not left out.
pub fn tables_of_tiles_add_up()
    ensures { TablesOfTilesAddUp }
{}

/// If a request has the runs of the response to the tiles' borders, and the table of each tile, which begins with the
/// numbers of patches, the sums in the response are the table of the full maps, with the numbers of the full map's
/// patches, and their counts add up to the number of cells that are not left out.
pub fn patch_tables_add_up()
    ensures { PatchTablesAddUp }
{
    renumbered_tiles_are_full_clump_map();
}

/// If a script runs over tiles that cover the full maps, with enough halo, and the request has the tables of the tiles,
/// the sums in the response are the table of the full maps after the script, for maps that do not depend on an r.clump.
pub fn tables_of_runs_add_up()
    ensures { TablesOfRunsAddUp }
{
    tables_of_tiles_add_up();
}

/// If a script runs over tiles that cover the full maps, and the request has the tables in the tiles' frames for one
/// statement, the sums in the response are the table in the full maps' frame for this statement.
pub fn table_frames_add_up()
    ensures { TableFramesAddUp }
{}
