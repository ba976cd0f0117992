//! What a run of a script over a tile guarantees.

ghost use Rattle.rcell_tile.specs.PlannedHalo.{PlannedHaloIsEnough, PlannedHaloIsNeeded};
ghost use Rattle.rcell_tile.specs.TileRunLaw.{TileRunsHaveFullMapCells, TilesWithoutClumpAreCutOut, TilesAfterRunsCoverFullMaps, TablesAfterRunsMergeIntoFullTable};

/// If a tile has the halo that the plan of a script needs, or ends with the full map, the halo is enough for each
/// statement, as long as no statement prints labels or reads what depends on an r.clump beyond the cell itself.
pub fn planned_halo_is_enough()
    ensures { PlannedHaloIsEnough }
{}

/// Conversely, a tile in which each statement can run has the halo that the plan needs, or ends with the full map.
pub fn planned_halo_is_needed()
    ensures { PlannedHaloIsNeeded }
{}

/// Consider the same statements over full maps and over a tile that is cut out of them with its halo. If the halo is
/// enough, each map of the tile that does not depend on an r.clump has the cells of the full map.
pub fn tile_runs_have_full_map_cells()
    ensures { TileRunsHaveFullMapCells }
{}

/// If no statement is r.clump, all maps of the tile are cut out of the full maps.
pub fn tiles_without_clump_are_cut_out()
    ensures { TilesWithoutClumpAreCutOut }
{}

/// If the tiles cover the full maps and no statement is r.clump, the tiles also cover the maps that the statements make
/// over the full maps.
pub fn tiles_after_runs_cover_full_maps()
    ensures { TilesAfterRunsCoverFullMaps }
{}

/// If the tiles cover the full maps, consider a table of maps that do not depend on an r.clump. The table of the full
/// maps after the statements is the merge of the tables of the tiles, and no other list is.
pub fn tables_after_runs_merge_into_full_table()
    ensures { TablesAfterRunsMergeIntoFullTable }
{}
