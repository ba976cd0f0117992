//! Laws about tiles of maps.

ghost use Rattle.cell_join_numbers.specs.ClumpParts.{PathsAreChainsOfTileLinks, CutOutsAreTiles, ClumpStartsAreTileClumpStarts, FullMapClumpStartsFromTiles, PathsAreChainsOfNumberLinks};
ghost use Rattle.cell_join_numbers.specs.Merging.{MergingInGroupsIsMergingAll, SummedCountsAreTheMerge};
ghost use Rattle.cell_join_numbers.specs.Parts.{CuttingMapsMakesTiles, TileGridCoversEachCellOnce};
ghost use Rattle.cell_join_numbers.specs.TableParts.{TileCountsAddUp, MergedTileTablesAreFullTable};

/// If a map is cut between rows and columns, the rectangles cover each cell once.
pub fn tile_grid_covers_each_cell_once()
    ensures { TileGridCoversEachCellOnce }
{}

/// Cutting a rectangle out of maps produces a tile of them.
pub fn cutting_maps_makes_tiles()
    ensures { CuttingMapsMakesTiles }
{}

/// If tiles cover each cell once, the count of each combination in the full maps is the sum of its counts in the tiles.
pub fn tile_counts_add_up()
    ensures { TileCountsAddUp }
{}

/// The table of the full maps is the merge of the tables of the tiles, and no other list is.
pub fn merged_tile_tables_are_full_table()
    ensures { MergedTileTablesAreFullTable }
{}

/// If entries list each combination of tables once, in order, with the sum of its counts, they are the merge of the
/// tables.
pub fn summed_counts_are_the_merge()
    ensures { SummedCountsAreTheMerge }
{}

/// Merging the merges of groups of tables gives the merge of all tables.
pub fn merging_in_groups_is_merging_all()
    ensures { MergingInGroupsIsMergingAll }
{}

/// Cutting a rectangle out of a map produces a tile of it.
pub fn cut_outs_are_tiles()
    ensures { CutOutsAreTiles }
{}

/// For any tiles of a map, a path connects two cells if and only if a chain of links does. Each link is a path within
/// one tile, or a step between adjacent cells of the same category that no tile contains together.
pub fn paths_are_chains_of_tile_links()
    ensures { PathsAreChainsOfTileLinks }
{}

/// Like `paths_are_chains_of_tile_links`, with the clump numbers of the tiles: each link is a common number within one tile, or a step
/// across a seam.
pub fn paths_are_chains_of_number_links()
    ensures { PathsAreChainsOfNumberLinks }
{}

/// The first cell of a clump of the full map is also the first cell of a clump of its tile.
pub fn clump_starts_are_tile_clump_starts()
    ensures { ClumpStartsAreTileClumpStarts }
{}

/// The first cells of clumps of the full map are the first cells of clumps of tiles that are not connected to an
/// earlier first cell.
pub fn full_map_clump_starts_from_tiles()
    ensures { FullMapClumpStartsFromTiles }
{}
