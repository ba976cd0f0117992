//! Laws about clump maps, compared with each other and with the maps that they number.

ghost use Rattle.cell_cats_law.specs.ClumpSizeLaw.{ClumpCountsSumToCategory, EntryCountsAreClumpSizes, NoClumpIsEmpty, RemovingClumpKeepsOthers};
ghost use Rattle.cell_cats_law.specs.CornerLaw.{CornersAddNoClump, CornersOnlyJoinClumps};
ghost use Rattle.cell_cats_law.specs.PartLaw.{TilesPrintLikeFullMap, ReclassCommutesWithCutting, ReclassedTilesKeepMapLabels};

/// In the table of a map and its clump map, the count of each entry is the number of cells in the clump.
pub fn entry_counts_are_clump_sizes()
    ensures { EntryCountsAreClumpSizes }
{}

/// The counts of a category's clumps add up to the count of the category.
pub fn clump_counts_sum_to_category()
    ensures { ClumpCountsSumToCategory }
{}

/// No clump is empty: if a number occurs in the table, all smaller numbers from 1 up also occur, with counts above 0.
pub fn no_clump_is_empty()
    ensures { NoClumpIsEmpty }
{}

/// If one clump is set to null, any two other cells are in the same clump if and only if they were before.
pub fn removing_clump_keeps_others()
    ensures { RemovingClumpKeepsOthers }
{}

/// Connecting corners only merges clumps: cells in the same clump by edges are in the same clump by edges and corners.
pub fn corners_only_join_clumps()
    ensures { CornersOnlyJoinClumps }
{}

/// Connecting corners adds no clumps: each number in the clump map by edges and corners also occurs in the clump map by
/// edges.
pub fn corners_add_no_clump()
    ensures { CornersAddNoClump }
{}

/// Reclassifying maps commutes with cutting a rectangle out of them.
pub fn reclass_commutes_with_cutting()
    ensures { ReclassCommutesWithCutting }
{}

/// A reclassified rectangle has the labels of the full reclassified maps.
pub fn reclassed_tiles_keep_map_labels()
    ensures { ReclassedTilesKeepMapLabels }
{}

/// If tiles have the labels of the full maps, a table is printed identically for both.
pub fn tiles_print_like_full_map()
    ensures { TilesPrintLikeFullMap }
{}
