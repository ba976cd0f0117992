//! Laws of joined borders.

ghost use Rattle.cell_join_tiles.specs.Beginnings.{ClumpLabelsFitJoiningByPairs, LabelsFollowFirstCells};
ghost use Rattle.cell_join_tiles.specs.Borders.{BordersLabelCellsForJoining, BordersGiveClumpCount, BordersGiveClumpNumbers, CutMapCellsHaveClumpLabels, MaximumRisesCountNewClumps};
ghost use Rattle.cell_join_tiles.specs.SeamLines.{SeamLinesGiveLabelPairs, TileRowsJoinToFullMapRow, TileSidesAreFullMapLines};
ghost use Rattle.cell_join_tiles.specs.JoinedBorders.{BordersSufficeToLabelCells};
ghost use Rattle.cell_join_tiles.specs.JoinedLaw.{JoinedTilesGiveClumpCount, JoinedTilesGiveClumpNumbers, KeptRowsSufficeForNextRow};
ghost use Rattle.cell_join_tiles.specs.LabelLines.{FirstLabelsGiveTileLabels, FirstLabelsGiveNextTileLabels};
ghost use Rattle.cell_join_tiles.specs.TileNumbers.{ClumpNumbersAreListedByTile};

/// Of two clumps of tiles, the clump with the smaller label has the earlier first cell in the full map.
pub fn labels_follow_first_cells()
    ensures { LabelsFollowFirstCells }
{}

/// The labels of the cells' clumps satisfy the conditions for joining by pairs of labels.
pub fn clump_labels_fit_joining_by_pairs()
    ensures { ClumpLabelsFitJoiningByPairs }
{}

/// The number of clumps that begin in a row is the increase of the largest number so far.
pub fn maximum_rises_count_new_clumps()
    ensures { MaximumRisesCountNewClumps }
{}

/// Each cell of a map that is cut into tiles has the label of its clump in its tile.
pub fn cut_map_cells_have_clump_labels()
    ensures { CutMapCellsHaveClumpLabels }
{}

/// Numbers computed from the labels and only the pairs at the seams are the numbers of the full map.
pub fn borders_give_clump_numbers()
    ensures { BordersGiveClumpNumbers }
{}

/// The count of the numbers in `borders_give_clump_numbers` is the number of clumps in the full map.
pub fn borders_give_clump_count()
    ensures { BordersGiveClumpCount }
{}

/// The lines of cells on both sides of each seam determine exactly the pairs at the seams.
pub fn seam_lines_give_label_pairs()
    ensures { SeamLinesGiveLabelPairs }
{}

/// Borders of tiles label the full map's cells so that they can be joined by pairs of labels.
pub fn borders_label_cells_for_joining()
    ensures { BordersLabelCellsForJoining }
{}

/// A side of a tile is a line of cells of the full map.
pub fn tile_sides_are_full_map_lines()
    ensures { TileSidesAreFullMapLines }
{}

/// The sides of a row of tiles, one after the other, are part of a row of the full map.
pub fn tile_rows_join_to_full_map_row()
    ensures { TileRowsJoinToFullMapRow }
{}

/// The labels of the first clumps in each row of a tile determine the label of each of its clumps.
pub fn first_labels_give_tile_labels()
    ensures { FirstLabelsGiveTileLabels }
{}

/// The labels of the first clumps in each row of a tile also determine those labels for the tile to its right.
pub fn first_labels_give_next_tile_labels()
    ensures { FirstLabelsGiveNextTileLabels }
{}

/// Only the borders of tiles are needed to label the full map's cells so that they can be joined by pairs of labels.
pub fn borders_suffice_to_label_cells()
    ensures { BordersSufficeToLabelCells }
{}

/// If numbers are listed tile by tile, each clump's number is listed at the clump's position among the clumps of all
/// tiles.
pub fn clump_numbers_are_listed_by_tile()
    ensures { ClumpNumbersAreListedByTile }
{}

/// What the joiner keeps of the joined rows of tiles is enough for the next row.
pub fn kept_rows_suffice_for_next_row()
    ensures { KeptRowsSufficeForNextRow }
{}

/// What the joiner keeps is enough for the numbering: in each map that is cut into these tiles, each cell has the
/// number of its clump.
pub fn joined_tiles_give_clump_numbers()
    ensures { JoinedTilesGiveClumpNumbers }
{}

/// What the joiner keeps is enough for the number of clumps of each map that is cut into these tiles.
pub fn joined_tiles_give_clump_count()
    ensures { JoinedTilesGiveClumpCount }
{}
