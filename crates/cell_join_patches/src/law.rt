//! The law of joined patches.

ghost use Rattle.cell_join_patches.specs.PatchPartLaw.{JoinedPatchesHavePatchMeasures};
ghost use Rattle.cell_join_patches.specs.TileGridLaw.{ClosedPatchesAreFullMapPatches, JoinedPartsAreFullMapPatches, JoinedPatchesAreFullMapPatches, RenumberedTilesAreFullClumpMap};

/// If the patches of tiles make up a patch of the full map, and parts have their measures in the full map, the joined
/// patch has the measures of the full map's patch.
pub fn joined_patches_have_patch_measures()
    ensures { JoinedPatchesHavePatchMeasures }
{}

/// If a full map is cut into a grid of tiles, the runs of the tiles turn their clump maps into the clump map of the full
/// map.
pub fn renumbered_tiles_are_full_clump_map()
    ensures { RenumberedTilesAreFullClumpMap }
{}

/// If a patch of a tile has no cell in the first or last row or column of its tile, it is the full map's patch with the
/// number that the runs give to it.
pub fn closed_patches_are_full_map_patches()
    ensures { ClosedPatchesAreFullMapPatches }
{}

/// If the parts are patches of tiles, each of them once, with all open parts of the same patches of the full map, the
/// joined patches are the full map's patches with the parts' numbers.
pub fn joined_parts_are_full_map_patches()
    ensures { JoinedPartsAreFullMapPatches }
{}

/// If the parts are the patches of all tiles of a grid, with the numbers that the runs give to them and their measures
/// in the full map, the joined patches are all patches of the full map, with its measures.
pub fn joined_patches_are_full_map_patches()
    ensures { JoinedPatchesAreFullMapPatches }
{}
