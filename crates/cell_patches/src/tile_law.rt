//! Laws about the measures of a tile's patches.

ghost use Rattle.cell_patches.specs.TilePatchLaw.{FullMapIsTileOfItself, HaloDeterminesMeasures};

/// The measures of a patch of the full map, as its only tile, are the measures of the patch.
pub fn full_map_is_tile_of_itself()
    ensures { FullMapIsTileOfItself }
{}

/// A map that contains a tile with a halo gives the measures that the full map gives.
pub fn halo_determines_measures()
    ensures { HaloDeterminesMeasures }
{}
