//! The parts of patches in tiles.

use cell_patches::patch::Patch;

/// A patch of a tile, which is a part of a patch of the full map.
#[derive(Clone, Copy, Debug, PartialEq, Eq)]
pub struct PatchOfTile {
    /// The index of the tile, counted from 1.
    pub tile: u64,
    /// The number of the patch in the tile, counted from 1.
    pub number: u64,
    /// The number of the full map's patch.
    pub full_map_number: u64,
    /// The measures.
    pub patch: Patch,
}
