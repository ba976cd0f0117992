//! Joins the measures of the patches of tiles to the measures of the full map's patches.
//!
//! - `part`: `PatchOfTile`, a patch of a tile, which is a part of a patch of the full map
//! - `patch_numbering`: `PatchNumbering`, the runs of a numbering, which give a tile's patch its number in the full map
//! - `patch_joiner`: `PatchJoiner` adds one part after another, and has the patches of the full map
//! - `law`: joined patches, and closed patches of tiles, are the full map's patches; the numbers are its clump numbers
//!
//! specs/PatchNumbers.antt defines the number of a patch, specs/JoinedPatches.antt the measures of joined patches.
//! specs/TileGridLaw.antt states what they are for a full map that is cut into a grid of tiles.
//!
//! For example, patches 1 of tiles 1 and 2 are patch 1 of the full map. One has 3 cells in rows 0 to 1, the other 2
//! cells in row 2. Then patch 1 has 5 cells in rows 0 to 2.
#![tactic(auto)]

pub mod law;
pub mod part;
pub mod patch_joiner;
pub mod patch_numbering;
