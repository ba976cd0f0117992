//! Numbers clumps, given the pairs of labels that meet at seams. Proves laws about maps that are cut into tiles.
//!
//! The clumps of all tiles are labelled 0, 1, 2 and so on, in the order of their first cells. A pair of labels means
//! that two of them are one clump of the full map. Only paired labels are held, with 24 bytes each; the numbers of all
//! other labels follow by counting.
//!
//! - `numbers`: `numbers_of_paired_labels` computes `SparseNumbers` from pairs
//! - `sparse`: the paired labels, each once and in order; `place_of` counts the paired labels before a label
//! - `stretch`: `ConsecutiveClumps`, a run: clumps of a tile with consecutive numbers in the full map
//! - `union_find`: a table of the paired labels' nodes, two of which can be united
//! - `law`: `paired_labels_give_clump_numbers`: the numbers equal the full map's clump numbers
//! - `tiles_law`: laws about tiles
//!
//! The main laws, in `tiles_law`, concern rectangles that cover each cell once:
//! - `merged_tile_tables_are_full_table`: the merge of the tables of the tiles is the table of the full map, and no
//!   other list is
//! - `paths_are_chains_of_tile_links`: two cells are in the same clump of the full map if and only if a chain of links
//!   leads from one to the other; a link is a path within a tile, or a step across a seam
//!
//! specs/Parts.antt defines tiles, specs/Merging.antt merges, and specs/AreaParts.antt links.
//!
//! This crate is tested through `cell_join_tiles`.
#![tactic(auto)]

pub mod law;
pub mod numbers;
pub mod sparse;
pub mod stretch;
pub mod tiles_law;
pub mod union_find;
