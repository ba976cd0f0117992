//! Joins rows of tiles from top to bottom.

ghost use Rattle.std.specs.Prelude.{ℕ, ◌≡◌, ◌≤◌, ◌^◌, ◌+◌, ◌++◌, ◌∷◌, [], List, IfErr, IfOk};
ghost use Rattle.cell_join_tiles.specs.Beginnings.{clump_count_of_tile_row};
ghost use Rattle.cell_join_tiles.specs.JoinedTiles.{JoinerHasJoinedTileRows, AreConsecutiveClumpsOfTiles, IsClumpCountOfTileGrid};
ghost use Rattle.cell_join_tiles.specs.Values.{TileBorderValue, values_of_tile_borders};
ghost use Rattle.cell_join_tiles.specs.parts.RowMarks.{TilesHaveRowCount, begun_clump_counts_of_tile_row};

use crate::border::TileBorder;
use crate::label_runs::consecutive_clumps_of_tiles;
use crate::marks::Mark;
use crate::meetings::add_label_pairs_of_adjacent_lines;
use crate::spans::LabelRange;
use crate::tile_rows::{
    PartlyJoinedTileRow, clump_count_plus_tile_row, common_row_count_of_tiles, join_tiles_of_row,
};
use cell_clumps::clump::Joining;
use cell_core::memory::Memory;
use cell_join_numbers::numbers::numbers_of_paired_labels;
use cell_join_numbers::stretch::ConsecutiveClumps;
use std::alloc::Global;
use std::marker::Model;

/// Why a row of tiles is not joined to the rows above.
#[derive(Clone, Copy, Debug, PartialEq, Eq)]
pub enum JoinerFault {
    /// The row's tiles do not all have the same number of rows.
    OtherRows,
    /// With the row's clumps, the total number of clumps does not fit in a `u64`.
    TooManyClumps,
    /// Memory ran out.
    Memory,
}

impl From<Memory> for JoinerFault {
    ghost use Rattle.std.specs.Prelude.{◌≡◌};
    ghost use Rattle.cell_join_tiles.specs.declared.joiner.JoinerFault.TheVariants.{Memory};

    ghost from_gives = { λ _ fault. fault ≡ Memory };

    fn from(_memory: Memory) -> JoinerFault {
        JoinerFault::Memory
    }
}

/// The clumps of the full map, described by the clumps of the tiles.
#[derive(Debug, Drop)]
pub struct FullMapNumbering {
    /// The clumps of the tiles in order, as runs with consecutive numbers in the full map.
    pub runs: Vec<ConsecutiveClumps>,
    /// The number of clumps in the full map.
    pub clumps: u64,
}

/// Tiles of a map, joined row by row from the top.
///
/// Uses 16 bytes for each pair of clumps that meet at a seam, and for each row of each tile in which clumps begin. If a
/// row of tiles has only one tile, uses 16 bytes for all of the tile's rows. Keeps only the last row of cells of the
/// borders.
#[derive(Drop)]
pub struct TileJoiner {
    joining: Joining,
    // The number of clumps in the tiles, which is the number of labels.
    clumps: u64,
    // The pairs of labels that meet at seams.
    pairs: Vec<(u64, u64)>,
    // The last row of cells.
    above: Vec<Option<Mark>>,
    // The labels of each tile.
    tiles: Vec<Vec<LabelRange>>,
}

impl Model for TileJoiner {
    ghost use Rattle.cell_join_tiles.specs.JoinedTiles.{TileJoinerValue};
    ghost use Rattle.cell_join_tiles.specs.parts.Spans.{TileLabelRangesFitInSixtyFourBits, labels_of_tile_ranges};

    ghost Value = { TileJoinerValue };

    ghost view = { λ t. record { joining = t.joining; clumps = t.clumps; pairs = t.pairs.items; above = t.above.items; tiles = labels_of_tile_ranges t.tiles.items } };

    ghost invariant = { λ t. TileLabelRangesFitInSixtyFourBits t.tiles.items };
}

impl TileJoiner {
    /// Creates a joiner without tiles. Allocates no memory.
    pub fn new(alloc: Global, joining: Joining) -> TileJoiner
        ensures joining { result.joining ≡ joining }
        ensures none { JoinerHasJoinedTileRows [] result }
    {
        TileJoiner {
            joining,
            clumps: 0,
            pairs: Vec::new(alloc),
            above: Vec::new(alloc),
            tiles: Vec::new(alloc),
        }
    }

    /// Adds one more row of tiles, given from the left.
    ///
    /// # Errors
    ///
    /// Returns a [`JoinerFault`] if the row cannot be joined.
    pub fn add(self, alloc: Global, row: Vec<TileBorder>) -> Result<TileJoiner, JoinerFault>
        ensures joining { IfOk result (λ more. more.joining ≡ self.joining) }
        ensures joined { IfOk result (λ more. (grid : List (List TileBorderValue))
            → JoinerHasJoinedTileRows grid self
            → JoinerHasJoinedTileRows (grid ++ values_of_tile_borders row.items ∷ []) more) }
        // If a row is rejected, the error is the row's own.
        ensures other_rows { IfErr result (λ fault. fault ≡ JoinerFault.OtherRows
            → (rows : ℕ) → TilesHaveRowCount rows (values_of_tile_borders row.items) → ⊥) }
        ensures many { IfErr result (λ fault. fault ≡ JoinerFault.TooManyClumps
            → 2 ^ 64 ≤ self.clumps + clump_count_of_tile_row
            (begun_clump_counts_of_tile_row (values_of_tile_borders row.items))) }
    {
        let borders = row.as_slice();
        let Some(rows) = common_row_count_of_tiles(borders) else {
            return Err(JoinerFault::OtherRows);
        };
        let TileJoiner {
            joining,
            clumps: base,
            pairs,
            above,
            tiles,
        } = self;
        let Some(clumps) = clump_count_plus_tile_row(base, borders) else {
            return Err(JoinerFault::TooManyClumps);
        };
        let from = PartlyJoinedTileRow {
            pairs,
            tiles,
            first: Vec::new(alloc),
            last: Vec::new(alloc),
            right: Vec::new(alloc),
        };
        let joined = join_tiles_of_row(alloc, joining, from, base, rows, borders)?;
        let PartlyJoinedTileRow {
            mut pairs,
            tiles,
            first,
            last,
            right: _,
        } = joined;
        // The seam is a single line over the full width, so corners where four tiles meet need no special case.
        add_label_pairs_of_adjacent_lines(&mut pairs, joining, &above, &first)?;
        Ok(TileJoiner {
            joining,
            clumps,
            pairs,
            above: last,
            tiles,
        })
    }

    /// Returns the number that each clump of each tile has in the full map, and the number of clumps in the full map.
    ///
    /// # Errors
    ///
    /// Returns [`Memory`] if memory runs out.
    pub fn finish(self, alloc: Global) -> Result<FullMapNumbering, Memory>
        ensures runs { IfOk result (λ joined. (grid : List (List TileBorderValue))
            → JoinerHasJoinedTileRows grid self
            → AreConsecutiveClumpsOfTiles self.joining grid joined.runs.items) }
        ensures clumps { IfOk result (λ joined. (grid : List (List TileBorderValue))
            → JoinerHasJoinedTileRows grid self
            → IsClumpCountOfTileGrid self.joining grid joined.clumps) }
    {
        let TileJoiner {
            joining: _,
            clumps,
            pairs,
            above: _,
            tiles,
        } = self;
        let sparse = numbers_of_paired_labels(alloc, &pairs)?;
        let runs = consecutive_clumps_of_tiles(alloc, &sparse, &tiles)?;
        let paired = sparse.paired.len();
        Ok(FullMapNumbering {
            runs,
            clumps: clumps.saturating_sub(paired as u64) + sparse.roots[paired],
        })
    }
}
