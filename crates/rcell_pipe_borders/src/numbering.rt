//! Numbers the patches of a grid of tiles.

ghost use Rattle.std.specs.Prelude.{◌≡◌, ◌+◌, ◌<◌, ◌^◌, ◌++◌, ◌∷◌, [], List, All, IfOk};
ghost use Rattle.cell_join_tiles.specs.Beginnings.{clump_count_of_tile_grid, clump_count_of_tile_row};
ghost use Rattle.cell_join_tiles.specs.JoinedBorders.{begun_clump_counts_of_grid};
ghost use Rattle.cell_join_tiles.specs.JoinedTiles.{JoinerHasJoinedTileRows, AreConsecutiveClumpsOfTiles, IsClumpCountOfTileGrid};
ghost use Rattle.cell_join_tiles.specs.Values.{TileBorderValue, values_of_tile_borders};
ghost use Rattle.cell_join_tiles.specs.parts.RowMarks.{begun_clump_counts_of_tile_row};
ghost use Rattle.rcell_pipe_borders.specs.BorderGrids.{borders_as_values};
ghost use Rattle.rcell_pipe_borders.specs.parts.RowCounts.{TilesHaveSameRowCount};

use cell_clumps::clump::Joining;
use cell_core::memory::Memory;
use cell_join_tiles::border::TileBorder;
use cell_join_tiles::joiner::{FullMapNumbering, JoinerFault, TileJoiner};
use std::alloc::Global;

// Joins one more row of tiles.
fn join_tile_row(
    alloc: Global,
    joiner: TileJoiner,
    row: Vec<TileBorder>,
) -> Result<TileJoiner, Memory>
    requires even { TilesHaveSameRowCount (values_of_tile_borders row.items) }
    requires few { joiner.clumps + clump_count_of_tile_row
        (begun_clump_counts_of_tile_row (values_of_tile_borders row.items)) < 2 ^ 64 }
    ensures joining { IfOk result (λ more. more.joining ≡ joiner.joining) }
    ensures joined { IfOk result (λ more. (grid : List (List TileBorderValue))
        → JoinerHasJoinedTileRows grid joiner
        → JoinerHasJoinedTileRows (grid ++ values_of_tile_borders row.items ∷ []) more) }
{
    match joiner.add(alloc, row) {
        Ok(more) => Ok(more),
        Err(fault) => match fault {
            JoinerFault::Memory => Err(Memory),
            JoinerFault::OtherRows => unreachable!(),
            JoinerFault::TooManyClumps => unreachable!(),
        },
    }
}

/// Returns the numbers of the patches of all tiles in the full map, and the number of patches of the full map.
pub fn number_patches_of_tiles(
    alloc: Global,
    joining: Joining,
    grid: Vec<Vec<TileBorder>>,
) -> Result<FullMapNumbering, Memory>
    requires even { All TilesHaveSameRowCount (borders_as_values grid.items) }
    requires few { clump_count_of_tile_grid (begun_clump_counts_of_grid
        (borders_as_values grid.items))
        < 2 ^ 64 }
    ensures runs { IfOk result
        (λ joined. AreConsecutiveClumpsOfTiles joining
        (borders_as_values grid.items) joined.runs.items) }
    ensures clumps { IfOk result
        (λ joined. IsClumpCountOfTileGrid joining (borders_as_values grid.items) joined.clumps) }
{
    let mut joiner = TileJoiner::new(alloc, joining);
    for row in grid {
        joiner = join_tile_row(alloc, joiner, row)?;
    }
    joiner.finish(alloc)
}
