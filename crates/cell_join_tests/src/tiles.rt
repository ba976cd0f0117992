//! Cuts maps into grids of tiles, and clumps them.

ghost use Rattle.std.specs.Prelude.{◌<◌, ◌≡◌};

use cell_clumps::clump::{Joining, clump_with};
use cell_core::map::CellMap;
use cell_core_test_maps::maps::{NULL_CATEGORY, categories_of_map, map_of_categories};
use cell_join_numbers::stretch::ConsecutiveClumps;
use cell_join_tiles::begun::begun_clump_counts_by_row;
use cell_join_tiles::border::{TileBorder, TileSide};
use cell_join_tiles::joiner::{JoinerFault, TileJoiner};
use std::alloc::Global;
use std::test::Fail;

// A map as a list of categories, row by row.
#[derive(Clone, Copy)]
pub(crate) struct Whole<'a> {
    pub(crate) categories: &'a [i32],
    pub(crate) cols: u32,
}

// A tile as a list of its cells' numbers, row by row, with its position in the full map and its part of the numbering.
#[derive(Drop)]
struct Numbered {
    numbers: Vec<i32>,
    top: u32,
    left: u32,
    cols: u32,
    part: u64,
}

// Returns the categories in a rectangle of a map.
fn cut_out(
    alloc: Global,
    whole: Whole<'_>,
    top: u32,
    left: u32,
    rows: u32,
    cols: u32,
) -> Result<Vec<i32>, Fail> {
    let mut cells = Vec::new(alloc);
    for row in 0..rows {
        for col in 0..cols {
            let place = (top.saturating_add(row) as usize)
                .saturating_mul(whole.cols as usize)
                .saturating_add(left.saturating_add(col) as usize);
            cells.push(
                whole
                    .categories
                    .get(place)
                    .copied()
                    .unwrap_or(NULL_CATEGORY),
            )?;
        }
    }
    Ok(cells)
}

// Returns the cells of a row or a column of a map, and their numbers, starting at one cell.
fn side_of(
    alloc: Global,
    map: &CellMap,
    numbers: &CellMap,
    row: Option<u32>,
    col: Option<u32>,
) -> Result<TileSide, Fail>
    requires { numbers.now.region ≡ map.now.region }
{
    let mut side = TileSide {
        cells: Vec::new(alloc),
        numbers: Vec::new(alloc),
    };
    for at_row in 0..map.region().rows() {
        for at_col in 0..map.region().cols() {
            if row.unwrap_or(at_row) == at_row && col.unwrap_or(at_col) == at_col {
                side.cells.push(map.cell(at_row, at_col))?;
                side.numbers.push(numbers.cell(at_row, at_col))?;
            }
        }
    }
    Ok(side)
}

// Returns the border of the tile with these categories, and its cells' numbers.
fn tile_of(
    alloc: Global,
    categories: &[i32],
    cols: u32,
    joining: Joining,
) -> Result<(TileBorder, Vec<i32>), Fail>
    requires { 0 < cols }
{
    let map = map_of_categories(alloc, categories, cols)?.ok_or("no map")?;
    let clumps = clump_with(alloc, &map, joining)?;
    let last_row = map.region().rows().saturating_sub(1);
    let last_col = map.region().cols().saturating_sub(1);
    let border = TileBorder {
        first: side_of(alloc, &map, &clumps, Some(0), None)?,
        last: side_of(alloc, &map, &clumps, Some(last_row), None)?,
        left: side_of(alloc, &map, &clumps, None, Some(0))?,
        right: side_of(alloc, &map, &clumps, None, Some(last_col))?,
        begun: begun_clump_counts_by_row(alloc, &clumps)?,
    };
    Ok((border, categories_of_map(alloc, &clumps)?))
}

// Returns the borders of the tiles in a row of tiles. Numbers the tiles after the previous tiles.
fn row_of_tiles(
    alloc: Global,
    whole: Whole<'_>,
    top: u32,
    rows: u32,
    widths: &[u32],
    joining: Joining,
    numbered: &mut Vec<Numbered>,
) -> Result<Vec<TileBorder>, Fail> {
    let mut tiles = Vec::new(alloc);
    let mut left: u32 = 0;
    for width in widths {
        if *width > 0 {
            let cells = cut_out(alloc, whole, top, left, rows, *width)?;
            let (border, numbers) = tile_of(alloc, &cells, *width, joining)?;
            tiles.push(border)?;
            numbered.push(Numbered {
                numbers,
                top,
                left,
                cols: *width,
                part: (numbered.len() as u64).saturating_add(1),
            })?;
        }
        left = left.saturating_add(*width);
    }
    Ok(tiles)
}

// Returns the full map's number for a tile's clump, from the runs of a numbering.
fn number_in(runs: &[ConsecutiveClumps], part: u64, clump: u64) -> u64 {
    for run in runs {
        if run.tile == part && run.first <= clump && clump <= run.last {
            return run.number.saturating_add(clump.saturating_sub(run.first));
        }
    }
    u64::MAX
}

// Writes the numbers of a tile's cells to their positions in the full map.
fn put_numbers(found: &mut [u64], cols: u32, tile: &Numbered, runs: &[ConsecutiveClumps]) {
    let mut at: u32 = 0;
    for number in tile.numbers.as_slice() {
        let row = tile.top.saturating_add(at / tile.cols.max(1));
        let col = tile.left.saturating_add(at % tile.cols.max(1));
        let place = (row as usize)
            .saturating_mul(cols as usize)
            .saturating_add(col as usize);
        let whole = match u64::try_from(*number) {
            Ok(clump) => number_in(runs, tile.part, clump),
            Err(_) => 0,
        };
        if let Some(cell) = found.get_mut(place) {
            *cell = whole;
        }
        at = at.saturating_add(1);
    }
}

// Converts an error of a joiner to a test failure.
fn joined(answer: Result<TileJoiner, JoinerFault>) -> Result<TileJoiner, Fail> {
    match answer {
        Ok(joiner) => Ok(joiner),
        Err(_) => Err(Fail::from("a row of tiles is refused")),
    }
}

/// Returns the numbers of all cells of a map, joined from a grid of tiles with these heights and widths, with 0 for
/// null, and the number of clumps.
pub(crate) fn joined_numbers(
    alloc: Global,
    whole: Whole<'_>,
    heights: &[u32],
    widths: &[u32],
    joining: Joining,
) -> Result<(Vec<u64>, u64), Fail> {
    let mut numbered = Vec::new(alloc);
    let mut joiner = TileJoiner::new(alloc, joining);
    let mut top: u32 = 0;
    for height in heights {
        let row = row_of_tiles(alloc, whole, top, *height, widths, joining, &mut numbered)?;
        joiner = joined(joiner.add(alloc, row))?;
        top = top.saturating_add(*height);
    }
    let all = joiner.finish(alloc)?;
    let mut found = vec![in alloc; 0; whole.categories.len()]?;
    for tile in &numbered {
        put_numbers(found.as_mut_slice(), whole.cols, tile, &all.runs);
    }
    Ok((found, all.clumps))
}
