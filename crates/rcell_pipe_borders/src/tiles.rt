//! Reads the borders of a grid of tiles.

ghost use Rattle.std.specs.Prelude.{◌≡◌, ◌+◌, ◌*◌, ◌<◌, ◌≤◌, ◌^◌, true, [], All, IfOk, IfNone, IfSome, OnOk, length};
ghost use Rattle.cell_join_tiles.specs.Beginnings.{clump_count_of_tile_grid};
ghost use Rattle.cell_join_tiles.specs.JoinedBorders.{begun_clump_counts_of_grid};
ghost use Rattle.cell_join_tiles.specs.Values.{value_of_tile_border, values_of_tile_borders};
ghost use Rattle.rcell_pipe_request.specs.RequestFields.{reading_repeated_n_times};
ghost use Rattle.rcell_pipe_request.specs.Feeds.{ReadsRequestFieldAndStaysOpen, ReadsWithErrorPosition, ReadsToEndWithErrorPosition, ReadsRequestFieldToSourceEnd};
ghost use Rattle.rcell_pipe_borders.specs.BorderGrids.{borders_as_values, tile_above_has_column_count, left_tiles_have_row_count, is_valid_tile_side_length, end_of_tile_grid_reading, last_row_of_tiles, next_tile_size_reading, tiles_with_next_tile_reading, tile_rows_with_next_row_reading, tile_border_reading, tile_connectivity_reading, tile_grid_size_reading, tile_grid_reading, tile_position_reading, tile_size_reading, column_count_of_tiles, row_count_of_tiles, row_count_of_tile_rows};
ghost use Rattle.rcell_pipe_borders.specs.parts.RowCounts.{TilesHaveSameRowCount};

use crate::border_checks::is_valid_border;
use crate::border_fields::read_border_fields;
use cell_clumps::clump::Joining;
use cell_join_tiles::border::TileBorder;
use cell_join_tiles::tile_rows::clump_count_plus_tile_row;
use rcell_pipe_frames::patches_frame::joining_code;
use rcell_pipe_request::error::{ErrorKind, FieldReadingStop, RequestStop};
use rcell_pipe_request::feed::{Feed, check_request_ends, read_u8, read_u32, read_u64};
use std::alloc::Global;
use std::io::Read;

// The largest number of rows or columns of a tile.
const LONGEST_TILE_SIDE: u32 = 65535;

// What the tiles of a row have in common: the connectivity of their patches, their first row in the full map, and the
// number of tiles in the rows above.
#[derive(Clone, Copy, Debug)]
struct TileRowStart {
    joining: Joining,
    first_row: u64,
    before: u32,
}

// Numbers of rows and columns: of the cells of a tile, or of the tiles of a grid.
#[derive(Clone, Copy, Debug)]
struct RowAndColumnCounts {
    rows: u32,
    cols: u32,
}

// Reads the connectivity of a tile's patches, which must be the connectivity of the request.
#[tactic(auto, unfolding(crate::specs::BorderGrids::tile_connectivity_reading))]
fn read_tile_connectivity<R: Read>(
    feed: &mut Feed<R>,
    joining: Joining,
) -> Result<(), FieldReadingStop>
    ensures { ReadsRequestFieldAndStaysOpen (λ done. done) feed.old result feed.new
        (tile_connectivity_reading joining) }
{
    let code = read_u8(feed)?;
    if code == joining_code(joining) {
        return Ok(());
    }
    Err(FieldReadingStop::Error(ErrorKind::OtherConnectivity))
}

// Reads a tile's first row and column in the full map, which must be these.
#[tactic(auto, unfolding(crate::specs::BorderGrids::tile_position_reading))]
fn read_tile_position<R: Read>(
    feed: &mut Feed<R>,
    first_row: u64,
    first_col: u64,
) -> Result<(), FieldReadingStop>
    ensures { ReadsRequestFieldAndStaysOpen (λ done. done) feed.old result feed.new
        (tile_position_reading first_row first_col) }
{
    let row = read_u64(feed)?;
    let col = read_u64(feed)?;
    if row == first_row && col == first_col {
        return Ok(());
    }
    Err(FieldReadingStop::Error(ErrorKind::OtherPlace))
}

fn is_valid_tile_side_length(count: u32) -> bool
    ensures { result ≡ is_valid_tile_side_length count }
{
    1 <= count && count <= LONGEST_TILE_SIDE
}

// Reads the size of a tile.
#[tactic(auto, unfolding(crate::specs::BorderGrids::tile_size_reading))]
fn read_tile_size<R: Read>(feed: &mut Feed<R>) -> Result<RowAndColumnCounts, FieldReadingStop>
    ensures reads { ReadsRequestFieldAndStaysOpen
        (λ size. (size.rows, size.cols)) feed.old result feed.new
        tile_size_reading }
    ensures few { IfOk result (λ size. size.rows ≤ 65535) }
    ensures narrow { IfOk result (λ size. size.cols ≤ 65535) }
{
    let rows = read_u32(feed)?;
    let cols = read_u32(feed)?;
    if is_valid_tile_side_length(rows) && is_valid_tile_side_length(cols) {
        return Ok(RowAndColumnCounts { rows, cols });
    }
    Err(FieldReadingStop::Error(ErrorKind::BadSize))
}

// Returns whether the tiles on the left, if any, have this number of rows.
fn left_tiles_have_row_count(row: &[TileBorder], rows: u32) -> bool
    ensures { result ≡ left_tiles_have_row_count (values_of_tile_borders row.now) rows }
{
    match row.first() {
        Some(tile) => tile.begun.len() == rows as usize,
        None => true,
    }
}

// Returns whether the tile above, if any, has this number of columns.
fn tile_above_has_column_count(above: &[TileBorder], col: usize, cols: u32) -> bool
    ensures { result ≡ tile_above_has_column_count (values_of_tile_borders above.now) col cols }
{
    match above.get(col) {
        Some(tile) => tile.first.cells.len() == cols as usize,
        None => true,
    }
}

// Reads the size of the next tile in a row of tiles.
#[tactic(auto, unfolding(crate::specs::BorderGrids::next_tile_size_reading))]
fn read_next_tile_size<R: Read>(
    feed: &mut Feed<R>,
    above: &[TileBorder],
    row: &[TileBorder],
) -> Result<RowAndColumnCounts, FieldReadingStop>
    ensures reads { ReadsRequestFieldAndStaysOpen
        (λ size. (size.rows, size.cols)) feed.old result feed.new
        (next_tile_size_reading (values_of_tile_borders above.now)
        (values_of_tile_borders row.now)) }
    ensures few { IfOk result (λ size. size.rows ≤ 65535) }
    ensures narrow { IfOk result (λ size. size.cols ≤ 65535) }
    ensures same { IfOk result (λ size. left_tiles_have_row_count
        (values_of_tile_borders row.now) size.rows
        ≡ true) }
{
    let size = read_tile_size(feed)?;
    if left_tiles_have_row_count(row, size.rows)
        && tile_above_has_column_count(above, row.len(), size.cols)
    {
        return Ok(size);
    }
    Err(FieldReadingStop::Error(ErrorKind::OtherSize))
}

// Reads the border of the next tile in a row of tiles, which begins at this column of the full map.
#[tactic(auto, unfolding(crate::specs::BorderGrids::tile_border_reading))]
fn read_tile_border<R: Read>(
    alloc: Global,
    feed: &mut Feed<R>,
    start: TileRowStart,
    first_col: u64,
    above: &[TileBorder],
    row: &[TileBorder],
) -> Result<TileBorder, FieldReadingStop>
    requires { first_col ≡ column_count_of_tiles (values_of_tile_borders row.now) }
    ensures reads { ReadsRequestFieldAndStaysOpen value_of_tile_border feed.old result feed.new
        (tile_border_reading start.joining start.first_row (values_of_tile_borders above.now)
        (values_of_tile_borders row.now)) }
    ensures few { IfOk result (λ border. length border.begun.items ≤ 65535) }
    ensures narrow { IfOk result (λ border. length border.first.cells.items ≤ 65535) }
    ensures same { IfOk result
        (λ border. left_tiles_have_row_count (values_of_tile_borders row.now)
        (length border.begun.items)
        ≡ true) }
{
    read_tile_connectivity(feed, start.joining)?;
    read_tile_position(feed, start.first_row, first_col)?;
    let size = read_next_tile_size(feed, above, row)?;
    let border = read_border_fields(alloc, feed, size.rows, size.cols)?;
    if is_valid_border(&border) {
        return Ok(border);
    }
    Err(FieldReadingStop::Error(ErrorKind::BadBorder))
}

// Reads one more tile of a row of tiles, which begins at this column of the full map. Returns the first column after the
// tile.
#[tactic(auto, unfolding(crate::specs::BorderGrids::tiles_with_next_tile_reading))]
fn read_next_tile<R: Read>(
    alloc: Global,
    feed: &mut Feed<R>,
    start: TileRowStart,
    first_col: u64,
    above: &[TileBorder],
    row: &mut Vec<TileBorder>,
) -> Result<u64, RequestStop>
    requires count { start.before + length (values_of_tile_borders row.old.items) < 2 ^ 32 }
    requires cols { first_col ≡ column_count_of_tiles (values_of_tile_borders row.old.items) }
    requires few { first_col ≤ 65535 * 4294967295 }
    ensures reads { ReadsWithErrorPosition (λ _. values_of_tile_borders row.new.items) feed.old
        result
        feed.new
        (tiles_with_next_tile_reading start.joining start.first_row start.before
        (values_of_tile_borders above.now)
        (values_of_tile_borders row.old.items)) }
    ensures cols { IfOk result
        (λ next. next ≡ column_count_of_tiles (values_of_tile_borders row.new.items)) }
    ensures narrow { IfOk result (λ next. next ≤ first_col + 65535) }
    ensures few { OnOk result (row_count_of_tiles (values_of_tile_borders row.new.items) ≤ 65535) }
    ensures count { OnOk result (length (values_of_tile_borders row.new.items)
        ≡ length (values_of_tile_borders row.old.items) + 1) }
    ensures even { OnOk result (TilesHaveSameRowCount (values_of_tile_borders row.old.items)
        → TilesHaveSameRowCount (values_of_tile_borders row.new.items)) }
{
    let tiles = start.before + row.len() as u32;
    let border = match read_tile_border(alloc, feed, start, first_col, above, row.as_slice()) {
        Ok(border) => border,
        Err(stop) => return Err(stop.at(tiles, 0)),
    };
    let next = first_col + border.first.cells.len() as u64;
    row.push(border)?;
    Ok(next)
}

// Reads a row of `cols` tiles.
fn read_tile_row<R: Read>(
    alloc: Global,
    feed: &mut Feed<R>,
    start: TileRowStart,
    above: &[TileBorder],
    cols: u32,
) -> Result<Vec<TileBorder>, RequestStop>
    requires { start.before + cols < 2 ^ 32 }
    ensures reads { ReadsWithErrorPosition (λ row. values_of_tile_borders row.items) feed.old result
        feed.new
        (reading_repeated_n_times (tiles_with_next_tile_reading start.joining start.first_row
        start.before (values_of_tile_borders above.now)) [] cols) }
    ensures few { IfOk result
        (λ row. row_count_of_tiles (values_of_tile_borders row.items) ≤ 65535) }
    ensures even { IfOk result (λ row. TilesHaveSameRowCount (values_of_tile_borders row.items)) }
{
    let mut row = Vec::new(alloc);
    let mut first_col = 0;
    for i in 0..cols {
        match read_next_tile(alloc, feed, start, first_col, above, &mut row) {
            Ok(next) => first_col = next,
            Err(stop) => return Err(stop),
        }
    }
    Ok(row)
}

// Returns the last row of tiles, or no tiles if there is none.
fn last_row_of_tiles(grid: &[Vec<TileBorder>]) -> &[TileBorder]
    ensures { values_of_tile_borders result.now ≡ last_row_of_tiles (borders_as_values grid.now) }
{
    match grid.last() {
        Some(row) => row.as_slice(),
        None => &[],
    }
}

// Returns the number of rows of a row of tiles.
fn row_count_of_tiles(row: &[TileBorder]) -> u64
    ensures { result ≡ row_count_of_tiles (values_of_tile_borders row.now) }
{
    match row.first() {
        Some(tile) => tile.begun.len() as u64,
        None => 0,
    }
}

// Reads one more row of `cols` tiles. Returns the row of the full map after these tiles.
#[tactic(auto, unfolding(crate::specs::BorderGrids::tile_rows_with_next_row_reading))]
fn read_next_tile_row<R: Read>(
    alloc: Global,
    feed: &mut Feed<R>,
    start: TileRowStart,
    cols: u32,
    grid: &mut Vec<Vec<TileBorder>>,
) -> Result<u64, RequestStop>
    requires before { start.before ≡ length (borders_as_values grid.old.items) * cols }
    requires count { start.before + cols < 2 ^ 32 }
    requires rows { start.first_row ≡ row_count_of_tile_rows (borders_as_values grid.old.items) }
    requires few { start.first_row ≤ 65535 * 4294967295 }
    ensures reads { ReadsWithErrorPosition (λ _. borders_as_values grid.new.items) feed.old result
        feed.new
        (tile_rows_with_next_row_reading start.joining cols (borders_as_values grid.old.items)) }
    ensures rows { IfOk result
        (λ next. next ≡ row_count_of_tile_rows (borders_as_values grid.new.items)) }
    ensures few { IfOk result (λ next. next ≤ start.first_row + 65535) }
    ensures count { OnOk result (length (borders_as_values grid.new.items)
        ≡ length (borders_as_values grid.old.items) + 1) }
    ensures even { OnOk result (All TilesHaveSameRowCount (borders_as_values grid.old.items)
        → All TilesHaveSameRowCount (borders_as_values grid.new.items)) }
{
    let row = match read_tile_row(alloc, feed, start, last_row_of_tiles(grid.as_slice()), cols) {
        Ok(row) => row,
        Err(stop) => return Err(stop),
    };
    let next = start.first_row + row_count_of_tiles(row.as_slice());
    grid.push(row)?;
    Ok(next)
}

// Reads the rows of tiles.
fn read_tile_rows<R: Read>(
    alloc: Global,
    feed: &mut Feed<R>,
    joining: Joining,
    rows: u32,
    cols: u32,
) -> Result<Vec<Vec<TileBorder>>, RequestStop>
    requires { rows * cols < 2 ^ 32 }
    ensures reads { ReadsWithErrorPosition (λ grid. borders_as_values grid.items) feed.old result
        feed.new
        (reading_repeated_n_times (tile_rows_with_next_row_reading joining cols) [] rows) }
    ensures even { IfOk result (λ grid. All TilesHaveSameRowCount (borders_as_values grid.items)) }
{
    let mut grid = Vec::new(alloc);
    let mut first_row = 0;
    for i in 0..rows {
        let start = TileRowStart {
            joining,
            first_row,
            before: i * cols,
        };
        match read_next_tile_row(alloc, feed, start, cols, &mut grid) {
            Ok(next) => first_row = next,
            Err(stop) => return Err(stop),
        }
    }
    Ok(grid)
}

// Reads the numbers of rows and columns of tiles.
#[tactic(auto, unfolding(crate::specs::BorderGrids::tile_grid_size_reading))]
fn read_tile_grid_size<R: Read>(feed: &mut Feed<R>) -> Result<RowAndColumnCounts, FieldReadingStop>
    ensures reads { ReadsRequestFieldAndStaysOpen
        (λ counts. (counts.rows, counts.cols)) feed.old result feed.new
        tile_grid_size_reading }
    ensures few { IfOk result (λ counts. counts.rows * counts.cols < 2 ^ 32) }
{
    let rows = read_u32(feed)?;
    let cols = read_u32(feed)?;
    match rows.checked_mul(cols) {
        Some(tiles) => {
            if 1 <= tiles {
                return Ok(RowAndColumnCounts { rows, cols });
            }
            Err(FieldReadingStop::Error(ErrorKind::BadTileCount))
        }
        None => Err(FieldReadingStop::Error(ErrorKind::BadTileCount)),
    }
}

// Returns the number of patches of all tiles, unless it does not fit in a `u64`.
fn patch_count_of_tiles(grid: &[Vec<TileBorder>]) -> Option<u64>
    ensures some { IfSome result
        (λ patches. patches ≡ clump_count_of_tile_grid (begun_clump_counts_of_grid
        (borders_as_values grid.now))) }
    ensures none { IfNone result (2 ^ 64 ≤ clump_count_of_tile_grid
        (begun_clump_counts_of_grid (borders_as_values grid.now))) }
{
    let mut patches = 0;
    for row in grid {
        patches = clump_count_plus_tile_row(patches, row.as_slice())?;
    }
    Some(patches)
}

// Checks that the tiles have fewer than 2^64 patches, and that no bytes follow.
#[tactic(auto, unfolding(crate::specs::BorderGrids::end_of_tile_grid_reading))]
fn check_end_of_tile_grid<R: Read>(
    feed: &mut Feed<R>,
    grid: &[Vec<TileBorder>],
) -> Result<(), FieldReadingStop>
    ensures reads { ReadsRequestFieldToSourceEnd (λ done. done) feed.old result feed.new
        (end_of_tile_grid_reading (borders_as_values grid.now)) }
    ensures few { OnOk result (clump_count_of_tile_grid (begun_clump_counts_of_grid
        (borders_as_values grid.now)) < 2 ^ 64) }
{
    match patch_count_of_tiles(grid) {
        Some(_) => check_request_ends(feed),
        None => Err(FieldReadingStop::Error(ErrorKind::TooManyPatches)),
    }
}

/// Reads the borders of a grid of tiles with this connectivity, to the end of the source. Memory grows only with the
/// bytes that have arrived.
#[tactic(auto, unfolding(crate::specs::BorderGrids::tile_grid_reading))]
pub fn read_tile_grid<R: Read>(
    alloc: Global,
    feed: &mut Feed<R>,
    joining: Joining,
) -> Result<Vec<Vec<TileBorder>>, RequestStop>
    ensures reads { ReadsToEndWithErrorPosition
        (λ grid. borders_as_values grid.items) feed.old result feed.new
        (tile_grid_reading joining) }
    ensures even { IfOk result (λ grid. All TilesHaveSameRowCount (borders_as_values grid.items)) }
    ensures few { IfOk result
        (λ grid. clump_count_of_tile_grid (begun_clump_counts_of_grid
        (borders_as_values grid.items))
        < 2 ^ 64) }
{
    let counts = match read_tile_grid_size(feed) {
        Ok(counts) => counts,
        Err(stop) => return Err(stop.at(0, 0)),
    };
    let grid = match read_tile_rows(alloc, feed, joining, counts.rows, counts.cols) {
        Ok(grid) => grid,
        Err(stop) => return Err(stop),
    };
    match check_end_of_tile_grid(feed, grid.as_slice()) {
        Ok(()) => Ok(grid),
        Err(stop) => Err(stop.at(counts.rows * counts.cols, 0)),
    }
}
