//! Writes the frame of a map's border.

ghost use Rattle.std.specs.Prelude.{◌<◌, ◌++◌, ◌^◌, All, flat_map};
ghost use Rattle.std.specs.Int.{w32, to_le_bytes};
ghost use Rattle.cell_core_devices.specs.Blocks.{IsTextAppendedThroughBlock};
ghost use Rattle.cell_join_tiles.specs.Values.{value_of_tile_side, value_of_tile_border};
ghost use Rattle.rcell_pipe_frames.specs.FrameBytes.{border_fields_bytes, border_frame_bytes, tile_position_bytes, tile_side_bytes};

use crate::bytes::{push_cells_in_four_bytes, push_eight_byte_number};
use crate::patches_frame::push_joining_code;
use cell_clumps::clump::Joining;
use cell_core::block::OutputBlock;
use cell_core::region::Region;
use cell_core::sink::Sink;
use cell_join_tiles::border::{TileBorder, TileSide};

/// The position of a map in the full map: the first row and column, counted from 0.
#[derive(Clone, Copy, Debug)]
pub struct FullMapPosition {
    pub first_row: u64,
    pub first_col: u64,
}

// Writes a number in four bytes.
fn push_four_byte_number<W: Sink>(out: &mut W, block: &mut OutputBlock, n: u32)
    ensures { IsTextAppendedThroughBlock W.taken W.faults out.old block.old (to_le_bytes w32 n)
        out.new block.new }
{
    block.push(out, &n.to_le_bytes());
}

// Writes counts in four bytes each.
fn push_counts_in_four_bytes<W: Sink>(out: &mut W, block: &mut OutputBlock, counts: &[u64])
    requires { All (λ count. count < 2 ^ 32) counts.now }
    ensures { IsTextAppendedThroughBlock W.taken W.faults out.old block.old
        (flat_map (to_le_bytes w32) counts.now) out.new block.new }
{
    for count in counts {
        push_four_byte_number(out, block, *count as u32);
    }
}

// Writes the first row and column in eight bytes each.
fn push_tile_position<W: Sink>(out: &mut W, block: &mut OutputBlock, position: FullMapPosition)
    ensures { IsTextAppendedThroughBlock W.taken W.faults out.old block.old
        (tile_position_bytes position.first_row position.first_col) out.new block.new }
{
    push_eight_byte_number(out, block, position.first_row);
    push_eight_byte_number(out, block, position.first_col);
}

// Writes the numbers of rows and columns in four bytes each.
fn push_size_in_four_bytes<W: Sink>(out: &mut W, block: &mut OutputBlock, region: Region)
    ensures { IsTextAppendedThroughBlock W.taken W.faults out.old block.old
        (to_le_bytes w32 region.rows ++ to_le_bytes w32 region.cols) out.new block.new }
{
    push_four_byte_number(out, block, region.rows());
    push_four_byte_number(out, block, region.cols());
}

// Writes the cells of a side, then their numbers.
fn push_tile_side<W: Sink>(out: &mut W, block: &mut OutputBlock, side: &TileSide)
    ensures { IsTextAppendedThroughBlock W.taken W.faults out.old block.old
        (tile_side_bytes (value_of_tile_side side.now)) out.new block.new }
{
    push_cells_in_four_bytes(out, block, &side.cells);
    push_cells_in_four_bytes(out, block, &side.numbers);
}

// Writes the four sides of a tile, and the counts by row.
fn push_border_fields<W: Sink>(out: &mut W, block: &mut OutputBlock, border: &TileBorder)
    requires { All (λ count. count < 2 ^ 32) border.now.begun.items }
    ensures { IsTextAppendedThroughBlock W.taken W.faults out.old block.old
        (border_fields_bytes (value_of_tile_border border.now)) out.new block.new }
{
    push_tile_side(out, block, &border.first);
    push_tile_side(out, block, &border.last);
    push_tile_side(out, block, &border.left);
    push_tile_side(out, block, &border.right);
    push_counts_in_four_bytes(out, block, &border.begun);
}

/// Writes the frame of the border of a map with this region, whose patches have this connectivity, for the question at
/// index `place`, from 0.
pub fn push_border_frame<W: Sink>(
    out: &mut W,
    block: &mut OutputBlock,
    place: u64,
    joining: Joining,
    position: FullMapPosition,
    region: Region,
    border: &TileBorder,
)
    requires { All (λ count. count < 2 ^ 32) border.now.begun.items }
    ensures { IsTextAppendedThroughBlock W.taken W.faults out.old block.old
        (border_frame_bytes (record {
          question = place;
          joining = joining;
          first_row = position.first_row;
          first_col = position.first_col;
          rows = region.rows;
          cols = region.cols;
          border = value_of_tile_border border.now;
        })) out.new block.new }
{
    block.push(out, b"BORD");
    push_eight_byte_number(out, block, place);
    push_joining_code(out, block, joining);
    push_tile_position(out, block, position);
    push_size_in_four_bytes(out, block, region);
    push_border_fields(out, block, border);
}
