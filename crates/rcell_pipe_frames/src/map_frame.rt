//! Writes the frames of maps.

ghost use Rattle.std.specs.Prelude.{◌≡◌, ◌++◌, OnOk, OnErr};
ghost use Rattle.cell_core_devices.specs.Blocks.{IsTextAppendedThroughBlock};
ghost use Rattle.rcell_pipe_frames.specs.Frames.{grid_frame};
ghost use Rattle.rcell_pipe_frames.specs.FrameBytes.{eight_bytes_of_number, grid_frame_head_bytes, grid_frame_bytes};

use crate::bytes::{push_eight_byte_number, push_length_and_text};
use crate::cells::{new_row_cell_and_byte_buffers, push_map_rows};
use crate::coordinates::{push_region_sides, region_side_texts};
use cell_core::block::OutputBlock;
use cell_core::map::CellMap;
use cell_core::memory::Memory;
use cell_core::region::Region;
use cell_core::sink::Sink;
use std::alloc::Global;

// Writes the head of a map's frame.
fn push_grid_frame_head<W: Sink>(
    out: &mut W,
    block: &mut OutputBlock,
    line: u64,
    null_text: &[u8],
    name: &[u8],
)
    ensures { IsTextAppendedThroughBlock W.taken W.faults out.old block.old
        (grid_frame_head_bytes line null_text.now name.now)
        out.new block.new }
{
    block.push(out, b"GRID");
    push_eight_byte_number(out, block, line);
    push_length_and_text(out, block, null_text);
    push_length_and_text(out, block, name);
}

/// Writes the numbers of rows and columns.
pub(crate) fn push_row_and_column_counts<W: Sink>(
    out: &mut W,
    block: &mut OutputBlock,
    region: Region,
)
    ensures { IsTextAppendedThroughBlock W.taken W.faults out.old block.old
        (eight_bytes_of_number region.rows ++ eight_bytes_of_number region.cols) out.new block.new }
{
    push_eight_byte_number(out, block, region.rows() as u64);
    push_eight_byte_number(out, block, region.cols() as u64);
}

/// Writes the frame of a map. Allocates all memory before it writes the first byte.
pub fn push_grid_frame<W: Sink>(
    alloc: Global,
    out: &mut W,
    block: &mut OutputBlock,
    line: u64,
    null_text: &[u8],
    name: &[u8],
    grid: &CellMap,
) -> Result<(), Memory>
    ensures ok { OnOk result (IsTextAppendedThroughBlock W.taken W.faults out.old block.old
        (grid_frame_bytes (grid_frame line null_text.now name.now grid.now)) out.new block.new) }
    ensures err { OnErr result ((out.new ≡ out.old) × (block.new ≡ block.old)) }
{
    let region = grid.region();
    let (mut cells, mut bytes) = new_row_cell_and_byte_buffers(alloc, grid)?;
    let Ok(edges) = region_side_texts(alloc, region) else {
        return Err(Memory);
    };
    push_grid_frame_head(out, block, line, null_text, name);
    push_region_sides(out, block, &edges);
    push_row_and_column_counts(out, block, region);
    push_map_rows(out, block, grid, cells.as_mut_slice(), bytes.as_mut_slice());
    Ok(())
}
