//! Writes the frame of a map's patch numbers.

ghost use Rattle.std.specs.Prelude.{◌≡◌, OnOk, OnErr};
ghost use Rattle.cell_core_devices.specs.Blocks.{IsTextAppendedThroughBlock};
ghost use Rattle.rcell_pipe_frames.specs.Frames.{patch_numbers_frame};
ghost use Rattle.rcell_pipe_frames.specs.FrameBytes.{patch_numbers_frame_bytes};

use crate::bytes::push_eight_byte_number;
use crate::cells::{new_row_cell_and_byte_buffers, push_map_rows};
use crate::map_frame::push_row_and_column_counts;
use cell_core::block::OutputBlock;
use cell_core::map::CellMap;
use cell_core::memory::Memory;
use cell_core::sink::Sink;
use std::alloc::Global;

/// Writes the frame of a map's patch numbers, for the question at index `place`, from 0. Allocates all memory before
/// it writes the first byte.
pub fn push_patch_numbers_frame<W: Sink>(
    alloc: Global,
    out: &mut W,
    block: &mut OutputBlock,
    place: u64,
    numbers: &CellMap,
) -> Result<(), Memory>
    ensures ok { OnOk result (IsTextAppendedThroughBlock W.taken W.faults out.old block.old
        (patch_numbers_frame_bytes (patch_numbers_frame place numbers.now)) out.new block.new) }
    ensures err { OnErr result ((out.new ≡ out.old) × (block.new ≡ block.old)) }
{
    let (mut cells, mut bytes) = new_row_cell_and_byte_buffers(alloc, numbers)?;
    block.push(out, b"NUMB");
    push_eight_byte_number(out, block, place);
    push_row_and_column_counts(out, block, numbers.region());
    push_map_rows(
        out,
        block,
        numbers,
        cells.as_mut_slice(),
        bytes.as_mut_slice(),
    );
    Ok(())
}
