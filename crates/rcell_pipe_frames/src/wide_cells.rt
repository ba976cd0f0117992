//! Writes the cells of a row in four bytes each, several cells at a time.

ghost use Rattle.std.specs.Prelude.{◌≡◌, ◌*◌, length, flat_map};
ghost use Rattle.cell_core_devices.specs.Blocks.{IsTextAppendedThroughBlock};
ghost use Rattle.rcell_pipe_frames.specs.FrameBytes.{four_bytes_of_cell};

use crate::bytes::cell_as_four_bytes;
use cell_core::block::OutputBlock;
use cell_core::cell::Cell;
use cell_core::sink::Sink;

// Number of cells whose bytes are gathered before they are written.
const CELLS_PER_WRITE: usize = 256;

/// The size of the buffer that [`push_four_byte_row`] needs.
pub(crate) const FOUR_BYTE_ROW_BUFFER_BYTES: usize = 4 * CELLS_PER_WRITE;

// Writes the four bytes of each cell into a slice.
fn write_cells_in_four_bytes(cells: &[Cell], bytes: &mut [u8])
    requires { length bytes.old ≡ 4 * length cells.now }
    ensures width { length bytes.new ≡ length bytes.old }
    ensures value { bytes.new ≡ flat_map four_bytes_of_cell cells.now }
{
    for i in 0..cells.len() {
        bytes[4 * i..4 * i + 4].copy_from_slice(&cell_as_four_bytes(cells[i]));
    }
}

/// Writes the cells of a row in four bytes each. One push of many bytes costs less than a push of each cell.
pub(crate) fn push_four_byte_row<W: Sink>(
    out: &mut W,
    block: &mut OutputBlock,
    cells: &[Cell],
    bytes: &mut [u8],
)
    requires { length bytes.old ≡ 1024 }
    ensures width { length bytes.new ≡ length bytes.old }
    ensures pushed { IsTextAppendedThroughBlock W.taken W.faults out.old block.old
        (flat_map four_bytes_of_cell cells.now) out.new block.new }
{
    let mut at = 0;
    'parts: while at < cells.len() {
        let width = CELLS_PER_WRITE.min(cells.len() - at);
        let part = &mut bytes[..4 * width];
        write_cells_in_four_bytes(&cells[at..at + width], part);
        block.push(out, part);
        at += width;
    }
}
