//! Writes numbers, texts and cells as bytes.

ghost use Rattle.std.specs.Prelude.{◌≡◌, ◌≤◌, flat_map};
ghost use Rattle.cell_core_devices.specs.Blocks.{IsTextAppendedThroughBlock};
ghost use Rattle.cell_core_values.specs.Cell.{stored_number_of_cell};
ghost use Rattle.rcell_pipe_frames.specs.FrameBytes.{one_if_true_else_zero, eight_bytes_of_number, length_and_text_bytes, four_bytes_of_cell};

use cell_core::block::OutputBlock;
use cell_core::cell::Cell;
use cell_core::sink::Sink;

// Returns the number that encodes a cell: its category, or the smallest `i32` for null.
#[inline(always)]
fn number_encoding_cell(cell: Cell) -> i32
    ensures { result ≡ stored_number_of_cell cell }
{
    match cell.get() {
        Some(category) => category,
        None => i32::MIN,
    }
}

/// Returns 1 for true and 0 for false.
pub fn one_if_true_else_zero(is_so: bool) -> u8
    ensures value { result ≡ one_if_true_else_zero is_so }
    ensures most { result ≤ 1 }
{
    if is_so { 1 } else { 0 }
}

/// Writes a number in eight bytes.
pub fn push_eight_byte_number<W: Sink>(out: &mut W, block: &mut OutputBlock, n: u64)
    ensures { IsTextAppendedThroughBlock W.taken W.faults out.old block.old
        (eight_bytes_of_number n) out.new block.new }
{
    block.push(out, &n.to_le_bytes());
}

/// Writes a text's length, then the text.
pub fn push_length_and_text<W: Sink>(out: &mut W, block: &mut OutputBlock, text: &[u8])
    ensures { IsTextAppendedThroughBlock W.taken W.faults out.old block.old
        (length_and_text_bytes text.now) out.new block.new }
{
    push_eight_byte_number(out, block, text.len() as u64);
    block.push(out, text);
}

/// Returns the four bytes that encode a cell.
#[inline(always)]
pub(crate) fn cell_as_four_bytes(cell: Cell) -> [u8; 4]
    ensures { result ≡ four_bytes_of_cell cell }
{
    number_encoding_cell(cell).to_le_bytes()
}

/// Writes a cell in four bytes.
#[inline(always)]
pub(crate) fn push_cell_in_four_bytes<W: Sink>(out: &mut W, block: &mut OutputBlock, cell: Cell)
    ensures { IsTextAppendedThroughBlock W.taken W.faults out.old block.old
        (four_bytes_of_cell cell) out.new block.new }
{
    block.push(out, &cell_as_four_bytes(cell));
}

/// Writes cells in four bytes each.
pub fn push_cells_in_four_bytes<W: Sink>(out: &mut W, block: &mut OutputBlock, cells: &[Cell])
    ensures { IsTextAppendedThroughBlock W.taken W.faults out.old block.old
        (flat_map four_bytes_of_cell cells.now) out.new block.new }
{
    for cell in cells {
        push_cell_in_four_bytes(out, block, *cell);
    }
}
