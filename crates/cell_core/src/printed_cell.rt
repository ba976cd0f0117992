//! Prints cells.

ghost use Rattle.std.specs.Prelude.{[]};
ghost use Rattle.cell_core_devices.specs.Blocks.{IsTextAppendedThroughBlock};
ghost use Rattle.cell_core.specs.Text.{cell_text};

use cell_core_devices::block::OutputBlock;
use cell_core_devices::sink::Sink;
use cell_core_values::cell::Cell;
use itoa::Buffer;

/// Writes a cell: its category in decimal, or the null text. Does not allocate.
pub fn write_cell<W: Sink>(out: &mut W, block: &mut OutputBlock, cell: Cell, null_text: &[u8])
    ensures { IsTextAppendedThroughBlock W.taken W.faults out.old block.old
        (cell_text null_text.now cell)
        out.new block.new }
{
    match cell.get() {
        None => block.push(out, null_text),
        Some(category) => block.push(out, Buffer::new().format(category).as_bytes()),
    }
}
