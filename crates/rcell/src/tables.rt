//! Writes the output of r.stats: tables and cells.

ghost use Rattle.std.specs.Prelude.{◌≡◌, ◌<◌, ◌≤◌, All, length, OnOk, OnErr, IfSome};
ghost use Rattle.std.specs.Option.{option_map};
ghost use Rattle.cell_core_devices.specs.Blocks.{IsTextAppendedThroughBlock};
ghost use Rattle.rcell.specs.Output.{stats_text, table_format_of_stats_options};

use cell_core::block::OutputBlock;
use cell_core::memory::Memory;
use cell_core::shelf::Shelf;
use cell_core::sink::Sink;
use cell_stats::combination::Combo;
use cell_stats::format::TableFormat;
use cell_stats::printed_cells::{CellWalkMemory, write_line_for_each_cell};
use cell_stats::printing::write_table;
use cell_stats::tallying::tally;
use rcell_script::statement::StatsOptions;
use std::alloc::Global;

// Returns the format that the options specify.
fn table_format_of_stats_options<'a>(options: &'a StatsOptions) -> TableFormat<'a>
    ensures { result ≡ table_format_of_stats_options options.now }
{
    TableFormat::new(
        options.separator,
        options.null_text.bytes(),
        options.labels,
        options.counts,
    )
}

// Returns the combination after which the table continues, if any.
fn combination_to_continue_after<'a>(options: &'a StatsOptions) -> Option<&'a Combo>
    ensures { option_map (λ k. k.now) result ≡ options.now.after }
{
    match &options.after {
        Some(combo) => Some(combo),
        None => None,
    }
}

/// Writes the output of r.stats. Allocates all memory before it writes the first byte.
///
/// # Errors
///
/// Returns `Memory` if memory runs out. Nothing is then written.
pub fn write_stats<W: Sink>(
    alloc: Global,
    shelf: &Shelf,
    places: &[usize],
    options: &StatsOptions,
    block: &mut OutputBlock,
    out: &mut W,
) -> Result<(), Memory>
    requires within { All (λ place. place < length shelf.now.maps) places.now }
    requires some { 1 ≤ length places.now }
    requires most { length places.now ≤ 16 }
    requires width { IfSome options.now.after (λ k. length k ≡ length places.now) }
    ensures ok { OnOk result
        (IsTextAppendedThroughBlock W.taken W.faults out.old block.old
        (stats_text shelf.now places.now options.now)
        out.new block.new) }
    ensures err { OnErr result ((out.new ≡ out.old) × (block.new ≡ block.old)) }
{
    let format = table_format_of_stats_options(options);
    if options.cells {
        let Ok(walk) = CellWalkMemory::new(alloc, shelf, places) else {
            return Err(Memory);
        };
        write_line_for_each_cell(out, block, walk, shelf, places, options.skip, &format);
        return Ok(());
    }
    let Ok(table) = tally(alloc, shelf, places, options.skip) else {
        return Err(Memory);
    };
    let after = combination_to_continue_after(options);
    write_table(out, block, &table, after, shelf, places, &format);
    Ok(())
}
