//! Writes the options of a statement in a plan.

ghost use Rattle.std.specs.Prelude.{◌≡◌, ◌≤◌, [], ◌∷◌, flat_map};
ghost use Rattle.cell_core_devices.specs.Blocks.{IsTextAppendedThroughBlock};
ghost use Rattle.rcell_pipe_frames.specs.FrameBytes.{length_and_text_bytes};
ghost use Rattle.rcell_plan_response.specs.MapNames.{name_of_map_at_place};
ghost use Rattle.rcell_plan_response.specs.PlanOptions.{skip_flag, stats_option_flags, command_option_flags, input_maps_of_command, after_option_cells_of_command, combination_of_after_option, input_maps_bytes, after_option_bytes, command_options_bytes};

use cell_core::block::OutputBlock;
use cell_core::cell::Cell;
use cell_core::name::Names;
use cell_core::sink::Sink;
use cell_stats_combinations::combination::Combo;
use cell_stats_combinations::skip::Skip;
use rcell_pipe_frames::bytes::{
    one_if_true_else_zero, push_cells_in_four_bytes, push_eight_byte_number, push_length_and_text,
};
use rcell_script::statement::{Command, StatsOptions};

/// Returns the name of the map at index `place`, or an empty name if there is none.
pub(crate) fn name_of_map_at_place<'a>(names: &'a Names, place: usize) -> &'a [u8]
    ensures { result.now ≡ name_of_map_at_place names.now place }
{
    if place < names.len() {
        names.name(place).bytes()
    } else {
        b""
    }
}

fn skip_flag(skip: Skip) -> u8
    ensures value { result ≡ skip_flag skip }
    ensures most { result ≤ 16 }
{
    match skip {
        Skip::Nothing => 0,
        Skip::AnyNull => 8,
        Skip::AllNull => 16,
    }
}

fn stats_option_flags(options: &StatsOptions) -> u8
    ensures { result ≡ stats_option_flags options.now }
{
    let counts = one_if_true_else_zero(options.counts);
    let labels = one_if_true_else_zero(options.labels);
    let cells = one_if_true_else_zero(options.cells);
    counts + 2 * labels + 4 * cells + skip_flag(options.skip)
}

fn command_option_flags(command: &Command) -> u8
    ensures { result ≡ command_option_flags command.now }
{
    match command {
        Command::Stats { options, .. } => stats_option_flags(options),
        _ => 0,
    }
}

fn push_each_map_name<W: Sink>(
    out: &mut W,
    block: &mut OutputBlock,
    names: &Names,
    places: &[usize],
)
    ensures { IsTextAppendedThroughBlock W.taken W.faults out.old block.old
        (flat_map (λ place. length_and_text_bytes
        (name_of_map_at_place names.now place)) places.now)
        out.new block.new }
{
    for place in places {
        push_length_and_text(out, block, name_of_map_at_place(names, *place));
    }
}

fn push_count_and_map_names<W: Sink>(
    out: &mut W,
    block: &mut OutputBlock,
    names: &Names,
    places: &[usize],
)
    ensures { IsTextAppendedThroughBlock W.taken W.faults out.old block.old
        (input_maps_bytes names.now places.now)
        out.new block.new }
{
    push_eight_byte_number(out, block, places.len() as u64);
    push_each_map_name(out, block, names, places);
}

fn push_count_one_and_map_name<W: Sink>(
    out: &mut W,
    block: &mut OutputBlock,
    names: &Names,
    place: usize,
)
    ensures { IsTextAppendedThroughBlock W.taken W.faults out.old block.old
        (input_maps_bytes names.now (place
        ∷ []))
        out.new block.new }
{
    push_eight_byte_number(out, block, 1);
    push_length_and_text(out, block, name_of_map_at_place(names, place));
}

fn push_input_maps<W: Sink>(out: &mut W, block: &mut OutputBlock, names: &Names, command: &Command)
    ensures { IsTextAppendedThroughBlock W.taken W.faults out.old block.old
        (input_maps_bytes names.now (input_maps_of_command command.now)) out.new block.new }
{
    match command {
        Command::Mapcalc { .. } => push_count_and_map_names(out, block, names, &[]),
        Command::Reclass { place, .. } => push_count_one_and_map_name(out, block, names, *place),
        Command::Clump { place, .. } => push_count_one_and_map_name(out, block, names, *place),
        Command::Stats { places, .. } => push_count_and_map_names(
            out,
            block,
            names,
            places.as_slice(),
        ),
        Command::OutAscii { place, .. } => push_count_one_and_map_name(out, block, names, *place),
    }
}

fn cells_of_after_option(after: &Option<Combo>) -> &[Cell]
    ensures { result.now ≡ combination_of_after_option after.now }
{
    match after {
        Some(combo) => combo.cells(),
        None => &[],
    }
}

fn after_option_cells_of_command(command: &Command) -> &[Cell]
    ensures { result.now ≡ after_option_cells_of_command command.now }
{
    match command {
        Command::Stats { options, .. } => cells_of_after_option(&options.after),
        _ => &[],
    }
}

fn push_after_option<W: Sink>(out: &mut W, block: &mut OutputBlock, cells: &[Cell])
    ensures { IsTextAppendedThroughBlock W.taken W.faults out.old block.old
        (after_option_bytes cells.now)
        out.new block.new }
{
    push_eight_byte_number(out, block, cells.len() as u64);
    push_cells_in_four_bytes(out, block, cells);
}

/// Writes the options of a statement.
pub(crate) fn push_command_options<W: Sink>(
    out: &mut W,
    block: &mut OutputBlock,
    names: &Names,
    command: &Command,
)
    ensures { IsTextAppendedThroughBlock W.taken W.faults out.old block.old
        (command_options_bytes names.now command.now)
        out.new block.new }
{
    block.push(out, &[command_option_flags(command)]);
    push_input_maps(out, block, names, command);
    push_after_option(out, block, after_option_cells_of_command(command));
}
