//! Writes the frames of a plan.

ghost use Rattle.std.specs.Prelude.{◌≡◌, length, flat_map};
ghost use Rattle.cell_core_devices.specs.Blocks.{IsTextAppendedThroughBlock};
ghost use Rattle.rcell_plan_response.specs.PlanFrames.{name_of_made_map, margin_bytes, map_read_bytes, need_bytes, map_reads_bytes, needs_bytes, plan_head_bytes, plan_bytes, plans_bytes};

use crate::plan_options::{name_of_map_at_place, push_command_options};
use crate::rule_labels::push_command_labels;
use cell_core::block::OutputBlock;
use cell_core::name::Names;
use cell_core::sink::Sink;
use rcell_pipe_frames::bytes::{
    one_if_true_else_zero, push_eight_byte_number, push_length_and_text,
};
use rcell_plan::needs::{MapNeed, Margin};
use rcell_plan::planning::Plan;
use rcell_script::statement::Statement;

fn name_of_made_map<'a>(names: &'a Names, made: Option<usize>) -> &'a [u8]
    ensures { result.now ≡ name_of_made_map names.now made }
{
    match made {
        Some(place) => name_of_map_at_place(names, place),
        None => b"",
    }
}

fn push_margin<W: Sink>(out: &mut W, block: &mut OutputBlock, margin: Margin)
    ensures { IsTextAppendedThroughBlock W.taken W.faults out.old block.old
        (margin_bytes margin) out.new block.new }
{
    push_eight_byte_number(out, block, margin.up);
    push_eight_byte_number(out, block, margin.down);
    push_eight_byte_number(out, block, margin.left);
    push_eight_byte_number(out, block, margin.right);
}

// Writes a map that a statement reads.
fn push_map_read<W: Sink>(out: &mut W, block: &mut OutputBlock, names: &Names, need: MapNeed)
    ensures { IsTextAppendedThroughBlock W.taken W.faults out.old block.old
        (map_read_bytes names.now need)
        out.new block.new }
{
    push_length_and_text(out, block, name_of_map_at_place(names, need.place));
    push_margin(out, block, need.margin);
}

// Writes a map that a statement needs.
fn push_map_need<W: Sink>(out: &mut W, block: &mut OutputBlock, names: &Names, need: MapNeed)
    ensures { IsTextAppendedThroughBlock W.taken W.faults out.old block.old
        (need_bytes names.now need)
        out.new block.new }
{
    push_map_read(out, block, names, need);
    block.push(out, &[one_if_true_else_zero(need.whole)]);
}

fn push_each_map_read<W: Sink>(
    out: &mut W,
    block: &mut OutputBlock,
    names: &Names,
    reads: &[MapNeed],
)
    ensures { IsTextAppendedThroughBlock W.taken W.faults out.old block.old
        (flat_map (map_read_bytes names.now) reads.now) out.new block.new }
{
    for read in reads {
        push_map_read(out, block, names, *read);
    }
}

fn push_each_map_need<W: Sink>(
    out: &mut W,
    block: &mut OutputBlock,
    names: &Names,
    needs: &[MapNeed],
)
    ensures { IsTextAppendedThroughBlock W.taken W.faults out.old block.old
        (flat_map (need_bytes names.now) needs.now) out.new block.new }
{
    for need in needs {
        push_map_need(out, block, names, *need);
    }
}

fn push_count_and_map_reads<W: Sink>(
    out: &mut W,
    block: &mut OutputBlock,
    names: &Names,
    reads: &[MapNeed],
)
    ensures { IsTextAppendedThroughBlock W.taken W.faults out.old block.old
        (map_reads_bytes names.now reads.now)
        out.new block.new }
{
    push_eight_byte_number(out, block, reads.len() as u64);
    push_each_map_read(out, block, names, reads);
}

fn push_count_and_map_needs<W: Sink>(
    out: &mut W,
    block: &mut OutputBlock,
    names: &Names,
    needs: &[MapNeed],
)
    ensures { IsTextAppendedThroughBlock W.taken W.faults out.old block.old
        (needs_bytes names.now needs.now)
        out.new block.new }
{
    push_eight_byte_number(out, block, needs.len() as u64);
    push_each_map_need(out, block, names, needs);
}

// Writes the head of a statement's frame.
fn push_plan_head<W: Sink>(out: &mut W, block: &mut OutputBlock, names: &Names, plan: &Plan)
    ensures { IsTextAppendedThroughBlock W.taken W.faults out.old block.old
        (plan_head_bytes names.now plan.now)
        out.new block.new }
{
    block.push(out, b"PLAN");
    push_eight_byte_number(out, block, plan.line);
    block.push(out, &[plan.code, plan.flags]);
    push_length_and_text(out, block, name_of_made_map(names, plan.made));
}

// Writes the frame of a statement.
fn push_plan<W: Sink>(
    out: &mut W,
    block: &mut OutputBlock,
    names: &Names,
    plan: &Plan,
    statement: &Statement,
)
    ensures { IsTextAppendedThroughBlock W.taken W.faults out.old block.old
        (plan_bytes names.now (plan.now, statement.now)) out.new block.new }
{
    push_plan_head(out, block, names, plan);
    push_count_and_map_reads(out, block, names, plan.reads.in_order());
    push_count_and_map_needs(out, block, names, plan.needs.in_order());
    push_command_options(out, block, names, &statement.command);
    push_command_labels(out, block, &statement.command);
}

/// Writes the frames of statements from their plans. `names` contains the names of all maps.
pub(crate) fn push_plans<W: Sink>(
    out: &mut W,
    block: &mut OutputBlock,
    names: &Names,
    plans: &[Plan],
    statements: &[Statement],
)
    requires { length plans.now ≡ length statements.now }
    ensures { IsTextAppendedThroughBlock W.taken W.faults out.old block.old
        (plans_bytes names.now plans.now statements.now) out.new block.new }
{
    for i in 0..plans.len() {
        push_plan(out, block, names, &plans[i], &statements[i]);
    }
}
