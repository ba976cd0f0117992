//! Writes the labels in the rules of a statement in a plan.

ghost use Rattle.std.specs.Prelude.{◌≡◌, count_by, flat_map};
ghost use Rattle.cell_core_devices.specs.Blocks.{IsTextAppendedThroughBlock};
ghost use Rattle.rcell_plan_response.specs.RuleLabels.{rules_of_command, has_label, category_bytes, label_bytes_of_rule, command_labels_bytes};

use cell_cats::rule::Rule;
use cell_core::block::OutputBlock;
use cell_core::sink::Sink;
use rcell_pipe_frames::bytes::{push_eight_byte_number, push_length_and_text};
use rcell_script::statement::Command;

fn rules_of_command(command: &Command) -> &[Rule]
    ensures { result.now ≡ rules_of_command command.now }
{
    match command {
        Command::Reclass { rules, .. } => rules.as_slice(),
        _ => &[],
    }
}

fn label_count(rules: &[Rule]) -> usize
    ensures { result ≡ count_by has_label rules.now }
{
    rules
        .iter()
        .filter(|rule| rule.labelled_category().is_some())
        .count()
}

fn push_category<W: Sink>(out: &mut W, block: &mut OutputBlock, category: i32)
    ensures { IsTextAppendedThroughBlock W.taken W.faults out.old block.old
        (category_bytes category) out.new block.new }
{
    block.push(out, &category.to_le_bytes());
}

// Writes the category that a rule labels and its label, if it has one.
fn push_label_of_rule<W: Sink>(out: &mut W, block: &mut OutputBlock, rule: &Rule)
    ensures { IsTextAppendedThroughBlock W.taken W.faults out.old block.old
        (label_bytes_of_rule rule.now) out.new block.new }
{
    if let Some(category) = rule.labelled_category() {
        push_category(out, block, category);
        push_length_and_text(out, block, rule.label());
    }
}

fn push_label_of_each_rule<W: Sink>(out: &mut W, block: &mut OutputBlock, rules: &[Rule])
    ensures { IsTextAppendedThroughBlock W.taken W.faults out.old block.old
        (flat_map label_bytes_of_rule rules.now) out.new block.new }
{
    for rule in rules {
        push_label_of_rule(out, block, rule);
    }
}

/// Writes the number of labels in the rules of a command, then each label.
pub(crate) fn push_command_labels<W: Sink>(out: &mut W, block: &mut OutputBlock, command: &Command)
    ensures { IsTextAppendedThroughBlock W.taken W.faults out.old block.old
        (command_labels_bytes command.now) out.new block.new }
{
    let rules = rules_of_command(command);
    push_eight_byte_number(out, block, label_count(rules) as u64);
    push_label_of_each_rule(out, block, rules);
}
