//! Writes the frame of a map's patches.

ghost use Rattle.std.specs.Prelude.{◌≡◌, [], ◌∷◌, flat_map, length, Some, IfSome};
ghost use Rattle.std.specs.List.{zip};
ghost use Rattle.std.specs.Option.{option_map};
ghost use Rattle.std.specs.Int.{w32, to_le_bytes};
ghost use Rattle.cell_core_devices.specs.Blocks.{IsTextAppendedThroughBlock};
ghost use Rattle.rcell_pipe_frames.specs.FrameBytes.{one_if_true_else_zero, joining_code, patch_bytes, patches_and_any_zones_bytes, patches_frame_bytes, four_bytes_of_cell, zoned_patch_bytes};

use crate::bytes::{one_if_true_else_zero, push_eight_byte_number};
use cell_clumps::clump::Joining;
use cell_core::block::OutputBlock;
use cell_core::sink::Sink;
use cell_patches::patch::Patch;

/// Returns the code of a connectivity: 4 or 8.
pub fn joining_code(joining: Joining) -> u8
    ensures { result ≡ joining_code joining }
{
    match joining {
        Joining::Edges => 4,
        Joining::EdgesAndCorners => 8,
    }
}

/// Writes the code of a connectivity as one byte.
pub(crate) fn push_joining_code<W: Sink>(out: &mut W, block: &mut OutputBlock, joining: Joining)
    ensures { IsTextAppendedThroughBlock W.taken W.faults out.old block.old (joining_code joining
        ∷ [])
        out.new block.new }
{
    block.push(out, &[joining_code(joining)]);
}

fn push_patch_core_depth<W: Sink>(out: &mut W, block: &mut OutputBlock, depth: u32)
    ensures { IsTextAppendedThroughBlock W.taken W.faults out.old block.old (to_le_bytes w32 depth)
        out.new block.new }
{
    block.push(out, &depth.to_le_bytes());
}

fn push_patch_category<W: Sink>(out: &mut W, block: &mut OutputBlock, class: i32)
    ensures { IsTextAppendedThroughBlock W.taken W.faults out.old block.old
        (four_bytes_of_cell (Some class))
        out.new block.new }
{
    block.push(out, &class.to_le_bytes());
}

/// Writes the class and the measures of a patch.
pub fn push_patch_measures<W: Sink>(out: &mut W, block: &mut OutputBlock, patch: &Patch)
    ensures { IsTextAppendedThroughBlock W.taken W.faults out.old block.old
        (patch_bytes patch.now) out.new block.new }
{
    push_patch_category(out, block, patch.class);
    push_eight_byte_number(out, block, patch.cells);
    push_eight_byte_number(out, block, patch.ends);
    push_eight_byte_number(out, block, patch.flanks);
    push_eight_byte_number(out, block, patch.core);
    push_eight_byte_number(out, block, patch.first_row as u64);
    push_eight_byte_number(out, block, patch.last_row as u64);
    push_eight_byte_number(out, block, patch.first_col as u64);
    push_eight_byte_number(out, block, patch.last_col as u64);
}

// Writes each patch.
fn push_each_patch<W: Sink>(out: &mut W, block: &mut OutputBlock, patches: &[Patch])
    ensures { IsTextAppendedThroughBlock W.taken W.faults out.old block.old
        (flat_map patch_bytes patches.now)
        out.new block.new }
{
    for patch in patches {
        push_patch_measures(out, block, patch);
    }
}

// Writes the zone of a patch, or the smallest `i32` if it has none.
fn push_zone_of_patch<W: Sink>(out: &mut W, block: &mut OutputBlock, zone: Option<i32>)
    ensures { IsTextAppendedThroughBlock W.taken W.faults out.old block.old
        (four_bytes_of_cell zone) out.new block.new }
{
    push_patch_category(out, block, zone.unwrap_or(i32::MIN));
}

// Writes a patch and its zone.
fn push_patch_with_zone<W: Sink>(
    out: &mut W,
    block: &mut OutputBlock,
    patch: &Patch,
    zone: Option<i32>,
)
    ensures { IsTextAppendedThroughBlock W.taken W.faults out.old block.old
        (zoned_patch_bytes (patch.now, zone))
        out.new block.new }
{
    push_patch_measures(out, block, patch);
    push_zone_of_patch(out, block, zone);
}

// Writes each patch with its zone.
fn push_patches_with_zones<W: Sink>(
    out: &mut W,
    block: &mut OutputBlock,
    patches: &[Patch],
    zones: &[Option<i32>],
)
    requires { length zones.now ≡ length patches.now }
    ensures { IsTextAppendedThroughBlock W.taken W.faults out.old block.old
        (flat_map zoned_patch_bytes (zip patches.now zones.now)) out.new block.new }
{
    for i in 0..patches.len() {
        push_patch_with_zone(out, block, &patches[i], zones[i]);
    }
}

// Writes whether there are zones, as one byte.
fn push_whether_zones_follow<W: Sink>(out: &mut W, block: &mut OutputBlock, has_zones: bool)
    ensures { IsTextAppendedThroughBlock W.taken W.faults out.old block.old
        (one_if_true_else_zero has_zones
        ∷ []) out.new block.new }
{
    block.push(out, &[one_if_true_else_zero(has_zones)]);
}

// Writes each patch, with its zone if there are zones.
fn push_map_rows<W: Sink>(
    out: &mut W,
    block: &mut OutputBlock,
    patches: &[Patch],
    zones: &Option<Vec<Option<i32>>>,
)
    requires { IfSome zones.now (λ zones. length zones.items ≡ length patches.now) }
    ensures { IsTextAppendedThroughBlock W.taken W.faults out.old block.old
        (patches_and_any_zones_bytes patches.now
        (option_map (λ z. z.items) zones.now)) out.new block.new }
{
    match zones {
        Some(zones) => push_patches_with_zones(out, block, patches, zones),
        None => push_each_patch(out, block, patches),
    }
}

/// Writes the frame for the question at index `place`, from 0.
pub fn push_patches_frame<W: Sink>(
    out: &mut W,
    block: &mut OutputBlock,
    place: u64,
    joining: Joining,
    depth: u32,
    patches: &[Patch],
    zones: &Option<Vec<Option<i32>>>,
)
    requires { IfSome zones.now (λ zones. length zones.items ≡ length patches.now) }
    ensures { IsTextAppendedThroughBlock W.taken W.faults out.old block.old
        (patches_frame_bytes (record {
          question = place;
          joining = joining;
          depth = depth;
          patches = patches.now;
          zones = option_map (λ z. z.items) zones.now;
        })) out.new block.new }
{
    block.push(out, b"PTCH");
    push_eight_byte_number(out, block, place);
    push_joining_code(out, block, joining);
    push_patch_core_depth(out, block, depth);
    push_whether_zones_follow(out, block, zones.is_some());
    push_eight_byte_number(out, block, patches.len() as u64);
    push_map_rows(out, block, patches, zones);
}
