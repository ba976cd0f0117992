//! Writes coordinates as `rcell` prints them, each preceded by its length.

ghost use Rattle.std.specs.Prelude.{◌≡◌, ◌<◌, ◌++◌, IfOk, OnOk};
ghost use Rattle.cell_core_devices.specs.Blocks.{IsTextAppendedThroughBlock};
ghost use Rattle.cell_ascii_meaning.specs.Writing.{coordinate_text, fraction_text};
ghost use Rattle.rcell_pipe_frames.specs.FrameBytes.{region_sides_bytes};
ghost use Rattle.rcell_pipe_frames.specs.parts.Coordinates.{minus_sign_or_empty};

use crate::bytes::push_length_and_text;
use cell_ascii_writer::writer::{
    COORDINATE_UNITS_PER_MAP_UNIT, digits_without_trailing_zeros, eight_digits_of_fraction,
};
use cell_core::block::OutputBlock;
use cell_core::region::Region;
use cell_core::sink::Sink;
use itoa::Buffer;
use std::alloc::{AllocError, Global};

/// A region's edges as texts.
#[derive(Drop)]
pub(crate) struct RegionSideTexts {
    north: Vec<u8>,
    south: Vec<u8>,
    east: Vec<u8>,
    west: Vec<u8>,
}

// Adds a decimal point and the eight digits of `part`, without trailing zeros. Adds nothing if `part` is 0.
fn add_point_and_fraction(text: &mut Vec<u8>, part: u64) -> Result<(), AllocError>
    requires { part < 100000000 }
    ensures { OnOk result (text.new.items ≡ text.old.items ++ fraction_text part) }
{
    if part == 0 {
        return Ok(());
    }
    text.extend_from_slice(b".")?;
    text.extend_from_slice(digits_without_trailing_zeros(eight_digits_of_fraction(
        &mut Buffer::new(),
        part,
    )))
}

// Returns the sign of a coordinate in units of 10^-8.
fn sign_text_of_coordinate(units: i64) -> &'static [u8]
    ensures { result.now ≡ minus_sign_or_empty units }
{
    if units < 0 { b"-" } else { b"" }
}

// Formats a coordinate in units of 10^-8.
fn formatted_coordinate(alloc: Global, units: i64) -> Result<Vec<u8>, AllocError>
    ensures { IfOk result (λ text. text.items ≡ coordinate_text units) }
{
    let size = units.unsigned_abs();
    let mut text = Vec::from_slice(alloc, sign_text_of_coordinate(units))?;
    text.extend_from_slice(
        Buffer::new()
            .format(size / COORDINATE_UNITS_PER_MAP_UNIT)
            .as_bytes(),
    )?;
    add_point_and_fraction(&mut text, size % COORDINATE_UNITS_PER_MAP_UNIT)?;
    Ok(text)
}

/// Formats the edges of a region.
pub(crate) fn region_side_texts(
    alloc: Global,
    region: Region,
) -> Result<RegionSideTexts, AllocError>
    ensures north { IfOk result (λ e. e.north.items ≡ coordinate_text region.north) }
    ensures south { IfOk result (λ e. e.south.items ≡ coordinate_text region.south) }
    ensures east { IfOk result (λ e. e.east.items ≡ coordinate_text region.east) }
    ensures west { IfOk result (λ e. e.west.items ≡ coordinate_text region.west) }
{
    Ok(RegionSideTexts {
        north: formatted_coordinate(alloc, region.north())?,
        south: formatted_coordinate(alloc, region.south())?,
        east: formatted_coordinate(alloc, region.east())?,
        west: formatted_coordinate(alloc, region.west())?,
    })
}

/// Writes the texts of the edges, each preceded by its length.
pub(crate) fn push_region_sides<W: Sink>(
    out: &mut W,
    block: &mut OutputBlock,
    edges: &RegionSideTexts,
)
    ensures { IsTextAppendedThroughBlock W.taken W.faults out.old block.old
        (region_sides_bytes edges.now.north.items edges.now.south.items edges.now.east.items
        edges.now.west.items) out.new block.new }
{
    push_length_and_text(out, block, edges.north.as_slice());
    push_length_and_text(out, block, edges.south.as_slice());
    push_length_and_text(out, block, edges.east.as_slice());
    push_length_and_text(out, block, edges.west.as_slice());
}
