//! How far around a tile the maps of a run have the cells of the full maps.

ghost use Rattle.std.specs.Prelude.{◌≡◌, replicate, IfOk, OnOk};
ghost use Rattle.std.specs.List.{list_any};
ghost use Rattle.rcell_plan.specs.Plans.{maps_read_by_command};
ghost use Rattle.rcell_tile.specs.HaloMargins.{limit_of_side, halo_margin, no_halo_margin, exceeds_limit, limit_after_read, smaller_limit, exceeds_margin, margin_after_read, smaller_margin, margin_of_map_at_place, margin_after_reads, read_exceeds_margin, depth_exceeds_margin, command_is_clump, margin_of_made_map, margins_after_command, command_prints_labels, halo_fault_of_command, first_halo_fault, margins_of_maps};

use crate::tile_place::TilePlace;
use cell_core::memory::Memory;
use rcell_plan::needs::{MapNeed, Margin};
use rcell_plan::planning::command_makes_map;
use rcell_plan::reads::maps_read_by_command;
use rcell_script::statement::{Command, Statement};
use std::alloc::Global;

/// The numbers of rows above and below the tile, and of columns to its left and right, in which a map has the cells of
/// the full map. `None` on a side has no limit: the maps end there with the full map.
#[derive(Clone, Copy, Debug, PartialEq, Eq)]
pub struct HaloMargin {
    pub up: Option<u64>,
    pub down: Option<u64>,
    pub left: Option<u64>,
    pub right: Option<u64>,
}

/// Why a statement cannot run over a tile.
#[derive(Clone, Copy, Debug, PartialEq, Eq)]
pub enum HaloFaultKind {
    /// It reads cells that the halo does not contain.
    TooSmall,
    /// It prints labels, which the maps of a tile do not have.
    Labels,
}

/// A statement that cannot run over a tile: its line, and why.
#[derive(Clone, Copy, Debug, PartialEq, Eq)]
pub struct HaloFault {
    pub line: u64,
    pub kind: HaloFaultKind,
}

fn limit_of_side(ends: bool, count: u32) -> Option<u64>
    ensures { result ≡ limit_of_side ends count }
{
    if ends { None } else { Some(count as u64) }
}

/// Returns the margin of the given maps: their halo.
pub fn halo_margin(place: &TilePlace) -> HaloMargin
    ensures { result ≡ halo_margin place.now }
{
    let ends_below = place.outer_top() + place.outer_rows() == place.full_rows();
    let ends_right = place.outer_left() + place.outer_cols() == place.full_cols();
    HaloMargin {
        up: limit_of_side(place.outer_top() == 0, place.rows_above()),
        down: limit_of_side(ends_below, place.rows_below()),
        left: limit_of_side(place.outer_left() == 0, place.columns_left()),
        right: limit_of_side(ends_right, place.columns_right()),
    }
}

fn no_halo_margin() -> HaloMargin
    ensures { result ≡ no_halo_margin }
{
    HaloMargin {
        up: Some(0),
        down: Some(0),
        left: Some(0),
        right: Some(0),
    }
}

fn exceeds_limit(limit: Option<u64>, n: u64) -> bool
    ensures { result ≡ exceeds_limit limit n }
{
    match limit {
        None => false,
        Some(limit) => limit < n,
    }
}

fn limit_after_read(limit: Option<u64>, n: u64) -> Option<u64>
    ensures { result ≡ limit_after_read limit n }
{
    match limit {
        None => None,
        Some(limit) => Some(limit.saturating_sub(n)),
    }
}

fn smaller_limit(a: Option<u64>, b: Option<u64>) -> Option<u64>
    ensures { result ≡ smaller_limit a b }
{
    match (a, b) {
        (None, b) => b,
        (Some(a), None) => Some(a),
        (Some(a), Some(b)) => Some(a.min(b)),
    }
}

/// Returns whether a read of cells within `reach` exceeds a margin.
pub fn exceeds_margin(margin: HaloMargin, reach: Margin) -> bool
    ensures { result ≡ exceeds_margin margin reach }
{
    exceeds_limit(margin.up, reach.up)
        || exceeds_limit(margin.down, reach.down)
        || (exceeds_limit(margin.left, reach.left) || exceeds_limit(margin.right, reach.right))
}

fn margin_after_read(margin: HaloMargin, reach: Margin) -> HaloMargin
    ensures { result ≡ margin_after_read margin reach }
{
    HaloMargin {
        up: limit_after_read(margin.up, reach.up),
        down: limit_after_read(margin.down, reach.down),
        left: limit_after_read(margin.left, reach.left),
        right: limit_after_read(margin.right, reach.right),
    }
}

fn smaller_margin(a: HaloMargin, b: HaloMargin) -> HaloMargin
    ensures { result ≡ smaller_margin a b }
{
    HaloMargin {
        up: smaller_limit(a.up, b.up),
        down: smaller_limit(a.down, b.down),
        left: smaller_limit(a.left, b.left),
        right: smaller_limit(a.right, b.right),
    }
}

fn margin_of_map_at_place(known: &[HaloMargin], place: usize) -> HaloMargin
    ensures { result ≡ margin_of_map_at_place known.now place }
{
    match known.get(place) {
        Some(margin) => *margin,
        None => no_halo_margin(),
    }
}

// Returns the margin inside all that the reads leave.
fn margin_after_reads(known: &[HaloMargin], margin: HaloMargin, reads: &[MapNeed]) -> HaloMargin
    ensures { result ≡ margin_after_reads known.now margin reads.now }
{
    let mut inside = margin;
    for read in reads {
        let left = margin_after_read(margin_of_map_at_place(known, read.place), read.margin);
        inside = smaller_margin(inside, left);
    }
    inside
}

fn read_exceeds_margin(known: &[HaloMargin], read: &MapNeed) -> bool
    ensures { result ≡ read_exceeds_margin known.now read.now }
{
    exceeds_margin(margin_of_map_at_place(known, read.place), read.margin)
}

/// Returns whether a read of all cells within `depth` rows and columns exceeds the margin of the map at index `place`.
pub fn depth_exceeds_margin(known: &[HaloMargin], place: usize, depth: u32) -> bool
    ensures { result ≡ depth_exceeds_margin known.now place depth }
{
    let depth = depth as u64;
    let reach = Margin {
        up: depth,
        down: depth,
        left: depth,
        right: depth,
    };
    exceeds_margin(margin_of_map_at_place(known, place), reach)
}

fn any_read_exceeds_margin(known: &[HaloMargin], reads: &[MapNeed]) -> bool
    ensures { result ≡ list_any (read_exceeds_margin known.now) reads.now }
{
    for read in reads {
        if read_exceeds_margin(known, read) {
            return true;
        }
    }
    false
}

fn command_is_clump(command: &Command) -> bool
    ensures { result ≡ command_is_clump command.now }
{
    match command {
        Command::Clump { .. } => true,
        _ => false,
    }
}

fn command_prints_labels(command: &Command) -> bool
    ensures { result ≡ command_prints_labels command.now }
{
    match command {
        Command::Stats { options, .. } => options.labels,
        _ => false,
    }
}

// Returns why a command cannot run in a tile, if it cannot.
fn halo_fault_of_command(
    known: &[HaloMargin],
    command: &Command,
    reads: &[MapNeed],
) -> Option<HaloFaultKind>
    requires { reads.now ≡ maps_read_by_command command.now }
    ensures { result ≡ halo_fault_of_command known.now command.now }
{
    if command_prints_labels(command) {
        return Some(HaloFaultKind::Labels);
    }
    if any_read_exceeds_margin(known, reads) {
        return Some(HaloFaultKind::TooSmall);
    }
    None
}

// Returns the margin of the map that a command makes.
fn margin_of_made_map(
    halo: HaloMargin,
    known: &[HaloMargin],
    command: &Command,
    reads: &[MapNeed],
) -> HaloMargin
    requires { reads.now ≡ maps_read_by_command command.now }
    ensures { result ≡ margin_of_made_map halo known.now command.now }
{
    if command_is_clump(command) {
        return no_halo_margin();
    }
    margin_after_reads(known, halo, reads)
}

// Adds the margin of the map that a command makes, if it makes one.
fn add_margin_of_made_map(
    halo: HaloMargin,
    known: &mut Vec<HaloMargin>,
    command: &Command,
    reads: &[MapNeed],
) -> Result<(), Memory>
    requires { reads.now ≡ maps_read_by_command command.now }
    ensures { OnOk result
        (known.new.items ≡ margins_after_command halo known.old.items command.now) }
{
    if command_makes_map(command) {
        let margin = margin_of_made_map(halo, known.as_slice(), command, reads);
        known.push(margin)?;
    }
    Ok(())
}

// Returns the margins of `count` given maps.
fn margins_of_given_maps(
    alloc: Global,
    halo: HaloMargin,
    count: usize,
) -> Result<Vec<HaloMargin>, Memory>
    ensures { IfOk result (λ known. known.items ≡ replicate count halo) }
{
    let mut known = Vec::with_capacity(alloc, count)?;
    for _ in 0..count {
        known.push(halo)?;
    }
    Ok(known)
}

/// Returns the first statement that cannot run over a tile with its halo, over `count` given maps.
///
/// # Errors
///
/// Returns [`Memory`] if memory runs out.
pub fn first_halo_fault(
    alloc: Global,
    place: &TilePlace,
    count: usize,
    statements: &[Statement],
) -> Result<Option<HaloFault>, Memory>
    ensures { IfOk result (λ fault. fault ≡ first_halo_fault place.now count statements.now) }
{
    let halo = halo_margin(place);
    let mut known = margins_of_given_maps(alloc, halo, count)?;
    for statement in statements {
        let command = &statement.command;
        let reads = maps_read_by_command(alloc, command)?;
        if let Some(kind) = halo_fault_of_command(known.as_slice(), command, reads.in_order()) {
            let line = statement.line;
            return Ok(Some(HaloFault { line, kind }));
        }
        add_margin_of_made_map(halo, &mut known, command, reads.in_order())?;
    }
    Ok(None)
}

/// Returns the margin of each map after the statements, over `count` given maps.
///
/// # Errors
///
/// Returns [`Memory`] if memory runs out.
pub fn margins_of_maps(
    alloc: Global,
    place: &TilePlace,
    count: usize,
    statements: &[Statement],
) -> Result<Vec<HaloMargin>, Memory>
    ensures { IfOk result (λ margins. margins.items
        ≡ margins_of_maps place.now count statements.now) }
{
    let halo = halo_margin(place);
    let mut known = margins_of_given_maps(alloc, halo, count)?;
    for statement in statements {
        let reads = maps_read_by_command(alloc, &statement.command)?;
        add_margin_of_made_map(halo, &mut known, &statement.command, reads.in_order())?;
    }
    Ok(known)
}
