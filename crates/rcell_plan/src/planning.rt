//! Plans statements.

ghost use Rattle.std.specs.Prelude.{◌≡◌, [], ◌∷◌, ◌++◌, IfOk, OnOk};
ghost use Rattle.rcell_plan.specs.Plans.{needs_of_map_at_place, needs_of_reads, maps_read_by_command, command_needs, command_makes_map, place_of_made_map, needs_after_command, plan_of_statement, plans_of_statements, needs_of_given_maps};

use crate::flags::{command_code, command_flags};
use crate::needs::{MapNeed, MapNeeds};
use crate::reads::{maps_read_by_command, needs_of_own_cell_only};
use cell_core::memory::Memory;
use rcell_script::statement::{Command, Statement};
use std::alloc::Global;

/// The plan of a statement.
#[derive(Debug, Drop)]
pub struct Plan {
    /// The statement's line.
    pub line: u64,
    /// The code of the command.
    pub code: u8,
    /// The flags of the statement.
    pub flags: u8,
    /// The index of the map that the statement makes, if it makes one.
    pub made: Option<usize>,
    /// The maps that the statement reads, by their indices on the shelf before it.
    pub reads: MapNeeds,
    /// The given maps that the statement depends on, directly or through maps made earlier.
    pub needs: MapNeeds,
}

// Returns what the map at index `place` needs from the given maps.
fn needs_of_map_at_place<'a>(known: &'a [MapNeeds], place: usize) -> &'a [MapNeed]
    ensures { result.now ≡ needs_of_map_at_place known.now place }
{
    match known.get(place) {
        Some(needs) => needs.in_order(),
        None => &[],
    }
}

fn needs_of_reads(alloc: Global, known: &[MapNeeds], reads: &[MapNeed]) -> Result<MapNeeds, Memory>
    ensures { IfOk result (λ needs. needs ≡ needs_of_reads known.now reads.now) }
{
    let mut needs = MapNeeds::new(alloc);
    for read in reads {
        needs.add_needs_widened_by_margin(read.margin, needs_of_map_at_place(known, read.place))?;
    }
    Ok(needs)
}

fn command_needs(
    alloc: Global,
    known: &[MapNeeds],
    command: &Command,
    reads: &MapNeeds,
) -> Result<MapNeeds, Memory>
    requires { reads.now ≡ maps_read_by_command command.now }
    ensures { IfOk result (λ needs. needs ≡ command_needs known.now command.now) }
{
    match command {
        Command::Mapcalc { .. } => needs_of_reads(alloc, known, reads.in_order()),
        Command::Reclass { place, .. } => MapNeeds::copy_of_needs(
            alloc,
            needs_of_map_at_place(known, *place),
        ),
        Command::Clump { place, .. } => MapNeeds::requiring_full_map(
            alloc,
            needs_of_map_at_place(known, *place),
        ),
        Command::Stats { .. } => needs_of_reads(alloc, known, reads.in_order()),
        Command::OutAscii { place, .. } => MapNeeds::copy_of_needs(
            alloc,
            needs_of_map_at_place(known, *place),
        ),
    }
}

fn place_of_made_map(known: &[MapNeeds], command: &Command) -> Option<usize>
    ensures { result ≡ place_of_made_map known.now command.now }
{
    if command_makes_map(command) {
        Some(known.len())
    } else {
        None
    }
}

fn plan_of_statement(
    alloc: Global,
    known: &[MapNeeds],
    statement: &Statement,
) -> Result<Plan, Memory>
    ensures { IfOk result (λ plan. plan ≡ plan_of_statement known.now statement.now) }
{
    let command = &statement.command;
    let reads = maps_read_by_command(alloc, command)?;
    let needs = command_needs(alloc, known, command, &reads)?;
    Ok(Plan {
        line: statement.line,
        code: command_code(command),
        flags: command_flags(command),
        made: place_of_made_map(known, command),
        reads,
        needs,
    })
}

/// Returns whether a command makes a map.
pub fn command_makes_map(command: &Command) -> bool
    ensures { result ≡ command_makes_map command.now }
{
    match command {
        Command::Mapcalc { .. } => true,
        Command::Reclass { .. } => true,
        Command::Clump { .. } => true,
        Command::Stats { .. } => false,
        Command::OutAscii { .. } => false,
    }
}

// Adds the needs of the map that a command makes, if it makes one.
fn add_needs_of_made_map(
    alloc: Global,
    known: &mut Vec<MapNeeds>,
    command: &Command,
    needs: &MapNeeds,
) -> Result<(), Memory>
    requires { needs.now ≡ command_needs known.old.items command.now }
    ensures { OnOk result (known.new.items ≡ needs_after_command known.old.items command.now) }
{
    if command_makes_map(command) {
        let needs = MapNeeds::copy_of_needs(alloc, needs.in_order())?;
        known.push(needs)?;
    }
    Ok(())
}

// Returns the needs of the given maps: each needs only itself.
fn needs_of_given_maps(alloc: Global, count: usize) -> Result<Vec<MapNeeds>, Memory>
    ensures { IfOk result (λ known. known.items ≡ needs_of_given_maps count) }
{
    let mut known = Vec::with_capacity(alloc, count)?;
    for place in 0..count {
        let needs = needs_of_own_cell_only(alloc, place)?;
        known.push(needs)?;
    }
    Ok(known)
}

/// Plans statements over `count` given maps.
///
/// # Errors
///
/// Returns [`Memory`] if memory runs out.
pub fn plans_of_statements(
    alloc: Global,
    count: usize,
    statements: &[Statement],
) -> Result<Vec<Plan>, Memory>
    ensures { IfOk result (λ plans. plans.items
        ≡ plans_of_statements (needs_of_given_maps count) statements.now) }
{
    let mut known = needs_of_given_maps(alloc, count)?;
    let mut plans = Vec::with_capacity(alloc, statements.len())?;
    for statement in statements {
        let plan = plan_of_statement(alloc, known.as_slice(), statement)?;
        add_needs_of_made_map(alloc, &mut known, &statement.command, &plan.needs)?;
        plans.push(plan)?;
    }
    Ok(plans)
}
