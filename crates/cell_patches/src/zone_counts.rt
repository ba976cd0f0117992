//! Counts the cells of each patch in each zone, and tracks the leading zone of each patch.

ghost use Rattle.std.specs.Prelude.{◌≡◌, ℕ, ℤ, ◌+◌, ◌<◌, ◌≤◌, length, MatchBool, OnOk, IfOk, if◌then◌else◌};
ghost use Rattle.cell_patches.specs.parts.Leads.{AreLeadingZonesOfPatches, LeadingZoneIsOvertaken, PairCountsHaveRoomFor, IsLeadingZoneAfterGain, UpdatesLeadingZoneOfPair, LeadingZoneStaysAhead, pair_count_in_table, pair_count_with_current_run, leading_zone_before_any_cell, one_if_cells_are_patch_and_zone, same_pair};

use cell_core::cell::Cell;
use cell_core::memory::Memory;
use std::alloc::Global;
use std::collections::HashMap;

// The leading zone of a patch so far, and the number of the patch's cells in it.
#[derive(Clone, Copy)]
pub(crate) struct LeadingZone {
    pub(crate) zone: Option<i32>,
    pub(crate) cells: u64,
}

impl LeadingZone {
    // Returns whether the leading zone `first` stays ahead of a zone with `cells` cells: it has more cells, or as many
    // and a number that is not larger.
    fn stays_ahead(&self, first: i32, zone: i32, cells: u64) -> bool
        ensures { MatchBool result (LeadingZoneStaysAhead self.now.cells first zone cells)
            (LeadingZoneIsOvertaken self.now.cells first zone cells) }
    {
        cells < self.cells || (cells == self.cells && first <= zone)
    }

    // Makes a zone with `cells` cells the leading zone, unless the current one stays ahead.
    fn meet(&mut self, zone: i32, cells: u64)
        requires { 0 < cells }
        ensures { IsLeadingZoneAfterGain self.old zone cells self.new }
    {
        if let Some(first) = self.zone {
            if self.stays_ahead(first, zone, cells) {
                return;
            }
        }
        self.zone = Some(zone);
        self.cells = cells;
    }
}

// Updates the lead in the patch of a pair, whose zone has `cells` cells there. Ignores numbers that are not patch
// numbers.
fn update_leading_zone_of_pair(leads: &mut Vec<LeadingZone>, pair: (i32, i32), cells: u64)
    requires { 0 < cells }
    ensures { UpdatesLeadingZoneOfPair leads.old.items pair cells leads.new.items }
{
    let (number, zone) = pair;
    if number < 1 {
        return;
    }
    let place = number.unsigned_abs() as usize - 1;
    if place < leads.len() {
        leads[place].meet(zone, cells);
    }
}

// Adds `cells` cells to the count of a pair in a table. Returns the new count.
fn add_cells_to_pair_count(
    table: &mut HashMap<(i32, i32), u64>,
    pair: (i32, i32),
    cells: u64,
) -> Result<u64, Memory>
    requires { pair_count_in_table table.old pair + cells < 18446744073709551616 }
    ensures more { OnOk result ((q : ℤ × ℤ) → pair_count_in_table table.new q
        ≡ pair_count_in_table table.old q + (if same_pair pair q then cells else 0)) }
    ensures total { IfOk result (λ total. total ≡ pair_count_in_table table.old pair + cells) }
{
    let count = table.get(&pair).copied().unwrap_or(0) + cells;
    table.insert(pair, count)?;
    Ok(count)
}

// Counts the cells of each pair of a patch number and a zone. A run of equal pairs is counted separately before it is
// added to the table, because most cells continue the run and then need no lookup.
#[derive(Drop)]
pub(crate) struct CellCountsByPatchAndZone {
    pub(crate) table: HashMap<(i32, i32), u64>,
    pub(crate) leads: Vec<LeadingZone>,
    pub(crate) pair: (i32, i32),
    pub(crate) run: u64,
}

impl CellCountsByPatchAndZone {
    // Returns empty counts for `patches` patches.
    pub(crate) fn new(alloc: Global, patches: usize) -> Result<CellCountsByPatchAndZone, Memory>
        ensures none { IfOk result (λ counts. (v z : ℤ)
            → pair_count_with_current_run counts v z ≡ 0) }
        ensures leads { IfOk result AreLeadingZonesOfPatches }
        ensures long { IfOk result (λ counts. length counts.leads.items ≡ patches) }
    {
        let none = LeadingZone {
            zone: None,
            cells: 0,
        };
        Ok(CellCountsByPatchAndZone {
            table: HashMap::new(alloc),
            leads: vec![in alloc; none; patches]?,
            pair: (0, 0),
            run: 0,
        })
    }

    // Adds the run to the table, and empties it.
    #[inline(never)]
    pub(crate) fn close(&mut self) -> Result<(), Memory>
        requires leads { AreLeadingZonesOfPatches self.old }
        requires room { PairCountsHaveRoomFor 0 self.old }
        ensures leads { OnOk result (AreLeadingZonesOfPatches self.new) }
        ensures same { OnOk result ((v z : ℤ) → pair_count_with_current_run self.new v z
            ≡ pair_count_with_current_run self.old v z) }
        ensures long { OnOk result (length self.new.leads.items ≡ length self.old.leads.items) }
        ensures closed { OnOk result (self.new.run ≡ 0) }
    {
        if self.run == 0 {
            return Ok(());
        }
        let cells = add_cells_to_pair_count(&mut self.table, self.pair, self.run)?;
        update_leading_zone_of_pair(&mut self.leads, self.pair, cells);
        self.run = 0;
        Ok(())
    }

    // Starts a new run for a pair, unless the current run is for this pair.
    #[inline(always)]
    fn begin_run_unless_same_pair(&mut self, pair: (i32, i32)) -> Result<(), Memory>
        requires leads { AreLeadingZonesOfPatches self.old }
        requires room { PairCountsHaveRoomFor 0 self.old }
        ensures leads { OnOk result (AreLeadingZonesOfPatches self.new) }
        ensures same { OnOk result ((v z : ℤ) → pair_count_with_current_run self.new v z
            ≡ pair_count_with_current_run self.old v z) }
        ensures long { OnOk result (length self.new.leads.items ≡ length self.old.leads.items) }
        ensures pair { OnOk result (self.new.pair ≡ pair) }
    {
        if self.pair == pair {
            return Ok(());
        }
        self.close()?;
        self.pair = pair;
        Ok(())
    }

    // Counts a cell of a pair.
    #[inline(always)]
    fn add_pair(&mut self, pair: (i32, i32)) -> Result<(), Memory>
        requires leads { AreLeadingZonesOfPatches self.old }
        requires room { PairCountsHaveRoomFor 1 self.old }
        ensures leads { OnOk result (AreLeadingZonesOfPatches self.new) }
        ensures more { OnOk result ((v z : ℤ) → pair_count_with_current_run self.new v z
            ≡ pair_count_with_current_run self.old v z + (if same_pair pair (v, z) then 1 else 0)) }
        ensures long { OnOk result (length self.new.leads.items ≡ length self.old.leads.items) }
    {
        self.begin_run_unless_same_pair(pair)?;
        self.run += 1;
        Ok(())
    }

    // Counts a cell, if it has a number and a zone.
    #[inline(always)]
    pub(crate) fn add_cell(&mut self, number: Cell, zone: Cell) -> Result<(), Memory>
        requires leads { AreLeadingZonesOfPatches self.old }
        requires room { PairCountsHaveRoomFor 1 self.old }
        ensures leads { OnOk result (AreLeadingZonesOfPatches self.new) }
        ensures more { OnOk result ((v z : ℤ) → pair_count_with_current_run self.new v z
            ≡ pair_count_with_current_run self.old v z + one_if_cells_are_patch_and_zone number zone
            v z) }
        ensures long { OnOk result (length self.new.leads.items ≡ length self.old.leads.items) }
    {
        match (number.get(), zone.get()) {
            (Some(number), Some(zone)) => self.add_pair((number, zone)),
            _ => Ok(()),
        }
    }
}
