//! Finds the main zone of each patch.

ghost use Rattle.std.specs.Prelude.{◌≡◌, ℕ, ◌+◌, ◌<◌, length, map, OnOk, IfOk};
ghost use Rattle.cell_core_values.specs.Region.{IsValidRegion};
ghost use Rattle.cell_core.specs.Grid.{row_at};
ghost use Rattle.cell_patches.specs.Zones.{AreMainZones};
ghost use Rattle.cell_patches.specs.parts.Leads.{AreZonesCountedOfAllCells, AreZonesCountedOfEarlierCells, PatchAndZoneMaps};

use crate::near_rows::cell_in_column_or_null;
use crate::read_rows::row_of_map;
use crate::zone_counts::{CellCountsByPatchAndZone, LeadingZone};
use cell_core::cell::Cell;
use cell_core::map::CellMap;
use cell_core::memory::Memory;
use std::alloc::Global;

// Counts the cells of a row.
fn add_row_of_cells_to_patches(
    counts: &mut CellCountsByPatchAndZone,
    numbers: &[Cell],
    zones: &[Cell],
    row: u32,
) -> Result<(), Memory>
    ghost maps: { PatchAndZoneMaps }
    requires numbers { numbers.now ≡ row_at maps.numbers row }
    requires zones { zones.now ≡ row_at maps.zones row }
    requires wide { length numbers.now ≡ maps.numbers.region.cols }
    requires region { IsValidRegion maps.numbers.region }
    requires row { row < maps.numbers.region.rows }
    requires counted { AreZonesCountedOfEarlierCells maps row 0 counts.old }
    ensures counted { OnOk result (AreZonesCountedOfEarlierCells maps (row + 1) 0 counts.new) }
    ensures long { OnOk result (length counts.new.leads.items ≡ length counts.old.leads.items) }
{
    for col in 0..numbers.len() {
        counts.add_cell(
            cell_in_column_or_null(numbers, col),
            cell_in_column_or_null(zones, col),
        )?;
    }
    Ok(())
}

// Reads a row of both maps and counts its cells.
fn count_row_by_patch_and_zone(
    alloc: Global,
    counts: &mut CellCountsByPatchAndZone,
    numbers: &CellMap,
    zones: &CellMap,
    row: u32,
) -> Result<(), Memory>
    ghost maps: { PatchAndZoneMaps }
    requires maps { maps ≡ record { numbers = numbers.now; zones = zones.now } }
    requires same { zones.now.region ≡ numbers.now.region }
    requires region { IsValidRegion maps.numbers.region }
    requires row { row < maps.numbers.region.rows }
    requires counted { AreZonesCountedOfEarlierCells maps row 0 counts.old }
    ensures counted { OnOk result (AreZonesCountedOfEarlierCells maps (row + 1) 0 counts.new) }
    ensures long { OnOk result (length counts.new.leads.items ≡ length counts.old.leads.items) }
{
    let number_line = row_of_map(alloc, numbers, row)?;
    let zone_line = row_of_map(alloc, zones, row)?;
    add_row_of_cells_to_patches(counts, &number_line, &zone_line, row)
}

// Counts all cells of both maps.
fn count_cells_by_patch_and_zone(
    alloc: Global,
    numbers: &CellMap,
    zones: &CellMap,
    patches: usize,
) -> Result<CellCountsByPatchAndZone, Memory>
    requires { zones.now.region ≡ numbers.now.region }
    ensures counted { IfOk result
        (AreZonesCountedOfAllCells (record { numbers = numbers.now; zones = zones.now })) }
    ensures long { IfOk result (λ counts. length counts.leads.items ≡ patches) }
{
    let region = numbers.region();
    let mut counts = CellCountsByPatchAndZone::new(alloc, patches)?;
    for row in 0..region.rows() {
        count_row_by_patch_and_zone(alloc, &mut counts, numbers, zones, row)?;
    }
    counts.close()?;
    Ok(counts)
}

// Returns the zone of each lead.
fn categories_of_leading_zones(
    alloc: Global,
    leads: &[LeadingZone],
) -> Result<Vec<Option<i32>>, Memory>
    ensures { IfOk result (λ main. main.items ≡ map (λ lead. lead.zone) leads.now) }
{
    let main = leads.iter().map(|lead| lead.zone).collect(alloc)?;
    Ok(main)
}

/// Returns the main zone of each patch, in the order of the patch numbers in `numbers`, which start at 1. Zones are
/// the categories of a second map. The main zone of a patch contains most of its cells; if several zones contain
/// equally many, it is the smallest of them. It is `None` if no cell of the patch is in a zone.
///
/// It needs memory for a table of the pairs of a patch number and a zone that occur.
///
/// # Errors
///
/// [`Memory`] if memory runs out.
pub fn zones_of_patches(
    alloc: Global,
    numbers: &CellMap,
    zones: &CellMap,
    patches: usize,
) -> Result<Vec<Option<i32>>, Memory>
    requires { zones.now.region ≡ numbers.now.region }
    ensures each { IfOk result (λ main. AreMainZones numbers.now zones.now main.items) }
    ensures long { IfOk result (λ main. length main.items ≡ patches) }
{
    let counts = count_cells_by_patch_and_zone(alloc, numbers, zones, patches)?;
    let main = categories_of_leading_zones(alloc, &counts.leads)?;
    Ok(main)
}
