//! Reads the grids onto a shelf.

ghost use Rattle.std.specs.Prelude.{ℕ, ◌≡◌, ◌≢◌, ◌+◌, ◌<◌, List, All, IfOk, IfErr, Some, length, vec_len};
ghost use Rattle.cell_core_values.specs.Name.{place_of_name};
ghost use Rattle.cell_ascii_meaning.specs.CellTexts.{map_denoted_by_text};
ghost use Rattle.rcell.specs.RunFaults.{ResultAgreesWithInputReading, IsFaultBeforeExecution, FaultNamesOneOfGrids};
ghost use Rattle.rcell.specs.Loading.{shelf_with_map, shelf_with_map_or_new, shelf_with_next_grid, shelf_of_grids};
ghost use Rattle.cell_core_devices.specs.Device.{ComingBytes};
ghost use Rattle.cell_core_devices.specs.Supposed.{HoldsForAgreeingContents, content_to_come};
ghost use Rattle.rcell.specs.Sources.{ReadsAgreeWithContents, Named, SourcesHoldSupposedContents};
ghost use Rattle.rcell.specs.parts.Refused.{run_fault_of_shelf_fault, IsFaultInGridBeforeExecution};

use crate::run_fault::RunFault;
use cell_ascii::grid_reader::{MapRead, read_map};
use cell_core::map::CellMap;
use cell_core::memory::Memory;
use cell_core::name::{Name, Names};
use cell_core::shelf::{Shelf, ShelfFault};
use cell_core::source::{Asked, Source};
use std::alloc::Global;

// Returns the error for a grid that the shelf rejects.
fn run_fault_of_shelf_fault(grid: usize, fault: ShelfFault) -> RunFault
    ensures { result ≡ run_fault_of_shelf_fault grid fault }
{
    match fault {
        ShelfFault::Exists => RunFault::GridTwice { grid },
        ShelfFault::OtherRegion => RunFault::GridRegion { grid },
        ShelfFault::Memory => RunFault::Memory { line: 0 },
    }
}

// Adds a map to the shelf.
fn shelf_with_map(
    mut shelf: Shelf,
    grid: usize,
    name: Name,
    map: CellMap,
) -> Result<Shelf, RunFault>
    ensures answer { ResultAgreesWithInputReading (λ s. s) result
        (shelf_with_map grid shelf name map (place_of_name name shelf.names)) }
    ensures whose { IfErr result (IsFaultInGridBeforeExecution grid) }
{
    match shelf.add(name, map) {
        Ok(()) => Ok(shelf),
        Err(refused) => Err(run_fault_of_shelf_fault(grid, refused.fault)),
    }
}

// Adds a map to the shelf, or creates a shelf with the map's region.
fn extended_or_new_shelf(
    alloc: Global,
    shelf: Option<Shelf>,
    grid: usize,
    name: Name,
    map: CellMap,
) -> Result<Shelf, RunFault>
    ensures answer { ResultAgreesWithInputReading (λ s. s) result
        (shelf_with_map_or_new grid shelf name map) }
    ensures whose { IfErr result (IsFaultInGridBeforeExecution grid) }
{
    match shelf {
        Some(shelf) => shelf_with_map(shelf, grid, name, map),
        None => {
            let shelf = Shelf::new(alloc, map.region());
            shelf_with_map(shelf, grid, name, map)
        }
    }
}

// The shelf with one more grid, and the source of the grid after its last read.
#[derive(Drop)]
struct ShelfAndGridSource<R> {
    shelf: Result<Shelf, RunFault>,
    source: R,
}

// Reads a complete grid, and adds it to the shelf.
fn shelf_with_grid_from_source<R: Source + Drop>(
    alloc: Global,
    shelf: Option<Shelf>,
    grid: usize,
    name: Name,
    source: R,
) -> ShelfAndGridSource<R>
    ensures answer { HoldsForAgreeingContents (content_to_come (R.supposed source))
        (content_to_come (R.supposed result.source))
        (λ c. ResultAgreesWithInputReading (λ s. s) result.shelf
        (shelf_with_next_grid grid shelf name
        (map_denoted_by_text c))) }
    ensures whose { IfErr result.shelf (IsFaultInGridBeforeExecution grid) }
    ensures asked { R.asked source ≡ Asked.Going → R.asked result.source ≢ Asked.Again }
{
    let MapRead { map, source } = read_map(alloc, source);
    match map {
        Ok(map) => ShelfAndGridSource {
            shelf: extended_or_new_shelf(alloc, shelf, grid, name, map),
            source,
        },
        Err(fault) => ShelfAndGridSource {
            shelf: Err(RunFault::Grid { grid, fault }),
            source,
        },
    }
}

/// A shelf of grids, and the sources of the grids that were read.
#[derive(Drop)]
pub struct LoadedShelf<R> {
    /// The shelf, or the first error.
    pub shelf: Result<Shelf, RunFault>,
    /// The sources of the grids that were read, in order, after their last reads.
    pub sources: Vec<R>,
}

/// Reads the full text of each grid, in order, and adds the maps to a shelf.
///
/// # Errors
///
/// The error of the first grid that has one:
///
/// - [`RunFault::Grid`] if its text is rejected, or, with kind `Memory` and line 0, if memory runs out
/// - otherwise [`RunFault::GridTwice`] if its name is already on the shelf
/// - otherwise [`RunFault::GridRegion`] if its region differs from the first grid's
/// - otherwise [`RunFault::Memory`] with line 0 if memory runs out
pub fn load_grids<R: Source + Drop>(alloc: Global, grids: Vec<(Name, R)>) -> LoadedShelf<R>
    requires { 0 < vec_len grids }
    ensures answer { (named : List Named) (hs : List ComingBytes)
        → SourcesHoldSupposedContents R.supposed hs grids.items named
        → ReadsAgreeWithContents R.supposed hs result.sources.items
        → ResultAgreesWithInputReading (λ s. Some s) result.shelf (shelf_of_grids named) }
    ensures early { IfErr result.shelf IsFaultBeforeExecution }
    ensures reported { IfErr result.shelf (FaultNamesOneOfGrids (length grids.items)) }
    // No source is read again after its end or a read error.
    ensures asked { All (λ g. R.asked g.1 ≡ Asked.Going) grids.items
        → All (λ s. R.asked s ≢ Asked.Again) result.sources.items }
{
    let mut shelf = None;
    let mut sources = Vec::new(alloc);
    let mut grid = 0;
    for (name, source) in grids {
        let ShelfAndGridSource {
            shelf: added,
            source,
        } = shelf_with_grid_from_source(alloc, shelf, grid, name, source);
        if sources.push(source).is_err() {
            return LoadedShelf {
                shelf: Err(RunFault::Memory { line: 0 }),
                sources,
            };
        }
        match added {
            Ok(more) => shelf = Some(more),
            Err(fault) => {
                return LoadedShelf {
                    shelf: Err(fault),
                    sources,
                };
            }
        }
        grid += 1;
    }
    match shelf {
        Some(shelf) => LoadedShelf {
            shelf: Ok(shelf),
            sources,
        },
        None => unreachable!(),
    }
}

/// Returns the names of the maps on a shelf, in order.
///
/// # Errors
///
/// Returns [`Memory`] if memory runs out.
pub fn map_names_on_shelf(alloc: Global, shelf: &Shelf) -> Result<Names, Memory>
    ensures names { IfOk result (λ names. names ≡ shelf.now.names) }
    ensures count { IfOk result (λ names. length names ≡ length shelf.now.maps) }
{
    let mut names = Names::new(alloc);
    for i in 0..shelf.len() {
        let name = shelf.name(i).copy(alloc)?;
        names.push(name)?;
    }
    Ok(names)
}
