//! Laws about local expressions, shifts, and expressions over tiles, in the terms of map algebra.

ghost use Rattle.rcell_plan.specs.HaloParts.{HaloIsEnough, ReachAndPositionAreEnough};
ghost use Rattle.rcell_plan.specs.LocalLaw.{ValueCountSumsCombinations, CombinationDeterminesValue, SameCombinationGivesSameValue};
ghost use Rattle.rcell_plan.specs.ReachParts.{NoMapIsReadBeyondReach};
ghost use Rattle.rcell_plan.specs.ShiftLaw.{NullBeyondTheEdge, ShiftsAddUp};
ghost use Rattle.rcell_plan.specs.TileLaw.{HaloedTileHasFullMapValues};

/// A local expression has the same value at all cells with the same combination of the maps that it reads.
pub fn same_combination_gives_same_value()
    ensures { SameCombinationGivesSameValue }
{}

/// For every local expression, a function of the combination gives its values at all cells of all maps.
pub fn combination_determines_value()
    ensures { CombinationDeterminesValue }
{}

/// After `x = f` with a local expression f, the number of cells of x with a given value is the sum of the counts of the
/// combinations that give this value, in the table of the maps that f reads.
pub fn value_count_sums_combinations()
    ensures { ValueCountSumsCombinations }
{}

/// After `x = g[a,b]`, `y = x[c,d]` and `z = g[a+c,b+d]`, y equals z at each cell from which the step (c,d) stays in
/// the region.
pub fn shifts_add_up()
    ensures { ShiftsAddUp }
{}

/// After `x = g[a,b]`, x is null where the step (a,b) leaves the region.
pub fn null_beyond_the_edge()
    ensures { NullBeyondTheEdge }
{}

/// An expression has the same value over a tile as over the full map, if the tile contains everything that the
/// expression reads, or ends where the map ends.
pub fn halo_is_enough()
    ensures { HaloIsEnough }
{}

/// An expression that calls `row()` or similar functions also has the same value over a tile, if these functions return
/// the position in the full map.
pub fn reach_and_position_are_enough()
    ensures { ReachAndPositionAreEnough }
{}

/// An expression reads no map beyond its reach.
pub fn no_map_is_read_beyond_reach()
    ensures { NoMapIsReadBeyondReach }
{}

/// If `x = f` is computed over the full map and `y = f` over a tile with its halo, y equals x in the tile, unless f
/// uses a row or column number.
pub fn haloed_tile_has_full_map_values()
    ensures { HaloedTileHasFullMapValues }
{}
