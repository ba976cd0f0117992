//! What the plans of statements guarantee.

ghost use Rattle.rcell_plan.specs.NeedsLaw.{MapNeedsAreEnough};
ghost use Rattle.rcell_plan.specs.ReadsLaw.{ExpressionWithoutPositionIgnoresPosition, PlansListMapsInOrder, ExpressionReadsMatchReach};

/// Consider two shelves of maps with one region, and the same statements over both. A map has the same value at a cell
/// on both shelves if they agree in what the map needs around the cell: within the margins, or in the full map if an
/// r.clump is in between.
pub fn map_needs_are_enough()
    ensures { MapNeedsAreEnough }
{}

/// The reads of an expression list each map with exactly the expression's reach in it.
pub fn expression_reads_match_reach()
    ensures { ExpressionReadsMatchReach }
{}

/// Each plan lists its maps once each, in the order of their indices.
pub fn plans_list_maps_in_order()
    ensures { PlansListMapsInOrder }
{}

/// The values of an expression that calls none of `row()`, `col()`, `nrows()` and `ncols()` depend only on the cells
/// that it reads.
pub fn expression_without_position_ignores_position()
    ensures { ExpressionWithoutPositionIgnoresPosition }
{}
