//! What each statement of a script reads, and how far around a cell the value of a map depends on the given maps. The
//! packages request this from `rcell-pipe`, and then read rasters in tiles.
//!
//! - `planning`: `plans_of_statements` returns a `Plan` for each statement
//! - `needs`: `MapNeed`: a map, a `Margin` of rows and columns around the cell, and whether r.clump needs the full map;
//!   `Needs`: one need per map, ordered by index
//! - `flags`: the kind of a statement, in numbers; `reads`: the maps that a command reads
//! - `law`: `map_needs_are_enough`: no value depends on a cell outside the needs
//! - `values_law`: laws about the values of expressions, as r.mapcalc computes them
//!
//! The main law in `values_law` is `haloed_tile_has_full_map_values`: an expression computed over a tile with its halo
//! has, in the tile, the same cells as computed over the full map, if it calls none of `row()`, `col()`, `nrows()` and
//! `ncols()`. `tile_runs_have_full_map_cells` in rcell_tile allows these functions. The laws are in this order:
//! expressions without offsets, whose values depend only on the combination of categories; copies; offsets, which shift
//! a map and add up; halos and reach; tiles.
//!
//! A plan from tools/test_plan.py. The arguments of `MapNeed` are the rows above and below, and the columns to the left
//! and to the right:
//!
//! ```
//! "made maps add up": (b"r.mapcalc a = g[1,0]\nr.mapcalc b = a[0,-2] + h\nr.stats -c input=b\n",
//!                      {b"b": {b"g": Need(0, 1, 2, 0), b"h": Need()}}),
//! ```
#![tactic(auto)]

pub mod flags;
pub mod law;
pub mod needs;
pub mod planning;
pub mod reads;
pub mod rewriting;
pub mod values_law;
