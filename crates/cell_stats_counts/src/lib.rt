//! How many cells have each combination of the categories of several maps (GRASS manual: r.stats).
//!
//! - `counts`: `combination_counts_of_maps`, the counts of some maps of a shelf
//! - private: `counting`, which counts combinations of one or two maps in a table (`paired`, laid out by `ranges`,
//!   listed by `rising` for one map), others side by side (`CountedCombinations` of cell_stats_combinations); `alone`, one map by
//!   itself; `varied`, rows cell by cell
#![tactic(auto)]

mod alone;
mod counting;
pub mod counts;
mod paired;
mod ranges;
mod rising;
mod varied;
