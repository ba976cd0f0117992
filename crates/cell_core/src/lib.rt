//! Stores maps, and the shelf of named maps that a script works on.
//!
//! Maps are the CELL maps of the GRASS manual; the shelf is our own choice (profile). Users of maps need only this
//! crate: it re-exports `cell`, `region`, `name` and `memory` of `cell_core_values`, and `source`, `sink`, `block` and
//! `device` of `cell_core_devices`.
//!
//! - `map`: `MapBuilder` accepts rows from north to south; `CellMap` holds cells and labels
//! - `runs`: `Runs` iterates over the runs of equal cells in a row as (cell, number of columns)
//! - `stretches`: `Stretches` iterates over a row in its stored form: by runs, or cell by cell
//! - `shelf`: `Shelf` holds maps of one region under distinct names; `ShelfFault` is its error
//! - `printed_cell`: `write_cell` writes a category in decimal, or the null text
//! - private: `map_rows`, the stored rows of a map; `row`, a row stored as runs, bytes or cells, and
//!   `row_view`, a view of it; `byte_runs`, the runs of bytes
//!
//! ```
//! let (one, other) = (Cell::value(1).ok_or("null")?, Cell::value(2).ok_or("null")?);
//! let region = Region::new(1, 0, 1, 0, 2, 2)?;
//! let mut builder = MapBuilder::new(rt.alloc(), region);
//! builder.push_row(&[one, other])?;
//! builder.push_row(&[other, one])?;
//! let map = builder.finish();
//! assert_same!(rt; (map.cell(0, 1), map.cell(1, 1)), (other, one));
//! ```
#![tactic(auto)]

mod byte_runs;
pub mod map;
mod map_rows;
pub mod printed_cell;
mod row;
mod row_view;
pub mod runs;
pub mod shelf;
pub mod stretches;

pub use cell_core_devices::{block, device, sink, source};
pub use cell_core_values::{cell, memory, name, region};
