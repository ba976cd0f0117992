//! Computes the values of an expression by looking them up in a table. If a value depends only on the category of one
//! cell, this costs less than computing the values row by row.
//!
//! - `map_by_category`: `map_by_category` returns the map of the values, or none if a table would cost more
//! - private: `span`, the categories of a map
#![tactic(auto)]

pub mod map_by_category;
mod span;
