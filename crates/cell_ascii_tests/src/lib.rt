//! Tests of reading grids: worked texts, and row by row. The model compares reads in pieces of many sizes.
#![tactic(auto)]

#[cfg(test)]
mod grids;
#[cfg(test)]
mod rows;
