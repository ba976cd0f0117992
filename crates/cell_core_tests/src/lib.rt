//! Tests cell_core and cell_core_values with worked results, and with an `Err` of a reader or writer, which no clause
//! describes.
#![tactic(auto)]

#[cfg(test)]
mod tests;
