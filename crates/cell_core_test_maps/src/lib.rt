//! Assertions, and maps from lists of categories, for tests of other crates.
#![tactic(auto)]

pub mod assertions;
pub mod maps;
