//! Proves laws about invalid grids. Contains no executable code.
//!
//! The main law is `each_text_has_map_or_fault`: each text either denotes exactly one map and has no error, or denotes no
//! map and has one first error.
//!
//! The other laws concern the steps of the reader: reading the full text, the header, cells or the end fails exactly
//! with the error of the first byte that shows one.
#![tactic(auto)]

pub mod law;
