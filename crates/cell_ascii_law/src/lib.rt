//! Proves laws about valid grids. Contains no executable code.
//!
//! - `law`: reading a text from left to right returns a map if and only if the text denotes that map, and the header
//!   that is read is defined by the header lines
//! - `written_law`: the text written for a map denotes the same region and rows, unless a category in decimal equals
//!   the null text
#![tactic(auto)]

pub mod law;
pub mod written_law;
