//! Laws of runs. This crate contains only proofs.
//!
//! - `script_law`: every text either is a script or has a first error
//! - `law`: every accepted script has an output; maps that are written and read again produce the same results; a
//!   script cut in two, with maps written and read in between, has the same output
#![tactic(auto)]

pub mod law;
pub mod script_law;
