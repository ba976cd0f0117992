//! Worked runs: the outputs that the specification defines for some grids, scripts and a request, computed by the
//! checker. This crate contains only proofs.
//!
//! - `law`: `tables` of r.stats, `grids` of r.out.ascii, `numbers` and `clumps` of r.clump, and `request_examples_hold` of
//!   rcell-pipe with their frames; and `sent_requests_get_frames`, about all requests
//! - specs/WorkedRuns.antt: the definition of worked runs; if a definition is empty or wrong, these outputs cannot be
//!   proved
#![tactic(auto)]

pub mod law;
