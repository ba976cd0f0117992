//! Responses of `rcell-pipe` to requests of each form: a run, with frames or as text, a plan, or a join.
//! docs/pipe.md defines the bytes (profile).
//!
//! - `responding`: `respond` reads a request and writes its response: all that `rcell-pipe` does
//! - `plan_request`: `read_plan_request` reads names of maps and a script, or reports the first error
//! - `plan_response`: `plan_request` writes the plan of each statement, as computed by `rcell_plan`
//! - specs/Responses.antt: the response to every request
//! - `law`: `tile_responses_join_into_full_response`: the responses for tiles, joined, are the response for the full maps
//! - private: `plan_frames`, `plan_options` and `rule_labels` write plans as bytes
#![tactic(auto)]

pub mod law;
mod plan_frames;
mod plan_options;
pub mod plan_request;
pub mod plan_response;
pub mod responding;
mod rule_labels;
