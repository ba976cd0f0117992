//! Responses of `rcell-pipe`: a frame for each statement that writes and for each question, and a last frame that
//! reports how the run ended; or the text that `rcell` prints. docs/pipe.md defines the bytes (profile).
//!
//! - `frame_run`: `run_request` runs a request and writes its response in a `ResponseForm`; `PipeOutcome`
//! - `end`: `End`, the fields of the last frame; `PipeError`, why a run failed
//! - specs/QuestionFrames.antt: the frames of questions
//! - `law`: in a tile, the measures are those in the full map
//! - `question_error`: why a question is rejected; `made_names`: the names of all maps of a script
//! - private: `frame_execution` executes the statements in order; `answers` writes the questions' frames
#![tactic(auto)]

mod answers;
pub mod end;
mod frame_execution;
pub mod frame_run;
pub mod law;
pub mod made_names;
pub mod question_error;
