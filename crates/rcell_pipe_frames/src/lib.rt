//! The frames of a response of `rcell-pipe`: a frame for each statement that writes and for each question.
//! docs/pipe.md defines the bytes (profile).
//!
//! - specs/Frames.antt: the frames of a script; specs/FrameBytes.antt: the bytes of a response
//! - `table_frame`, `cells_frame`, `map_frame`, `patches_frame`, `numbers_frame` and `border_frame` write one kind of
//!   frame each
//! - `bytes`: writes numbers, texts and cells as bytes
//! - `law`: `frame_texts_are_program_output`: the text of frames is what `rcell` prints for the same maps;
//!   `tile_frames_join_into_full_frames`: the frames of tiles, joined, are the frames of the full maps
//! - private: `cells` writes the cells of a map, `wide_cells` a row in four bytes per cell, `coordinates` the map's
//!   edges; `null_sink` counts bytes
#![tactic(auto)]

pub mod border_frame;
pub mod bytes;
mod cells;
pub mod cells_frame;
mod coordinates;
pub mod law;
pub mod map_frame;
mod null_sink;
pub mod numbers_frame;
pub mod patches_frame;
pub mod table_frame;
mod wide_cells;
