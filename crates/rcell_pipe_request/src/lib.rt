//! Requests to `rcell-pipe`: parses bytes into maps, a script and questions, or reports the first error. docs/pipe.md
//! defines the bytes (profile).
//!
//! - `request`: `read_run_request` and `read_tile_run_request` read a `Request`: maps of one region, a script, and
//!   questions
//! - `question`: `Question`, about the patches of a map; private `questions` reads them
//! - `error`: `RequestError`, the first error, with the number of maps before it and its row
//! - `feed`: `Feed` reads a source in blocks: numbers with their lowest byte first, and texts
//! - `head`: `read_map_head` reads everything before the cells of a map; private `named_map` reads the map, and
//!   `text_map` the cells of a text grid
//! - `place`: `StatedPlace`, where the maps of a tile are in a full map; private `request_region` reads the region
//!
//! From tools/test_pipe.py: edges, type 1 (`u8`), rows, and 255 for null:
//!
//! ```
//! land = Raster(b"land", (b"2", b"0", b"3", b"0"), 1, [[1, 1, 2], [2, 2, 255]], 255)
//! ```
#![tactic(auto)]

pub mod error;
pub mod feed;
pub mod head;
mod named_map;
pub mod place;
pub mod question;
mod questions;
pub mod request;
mod request_region;
mod text_map;
