//! Defines which text denotes which grid, and which error an invalid text has. Contains only definitions.
//!
//! The format follows the GRASS manual (r.in.ascii, r.out.ascii); limits and the order of errors are our own choice
//! (profile). `SourceDenotesMap` states that a source ends without an error, that its header lines give the map's region, and
//! that the words after them are the map's cells, row by row from the north.
//!
//! - specs/GridText.antt: `SourceDenotesMap`, built on the terms of specs/GridWords.antt, specs/EdgeNumbers.antt and
//!   specs/KeyNames.antt
//! - specs/FaultPlaces.antt: `first_fault_of_text`, the error at the first byte that shows one; specs/RowPlaces.antt: the error
//!   in the remaining rows
//! - specs/GridTokens.antt, Header.antt, CellTexts.antt: `grid_of`, which reads the text from left to right;
//!   `cell_ascii_law` and `cell_ascii_law_faults` prove that both definitions agree
//! - specs/Writing.antt: `grid_text`, the text written for a map
//! - `grid_fault`: `GridFault`, a `GridKind` and its line; `header_key`: `HeaderKey`
#![tactic(auto)]

pub mod grid_fault;
pub mod header_key;
