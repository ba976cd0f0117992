//! Laws about reading a grid text: its meaning, and which error is reported.

pub use cell_ascii_law::law::reading_returns_denoted_map;
pub use cell_ascii_law_faults::law::{
    cell_read_fails_with_first_fault, each_text_has_map_or_fault, end_read_fails_with_first_fault,
    header_read_fails_with_first_fault, reading_ends_at_valid_position,
    text_read_fails_with_first_fault,
};
