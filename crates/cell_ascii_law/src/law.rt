//! Laws about the meaning of grid texts.

ghost use Rattle.cell_ascii_law.specs.GridLaw.{ReadHeaderIsDenotedHeader, ReadingReturnsDenotedMap};

/// Reading a text returns a map if and only if the text denotes that map (r.in.ascii manual: header lines, then the
/// cells row by row).
pub fn reading_returns_denoted_map()
    ensures { ReadingReturnsDenotedMap }
{}

/// The header read from a text is defined by its header lines, even if the data is invalid (r.in.ascii manual).
pub fn read_header_is_denoted_header()
    ensures { ReadHeaderIsDenotedHeader }
{}
