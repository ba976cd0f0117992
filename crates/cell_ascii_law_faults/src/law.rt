//! Laws about errors in grid texts.

ghost use Rattle.cell_ascii_law_faults.specs.FaultLaw.{CellReadFailsWithFirstFault, CellReadEndsAtValidPosition, EndReadFailsWithFirstFault, TextReadFailsWithFirstFault, HeaderReadFailsWithFirstFault, HeaderReadEndsAtValidPosition, EachTextHasMapOrFault};

/// Reading a text fails exactly with the first error that the error table reports.
pub fn text_read_fails_with_first_fault()
    ensures { TextReadFailsWithFirstFault }
{}

/// Reading the header of a text, up to the end of its first data token, fails exactly with the first error reported up
/// to there, not counting errors in cells.
pub fn header_read_fails_with_first_fault()
    ensures { HeaderReadFailsWithFirstFault }
{}

/// Reading the next cells from a position after the header fails exactly with the first error reported up to the end of
/// the last cell.
pub fn cell_read_fails_with_first_fault()
    ensures { CellReadFailsWithFirstFault }
{}

/// Reading the end after the last cell fails exactly with the first error reported up to the next token.
pub fn end_read_fails_with_first_fault()
    ensures { EndReadFailsWithFirstFault }
{}

/// Reading a header, or cells, ends at a valid position.
pub fn reading_ends_at_valid_position()
    ensures opening { HeaderReadEndsAtValidPosition }
    ensures cells { CellReadEndsAtValidPosition }
{}

/// Each text either denotes exactly one map and has no error, or denotes no map and has exactly one error.
pub fn each_text_has_map_or_fault()
    ensures { EachTextHasMapOrFault }
{}
