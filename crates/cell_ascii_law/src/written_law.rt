//! The law about written grid texts.

ghost use Rattle.cell_ascii_law.specs.WrittenLaw.{WrittenMapIsReadBack};

/// The text written for a map denotes the same region and rows, if the region is valid, the rows are filled with nulls
/// and categories in range, the null text is valid, and no category in decimal equals the null text.
pub fn written_text_denotes_its_map()
    ensures { WrittenMapIsReadBack }
{}
