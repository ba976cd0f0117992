//! Laws about reading combinations.

ghost use Rattle.cell_stats_combinations.specs.ComboReading.{TextsAreReadAsCombinations};

/// A text is read as a combination if and only if it spells this combination with the expected width.
pub fn texts_are_read_as_combinations()
    ensures { TextsAreReadAsCombinations }
{}
