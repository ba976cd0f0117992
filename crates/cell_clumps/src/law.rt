//! Laws about clump maps.

ghost use Rattle.cell_clumps.specs.ClumpLaw.{ClumpMapIsUnique, ClumpNumbersHaveNoGaps, ClumpNumbersEndAtClumpCount};

/// For each adjacency, a map has at most one clump map.
pub fn clump_map_is_unique()
    ensures { ClumpMapIsUnique }
{}

/// Each number in a clump map is at least 1, and all smaller numbers from 1 up also occur.
pub fn clump_numbers_have_no_gaps()
    ensures { ClumpNumbersHaveNoGaps }
{}

/// The numbers that occur are 1 to the number of clumps.
pub fn clump_numbers_end_at_clump_count()
    ensures { ClumpNumbersEndAtClumpCount }
{}
