//! The law that clump maps exist.

ghost use Rattle.cell_cats_law.specs.ExistsLaw.{ClumpMapExists};

/// Every filled map has a clump map by edges, and one by edges and corners.
pub fn clump_map_exists()
    ensures { ClumpMapExists }
{}
