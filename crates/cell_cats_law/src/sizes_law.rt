//! Laws about the sizes of clumps: their table, and the sums over tiles.

ghost use Rattle.cell_cats_law.specs.NumberTables.{ClumpTableListsSizes};
ghost use Rattle.cell_cats_law.specs.TileSizes.{TileClumpSizesAddUp, TileTablesAddUpToFullTable};

/// The table of a clump map lists the sizes of the clumps in the order of their numbers, and then the number of null
/// cells.
pub fn clump_table_lists_sizes()
    ensures { ClumpTableListsSizes }
{}

/// Cut a map into tiles of any shape that contain each cell once. The clump sizes of the tiles, added up by their
/// numbers in the full map, are the clump sizes of the full map.
pub fn tile_clump_sizes_add_up()
    ensures { TileClumpSizesAddUp }
{}

/// The sizes in the tiles' tables, added up, are the table of the full map's clump map.
pub fn tile_tables_add_up_to_full_table()
    ensures { TileTablesAddUpToFullTable }
{}
