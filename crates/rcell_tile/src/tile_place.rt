//! Where a tile is in the full map.

ghost use Rattle.std.specs.Prelude.{◌≡◌};
ghost use Rattle.cell_join_numbers.specs.Parts.{Rectangle};
ghost use Rattle.rcell_tile.specs.TilePlaces.{TilePlaceValue, IsValidTilePlace, contains_rectangle, valid_tile_place};
ghost use Rattle.rcell_tile.specs.TileMaps.{halo_rows_above, halo_rows_below, halo_columns_left, halo_columns_right};

use std::marker::Model;

// The maximum number of rows and of columns of the full map.
const MOST_FULL_ROWS_OR_COLUMNS: u32 = 2147483647;

/// A rectangle of cells: its first row and column, counted from 0, and its numbers of rows and columns.
#[derive(Clone, Copy, Debug)]
pub struct CellRectangle {
    top: u32,
    left: u32,
    rows: u32,
    cols: u32,
}

impl Model for CellRectangle {
    ghost use Rattle.cell_join_numbers.specs.Parts.{Rectangle};

    ghost Value = { Rectangle };

    ghost view = { λ r. record { top = r.top; left = r.left; rows = r.rows; cols = r.cols } };

    ghost inverse = { λ r. record { top = r.top; left = r.left; rows = r.rows; cols = r.cols } };
}

impl CellRectangle {
    /// Returns a rectangle with this first row and column, and these numbers of rows and columns.
    pub fn new(top: u32, left: u32, rows: u32, cols: u32) -> CellRectangle
        ensures { result ≡ record { top = top; left = left; rows = rows; cols = cols } }
    {
        CellRectangle {
            top,
            left,
            rows,
            cols,
        }
    }

    // Returns whether the rectangle contains another one.
    fn contains_rectangle(&self, other: &CellRectangle) -> bool
        ensures { result ≡ contains_rectangle self.now other.now }
    {
        self.top <= other.top
            && other.top as u64 + other.rows as u64 <= self.top as u64 + self.rows as u64
            && (self.left <= other.left
                && other.left as u64 + other.cols as u64 <= self.left as u64 + self.cols as u64)
    }
}

/// The place of a tile: the size of the full map, the rectangle that the tile's maps cover with their halo, and the tile
/// itself.
#[derive(Clone, Copy, Debug)]
pub struct TilePlace {
    full_rows: u32,
    full_cols: u32,
    outer: CellRectangle,
    tile: CellRectangle,
}

impl Model for TilePlace {
    ghost use Rattle.rcell_tile.specs.TilePlaces.{TilePlaceValue, IsValidTilePlace};

    ghost Value = { TilePlaceValue };

    ghost view = { λ p. record { rows = p.full_rows; cols = p.full_cols; outer = p.outer; tile = p.tile } };

    ghost invariant = { λ p. IsValidTilePlace (record { rows = p.full_rows; cols = p.full_cols; outer = p.outer; tile = p.tile }) };

    ghost inverse = { λ p. record { full_rows = p.rows; full_cols = p.cols; outer = p.outer; tile = p.tile } };
}

impl TilePlace {
    /// Returns the place of a tile in a full map of this size, or `None` if the tile is empty or not inside its maps, its
    /// maps are not inside the full map, or the full map has more than 2147483647 rows or columns.
    pub fn new(rows: u32, cols: u32, outer: CellRectangle, tile: CellRectangle) -> Option<TilePlace>
        ensures { result ≡ valid_tile_place (record {
          rows = rows;
          cols = cols;
          outer = outer;
          tile = tile;
        }) }
    {
        let full = CellRectangle::new(0, 0, rows, cols);
        let is_valid = 1 <= tile.rows
            && 1 <= tile.cols
            && outer.contains_rectangle(&tile)
            && (full.contains_rectangle(&outer)
                && (rows <= MOST_FULL_ROWS_OR_COLUMNS && cols <= MOST_FULL_ROWS_OR_COLUMNS));
        if !is_valid {
            return None;
        }
        Some(TilePlace {
            full_rows: rows,
            full_cols: cols,
            outer,
            tile,
        })
    }

    /// Returns the number of rows of the full map.
    pub fn full_rows(&self) -> u32
        ensures value { result ≡ self.now.rows }
        ensures valid { IsValidTilePlace self.now }
    {
        self.full_rows
    }

    /// Returns the number of columns of the full map.
    pub fn full_cols(&self) -> u32
        ensures value { result ≡ self.now.cols }
        ensures valid { IsValidTilePlace self.now }
    {
        self.full_cols
    }

    /// Returns the full map's row, counted from 0, that is the first row of the tile's maps.
    pub fn outer_top(&self) -> u32
        ensures value { result ≡ self.now.outer.top }
        ensures valid { IsValidTilePlace self.now }
    {
        self.outer.top
    }

    /// Returns the full map's column, counted from 0, that is the first column of the tile's maps.
    pub fn outer_left(&self) -> u32
        ensures value { result ≡ self.now.outer.left }
        ensures valid { IsValidTilePlace self.now }
    {
        self.outer.left
    }

    /// Returns the number of rows of the tile's maps, with their halo.
    pub fn outer_rows(&self) -> u32
        ensures value { result ≡ self.now.outer.rows }
        ensures valid { IsValidTilePlace self.now }
    {
        self.outer.rows
    }

    /// Returns the number of columns of the tile's maps, with their halo.
    pub fn outer_cols(&self) -> u32
        ensures value { result ≡ self.now.outer.cols }
        ensures valid { IsValidTilePlace self.now }
    {
        self.outer.cols
    }

    /// Returns the full map's row, counted from 0, that is the tile's first row.
    pub fn tile_top(&self) -> u32
        ensures value { result ≡ self.now.tile.top }
        ensures valid { IsValidTilePlace self.now }
    {
        self.tile.top
    }

    /// Returns the full map's column, counted from 0, that is the tile's first column.
    pub fn tile_left(&self) -> u32
        ensures value { result ≡ self.now.tile.left }
        ensures valid { IsValidTilePlace self.now }
    {
        self.tile.left
    }

    /// Returns the tile's number of rows.
    pub fn tile_rows(&self) -> u32
        ensures value { result ≡ self.now.tile.rows }
        ensures valid { IsValidTilePlace self.now }
    {
        self.tile.rows
    }

    /// Returns the tile's number of columns.
    pub fn tile_cols(&self) -> u32
        ensures value { result ≡ self.now.tile.cols }
        ensures valid { IsValidTilePlace self.now }
    {
        self.tile.cols
    }

    /// Returns the number of rows of the halo above the tile.
    pub fn rows_above(&self) -> u32
        ensures { result ≡ halo_rows_above self.now }
    {
        self.tile_top() - self.outer_top()
    }

    /// Returns the number of rows of the halo below the tile.
    pub fn rows_below(&self) -> u32
        ensures { result ≡ halo_rows_below self.now }
    {
        (self.outer_top() + self.outer_rows()) - (self.tile_top() + self.tile_rows())
    }

    /// Returns the number of columns of the halo to the left of the tile.
    pub fn columns_left(&self) -> u32
        ensures { result ≡ halo_columns_left self.now }
    {
        self.tile_left() - self.outer_left()
    }

    /// Returns the number of columns of the halo to the right of the tile.
    pub fn columns_right(&self) -> u32
        ensures { result ≡ halo_columns_right self.now }
    {
        (self.outer_left() + self.outer_cols()) - (self.tile_left() + self.tile_cols())
    }
}
