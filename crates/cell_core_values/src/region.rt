//! The rectangle that a map covers, divided into rows and columns.

ghost use Rattle.std.specs.Prelude.{◌≡◌, ◌<◌, ◌≤◌, ◌*◌, ◌↔◌, IsTrue, nat_le};
ghost use Rattle.cell_core_values.specs.Region.{RegionValue, IsValidRegion, most_rows_or_columns, most_cells, region_or_first_fault, is_edge_above_within_limits, is_row_or_column_count};
ghost use Rattle.cell_core_values.specs.SameRegion.{is_same_region};

use std::marker::Model;

/// Why six numbers do not form a region. If several reasons apply, the first in this order is reported (profile).
#[derive(Clone, Copy, Debug, PartialEq, Eq)]
pub enum RegionFault {
    /// The north edge is not above the south edge, the east edge is not above the west edge, or an edge is beyond
    /// ±9999999999.99999999.
    BadExtent,
    /// The number of rows is not between 1 and 65535.
    BadRows,
    /// The number of columns is not between 1 and 65535.
    BadCols,
    /// The region has more than 2147483647 cells.
    TooManyCells,
}

// The largest edge, in units of 10^-8. Its negative is the smallest.
const LARGEST_EDGE_COORDINATE: i64 = 999999999999999999;

// The maximum number of rows and of columns.
const MOST_ROWS_OR_COLUMNS: u32 = 65535;

// The maximum number of cells.
const MOST_CELLS: u32 = 2147483647;

/// A rectangle and its numbers of rows and columns (g.region manual).
///
/// The four edges are in units of 10^-8 map units. Two regions are equal if and only if all six numbers are.
#[derive(Clone, Copy, Debug)]
pub struct Region {
    north: i64,
    south: i64,
    east: i64,
    west: i64,
    rows: u32,
    cols: u32,
}

impl Model for Region {
    ghost use Rattle.cell_core_values.specs.Region.{RegionValue, IsValidRegion};

    ghost Value = { RegionValue };

    ghost view = { λ r. record { north = r.north; south = r.south; east = r.east; west = r.west; rows = r.rows; cols = r.cols } };

    ghost invariant = { λ r. IsValidRegion (record { north = r.north; south = r.south; east = r.east; west = r.west; rows = r.rows; cols = r.cols }) };

    ghost inverse = { λ e. record { north = e.north; south = e.south; east = e.east; west = e.west; rows = e.rows; cols = e.cols } };
}

// Returns whether the first edge is above the second, with both within the limits.
fn is_edge_above_within_limits(high: i64, low: i64) -> bool
    ensures { result ≡ is_edge_above_within_limits high low }
{
    low < high && -LARGEST_EDGE_COORDINATE <= low && high <= LARGEST_EDGE_COORDINATE
}

// Returns whether a number is valid as a number of rows or columns.
fn is_row_or_column_count(count: u32) -> bool
    ensures { result ≡ is_row_or_column_count count }
{
    1 <= count && count <= MOST_ROWS_OR_COLUMNS
}

// Returns whether a map of this size has no more cells than there are categories above 0.
fn is_within_cell_limit(rows: u32, cols: u32) -> bool
    requires { (rows ≤ most_rows_or_columns) × (cols ≤ most_rows_or_columns) }
    ensures { result ≡ nat_le (rows * cols) most_cells }
{
    rows * cols <= MOST_CELLS
}

// Returns whether all six numbers are equal.
fn is_same_region(a: &Region, b: &Region) -> bool
    ensures { result ≡ is_same_region a.now b.now }
{
    (a.north, a.south, a.east, a.west, a.rows, a.cols)
        == (b.north, b.south, b.east, b.west, b.rows, b.cols)
}

impl Region {
    /// Returns the region with these edges, in units of 10^-8, and these numbers of rows and columns.
    ///
    /// # Errors
    ///
    /// The first [`RegionFault`] that applies, in the order of its variants.
    pub fn new(
        north: i64,
        south: i64,
        east: i64,
        west: i64,
        rows: u32,
        cols: u32,
    ) -> Result<Region, RegionFault>
        ensures { result
            ≡ region_or_first_fault (record {
              north = north;
              south = south;
              east = east;
              west = west;
              rows = rows;
              cols = cols;
            }) }
    {
        if !is_edge_above_within_limits(north, south) || !is_edge_above_within_limits(east, west) {
            return Err(RegionFault::BadExtent);
        }
        if !is_row_or_column_count(rows) {
            return Err(RegionFault::BadRows);
        }
        if !is_row_or_column_count(cols) {
            return Err(RegionFault::BadCols);
        }
        if !is_within_cell_limit(rows, cols) {
            return Err(RegionFault::TooManyCells);
        }
        Ok(Region {
            north,
            south,
            east,
            west,
            rows,
            cols,
        })
    }

    /// Returns the upper edge, in units of 10^-8.
    pub fn north(&self) -> i64
        ensures value { result ≡ self.now.north }
        ensures region { IsValidRegion self.now }
    {
        self.north
    }

    /// Returns the lower edge, in units of 10^-8.
    pub fn south(&self) -> i64
        ensures value { result ≡ self.now.south }
        ensures region { IsValidRegion self.now }
    {
        self.south
    }

    /// Returns the right edge, in units of 10^-8.
    pub fn east(&self) -> i64
        ensures value { result ≡ self.now.east }
        ensures region { IsValidRegion self.now }
    {
        self.east
    }

    /// Returns the left edge, in units of 10^-8.
    pub fn west(&self) -> i64
        ensures value { result ≡ self.now.west }
        ensures region { IsValidRegion self.now }
    {
        self.west
    }

    /// Returns the number of rows, between 1 and 65535.
    pub fn rows(&self) -> u32
        ensures value { result ≡ self.now.rows }
        ensures region { IsValidRegion self.now }
    {
        self.rows
    }

    /// Returns the number of columns, between 1 and 65535.
    pub fn cols(&self) -> u32
        ensures value { result ≡ self.now.cols }
        ensures region { IsValidRegion self.now }
    {
        self.cols
    }
}

impl PartialEq for Region {
    ghost use Rattle.std.specs.Prelude.{◌≡◌, ◌↔◌, IsTrue};
    ghost use Rattle.std.specs.Cmp.{partial_equiv_from_equiv};
    ghost use Rattle.cell_core_values.specs.SameRegion.{is_same_region, is_same_region_equiv};

    ghost eq = { is_same_region };

    ghost laws = { partial_equiv_from_equiv is_same_region_equiv };

    fn eq(&self, other: &Region) -> bool
        ensures value { result ≡ is_same_region self.now other.now }
        ensures same { IsTrue result ↔ (self.now ≡ other.now) }
    {
        is_same_region(self, other)
    }
}

impl Eq for Region {
    ghost use Rattle.cell_core_values.specs.SameRegion.{is_same_region_equiv};

    ghost laws = { is_same_region_equiv };
}
