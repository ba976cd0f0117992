//! Errors of requests.

ghost use Rattle.std.specs.Prelude.{◌≡◌};
ghost use Rattle.rcell_pipe_request.specs.declared.error.FieldReadingStop.TheVariants as field_stops;
ghost use Rattle.rcell_pipe_request.specs.declared.error.RequestStop.TheVariants as request_stops;
ghost use Rattle.rcell_pipe_request.specs.Requests.{request_stop_at_position};

use cell_ascii::grid_fault::GridKind;
use std::alloc::{AllocError, AllocFailed};

/// What is wrong with a request.
#[derive(Clone, Copy, Debug, PartialEq, Eq)]
pub enum ErrorKind {
    /// The first eight bytes are not the magic bytes of this version.
    BadMagic,
    /// The request ends before it is complete.
    Short,
    /// The request could not be read to its end.
    ReadFailed,
    /// The place is not in a full map, or the maps or the tile do not fit into it.
    BadPlace,
    /// There is no map, or there are more than 65535.
    BadCount,
    /// A name is not the name of a map.
    BadName,
    /// A previous map has the same name.
    NameTwice,
    /// A coordinate is not a number, or has more than 8 decimals.
    BadNumber,
    /// The six numbers are not a region.
    BadRegion,
    /// The type of cells is unknown.
    BadType,
    /// The flags are unknown, or not 0 for a text grid.
    BadFlags,
    /// The type cannot represent the nodata value, or flag 1 is not set and the value is not 0.
    BadNodata,
    /// A label's number is not a category, or its text contains a line feed.
    BadLabel,
    /// A byte of a mask is neither 0 nor 1.
    BadMask,
    /// A number is neither null nor a category.
    CellRange,
    /// A text grid contains an error.
    Grid(GridKind),
    /// The region of a text grid is not the region of the request.
    OtherRegion,
    /// The script has more than 1048576 bytes.
    ScriptSize,
    /// A question has an unknown kind.
    BadQuestion,
    /// The connectivity of a question is neither 4 nor 8.
    BadConnectivity,
    /// The depth of a question is 0.
    BadDepth,
    /// The name of a question's zones is not a map name.
    BadZones,
    /// The kind of a join request is unknown.
    BadKind,
    /// There is no tile, or there are more than 4294967295.
    BadTileCount,
    /// A border was numbered with another connectivity than the request's.
    OtherConnectivity,
    /// The tiles above or on the left do not end where a tile begins in the full map.
    OtherPlace,
    /// A tile has no row, no column, or more than 65535 rows or columns.
    BadSize,
    /// A tile has other rows than the tiles on its left, or other columns than the tile above.
    OtherSize,
    /// The cells and the numbers of a border do not match.
    BadBorder,
    /// The tiles have 2^64 patches or more.
    TooManyPatches,
    /// A table has no map, or more than 16.
    BadWidth,
    /// There is no table, or there are 4294967295 patch tables.
    BadTableCount,
    /// The count of an entry of a table is 0.
    ZeroCount,
    /// The counts of the tables, or the measures of a patch's parts, add up to 2^64 or more.
    TooManyCells,
    /// A run of a numbering has no patch, does not follow the run before it, or has numbers of 2^64 or more.
    BadRun,
    /// A patch does not follow the patch before it, in the order of tiles and their patches.
    PatchOrder,
    /// No run contains the patch.
    UnknownPatch,
    /// The class is null, there are no cells, or a map has no such rows or columns.
    BadPatch,
    /// Two parts of a patch have different classes.
    OtherClass,
    /// There are bytes after the request.
    Trailing,
}

/// An error and its position: the number of maps, tiles, tables or lists before it, and the number of the row, the
/// question or the line of a text grid, or 0 if it is in none of them.
#[derive(Clone, Copy, Debug, PartialEq, Eq)]
pub struct RequestError {
    pub kind: ErrorKind,
    pub maps: u32,
    pub row: u64,
}

/// Why a field could not be read.
#[derive(Clone, Copy, Debug)]
pub enum FieldReadingStop {
    /// Memory ran out.
    Memory,
    /// The bytes contain an error.
    Error(ErrorKind),
}

impl From<AllocError> for FieldReadingStop {
    ghost from_gives = { λ _ e. e ≡ field_stops.Memory };

    fn from(_e: AllocError) -> FieldReadingStop {
        FieldReadingStop::Memory
    }
}

impl<T: Drop> From<AllocFailed<T>> for FieldReadingStop {
    ghost from_gives = { λ _ e. e ≡ field_stops.Memory };

    fn from(_e: AllocFailed<T>) -> FieldReadingStop {
        FieldReadingStop::Memory
    }
}

/// Why a request could not be read.
#[derive(Clone, Copy, Debug, PartialEq, Eq)]
pub enum RequestStop {
    /// Memory ran out.
    Memory,
    /// The bytes contain an error.
    Error(RequestError),
}

impl From<AllocError> for RequestStop {
    ghost from_gives = { λ _ e. e ≡ request_stops.Memory };

    fn from(_e: AllocError) -> RequestStop {
        RequestStop::Memory
    }
}

impl<T: Drop> From<AllocFailed<T>> for RequestStop {
    ghost from_gives = { λ _ e. e ≡ request_stops.Memory };

    fn from(_e: AllocFailed<T>) -> RequestStop {
        RequestStop::Memory
    }
}

impl FieldReadingStop {
    /// Adds the position to an error.
    pub fn at(self, maps: u32, row: u64) -> RequestStop
        ensures { result ≡ request_stop_at_position maps row self }
    {
        match self {
            FieldReadingStop::Memory => RequestStop::Memory,
            FieldReadingStop::Error(kind) => RequestStop::Error(RequestError { kind, maps, row }),
        }
    }
}
