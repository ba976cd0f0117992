//! Reads stars and numbers of at most three digits in vector lanes.
//!
//! Each lane receives the value of the word that would end there, computed from its byte and the two before it. The
//! lanes at which words end are then packed, using a table of bit positions.

ghost use Rattle.std.specs.Prelude.{ℕ, Bool, List, if◌then◌else◌, true, false, ◌≡◌, ◌+◌, ◌*◌, ◌%◌, ◌^◌, ◌<◌, ◌≤◌, length, take, map, bit_and, slice_index_or};
ghost use Rattle.std.specs.Int.{bit_at};
ghost use Rattle.std.specs.Int.RustNames.{count_ones};
ghost use Rattle.std.specs.Simd.Lanes.{mask_l};
ghost use Rattle.cell_core_values.specs.Digits.{is_digit};
ghost use Rattle.cell_ascii_meaning.specs.GridTokens.{is_space};
ghost use Rattle.cell_ascii_lanes.specs.WordLanes.{AreWordValuesAtLastDigits, AreStarsOrThreeDigitNumbers, AreLowBitsUpToSetBitCount, flagged_items, is_null_star};
ghost use Rattle.cell_ascii_lanes.specs.parts.LaneTables.{IsSixteenEntryTableFourTimes, table_place_of_byte, table_place_of_byte_at_position, two_digit_value_at_position, ones_digit_value, tens_digit_value, capped_sum, place_of_lane_before, lane_mask_of_digit};

use std::simd::prelude::*;

// The positions of the set bits of each number below 256, padded with zeros to eight bytes. Eight spare bytes follow,
// so that a vector can be loaded at each entry.
static SET_BIT_POSITIONS_BY_BYTE: [u8; 2056] = [
    0, 0, 0, 0, 0, 0, 0, 0, 0, 0, 0, 0, 0, 0, 0, 0, 1, 0, 0, 0, 0, 0, 0, 0, 0, 1, 0, 0, 0, 0, 0, 0,
    2, 0, 0, 0, 0, 0, 0, 0, 0, 2, 0, 0, 0, 0, 0, 0, 1, 2, 0, 0, 0, 0, 0, 0, 0, 1, 2, 0, 0, 0, 0, 0,
    3, 0, 0, 0, 0, 0, 0, 0, 0, 3, 0, 0, 0, 0, 0, 0, 1, 3, 0, 0, 0, 0, 0, 0, 0, 1, 3, 0, 0, 0, 0, 0,
    2, 3, 0, 0, 0, 0, 0, 0, 0, 2, 3, 0, 0, 0, 0, 0, 1, 2, 3, 0, 0, 0, 0, 0, 0, 1, 2, 3, 0, 0, 0, 0,
    4, 0, 0, 0, 0, 0, 0, 0, 0, 4, 0, 0, 0, 0, 0, 0, 1, 4, 0, 0, 0, 0, 0, 0, 0, 1, 4, 0, 0, 0, 0, 0,
    2, 4, 0, 0, 0, 0, 0, 0, 0, 2, 4, 0, 0, 0, 0, 0, 1, 2, 4, 0, 0, 0, 0, 0, 0, 1, 2, 4, 0, 0, 0, 0,
    3, 4, 0, 0, 0, 0, 0, 0, 0, 3, 4, 0, 0, 0, 0, 0, 1, 3, 4, 0, 0, 0, 0, 0, 0, 1, 3, 4, 0, 0, 0, 0,
    2, 3, 4, 0, 0, 0, 0, 0, 0, 2, 3, 4, 0, 0, 0, 0, 1, 2, 3, 4, 0, 0, 0, 0, 0, 1, 2, 3, 4, 0, 0, 0,
    5, 0, 0, 0, 0, 0, 0, 0, 0, 5, 0, 0, 0, 0, 0, 0, 1, 5, 0, 0, 0, 0, 0, 0, 0, 1, 5, 0, 0, 0, 0, 0,
    2, 5, 0, 0, 0, 0, 0, 0, 0, 2, 5, 0, 0, 0, 0, 0, 1, 2, 5, 0, 0, 0, 0, 0, 0, 1, 2, 5, 0, 0, 0, 0,
    3, 5, 0, 0, 0, 0, 0, 0, 0, 3, 5, 0, 0, 0, 0, 0, 1, 3, 5, 0, 0, 0, 0, 0, 0, 1, 3, 5, 0, 0, 0, 0,
    2, 3, 5, 0, 0, 0, 0, 0, 0, 2, 3, 5, 0, 0, 0, 0, 1, 2, 3, 5, 0, 0, 0, 0, 0, 1, 2, 3, 5, 0, 0, 0,
    4, 5, 0, 0, 0, 0, 0, 0, 0, 4, 5, 0, 0, 0, 0, 0, 1, 4, 5, 0, 0, 0, 0, 0, 0, 1, 4, 5, 0, 0, 0, 0,
    2, 4, 5, 0, 0, 0, 0, 0, 0, 2, 4, 5, 0, 0, 0, 0, 1, 2, 4, 5, 0, 0, 0, 0, 0, 1, 2, 4, 5, 0, 0, 0,
    3, 4, 5, 0, 0, 0, 0, 0, 0, 3, 4, 5, 0, 0, 0, 0, 1, 3, 4, 5, 0, 0, 0, 0, 0, 1, 3, 4, 5, 0, 0, 0,
    2, 3, 4, 5, 0, 0, 0, 0, 0, 2, 3, 4, 5, 0, 0, 0, 1, 2, 3, 4, 5, 0, 0, 0, 0, 1, 2, 3, 4, 5, 0, 0,
    6, 0, 0, 0, 0, 0, 0, 0, 0, 6, 0, 0, 0, 0, 0, 0, 1, 6, 0, 0, 0, 0, 0, 0, 0, 1, 6, 0, 0, 0, 0, 0,
    2, 6, 0, 0, 0, 0, 0, 0, 0, 2, 6, 0, 0, 0, 0, 0, 1, 2, 6, 0, 0, 0, 0, 0, 0, 1, 2, 6, 0, 0, 0, 0,
    3, 6, 0, 0, 0, 0, 0, 0, 0, 3, 6, 0, 0, 0, 0, 0, 1, 3, 6, 0, 0, 0, 0, 0, 0, 1, 3, 6, 0, 0, 0, 0,
    2, 3, 6, 0, 0, 0, 0, 0, 0, 2, 3, 6, 0, 0, 0, 0, 1, 2, 3, 6, 0, 0, 0, 0, 0, 1, 2, 3, 6, 0, 0, 0,
    4, 6, 0, 0, 0, 0, 0, 0, 0, 4, 6, 0, 0, 0, 0, 0, 1, 4, 6, 0, 0, 0, 0, 0, 0, 1, 4, 6, 0, 0, 0, 0,
    2, 4, 6, 0, 0, 0, 0, 0, 0, 2, 4, 6, 0, 0, 0, 0, 1, 2, 4, 6, 0, 0, 0, 0, 0, 1, 2, 4, 6, 0, 0, 0,
    3, 4, 6, 0, 0, 0, 0, 0, 0, 3, 4, 6, 0, 0, 0, 0, 1, 3, 4, 6, 0, 0, 0, 0, 0, 1, 3, 4, 6, 0, 0, 0,
    2, 3, 4, 6, 0, 0, 0, 0, 0, 2, 3, 4, 6, 0, 0, 0, 1, 2, 3, 4, 6, 0, 0, 0, 0, 1, 2, 3, 4, 6, 0, 0,
    5, 6, 0, 0, 0, 0, 0, 0, 0, 5, 6, 0, 0, 0, 0, 0, 1, 5, 6, 0, 0, 0, 0, 0, 0, 1, 5, 6, 0, 0, 0, 0,
    2, 5, 6, 0, 0, 0, 0, 0, 0, 2, 5, 6, 0, 0, 0, 0, 1, 2, 5, 6, 0, 0, 0, 0, 0, 1, 2, 5, 6, 0, 0, 0,
    3, 5, 6, 0, 0, 0, 0, 0, 0, 3, 5, 6, 0, 0, 0, 0, 1, 3, 5, 6, 0, 0, 0, 0, 0, 1, 3, 5, 6, 0, 0, 0,
    2, 3, 5, 6, 0, 0, 0, 0, 0, 2, 3, 5, 6, 0, 0, 0, 1, 2, 3, 5, 6, 0, 0, 0, 0, 1, 2, 3, 5, 6, 0, 0,
    4, 5, 6, 0, 0, 0, 0, 0, 0, 4, 5, 6, 0, 0, 0, 0, 1, 4, 5, 6, 0, 0, 0, 0, 0, 1, 4, 5, 6, 0, 0, 0,
    2, 4, 5, 6, 0, 0, 0, 0, 0, 2, 4, 5, 6, 0, 0, 0, 1, 2, 4, 5, 6, 0, 0, 0, 0, 1, 2, 4, 5, 6, 0, 0,
    3, 4, 5, 6, 0, 0, 0, 0, 0, 3, 4, 5, 6, 0, 0, 0, 1, 3, 4, 5, 6, 0, 0, 0, 0, 1, 3, 4, 5, 6, 0, 0,
    2, 3, 4, 5, 6, 0, 0, 0, 0, 2, 3, 4, 5, 6, 0, 0, 1, 2, 3, 4, 5, 6, 0, 0, 0, 1, 2, 3, 4, 5, 6, 0,
    7, 0, 0, 0, 0, 0, 0, 0, 0, 7, 0, 0, 0, 0, 0, 0, 1, 7, 0, 0, 0, 0, 0, 0, 0, 1, 7, 0, 0, 0, 0, 0,
    2, 7, 0, 0, 0, 0, 0, 0, 0, 2, 7, 0, 0, 0, 0, 0, 1, 2, 7, 0, 0, 0, 0, 0, 0, 1, 2, 7, 0, 0, 0, 0,
    3, 7, 0, 0, 0, 0, 0, 0, 0, 3, 7, 0, 0, 0, 0, 0, 1, 3, 7, 0, 0, 0, 0, 0, 0, 1, 3, 7, 0, 0, 0, 0,
    2, 3, 7, 0, 0, 0, 0, 0, 0, 2, 3, 7, 0, 0, 0, 0, 1, 2, 3, 7, 0, 0, 0, 0, 0, 1, 2, 3, 7, 0, 0, 0,
    4, 7, 0, 0, 0, 0, 0, 0, 0, 4, 7, 0, 0, 0, 0, 0, 1, 4, 7, 0, 0, 0, 0, 0, 0, 1, 4, 7, 0, 0, 0, 0,
    2, 4, 7, 0, 0, 0, 0, 0, 0, 2, 4, 7, 0, 0, 0, 0, 1, 2, 4, 7, 0, 0, 0, 0, 0, 1, 2, 4, 7, 0, 0, 0,
    3, 4, 7, 0, 0, 0, 0, 0, 0, 3, 4, 7, 0, 0, 0, 0, 1, 3, 4, 7, 0, 0, 0, 0, 0, 1, 3, 4, 7, 0, 0, 0,
    2, 3, 4, 7, 0, 0, 0, 0, 0, 2, 3, 4, 7, 0, 0, 0, 1, 2, 3, 4, 7, 0, 0, 0, 0, 1, 2, 3, 4, 7, 0, 0,
    5, 7, 0, 0, 0, 0, 0, 0, 0, 5, 7, 0, 0, 0, 0, 0, 1, 5, 7, 0, 0, 0, 0, 0, 0, 1, 5, 7, 0, 0, 0, 0,
    2, 5, 7, 0, 0, 0, 0, 0, 0, 2, 5, 7, 0, 0, 0, 0, 1, 2, 5, 7, 0, 0, 0, 0, 0, 1, 2, 5, 7, 0, 0, 0,
    3, 5, 7, 0, 0, 0, 0, 0, 0, 3, 5, 7, 0, 0, 0, 0, 1, 3, 5, 7, 0, 0, 0, 0, 0, 1, 3, 5, 7, 0, 0, 0,
    2, 3, 5, 7, 0, 0, 0, 0, 0, 2, 3, 5, 7, 0, 0, 0, 1, 2, 3, 5, 7, 0, 0, 0, 0, 1, 2, 3, 5, 7, 0, 0,
    4, 5, 7, 0, 0, 0, 0, 0, 0, 4, 5, 7, 0, 0, 0, 0, 1, 4, 5, 7, 0, 0, 0, 0, 0, 1, 4, 5, 7, 0, 0, 0,
    2, 4, 5, 7, 0, 0, 0, 0, 0, 2, 4, 5, 7, 0, 0, 0, 1, 2, 4, 5, 7, 0, 0, 0, 0, 1, 2, 4, 5, 7, 0, 0,
    3, 4, 5, 7, 0, 0, 0, 0, 0, 3, 4, 5, 7, 0, 0, 0, 1, 3, 4, 5, 7, 0, 0, 0, 0, 1, 3, 4, 5, 7, 0, 0,
    2, 3, 4, 5, 7, 0, 0, 0, 0, 2, 3, 4, 5, 7, 0, 0, 1, 2, 3, 4, 5, 7, 0, 0, 0, 1, 2, 3, 4, 5, 7, 0,
    6, 7, 0, 0, 0, 0, 0, 0, 0, 6, 7, 0, 0, 0, 0, 0, 1, 6, 7, 0, 0, 0, 0, 0, 0, 1, 6, 7, 0, 0, 0, 0,
    2, 6, 7, 0, 0, 0, 0, 0, 0, 2, 6, 7, 0, 0, 0, 0, 1, 2, 6, 7, 0, 0, 0, 0, 0, 1, 2, 6, 7, 0, 0, 0,
    3, 6, 7, 0, 0, 0, 0, 0, 0, 3, 6, 7, 0, 0, 0, 0, 1, 3, 6, 7, 0, 0, 0, 0, 0, 1, 3, 6, 7, 0, 0, 0,
    2, 3, 6, 7, 0, 0, 0, 0, 0, 2, 3, 6, 7, 0, 0, 0, 1, 2, 3, 6, 7, 0, 0, 0, 0, 1, 2, 3, 6, 7, 0, 0,
    4, 6, 7, 0, 0, 0, 0, 0, 0, 4, 6, 7, 0, 0, 0, 0, 1, 4, 6, 7, 0, 0, 0, 0, 0, 1, 4, 6, 7, 0, 0, 0,
    2, 4, 6, 7, 0, 0, 0, 0, 0, 2, 4, 6, 7, 0, 0, 0, 1, 2, 4, 6, 7, 0, 0, 0, 0, 1, 2, 4, 6, 7, 0, 0,
    3, 4, 6, 7, 0, 0, 0, 0, 0, 3, 4, 6, 7, 0, 0, 0, 1, 3, 4, 6, 7, 0, 0, 0, 0, 1, 3, 4, 6, 7, 0, 0,
    2, 3, 4, 6, 7, 0, 0, 0, 0, 2, 3, 4, 6, 7, 0, 0, 1, 2, 3, 4, 6, 7, 0, 0, 0, 1, 2, 3, 4, 6, 7, 0,
    5, 6, 7, 0, 0, 0, 0, 0, 0, 5, 6, 7, 0, 0, 0, 0, 1, 5, 6, 7, 0, 0, 0, 0, 0, 1, 5, 6, 7, 0, 0, 0,
    2, 5, 6, 7, 0, 0, 0, 0, 0, 2, 5, 6, 7, 0, 0, 0, 1, 2, 5, 6, 7, 0, 0, 0, 0, 1, 2, 5, 6, 7, 0, 0,
    3, 5, 6, 7, 0, 0, 0, 0, 0, 3, 5, 6, 7, 0, 0, 0, 1, 3, 5, 6, 7, 0, 0, 0, 0, 1, 3, 5, 6, 7, 0, 0,
    2, 3, 5, 6, 7, 0, 0, 0, 0, 2, 3, 5, 6, 7, 0, 0, 1, 2, 3, 5, 6, 7, 0, 0, 0, 1, 2, 3, 5, 6, 7, 0,
    4, 5, 6, 7, 0, 0, 0, 0, 0, 4, 5, 6, 7, 0, 0, 0, 1, 4, 5, 6, 7, 0, 0, 0, 0, 1, 4, 5, 6, 7, 0, 0,
    2, 4, 5, 6, 7, 0, 0, 0, 0, 2, 4, 5, 6, 7, 0, 0, 1, 2, 4, 5, 6, 7, 0, 0, 0, 1, 2, 4, 5, 6, 7, 0,
    3, 4, 5, 6, 7, 0, 0, 0, 0, 3, 4, 5, 6, 7, 0, 0, 1, 3, 4, 5, 6, 7, 0, 0, 0, 1, 3, 4, 5, 6, 7, 0,
    2, 3, 4, 5, 6, 7, 0, 0, 0, 2, 3, 4, 5, 6, 7, 0, 1, 2, 3, 4, 5, 6, 7, 0, 0, 1, 2, 3, 4, 5, 6, 7,
    0, 0, 0, 0, 0, 0, 0, 0,
];

// The value of a digit in the last position of a word, indexed by its byte minus 48. The table is repeated for each of
// the four parts of a vector.
static ONES_DIGIT_VALUES: [u8; 64] = [
    0, 1, 2, 3, 4, 5, 6, 7, 8, 9, 0, 0, 0, 0, 0, 0, 0, 1, 2, 3, 4, 5, 6, 7, 8, 9, 0, 0, 0, 0, 0, 0,
    0, 1, 2, 3, 4, 5, 6, 7, 8, 9, 0, 0, 0, 0, 0, 0, 0, 1, 2, 3, 4, 5, 6, 7, 8, 9, 0, 0, 0, 0, 0, 0,
];

// Like `ONES_DIGIT_VALUES`, for the second-to-last digit.
static TENS_DIGIT_VALUES: [u8; 64] = [
    0, 10, 20, 30, 40, 50, 60, 70, 80, 90, 0, 0, 0, 0, 0, 0, 0, 10, 20, 30, 40, 50, 60, 70, 80, 90,
    0, 0, 0, 0, 0, 0, 0, 10, 20, 30, 40, 50, 60, 70, 80, 90, 0, 0, 0, 0, 0, 0, 0, 10, 20, 30, 40,
    50, 60, 70, 80, 90, 0, 0, 0, 0, 0, 0,
];

// Like `ONES_DIGIT_VALUES`, for the third-to-last digit; 255 if the word would exceed 254.
static HUNDREDS_DIGIT_VALUES: [u8; 64] = [
    0, 100, 200, 255, 255, 255, 255, 255, 255, 255, 0, 0, 0, 0, 0, 0, 0, 100, 200, 255, 255, 255,
    255, 255, 255, 255, 0, 0, 0, 0, 0, 0, 0, 100, 200, 255, 255, 255, 255, 255, 255, 255, 0, 0, 0,
    0, 0, 0, 0, 100, 200, 255, 255, 255, 255, 255, 255, 255, 0, 0, 0, 0, 0, 0,
];

// All bits set for digits, indexed like `ONES_DIGIT_VALUES`.
static DIGIT_LANE_MASKS: [u8; 64] = [
    255, 255, 255, 255, 255, 255, 255, 255, 255, 255, 0, 0, 0, 0, 0, 0, 255, 255, 255, 255, 255,
    255, 255, 255, 255, 255, 0, 0, 0, 0, 0, 0, 255, 255, 255, 255, 255, 255, 255, 255, 255, 255, 0,
    0, 0, 0, 0, 0, 255, 255, 255, 255, 255, 255, 255, 255, 255, 255, 0, 0, 0, 0, 0, 0,
];

// Blanks and line feeds, indexed by the low four bits of their bytes. All other entries are 0, and no byte with these
// low bits is 0.
static SPACE_BYTES_BY_LOW_BITS: [u8; 64] = [
    32, 0, 0, 0, 0, 0, 0, 0, 0, 9, 10, 0, 0, 13, 0, 0, 32, 0, 0, 0, 0, 0, 0, 0, 0, 9, 10, 0, 0, 13,
    0, 0, 32, 0, 0, 0, 0, 0, 0, 0, 0, 9, 10, 0, 0, 13, 0, 0, 32, 0, 0, 0, 0, 0, 0, 0, 0, 9, 10, 0,
    0, 13, 0, 0,
];

// Returns the table entries at the indices given by `places`.
#[inline(always)]
fn looked_up_table_bytes(table: &[u8; 64], places: u8x64) -> u8x64
    requires { (k : ℕ) → slice_index_or places k 0 < 16 }
    ensures { (f : ℕ → ℕ) → IsSixteenEntryTableFourTimes f table.now → result ≡ map f places }
{
    u8x64::from_slice(table).swizzle_dyn_within::<16>(places)
}

// Returns the table index of each byte.
#[inline(always)]
fn table_places_of_bytes(bytes: u8x64) -> u8x64
    ensures { result ≡ map table_place_of_byte bytes }
{
    (bytes - u8x64::splat(b'0')).simd_min(u8x64::splat(15))
}

// Adds lanes, capping sums at 255.
#[inline(always)]
fn capped_lane_sums(a: u8x64, b: u8x64) -> u8x64
    ensures { (p : ℕ) → p < 64
        → slice_index_or result p 0 ≡ capped_sum (slice_index_or a p 0) (slice_index_or b p 0) }
{
    a.saturating_add(b)
}

// Rotates the lanes by one, so that each lane receives its predecessor.
#[inline(always)]
fn lanes_rotated_by_one(lanes: u8x64) -> u8x64
    ensures { (p : ℕ) → p < 64
        → slice_index_or result p 0 ≡ slice_index_or lanes (place_of_lane_before p) 0 }
{
    lanes.rotate_elements_right::<1>()
}

// Keeps the lanes whose table index is a digit, and sets the others to 0.
#[inline(always)]
fn lanes_kept_at_digits(places: u8x64, lanes: u8x64) -> u8x64
    requires { (k : ℕ) → slice_index_or places k 0 < 16 }
    ensures { (p : ℕ) → p < 64 → slice_index_or result p 0
        ≡ bit_and (lane_mask_of_digit (slice_index_or places p 0)) (slice_index_or lanes p 0) }
{
    looked_up_table_bytes(&DIGIT_LANE_MASKS, places) & lanes
}

// Returns the values of words of one or two digits, at their last digits.
#[inline(always)]
pub(crate) fn values_of_two_digit_words(bytes: u8x64) -> u8x64
    ensures { (p : ℕ) → p < 64 → slice_index_or result p 0
        ≡ capped_sum (ones_digit_value (table_place_of_byte_at_position bytes p))
        (tens_digit_value (table_place_of_byte_at_position bytes (place_of_lane_before p))) }
{
    let places = table_places_of_bytes(bytes);
    let tens = looked_up_table_bytes(&TENS_DIGIT_VALUES, places);
    capped_lane_sums(
        looked_up_table_bytes(&ONES_DIGIT_VALUES, places),
        lanes_rotated_by_one(tens),
    )
}

// Returns the values of words of one to three digits, at their last digits; 255 stands for larger values.
#[inline(always)]
pub(crate) fn values_of_three_digit_words(bytes: u8x64) -> u8x64
    ensures { (p : ℕ) → p < 64 → slice_index_or result p 0
        ≡ capped_sum (ones_digit_value (table_place_of_byte_at_position bytes p))
        (two_digit_value_at_position bytes (place_of_lane_before p)) }
{
    let places = table_places_of_bytes(bytes);
    let hundreds = lanes_kept_at_digits(
        places,
        lanes_rotated_by_one(looked_up_table_bytes(&HUNDREDS_DIGIT_VALUES, places)),
    );
    let more = capped_lane_sums(looked_up_table_bytes(&TENS_DIGIT_VALUES, places), hundreds);
    capped_lane_sums(
        looked_up_table_bytes(&ONES_DIGIT_VALUES, places),
        lanes_rotated_by_one(more),
    )
}

/// Returns a mask of the bytes that are blanks or line feeds.
#[inline(always)]
pub fn space_mask(bytes: u8x64) -> u64
    ensures { result ≡ mask_l (map is_space bytes) }
{
    looked_up_table_bytes(&SPACE_BYTES_BY_LOW_BITS, bytes & u8x64::splat(15))
        .simd_eq(bytes)
        .to_bitmask()
}

/// Returns a mask of the bytes that are digits.
#[inline(always)]
pub fn digit_mask(bytes: u8x64) -> u64
    ensures { result ≡ mask_l (map is_digit bytes) }
{
    table_places_of_bytes(bytes)
        .simd_lt(u8x64::splat(10))
        .to_bitmask()
}

// Returns whether the value at any digit is 255.
#[inline(always)]
fn has_digit_value_of_255(bytes: u8x64, values: u8x64) -> bool
    ensures { result ≡ false → (p : ℕ) → p < 64 → is_digit (slice_index_or bytes p 0) ≡ true
        → slice_index_or values p 0 < 255 }
{
    let is_digit = table_places_of_bytes(bytes).simd_lt(u8x64::splat(10));
    (is_digit & values.simd_eq(u8x64::splat(255))).to_bitmask() != 0
}

/// Returns the values of words of at most three digits, and whether all of them are below 255.
#[inline(always)]
pub fn word_values_and_if_below_255(bytes: u8x64, words: u64) -> (u8x64, bool)
    requires { (p : ℕ) → p < 64 → is_digit (slice_index_or bytes p 0) ≡ true → bit_at words p ≡ 1 }
    ensures { result.1 ≡ true → AreWordValuesAtLastDigits bytes result.0 }
{
    if words & (words << 1) & (words << 2) == 0 {
        return (values_of_two_digit_words(bytes), true);
    }
    let values = values_of_three_digit_words(bytes);
    (values, !has_digit_value_of_255(bytes, values))
}

/// Returns whether a blank comes first and all words are stars or numbers of at most three digits.
#[inline(always)]
pub fn are_stars_or_short_numbers(words: u64, digits: u64, stars: u64) -> bool
    ensures { result ≡ true → AreStarsOrThreeDigitNumbers words digits stars }
{
    let two = words & (words << 1);
    let other = words & !(digits | stars);
    let joined = stars & ((words << 1) | (words >> 1));
    (other | joined | (two & (two << 2)) | (words & 1)) == 0
}

// Moves the lanes whose bits are set to the start; there are at most eight.
#[inline(always)]
fn selected_lanes_moved_to_start(values: u8x16, bits: u64) -> u8x16
    requires { bits < 256 }
    ensures lanes { (ms : List Bool) → length ms ≡ 8 → bits ≡ mask_l ms
        → take (count_ones bits) result ≡ flagged_items ms values }
    ensures long { length result ≡ 16 }
{
    values.swizzle_dyn(u8x16::from_slice(&SET_BIT_POSITIONS_BY_BYTE[8 * bits as usize..]))
}

/// Writes the bytes whose bits are set to the start of a row. Returns their number.
#[inline(always)]
pub fn put_selected_lanes_in_row(values: &[u8], bits: u64, row: &mut [u8]) -> usize
    requires values { 72 ≤ length values.now }
    requires room { 72 ≤ length row.old }
    ensures { (ms : List Bool) → length ms ≡ 64 → bits ≡ mask_l ms
        → (result ≡ count_ones bits) × (take result row.new
        ≡ flagged_items ms (take 64 values.now)) }
{
    let mut i = 0;
    for k in 0..8 {
        let part = (bits >> (8 * k)) & 255;
        selected_lanes_moved_to_start(u8x16::from_slice(&values[8 * k..]), part).copy_to_slice(
            &mut row[i..],
        );
        i += part.count_ones() as usize;
    }
    i
}

// Returns `place + step` if at most `most` bits below it are set, and `place` otherwise.
#[inline(always)]
fn place_stepped_if_few_bits_below(bits: u64, most: usize, place: usize, step: usize) -> usize
    requires within { place + step < 64 }
    requires few { count_ones (bits % 2 ^ place) ≤ most }
    ensures within { result ≤ place + step }
    ensures few { count_ones (bits % 2 ^ result) ≤ most }
{
    if (bits & ((1 << (place + step)) - 1)).count_ones() as usize <= most {
        place + step
    } else {
        place
    }
}

/// Returns the lowest bits of `bits`, as many as contain at most `most` set bits.
#[inline(always)]
pub fn lowest_bits_up_to_set_bit_count(bits: u64, most: usize) -> u64
    ensures { AreLowBitsUpToSetBitCount bits most result }
{
    if bits.count_ones() as usize <= most {
        return bits;
    }
    let place = place_stepped_if_few_bits_below(bits, most, 0, 32);
    let place = place_stepped_if_few_bits_below(bits, most, place, 16);
    let place = place_stepped_if_few_bits_below(bits, most, place, 8);
    let place = place_stepped_if_few_bits_below(bits, most, place, 4);
    let place = place_stepped_if_few_bits_below(bits, most, place, 2);
    let place = place_stepped_if_few_bits_below(bits, most, place, 1);
    bits & ((1 << place) - 1)
}

/// Writes the bytes of cells: the values of words of digits, and 255 for stars.
#[inline(always)]
pub fn put_cell_bytes_in_lanes(bytes: u8x64, values: u8x64, lanes: &mut [u8])
    requires { 64 ≤ length lanes.old }
    ensures { (p : ℕ) → p < 64 → slice_index_or lanes.new p 0
        ≡ (if is_null_star (slice_index_or bytes p 0) then 255 else slice_index_or values p 0) }
{
    bytes
        .simd_eq(u8x64::splat(b'*'))
        .select(u8x64::splat(255), values)
        .copy_to_slice(lanes);
}

/// Returns a mask of the bytes that are stars.
#[inline(always)]
pub fn star_mask(bytes: u8x64) -> u64
    ensures { result ≡ mask_l (map is_null_star bytes) }
{
    bytes.simd_eq(u8x64::splat(b'*')).to_bitmask()
}
