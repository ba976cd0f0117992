//! Compares bytes in vector lanes, to find runs of words.

ghost use Rattle.std.specs.Prelude.{◌≡◌, ◌≤◌, length, take};

use std::simd::prelude::*;

/// Number of bytes that `front_alike` compares.
pub const LANES: usize = 16;

/// Returns the length of the common prefix of two slices, at most 16.
#[inline(always)]
pub fn front_alike(a: &[u8], b: &[u8]) -> usize
    requires left { 16 ≤ length a.now }
    requires right { 16 ≤ length b.now }
    ensures alike { take result a.now ≡ take result b.now }
    ensures few { result ≤ 16 }
{
    let differ = u8x16::from_slice(a)
        .simd_ne(u8x16::from_slice(b))
        .to_bitmask();
    if differ == 0 {
        LANES
    } else {
        differ.trailing_zeros() as usize
    }
}

// Number of bytes of a vector.
const BLOCK: usize = 64;

// Maximum number of bytes inspected to estimate the length of runs.
const SAMPLE: usize = 256;

// Runs are short if they have at most this many bytes on average.
const SHORT_RUN: usize = 64;

/// Returns whether most runs of equal bytes are short, judging by the first bytes. If runs are long, reading cells by
/// runs is faster.
pub fn has_short_runs(bytes: &[u8]) -> bool {
    let mut changes: usize = 0;
    let mut at = 0;
    'blocks: while at < SAMPLE && bytes.len() - at > BLOCK {
        let here = u8x64::from_slice(&bytes[at..]);
        let next = u8x64::from_slice(&bytes[at + 1..]);
        let count = here.simd_ne(next).to_bitmask().count_ones() as usize;
        changes = count.wrapping_add(changes);
        at += BLOCK;
    }
    changes.wrapping_mul(SHORT_RUN) > at
}
