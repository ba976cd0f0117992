//! Finds the runs of cells that are stored as bytes.

ghost use Rattle.std.specs.Prelude.{◌≡◌, ◌<◌, ◌≤◌, ◌^◌, ◌+◌, ◌++◌, length, drop, IfOk, slice_index_or};
ghost use Rattle.cell_core_values.specs.SmallCells.{cell_of_stored_byte, cells_of_bytes};
ghost use Rattle.cell_core.specs.Runs.{AreMaximalRuns, cells_of_runs};
ghost use Rattle.cell_core.specs.parts.RowForms.{alike, runs_of_cells, runs_from_nth_cell_of_run, run_start_mark_bits, cells_after_first_byte};

use crate::runs::{CELLS_COMPARED_AT_A_TIME, push_runs_of_last_cells};
use cell_core_values::cell::Cell;
use cell_core_values::memory::Memory;
use cell_core_values::small_cells::{cell_of_byte, write_bytes_as_cells};
use std::alloc::Global;
use std::simd::prelude::*;

// Returns the number of bytes at the start that stand for `cell`.
pub(crate) fn count_leading_bytes_of_cell(cell: Cell, bytes: &[u8]) -> usize
    ensures value { result ≡ alike cell (cells_of_bytes bytes.now) }
    ensures within { result ≤ length bytes.now }
{
    let mut count: usize = 0;
    for next in bytes {
        if cell_of_byte(*next) != cell {
            return count;
        }
        count = count.wrapping_add(1);
    }
    count
}

// Marks which of the 64 bytes after the first differ from the previous byte. Bit k is for the byte at index k + 1.
#[inline(always)]
fn run_start_bits_in_bytes(bytes: &[u8]) -> u64
    requires { 64 < length bytes.now }
    ensures { result ≡ run_start_mark_bits (cell_of_stored_byte (slice_index_or bytes.now 0 0))
        (cells_after_first_byte bytes.now) }
{
    let before = u8x64::from_slice(bytes);
    u8x64::from_slice(&bytes[1..]).simd_ne(before).to_bitmask()
}

// Returns the number of runs in cells stored as bytes.
pub(crate) fn number_of_byte_runs(bytes: &[u8]) -> usize
    requires { length bytes.now < 2 ^ 32 }
    ensures { result ≡ length (runs_of_cells (cells_of_bytes bytes.now)) }
{
    let mut ended = 0;
    let mut at = 0;
    'blocks: while bytes.len() - at > CELLS_COMPARED_AT_A_TIME {
        ended += run_start_bits_in_bytes(&bytes[at..]).count_ones() as usize;
        at += CELLS_COMPARED_AT_A_TIME;
    }
    ended + number_of_runs_in_last_bytes(&bytes[at..])
}

// Like `number_of_byte_runs`, but processes one byte at a time, for the last bytes of a row.
fn number_of_runs_in_last_bytes(bytes: &[u8]) -> usize
    requires { length bytes.now < 2 ^ 32 }
    ensures { result ≡ length (runs_of_cells (cells_of_bytes bytes.now)) }
{
    if bytes.is_empty() {
        return 0;
    }
    // 32-bit counters are faster in vectors than 64-bit ones. Two bytes are equal if and only if their cells are.
    let mut alike: u32 = 0;
    let mut last = bytes[0];
    for byte in bytes {
        if *byte == last {
            alike = alike.wrapping_add(1);
        }
        last = *byte;
    }
    bytes.len() - alike as usize + 1
}

// Pushes the runs that end before index 64. `nth` is the position of the first byte's cell in its run; returns the
// position of the cell at index 64 in its run.
fn push_runs_of_byte_block(
    runs: &mut Vec<(Cell, u32)>,
    nth: u32,
    bytes: &[u8],
) -> Result<u32, Memory>
    requires size { 64 < length bytes.now }
    requires room { nth + 64 < 2 ^ 32 }
    ensures runs { IfOk result (λ last.
        runs.new.items ++ runs_from_nth_cell_of_run last (cells_of_bytes (drop 64 bytes.now))
        ≡ runs.old.items ++ runs_from_nth_cell_of_run nth (cells_of_bytes bytes.now)) }
    ensures count { IfOk result (λ last. last ≤ nth + 64) }
{
    let mut count = nth;
    let mut at = 0;
    let mut breaks = run_start_bits_in_bytes(bytes);
    'breaks: while breaks != 0 {
        let alike = breaks.trailing_zeros();
        runs.push((cell_of_byte(bytes[at]), count + alike))?;
        count = 1;
        at += alike as usize + 1;
        breaks = (breaks >> alike) >> 1;
    }
    Ok(count + (CELLS_COMPARED_AT_A_TIME - at) as u32)
}

// Returns the runs of cells stored as bytes, of which there are `count_of_runs`. Allocates once.
pub(crate) fn runs_of_bytes(
    alloc: Global,
    bytes: &[u8],
    count_of_runs: usize,
) -> Result<Vec<(Cell, u32)>, Memory>
    requires { length bytes.now < 2 ^ 32 }
    ensures written { IfOk result (λ runs. cells_of_runs runs.items ≡ cells_of_bytes bytes.now) }
    ensures runs { IfOk result (λ runs. AreMaximalRuns runs.items) }
{
    let mut runs = Vec::with_capacity(alloc, count_of_runs)?;
    if bytes.is_empty() {
        return Ok(runs);
    }
    let mut count = 1;
    let mut at = 0;
    'blocks: while bytes.len() - at > CELLS_COMPARED_AT_A_TIME {
        count = push_runs_of_byte_block(&mut runs, count, &bytes[at..])?;
        at += CELLS_COMPARED_AT_A_TIME;
    }
    let last = &bytes[at + 1..];
    let mut block = [Cell::null(); CELLS_COMPARED_AT_A_TIME];
    let cells = &mut block[..last.len()];
    write_bytes_as_cells(last, cells);
    push_runs_of_last_cells(&mut runs, (cell_of_byte(bytes[at]), count), cells)?;
    Ok(runs)
}
