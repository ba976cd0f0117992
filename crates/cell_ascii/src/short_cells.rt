//! Reads cells whose bytes are in the buffer.

ghost use Rattle.std.specs.Prelude.{◌≡◌, ℕ, List, ◌∷◌, ◌++◌, ◌+◌, ◌*◌, ◌/◌, ◌<◌, ◌≤◌, pos, neg_ℤ, length, take, drop, replicate, Some, IfSome};
ghost use Rattle.cell_ascii.specs.BufferedCells.{FirstBytesDetermineCell, FirstBytesHoldNextWord, BytesStartWithNumber, FirstBytesAreRepeated, first_bytes_without_space};
ghost use Rattle.cell_ascii.specs.TableWords.{AreNextCellsReadIntoRow};
ghost use Rattle.cell_ascii_meaning.specs.EdgeNumbers.{whole_number_of_text};
ghost use Rattle.cell_ascii.specs.parts.InLine.{AreCellsOfLineReadIntoRow};

use crate::word_table::WordTable;
use cell_ascii_lanes::pace::{Pace, Way};
use cell_ascii_lanes::run_lanes::{LANES, front_alike};
use cell_ascii_reading::header::Header;
use cell_ascii_reading::scanner::is_space;
use cell_core::cell::Cell;
use cell_core_values::whole_numbers::is_digit;

// Maximum number of digits for which every number fits in 32 bits.
pub(crate) const MOST_DIGITS_FITTING_32_BITS: usize = 9;

// Maximum length of a word.
const MOST_WORD_BYTES: usize = 64;

// Looking for repeated words runs on credit: each word costs credit, each repetition earns 1, up to a maximum. When the
// credit is used up, cells are read one by one for a while.
const MOST_REPETITION_CREDIT: usize = 8;

const REPETITION_CREDIT_COST_OF_WORD: usize = 2;

// Number of tries without a cell before `cells_in` gives up.
const MOST_TRIES_WITHOUT_CELL: usize = 3;

// Reads one to three digits followed by a blank or line feed from the start of four bytes. Returns the value and the
// number of digits.
#[inline(always)]
#[tactic(auto, using(crate::proofs::BufferedLemmas::short_one, crate::proofs::BufferedLemmas::short_two, crate::proofs::BufferedLemmas::short_three))]
fn read_up_to_three_digits(a: u8, b: u8, c: u8, d: u8) -> Option<(u32, usize)>
    ensures { IfSome result (λ r. (bytes : List ℕ)
        → BytesStartWithNumber (a ∷ b ∷ c ∷ d ∷ bytes) r.0 r.1) }
{
    if !is_digit(a) {
        return None;
    }
    let value = (a - b'0') as u32;
    if is_space(b) {
        return Some((value, 1));
    }
    if !is_digit(b) {
        return None;
    }
    let value = value * 10 + (b - b'0') as u32;
    if is_space(c) {
        return Some((value, 2));
    }
    if !is_digit(c) || !is_space(d) {
        return None;
    }
    Some((value * 10 + (c - b'0') as u32, 3))
}

// Reads one to nine digits followed by a blank or line feed. Returns the value and the number of digits.
#[inline(always)]
fn read_up_to_nine_digits(bytes: &[u8]) -> Option<(u32, usize)>
    ensures { IfSome result (λ r. BytesStartWithNumber bytes.now r.0 r.1) }
{
    let mut value = 0u32;
    for (i, b) in bytes.iter().enumerate() {
        if is_digit(*b) {
            if i >= MOST_DIGITS_FITTING_32_BITS {
                return None;
            }
            value = value * 10 + (*b - b'0') as u32;
        } else if i > 0 && is_space(*b) {
            return Some((value, i));
        } else {
            return None;
        }
    }
    None
}

// Negates a value that was read after a minus sign.
pub(crate) fn negated_value(value: u32) -> i64
    ensures { result ≡ neg_ℤ (pos value) }
{
    -(value as i64)
}

// Reads a space, a number of one to three digits, and the byte that ends it. Returns the number and the bytes before
// that last byte. The buffer must be long enough for the longest form, so that its length is checked only once.
#[inline(always)]
fn read_spaced_short_number(buffered: &[u8]) -> Option<(i64, usize)>
    ensures word { IfSome result (λ r. FirstBytesHoldNextWord buffered.now r.1) }
    ensures number { IfSome result (λ r. whole_number_of_text
        (first_bytes_without_space buffered.now r.1) ≡ Some r.0) }
    ensures within { IfSome result (λ r. (0 < r.1) × (r.1 ≤ length buffered.now)) }
{
    let [b' ', a, b, c, d, e, ..] = buffered else {
        return None;
    };
    if *a == b'-' {
        let (value, n) = read_up_to_three_digits(*b, *c, *d, *e)?;
        return Some((negated_value(value), n + 2));
    }
    let (value, n) = read_up_to_three_digits(*a, *b, *c, *d)?;
    Some((value as i64, n + 1))
}

// Like `read_spaced_short_number`, for numbers of one to nine digits.
fn read_spaced_number(buffered: &[u8]) -> Option<(i64, usize)>
    ensures word { IfSome result (λ r. FirstBytesHoldNextWord buffered.now r.1) }
    ensures number { IfSome result (λ r. whole_number_of_text
        (first_bytes_without_space buffered.now r.1) ≡ Some r.0) }
    ensures within { IfSome result (λ r. (0 < r.1) × (r.1 ≤ length buffered.now)) }
{
    let [b' ', rest @ ..] = buffered else {
        return None
    };
    if let [b'-', digits @ ..] = rest {
        let (value, n) = read_up_to_nine_digits(digits)?;
        return Some((negated_value(value), n + 2));
    }
    let (value, n) = read_up_to_nine_digits(rest)?;
    Some((value as i64, n + 1))
}

// Finds a space, a word, and the byte that ends it. Returns the number of bytes before that last byte.
fn length_of_spaced_word(buffered: &[u8]) -> Option<usize>
    ensures word { IfSome result (λ n. FirstBytesHoldNextWord buffered.now n) }
    ensures within { IfSome result (λ n. (0 < n) × (n ≤ length buffered.now)) }
{
    let [b' ', rest @ ..] = buffered else {
        return None
    };
    for (i, b) in rest.iter().enumerate() {
        if is_space(*b) {
            return if 0 < i && i <= MOST_WORD_BYTES {
                Some(i + 1)
            } else {
                None
            };
        }
    }
    None
}

// Returns the cell of the number that ends before index `n`, together with `n`.
#[inline(always)]
fn cell_of_number_and_end_index(
    buffered: &[u8],
    header: &Header,
    number: i64,
    n: usize,
) -> Option<(Cell, usize)>
    requires word { FirstBytesHoldNextWord buffered.now n }
    requires number { whole_number_of_text (first_bytes_without_space buffered.now n)
        ≡ Some number }
    requires within { (0 < n) × (n ≤ length buffered.now) }
    ensures cell { IfSome result (λ r. FirstBytesDetermineCell header.now buffered.now r.0 r.1) }
    ensures within { IfSome result (λ r. (0 < r.1) × (r.1 ≤ length buffered.now)) }
{
    match header.cell_of_number(&buffered[1..n], number) {
        Ok(cell) => Some((cell, n)),
        Err(_) => None,
    }
}

// Like `read_first_buffered_cell`, for words that are not short numbers.
#[inline(never)]
fn read_cell_of_long_or_other_word(buffered: &[u8], header: &Header) -> Option<(Cell, usize)>
    ensures cell { IfSome result (λ r. FirstBytesDetermineCell header.now buffered.now r.0 r.1) }
    ensures within { IfSome result (λ r. (0 < r.1) × (r.1 ≤ length buffered.now)) }
{
    if let Some((number, n)) = read_spaced_number(buffered) {
        return cell_of_number_and_end_index(buffered, header, number, n);
    }
    let n = length_of_spaced_word(buffered)?;
    match header.cell_of_word(&buffered[1..n]) {
        Ok(cell) => Some((cell, n)),
        Err(_) => None,
    }
}

// Reads a space and a word that ends within the buffer. Returns the cell and the number of bytes read, or `None` if the
// bytes have another form or the word is not a cell.
#[inline(always)]
fn read_first_buffered_cell(buffered: &[u8], header: &Header) -> Option<(Cell, usize)>
    ensures cell { IfSome result (λ r. FirstBytesDetermineCell header.now buffered.now r.0 r.1) }
    ensures within { IfSome result (λ r. (0 < r.1) × (r.1 ≤ length buffered.now)) }
{
    match read_spaced_short_number(buffered) {
        Some((number, n)) => cell_of_number_and_end_index(buffered, header, number, n),
        None => read_cell_of_long_or_other_word(buffered, header),
    }
}

// Returns the number of bytes from index `n` on that equal the byte `n` places earlier. May ignore some of the last
// buffered bytes.
#[inline(always)]
fn byte_count_continuing_period(buffered: &[u8], n: usize) -> usize
    requires { n ≤ length buffered.now }
    ensures alike { take result (drop n buffered.now) ≡ take result buffered.now }
    ensures within { n + result ≤ length buffered.now }
{
    let later = &buffered[n..];
    let mut count = 0;
    'loads: while later.len() - count >= LANES {
        let more = front_alike(&later[count..], &buffered[count..]);
        if more < LANES {
            return count + more;
        }
        // Adding a constant, not `more`, lets the next load start before this comparison ends.
        count += LANES;
    }
    count
}

// Divides `a` by `n`. The most common word lengths have their own branches, so the compiler divides by a constant.
#[inline(always)]
fn quotient_by_word_length(a: usize, n: usize) -> usize
    requires { 0 < n }
    ensures { result ≡ a / n }
{
    match n {
        2 => a / 2,
        3 => a / 3,
        4 => a / 4,
        5 => a / 5,
        _ => a / n,
    }
}

// Returns the number of times that the first `n` bytes and the byte after them are repeated within the buffer.
#[inline(always)]
fn repetition_count_of_first_word(buffered: &[u8], n: usize) -> usize
    requires some { 0 < n }
    requires within { n ≤ length buffered.now }
    ensures again { FirstBytesAreRepeated buffered.now n result }
    ensures within { n + result * n ≤ length buffered.now }
{
    let bytes = byte_count_continuing_period(buffered, n);
    if bytes == 0 {
        return 0;
    }
    quotient_by_word_length(bytes - 1, n)
}

// Writes `cell` to `count` cells of a row, starting at index `at`.
#[inline(always)]
fn fill_cells(row: &mut [Cell], at: usize, count: usize, cell: Cell)
    requires { at + count ≤ length row.old }
    ensures { row.new ≡ take at row.old ++ replicate count cell ++ drop (at + count) row.old }
{
    row[at..at + count].fill(cell);
}

// Returns the remaining credit after a word that was repeated `more` times.
#[inline(always)]
fn repetition_credit_after_word(credit: usize, more: usize) -> usize {
    credit
        .saturating_add(more)
        .min(MOST_REPETITION_CREDIT)
        .saturating_sub(REPETITION_CREDIT_COST_OF_WORD)
}

// Like `cells_in`, for texts with repeated words: each repeated word is read once. Stops when few words repeat.
#[inline(never)]
fn read_cells_by_repetition(buffered: &[u8], header: &Header, row: &mut [Cell]) -> (usize, usize)
    ensures { AreCellsOfLineReadIntoRow header.now buffered.now row.old row.new result }
{
    let mut i = 0;
    let mut passed = 0;
    let mut credit = MOST_REPETITION_CREDIT;
    'words: while i < row.len() && credit > 0 {
        let Some(found) = read_first_buffered_cell(&buffered[passed..], header) else {
            return (i, passed);
        };
        let more = repetition_count_of_first_word(&buffered[passed..], found.1).min(
            row.len() - i - 1,
        );
        credit = repetition_credit_after_word(credit, more);
        fill_cells(row, i, 1 + more, found.0);
        i += 1 + more;
        passed += found.1 + more * found.1;
    }
    (i, passed)
}

// Like `cells_in`, but reads each cell separately.
//
// It is not inlined, because in a larger function, or with one more parameter, its loop would keep fewer values in
// registers.
#[inline(never)]
fn read_cells_one_by_one(buffered: &[u8], header: &Header, row: &mut [Cell]) -> (usize, usize)
    ensures { AreCellsOfLineReadIntoRow header.now buffered.now row.old row.new result }
{
    let mut passed = 0;
    for i in 0..row.len() {
        let Some(found) = read_first_buffered_cell(&buffered[passed..], header) else {
            return (i, passed);
        };
        row[i] = found.0;
        passed += found.1;
    }
    (row.len(), passed)
}

// Returns the number of tries left, which is reset if the last try found cells.
fn tries_left_after_try(tries: usize, found: usize) -> usize
    requires { 0 < tries }
    // This bound proves that `cells_in` terminates.
    ensures { result < tries + 4 * found }
{
    if found > 0 {
        MOST_TRIES_WITHOUT_CELL
    } else {
        tries - 1
    }
}

// Reads at most `most` cells in one way. Returns the number of cells, the bytes read, and the line feeds among them.
// Adds the words not found in the table to `missed`.
#[inline(never)]
fn read_cells_in_way(
    way: Way,
    most: usize,
    buffered: &[u8],
    words: &mut WordTable,
    row: &mut [Cell],
    missed: &mut usize,
) -> (usize, usize, u64)
    ensures cells { AreNextCellsReadIntoRow words.old buffered.now row.old row.new result }
    ensures same { words.new ≡ words.old }
{
    let end = most.min(row.len());
    let part = &mut row[..end];
    let found = match way {
        Way::Repeated => read_cells_by_repetition(buffered, words.header(), part),
        Way::Sought => return words.cells_in::<true>(buffered, part, missed),
        Way::Digits => return words.cells_in::<false>(buffered, part, missed),
        Way::Single => read_cells_one_by_one(buffered, words.header(), part),
    };
    (found.0, found.1, 0)
}

/// Reads cells whose words are buffered one after another, separated by blanks and line feeds, into the start of a row.
/// Returns the number of cells, the number of bytes read, and the line feeds among these bytes.
///
/// All ways read the same cells, so no contract mentions the pace.
pub fn cells_in(
    buffered: &[u8],
    words: &mut WordTable,
    row: &mut [Cell],
    pace: &mut Pace,
) -> (usize, usize, u64)
    ensures cells { AreNextCellsReadIntoRow words.old buffered.now row.old row.new result }
    ensures same { words.new ≡ words.old }
{
    let mut i = 0;
    let mut passed = 0;
    let mut lines = 0;
    let mut tries = MOST_TRIES_WITHOUT_CELL;
    'ways: while i < row.len() && tries > 0 {
        let (way, most) = pace.next_way(tries);
        let mut missed = 0;
        let found = read_cells_in_way(
            way,
            most,
            &buffered[passed..],
            words,
            &mut row[i..],
            &mut missed,
        );
        i += found.0;
        passed += found.1;
        lines += found.2;
        pace.pass(way, found.0, missed, i == row.len());
        tries = tries_left_after_try(tries, found.0);
    }
    (i, passed, lines)
}
