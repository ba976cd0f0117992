//! Splits lines into words, and words into parts.

ghost use Rattle.std.specs.Prelude.{◌≡◌, IfOk, map};
ghost use Rattle.std.specs.List.{filter, slice_split};
ghost use Rattle.std.specs.Option.{option_map};
ghost use Rattle.cell_core_values.specs.Blanks.{is_blank};
ghost use Rattle.cell_core_values.specs.Words.{is_nonempty_word, words_of_line, is_blank_or_comma, words_between_blanks_or_commas, parts_between_commas, texts_around_equals_sign};

use crate::blanks::is_blank;
use crate::memory::Memory;
use std::alloc::{AllocError, Global};

// Returns the pieces between blanks, including empty ones.
fn pieces_between_blanks<'a>(alloc: Global, line: &'a [u8]) -> Result<Vec<&'a [u8]>, AllocError>
    ensures { IfOk result (λ pieces. map (λ w. w.now) pieces.items
        ≡ slice_split is_blank line.now) }
{
    line.split(|b| is_blank(*b)).collect(alloc)
}

fn is_blank_or_comma(b: u8) -> bool
    ensures { result ≡ is_blank_or_comma b }
{
    is_blank(b) || b == b','
}

// Returns the pieces between blanks and commas, including empty ones.
fn pieces_between_blanks_or_commas<'a>(
    alloc: Global,
    line: &'a [u8],
) -> Result<Vec<&'a [u8]>, AllocError>
    ensures { IfOk result (λ pieces. map (λ w. w.now) pieces.items
        ≡ slice_split is_blank_or_comma line.now) }
{
    line.split(|b| is_blank_or_comma(*b)).collect(alloc)
}

// Returns the non-empty pieces.
fn nonempty_pieces<'a>(alloc: Global, pieces: &[&'a [u8]]) -> Result<Vec<&'a [u8]>, Memory>
    ensures { IfOk result (λ words. map (λ w. w.now) words.items
        ≡ filter is_nonempty_word (map (λ w. w.now) pieces.now)) }
{
    let mut words = Vec::new(alloc);
    for piece in pieces {
        if !piece.is_empty() {
            words.push(*piece)?;
        }
    }
    Ok(words)
}

/// Returns the words of a line, in order: the longest runs of bytes that are not blanks.
///
/// # Errors
///
/// [`Memory`] if memory runs out.
pub fn words_of_line<'a>(alloc: Global, line: &'a [u8]) -> Result<Vec<&'a [u8]>, Memory>
    ensures { IfOk result (λ words. map (λ w. w.now) words.items ≡ words_of_line line.now) }
{
    let pieces = pieces_between_blanks(alloc, line)?;
    nonempty_pieces(alloc, &pieces)
}

/// Returns the words of a list, in order. Commas count as blanks.
///
/// # Errors
///
/// [`Memory`] if memory runs out.
pub fn words_between_blanks_or_commas<'a>(
    alloc: Global,
    line: &'a [u8],
) -> Result<Vec<&'a [u8]>, Memory>
    ensures { IfOk result (λ words. map (λ w. w.now) words.items
        ≡ words_between_blanks_or_commas line.now) }
{
    let pieces = pieces_between_blanks_or_commas(alloc, line)?;
    nonempty_pieces(alloc, &pieces)
}

// Returns the parts between commas, with std's error type.
fn comma_parts_with_std_error<'a>(
    alloc: Global,
    text: &'a [u8],
) -> Result<Vec<&'a [u8]>, AllocError>
    ensures { IfOk result (λ parts. map (λ w. w.now) parts.items ≡ parts_between_commas text.now) }
{
    text.split(|b| *b == b',').collect(alloc)
}

/// Returns the parts of a text between commas, in order, including empty ones.
///
/// # Errors
///
/// [`Memory`] if memory runs out.
pub fn parts_between_commas<'a>(alloc: Global, text: &'a [u8]) -> Result<Vec<&'a [u8]>, Memory>
    ensures { IfOk result (λ parts. map (λ w. w.now) parts.items ≡ parts_between_commas text.now) }
{
    let parts = comma_parts_with_std_error(alloc, text)?;
    Ok(parts)
}

/// Returns the texts before and after the first equals sign, or `None` if there is none. Does not allocate.
pub fn texts_around_equals_sign<'a>(text: &'a [u8]) -> Option<(&'a [u8], &'a [u8])>
    ensures { option_map (λ pair. (pair.0.now, pair.1.now)) result
        ≡ texts_around_equals_sign text.now }
{
    for (i, b) in text.iter().enumerate() {
        if *b == b'=' {
            return Some((&text[..i], &text[i + 1..]));
        }
    }
    None
}
