//! Parses a line into a rule.

ghost use Rattle.std.specs.Prelude.{◌≡◌, ◌∷◌, ◌≤◌, ◌&&◌, length, drop};
ghost use Rattle.std.specs.Option.{option_map, ok_or};
ghost use Rattle.cell_core_values.specs.Answers.{EqualsUnlessOutOfMemory};
ghost use Rattle.cell_cats.specs.RuleLine.{is_blank_or_comment_line};
ghost use Rattle.cell_cats.specs.RuleReading.{is_thru_word, is_star, is_null_word, is_number_word, items_with_number_item_in_front, rule_items_in_words, is_lone_star, rule_left_side_of_words};
ghost use Rattle.cell_cats.specs.RuleReading.{is_rule_output_word, parsed_ranges, parsed_range, ranges_of_left_side, parsed_rule_output, rule_of_line};
ghost use Rattle.cell_cats.specs.parts.ItemWords.{bytes_of_words, bytes_of_rule_item_ends};
ghost use Rattle.cell_cats.specs.declared.rules.RuleFault.TheVariants.{BadRule, BadNumber};

use crate::rule::{Output, Rule};
use crate::rules::RuleFault;
use cell_core::cell::Cell;
use cell_core_values::blanks::{split_at_first_blank, trimmed_text};
use cell_core_values::whole_numbers::whole_number_in_category_range;
use cell_core_values::words::{texts_around_equals_sign, words_between_blanks_or_commas};
use std::alloc::Global;

/// Returns whether a line, without surrounding blanks, is empty or a comment.
pub fn is_blank_or_comment_line(text: &[u8]) -> bool
    ensures { result ≡ is_blank_or_comment_line text.now }
{
    match text {
        [] => true,
        [first, ..] => *first == b'#',
    }
}

fn is_thru_word(word: &[u8]) -> bool
    ensures { result ≡ is_thru_word word.now }
{
    word == b"thru".as_slice()
}

fn is_star_word(word: &[u8]) -> bool
    ensures { result ≡ is_star word.now }
{
    word == b"*".as_slice()
}

fn is_null_word(word: &[u8]) -> bool
    ensures { result ≡ is_null_word word.now }
{
    word == b"NULL".as_slice() || word == b"null".as_slice()
}

// Returns whether a word stands for a number, whether or not it is in range.
fn is_number_word(word: &[u8]) -> bool
    ensures { result ≡ is_number_word word.now }
{
    !is_thru_word(word) && !is_star_word(word)
}

// Returns whether both words stand for numbers.
fn are_number_words(a: &[u8], b: &[u8]) -> bool
    ensures { result ≡ (is_number_word a.now && is_number_word b.now) }
{
    is_number_word(a) && is_number_word(b)
}

// Returns the second end of the item that starts with the word `a`, and the number of further words in the item.
fn item_end_and_further_word_count<'a>(a: &'a [u8], others: &[&'a [u8]]) -> (&'a [u8], usize)
    ensures items { rule_items_in_words (a.now ∷ bytes_of_words others.now)
        ≡ items_with_number_item_in_front a.now result.0.now
        (rule_items_in_words (bytes_of_words (drop result.1 others.now))) }
    ensures within { result.1 ≤ length others.now }
{
    match others {
        [thru, b, ..] if is_thru_word(*thru) => (*b, 2),
        _ => (a, 0),
    }
}

// Splits words into items.
fn rule_items_in_words<'a>(
    alloc: Global,
    words: &[&'a [u8]],
) -> Result<Vec<(&'a [u8], &'a [u8])>, RuleFault>
    ensures { EqualsUnlessOutOfMemory RuleFault.Memory
        (λ items. bytes_of_rule_item_ends items.items) result
        (ok_or (rule_items_in_words (bytes_of_words words.now)) BadRule) }
{
    let mut items = Vec::new(alloc);
    let mut at = 0;
    while at < words.len() {
        let a = words[at];
        let (b, more) = item_end_and_further_word_count(a, &words[at + 1..]);
        if !are_number_words(a, b) {
            return Err(RuleFault::BadRule);
        }
        items.push((a, b))?;
        at = at + 1 + more;
    }
    Ok(items)
}

// Parses the two ends of an item.
fn parsed_range(a: &[u8], b: &[u8]) -> Option<(i32, i32)>
    ensures { result ≡ parsed_range (a.now, b.now) }
{
    let a = whole_number_in_category_range(a)?;
    let b = whole_number_in_category_range(b)?;
    Some((a, b))
}

// Parses the ranges of items.
fn parsed_ranges(alloc: Global, items: &[(&[u8], &[u8])]) -> Result<Vec<(i32, i32)>, RuleFault>
    ensures { EqualsUnlessOutOfMemory RuleFault.Memory (λ ranges. ranges.items) result
        (ok_or (parsed_ranges (bytes_of_rule_item_ends items.now)) BadNumber) }
{
    let mut ranges = Vec::new(alloc);
    for item in items {
        let (a, b) = *item;
        let Some(range) = parsed_range(a, b) else {
            return Err(RuleFault::BadNumber);
        };
        ranges.push(range)?;
    }
    Ok(ranges)
}

// Parses the output that a word denotes.
fn parsed_rule_output(word: &[u8]) -> Option<Output>
    ensures { result ≡ parsed_rule_output word.now }
{
    if is_null_word(word) {
        return Some(Output::To(Cell::null()));
    }
    if is_star_word(word) {
        return Some(Output::Same);
    }
    let category = whole_number_in_category_range(word)?;
    let cell = Cell::value(category)?;
    Some(Output::To(cell))
}

// Returns whether a word may be the output of a rule.
fn is_rule_output_word(star: bool, word: &[u8]) -> bool
    ensures { result ≡ is_rule_output_word star word.now }
{
    !word.is_empty() && !is_thru_word(word) && (star || !is_star_word(word))
}

fn is_lone_star(words: &[&[u8]]) -> bool
    ensures { result ≡ is_lone_star (bytes_of_words words.now) }
{
    match words {
        [word] => is_star_word(*word),
        _ => false,
    }
}

// Returns the items of the left side, or `None` if it is `*`.
fn rule_items_of_left_side<'a>(
    alloc: Global,
    words: &[&'a [u8]],
) -> Result<Option<Vec<(&'a [u8], &'a [u8])>>, RuleFault>
    ensures { EqualsUnlessOutOfMemory RuleFault.Memory
        (option_map (λ items. bytes_of_rule_item_ends items.items)) result
        (ok_or (rule_left_side_of_words (bytes_of_words words.now)) BadRule) }
{
    if is_lone_star(words) {
        return Ok(None);
    }
    if words.is_empty() {
        return Err(RuleFault::BadRule);
    }
    let items = rule_items_in_words(alloc, words)?;
    Ok(Some(items))
}

// Parses the ranges of a left side.
fn left_side_ranges(
    alloc: Global,
    left: &Option<Vec<(&[u8], &[u8])>>,
) -> Result<Option<Vec<(i32, i32)>>, RuleFault>
    ensures { EqualsUnlessOutOfMemory RuleFault.Memory (option_map (λ ranges. ranges.items)) result
        (ok_or (ranges_of_left_side (option_map
        (λ items. bytes_of_rule_item_ends items.items) left.now))
        BadNumber) }
{
    match left {
        Some(items) => {
            let ranges = parsed_ranges(alloc, items)?;
            Ok(Some(ranges))
        }
        None => Ok(None),
    }
}

/// Parses a line into a rule.
///
/// # Errors
///
/// [`RuleFault::BadRule`] if the line does not have the form of a rule, otherwise [`RuleFault::BadNumber`] if a number
/// is invalid; [`RuleFault::Memory`] if memory runs out.
pub fn rule_of_line(alloc: Global, line: &[u8]) -> Result<Rule, RuleFault>
    ensures { EqualsUnlessOutOfMemory RuleFault.Memory (λ rule. rule) result
        (rule_of_line line.now) }
{
    let Some((left, right)) = texts_around_equals_sign(line) else {
        return Err(RuleFault::BadRule);
    };
    let (word, label) = split_at_first_blank(trimmed_text(right));
    let words = words_between_blanks_or_commas(alloc, left)?;
    let left = rule_items_of_left_side(alloc, &words)?;
    if !is_rule_output_word(left.is_none(), word) {
        return Err(RuleFault::BadRule);
    }
    let listed = left_side_ranges(alloc, &left)?;
    let Some(output) = parsed_rule_output(word) else {
        return Err(RuleFault::BadNumber);
    };
    let label = Vec::from_slice(alloc, trimmed_text(label))?;
    Ok(Rule::new(listed, output, label))
}
