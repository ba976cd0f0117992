//! Reads the words after a command: flags, and keys with their values.

ghost use Rattle.std.specs.Prelude.{◌≡◌, ◌≤◌, ◌||◌, IfOk, length, unwrap_or};
ghost use Rattle.std.specs.List.{list_all};
ghost use Rattle.std.specs.Option.{option_map};
ghost use Rattle.cell_ascii_meaning.specs.Header.{usual_null_text};
ghost use Rattle.cell_core_values.specs.Answers.{EqualsUnlessOutOfMemory};
ghost use Rattle.cell_core_values.specs.Words.{parts_between_commas};
ghost use Rattle.cell_core_values.specs.Letters.{is_byte_in_text};
ghost use Rattle.rcell_script.specs.OptionReading.{IsOptionReadingUnlessMemory, values_of_borrowed_texts, flag_letters_of_command, option_key_by_name, map_name_in_option, texts_if_all_are_map_names, map_names_in_option_value, empty_options, flags_with_letters, options_with_dash_flags, options_with_key_value, options_with_key_value_pair, options_with_word, options_with_words, options_in_words};
ghost use Rattle.rcell_script.specs.parts.Keys.{is_given};
ghost use Rattle.rcell_script.specs.Options.{are_flag_letters, only_byte_if_printable, separator_in_option};

use crate::null_text::{NullText, TableNullText};
use crate::option_fault::OptionFault;
use cell_core::memory::Memory;
use cell_core::name::Name;
use cell_core_values::words::{parts_between_commas, texts_around_equals_sign};
use std::alloc::Global;
use std::marker::Model;

/// Maximum number of maps in one r.stats.
const MOST_STATS_MAPS: usize = 16;

/// A command with options.
#[derive(Clone, Copy)]
pub enum CommandWithOptions {
    Reclass,
    Clump,
    Stats,
    OutAscii,
}

/// The meaning of a key.
#[derive(Clone, Copy)]
pub enum OptionKey {
    /// One input map.
    Input,
    /// Several input maps.
    Inputs,
    /// The output map.
    Output,
    Separator,
    /// The null text of a grid.
    NullText,
    /// The null text of a table.
    TableNullText,
    After,
}

/// The names of 1 to 16 maps.
#[derive(Drop)]
pub(crate) struct Inputs {
    names: Vec<Name>,
}

impl Model for Inputs {
    ghost use Rattle.std.specs.Prelude.{List, ℕ, ◌≤◌, length};

    ghost Value = { List (List ℕ) };

    ghost view = { λ i. i.names.items };

    ghost invariant = { λ i. (1 ≤ length i.names.items) × (length i.names.items ≤ 16) };
}

impl Inputs {
    // Wraps these names.
    fn of(names: Vec<Name>) -> Inputs
        requires { (1 ≤ length names.items) × (length names.items ≤ 16) }
        ensures { result ≡ names.items }
    {
        Inputs { names }
    }

    /// Returns the names in order.
    pub(crate) fn names(&self) -> &[Name]
        ensures value { result.now ≡ self.now }
        ensures some { 1 ≤ length self.now }
        ensures most { length self.now ≤ 16 }
    {
        &self.names
    }
}

/// The flags given so far.
#[derive(Clone, Copy)]
pub struct Flags {
    /// The flag `-l` of r.stats.
    pub labels: bool,
    /// The flag `-c` of r.stats.
    pub counts: bool,
    /// The flag `-1` of r.stats.
    pub cells: bool,
    /// The flag `-n` of r.stats.
    pub no_null: bool,
    /// The flag `-N` of r.stats.
    pub no_all_null: bool,
    /// The flag `-d` of r.clump.
    pub corners: bool,
}

// Returns whether a flag was given before, or is among these letters.
fn is_flag_given(given: bool, letters: &[u8], flag: u8) -> bool
    ensures { result ≡ (given || is_byte_in_text letters.now flag) }
{
    given || letters.contains(&flag)
}

impl Flags {
    // Adds the flags with these letters. A flag may be repeated.
    fn with(self, letters: &[u8]) -> Flags
        ensures { result ≡ flags_with_letters self letters.now }
    {
        Flags {
            labels: is_flag_given(self.labels, letters, b'l'),
            counts: is_flag_given(self.counts, letters, b'c'),
            cells: is_flag_given(self.cells, letters, b'1'),
            no_null: is_flag_given(self.no_null, letters, b'n'),
            no_all_null: is_flag_given(self.no_all_null, letters, b'N'),
            corners: is_flag_given(self.corners, letters, b'd'),
        }
    }
}

/// The options given so far.
#[derive(Drop)]
pub struct Options {
    pub(crate) flags: Flags,
    pub(crate) input: Option<Name>,
    pub(crate) inputs: Option<Inputs>,
    pub(crate) output: Option<Name>,
    pub(crate) separator: Option<u8>,
    pub(crate) null_text: Option<NullText>,
    pub(crate) table_null_text: Option<TableNullText>,
    pub(crate) after: Option<Vec<u8>>,
}

impl Model for Options {
    ghost use Rattle.std.specs.Option.{option_map};
    ghost use Rattle.rcell_script.specs.OptionReading.{GivenOptions};

    ghost Value = { GivenOptions };

    ghost view = { λ o. record { flags = o.flags; input = o.input; inputs = o.inputs; output = o.output; separator = o.separator; null_text = o.null_text; table_null_text = o.table_null_text; after = option_map (λ text. text.items) o.after } };
}

fn is_flag_of_command(form: CommandWithOptions, letter: u8) -> bool
    ensures { result ≡ is_byte_in_text (flag_letters_of_command form) letter }
{
    match form {
        CommandWithOptions::Clump => letter == b'd',
        CommandWithOptions::Stats => matches!(letter, b'c' | b'l' | b'n' | b'N' | b'1'),
        _ => false,
    }
}

fn are_all_flags_of_command(form: CommandWithOptions, letters: &[u8]) -> bool
    ensures { result ≡ list_all (is_byte_in_text (flag_letters_of_command form)) letters.now }
{
    letters
        .iter()
        .all(|letter| is_flag_of_command(form, *letter))
}

// Returns whether there is at least one letter, and each is a flag of the command.
fn are_flag_letters(form: CommandWithOptions, letters: &[u8]) -> bool
    ensures { result ≡ are_flag_letters (flag_letters_of_command form) letters.now }
{
    !letters.is_empty() && are_all_flags_of_command(form, letters)
}

fn input_or_output_option_key(text: &[u8]) -> Option<OptionKey>
    ensures { result ≡ option_key_by_name CommandWithOptions.Reclass text.now }
{
    if text == b"input".as_slice() {
        Some(OptionKey::Input)
    } else if text == b"output".as_slice() {
        Some(OptionKey::Output)
    } else {
        None
    }
}

fn stats_option_key(text: &[u8]) -> Option<OptionKey>
    ensures { result ≡ option_key_by_name CommandWithOptions.Stats text.now }
{
    if text == b"input".as_slice() {
        Some(OptionKey::Inputs)
    } else if text == b"separator".as_slice() {
        Some(OptionKey::Separator)
    } else if text == b"null_value".as_slice() {
        Some(OptionKey::TableNullText)
    } else if text == b"after".as_slice() {
        Some(OptionKey::After)
    } else {
        None
    }
}

fn out_ascii_option_key(text: &[u8]) -> Option<OptionKey>
    ensures { result ≡ option_key_by_name CommandWithOptions.OutAscii text.now }
{
    if text == b"input".as_slice() {
        Some(OptionKey::Input)
    } else if text == b"null_value".as_slice() {
        Some(OptionKey::NullText)
    } else {
        None
    }
}

// Returns the command's key with this name.
fn option_key_by_name(form: CommandWithOptions, text: &[u8]) -> Option<OptionKey>
    ensures { result ≡ option_key_by_name form text.now }
{
    match form {
        CommandWithOptions::Reclass => input_or_output_option_key(text),
        CommandWithOptions::Clump => input_or_output_option_key(text),
        CommandWithOptions::Stats => stats_option_key(text),
        CommandWithOptions::OutAscii => out_ascii_option_key(text),
    }
}

// Reads the name of one map.
fn map_name_in_option(alloc: Global, value: &[u8]) -> Result<Name, OptionFault>
    ensures { IsOptionReadingUnlessMemory result (map_name_in_option value.now) }
{
    let name = Name::read(alloc, value)?;
    Ok(name)
}

// Reads several names.
fn texts_if_all_are_map_names(alloc: Global, parts: &[&[u8]]) -> Result<Vec<Name>, OptionFault>
    ensures names { EqualsUnlessOutOfMemory OptionFault.Memory (λ names. names.items) result
        (texts_if_all_are_map_names (values_of_borrowed_texts parts.now)) }
    ensures count { IfOk result (λ names. length names.items ≡ length parts.now) }
{
    let mut names = Vec::new(alloc);
    for part in parts {
        names.push(map_name_in_option(alloc, *part)?)?;
    }
    Ok(names)
}

// Reads the names of maps, separated by commas.
fn map_names_in_option(alloc: Global, value: &[u8]) -> Result<Inputs, OptionFault>
    ensures { IsOptionReadingUnlessMemory result
        (map_names_in_option_value (parts_between_commas value.now)) }
{
    let parts = parts_between_commas(alloc, value)?;
    if parts.len() > MOST_STATS_MAPS {
        return Err(OptionFault::BadOption);
    }
    let names = texts_if_all_are_map_names(alloc, &parts)?;
    Ok(Inputs::of(names))
}

fn only_byte_if_printable(value: &[u8]) -> Option<u8>
    ensures { result ≡ only_byte_if_printable value.now }
{
    match value {
        [b] if b'!' <= *b && *b <= b'~' => Some(*b),
        _ => None,
    }
}

// Returns the separator byte that a value spells.
fn separator_in_option(value: &[u8]) -> Option<u8>
    ensures { result ≡ separator_in_option value.now }
{
    if value == b"pipe".as_slice() {
        Some(b'|')
    } else if value == b"comma".as_slice() {
        Some(b',')
    } else if value == b"space".as_slice() {
        Some(b' ')
    } else if value == b"tab".as_slice() {
        Some(b'\t')
    } else {
        only_byte_if_printable(value)
    }
}

impl Options {
    // Creates options with nothing set.
    fn new() -> Options
        ensures { result ≡ empty_options }
    {
        Options {
            flags: Flags {
                labels: false,
                counts: false,
                cells: false,
                no_null: false,
                no_all_null: false,
                corners: false,
            },
            input: None,
            inputs: None,
            output: None,
            separator: None,
            null_text: None,
            table_null_text: None,
            after: None,
        }
    }

    /// Returns the flags that were given.
    pub fn flags(&self) -> Flags
        ensures { result ≡ self.now.flags }
    {
        self.flags
    }

    /// Returns the byte between the fields of a line, if one was given.
    pub fn separator(&self) -> Option<u8>
        ensures { result ≡ self.now.separator }
    {
        self.separator
    }

    /// Returns the text of `after`, if it was given.
    pub fn after_text(&self) -> Option<&[u8]>
        ensures { option_map (λ text. text.now) result ≡ self.now.after }
    {
        match &self.after {
            Some(text) => Some(text.as_slice()),
            None => None,
        }
    }

    /// Returns the null text of a grid, by default an asterisk.
    ///
    /// # Errors
    ///
    /// Returns [`Memory`] if memory for the default runs out.
    pub fn into_grid_null_text(self, alloc: Global) -> Result<NullText, Memory>
        ensures { IfOk result (λ text. text ≡ unwrap_or self.null_text usual_null_text) }
    {
        let Options { null_text, .. } = self;
        match null_text {
            Some(text) => Ok(text),
            None => NullText::usual(alloc),
        }
    }

    /// Returns the null text of a table, by default an asterisk.
    ///
    /// # Errors
    ///
    /// Returns [`Memory`] if memory for the default runs out.
    pub fn into_table_null_text(self, alloc: Global) -> Result<TableNullText, Memory>
        ensures { IfOk result (λ text. text ≡ unwrap_or self.table_null_text usual_null_text) }
    {
        let Options {
            table_null_text,
            ..
        } = self;
        match table_null_text {
            Some(text) => Ok(text),
            None => TableNullText::usual(alloc),
        }
    }

    /// Returns the names of the input map and the output map, if given.
    pub(crate) fn into_input_and_output_names(self) -> (Option<Name>, Option<Name>)
        ensures { result ≡ (self.input, self.output) }
    {
        (self.input, self.output)
    }

    fn is_given(&self, key: OptionKey) -> bool
        ensures { result ≡ is_given self.now key }
    {
        match key {
            OptionKey::Input => self.input.is_some(),
            OptionKey::Inputs => self.inputs.is_some(),
            OptionKey::Output => self.output.is_some(),
            OptionKey::Separator => self.separator.is_some(),
            OptionKey::NullText => self.null_text.is_some(),
            OptionKey::TableNullText => self.table_null_text.is_some(),
            OptionKey::After => self.after.is_some(),
        }
    }

    // Adds flags.
    fn add_flags(&mut self, form: CommandWithOptions, letters: &[u8]) -> Result<(), OptionFault>
        ensures { EqualsUnlessOutOfMemory OptionFault.Memory (λ _. self.new) result
            (options_with_dash_flags form self.old letters.now) }
    {
        if !are_flag_letters(form, letters) {
            return Err(OptionFault::BadOption);
        }
        self.flags = self.flags.with(letters);
        Ok(())
    }

    // Sets the value of a key. A key may be given only once.
    fn set_key_value(
        &mut self,
        alloc: Global,
        key: OptionKey,
        value: &[u8],
    ) -> Result<(), OptionFault>
        ensures { EqualsUnlessOutOfMemory OptionFault.Memory (λ _. self.new) result
            (options_with_key_value self.old key value.now) }
    {
        if self.is_given(key) {
            return Err(OptionFault::BadOption);
        }
        match key {
            OptionKey::Input => self.input = Some(map_name_in_option(alloc, value)?),
            OptionKey::Inputs => self.inputs = Some(map_names_in_option(alloc, value)?),
            OptionKey::Output => self.output = Some(map_name_in_option(alloc, value)?),
            OptionKey::Separator => self.separator = Some(separator_in_option(value).ok_or(
                OptionFault::BadOption,
            )?),
            OptionKey::NullText => self.null_text = Some(NullText::read(alloc, value)?),
            OptionKey::TableNullText => self.table_null_text = Some(TableNullText::read(
                alloc, value,
            )?),
            OptionKey::After => self.after = Some(Vec::from_slice(alloc, value)?),
        }
        Ok(())
    }

    // Adds the option in one more word.
    fn add_option_word(
        &mut self,
        alloc: Global,
        form: CommandWithOptions,
        word: &[u8],
    ) -> Result<(), OptionFault>
        ensures { EqualsUnlessOutOfMemory OptionFault.Memory (λ _. self.new) result
            (options_with_word form self.old word.now) }
    {
        let Some((first, letters)) = word.split_first() else {
            return Err(OptionFault::BadOption);
        };
        if *first == b'-' {
            return self.add_flags(form, letters);
        }
        let Some((key, value)) = texts_around_equals_sign(word) else {
            return Err(OptionFault::BadOption);
        };
        match option_key_by_name(form, key) {
            Some(key) => self.set_key_value(alloc, key, value),
            None => Err(OptionFault::BadOption),
        }
    }
}

/// Reads the words after a command as options.
///
/// # Errors
///
/// Returns the error in the first word that has one, or [`OptionFault::Memory`] if memory runs out.
pub fn options_in_words(
    alloc: Global,
    form: CommandWithOptions,
    words: &[&[u8]],
) -> Result<Options, OptionFault>
    ensures { IsOptionReadingUnlessMemory result
        (options_in_words form (values_of_borrowed_texts words.now)) }
{
    let mut options = Options::new();
    for word in words {
        options.add_option_word(alloc, form, *word)?;
    }
    Ok(options)
}
