//! Reads the words of the command line.

ghost use Rattle.std.specs.Prelude.{◌≡◌, ◌≢◌, ◌∷◌, false, true, IfErr, IfOk, OnOk, drop, map};
ghost use Rattle.std.specs.List.{list_any};
ghost use Rattle.std.specs.String.{string_bytes};
ghost use Rattle.clap.specs.Walk.{texts};
ghost use Rattle.clap.specs.Words.{app_of};
ghost use Rattle.rcell_command.specs.CommandWords.{begins_with_hyphen, has_word_starting_with_hyphen, is_valid_command_line};
ghost use Rattle.rcell_command.specs.parts.ClapWords.{ClapFindsAllWords, clap_command_line};

use clap::error::ErrorKind;
use clap::{Arg, ArgAction, ArgMatches, Command};
use std::alloc::{AllocError, Global};

fn begins_with_hyphen(word: &str) -> bool
    ensures { result ≡ begins_with_hyphen word.now }
{
    word.as_bytes().first() == Some(&b'-')
}

fn any_word_starts_with_hyphen(words: &[&str]) -> bool
    ensures { result ≡ list_any (λ word. begins_with_hyphen word.now) words.now }
{
    words.iter().any(|word| begins_with_hyphen(word))
}

/// Returns whether a word begins with a hyphen.
pub fn has_word_starting_with_hyphen(words: &[&str]) -> bool
    ensures { result ≡ has_word_starting_with_hyphen (texts words.now) }
{
    any_word_starts_with_hyphen(words)
}

// Returns whether at least two words follow the program's own name, and the first of them does not begin with a hyphen.
fn is_valid_command_line(words: &[String]) -> bool
    ensures { result ≡ is_valid_command_line (drop 1 (map string_bytes words.now)) }
{
    match words {
        [_, first, _, ..] => !begins_with_hyphen(first.as_str()),
        _ => false,
    }
}

// Defines the words that clap accepts: one word, and then one or more words, which may begin with hyphens.
//
// The words after the first are a single list, because clap's treatment of flags between paths depends on all words.
fn command<'a>(alloc: Global, program: &'a str) -> Result<Command<'a>, AllocError>
    ensures { IfOk result (λ command. app_of command ≡ clap_command_line program.now) }
{
    let first = Arg::new(alloc, "FIRST")
        .required(true)
        .trailing_var_arg(true)
        .action(ArgAction::Set);
    let rest = Arg::new(alloc, "REST")
        .required(true)
        .num_args(1..)
        .action(ArgAction::Append);
    Command::new(alloc, program).arg(first)?.arg(rest)
}

// Converts an error of clap.
fn error_of_clap_kind<E: Copy>(kind: ErrorKind, memory: E, usage: E) -> E
    ensures memory { kind ≡ ErrorKind.OutOfMemory → result ≡ memory }
    ensures usage { result ≢ memory → result ≡ usage }
{
    match kind {
        ErrorKind::OutOfMemory => memory,
        _ => usage,
    }
}

// Returns the words that clap finds after the program's own name.
fn words_matched_by_clap<'a, E: Copy>(
    alloc: Global,
    program: &'a str,
    words: &'a [String],
    memory: E,
    usage: E,
) -> Result<ArgMatches<'a>, E>
    ensures found { IfOk result (ClapFindsAllWords (map string_bytes words.now)) }
    ensures misuse { IfErr result (λ error. error ≢ memory → (error ≡ usage)
        × (is_valid_command_line (drop 1 (map string_bytes words.now)) ≡ false)) }
{
    let command = match command(alloc, program) {
        Ok(command) => command,
        Err(_) => return Err(memory),
    };
    match command.try_get_matches_from(words) {
        Ok(matches) => Ok(matches),
        Err(fault) => Err(error_of_clap_kind(fault.kind(), memory, usage)),
    }
}

/// Returns the first word after the program's own name, and the words that follow it.
///
/// # Errors
///
/// Returns `usage` if fewer than two words follow the program's own name, or the first of them begins with `-`, or
/// `memory` if memory runs out.
pub fn first_word_and_rest<'a, E: Copy>(
    alloc: Global,
    program: &'a str,
    words: &'a [String],
    memory: E,
    usage: E,
) -> Result<(&'a str, Vec<&'a str>), E>
    ensures found { IfOk result (λ found. drop 1 (map string_bytes words.now)
        ≡ found.0.now ∷ texts found.1.items) }
    ensures good { OnOk result (is_valid_command_line (drop 1 (map string_bytes words.now))
        ≡ true) }
    ensures refused { IfErr result (λ error. error ≢ memory → (error ≡ usage)
        × (is_valid_command_line (drop 1 (map string_bytes words.now)) ≡ false)) }
{
    if !is_valid_command_line(words) {
        return Err(usage);
    }
    let matches = match words_matched_by_clap(alloc, program, words, memory, usage) {
        Ok(matches) => matches,
        Err(error) => return Err(error),
    };
    let Some(first) = matches.get_str("FIRST") else {
        return Err(usage);
    };
    let Some(rest) = matches.get_strs("REST") else {
        return Err(usage);
    };
    match rest.to_vec(alloc) {
        Ok(rest) => Ok((first, rest)),
        Err(_) => Err(memory),
    }
}
