//! Reads the words of the command line.

ghost use Rattle.std.specs.Prelude.{◌≡◌, ◌≢◌, ◌++◌, ◌∷◌, true, false, IfErr, IfOk, None, OnOk, Some, drop, map, option_map, vec_len};
ghost use Rattle.std.specs.String.{string_bytes};
ghost use Rattle.clap.specs.Walk.{texts};
ghost use Rattle.cell_core_values.specs.Name.{is_name};
ghost use Rattle.rcell_program.specs.CommandLine.{place_of_first_bad_grid_word, grid_name_in_argument, grid_path_in_argument, words_of_grid_names_and_paths, is_grid_argument, refusal_of_words, IsRefusedForReasonOrAccepted, WordsNameScriptAndGrids};

use crate::refusal::Refusal;
use cell_core::name::{Name, NameFault};
use rcell_command::arguments::{first_word_and_rest, has_word_starting_with_hyphen};
use std::alloc::Global;

/// The request in the words: a script over grids with these names, each read from the file at its path.
#[derive(Drop)]
pub struct RunRequest<'a> {
    /// The path of the script.
    pub script: &'a str,
    /// The names of the grids, in order.
    pub names: Vec<Name>,
    /// The path of each grid, in the same order.
    pub paths: Vec<&'a str>,
    ghost has_paths: { vec_len names ≡ vec_len paths },
}

// The position of SCRIPT among the words. The program's own name has position 0.
const SCRIPT_ARGUMENT_PLACE: u64 = 1;

// Splits a grid word into the name before its first equals sign and the path after it.
fn grid_name_and_path<'a>(
    alloc: Global,
    word: &'a str,
    place: u64,
) -> Result<(Name, &'a str), Refusal>
    ensures cut { IfOk result (λ grid. word.now ≡ grid.0 ++ 61 ∷ grid.1.now) }
    ensures name { IfOk result (λ grid. is_name grid.0 ≡ true) }
    ensures parts { IfOk result (λ grid. (grid.0 ≡ grid_name_in_argument word.now)
        × (grid.1.now ≡ grid_path_in_argument word.now)) }
    ensures good { OnOk result (is_grid_argument word.now ≡ true) }
    ensures bad { IfErr result (λ refusal. refusal ≢ Refusal.Memory
        → (is_grid_argument word.now ≡ false) × (refusal ≡ Refusal.GridWord place)) }
{
    let Some((name, path)) = word.split_once('=') else {
        return Err(Refusal::GridWord { place });
    };
    if path.is_empty() {
        return Err(Refusal::GridWord { place });
    }
    match Name::read(alloc, name.as_bytes()) {
        Ok(name) => Ok((name, path)),
        Err(NameFault::BadName) => Err(Refusal::GridWord { place }),
        Err(NameFault::Memory) => Err(Refusal::Memory),
    }
}

// Splits the grid words into names and paths. The first grid word has position 2.
#[tactic(auto, using(crate::proofs::WordLemmas::grid_words_more))]
fn grid_names_and_paths<'a>(
    alloc: Global,
    words: &[&'a str],
) -> Result<(Vec<Name>, Vec<&'a str>), Refusal>
    ensures words { IfOk result (λ grids. words_of_grid_names_and_paths grids.0.items
        (texts grids.1.items)
        ≡ texts words.now) }
    ensures paths { IfOk result (λ grids. vec_len grids.0 ≡ vec_len grids.1) }
    ensures parts { IfOk result (λ grids. (grids.0.items
        ≡ map grid_name_in_argument (texts words.now))
        × (texts grids.1.items ≡ map grid_path_in_argument (texts words.now))) }
    ensures good { OnOk result (place_of_first_bad_grid_word 2 (texts words.now) ≡ None) }
    ensures bad { IfErr result (λ refusal. refusal ≢ Refusal.Memory
        → option_map (λ place. Refusal.GridWord place) (place_of_first_bad_grid_word 2
        (texts words.now))
        ≡ Some refusal) }
{
    let mut names = Vec::new(alloc);
    let mut paths = Vec::new(alloc);
    let mut place = SCRIPT_ARGUMENT_PLACE;
    for word in words {
        place = place.saturating_add(1);
        let (name, path) = grid_name_and_path(alloc, *word, place)?;
        names.push(name).map_err(|_| Refusal::Memory)?;
        paths.push(path).map_err(|_| Refusal::Memory)?;
    }
    Ok((names, paths))
}

/// Reads the words, starting with the program's own name.
///
/// # Errors
///
/// Returns [`Refusal::Usage`] if a later word begins with `-`, or fewer than two words follow the first;
/// [`Refusal::GridWord`] for the first word after the script's that is not NAME=PATH, or [`Refusal::Memory`] if memory
/// runs out.
pub fn read_request_words<'a>(alloc: Global, words: &'a [String]) -> Result<RunRequest<'a>, Refusal>
    ensures asked { IfOk result (λ request. drop 1 (map string_bytes words.now)
        ≡ request.script.now
        ∷ words_of_grid_names_and_paths request.names.items
        (map (λ path. path.now) request.paths.items)) }
    ensures request { IfOk result (λ request. WordsNameScriptAndGrids
        (drop 1 (map string_bytes words.now))
        request.script.now request.names.items (texts request.paths.items)) }
    ensures refused { IsRefusedForReasonOrAccepted
        (refusal_of_words (drop 1 (map string_bytes words.now))) result }
{
    let found = first_word_and_rest(alloc, "rcell", words, Refusal::Memory, Refusal::Usage);
    let (script, grids) = match found {
        Ok(found) => found,
        Err(refusal) => return Err(refusal),
    };
    let grids = grids.as_slice();
    if has_word_starting_with_hyphen(grids) {
        return Err(Refusal::Usage);
    }
    let (names, paths) = grid_names_and_paths(alloc, grids)?;
    Ok(RunRequest {
        script,
        names,
        paths,
    })
}
