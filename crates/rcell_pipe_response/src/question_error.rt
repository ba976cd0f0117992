//! Errors of questions, which are checked after the script has been accepted.

ghost use Rattle.std.specs.Prelude.{◌≡◌};
ghost use Rattle.std.specs.Option.{option_map};
ghost use Rattle.rcell_pipe_response.specs.QuestionFrames.{question_has_unknown_zone_map, map_lacks_halo, question_lacks_halo, question_error_kind_if_rejected, first_question_error};
ghost use Rattle.rcell_pipe_request.specs.Questions.{question_as_value, questions_as_values};

use crate::frame_run::ResponseForm;
use cell_core::name::{Name, Names};
use rcell_pipe_request::question::Question;
use rcell_tile::halo_margins::{HaloMargin, depth_exceeds_margin};

/// What is wrong with a question.
#[derive(Clone, Copy, Debug, PartialEq, Eq)]
pub enum QuestionErrorKind {
    /// No map has this name at the end of the script.
    UnknownMap,
    /// The halo of a tile is too small for the measures of the map's patches.
    HaloTooSmall,
    /// The response is text, which cannot contain the frames of questions.
    OfText,
}

/// An error, and the number of its question, from 1.
#[derive(Clone, Copy, Debug, PartialEq, Eq)]
pub struct QuestionError {
    pub kind: QuestionErrorKind,
    pub number: u32,
}

// Returns whether a question's zone map is not among the maps with these names.
fn question_has_unknown_zone_map(names: &Names, zones: &Option<Name>) -> bool
    ensures { result ≡ question_has_unknown_zone_map names.now zones.now }
{
    match zones {
        Some(name) => names.find(name.bytes()).is_none(),
        None => false,
    }
}

// Returns whether the halo of a tile's map is smaller than `depth` on some side. An unknown map is a different error.
fn map_lacks_halo(margins: &[HaloMargin], map: Option<usize>, depth: u32) -> bool
    ensures { result ≡ map_lacks_halo margins.now map depth }
{
    match map {
        Some(place) => depth_exceeds_margin(margins, place, depth),
        None => false,
    }
}

// Returns whether the halo of a tile is too small for the measures that a question wants.
fn question_lacks_halo(
    names: &Names,
    margins: &Option<Vec<HaloMargin>>,
    question: &Question,
) -> bool
    ensures { result ≡ question_lacks_halo names.now (option_map (λ m. m.items) margins.now)
        (question_as_value question.now) }
{
    match margins {
        Some(margins) => {
            question.wanted.patches
                && map_lacks_halo(margins, names.find(&question.map), question.depth)
        }
        None => false,
    }
}

// Returns why a question is rejected, if it is. `names` contains the names of all maps, and `margins` their margins in
// a tile.
fn question_error_kind_if_rejected(
    form: ResponseForm,
    names: &Names,
    margins: &Option<Vec<HaloMargin>>,
    question: &Question,
) -> Option<QuestionErrorKind>
    ensures { result ≡ question_error_kind_if_rejected form names.now
        (option_map (λ m. m.items) margins.now) (question_as_value question.now) }
{
    match form {
        ResponseForm::Text => Some(QuestionErrorKind::OfText),
        ResponseForm::Frames => {
            if names.find(&question.map).is_none()
                || question_has_unknown_zone_map(names, &question.zones)
            {
                Some(QuestionErrorKind::UnknownMap)
            } else if question_lacks_halo(names, margins, question) {
                Some(QuestionErrorKind::HaloTooSmall)
            } else {
                None
            }
        }
    }
}

/// Returns the error of the first question that is rejected. `names` contains the names of all maps, and `margins`
/// their margins in a tile.
pub(crate) fn first_question_error(
    form: ResponseForm,
    names: &Names,
    margins: &Option<Vec<HaloMargin>>,
    questions: &[Question],
) -> Option<QuestionError>
    ensures { result ≡ first_question_error form names.now (option_map (λ m. m.items) margins.now)
        (questions_as_values questions.now) }
{
    for question in questions {
        if let Some(kind) = question_error_kind_if_rejected(form, names, margins, question) {
            return Some(QuestionError {
                kind,
                number: question.number,
            });
        }
    }
    None
}
