//! Reads the questions of a request.

ghost use Rattle.std.specs.Prelude.{◌≡◌, ◌+◌, ◌<◌, ◌≤◌, [], length, OnOk, IfOk};
ghost use Rattle.rcell_pipe_request.specs.RequestFields.{reading_repeated_n_times};
ghost use Rattle.rcell_pipe_request.specs.Feeds.{ReadsRequestFieldAndStaysOpen, ReadsWithErrorPosition, ReadsToEndWithErrorPosition};
ghost use Rattle.rcell_pipe_request.specs.Questions.{question_kind_reading, joining_reading, depth_reading, zone_map_name_of_text, zone_map_name_reading, question_reading, next_question_reading, questions_reading, questions_to_request_end_reading, question_as_value, questions_as_values};

use crate::error::{ErrorKind, FieldReadingStop, RequestStop};
use crate::feed::{Feed, check_request_ends, read_text_with_u8_length, read_u8, read_u32};
use crate::question::{Question, WantedFrames};
use cell_clumps::clump::Joining;
use cell_core::name::{Name, NameFault};
use std::alloc::Global;
use std::io::Read;

// Reads the kind of a question, and returns the frames that it asks for.
#[tactic(auto, unfolding(crate::specs::Questions::question_kind_reading))]
fn read_question_kind<R: Read>(feed: &mut Feed<R>) -> Result<WantedFrames, FieldReadingStop>
    ensures { ReadsRequestFieldAndStaysOpen (λ wanted. wanted) feed.old result feed.new
        question_kind_reading }
{
    let kind = read_u8(feed)?;
    if kind < 1 || 7 < kind {
        return Err(FieldReadingStop::Error(ErrorKind::BadQuestion));
    }
    Ok(WantedFrames {
        patches: kind % 2 == 1,
        numbers: kind / 2 % 2 == 1,
        border: 4 <= kind,
    })
}

#[tactic(auto, unfolding(crate::specs::Questions::joining_reading))]
fn read_joining<R: Read>(feed: &mut Feed<R>) -> Result<Joining, FieldReadingStop>
    ensures { ReadsRequestFieldAndStaysOpen (λ joining. joining) feed.old result feed.new
        joining_reading }
{
    match read_u8(feed)? {
        4 => Ok(Joining::Edges),
        8 => Ok(Joining::EdgesAndCorners),
        _ => Err(FieldReadingStop::Error(ErrorKind::BadConnectivity)),
    }
}

#[tactic(auto, unfolding(crate::specs::Questions::depth_reading))]
fn read_core_depth<R: Read>(feed: &mut Feed<R>) -> Result<u32, FieldReadingStop>
    ensures reads { ReadsRequestFieldAndStaysOpen
        (λ depth. depth) feed.old result feed.new depth_reading }
    ensures positive { IfOk result (λ depth. 0 < depth) }
{
    let depth = read_u32(feed)?;
    if 1 <= depth {
        return Ok(depth);
    }
    Err(FieldReadingStop::Error(ErrorKind::BadDepth))
}

// Reads the name of a map of zones, or `None` if it is empty. Zones are an error in a question without patches.
#[tactic(auto, unfolding(crate::specs::Questions::zone_map_name_reading))]
fn read_zone_map_name<R: Read>(
    alloc: Global,
    feed: &mut Feed<R>,
    wanted: WantedFrames,
) -> Result<Option<Name>, FieldReadingStop>
    ensures { ReadsRequestFieldAndStaysOpen (λ zones. zones) feed.old result feed.new
        (zone_map_name_reading wanted) }
{
    let text = read_text_with_u8_length(alloc, feed)?;
    if text.is_empty() {
        return Ok(None);
    }
    if !wanted.patches {
        return Err(FieldReadingStop::Error(ErrorKind::BadZones));
    }
    match Name::read(alloc, &text) {
        Ok(name) => Ok(Some(name)),
        Err(NameFault::BadName) => Err(FieldReadingStop::Error(ErrorKind::BadZones)),
        Err(NameFault::Memory) => Err(FieldReadingStop::Memory),
    }
}

// Reads a question, and assigns its number.
#[tactic(auto, unfolding(crate::specs::Questions::question_reading))]
fn read_question<R: Read>(
    alloc: Global,
    feed: &mut Feed<R>,
    number: u32,
) -> Result<Question, FieldReadingStop>
    ensures { ReadsRequestFieldAndStaysOpen question_as_value feed.old result feed.new
        (question_reading number) }
{
    let wanted = read_question_kind(feed)?;
    let map = read_text_with_u8_length(alloc, feed)?;
    let joining = read_joining(feed)?;
    let depth = read_core_depth(feed)?;
    let zones = read_zone_map_name(alloc, feed, wanted)?;
    Ok(Question {
        number,
        map,
        joining,
        depth,
        zones,
        wanted,
    })
}

// Reads one more question.
#[tactic(auto, unfolding(crate::specs::Questions::next_question_reading))]
fn read_next_question<R: Read>(
    alloc: Global,
    feed: &mut Feed<R>,
    maps: u32,
    number: u32,
    questions: &mut Vec<Question>,
) -> Result<(), RequestStop>
    requires { number ≡ length (questions_as_values questions.old.items) + 1 }
    ensures reads { ReadsWithErrorPosition (λ _. questions_as_values questions.new.items) feed.old
        result feed.new
        (next_question_reading maps (questions_as_values questions.old.items)) }
    ensures count { OnOk result (length (questions_as_values questions.new.items)
        ≡ length (questions_as_values questions.old.items) + 1) }
{
    let question = match read_question(alloc, feed, number) {
        Ok(question) => question,
        Err(stop) => return Err(stop.at(maps, u64::from(number))),
    };
    questions.push(question)?;
    Ok(())
}

// Reads `count` questions.
fn read_given_number_of_questions<R: Read>(
    alloc: Global,
    feed: &mut Feed<R>,
    maps: u32,
    count: u32,
) -> Result<Vec<Question>, RequestStop>
    ensures { ReadsWithErrorPosition (λ questions. questions_as_values questions.items) feed.old
        result feed.new
        (reading_repeated_n_times (next_question_reading maps) [] count) }
{
    let mut questions = Vec::new(alloc);
    for i in 0..count {
        match read_next_question(alloc, feed, maps, i + 1, &mut questions) {
            Ok(()) => {}
            Err(stop) => return Err(stop),
        }
    }
    Ok(questions)
}

#[tactic(auto, unfolding(crate::specs::Questions::questions_reading))]
fn read_question_count_and_questions<R: Read>(
    alloc: Global,
    feed: &mut Feed<R>,
    maps: u32,
) -> Result<Vec<Question>, RequestStop>
    ensures { ReadsWithErrorPosition (λ questions. questions_as_values questions.items) feed.old
        result feed.new
        (questions_reading maps) }
{
    let count = match read_u32(feed) {
        Ok(count) => count,
        Err(stop) => return Err(stop.at(maps, 0)),
    };
    read_given_number_of_questions(alloc, feed, maps, count)
}

/// Reads the questions, which end the request. Memory grows only with the bytes that have arrived.
#[tactic(auto, unfolding(crate::specs::Questions::questions_to_request_end_reading))]
pub(crate) fn read_questions_to_request_end<R: Read>(
    alloc: Global,
    feed: &mut Feed<R>,
    maps: u32,
) -> Result<Vec<Question>, RequestStop>
    ensures { ReadsToEndWithErrorPosition (λ questions. questions_as_values questions.items)
        feed.old result feed.new (questions_to_request_end_reading maps) }
{
    let questions = match read_question_count_and_questions(alloc, feed, maps) {
        Ok(questions) => questions,
        Err(stop) => return Err(stop),
    };
    match check_request_ends(feed) {
        Ok(()) => Ok(questions),
        Err(stop) => Err(stop.at(maps, 0)),
    }
}
