//! Reads complete plan requests.

ghost use Rattle.std.specs.Prelude.{◌≡◌, ◌+◌, ◌<◌, ◌≤◌, [], length, None, OnOk, IfOk};
ghost use Rattle.cell_core_values.specs.Name.{place_of_name};
ghost use Rattle.rcell_pipe_request.specs.RequestFields.{reading_repeated_n_times};
ghost use Rattle.rcell_pipe_request.specs.Feeds.{ReadsRequestFieldAndStaysOpen, ReadsWithErrorPosition, ReadsToEndWithErrorPosition};
ghost use Rattle.rcell_plan_response.specs.PlanRequests.{name_count_reading, distinct_name_reading, names_with_next_name_reading, plan_request_reading, plan_request_as_value};

use cell_core::name::{Name, Names};
use rcell_pipe_request::error::{ErrorKind, FieldReadingStop, RequestStop};
use rcell_pipe_request::feed::{Feed, read_u32};
use rcell_pipe_request::head::read_map_name;
use rcell_pipe_request::request::read_script_to_request_end;
use std::alloc::Global;
use std::io::Read;

/// Names of maps, and a script.
#[derive(Debug, Drop)]
pub struct PlanRequest {
    pub names: Names,
    pub script: Vec<u8>,
}

// Reads the number of names.
#[tactic(auto, unfolding(crate::specs::PlanRequests::name_count_reading))]
fn read_name_count<R: Read>(feed: &mut Feed<R>) -> Result<u32, FieldReadingStop>
    ensures reads { ReadsRequestFieldAndStaysOpen
        (λ n. n) feed.old result feed.new name_count_reading }
    ensures within { IfOk result (λ n. n ≤ 65535) }
{
    let count = read_u32(feed)?;
    if count <= 65535 {
        return Ok(count);
    }
    Err(FieldReadingStop::Error(ErrorKind::BadCount))
}

// Reads a name that differs from all previous names.
#[tactic(auto, unfolding(crate::specs::PlanRequests::distinct_name_reading))]
fn read_distinct_name<R: Read>(
    alloc: Global,
    feed: &mut Feed<R>,
    names: &Names,
) -> Result<Name, FieldReadingStop>
    ensures reads { ReadsRequestFieldAndStaysOpen (λ name. name) feed.old result feed.new
        (distinct_name_reading names.now) }
    ensures unused { IfOk result (λ name. place_of_name name names.now ≡ None) }
{
    let name = read_map_name(alloc, feed)?;
    match names.find(name.bytes()) {
        Some(_) => Err(FieldReadingStop::Error(ErrorKind::NameTwice)),
        None => Ok(name),
    }
}

// Reads one more name.
#[tactic(auto, unfolding(crate::specs::PlanRequests::names_with_next_name_reading))]
fn read_one_more_name<R: Read>(
    alloc: Global,
    feed: &mut Feed<R>,
    names: &mut Names,
) -> Result<(), RequestStop>
    requires { length names.old < 65536 }
    ensures reads { ReadsWithErrorPosition (λ _. names.new) feed.old result feed.new
        (names_with_next_name_reading names.old) }
    ensures count { OnOk result (length names.new ≡ length names.old + 1) }
{
    let count = names.len() as u32;
    let name = match read_distinct_name(alloc, feed, &*names) {
        Ok(name) => name,
        Err(stop) => return Err(stop.at(count, 0)),
    };
    match names.push(name) {
        Ok(()) => Ok(()),
        Err(_) => Err(RequestStop::Memory),
    }
}

// Reads `count` more names.
fn push_each_map_name<R: Read>(
    alloc: Global,
    feed: &mut Feed<R>,
    names: &mut Names,
    count: u32,
) -> Result<(), RequestStop>
    requires { length names.old + count ≤ 65536 }
    ensures { ReadsWithErrorPosition (λ _. names.new) feed.old result feed.new
        (reading_repeated_n_times names_with_next_name_reading names.old count) }
{
    for i in 0..count {
        match read_one_more_name(alloc, feed, names) {
            Ok(()) => {}
            Err(stop) => return Err(stop),
        }
    }
    Ok(())
}

/// Reads the names and the script of a plan request, to the end of the source. Memory grows only with the bytes that
/// have arrived.
///
/// # Errors
///
/// Returns the first error in the bytes, or [`RequestStop::Memory`] if memory runs out.
#[tactic(auto, unfolding(crate::specs::PlanRequests::plan_request_reading))]
pub fn read_plan_request<R: Read>(
    alloc: Global,
    feed: &mut Feed<R>,
) -> Result<PlanRequest, RequestStop>
    ensures { ReadsToEndWithErrorPosition plan_request_as_value feed.old result feed.new
        plan_request_reading }
{
    let count = match read_name_count(feed) {
        Ok(count) => count,
        Err(stop) => return Err(stop.at(0, 0)),
    };
    let mut names = Names::new(alloc);
    match push_each_map_name(alloc, feed, &mut names, count) {
        Ok(()) => {}
        Err(stop) => return Err(stop),
    }
    match read_script_to_request_end(alloc, feed) {
        Ok(script) => Ok(PlanRequest { names, script }),
        Err(stop) => Err(stop.at(count, 0)),
    }
}
