//! Writes the response to a plan request.

ghost use Rattle.std.specs.Prelude.{◌≡◌, ◌++◌, length, None, Ok, Result};
ghost use Rattle.rcell_script.specs.FittingScripts.{StatementsFitKnownMaps};
ghost use Rattle.rcell_pipe_frames.specs.FrameBytes.{response_magic, run_end_frame_bytes};
ghost use Rattle.rcell_pipe_response.specs.RunEnds.{end_frame_of_successful_run};
ghost use Rattle.rcell_pipe_response.specs.FrameEndings.{IsTextSentWithOutcome, IsEndOfResponseSent};
ghost use Rattle.rcell_pipe_request.specs.declared.error.RequestError.{RequestError};
ghost use Rattle.rcell_plan_response.specs.PlanRequests.{PlanRequestValue, plan_request_as_value};
ghost use Rattle.rcell_plan_response.specs.PlanFrames.{plans_bytes};
ghost use Rattle.rcell_plan_response.specs.PlanEnds.{IsPlanRequestAccepted, IsPlanResponse};

use crate::plan_frames::push_plans;
use crate::plan_request::PlanRequest;
use cell_core::name::Names;
use cell_core::sink::Sink;
use rcell_pipe_response::end::{PipeError, end_frame_of_successful_run, memory_end};
use rcell_pipe_response::frame_run::{
    PipeOutcome, begin_response, end_response_and_flush, reject, reject_script,
};
use rcell_pipe_response::made_names::names_of_all_maps;
use rcell_plan::planning::{Plan, plans_of_statements};
use rcell_script::script_fault::ScriptKind;
use rcell_script::script_parsing::parse_script;
use rcell_script::statement::Statement;
use std::alloc::Global;

// Writes the plans of statements. `names` contains the names of all maps.
fn write_plan_response<W: Sink>(
    out: &mut W,
    names: &Names,
    plans: &[Plan],
    statements: &[Statement],
) -> PipeOutcome
    requires { length plans.now ≡ length statements.now }
    ensures { IsTextSentWithOutcome (W.taken out.old) (W.faults out.old) (W.taken out.new)
        (W.faults out.new)
        None (response_magic
        ++ plans_bytes names.now plans.now statements.now
        ++ run_end_frame_bytes end_frame_of_successful_run) result }
{
    let mut block = begin_response(out);
    push_plans(out, &mut block, names, plans, statements);
    end_response_and_flush(out, block, None, &end_frame_of_successful_run())
}

// Responds with the plans of statements. Allocates all memory before it writes the first byte.
fn respond_with_plans<W: Sink>(
    alloc: Global,
    names: Names,
    statements: &[Statement],
    out: &mut W,
) -> PipeOutcome
    requires { StatementsFitKnownMaps names statements.now }
    ensures { (read : Result PlanRequestValue RequestError)
        → IsPlanRequestAccepted read names statements.now
        → IsEndOfResponseSent (IsPlanResponse read) (W.taken out.old) (W.faults out.old)
        (W.taken out.new)
        (W.faults out.new) result }
{
    let Ok(plans) = plans_of_statements(alloc, names.len(), statements) else {
        return reject(out, PipeError::Memory, &memory_end(0));
    };
    let Ok(all) = names_of_all_maps(alloc, names, statements) else {
        return reject(out, PipeError::Memory, &memory_end(0));
    };
    write_plan_response(out, &all, plans.as_slice(), statements)
}

/// Responds to a plan request with the plan of each statement, or with the first error of the script.
pub fn respond_to_plan_request<W: Sink>(
    alloc: Global,
    request: PlanRequest,
    out: &mut W,
) -> PipeOutcome
    ensures { IsEndOfResponseSent (IsPlanResponse (Ok (plan_request_as_value request)))
        (W.taken out.old)
        (W.faults out.old) (W.taken out.new) (W.faults out.new) result }
{
    let PlanRequest { names, script } = request;
    match parse_script(alloc, &script, &names) {
        Ok(parsed) => respond_with_plans(alloc, names, parsed.statements(), out),
        Err(error) => match error.kind {
            ScriptKind::Memory => reject(out, PipeError::Memory, &memory_end(0)),
            _ => reject_script(alloc, out, error),
        },
    }
}
