//! Outputs of worked runs, as the specification defines them.

ghost use Rattle.rcell_worked.specs.SentResponses.{SentRequestsGetFrames};
ghost use Rattle.rcell_worked.specs.WorkedClumps.{ClumpMapExamplesHold};
ghost use Rattle.rcell_worked.specs.WorkedGrids.{GridExamplesHold};
ghost use Rattle.rcell_worked.specs.WorkedNumbers.{WorkedClumpNumberExamples};
ghost use Rattle.rcell_worked.specs.WorkedRequests.{RequestExamplesHold};
ghost use Rattle.rcell_worked.specs.WorkedTables.{TableExamplesHold};

use rcell_pipe_law::law::sent_requests_are_read;
use rcell_script::law::script_reading_matches_meaning;

/// Tables: the first example of the documents, without null, of two maps, after a combination, cell by cell, and of
/// reclassified maps with their labels.
pub fn table_examples_hold()
    ensures { TableExamplesHold }
{
    script_reading_matches_meaning();
}

/// Grids: a map with a different null text, and an expression with an offset, which is null beyond the edge.
pub fn grid_examples_hold()
    ensures { GridExamplesHold }
{
    script_reading_matches_meaning();
}

/// The clump numbers of a map, by edges and by edges and corners: no others are right.
///
/// `IsClumpMapOf` states which map of numbers is right but does not construct one. Therefore the proof names the first
/// cell of each clump and a path to each cell, and the checker computes that they fit the map.
pub fn clump_number_examples_hold()
    ensures { WorkedClumpNumberExamples }
{}

/// Clump maps: the output of r.clump and r.out.ascii for this map.
pub fn clump_map_examples_hold()
    ensures { ClumpMapExamplesHold }
{
    script_reading_matches_meaning();
}

/// The request of docs/pipe.md and its response, byte for byte.
pub fn request_examples_hold()
    ensures { RequestExamplesHold }
{
    script_reading_matches_meaning();
}

/// The response to any request that a caller writes for maps, a script and questions. If it reports no error, it
/// consists of the frames of this script over these maps, and of these questions. No error is in the request itself.
pub fn sent_requests_get_frames()
    ensures { SentRequestsGetFrames }
{
    sent_requests_are_read();
}
