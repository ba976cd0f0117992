//! What the bytes of a request mean to the caller that writes them.

ghost use Rattle.rcell_pipe_law.specs.RequestLaw.{SentRequestsAreRead};
ghost use Rattle.rcell_pipe_law.specs.SentExamples.{ExampleRequestsMatchBytes};

use cell_ascii_law::law::reading_returns_denoted_map;

/// A caller writes a region, maps of this region with distinct names, a script and questions. A map is sent as rows of
/// numbers or as a text that denotes it. The request is read as exactly these: the region, each cell, label and name,
/// each byte of the script, and each question.
pub fn sent_requests_are_read()
    ensures { SentRequestsAreRead }
{
    reading_returns_denoted_map();
}

/// The request of docs/pipe.md, and a request with a mask, a label, negative numbers, a grid text and a question, byte
/// for byte. They show that the law above has instances.
pub fn example_requests_match_bytes()
    ensures { ExampleRequestsMatchBytes }
{
    reading_returns_denoted_map();
}
