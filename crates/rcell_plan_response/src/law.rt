//! The law of tiles: what the responses to requests for tiles say about the full maps.

ghost use Rattle.rcell_plan_response.specs.TileResponseLaw.{TileResponsesJoinIntoFullFrames, TileResponsesJoinIntoFullResponse};

use rcell_script::law::text_denotes_at_most_one_script;

/// Consider a script without r.clump, `-l`, `-1` and `after=`. Send it with each of the tiles that cover full maps; a
/// tile is sent with the cells around it. If no response reports an error, each grid of a tile is cut out of the full
/// maps' grid, and the sums of the tiles' tables, as a join request returns them, are the full maps' table.
pub fn tile_responses_join_into_full_response()
    // The full maps may be too large for one request.
    ensures frames { TileResponsesJoinIntoFullFrames }
    // If the script is also sent with the full maps, these frames are in the response.
    ensures response { TileResponsesJoinIntoFullResponse }
{
    text_denotes_at_most_one_script();
}
