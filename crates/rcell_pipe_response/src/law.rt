//! What the frames of questions about a tile guarantee.

ghost use Rattle.rcell_pipe_response.specs.TileQuestionLaw.{TileQuestionsHaveFullMapMeasures};

/// Consider the same statements over full maps and over a tile that is cut out of them with its halo. If the halo is
/// enough and no question is rejected, the measures in the frames of each question are the measures in the full map of
/// the tile's patches, for given maps and for maps that statements make.
pub fn tile_questions_have_full_map_measures()
    ensures { TileQuestionsHaveFullMapMeasures }
{}
