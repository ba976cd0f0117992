//! Laws that relate frames to the output of `rcell`, and the frames of tiles to the frames of full maps.

ghost use Rattle.rcell_pipe_frames.specs.FrameLaw.{FrameTextsAreProgramOutput, ProgramOutputIsTextOfFrames};
ghost use Rattle.rcell_pipe_frames.specs.TileFrameLaw.{TileFramesJoinIntoFullFrames};

/// If a script produces frames, `rcell` prints their text for the same maps. Conversely, any text that `rcell` prints
/// is the text of frames.
pub fn frame_texts_are_program_output()
    ensures output { FrameTextsAreProgramOutput }
    ensures frames { ProgramOutputIsTextOfFrames }
{}

/// Consider a script without r.clump, without labels, and with complete tables. If tiles with the planned halo cover
/// the full maps, each grid of a tile is cut out of the full map's grid, and the tables of the tiles merge into the
/// table of the full maps.
pub fn tile_frames_join_into_full_frames()
    ensures { TileFramesJoinIntoFullFrames }
{}
