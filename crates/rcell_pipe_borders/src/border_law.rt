//! The laws of rejected borders and of borders in frames.

ghost use Rattle.rcell_pipe_borders.specs.BorderFrameLaw.{BorderFramesAreTilesOfJoinRequests};
ghost use Rattle.rcell_pipe_borders.specs.BorderLaw.{BordersOfTilesAreValid};

/// The border of a tile, with the numbers of its patches and their counts by row, is not rejected.
pub fn borders_of_tiles_are_valid()
    ensures { BordersOfTilesAreValid }
{}

/// The bytes of a border in a frame are read as the same border in a join request.
pub fn border_frames_are_tiles_of_join_requests()
    ensures { BorderFramesAreTilesOfJoinRequests }
{}
