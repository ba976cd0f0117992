//! Questions about the maps that a script produces.

ghost use Rattle.std.specs.Prelude.{◌<◌};

use cell_clumps::clump::Joining;
use cell_core::name::Name;

/// The frames that a question asks for.
#[derive(Clone, Copy, Debug)]
pub struct WantedFrames {
    /// Whether the measures of the patches are wanted.
    pub patches: bool,
    /// Whether the map of the patches' numbers is wanted.
    pub numbers: bool,
    /// Whether the map's border is wanted, with the numbers of its patches.
    pub border: bool,
}

/// A question about the patches of a map that exists at the end of the script.
#[derive(Debug, Drop)]
pub struct Question {
    /// The question's number in the request, from 1.
    pub number: u32,
    /// The name of the map.
    pub map: Vec<u8>,
    /// Which cells are adjacent.
    pub joining: Joining,
    /// The depth of the core, in steps from the edge of its patch, at least 1.
    pub depth: u32,
    /// The name of a map of zones, if each patch's main zone is wanted.
    pub zones: Option<Name>,
    /// The frames that the question asks for.
    pub wanted: WantedFrames,
    pub ghost positive: { 0 < depth },
}
