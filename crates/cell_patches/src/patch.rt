//! The measures of a patch.

ghost use Rattle.std.specs.Prelude.{◌≡◌};
ghost use Rattle.cell_patches.specs.parts.Passes.{unread, patch_with_run, PatchMeasuresCannotOverflow};

/// The measures of a patch, which is a connected component of equal cells.
#[derive(Clone, Copy, Debug, PartialEq, Eq)]
pub struct Patch {
    /// The category of the patch's cells.
    pub class: i32,
    /// The number of cells in the patch.
    pub cells: u64,
    /// The number of north and south sides of cells that lead out of the patch.
    pub ends: u64,
    /// The number of west and east sides of cells that lead out of the patch.
    pub flanks: u64,
    /// The number of cells that are at least a given number of steps inside the patch.
    pub core: u64,
    /// The first row of the patch, counted from 0.
    pub first_row: u32,
    /// The last row of the patch.
    pub last_row: u32,
    /// The first column of the patch, counted from 0.
    pub first_col: u32,
    /// The last column of the patch.
    pub last_col: u32,
}

impl Patch {
    // Returns the measures of a patch of which no cell was read.
    pub(crate) fn unread() -> Patch
        ensures { result ≡ unread }
    {
        Patch {
            class: 0,
            cells: 0,
            ends: 0,
            flanks: 0,
            core: 0,
            first_row: u32::MAX,
            last_row: 0,
            first_col: u32::MAX,
            last_col: 0,
        }
    }

    // Adds a run to the measures.
    #[inline(always)]
    pub(crate) fn add(&mut self, found: RunContribution)
        requires { PatchMeasuresCannotOverflow self.old found }
        ensures { self.new ≡ patch_with_run self.old found }
    {
        self.class = found.class;
        self.cells += found.cells;
        self.ends += found.ends;
        self.flanks += found.flanks;
        self.first_row = self.first_row.min(found.row);
        self.last_row = self.last_row.max(found.row);
        self.first_col = self.first_col.min(found.first_col);
        self.last_col = self.last_col.max(found.last_col);
    }
}

// The contribution of a run, which is equal cells in a row, to the measures of its patch.
#[derive(Clone, Copy, Debug)]
pub(crate) struct RunContribution {
    pub(crate) class: i32,
    pub(crate) cells: u64,
    pub(crate) ends: u64,
    pub(crate) flanks: u64,
    pub(crate) row: u32,
    pub(crate) first_col: u32,
    pub(crate) last_col: u32,
}
