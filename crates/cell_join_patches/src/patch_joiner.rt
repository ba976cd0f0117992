//! Joins parts of patches.

ghost use Rattle.std.specs.Prelude.{◌≡◌, ◌++◌, ◌∷◌, [], false, true, List, None, Some, IfErr, IfNone, IfOk, IfSome};
ghost use Rattle.cell_patches.specs.declared.patch.Patch.{Patch};
ghost use Rattle.cell_join_patches.specs.JoinedPatches.{AreJoinedPatches, AreMeasuresOfParts, IsPatchOfParts, IsStopOfPart, fault_of_measures, fault_of_part, patch_can_be_added, patch_comes_after};
ghost use Rattle.cell_join_patches.specs.parts.BothMeasures.{measures_of_both, sums_of_both_are_below_limit};

use crate::part::PatchOfTile;
use cell_patches::patch::Patch;
use std::alloc::Global;
use std::collections::BTreeMap;
use std::marker::Model;

/// Why a part is not added to a patch.
#[derive(Clone, Copy, Debug, PartialEq, Eq)]
pub enum PartFault {
    /// Another part of the patch has another class.
    OtherClass,
    /// A measure of the patch adds up to 2^64 or more.
    TooManyCells,
}

/// Why a part is not added.
#[derive(Clone, Copy, Debug, PartialEq, Eq)]
pub enum PartStop {
    /// Memory ran out.
    Memory,
    /// The part is rejected.
    Fault(PartFault),
}

/// Patches of tiles, and the patches of the full map that they are parts of.
#[derive(Debug, Drop)]
pub struct PatchJoiner {
    parts: Vec<PatchOfTile>,
    patches: BTreeMap<u64, Patch>,
}

impl Model for PatchJoiner {
    ghost use Rattle.std.specs.Prelude.{List};
    ghost use Rattle.cell_join_patches.specs.declared.part.PatchOfTile.{PatchOfTile};
    ghost use Rattle.cell_join_patches.specs.JoinedPatches.{AreJoinedPatches};

    ghost Value = { List PatchOfTile };

    ghost view = { λ j. j.parts.items };

    ghost invariant = { λ j. AreJoinedPatches j.parts.items j.patches.entries };
}

// Returns the measures of two parts of one patch together, unless a sum does not fit in a `u64`.
fn measures_of_both(one: Patch, other: Patch) -> Option<Patch>
    ensures some { IfSome result (λ both. (both ≡ measures_of_both one other)
        × (sums_of_both_are_below_limit one other ≡ true)) }
    ensures none { IfNone result (sums_of_both_are_below_limit one other ≡ false) }
{
    let cells = one.cells.checked_add(other.cells)?;
    let ends = one.ends.checked_add(other.ends)?;
    let flanks = one.flanks.checked_add(other.flanks)?;
    let core = one.core.checked_add(other.core)?;
    Some(Patch {
        class: one.class,
        cells,
        ends,
        flanks,
        core,
        first_row: one.first_row.min(other.first_row),
        last_row: one.last_row.max(other.last_row),
        first_col: one.first_col.min(other.first_col),
        last_col: one.last_col.max(other.last_col),
    })
}

// Returns the measures of a patch with one more part. `found` has the parts before it.
fn patch_with_part(found: Option<Patch>, part: Patch) -> Result<Patch, PartFault>
    ensures with { IfOk result (λ both. (parts : List Patch) → IsPatchOfParts parts found
        → (fault_of_measures parts part ≡ None) × AreMeasuresOfParts (parts ++ part ∷ []) both) }
    ensures fault { IfErr result (λ fault. (parts : List Patch) → IsPatchOfParts parts found
        → fault_of_measures parts part ≡ Some fault) }
{
    let Some(patch) = found else {
        return Ok(part);
    };
    if patch.class != part.class {
        return Err(PartFault::OtherClass);
    }
    match measures_of_both(patch, part) {
        Some(both) => Ok(both),
        None => Err(PartFault::TooManyCells),
    }
}

// Returns whether a patch is of a later tile, or a later patch of the same tile.
fn patch_comes_after(previous: &PatchOfTile, tile: u64, patch: u64) -> bool
    ensures { result ≡ patch_comes_after previous.now tile patch }
{
    previous.tile < tile || (previous.tile == tile && previous.number < patch)
}

fn patch_can_be_added(parts: &[PatchOfTile], tile: u64, patch: u64) -> bool
    ensures { result ≡ patch_can_be_added parts.now tile patch }
{
    match parts.last() {
        Some(previous) => patch_comes_after(previous, tile, patch),
        None => true,
    }
}

impl PatchJoiner {
    /// Creates a joiner without parts. Allocates no memory.
    pub fn new(alloc: Global) -> PatchJoiner
        ensures { result ≡ [] }
    {
        PatchJoiner {
            parts: Vec::new(alloc),
            patches: BTreeMap::new(alloc),
        }
    }

    /// Returns whether a patch comes after the parts so far, in the order of tiles and their patches.
    pub fn patch_can_be_added(&self, tile: u64, patch: u64) -> bool
        ensures { result ≡ patch_can_be_added self.now tile patch }
    {
        patch_can_be_added(&self.parts, tile, patch)
    }

    /// Adds a part.
    ///
    /// # Errors
    ///
    /// Returns a [`PartStop`] if the part cannot be added.
    pub fn add(self, part: PatchOfTile) -> Result<PatchJoiner, PartStop>
        ensures added { IfOk result
            (λ more. (fault_of_part self part ≡ None) × (more ≡ self ++ part ∷ [])) }
        ensures stop { IfErr result (IsStopOfPart self part) }
    {
        let PatchJoiner {
            mut parts,
            mut patches,
        } = self;
        let found = patches.get(&part.full_map_number).copied();
        let patch = match patch_with_part(found, part.patch) {
            Ok(patch) => patch,
            Err(fault) => return Err(PartStop::Fault(fault)),
        };
        if parts.push(part).is_err() || patches.insert(part.full_map_number, patch).is_err() {
            return Err(PartStop::Memory);
        }
        Ok(PatchJoiner { parts, patches })
    }

    /// Returns the patches of the full map, by number.
    pub fn patches(&self) -> &BTreeMap<u64, Patch>
        ensures { AreJoinedPatches self.now result.now.entries }
    {
        &self.patches
    }
}
