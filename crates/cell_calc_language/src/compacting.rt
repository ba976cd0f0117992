//! Renumbers the maps of an expression, so that only the maps that it reads have indices.

ghost use Rattle.std.specs.Prelude.{◌≡◌, ◌<◌, ◌+◌, ℕ, List, length, max, All, IfOk};
ghost use Rattle.cell_core.specs.Grid.{Grid};
ghost use Rattle.cell_calc_language.specs.Compact.{ReadsMap, FormulaReadsMapsAtPlaces, AreMapsAtPlaces, AreDistinctPlaces};
ghost use Rattle.cell_calc_language.specs.Formula.{Formula};
ghost use Rattle.cell_calc_language.specs.Reach.{map_place_limit_at_offset, map_place_limit_of_formula};
ghost use Rattle.cell_calc_language.specs.Applied.{PositionAndGridSize};
ghost use Rattle.cell_calc_language.specs.Value.{value};
ghost use Rattle.cell_calc_grammar.specs.Postfix.{value_of_step_map_or_default, step_with_leaf_replaced};
ghost use Rattle.cell_calc_language.specs.parts.TreeSteps.{position_among_places, StepReadsListedPlace, StepReadsMapAtPlace, ExtendsListWithoutDuplicates, AreStepsRenumberedToReadMaps};

use crate::bound::Bound;
use cell_calc_grammar::step::Step;
use cell_core::memory::Memory;
use std::alloc::Global;

// Returns the position of an index in a list, or the length of the list if it is not in the list.
fn position_in_place_list(places: &[usize], place: usize) -> usize
    ensures { result ≡ position_among_places places.now place }
{
    for (k, known) in places.iter().enumerate() {
        if *known == place {
            return k;
        }
    }
    places.len()
}

// Returns the position of an index in a list, after appending it if it is not in the list.
fn find_or_add_place(places: &mut Vec<usize>, place: usize) -> Result<usize, Memory>
    ensures there { IfOk result (λ k. k ≡ position_among_places places.new.items place) }
    ensures count { IfOk result (λ k. length places.new.items
        ≡ max (length places.old.items) (k + 1)) }
    ensures places { ExtendsListWithoutDuplicates places.old.items places.new.items }
    ensures read { (f : Formula) → ReadsMap place f → FormulaReadsMapsAtPlaces places.old.items f
        → FormulaReadsMapsAtPlaces places.new.items f }
{
    let k = position_in_place_list(places.as_slice(), place);
    if k < places.len() {
        return Ok(k);
    }
    places.push(place)?;
    Ok(k)
}

// Returns the step renumbered over a list of indices, to which the step's index is added if needed.
fn step_with_renumbered_map(
    step: Step<usize>,
    places: &mut Vec<usize>,
) -> Result<Step<usize>, Memory>
    ensures step { IfOk result (λ s. s ≡ step_with_leaf_replaced
        (position_among_places places.new.items) step) }
    ensures listed { IfOk result (λ _. StepReadsListedPlace places.new.items step) }
    ensures count { IfOk result (λ s. length places.new.items
        ≡ max (length places.old.items) (value_of_step_map_or_default map_place_limit_at_offset 0
        s)) }
    ensures places { ExtendsListWithoutDuplicates places.old.items places.new.items }
    ensures read { (f : Formula) → ((i : ℕ) → StepReadsMapAtPlace i step → ReadsMap i f)
        → FormulaReadsMapsAtPlaces places.old.items f
        → FormulaReadsMapsAtPlaces places.new.items f }
{
    match step {
        Step::Map { leaf, down, right } => Ok(Step::Map {
            leaf: find_or_add_place(places, leaf)?,
            down,
            right,
        }),
        _ => Ok(step),
    }
}

// Renumbers steps so that they index only the maps that they read. Returns the steps and the old indices of these maps.
fn steps_renumbered_to_read_maps(
    alloc: Global,
    steps: &[Step<usize>],
) -> Result<(Vec<Step<usize>>, Vec<usize>), Memory>
    ensures { IfOk result (λ r. AreStepsRenumberedToReadMaps steps.now r.0.items r.1.items) }
{
    let mut places = Vec::new(alloc);
    let mut others = Vec::with_capacity(alloc, steps.len())?;
    for step in steps {
        let other = step_with_renumbered_map(*step, &mut places)?;
        others.push(other)?;
    }
    Ok((others, places))
}

impl Bound {
    /// Returns the expression renumbered over a list of only the maps that it reads, and the old index of each.
    ///
    /// `eval_row` needs a window for each index up to the largest. If each map of a script is computed from the map
    /// before, windows over all maps of the shelf would take time that grows with the square of the number of
    /// statements.
    ///
    /// # Errors
    ///
    /// [`Memory`] if memory runs out.
    pub fn renumbered_over_read_maps(&self, alloc: Global) -> Result<(Bound, Vec<usize>), Memory>
        ensures value { IfOk result (λ r. (maps picked : List Grid)
            → AreMapsAtPlaces r.1.items maps picked → (s : PositionAndGridSize)
            → value r.0 picked s ≡ value self.now maps s) }
        ensures top { IfOk result (λ r. map_place_limit_of_formula r.0 ≡ length r.1.items) }
        ensures read { IfOk result (λ r. FormulaReadsMapsAtPlaces r.1.items self.now) }
        ensures distinct { IfOk result (λ r. AreDistinctPlaces r.1.items) }
        ensures within { IfOk result (λ r. All
            (λ i. i < map_place_limit_of_formula self.now) r.1.items) }
    {
        let (steps, places) = steps_renumbered_to_read_maps(alloc, self.steps.as_slice())?;
        Ok((Bound { steps }, places))
    }
}
