//! The maps that are needed around a cell, and how far.

ghost use Rattle.std.specs.Prelude.{◌≡◌, ◌+◌, [], ◌∷◌, map, IfOk, OnOk};
ghost use Rattle.rcell_plan.specs.Needs.{margin_covering_both_margins, sum_of_margins, need_covering_both_needs, need_widened_by_margin, requiring_full_map, needs_with_added_need, needs_with_added_needs};
ghost use Rattle.rcell_plan.specs.parts.Places.{position_among_needs, insert_or_join_need};

use cell_core::memory::Memory;
use std::alloc::Global;
use std::marker::Model;

/// The number of rows above and below a cell, and of columns to its left and right.
#[derive(Clone, Copy, Debug, PartialEq, Eq)]
pub struct Margin {
    pub up: u64,
    pub down: u64,
    pub left: u64,
    pub right: u64,
}

/// A map, by index, and how far it is needed around a cell.
#[derive(Clone, Copy, Debug, PartialEq, Eq)]
pub struct MapNeed {
    pub place: usize,
    pub margin: Margin,
    /// Whether the full map is needed, because an r.clump is in between.
    pub whole: bool,
}

/// Needs of distinct maps, ordered by map index.
#[derive(Debug, Drop)]
pub struct MapNeeds {
    list: Vec<MapNeed>,
}

impl Model for MapNeeds {
    ghost use Rattle.std.specs.Prelude.{List};
    ghost use Rattle.rcell_plan.specs.declared.needs.MapNeed.{MapNeed};

    ghost Value = { List MapNeed };

    ghost view = { λ n. n.list.items };
}

fn margin_covering_both_margins(a: Margin, b: Margin) -> Margin
    ensures { result ≡ margin_covering_both_margins a b }
{
    Margin {
        up: a.up.max(b.up),
        down: a.down.max(b.down),
        left: a.left.max(b.left),
        right: a.right.max(b.right),
    }
}

// Adds two numbers. A margin can overflow only for scripts too large for memory.
fn sum_or_memory_error(a: u64, b: u64) -> Result<u64, Memory>
    ensures { IfOk result (λ n. n ≡ a + b) }
{
    match a.checked_add(b) {
        Some(n) => Ok(n),
        None => Err(Memory),
    }
}

fn sum_of_margins(a: Margin, b: Margin) -> Result<Margin, Memory>
    ensures { IfOk result (λ margin. margin ≡ sum_of_margins a b) }
{
    let up = sum_or_memory_error(a.up, b.up)?;
    let down = sum_or_memory_error(a.down, b.down)?;
    let left = sum_or_memory_error(a.left, b.left)?;
    let right = sum_or_memory_error(a.right, b.right)?;
    Ok(Margin {
        up,
        down,
        left,
        right,
    })
}

fn need_covering_both_needs(a: MapNeed, b: MapNeed) -> MapNeed
    ensures { result ≡ need_covering_both_needs a b }
{
    MapNeed {
        place: a.place,
        margin: margin_covering_both_margins(a.margin, b.margin),
        whole: a.whole || b.whole,
    }
}

fn need_widened_by_margin(margin: Margin, need: MapNeed) -> Result<MapNeed, Memory>
    ensures { IfOk result (λ n. n ≡ need_widened_by_margin margin need) }
{
    let margin = sum_of_margins(margin, need.margin)?;
    Ok(MapNeed {
        place: need.place,
        margin,
        whole: need.whole,
    })
}

// Returns the position of the need for the map `place`, or where to insert it.
fn position_among_needs(needs: &[MapNeed], place: usize) -> usize
    ensures { result ≡ position_among_needs place needs.now }
{
    for (i, need) in needs.iter().enumerate() {
        if place <= need.place {
            return i;
        }
    }
    needs.len()
}

// Inserts a need at its position, or joins it with the need there for the same map.
fn insert_or_join_need(needs: &mut Vec<MapNeed>, at: usize, need: MapNeed) -> Result<(), Memory>
    ensures { OnOk result (needs.new.items ≡ insert_or_join_need needs.old.items at need) }
{
    match needs.get(at).copied() {
        Some(known) => {
            if known.place == need.place {
                needs[at] = need_covering_both_needs(known, need);
            } else {
                needs.insert(at, need)?;
            }
        }
        None => needs.push(need)?,
    }
    Ok(())
}

impl MapNeeds {
    /// Creates an empty list of needs.
    pub fn new(alloc: Global) -> MapNeeds
        ensures { result ≡ [] }
    {
        MapNeeds {
            list: Vec::new(alloc),
        }
    }

    /// Returns the needs as a slice.
    pub fn in_order(&self) -> &[MapNeed]
        ensures { result.now ≡ self.now }
    {
        &self.list
    }

    /// Adds a need. If the same map is already needed, widens its need to contain both.
    ///
    /// # Errors
    ///
    /// Returns [`Memory`] if memory runs out.
    #[tactic(auto, using(crate::proofs::NeedLemmas::put_among))]
    pub fn add(&mut self, need: MapNeed) -> Result<(), Memory>
        ensures { OnOk result (self.new ≡ needs_with_added_need self.old need) }
    {
        let at = position_among_needs(self.list.as_slice(), need.place);
        insert_or_join_need(&mut self.list, at, need)
    }

    /// Adds the needs of a map that is itself read within a margin.
    ///
    /// # Errors
    ///
    /// Returns [`Memory`] if memory runs out.
    pub fn add_needs_widened_by_margin(
        &mut self,
        margin: Margin,
        more: &[MapNeed],
    ) -> Result<(), Memory>
        ensures { OnOk result (self.new ≡ needs_with_added_needs self.old
            (map (need_widened_by_margin margin) more.now)) }
    {
        for need in more {
            let need = need_widened_by_margin(margin, *need)?;
            self.add(need)?;
        }
        Ok(())
    }

    /// Copies needs.
    ///
    /// # Errors
    ///
    /// Returns [`Memory`] if memory runs out.
    pub fn copy_of_needs(alloc: Global, needs: &[MapNeed]) -> Result<MapNeeds, Memory>
        ensures { IfOk result (λ copy. copy ≡ needs.now) }
    {
        let list = Vec::from_slice(alloc, needs)?;
        Ok(MapNeeds { list })
    }

    /// Copies needs, and requires each map in full.
    ///
    /// # Errors
    ///
    /// Returns [`Memory`] if memory runs out.
    pub fn requiring_full_map(alloc: Global, needs: &[MapNeed]) -> Result<MapNeeds, Memory>
        ensures { IfOk result (λ whole. whole ≡ map requiring_full_map needs.now) }
    {
        let mut list = Vec::with_capacity(alloc, needs.len())?;
        for need in needs {
            list.push(MapNeed {
                whole: true,
                ..*need
            })?;
        }
        Ok(MapNeeds { list })
    }
}
