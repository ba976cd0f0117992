//! Replaces map names with indices into a list of maps.

ghost use Rattle.std.specs.Prelude.{◌≡◌, map, None, IfOk, IfErr, IfSome, IsErrOf, OnOk};
ghost use Rattle.cell_calc_language.specs.Binding.{place_of_map_name, formula_of_term, IsBindingFault};
ghost use Rattle.cell_calc_grammar.specs.Postfix.{step_with_leaf_replaced};
ghost use Rattle.cell_calc_language.specs.Unknown.{first_unknown};

use crate::bound::Bound;
use crate::calc_fault::{CalcFault, CalcKind};
use crate::expr::Expr;
use cell_calc_grammar::map_name::MapNameAtColumn;
use cell_calc_grammar::step::Step;
use cell_core::memory::Memory;
use cell_core::name::{Name, Names};
use std::alloc::Global;

fn place_of_map_name(map: &MapNameAtColumn, names: &Names) -> usize
    ensures { result ≡ place_of_map_name names.now map.now }
{
    match names.find(map.name.bytes()) {
        Some(i) => i,
        None => 0,
    }
}

// Returns the step with its map name replaced by the map's index.
fn step_with_map_place(step: &Step<MapNameAtColumn>, names: &Names) -> Step<usize>
    ensures { result ≡ step_with_leaf_replaced (place_of_map_name names.now) step.now }
{
    match step {
        Step::Number(n) => Step::Number(*n),
        Step::Map { leaf, down, right } => Step::Map {
            leaf: place_of_map_name(leaf, names),
            down: *down,
            right: *right,
        },
        Step::Negated => Step::Negated,
        Step::Not => Step::Not,
        Step::Binary(operator) => Step::Binary(*operator),
        Step::Call(function, count) => Step::Call(*function, *count),
    }
}

fn steps_with_map_places(
    alloc: Global,
    steps: &[Step<MapNameAtColumn>],
    names: &Names,
) -> Result<Vec<Step<usize>>, Memory>
    ensures { IfOk result (λ found. found.items
        ≡ map (step_with_leaf_replaced (place_of_map_name names.now)) steps.now) }
{
    let mut found = Vec::with_capacity(alloc, steps.len())?;
    for step in steps {
        found.push(step_with_map_place(step, names))?;
    }
    Ok(found)
}

/// Returns the expression with each map name replaced by the map's index.
///
/// # Errors
///
/// `UnknownMap` with the column of the first name that is not in the list; otherwise `Memory`, with column 0, if memory
/// runs out.
pub fn resolve(alloc: Global, expr: &Expr, names: &Names) -> Result<Bound, CalcFault>
    ensures ok { IfOk result (λ bound. bound ≡ formula_of_term names.now expr.now) }
    ensures known { OnOk result (first_unknown names.now expr.now ≡ None) }
    ensures unknown { IfSome (first_unknown names.now expr.now)
        (λ column. IsErrOf result (record { kind = CalcKind.UnknownMap; column = column })) }
    ensures err { IfErr result (λ fault. IsBindingFault names.now expr.now fault) }
{
    // Names are looked up twice, first without allocating, so that an unknown map is reported even if memory is short.
    if let Some(column) = expr.first_unknown(names) {
        return Err(CalcFault {
            kind: CalcKind::UnknownMap,
            column,
        });
    }
    let _count = names.len();
    match steps_with_map_places(alloc, expr.steps(), names) {
        Ok(steps) => Ok(Bound { steps }),
        Err(_) => Err(CalcFault {
            kind: CalcKind::Memory,
            column: 0,
        }),
    }
}
