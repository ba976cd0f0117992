//! Finds unknown map names.

ghost use Rattle.std.specs.Prelude.{◌≡◌, None};
ghost use Rattle.cell_calc_language.specs.Unknown.{unknown_map_column, first_or_second_column};
ghost use Rattle.cell_calc_grammar.specs.Postfix.{value_of_step_map_or_default, fold_maps_of_steps};

use cell_calc_grammar::map_name::MapNameAtColumn;
use cell_calc_grammar::step::Step;
use cell_core_values::name::Names;

// Returns the column of a map name that is not in the list of names.
fn column_of_name_without_place(step: &Step<MapNameAtColumn>, names: &Names) -> Option<u32>
    ensures { result ≡ value_of_step_map_or_default (unknown_map_column names.now) None step.now }
{
    let Step::Map { leaf, .. } = step else {
        return None;
    };
    match names.find(leaf.name.bytes()) {
        Some(_) => None,
        None => Some(leaf.column),
    }
}

/// Returns the column of the first map name that is not in the list of names.
pub(crate) fn first_unknown_name_column(
    steps: &[Step<MapNameAtColumn>],
    names: &Names,
) -> Option<u32>
    ensures { result ≡ fold_maps_of_steps (unknown_map_column names.now) None first_or_second_column
        steps.now }
{
    for step in steps {
        if let Some(column) = column_of_name_without_place(step, names) {
            return Some(column);
        }
    }
    None
}
