//! Map names in expressions.

use cell_core_values::name::Name;

/// The name of a map, and the column at which it begins.
#[derive(Drop)]
pub struct MapNameAtColumn {
    pub name: Name,
    pub column: u32,
}
