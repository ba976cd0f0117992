//! The commands of a script.

pub use crate::maps::MapPlaces;
use crate::null_text::{NullText, TableNullText};
use cell_calc_language::bound::Bound;
use cell_cats::rules::Rules;
use cell_clumps::clump::Joining;
use cell_core::name::Name;
use cell_stats_combinations::combination::Combo;
use cell_stats_combinations::skip::Skip;

/// The options of r.stats: how it prints a table, and which part of it.
#[derive(Drop)]
pub struct StatsOptions {
    /// Which combinations are left out (`-n`, `-N`).
    pub skip: Skip,
    /// Whether labels are printed (`-l`).
    pub labels: bool,
    /// Whether counts are printed (`-c`).
    pub counts: bool,
    /// Whether one line is printed per cell (`-1`).
    pub cells: bool,
    /// The byte between the fields of a line.
    pub separator: u8,
    /// The text for null.
    pub null_text: TableNullText,
    /// The combination after which the table continues, with one cell per map.
    pub after: Option<Combo>,
}

/// What a statement does. A place is the index of a map on the shelf before the statement.
#[derive(Drop)]
pub enum Command {
    /// `r.mapcalc`: makes the map of an expression's values.
    Mapcalc {
        target: Name,
        bound: Bound,
    },
    /// `r.reclass`: makes a map with new categories, given by rules.
    Reclass {
        place: usize,
        target: Name,
        rules: Rules,
    },
    /// `r.clump`: makes the map of clump numbers.
    Clump {
        place: usize,
        target: Name,
        joining: Joining,
    },
    /// `r.stats`: prints the combinations that occur in the maps at these places.
    Stats {
        places: MapPlaces,
        options: StatsOptions,
    },
    /// `r.out.ascii`: prints the map at this place as grid text.
    OutAscii {
        place: usize,
        null_text: NullText,
    },
}
