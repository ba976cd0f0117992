//! Reads combinations from texts.

ghost use Rattle.std.specs.Prelude.{◌≡◌, ◌≤◌};
ghost use Rattle.cell_core_values.specs.Answers.{EqualsUnlessOutOfMemory};
ghost use Rattle.cell_stats_combinations.specs.ComboReading.{cell_of_text_part, combination_of_text};

use crate::combination::Combo;
use cell_core::cell::Cell;
use cell_core::memory::Memory;
use cell_core_values::whole_numbers::whole_number_in_category_range;
use cell_core_values::words::parts_between_commas;
use std::alloc::{AllocFailed, Global};

/// Why a text is not a combination. If several reasons apply, the first in this order is reported (profile).
#[derive(Clone, Copy, Debug, PartialEq, Eq)]
pub enum ComboFault {
    /// A part is neither an asterisk nor a whole number in range.
    BadCombo,
    /// The number of parts is wrong.
    BadWidth,
    /// Memory ran out.
    Memory,
}

impl From<Memory> for ComboFault {
    ghost use Rattle.std.specs.Prelude.{◌≡◌};
    ghost use Rattle.cell_stats_combinations.specs.declared.combination_text.ComboFault.TheVariants.{Memory};

    ghost from_gives = { λ _ fault. fault ≡ Memory };

    fn from(_e: Memory) -> ComboFault {
        ComboFault::Memory
    }
}

impl<T: Drop> From<AllocFailed<T>> for ComboFault {
    ghost use Rattle.std.specs.Prelude.{◌≡◌};
    ghost use Rattle.cell_stats_combinations.specs.declared.combination_text.ComboFault.TheVariants.{Memory};

    ghost from_gives = { λ _ fault. fault ≡ Memory };

    fn from(_e: AllocFailed<T>) -> ComboFault {
        ComboFault::Memory
    }
}

// Reads a part as a cell.
fn cell_of_text_part(part: &[u8]) -> Option<Cell>
    ensures { result ≡ cell_of_text_part part.now }
{
    if part == b"*".as_slice() {
        return Some(Cell::null());
    }
    match whole_number_in_category_range(part) {
        Some(category) => Cell::value(category),
        None => None,
    }
}

impl Combo {
    /// Reads a combination from a text: cells separated by commas, each an asterisk for null or a whole number
    /// in range. `width` must be 1 to 16.
    ///
    /// # Errors
    ///
    /// The first [`ComboFault`] that applies, in the order of its variants.
    pub fn read(alloc: Global, text: &[u8], width: usize) -> Result<Combo, ComboFault>
        requires { (1 ≤ width) × (width ≤ 16) }
        ensures { EqualsUnlessOutOfMemory ComboFault.Memory (λ combo. combo) result
            (combination_of_text width text.now) }
    {
        let parts = parts_between_commas(alloc, text)?;
        let mut cells = Vec::new(alloc);
        for part in &parts {
            let Some(cell) = cell_of_text_part(part) else {
                return Err(ComboFault::BadCombo);
            };
            cells.push(cell)?;
        }
        if cells.len() != width {
            return Err(ComboFault::BadWidth);
        }
        Ok(Combo::of(cells))
    }
}
