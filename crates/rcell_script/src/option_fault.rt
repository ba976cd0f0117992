//! Errors of options.

use cell_core::memory::Memory;
use cell_core::name::NameFault;
use std::alloc::{AllocError, AllocFailed};

/// What is wrong with the options of a command, or with the maps that they name.
#[derive(Clone, Copy, Debug, PartialEq, Eq)]
pub enum OptionFault {
    /// An unknown flag or key, a word without `=`, a repeated key, more than 16 maps, a bad separator or null text, or
    /// flags that exclude each other.
    BadOption,
    /// A required option is missing.
    MissingOption,
    /// An input map is not known.
    UnknownMap,
    /// An output map is already known.
    MapExists,
    /// An input or output is not a map name.
    BadName,
    /// Memory ran out.
    Memory,
}

impl From<NameFault> for OptionFault {
    ghost use Rattle.std.specs.Prelude.{◌≡◌};
    ghost use Rattle.rcell_script.specs.parts.Faults.{option_fault_of_name_fault};

    ghost from_gives = { λ fault option. option ≡ option_fault_of_name_fault fault };

    fn from(fault: NameFault) -> OptionFault {
        match fault {
            NameFault::BadName => OptionFault::BadName,
            NameFault::Memory => OptionFault::Memory,
        }
    }
}

impl From<Memory> for OptionFault {
    ghost use Rattle.std.specs.Prelude.{◌≡◌};
    ghost use Rattle.rcell_script.specs.declared.option_fault.OptionFault.TheVariants.{Memory};

    ghost from_gives = { λ _ fault. fault ≡ Memory };

    fn from(_e: Memory) -> OptionFault {
        OptionFault::Memory
    }
}

impl From<AllocError> for OptionFault {
    ghost use Rattle.std.specs.Prelude.{◌≡◌};
    ghost use Rattle.rcell_script.specs.declared.option_fault.OptionFault.TheVariants.{Memory};

    ghost from_gives = { λ _ fault. fault ≡ Memory };

    fn from(_e: AllocError) -> OptionFault {
        OptionFault::Memory
    }
}

impl<T: Drop> From<AllocFailed<T>> for OptionFault {
    ghost use Rattle.std.specs.Prelude.{◌≡◌};
    ghost use Rattle.rcell_script.specs.declared.option_fault.OptionFault.TheVariants.{Memory};

    ghost from_gives = { λ _ fault. fault ≡ Memory };

    fn from(_e: AllocFailed<T>) -> OptionFault {
        OptionFault::Memory
    }
}
