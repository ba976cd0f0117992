//! Errors of scripts.

ghost use Rattle.std.specs.Prelude.{◌≡◌};
ghost use Rattle.rcell_script.specs.ScriptTexts.{calc_error_words, rule_error_words, combination_error_words, script_error_words, script_error_column};

use crate::option_fault::OptionFault;
use cell_calc_language::calc_fault::{CalcFault, CalcKind};
use cell_cats::rules::RuleFault;
use cell_core::memory::Memory;
use cell_stats_combinations::combination_text::ComboFault;
use std::error::Error;
use std::fmt;

/// What is wrong with a script.
#[derive(Clone, Copy, Debug, PartialEq, Eq)]
pub enum ScriptKind {
    /// The first word of a line is not a command.
    UnknownCommand,
    /// An unknown flag or key, a word without `=`, a repeated key, more than 16 maps, a bad separator or null text, or
    /// flags that exclude each other.
    BadOption,
    /// A required option is missing.
    MissingOption,
    /// A statement reads a map that is not known.
    UnknownMap,
    /// A statement makes a map that is already known.
    MapExists,
    /// An error in the assignment of an r.mapcalc. Its column is a column of the line.
    Calc(CalcFault),
    /// An error in a rule of an r.reclass.
    Rule(RuleFault),
    /// An error in the combination of `after`.
    Combo(ComboFault),
    /// The rules of an r.reclass have no `end`.
    MissingEnd,
    /// A line has more than 65,535 bytes.
    LongLine,
    /// An input or output is not a map name.
    BadName,
    /// Memory ran out.
    Memory,
}

impl ScriptKind {
    // Returns the text of an error, without the column.
    fn words(self) -> &'static str
        ensures { result.now ≡ script_error_words self }
    {
        match self {
            ScriptKind::UnknownCommand => "unknown command",
            ScriptKind::BadOption => "bad option",
            ScriptKind::MissingOption => "missing option",
            ScriptKind::UnknownMap => "unknown map",
            ScriptKind::MapExists => "map exists",
            ScriptKind::Calc(fault) => calc_error_words(fault.kind),
            ScriptKind::Rule(fault) => rule_error_words(fault),
            ScriptKind::Combo(fault) => combination_error_words(fault),
            ScriptKind::MissingEnd => "missing end",
            ScriptKind::LongLine => "line too long",
            ScriptKind::BadName => "bad name",
            ScriptKind::Memory => "no memory",
        }
    }

    // Returns the column of an error in an expression.
    fn column(self) -> Option<u32>
        ensures { result ≡ script_error_column self }
    {
        match self {
            ScriptKind::Calc(fault) => Some(fault.column),
            _ => None,
        }
    }
}

impl fmt::Display for ScriptKind {
    ghost use Rattle.std.specs.Prelude.{Some};
    ghost use Rattle.rcell_script.specs.ScriptTexts.{script_error_text};

    ghost output = { λ kind. Some (script_error_text kind) };

    fn fmt<W: fmt::Write>(&self, f: &mut fmt::Formatter<W>) -> fmt::Result {
        let words = self.words();
        match self.column() {
            Some(column) => write!(f, "{words} at column {column}"),
            None => f.write_str(words),
        }
    }
}

impl Error for ScriptKind {}

impl From<OptionFault> for ScriptKind {
    ghost use Rattle.std.specs.Prelude.{◌≡◌};
    ghost use Rattle.rcell_script.specs.ScriptFaults.{script_kind_of_option_fault};

    ghost from_gives = { λ fault kind. kind ≡ script_kind_of_option_fault fault };

    fn from(fault: OptionFault) -> ScriptKind {
        match fault {
            OptionFault::BadOption => ScriptKind::BadOption,
            OptionFault::MissingOption => ScriptKind::MissingOption,
            OptionFault::UnknownMap => ScriptKind::UnknownMap,
            OptionFault::MapExists => ScriptKind::MapExists,
            OptionFault::BadName => ScriptKind::BadName,
            OptionFault::Memory => ScriptKind::Memory,
        }
    }
}

impl From<CalcFault> for ScriptKind {
    ghost use Rattle.rcell_script.specs.parts.CalcFaults.{IsScriptKindOfCalcFault};

    ghost from_gives = { IsScriptKindOfCalcFault };

    fn from(fault: CalcFault) -> ScriptKind {
        match fault.kind {
            CalcKind::Memory => ScriptKind::Memory,
            _ => ScriptKind::Calc(fault),
        }
    }
}

impl From<ComboFault> for ScriptKind {
    ghost use Rattle.std.specs.Prelude.{◌≡◌};
    ghost use Rattle.rcell_script.specs.ScriptFaults.{script_kind_of_combo_fault};

    ghost from_gives = { λ fault kind. kind ≡ script_kind_of_combo_fault fault };

    fn from(fault: ComboFault) -> ScriptKind {
        match fault {
            ComboFault::Memory => ScriptKind::Memory,
            _ => ScriptKind::Combo(fault),
        }
    }
}

impl From<RuleFault> for ScriptKind {
    ghost use Rattle.std.specs.Prelude.{◌≡◌};
    ghost use Rattle.rcell_script.specs.ScriptFaults.{script_kind_of_rule_fault};

    ghost from_gives = { λ fault kind. kind ≡ script_kind_of_rule_fault fault };

    fn from(fault: RuleFault) -> ScriptKind {
        match fault {
            RuleFault::Memory => ScriptKind::Memory,
            _ => ScriptKind::Rule(fault),
        }
    }
}

impl From<Memory> for ScriptKind {
    ghost use Rattle.std.specs.Prelude.{◌≡◌};
    ghost use Rattle.rcell_script.specs.declared.script_fault.ScriptKind.TheVariants.{Memory};

    ghost from_gives = { λ _ kind. kind ≡ Memory };

    fn from(_e: Memory) -> ScriptKind {
        ScriptKind::Memory
    }
}

fn calc_error_words(kind: CalcKind) -> &'static str
    ensures { result.now ≡ calc_error_words kind }
{
    match kind {
        CalcKind::BadByte => "bad byte",
        CalcKind::BadNumber => "bad number",
        CalcKind::FloatNumber => "number not whole",
        CalcKind::Expected => "unexpected token",
        CalcKind::UnknownFunction => "unknown function",
        CalcKind::Arguments => "wrong number of arguments",
        CalcKind::BadOffset => "offset out of range",
        CalcKind::TooLong => "expression too long",
        CalcKind::BadName => "bad name",
        CalcKind::Memory => "no memory",
        CalcKind::UnknownMap => "unknown map",
    }
}

fn rule_error_words(fault: RuleFault) -> &'static str
    ensures { result.now ≡ rule_error_words fault }
{
    match fault {
        RuleFault::BadRule => "bad rule",
        RuleFault::BadNumber => "bad number in rule",
        RuleFault::Memory => "no memory",
    }
}

fn combination_error_words(fault: ComboFault) -> &'static str
    ensures { result.now ≡ combination_error_words fault }
{
    match fault {
        ComboFault::BadCombo => "bad combination",
        ComboFault::BadWidth => "combination of another width",
        ComboFault::Memory => "no memory",
    }
}

/// An error and its line, counted from 1, or 0 if memory ran out.
#[derive(Clone, Copy, Debug, PartialEq, Eq, thiserror::Error)]
#[error("{line}: {kind}")]
pub struct ScriptFault {
    pub kind: ScriptKind,
    pub line: u64,
}
