//! The kind of a statement, encoded in numbers.

ghost use Rattle.std.specs.Prelude.{◌≡◌};
ghost use Rattle.rcell_plan.specs.Plans.{command_flags, command_code};

use rcell_script::statement::Command;

/// Returns the sum of the flags: 1 if a command writes, 2 if it prints labels, 4 if it needs the full map.
pub fn command_flags(command: &Command) -> u8
    ensures { result ≡ command_flags command.now }
{
    match command {
        Command::Mapcalc { .. } => 0,
        Command::Reclass { .. } => 0,
        Command::Clump { .. } => 4,
        Command::Stats { options, .. } => { if options.labels { 3 } else { 1 } }
        Command::OutAscii { .. } => 1,
    }
}

/// Returns 1 for r.mapcalc, 2 for r.reclass, 3 for r.clump, 4 for r.stats, 5 for r.out.ascii.
pub fn command_code(command: &Command) -> u8
    ensures { result ≡ command_code command.now }
{
    match command {
        Command::Mapcalc { .. } => 1,
        Command::Reclass { .. } => 2,
        Command::Clump { .. } => 3,
        Command::Stats { .. } => 4,
        Command::OutAscii { .. } => 5,
    }
}
