//! A reader and writer that follows a list of steps.

ghost use Rattle.std.specs.Prelude.{◌≤◌, IfOk};

use std::io::{self, ErrorKind, Read, Write};

/// The behaviour of a device in one call.
#[derive(Clone, Copy)]
pub enum Step {
    /// Fails.
    Refuses(ErrorKind),
    /// Moves this many bytes, or fewer if there is less room.
    Moves(usize),
}

/// A device that follows the steps in turn, and then moves everything. As a reader it returns only bytes `x`; as a
/// writer it accepts only bytes `x`.
#[derive(Drop)]
pub struct Device {
    steps: &'static [Step],
    at: usize,
}

impl Device {
    pub fn new(steps: &'static [Step]) -> Device {
        Device { steps, at: 0 }
    }

    fn step(&mut self, room: usize) -> io::Result<usize>
        ensures { IfOk result (λ n. n ≤ room) }
    {
        let step = self.steps.get(self.at).copied();
        self.at = self.at.saturating_add(1);
        match step {
            Some(Step::Refuses(kind)) => Err(kind.into()),
            Some(Step::Moves(n)) => Ok(n.min(room)),
            None => Ok(room),
        }
    }
}

impl Read for Device {
    fn read(&mut self, buf: &mut [u8]) -> io::Result<usize> {
        let n = self.step(buf.len())?;
        buf[..n].fill(b'x');
        Ok(n)
    }
}

impl Write for Device {
    fn write(&mut self, buf: &[u8]) -> io::Result<usize> {
        if buf.iter().any(|byte| *byte != b'x') {
            return Err(ErrorKind::InvalidData.into());
        }
        self.step(buf.len())
    }

    fn flush(&mut self) -> io::Result<()> {
        self.step(0)?;
        Ok(())
    }
}
