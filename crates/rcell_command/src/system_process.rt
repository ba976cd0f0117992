//! The running process.

ghost use Rattle.std.specs.Prelude.{◌≡◌, false};

use crate::process::Process;
use crate::reported::ErrorPlace;
use crate::shown::EscapedText;
use cell_core_devices::device::DeviceFault;
use cell_core_devices::source::ReadSource;
use std::alloc::Global;
use std::env::FillError;
use std::fmt::Display;
use std::fs::{File, OpenOptions};
use std::io::ErrorKind;
use std::rt::{Env, Files};
use std::{env, io};

// Exposes only the words: the environment is empty. With the environment and the working folder of `HostRuntime`, a
// program would depend on calls that it never makes.
#[derive(Drop)]
struct WordsOnlyRuntime<'a> {
    rt: &'a HostRuntime,
}

impl<'a> Env for WordsOnlyRuntime<'a> {
    fn arg(&self, i: usize, buf: &mut [u8]) -> Result<usize, FillError> {
        self.rt.arg(i, buf)
    }

    fn var(&self, _name: &str, _buf: &mut [u8]) -> Result<usize, FillError> {
        Err(FillError::NotPresent)
    }

    fn var_at(&self, _i: usize, _buf: &mut [u8]) -> Result<usize, FillError> {
        Err(FillError::NotPresent)
    }
}

/// The running process: the words of its command line, the system's files, and standard error.
///
/// Nothing is known about them, because std's `args`, `open_file` and `eprintln` promise nothing. So a file is supposed
/// to have any content, and clauses compare it with the bytes that the reads return. Tests check that the words are the
/// process's arguments, that a source returns the bytes of the file, and that a line is printed.
#[derive(Drop)]
pub struct SystemProcess<'a> {
    rt: &'a HostRuntime,
    failed: bool,
}

impl<'a> SystemProcess<'a> {
    /// Creates the running process.
    pub fn new(rt: &'a HostRuntime) -> SystemProcess<'a>
        ensures { result.failed ≡ false }
    {
        SystemProcess { rt, failed: false }
    }
}

impl<'a> Process for SystemProcess<'a> {
    ghost use Rattle.std.specs.Prelude.{None, []};
    ghost use Rattle.cell_core_devices.specs.Supposed.{After};
    ghost use Rattle.cell_core_devices.specs.declared.source.Asked.{Asked};

    type File = ReadSource<File>;

    ghost words = { λ _. None };

    ghost files = { λ _ _. None };

    ghost supposed_file = { λ _ _. After [] Asked.Going };

    ghost opened = { λ _. None };

    ghost errors = { λ _. None };

    ghost failed = { λ p. p.failed };

    fn words<E: Copy>(&self, alloc: Global, memory: E, usage: E) -> Result<Vec<String>, E> {
        let given = match env::args(&(WordsOnlyRuntime { rt: self.rt }, alloc)) {
            Ok(given) => given,
            Err(fault) => {
                return match fault.kind() {
                    io::ErrorKind::OutOfMemory => Err(memory),
                    _ => Err(usage),
                };
            }
        };
        given.collect(alloc).map_err(|_| memory)
    }

    fn open<E: Copy>(&mut self, path: &str, memory: E, file: E) -> Result<ReadSource<File>, E> {
        let mut how = OpenOptions::new();
        how.read(true);
        // `fs::open` is generic over `Files`, so a program that calls it would depend on all calls of `Files`.
        match self.rt.open_file(&how, path) {
            Ok(opened) => Ok(ReadSource::new(opened)),
            Err(fault) => match fault.kind() {
                ErrorKind::OutOfMemory => Err(memory),
                _ => Err(file),
            },
        }
    }

    fn print_error<T: Display>(
        &mut self,
        program: &str,
        place: &ErrorPlace<'_>,
        text: &T,
    ) -> Result<(), DeviceFault> {
        let source = EscapedText { text: place.source };
        let line = place.line;
        match eprintln!(self.rt; "{program}: {source}:{line}: {text}") {
            Ok(()) => Ok(()),
            Err(_) => {
                self.failed = true;
                Err(DeviceFault)
            }
        }
    }
}
