//! A process in memory, for tests.

ghost use Rattle.std.specs.Prelude.{◌≡◌, ◌≢◌, [], ◌∷◌, ◌++◌, ◌||◌, Some, None, IfErr, IfOk, OnErr, OnOk, bytes_eq, false, is_err, map};
ghost use Rattle.std.specs.Option.{option_map};
ghost use Rattle.std.specs.String.{string_bytes};
ghost use Rattle.cell_core_devices.specs.declared.source.Asked.{Asked};
ghost use Rattle.rcell_command.specs.Processes.{standard_error_line, first_file_with_path, coming_bytes_of_file};

use crate::process::Process;
use crate::reported::ErrorPlace;
use crate::shown::EscapedText;
use cell_core_devices::device::DeviceFault;
use cell_core_devices::source::MemorySource;
use std::alloc::{AllocError, Global};
use std::fmt::Display;
use std::marker::Model;

// The largest number of bytes that a file's source returns per read.
const MOST_BYTES_PER_READ: usize = 4096;

/// A line printed to standard error.
#[derive(Drop)]
pub struct PrintedErrorLine {
    program: Vec<u8>,
    source: Vec<u8>,
    line: u64,
    text: String,
}

impl Model for PrintedErrorLine {
    ghost use Rattle.rcell_command.specs.Processes.{StandardErrorLine};

    ghost Value = { StandardErrorLine };

    ghost view = { λ l. record { program = l.program.items; source = l.source.items; line = l.line } };
}

impl PrintedErrorLine {
    // Formats the line of an error.
    fn new<T: Display>(
        alloc: Global,
        program: &str,
        place: &ErrorPlace<'_>,
        text: &T,
    ) -> Result<PrintedErrorLine, AllocError>
        ensures { IfOk result (λ made. made ≡ standard_error_line program.now place.now) }
    {
        let source = EscapedText { text: place.source };
        let line = place.line;
        let text = format!(in alloc; "{program}: {source}:{line}: {text}\n")?;
        let program = Vec::from_slice(alloc, program.as_bytes())?;
        let source = Vec::from_slice(alloc, place.source)?;
        Ok(PrintedErrorLine {
            program,
            source,
            line,
            text,
        })
    }

    /// Returns the printed line, with its line feed.
    pub fn text(&self) -> &str {
        self.text.as_str()
    }
}

/// A file in memory.
#[derive(Drop)]
pub struct MemoryFile {
    path: Vec<u8>,
    bytes: Vec<u8>,
}

impl Model for MemoryFile {
    ghost use Rattle.std.specs.Prelude.{ℕ, List};

    ghost Value = { List ℕ × List ℕ };

    ghost view = { λ f. (f.path.items, f.bytes.items) };
}

impl MemoryFile {
    /// Creates a file with these bytes.
    pub fn new(path: Vec<u8>, bytes: Vec<u8>) -> MemoryFile
        ensures { result ≡ (path.items, bytes.items) }
    {
        MemoryFile { path, bytes }
    }

    fn has_path(&self, path: &str) -> bool
        ensures { result ≡ bytes_eq self.now.0 path.now }
    {
        self.path.as_slice() == path.as_bytes()
    }

    fn open(&self, alloc: Global) -> Result<MemorySource, AllocError>
        ensures { IfOk result (λ source. source
            ≡ record { bytes = self.now.1; fails = false; piece = 4096; asked = Asked.Going }) }
    {
        let bytes = Vec::from_slice(alloc, &self.bytes)?;
        Ok(MemorySource::new(bytes, MOST_BYTES_PER_READ, false))
    }
}

// Returns the first file with this path.
fn first_file_with_path<'a>(files: &'a [MemoryFile], path: &str) -> Option<&'a MemoryFile>
    ensures { option_map (λ file. coming_bytes_of_file file.now) result
        ≡ first_file_with_path files.now path.now }
{
    for file in files {
        if file.has_path(path) {
            return Some(file);
        }
    }
    None
}

/// A process in memory, whose ghost members are all known.
#[derive(Drop)]
pub struct MemoryProcess {
    alloc: Global,
    words: Vec<String>,
    files: Vec<MemoryFile>,
    opened: Vec<String>,
    errors: Vec<PrintedErrorLine>,
    failed: bool,
}

impl MemoryProcess {
    /// Creates a process with these words, starting with the program's own name, and these files.
    pub fn new(alloc: Global, words: Vec<String>, files: Vec<MemoryFile>) -> MemoryProcess {
        MemoryProcess {
            alloc,
            words,
            files,
            opened: Vec::new(alloc),
            errors: Vec::new(alloc),
            failed: false,
        }
    }

    /// Returns the lines printed to standard error.
    pub fn errors(&self) -> &[PrintedErrorLine] {
        &self.errors
    }
}

// Copies texts.
fn copies(alloc: Global, texts: &[String]) -> Result<Vec<String>, AllocError>
    ensures { IfOk result
        (λ copies. map string_bytes copies.items ≡ map string_bytes texts.now) }
{
    let mut copies = Vec::new(alloc);
    for text in texts {
        let copy = String::from_str(alloc, text.as_str())?;
        copies.push(copy)?;
    }
    Ok(copies)
}

impl Process for MemoryProcess {
    ghost use Rattle.std.specs.Prelude.{Some, map};
    ghost use Rattle.std.specs.String.{string_bytes};
    ghost use Rattle.rcell_command.specs.Processes.{first_file_with_path, supposition_of_known_content};

    type File = MemorySource;

    ghost words = { λ p. Some (map string_bytes p.words.items) };

    ghost files = { λ p. first_file_with_path p.files.items };

    ghost supposed_file = { λ p path. supposition_of_known_content (first_file_with_path p.files.items path) };

    ghost opened = { λ p. Some (map string_bytes p.opened.items) };

    ghost errors = { λ p. Some p.errors.items };

    ghost failed = { λ p. p.failed };

    fn words<E: Copy>(&self, alloc: Global, memory: E, _usage: E) -> Result<Vec<String>, E> {
        match copies(alloc, &self.words) {
            Ok(words) => Ok(words),
            Err(_) => Err(memory),
        }
    }

    fn open<E: Copy>(&mut self, path: &str, memory: E, file: E) -> Result<MemorySource, E> {
        let Some(found) = first_file_with_path(&self.files, path) else {
            return Err(file);
        };
        let Ok(source) = found.open(self.alloc) else {
            return Err(memory);
        };
        let Ok(path) = String::from_str(self.alloc, path) else {
            return Err(memory);
        };
        match self.opened.push(path) {
            Ok(()) => Ok(source),
            Err(_) => Err(memory),
        }
    }

    fn print_error<T: Display>(
        &mut self,
        program: &str,
        place: &ErrorPlace<'_>,
        text: &T,
    ) -> Result<(), DeviceFault> {
        let Ok(line) = PrintedErrorLine::new(self.alloc, program, place, text) else {
            self.failed = true;
            return Err(DeviceFault);
        };
        match self.errors.push(line) {
            Ok(()) => Ok(()),
            Err(_) => {
                self.failed = true;
                Err(DeviceFault)
            }
        }
    }
}
