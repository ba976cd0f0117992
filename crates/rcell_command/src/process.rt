//! The interface to a program's words, files and standard error.

ghost use Rattle.std.specs.Prelude.{◌≡◌, ◌≢◌, ℕ, Bool, ◌||◌, List, [], ◌∷◌, Option, None, Some, IfErr, IfOk, IfSome, OnErr, OnOk, is_err, map};
ghost use Rattle.std.specs.String.{string_bytes};
ghost use Rattle.cell_core_devices.specs.Device.{ComingBytes};
ghost use Rattle.rcell_command.specs.Processes.{StandardErrorLine, SourceGivesContentsOfFile, OpensExactlyFilesAtPaths, standard_error_line, known_list_with_items};

use crate::reported::ErrorPlace;
use cell_core_devices::device::DeviceFault;
use cell_core_devices::source::Source;
use std::alloc::Global;
use std::fmt::Display;

/// The words of a command line, files by their paths, and standard error. Standard input is a `Source`, and standard
/// output is a `Sink`.
///
/// The ghost members may be unknown, for example for the running process. For a process in memory, all are known.
pub trait Process {
    ghost use Rattle.cell_core_devices.specs.Device.{ComingBytes};
    ghost use Rattle.cell_core_devices.specs.Supposed.{SupposedContent};
    ghost use Rattle.cell_core_devices.specs.declared.source.Asked.{Asked};
    ghost use Rattle.rcell_command.specs.Processes.{StandardErrorLine};

    /// The source of an opened file.
    type File: Source + Drop;

    /// The words of the command line, starting with the program's own name.
    ghost words: { Self → Option (List (List ℕ)) };

    /// The contents of the file with a path.
    ghost files: { Self → List ℕ → Option ComingBytes };

    /// What decides the content of the file with a path: it may be any content, or only the known one.
    ghost supposed_file: { Self → List ℕ → SupposedContent };

    /// The paths of the files that were opened, in order.
    ghost opened: { Self → Option (List (List ℕ)) };

    /// The lines printed to standard error, in order.
    ghost errors: { Self → Option (List StandardErrorLine) };

    /// Whether standard error failed.
    ghost failed: { Self → Bool };

    /// Returns the words of the command line, starting with the program's own name.
    ///
    /// # Errors
    ///
    /// Returns `usage` if a word is not UTF-8, or `memory` if memory runs out.
    fn words<E: Copy>(&self, alloc: Global, memory: E, usage: E) -> Result<Vec<String>, E>
        ensures given { IfOk result
            (λ given. IfSome (words self.now) (λ known. map string_bytes given.items ≡ known)) }
        ensures reported { IfErr result (λ error. error ≢ memory → (error ≡ usage)
            × (words self.now ≡ None)) };

    /// Opens the file with this path.
    ///
    /// # Errors
    ///
    /// Returns `file` if the file can't be opened, or `memory` if memory runs out.
    fn open<E: Copy>(&mut self, path: &str, memory: E, file: E) -> Result<Self::File, E>
        // The source has not been read yet, so it has neither ended nor failed.
        ensures asked { IfOk result (λ source. Self.File.asked source ≡ Asked.Going) }
        ensures gives { IfOk result (SourceGivesContentsOfFile
            (files self.old) Self.File.coming path.now) }
        // The source returns the content of the file. If this is not known, it is supposed to be any content.
        ensures supposed { IfOk result
            (λ source. Self.File.supposed source ≡ supposed_file self.old path.now) }
        ensures same { supposed_file self.new ≡ supposed_file self.old }
        ensures opens { OnOk result
            (OpensExactlyFilesAtPaths files opened errors failed self.old self.new (path.now
            ∷ [])) }
        ensures unopened { OnErr result
            (OpensExactlyFilesAtPaths files opened errors failed self.old self.new []) }
        ensures reported { IfErr result (λ error. error ≢ memory → (error ≡ file)
            × (files self.old path.now ≡ None)) };

    /// Prints the line `PROGRAM: SOURCE:LINE: TEXT` to standard error.
    ///
    /// # Errors
    ///
    /// Returns [`DeviceFault`] if standard error does not accept the line. From then on, `failed` is true.
    fn print_error<T: Display>(
        &mut self,
        program: &str,
        place: &ErrorPlace<'_>,
        text: &T,
    ) -> Result<(), DeviceFault>
        ensures told { OnOk result (errors self.new
            ≡ known_list_with_items (errors self.old) (standard_error_line program.now place.now
            ∷ [])) }
        ensures failed { failed self.new ≡ failed self.old || is_err result }
        ensures opened { opened self.new ≡ opened self.old };
}
