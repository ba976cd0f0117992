//! Records the bytes that system calls read or wrote. Only contracts use the record, and it takes no memory.

ghost use Rattle.std.specs.Prelude.{◌≡◌, ℕ, List, [], ◌++◌};
ghost use Rattle.std.specs.Borrow.{ftrue};

use std::marker::{Model, PhantomData};

/// The bytes recorded so far, in order. It is empty at run time.
#[derive(Drop)]
pub struct RecordedBytes {
    marker: PhantomData<u8>,
    pub ghost bytes: { List ℕ },
}

impl Model for RecordedBytes {
    ghost also_owns = { λ _. ftrue };
}

impl RecordedBytes {
    /// Returns an empty record.
    pub(crate) fn new() -> RecordedBytes
        ensures { result.bytes ≡ [] }
    {
        RecordedBytes {
            marker: PhantomData,
        }
    }

    /// Records more bytes.
    pub(crate) fn note(&mut self, _bytes: &[u8])
        ensures { self.new.bytes ≡ self.old.bytes ++ _bytes.now }
    {}
}
