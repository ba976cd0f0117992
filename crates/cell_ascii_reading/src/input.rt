//! Reads a source through a buffer, one byte at a time.

ghost use Rattle.std.specs.Prelude.{◌≡◌, ◌<◌, ◌≤◌, [], drop, length, OnErr, IfOk, IfErr, IfSome, IfNone, Ok, Some, None, slice_get, true, false, is_err};
ghost use Rattle.cell_core_devices.specs.Asking.{source_knowledge_after_calls, knowledge_about_new_source, source_is_in_assumed_state};
ghost use Rattle.cell_ascii_reading.specs.Ahead.{BytesAhead, bytes_to_come_for_content, IsSourceAtEndOrFailed, NoByteWasSkipped};

use cell_core::device::DeviceFault;
use cell_core::source::Source;
use std::alloc::Global;
use std::marker::Model;

// Number of bytes requested from the source per call.
const SOURCE_BLOCK_BYTES: usize = 65536;

/// A source with a buffer.
#[derive(Drop)]
pub struct Input<R: Source> {
    source: R,
    buffer: Vec<u8>,
    at: usize,
    filled: usize,
    ended: bool,
    failed: bool,
}

impl<R: Source> Model for Input<R> {
    ghost use Rattle.std.specs.Prelude.{take, drop, length, ◌≡◌, ◌<◌, ◌≤◌, true, false};
    ghost use Rattle.cell_core_devices.specs.Asking.{source_is_in_assumed_state};
    ghost use Rattle.cell_ascii_reading.specs.Ahead.{BytesAhead, IsSourceAtEndOrFailed, content_to_come};

    ghost Value = { BytesAhead };

    ghost view = { λ i. record {
      buffered = drop i.at (take i.filled i.buffer.items);
      rest = R.supposed i.source;
      ended = i.ended;
      heard = record { sure = source_is_in_assumed_state (R.asked i.source) i.ended i.failed; failed = i.failed };
    } };

    ghost invariant = { λ i. (i.at ≤ i.filled) × (i.filled ≤ length i.buffer.items) × (0 < length i.buffer.items)
        × (i.ended ≡ true → (i.at ≡ i.filled) × IsSourceAtEndOrFailed false (content_to_come (R.supposed i.source)))
        × (i.failed ≡ true → (i.at ≡ i.filled) × IsSourceAtEndOrFailed true (content_to_come (R.supposed i.source)) × (i.ended ≡ false)) };
}

impl<R: Source> Input<R> {
    /// Returns an input at the first byte of a source. Allocates a buffer of one block.
    ///
    /// # Errors
    ///
    /// The source if memory runs out.
    pub fn new(alloc: Global, source: R) -> Result<Input<R>, R>
    where
        R: Drop,
        ensures input { IfOk result (λ i. i ≡ record {
          buffered = [];
          rest = R.supposed source;
          ended = false;
          heard = knowledge_about_new_source (R.asked source);
        }) }
        ensures unread { IfErr result (λ s. s ≡ source) }
    {
        let Ok(buffer) = vec![in alloc; 0u8; SOURCE_BLOCK_BYTES] else {
            return Err(source);
        };
        Ok(Input {
            source,
            buffer,
            at: 0,
            filled: 0,
            ended: false,
            failed: false,
        })
    }

    /// Returns the next byte, or `None` at the end. Does not ask the source again after its end or an `Err`. After an
    /// `Err`, every call returns an error.
    pub fn peek(&mut self) -> Result<Option<u8>, DeviceFault>
        ensures same { NoByteWasSkipped self.old self.new }
        ensures byte { IfOk result (λ o. IfSome o (λ b. slice_get self.new.buffered 0 ≡ Some b)) }
        ensures end { IfOk result (λ o. IfNone o
            (IsSourceAtEndOrFailed false (bytes_to_come_for_content self.new))) }
        ensures fault { OnErr result (IsSourceAtEndOrFailed true
            (bytes_to_come_for_content self.new)) }
        ensures reported { IfOk result (λ o. IfNone o (self.new.ended ≡ true)) }
        ensures again { self.old.ended ≡ true → (self.new ≡ self.old) × (result ≡ Ok None) }
        ensures heard { self.new.heard ≡ source_knowledge_after_calls
            (is_err result) self.old.heard }
    {
        if self.at < self.filled {
            return Ok(Some(self.buffer[self.at]));
        }
        if self.ended {
            return Ok(None);
        }
        if self.failed {
            return Err(DeviceFault);
        }
        let n = match self.source.take(&mut self.buffer) {
            Ok(n) => n,
            Err(fault) => {
                self.failed = true;
                return Err(fault);
            }
        };
        self.at = 0;
        self.filled = n;
        self.ended = n == 0;
        if n == 0 {
            return Ok(None);
        }
        Ok(Some(self.buffer[0]))
    }

    /// Returns the bytes in the buffer.
    pub fn buffered_bytes(&self) -> &[u8]
        ensures { result.now ≡ self.now.buffered }
    {
        &self.buffer[self.at..self.filled]
    }

    /// Skips `n` buffered bytes.
    pub fn pass(&mut self, n: usize)
        requires { n ≤ length self.old.buffered }
        ensures { self.new ≡ record self.old { buffered = drop n self.old.buffered } }
    {
        self.at += n;
    }

    /// Skips the byte that `peek` returned.
    pub fn skip_byte(&mut self)
        requires { 0 < length self.old.buffered }
        ensures buffered { self.new.buffered ≡ drop 1 self.old.buffered }
        ensures rest { self.new.rest ≡ self.old.rest }
        ensures ended { self.new.ended ≡ self.old.ended }
        ensures heard { self.new.heard ≡ self.old.heard }
    {
        self.at += 1;
    }

    /// Returns the source after its last read.
    pub fn into_source(self) -> R
        ensures rest { R.supposed result ≡ self.rest }
        ensures asked { self.heard.sure ≡ source_is_in_assumed_state
            (R.asked result) self.ended self.heard.failed }
    {
        self.source
    }
}
