//! Gathers output in a block, so that each put passes a few KiB to the sink. The block remembers a failed put, so that
//! callers check for the error only once.

ghost use Rattle.std.specs.Prelude.{◌≡◌, ℕ, ◌+◌, ◌≤◌, List, [], ◌++◌, length, take, Option, false};
ghost use Rattle.cell_core_devices.specs.Device.{SinkFaults};
ghost use Rattle.cell_core_devices.specs.Blocks.{OutputBlockValue, block_capacity, IsTextAppendedToSink, IsTextAppendedThroughBlock, empty_block, block_after_put, write_fault_if_failed};

use crate::sink::{Sink, WriteFault, put_bytes};
use std::marker::Model;

// Capacity of a block in bytes.
const BLOCK_CAPACITY: usize = 4096;

/// Holds bytes until they fill a block, the number of bytes that the sink accepted, and whether a put failed.
///
/// It does not allocate. After a failed put, nothing more is written.
///
/// Functions that write through a block return nothing. If each returned the error of a failed put, it would need four
/// to six more clauses and a proof three times as long. A buffered writer of std would also count bytes that it still
/// holds.
#[derive(Drop)]
pub struct OutputBlock {
    bytes: [u8; BLOCK_CAPACITY],
    len: usize,
    written: u64,
    failed: bool,
}

impl Model for OutputBlock {
    ghost use Rattle.std.specs.Prelude.{◌≤◌, take};
    ghost use Rattle.cell_core_devices.specs.Blocks.{OutputBlockValue, block_capacity};

    ghost Value = { OutputBlockValue };

    ghost view = { λ block. record { held = take block.len block.bytes; written = block.written; failed = block.failed } };

    ghost invariant = { λ block. block.len ≤ block_capacity };
}

impl OutputBlock {
    /// Returns an empty block.
    pub fn new() -> OutputBlock
        ensures value { result ≡ empty_block }
        ensures nothing { (before : Option (List ℕ)) (start : SinkFaults)
            → IsTextAppendedToSink before start [] before start result }
    {
        OutputBlock {
            bytes: [0; BLOCK_CAPACITY],
            len: 0,
            written: 0,
            failed: false,
        }
    }

    /// Returns the number of bytes that the sink accepted, capped at the largest `u64`.
    pub fn written(&self) -> u64
        ensures { result ≡ self.now.written }
    {
        self.written
    }

    /// Returns whether a put failed.
    pub fn has_failed(&self) -> bool
        ensures { result ≡ self.now.failed }
    {
        self.failed
    }

    /// Returns `Ok` if no put failed.
    ///
    /// # Errors
    ///
    /// `WriteFault` with the total number of bytes that the sink accepted, if a put failed.
    pub fn outcome(&self) -> Result<(), WriteFault>
        ensures { result ≡ write_fault_if_failed self.now.failed self.now.written }
    {
        if self.has_failed() {
            return Err(WriteFault {
                written: self.written(),
            });
        }
        Ok(())
    }

    // Returns the number of held bytes.
    fn len(&self) -> usize
        ensures value { result ≡ length self.now.held }
        ensures within { result ≤ block_capacity }
    {
        self.len
    }

    // Returns the held bytes.
    fn bytes(&self) -> &[u8]
        ensures { result.now ≡ self.now.held }
    {
        &self.bytes[..self.len]
    }

    // Appends bytes to the held bytes.
    fn hold_bytes(&mut self, bytes: &[u8])
        requires { length self.old.held + length bytes.now ≤ block_capacity }
        ensures { self.new ≡ record {
          held = self.old.held ++ bytes.now;
          written = self.old.written;
          failed = self.old.failed;
        } }
    {
        let end = self.len + bytes.len();
        self.bytes[self.len..end].copy_from_slice(bytes);
        self.len = end;
    }

    // Empties the block after a put, which either wrote `all` bytes or failed.
    fn settle(&mut self, put: Result<(), WriteFault>, all: u64)
        requires { self.old.failed ≡ false }
        ensures { self.new ≡ block_after_put self.old put all }
    {
        let taken = match put {
            Ok(()) => all,
            Err(fault) => {
                self.failed = true;
                fault.written
            }
        };
        self.written = self.written.saturating_add(taken);
        self.len = 0;
    }

    /// Passes the held bytes to the sink, unless a put failed before.
    pub fn empty<W: Sink>(&mut self, out: &mut W)
        ensures appends { IsTextAppendedThroughBlock W.taken W.faults out.old self.old [] out.new
            self.new }
        ensures held { self.new.failed ≡ false → self.new.held ≡ [] }
    {
        if self.has_failed() {
            return;
        }
        let all = self.len() as u64;
        let put = put_bytes(out, self.bytes());
        self.settle(put, all);
    }

    // Passes bytes directly to the sink. The block must be empty.
    fn put_directly<W: Sink>(&mut self, out: &mut W, bytes: &[u8])
        requires failed { self.old.failed ≡ false }
        requires held { self.old.held ≡ [] }
        ensures { IsTextAppendedThroughBlock W.taken W.faults out.old self.old bytes.now out.new
            self.new }
    {
        let put = put_bytes(out, bytes);
        self.settle(put, bytes.len() as u64);
    }

    // Passes the held bytes to the sink, then holds the new bytes, or passes them on as well if they exceed a block.
    #[cold]
    fn put_held_bytes_then_push<W: Sink>(&mut self, out: &mut W, bytes: &[u8])
        ensures { IsTextAppendedThroughBlock W.taken W.faults out.old self.old bytes.now out.new
            self.new }
    {
        self.empty(out);
        if self.has_failed() {
            return;
        }
        if bytes.len() > BLOCK_CAPACITY {
            self.put_directly(out, bytes);
            return;
        }
        self.hold_bytes(bytes);
    }

    /// Appends any number of bytes. Passes bytes that do not fit into the block to the sink, unless a put failed
    /// before.
    #[inline]
    pub fn push<W: Sink>(&mut self, out: &mut W, bytes: &[u8])
        ensures { IsTextAppendedThroughBlock W.taken W.faults out.old self.old bytes.now out.new
            self.new }
    {
        if bytes.len() > BLOCK_CAPACITY - self.len() {
            self.put_held_bytes_then_push(out, bytes);
            return;
        }
        self.hold_bytes(bytes);
    }
}
