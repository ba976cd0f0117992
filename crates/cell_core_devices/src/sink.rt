//! Sinks, which accept bytes: a trait, a loop that writes a full slice, and sinks over std's writers and over memory.

ghost use Rattle.std.specs.Prelude.{◌≡◌, ℕ, ◌+◌, ◌<◌, ◌≤◌, List, [], ◌++◌, length, take, Option, None, IfOk, OnOk, IfErr, OnErr, MatchResult, is_err, true, ◌-◌};
ghost use Rattle.cell_core_devices.specs.Device.{append_if_known, SinkFaults, faults_of_new_sink, faults_after_put, faults_after_flush, flush_count_after_flush, MemorySinkValue, byte_count_moved_by_call};

use crate::device::DeviceFault;
use crate::history::RecordedBytes;
use std::io::Write;
use std::marker::Model;

/// The number of times a sink was flushed. An integer would need a clause stating that it cannot overflow.
#[derive(Clone, Copy, Debug, PartialEq, Eq)]
pub enum FlushCount {
    /// The sink was never flushed.
    Never,
    /// The sink was flushed once.
    Once,
    /// The sink was flushed twice or more.
    More,
}

impl FlushCount {
    /// Returns the count after one more flush.
    pub fn again(self) -> FlushCount
        ensures { result ≡ flush_count_after_flush self }
    {
        match self {
            FlushCount::Never => FlushCount::Once,
            FlushCount::Once | FlushCount::More => FlushCount::More,
        }
    }
}

/// A destination for bytes.
pub trait Sink {
    /// The bytes accepted so far, or `None` if they are unknown.
    ghost taken: { Self → Option (List ℕ) };

    /// Whether a put failed, whether a flush failed, and how many times the sink was flushed.
    ghost faults: { Self → SinkFaults };

    /// Accepts the first bytes of a non-empty slice and returns their number, at least 1.
    ///
    /// # Errors
    ///
    /// [`DeviceFault`] if the sink accepts none. The sink then counts as failed.
    fn put(&mut self, bytes: &[u8]) -> Result<usize, DeviceFault>
        requires { 0 < length bytes.now }
        ensures count { IfOk result (λ n. (0 < n) × (n ≤ length bytes.now)) }
        ensures ok { IfOk result (λ n. taken self.new
            ≡ append_if_known (taken self.old) (take n bytes.now)) }
        ensures err { OnErr result (taken self.new ≡ taken self.old) }
        ensures faults { faults self.new ≡ faults_after_put (faults self.old) (is_err result) };

    /// Flushes the sink. Accepts no bytes, and counts one more flush.
    ///
    /// # Errors
    ///
    /// [`DeviceFault`] if the flush fails. The sink then counts as failed to flush.
    fn flush(&mut self) -> Result<(), DeviceFault>
        ensures taken { taken self.new ≡ taken self.old }
        ensures faults { faults self.new ≡ faults_after_flush (faults self.old) (is_err result) };
}

/// The number of bytes that were written before the sink failed.
#[derive(Clone, Copy, Debug, PartialEq, Eq)]
pub struct WriteFault {
    /// The number of bytes that the sink accepted: of the slice or text that was put or, for an output block, of all
    /// output through the block.
    pub written: u64,
}

/// Writes all bytes of a slice. An empty slice makes no call.
///
/// # Errors
///
/// [`WriteFault`] if the sink fails; exactly the first `written` bytes were written.
pub fn put_bytes<W: Sink>(out: &mut W, bytes: &[u8]) -> Result<(), WriteFault>
    ensures ok { OnOk result (W.taken out.new ≡ append_if_known (W.taken out.old) bytes.now) }
    ensures within { IfErr result (λ fault. fault.written < length bytes.now) }
    ensures err { IfErr result (λ fault. W.taken out.new
        ≡ append_if_known (W.taken out.old) (take fault.written bytes.now)) }
    ensures faults { W.faults out.new ≡ faults_after_put (W.faults out.old) (is_err result) }
    ensures empty { bytes.now ≡ [] → out.new ≡ out.old }
{
    let mut at = 0;
    while at < bytes.len() {
        match out.put(&bytes[at..]) {
            Ok(n) => at += n,
            Err(_) => return Err(WriteFault { written: at as u64 }),
        }
    }
    Ok(())
}

/// A sink over a writer of std. Its bytes are the bytes that the writer accepted. Every `Err` of the writer, and every
/// write of 0 bytes, is returned as [`DeviceFault`].
#[derive(Drop)]
pub struct WriteSink<W> {
    writer: W,
    took: RecordedBytes,
    refused: bool,
    unflushed: bool,
    flushes: FlushCount,
}

impl<W> Model for WriteSink<W> {
    ghost use Rattle.std.specs.Prelude.{ℕ, List};
    ghost use Rattle.cell_core_devices.specs.Device.{SinkFaults};

    ghost Value = { (W × List ℕ) × SinkFaults };

    ghost view = { λ s. ((s.writer, s.took.bytes), record { refused = s.refused; unflushed = s.unflushed; flushes = s.flushes }) };
}

impl<W: Write + Drop> WriteSink<W> {
    /// Returns a sink that passes its bytes to a writer. Does not allocate.
    pub fn new(writer: W) -> WriteSink<W>
        ensures value { result ≡ ((writer, []), faults_of_new_sink) }
        ensures taken { ⟦<WriteSink<W> as Sink>⟧.taken result ≡ Some [] }
        ensures faults { ⟦<WriteSink<W> as Sink>⟧.faults result ≡ faults_of_new_sink }
    {
        WriteSink {
            writer,
            took: RecordedBytes::new(),
            refused: false,
            unflushed: false,
            flushes: FlushCount::Never,
        }
    }
}

impl<W: Write> Sink for WriteSink<W> {
    ghost use Rattle.std.specs.Prelude.{Some, ◌≡◌, ◌<◌, ◌≤◌, ◌++◌, take, length, IfOk, OnErr, is_err};
    ghost use Rattle.cell_core_devices.specs.Device.{faults_after_put, faults_after_flush};
    ghost use Rattle.std.specs.Io.KnownBytes.{WriteAppends, Keeps};

    ghost taken = { λ s. Some s.0.1 };

    ghost faults = { λ s. s.1 };

    fn put(&mut self, bytes: &[u8]) -> Result<usize, DeviceFault>
        requires { 0 < length bytes.now }
        ensures count { IfOk result (λ n. (0 < n) × (n ≤ length bytes.now)) }
        ensures ok { IfOk result (λ n. self.new.0.1 ≡ self.old.0.1 ++ take n bytes.now) }
        ensures err { OnErr result (self.new.0.1 ≡ self.old.0.1) }
        ensures faults { self.new.1 ≡ faults_after_put self.old.1 (is_err result) }
        // If the writer's contents are known, they grow by the accepted bytes.
        ensures written { WriteAppends (W.contents self.old.0.0) (W.contents self.new.0.0)
            result bytes.now }
    {
        match self.writer.write(bytes) {
            Ok(0) | Err(_) => {
                self.refused = true;
                Err(DeviceFault)
            }
            Ok(n) => {
                self.took.note(&bytes[..n]);
                Ok(n)
            }
        }
    }

    fn flush(&mut self) -> Result<(), DeviceFault>
        ensures taken { self.new.0.1 ≡ self.old.0.1 }
        ensures faults { self.new.1 ≡ faults_after_flush self.old.1 (is_err result) }
        ensures written { Keeps (W.contents self.old.0.0) (W.contents self.new.0.0) }
    {
        self.flushes = self.flushes.again();
        match self.writer.flush() {
            Ok(()) => Ok(()),
            Err(_) => {
                self.unflushed = true;
                Err(DeviceFault)
            }
        }
    }
}

/// A sink that writes to memory of a fixed size and fails when it is full.
#[derive(Debug, Drop)]
pub struct MemorySink {
    room: Vec<u8>,
    at: usize,
    piece: usize,
    flush_fails: bool,
    refused: bool,
    unflushed: bool,
    flushes: FlushCount,
}

impl Model for MemorySink {
    ghost use Rattle.std.specs.Prelude.{take, ◌<◌, ◌≤◌, ◌-◌, length};
    ghost use Rattle.cell_core_devices.specs.Device.{SinkFaults, MemorySinkValue};

    ghost Value = { MemorySinkValue };

    ghost view = { λ s. record { bytes = take s.at s.room.items; faults = record { refused = s.refused; unflushed = s.unflushed; flushes = s.flushes }; room = length s.room.items - s.at; piece = s.piece; flush_fails = s.flush_fails } };

    ghost invariant = { λ s. (s.at ≤ length s.room.items) × (0 < s.piece) };
}

impl MemorySink {
    /// Returns a sink that writes to `room`. Each call accepts at most `piece` bytes, and flushing fails if
    /// `flush_fails` is set. Does not allocate.
    pub fn new(room: Vec<u8>, piece: usize, flush_fails: bool) -> MemorySink
        requires { 0 < piece }
        ensures { result ≡ record {
          bytes = [];
          faults = faults_of_new_sink;
          room = length room.items;
          piece = piece;
          flush_fails = flush_fails;
        } }
    {
        MemorySink {
            room,
            at: 0,
            piece,
            flush_fails,
            refused: false,
            unflushed: false,
            flushes: FlushCount::Never,
        }
    }

    /// Returns the bytes accepted so far.
    pub fn bytes(&self) -> &[u8]
        ensures { result.now ≡ self.now.bytes }
    {
        &self.room[..self.at]
    }
}

// Writes bytes into `room`, starting at index `at`.
fn write_bytes_at(room: &mut [u8], at: usize, bytes: &[u8])
    requires { at + length bytes.now ≤ length room.old }
    ensures front { take (at + length bytes.now) room.new ≡ take at room.old ++ bytes.now }
    ensures len { length room.new ≡ length room.old }
{
    room[at..at + bytes.len()].copy_from_slice(bytes);
}

impl Sink for MemorySink {
    ghost use Rattle.std.specs.Prelude.{Some, ◌≡◌, ◌<◌, ◌≤◌, ◌-◌, ◌++◌, length, take, IfOk, OnErr, MatchResult, is_err, true};
    ghost use Rattle.cell_core_devices.specs.Device.{faults_after_put, faults_after_flush, byte_count_moved_by_call};

    ghost taken = { λ s. Some s.bytes };

    ghost faults = { λ s. s.faults };

    fn put(&mut self, bytes: &[u8]) -> Result<usize, DeviceFault>
        requires { 0 < length bytes.now }
        ensures count { IfOk result (λ n. (0 < n) × (n ≤ length bytes.now)) }
        ensures moved { IfOk result (λ n. n
            ≡ byte_count_moved_by_call (length bytes.now) self.old.piece self.old.room) }
        ensures full { OnErr result (self.old.room ≡ 0) }
        ensures taken { MatchResult result
            (λ n. self.new ≡ record self.old { bytes = self.old.bytes ++ take n bytes.now; room = self.old.room - n })
            (λ _. self.new ≡ record self.old { faults = faults_after_put self.old.faults true }) }
    {
        let n = bytes.len().min(self.piece).min(self.room.len() - self.at);
        if n == 0 {
            self.refused = true;
            return Err(DeviceFault);
        }
        write_bytes_at(&mut self.room, self.at, &bytes[..n]);
        self.at += n;
        Ok(n)
    }

    fn flush(&mut self) -> Result<(), DeviceFault>
        ensures fails { is_err result ≡ self.old.flush_fails }
        ensures taken { self.new
            ≡ record self.old { faults = faults_after_flush self.old.faults (is_err result) } }
    {
        self.flushes = self.flushes.again();
        if self.flush_fails {
            self.unflushed = true;
            return Err(DeviceFault);
        }
        Ok(())
    }
}
