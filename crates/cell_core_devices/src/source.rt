//! Sources, which return bytes: a trait, and sources over std's readers and over memory.

ghost use Rattle.std.specs.Prelude.{◌≡◌, ◌<◌, ◌≤◌, Option, Some, None, [], length, drop, IfOk, IfSome, MatchResult};
ghost use Rattle.std.specs.Option.{IsSome};
ghost use Rattle.cell_core_devices.specs.Asking.{progress_after_take};
ghost use Rattle.cell_core_devices.specs.Device.{ComingBytes, IsEffectOfTake, IsSupposedEffectOfTake, MemorySourceValue, byte_count_moved_by_call};
ghost use Rattle.cell_core_devices.specs.Supposed.{SupposedContent, content_to_come};

use crate::device::DeviceFault;
use crate::history::RecordedBytes;
use std::io::Read;
use std::marker::Model;

/// How far a source was read.
///
/// No `requires` forbids asking a source after its end, because callers may have reasons to. It is not an invariant of
/// readers either, because a reader may be given a source that has ended.
#[derive(Clone, Copy, Debug, PartialEq, Eq)]
pub enum Asked {
    /// Each call returned bytes, or there was no call yet.
    Going,
    /// The last call reported the end, and all earlier calls returned bytes.
    Ended,
    /// The last call returned an `Err`, and all earlier calls returned bytes.
    Failed,
    /// The source was asked again after its end or an `Err`.
    Again,
}

impl Asked {
    /// Returns the state after one more call with this result.
    pub fn progress_after_answer(self, answer: Result<usize, DeviceFault>) -> Asked
        ensures { result ≡ progress_after_take self answer }
    {
        match (self, answer) {
            (Asked::Going, Ok(0)) => Asked::Ended,
            (Asked::Going, Ok(_)) => Asked::Going,
            (Asked::Going, Err(_)) => Asked::Failed,
            _ => Asked::Again,
        }
    }
}

/// A source of bytes.
pub trait Source {
    ghost use Rattle.cell_core_devices.specs.declared.source.Asked.{Asked};

    /// The bytes to come, and whether the source fails after them; `None` if they are unknown.
    ghost coming: { Self → Option ComingBytes };

    /// How far the source was read: whether it reported its end or failed, and whether it was asked after that.
    ghost asked: { Self → Asked };

    /// What decides the bytes to come if the full content was supposed to be some bytes (`content_to_come`): there are none once
    /// the source has returned anything else.
    ghost supposed: { Self → SupposedContent };

    /// Writes the next bytes to the start of a non-empty slice and returns their number, which is 0 only at the end.
    ///
    /// # Errors
    ///
    /// [`DeviceFault`] if the source fails.
    fn take(&mut self, buf: &mut [u8]) -> Result<usize, DeviceFault>
        requires { 0 < length buf.old }
        ensures count { IfOk result (λ n. n ≤ length buf.new) }
        ensures bytes { IsEffectOfTake (coming self.old) (coming self.new) result buf.new }
        ensures supposed { (h : ComingBytes)
            → IsSupposedEffectOfTake (content_to_come (supposed self.old) h)
            (content_to_come (supposed self.new) h) result buf.new }
        ensures asked { asked self.new ≡ progress_after_take (asked self.old) result };

    /// A law: if the bytes to come are known, they are to come whatever is supposed.
    ghost known: { (s : Self) (h : ComingBytes) → IfSome (coming s) (λ c. content_to_come (supposed s) h ≡ Some c) };

    /// A law: if the bytes to come are known of one source of a type, they are known of all sources of this type.
    ghost steady: { (s t : Self) → IsSome (coming s) → IsSome (coming t) };
}

/// A source over a reader of std. Nothing is known about the bytes to come. Every `Err` of the reader is returned as
/// [`DeviceFault`]. Proofs record the bytes that the reader returned, and compare them with a supposed content.
#[derive(Drop)]
pub struct ReadSource<R> {
    reader: R,
    gave: RecordedBytes,
    asked: Asked,
}

impl<R> Model for ReadSource<R> {
    ghost use Rattle.std.specs.Prelude.{ℕ, List};
    ghost use Rattle.cell_core_devices.specs.declared.source.Asked.{Asked};

    ghost Value = { (R × List ℕ) × Asked };

    ghost view = { λ s. ((s.reader, s.gave.bytes), s.asked) };
}

impl<R: Read + Drop> ReadSource<R> {
    /// Returns a source of a reader's bytes. Does not allocate.
    pub fn new(reader: R) -> ReadSource<R>
        ensures value { result ≡ ((reader, []), Asked.Going) }
        ensures coming { ⟦<ReadSource<R> as Source>⟧.coming result ≡ None }
        ensures supposed { (h : ComingBytes)
            → content_to_come (⟦<ReadSource<R> as Source>⟧.supposed result) h ≡ Some h }
        ensures asked { ⟦<ReadSource<R> as Source>⟧.asked result ≡ Asked.Going }
    {
        ReadSource {
            reader,
            gave: RecordedBytes::new(),
            asked: Asked::Going,
        }
    }
}

impl<R: Read> Source for ReadSource<R> {
    ghost use Rattle.std.specs.Prelude.{None, ◌≡◌, ◌<◌, ◌≤◌, ◌++◌, take, length, IfOk, OnErr};
    ghost use Rattle.std.specs.Io.KnownBytes.{ReadConsumes};
    ghost use Rattle.cell_core_devices.specs.Asking.{progress_after_take};
    ghost use Rattle.cell_core_devices.specs.Supposed.{After};

    ghost coming = { λ _. None };

    ghost asked = { λ s. s.1 };

    ghost supposed = { λ s. After s.0.1 s.1 };

    ghost known = { λ _ _. tt };

    ghost steady = { λ _ _ none. none };

    fn take(&mut self, buf: &mut [u8]) -> Result<usize, DeviceFault>
        requires { 0 < length buf.old }
        ensures count { IfOk result (λ n. n ≤ length buf.new) }
        // If the reader's remaining bytes are known, the returned bytes are removed from them.
        ensures read { ReadConsumes (R.remaining self.old.0.0) (R.remaining self.new.0.0)
            result buf.new }
        ensures gave { IfOk result (λ n. self.new.0.1 ≡ self.old.0.1 ++ take n buf.new) }
        ensures kept { OnErr result (self.new.0.1 ≡ self.old.0.1) }
        ensures asked { self.new.1 ≡ progress_after_take self.old.1 result }
    {
        match self.reader.read(buf) {
            Ok(n) => {
                self.gave.note(&buf[..n]);
                self.asked = self.asked.progress_after_answer(Ok(n));
                Ok(n)
            }
            Err(_) => {
                self.asked = self.asked.progress_after_answer(Err(DeviceFault));
                Err(DeviceFault)
            }
        }
    }
}

/// A source of bytes in memory, which ends or fails after them.
#[derive(Debug, Drop)]
pub struct MemorySource {
    bytes: Vec<u8>,
    at: usize,
    piece: usize,
    fails: bool,
    asked: Asked,
}

impl Model for MemorySource {
    ghost use Rattle.std.specs.Prelude.{drop, ◌<◌, ◌≤◌, length};
    ghost use Rattle.cell_core_devices.specs.Device.{MemorySourceValue};

    ghost Value = { MemorySourceValue };

    ghost view = { λ s. record { bytes = drop s.at s.bytes.items; fails = s.fails; piece = s.piece; asked = s.asked } };

    ghost invariant = { λ s. (s.at ≤ length s.bytes.items) × (0 < s.piece) };
}

impl MemorySource {
    /// Returns a source of these bytes. Each call returns at most `piece` bytes. After the last byte the source fails
    /// if `fails` is set, and otherwise ends. Does not allocate.
    pub fn new(bytes: Vec<u8>, piece: usize, fails: bool) -> MemorySource
        requires { 0 < piece }
        ensures { result
            ≡ record { bytes = bytes.items; fails = fails; piece = piece; asked = Asked.Going } }
    {
        MemorySource {
            bytes,
            at: 0,
            piece,
            fails,
            asked: Asked::Going,
        }
    }
}

impl Source for MemorySource {
    ghost use Rattle.std.specs.Prelude.{Some, ◌≡◌, ◌<◌, ◌≤◌, ◌++◌, length, take, drop, IfOk, OnErr, MatchResult, refl};
    ghost use Rattle.cell_core_devices.specs.Asking.{progress_after_take};
    ghost use Rattle.cell_core_devices.specs.Device.{IsEffectOfTake, bytes_to_come_from_memory, byte_count_moved_by_call};
    ghost use Rattle.cell_core_devices.specs.Supposed.{Known};

    ghost coming = { λ s. Some (bytes_to_come_from_memory s) };

    ghost asked = { λ s. s.asked };

    ghost supposed = { λ s. Known (bytes_to_come_from_memory s) };

    ghost known = { λ _ _. refl };

    ghost steady = { λ _ _ _. refl };

    fn take(&mut self, buf: &mut [u8]) -> Result<usize, DeviceFault>
        requires { 0 < length buf.old }
        ensures count { IfOk result (λ n. n ≤ length buf.new) }
        ensures bytes { IsEffectOfTake (Some (bytes_to_come_from_memory self.old))
            (Some (bytes_to_come_from_memory self.new))
            result buf.new }
        ensures moved { IfOk result (λ n. n
            ≡ byte_count_moved_by_call (length self.old.bytes) self.old.piece (length buf.old)) }
        // The slice is unchanged after the returned bytes.
        ensures slice { IfOk result (λ n. buf.new ≡ take n self.old.bytes ++ drop n buf.old) }
        ensures unchanged { OnErr result (buf.new ≡ buf.old) }
        ensures rest { MatchResult result
            (λ n. self.new ≡ record self.old {
              bytes = drop n self.old.bytes;
              asked = progress_after_take self.old.asked result;
            })
            (λ _. self.new ≡ record self.old {
              asked = progress_after_take self.old.asked result;
            }) }
        ensures asked { self.new.asked ≡ progress_after_take self.old.asked result }
    {
        let rest = &self.bytes[self.at..];
        if rest.is_empty() && self.fails {
            self.asked = self.asked.progress_after_answer(Err(DeviceFault));
            return Err(DeviceFault);
        }
        let n = rest.len().min(self.piece).min(buf.len());
        buf[..n].copy_from_slice(&rest[..n]);
        self.at += n;
        self.asked = self.asked.progress_after_answer(Ok(n));
        Ok(n)
    }
}
