//! Reads the fields of a request from a source, block by block. Memory is allocated only for bytes that have arrived.

ghost use Rattle.std.specs.Prelude.{◌≡◌, ◌<◌, ◌≤◌, ◌+◌, List, [], true, length, take, drop, ◌++◌, IfOk, IfErr, OnOk};
ghost use Rattle.std.specs.Int.{w8, w16, w32, w64};
ghost use Rattle.cell_core_devices.specs.Device.{ComingBytes};
ghost use Rattle.rcell_pipe_request.specs.RequestFields.{error_kind_of_source_end, bytes_reading, unsigned_number_reading, signed_number_reading, sized_text_reading, end_of_request_reading};
ghost use Rattle.rcell_pipe_request.specs.Feeds.{RequestReaderValue, request_reader_may_hold_bytes, left, IsReadStateAfterNextBlock, ReadsRequestFieldAndStaysOpen, ReadsRequestFieldToSourceEnd};

use crate::error::{ErrorKind, FieldReadingStop};
use cell_core::source::{ReadSource, Source};
use std::alloc::{AllocError, Global};
use std::io::Read;
use std::marker::Model;

// Number of bytes requested from the source at a time.
const BLOCK_BYTES: usize = 65536;

/// Allocates the memory for a block.
pub fn new_block(alloc: Global) -> Result<Vec<u8>, AllocError>
    ensures { IfOk result (λ block. 0 < length block.items) }
{
    vec![in alloc; 0u8; BLOCK_BYTES]
}

/// A source that is read in blocks.
#[derive(Drop)]
pub struct Feed<R: Read> {
    source: ReadSource<R>,
    block: Vec<u8>,
    at: usize,
    end: usize,
}

impl<R: Read> Model for Feed<R> {
    ghost use Rattle.std.specs.Prelude.{take, drop, length, ◌<◌, ◌≤◌};
    ghost use Rattle.rcell_pipe_request.specs.Feeds.{RequestReaderValue};

    ghost Value = { RequestReaderValue };

    ghost view = { λ f. record {
      unread = drop f.at (take f.end f.block.items);
      gave = f.source.0.1;
      asked = f.source.1;
    } };

    ghost invariant = { λ f. (f.at ≤ f.end) × (f.end ≤ length f.block.items) × (0 < length f.block.items) };
}

impl<R: Read> Feed<R> {
    /// Creates a feed with an empty buffer `block`.
    pub fn new(block: Vec<u8>, source: ReadSource<R>) -> Feed<R>
        requires { 0 < length block.items }
        ensures { result ≡ record { unread = []; gave = source.0.1; asked = source.1 } }
    {
        Feed {
            source,
            block,
            at: 0,
            end: 0,
        }
    }

    /// Returns the source, with all bytes read from it so far.
    pub fn into_source(self) -> ReadSource<R>
    where
        R: Drop,
        ensures gave { result.0.1 ≡ self.gave }
        ensures asked { result.1 ≡ self.asked }
    {
        let Feed {
            source,
            block: _,
            at: _,
            end: _,
        } = self;
        source
    }

    // Reads the next block if the current one is used up.
    fn refill(&mut self) -> Result<(), ErrorKind>
        // Any content that the source may hold after the call, it could hold before, with the same bytes still to come.
        ensures same { (c : ComingBytes) → request_reader_may_hold_bytes c self.new ≡ true
            → (request_reader_may_hold_bytes c self.old ≡ true)
            × (left c self.new ≡ left c self.old) }
        ensures some { OnOk result (0 < length self.new.unread) }
        ensures end { IfErr result (λ kind. (c : ComingBytes)
            → request_reader_may_hold_bytes c self.new ≡ true
            → ((left c self.old).bytes ≡ []) × (kind
            ≡ error_kind_of_source_end (left c self.old).fails)) }
        // The end of the source and a read error are reported as such, and the source is not read again after them.
        ensures asked { IsReadStateAfterNextBlock result self.old self.new }
    {
        if self.at < self.end {
            return Ok(());
        }
        match self.source.take(self.block.as_mut_slice()) {
            Ok(0) => Err(ErrorKind::Short),
            Ok(count) => {
                self.at = 0;
                self.end = count;
                Ok(())
            }
            Err(_) => Err(ErrorKind::ReadFailed),
        }
    }

    // Returns the bytes of the block that are not yet read.
    fn unread(&self) -> &[u8]
        ensures { result.now ≡ self.now.unread }
    {
        &self.block[self.at..self.end]
    }

    // Skips `count` bytes of the block.
    fn pass(&mut self, count: usize)
        requires { count ≤ length self.old.unread }
        ensures { self.new ≡ record self.old { unread = drop count self.old.unread } }
    {
        self.at += count;
    }
}

// Copies bytes into a slice, starting at `at`.
fn copy_bytes_at(out: &mut [u8], at: usize, bytes: &[u8])
    requires { at + length bytes.now ≤ length out.old }
    ensures front { take (at + length bytes.now) out.new ≡ take at out.old ++ bytes.now }
    ensures len { length out.new ≡ length out.old }
{
    out[at..at + bytes.len()].copy_from_slice(bytes);
}

/// Fills a slice with the next bytes.
pub fn read_bytes_into<R: Read>(feed: &mut Feed<R>, out: &mut [u8]) -> Result<(), FieldReadingStop>
    ensures width { length out.new ≡ length out.old }
    ensures bytes { ReadsRequestFieldAndStaysOpen (λ _. out.new) feed.old result feed.new
        (bytes_reading (length out.old)) }
{
    let mut done = 0;
    while done < out.len() {
        match feed.refill() {
            Ok(()) => {}
            Err(kind) => return Err(FieldReadingStop::Error(kind)),
        }
        let unread = feed.unread();
        let count = unread.len().min(out.len() - done);
        copy_bytes_at(out, done, &unread[..count]);
        feed.pass(count);
        done += count;
    }
    Ok(())
}

/// Reads `len` bytes. Memory grows only with the bytes that have arrived.
pub fn read_bytes<R: Read>(
    alloc: Global,
    feed: &mut Feed<R>,
    len: usize,
) -> Result<Vec<u8>, FieldReadingStop>
    ensures { ReadsRequestFieldAndStaysOpen (λ text. text.items) feed.old result feed.new
        (bytes_reading len) }
{
    let mut text = Vec::new(alloc);
    while text.len() < len {
        match feed.refill() {
            Ok(()) => {}
            Err(kind) => return Err(FieldReadingStop::Error(kind)),
        }
        let unread = feed.unread();
        let count = unread.len().min(len - text.len());
        text.extend_from_slice(&unread[..count])?;
        feed.pass(count);
    }
    Ok(text)
}

/// Reads an unsigned 8-bit number.
#[tactic(auto, unfolding(crate::specs::RequestFields::unsigned_number_reading))]
pub fn read_u8<R: Read>(feed: &mut Feed<R>) -> Result<u8, FieldReadingStop>
    ensures { ReadsRequestFieldAndStaysOpen (λ n. n) feed.old result feed.new
        (unsigned_number_reading w8) }
{
    let mut bytes = [0u8; 1];
    read_bytes_into(feed, &mut bytes)?;
    Ok(u8::from_le_bytes(bytes))
}

/// Reads an unsigned 16-bit number.
#[tactic(auto, unfolding(crate::specs::RequestFields::unsigned_number_reading))]
pub fn read_u16<R: Read>(feed: &mut Feed<R>) -> Result<u16, FieldReadingStop>
    ensures { ReadsRequestFieldAndStaysOpen (λ n. n) feed.old result feed.new
        (unsigned_number_reading w16) }
{
    let mut bytes = [0u8; 2];
    read_bytes_into(feed, &mut bytes)?;
    Ok(u16::from_le_bytes(bytes))
}

/// Reads an unsigned 32-bit number.
#[tactic(auto, unfolding(crate::specs::RequestFields::unsigned_number_reading))]
pub fn read_u32<R: Read>(feed: &mut Feed<R>) -> Result<u32, FieldReadingStop>
    ensures { ReadsRequestFieldAndStaysOpen (λ n. n) feed.old result feed.new
        (unsigned_number_reading w32) }
{
    let mut bytes = [0u8; 4];
    read_bytes_into(feed, &mut bytes)?;
    Ok(u32::from_le_bytes(bytes))
}

/// Reads an unsigned 64-bit number.
#[tactic(auto, unfolding(crate::specs::RequestFields::unsigned_number_reading))]
pub fn read_u64<R: Read>(feed: &mut Feed<R>) -> Result<u64, FieldReadingStop>
    ensures { ReadsRequestFieldAndStaysOpen (λ n. n) feed.old result feed.new
        (unsigned_number_reading w64) }
{
    let mut bytes = [0u8; 8];
    read_bytes_into(feed, &mut bytes)?;
    Ok(u64::from_le_bytes(bytes))
}

/// Reads a signed 32-bit number.
#[tactic(auto, unfolding(crate::specs::RequestFields::unsigned_number_reading, crate::specs::RequestFields::signed_number_reading))]
pub fn read_i32<R: Read>(feed: &mut Feed<R>) -> Result<i32, FieldReadingStop>
    ensures { ReadsRequestFieldAndStaysOpen (λ n. n) feed.old result feed.new
        (signed_number_reading w32) }
{
    let mut bytes = [0u8; 4];
    read_bytes_into(feed, &mut bytes)?;
    Ok(i32::from_le_bytes(bytes))
}

/// Reads a signed 64-bit number.
#[tactic(auto, unfolding(crate::specs::RequestFields::unsigned_number_reading, crate::specs::RequestFields::signed_number_reading))]
pub fn read_i64<R: Read>(feed: &mut Feed<R>) -> Result<i64, FieldReadingStop>
    ensures { ReadsRequestFieldAndStaysOpen (λ n. n) feed.old result feed.new
        (signed_number_reading w64) }
{
    let mut bytes = [0u8; 8];
    read_bytes_into(feed, &mut bytes)?;
    Ok(i64::from_le_bytes(bytes))
}

/// Reads a text that follows its 8-bit length.
#[tactic(auto, unfolding(crate::specs::RequestFields::sized_text_reading))]
pub fn read_text_with_u8_length<R: Read>(
    alloc: Global,
    feed: &mut Feed<R>,
) -> Result<Vec<u8>, FieldReadingStop>
    ensures { ReadsRequestFieldAndStaysOpen (λ text. text.items) feed.old result feed.new
        (sized_text_reading w8) }
{
    let len = read_u8(feed)?;
    read_bytes(alloc, feed, len as usize)
}

/// Reads a text that follows its 16-bit length.
#[tactic(auto, unfolding(crate::specs::RequestFields::sized_text_reading))]
pub fn read_text_with_u16_length<R: Read>(
    alloc: Global,
    feed: &mut Feed<R>,
) -> Result<Vec<u8>, FieldReadingStop>
    ensures { ReadsRequestFieldAndStaysOpen (λ text. text.items) feed.old result feed.new
        (sized_text_reading w16) }
{
    let len = read_u16(feed)?;
    read_bytes(alloc, feed, len as usize)
}

/// Reads a text that follows its 64-bit length.
#[tactic(auto, unfolding(crate::specs::RequestFields::sized_text_reading))]
pub fn read_text_with_u64_length<R: Read>(
    alloc: Global,
    feed: &mut Feed<R>,
) -> Result<Vec<u8>, FieldReadingStop>
    ensures { ReadsRequestFieldAndStaysOpen (λ text. text.items) feed.old result feed.new
        (sized_text_reading w64) }
{
    let len = read_u64(feed)?;
    read_bytes(alloc, feed, len as usize)
}

/// Checks that no bytes follow.
#[tactic(auto, unfolding(crate::specs::RequestFields::end_of_request_reading))]
pub fn check_request_ends<R: Read>(feed: &mut Feed<R>) -> Result<(), FieldReadingStop>
    ensures { ReadsRequestFieldToSourceEnd (λ done. done) feed.old result feed.new
        end_of_request_reading }
{
    match feed.refill() {
        Ok(()) => Err(FieldReadingStop::Error(ErrorKind::Trailing)),
        Err(ErrorKind::Short) => Ok(()),
        Err(kind) => Err(FieldReadingStop::Error(kind)),
    }
}
