//! Reads the words of a text with their lines.

ghost use Rattle.std.specs.Prelude.{true, false, ◌≡◌, ◌+◌, ◌-◌, ◌^◌, ◌<◌, ◌≤◌, [], length, drop, Ok, Some, IfOk, IfErr, OnErr, IfSome, IfNone, slice_get};
ghost use Rattle.cell_core_devices.specs.Asking.{knowledge_about_new_source, source_is_in_assumed_state};
ghost use Rattle.cell_ascii_reading.specs.Ahead.{bytes_to_come_for_content, IsSourceAtEndOrFailed, NoByteWasSkipped, ScanResultsBeforeAndAfterAgree};
ghost use Rattle.cell_ascii_meaning.specs.GridTokens.{grid_fault_at_line, is_space, next_word_start, word_continued_in_bytes};
ghost use Rattle.cell_ascii_meaning.specs.Header.{end_of_continued_blank_run};
ghost use Rattle.cell_ascii_reading.specs.Scan.{ResultTellsIfSourceFailed, AnyFaultIsOfTextOrSource};

use crate::input::Input;
use cell_ascii_meaning::grid_fault::{GridFault, GridKind};
use cell_core::source::Source;
use std::alloc::Global;
use std::marker::Model;

/// Reads a text word by word.
#[derive(Drop)]
pub struct Scanner<R: Source> {
    input: Input<R>,
    line: u64,
    run: u32,
    word: [u8; 64],
    len: usize,
}

impl<R: Source> Model for Scanner<R> {
    ghost use Rattle.std.specs.Prelude.{take, ◌≤◌};
    ghost use Rattle.cell_ascii_reading.specs.Scan.{ScannerState};

    ghost Value = { ScannerState };

    ghost view = { λ s. record { line = s.line; run = s.run; word = take s.len s.word; ahead = s.input } };

    ghost invariant = { λ s. (s.run ≤ 1048576) × (s.len ≤ 64) };
}

/// Returns whether a byte is a blank or a line feed.
pub fn is_space(b: u8) -> bool
    ensures { result ≡ is_space b }
{
    b == b' ' || b == b'\t' || b == b'\r' || b == b'\n'
}

// The result of one step over blanks and line feeds.
#[derive(Clone, Copy)]
enum ScanStepResult {
    Blank,
    Feed,
    Word,
    End,
}

/// The result of skipping blanks and line feeds: the start of a word, or the end of the text.
#[derive(Clone, Copy)]
pub enum WordOrTextEnd {
    Word,
    End,
}

/// The result of skipping the blanks of a line: the start of a word, a line feed, or the end of the text.
#[derive(Clone, Copy)]
pub enum WordOrLineEnd {
    Word,
    Feed,
    End,
}

impl<R: Source> Scanner<R> {
    ghost use Rattle.cell_ascii_reading.specs.parts.ScanSteps.{IsScannerAfterStep};
    ghost use Rattle.cell_ascii_reading.specs.Scan.{word_start_from_call_result, blank_run_end_from_call_result, line_number_after_blanks, word_from_call_result, full_word_from_call_result};

    // Returns the next byte, or `None` at the end. Reports a failed source as an error at the current line.
    #[inline(always)]
    fn peek(&mut self) -> Result<Option<u8>, GridFault>
        ensures same { NoByteWasSkipped self.old.ahead self.new.ahead }
        ensures scan { self.new ≡ record self.old { ahead = self.new.ahead } }
        ensures byte { IfOk result
            (λ o. IfSome o (λ b. slice_get self.new.ahead.buffered 0 ≡ Some b)) }
        ensures end { IfOk result (λ o. IfNone o
            (IsSourceAtEndOrFailed false (bytes_to_come_for_content self.new.ahead))) }
        ensures failed { OnErr result (IsSourceAtEndOrFailed true
            (bytes_to_come_for_content self.new.ahead)) }
        ensures fault { IfErr result (λ f. f ≡ grid_fault_at_line GridKind.Read self.old.line) }
        ensures heard { ResultTellsIfSourceFailed result self.old.ahead self.new.ahead }
    {
        match self.input.peek() {
            Ok(next) => Ok(next),
            Err(_) => Err(GridFault {
                kind: GridKind::Read,
                line: self.line,
            }),
        }
    }

    // Skips the next byte if it is a blank or a line feed.
    fn step(&mut self) -> Result<ScanStepResult, GridFault>
        requires room { self.old.line + 1048576 < 2 ^ 64 + self.old.run }
        requires run { self.old.run ≤ 1048576 }
        ensures step { IsScannerAfterStep result self.old self.new }
        ensures kind { AnyFaultIsOfTextOrSource result }
        ensures heard { ResultTellsIfSourceFailed result self.old.ahead self.new.ahead }
    {
        let Some(b) = self.peek()? else {
            return Ok(ScanStepResult::End);
        };
        if !is_space(b) {
            return Ok(ScanStepResult::Word);
        }
        if self.run >= 1048576 {
            return Err(GridFault {
                kind: GridKind::ReaderStuck,
                line: self.line,
            });
        }
        self.input.skip_byte();
        self.run += 1;
        if b == b'\n' {
            self.line += 1;
            return Ok(ScanStepResult::Feed);
        }
        Ok(ScanStepResult::Blank)
    }

    /// Skips blanks and line feeds.
    pub fn skip_spaces(&mut self) -> Result<WordOrTextEnd, GridFault>
        requires room { self.old.line + 1048576 < 2 ^ 64 }
        requires run { self.old.run ≤ 1048576 }
        ensures starts { ScanResultsBeforeAndAfterAgree (next_word_start self.old.line self.old.run)
            self.old.ahead
            (word_start_from_call_result result self.new.line) self.new.ahead }
        ensures lines { self.new.line ≤ self.old.line + 1048576 }
        ensures run { self.new.run ≤ 1048576 }
        ensures further { self.old.run ≤ self.new.run }
        ensures word { self.new.word ≡ self.old.word }
        ensures end { result ≡ Ok WordOrTextEnd.End
            → IsSourceAtEndOrFailed false (bytes_to_come_for_content self.new.ahead) }
        ensures kind { AnyFaultIsOfTextOrSource result }
        ensures heard { ResultTellsIfSourceFailed result self.old.ahead self.new.ahead }
    {
        'spaces: loop {
            match self.step() {
                Ok(ScanStepResult::Blank) => {}
                Ok(ScanStepResult::Feed) => {}
                Ok(ScanStepResult::Word) => return Ok(WordOrTextEnd::Word),
                Ok(ScanStepResult::End) => return Ok(WordOrTextEnd::End),
                Err(fault) => return Err(fault),
            }
        }
    }

    /// Skips the blanks of a line, and the line feed if it ends them.
    pub fn skip_blanks(&mut self) -> Result<WordOrLineEnd, GridFault>
        requires room { self.old.line + 1048576 < 2 ^ 64 }
        requires run { self.old.run ≤ 1048576 }
        ensures gap { ScanResultsBeforeAndAfterAgree
            (end_of_continued_blank_run self.old.line self.old.run)
            self.old.ahead
            (blank_run_end_from_call_result result self.new.run) self.new.ahead }
        ensures line { self.new.line ≡ line_number_after_blanks result self.old.line }
        ensures run { self.new.run ≤ 1048576 }
        ensures word { self.new.word ≡ self.old.word }
        ensures end { result ≡ Ok WordOrLineEnd.End
            → IsSourceAtEndOrFailed false (bytes_to_come_for_content self.new.ahead) }
        ensures kind { AnyFaultIsOfTextOrSource result }
        ensures heard { ResultTellsIfSourceFailed result self.old.ahead self.new.ahead }
    {
        'blanks: loop {
            match self.step() {
                Ok(ScanStepResult::Blank) => {}
                Ok(ScanStepResult::Feed) => return Ok(WordOrLineEnd::Feed),
                Ok(ScanStepResult::Word) => return Ok(WordOrLineEnd::Word),
                Ok(ScanStepResult::End) => return Ok(WordOrLineEnd::End),
                Err(fault) => return Err(fault),
            }
        }
    }

    // Reads the next byte if it continues the word. Returns whether it does.
    fn grow(&mut self) -> Result<bool, GridFault>
        requires { length self.old.word ≤ 64 }
        ensures word { ScanResultsBeforeAndAfterAgree
            (word_continued_in_bytes self.old.line self.old.word)
            self.old.ahead
            (full_word_from_call_result result self.new.line self.new.word) self.new.ahead }
        ensures line { self.new.line ≡ self.old.line }
        ensures run { self.new.run ≡ self.old.run }
        ensures short { length self.new.word ≤ 64 }
        ensures further { result ≡ Ok true → length self.new.word ≡ length self.old.word + 1 }
        ensures kind { AnyFaultIsOfTextOrSource result }
        ensures heard { ResultTellsIfSourceFailed result self.old.ahead self.new.ahead }
    {
        let Some(b) = self.peek()? else {
            return Ok(false);
        };
        if is_space(b) {
            return Ok(false);
        }
        if self.len >= 64 {
            return Err(GridFault {
                kind: GridKind::LongToken,
                line: self.line,
            });
        }
        self.input.skip_byte();
        self.word[self.len] = b;
        self.len += 1;
        Ok(true)
    }

    /// Reads the next word. The next byte must not be a blank or a line feed.
    pub fn read_word(&mut self) -> Result<(), GridFault>
        ensures word { ScanResultsBeforeAndAfterAgree
            (word_continued_in_bytes self.old.line []) self.old.ahead
            (word_from_call_result result self.new.word) self.new.ahead }
        ensures line { self.new.line ≡ self.old.line }
        ensures run { self.new.run ≡ 0 }
        ensures kind { AnyFaultIsOfTextOrSource result }
        ensures heard { ResultTellsIfSourceFailed result self.old.ahead self.new.ahead }
    {
        self.len = 0;
        self.run = 0;
        'word: loop {
            match self.grow() {
                Ok(true) => {}
                Ok(false) => return Ok(()),
                Err(fault) => return Err(fault),
            }
        }
    }

    /// Begins a new run of blanks and line feeds.
    pub fn begin_blank_run(&mut self)
        ensures { self.new ≡ record self.old { run = 0 } }
    {
        self.run = 0;
    }

    /// Returns the bytes in the buffer.
    pub fn buffered_bytes(&self) -> &[u8]
        ensures { result.now ≡ self.now.ahead.buffered }
    {
        self.input.buffered_bytes()
    }

    /// Returns whether no blank or line feed was skipped since the last word.
    pub fn is_right_after_word(&self) -> bool
        ensures { result ≡ true → self.now.run ≡ 0 }
    {
        self.run == 0
    }

    /// Adds `count` line feeds among skipped bytes to the line number.
    pub fn count_lines(&mut self, count: u64)
        requires { self.old.line + count < 2 ^ 64 }
        ensures { self.new ≡ record self.old { line = self.old.line + count } }
    {
        self.line += count;
    }

    /// Skips `n` buffered bytes, which end with a word.
    pub fn pass(&mut self, n: usize)
        requires { n ≤ length self.old.ahead.buffered }
        ensures { self.new ≡ record self.old {
          run = 0;
          ahead = record self.old.ahead { buffered = drop n self.old.ahead.buffered };
        } }
    {
        self.run = 0;
        self.input.pass(n);
    }

    /// Returns the line of the scanner, from 1.
    pub fn line(&self) -> u64
        ensures { result ≡ self.now.line }
    {
        self.line
    }

    /// Returns the last word that was read.
    pub fn word(&self) -> &[u8]
        ensures value { result.now ≡ self.now.word }
        ensures short { length result.now ≤ 64 }
    {
        &self.word[..self.len]
    }

    /// Returns a scanner at the first byte of a source.
    ///
    /// # Errors
    ///
    /// The source if memory runs out.
    pub fn new(alloc: Global, source: R) -> Result<Scanner<R>, R>
    where
        R: Drop,
        ensures scanner { IfOk result (λ s. s ≡ record {
          line = 1;
          run = 0;
          word = [];
          ahead = record {
            buffered = [];
            rest = R.supposed source;
            ended = false;
            heard = knowledge_about_new_source (R.asked source);
          };
        }) }
        ensures unread { IfErr result (λ s. s ≡ source) }
    {
        let input = match Input::new(alloc, source) {
            Ok(input) => input,
            Err(source) => return Err(source),
        };
        Ok(Scanner {
            input,
            line: 1,
            run: 0,
            word: [0; 64],
            len: 0,
        })
    }

    /// Returns the source after its last read.
    pub fn into_source(self) -> R
        ensures rest { R.supposed result ≡ self.ahead.rest }
        ensures asked { self.ahead.heard.sure
            ≡ source_is_in_assumed_state (R.asked result) self.ahead.ended self.ahead.heard.failed }
    {
        self.input.into_source()
    }
}
