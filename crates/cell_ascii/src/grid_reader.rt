//! Reads grids row by row.

ghost use Rattle.std.specs.Prelude.{◌≡◌, ◌≢◌, ◌+◌, ◌*◌, ◌^◌, ◌<◌, ◌≤◌, ◌||◌, true, false, length, take, drop, Option, Some, Ok, Err, OnOk, OnErr, IfOk, IfErr, IfSome};
ghost use Rattle.std.specs.Result.{is_err};
ghost use Rattle.cell_core_devices.specs.Device.{ComingBytes};
ghost use Rattle.cell_core_devices.specs.Asking.{source_knowledge_after_calls, knowledge_about_new_source};
ghost use Rattle.cell_core_devices.specs.Supposed.{content_to_come, HoldsForAgreeingContents, EqualBeforeAndAfterReads};
ghost use Rattle.cell_ascii_meaning.specs.Kinds.{reports_failed_read};
ghost use Rattle.cell_ascii_reading.specs.Ahead.{bytes_to_come_for_content, ScanResultsBeforeAndAfterAgree};
ghost use Rattle.cell_ascii_meaning.specs.GridTokens.{next_word_start};
ghost use Rattle.cell_ascii_meaning.specs.Header.{result_with_line_in_fault, header_of_text};
ghost use Rattle.cell_ascii_meaning.specs.CellTexts.{cell_of_word, next_cell_after_position, items_read_one_after_another, text_end_or_fault, map_denoted_by_text};
ghost use Rattle.cell_ascii_meaning.specs.GridText.{SourceDenotesMap};
ghost use Rattle.cell_ascii_meaning.specs.FaultPlaces.{first_fault_up_to_first_data_token, first_fault_of_text};
ghost use Rattle.cell_ascii_meaning.specs.RowPlaces.{first_fault_of_next_cells};
ghost use Rattle.cell_ascii.specs.Reader.{CellReaderValue, position_of_cell_reader, value_and_position_or_fault, value_for_any_coming_bytes, rows_read_from_position};
ghost use Rattle.cell_ascii.specs.GridReaders.{position_of_grid_reader, IsGridReaderJustOpened, IsSourceReturnedByReader, SourceIsNotAskedAfterEnd, fault_of_reading_result, fault_of_failed_reader, EqualsReadingUnlessOutOfMemory, IsRowInterruptedByFault, OnlyFirstCellsChanged, IsGridReadingFault, ReportsErrorAtTextEnd};
ghost use Rattle.cell_ascii_reading.specs.Scan.{ResultTellsIfSourceFailed, AnyFaultIsOfTextOrSource};
ghost use Rattle.cell_core_values.specs.SmallCells.{cell_of_stored_byte, cells_of_bytes};
ghost use Rattle.cell_ascii_reading.specs.InRange.{DigitWordsDenoteTheirNumber};
ghost use Rattle.cell_ascii.specs.parts.FrontCells.{first_cells_of_bytes_or_row, IsCountOfCellsAtRowStart};
ghost use Rattle.cell_ascii.specs.parts.Unread.{GridReaderHasReadNoRow, IsReaderAtDataStart, MapHoldsAllRemainingRows};

use crate::byte_words::{LEAST_BUFFERED_BYTES_FOR_BLOCK, SPARE_ROW_BYTES, short_words_in};
use crate::opening::{read_header_and_first_word, read_token};
use crate::row_pushing::{push_rows_of_bytes_or_cells, rows_read_per_call};
use crate::short_cells::cells_in;
use crate::word_table::WordTable;
use cell_ascii_lanes::pace::Pace;
use cell_ascii_lanes::run_lanes::has_short_runs;
use cell_ascii_meaning::grid_fault::{GridFault, GridKind};
use cell_ascii_reading::header::Header;
use cell_ascii_reading::scanner::{Scanner, WordOrTextEnd};
use cell_core::cell::Cell;
use cell_core::map::{CellMap, MapBuilder};
use cell_core::memory::Memory;
use cell_core::region::Region;
use cell_core::source::{Asked, Source};
use cell_core_values::small_cells::write_bytes_as_cells;
use std::alloc::Global;
use std::marker::Model;

const OUT_OF_MEMORY_GRID_FAULT: GridFault = GridFault {
    kind: GridKind::Memory,
    line: 0,
};

const FAILED_READER_FAULT: GridFault = GridFault {
    kind: GridKind::Failed,
    line: 0,
};

// Reads the data of a grid text cell by cell.
#[derive(Drop)]
struct CellReader<R: Source> {
    scanner: Scanner<R>,
    words: WordTable,
    waiting: bool,
    pace: Pace,
}

impl<R: Source> Model for CellReader<R> {
    ghost use Rattle.std.specs.Prelude.{Some, None, ◌≤◌, if◌then◌else◌};
    ghost use Rattle.cell_ascii.specs.Reader.{CellReaderValue};

    ghost Value = { CellReaderValue };

    ghost view = { λ r. record { header = r.words; pending = (if r.waiting then Some r.scanner.word else None); line = r.scanner.line; run = r.scanner.run; ahead = r.scanner.ahead } };

    ghost invariant = { λ r. r.scanner.run ≤ 1048576 };
}

// Returns the cell that the scanner's current word denotes.
fn cell_of_current_word<R: Source>(header: &Header, scanner: &Scanner<R>) -> Result<Cell, GridFault>
    ensures { result ≡ result_with_line_in_fault scanner.now.line
        (cell_of_word header.now scanner.now.word) }
{
    let line = scanner.line();
    header
        .cell_of_word(scanner.word())
        .map_err(|kind| GridFault { kind, line })
}

impl<R: Source> CellReader<R> {
    // Opens a source and reads the header and the first word after it.
    fn open(alloc: Global, source: R) -> Result<CellReader<R>, OpeningFaultAndSource<R>>
    where
        R: Drop,
        ensures opened { IfOk result
            (IsReaderAtDataStart (content_to_come (R.supposed source))
            (knowledge_about_new_source (R.asked source))) }
        ensures fault { IfErr result (λ u. HoldsForAgreeingContents
            (content_to_come (R.supposed source))
            (content_to_come (R.supposed u.source))
            (λ c. u.fault.kind ≢ GridKind.Memory → header_of_text c ≡ Err u.fault)) }
        ensures kinds { IfErr result (λ u. IsGridReadingFault u.fault) }
        ensures asked { IfErr result (λ u. SourceIsNotAskedAfterEnd (R.asked source)
            (R.asked u.source)) }
    {
        let mut scanner = match Scanner::new(alloc, source) {
            Ok(scanner) => scanner,
            Err(source) => {
                return Err(OpeningFaultAndSource {
                    fault: OUT_OF_MEMORY_GRID_FAULT,
                    source,
                });
            }
        };
        let (header, waiting) = match read_header_and_first_word(&mut scanner) {
            Ok(opening) => opening,
            Err(fault) => {
                return Err(OpeningFaultAndSource {
                    fault,
                    source: scanner.into_source(),
                });
            }
        };
        let Ok(words) = WordTable::new(alloc, header) else {
            return Err(OpeningFaultAndSource {
                fault: OUT_OF_MEMORY_GRID_FAULT,
                source: scanner.into_source(),
            });
        };
        Ok(CellReader {
            scanner,
            words,
            waiting,
            pace: Pace::new(),
        })
    }

    fn region(&self) -> Region
        ensures { result ≡ self.now.header.region }
    {
        self.words.header().region()
    }

    // Returns the source after its last read.
    fn into_source(self) -> R
        ensures { IsSourceReturnedByReader (R.supposed result) (R.asked result) self.ahead }
    {
        self.scanner.into_source()
    }

    // Reads buffered cells into the start of a row and returns their number.
    #[tactic(auto, using(crate::proofs::WordLemmas::lines_buffered))]
    fn read_buffered_cells_into_row(&mut self, row: &mut [Cell]) -> usize
        requires room { self.old.line + length row.old * 64 < 2 ^ 64 }
        ensures cells { ScanResultsBeforeAndAfterAgree (λ c. items_read_one_after_another
            (next_cell_after_position self.old.header) result
            (position_of_cell_reader self.old c))
            self.old.ahead (λ d. Ok (take result row.new, position_of_cell_reader self.new d))
            self.new.ahead }
        ensures count { result ≤ length row.old }
        ensures rest { drop result row.new ≡ drop result row.old }
        ensures header { self.new.header ≡ self.old.header }
        ensures lines { self.new.line ≤ self.old.line + result * 64 }
        ensures heard { self.new.ahead.heard ≡ self.old.ahead.heard }
    {
        if self.waiting || !self.scanner.is_right_after_word() {
            return 0;
        }
        let (count, n, lines) = cells_in(
            self.scanner.buffered_bytes(),
            &mut self.words,
            row,
            &mut self.pace,
        );
        if count > 0 {
            self.scanner.pass(n);
            self.scanner.count_lines(lines);
        }
        count
    }

    // Reads at most `most` buffered cells into the start of a row, one byte per cell, and returns their number.
    #[tactic(auto, using(crate::proofs::WordLemmas::lines_buffered))]
    fn buffered_bytes(&mut self, row: &mut [u8], most: usize) -> usize
        requires plain { DigitWordsDenoteTheirNumber self.old.header }
        requires lines { self.old.line + most * 64 < 2 ^ 64 }
        requires room { most + 72 ≤ length row.old }
        ensures cells { ScanResultsBeforeAndAfterAgree (λ c. items_read_one_after_another
            (next_cell_after_position self.old.header) result
            (position_of_cell_reader self.old c))
            self.old.ahead (λ d. Ok (
              cells_of_bytes
                  (take result row.new),
              position_of_cell_reader self.new d,
            ))
            self.new.ahead }
        ensures count { result ≤ most }
        ensures header { self.new.header ≡ self.old.header }
        ensures lines { self.new.line ≤ self.old.line + result * 64 }
        ensures heard { self.new.ahead.heard ≡ self.old.ahead.heard }
    {
        if self.waiting || !self.scanner.is_right_after_word() {
            return 0;
        }
        let (count, size, lines) = short_words_in(
            self.scanner.buffered_bytes(),
            row,
            most,
            self.words.header(),
        );
        if count > 0 {
            self.scanner.pass(size);
            self.scanner.count_lines(lines);
        }
        count
    }

    // Returns whether fewer than 72 bytes are buffered, or a word is pending, so that no block can be read.
    fn has_no_block_to_read(&self) -> bool {
        self.waiting || self.scanner.buffered_bytes().len() < LEAST_BUFFERED_BYTES_FOR_BLOCK
    }

    // Reads the next cell, byte by byte.
    fn next_cell(&mut self) -> Result<Cell, GridFault>
        requires room { self.old.line + 1048576 < 2 ^ 64 }
        requires heard { self.old.ahead.heard.failed ≡ false }
        ensures cell { ScanResultsBeforeAndAfterAgree (λ c. next_cell_after_position self.old.header
            (position_of_cell_reader self.old c)) self.old.ahead
            (value_and_position_or_fault result self.new) self.new.ahead }
        ensures header { self.new.header ≡ self.old.header }
        ensures lines { self.new.line ≤ self.old.line + 1048576 }
        ensures kind { AnyFaultIsOfTextOrSource result }
        ensures heard { ResultTellsIfSourceFailed result self.old.ahead self.new.ahead }
    {
        if self.waiting {
            self.waiting = false;
            self.scanner.begin_blank_run();
            return cell_of_current_word(self.words.header(), &self.scanner);
        }
        read_token(&mut self.scanner)?;
        cell_of_current_word(self.words.header(), &self.scanner)
    }

    // Checks that only blanks and line feeds are left.
    fn check_only_blanks_are_left(&mut self) -> Result<(), GridFault>
        requires room { self.old.line + 1048576 < 2 ^ 64 }
        ensures end { ScanResultsBeforeAndAfterAgree (λ c. text_end_or_fault
            (next_word_start self.old.line self.old.run c)) self.old.ahead
            (value_for_any_coming_bytes result) self.new.ahead }
        ensures header { self.new.header ≡ self.old.header }
        ensures kind { AnyFaultIsOfTextOrSource result }
        ensures heard { ResultTellsIfSourceFailed result self.old.ahead self.new.ahead }
    {
        match self.scanner.skip_spaces()? {
            WordOrTextEnd::Word => Err(GridFault {
                kind: GridKind::TooMany,
                line: self.scanner.line(),
            }),
            WordOrTextEnd::End => Ok(()),
        }
    }
}

// Reads a row of cells.
fn read_row<R: Source>(cells: &mut CellReader<R>, row: &mut [Cell]) -> Result<(), GridFault>
    requires room { cells.old.line + length row.old * 1048577 < 2 ^ 63 }
    requires heard { cells.old.ahead.heard.failed ≡ false }
    ensures row { OnOk result (ScanResultsBeforeAndAfterAgree
        (λ c. items_read_one_after_another (next_cell_after_position cells.old.header)
        (length row.old)
        (position_of_cell_reader cells.old c))
        cells.old.ahead (λ d. Ok (row.new, position_of_cell_reader cells.new d)) cells.new.ahead) }
    ensures cut { IfErr result (λ f. HoldsForAgreeingContents
        (bytes_to_come_for_content cells.old.ahead)
        (bytes_to_come_for_content cells.new.ahead)
        (λ c. IsRowInterruptedByFault cells.old.header
        (position_of_cell_reader cells.old c) f row.old row.new)) }
    ensures kept { OnErr result (OnlyFirstCellsChanged row.old row.new) }
    ensures header { cells.new.header ≡ cells.old.header }
    ensures lines { cells.new.line ≤ cells.old.line + length row.old * 1048577 }
    ensures kind { AnyFaultIsOfTextOrSource result }
    ensures heard { ResultTellsIfSourceFailed result cells.old.ahead cells.new.ahead }
{
    let mut i = 0;
    'cells: loop {
        i += cells.read_buffered_cells_into_row(&mut row[i..]);
        if i == row.len() {
            return Ok(());
        }
        let cell = cells.next_cell()?;
        row[i] = cell;
        i += 1;
    }
}

// Returns the byte that stores a cell, if there is one.
fn byte_storing_cell(cell: Cell) -> Option<u8>
    ensures { IfSome result (λ byte. cell_of_stored_byte byte ≡ cell) }
{
    match cell.get() {
        None => Some(u8::MAX),
        Some(category) if category >= 0 && category < u8::MAX as i32 => Some(category as u8),
        Some(_) => None,
    }
}

// Reads cells from the start of a row as bytes until a word is long or a cell has no byte. Returns the number of cells,
// and whether the cells fill the row and are kept as bytes. If not, the cells are written to the start of `row`.
fn read_row_front_as_bytes<R: Source>(
    cells: &mut CellReader<R>,
    bytes: &mut [u8],
    row: &mut [Cell],
) -> Result<(usize, bool), GridFault>
    requires plain { DigitWordsDenoteTheirNumber cells.old.header }
    requires lines { cells.old.line + length row.old * 1048577 < 2 ^ 63 }
    requires bytes { length row.old + 72 ≤ length bytes.old }
    requires heard { cells.old.ahead.heard.failed ≡ false }
    ensures cells { IfOk result (λ front. ScanResultsBeforeAndAfterAgree
        (λ c. items_read_one_after_another (next_cell_after_position cells.old.header) front.0
        (position_of_cell_reader cells.old c)) cells.old.ahead
        (λ d. Ok (
          first_cells_of_bytes_or_row front bytes.new row.new,
          position_of_cell_reader
              cells.new d,
        ))
        cells.new.ahead) }
    ensures front { IfOk result (IsCountOfCellsAtRowStart
        (length row.old) cells.old.line cells.new.line) }
    ensures fault { IfErr result (λ f. HoldsForAgreeingContents
        (bytes_to_come_for_content cells.old.ahead)
        (bytes_to_come_for_content cells.new.ahead)
        (λ c. items_read_one_after_another (next_cell_after_position cells.old.header)
        (length row.old)
        (position_of_cell_reader cells.old c) ≡ Err f)) }
    ensures header { cells.new.header ≡ cells.old.header }
    ensures kind { AnyFaultIsOfTextOrSource result }
    ensures heard { ResultTellsIfSourceFailed result cells.old.ahead cells.new.ahead }
{
    let mut count = 0;
    'cells: loop {
        count += cells.buffered_bytes(&mut bytes[count..], row.len() - count);
        if count == row.len() {
            return Ok((count, true));
        }
        if !cells.has_no_block_to_read() {
            write_bytes_as_cells(&bytes[..count], &mut row[..count]);
            return Ok((count, false));
        }
        let cell = cells.next_cell()?;
        let Some(byte) = byte_storing_cell(cell) else {
            write_bytes_as_cells(&bytes[..count], &mut row[..count]);
            row[count] = cell;
            return Ok((count + 1, false));
        };
        bytes[count] = byte;
        count += 1;
    }
}

// Like `read_row_front_as_bytes`, but reads nothing if an earlier attempt did not pay off.
fn read_row_front_as_bytes_if_useful<R: Source>(
    cells: &mut CellReader<R>,
    bytes: &mut [u8],
    row: &mut [Cell],
) -> Result<(usize, bool), GridFault>
    requires lines { cells.old.line + length row.old * 1048577 < 2 ^ 63 }
    requires some { 0 < length row.old }
    requires bytes { length row.old + 72 ≤ length bytes.old }
    requires heard { cells.old.ahead.heard.failed ≡ false }
    ensures cells { IfOk result (λ front. ScanResultsBeforeAndAfterAgree
        (λ c. items_read_one_after_another (next_cell_after_position cells.old.header) front.0
        (position_of_cell_reader cells.old c)) cells.old.ahead
        (λ d. Ok (
          first_cells_of_bytes_or_row front bytes.new row.new,
          position_of_cell_reader
              cells.new d,
        ))
        cells.new.ahead) }
    ensures front { IfOk result (IsCountOfCellsAtRowStart
        (length row.old) cells.old.line cells.new.line) }
    ensures fault { IfErr result (λ f. HoldsForAgreeingContents
        (bytes_to_come_for_content cells.old.ahead)
        (bytes_to_come_for_content cells.new.ahead)
        (λ c. items_read_one_after_another (next_cell_after_position cells.old.header)
        (length row.old)
        (position_of_cell_reader cells.old c) ≡ Err f)) }
    ensures header { cells.new.header ≡ cells.old.header }
    ensures kind { AnyFaultIsOfTextOrSource result }
    ensures heard { ResultTellsIfSourceFailed result cells.old.ahead cells.new.ahead }
{
    if !cells.words.header().digit_words_denote_their_number() || cells.pace.bytes.left > 0 {
        cells.pace.bytes.pass(row.len());
        return Ok((0, false));
    }
    let front = read_row_front_as_bytes(cells, bytes, row)?;
    let is_of_use = front.1 && has_short_runs(&bytes[..row.len()]);
    cells.pace.bytes.end_trial(is_of_use);
    Ok(front)
}

// Reads a row of cells, as bytes if possible. Returns whether the row was read as bytes.
fn read_row_as_bytes_or_cells<R: Source>(
    cells: &mut CellReader<R>,
    bytes: &mut [u8],
    row: &mut [Cell],
) -> Result<bool, GridFault>
    requires lines { cells.old.line + length row.old * 1048577 < 2 ^ 63 }
    requires some { 0 < length row.old }
    requires bytes { length row.old + 72 ≤ length bytes.old }
    requires heard { cells.old.ahead.heard.failed ≡ false }
    ensures row { IfOk result (λ is_bytes. ScanResultsBeforeAndAfterAgree
        (λ c. items_read_one_after_another (next_cell_after_position cells.old.header)
        (length row.old)
        (position_of_cell_reader cells.old c))
        cells.old.ahead
        (λ d. Ok (
          first_cells_of_bytes_or_row (length row.old, is_bytes) bytes.new row.new,
          position_of_cell_reader cells.new d,
        ))
        cells.new.ahead) }
    ensures fault { IfErr result (λ f. HoldsForAgreeingContents
        (bytes_to_come_for_content cells.old.ahead)
        (bytes_to_come_for_content cells.new.ahead)
        (λ c. items_read_one_after_another (next_cell_after_position cells.old.header)
        (length row.old)
        (position_of_cell_reader cells.old c) ≡ Err f)) }
    ensures header { cells.new.header ≡ cells.old.header }
    ensures lines { OnOk result
        (cells.new.line ≤ cells.old.line + length row.old * 1048577) }
    ensures kind { AnyFaultIsOfTextOrSource result }
    ensures heard { ResultTellsIfSourceFailed result cells.old.ahead cells.new.ahead }
{
    let (count, is_bytes) = read_row_front_as_bytes_if_useful(cells, bytes, row)?;
    if is_bytes {
        return Ok(is_bytes);
    }
    read_row(cells, &mut row[count..])?;
    Ok(false)
}

/// The error of a grid that was not opened, and the source after its last read.
#[derive(Drop)]
pub struct OpeningFaultAndSource<R> {
    /// The first error up to the end of the first token of the data.
    pub fault: GridFault,
    /// The source after its last read.
    pub source: R,
}

/// The result of reading the end of a grid, and the source after its last read.
#[derive(Drop)]
pub struct FinishedGrid<R> {
    /// The first error after the last row, if there is one.
    pub result: Result<(), GridFault>,
    /// The source after its last read.
    pub source: R,
}

/// The result of reading a complete grid, and the source after its last read.
#[derive(Drop)]
pub struct MapRead<R> {
    /// The map that the grid denotes, or the first error.
    pub map: Result<CellMap, GridFault>,
    /// The source after its last read.
    pub source: R,
}

/// Reads the cells of a grid text row by row from the north, after its header.
///
/// The contracts of its methods describe the state of the reader. The contract of [`read_map`] describes the full text.
/// Both are derived from one table that assigns an error to each position.
///
/// Clauses about bytes hold for every supposed content of the source with which its reads agreed. Whether they agreed is
/// known of the source that a call gives back ([`finish`](Self::finish), [`into_source`](Self::into_source)).
///
/// After an error, every call returns `Failed` with line 0.
#[derive(Drop)]
pub struct GridReader<R: Source> {
    cells: CellReader<R>,
    rows_left: u32,
    failed: bool,
}

impl<R: Source> Model for GridReader<R> {
    ghost use Rattle.cell_ascii.specs.GridReaders.{GridReaderValue};
    ghost use Rattle.cell_ascii.specs.Reader.{grid_reader_at_cell_position, ReaderCanContinue};

    ghost Value = { GridReaderValue };

    ghost view = { λ r. grid_reader_at_cell_position r.cells r.rows_left r.failed };

    ghost invariant = { λ r. ReaderCanContinue (grid_reader_at_cell_position r.cells r.rows_left r.failed) };
}

impl<R: Source> GridReader<R> {
    /// Reads the header of a text and the first token of its data. The token is checked later, when its cell is read
    /// (r.in.ascii manual).
    ///
    /// # Errors
    ///
    /// Returns the first error up to the end of that token, with its line, or `Memory` with line 0 if memory runs out.
    /// The source is returned with it.
    pub fn open(alloc: Global, source: R) -> Result<GridReader<R>, OpeningFaultAndSource<R>>
    where
        R: Drop,
        ensures opened { IfOk result (IsGridReaderJustOpened
            (content_to_come (R.supposed source))) }
        ensures whole { IfOk result (λ r. (r.rows_left ≡ r.header.region.rows)
            × (r.failed ≡ false)) }
        ensures fault { IfErr result (λ u. HoldsForAgreeingContents
            (content_to_come (R.supposed source))
            (content_to_come (R.supposed u.source))
            (λ c. u.fault.kind ≢ GridKind.Memory
            → first_fault_up_to_first_data_token c ≡ Some u.fault)) }
        ensures kinds { IfErr result (λ u. IsGridReadingFault u.fault) }
        // The reader stops asking the source after its end or an `Err`, and reports an `Err` as `Read`. Neither has
        // occurred so far.
        ensures heard { IfOk result (λ r. r.ahead.heard
            ≡ knowledge_about_new_source (R.asked source)) }
        ensures asked { IfErr result (λ u. SourceIsNotAskedAfterEnd (R.asked source)
            (R.asked u.source)) }
    {
        let cells = CellReader::open(alloc, source)?;
        let rows_left = cells.region().rows();
        Ok(GridReader {
            cells,
            rows_left,
            failed: false,
        })
    }

    /// Returns the region given by the header.
    pub fn region(&self) -> Region
        ensures { result ≡ self.now.header.region }
    {
        self.cells.region()
    }

    /// Returns the number of unread rows.
    pub fn rows_left(&self) -> u32
        ensures { result ≡ self.now.rows_left }
    {
        self.rows_left
    }

    /// Reads the next row, from west to east, into a slice with one cell per column. Returns whether a row was left; if
    /// not, the slice is unchanged. Does not allocate.
    ///
    /// # Errors
    ///
    /// Returns the first error up to the end of the row, with its line. The slice then starts with the cells read
    /// before the error, and the rest is unchanged. Returns `Failed` with line 0, and leaves the slice unchanged, if an
    /// earlier call failed.
    pub fn next_row(&mut self, row: &mut [Cell]) -> Result<bool, GridFault>
        requires width { length row.old ≡ self.old.header.region.cols }
        ensures failed { self.old.failed ≡ true
            → (result ≡ Err fault_of_failed_reader) × (row.new ≡ row.old) × (self.new ≡ self.old) }
        ensures none { self.old.failed ≡ false → self.old.rows_left ≡ 0
            → (result ≡ Ok false) × (row.new ≡ row.old) × (self.new ≡ self.old) }
        ensures reported { self.old.failed ≡ false → 0 < self.old.rows_left
            → HoldsForAgreeingContents (bytes_to_come_for_content self.old.ahead)
            (bytes_to_come_for_content self.new.ahead)
            (λ c. fault_of_reading_result result
            ≡ first_fault_of_next_cells self.old.header (length row.old)
            (position_of_grid_reader self.old c)) }
        ensures row { result ≡ Ok true → EqualBeforeAndAfterReads
            (λ c. items_read_one_after_another (next_cell_after_position self.old.header)
            (length row.old)
            (position_of_grid_reader self.old c))
            (bytes_to_come_for_content self.old.ahead)
            (λ d. Ok (row.new, position_of_grid_reader self.new d))
            (bytes_to_come_for_content self.new.ahead) }
        ensures cut { IfErr result (λ f. self.old.failed ≡ false
            → HoldsForAgreeingContents (bytes_to_come_for_content self.old.ahead)
            (bytes_to_come_for_content self.new.ahead)
            (λ c. IsRowInterruptedByFault self.old.header
            (position_of_grid_reader self.old c) f row.old row.new)) }
        ensures kept { OnErr result (self.old.failed ≡ false
            → OnlyFirstCellsChanged row.old row.new) }
        ensures left { result ≡ Ok true → self.new.rows_left + 1 ≡ self.old.rows_left }
        ensures stays { result ≢ Ok true → self.new.rows_left ≡ self.old.rows_left }
        ensures last { result ≡ Ok false → self.old.rows_left ≡ 0 }
        ensures header { self.new.header ≡ self.old.header }
        ensures fails { self.new.failed ≡ (self.old.failed || is_err result) }
        ensures memory { IfErr result (λ f. f.kind ≢ GridKind.Memory) }
        ensures kinds { self.old.failed ≡ false → AnyFaultIsOfTextOrSource result }
        // The reader stops asking the source after its end or an `Err`, and reports an `Err` as `Read`.
        ensures heard { self.old.failed ≡ false
            → self.new.ahead.heard ≡ source_knowledge_after_calls
            (reports_failed_read result) self.old.ahead.heard }
    {
        if self.failed {
            return Err(FAILED_READER_FAULT);
        }
        if self.rows_left == 0 {
            return Ok(false);
        }
        match read_row(&mut self.cells, row) {
            Ok(()) => {
                self.rows_left -= 1;
                Ok(true)
            }
            Err(fault) => {
                self.failed = true;
                Err(fault)
            }
        }
    }

    /// Checks that only blanks and line feeds follow the last row. Does not allocate.
    ///
    /// # Errors
    ///
    /// Returns the first error after the last row, with its line, or `Failed` with line 0 if an earlier call failed.
    pub fn finish(self) -> FinishedGrid<R>
    where
        R: Drop,
        requires done { self.failed ≡ false → self.rows_left ≡ 0 }
        ensures end { ReportsErrorAtTextEnd self result.result
            (content_to_come (R.supposed result.source)) }
        ensures asked { self.ahead.heard.sure ≡ true → R.asked result.source ≢ Asked.Again }
    {
        let mut reader = self;
        let result = reader.end();
        FinishedGrid {
            result,
            source: reader.into_source(),
        }
    }

    /// Returns the source after its last read.
    pub fn into_source(self) -> R
        ensures { IsSourceReturnedByReader (R.supposed result) (R.asked result) self.ahead }
    {
        self.cells.into_source()
    }

    // Reads to the end of the text after the last row, and marks the reader as failed.
    fn end(&mut self) -> Result<(), GridFault>
        requires done { self.old.failed ≡ false → self.old.rows_left ≡ 0 }
        ensures end { ReportsErrorAtTextEnd self.old result
            (bytes_to_come_for_content self.new.ahead) }
        ensures heard { self.old.failed ≡ false
            → self.new.ahead.heard ≡ source_knowledge_after_calls
            (reports_failed_read result) self.old.ahead.heard }
        ensures sure { self.new.ahead.heard.sure ≡ self.old.ahead.heard.sure }
    {
        if self.failed {
            return Err(FAILED_READER_FAULT);
        }
        self.failed = true;
        self.cells.check_only_blanks_are_left()
    }
}

// Reads the next `rows` rows, or all remaining rows if there are fewer, as bytes if possible. Returns whether they were
// read as bytes.
fn next_rows_as_bytes_or_cells<R: Source>(
    reader: &mut GridReader<R>,
    rows: u32,
    bytes: &mut [u8],
    row: &mut [Cell],
) -> Result<bool, GridFault>
    requires live { reader.old.failed ≡ false }
    requires some { 0 < rows }
    requires left { rows ≤ reader.old.rows_left }
    requires width { length row.old ≡ rows * reader.old.header.region.cols }
    requires bytes { length row.old + 72 ≤ length bytes.old }
    ensures row { IfOk result (λ is_bytes. EqualBeforeAndAfterReads
        (λ c. items_read_one_after_another (next_cell_after_position reader.old.header)
        (length row.old)
        (position_of_grid_reader reader.old c))
        (bytes_to_come_for_content reader.old.ahead) (λ d. Ok (
          first_cells_of_bytes_or_row (length row.old, is_bytes) bytes.new row.new,
          position_of_grid_reader reader.new d,
        )) (bytes_to_come_for_content reader.new.ahead)) }
    ensures fault { IfErr result (λ f. HoldsForAgreeingContents
        (bytes_to_come_for_content reader.old.ahead)
        (bytes_to_come_for_content reader.new.ahead)
        (λ c. items_read_one_after_another (next_cell_after_position reader.old.header)
        (length row.old)
        (position_of_grid_reader reader.old c)
        ≡ Err f)) }
    ensures left { OnOk result (reader.new.rows_left + rows ≡ reader.old.rows_left) }
    ensures live { OnOk result (reader.new.failed ≡ false) }
    ensures header { reader.new.header ≡ reader.old.header }
    ensures kinds { AnyFaultIsOfTextOrSource result }
    ensures heard { reader.new.ahead.heard ≡ source_knowledge_after_calls
        (reports_failed_read result) reader.old.ahead.heard }
{
    match read_row_as_bytes_or_cells(&mut reader.cells, bytes, row) {
        Ok(is_bytes) => {
            reader.rows_left -= rows;
            Ok(is_bytes)
        }
        Err(fault) => {
            reader.failed = true;
            Err(fault)
        }
    }
}

// Reads the remaining rows into a map.
fn read_remaining_rows<R: Source>(
    alloc: Global,
    reader: &mut GridReader<R>,
) -> Result<CellMap, GridFault>
    requires { GridReaderHasReadNoRow reader.old }
    ensures rows { IfOk result (λ m. MapHoldsAllRemainingRows m reader.old reader.new) }
    ensures fault { IfErr result (λ f. HoldsForAgreeingContents
        (bytes_to_come_for_content reader.old.ahead)
        (bytes_to_come_for_content reader.new.ahead) (λ c. f.kind ≢ GridKind.Memory
        → rows_read_from_position reader.old.header (position_of_grid_reader reader.old c)
        ≡ Err f)) }
    ensures kinds { IfErr result IsGridReadingFault }
    ensures heard { reader.new.ahead.heard ≡ source_knowledge_after_calls
        (reports_failed_read result) reader.old.ahead.heard }
{
    let region = reader.region();
    let cols = region.cols() as usize;
    let band = rows_read_per_call(region);
    let size = band as usize * cols;
    let Ok(mut cell_buffer) = vec![in alloc; Cell::null(); size] else {
        return Err(OUT_OF_MEMORY_GRID_FAULT);
    };
    let Ok(mut byte_buffer) = vec![in alloc; 0u8; size + SPARE_ROW_BYTES] else {
        return Err(OUT_OF_MEMORY_GRID_FAULT);
    };
    let cells = cell_buffer.as_mut_slice();
    let bytes = byte_buffer.as_mut_slice();
    let mut builder = MapBuilder::new(alloc, region);
    'rows: while reader.rows_left() > 0 {
        let count = band.min(reader.rows_left());
        let part = &mut cells[..count as usize * cols];
        let is_bytes = next_rows_as_bytes_or_cells(reader, count, bytes, part)?;
        match push_rows_of_bytes_or_cells(&mut builder, count, cols, is_bytes, bytes, part) {
            Ok(()) => {}
            Err(_) => return Err(OUT_OF_MEMORY_GRID_FAULT),
        }
    }
    Ok(builder.finish())
}

// Reads all rows of a text after its header, then its end.
fn read_all_rows_and_end<R: Source>(
    alloc: Global,
    reader: &mut GridReader<R>,
) -> Result<CellMap, GridFault>
    requires { GridReaderHasReadNoRow reader.old }
    ensures reading { (text : ComingBytes → Option ComingBytes)
        → IsGridReaderJustOpened text reader.old
        → HoldsForAgreeingContents text (bytes_to_come_for_content reader.new.ahead)
        (λ c. EqualsReadingUnlessOutOfMemory result (map_denoted_by_text c)) }
    ensures kinds { IfErr result IsGridReadingFault }
    // The reader stops asking the source after its end or an `Err`, and reports an `Err` as `Read`.
    ensures heard { reader.new.ahead.heard ≡ source_knowledge_after_calls
        (reports_failed_read result) reader.old.ahead.heard }
{
    let map = read_remaining_rows(alloc, reader)?;
    match reader.end() {
        Ok(()) => Ok(map),
        Err(fault) => Err(fault),
    }
}

/// Reads a complete grid. Returns the map that it denotes (r.in.ascii manual), and the source after its last read.
///
/// The clauses hold for every supposed content with which the reads of the source agreed. There is such a content,
/// because the source is not asked after its end or an `Err`.
///
/// # Errors
///
/// Returns the text's first error with its line, or `Memory` with line 0 if memory runs out.
pub fn read_map<R: Source + Drop>(alloc: Global, source: R) -> MapRead<R>
    ensures map { IfOk result.map (λ m. HoldsForAgreeingContents
        (content_to_come (R.supposed source))
        (content_to_come (R.supposed result.source)) (λ c. SourceDenotesMap c m)) }
    ensures fault { IfErr result.map (λ f. f.kind ≢ GridKind.Memory
        → HoldsForAgreeingContents (content_to_come (R.supposed source))
        (content_to_come (R.supposed result.source))
        (λ c. first_fault_of_text c ≡ Some f)) }
    ensures kinds { IfErr result.map IsGridReadingFault }
    ensures reading { HoldsForAgreeingContents (content_to_come (R.supposed source))
        (content_to_come (R.supposed result.source))
        (λ c. EqualsReadingUnlessOutOfMemory result.map (map_denoted_by_text c)) }
    ensures asked { SourceIsNotAskedAfterEnd (R.asked source) (R.asked result.source) }
{
    let mut reader = match GridReader::open(alloc, source) {
        Ok(reader) => reader,
        Err(unopened) => {
            return MapRead {
                map: Err(unopened.fault),
                source: unopened.source,
            };
        }
    };
    let map = read_all_rows_and_end(alloc, &mut reader);
    MapRead {
        map,
        source: reader.into_source(),
    }
}
