//! Tests of grids read call by call, in pieces of seven bytes.

use cell_ascii::grid_fault::{GridFault, GridKind};
use cell_ascii::grid_reader::GridReader;
use cell_core::cell::Cell;
use cell_core::source::{MemorySource, ReadSource, Source};
use cell_core_test_maps::assert_same;
use std::alloc::{AllocGlobal, Global};
use std::cell;
use std::io::{self, ErrorKind, Read};
use std::process::Abort;
use std::test::Fail;

const FAILED: GridFault = GridFault {
    kind: GridKind::Failed,
    line: 0,
};

fn reader_of<S: Source + Drop>(alloc: Global, source: S) -> Result<GridReader<S>, GridFault> {
    match GridReader::open(alloc, source) {
        Ok(reader) => Ok(reader),
        Err(unopened) => Err(unopened.fault),
    }
}

fn open<R: AllocGlobal>(rt: &R, text: &[u8]) -> Result<GridReader<MemorySource>, Fail> {
    let bytes = text.to_vec(rt.alloc())?;
    Ok(reader_of(rt.alloc(), MemorySource::new(bytes, 7, false))?)
}

fn expect_cells<R: Abort>(rt: &R, row: &[Cell], categories: &[i32]) {
    assert_same!(rt; row.len(), categories.len());
    for (cell, category) in row.iter().zip(categories.iter()) {
        assert_same!(rt; cell.get(), Some(*category));
    }
}

#[test]
fn stops_at_a_bad_cell(rt: HostRuntime) -> Result<(), Fail> {
    let text =
        b"north: 3\nsouth: 0\neast: 4\nwest: 0\nrows: 3\ncols: 4\n1 1 2 *\n1 2 2 2\n3 3 x 1\n";
    let mut reader = open(&rt, text)?;
    let mut cells = vec![in rt.alloc(); Cell::null(); reader.region().cols() as usize]?;
    let row = cells.as_mut_slice();
    assert_same!(rt; reader.rows_left(), 3);
    assert_same!(rt; reader.next_row(row), Ok(true));
    assert_same!(rt; reader.next_row(row), Ok(true));
    let Err(fault) = reader.next_row(row) else {
        panic!(rt; "a bad cell was read");
    };
    let kind = GridKind::BadCell;
    assert_same!(rt; fault, GridFault { kind, line: 9 });
    assert_same!(rt; reader.rows_left(), 1);
    let Err(again) = reader.next_row(row) else {
        panic!(rt; "a reader that failed goes on");
    };
    assert_same!(rt; again, FAILED);
    expect_cells(&rt, row, &[3, 3, 2, 2]);
    assert_same!(rt; reader.finish().result, Err(FAILED));
    Ok(())
}

#[test]
fn reports_that_a_row_is_missing(rt: HostRuntime) -> Result<(), Fail> {
    let six = b"north: 3\nsouth: 0\neast: 4\nwest: 0\nrows: 3\ncols: 4\n";
    let mut reader = open(&rt, six)?;
    let mut cells = vec![in rt.alloc(); Cell::null(); reader.region().cols() as usize]?;
    let kind = GridKind::TooFew;
    let few = reader.next_row(cells.as_mut_slice());
    assert_same!(rt; few, Err(GridFault { kind, line: 7 }));
    Ok(())
}

#[test]
fn reads_rows_to_the_end(rt: HostRuntime) -> Result<(), Fail> {
    let one = b"north: 1\nsouth: 0\neast: 1\nwest: 0\nrows: 1\ncols: 1\n7\n8";
    let mut reader = open(&rt, one)?;
    let mut cells = vec![in rt.alloc(); Cell::null(); reader.region().cols() as usize]?;
    assert_same!(rt; reader.next_row(cells.as_mut_slice()), Ok(true));
    let Ok(false) = reader.next_row(cells.as_mut_slice()) else {
        panic!(rt; "a row behind the last");
    };
    let kind = GridKind::TooMany;
    assert_same!(rt; reader.finish().result, Err(GridFault { kind, line: 8 }));
    Ok(())
}

// A reader that returns one byte per call and fails at an index, or otherwise continues forever. It counts its calls.
#[derive(Drop)]
struct Counting<'a> {
    text: &'a [u8],
    fails_at: usize,
    calls: &'a cell::Cell<usize>,
}

impl<'a> Read for Counting<'a> {
    fn read(&mut self, buf: &mut [u8]) -> io::Result<usize> {
        let call = self.calls.get();
        self.calls.set(call.saturating_add(1));
        if call == self.fails_at {
            return Err(ErrorKind::Other.into());
        }
        let count = buf.len().min(1);
        buf[..count].fill(self.text.get(call).copied().unwrap_or(b'1'));
        Ok(count)
    }
}

#[test]
fn a_source_is_not_asked_after_it_failed(rt: HostRuntime) -> Result<(), Fail> {
    let text =
        b"north: 3\nsouth: 0\neast: 4\nwest: 0\nrows: 3\ncols: 4\n1 1 2 *\n1 2 2 2\n3 3 1 1\n";
    let calls = cell::Cell::new(0);
    let source = ReadSource::new(Counting {
        text,
        fails_at: 60,
        calls: &calls,
    });
    let mut reader = reader_of(rt.alloc(), source)?;
    let mut cells = vec![in rt.alloc(); Cell::null(); reader.region().cols() as usize]?;
    let row = cells.as_mut_slice();
    assert_same!(rt; reader.next_row(row), Ok(true));
    let kind = GridKind::Read;
    let fault = GridFault { kind, line: 8 };
    assert_same!(rt; (reader.next_row(row), calls.get()), (Err(fault), 61));
    let Err(again) = reader.next_row(row) else {
        panic!(rt; "a reader that failed goes on");
    };
    assert_same!(rt; (again, reader.finish().result, calls.get()), (FAILED, Err(FAILED), 61));
    Ok(())
}

// A header with an unknown key, which is read after six pieces of seven bytes.
const BAD_HEADER: &[u8] = b"north: 3\nsouth: 0\neast: 4\nwest: 0\nkind: 3\ncols: 4\n";

#[test]
fn a_source_comes_back_after_its_last_read(rt: HostRuntime) -> Result<(), Fail> {
    let source = MemorySource::new(BAD_HEADER.to_vec(rt.alloc())?, 7, false);
    let Err(unopened) = GridReader::open(rt.alloc(), source) else {
        panic!(rt; "a header with an unknown key was read");
    };
    let kind = GridKind::BadHeader;
    assert_same!(rt; unopened.fault, GridFault { kind, line: 5 });
    let mut source = unopened.source;
    let mut bytes = [0u8; 7];
    assert_same!(rt; source.take(&mut bytes), Ok(7));
    assert!(rt;
        bytes.as_slice() == &BAD_HEADER[42..49],
        "the source is not where reading stopped"
    );
    Ok(())
}
