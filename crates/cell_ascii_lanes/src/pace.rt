//! Chooses how cells are read next.

// A way that did not pay off is skipped for this many cells. The wait doubles each time, up to LAST_WAIT.
const FIRST_WAIT: usize = 16;

const LAST_WAIT: usize = 4096;

// Like FIRST_WAIT and LAST_WAIT, for rows that are read as bytes.
const FIRST_BYTES_WAIT: usize = 1 << 14;

const LAST_BYTES_WAIT: usize = 1 << 18;

// Repetition pays off if it yields more than this many cells.
const MANY_CELLS: usize = 64;

// Number of words looked up to test whether lookup pays off again.
const FEW_WORDS: usize = 16;

/// A way to read cells.
#[derive(Clone, Copy)]
pub enum Way {
    /// Reads each repeated word once.
    Repeated,
    /// Looks words up in the table of words read before.
    Sought,
    /// Converts numbers digit by digit.
    Digits,
    /// Reads words one by one, for example at the end of the buffer.
    Single,
}

/// Counts how long a way of reading is paused.
#[derive(Drop)]
pub struct Pause {
    /// Number of cells until the next trial.
    pub left: usize,
    // Number of cells to wait after the next failed trial.
    next: usize,
    // Shortest and longest wait.
    first: usize,
    last: usize,
}

impl Pause {
    fn new(first: usize, last: usize) -> Pause {
        Pause {
            left: 0,
            next: first,
            first,
            last,
        }
    }

    /// Ends a trial of the way and sets the next wait.
    pub fn end_trial(&mut self, is_of_use: bool) {
        if is_of_use {
            self.next = self.first;
        } else {
            self.left = self.next;
            self.next = self.next.saturating_mul(2).min(self.last);
        }
    }

    /// Counts `count` cells that were read in other ways.
    pub fn pass(&mut self, count: usize) {
        self.left = self.left.saturating_sub(count);
    }
}

/// Chooses how cells are read next. A way that did not pay off is tried less and less often. The choice never affects
/// the result.
#[derive(Drop)]
pub struct Pace {
    repeated: Pause,
    sought: Pause,
    /// The pause in reading rows as bytes.
    pub bytes: Pause,
}

impl Pace {
    /// Returns the pace of a new reader, which may try every way.
    pub fn new() -> Pace {
        Pace {
            repeated: Pause::new(FIRST_WAIT, LAST_WAIT),
            sought: Pause::new(FIRST_WAIT, LAST_WAIT),
            bytes: Pause::new(FIRST_BYTES_WAIT, LAST_BYTES_WAIT),
        }
    }

    /// Returns the way to read next and the maximum number of cells. The last try reads cells one by one.
    pub fn next_way(&self, tries: usize) -> (Way, usize) {
        if tries == 1 {
            return (Way::Single, usize::MAX);
        }
        if self.repeated.left == 0 {
            return (Way::Repeated, usize::MAX);
        }
        if self.sought.left > 0 {
            return (Way::Digits, self.sought.left.min(self.repeated.left));
        }
        if self.sought.next == FIRST_WAIT {
            (Way::Sought, self.repeated.left)
        } else {
            (Way::Sought, FEW_WORDS.min(self.repeated.left))
        }
    }

    /// Records that `way` read `count` cells and failed to find `missed` of their words in the table. `ends_row` means
    /// that the last of these cells is the last of its row.
    pub fn pass(&mut self, way: Way, count: usize, missed: usize, ends_row: bool) {
        self.repeated.pass(count);
        match way {
            Way::Repeated if count > MANY_CELLS || !ends_row => {
                self.repeated.end_trial(count > MANY_CELLS);
            }
            Way::Sought if count > 0 => self.sought.end_trial(missed <= count / 2),
            Way::Digits => self.sought.pass(count),
            _ => {}
        }
    }
}
