//! Defines `assert_same!`, which is `assert_eq!` as calls, so that a comparison and its message are not proved again at
//! each use.

use arrayvec::ArrayString;
use std::fmt::{Debug, Display, Write};

/// Maximum length of the message of a failed comparison in bytes.
pub const MOST_FAILURE_MESSAGE_BYTES: usize = 1000;

/// Compares a value with the expected one.
///
/// # Errors
///
/// Returns the note and both values as text if the values differ. The text ends early if it would be too long.
pub fn compare_with_expected<N: Display + Drop, T: PartialEq + Debug>(
    note: N,
    found: &T,
    wanted: &T,
) -> Result<(), ArrayString<MOST_FAILURE_MESSAGE_BYTES>> {
    if *found == *wanted {
        return Ok(());
    }
    let mut message = ArrayString::new();
    let _ = write!(message, "{note}: {found:?}, and not {wanted:?}");
    Err(message)
}

/// Asserts that the result equals the expected one.
#[macro_export]
macro_rules! assert_same {
    ($rt:expr; $found:expr, $wanted:expr $(,)?) => {
        $crate::assert_same!($rt; $found, $wanted, "{}", stringify!($found))
    };
    ($rt:expr; $found:expr, $wanted:expr, $($note:tt)+) => {
        $crate::assertions::compare_with_expected(format_args!($($note)+), &$found, &$wanted)
            .expect(&$rt, "assertion failed")
    };
}
