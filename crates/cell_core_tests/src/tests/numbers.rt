//! Tests of digits and whole numbers.

use cell_core_test_maps::assert_same;
use cell_core_values::whole_numbers::{
    WholeNumberFault, are_digits, is_digit, is_in_category_range, read_whole_number,
    value_of_digits, whole_number_in_category_range, whole_number_of_text,
};
use std::test::Fail;

const NUMBERS: [(&[u8], Result<i32, WholeNumberFault>); 22] = [
    (b"0", Ok(0)),
    (b"-0", Ok(0)),
    (b"+7", Ok(7)),
    (b"007", Ok(7)),
    (b"0000000000000000000000000000000001", Ok(1)),
    (b"2147483647", Ok(2147483647)),
    (b"-2147483647", Ok(-2147483647)),
    (b"2147483648", Err(WholeNumberFault::OutOfRange)),
    (b"-2147483648", Err(WholeNumberFault::OutOfRange)),
    (b"18446744073709551616", Err(WholeNumberFault::OutOfRange)),
    (b"-18446744073709551615", Err(WholeNumberFault::OutOfRange)),
    (
        b"340282366920938463463374607431768211457",
        Err(WholeNumberFault::OutOfRange),
    ),
    (b"", Err(WholeNumberFault::NotWhole)),
    (b"-", Err(WholeNumberFault::NotWhole)),
    (b"+", Err(WholeNumberFault::NotWhole)),
    (b"+-1", Err(WholeNumberFault::NotWhole)),
    (b"1-", Err(WholeNumberFault::NotWhole)),
    (b"1.0", Err(WholeNumberFault::NotWhole)),
    (b" 1", Err(WholeNumberFault::NotWhole)),
    (b"1 ", Err(WholeNumberFault::NotWhole)),
    (b"0x1", Err(WholeNumberFault::NotWhole)),
    (b"1\0", Err(WholeNumberFault::NotWhole)),
];

#[test]
fn reads_whole_numbers(rt: HostRuntime) -> Result<(), Fail> {
    for (text, wanted) in &NUMBERS {
        assert!(rt; read_whole_number(*text) == *wanted, "the text {text:?}");
        assert_same!(rt; whole_number_in_category_range(*text), wanted.ok(), "the text {text:?}");
        assert_same!(rt;
            whole_number_of_text(*text).is_some(),
            *wanted != Err(WholeNumberFault::NotWhole),
            "the text {text:?}"
        );
    }
    Ok(())
}

#[test]
fn ten_bytes_are_digits(rt: HostRuntime) {
    for byte in 0..=255u8 {
        assert_same!(rt;
            is_digit(byte),
            b"0123456789".contains(&byte),
            "the byte {byte}"
        );
    }
}

#[test]
fn values_stop_at_a_bound(rt: HostRuntime) -> Result<(), Fail> {
    let table: [(&[u8], u64); 6] = [
        (b"", 0),
        (b"0", 0),
        (b"0042", 42),
        (b"999999999999999999", 999999999999999999),
        (b"1000000000000000000", 1000000000000000000),
        (b"18446744073709551617", 1000000000000000000),
    ];
    for &(digits, wanted) in &table {
        assert!(rt; are_digits(digits), "the text {digits:?}");
        assert_same!(rt; value_of_digits(digits), wanted, "the text {digits:?}");
    }
    assert!(rt; !are_digits(b"12a"));
    assert_same!(rt;
        whole_number_of_text(b"-18446744073709551617"),
        Some(-1000000000000000000)
    );
    assert!(rt; is_in_category_range(-2147483647) && is_in_category_range(2147483647));
    assert!(rt; !is_in_category_range(-2147483648) && !is_in_category_range(2147483648));
    Ok(())
}
