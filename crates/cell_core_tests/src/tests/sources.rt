//! Tests of sources: the bytes that a call returns, and that an `Err` is reported once and leaves the slice unchanged.

use super::devices::{Device, Step};
use cell_core::device::DeviceFault;
use cell_core::source::{MemorySource, ReadSource, Source};
use cell_core_test_maps::assert_same;
use std::io::ErrorKind;
use std::test::Fail;

#[test]
fn gives_memory_in_pieces(rt: HostRuntime) -> Result<(), Fail> {
    for fails in [false, true] {
        let mut block = *b"12345678";
        let mut source = MemorySource::new(b"abc".as_slice().to_vec(rt.alloc())?, 2, fails);
        assert_same!(rt; source.take(&mut block), Ok(2));
        assert_same!(rt; (source.take(&mut block), &block), (Ok(1), b"cb345678"));
        let last = if fails { Err(DeviceFault) } else { Ok(0) };
        for _ in 0..2 {
            assert_same!(rt; (source.take(&mut block), &block), (last, b"cb345678"));
        }
    }
    Ok(())
}

#[test]
fn asks_a_reader_once_a_call(rt: HostRuntime) {
    let mut block = *b"1234";
    let mut source = ReadSource::new(Device::new(&[
        Step::Refuses(ErrorKind::Interrupted),
        Step::Moves(3),
        Step::Refuses(ErrorKind::Other),
        Step::Moves(0),
    ]));
    assert_same!(rt; (source.take(&mut block), &block), (Err(DeviceFault), b"1234"));
    assert_same!(rt; (source.take(&mut block), &block), (Ok(3), b"xxx4"));
    assert_same!(rt; source.take(&mut block), Err(DeviceFault));
    assert_same!(rt; source.take(&mut block), Ok(0));
    assert_same!(rt; source.take(&mut block), Ok(4));
}
