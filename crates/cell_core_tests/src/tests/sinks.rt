//! Tests of sinks: how many bytes a call accepts, and that an `Err` is reported once.

use super::devices::{Device, Step};
use cell_core::device::DeviceFault;
use cell_core::sink::{MemorySink, Sink, WriteFault, WriteSink, put_bytes};
use cell_core_test_maps::assert_same;
use std::io::ErrorKind;
use std::test::Fail;

#[test]
fn fills_memory(rt: HostRuntime) -> Result<(), Fail> {
    let mut sink = MemorySink::new(vec![in rt.alloc(); 0u8; 5]?, 1, true);
    assert_same!(rt;
        put_bytes(&mut sink, b"1 5\n2 4\n"),
        Err(WriteFault { written: 5 })
    );
    assert_same!(rt; sink.bytes(), b"1 5\n2".as_slice());
    assert_same!(rt; put_bytes(&mut sink, b""), Ok(()));
    assert_same!(rt; sink.flush(), Err(DeviceFault));
    let mut sink = MemorySink::new(vec![in rt.alloc(); 0u8; 5]?, 2, false);
    assert_same!(rt; put_bytes(&mut sink, b"1 5\n2"), Ok(()));
    assert_same!(rt; sink.flush(), Ok(()));
    Ok(())
}

#[test]
fn asks_a_writer_once_a_call(rt: HostRuntime) {
    let mut sink = WriteSink::new(Device::new(&[
        Step::Refuses(ErrorKind::Interrupted),
        Step::Moves(2),
        Step::Moves(0),
        Step::Refuses(ErrorKind::Other),
    ]));
    assert_same!(rt; sink.put(b"xxx"), Err(DeviceFault));
    assert_same!(rt; sink.put(b"xxx"), Ok(2));
    assert_same!(rt; sink.put(b"xxx"), Err(DeviceFault));
    assert_same!(rt; sink.put(b"xxx"), Err(DeviceFault));
    assert_same!(rt; sink.put(b"xxx"), Ok(3));
    assert_same!(rt; sink.put(b"y"), Err(DeviceFault));
}

#[test]
fn flushes_the_writer(rt: HostRuntime) {
    let mut sink = WriteSink::new(Device::new(&[Step::Refuses(ErrorKind::Other), Step::Moves(0)]));
    assert_same!(rt; sink.flush(), Err(DeviceFault));
    assert_same!(rt; sink.flush(), Ok(()));
    assert_same!(rt; sink.put(b"x"), Ok(1));
}
