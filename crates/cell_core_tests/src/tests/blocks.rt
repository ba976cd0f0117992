//! Tests of blocks: when gathered bytes are written, and which of them a full sink accepts.

use cell_core::block::OutputBlock;
use cell_core::sink::MemorySink;
use cell_core_test_maps::assert_same;
use std::alloc::Global;
use std::test::Fail;

// Pushes `count` equal bytes. Returns how many bytes the block has counted, and how many the sink has accepted.
fn pushed(
    alloc: Global,
    block: &mut OutputBlock,
    sink: &mut MemorySink,
    byte: u8,
    count: usize,
) -> Result<(u64, usize), Fail> {
    let bytes = vec![in alloc; byte; count]?;
    block.push(sink, bytes.as_slice());
    Ok((block.written(), sink.bytes().len()))
}

// A byte, how many times it is pushed, and the number of bytes that the sink has accepted afterwards.
const PUSHES: [(u8, usize, usize); 5] = [
    (b'a', 4000, 0),
    (b'b', 96, 0),
    (b'c', 1, 4096),
    (b'd', 5000, 9097),
    (b'e', 1, 9097),
];

// The first and the last index of each pushed byte in the output.
const ENDS: [(usize, u8); 8] = [
    (0, b'a'),
    (3999, b'a'),
    (4000, b'b'),
    (4095, b'b'),
    (4096, b'c'),
    (4097, b'd'),
    (9096, b'd'),
    (9097, b'e'),
];

#[test]
fn puts_out_what_is_more_than_a_block(rt: HostRuntime) -> Result<(), Fail> {
    let mut sink = MemorySink::new(vec![in rt.alloc(); 0u8; 10000]?, 7, false);
    let mut block = OutputBlock::new();
    for &(byte, count, out) in &PUSHES {
        let found = pushed(rt.alloc(), &mut block, &mut sink, byte, count)?;
        assert_same!(rt; found, (out as u64, out), "{count} bytes {byte}");
    }
    block.empty(&mut sink);
    assert_same!(rt; (block.outcome(), block.written()), (Ok(()), 9098));
    for &(place, byte) in &ENDS {
        assert_same!(rt;
            sink.bytes().get(place).copied(),
            Some(byte),
            "byte {place}"
        );
    }
    Ok(())
}
