//! Reads bytes from sources, writes bytes to sinks, and gathers output in blocks.
//!
//! - `source`: the trait `Source`; `ReadSource` wraps a reader of std, `MemorySource` reads from memory
//! - `sink`: the trait `Sink`; `WriteSink` wraps a writer of std, `MemorySink` writes to memory;
//!   `put_bytes` writes a full slice, or returns how many bytes were written as a `WriteFault`
//! - `block`: `OutputBlock` gathers up to 4096 bytes per put and remembers a failed put, so that
//!   functions that write return nothing
//! - `device`: `DeviceFault`, the error of sources and sinks
//! - `law`: the contents with which the reads of a file agree
//!
//! A sink with room for five bytes:
//!
//! ```
//! let mut sink = MemorySink::new(vec![in rt.alloc(); 0u8; 5]?, 1, true);
//! assert_same!(rt;
//!     put_bytes(&mut sink, b"1 5\n2 4\n"),
//!     Err(WriteFault { written: 5 })
//! );
//! assert_same!(rt; sink.bytes(), b"1 5\n2".as_slice());
//! ```
#![tactic(auto)]

pub mod block;
pub mod device;
pub mod history;
pub mod law;
pub mod sink;
pub mod source;
