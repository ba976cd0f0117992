//! A sink that discards all bytes, used to count the bytes of a text.

ghost use Rattle.std.specs.Prelude.{◌≡◌};
ghost use Rattle.cell_core_devices.specs.declared.sink.FlushCount.TheVariants.{Never};

use cell_core::device::DeviceFault;
use cell_core::sink::{FlushCount, Sink};
use std::marker::Model;

/// A sink that accepts and discards all bytes.
#[derive(Debug, Drop)]
pub(crate) struct NullSink {
    flushes: FlushCount,
}

impl Model for NullSink {
    ghost use Rattle.cell_core_devices.specs.declared.sink.FlushCount.{FlushCount};

    ghost Value = { FlushCount };

    ghost view = { λ s. s.flushes };
}

impl NullSink {
    pub(crate) fn new() -> NullSink
        ensures { result ≡ Never }
    {
        NullSink {
            flushes: FlushCount::Never,
        }
    }
}

impl Sink for NullSink {
    ghost use Rattle.std.specs.Prelude.{None, false, ◌≡◌, ◌<◌, length, Ok};
    ghost use Rattle.cell_core_devices.specs.Device.{flush_count_after_flush};

    ghost taken = { λ _. None };

    ghost faults = { λ s. record { refused = false; unflushed = false; flushes = s } };

    fn put(&mut self, bytes: &[u8]) -> Result<usize, DeviceFault>
        requires { 0 < length bytes.now }
        ensures count { result ≡ Ok (length bytes.now) }
        ensures same { self.new ≡ self.old }
    {
        Ok(bytes.len())
    }

    fn flush(&mut self) -> Result<(), DeviceFault>
        ensures done { result ≡ Ok tt }
        ensures again { self.new ≡ flush_count_after_flush self.old }
    {
        self.flushes = self.flushes.again();
        Ok(())
    }
}
