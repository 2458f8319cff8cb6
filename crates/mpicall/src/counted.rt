//! Readers and writers of std as devices, with a count of their failures. A device says the bytes that its reader or
//! writer says, as those over memory do; what a file, a pipe or a terminal gives or takes is not said.

ghost use Rattle.std.specs.Prelude.{◌≡◌};

use crate::device::{DeviceFault, Input, Output};
use std::io::{Read, Write};

/// A std reader as an input, or a std writer as an output, with the count of its failures.
#[derive(Drop)]
pub struct Counted<T> {
    inner: T,
    failures: u64,
}

impl<T> Counted<T> {
    ghost use Rattle.mpicall.specs.Device.{one_more};
    ghost use Rattle.mpicall.specs.Devices.{counted_failures};

    /// The reader or writer, with no failure so far.
    pub fn new(inner: T) -> Counted<T>
        ensures { counted_failures result ≡ 0 }
    {
        Counted { inner, failures: 0 }
    }

    /// How many reads or writes have failed, up to the greatest `u64`.
    pub fn failures(&self) -> u64
        ensures { result ≡ counted_failures self.now }
    {
        self.failures
    }

    fn count_failure(&mut self) -> DeviceFault
        ensures count { counted_failures self.new ≡ one_more (counted_failures self.old) }
        ensures inner { self.new.inner ≡ self.old.inner }
    {
        let Counted { failures, .. } = self;
        *failures = failures.saturating_add(1);
        DeviceFault
    }
}

impl<R: Read> Input for Counted<R> {
    ghost left = { λ c. R.remaining c.inner };

    ghost failures = { λ c. c.failures };

    fn read_some(&mut self, into: &mut [u8]) -> Result<usize, DeviceFault> {
        match self.inner.read(into) {
            Ok(count) => Ok(count),
            Err(_) => Err(self.count_failure()),
        }
    }
}

impl<W: Write> Output for Counted<W> {
    ghost written = { λ c. W.contents c.inner };

    ghost failures = { λ c. c.failures };

    fn write_some(&mut self, from: &[u8]) -> Result<usize, DeviceFault> {
        match self.inner.write(from) {
            // A writer that takes nothing will take nothing again.
            Ok(0) if !from.is_empty() => Err(self.count_failure()),
            Ok(count) => Ok(count),
            Err(_) => Err(self.count_failure()),
        }
    }
}
