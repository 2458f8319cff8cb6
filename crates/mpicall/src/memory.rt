//! Inputs and outputs over memory, which say their bytes.
//!
//! Growing is the only way in which an output over memory can fail. It counts that as a failed write, so
//! that it meets the contract of every output. Inputs and outputs can also be asked for small pieces, so
//! that tests see texts cut at any place.

ghost use Rattle.std.specs.Prelude.{◌≡◌, ◌<◌, [], Some};
ghost use Rattle.std.specs.Io.{ReadsAtMost, WritesAtMost};
ghost use Rattle.std.specs.Io.KnownBytes.{ReadConsumes, WriteAppends};
ghost use Rattle.mpicall.specs.Device.{CountsFailure, MakesProgress};

use crate::device::{DeviceFault, Input, Output};
use std::alloc::Global;

/// An input over bytes in memory, which never fails.
///
/// It gives at most `most` bytes a read, so that a test can hand out a text in pieces.
#[derive(Drop)]
pub struct MemoryInput<'a> {
    left: &'a [u8],
    most: usize,
    ghost some: { 0 < most },
}

impl<'a> MemoryInput<'a> {
    ghost use Rattle.mpicall.specs.Devices.{bytes_left, most_a_read};

    /// An input that gives as many of the bytes as a read has room for.
    pub fn new(bytes: &'a [u8]) -> MemoryInput<'a>
        ensures bytes { bytes_left result ≡ bytes.now }
        ensures most { most_a_read result ≡ usize.MAX }
    {
        MemoryInput::in_pieces(bytes, usize::MAX)
    }

    /// An input that gives at most `most` bytes a read.
    pub fn in_pieces(bytes: &'a [u8], most: usize) -> MemoryInput<'a>
        requires { 0 < most }
        ensures bytes { bytes_left result ≡ bytes.now }
        ensures most { most_a_read result ≡ most }
    {
        MemoryInput { left: bytes, most }
    }
}

impl<'a> Input for MemoryInput<'a> {
    ghost use Rattle.mpicall.specs.Devices.{bytes_left, most_a_read, GivesPiece};

    ghost left = { λ input. Some (bytes_left input) };

    ghost failures = { λ _. 0 };

    fn read_some(&mut self, into: &mut [u8]) -> Result<usize, DeviceFault>
        ensures bound { ReadsAtMost result into.new }
        ensures bytes { ReadConsumes
            (Some (bytes_left self.old)) (Some (bytes_left self.new)) result into.new }
        ensures count { CountsFailure 0 0 result }
        ensures piece { GivesPiece self.old result into.new }
        ensures most { most_a_read self.new ≡ most_a_read self.old }
    {
        let count = self.left.len().min(into.len()).min(self.most);
        let (given, left) = self.left.split_at(count);
        into[..count].copy_from_slice(given);
        self.left = left;
        Ok(count)
    }
}

/// An output that keeps its bytes in memory, and fails where memory is refused.
///
/// It takes at most `most` bytes a write, so that a test can see a text written in pieces.
#[derive(Drop)]
pub struct MemoryOutput {
    bytes: Vec<u8>,
    failures: u64,
    most: usize,
    ghost some: { 0 < most },
}

impl MemoryOutput {
    ghost use Rattle.mpicall.specs.Devices.{bytes_written, most_a_write, refusals};

    /// An output to which nothing was written, and which takes all bytes of a write.
    pub fn new(alloc: Global) -> MemoryOutput
        ensures nothing { bytes_written result ≡ [] }
        ensures fresh { refusals result ≡ 0 }
        ensures most { most_a_write result ≡ usize.MAX }
    {
        MemoryOutput::in_pieces(alloc, usize::MAX)
    }

    /// An output to which nothing was written, and which takes at most `most` bytes a write.
    pub fn in_pieces(alloc: Global, most: usize) -> MemoryOutput
        requires { 0 < most }
        ensures nothing { bytes_written result ≡ [] }
        ensures fresh { refusals result ≡ 0 }
        ensures most { most_a_write result ≡ most }
    {
        MemoryOutput {
            bytes: Vec::new(alloc),
            failures: 0,
            most,
        }
    }

    /// What was written so far.
    pub fn bytes(&self) -> &[u8]
        ensures { result.now ≡ bytes_written self.now }
    {
        self.bytes.as_slice()
    }
}

impl Output for MemoryOutput {
    ghost use Rattle.mpicall.specs.Devices.{bytes_written, most_a_write, refusals, TakesPiece};

    ghost written = { λ output. Some output.bytes.items };

    ghost failures = { λ output. output.failures };

    fn write_some(&mut self, from: &[u8]) -> Result<usize, DeviceFault>
        ensures bound { WritesAtMost result from.now }
        ensures bytes { WriteAppends
            (Some (bytes_written self.old)) (Some (bytes_written self.new)) result from.now }
        ensures progress { MakesProgress result from.now }
        ensures count { CountsFailure (refusals self.old) (refusals self.new) result }
        ensures piece { TakesPiece self.old result from.now }
        ensures most { most_a_write self.new ≡ most_a_write self.old }
    {
        let count = from.len().min(self.most);
        match self.bytes.extend_from_slice(&from[..count]) {
            Ok(()) => Ok(count),
            Err(_) => {
                self.failures = self.failures.saturating_add(1);
                Err(DeviceFault)
            }
        }
    }
}
