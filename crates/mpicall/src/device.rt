//! Inputs and outputs of bytes. Each counts its failures, and one over memory also says its bytes.

ghost use Rattle.std.specs.Prelude.{ℕ, Option, List, OnOk, OnErr};
ghost use Rattle.std.specs.Io.{ReadsAtMost, WritesAtMost};
ghost use Rattle.std.specs.Io.KnownBytes.{Appends, ReadConsumes, WriteAppends};
ghost use Rattle.mpicall.specs.Device.{CountsFailure, MakesProgress, AppendsBeginning};

use thiserror::Error;

/// A read or a write that the device refused.
#[derive(Clone, Copy, Debug, PartialEq, Eq, Error)]
#[error("the device failed")]
pub struct DeviceFault;

/// What gives bytes: `left` are those still to come, where the input says them, and `failures`
/// counts the reads that failed.
pub trait Input {
    ghost left: { Self → Option (List ℕ) };

    ghost failures: { Self → ℕ };

    /// Reads some of the bytes into the front of `into`, and says how many. Ok(0) into a space that
    /// isn't empty means that no bytes are left; an error takes nothing.
    fn read_some(&mut self, into: &mut [u8]) -> Result<usize, DeviceFault>
        ensures bound { ReadsAtMost result into.new }
        ensures bytes { ReadConsumes (left self.old) (left self.new) result into.new }
        ensures count { CountsFailure (failures self.old) (failures self.new) result };
}

/// What takes bytes: `written` are those taken so far, where the output says them, and `failures`
/// counts the writes that failed.
pub trait Output {
    ghost written: { Self → Option (List ℕ) };

    ghost failures: { Self → ℕ };

    /// Writes a prefix of `from`, and says how many bytes that is: one at least, where `from` has
    /// any. An error writes nothing.
    fn write_some(&mut self, from: &[u8]) -> Result<usize, DeviceFault>
        ensures bound { WritesAtMost result from.now }
        ensures bytes { WriteAppends (written self.old) (written self.new) result from.now }
        ensures progress { MakesProgress result from.now }
        ensures count { CountsFailure (failures self.old) (failures self.new) result };
}

/// Writes all the bytes, or a prefix of them and then answers the output's fault.
pub fn write_all<O: Output>(output: &mut O, bytes: &[u8]) -> Result<(), DeviceFault>
    ensures ok { OnOk result (Appends (O.written output.old) (O.written output.new) bytes.now) }
    ensures fault { OnErr result (AppendsBeginning (O.written output.old) (O.written output.new) bytes.now) }
    ensures count { CountsFailure (O.failures output.old) (O.failures output.new) result }
{
    let mut done = 0;
    while done < bytes.len() {
        done += output.write_some(&bytes[done..])?;
    }
    Ok(())
}
