//! A device that fails once, at one stated call.
//!
//! At the stated call the device adds one failure of its own; each other call is one of the device within.
//! So a test sees what is answered after a failure, too.

ghost use Rattle.std.specs.Prelude.{◌≡◌, Some};
ghost use Rattle.std.specs.Io.{ReadsAtMost, WritesAtMost};
ghost use Rattle.std.specs.Io.KnownBytes.{ReadConsumes, WriteAppends};
ghost use Rattle.mpicall.specs.Device.{CountsFailure, MakesProgress};
ghost use Rattle.mpicall.specs.Devices.{device_within, calls_before, is_stated, counted_down, all_failures, FailsAsStated};

use crate::device::{DeviceFault, Input, Output};

/// A device whose call `at`, counted from 0, fails; each other call is one of the device within.
#[derive(Drop)]
pub struct FailsAt<D> {
    device: D,
    /// How many calls come before the one that fails; None once that one has come.
    before: Option<u64>,
}

/// Whether this call is the stated one; counts the calls before it down.
fn is_stated_call(before: &mut Option<u64>) -> bool
    ensures stated { result ≡ is_stated before.old }
    ensures counted { before.new ≡ counted_down before.old }
{
    match *before {
        None => false,
        Some(0) => {
            *before = None;
            true
        }
        Some(count) => {
            *before = Some(count - 1);
            false
        }
    }
}

impl<D> FailsAt<D> {
    /// The device, with a failure at call `at`.
    pub fn new(device: D, at: u64) -> FailsAt<D>
        ensures within { device_within result ≡ device }
        ensures fresh { calls_before result ≡ Some at }
    {
        FailsAt {
            device,
            before: Some(at),
        }
    }

    /// The device within.
    pub fn device(&self) -> &D
        ensures { result.now ≡ device_within self.now }
    {
        &self.device
    }
}

impl<D: Input> Input for FailsAt<D> {
    ghost left = { λ f. D.left f.device };

    ghost failures = { λ f. all_failures D.failures f };

    fn read_some(&mut self, into: &mut [u8]) -> Result<usize, DeviceFault>
        ensures bound { ReadsAtMost result into.new }
        ensures bytes { ReadConsumes
            (D.left (device_within self.old)) (D.left (device_within self.new)) result into.new }
        ensures count { CountsFailure
            (all_failures D.failures self.old) (all_failures D.failures self.new) result }
        ensures counted { calls_before self.new ≡ counted_down (calls_before self.old) }
        ensures stated { FailsAsStated D.failures self.old self.new result }
    {
        if is_stated_call(&mut self.before) {
            return Err(DeviceFault);
        }
        self.device.read_some(into)
    }
}

impl<D: Output> Output for FailsAt<D> {
    ghost written = { λ f. D.written f.device };

    ghost failures = { λ f. all_failures D.failures f };

    fn write_some(&mut self, from: &[u8]) -> Result<usize, DeviceFault>
        ensures bound { WritesAtMost result from.now }
        ensures bytes { WriteAppends
            (D.written (device_within self.old)) (D.written (device_within self.new)) result from.now }
        ensures progress { MakesProgress result from.now }
        ensures count { CountsFailure
            (all_failures D.failures self.old) (all_failures D.failures self.new) result }
        ensures counted { calls_before self.new ≡ counted_down (calls_before self.old) }
        ensures stated { FailsAsStated D.failures self.old self.new result }
    {
        if is_stated_call(&mut self.before) {
            return Err(DeviceFault);
        }
        self.device.write_some(from)
    }
}
