//! Files of which it is counted how much was read.

ghost use Rattle.std.specs.Prelude.{option_map};
ghost use Rattle.cli.specs.inner.Openings.{input_within};

use crate::opener::Opener;
use mpicall::device::{DeviceFault, Input};
use progress::gauge::Gauge;

/// An input whose bytes are counted as they are read.
#[derive(Drop)]
pub struct MeasuredInput<'g, I> {
    input: I,
    gauge: &'g Gauge,
}

impl<I: Input> Input for MeasuredInput<'_, I> {
    ghost left = { λ measured. I.left measured.input };

    ghost failures = { λ measured. I.failures measured.input };

    fn read_some(&mut self, into: &mut [u8]) -> Result<usize, DeviceFault> {
        let count = self.input.read_some(into)?;
        self.gauge.add_read(count);
        Ok(count)
    }
}

/// The files of an opener, of which it is counted how much was read.
#[derive(Drop)]
pub struct Measured<'p, 'g, P> {
    pub opener: &'p P,
    pub gauge: &'g Gauge,
}

impl<'p, 'g, P: Opener> Opener for Measured<'p, 'g, P> {
    type In = MeasuredInput<'g, P::In>;

    ghost told = { λ measured path. P.told measured.opener.now path };

    ghost named = { λ measured path. P.named measured.opener.now path };

    ghost may_give = { λ measured path answer. P.may_give measured.opener.now path (option_map input_within answer) };

    ghost never_waits = { λ measured path. P.never_waits measured.opener.now path };

    fn open_input(&self, path: &str) -> Option<MeasuredInput<'g, P::In>> {
        match self.opener.open_input(path) {
            Some(input) => Some(MeasuredInput {
                input,
                gauge: self.gauge,
            }),
            None => None,
        }
    }

    fn waits(&self, path: &str) -> bool {
        self.opener.waits(path)
    }

    fn size(&self, path: &str) -> Option<u64> {
        self.opener.size(path)
    }

    fn is_folder(&self, path: &str) -> bool {
        self.opener.is_folder(path)
    }

    fn is_there(&self, path: &str) -> bool {
        self.opener.is_there(path)
    }

    fn is_named(&self, path: &str) -> bool {
        self.opener.is_named(path)
    }
}
