//! The text of a journal: the bytes of an input up to the first zero byte.
//!
//! A recorder may make its file longer than what it has written, so what is not written yet is zero.

ghost use Rattle.std.specs.Prelude.{◌≡◌};

use memchr::memchr;
use mpicall::device::{DeviceFault, Input};

/// An input that ends before the first zero byte of the input within.
#[derive(Drop)]
pub struct TextInput<I> {
    input: I,
    /// The zero byte came.
    is_over: bool,
}

impl<I> TextInput<I> {
    ghost use Rattle.journals.specs.Inputs.{input_within, is_fresh};

    pub fn new(input: I) -> TextInput<I>
        ensures within { input_within result ≡ input }
        ensures fresh { is_fresh result }
    {
        TextInput {
            input,
            is_over: false,
        }
    }
}

impl<I: Input> Input for TextInput<I> {
    ghost use Rattle.journals.specs.Inputs.{text_left};

    ghost left = { λ t. text_left I.left t };

    ghost failures = { λ t. I.failures t.input };

    fn read_some(&mut self, into: &mut [u8]) -> Result<usize, DeviceFault> {
        if self.is_over {
            return Ok(0);
        }
        let count = self.input.read_some(into)?;
        match memchr(0, &into[..count]) {
            Some(at) => {
                self.is_over = true;
                Ok(at)
            }
            None => Ok(count),
        }
    }
}
