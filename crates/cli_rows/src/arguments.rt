//! The words of a row, as a process has them.

use std::env::{Env, FillError};

/// The arguments of a process, after its name.
#[derive(Drop)]
pub struct Arguments<'a>(pub &'a [Vec<u8>]);

impl Arguments<'_> {
    /// The argument at a place, the process's name at 0.
    fn word(&self, i: usize) -> Option<&[u8]> {
        match i.checked_sub(1) {
            Some(i) => {
                let word = self.0.get(i)?;
                Some(word.as_slice())
            }
            None => Some(b"mpiwait"),
        }
    }
}

impl Env for Arguments<'_> {
    fn arg(&self, i: usize, buf: &mut [u8]) -> Result<usize, FillError> {
        let word = self.word(i).ok_or(FillError::NotPresent)?;
        if buf.len() < word.len() {
            return Err(FillError::TooLong);
        }
        buf[..word.len()].copy_from_slice(word);
        Ok(word.len())
    }

    fn var(&self, _name: &str, _buf: &mut [u8]) -> Result<usize, FillError> {
        Err(FillError::NotPresent)
    }

    fn var_at(&self, _i: usize, _buf: &mut [u8]) -> Result<usize, FillError> {
        Err(FillError::NotPresent)
    }
}
