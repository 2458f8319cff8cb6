//! Calls of ranks, as a line has them.

use crate::fault::Fault;
use crate::words::first_word;
use mpicall::line::read_line;
use mpicall::record::Record;
use std::alloc::{AllocError, Global};

/// The bytes of a line, with its line feed.
pub fn bytes_of(alloc: Global, line: &str) -> Result<Vec<u8>, AllocError> {
    let mut bytes = line.as_bytes().to_vec(alloc)?;
    bytes.push(b'\n')?;
    Ok(bytes)
}

/// The record of a line.
pub fn record_of(alloc: Global, line: &str) -> Result<Record, Fault> {
    let Ok(bytes) = bytes_of(alloc, line) else {
        return Err(Fault::Memory);
    };
    match read_line(&bytes) {
        Ok(record) => Ok(record),
        Err(_) => Err(Fault::Unread),
    }
}

/// The rank and the call of a line that may begin with the rank; else the call is of the rank before.
fn call_in(alloc: Global, text: &str, before: u16) -> Result<(u16, Record), Fault> {
    let (word, line) = first_word(text);
    match word.parse::<u16>() {
        Ok(rank) => Ok((rank, record_of(alloc, line)?)),
        Err(_) => Ok((before, record_of(alloc, text)?)),
    }
}

/// The calls of a text: lines with ` / ` between two, of which a line may begin with its rank, as the first does.
pub fn calls_in(alloc: Global, text: &str) -> Result<Vec<(u16, Record)>, Fault> {
    let mut calls = Vec::new(alloc);
    let mut before = u16::MAX;
    for line in text.split(" / ") {
        let call = call_in(alloc, line, before)?;
        before = call.0;
        if calls.push(call).is_err() {
            return Err(Fault::Memory);
        }
    }
    Ok(calls)
}
