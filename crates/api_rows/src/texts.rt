//! What is answered of texts: lines, traces and heads.

ghost use Rattle.std.specs.Prelude.{◌<◌};

use crate::answer::Answer;
use crate::calls::bytes_of;
use crate::fault::Fault;
use crate::fields::tell_values;
use mpicall::line::read_line;
use mpicall::lint::lint;
use mpicall::memory::{MemoryInput, MemoryOutput};
use mpicall::record::Record;
use mpicall::source::Source;
use mpicall::spelling::write_line;
use mpigroup::fault::ReadFault;
use mpigroup::head::Head;
use std::sync::Wait;

/// What may follow a `\`, and the byte that it is.
const ESCAPES: [(&str, u8); 4] = [("n", b'\n'), ("r", b'\r'), ("0", 0), ("ff", 255)];

/// Adds a piece that followed a `\`, if it begins as one may.
fn add_escape(bytes: &mut Vec<u8>, piece: &str) -> bool {
    for (letters, byte) in &ESCAPES {
        if let Some(rest) = piece.strip_prefix(*letters) {
            return bytes.push(*byte).is_ok() && bytes.extend_from_slice(rest.as_bytes()).is_ok();
        }
    }
    false
}

/// Adds a text to bytes, if it can be read: `\n`, `\r`, `\0` and `\ff` are the bytes 10, 13, 0 and 255.
pub fn add_text(bytes: &mut Vec<u8>, text: &str) -> bool {
    let mut pieces = text.split('\\');
    let plain = pieces.next().unwrap_or("");
    if bytes.extend_from_slice(plain.as_bytes()).is_err() {
        return false;
    }
    for piece in pieces {
        if !add_escape(bytes, piece) {
            return false;
        }
    }
    true
}

/// Whether the record of a line is written as the line.
fn is_written(answer: &mut Answer, record: &Record, line: &[u8]) -> bool {
    let mut output = MemoryOutput::new(answer.alloc());
    if write_line(record, &mut output).is_err() {
        answer.fail(Fault::Memory);
    }
    output.bytes() == line
}

/// What is answered of a line: its first fault, or `ok` where its record is written as it was.
pub fn tell_line(answer: &mut Answer, line: &[u8]) {
    match read_line(line) {
        Ok(record) => {
            let is_same = is_written(answer, &record, line);
            answer.put(if is_same { "ok" } else { "written otherwise" });
        }
        Err(fault) => answer.coded(fault.code(), &fault),
    }
}

/// What is answered of a text, as a line with its line feed.
pub fn tell_text(answer: &mut Answer, text: &str) {
    let mut bytes = Vec::new(answer.alloc());
    if !add_text(&mut bytes, text) || bytes.push(b'\n').is_err() {
        answer.fail(Fault::Unread);
    }
    tell_line(answer, &bytes);
}

/// The values of the call of a line, which is written as the line.
pub fn tell_call(answer: &mut Answer, line: &str) {
    match bytes_of(answer.alloc(), line) {
        Ok(bytes) => tell_values_in(answer, &bytes),
        Err(_) => answer.fail(Fault::Memory),
    }
}

fn tell_values_in(answer: &mut Answer, line: &[u8]) {
    match read_line(line) {
        Ok(record) if is_written(answer, &record, line) => tell_values(answer, record.as_call()),
        _ => answer.fail(Fault::Unread),
    }
}

/// The most bytes that a read of the inputs gives.
const PIECES: [usize; 5] = [1, 2, 7, 1000, usize::MAX];

/// An input that gives at most so many bytes a read, and one at least.
fn input_of(text: &[u8], most: usize) -> MemoryInput<'_> {
    if most > 0 {
        MemoryInput::in_pieces(text, most)
    } else {
        MemoryInput::new(text)
    }
}

/// What is answered of the trace that an input gives.
fn tell_trace_of(answer: &mut Answer, input: MemoryInput<'_>, wait: &impl Wait) {
    match lint(&mut Source::new(input), wait) {
        Ok(count) => {
            answer.value("", &count);
            answer.put(" calls");
        }
        Err(told) => {
            answer.value("call ", &told.call);
            answer.put(" ");
            answer.coded(told.fault.code(), &told.fault);
        }
    }
}

/// What is answered of a text as a trace, by inputs that give pieces of any size: all that differ.
pub fn tell_trace(answer: &mut Answer, text: &[u8], wait: &impl Wait) {
    let mut told = Answer::new(answer.alloc());
    for most in &PIECES {
        told.clear();
        tell_trace_of(&mut told, input_of(text, *most), wait);
        answer.other(&told);
    }
}

/// What is answered of the first bytes of a text as a trace, for each of these counts of bytes: all that
/// differ.
pub fn tell_fronts(answer: &mut Answer, text: &[u8], first: u32, last: u32, wait: &impl Wait) {
    for count in first..=last {
        match text.get(..count as usize) {
            Some(front) => tell_trace(answer, front, wait),
            None => answer.fail(Fault::Missing),
        }
    }
}

/// The lines of the records that a source gives, and its end.
fn tell_records_of(answer: &mut Answer, source: &mut Source<MemoryInput<'_>>, count: u32) {
    for _ in 0..count {
        answer.separate(" / ");
        match source.next() {
            Ok(Some(record)) => answer.line(&record),
            Ok(None) => answer.put("end"),
            Err(fault) => answer.coded(fault.code(), &fault),
        }
    }
}

/// What a source of a text gives when it is asked so often, by inputs that give pieces of any size: all that
/// differ.
pub fn tell_records(answer: &mut Answer, text: &[u8], count: u32) {
    let mut told = Answer::new(answer.alloc());
    for most in &PIECES {
        told.clear();
        tell_records_of(&mut told, &mut Source::new(input_of(text, *most)), count);
        answer.other(&told);
    }
}

/// What is answered of a text as a head.
pub fn tell_head(answer: &mut Answer, text: &[u8]) {
    match Head::read(answer.alloc(), text) {
        Ok(head) => {
            answer.value("ranks ", &head.ranks());
            answer.value(", comms ", &head.comms());
        }
        Err(ReadFault::Text(fault)) => answer.value("", &fault),
        Err(ReadFault::Memory) => answer.fail(Fault::Memory),
    }
}
