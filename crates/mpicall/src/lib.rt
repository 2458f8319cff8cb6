//! Recorded MPI calls: records, their one-line spellings, and sources of records.
//!
//! A trace is a text with one line a call, as `send 0 1 5` or `waitall 7 8`, ended by its end record: `finalize`,
//! or `open` where the rest was not recorded. This crate reads and writes such lines, over any input and output.
//! It takes no memory, but for `memory::MemoryOutput`, an output that keeps its bytes, and `records::Records`, a list
//! that keeps the places of its records.
//!
//! What it promises, as contracts that are proved:
//!
//! - `line::read_line` answers a record exactly where the line is that record's spelling and the record's
//!   fields are in their ranges, and a fault exactly where it is the line's first fault.
//!   `spelling::write_line` writes the spelling, or after a fault of the output a prefix of it. No
//!   spelling begins another one. `page::Page` puts lines together in place.
//! - The records that `source::Source::next` gives, and its end, are those of the input's bytes, however
//!   the input cuts them into pieces: each text has one trace, by the spellings and the first fault of its
//!   lines. A fault is answered for good, and so is the end. Where a read fails, the bytes that came and
//!   were given as no record are less than a line, of at most 1,024 bytes, and none where the end record was
//!   given. `Source::next_into` promises the same of a record that is read into a place of the caller's, and
//!   changes that place only where it gives one.
//! - `lint::lint` reads a source to its end and answers the number of its records, or the place and the
//!   fault of that end. The place of a read that failed is the number of the whole lines that came, by
//!   `lint::each_whole_line_that_came_is_a_record`; and `lint::records_come_before_a_failed_read` is the law by
//!   which others can add up what a source gave.
//! - A device's fault is answered only where the device's count of failures rose.
//! - `fails_at::FailsAt` fails at its stated call, and at no other unless the device within does;
//!   `memory::MemoryInput` gives pieces of a stated size.
//! - Every call but `lint` returns, whatever the bytes are; a source may have no end.
//!
//! The definitions are in `specs/`: `Number`, `Argument`, `Word`, `CallArgs` and `Spelling` say how a call is
//! spelled, `Limits` which calls are records, `Ending` which of them end a list, `Effect` what they do over
//! their communicators, `Lines` and `Line` what is wrong with a line, `Trace` what the bytes of a source are,
//! and `Device`, `Source` and `Lint` what a function does. What only proofs and private contracts cite is in
//! `specs/inner/`, and nobody has to believe it. `Trace` cites `Parsing`, and
//! `source::each_text_has_one_trace` says what that comes to without it.
//!
//! ```text
//! let mut source = Source::new(MemoryInput::new(b"recv 0 1 5\nfinalize\n"));
//! let mut entry = Record::finalize();
//! while source.next_into(&mut entry)? {
//!     write_line(&entry, &mut output)?;
//! }
//! ```
#![tactic(auto)]

mod body;
pub mod call;
pub mod call_args;
pub mod counted;
pub mod device;
pub mod effect;
pub mod fails_at;
pub mod fault;
pub mod fields;
mod first_fault;
pub mod limits;
pub mod line;
pub mod lint;
pub mod memory;
pub mod number;
mod often;
pub mod page;
mod parsing;
pub mod record;
pub mod records;
mod remembered;
pub mod reqs;
pub mod source;
pub mod spelling;
mod window;
pub mod word;
