//! Journals: what each rank of a run called, as it called it, written while the run goes on.
//!
//! A journal is a text with a header and one line a call, as `irecv 4 0 any 7`, each followed by the lines
//! that report more of it or of an earlier request, as `=done 4 2 7`. This crate reads one from an input: its
//! lines, or its first fault.
//!
//! What it promises, as contracts that are proved:
//!
//! - `journal::read_journal` answers the journal that the text of an input spells, or its first fault, as
//!   `AnswersJournal` of `JournalAnswers` says. If a read failed, the line that it reports is the one after the
//!   whole lines that came.
//! - `text::TextInput` gives the bytes of an input up to its first zero byte (`Text`, `Inputs`).
//! - `lines::Lines` is the list of the lines after the header; `word` and `fields` answer those of a place.
//! - `word::word_of` looks words up in the table of `Words`. `form::forms_of` and `form::more_of` give the
//!   forms of a word's fields by that table, and `field::read_field` the value of a field by its form
//!   (`Fields`). A field has its number in 4 bytes at any address (`unaligned`), so it takes 5 bytes.
//!   `header::read_header` reads a header (`Header`).
//! - Each call ends, but that of `read_journal` if the input has no end.
//!
//! How it is read, in private parts:
//!
//! - `reader::next_line` finds the whole lines of a text one after another, however its reads are cut: what
//!   came before a failed read has no further whole line.
//! - `line::read_line` reads a line's word and fields, or finds the fault of its form. `texts::Texts` finds the
//!   texts of a line, and reads the numbers among them in the same pass. `Lines::read` puts a line after the others.
//!   One that equals one of the last few isn't read again: `remembered::Remembered` finds where that is held.
//! - `known::Known` holds what the lines so far say of requests, messages, communicators and the last call.
//!   `Known::admit` finds the first fault of a line by the lines before it, or holds that line too.
//!
//! The definitions are in `specs/`: `Text`, `Words`, `Fields`, `Lines` and `Header` say what a line is,
//! `Entries` and `Known` what lines say of requests, messages and communicators, `Faults` and `Journal` what
//! the first fault is, and `JournalAnswers` and `Taking` what the calls answer. What only proofs and private
//! contracts cite is in `specs/inner/`, and nobody has to believe it.
#![tactic(auto)]

mod comms;
pub mod fault;
pub mod field;
pub mod form;
mod group;
pub mod header;
pub mod journal;
mod known;
mod last;
pub mod limits;
mod line;
mod line_window;
pub mod lines;
mod note;
mod note_table;
mod notes;
mod reader;
mod remembered;
pub mod room;
pub mod text;
mod texts;
pub mod unaligned;
pub mod word;
