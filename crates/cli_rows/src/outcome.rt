//! What is answered to a row.

use crate::arguments::Arguments;
use crate::named::fault_of;
use crate::row::{Asked, Row, Wanted};
use crate::row_files::{Made, Meeting, RowFiles, RowMaker};
use cli::argv::{WordsFault, run};
use cli::capacity::Capacity;
use cli::command_line::{CommandLine, parse};
use cli::fault::Fault;
use cli::shown::Screen;
use mpicall::fails_at::FailsAt;
use mpicall::memory::MemoryOutput;
use std::alloc::{AllocError, Global};
use std::io;
use std::process::{ExitCode, Termination};
use std::sync::Wait;
use std::thread::Threads;
use std::time::Clock;

/// What was answered.
#[derive(Drop)]
pub struct Answer {
    pub code: ExitCode,
    pub out: Vec<u8>,
    pub err: Vec<u8>,
    /// Whether the files that were made are the wanted ones.
    pub is_made: bool,
    /// What shows how far a check is.
    pub shown: Vec<u8>,
}

impl Answer {
    /// A text on the output that goes with a status, and nothing on the other.
    fn told(alloc: Global, status: u8, text: &str) -> Result<Answer, AllocError> {
        let text = Vec::from_slice(alloc, text.as_bytes())?;
        let none = Vec::new(alloc);
        let (out, err) = if status < 3 {
            (text, none)
        } else {
            (none, text)
        };
        let code = ExitCode::from(status);
        let shown = Vec::new(alloc);
        Ok(Answer {
            code,
            out,
            err,
            is_made: true,
            shown,
        })
    }

    /// Whether this is what the row wants.
    pub fn is_wanted(&self, wanted: &Wanted) -> bool {
        let Some(status) = wanted.status else {
            return false;
        };
        self.code == ExitCode::from(status)
            && self.is_made
            && is_text(wanted, &wanted.err, &self.err)
            && is_output(wanted, &self.out)
            && is_shown(wanted, &self.shown)
    }
}

/// Whether a text is the wanted one, or begins so. Where none is wanted there must be none.
fn is_text(wanted: &Wanted, text: &str, told: &[u8]) -> bool {
    let text = text.as_bytes();
    if wanted.begins && !text.is_empty() {
        told.starts_with(text)
    } else {
        told == text
    }
}

/// Whether the text on standard output is the wanted one, or has the wanted parts.
fn is_output(wanted: &Wanted, told: &[u8]) -> bool {
    if wanted.parts.is_empty() {
        return is_text(wanted, &wanted.out, told);
    }
    let Ok(told) = str::from_utf8(told) else {
        return false;
    };
    wanted.parts.iter().all(|part| told.contains(part.as_str()))
}

/// Whether what shows how far a check is has the wanted parts, and is empty where none is wanted.
fn is_shown(wanted: &Wanted, shown: &[u8]) -> bool {
    let Ok(text) = str::from_utf8(shown) else {
        return false;
    };
    wanted.shown.is_empty() == text.is_empty()
        && wanted.shown.iter().all(|part| text.contains(part.as_str()))
}

/// An output that takes at most so many bytes a write, and one at least.
fn output_of(alloc: Global, most: usize) -> MemoryOutput {
    if most > 0 {
        MemoryOutput::in_pieces(alloc, most)
    } else {
        MemoryOutput::new(alloc)
    }
}

/// What the program answers on the words and files of a row.
fn answer_of_program<R: AllocGlobal + Eprint + Threads + Wait + Clock + Sync>(
    rt: &R,
    row: &Row,
) -> Result<Answer, AllocError> {
    let devices = &row.devices;
    let out = output_of(rt.alloc(), devices.most_written);
    let mut out = FailsAt::new(out, devices.failing_output);
    let mut err = FailsAt::new(MemoryOutput::new(rt.alloc()), devices.failing_error);
    let given = (Arguments(row.words.as_slice()), rt.alloc());
    let (meeting, made) = (Meeting::new(), Made::new());
    let opener = RowFiles {
        row,
        meeting: &meeting,
        clock: rt,
    };
    let mut maker = RowMaker { row, made: &made };
    let mut screen = Screen {
        out: FailsAt::new(MemoryOutput::new(rt.alloc()), devices.failing_screen),
        is_terminal: devices.is_terminal,
    };
    let ended = run(
        &given,
        &opener,
        &mut maker,
        rt,
        &mut out,
        &mut err,
        &mut screen,
    );
    Ok(Answer {
        code: ended.report(rt),
        out: out.device().bytes().to_vec(rt.alloc())?,
        err: err.device().bytes().to_vec(rt.alloc())?,
        is_made: made.is_all(row.wanted.made.as_slice()),
        shown: screen.out.device().bytes().to_vec(rt.alloc())?,
    })
}

/// A number of records as text.
fn answer_of_number(alloc: Global, number: Option<Capacity>) -> Result<Answer, AllocError> {
    match number {
        Some(number) => {
            let text = format!(in alloc; "{}\n", number.records())?;
            Answer::told(alloc, 0, &text)
        }
        None => Answer::told(alloc, 0, "none\n"),
    }
}

/// How many records of a rank may wait, by what is asked for.
fn capacity_of(words: &CommandLine<'_>) -> Option<Capacity> {
    match words {
        CommandLine::Check { options, .. } => Some(options.capacity),
        _ => None,
    }
}

/// The same by the words of the program.
fn answer_of_capacity<'a>(alloc: Global, words: &'a [&'a str]) -> Result<Answer, AllocError> {
    let asked: CommandLine<'a> = parse(alloc, words);
    let number = capacity_of(&asked);
    answer_of_number(alloc, number)
}

/// What is said of words that there is no memory for.
fn answer_without_words(alloc: Global) -> Result<Answer, AllocError> {
    let fault = WordsFault::from(io::Error::from(AllocError));
    Answer::told(alloc, fault.status().code(), fault.text())
}

/// The fault that these words name: its code, then as many numbers as it has.
fn fault_named(words: &[&str]) -> Option<Fault<'static>> {
    match words {
        [code] => fault_of(code.as_bytes(), 0, 0),
        [code, place] => fault_of(code.as_bytes(), place.parse().ok()?, 0),
        [code, place, call] => fault_of(code.as_bytes(), place.parse().ok()?, call.parse().ok()?),
        _ => None,
    }
}

/// What is said of a fault.
fn answer_of_fault(alloc: Global, words: &[&str]) -> Result<Answer, AllocError> {
    if words.first().copied() == Some("words") {
        return answer_without_words(alloc);
    }
    match fault_named(words) {
        Some(fault) => {
            let text = format!(in alloc; "{fault}\n")?;
            Answer::told(alloc, fault.status().code(), &text)
        }
        None => Answer::told(alloc, 0, "no such fault\n"),
    }
}

/// The words as texts, as far as they are such.
fn texts<'a>(alloc: Global, words: &'a [Vec<u8>]) -> Result<Vec<&'a str>, AllocError> {
    let mut texts = Vec::new(alloc);
    for word in words {
        texts.push(str::from_utf8(word.as_slice()).unwrap_or("no text"))?;
    }
    Ok(texts)
}

/// What is answered to a row.
pub fn answer_of<R: AllocGlobal + Eprint + Threads + Wait + Clock + Sync>(
    rt: &R,
    row: &Row,
) -> Result<Answer, AllocError> {
    let alloc = rt.alloc();
    let words = texts(alloc, row.words.as_slice())?;
    match row.asked {
        Some(Asked::Program) => answer_of_program(rt, row),
        Some(Asked::Capacity) => answer_of_capacity(alloc, words.as_slice()),
        Some(Asked::Number) => match words.as_slice() {
            [word] => answer_of_number(alloc, Capacity::read(word)),
            _ => Answer::told(alloc, 0, "not one word\n"),
        },
        Some(Asked::Fault) => answer_of_fault(alloc, words.as_slice()),
        None => Answer::told(alloc, 0, "nothing is asked\n"),
    }
}
