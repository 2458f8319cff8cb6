//! The words that the process is given, and the program on them.
//!
//! The end of the program is a value that can't be dropped and is let go only as an exit code. So a `main`
//! that throws the status away doesn't compile.

ghost use Rattle.std.specs.Prelude.{◌≡◌, IfOk, OnErr, map, string_bytes};
ghost use Rattle.std.specs.Process.{exit_status};
ghost use Rattle.cli.specs.Argv.{EndsBySome, EndsGiven, status_in, status_of_words, text_of_words};
ghost use Rattle.cli.specs.ExitContract.{made_by};
ghost use Rattle.cli.specs.Openings.{fate_of};
ghost use Rattle.cli.specs.Statuses.{code_of};
ghost use Rattle.cli.specs.declared.argv.WordsFault.TheVariants.{NoMemory};

use crate::folder::with_files;
use crate::held_words::with_ranks;
use crate::opener::{Maker, Opener};
use crate::program::{program, write_error};
use crate::shown::Screen;
use crate::status::Status;
use mpicall::device::Output;
use std::alloc::{AllocError, Global};
use std::env::Env;
use std::process::{ExitCode, Termination};
use std::sync::Wait;
use std::thread::Threads;
use std::time::Clock;
use std::{env, io};

/// Why the words of the command line can't be read.
#[derive(Clone, Copy, Debug, PartialEq, Eq)]
pub enum WordsFault {
    NoText,
    NoMemory,
}

impl WordsFault {
    /// The exit status of the fault.
    pub fn status(self) -> Status
        ensures { result ≡ status_of_words self }
    {
        match self {
            WordsFault::NoText => Status::Usage,
            WordsFault::NoMemory => Status::Fault,
        }
    }

    /// What the program says of it.
    pub fn text(self) -> &'static str
        ensures { result.now ≡ text_of_words self }
    {
        match self {
            WordsFault::NoText => "usage: the words must be text in UTF-8\n",
            WordsFault::NoMemory => "fault memory\n",
        }
    }
}

impl From<AllocError> for WordsFault {
    ghost from_gives = { λ _ fault. fault ≡ NoMemory };

    fn from(_error: AllocError) -> WordsFault {
        WordsFault::NoMemory
    }
}

impl From<io::Error> for WordsFault {
    fn from(error: io::Error) -> WordsFault {
        match error.kind() {
            io::ErrorKind::OutOfMemory => WordsFault::NoMemory,
            _ => WordsFault::NoText,
        }
    }
}

/// The words after the program's name.
fn words_given(rt: &(impl Env + AllocGlobal)) -> Result<Vec<String>, WordsFault> {
    let words = env::args(rt)?.skip(1).collect(rt.alloc())?;
    Ok(words)
}

/// Words as the texts that the program takes.
fn as_texts<'a>(alloc: Global, words: &'a [String]) -> Result<Vec<&'a str>, AllocError>
    ensures { IfOk result (λ texts. map (λ text. text.now) texts.items ≡ map string_bytes words.now) }
{
    let mut texts = Vec::new(alloc);
    for word in words {
        texts.push(word.as_str())?;
    }
    Ok(texts)
}

/// The end of the program. Nobody can let it go: it is handed on to what ends the process, with the status
/// that it holds.
#[must_use]
pub struct Ended {
    status: Status,
}

impl Termination for Ended {
    fn report<R: Eprint>(self, _rt: &R) -> ExitCode
        ensures { exit_status result ≡ code_of (status_in self) }
    {
        let Ended { status } = self;
        ExitCode::from(status.code())
    }
}

/// The program on the words of the process.
fn status_on<G, P, M, O, E, L, R>(
    given: &G,
    opener: &P,
    maker: &mut M,
    rt: &R,
    out: &mut O,
    err: &mut E,
    screen: &mut Screen<L>,
) -> Result<Status, WordsFault>
where
    G: Env + AllocGlobal,
    P: Opener,
    M: Maker,
    O: Output,
    E: Output,
    L: Output + Send,
    R: Threads + Wait + Clock + Sync,
    ensures ended { IfOk result (EndsBySome O.written O.failures E.written E.failures (fate_of P.In.left P.In.failures (P.may_give opener.now)) (P.told opener.now) (P.named opener.now) (made_by M.empty M.text maker.old maker.new) out.old out.new err.old err.new) }
    ensures untouched { OnErr result ((out.new ≡ out.old) × (err.new ≡ err.old)) }
{
    let words = with_files(given.alloc(), opener, words_given(given)?)?;
    let words = with_ranks(given.alloc(), words)?;
    let texts = as_texts(given.alloc(), words.as_slice())?;
    let words = texts.as_slice();
    Ok(program(given.alloc(), words, opener, maker, rt, out, err, screen))
}

/// Runs the program on the words of the process, over the opener's files and the maker's folders, and
/// reports words that can't be read.
pub fn run<G, P, M, O, E, L, R>(
    given: &G,
    opener: &P,
    maker: &mut M,
    rt: &R,
    out: &mut O,
    err: &mut E,
    screen: &mut Screen<L>,
) -> Ended
where
    G: Env + AllocGlobal,
    P: Opener,
    M: Maker,
    O: Output,
    E: Output,
    L: Output + Send,
    R: Threads + Wait + Clock + Sync,
    ensures { EndsGiven O.written O.failures E.written E.failures (fate_of P.In.left P.In.failures (P.may_give opener.now)) (P.told opener.now) (P.named opener.now) (made_by M.empty M.text maker.old maker.new) out.old out.new err.old err.new (status_in result) }
{
    let status = match status_on(given, opener, maker, rt, out, err, screen) {
        Ok(status) => status,
        Err(fault) => {
            write_error(fault.text(), err);
            fault.status()
        }
    };
    Ended { status }
}
