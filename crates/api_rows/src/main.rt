//! Asks the library crates questions whose answers are known, and prints each answer that is another. It
//! reads its rows from standard input, and prints at the end how many rows there were and how many answers
//! were as wanted: `stdout` has both numbers, so that a row that is lost, or a line that can't be read,
//! shows.
//!
//! A row begins with `row NAME`: a run of one rank without calls, and an empty text. Each further line sets
//! something up, or asks something and has the answer after ` -> `; where there is no answer, it is `ok`.
//! Empty lines and those with `#` in front are passed over. Words have one space between two, and numbers are
//! decimal. CALLS are a rank and lines of a trace with ` / ` between two, of which each may begin with its
//! rank where that is another than the one before: `0 send 0 1 0 / finalize / 1 recv 0 0 0 / finalize`.
//!
//! Runs. `head LINE / LINE ..` begins a run without calls. Its analyser gets the calls of `offer`, and its pairs
//! those of `add`; the first call that is refused is the answer, as `refused CODE WORDS`, for `add` as
//! `refused PLACE CODE WORDS`.
//!
//! - `offer CALLS`, `offers N CALLS` (N times over), `all N LINE` (of each rank, the last first, the line N times
//!   and then `finalize`); `add CALLS`, `adds N CALLS`
//! - `told RANK LINE -> send RANK PLACE, recv RANK PLACE, wave COMM WAVE full` adds a call: its partners and its
//!   wave, as far as there are such, or `none`
//! - `reading strict`, `reading eager N` begins the run again, with the same head, under that reading; `head`
//!   begins it under the strict one; `heldback READING READING -> RANK RANK ..`: the ranks that stand earlier
//!   by the first, which is to be no laxer than the second, over the calls that were offered
//! - of the analyser: `stands -> N N ..`, `closed -> yes|no`, `ended RANK -> yes|no`,
//!   `accepted RANK -> N`, `record RANK PLACE -> LINE`, `joins RANK PLACE -> COMM WAVE`, `touches LEAST MOST ->
//!   within`
//! - of the pairs: `added RANK -> N`, `over RANK -> yes|no`, `call RANK PLACE -> LINE`, `partner RANK PLACE
//!   send|recv -> RANK PLACE`, `wave RANK PLACE -> COMM WAVE`, `member COMM WAVE MEMBER -> PLACE`, `started RANK
//!   PLACE REQ -> PLACE`, `completed RANK PLACE INDEX -> PLACE`, `probed RANK PLACE -> RANK PLACE`, `work -> N`,
//!   each `none` where there is none;
//!   `findings -> kind COMM WAVE MEMBER WORD WORD, root COMM WAVE MEMBER ROOT ROOT, unreceived RANK PLACE, request
//!   RANK PLACE REQ, group RANK PLACE`, or `none`
//! - of the analyser's wait graph: `verdict -> free|hang|unfinished`, `stuck -> RANK RANK ..`, `held -> RANK RANK ..`,
//!   `unmet RANK -> RANK PLACE, RANK none`, `causes -> cycle RANK RANK .., missing RANK PEER`, each `none` where there
//!   is none; `report text|json -> TEXT`
//! - `pending all ITEM ..`, `pending any ITEM ..` or `pending unknown` of the next rank, from 0, and `sink RANK PLACE
//!   C:P:T`; an ITEM is a request's number, or `C:P:T` with `any` for a P or T. `known held -> RANK RANK ..`, or `none`,
//!   and `known text|json -> TEXT`, the report, are of the analyser's wait graph with them
//! - of the head: `ranks -> N`, `comms -> N`, `size COMM -> N`, `grouprank COMM RANK -> N`, `worldrank COMM MEMBER
//!   -> RANK`, the last three `none` where there is none
//!
//! Texts. In a TEXT `\n`, `\r`, `\0` and `\ff` are the bytes 10, 13, 0 and 255. Faults are `CODE WORDS`.
//!
//! - `text TEXT` sets the text, `more N TEXT` adds to it N times
//! - `line TEXT` reads the TEXT and a line feed as a line of a trace, `asline` the text: its fault, or `ok` where it
//!   is written as it was read
//! - `values LINE -> Send standard, comm N, dest rank N, tag N` and alike: the call of a line, value by value
//! - `sized WORD BYTES -> yes|no`: whether there is a record of such a send, or `sendrecv`, of so many bytes, or `none`
//! - `ashead -> ranks N, comms N`, or `line N CODE WORDS`
//! - `astrace -> N calls`, or `call N CODE WORDS`; `fronts N M` the same of the first N to M bytes; `gives N -> LINE
//!   / end / end`: what a source gives when it is asked N times. Each is asked of inputs that give 1, 2, 7, 1000 or
//!   all bytes a read, and answered once if all agree
//! - `split COLOUR KEY / undefined KEY .. -> RANK RANK .. / RANK ..`: the groups of a split
//!
//! Lists of numbers in an arena, which a row has none of at first.
//!
//! - `newlist` makes the next one, from 0; `push LIST VALUE`, `move LIST PLACE LIST` (to the back), `append LIST LIST`
//!   (the second's after the first's)
//! - `pop LIST -> VALUE`, `unlink LIST PLACE -> VALUE`, `list LIST -> VALUE VALUE ..`, each `none` where there is none;
//!   `touched -> N`: how often a node was put into a list or taken out of one
#![tactic(auto)]

mod answer;
mod calls;
mod chains;
mod fault;
mod fields;
mod fixture;
mod groups;
mod known;
mod numbers;
mod pairs;
mod readings;
mod runs;
mod texts;
mod waits;
mod words;

use answer::Answer;
use fixture::Fixture;
use std::io;
use std::sync::Wait;

/// What a line came to.
#[derive(Clone, Copy)]
enum Outcome {
    /// It begins a row.
    Row,
    /// It asks nothing.
    Nothing,
    /// It was answered as it says.
    Told,
    /// It was answered otherwise, or it can't be read.
    Other,
}

/// How many rows and right answers there were.
#[derive(Clone, Copy)]
struct Count {
    rows: u64,
    answers: u64,
}

/// Asks what a line asks. Without an answer of its own a line is answered `ok`.
fn outcome_of_question(
    fixture: &mut Fixture,
    answer: &mut Answer,
    line: &str,
    wait: &impl Wait,
) -> Outcome {
    let (asked, wanted) = line.rsplit_once(" -> ").unwrap_or((line, "ok"));
    fixture.ask(answer, asked, wait);
    if answer.is(wanted) {
        Outcome::Told
    } else {
        Outcome::Other
    }
}

/// Does what a line says that sets something up, if it is such a one.
fn is_set(fixture: &mut Fixture, answer: &mut Answer, line: &str) -> bool {
    line.is_empty() || line.starts_with('#') || fixture.set(answer, line)
}

/// Does what a line says, and puts its answer in place.
fn outcome_of(fixture: &mut Fixture, answer: &mut Answer, line: &str, wait: &impl Wait) -> Outcome {
    answer.clear();
    if let Some(name) = line.strip_prefix("row ") {
        fixture.begin(answer, name);
        return Outcome::Row;
    }
    if is_set(fixture, answer, line) {
        return Outcome::Nothing;
    }
    outcome_of_question(fixture, answer, line, wait)
}

/// Does what a line says, counts it, and prints it where it was answered otherwise or went wrong.
fn take<R: Print + Wait>(
    rt: &R,
    fixture: &mut Fixture,
    answer: &mut Answer,
    count: &mut Count,
    line: &str,
) -> io::Result<()> {
    let outcome = outcome_of(fixture, answer, line, rt);
    match outcome {
        Outcome::Row => count.rows = count.rows.saturating_add(1),
        Outcome::Told => count.answers = count.answers.saturating_add(1),
        Outcome::Nothing | Outcome::Other => {}
    }
    if answer.is_wrong() || matches!(outcome, Outcome::Other) {
        return println!(rt; "{}: {line}: answered {}", fixture.name(), answer.told());
    }
    Ok(())
}

fn main(rt: HostRuntime) -> io::Result<()> {
    let mut answer = Answer::new(rt.alloc());
    let mut count = Count {
        rows: 0,
        answers: 0,
    };
    let mut fixture = match Fixture::new(rt.alloc()) {
        Ok(fixture) => fixture,
        Err(fault) => return println!(rt; "the first row: answered {}", fault.text()),
    };
    for line in rt.lines(rt.alloc()) {
        let line = line?;
        take(&rt, &mut fixture, &mut answer, &mut count, line.as_str())?;
    }
    println!(rt; "{} rows, {} answers", count.rows, count.answers)
}
