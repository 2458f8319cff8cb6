//! Runs the program `mpiwait` on rows of words and files in memory, and prints each row whose answer is another
//! one, each line that no row has, and at the end how many rows ran. The file `stdout` next to `src` has that
//! number, so it grows with each row that is added.
//!
//! The rows are lines of text on standard input. A line begins with a word that says what it is; empty lines
//! and lines that begin with `# ` say nothing. A row:
//!
//! ```text
//! row NAME               begins a row, of any name
//! same NAME              begins a row that asks for the same as the row before, with the same words and files
//! words WORD ..          the words after the program's name, which is to be run on them
//! word TEXT              one more word, as it is: with blanks in it, or empty
//! bytes HH ..            one more word by its bytes, each two hexadecimal digits
//! file PATH              a file, with the text that follows:
//! | TEXT                 a line of it
//! . TEXT                 a piece of it without a line feed
//! zero TEXT              a zero byte, and a piece without a line feed after it; no text is needed
//! many N TEXT            a line N times
//! repeat N TEXT          a piece without a line feed, N times
//! counts N TEXT          a line N times, with a blank and its number after it, from 1
//! fails PATH N           read N of that file fails, counted from 0
//! pieces N               a read of a file gives at most N bytes
//! threads                each file is read by a thread of its own, as where a read may wait; else by turns
//! meet PATH PATH         the first reads of these two files wait for each other, and fail if they don't meet
//! out-fails N            write N on standard output fails, counted from 0
//! out-pieces N           a write on standard output takes at most N bytes
//! err-fails N            write N on standard error fails, counted from 0
//! rests PATH N MS        read N of that file comes after so many milliseconds
//! terminal               standard error is a terminal, for what shows how far a check is
//! shown-fails N          write N of what shows that fails, counted from 0
//! status N               the exit status that is wanted
//! out                    the text follows that must be on standard output, in lines as those of a file
//! err                    the same of standard error; an output without a text must have none
//! begins                 these texts are only how those on the outputs begin
//! has TEXT               TEXT is somewhere on standard output, of which no whole text is given
//! has-end TEXT           the same, at the end of a line
//! made PATH              a file that must be made, with the text that follows; where none must be, none can be
//! shown TEXT             TEXT is somewhere in what shows how far the check is; without one nothing is shown
//! end                    ends the row
//! ```
//!
//! In place of `words` a row may ask for something that the outputs don't show, or that no run comes to:
//!
//! ```text
//! capacity WORD ..       how many records of a rank may wait, by these words of the program: a number or `none`
//! number WORD            the number of records that the word spells, or `none`
//! fault CODE PLACE CALL  the text and status of a fault: its code as `L1`, then the rank and the call, or the
//!                        line of the head; `seal` and a rank; `memory`, `write`; `words`: no memory for the words
//! ```
#![tactic(auto)]

mod arguments;
mod fault;
mod named;
mod outcome;
mod parser;
mod row;
mod row_files;

use outcome::answer_of;
use parser::{RowParser, Step};
use row::Row;
use std::alloc::{AllocError, Global};
use std::io;
use std::sync::Wait;
use std::thread::Threads;
use std::time::Clock;

/// The text that some bytes are.
fn text_of(alloc: Global, bytes: &[u8]) -> Result<String, AllocError> {
    String::from_str(alloc, str::from_utf8(bytes).unwrap_or("no text"))
}

/// Prints a row whose answer isn't the wanted one.
fn run_row<R: AllocGlobal + Print + Eprint + Threads + Wait + Clock + Sync>(
    rt: &R,
    row: &Row,
) -> io::Result<()> {
    let answer = answer_of(rt, row)?;
    if answer.is_wanted(&row.wanted) {
        return Ok(());
    }
    let out = text_of(rt.alloc(), answer.out.as_slice())?;
    let err = text_of(rt.alloc(), answer.err.as_slice())?;
    println!(rt;
        "row {}: {:?}, files as wanted: {}\nout\n{out}err\n{err}end",
        row.name, answer.code, answer.is_made
    )
}

fn main(rt: HostRuntime) -> io::Result<()> {
    let mut reading = RowParser::new(rt.alloc());
    let mut place = 0u64;
    let mut rows = 0u64;
    for line in rt.lines(rt.alloc()) {
        place = place.saturating_add(1);
        let line = line?;
        match reading.read(rt.alloc(), line.as_str()) {
            Ok(Step::More) => {}
            Ok(Step::Row) => {
                rows = rows.saturating_add(1);
                run_row(&rt, reading.row())?;
            }
            Err(fault) => println!(rt; "line {place}: {fault}")?,
        }
    }
    if reading.is_open() {
        println!(rt; "the last row has no end")?;
    }
    println!(rt; "{rows} rows")
}
