//! A journal: its header and its lines, read from an input.
//!
//! Each line is put after the others first and then admitted, so that what is known of earlier lines can name
//! them by their places. The first fault ends the reading; lines before it are given up with it.

ghost use Rattle.std.specs.Prelude.{◌≡◌, Ok, ◌≤◌, ◌<◌, ◌&&◌, [], length, take, drop, ◌-◌, IfErr, IfOk, IfSome, OnOk, ◌+◌, option_map};
ghost use Rattle.std.specs.Option.{option_copied};
ghost use Rattle.std.specs.Io.KnownBytes.{prepend_known};
ghost use Rattle.journals.specs.declared.limits.TheConstants.{MOST_LINE_BYTES};
ghost use Rattle.journals.specs.Header.{heading_of, is_of_run};
ghost use Rattle.journals.specs.Headers.{heading};
ghost use Rattle.journals.specs.Inputs.{text_left};
ghost use Rattle.journals.specs.inner.Knows.{Knows, owner_of};
ghost use Rattle.journals.specs.inner.Reader.{IsLine, coming};
ghost use Rattle.journals.specs.Journal.{unless_moved_wrongly};
ghost use Rattle.journals.specs.JournalAnswers.{heading_in, FailsFrom, AnswersJournal};
ghost use Rattle.journals.specs.inner.JournalAnswers.{FindsLine, CutsAt, PassesFound, PassesNext, CountsNext, HeadsJournal, lines_to_come, AnswersComing, AnswersLines, TakesText, ReadsNext, IsNoFailedRead, fault_as};
ghost use Rattle.journals.specs.declared.journal.JournalError.TheVariants as error;

use crate::fault::{JournalFault, JournalFaultKind};
pub use crate::header::Header;
use crate::header::{HeaderLine, read_header};
use crate::known::Known;
use crate::line::LineFault;
use crate::line_window::Window;
use crate::lines::Lines;
use crate::reader::{NextLine, next_line, whole_line};
use crate::room::Room;
use crate::text::TextInput;
use mpicall::device::Input;
use std::alloc::{AllocError, Global};
use std::sync::Wait;
use thiserror::Error;

/// A first line that is no header of the rank's, or of another run's.
const NO_HEADER: JournalFault = JournalFault {
    line: 1,
    kind: JournalFaultKind::Header,
};

/// The most lines that have places.
const MOST_PLACES: usize = 0xffff_ffff;

/// Whether a first line is that of a journal of the same run as this header.
fn is_of_run(header: &Header, line: &HeaderLine<'_>) -> bool
    ensures { result ≡ is_of_run (Some (heading_in header.now)) (heading line.now) }
{
    header.ranks == line.ranks && header.run.as_slice() == line.run
}

impl Header {
    /// How many ranks the run has.
    pub fn ranks(&self) -> u32
        ensures { result ≡ (heading_in self.now).ranks }
    {
        self.ranks
    }

    /// Whether the call of the last call line came back.
    pub fn is_outside(&self) -> bool
        ensures { result ≡ (heading_in self.now).is_outside }
    {
        self.is_outside
    }
}

/// A journal without a fault.
#[derive(Drop)]
pub struct Journal {
    pub header: Header,
    pub lines: Lines,
}

/// Why there is no journal.
#[derive(Clone, Copy, Debug, PartialEq, Eq, Error)]
pub enum JournalError {
    /// This is wrong with it.
    #[error("{0}")]
    Fault(JournalFault),
    /// A read failed; so many whole lines came before, and one more.
    #[error("line {line} E2 read failed")]
    ReadFailed { line: u64 },
    /// There was no memory for what it says.
    #[error("memory")]
    Memory,
}

impl From<AllocError> for JournalError {
    ghost from_gives = { λ _ fault. fault ≡ error.Memory };

    fn from(_fault: AllocError) -> JournalError {
        JournalError::Memory
    }
}

/// Why no line of this number was taken.
#[inline(always)]
fn fault_at(line: u64, fault: LineFault) -> JournalError
    ensures { result ≡ fault_as line fault }
{
    match fault {
        LineFault::Journal(kind) => JournalError::Fault(JournalFault { line, kind }),
        LineFault::Memory => JournalError::Memory,
    }
}

/// Looks for the whole line of a number, and answers how many of the held bytes it has, its line feed last;
/// None at the end.
#[inline(always)]
fn find_line<I: Input>(
    window: &mut Window,
    text: &mut TextInput<I>,
    line: u64,
    wait: &impl Wait,
) -> Result<Option<usize>, JournalError>
    ensures held { IfOk result (λ found. IfSome found (IsLine window.new)) }
    ensures lines { FindsLine line (coming window.old (text_left I.left text.old)) window.new
        (text_left I.left text.new) result }
    ensures cut { CutsAt line (prepend_known window.old (text_left I.left text.old))
        (text_left I.left text.new) result }
    ensures passes { PassesFound (prepend_known window.old (text_left I.left text.old)) window.new
        (text_left I.left text.new) result }
{
    if let Some(count) = whole_line(window) {
        return Ok(Some(count));
    }
    match next_line(window, text, wait) {
        Ok(NextLine::Whole(count)) => Ok(Some(count)),
        Ok(NextLine::TooLong) => Err(JournalError::Fault(JournalFault {
            line,
            kind: JournalFaultKind::TooLong,
        })),
        Ok(NextLine::End) => Ok(None),
        Err(_) => Err(JournalError::ReadFailed { line }),
    }
}

/// The line that has so many of the held bytes, without its line feed.
#[inline(always)]
fn held_line(window: &Window, count: usize) -> &[u8]
    requires { IsLine window.now count }
    ensures line { result.now ≡ take (count - 1) window.now }
    ensures short { length result.now < MOST_LINE_BYTES }
{
    &window.held()[..count - 1]
}

/// The header of the rank's journal that a first line spells, which is of the same run as `first`.
fn header_of(
    alloc: Global,
    rank: u32,
    first: Option<&Header>,
    line: &[u8],
) -> Result<Header, JournalError>
    ensures { HeadsJournal (option_map heading_in (option_copied first.entry))
        (heading_of rank line.now) result }
{
    let Some(line) = read_header(rank, line) else {
        return Err(JournalError::Fault(NO_HEADER));
    };
    if let Some(first) = first {
        if !is_of_run(first, &line) {
            return Err(JournalError::Fault(NO_HEADER));
        }
    }
    Ok(Header {
        ranks: line.ranks,
        run: line.run.to_vec(alloc)?,
        is_outside: line.is_outside,
    })
}

/// What was read of a journal's lines, and what is known by them.
#[derive(Drop)]
struct JournalReader {
    ranks: u32,
    lines: Lines,
    known: Known,
    /// The number of the next line, the header being line 1.
    number: u64,
}

impl JournalReader {
    /// Takes the next line, which has so many of the held bytes, its line feed last.
    fn take_line(&mut self, window: &mut Window, count: usize) -> Result<(), JournalError>
        requires line { IsLine window.old count }
        requires ranks { (owner_of self.old.known).ranks ≡ self.old.ranks }
        requires knows { Knows self.old.lines self.old.known }
        requires number { self.old.number ≡ length self.old.lines + 2 }
        requires some { 1 ≤ self.old.ranks }
        ensures owner { owner_of self.new.known ≡ owner_of self.old.known }
        ensures ranks { self.new.ranks ≡ self.old.ranks }
        ensures knows { OnOk result (Knows self.new.lines self.new.known) }
        ensures number { OnOk result (self.new.number ≡ length self.new.lines + 2) }
        ensures next { OnOk result (self.new.number ≡ self.old.number + 1) }
        ensures window { OnOk result (window.new ≡ drop count window.old) }
        ensures takes { TakesText (owner_of self.old.known) self.old.number self.old.lines self.new.lines
            (take (count - 1) window.old) result }
    {
        let line = held_line(window, count);
        let taken = match self.lines.read(self.ranks, line) {
            Ok(taken) => taken,
            Err(fault) => return Err(fault_at(self.number, fault)),
        };
        if let Err(fault) = self.known.admit(&self.lines, taken) {
            return Err(fault_at(self.number, fault));
        }
        self.number = u64::from(taken.line) + 3;
        window.drop_front(count);
        Ok(())
    }

    /// Reads the next line of the text, and takes it; false at the end.
    fn read_next<I: Input>(
        &mut self,
        window: &mut Window,
        text: &mut TextInput<I>,
        wait: &impl Wait,
    ) -> Result<bool, JournalError>
        requires ranks { (owner_of self.old.known).ranks ≡ self.old.ranks }
        requires knows { Knows self.old.lines self.old.known }
        requires number { self.old.number ≡ length self.old.lines + 2 }
        requires some { 1 ≤ self.old.ranks }
        ensures owner { owner_of self.new.known ≡ owner_of self.old.known }
        ensures ranks { self.new.ranks ≡ self.old.ranks }
        ensures knows { OnOk result (Knows self.new.lines self.new.known) }
        ensures number { OnOk result (self.new.number ≡ length self.new.lines + 2) }
        ensures next { CountsNext self.old.number self.new.number result }
        ensures lines { ReadsNext
            (lines_to_come (owner_of self.old.known) self.old.lines
            (coming window.old (text_left I.left text.old)))
            (lines_to_come (owner_of self.old.known) self.new.lines
            (coming window.new (text_left I.left text.new)))
            self.new.lines result }
        ensures cut { CutsAt self.old.number (prepend_known window.old (text_left I.left text.old))
            (text_left I.left text.new) result }
        ensures passes { PassesNext (prepend_known window.old (text_left I.left text.old))
            (prepend_known window.new (text_left I.left text.new)) result }
    {
        match find_line(window, text, self.number, wait) {
            Ok(Some(count)) => match self.take_line(window, count) {
                Ok(()) => Ok(true),
                Err(error) => Err(error),
            },
            Ok(None) => Ok(false),
            Err(error) => Err(error),
        }
    }
}

/// The lines that were read, if each receive that they report to be moved may be.
fn checked(known: &Known, lines: Lines) -> Result<Lines, JournalError>
    requires { Knows lines known.now }
    ensures lines { AnswersLines (unless_moved_wrongly (Ok lines)) result }
    ensures whole { IfErr result IsNoFailedRead }
{
    let count = lines.count();
    if count > MOST_PLACES {
        return Err(JournalError::Memory);
    }
    if !lines.have_moved() {
        return Ok(lines);
    }
    for place in 0..count {
        if known.is_moved_wrongly(&lines, place as u32) {
            return Err(JournalError::Fault(JournalFault {
                line: place as u64 + 2,
                kind: JournalFaultKind::OutOfPlace,
            }));
        }
    }
    Ok(lines)
}

/// Reads the lines after the header to the text's end.
fn read_lines<I: Input>(
    mut reading: JournalReader,
    window: &mut Window,
    text: &mut TextInput<I>,
    room: &mut Room,
    wait: &impl Wait,
) -> Result<Lines, JournalError>
    requires ranks { (owner_of reading.known).ranks ≡ reading.ranks }
    requires knows { Knows reading.lines reading.known }
    requires number { reading.number ≡ length reading.lines + 2 }
    requires some { 1 ≤ reading.ranks }
    ensures lines { AnswersComing
        (option_map unless_moved_wrongly (lines_to_come (owner_of reading.known) reading.lines
        (coming window.old (text_left I.left text.old))))
        result }
    ensures cut { FailsFrom reading.number (prepend_known window.old (text_left I.left text.old))
        (text_left I.left text.new) result }
{
    for _ in wait.forever() {
        match reading.read_next(window, text, wait) {
            Ok(true) => {}
            Ok(false) => {
                let JournalReader {
                    mut lines,
                    known,
                    ..
                } = reading;
                room.fit(&mut lines);
                let lines = checked(&known, lines);
                room.keep(known.into_notes());
                return lines;
            }
            Err(error) => return Err(error),
        }
    }
    unreachable!()
}

/// Reads the journal of a rank to its end: what it says, or its first fault. `first` is the header of rank
/// 0's journal, if this is another's. A text may have no end, so this may wait for good.
pub fn read_journal<I: Input>(
    room: &mut Room,
    rank: u32,
    first: Option<&Header>,
    text: &mut TextInput<I>,
    wait: &impl Wait,
) -> Result<Journal, JournalError>
    ensures journal { AnswersJournal rank (option_map heading_in (option_copied first.entry))
        (text_left I.left text.old) result }
    ensures cut { FailsFrom 1 (text_left I.left text.old) (text_left I.left text.new) result }
{
    let mut window = Window::new();
    let count = match find_line(&mut window, text, 1, wait) {
        Ok(Some(count)) => count,
        Ok(None) => return Err(JournalError::Fault(NO_HEADER)),
        Err(error) => return Err(error),
    };
    let header = match header_of(room.alloc(), rank, first, held_line(&window, count)) {
        Ok(header) => header,
        Err(error) => return Err(error),
    };
    window.drop_front(count);
    let known = Known::new(room.alloc(), header.ranks, rank, room.take())?;
    let reading = JournalReader {
        ranks: header.ranks,
        lines: room.lines(),
        known,
        number: 2,
    };
    match read_lines(reading, &mut window, text, room, wait) {
        Ok(lines) => Ok(Journal { header, lines }),
        Err(error) => Err(error),
    }
}
