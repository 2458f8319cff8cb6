//! The reports of a call line, and the last call line of a journal.

ghost use Rattle.std.specs.Prelude.{◌≡◌, drop, option_map};
ghost use Rattle.std.specs.Option.{option_copied};
ghost use Rattle.journals.specs.declared.word.Word.TheVariants.{Report};
ghost use Rattle.journals.specs.Faults.{ends_with_cut};
ghost use Rattle.journals.specs.JournalAnswers.{heading_in};
ghost use Rattle.journals.specs.Taking.{word_at};
ghost use Rattle.closing.specs.Entries.{comes_always, is_cut_off, is_window, lines_in, says_back};
ghost use Rattle.closing.specs.Journals.{journal_in, run_in};
ghost use Rattle.closing.specs.inner.Noted.{AreReports, HavePlaces, IsLastCall, call_if, first_place, is_cut_if, noted, report_if, reports_in};
ghost use Rattle.closing.specs.inner.Rankwise.{AreFew};

use crate::places::count_of;
use journals::journal::Journal;
use journals::lines::Lines;
use journals::word::{CallWord, ReportWord, Word};

/// What is reported of a call: the lines that say it, by their places, and the place of the next call line.
#[derive(Clone, Copy)]
pub(crate) struct Reports {
    pub got: Option<u32>,
    pub chose: Option<u32>,
    pub comm: Option<u32>,
    pub has_failed: bool,
    pub end: u32,
}

/// The place of the first line of two.
fn first_place(first: Option<u32>, line: u32) -> Option<u32>
    ensures { result ≡ first_place first line }
{
    match first {
        Some(place) => Some(place),
        None => Some(line),
    }
}

impl Reports {
    fn note(&mut self, word: ReportWord, line: u32)
        ensures { self.new ≡ noted self.old word line }
    {
        match word {
            ReportWord::Got => self.got = first_place(self.got, line),
            ReportWord::Chose => self.chose = first_place(self.chose, line),
            ReportWord::Comm => self.comm = first_place(self.comm, line),
            ReportWord::Failed => self.has_failed = true,
            _ => {}
        }
    }
}

/// The word of a line, where that is a report.
#[inline(always)]
fn report_at(lines: &Lines, line: u32) -> Option<ReportWord>
    ensures { result ≡ report_if (word_at lines.now line) }
{
    match lines.word(line) {
        Some(Word::Report(word)) => Some(word),
        Some(Word::Call(_)) => None,
        None => None,
    }
}

/// What is reported from a line on, up to the next call line.
pub(crate) fn reports_from(lines: &Lines, start: u32) -> Reports
    ensures { HavePlaces lines.now → AreReports lines.now start (reports_in (drop start lines.now)) result }
{
    let mut reports = Reports {
        got: None,
        chose: None,
        comm: None,
        has_failed: false,
        end: start,
    };
    for line in start..u32::MAX {
        match report_at(lines, line) {
            Some(word) => reports.note(word, line),
            None => return reports,
        }
        reports.end = line + 1;
    }
    reports
}

/// The last call line of a journal.
#[derive(Clone, Copy)]
pub(crate) struct LastCall {
    pub line: u32,
    pub came_back: bool,
}

/// Whether a report says that the call before it came back.
fn says_back(word: ReportWord) -> bool
    ensures { result ≡ says_back (Report word) }
{
    !matches!(
        word,
        ReportWord::Done
            | ReportWord::Gone
            | ReportWord::Kept
            | ReportWord::Moved
            | ReportWord::Apart
    )
}

/// Whether such a call always came back.
fn comes_always(word: CallWord) -> bool
    ensures { result ≡ comes_always word }
{
    matches!(word, CallWord::Test | CallWord::Iprobe | CallWord::Improbe)
}

/// The last call line, and whether its call came back: the rank is outside it, or a report says so.
pub(crate) fn last_call(lines: &Lines, is_outside: bool) -> Option<LastCall>
    ensures { HavePlaces lines.now → IsLastCall lines.now is_outside result }
{
    let mut came_back = is_outside;
    for line in (0..count_of(lines)).rev() {
        match lines.word(line) {
            Some(Word::Report(word)) => came_back = came_back || says_back(word),
            Some(Word::Call(word)) => {
                return Some(LastCall {
                    line,
                    came_back: came_back || comes_always(word),
                });
            }
            None => {}
        }
    }
    None
}

fn is_cut(word: Option<Word>) -> bool
    ensures { result ≡ is_cut_if (call_if word) }
{
    matches!(word, Some(Word::Call(CallWord::Cut)))
}

/// Whether a journal ends where nothing is under way.
fn ends_with_cut(journal: &Journal) -> bool
    ensures { HavePlaces journal.now.lines → result ≡ ends_with_cut journal.now.lines }
{
    match last_call_of(journal) {
        Some(last) => is_cut(journal.lines.word(last.line)),
        None => false,
    }
}

/// Whether that of a rank does, if it has one.
pub(crate) fn is_cut_off(journal: Option<&Journal>) -> bool
    ensures { HavePlaces (lines_in (option_map journal_in (option_copied journal.entry))) →
        result ≡ is_cut_off (option_map journal_in (option_copied journal.entry)) }
{
    match journal {
        Some(journal) => ends_with_cut(journal),
        None => false,
    }
}

/// Whether those of all ranks do.
pub(crate) fn are_cut_off(journals: &[Option<Journal>]) -> bool
    ensures { AreFew journals.now → result ≡ is_window (run_in journals.now) }
{
    for rank in 0..journals.len() {
        if !is_cut_off(journals[rank].as_ref()) {
            return false;
        }
    }
    true
}

/// The last call line of a rank's journal, and whether its call came back.
pub(crate) fn last_call_of(journal: &Journal) -> Option<LastCall>
    ensures { HavePlaces journal.now.lines → IsLastCall journal.now.lines (heading_in journal.now.header).is_outside result }
{
    last_call(&journal.lines, journal.header.is_outside())
}
