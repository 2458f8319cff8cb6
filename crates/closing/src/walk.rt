//! The list of a rank, made entry by entry of its journal.

ghost use Rattle.std.specs.Prelude.{◌≡◌, ◌+◌, ◌<◌, ◌^◌, ℕ, [], ◌∷◌, ◌++◌, true, Some, None, IsTrue, OnOk, length, drop, List as Items, ◌≤◌, ◌⊎◌, false, IfOk, option_map, slice_get};
ghost use Rattle.mpicall.specs.Limits.{in_ranges};
ghost use Rattle.mpicall.specs.declared.call.Call.TheVariants.{Finalize, Open};
ghost use Rattle.journals.specs.Taking.{word_at, fields_at as fields_in};
ghost use Rattle.journals.specs.declared.word.ReportWord.{ReportWord as Reported};
ghost use Rattle.journals.specs.declared.word.Word.TheVariants.{Report};
ghost use Rattle.closing.specs.Entries.{Placed, Run, entries_at, journal_at, lines_at};
ghost use Rattle.closing.specs.Entry.{is_past};
ghost use Rattle.closing.specs.Endings.{breaks_off};
ghost use Rattle.closing.specs.FitComms.{comms_are_numbered};
ghost use Rattle.closing.specs.Made.{inferred_key};
ghost use Rattle.closing.specs.Recording.{is_end, progress_first};
ghost use Rattle.closing.specs.Steps.{Progress};
ghost use Rattle.closing.specs.inner.Holds.{HasComms, brings};
ghost use Rattle.closing.specs.inner.CallOf.{IsCallOf};
ghost use Rattle.closing.specs.inner.Lists.{Handed, Stands, has_place};
ghost use Rattle.closing.specs.inner.Makers.{MayMake};
ghost use Rattle.closing.specs.inner.Noted.{call_if, came_back_at, reports_in, line_if};
ghost use Rattle.closing.specs.inner.Pending.{key_told, pending};
ghost use Rattle.closing.specs.inner.SoFar.{comms_at, IsAtEntry, IsBefore, IsBegun, IsEntered, IsFitEntry, IsReady, IsWalk, placed_here};
ghost use Rattle.closing.specs.inner.Standings.{message_for};
ghost use Rattle.closing.specs.inner.Table.{Grows, IsPlaceOf};
ghost use Rattle.closing.specs.inner.Views.{called_view};
ghost use Rattle.std.specs.List.{list_all};
ghost use Rattle.closing.specs.Numbers.{preface_of};
ghost use Rattle.closing.specs.inner.Numbered.{IsNumberedRun};
ghost use Rattle.closing.specs.Called.{called};
ghost use Rattle.closing.specs.Fit.{IsFit};
ghost use Rattle.closing.specs.Journals.{journal_in};
ghost use Rattle.closing.specs.RankComms.{comms_first, makes_comm};
ghost use Rattle.closing.specs.Recordings.{choice_in};
ghost use Rattle.journals.specs.Header.{Heading};
ghost use Rattle.closing.specs.inner.RequestReports.{AreReadable};
ghost use Rattle.closing.specs.inner.Walked.{LateCall, Meets, TakesCall, fields_of_line, message_after, number_at, number_or, size_at};
ghost use Rattle.closing.specs.inner.Walks.{Spot};

use crate::called::{Called, read_call, receives, starts_receive, starts_send};
use crate::choice::{Calls, Choice};
use crate::freed::Freed;
use crate::keys::Wave;
use crate::last::{LastCall, Reports, last_call, reports_from};
use crate::list::List;
use crate::message::{Message, message_in};
use crate::numbers::{Communicators, Named};
use crate::pending::{Pending, Sink, Sinks};
use crate::rank_comms::RankComms;
use crate::standing::Standing;
use crate::stop::Stop;
use crate::survey::brings;
use crate::why::Why;
use journals::field::Field;
use journals::journal::Journal;
use journals::lines::Lines;
use journals::word::{CallWord, ReportWord, Word};
use mpicall::call::{Call, Mode};
use mpicall::record::Record;
use std::alloc::{AllocError, Global};

mod collective;
mod made;
mod message;
mod seldom;
mod sinks;
mod wait;

/// At which line, and why, the list of a rank ends before its end. The header is line 1; 0 is none.
#[derive(Clone, Copy, PartialEq, Eq)]
pub struct Left {
    pub line: u32,
    pub why: Why,
}

/// An entry: what it is on, and what is reported of it.
#[derive(Clone, Copy)]
struct At<'a> {
    /// The communicator that it is on, or makes of a group.
    named: Option<Named>,
    /// Its wave, and the key of what its call made.
    wave: Option<Wave>,
    made: Option<u32>,
    came_back: bool,
    /// As it went, it stands for what it started alone.
    is_past: bool,
    got: Option<Message>,
    chose: Option<&'a [Field]>,
}

impl At<'_> {
    /// How many members the communicator has.
    #[inline(always)]
    fn size(&self) -> u32
        ensures { result ≡ size_at self.now }
    {
        match self.named {
            Some(named) => named.size,
            None => 0,
        }
    }

    /// The number of the communicator, where what the call names can be.
    #[inline(always)]
    fn number_if(&self, can_be: bool) -> Result<u16, Stop>
        ensures { result ≡ number_or can_be (number_at self.now) }
    {
        if !can_be {
            return Err(Stop::Left(Why::CannotBe));
        }
        match self.named {
            Some(
                Named {
                    number: Some(number),
                    ..
                },
            ) => Ok(number),
            _ => Err(Stop::Left(Why::NoNumber)),
        }
    }
}

/// A call line, by its place, and what is reported of it.
#[derive(Clone, Copy)]
struct Entry {
    place: u32,
    word: CallWord,
    reports: Reports,
}

/// What stands of a rank so far.
#[derive(Drop)]
pub struct Walk {
    rank: u16,
    choice: Choice,
    last: Option<LastCall>,
    comms: RankComms,
    list: List,
    requests: Standing,
    /// The sends that tests completed, which are waited for at the end.
    late: Vec<u32>,
    /// The requests of the entry, and those of them that it completed.
    ids: Vec<u32>,
    wanted: Vec<u32>,
    /// The next line of the journal, by its place.
    next: u32,
    /// The number of the entry's line.
    line: u32,
    /// How many records were handed on, and how many were made before the entry.
    handed: usize,
    before: usize,
    is_over: bool,
    left: Option<Left>,
    /// What is known of receives whose messages aren't, and of the call in which the rank was; and the entries that
    /// stand in no line of their own.
    sinks: Sinks,
    pending: Pending,
    left_out: Vec<Left>,
}

/// The number of a line in the journal, by its place after the header.
fn line_number(place: u32) -> u32
    ensures { place + 2 < 4294967296 → result ≡ place + 2 }
{
    place.saturating_add(2)
}

/// The word of a line, where that is a call line.
fn call_at(lines: &Lines, line: u32) -> Option<CallWord>
    ensures { result ≡ call_if (word_at lines.now line) }
{
    match lines.word(line) {
        Some(Word::Call(word)) => Some(word),
        Some(Word::Report(_)) => None,
        None => None,
    }
}

/// Whether a line is a report that brings no communicator.
#[inline(always)]
fn brings_none(lines: &Lines, line: u32) -> bool
    ensures { result ≡ true → (word : Reported) → word_at lines.now line ≡ Some (Report word) → brings word ≡ false }
{
    match lines.word(line) {
        Some(Word::Report(word)) => !brings(word),
        _ => false,
    }
}

/// Why a call ends the list whatever is reported of it; a cut does unless the run is a window.
#[inline(always)]
fn breaks_off(is_window: bool, it: &Called<'_>) -> Option<Why>
    ensures { result ≡ breaks_off is_window (called_view it.now) }
{
    match it {
        Called::Stops => Some(Why::Stopped),
        Called::Aborts => Some(Why::Aborted),
        Called::Fills => Some(Why::Full),
        Called::Cuts => { if is_window { None } else { Some(Why::Cut) } }
        _ => None,
    }
}

#[inline(always)]
fn is_end(it: &Called<'_>) -> bool
    ensures { result ≡ is_end (called_view it.now) }
{
    matches!(it, Called::Finalizes | Called::Exits | Called::Cuts)
}

/// The fields of a line, where there is one.
#[inline(always)]
#[tactic(auto, using(crate::proofs::AtLemmas::fields_there, crate::proofs::AtLemmas::fields_none))]
fn fields_if(lines: &Lines, line: Option<u32>) -> Option<&[Field]>
    ensures { option_map (λ fields. fields.now) result ≡ option_map (λ line. line.fields) (line_if lines.now line) }
{
    let line = line?;
    match lines.word(line) {
        Some(_) => Some(lines.fields(line)),
        None => None,
    }
}

/// The fields of a line; none where there is no line.
#[inline(always)]
fn fields_at(lines: &Lines, line: Option<u32>) -> &[Field]
    ensures { result.now ≡ fields_of_line lines.now line }
{
    match line {
        Some(line) => lines.fields(line),
        None => &[],
    }
}

impl Walk {
    /// The list of a rank with its preface alone. A rank without a journal has no more.
    pub(crate) fn new(
        alloc: Global,
        rank: u16,
        choice: Choice,
        run: &mut Communicators,
        journal: Option<&Journal>,
    ) -> Result<Walk, AllocError>
        ensures rank { IfOk result (λ it. (it.rank ≡ rank) × (it.choice ≡ choice)) }
        ensures handed { IfOk result (λ it. it.handed ≡ 0) }
        ensures before { IfOk result (λ it. it.before ≡ 0) }
        ensures alone { IfOk result (λ it. journal.entry ≡ None → it.is_over ≡ true) }
        ensures run { OnOk result (run.new ≡ record run.old { keys = run.new.keys }) }
        ensures walk { IfOk result (λ it. (said : Run) → IsNumberedRun said run.old → IsFit said (choice_in choice) → rank < length said →
            journal_at said rank ≡ option_map (λ one. journal_in one.now) journal.entry → length (lines_at said rank) ≤ 4294967292 →
            IsWalk said (choice_in choice) run.new.keys it × Grows run.old.keys run.new.keys) }
    {
        let alone = run.keys.put_alone(u32::from(rank))?;
        let freed = Freed::of(alloc, journal)?;
        let mut walk = Walk {
            rank,
            choice,
            last: None,
            comms: RankComms::first(alloc, alone)?,
            list: List::new(alloc, freed),
            requests: Standing::empty(alloc),
            late: Vec::new(alloc),
            ids: Vec::new(alloc),
            wanted: Vec::new(alloc),
            next: 0,
            line: 0,
            handed: 0,
            before: 0,
            is_over: false,
            left: None,
            sinks: Sinks::new(alloc),
            pending: Pending::unknown(alloc),
            left_out: Vec::new(alloc),
        };
        walk.put_preface(run)?;
        match journal {
            Some(journal) => walk.begin(alloc, run, journal)?,
            None => walk.leave(Why::NoJournal)?,
        }
        Ok(walk)
    }

    /// A preface has fewer lines than a list may have.
    fn put_preface(&mut self, run: &Communicators) -> Result<(), AllocError>
        ensures same { OnOk result (self.new ≡ record self.old { list = self.new.list }) }
        ensures stands { OnOk result ((said : Run) (handed : Handed) → IsNumberedRun said run.now → self.old.rank < length said → IsTrue (list_all in_ranges (preface_of said self.old.rank)) →
            Stands handed (record { records = []; active = []; late = [] }) self.old.list → Stands handed (progress_first said self.old.rank) self.new.list) }
    {
        for line in 0..run.preface.count() {
            self.list.put(&run.preface.split(line, self.rank))?;
        }
        Ok(())
    }

    /// Takes what is reported before the first call line.
    fn begin(
        &mut self,
        alloc: Global,
        run: &mut Communicators,
        journal: &Journal,
    ) -> Result<(), AllocError>
        ensures same { OnOk result (self.new ≡ record self.old { requests = self.new.requests; last = self.new.last; comms = self.new.comms; next = self.new.next }) }
        ensures run { OnOk result (run.new ≡ record run.old { keys = run.new.keys }) }
        ensures begun { OnOk result (AreReadable journal.now.lines → HasComms run.old.keys self.old.comms (comms_first self.old.rank) →
            IsBegun run.new.keys (journal_in journal.now) self.new) }
        ensures grows { OnOk result (AreReadable journal.now.lines → HasComms run.old.keys self.old.comms (comms_first self.old.rank) →
            Grows run.old.keys run.new.keys) }
    {
        self.requests = Standing::of(alloc, &journal.lines)?;
        self.last = last_call(&journal.lines, journal.header.is_outside());
        let reports = reports_from(&journal.lines, 0);
        self.take_reports(run, &journal.lines, 0, reports.end)?;
        self.next = reports.end;
        Ok(())
    }

    /// Ends the list before its end.
    #[tactic(auto, using(crate::proofs::PartLemmas::cut_is, crate::proofs::PartLemmas::cut_begins))]
    fn leave(&mut self, why: Why) -> Result<(), AllocError>
        ensures same { self.new ≡ record self.old { list = self.new.list; is_over = true; left = Some (record { line = self.old.line; why = why }) } }
        ensures end { OnOk result (self.new.list.records ≡ self.old.list.records ++ Open ∷ []) }
        ensures freed { self.new.list.freed ≡ self.old.list.freed }
    {
        self.left = Some(Left {
            line: self.line,
            why,
        });
        self.finish(Call::Open)
    }

    #[inline(never)]
    fn finish(&mut self, end: Call) -> Result<(), AllocError>
        ensures same { self.new ≡ record self.old { list = self.new.list; is_over = true } }
        ensures end { OnOk result (IsTrue (in_ranges end) → self.new.list.records ≡ self.old.list.records ++ end ∷ []) }
        ensures freed { self.new.list.freed ≡ self.old.list.freed }
    {
        self.is_over = true;
        self.list.put(&end)
    }

    /// Leaves the list open at the journal's end.
    #[inline(never)]
    fn finish_open(&mut self) -> Result<(), AllocError>
        ensures same { self.new ≡ record self.old { list = self.new.list; is_over = true } }
        ensures end { OnOk result (IsTrue (in_ranges Open) → self.new.list.records ≡ self.old.list.records ++ Open ∷ []) }
        ensures freed { self.new.list.freed ≡ self.old.list.freed }
    {
        self.finish(Call::Open)
    }

    /// Ends the list with the rank's calls.
    #[inline(never)]
    fn finish_calls(&mut self) -> Result<(), AllocError>
        ensures same { self.new ≡ record self.old { list = self.new.list; is_over = true } }
        ensures end { OnOk result (IsTrue (in_ranges Finalize) → self.new.list.records ≡ self.old.list.records ++ Finalize ∷ []) }
        ensures freed { self.new.list.freed ≡ self.old.list.freed }
    {
        self.finish(Call::Finalize)
    }

    // ---- What there is of the list ----

    /// The records that weren't handed on yet, all of one entry.
    pub(crate) fn records(&self) -> &[Record]
        ensures { result.now ≡ self.now.list.records }
    {
        self.list.records()
    }

    /// Those records were handed on.
    pub(crate) fn forget_records(&mut self)
        ensures same { self.new ≡ record self.old { list = self.new.list; handed = self.new.handed } }
        ensures none { self.new.list.records ≡ [] }
        ensures handed { self.old.handed + length self.old.list.records < 2 ^ 64 → self.new.handed ≡ self.old.handed + length self.old.list.records }
        ensures stands { (handed : Handed) (progress : Progress) → Stands handed progress self.old.list →
            Stands (record handed { calls = handed.calls ++ self.old.list.records }) progress self.new.list }
        ensures freed { self.new.list.freed ≡ self.old.list.freed }
    {
        let count = self.list.records().len();
        self.handed = self.handed.saturating_add(count);
        self.list.forget_records();
    }

    /// The number of the line of their entry; 0 in the preface.
    pub(crate) fn line(&self) -> u32
        ensures { result ≡ self.now.line }
    {
        self.line
    }

    pub(crate) fn is_over(&self) -> bool
        ensures { result ≡ self.now.is_over }
    {
        self.is_over
    }

    pub(crate) fn left(&self) -> Option<Left>
        ensures { result ≡ self.now.left }
    {
        self.left
    }

    /// The receives whose messages aren't known, by their places.
    pub(crate) fn sinks(&self) -> &[Sink]
        ensures { result.now ≡ self.now.sinks.all.items }
    {
        self.sinks.all()
    }

    /// The call in which the rank was when its list was left open.
    pub(crate) fn pending(&self) -> &Pending
        ensures { result.now ≡ self.now.pending }
    {
        &self.pending
    }

    /// The entries before the end that stand in no line of their own, and why.
    pub(crate) fn left_out(&self) -> &[Left]
        ensures { result.now ≡ self.now.left_out.items }
    {
        self.left_out.as_slice()
    }

    /// Whether the record at a place starts a request that the rank's program frees.
    pub(crate) fn starts_freed(&self, place: u32) -> bool
        ensures { result ≡ has_place self.now.list.freed place }
    {
        self.list.starts_freed(place)
    }

    // ---- Entries ----

    /// Does what `take_report` does, by any report.
    #[inline(never)]
    #[tactic(auto, using(crate::proofs::PlacedLemmas::comms_reported))]
    fn take_any_report(
        &mut self,
        run: &mut Communicators,
        lines: &Lines,
        line: u32,
    ) -> Result<Option<u32>, AllocError>
        ensures same { self.new ≡ record self.old { comms = self.new.comms } }
        ensures run { run.new ≡ record run.old { keys = run.new.keys } }
        ensures comms { OnOk result ((rank : ℕ) (word : Reported) → word_at lines.now line ≡ Some (Report word) → HasComms run.old.keys self.old.comms (comms_at rank lines.now line) →
            HasComms run.new.keys self.new.comms (comms_at rank lines.now (line + 1))) }
        ensures grows { OnOk result ((rank : ℕ) → HasComms run.old.keys self.old.comms (comms_at rank lines.now line) → Grows run.old.keys run.new.keys) }
        ensures made { IfOk result (λ made. (rank : ℕ) (word : Reported) → word_at lines.now line ≡ Some (Report word) → HasComms run.old.keys self.old.comms (comms_at rank lines.now line) →
            IsPlaceOf run.new.keys made (key_told (comms_at rank lines.now line) word (fields_in lines.now line))) }
    {
        let Some(Word::Report(word)) = lines.word(line) else {
            return Ok(None);
        };
        let key = self
            .comms
            .take_report(&mut run.keys, word, lines.fields(line))?;
        match word {
            ReportWord::Comm => Ok(key),
            _ => Ok(None),
        }
    }

    /// Takes the report at a place, if there is one, and answers the key of the communicator that the call before
    /// it made. Most bring none.
    #[inline(always)]
    fn take_report(
        &mut self,
        run: &mut Communicators,
        lines: &Lines,
        line: u32,
    ) -> Result<Option<u32>, AllocError>
        ensures same { self.new ≡ record self.old { comms = self.new.comms } }
        ensures run { run.new ≡ record run.old { keys = run.new.keys } }
        ensures comms { OnOk result ((rank : ℕ) (word : Reported) → word_at lines.now line ≡ Some (Report word) → HasComms run.old.keys self.old.comms (comms_at rank lines.now line) →
            HasComms run.new.keys self.new.comms (comms_at rank lines.now (line + 1))) }
        ensures grows { OnOk result ((rank : ℕ) → HasComms run.old.keys self.old.comms (comms_at rank lines.now line) → Grows run.old.keys run.new.keys) }
        ensures made { IfOk result (λ made. (rank : ℕ) (word : Reported) → word_at lines.now line ≡ Some (Report word) → HasComms run.old.keys self.old.comms (comms_at rank lines.now line) →
            IsPlaceOf run.new.keys made (key_told (comms_at rank lines.now line) word (fields_in lines.now line))) }
    {
        if brings_none(lines, line) {
            return Ok(None);
        }
        self.take_any_report(run, lines, line)
    }

    /// Takes the reports at some places, and answers the key of the communicator that the call before them
    /// made.
    #[inline(always)]
    #[tactic(auto, using(crate::proofs::SoFarLemmas::reports_first, crate::proofs::SoFarLemmas::reports_next, crate::proofs::SoFarLemmas::reports_last))]
    fn take_reports(
        &mut self,
        run: &mut Communicators,
        lines: &Lines,
        start: u32,
        end: u32,
    ) -> Result<Option<u32>, AllocError>
        ensures same { self.new ≡ record self.old { comms = self.new.comms } }
        ensures run { run.new ≡ record run.old { keys = run.new.keys } }
        ensures comms { OnOk result ((rank : ℕ) → end ≡ start + length (reports_in (drop start lines.now)) → HasComms run.old.keys self.old.comms (comms_at rank lines.now start) →
            HasComms run.new.keys self.new.comms (comms_at rank lines.now end)) }
        ensures grows { OnOk result ((rank : ℕ) → end ≡ start + length (reports_in (drop start lines.now)) → HasComms run.old.keys self.old.comms (comms_at rank lines.now start) →
            Grows run.old.keys run.new.keys) }
        ensures made { IfOk result (λ made. (rank : ℕ) → comms_are_numbered lines.now ≡ true → end ≡ start + length (reports_in (drop start lines.now)) →
            HasComms run.old.keys self.old.comms (comms_at rank lines.now start) → IsPlaceOf run.new.keys made (pending (comms_at rank lines.now start) (drop start lines.now))) }
    {
        let mut made = None;
        for line in start..end {
            let key = self.take_report(run, lines, line)?;
            made = made.or(key);
        }
        Ok(made)
    }

    /// Takes the next entry; at the journal's end the list is left open.
    pub(crate) fn step(&mut self, run: &mut Communicators, lines: &Lines) -> Result<(), AllocError>
        ensures rank { (self.new.rank ≡ self.old.rank) × (self.new.choice ≡ self.old.choice) }
        ensures handed { self.new.handed ≡ self.old.handed }
        ensures before { OnOk result (self.old.handed + length self.old.list.records < 2 ^ 64 → self.new.before ≡ self.old.handed + length self.old.list.records) }
        ensures run { run.new ≡ record run.old { keys = run.new.keys } }
        ensures next { OnOk result (length lines.now ≤ 4294967292 → (self.new.is_over ≡ true) ⊎ ((self.old.next < length lines.now) × (self.old.next < self.new.next))) }
        ensures walk { OnOk result ((said : Run) (heading : Heading) → IsFit said (choice_in self.old.choice) → IsNumberedRun said run.old →
            length lines.now ≤ 4294967292 → journal_at said self.old.rank ≡ Some (record { heading = heading; lines = lines.now }) →
            self.old.is_over ≡ false → IsWalk said (choice_in self.old.choice) run.old.keys self.old →
            IsWalk said (choice_in self.old.choice) run.new.keys self.new × Grows run.old.keys run.new.keys) }
        ensures more { OnOk result ((said : Run) (heading : Heading) → IsFit said (choice_in self.old.choice) → IsNumberedRun said run.old →
            length lines.now ≤ 4294967292 → journal_at said self.old.rank ≡ Some (record { heading = heading; lines = lines.now }) →
            self.old.is_over ≡ false → IsWalk said (choice_in self.old.choice) run.old.keys self.old →
            length self.old.list.records ≤ length self.new.list.records) }
    {
        let waiting = self.list.records().len();
        self.before = self.handed.saturating_add(waiting);
        let Some(word) = call_at(lines, self.next) else {
            self.line = 0;
            return self.finish_open();
        };
        let entry = Entry {
            place: self.next,
            word,
            reports: reports_from(lines, self.next.saturating_add(1)),
        };
        self.line = line_number(entry.place);
        self.next = entry.reports.end;
        match self.take_entry(run, lines, &entry) {
            Ok(true) => self.finish_calls(),
            Ok(false) => Ok(()),
            Err(Stop::Left(why)) => self.leave(why),
            Err(Stop::Memory) => Err(AllocError),
        }
    }

    /// Takes an entry, and answers whether it is the end of the rank's calls. The calls that come most often are known
    /// by their variants where they are taken: so these need no place in memory where the step is inlined, which the
    /// kit's build doesn't do.
    #[inline(always)]
    fn take_entry(
        &mut self,
        run: &mut Communicators,
        lines: &Lines,
        entry: &Entry,
    ) -> Result<bool, Stop>
        ensures same { self.new ≡ record self.old { comms = self.new.comms; list = self.new.list; requests = self.new.requests; late = self.new.late; ids = self.new.ids; wanted = self.new.wanted; sinks = self.new.sinks; pending = self.new.pending; left_out = self.new.left_out } }
        ensures outcomes { self.new.requests.outcomes ≡ self.old.requests.outcomes }
        ensures run { run.new ≡ record run.old { keys = run.new.keys } }
        ensures entered { (said : Run) (heading : Heading) (handed : Handed) (progress : Progress) →
            IsBefore said (record { heading = heading; lines = lines.now }) run.old self.old entry.now →
            IsReady said (choice_in self.old.choice) (record { heading = heading; lines = lines.now }) handed progress self.old entry.now →
            IsEntered said (choice_in self.old.choice) (placed_here self.old.rank (record { heading = heading; lines = lines.now }) entry.now.place entry.now.word)
            result handed progress run.old.keys run.new.keys entry.now.reports.end self.new }
    {
        let fields = lines.fields(entry.place);
        match entry.word {
            CallWord::Isend => {
                let it = starts_send(Mode::Standard, fields);
                self.take_known(run, lines, entry, &it)
            }
            CallWord::Irecv => {
                let it = starts_receive(fields);
                self.take_known(run, lines, entry, &it)
            }
            CallWord::Recv => {
                let it = receives(fields);
                self.take_known(run, lines, entry, &it)
            }
            CallWord::Wait => self.take_called(run, lines, entry, &Called::Waits(fields)),
            _ => {
                let entry = *entry;
                self.take_any(run, lines, &entry)
            }
        }
    }

    /// Takes an entry by any call, and answers whether it is the end of the rank's calls.
    #[inline(never)]
    fn take_any(
        &mut self,
        run: &mut Communicators,
        lines: &Lines,
        entry: &Entry,
    ) -> Result<bool, Stop>
        ensures same { self.new ≡ record self.old { comms = self.new.comms; list = self.new.list; requests = self.new.requests; late = self.new.late; ids = self.new.ids; wanted = self.new.wanted; sinks = self.new.sinks; pending = self.new.pending; left_out = self.new.left_out } }
        ensures outcomes { self.new.requests.outcomes ≡ self.old.requests.outcomes }
        ensures run { run.new ≡ record run.old { keys = run.new.keys } }
        ensures entered { (said : Run) (heading : Heading) (handed : Handed) (progress : Progress) →
            IsBefore said (record { heading = heading; lines = lines.now }) run.old self.old entry.now →
            IsReady said (choice_in self.old.choice) (record { heading = heading; lines = lines.now }) handed progress self.old entry.now →
            IsEntered said (choice_in self.old.choice) (placed_here self.old.rank (record { heading = heading; lines = lines.now }) entry.now.place entry.now.word)
            result handed progress run.old.keys run.new.keys entry.now.reports.end self.new }
    {
        let it = read_call(entry.word, lines.fields(entry.place));
        self.take_called(run, lines, entry, &it)
    }

    /// Takes an entry by its call, which is of one variant where it is any: so the variant is known after this.
    #[inline(always)]
    fn take_known(
        &mut self,
        run: &mut Communicators,
        lines: &Lines,
        entry: &Entry,
        it: &Called<'_>,
    ) -> Result<bool, Stop>
        ensures same { self.new ≡ record self.old { comms = self.new.comms; list = self.new.list; requests = self.new.requests; late = self.new.late; ids = self.new.ids; wanted = self.new.wanted; sinks = self.new.sinks; pending = self.new.pending; left_out = self.new.left_out } }
        ensures outcomes { self.new.requests.outcomes ≡ self.old.requests.outcomes }
        ensures run { run.new ≡ record run.old { keys = run.new.keys } }
        ensures entered { (said : Run) (heading : Heading) (handed : Handed) (progress : Progress) → IsCallOf lines.now entry.now it.now →
            IsBefore said (record { heading = heading; lines = lines.now }) run.old self.old entry.now →
            IsReady said (choice_in self.old.choice) (record { heading = heading; lines = lines.now }) handed progress self.old entry.now →
            IsEntered said (choice_in self.old.choice) (placed_here self.old.rank (record { heading = heading; lines = lines.now }) entry.now.place entry.now.word)
            result handed progress run.old.keys run.new.keys entry.now.reports.end self.new }
    {
        if matches!(it, Called::Nothing) {
            let entry = *entry;
            return self.take_any(run, lines, &entry);
        }
        self.take_called(run, lines, entry, it)
    }

    /// Takes an entry by its call.
    #[inline(always)]
    fn take_called(
        &mut self,
        run: &mut Communicators,
        lines: &Lines,
        entry: &Entry,
        it: &Called<'_>,
    ) -> Result<bool, Stop>
        ensures same { self.new ≡ record self.old { comms = self.new.comms; list = self.new.list; requests = self.new.requests; late = self.new.late; ids = self.new.ids; wanted = self.new.wanted; sinks = self.new.sinks; pending = self.new.pending; left_out = self.new.left_out } }
        ensures outcomes { self.new.requests.outcomes ≡ self.old.requests.outcomes }
        ensures run { run.new ≡ record run.old { keys = run.new.keys } }
        ensures entered { (said : Run) (heading : Heading) (handed : Handed) (progress : Progress) → IsCallOf lines.now entry.now it.now →
            IsBefore said (record { heading = heading; lines = lines.now }) run.old self.old entry.now →
            IsReady said (choice_in self.old.choice) (record { heading = heading; lines = lines.now }) handed progress self.old entry.now →
            IsEntered said (choice_in self.old.choice) (placed_here self.old.rank (record { heading = heading; lines = lines.now }) entry.now.place entry.now.word)
            result handed progress run.old.keys run.new.keys entry.now.reports.end self.new }
    {
        if let Some(why) = breaks_off(run.is_window, it) {
            return Err(Stop::Left(why));
        }
        if is_end(it) {
            self.list.waits_for(self.late.as_slice())?;
            return Ok(true);
        }
        if entry.reports.has_failed {
            return Err(Stop::Left(Why::Failed));
        }
        let Ok(at) = self.at(run, lines, entry, it) else {
            return Err(Stop::Memory);
        };
        let is_taken = self.takes_sink(lines, &at, it)?;
        if is_taken {
            return Ok(false);
        }
        self.take(run, lines, &at, it)?;
        Ok(false)
    }

    /// Where the call of an entry stands. It, and what is reported of it, are taken.
    #[inline(always)]
    fn at<'a>(
        &mut self,
        run: &mut Communicators,
        lines: &'a Lines,
        entry: &Entry,
        it: &Called<'_>,
    ) -> Result<At<'a>, AllocError>
        ensures same { self.new ≡ record self.old { comms = self.new.comms } }
        ensures run { run.new ≡ record run.old { keys = run.new.keys } }
        ensures at { IfOk result (λ at. (said : Run) (heading : Heading) →
            IsBefore said (record { heading = heading; lines = lines.now }) run.old self.old entry.now →
            called_view it.now ≡ called entry.now.word (fields_in lines.now entry.now.place) →
            IsFitEntry said (placed_here self.old.rank (record { heading = heading; lines = lines.now }) entry.now.place entry.now.word) →
            IsAtEntry said (choice_in self.old.choice) (placed_here self.old.rank (record { heading = heading; lines = lines.now }) entry.now.place entry.now.word) run.new at) }
        ensures comms { OnOk result ((said : Run) (heading : Heading) →
            IsBefore said (record { heading = heading; lines = lines.now }) run.old self.old entry.now →
            called_view it.now ≡ called entry.now.word (fields_in lines.now entry.now.place) →
            HasComms run.new.keys self.new.comms (comms_at self.old.rank lines.now entry.now.reports.end)) }
        ensures grows { OnOk result ((said : Run) (heading : Heading) →
            IsBefore said (record { heading = heading; lines = lines.now }) run.old self.old entry.now →
            called_view it.now ≡ called entry.now.word (fields_in lines.now entry.now.place) → Grows run.old.keys run.new.keys) }
    {
        let on = self.comms.key_on(it);
        let wave = self.comms.take_call(&mut run.keys, it, on)?;
        let key = self.comms.own().or(on);
        let start = entry.place.saturating_add(1);
        let reported = self.take_reports(run, lines, start, entry.reports.end)?;
        Ok(At {
            named: run.named_if(key),
            wave,
            made: reported.or(self.inferred(run, it, entry.place)),
            came_back: self.came_back(entry.place),
            is_past: self.is_past(entry.place),
            got: message_in(fields_at(lines, entry.reports.got)),
            chose: fields_if(lines, entry.reports.chose),
        })
    }

    /// Whether the call came back.
    #[inline(always)]
    fn came_back(&self, place: u32) -> bool
        ensures { result ≡ came_back_at self.now.last place }
    {
        match self.last {
            Some(last) => last.line != place || last.came_back,
            None => true,
        }
    }

    /// Whether the call stands for what it started alone.
    #[inline(always)]
    fn is_past(&self, place: u32) -> bool
        ensures { (placed : Placed) → placed.came_back ≡ came_back_at self.now.last place → result ≡ is_past self.now.choice.calls placed }
    {
        self.choice.calls == Calls::Went && self.came_back(place)
    }

    /// What a call that never came back made, by what other ranks report of theirs.
    #[inline(always)]
    fn inferred(&self, run: &Communicators, it: &Called<'_>, place: u32) -> Option<u32>
        ensures { (said : Run) (placed : Placed) (n : ℕ) → IsNumberedRun said run.now → self.now.rank < length said → slice_get (entries_at said self.now.rank) n ≡ Some placed →
            placed.called ≡ called_view it.now → placed.came_back ≡ came_back_at self.now.last place → IsPlaceOf run.now.keys result (inferred_key said placed) }
    {
        if it.may_give() && !self.came_back(place) {
            run.inferred(self.rank)
        } else {
            None
        }
    }

    /// Puts the lines of an entry, or answers why the list ends at it. What is taken by calls is copied, so that a call
    /// whose variant is known needs no place in memory where this is inlined; the kit's build doesn't inline it. Other
    /// calls go to a function of their own, so that this one stays small.
    #[inline(always)]
    fn take(
        &mut self,
        run: &Communicators,
        lines: &Lines,
        at: &At<'_>,
        it: &Called<'_>,
    ) -> Result<(), Stop>
        ensures same { self.new ≡ record self.old { list = self.new.list; requests = self.new.requests; ids = self.new.ids; wanted = self.new.wanted; late = self.new.late } }
        ensures outcomes { self.new.requests.outcomes ≡ self.old.requests.outcomes }
        ensures messages { OnOk result ((request : ℕ) → message_for self.new.requests request ≡ message_after (called_view it.now) (message_for self.old.requests) request) }
        ensures takes { (spot : Spot) → Meets spot lines.now self.old.requests at.now it.now → MayMake spot run.now self.old.rank at.now it.now →
            TakesCall (choice_in self.old.choice) spot (called_view it.now) result self.old.list self.new.list }
        ensures late { OnOk result ((spot : Spot) → Meets spot lines.now self.old.requests at.now it.now →
            LateCall (choice_in self.old.choice) spot (called_view it.now) self.old.list self.old.late.items self.new.late.items) }
    {
        match it {
            Called::StartsSend(own, mode, sent) => {
                let sent = *sent;
                self.starts_send(at, *own, *mode, &sent)
            }
            Called::Receives(awaited) => {
                let awaited = *awaited;
                self.receives(at, &awaited)
            }
            Called::StartsReceive(own, awaited) => {
                let awaited = self.requests.unless_moved(*own, awaited);
                self.starts_receive(lines, at, *own, &awaited)
            }
            Called::Waits(_) => self.take_wait(lines, at, it),
            _ => self.take_seldom(run, lines, at, it),
        }
    }
}
