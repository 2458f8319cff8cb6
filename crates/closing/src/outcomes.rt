//! What a journal reports of its requests, anywhere.

ghost use Rattle.std.specs.Prelude.{◌≡◌, ◌<◌, ◌==◌, ℕ, OnOk, IfOk, nat_eq, option_map, slice_get, if◌then◌else◌};
ghost use Rattle.std.specs.HashMap.{get};
ghost use Rattle.std.specs.Vec.{vec_len};
ghost use Rattle.closing.specs.inner.Outcomes.{is_gone, is_left_out, is_moved, is_settled, kept_at, message_by, outcome_at, outcome_at_line, outcome_by, outcome_in};
ghost use Rattle.closing.specs.inner.RequestReports.{AreReadable, Tells};
ghost use Rattle.closing.specs.inner.Views.{message_view};
ghost use Rattle.closing.specs.declared.outcomes.Outcome.TheVariants.{Unknown};

use crate::message::{Message, message_in};
use crate::places::count_of;
use journals::field::Field;
use journals::lines::Lines;
use journals::word::{ReportWord, Word};
use std::alloc::{AllocError, Global};
use std::collections::HashMap;

/// What came of a request. One of these is reported at most.
#[derive(Clone, Copy, PartialEq, Eq)]
pub(crate) enum Outcome {
    /// Nothing is reported.
    Unknown,
    /// It completed with the message that the line at this place has.
    Done(u32),
    /// It was cancelled.
    Gone,
    /// It completed though a cancel named it.
    Kept,
    /// Its receive goes on in the journal after this one.
    Moved,
}

/// What came of the requests of which that was reported.
#[derive(Drop)]
pub struct Outcomes {
    /// That of each request whose number isn't above that of the lines; programs mostly number their requests
    /// from 1 on.
    near: Vec<Outcome>,
    most: usize,
    /// That of other requests.
    far: HashMap<u32, Outcome>,
}

/// The outcome that a line reports, if it does.
fn outcome_in(word: ReportWord, line: u32) -> Option<Outcome>
    ensures { result ≡ outcome_in word line }
{
    match word {
        ReportWord::Done => Some(Outcome::Done(line)),
        ReportWord::Gone => Some(Outcome::Gone),
        ReportWord::Kept => Some(Outcome::Kept),
        ReportWord::Moved => Some(Outcome::Moved),
        _ => None,
    }
}

impl Outcomes {
    /// Nothing is reported, in so many lines.
    fn of_none(alloc: Global, most: usize) -> Outcomes
        ensures { (request : ℕ) → outcome_at result request ≡ Unknown }
    {
        Outcomes {
            near: Vec::new(alloc),
            most,
            far: HashMap::new(alloc),
        }
    }

    /// That of a rank without a journal.
    pub(crate) fn empty(alloc: Global) -> Outcomes
        ensures { (request : ℕ) → outcome_at result request ≡ Unknown }
    {
        Outcomes::of_none(alloc, 0)
    }

    /// What these lines report.
    pub(crate) fn of(alloc: Global, lines: &Lines) -> Result<Outcomes, AllocError>
        ensures { IfOk result (λ outcomes. AreReadable lines.now → Tells lines.now outcomes) }
    {
        let mut outcomes = Outcomes::of_none(alloc, lines.count());
        for line in 0..count_of(lines) {
            outcomes.take_line(lines, line)?;
        }
        Ok(outcomes)
    }

    /// Takes the line at a place, where that is a report.
    #[inline(always)]
    #[tactic(auto, using(crate::proofs::RequestReportLemmas::report_here, crate::proofs::RequestReportLemmas::call_here, crate::proofs::RequestReportLemmas::nothing_here))]
    fn take_line(&mut self, lines: &Lines, line: u32) -> Result<(), AllocError>
        ensures { OnOk result ((other : ℕ) → outcome_at self.new other ≡ outcome_at_line (slice_get lines.now line) line other (outcome_at self.old other)) }
    {
        match lines.word(line) {
            Some(Word::Report(word)) => self.take(word, lines.fields(line), line),
            Some(Word::Call(_)) => Ok(()),
            None => Ok(()),
        }
    }

    /// Has a place for a request that isn't far.
    #[tactic(auto, using(crate::proofs::OutcomeLemmas::unknown_same))]
    fn make_room(&mut self, request: u32) -> Result<(), AllocError>
        ensures room { OnOk result (request < vec_len self.new.near) }
        ensures most { OnOk result (self.new.most ≡ self.old.most) }
        ensures same { OnOk result ((other : ℕ) → outcome_at self.new other ≡ outcome_at self.old other) }
    {
        for place in self.near.len()..request as usize + 1 {
            self.near.push(Outcome::Unknown)?;
        }
        Ok(())
    }

    /// Notes the outcome of a request.
    fn put(&mut self, request: u32, outcome: Outcome) -> Result<(), AllocError>
        ensures { OnOk result ((other : ℕ) → outcome_at self.new other ≡ (if request == other then outcome else outcome_at self.old other)) }
    {
        let place = request as usize;
        if place > self.most {
            self.far.insert(request, outcome)?;
            return Ok(());
        }
        self.make_room(request)?;
        if let Some(it) = self.near.get_mut(place) {
            *it = outcome;
        }
        Ok(())
    }

    /// What is kept of a request that is far, if anything.
    #[inline(never)]
    fn kept_far(&self, request: u32) -> Option<Outcome>
        ensures { result ≡ get nat_eq self.now.far request }
    {
        self.far.get(&request).copied()
    }

    /// What is kept of a request, if anything.
    #[inline(always)]
    fn kept(&self, request: u32) -> Option<Outcome>
        ensures { result ≡ kept_at self.now request }
    {
        let place = request as usize;
        if place > self.most {
            return self.kept_far(request);
        }
        self.near.get(place).copied()
    }

    /// What came of a request.
    #[inline(always)]
    fn outcome(&self, request: u32) -> Outcome
        ensures { result ≡ outcome_at self.now request }
    {
        match self.kept(request) {
            Some(outcome) => outcome,
            None => Outcome::Unknown,
        }
    }

    /// Takes a report, whose line has this place.
    fn take(&mut self, word: ReportWord, fields: &[Field], line: u32) -> Result<(), AllocError>
        ensures { OnOk result ((other : ℕ) → outcome_at self.new other ≡ outcome_by word fields.now line other (outcome_at self.old other)) }
    {
        if let (Some(outcome), [Field::Natural(request), ..]) = (outcome_in(word, line), fields) {
            self.put(request.get(), outcome)?;
        }
        Ok(())
    }

    /// The message with which a request completed, where that is reported.
    #[inline(always)]
    pub(crate) fn message(&self, lines: &Lines, request: u32) -> Option<Message>
        ensures { option_map message_view result ≡ message_by lines.now (outcome_at self.now request) }
    {
        match self.outcome(request) {
            Outcome::Done(line) => match lines.fields(line) {
                [_, message @ ..] => message_in(message),
                _ => None,
            },
            _ => None,
        }
    }

    /// Whether the request was cancelled.
    #[inline(always)]
    pub(crate) fn is_gone(&self, request: u32) -> bool
        ensures { result ≡ is_gone (outcome_at self.now request) }
    {
        matches!(self.outcome(request), Outcome::Gone)
    }

    /// Whether the receive of the request goes on in the journal after this one.
    #[inline(always)]
    pub(crate) fn is_moved(&self, request: u32) -> bool
        ensures { result ≡ is_moved (outcome_at self.now request) }
    {
        matches!(self.outcome(request), Outcome::Moved)
    }

    /// Whether waits leave the request out.
    #[inline(always)]
    pub(crate) fn is_left_out(&self, request: u32) -> bool
        ensures { result ≡ is_left_out (outcome_at self.now request) }
    {
        matches!(self.outcome(request), Outcome::Gone | Outcome::Moved)
    }

    /// Whether what came of a cancel of the request was reported.
    pub(crate) fn is_settled(&self, request: u32) -> bool
        ensures { result ≡ is_settled (outcome_at self.now request) }
    {
        !matches!(self.outcome(request), Outcome::Unknown | Outcome::Moved)
    }
}
