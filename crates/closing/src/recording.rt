//! The recording of the journals of a run: the groups of its communicators, and each rank's list, entry by
//! entry.

ghost use Rattle.std.specs.Prelude.{◌≡◌, ◌<◌, ◌≤◌, ◌==◌, ◌+◌, ◌^◌, ℕ, true, [], length, map, replicate, slice_get, option_and_then, option_map, Option, List, IfErr, IfOk, OnOk, Some, None, flat_map};
ghost use Rattle.std.specs.Option.{option_copied};
ghost use Rattle.closing.specs.Entries.{is_cut_off, is_window, journal_at, lines_at, lines_in};
ghost use Rattle.closing.specs.Fit.{IsFit};
ghost use Rattle.closing.specs.Freed.{starts_freed};
ghost use Rattle.closing.specs.Groups.{groups_in};
ghost use Rattle.closing.specs.Journals.{journal_in, run_in};
ghost use Rattle.closing.specs.Recording.{recording_of};
ghost use Rattle.journals.specs.declared.journal.Journal.{Journal as JournalRead};
ghost use Rattle.closing.specs.declared.choice.Choice.{Choice as ChoiceMade};
ghost use Rattle.closing.specs.inner.Numbered.{IsNumberedRun};
ghost use Rattle.closing.specs.inner.RequestReports.{Tells};
ghost use Rattle.closing.specs.inner.Rankwise.{AreFew, HaveWalks, IsRecording, TakesStep};
ghost use Rattle.closing.specs.Left.{left_by, left_said};
ghost use Rattle.closing.specs.Moved.{moved_at};
ghost use Rattle.closing.specs.Pending.{pending_of, sinks_of, pending_said};
ghost use Rattle.closing.specs.Recordings.{ChangesOnly, HasRanks, IsPartMade, calls_waiting, choice_in, count_at, left_in, line_at, list_at};

use crate::choice::Choice;
use crate::last::{are_cut_off, is_cut_off};
use crate::moved::moved_at;
use crate::numbers::Communicators;
use crate::outcomes::Outcomes;
use crate::pending::{Pending, Sink};
use crate::places::checked_rank;
use crate::walk::{Left, Walk};
use journals::field::Field;
use journals::journal::Journal;
use journals::lines::Lines;
use mpicall::record::Record;
use std::alloc::{AllocError, Global};
use std::marker::Model;

/// The recording of the journals of a run, as far as the lists of its ranks were made. Contracts see the run,
/// what the user chose, and of each rank how many calls of its list were made and handed on, and how much of its
/// journal is left.
#[derive(Drop)]
pub struct Recording {
    alloc: Global,
    choice: Choice,
    ranks: u16,
    journals: Vec<Option<Journal>>,
    run: Communicators,
    walks: Vec<Walk>,
}

impl Model for Recording {
    ghost use Rattle.closing.specs.Recordings.{RecordingView};
    ghost use Rattle.closing.specs.inner.Rankwise.{recording_view, IsRecording};

    ghost Value = { RecordingView };

    ghost view = { λ r. recording_view r.journals.items r.choice r.walks.items };

    ghost invariant = { λ r. IsRecording r.ranks r.journals.items r.choice r.run r.walks.items };
}

/// The most lines of a journal; more are out of memory.
const MOST_LINES: usize = 0xffff_fffc;

/// Whether a journal, if it is there, has not too many lines.
fn is_short(journal: Option<&Journal>) -> bool
    ensures { result ≡ true → length (lines_in (option_map journal_in (option_copied journal.entry))) ≤ MOST_LINES }
{
    match journal {
        Some(journal) => journal.lines.count() <= MOST_LINES,
        None => true,
    }
}

/// Whether no journal has too many lines.
fn are_few(journals: &[Option<Journal>]) -> bool
    ensures { result ≡ true → AreFew journals.now }
{
    for rank in 0..journals.len() {
        if !is_short(journals[rank].as_ref()) {
            return false;
        }
    }
    true
}

/// The lists of all ranks with their prefaces.
fn walks_of(
    alloc: Global,
    journals: &[Option<Journal>],
    choice: Choice,
    run: &mut Communicators,
) -> Result<Vec<Walk>, AllocError>
    ensures count { IfOk result (λ walks. length walks.items ≡ length journals.now) }
    ensures handed { IfOk result (λ walks. map (λ walk. walk.handed) walks.items ≡ replicate (length walks.items) 0) }
    ensures before { IfOk result (λ walks. map (λ walk. walk.before) walks.items ≡ replicate (length walks.items) 0) }
    ensures walks { IfOk result (λ walks. AreFew journals.now → (IsFit (run_in journals.now) (choice_in choice) → IsNumberedRun (run_in journals.now) run.old) →
        HaveWalks journals.now choice run.new walks.items) }
{
    let mut walks = Vec::with_capacity(alloc, journals.len())?;
    for rank in 0..journals.len() {
        let journal = journals[rank].as_ref();
        let place = checked_rank(rank)?;
        let walk = Walk::new(alloc, place, choice, run, journal)?;
        walks.push(walk)?;
    }
    Ok(walks)
}

/// The journal of a rank, if it has one.
fn journal_of(journals: &[Option<Journal>], rank: u16) -> Option<&Journal>
    ensures { option_copied result ≡ option_and_then (λ it. it) (slice_get journals.now rank) }
{
    match journals.get(usize::from(rank)) {
        Some(journal) => journal.as_ref(),
        None => None,
    }
}

/// Takes the next entry of a rank with these lines, unless its list has ended.
fn step_at(
    walks: &mut Vec<Walk>,
    run: &mut Communicators,
    lines: &Lines,
    rank: u16,
) -> Result<(), AllocError>
    ensures { OnOk result ((ranks : ℕ) (journals : List (Option JournalRead)) (choice : ChoiceMade) (journal : JournalRead) →
        IsRecording ranks journals choice run.old walks.old.items → rank < length journals → slice_get journals rank ≡ Some (Some journal) →
        journal.lines ≡ lines.now → TakesStep rank ranks journals choice run.new walks.old.items walks.new.items) }
{
    let at = usize::from(rank);
    let Some(walk) = walks.get_mut(at) else {
        return Ok(());
    };
    if walk.is_over() {
        return Ok(());
    }
    walk.step(run, lines)?;
    Ok(())
}

/// Takes the next entry of a rank, unless its list has ended.
fn take_entry(
    walks: &mut Vec<Walk>,
    run: &mut Communicators,
    journals: &[Option<Journal>],
    rank: u16,
) -> Result<(), AllocError>
    ensures { OnOk result ((ranks : ℕ) (choice : ChoiceMade) → IsRecording ranks journals.now choice run.old walks.old.items →
        TakesStep rank ranks journals.now choice run.new walks.old.items walks.new.items) }
{
    let Some(journal) = journal_of(journals, rank) else {
        return Ok(());
    };
    step_at(walks, run, &journal.lines, rank)?;
    Ok(())
}

impl Recording {
    /// That of these journals, one a rank; None of a rank without one.
    pub fn of(
        alloc: Global,
        journals: Vec<Option<Journal>>,
        choice: Choice,
    ) -> Result<Recording, AllocError>
        ensures run { IfOk result (λ it. it.run ≡ run_in journals.items) }
        ensures choice { IfOk result (λ it. it.choice ≡ choice_in choice) }
        ensures handed { IfOk result (λ it. it.handed ≡ replicate (length it.run) 0) }
        ensures before { IfOk result (λ it. it.before ≡ replicate (length it.run) 0) }
        ensures ranks { IfOk result HasRanks }
        ensures part { IfOk result (λ it. IsFit it.run it.choice → (rank : ℕ) → rank < length it.run → IsPartMade it rank) }
    {
        let list = journals.as_slice();
        if !are_few(list) {
            return Err(AllocError);
        }
        let mut run = Communicators::of(alloc, list)?;
        let walks = walks_of(alloc, list, choice, &mut run)?;
        let ranks = checked_rank(list.len())?;
        Ok(Recording {
            alloc,
            choice,
            ranks,
            journals,
            run,
            walks,
        })
    }

    #[tactic(auto, using(crate::proofs::RankwiseLemmas::ranks_run, crate::proofs::RankwiseLemmas::has_ranks))]
    pub fn ranks(&self) -> u16
        ensures ranks { result ≡ length self.now.run }
        ensures all { HasRanks self.now }
    {
        self.ranks
    }

    /// Whether the journals of all ranks end where nothing is under way.
    pub fn is_window(&self) -> bool
        ensures { result ≡ is_window self.now.run }
    {
        are_cut_off(self.journals.as_slice())
    }

    /// Whether that of a rank does.
    pub fn is_cut_off(&self, rank: u16) -> bool
        ensures { result ≡ is_cut_off (journal_at self.now.run rank) }
    {
        is_cut_off(journal_of(&self.journals, rank))
    }

    /// What came of the requests of a rank's journal.
    pub fn outcomes(&self, alloc: Global, rank: u16) -> Result<Outcomes, AllocError>
        ensures { IfOk result (λ outcomes. IsFit self.now.run self.now.choice → rank < length self.now.run → Tells (lines_at self.now.run rank) outcomes) }
    {
        match journal_of(&self.journals, rank) {
            Some(journal) => Outcomes::of(alloc, &journal.lines),
            None => Ok(Outcomes::empty(alloc)),
        }
    }

    /// The source and the tag of the receive that the line with a number starts, where its request is moved.
    pub fn moved(&self, outcomes: &Outcomes, rank: u16, number: u32) -> Option<(Field, Field)>
        ensures { Tells (lines_at self.now.run rank) outcomes.now → result ≡ moved_at (lines_at self.now.run rank) number }
    {
        match journal_of(&self.journals, rank) {
            Some(journal) => moved_at(outcomes, &journal.lines, number),
            None => None,
        }
    }

    /// The communicators that have a number.
    pub fn communicators(&self) -> &Communicators
        ensures { IsFit self.now.run self.now.choice → 0 < length self.now.run →
            groups_in result.now ≡ (recording_of self.now.run self.now.choice).groups }
    {
        &self.run
    }

    /// Takes the next entry of a rank, unless its list has ended. Out of memory the recording is one of no ranks.
    pub fn step(&mut self, rank: u16) -> Result<(), AllocError>
        ensures same { OnOk result (ChangesOnly rank self.old self.new) }
        ensures handed { OnOk result (self.new.handed ≡ self.old.handed) }
        ensures made { OnOk result (IsFit self.new.run self.new.choice → count_at self.old.made rank ≤ count_at self.new.made rank) }
        ensures before { OnOk result (IsFit self.new.run self.new.choice → count_at self.new.before rank ≤ count_at self.old.made rank) }
        ensures left { OnOk result (count_at self.old.left rank ≡ 0 → count_at self.new.left rank ≡ 0) }
        ensures next { OnOk result ((count_at self.old.left rank ≡ 0 → ⊥) → count_at self.new.left rank < count_at self.old.left rank) }
        ensures part { OnOk result (IsFit self.new.run self.new.choice → rank < length self.new.run → IsPartMade self.new rank) }
        ensures none { IfErr result (λ fault. self.new.run ≡ []) }
    {
        match take_entry(&mut self.walks, &mut self.run, &self.journals, rank) {
            Ok(()) => Ok(()),
            Err(fault) => {
                self.ranks = 0;
                self.journals.clear();
                self.walks.clear();
                Err(fault)
            }
        }
    }

    /// The records of a rank's list that weren't handed on yet, all of one entry.
    #[tactic(auto, using(crate::proofs::RankwiseLemmas::counts_at, crate::proofs::RankwiseLemmas::counts_none, crate::proofs::RankwiseLemmas::waiting_at, crate::proofs::RankwiseLemmas::no_rank))]
    pub fn records(&self, rank: u16) -> &[Record]
        ensures calls { IsFit self.now.run self.now.choice → rank < length self.now.run → result.now ≡ calls_waiting self.now rank }
        ensures count { count_at self.now.handed rank + length result.now ≡ count_at self.now.made rank }
    {
        match self.walks.get(usize::from(rank)) {
            Some(walk) => walk.records(),
            None => &[],
        }
    }

    /// Those records were handed on.
    pub fn forget_records(&mut self, rank: u16)
        ensures same { ChangesOnly rank self.old self.new }
        ensures made { IsFit self.old.run self.old.choice → self.new.made ≡ self.old.made }
        ensures before { self.new.before ≡ self.old.before }
        ensures left { self.new.left ≡ self.old.left }
        ensures handed { IsFit self.old.run self.old.choice → slice_get self.new.handed rank ≡ slice_get self.old.made rank }
    {
        if let Some(walk) = self.walks.get_mut(usize::from(rank)) {
            walk.forget_records();
        }
    }

    /// The number of the line of their entry in the journal; 0 in the preface.
    #[tactic(auto, using(crate::proofs::RankwiseLemmas::line_of_walk, crate::proofs::RankwiseLemmas::no_rank))]
    pub fn line(&self, rank: u16) -> u32
        ensures { IsFit self.now.run self.now.choice → rank < length self.now.run → (place : ℕ) → count_at self.now.before rank ≤ place
            → place < count_at self.now.made rank → result ≡ line_at (list_at self.now rank) place }
    {
        match self.walks.get(usize::from(rank)) {
            Some(walk) => walk.line(),
            None => 0,
        }
    }

    /// Whether a rank's list has ended.
    #[tactic(auto, using(crate::proofs::RankwiseLemmas::left_at_walk, crate::proofs::RankwiseLemmas::left_at_none))]
    pub fn is_over(&self, rank: u16) -> bool
        ensures over { result ≡ (count_at self.now.left rank == 0) }
        ensures few { count_at self.now.left rank < 2 ^ 32 }
    {
        match self.walks.get(usize::from(rank)) {
            Some(walk) => walk.is_over(),
            None => true,
        }
    }

    /// At which line, and why, a rank's list ended before its end.
    #[tactic(auto, using(crate::proofs::RankwiseLemmas::left_of_walk, crate::proofs::RankwiseLemmas::no_rank))]
    pub fn left(&self, rank: u16) -> Option<Left>
        ensures { IsFit self.now.run self.now.choice → rank < length self.now.run → count_at self.now.left rank ≡ 0
            → result ≡ left_in (list_at self.now rank) }
    {
        self.walks.get(usize::from(rank))?.left()
    }

    /// The receives of a rank's list whose messages aren't known, by their places.
    pub fn sinks(&self, rank: u16) -> &[Sink]
        ensures { IsFit self.now.run self.now.choice → rank < length self.now.run → count_at self.now.left rank ≡ 0
            → result.now ≡ sinks_of (list_at self.now rank) }
    {
        match self.walks.get(usize::from(rank)) {
            Some(walk) => walk.sinks(),
            None => &[],
        }
    }

    /// The call in which a rank was when its list was left open.
    pub fn pending(&self, rank: u16) -> Option<&Pending>
        ensures { IsFit self.now.run self.now.choice → rank < length self.now.run → count_at self.now.left rank ≡ 0
            → option_map (λ it. pending_said it.now) result ≡ Some (pending_of self.now.run self.now.choice rank) }
    {
        match self.walks.get(usize::from(rank)) {
            Some(walk) => Some(walk.pending()),
            None => None,
        }
    }

    /// The entries of a rank before its list's end that stand in no line of their own, and why.
    pub fn left_out(&self, rank: u16) -> &[Left]
        ensures { IsFit self.now.run self.now.choice → rank < length self.now.run → count_at self.now.left rank ≡ 0
            → map (left_said rank) result.now ≡ flat_map (left_by rank (list_at self.now rank)) (list_at self.now rank).records }
    {
        match self.walks.get(usize::from(rank)) {
            Some(walk) => walk.left_out(),
            None => &[],
        }
    }

    /// Whether the record at a place of a rank's list starts a request that the rank's program frees.
    pub fn starts_freed(&self, rank: u16, place: u32) -> bool
        ensures { IsFit self.now.run self.now.choice → (rank < length self.now.run → count_at self.now.left rank ≡ 0) →
            result ≡ starts_freed self.now.run rank (list_at self.now rank) place }
    {
        match self.walks.get(usize::from(rank)) {
            Some(walk) => walk.starts_freed(place),
            None => false,
        }
    }
}
