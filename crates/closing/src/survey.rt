//! Which communicators the ranks of a run have, and which of them calls name.

ghost use Rattle.std.specs.Prelude.{◌≡◌, ◌<◌, ◌-◌, ◌++◌, ℕ, List, [], length, replicate, slice_get, IfOk, OnOk, Option, Some, None, option_map, true, false, ◌+◌, ◌≤◌, ◌∷◌};
ghost use Rattle.std.specs.List.{AllZip, filter_map};
ghost use Rattle.std.specs.Option.{option_copied};
ghost use Rattle.journals.specs.Lines.{Line};
ghost use Rattle.journals.specs.JournalAnswers.{heading_in};
ghost use Rattle.journals.specs.declared.word.Word.TheVariants as words;
ghost use Rattle.closing.specs.Called.{called};
ghost use Rattle.closing.specs.Entries.{Run, entries_in, journal_at};
ghost use Rattle.closing.specs.FitComms.{HasFitComms};
ghost use Rattle.closing.specs.Keys.{Key as SaidKey};
ghost use Rattle.closing.specs.Made as made;
ghost use Rattle.closing.specs.RankComms.{comms_after, comms_first, after_call, after_line, after_lines};
ghost use Rattle.closing.specs.RankComms as say;
ghost use Rattle.closing.specs.inner.Holds.{HasComms, brings, report_taken};
ghost use Rattle.closing.specs.inner.Words.{is_plain};
ghost use Rattle.closing.specs.inner.Noted.{HavePlaces, IsLastCall};
ghost use Rattle.closing.specs.inner.Surveyed.{HasGot, HasRank, IsSurveyed, IsSurveyedTo, Keeps, TakesRank, IsFound, Await, HaveNone, as_list, gives_at, is_world, is_world_if_any, journal_of_code, keep_to_world, keeps_at, name_world, names_at_place, names_by, names_from, run_of_journals, inferred_with, waits_at, waits_for, with_name, world_place};
ghost use Rattle.closing.specs.declared.keys.Wave.{Wave as WaveCode};
ghost use Rattle.closing.specs.declared.rank_comms.RankComms.{RankComms as CommsCode};
ghost use Rattle.closing.specs.Table.{Table};
ghost use Rattle.closing.specs.inner.Table.{HasKey, IsPlaceOf, IsTable, IsWaveOf, ranks_in};

use crate::called::{comm_in, is_bare, is_plain, read_call};
use crate::keys::{Key, Keys, WORLD, Wave};
use crate::last::{LastCall, last_call_of};
use crate::places::{checked_place, count_of};
use crate::rank_comms::RankComms;
use journals::field::Field;
use journals::journal::Journal;
use journals::lines::Lines;
use journals::word::{CallWord, ReportWord, Word};
use std::alloc::{AllocError, Global};

/// Whether a report with this word may bring its rank a communicator.
#[inline(always)]
pub(crate) fn brings(word: ReportWord) -> bool
    ensures { result ≡ brings word }
{
    matches!(
        word,
        ReportWord::Comm | ReportWord::Idup | ReportWord::Apart
    )
}

/// What is known of the communicators of a run by its journals, each taken in rank order.
#[derive(Drop)]
pub(crate) struct Survey {
    alloc: Global,
    pub keys: Keys,
    /// Whether a call names the communicator of each key, other than that which makes it and those that free
    /// it.
    pub named: Vec<bool>,
    /// The keys that the ranks got, those of a rank after those of the rank before it, each in the order in
    /// which they were got; and where those of each rank end.
    pub got: Vec<u32>,
    pub ends: Vec<usize>,
    /// Of each rank the wave of its last call, where that may have made a communicator, and never came back.
    pub waiting: Vec<Option<Wave>>,
    /// Of each rank what that call made, as the lowest other rank reports it.
    pub inferred: Vec<Option<u32>>,
}

impl Survey {
    fn new(alloc: Global, ranks: u32) -> Result<Survey, AllocError>
        ensures { IfOk result (λ it. (run : Run) → length run ≡ ranks → IsSurveyedTo run 0 it) }
    {
        Ok(Survey {
            alloc,
            keys: Keys::new(alloc, ranks)?,
            named: Vec::new(alloc),
            got: Vec::new(alloc),
            ends: Vec::new(alloc),
            waiting: Vec::new(alloc),
            inferred: vec![in alloc; None; ranks as usize]?,
        })
    }

    /// Notes that a call names the communicator of a key.
    fn name(&mut self, key: Option<u32>)
        ensures same { self.new ≡ record self.old { named = self.new.named } }
        ensures named { self.new.named.items ≡ with_name key self.old.named.items }
    {
        let Some(key) = key else {
            return;
        };
        if let Some(named) = self.named.get_mut(key as usize) {
            *named = true;
        }
    }

    /// Has a place for each key.
    fn make_room(&mut self) -> Result<(), AllocError>
        ensures same { self.new ≡ record self.old { named = self.new.named } }
        ensures named { OnOk result (length self.old.named.items ≤ length self.old.keys.codes → self.new.named.items ≡ self.old.named.items ++ replicate (length self.old.keys.codes - length self.old.named.items) false) }
    {
        for place in self.named.len()..self.keys.count() {
            self.named.push(false)?;
        }
        Ok(())
    }

    fn take_call(
        &mut self,
        comms: &mut RankComms,
        word: CallWord,
        fields: &[Field],
    ) -> Result<(), AllocError>
        ensures same { self.new ≡ record self.old { keys = self.new.keys; named = self.new.named; got = self.new.got } }
        ensures takes { OnOk result ((before names : List SaidKey) (it : say.RankComms) → HasRank before names it self.old comms.old →
            Keeps before (names ++ names_by it (words.Call word) fields.now) (after_call it (called word fields.now)) self.old self.new comms.new) }
    {
        if is_plain(word) {
            self.take_plain(comms, word, fields);
            return Ok(());
        }
        self.take_other(comms, word, fields)?;
        Ok(())
    }

    /// Takes a call that neither counts nor makes a communicator: it only names one.
    fn take_plain(&mut self, comms: &mut RankComms, word: CallWord, fields: &[Field])
        requires { is_plain word ≡ true }
        ensures same { self.new ≡ record self.old { named = self.new.named } }
        ensures takes { (before names : List SaidKey) (it : say.RankComms) → HasRank before names it self.old comms.old →
            Keeps before (names ++ names_by it (words.Call word) fields.now) (after_call it (called word fields.now)) self.old self.new comms.new }
    {
        let on = comms.key_if(comm_in(word, fields));
        self.name(on);
        comms.take_plain();
    }

    fn take_other(
        &mut self,
        comms: &mut RankComms,
        word: CallWord,
        fields: &[Field],
    ) -> Result<(), AllocError>
        ensures same { self.new ≡ record self.old { keys = self.new.keys; named = self.new.named; got = self.new.got } }
        ensures takes { OnOk result ((before names : List SaidKey) (it : say.RankComms) → HasRank before names it self.old comms.old →
            Keeps before (names ++ names_by it (words.Call word) fields.now) (after_call it (called word fields.now)) self.old self.new comms.new) }
    {
        let it = read_call(word, fields);
        let on = comms.key_on(&it);
        self.name(on);
        comms.take_call(&mut self.keys, &it, on)?;
        let own = comms.own();
        self.take_of_group(own)?;
        Ok(())
    }

    /// Notes that the rank got the communicator of a group by its call, which names it, if it did.
    fn take_of_group(&mut self, key: Option<u32>) -> Result<(), AllocError>
        ensures same { self.new ≡ record self.old { named = self.new.named; got = self.new.got } }
        ensures takes { OnOk result ((gots names : List SaidKey) (own : Option SaidKey) → HasGot gots names self.old → IsPlaceOf self.old.keys key own →
            HasGot (gots ++ as_list own) (names ++ as_list own) self.new) }
        ensures room { OnOk result (length self.old.named.items ≤ length self.old.keys.codes → length self.new.named.items ≡ length self.new.keys.codes) }
    {
        self.make_room()?;
        self.name(key);
        self.push_got(key)?;
        Ok(())
    }

    /// Adds a key that was got, if one was.
    fn push_got(&mut self, key: Option<u32>) -> Result<(), AllocError>
        ensures same { self.new ≡ record self.old { got = self.new.got } }
        ensures got { OnOk result (self.new.got.items ≡ self.old.got.items ++ as_list key) }
    {
        let Some(key) = key else {
            return Ok(());
        };
        self.got.push(key)?;
        Ok(())
    }

    fn take_report(
        &mut self,
        comms: &mut RankComms,
        word: ReportWord,
        fields: &[Field],
    ) -> Result<(), AllocError>
        ensures same { self.new ≡ record self.old { keys = self.new.keys; named = self.new.named; got = self.new.got } }
        ensures takes { OnOk result ((before names : List SaidKey) (it : say.RankComms) → HasRank before names it self.old comms.old →
            Keeps before names (report_taken it word fields.now) self.old self.new comms.new) }
    {
        if !brings(word) {
            return Ok(());
        }
        let key = comms.take_report(&mut self.keys, word, fields)?;
        self.make_room()?;
        self.push_got(key)?;
        Ok(())
    }

    /// Takes a line of the rank's journal.
    fn take_line(
        &mut self,
        comms: &mut RankComms,
        lines: &Lines,
        line: u32,
    ) -> Result<(), AllocError>
        ensures same { self.new ≡ record self.old { keys = self.new.keys; named = self.new.named; got = self.new.got } }
        ensures takes { OnOk result ((before names : List SaidKey) (it : say.RankComms) (there : Line) → slice_get lines.now line ≡ Some there → HasRank before names it self.old comms.old →
            Keeps before (names ++ names_by it there.word there.fields) (after_line it there) self.old self.new comms.new) }
    {
        let fields = lines.fields(line);
        match lines.word(line) {
            Some(Word::Call(word)) => {
                self.take_call(comms, word, fields)?;
                Ok(())
            }
            Some(Word::Report(word)) => {
                self.take_report(comms, word, fields)?;
                Ok(())
            }
            None => Ok(()),
        }
    }

    fn take_lines(&mut self, comms: &mut RankComms, lines: &Lines) -> Result<(), AllocError>
        ensures same { self.new ≡ record self.old { keys = self.new.keys; named = self.new.named; got = self.new.got } }
        ensures takes { OnOk result ((before names : List SaidKey) (it : say.RankComms) → HavePlaces lines.now → HasRank before names it self.old comms.old →
            Keeps before (names ++ names_from it lines.now) (after_lines it lines.now) self.old self.new comms.new) }
    {
        for line in 0..count_of(lines) {
            self.take_line(comms, lines, line)?;
        }
        Ok(())
    }

    /// Takes the lines of a journal that names the world alone.
    fn take_on_world(&mut self, lines: &Lines)
        ensures same { self.new ≡ record self.old { named = self.new.named } }
        ensures takes { (before names : List SaidKey) (rank : ℕ) (comms : CommsCode) → HavePlaces lines.now → keep_to_world lines.now ≡ true →
            HasRank before names (comms_first rank) self.old comms →
            Keeps before (names ++ names_from (comms_first rank) lines.now) (after_lines (comms_first rank) lines.now) self.old self.new comms }
    {
        let key = world_in(lines);
        self.name(key);
    }

    /// Takes the lines of a rank's journal. Most journals name the world alone.
    fn take_all(&mut self, comms: &mut RankComms, lines: &Lines) -> Result<(), AllocError>
        ensures same { self.new ≡ record self.old { keys = self.new.keys; named = self.new.named; got = self.new.got } }
        ensures takes { OnOk result ((before names : List SaidKey) (rank : ℕ) → HavePlaces lines.now → HasRank before names (comms_first rank) self.old comms.old →
            Keeps before (names ++ names_from (comms_first rank) lines.now) (after_lines (comms_first rank) lines.now) self.old self.new comms.new) }
    {
        if keep_to_world(lines) {
            self.take_on_world(lines);
            return Ok(());
        }
        self.take_lines(comms, lines)?;
        Ok(())
    }

    /// What the next rank has before all lines of its journal.
    fn start_rank(&mut self, rank: u32) -> Result<RankComms, AllocError>
        ensures same { self.new ≡ record self.old { keys = self.new.keys; named = self.new.named; got = self.new.got } }
        ensures starts { IfOk result (λ kept. (before names : List SaidKey) → HasGot before names self.old →
            Keeps before names (comms_first rank) self.old self.new kept) }
    {
        let alone = self.keys.put_alone(rank)?;
        self.make_room()?;
        self.push_got(Some(alone))?;
        let comms = RankComms::first(self.alloc, alone)?;
        Ok(comms)
    }

    /// Takes the lines of the next rank's journal, if it has one, and answers the wave that its last call waits for.
    fn take_rank(
        &mut self,
        rank: u32,
        journal: Option<&Journal>,
    ) -> Result<Option<Wave>, AllocError>
        ensures same { self.new ≡ record self.old { keys = self.new.keys; named = self.new.named; got = self.new.got } }
        ensures takes { IfOk result (λ wave. (run : Run) → journal_at run rank ≡ option_map journal_of_code (option_copied journal.entry) →
            (before names : List SaidKey) → HasGot before names self.old → TakesRank run rank before names self.old self.new wave) }
    {
        let mut comms = self.start_rank(rank)?;
        match journal {
            Some(journal) => {
                checked_place(journal.lines.count())?;
                self.take_all(&mut comms, &journal.lines)?;
                Ok(wave_of_last(journal, &comms))
            }
            None => Ok(None),
        }
    }

    /// Takes the journal of the next rank.
    fn take_journal(&mut self, rank: u32, journal: Option<&Journal>) -> Result<(), AllocError>
        ensures { OnOk result ((run : Run) → journal_at run rank ≡ option_map journal_of_code (option_copied journal.entry) →
            IsSurveyedTo run rank self.old → IsSurveyedTo run (rank + 1) self.new) }
    {
        let waiting = self.take_rank(rank, journal)?;
        self.waiting.push(waiting)?;
        self.ends.push(self.got.len())?;
        Ok(())
    }

    /// The communicator of a key, if calls of a wave made it, may be what last calls made.
    fn tell_key(&mut self, key: u32)
        ensures same { self.new ≡ record self.old { inferred = self.new.inferred } }
        ensures found { (ranks rank : ℕ) (gots : List SaidKey) (it : SaidKey) (waiting : Option WaveCode) (wave : Option say.Wave) → IsTable self.old.keys →
            ranks_in self.old.keys ≡ ranks → HasKey self.old.keys key it → slice_get self.old.waiting.items rank ≡ Some waiting → IsWaveOf self.old.keys waiting wave →
            IsFound self.old ranks gots wave rank → IsFound self.new ranks (gots ++ it ∷ []) wave rank }
    {
        let Key::Made { wave, .. } = self.keys.key(key) else {
            return;
        };
        let members = self.keys.group(key);
        tell_members(&self.waiting, &mut self.inferred, members, key, wave);
    }

    /// Finds what the last calls made, as others report it, in the order of the lowest ranks that do.
    fn find_inferred(&mut self)
        ensures same { self.new ≡ record self.old { inferred = self.new.inferred } }
        ensures found { (ranks : ℕ) (gots : List SaidKey) (wave : ℕ → Option say.Wave) → IsTable self.old.keys → ranks_in self.old.keys ≡ ranks →
            AllZip (HasKey self.old.keys) self.old.got.items gots → Await self.old ranks wave → HaveNone self.old ranks →
            (rank : ℕ) → rank < ranks → IsFound self.new ranks gots (wave rank) rank }
    {
        for index in 0..self.got.len() {
            let key = self.got[index];
            self.tell_key(key);
        }
    }

    /// The communicators by the journals of all ranks.
    pub(crate) fn of(alloc: Global, journals: &[Option<Journal>]) -> Result<Survey, AllocError>
        ensures { IfOk result (λ it. HasFitComms (run_of_journals journals.now) → IsSurveyed (run_of_journals journals.now) it) }
    {
        let mut survey = Survey::new(alloc, checked_place(journals.len())?)?;
        for rank in 0..journals.len() {
            survey.take_journal(checked_place(rank)?, journals[rank].as_ref())?;
        }
        survey.find_inferred();
        Ok(survey)
    }
}

/// Whether this is the world, or no communicator.
#[inline(always)]
fn is_world_if_any(comm: Option<u32>) -> bool
    ensures { result ≡ is_world_if_any comm }
{
    match comm {
        Some(comm) => comm == 0,
        None => true,
    }
}

#[inline(always)]
fn is_world(comm: Option<u32>) -> bool
    ensures { result ≡ is_world comm }
{
    match comm {
        Some(comm) => comm == 0,
        None => false,
    }
}

/// Whether a line brings no communicator, counts on none, and names none but the world.
#[inline(always)]
fn keeps_to_world(lines: &Lines, line: u32) -> bool
    ensures { result ≡ keeps_at lines.now line }
{
    match lines.word(line) {
        Some(Word::Call(word)) => {
            if is_plain(word) {
                is_world_if_any(comm_in(word, lines.fields(line)))
            } else {
                is_bare(word)
            }
        }
        Some(Word::Report(word)) => !brings(word),
        None => true,
    }
}

/// Whether all lines do.
fn keep_to_world(lines: &Lines) -> bool
    ensures { HavePlaces lines.now → result ≡ true → keep_to_world lines.now ≡ true }
{
    for line in 0..count_of(lines) {
        if !keeps_to_world(lines, line) {
            return false;
        }
    }
    true
}

/// Whether a line is that of a call on the world that counts nowhere.
fn names_world(lines: &Lines, line: u32) -> bool
    ensures { result ≡ names_at_place lines.now line }
{
    match lines.word(line) {
        Some(Word::Call(word)) => is_plain(word) && is_world(comm_in(word, lines.fields(line))),
        _ => false,
    }
}

/// The key of the world, if one of the lines names it.
fn world_in(lines: &Lines) -> Option<u32>
    ensures { HavePlaces lines.now → result ≡ world_place (name_world lines.now) }
{
    for line in 0..count_of(lines) {
        if names_world(lines, line) {
            return Some(WORLD);
        }
    }
    None
}

/// Whether the last call of a rank waits for what a wave made.
fn waits(waiting: &[Option<Wave>], rank: u32, made_by: Wave) -> bool
    ensures { result ≡ waits_at waiting.now rank made_by }
{
    match waiting.get(rank as usize) {
        Some(Some(wave)) => *wave == made_by,
        _ => false,
    }
}

/// The last call of a rank may have made the communicator of a key.
fn tell(
    waiting: &[Option<Wave>],
    inferred: &mut Vec<Option<u32>>,
    rank: u32,
    key: u32,
    made_by: Wave,
)
    ensures { (other : ℕ) → slice_get inferred.new.items other ≡ inferred_with waiting.now inferred.old.items (rank ∷ []) key made_by other }
{
    if !waits(waiting, rank, made_by) {
        return;
    }
    let Some(it) = inferred.get_mut(rank as usize) else {
        return;
    };
    if it.is_some() {
        return;
    }
    *it = Some(key);
}

/// The communicator of a key may be what the last call of one of its members made.
fn tell_members(
    waiting: &[Option<Wave>],
    inferred: &mut Vec<Option<u32>>,
    members: &[u32],
    key: u32,
    made_by: Wave,
)
    ensures { (rank : ℕ) → slice_get inferred.new.items rank ≡ inferred_with waiting.now inferred.old.items members.now key made_by rank }
{
    for member in members {
        tell(waiting, inferred, *member, key, made_by);
    }
}

/// Whether the call of a line may give its rank a communicator.
fn may_give(lines: &Lines, line: u32) -> bool
    ensures { result ≡ gives_at lines.now line }
{
    let Some(Word::Call(word)) = lines.word(line) else {
        return false;
    };
    read_call(word, lines.fields(line)).may_give()
}

/// The wave of this last call, where that may have made a communicator, and never came back.
fn wave_of(journal: &Journal, comms: &RankComms, last: LastCall) -> Option<Wave>
    ensures { (table : Table) (rank : ℕ) → IsLastCall journal.now.lines (heading_in journal.now.header).is_outside (Some last) → HasComms table comms.now (comms_after rank journal.now.lines) →
        IsWaveOf table result (slice_get (filter_map waits_for (entries_in rank (Some (journal_of_code journal.now)))) 0) }
{
    if last.came_back {
        return None;
    }
    if !may_give(&journal.lines, last.line) {
        return None;
    }
    comms.wave()
}

/// The wave of the last call, where that may have made a communicator, and never came back.
fn wave_of_last(journal: &Journal, comms: &RankComms) -> Option<Wave>
    ensures { (table : Table) (rank : ℕ) → HavePlaces journal.now.lines → HasComms table comms.now (comms_after rank journal.now.lines) →
        IsWaveOf table result (slice_get (filter_map waits_for (entries_in rank (Some (journal_of_code journal.now)))) 0) }
{
    match last_call_of(journal) {
        Some(last) => wave_of(journal, comms, last),
        None => None,
    }
}
