//! What a rank has after some lines of its journal: its communicators, by its own numbers, and the calls that
//! count.

ghost use Rattle.std.specs.Prelude.{◌≡◌, ◌+◌, ◌==◌, OnOk, IfOk, Option, None, false, option_and_then, ℕ, if◌then◌else◌, nat_eq};
ghost use Rattle.std.specs.HashMap.{get};
ghost use Rattle.closing.specs.Called.{naturals_in};
ghost use Rattle.closing.specs.Called as say_called;
ghost use Rattle.closing.specs.inner.Words.{counts};
ghost use Rattle.closing.specs.Keys.{Alone};
ghost use Rattle.closing.specs.RankComms.{after_call, comms_first, key_next, key_under, makes_comm, under, wave_next, with_duplicate, with_duplicated, with_group, with_made};
ghost use Rattle.closing.specs.RankComms as say;
ghost use Rattle.closing.specs.inner.Holds.{apart_taken, IsCounted, IsGot, HasComms, key_on, report_taken, times_in, waves_with};
ghost use Rattle.closing.specs.Table.{Table};
ghost use Rattle.closing.specs.inner.Table.{Grows, HasGroup, HasKey, IsPlaceOf, IsTable, IsWaveOf};
ghost use Rattle.closing.specs.inner.Views.{called_view};

use crate::called::Called;
use crate::keys::{Key, Keys, WORLD, Wave};
use crate::rank_numbers::RankNumbers;
use journals::field::Field;
use journals::word::ReportWord;
use std::alloc::{AllocError, Global};
use std::collections::HashMap;

/// What a rank has. Keys and groups stand by their places.
#[derive(Drop)]
pub(crate) struct RankComms {
    /// The rank's own numbers of communicators, and their keys.
    numbers: RankNumbers,
    /// How many calls of waves it made, by the key of their communicator.
    waves: HashMap<u32, u32>,
    /// The waves of its nonblocking duplicates, by request.
    duplicates: HashMap<u32, Wave>,
    /// How often its members made a communicator of a group, and how often one came by what no call line
    /// says.
    groups: HashMap<u32, u32>,
    apart: HashMap<u32, u32>,
    /// Of the last call: the wave, where its communicator isn't reported so far; that which it made of a
    /// group.
    wave: Option<Wave>,
    own: Option<u32>,
}

/// How often a place stood before. It stands once more.
fn count_on(counts: &mut HashMap<u32, u32>, place: u32) -> Result<u32, AllocError>
    ensures before { IfOk result (λ before. before ≡ times_in counts.old place) }
    ensures more { OnOk result ((other : ℕ) → times_in counts.new other ≡ (if place == other then times_in counts.old other + 1 else times_in counts.old other)) }
{
    let before = counts.get(&place).copied().unwrap_or(0);
    let after = before.checked_add(1).ok_or(AllocError)?;
    counts.insert(place, after)?;
    Ok(before)
}

/// The wave of a next call on the communicator of a key, which counts.
fn next_wave(
    waves: &mut HashMap<u32, u32>,
    called: &Called<'_>,
    on: Option<u32>,
) -> Result<Option<Wave>, AllocError>
    ensures counted { OnOk result ((table : Table) (comms : say.RankComms) → IsTable table → IsCounted (HasKey table) waves.old comms.waves →
        IsPlaceOf table on (key_on comms (called_view called.now)) →
        IsCounted (HasKey table) waves.new (waves_with comms (wave_next comms (called_view called.now)))) }
    ensures value { IfOk result (λ wave. (table : Table) (comms : say.RankComms) → IsTable table → IsCounted (HasKey table) waves.old comms.waves →
        IsPlaceOf table on (key_on comms (called_view called.now)) → IsWaveOf table wave (wave_next comms (called_view called.now))) }
{
    if called.wave_comm().is_none() {
        return Ok(None);
    }
    let Some(parent) = on else {
        return Ok(None);
    };
    let count = count_on(waves, parent)?;
    Ok(Some(Wave { parent, count }))
}

/// The key of the communicator that members of a group make by a next call, which counts.
fn next_of_group(
    groups: &mut HashMap<u32, u32>,
    keys: &mut Keys,
    called: &Called<'_>,
) -> Result<Option<u32>, AllocError>
    ensures grows { OnOk result (IsTable keys.old → Grows keys.old keys.new) }
    ensures counted { OnOk result ((comms : say.RankComms) → IsTable keys.old → IsCounted (HasGroup keys.old) groups.old comms.groups →
        IsCounted (HasGroup keys.new) groups.new (with_group comms.groups (called_view called.now))) }
    ensures value { IfOk result (λ own. (comms : say.RankComms) → IsTable keys.old → IsCounted (HasGroup keys.old) groups.old comms.groups →
        IsPlaceOf keys.new own (key_next comms (called_view called.now))) }
{
    let Called::MakesOfGroup(members) = called else {
        return Ok(None);
    };
    let group = keys.place_of_group(members)?;
    let count = count_on(groups, group)?;
    let key = keys.put(Key::OfGroup { group, count })?;
    Ok(Some(key))
}

/// Notes the wave of a nonblocking duplicate by its request.
fn note_duplicate(
    duplicates: &mut HashMap<u32, Wave>,
    called: &Called<'_>,
    wave: Option<Wave>,
) -> Result<(), AllocError>
    ensures { OnOk result ((table : Table) (comms : say.RankComms) (it : Option say.Wave) → IsWaveOf table wave it →
        ((request : ℕ) → IsWaveOf table (get nat_eq duplicates.old request) (under request comms.duplicates)) →
        (request : ℕ) → IsWaveOf table (get nat_eq duplicates.new request) (under request (with_duplicate comms.duplicates (called_view called.now) it))) }
{
    let Called::StartsDuplicate(request, _) = called else {
        return Ok(());
    };
    let Some(wave) = wave else {
        return Ok(());
    };
    duplicates.insert(*request, wave)?;
    Ok(())
}

/// The wave of a call, where that may make communicators.
fn wave_if(called: &Called<'_>, wave: Option<Wave>) -> Option<Wave>
    ensures { (table : Table) (it : Option say.Wave) → IsWaveOf table wave it →
        IsWaveOf table result (if makes_comm (called_view called.now) then it else None) }
{
    if called.makes_comm() { wave } else { None }
}

impl RankComms {
    /// What a rank has before all lines: the world, and that of the rank alone, whose key has this place.
    pub(crate) fn first(alloc: Global, alone: u32) -> Result<RankComms, AllocError>
        ensures { IfOk result (λ it. (table : Table) (rank : ℕ) → IsTable table → HasKey table alone (Alone rank) → HasComms table it (comms_first rank)) }
    {
        let mut numbers = RankNumbers::new(alloc);
        numbers.insert(0, WORLD)?;
        numbers.insert(1, alone)?;
        Ok(RankComms {
            numbers,
            waves: HashMap::new(alloc),
            duplicates: HashMap::new(alloc),
            groups: HashMap::new(alloc),
            apart: HashMap::new(alloc),
            wave: None,
            own: None,
        })
    }

    /// The key of a communicator by the rank's own number.
    #[inline(always)]
    pub(crate) fn key_under(&self, comm: u32) -> Option<u32>
        ensures { (table : Table) (comms : say.RankComms) → HasComms table self.now comms → IsPlaceOf table result (key_under comms comm) }
    {
        self.numbers.get(comm)
    }

    /// The wave of the last call, where that may make communicators, and none was reported so far.
    pub(crate) fn wave(&self) -> Option<Wave>
        ensures { (table : Table) (comms : say.RankComms) → HasComms table self.now comms → IsWaveOf table result comms.wave }
    {
        self.wave
    }

    /// The key of the communicator of a group that the last call made.
    #[inline(always)]
    pub(crate) fn own(&self) -> Option<u32>
        ensures { (table : Table) (comms : say.RankComms) → HasComms table self.now comms → IsPlaceOf table result comms.own }
    {
        self.own
    }

    /// The key of a communicator by the rank's own number, where there is such a number.
    pub(crate) fn key_if(&self, comm: Option<u32>) -> Option<u32>
        ensures { (table : Table) (comms : say.RankComms) → HasComms table self.now comms → IsPlaceOf table result (option_and_then (key_under comms) comm) }
    {
        match comm {
            Some(comm) => self.key_under(comm),
            None => None,
        }
    }

    /// Takes the next call, which neither counts nor makes a communicator of a group.
    #[inline(always)]
    #[tactic(auto, using(crate::proofs::PlainLemmas::plain_comms))]
    pub(crate) fn take_plain(&mut self)
        ensures { (table : Table) (comms : say.RankComms) (it : say_called.Called) → counts it ≡ false → HasComms table self.old comms →
            HasComms table self.new (after_call comms it) }
    {
        self.own = None;
        self.wave = None;
    }

    /// The key of the communicator that a call is on.
    #[inline(always)]
    pub(crate) fn key_on(&self, called: &Called<'_>) -> Option<u32>
        ensures { (table : Table) (comms : say.RankComms) → HasComms table self.now comms → IsPlaceOf table result (key_on comms (called_view called.now)) }
    {
        self.key_under(called.comm()?)
    }

    /// Takes the next call, which is on the communicator of this key, and answers its wave.
    #[inline(always)]
    #[tactic(auto, using(crate::proofs::TableLemmas::grows_same, crate::proofs::PlainLemmas::plain_wave))]
    pub(crate) fn take_call(
        &mut self,
        keys: &mut Keys,
        called: &Called<'_>,
        on: Option<u32>,
    ) -> Result<Option<Wave>, AllocError>
        ensures grows { OnOk result (IsTable keys.old → Grows keys.old keys.new) }
        ensures comms { OnOk result ((comms : say.RankComms) → HasComms keys.old self.old comms →
            IsPlaceOf keys.old on (key_on comms (called_view called.now)) → HasComms keys.new self.new (after_call comms (called_view called.now))) }
        ensures wave { IfOk result (λ wave. (comms : say.RankComms) → HasComms keys.old self.old comms →
            IsPlaceOf keys.old on (key_on comms (called_view called.now)) → IsWaveOf keys.new wave (wave_next comms (called_view called.now))) }
    {
        if !called.counts() {
            self.take_plain();
            return Ok(None);
        }
        self.take_counted(keys, called, on)
    }

    /// Takes a call, whether it counts or not: what it brings is sought.
    #[inline(never)]
    fn take_counted(
        &mut self,
        keys: &mut Keys,
        called: &Called<'_>,
        on: Option<u32>,
    ) -> Result<Option<Wave>, AllocError>
        ensures grows { OnOk result (IsTable keys.old → Grows keys.old keys.new) }
        ensures comms { OnOk result ((comms : say.RankComms) → HasComms keys.old self.old comms →
            IsPlaceOf keys.old on (key_on comms (called_view called.now)) → HasComms keys.new self.new (after_call comms (called_view called.now))) }
        ensures wave { IfOk result (λ wave. (comms : say.RankComms) → HasComms keys.old self.old comms →
            IsPlaceOf keys.old on (key_on comms (called_view called.now)) → IsWaveOf keys.new wave (wave_next comms (called_view called.now))) }
    {
        let wave = next_wave(&mut self.waves, called, on)?;
        let own = next_of_group(&mut self.groups, keys, called)?;
        note_duplicate(&mut self.duplicates, called, wave)?;
        self.own = own;
        self.wave = wave_if(called, wave);
        Ok(wave)
    }

    /// Takes the communicator that the last call is reported to have made. That of a group is had already.
    fn take_made(
        &mut self,
        keys: &mut Keys,
        comm: u32,
        members: &[Field],
    ) -> Result<Option<u32>, AllocError>
        ensures grows { OnOk result ((comms : say.RankComms) → HasComms keys.old self.old comms → Grows keys.old keys.new) }
        ensures comms { OnOk result ((comms : say.RankComms) → HasComms keys.old self.old comms →
            HasComms keys.new self.new (with_made comms comm (naturals_in members.now) comms.own)) }
        ensures got { IfOk result (λ key. (comms : say.RankComms) → HasComms keys.old self.old comms →
            IsGot keys.new key comms.keys (with_made comms comm (naturals_in members.now) comms.own).keys) }
    {
        match self.own {
            Some(key) => {
                self.numbers.insert(comm, key)?;
                Ok(None)
            }
            None => {
                let key = self.take_waited(keys, comm, members)?;
                Ok(key)
            }
        }
    }

    /// Takes the communicator that the wave of the last call is reported to have made.
    fn take_waited(
        &mut self,
        keys: &mut Keys,
        comm: u32,
        members: &[Field],
    ) -> Result<Option<u32>, AllocError>
        ensures grows { OnOk result ((comms : say.RankComms) → HasComms keys.old self.old comms → Grows keys.old keys.new) }
        ensures comms { OnOk result ((comms : say.RankComms) → HasComms keys.old self.old comms →
            HasComms keys.new self.new (with_made comms comm (naturals_in members.now) None)) }
        ensures got { IfOk result (λ key. (comms : say.RankComms) → HasComms keys.old self.old comms →
            IsGot keys.new key comms.keys (with_made comms comm (naturals_in members.now) None).keys) }
    {
        let Some(wave) = self.wave else {
            return Ok(None);
        };
        self.wave = None;
        let group = keys.place_of_group(members)?;
        let key = keys.put(Key::Made { wave, group })?;
        self.numbers.insert(comm, key)?;
        Ok(Some(key))
    }

    /// Takes the communicator that the nonblocking duplicate of a request is reported to have made.
    fn take_duplicated(
        &mut self,
        keys: &mut Keys,
        comm: u32,
        request: u32,
        members: &[Field],
    ) -> Result<Option<u32>, AllocError>
        ensures grows { OnOk result ((comms : say.RankComms) → HasComms keys.old self.old comms → Grows keys.old keys.new) }
        ensures comms { OnOk result ((comms : say.RankComms) → HasComms keys.old self.old comms →
            HasComms keys.new self.new (with_duplicated comms comm request (naturals_in members.now))) }
        ensures got { IfOk result (λ key. (comms : say.RankComms) → HasComms keys.old self.old comms →
            IsGot keys.new key comms.keys (with_duplicated comms comm request (naturals_in members.now)).keys) }
    {
        let Some(wave) = self.duplicates.get(&request).copied() else {
            return Ok(None);
        };
        let group = keys.place_of_group(members)?;
        let key = keys.put(Key::Duplicated { wave, group })?;
        self.numbers.insert(comm, key)?;
        Ok(Some(key))
    }

    /// Takes a communicator that came by what no call line says.
    fn take_apart(
        &mut self,
        keys: &mut Keys,
        comm: u32,
        members: &[Field],
    ) -> Result<Option<u32>, AllocError>
        ensures grows { OnOk result ((comms : say.RankComms) → HasComms keys.old self.old comms → Grows keys.old keys.new) }
        ensures comms { OnOk result ((comms : say.RankComms) → HasComms keys.old self.old comms →
            HasComms keys.new self.new (apart_taken comms comm (naturals_in members.now))) }
        ensures got { IfOk result (λ key. (comms : say.RankComms) → HasComms keys.old self.old comms →
            IsGot keys.new key comms.keys (apart_taken comms comm (naturals_in members.now)).keys) }
    {
        let group = keys.place_of_group(members)?;
        let count = count_on(&mut self.apart, group)?;
        let key = keys.put(Key::Apart { group, count })?;
        self.numbers.insert(comm, key)?;
        Ok(Some(key))
    }

    /// Takes the next report, and answers the key of the communicator that the rank got by it.
    pub(crate) fn take_report(
        &mut self,
        keys: &mut Keys,
        word: ReportWord,
        fields: &[Field],
    ) -> Result<Option<u32>, AllocError>
        ensures grows { OnOk result ((comms : say.RankComms) → HasComms keys.old self.old comms → Grows keys.old keys.new) }
        ensures comms { OnOk result ((comms : say.RankComms) → HasComms keys.old self.old comms →
            HasComms keys.new self.new (report_taken comms word fields.now)) }
        ensures got { IfOk result (λ key. (comms : say.RankComms) → HasComms keys.old self.old comms →
            IsGot keys.new key comms.keys (report_taken comms word fields.now).keys) }
    {
        match (word, fields) {
            (ReportWord::Comm, [Field::Natural(comm), members @ ..]) => {
                self.take_made(keys, comm.get(), members)
            }
            (ReportWord::Idup, [Field::Natural(comm), Field::Natural(request), members @ ..]) => {
                self.take_duplicated(keys, comm.get(), request.get(), members)
            }
            (ReportWord::Apart, [Field::Natural(comm), members @ ..]) => {
                self.take_apart(keys, comm.get(), members)
            }
            _ => Ok(None),
        }
    }
}
