//! The communicators of a run by their numbers in the head, and how ranks get those that no call on a parent
//! makes.

ghost use Rattle.std.specs.Prelude.{◌≡◌, ℕ, ◌+◌, ◌*◌, ◌^◌, ◌<◌, ◌≤◌, true, false, not, unwrap_or, Option, Some, List, [], ◌∷◌, ◌++◌, length, replicate, set, drop, slice_get, if◌then◌else◌, option_and_then, IfOk, OnOk};
ghost use Rattle.std.specs.HashSet.{contains_by};
ghost use Rattle.std.specs.List.{filter_map, list_any};
ghost use Rattle.std.specs.Option.{option_map_or};
ghost use Rattle.std.specs.Str.{bytes_eq};
ghost use Rattle.std.specs.Vec.{vec_len};
ghost use Rattle.journals.specs.Known.{is_among};
ghost use Rattle.closing.specs.Keys as say;
ghost use Rattle.closing.specs.Keys.{group_of_key};
ghost use Rattle.closing.specs.RankComms as waves;
ghost use Rattle.closing.specs.Entries.{Run, entries_at, is_window as is_window_of};
ghost use Rattle.closing.specs.Entry.{brings, parent_rank};
ghost use Rattle.closing.specs.FitComms.{HasFitComms};
ghost use Rattle.closing.specs.Journals.{run_in};
ghost use Rattle.closing.specs.Made.{inferred_key};
ghost use Rattle.closing.specs.Numbers.{number_of, preface_lines, preface_split, rank_in};
ghost use Rattle.closing.specs.declared.keys.Wave as code;
ghost use Rattle.closing.specs.inner.Given.{AreBelow, IsNumbering, got_between, is_named_at, number_in, numbered_places, or_none, as_places, places_from, with_place, with_places};
ghost use Rattle.closing.specs.Groups.{groups_in};
ghost use Rattle.closing.specs.inner.Numbered.{AreGroupsOf, AreNamed, HasPreface, IsNumberedRun, brings_at, is_known, is_same_wave, named_as, same_wave, wave_made};
ghost use Rattle.closing.specs.inner.Prefaces.{AreRanks, IsPreface, Seated, first_free, is_of_none, is_seat, put_all, put_seated, put_seated_if, seat_at, seated_from, seats_with, with_line, with_seat};
ghost use Rattle.closing.specs.inner.Rankwise.{AreFew};
ghost use Rattle.closing.specs.inner.Surveyed.{IsSurveyed};
ghost use Rattle.closing.specs.Table.{group_at};
ghost use Rattle.closing.specs.inner.Table.{HasKey, IsPlaceOf, IsWaveOf};

use crate::keys::{Key, Keys, WORLD, Wave};
use crate::last::are_cut_off;
use crate::places::{as_colour, as_key, checked_place, checked_rank, place_in};
use crate::survey::Survey;
use journals::journal::Journal;
use mpicall::call::Call;
use mpicall::limits::GREATEST_COMM;
use std::alloc::{AllocError, Global};
use std::collections::HashSet;

/// The communicator by which a rank stands in a line of the preface, and the rank's place in its group.
#[derive(Clone, Copy)]
struct Seat {
    comm: u16,
    place: u16,
}

/// The lines at the head of each trace by which the ranks get the communicators that no call on a parent
/// makes. Two communicators of a line share no member.
#[derive(Drop)]
pub(crate) struct Preface {
    ranks: usize,
    /// How many communicators each line has.
    sizes: Vec<u16>,
    /// By line and rank.
    seats: Vec<Option<Seat>>,
    /// Which place each numbered communicator has in its line.
    colours: Vec<u16>,
}

impl Preface {
    fn new(alloc: Global, ranks: usize, comms: usize) -> Result<Preface, AllocError>
        ensures ranks { IfOk result (λ it. it.ranks ≡ ranks) }
        ensures colours { IfOk result (λ it. vec_len it.colours ≡ comms) }
        ensures lines { IfOk result (λ it. IsPreface it 1 []) }
    {
        Ok(Preface {
            ranks,
            sizes: Vec::new(alloc),
            seats: Vec::new(alloc),
            colours: vec![in alloc; 0; comms]?,
        })
    }

    /// The place of a rank's seat in a line.
    fn seat_place(&self, line: usize, rank: usize) -> usize
        ensures { line * self.now.ranks + rank < 2 ^ 64 → result ≡ line * self.now.ranks + rank }
    {
        line.saturating_mul(self.ranks).saturating_add(rank)
    }

    /// The seat of a rank in a line, if it has one.
    fn seat_of(&self, line: usize, rank: usize) -> Option<Seat>
        ensures { line * self.now.ranks + rank < vec_len self.now.seats → seat_at self.now line rank ≡ Some result }
    {
        match self.seats.get(self.seat_place(line, rank)).copied() {
            Some(seat) => seat,
            None => None,
        }
    }

    /// Whether no member of a group has a communicator in a line.
    fn is_free(&self, line: usize, group: &[u32]) -> bool
        ensures { AreRanks self.now.ranks group.now → line * self.now.ranks + self.now.ranks ≤ vec_len self.now.seats →
            result ≡ not (list_any (λ rank. is_seat (seat_at self.now line rank)) group.now) }
    {
        for member in group {
            if self.seat_of(line, *member as usize).is_some() {
                return false;
            }
        }
        true
    }

    /// The first line in which no member of a group has a communicator.
    fn first_free(&self, group: &[u32]) -> usize
        ensures { AreRanks self.now.ranks group.now → (next : ℕ) (lines : List (List Seated)) → IsPreface self.now next lines →
            result ≡ first_free group.now lines }
    {
        for line in 0..self.sizes.len() {
            if self.is_free(line, group) {
                return line;
            }
        }
        self.sizes.len()
    }

    /// Puts a line after the others, in which no rank has a seat.
    fn push_line(&mut self) -> Result<(), AllocError>
        ensures ranks { OnOk result (self.new.ranks ≡ self.old.ranks) }
        ensures sizes { OnOk result (self.new.sizes.items ≡ self.old.sizes.items ++ 0 ∷ []) }
        ensures seats { OnOk result (self.new.seats.items ≡ self.old.seats.items ++ replicate self.old.ranks None) }
        ensures colours { OnOk result (self.new.colours.items ≡ self.old.colours.items) }
    {
        self.sizes.push(0)?;
        for _rank in 0..self.ranks {
            self.seats.push(None)?;
        }
        Ok(())
    }

    /// The first line in which no member of a group has a communicator, with which there is such a line.
    fn line_for(&mut self, group: &[u32]) -> Result<usize, AllocError>
        ensures ranks { OnOk result (self.new.ranks ≡ self.old.ranks) }
        ensures colours { OnOk result (vec_len self.new.colours ≡ vec_len self.old.colours) }
        ensures lines { IfOk result (λ line. AreRanks self.old.ranks group.now → (next : ℕ) (lines : List (List Seated)) → IsPreface self.old next lines →
            (line ≡ first_free group.now lines) × IsPreface self.new next (with_line line lines)) }
    {
        let line = self.first_free(group);
        if line == self.sizes.len() {
            self.push_line()?;
        }
        Ok(line)
    }

    /// Gives a rank a seat in a line, unless it has one.
    fn put_seat(&mut self, line: usize, rank: usize, seat: Seat)
        ensures ranks { self.new.ranks ≡ self.old.ranks }
        ensures sizes { self.new.sizes.items ≡ self.old.sizes.items }
        ensures colours { self.new.colours.items ≡ self.old.colours.items }
        ensures room { vec_len self.new.seats ≡ vec_len self.old.seats }
        ensures seats { line * self.old.ranks + rank < vec_len self.old.seats →
            self.new.seats.items ≡ with_seat self.old.seats.items (line * self.old.ranks + rank) seat }
    {
        let at = self.seat_place(line, rank);
        if let Some(None) = self.seats.get(at) {
            self.seats[at] = Some(seat);
        }
    }

    /// Gives the members of a group the communicator with a number, in a line that is free for them.
    fn seat(&mut self, line: usize, comm: u16, group: &[u32]) -> Result<(), AllocError>
        ensures ranks { OnOk result (self.new.ranks ≡ self.old.ranks) }
        ensures sizes { OnOk result (self.new.sizes.items ≡ self.old.sizes.items) }
        ensures colours { OnOk result (self.new.colours.items ≡ self.old.colours.items) }
        ensures seats { OnOk result (AreRanks self.old.ranks group.now → line * self.old.ranks + self.old.ranks ≤ vec_len self.old.seats →
            self.new.seats.items ≡ seats_with self.old.seats.items (line * self.old.ranks) comm 0 group.now) }
    {
        for place in 0..group.len() {
            let seat = Seat {
                comm,
                place: checked_rank(place)?,
            };
            self.put_seat(line, group[place] as usize, seat);
        }
        Ok(())
    }

    /// Gives the communicator with a number the next colour of a line.
    fn colour(&mut self, line: usize, comm: u16)
        ensures ranks { self.new.ranks ≡ self.old.ranks }
        ensures seats { self.new.seats.items ≡ self.old.seats.items }
        ensures room { vec_len self.new.colours ≡ vec_len self.old.colours }
        ensures sizes { (size : ℕ) → slice_get self.old.sizes.items line ≡ Some size → size < 65535 → comm < vec_len self.old.colours →
            self.new.sizes.items ≡ set self.old.sizes.items line (size + 1) }
        ensures colours { (size : ℕ) → slice_get self.old.sizes.items line ≡ Some size → comm < vec_len self.old.colours →
            self.new.colours.items ≡ set self.old.colours.items comm size }
    {
        let Some(size) = self.sizes.get(line).copied() else {
            return;
        };
        let place = usize::from(comm);
        if place < self.colours.len() {
            self.colours[place] = size;
            self.sizes[line] = size.saturating_add(1);
        }
    }

    /// Gives the communicator with a number its place in the first line that is free for its members.
    fn put(&mut self, comm: u16, group: &[u32]) -> Result<(), AllocError>
        ensures ranks { OnOk result (self.new.ranks ≡ self.old.ranks) }
        ensures colours { OnOk result (vec_len self.new.colours ≡ vec_len self.old.colours) }
        ensures lines { OnOk result (AreRanks self.old.ranks group.now → comm < vec_len self.old.colours → (lines : List (List Seated)) →
            IsPreface self.old comm lines → IsPreface self.new (comm + 1) (put_seated (record { comm = comm; group = group.now }) lines)) }
    {
        let line = self.line_for(group)?;
        self.seat(line, comm, group)?;
        self.colour(line, comm);
        Ok(())
    }

    /// How many lines there are.
    pub(crate) fn count(&self) -> usize
        ensures count { result ≡ vec_len self.now.sizes }
        ensures lines { (run : Run) (count : ℕ) → HasPreface run self.now count → result ≡ length (preface_lines run) }
    {
        self.sizes.len()
    }

    /// The colour of the communicator with a number.
    fn colour_of(&self, comm: u16) -> Option<u32>
        ensures { result ≡ slice_get self.now.colours.items comm }
    {
        match self.colours.get(usize::from(comm)) {
            Some(colour) => Some(u32::from(*colour)),
            None => None,
        }
    }

    /// The split by which a rank gets its communicator of a line, or none.
    pub(crate) fn split(&self, line: usize, rank: u16) -> Call
        ensures { (run : Run) (count : ℕ) (keys : List say.Key) → HasPreface run self.now count → slice_get (preface_lines run) line ≡ Some keys →
            rank < length run → result ≡ preface_split run rank 0 keys }
    {
        match self.seat_of(line, rank as usize) {
            Some(seat) => Call::Split {
                comm: 0,
                colour: self.colour_of(seat.comm),
                key: i32::from(seat.place),
                new: Some(seat.comm),
            },
            None => Call::Split {
                comm: 0,
                colour: None,
                key: 0,
                new: None,
            },
        }
    }
}

/// A communicator: its key, how many members it has, and its number in the head, where it has one.
#[derive(Clone, Copy)]
pub(crate) struct Named {
    pub key: u32,
    pub size: u32,
    pub number: Option<u16>,
}

/// The communicators of a run: those that have a number in the head, and how ranks get them.
#[derive(Drop)]
pub struct Communicators {
    pub(crate) keys: Keys,
    /// By key, the communicator's number and size.
    named: Vec<Named>,
    /// By number, the communicator's key.
    numbered: Vec<u32>,
    /// The waves that bring a communicator with a number in.
    bringing: HashSet<Wave>,
    /// Of each rank what its last call made, where others alone report it.
    inferred: Vec<Option<u32>>,
    pub(crate) preface: Preface,
    /// All journals end where nothing is under way.
    pub(crate) is_window: bool,
}

/// Whether a call names the communicator of a key.
fn is_named(named: &[bool], key: u32) -> bool
    ensures { result ≡ is_named_at named.now key }
{
    match named.get(key as usize) {
        Some(is_named) => *is_named,
        None => false,
    }
}

/// The numbers of communicators, as they are given.
#[derive(Drop)]
struct Numbering {
    numbers: Vec<Option<u16>>,
    numbered: Vec<u32>,
}

impl Numbering {
    /// The world has a number, and of so many keys no other so far.
    fn new(alloc: Global, keys: usize) -> Result<Numbering, AllocError>
        ensures numbering { IfOk result (λ it. IsNumbering it) }
        ensures room { IfOk result (λ it. vec_len it.numbers ≡ keys) }
        ensures world { IfOk result (λ it. 0 < keys → it.numbered.items ≡ 0 ∷ []) }
    {
        let mut numbering = Numbering {
            numbers: vec![in alloc; None; keys]?,
            numbered: Vec::new(alloc),
        };
        numbering.give(WORLD)?;
        Ok(numbering)
    }

    /// The number of the communicator of a key, if there is one.
    fn number_at(&self, key: u32) -> Option<Option<u16>>
        ensures { result ≡ slice_get self.now.numbers.items key }
    {
        self.numbers.get(key as usize).copied()
    }

    /// Whether the communicator of a key has a number.
    fn has(&self, key: u32) -> bool
        requires { IsNumbering self.now }
        ensures { result ≡ is_among key self.now.numbered.items }
    {
        match self.number_at(key) {
            Some(number) => number.is_some(),
            None => false,
        }
    }

    /// Gives the communicator of a key the next number, unless it has one, or all are given.
    fn give(&mut self, key: u32) -> Result<(), AllocError>
        requires { IsNumbering self.old }
        ensures numbering { OnOk result (IsNumbering self.new) }
        ensures room { OnOk result (vec_len self.new.numbers ≡ vec_len self.old.numbers) }
        ensures given { OnOk result (key < vec_len self.old.numbers → self.new.numbered.items ≡ with_place self.old.numbered.items key) }
    {
        let next = self.numbered.len();
        let place = key as usize;
        if next > usize::from(GREATEST_COMM) {
            return Ok(());
        }
        if self.has(key) {
            return Ok(());
        }
        if place < self.numbers.len() {
            self.numbered.push(key)?;
            self.numbers[place] = Some(next as u16);
        }
        Ok(())
    }

    /// Gives the communicators of some keys numbers that calls name.
    #[tactic(auto, using(crate::proofs::NumberLemmas::places_step))]
    fn give_named(&mut self, named: &[bool], keys: &[u32]) -> Result<(), AllocError>
        requires { IsNumbering self.old }
        ensures numbering { OnOk result (IsNumbering self.new) }
        ensures room { OnOk result (vec_len self.new.numbers ≡ vec_len self.old.numbers) }
        ensures given { OnOk result (AreBelow (vec_len self.old.numbers) keys.now → self.new.numbered.items ≡ with_places named.now self.old.numbered.items keys.now) }
    {
        for key in keys {
            if is_named(named, *key) {
                self.give(*key)?;
            }
        }
        Ok(())
    }

    /// Gives a communicator a number, where there is one.
    fn give_if(&mut self, named: &[bool], key: Option<u32>) -> Result<(), AllocError>
        requires { IsNumbering self.old }
        ensures numbering { OnOk result (IsNumbering self.new) }
        ensures room { OnOk result (vec_len self.new.numbers ≡ vec_len self.old.numbers) }
        ensures given { OnOk result (AreBelow (vec_len self.old.numbers) (as_places key) →
            self.new.numbered.items ≡ with_places named.now self.old.numbered.items (as_places key)) }
    {
        match key {
            Some(key) => self.give_named(named, &[key]),
            None => Ok(()),
        }
    }
}

/// What is inferred of a rank.
fn inferred_at(inferred: &[Option<u32>], rank: usize) -> Option<u32>
    ensures { result ≡ or_none (slice_get inferred.now rank) }
{
    match inferred.get(rank).copied() {
        Some(inferred) => inferred,
        None => None,
    }
}

/// The keys from one place up to another, if there are as many.
fn keys_between(got: &[u32], start: usize, end: usize) -> &[u32]
    ensures { result.now ≡ got_between got.now start end }
{
    match got.get(start..end) {
        Some(keys) => keys,
        None => &[],
    }
}

/// The numbers of the communicators: by the lowest rank that has them, then by when it got them.
fn numbering_of(alloc: Global, survey: &Survey) -> Result<Numbering, AllocError>
    ensures room { IfOk result (λ it. vec_len it.numbers ≡ length survey.now.keys.codes) }
    ensures numbering { IfOk result (λ it. IsNumbering it) }
    ensures given { IfOk result (λ it. let places = places_from survey.now.got.items survey.now.inferred.items 0 0 survey.now.ends.items in
        0 < vec_len it.numbers → AreBelow (vec_len it.numbers) places →
        it.numbered.items ≡ numbered_places survey.now.named.items places) }
{
    let mut numbering = Numbering::new(alloc, survey.keys.count())?;
    let mut start = 0;
    for rank in 0..survey.ends.len() {
        let end = survey.ends[rank];
        let keys = keys_between(survey.got.as_slice(), start, end);
        numbering.give_named(survey.named.as_slice(), keys)?;
        let inferred = inferred_at(survey.inferred.as_slice(), rank);
        numbering.give_if(survey.named.as_slice(), inferred)?;
        start = end;
    }
    Ok(numbering)
}

/// The communicator of the key at a place, which has this number.
fn named_at(keys: &Keys, place: usize, number: Option<u16>) -> Result<Named, AllocError>
    ensures key { IfOk result (λ it. it.key ≡ place) }
    ensures size { IfOk result (λ it. it.size ≡ length (group_at keys.now place)) }
    ensures number { IfOk result (λ it. it.number ≡ number) }
{
    let key = checked_place(place)?;
    let size = checked_place(keys.group(key).len())?;
    Ok(Named { key, size, number })
}

/// The number at a place, if there is one.
fn number_at(numbers: &[Option<u16>], place: usize) -> Option<u16>
    ensures { result ≡ or_none (slice_get numbers.now place) }
{
    match numbers.get(place).copied() {
        Some(number) => number,
        None => None,
    }
}

/// The communicators of all keys, by the numbers that these have.
#[tactic(auto, using(crate::proofs::KeptLemmas::named_none))]
fn named_of(alloc: Global, keys: &Keys, numbers: &[Option<u16>]) -> Result<Vec<Named>, AllocError>
    ensures { IfOk result (λ it. AreNamed keys.now numbers.now it.items) }
{
    let mut named = Vec::new(alloc);
    for place in 0..numbers.len() {
        let number = number_at(numbers, place);
        named.push(named_at(keys, place, number)?)?;
    }
    Ok(named)
}

/// The wave whose calls make the communicator of a key.
fn wave_of(key: Key) -> Option<Wave>
    ensures { result ≡ wave_made key }
{
    match key {
        Key::Made { wave, .. } => Some(wave),
        _ => None,
    }
}

/// Notes that a wave, if there is one, brings a communicator with a number in.
fn bring(bringing: &mut HashSet<Wave>, wave: Option<Wave>) -> Result<(), AllocError>
    ensures { OnOk result ((other : code.Wave) →
        contains_by (same_wave other) bringing.new ≡ (if is_same_wave wave other then true else contains_by (same_wave other) bringing.old)) }
{
    let Some(wave) = wave else {
        return Ok(());
    };
    bringing.insert(wave)?;
    Ok(())
}

/// The waves that make communicators with a number.
fn bringing_of(alloc: Global, keys: &Keys, numbered: &[u32]) -> Result<HashSet<Wave>, AllocError>
    ensures { IfOk result (λ it. AreBelow (length keys.now.codes) numbered.now → (wave : code.Wave) →
        contains_by (same_wave wave) it ≡ brings_at keys.now numbered.now wave) }
{
    let mut bringing = HashSet::new(alloc);
    for key in numbered {
        bring(&mut bringing, wave_of(keys.key(*key)))?;
    }
    Ok(bringing)
}

/// Puts the communicator of a key, which has this number, into the preface, unless a call on a parent makes it.
fn put_into(preface: &mut Preface, keys: &Keys, number: usize, key: u32) -> Result<(), AllocError>
    ensures ranks { OnOk result (preface.new.ranks ≡ preface.old.ranks) }
    ensures colours { OnOk result (vec_len preface.new.colours ≡ vec_len preface.old.colours) }
    ensures lines { OnOk result (key < length keys.now.codes → AreRanks preface.old.ranks (group_at keys.now key) → number < vec_len preface.old.colours →
        (lines : List (List Seated)) → IsPreface preface.old number lines →
        IsPreface preface.new (number + 1) (put_seated_if (is_of_none (slice_get keys.now.codes key)) (record { comm = number; group = group_at keys.now key }) lines)) }
{
    if wave_of(keys.key(key)).is_some() {
        return Ok(());
    }
    let comm = checked_rank(number)?;
    preface.put(comm, keys.group(key))?;
    Ok(())
}

/// The preface for the numbered communicators that no call on a parent makes.
fn preface_of(
    alloc: Global,
    ranks: usize,
    keys: &Keys,
    numbered: &[u32],
) -> Result<Preface, AllocError>
    ensures ranks { IfOk result (λ it. it.ranks ≡ ranks) }
    ensures lines { IfOk result (λ it. 0 < length numbered.now → AreBelow (length keys.now.codes) numbered.now →
        AreGroupsOf keys.now ranks numbered.now → IsPreface it (length numbered.now) (put_all (seated_from keys.now 1 (drop 1 numbered.now)) [])) }
{
    let mut preface = Preface::new(alloc, ranks, numbered.len())?;
    for number in 1..numbered.len() {
        put_into(&mut preface, keys, number, numbered[number])?;
    }
    Ok(preface)
}

/// Those of a survey of the journals of so many ranks.
fn communicators_of(
    alloc: Global,
    ranks: usize,
    survey: Survey,
    is_window: bool,
) -> Result<Communicators, AllocError>
    ensures { IfOk result (λ it. (run : Run) → ranks ≡ length run → HasFitComms run → IsSurveyed run survey → is_window ≡ is_window_of run → IsNumberedRun run it) }
{
    let numbering = numbering_of(alloc, &survey)?;
    let list = numbering.numbered.as_slice();
    let numbers = numbering.numbers.as_slice();
    let bringing = bringing_of(alloc, &survey.keys, list)?;
    let preface = preface_of(alloc, ranks, &survey.keys, list)?;
    let named = named_of(alloc, &survey.keys, numbers)?;
    let Numbering { numbered, .. } = numbering;
    let Survey { keys, inferred, .. } = survey;
    Ok(Communicators {
        keys,
        named,
        numbered,
        bringing,
        inferred,
        preface,
        is_window,
    })
}

impl Communicators {
    /// Those of the journals of all ranks.
    pub(crate) fn of(
        alloc: Global,
        journals: &[Option<Journal>],
    ) -> Result<Communicators, AllocError>
        ensures { IfOk result (λ it. AreFew journals.now → HasFitComms (run_in journals.now) → IsNumberedRun (run_in journals.now) it) }
    {
        let survey = Survey::of(alloc, journals)?;
        let kept = communicators_of(alloc, journals.len(), survey, are_cut_off(journals))?;
        Ok(kept)
    }

    /// How many have a number, the world counted.
    pub fn count(&self) -> usize
        ensures { result ≡ length (groups_in self.now) }
    {
        self.numbered.len()
    }

    /// The place of the key of the communicator with a number.
    fn numbered_at(&self, number: usize) -> Option<u32>
        ensures { result ≡ slice_get self.now.numbered.items number }
    {
        self.numbered.get(number).copied()
    }

    /// The group of the communicator with a number.
    pub fn group(&self, number: usize) -> &[u32]
        ensures { result.now ≡ unwrap_or (slice_get (groups_in self.now) number) [] }
    {
        match self.numbered_at(number) {
            Some(key) => self.keys.group(key),
            None => &[],
        }
    }

    /// The number of the communicator of a key.
    pub(crate) fn number(&self, key: u32) -> Option<u16>
        ensures kept { result ≡ number_in (slice_get self.now.named.items key) }
        ensures number { (run : Run) (it : say.Key) → IsNumberedRun run self.now → HasKey self.now.keys key it → result ≡ number_of run it }
    {
        match self.named(key) {
            Some(named) => named.number,
            None => None,
        }
    }

    /// What is kept at a place.
    fn named_at(&self, place: u32) -> Option<Named>
        ensures { result ≡ slice_get self.now.named.items place }
    {
        self.named.get(place as usize).copied()
    }

    /// The communicator of a key.
    pub(crate) fn named(&self, key: u32) -> Option<Named>
        ensures kept { result ≡ slice_get self.now.named.items key }
        ensures known { (run : Run) (it : say.Key) → IsNumberedRun run self.now → HasKey self.now.keys key it → is_known run it ≡ true →
            result ≡ Some (named_as run key it) }
    {
        self.named_at(key)
    }

    /// The communicator of a key, where there is one.
    pub(crate) fn named_if(&self, key: Option<u32>) -> Option<Named>
        ensures kept { result ≡ option_and_then (λ place. slice_get self.now.named.items place) key }
        ensures known { (run : Run) (it : say.Key) (place : ℕ) → IsNumberedRun run self.now → key ≡ Some place → HasKey self.now.keys place it →
            is_known run it ≡ true → result ≡ Some (named_as run place it) }
    {
        match key {
            Some(key) => self.named(key),
            None => None,
        }
    }

    /// What is kept of a rank's last call.
    fn inferred_of(&self, rank: u16) -> Option<u32>
        ensures { result ≡ or_none (slice_get self.now.inferred.items rank) }
    {
        inferred_at(self.inferred.as_slice(), usize::from(rank))
    }

    /// What the last call of a rank made, where others alone report it.
    pub(crate) fn inferred(&self, rank: u16) -> Option<u32>
        ensures kept { result ≡ or_none (slice_get self.now.inferred.items rank) }
        ensures inferred { (run : Run) → IsNumberedRun run self.now → rank < length run →
            IsPlaceOf self.now.keys result (slice_get (filter_map (inferred_key run) (entries_at run rank)) 0) }
    {
        self.inferred_of(rank)
    }

    /// Whether a wave brings a communicator with a number in, for some rank.
    pub(crate) fn brings(&self, wave: Option<Wave>) -> bool
        ensures { (run : Run) (it : Option waves.Wave) → IsNumberedRun run self.now → IsWaveOf self.now.keys wave it →
            result ≡ option_map_or (brings run) it false }
    {
        match wave {
            Some(wave) => self.bringing.contains(&wave),
            None => false,
        }
    }

    /// The place of a rank in the group of a key, as the key of a split.
    pub(crate) fn place_of(&self, key: u32, rank: u16) -> i32
        ensures { (run : Run) (it : say.Key) → IsNumberedRun run self.now → HasKey self.now.keys key it → length (group_of_key (length run) it) ≤ 1024 →
            result ≡ rank_in run rank it }
    {
        as_key(place_in(self.keys.group(key), u32::from(rank)))
    }

    /// The place of the first member of a key's group in the group of its parent, as the colour of a split.
    pub(crate) fn place_of_first(&self, parent: u32, key: u32) -> u32
        ensures { (run : Run) (on it : say.Key) → IsNumberedRun run self.now → HasKey self.now.keys parent on → HasKey self.now.keys key it →
            length (group_of_key (length run) on) ≤ 1024 → result ≡ parent_rank (group_of_key (length run) on) (group_of_key (length run) it) }
    {
        let on = self.keys.group(parent);
        let members = self.keys.group(key);
        match members.first() {
            Some(first) => as_colour(place_in(on, *first)),
            None => 0,
        }
    }

    /// Whether two keys have the same group.
    pub(crate) fn have_same_group(&self, key: u32, other: u32) -> bool
        ensures { (run : Run) (it another : say.Key) → IsNumberedRun run self.now → HasKey self.now.keys key it → HasKey self.now.keys other another →
            result ≡ bytes_eq (group_of_key (length run) it) (group_of_key (length run) another) }
    {
        let one = self.keys.group(key);
        let another = self.keys.group(other);
        one == another
    }
}
