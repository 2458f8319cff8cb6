//! The list of a rank: its records so far, and the numbers of its requests.

ghost use Rattle.std.specs.Prelude.{◌≡◌, ◌<◌, ◌≤◌, ◌+◌, [], ◌∷◌, ◌++◌, ℕ, List as Items, map, take, drop, length, slice_index, true, false, IsTrue, IfOk, OnOk};
ghost use Rattle.mpicall.specs.Limits.{in_ranges};
ghost use Rattle.closing.specs.inner.Free.{AreNumbered, KeepsFree, Requests, TakesLeast};
ghost use Rattle.closing.specs.inner.Lists.{Adds, AreApart, AreHeld, AreSmall, ComesTo, FindsOnly, FreesOnly, Handed, HasIds, IsUnnamed, KeepsLines, KeepsRecords, Owns, Puts, Stands, TakesFree, TakesNumbers, TakesOne, found_number, has_place, is_send_in, is_start_of_send, start_call};
ghost use Rattle.closing.specs.inner.Started.{active_at};
ghost use Rattle.closing.specs.Steps.{Does, Id, Own, Progress, Starts, WaitsForAll, WaitsForOne, after_step, has_number, least_free, number_in, numbers_of, wait_for, wait_for_one, waits_for, without, without_all};

use crate::freed::Freed;
use crate::places::index_of;
use crate::started::Started;
use crate::stop::Stop;
use crate::why::Why;
use mpicall::call::{Call, Kind, Mode, Peer};
use mpicall::limits::{GREATEST_REQUEST, MOST_REQUESTS};
use mpicall::record::Record;
use mpicall::records::Records;
use mpicall::reqs::Reqs;
use std::alloc::{AllocError, Global};
use std::cmp::Reverse;
use std::collections::BinaryHeap;

/// The most records of a list, its end counted.
pub const MOST_RECORDS: u32 = 1_000_000;

/// A request that was started in the trace and completed by no line so far.
#[derive(Clone, Copy)]
pub(crate) struct Active {
    pub number: u32,
    /// The place of the record that starts it.
    pub place: u32,
    pub is_send: bool,
}

/// What a line starts, without its request.
#[derive(Clone, Copy)]
pub(crate) enum Start {
    Send {
        mode: Mode,
        comm: u16,
        dest: Peer,
        tag: u32,
        bytes: Option<u32>,
    },
    Receive {
        comm: u16,
        source: Peer,
        tag: u32,
    },
    Collective {
        comm: u16,
        kind: Kind,
    },
}

impl Start {
    /// The call that starts it as a request with a number.
    #[inline(always)]
    fn call(self, req: u32) -> Call
        ensures { result ≡ start_call self req }
    {
        match self {
            Start::Send {
                mode,
                comm,
                dest,
                tag,
                bytes,
            } => Call::Isend {
                req,
                mode,
                comm,
                dest,
                tag,
                bytes,
            },
            Start::Receive { comm, source, tag } => Call::Irecv {
                req,
                comm,
                source,
                tag,
            },
            Start::Collective { comm, kind } => Call::Icoll { req, comm, kind },
        }
    }

    #[inline(always)]
    fn is_send(self) -> bool
        ensures { result ≡ is_start_of_send self }
    {
        matches!(self, Start::Send { .. })
    }
}

/// The list of a rank so far.
#[derive(Drop)]
pub(crate) struct List {
    /// The records that weren't handed on yet.
    records: Records,
    /// How many records there are in all.
    count: u32,
    /// The active requests, by the rank's own numbers of requests and messages.
    active: Started,
    /// Numbers of requests that are free again, and how many were given in all.
    free: BinaryHeap<Reverse<u32>>,
    given: u32,
    /// Numbers of the requests that one line names.
    numbers: Vec<u32>,
    /// The requests that the rank's program frees, and where they are started.
    freed: Freed,
}

/// So many of some numbers from a place on, or as many as there are.
#[tactic(auto, using(crate::proofs::WaitLemmas::group_rest, std::proofs::lemmas::List::drop_all))]
fn group_from(numbers: &[u32], start: usize, most: usize) -> &[u32]
    ensures { result.now ≡ take most (drop start numbers.now) }
{
    if start >= numbers.len() {
        return &[];
    }
    let rest = &numbers[start..];
    if most < rest.len() {
        &rest[..most]
    } else {
        rest
    }
}

fn number_at(numbers: &[u32], place: usize) -> u32
    requires { place < length numbers.now }
    ensures { result ≡ slice_index numbers.now place }
{
    numbers[place]
}

/// The wait for one of these, which completed it; a wait for it alone where it isn't among them.
fn wait_for_one(numbers: &[u32], number: u32) -> Call
    ensures { length numbers.now ≤ MOST_REQUESTS → result ≡ wait_for_one number numbers.now }
{
    let Some(index) = index_of(numbers, number) else {
        return Call::Wait { req: number };
    };
    match Reqs::new(numbers) {
        Some(reqs) => Call::Waitany {
            chosen: index as u8,
            reqs,
        },
        None => Call::Wait { req: number },
    }
}

impl List {
    #[tactic(auto, using(crate::proofs::ListLemmas::new_stands))]
    pub(crate) fn new(alloc: Global, freed: Freed) -> List
        ensures { (late : Items Id) (handed : Handed) → handed.calls ≡ [] → HasIds handed.frees freed → ((place : ℕ) → has_place freed place ≡ false) →
            Stands handed (record { records = []; active = []; late = late }) result }
    {
        List {
            records: Records::new(alloc),
            count: 0,
            active: Started::new(alloc),
            free: BinaryHeap::new(alloc),
            given: 0,
            numbers: Vec::new(alloc),
            freed,
        }
    }

    /// The records that weren't handed on yet.
    pub(crate) fn records(&self) -> &[Record]
        ensures { result.now ≡ self.now.records }
    {
        self.records.as_slice()
    }

    /// Those records were handed on.
    #[tactic(auto, using(crate::proofs::ListLemmas::handed_on))]
    pub(crate) fn forget_records(&mut self)
        ensures records { self.new.records ≡ [] }
        ensures freed { self.new.freed ≡ self.old.freed }
        ensures stands { (handed : Handed) (progress : Progress) → Stands handed progress self.old → Stands (record handed { calls = handed.calls ++ self.old.records }) progress self.new }
    {
        self.records.clear();
    }

    /// The request of the rank's own number that no line completed so far.
    pub(crate) fn active(&self, id: u32) -> Option<Active>
        ensures { result ≡ active_at self.now.active id }
    {
        self.active.get(id)
    }

    /// Whether the record at a place starts a request that the rank's program frees.
    pub(crate) fn starts_freed(&self, place: u32) -> bool
        ensures { result ≡ has_place self.now.freed place }
    {
        self.freed.is_started_at(place)
    }

    /// Whether it is that of a send.
    pub(crate) fn is_send(&self, id: u32) -> bool
        ensures { result ≡ is_send_in self.now id }
    {
        match self.active(id) {
            Some(active) => active.is_send,
            None => false,
        }
    }

    /// The place of the next record.
    pub(crate) fn place(&self) -> u32
        ensures { result ≡ self.now.count }
    {
        self.count
    }

    /// Adds a line that has room in every list: its end, or a line of the preface.
    #[inline(always)]
    pub(crate) fn put(&mut self, call: &Call) -> Result<(), AllocError>
        ensures records { OnOk result (IsTrue (in_ranges call.now) → self.new.records ≡ self.old.records ++ call.now ∷ []) }
        ensures freed { self.new.freed ≡ self.old.freed }
        ensures puts { OnOk result (IsTrue (in_ranges call.now) → self.old.count < MOST_RECORDS → Puts self.old self.new (call.now ∷ [])) }
        ensures stands { OnOk result ((handed : Handed) (progress : Progress) (line : ℕ) → Stands handed progress self.old → IsTrue (in_ranges call.now) → self.old.count + 1 < MOST_RECORDS → Stands handed (after_step progress line (Does call.now)) self.new) }
    {
        let is_put = self.records.put(call)?;
        if !is_put {
            return Ok(());
        }
        self.count = self.count.saturating_add(1);
        Ok(())
    }

    /// Adds a line, where the list isn't too long.
    #[tactic(auto, using(crate::proofs::ListLemmas::no_room, crate::proofs::ListLemmas::adds_put))]
    #[inline(always)]
    fn add(&mut self, call: &Call) -> Result<(), Stop>
        ensures { IsTrue (in_ranges call.now) → self.old.count < MOST_RECORDS → Adds result self.old self.new (call.now ∷ []) }
    {
        if self.count >= MOST_RECORDS - 1 {
            return Err(Stop::Left(Why::TooLong));
        }
        self.put(call)?;
        Ok(())
    }

    /// Puts a line that starts no request.
    #[inline(always)]
    pub(crate) fn does(&mut self, call: &Call) -> Result<(), Stop>
        ensures { (handed : Handed) (progress : Progress) (line : ℕ) → Stands handed progress self.old → IsTrue (in_ranges call.now) → ComesTo result handed (after_step progress line (Does call.now)) line self.new }
    {
        self.add(call)
    }

    // ---- Requests ----

    /// The least number that isn't in use, which is so from now on.
    #[tactic(auto, using(crate::proofs::FreeLemmas::popped, crate::proofs::FreeLemmas::given_next))]
    fn pick_number(&mut self) -> u32
        ensures takes { KeepsFree self.old → self.old.given < GREATEST_REQUEST → TakesLeast self.old self.new result }
        ensures same { KeepsRecords self.old self.new }
    {
        if let Some(Reverse(number)) = self.free.pop() {
            return number;
        }
        let number = self.given;
        if self.given < GREATEST_REQUEST {
            self.given += 1;
        }
        number
    }

    /// The least number that no active request has; it is so no longer.
    #[inline(never)]
    fn take_number(&mut self) -> u32
        ensures takes { (active : Requests) → AreNumbered active self.old → self.old.given < GREATEST_REQUEST → TakesFree active self.old self.new result }
        ensures same { KeepsRecords self.old self.new }
    {
        self.pick_number()
    }

    /// Puts a line that starts a request that no line names.
    pub(crate) fn starts_unnamed(&mut self, start: Start) -> Result<(), Stop>
        ensures { (handed : Handed) (progress : Progress) (line : ℕ) (id : Id) → Stands handed progress self.old → IsTrue (in_ranges (start_call start 0)) → IsUnnamed id → ComesTo result handed (after_step progress line (Starts id (start_call start))) line self.new }
    {
        let number = self.take_number();
        self.add(&start.call(number))
    }

    /// Puts a line that starts a request that no line names; answers the number of the request.
    pub(crate) fn starts_numbered(&mut self, start: Start) -> Result<u32, Stop>
        ensures comes { (handed : Handed) (progress : Progress) (line : ℕ) (id : Id) → Stands handed progress self.old → IsTrue (in_ranges (start_call start 0)) → IsUnnamed id → ComesTo result handed (after_step progress line (Starts id (start_call start))) line self.new }
        ensures number { IfOk result (λ number. (handed : Handed) (progress : Progress) → Stands handed progress self.old → number ≡ least_free progress.active) }
    {
        let number = self.take_number();
        self.add(&start.call(number))?;
        Ok(number)
    }

    /// Puts a line that starts a request, by the rank's own number of it.
    #[inline(always)]
    pub(crate) fn starts(&mut self, id: u32, start: Start) -> Result<(), Stop>
        ensures { (handed : Handed) (progress : Progress) (line : ℕ) → Stands handed progress self.old → IsTrue (in_ranges (start_call start 0)) → number_in progress.active (Own id) ≡ None → ComesTo result handed (after_step progress line (Starts (Own id) (start_call start))) line self.new }
    {
        let number = self.take_number();
        let active = Active {
            number,
            place: self.count,
            is_send: start.is_send(),
        };
        self.add(&start.call(number))?;
        self.active.insert(id, active)?;
        self.freed.take_start(id, active.place)?;
        Ok(())
    }

    /// Takes the number of a request, if that is active, which it is no longer.
    #[tactic(auto, using(crate::proofs::RequestLemmas::took_none, crate::proofs::RequestLemmas::took_line))]
    fn take_request(&mut self, id: u32) -> Result<(), AllocError>
        ensures takes { OnOk result ((left : Requests) → AreApart left → Owns left self.old → TakesOne left id self.old self.new) }
        ensures same { OnOk result (KeepsLines self.old self.new) }
    {
        let Some(active) = self.active.remove(id) else {
            return Ok(());
        };
        self.numbers.push(active.number)?;
        Ok(())
    }

    /// Takes the numbers of some requests, each once, which are active no longer.
    #[tactic(auto, using(crate::proofs::WaitLemmas::takes_first))]
    fn take_numbers(&mut self, ids: &[u32]) -> Result<(), AllocError>
        ensures takes { OnOk result ((active : Requests) → AreApart active → Owns active self.old → TakesNumbers active (map Own ids.now) self.new) }
        ensures same { OnOk result (KeepsLines self.old self.new) }
    {
        self.numbers.clear();
        for id in ids {
            self.take_request(*id)?;
        }
        Ok(())
    }

    /// The number of a request that was active is free again.
    #[tactic(auto, using(crate::proofs::FreedLemmas::freed))]
    fn free_number(&mut self, number: u32) -> Result<(), AllocError>
        ensures frees { OnOk result ((active : Requests) → AreNumbered active self.old → has_number active number ≡ true → AreNumbered (without number active) self.new) }
        ensures same { OnOk result (FreesOnly self.old self.new) }
    {
        self.free.push(Reverse(number))?;
        Ok(())
    }

    /// The numbers that were taken are free again.
    fn free_numbers(&mut self) -> Result<(), AllocError>
        ensures frees { OnOk result ((active : Requests) → AreNumbered active self.old → AreHeld active self.old.numbers.items → AreNumbered (without_all self.old.numbers.items active) self.new) }
        ensures same { OnOk result (FreesOnly self.old self.new) }
    {
        for place in 0..self.numbers.len() {
            let numbers = self.numbers.as_slice();
            let number = number_at(numbers, place);
            self.free_number(number)?;
        }
        Ok(())
    }

    /// Puts the wait for at most as many requests as a line may name, by the numbers that were taken from a
    /// place on.
    fn waits_from(&mut self, start: usize) -> Result<(), Stop>
        ensures { AreSmall self.old.numbers.items → self.old.count < MOST_RECORDS → Adds result self.old self.new (wait_for (take MOST_REQUESTS (drop start self.old.numbers.items))) }
    {
        let numbers = group_from(self.numbers.as_slice(), start, MOST_REQUESTS);
        if numbers.len() == 1 {
            let req = numbers[0];
            return self.add(&Call::Wait { req });
        }
        match Reqs::new(numbers) {
            Some(reqs) => self.add(&Call::Waitall { reqs }),
            None => Ok(()),
        }
    }

    /// Puts the waits for all requests whose numbers were taken, at most as many in each as a line may name.
    #[tactic(auto, using(crate::proofs::WaitLemmas::puts_none))]
    fn waits_for_taken(&mut self) -> Result<(), Stop>
        ensures { AreSmall self.old.numbers.items → self.old.count < MOST_RECORDS → Adds result self.old self.new (waits_for (length self.old.numbers.items) self.old.numbers.items) }
    {
        for turn in 0..self.numbers.len() / MOST_REQUESTS + 1 {
            self.waits_from(turn * MOST_REQUESTS)?;
        }
        Ok(())
    }

    /// Puts the waits for those of some requests that are active.
    #[inline(never)]
    pub(crate) fn waits_for(&mut self, ids: &[u32]) -> Result<(), Stop>
        ensures { (handed : Handed) (progress : Progress) (line : ℕ) → Stands handed progress self.old → ComesTo result handed (after_step progress line (WaitsForAll (map Own ids.now))) line self.new }
    {
        self.take_numbers(ids)?;
        self.waits_for_taken()?;
        self.free_numbers()?;
        Ok(())
    }

    /// Has the number of a request too, if that is active.
    #[tactic(auto, using(crate::proofs::ChoiceLemmas::finds_none))]
    fn find_request(&mut self, id: u32) -> Result<(), AllocError>
        ensures finds { OnOk result ((left : Requests) → AreApart left → Owns left self.old → self.new.numbers.items ≡ self.old.numbers.items ++ found_number (number_in (without_all self.old.numbers.items left) (Own id))) }
        ensures most { OnOk result (length self.new.numbers.items ≤ length self.old.numbers.items + 1) }
        ensures same { OnOk result (FindsOnly self.old self.new) }
    {
        let Some(active) = self.active(id) else {
            return Ok(());
        };
        if index_of(self.numbers.as_slice(), active.number).is_some() {
            return Ok(());
        }
        self.numbers.push(active.number)?;
        Ok(())
    }

    /// Has the numbers of those of some requests that are active, as many as a line may name.
    fn find_numbers(&mut self, ids: &[u32]) -> Result<(), AllocError>
        ensures finds { OnOk result ((left : Requests) → AreApart left → Owns left self.old → self.new.numbers.items ≡ take MOST_REQUESTS (numbers_of left (map Own ids.now))) }
        ensures same { OnOk result (FindsOnly self.old self.new) }
    {
        self.numbers.clear();
        for id in ids {
            if self.numbers.len() >= MOST_REQUESTS {
                return Ok(());
            }
            self.find_request(*id)?;
        }
        Ok(())
    }

    /// Puts the wait for one of the numbers that were found, which completed it; a wait for it alone where it
    /// isn't among them.
    fn waits_for_number(&mut self, number: u32) -> Result<(), Stop>
        ensures { AreSmall self.old.numbers.items → number ≤ GREATEST_REQUEST → length self.old.numbers.items ≤ MOST_REQUESTS → self.old.count < MOST_RECORDS → Adds result self.old self.new (wait_for_one number self.old.numbers.items ∷ []) }
    {
        let numbers = self.numbers.as_slice();
        let call = wait_for_one(numbers, number);
        self.add(&call)
    }

    /// Puts a wait for any of some requests, which completed this one that is active.
    fn waits_for_active(&mut self, wanted: u32, active: Active, ids: &[u32]) -> Result<(), Stop>
        ensures { (handed : Handed) (progress : Progress) (line : ℕ) → Stands handed progress self.old → active_at self.old.active wanted ≡ Some active → ComesTo result handed (after_step progress line (WaitsForOne (Own wanted) (map Own ids.now))) line self.new }
    {
        self.find_numbers(ids)?;
        self.waits_for_number(active.number)?;
        self.active.remove(wanted);
        self.free_number(active.number)?;
        Ok(())
    }

    /// Puts a wait for any of some requests, which completed one of them, if that is active.
    pub(crate) fn waits_for_one(&mut self, wanted: u32, ids: &[u32]) -> Result<(), Stop>
        ensures { (handed : Handed) (progress : Progress) (line : ℕ) → Stands handed progress self.old → ComesTo result handed (after_step progress line (WaitsForOne (Own wanted) (map Own ids.now))) line self.new }
    {
        match self.active(wanted) {
            Some(active) => self.waits_for_active(wanted, active, ids),
            None => Ok(()),
        }
    }
}
