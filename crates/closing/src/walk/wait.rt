//! Entries that wait, test or cancel.

ghost use Rattle.std.specs.Prelude.{◌≡◌, ◌++◌, ◌==◌, ℕ, IfSome, None, OnOk, Some, true, not, [], ◌∷◌, length, slice_get, if◌then◌else◌};
ghost use Rattle.std.specs.List.{filter};
ghost use Rattle.mpicall.specs.Word.{or_else};
ghost use Rattle.closing.specs.Called.{naturals_in};
ghost use Rattle.closing.specs.Entry.{ids_of, passes_tests, unless_past, wait_for_one};
ghost use Rattle.closing.specs.Sinks.{GoesOn};
ghost use Rattle.closing.specs.inner.Lists.{is_send_in};
ghost use Rattle.closing.specs.inner.RequestReports.{AllStandFor, Tells};
ghost use Rattle.closing.specs.inner.Standings.{message_for};
ghost use Rattle.closing.specs.inner.Views.{called_view};
ghost use Rattle.closing.specs.inner.Walked.{AllTestsFit, IsAt, LateCall, LateWhere, Meets, Takes, TakesCall, TakesWhere, is_on_none, message_after};
ghost use Rattle.closing.specs.Recordings.{choice_in};
ghost use Rattle.closing.specs.inner.Walks.{Spot, cancels_on, tests_on, waits_any_on, waits_on, waits_some_on};

use super::{At, Walk};
use crate::called::Called;
use crate::choice::{Calls, Tests};
use crate::list::List;
use crate::stop::Stop;
use crate::why::Why;
use journals::field::Field;
use journals::lines::Lines;
use std::alloc::AllocError;

/// The first, if there is one.
fn first_of(ids: &[u32]) -> Option<u32>
    ensures { result ≡ slice_get ids.now 0 }
{
    ids.first().copied()
}

/// Adds a request to those of sends, or to the others.
fn part_one(
    is_send: bool,
    id: u32,
    sends: &mut Vec<u32>,
    others: &mut Vec<u32>,
) -> Result<(), AllocError>
    ensures sends { OnOk result (sends.new.items ≡ sends.old.items ++ (if is_send then id ∷ [] else [])) }
    ensures others { OnOk result (others.new.items ≡ others.old.items ++ (if not is_send then id ∷ [] else [])) }
{
    if is_send {
        sends.push(id)?;
    } else {
        others.push(id)?;
    }
    Ok(())
}

/// Adds the requests of sends to some, and lists the others.
fn part(
    list: &List,
    ids: &[u32],
    sends: &mut Vec<u32>,
    others: &mut Vec<u32>,
) -> Result<(), AllocError>
    ensures sends { OnOk result (sends.new.items ≡ sends.old.items ++ filter (is_send_in list.now) ids.now) }
    ensures others { OnOk result (others.new.items ≡ filter (λ id. not (is_send_in list.now id)) ids.now) }
{
    others.clear();
    for id in ids {
        part_one(list.is_send(*id), *id, sends, others)?;
    }
    Ok(())
}

impl Walk {
    /// Puts the lines of an entry that is on no communicator.
    #[inline(always)]
    pub(super) fn take_wait(
        &mut self,
        lines: &Lines,
        at: &At<'_>,
        it: &Called<'_>,
    ) -> Result<(), Stop>
        ensures same { self.new ≡ record self.old { list = self.new.list; requests = self.new.requests; ids = self.new.ids; wanted = self.new.wanted; late = self.new.late } }
        ensures outcomes { self.new.requests.outcomes ≡ self.old.requests.outcomes }
        ensures messages { OnOk result ((request : ℕ) → message_for self.new.requests request ≡ message_after (called_view it.now) (message_for self.old.requests) request) }
        ensures takes { (spot : Spot) → is_on_none (called_view it.now) ≡ true → Meets spot lines.now self.old.requests at.now it.now →
            TakesCall (choice_in self.old.choice) spot (called_view it.now) result self.old.list self.new.list }
        ensures late { OnOk result ((spot : Spot) → is_on_none (called_view it.now) ≡ true → Meets spot lines.now self.old.requests at.now it.now →
            LateCall (choice_in self.old.choice) spot (called_view it.now) self.old.list self.old.late.items self.new.late.items) }
    {
        match it {
            Called::ReceivesMatched(message) => self.waits(at, &[Field::natural(*message)]),
            Called::StartsMatched(request, message) => self.takes_matched(*request, *message),
            Called::Waits(requests) => self.waits(at, requests),
            Called::Tests(requests) => self.tests(at, requests),
            Called::WaitsAny(requests) => self.waits_any(at, requests),
            Called::WaitsSome(requests) => self.waits_some(at, requests),
            Called::Cancels(request) => self.cancels(*request),
            _ => Ok(()),
        }
    }

    /// A started matched receive stands for the message that it takes.
    #[inline(never)]
    fn takes_matched(&mut self, request: u32, message: u32) -> Result<(), Stop>
        ensures same { self.new ≡ record self.old { requests = self.new.requests } }
        ensures outcomes { self.new.requests.outcomes ≡ self.old.requests.outcomes }
        ensures messages { OnOk result ((other : ℕ) → message_for self.new.requests other ≡ or_else (message_for self.old.requests other) (if request == other then Some message else None)) }
        ensures takes { (spot : Spot) → Takes spot (GoesOn []) result self.old.list self.new.list }
    {
        self.requests.take_matched(request, message)?;
        Ok(())
    }

    #[inline(always)]
    fn waits(&mut self, at: &At<'_>, requests: &[Field]) -> Result<(), Stop>
        ensures same { self.new ≡ record self.old { list = self.new.list; ids = self.new.ids } }
        ensures takes { (spot : Spot) → IsAt spot at.now → Tells spot.lines self.old.requests.outcomes →
            AllStandFor spot.lines self.old.requests (naturals_in requests.now) →
            Takes spot (waits_on spot (naturals_in requests.now)) result self.old.list self.new.list }
    {
        if at.is_past {
            return Ok(());
        }
        self.requests.find(requests, &mut self.ids)?;
        self.list.waits_for(self.ids.as_slice())
    }

    /// Whether sends that tests completed are waited for at the end.
    fn passes_tests(&self) -> bool
        ensures { result ≡ passes_tests self.now.choice.tests self.now.choice.calls }
    {
        self.choice.tests == Tests::Pass && self.choice.calls == Calls::Strict
    }

    #[inline(never)]
    fn tests(&mut self, at: &At<'_>, requests: &[Field]) -> Result<(), Stop>
        ensures same { self.new ≡ record self.old { list = self.new.list; ids = self.new.ids; wanted = self.new.wanted; late = self.new.late } }
        ensures takes { (spot : Spot) → IsAt spot at.now → Tells spot.lines self.old.requests.outcomes →
            AllStandFor spot.lines self.old.requests (naturals_in requests.now) →
            TakesWhere (AllTestsFit (choice_in self.old.choice) spot (naturals_in requests.now)) spot
            (tests_on (choice_in self.old.choice) spot (naturals_in requests.now)) result self.old.list self.new.list }
        ensures late { OnOk result ((spot : Spot) → Tells spot.lines self.old.requests.outcomes →
            AllStandFor spot.lines self.old.requests (naturals_in requests.now) →
            LateWhere (AllTestsFit (choice_in self.old.choice) spot (naturals_in requests.now))
            (tests_on (choice_in self.old.choice) spot (naturals_in requests.now)) self.old.list self.old.late.items self.new.late.items) }
    {
        if self.passes_tests() {
            return self.passes(requests);
        }
        self.waits(at, requests)
    }

    /// Takes a test that is passed: the sends that it completed are waited for at the end.
    fn passes(&mut self, requests: &[Field]) -> Result<(), Stop>
        ensures same { self.new ≡ record self.old { list = self.new.list; ids = self.new.ids; wanted = self.new.wanted; late = self.new.late } }
        ensures takes { (spot : Spot) → passes_tests self.old.choice.tests self.old.choice.calls ≡ true → Tells spot.lines self.old.requests.outcomes →
            AllStandFor spot.lines self.old.requests (naturals_in requests.now) →
            TakesWhere (AllTestsFit (choice_in self.old.choice) spot (naturals_in requests.now)) spot
            (tests_on (choice_in self.old.choice) spot (naturals_in requests.now)) result self.old.list self.new.list }
        ensures late { OnOk result ((spot : Spot) → passes_tests self.old.choice.tests self.old.choice.calls ≡ true → Tells spot.lines self.old.requests.outcomes →
            AllStandFor spot.lines self.old.requests (naturals_in requests.now) →
            LateWhere (AllTestsFit (choice_in self.old.choice) spot (naturals_in requests.now))
            (tests_on (choice_in self.old.choice) spot (naturals_in requests.now)) self.old.list self.old.late.items self.new.late.items) }
    {
        self.requests.find(requests, &mut self.ids)?;
        part(
            &self.list,
            self.ids.as_slice(),
            &mut self.late,
            &mut self.wanted,
        )?;
        self.list.waits_for(self.wanted.as_slice())
    }

    /// Puts the wait for any of some requests, which completed those that were chosen.
    fn waits_for_chosen(
        &mut self,
        at: &At<'_>,
        chosen: &[Field],
        requests: &[Field],
    ) -> Result<(), Stop>
        ensures same { self.new ≡ record self.old { list = self.new.list; ids = self.new.ids; wanted = self.new.wanted } }
        ensures takes { (spot : Spot) → IsAt spot at.now → Tells spot.lines self.old.requests.outcomes →
            AllStandFor spot.lines self.old.requests (naturals_in requests.now) →
            AllStandFor spot.lines self.old.requests (naturals_in chosen.now) →
            Takes spot (GoesOn (unless_past spot.is_past (wait_for_one (ids_of spot.lines (naturals_in chosen.now)) (ids_of spot.lines (naturals_in requests.now)))))
            result self.old.list self.new.list }
    {
        if at.is_past {
            return Ok(());
        }
        self.requests.find(chosen, &mut self.wanted)?;
        self.requests.find(requests, &mut self.ids)?;
        match first_of(self.wanted.as_slice()) {
            Some(wanted) => self.list.waits_for_one(wanted, self.ids.as_slice()),
            None => Ok(()),
        }
    }

    #[inline(never)]
    fn waits_any(&mut self, at: &At<'_>, requests: &[Field]) -> Result<(), Stop>
        ensures same { self.new ≡ record self.old { list = self.new.list; ids = self.new.ids; wanted = self.new.wanted } }
        ensures takes { (spot : Spot) → IsAt spot at.now → Tells spot.lines self.old.requests.outcomes →
            AllStandFor spot.lines self.old.requests (naturals_in requests.now) →
            IfSome spot.chose (AllStandFor spot.lines self.old.requests) →
            length (naturals_in requests.now) ≡ length requests.now →
            Takes spot (waits_any_on spot (naturals_in requests.now)) result self.old.list self.new.list }
    {
        if requests.len() == 1 {
            return self.waits(at, requests);
        }
        match at.chose {
            Some(chosen) => self.waits_for_chosen(at, chosen, requests),
            None => Err(Stop::Left(Why::NeverCameBack)),
        }
    }

    #[inline(never)]
    fn waits_some(&mut self, at: &At<'_>, requests: &[Field]) -> Result<(), Stop>
        ensures same { self.new ≡ record self.old { list = self.new.list; ids = self.new.ids } }
        ensures takes { (spot : Spot) → IsAt spot at.now → Tells spot.lines self.old.requests.outcomes →
            AllStandFor spot.lines self.old.requests (naturals_in requests.now) →
            IfSome spot.chose (AllStandFor spot.lines self.old.requests) →
            length (naturals_in requests.now) ≡ length requests.now →
            Takes spot (waits_some_on spot (naturals_in requests.now)) result self.old.list self.new.list }
    {
        if requests.len() == 1 {
            return self.waits(at, requests);
        }
        match at.chose {
            Some(chosen) => self.waits(at, chosen),
            None => Err(Stop::Left(Why::NeverCameBack)),
        }
    }

    /// A cancel of which it isn't known what came.
    #[inline(never)]
    fn cancels(&mut self, request: u32) -> Result<(), Stop>
        ensures same { self.new ≡ self.old }
        ensures takes { (spot : Spot) → Tells spot.lines self.old.requests.outcomes → Takes spot (cancels_on spot request) result self.old.list self.new.list }
    {
        if self.requests.is_settled(request) {
            Ok(())
        } else {
            Err(Stop::Left(Why::NeverReported))
        }
    }
}
