//! Entries that may take what a receive took of which nobody knows the message, and calls in which ranks were.

ghost use Rattle.std.specs.Prelude.{◌≡◌, ◌≤◌, ◌++◌, ◌∷◌, [], ℕ, List as Items, Bool, true, false, not, ◌&&◌, IfSome, IsTrue, None, Some, Ok, OnOk, length, option_map, option_to_list, is_some, if◌then◌else◌};
ghost use Rattle.std.specs.List.{filter_map, list_all, list_any};
ghost use Rattle.mpicall.specs.Limits.{in_ranges};
ghost use Rattle.journals.specs.Lines.{Line};
ghost use Rattle.journals.specs.Known.{has_report};
ghost use Rattle.journals.specs.declared.word.ReportWord.TheVariants.{Failed};
ghost use Rattle.closing.specs.Called.{naturals_in};
ghost use Rattle.closing.specs.Endings.{breaks_off};
ghost use Rattle.closing.specs.Entries.{Placed, Run, is_window};
ghost use Rattle.closing.specs.Fit.{AllFit, steps_in};
ghost use Rattle.closing.specs.Pending.{PendingCall, unknown, pending_said};
ghost use Rattle.closing.specs.Recording.{outcome_in};
ghost use Rattle.closing.specs.Recordings.{choice_in};
ghost use Rattle.closing.specs.Reported.{done_of, message_of as message_said, peer_can_be, tag_can_be};
ghost use Rattle.closing.specs.Sinks.{is_nobody, number_of, overlap};
ghost use Rattle.closing.specs.Steps.{Progress, Starts, Whole, Written};
ghost use Rattle.closing.specs.inner.Lists.{Handed, Stands, start_call};
ghost use Rattle.closing.specs.inner.Outcomes.{is_gone as is_gone_of, outcome_at};
ghost use Rattle.closing.specs.inner.RequestReports.{AllStandFor, Tells};
ghost use Rattle.closing.specs.inner.Sinks.{HasSinks};
ghost use Rattle.closing.specs.inner.SoFar.{IsAtEntry};
ghost use Rattle.closing.specs.inner.Sunk.{ChoseBack, PendsFor, PutsSink, TakesPending, TakesSteps, TakesSunk, active_at, any_of, any_pending, blocks_sunk, chooses_idle, chooses_pending, chooses_sunk, exchange_pending, exchanges_sunk, fate_by, idle_on, is_sink_by, item_at, message_pending, names_sink, null_receive, pending_on, sink_at, sink_step, starts_exchange_sunk, starts_receive_sunk, steps_left, sunk_on, waits_pending, waits_sunk, wants_both, wants_in, why_of_sink, with_items, with_known};
ghost use Rattle.closing.specs.inner.Taken.{IsBack, IsKept, IsTakenBy};
ghost use Rattle.closing.specs.inner.Views.{awaited_view, called_view, message_view, sent_view};
ghost use Rattle.closing.specs.inner.Walked.{IsAt, Meets, number_at, size_at};
ghost use Rattle.closing.specs.inner.Walks.{Spot, spot_of};
ghost use Rattle.closing.specs.declared.numbers.Communicators.{Communicators};

use super::{At, Left, Walk};
use crate::called::{Awaited, Called, Sent};
use crate::choice::Unreported;
use crate::list::{List, Start};
use crate::message::{Message, awaited_can_be, message_of, sent_can_be};
use crate::pending::{Item, Sink, Sinks, Wanted};
use crate::standing::Standing;
use crate::stop::Stop;
use crate::walk::message::{Halves, start_of_send};
use crate::why::Why;
use journals::field::Field;
use journals::lines::Lines;
use mpicall::call::{Mode, Peer};
use mpicall::limits::GREATEST_RANK;
use std::alloc::AllocError;

/// What a receive or probe may take, and whether it is known what it took.
#[derive(Clone, Copy)]
struct Wants {
    wanted: Wanted,
    is_known: bool,
}

/// What a receive or probe that blocks leaves in the list, as it went, where it may have taken what a sink may.
#[derive(Clone, Copy)]
enum Leaves {
    Nothing,
    /// A sink, with its message of the journal, if it has one.
    Sink(Option<u32>),
}

/// What becomes of a receive or probe that blocks.
#[derive(Clone, Copy)]
enum Fate {
    /// What it is without sinks.
    Plain,
    /// As it went, it may have taken what a sink may.
    Sinks,
    /// It is the pending call.
    Pends,
    Ends(Why),
}

/// A rank of a group; None for a wildcard.
fn source_of(field: Field) -> Option<u16>
    ensures { IsTrue (peer_can_be 1024 field) → result ≡ number_of field }
{
    let Field::Signed(rank) = field else {
        return None;
    };
    let rank = rank.get();
    if 0 <= rank && rank <= i32::from(GREATEST_RANK) {
        Some(rank as u16)
    } else {
        None
    }
}

fn tag_of(field: Field) -> Option<u32>
    ensures { IsTrue (tag_can_be field) → result ≡ number_of field }
{
    let Field::Signed(tag) = field else {
        return None;
    };
    let tag = tag.get();
    if 0 <= tag { Some(tag as u32) } else { None }
}

/// What may be taken of such a source and tag; None from nobody.
fn wants_from(comm: u16, source: Field, tag: Field, is_known: bool) -> Option<Wants>
    ensures { IsTrue (peer_can_be 1024 source) → IsTrue (tag_can_be tag) → result ≡ (if is_nobody source then None
        else Some (with_known is_known (record { comm = comm; source = number_of source; tag = number_of tag }))) }
{
    if matches!(source, Field::Null) {
        return None;
    }
    let wanted = Wanted {
        comm,
        source: source_of(source),
        tag: tag_of(tag),
    };
    Some(Wants { wanted, is_known })
}

/// What a receive or probe may take, with what is reported of it; None of one that takes nothing, can't be, or is on a
/// communicator without a number.
fn wants_of(at: &At<'_>, awaited: &Awaited, found: Option<Message>) -> Option<Wants>
    ensures { size_at at.now ≤ 1024 → result ≡ option_map (with_known (is_some (option_map message_view found)))
        (wants_in (size_at at.now) (number_at at.now) (awaited_view awaited.now) (option_map message_view found)) }
{
    let comm = at.named?.number?;
    let kept = &found;
    if awaited.source == Field::Null || !awaited_can_be(at.size(), awaited, *kept) {
        return None;
    }
    match kept {
        Some(message) => wants_from(comm, message.source, message.tag, true),
        None => wants_from(comm, awaited.source, awaited.tag, false),
    }
}

/// What the receive of an exchange wants, where its send can be too.
fn wants_of_exchange(
    at: &At<'_>,
    sent: &Sent,
    awaited: &Awaited,
    found: Option<Message>,
) -> Option<Wants>
    ensures { size_at at.now ≤ 1024 → result ≡ option_map (with_known (is_some (option_map message_view found)))
        (wants_both (size_at at.now) (number_at at.now) (sent_view sent.now) (awaited_view awaited.now) (option_map message_view found)) }
{
    if sent_can_be(at.size(), sent) {
        wants_of(at, awaited, found)
    } else {
        None
    }
}

// ---- Requests ----

/// The messages of the sink that a request names.
fn sink_of(standing: &Standing, sinks: &Sinks, field: Field) -> Option<Wanted>
    ensures { result ≡ sink_at standing.now sinks.now field }
{
    match field {
        Field::Natural(request) if !standing.is_left_out(request.get()) => {
            sinks.named(standing.id_of(request.get()))
        }
        _ => None,
    }
}

#[inline(never)]
fn name_some_sink(standing: &Standing, sinks: &Sinks, requests: &[Field]) -> bool
    ensures { result ≡ list_any (λ field. is_some (sink_at standing.now sinks.now field)) requests.now }
{
    requests
        .iter()
        .any(|field| sink_of(standing, sinks, *field).is_some())
}

/// The number of an active request.
fn active_of(standing: &Standing, list: &List, field: Field) -> Option<Item>
    ensures { result ≡ active_at standing.now list.now field }
{
    match field {
        Field::Natural(request) if !standing.is_left_out(request.get()) => {
            let active = list.active(standing.id_of(request.get()))?;
            Some(Item::Request(active.number))
        }
        _ => None,
    }
}

/// What a pending wait waits for by a request; None by one of which nothing stands.
fn item_of(standing: &Standing, sinks: &Sinks, list: &List, field: Field) -> Option<Item>
    ensures { result ≡ item_at standing.now sinks.now list.now field }
{
    let named = &field;
    match sink_of(standing, sinks, *named) {
        Some(wanted) => Some(Item::Message(wanted)),
        None => active_of(standing, list, *named),
    }
}

fn are_items(standing: &Standing, sinks: &Sinks, list: &List, requests: &[Field]) -> bool
    ensures { result ≡ list_all (λ field. is_some (item_at standing.now sinks.now list.now field)) requests.now }
{
    requests
        .iter()
        .all(|field| item_of(standing, sinks, list, *field).is_some())
}

/// Adds what a pending wait waits for by a request.
fn push_item(
    standing: &Standing,
    sinks: &Sinks,
    list: &List,
    field: Field,
    into: &mut Vec<Item>,
) -> Result<(), AllocError>
    ensures { OnOk result (into.new.items ≡ into.old.items ++ filter_map (item_at standing.now sinks.now list.now) (field ∷ [])) }
{
    if let Some(item) = item_of(standing, sinks, list, field) {
        into.push(item)?;
    }
    Ok(())
}

fn push_items(
    standing: &Standing,
    sinks: &Sinks,
    list: &List,
    requests: &[Field],
    into: &mut Vec<Item>,
) -> Result<(), AllocError>
    ensures { OnOk result (into.new.items ≡ into.old.items ++ filter_map (item_at standing.now sinks.now list.now) requests.now) }
{
    for field in requests {
        push_item(standing, sinks, list, *field, into)?;
    }
    Ok(())
}

impl Walk {
    /// Whether an entry stands for something else since a receive may have taken what it would take; puts that. Ends
    /// the list where it isn't known what it stands for, with the pending call if it never came back.
    #[inline(always)]
    pub(super) fn takes_sink(
        &mut self,
        lines: &Lines,
        at: &At<'_>,
        it: &Called<'_>,
    ) -> Result<bool, Stop>
        ensures same { self.new ≡ record self.old { list = self.new.list; sinks = self.new.sinks; pending = self.new.pending; left_out = self.new.left_out } }
        ensures taken { (said : Run) (placed : Placed) (kept : Communicators) (handed : Handed) (progress : Progress) →
            IsAtEntry said (choice_in self.old.choice) placed kept at.now → placed.journal.lines ≡ lines.now → placed.line ≡ self.old.line → placed.called ≡ called_view it.now →
            breaks_off (is_window said) placed.called ≡ None → has_report Failed placed.entry ≡ false → IsBack placed → Meets (spot_of said (choice_in self.old.choice) placed) lines.now self.old.requests at.now it.now →
            AllFit progress placed.line (steps_in (outcome_in said (choice_in self.old.choice) progress.records placed)) →
            Stands handed progress self.old.list → IsKept progress.records self.old →
            IsTakenBy said (choice_in self.old.choice) placed result handed progress self.new }
    {
        match self.choice.unreported {
            Unreported::Ends => Ok(false),
            Unreported::Sinks => self.takes_sink_by(lines, at, it),
        }
    }

    /// Does what `takes_sink` does, where receives may be sinks. Most calls are plain.
    #[inline(always)]
    fn takes_sink_by(&mut self, lines: &Lines, at: &At<'_>, it: &Called<'_>) -> Result<bool, Stop>
        ensures same { self.new ≡ record self.old { list = self.new.list; sinks = self.new.sinks; pending = self.new.pending; left_out = self.new.left_out } }
        ensures takes { (spot : Spot) → Meets spot lines.now self.old.requests at.now it.now → spot.line ≡ self.old.line → ChoseBack spot at.now.came_back →
            TakesSunk spot.line at.now.came_back (λ records. sunk_on spot at.now.came_back records (called_view it.now))
            (pending_on spot (called_view it.now)) (idle_on spot at.now.came_back (called_view it.now)) result self.old self.new }
    {
        if self.is_plain(lines, at, it) {
            return Ok(false);
        }
        self.meets_sinks(lines, at, it)
    }

    /// Whether it is seen at once that a call is what it is without sinks: there are none, and its message is known.
    #[inline(always)]
    fn is_plain(&self, lines: &Lines, at: &At<'_>, it: &Called<'_>) -> bool
        ensures { result ≡ true → (spot : Spot) → Meets spot lines.now self.now.requests at.now it.now →
            TakesSunk spot.line at.now.came_back (λ records. sunk_on spot at.now.came_back records (called_view it.now))
            (pending_on spot (called_view it.now)) (idle_on spot at.now.came_back (called_view it.now)) (Ok false) self.now self.now }
    {
        if !self.sinks.are_none() {
            return false;
        }
        match it {
            Called::Sends(..) => true,
            Called::StartsSend(..) => true,
            Called::Receives(awaited) => message_of(awaited, at.got).is_some(),
            Called::StartsReceive(own, awaited) => {
                let awaited = self.requests.unless_moved(*own, awaited);
                message_of(&awaited, self.requests.message(lines, *own)).is_some()
            }
            Called::Waits(_) => true,
            Called::Collects(..) => true,
            _ => false,
        }
    }

    /// Takes an entry by the sinks before it.
    #[inline(never)]
    fn meets_sinks(&mut self, lines: &Lines, at: &At<'_>, it: &Called<'_>) -> Result<bool, Stop>
        ensures same { self.new ≡ record self.old { list = self.new.list; sinks = self.new.sinks; pending = self.new.pending; left_out = self.new.left_out } }
        ensures takes { (spot : Spot) → Meets spot lines.now self.old.requests at.now it.now → spot.line ≡ self.old.line → ChoseBack spot at.now.came_back →
            TakesSunk spot.line at.now.came_back (λ records. sunk_on spot at.now.came_back records (called_view it.now))
            (pending_on spot (called_view it.now)) (idle_on spot at.now.came_back (called_view it.now)) result self.old self.new }
    {
        match it {
            Called::Receives(awaited) => self.blocks_sink(at, awaited, Leaves::Sink(None)),
            Called::StartsReceive(own, awaited) => {
                let awaited = self.requests.unless_moved(*own, awaited);
                self.starts_receive_sink(lines, at, *own, &awaited)
            }
            Called::Exchanges(sent, awaited) => {
                let (sent, awaited) = (*sent, *awaited);
                self.exchanges_sink(at, &sent, &awaited)
            }
            Called::StartsExchange(own, other, sent, awaited) => {
                let awaited = self.requests.unless_moved(*other, awaited);
                let halves = Halves {
                    own: *own,
                    other: *other,
                    sent: *sent,
                    awaited,
                };
                self.starts_exchange_sink(lines, at, &halves)
            }
            Called::Probes(awaited) => self.blocks_sink(at, awaited, Leaves::Nothing),
            Called::ProbesMatching(own, awaited) => {
                self.blocks_sink(at, awaited, Leaves::Sink(Some(*own)))
            }
            Called::ReceivesMatched(message) => self.waits_for_sink(
                at,
                &[Field::natural(*message)],
            ),
            Called::Waits(requests) => self.waits_for_sink(at, requests),
            Called::Tests(requests) => self.tests_sink(at, requests),
            Called::WaitsAny(requests) => self.chooses_sink(at, requests),
            Called::WaitsSome(requests) => self.chooses_sink(at, requests),
            _ => Ok(false),
        }
    }

    // ---- Receives and probes ----

    /// Puts a sink; its request or message of the journal is `own'.
    fn puts_sink(&mut self, wanted: Wanted, own: Option<u32>) -> Result<(), Stop>
        ensures same { self.new ≡ record self.old { list = self.new.list; sinks = self.new.sinks } }
        ensures puts { (handed : Handed) (progress : Progress) (line : ℕ) (is_known : Bool) → Stands handed progress self.old.list → HasSinks progress.records self.old.sinks →
            IsTrue (in_ranges (null_receive wanted 0)) → PutsSink result handed progress line own wanted is_known self.old.sinks self.new }
    {
        let place = self.list.place();
        let start = Start::Receive {
            comm: wanted.comm,
            source: Peer::Null,
            tag: 0,
        };
        self.list.starts_unnamed(start)?;
        self.sinks.put(Sink { place, wanted }, own)?;
        Ok(())
    }

    /// The entry of a sink stands in no line of its own: nobody knows what it took, or a sink may take that.
    fn leaves_out(&mut self, is_known: bool) -> Result<(), AllocError>
        ensures same { self.new ≡ record self.old { left_out = self.new.left_out } }
        ensures left_out { OnOk result (self.new.left_out.items ≡ self.old.left_out.items ++ record { line = self.old.line; why = why_of_sink is_known } ∷ []) }
    {
        let why = if is_known {
            Why::NotJudged
        } else {
            Why::NeverReported
        };
        let line = self.line;
        self.left_out.push(Left { line, why })?;
        Ok(())
    }

    /// Puts the sink of an entry.
    fn starts_sink(&mut self, own: Option<u32>, wants: &Wants) -> Result<bool, Stop>
        ensures same { self.new ≡ record self.old { list = self.new.list; sinks = self.new.sinks; left_out = self.new.left_out } }
        ensures takes { TakesSteps self.old.line (sink_step own wants.now.wanted wants.now.is_known ∷ []) result self.old self.new }
    {
        self.puts_sink(wants.wanted, own)?;
        self.leaves_out(wants.is_known)?;
        Ok(true)
    }

    /// What becomes of a receive or probe that blocks and may take these messages.
    fn fate(&self, at: &At<'_>, wants: &Wants) -> Fate
        ensures { result ≡ fate_by wants.now.is_known (list_any (λ sink. overlap wants.now.wanted sink.wanted) self.now.sinks.all.items) at.now.came_back at.now.is_past }
    {
        if wants.is_known && !self.sinks.overlap(&wants.wanted) {
            return Fate::Plain;
        }
        if !at.came_back {
            return Fate::Pends;
        }
        if !wants.is_known {
            return Fate::Ends(Why::NeverCameBack);
        }
        if at.is_past {
            Fate::Sinks
        } else {
            Fate::Ends(Why::NotJudged)
        }
    }

    /// Ends the list with a call that waits for a message.
    fn pends_for(&mut self, wanted: Wanted) -> Result<bool, Stop>
        ensures same { self.new ≡ record self.old { pending = self.new.pending } }
        ensures pends { PendsFor result self.old.pending self.new.pending wanted }
    {
        self.pending.items.push(Item::Message(wanted))?;
        Err(Stop::Left(Why::NeverCameBack))
    }

    /// Leaves what a call left that went.
    fn leaves(&mut self, leaves: Leaves, wants: &Wants) -> Result<bool, Stop>
        ensures same { self.new ≡ record self.old { list = self.new.list; sinks = self.new.sinks; left_out = self.new.left_out } }
        ensures takes { TakesSteps self.old.line (steps_left leaves wants.now.wanted wants.now.is_known) result self.old self.new }
    {
        match leaves {
            Leaves::Nothing => Ok(true),
            Leaves::Sink(own) => self.starts_sink(own, wants),
        }
    }

    /// A receive or probe that blocks.
    #[inline(never)]
    fn blocks_sink(&mut self, at: &At<'_>, awaited: &Awaited, leaves: Leaves) -> Result<bool, Stop>
        ensures same { self.new ≡ record self.old { list = self.new.list; sinks = self.new.sinks; pending = self.new.pending; left_out = self.new.left_out } }
        ensures takes { (spot : Spot) → IsAt spot at.now → spot.line ≡ self.old.line →
            TakesSunk spot.line at.now.came_back (blocks_sunk spot at.now.came_back leaves (awaited_view awaited.now) (message_said (awaited_view awaited.now) spot.got))
            (λ progress. message_pending (wants_in spot.size spot.number (awaited_view awaited.now) (message_said (awaited_view awaited.now) spot.got))) (λ progress. unknown) result self.old self.new }
    {
        let found = message_of(awaited, at.got);
        let Some(wants) = wants_of(at, awaited, found) else {
            return Ok(false);
        };
        match self.fate(at, &wants) {
            Fate::Plain => Ok(false),
            Fate::Sinks => self.leaves(leaves, &wants),
            Fate::Pends => self.pends_for(wants.wanted),
            Fate::Ends(why) => Err(Stop::Left(why)),
        }
    }

    /// Puts the send of an exchange and its sink.
    fn puts_halves(&mut self, start: Start, wants: &Wants) -> Result<bool, Stop>
        ensures same { self.new ≡ record self.old { list = self.new.list; sinks = self.new.sinks; left_out = self.new.left_out } }
        ensures takes { TakesSteps self.old.line (Starts (Whole self.old.line) (start_call start) ∷ sink_step None wants.now.wanted wants.now.is_known ∷ []) result self.old self.new }
    {
        self.list.starts_unnamed(start)?;
        self.starts_sink(None, wants)
    }

    /// Ends the list with an exchange that waits for its send and for a message.
    fn pends_for_halves(&mut self, start: Start, wants: &Wants) -> Result<bool, Stop>
        ensures same { self.new ≡ record self.old { list = self.new.list; sinks = self.new.sinks; pending = self.new.pending } }
        ensures takes { TakesPending self.old.line (Starts (Whole self.old.line) (start_call start) ∷ sink_step None wants.now.wanted wants.now.is_known ∷ [])
            (exchange_pending (Some wants.now.wanted)) result self.old self.new }
    {
        let number = self.list.starts_numbered(start)?;
        self.puts_sink(wants.wanted, None)?;
        self.pending.items.push(Item::Request(number))?;
        self.pends_for(wants.wanted)
    }

    #[inline(never)]
    fn exchanges_sink(&mut self, at: &At<'_>, sent: &Sent, awaited: &Awaited) -> Result<bool, Stop>
        ensures same { self.new ≡ record self.old { list = self.new.list; sinks = self.new.sinks; pending = self.new.pending; left_out = self.new.left_out } }
        ensures takes { (spot : Spot) → IsAt spot at.now → spot.line ≡ self.old.line →
            TakesSunk spot.line at.now.came_back (exchanges_sunk spot at.now.came_back (sent_view sent.now) (awaited_view awaited.now) (message_said (awaited_view awaited.now) spot.got))
            (exchange_pending (wants_both spot.size spot.number (sent_view sent.now) (awaited_view awaited.now) (message_said (awaited_view awaited.now) spot.got))) (λ progress. unknown) result self.old self.new }
    {
        let found = message_of(awaited, at.got);
        let Some(wants) = wants_of_exchange(at, sent, awaited, found) else {
            return Ok(false);
        };
        let start = start_of_send(Mode::Standard, wants.wanted.comm, sent);
        match self.fate(at, &wants) {
            Fate::Plain => Ok(false),
            Fate::Sinks => self.puts_halves(start, &wants),
            Fate::Pends => self.pends_for_halves(start, &wants),
            Fate::Ends(why) => Err(Stop::Left(why)),
        }
    }

    #[inline(never)]
    fn starts_receive_sink(
        &mut self,
        lines: &Lines,
        at: &At<'_>,
        own: u32,
        awaited: &Awaited,
    ) -> Result<bool, Stop>
        ensures same { self.new ≡ record self.old { list = self.new.list; sinks = self.new.sinks; left_out = self.new.left_out } }
        ensures takes { (spot : Spot) → IsAt spot at.now → spot.line ≡ self.old.line → spot.lines ≡ lines.now → Tells spot.lines self.old.requests.outcomes →
            TakesSunk spot.line at.now.came_back (starts_receive_sunk spot own (awaited_view awaited.now) (message_said (awaited_view awaited.now) (done_of spot.lines own)))
            (λ progress. unknown) (λ progress. unknown) result self.old self.new }
    {
        let found = message_of(awaited, self.requests.message(lines, own));
        let Some(wants) = wants_of(at, awaited, found) else {
            return Ok(false);
        };
        if !self.is_sink(own, &wants) {
            return Ok(false);
        }
        self.starts_sink(Some(own), &wants)
    }

    #[inline(never)]
    fn starts_exchange_sink(
        &mut self,
        lines: &Lines,
        at: &At<'_>,
        it: &Halves,
    ) -> Result<bool, Stop>
        ensures same { self.new ≡ record self.old { list = self.new.list; sinks = self.new.sinks; left_out = self.new.left_out } }
        ensures takes { (spot : Spot) → IsAt spot at.now → spot.line ≡ self.old.line → spot.lines ≡ lines.now → Tells spot.lines self.old.requests.outcomes →
            TakesSunk spot.line at.now.came_back (starts_exchange_sunk spot it.now.own it.now.other (sent_view it.now.sent) (awaited_view it.now.awaited) (message_said (awaited_view it.now.awaited) (done_of spot.lines it.now.other)))
            (λ progress. unknown) (λ progress. unknown) result self.old self.new }
    {
        let found = message_of(&it.awaited, self.requests.message(lines, it.other));
        let Some(wants) = wants_of_exchange(at, &it.sent, &it.awaited, found) else {
            return Ok(false);
        };
        if !self.is_sink(it.other, &wants) {
            return Ok(false);
        }
        let start = start_of_send(Mode::Standard, wants.wanted.comm, &it.sent);
        self.starts_unless_gone(it.own, start)?;
        self.starts_sink(Some(it.other), &wants)
    }

    /// Whether a started receive is a sink; one that was cancelled isn't.
    fn is_sink(&self, own: u32, wants: &Wants) -> bool
        ensures { result ≡ is_sink_by (is_gone_of (outcome_at self.now.requests.outcomes own)) wants.now.is_known (list_any (λ sink. overlap wants.now.wanted sink.wanted) self.now.sinks.all.items) }
    {
        !self.requests.is_gone(own) && (!wants.is_known || self.sinks.overlap(&wants.wanted))
    }

    // ---- Waits ----

    /// Whether one of some requests is a sink's.
    fn name_sink(&self, requests: &[Field]) -> bool
        ensures { (lines : Items Line) (records : Items Written) → HasSinks records self.now.sinks → Tells lines self.now.requests.outcomes →
            AllStandFor lines self.now.requests (naturals_in requests.now) → result ≡ names_sink lines (naturals_in requests.now) records }
    {
        if self.sinks.are_none() {
            return false;
        }
        name_some_sink(&self.requests, &self.sinks, requests)
    }

    /// Whether a wait or test ends the list, since it names a sink. As it went, one that came back stands for nothing.
    fn ends_at_sink(&self, at: &At<'_>, requests: &[Field]) -> bool
        ensures { (lines : Items Line) (records : Items Written) → HasSinks records self.now.sinks → Tells lines self.now.requests.outcomes →
            AllStandFor lines self.now.requests (naturals_in requests.now) → result ≡ (not at.now.is_past && names_sink lines (naturals_in requests.now) records) }
    {
        if at.is_past {
            return false;
        }
        self.name_sink(requests)
    }

    /// A wait for some requests is pending.
    #[inline(never)]
    fn pends_for_requests(&mut self, requests: &[Field]) -> Result<(), AllocError>
        ensures same { self.new ≡ record self.old { pending = self.new.pending } }
        ensures pending { OnOk result (pending_said self.new.pending ≡ with_items self.old.pending (filter_map (item_at self.old.requests self.old.sinks self.old.list) requests.now)) }
    {
        let into = &mut self.pending.items;
        push_items(&self.requests, &self.sinks, &self.list, requests, into)?;
        Ok(())
    }

    /// A wait for any of some requests is pending; nothing is known of it, where it isn't known of one of them.
    fn pends_for_any(&mut self, requests: &[Field]) -> Result<(), AllocError>
        ensures same { self.new ≡ record self.old { pending = self.new.pending } }
        ensures pending { OnOk result (self.old.pending.items.items ≡ [] → pending_said self.new.pending
            ≡ any_of (list_all (λ field. is_some (item_at self.old.requests self.old.sinks self.old.list field)) requests.now) (filter_map (item_at self.old.requests self.old.sinks self.old.list) requests.now)) }
    {
        self.pending.is_for_all = false;
        if are_items(&self.requests, &self.sinks, &self.list, requests) {
            return self.pends_for_requests(requests);
        }
        Ok(())
    }

    /// A test that completed a sink's request ends the list.
    #[inline(never)]
    fn tests_sink(&mut self, at: &At<'_>, requests: &[Field]) -> Result<bool, Stop>
        ensures same { self.new ≡ self.old }
        ensures takes { (spot : Spot) → IsAt spot at.now → Tells spot.lines self.old.requests.outcomes → AllStandFor spot.lines self.old.requests (naturals_in requests.now) →
            TakesSunk spot.line at.now.came_back (waits_sunk spot at.now.came_back (naturals_in requests.now)) (λ progress. unknown) (λ progress. unknown) result self.old self.new }
    {
        if !self.ends_at_sink(at, requests) {
            return Ok(false);
        }
        if at.came_back {
            return Err(Stop::Left(Why::NotJudged));
        }
        Err(Stop::Left(Why::NeverCameBack))
    }

    /// A wait that names a sink ends the list.
    fn waits_for_sink(&mut self, at: &At<'_>, requests: &[Field]) -> Result<bool, Stop>
        ensures same { self.new ≡ record self.old { pending = self.new.pending } }
        ensures takes { (spot : Spot) → IsAt spot at.now → Tells spot.lines self.old.requests.outcomes → AllStandFor spot.lines self.old.requests (naturals_in requests.now) →
            TakesSunk spot.line at.now.came_back (waits_sunk spot at.now.came_back (naturals_in requests.now)) (waits_pending spot.lines (naturals_in requests.now)) (λ progress. unknown) result self.old self.new }
    {
        if !self.ends_at_sink(at, requests) {
            return Ok(false);
        }
        if at.came_back {
            return Err(Stop::Left(Why::NotJudged));
        }
        self.pends_for_requests(requests)?;
        Err(Stop::Left(Why::NeverCameBack))
    }

    /// Nothing is put for a wait for any of several that chose none; it is the pending call if it never came back.
    fn chooses_none(&mut self, at: &At<'_>, requests: &[Field]) -> Result<bool, Stop>
        ensures same { self.new ≡ record self.old { pending = self.new.pending } }
        ensures takes { (lines : Items Line) (line : ℕ) (pending : Progress → PendingCall) → Tells lines self.old.requests.outcomes → AllStandFor lines self.old.requests (naturals_in requests.now) →
            length (naturals_in requests.now) ≡ length requests.now →
            TakesSunk line at.now.came_back (λ records. None) pending (λ progress. if not at.now.came_back then any_pending lines (naturals_in requests.now) progress else unknown) result self.old self.new }
    {
        if at.came_back {
            return Ok(false);
        }
        self.pends_for_any(requests)?;
        Ok(false)
    }

    #[inline(never)]
    fn chooses_sink(&mut self, at: &At<'_>, requests: &[Field]) -> Result<bool, Stop>
        ensures same { self.new ≡ record self.old { pending = self.new.pending } }
        ensures takes { (spot : Spot) → IsAt spot at.now → Tells spot.lines self.old.requests.outcomes → AllStandFor spot.lines self.old.requests (naturals_in requests.now) →
            IfSome spot.chose (AllStandFor spot.lines self.old.requests) → length (naturals_in requests.now) ≡ length requests.now → ChoseBack spot at.now.came_back →
            TakesSunk spot.line at.now.came_back (chooses_sunk spot at.now.came_back (naturals_in requests.now)) (chooses_pending spot.lines (naturals_in requests.now)) (chooses_idle spot at.now.came_back (naturals_in requests.now)) result self.old self.new }
    {
        if requests.len() == 1 {
            return self.waits_for_sink(at, requests);
        }
        match at.chose {
            Some(chosen) => self.waits_for_sink(at, chosen),
            None => self.chooses_none(at, requests),
        }
    }
}
