//! Which requests of a journal stand in the trace, and as what.

ghost use Rattle.std.specs.Prelude.{◌≡◌, ◌==◌, ◌++◌, [], ◌∷◌, ℕ, List, map, OnOk, IfOk, None, Some, option_map, unwrap_or, if◌then◌else◌};
ghost use Rattle.mpicall.specs.Word.{or_else};
ghost use Rattle.journals.specs.Lines.{Line};
ghost use Rattle.closing.specs.Called.{naturals_in};
ghost use Rattle.closing.specs.Entry.{ids_of};
ghost use Rattle.closing.specs.Steps.{Own};
ghost use Rattle.closing.specs.inner.RequestReports.{AllStandFor, AreReadable, Tells};
ghost use Rattle.closing.specs.inner.Outcomes.{is_gone, is_left_out, is_settled, message_by, outcome_at};
ghost use Rattle.closing.specs.inner.Standings.{id_in, ids_in, message_for};
ghost use Rattle.closing.specs.Reported.{unless_moved};
ghost use Rattle.closing.specs.inner.Views.{awaited_view, message_view};

use crate::called::Awaited;
use crate::message::Message;
use crate::outcomes::Outcomes;
use journals::field::Field;
use journals::lines::Lines;
use std::alloc::{AllocError, Global};
use std::collections::HashMap;

/// What is reported of requests, and the messages that started matched receives take.
#[derive(Drop)]
pub(crate) struct Standing {
    outcomes: Outcomes,
    matched: HashMap<u32, u32>,
}

impl Standing {
    pub(crate) fn of(alloc: Global, lines: &Lines) -> Result<Standing, AllocError>
        ensures outcomes { IfOk result (λ standing. AreReadable lines.now → Tells lines.now standing.outcomes) }
        ensures matched { IfOk result (λ standing. (request : ℕ) → message_for standing request ≡ None) }
    {
        Ok(Standing {
            outcomes: Outcomes::of(alloc, lines)?,
            matched: HashMap::new(alloc),
        })
    }

    /// That of a rank without a journal.
    #[tactic(auto, using(crate::proofs::RequestReportLemmas::tells_none))]
    pub(crate) fn empty(alloc: Global) -> Standing
        ensures outcomes { Tells [] result.outcomes }
        ensures matched { (request : ℕ) → message_for result request ≡ None }
    {
        Standing {
            outcomes: Outcomes::empty(alloc),
            matched: HashMap::new(alloc),
        }
    }

    /// The message that a request takes, if it is that of a started matched receive.
    #[tactic(auto, using(crate::proofs::StandingLemmas::none_of_none))]
    #[inline(always)]
    fn message_for(&self, request: u32) -> Option<u32>
        ensures { result ≡ message_for self.now request }
    {
        if self.matched.is_empty() {
            return None;
        }
        self.matched.get(&request).copied()
    }

    /// The message that a request takes, if it is that of a started matched receive; else the other.
    #[inline(always)]
    fn message_or(&self, request: u32, message: u32) -> u32
        ensures { result ≡ unwrap_or (message_for self.now request) message }
    {
        match self.message_for(request) {
            Some(first) => first,
            None => message,
        }
    }

    /// A started matched receive takes a message; of several with one request the first stays.
    pub(crate) fn take_matched(&mut self, request: u32, message: u32) -> Result<(), AllocError>
        ensures outcomes { self.new.outcomes ≡ self.old.outcomes }
        ensures matched { OnOk result ((other : ℕ) → message_for self.new other ≡ or_else (message_for self.old other) (if request == other then Some message else None)) }
    {
        let first = self.message_or(request, message);
        self.matched.insert(request, first)?;
        Ok(())
    }

    /// The message with which a request completed, where that is reported.
    #[inline(always)]
    pub(crate) fn message(&self, lines: &Lines, request: u32) -> Option<Message>
        ensures { option_map message_view result ≡ message_by lines.now (outcome_at self.now.outcomes request) }
    {
        self.outcomes.message(lines, request)
    }

    #[inline(always)]
    pub(crate) fn is_gone(&self, request: u32) -> bool
        ensures { result ≡ is_gone (outcome_at self.now.outcomes request) }
    {
        self.outcomes.is_gone(request)
    }

    /// Whether waits leave the request out.
    #[inline(always)]
    pub(crate) fn is_left_out(&self, request: u32) -> bool
        ensures { result ≡ is_left_out (outcome_at self.now.outcomes request) }
    {
        self.outcomes.is_left_out(request)
    }

    /// What a started receive awaits; that of a moved request nobody.
    #[inline(always)]
    pub(crate) fn unless_moved(&self, request: u32, awaited: &Awaited) -> Awaited
        ensures { (lines : List Line) → Tells lines self.now.outcomes → awaited_view result ≡ unless_moved lines request (awaited_view awaited.now) }
    {
        if self.outcomes.is_moved(request) {
            return Awaited {
                comm: awaited.comm,
                source: Field::Null,
                tag: Field::signed(0),
            };
        }
        *awaited
    }

    pub(crate) fn is_settled(&self, request: u32) -> bool
        ensures { result ≡ is_settled (outcome_at self.now.outcomes request) }
    {
        self.outcomes.is_settled(request)
    }

    /// What a request is in the trace: itself, or the message that it receives.
    #[inline(always)]
    pub(crate) fn id_of(&self, request: u32) -> u32
        ensures { result ≡ id_in self.now request }
    {
        self.message_or(request, request)
    }

    /// Adds what a request is in the trace at the end of a list, unless waits leave it out.
    #[inline(always)]
    fn push_id(&self, field: Field, into: &mut Vec<u32>) -> Result<(), AllocError>
        ensures { OnOk result (into.new.items ≡ into.old.items ++ ids_in self.now (field ∷ [])) }
    {
        if let Field::Natural(request) = field {
            if !self.is_left_out(request.get()) {
                into.push(self.id_of(request.get()))?;
            }
        }
        Ok(())
    }

    /// Puts what some requests are in the trace into a list, but those that waits leave out.
    #[inline(never)]
    pub(crate) fn find(&self, requests: &[Field], into: &mut Vec<u32>) -> Result<(), AllocError>
        ensures ids { OnOk result (into.new.items ≡ ids_in self.now requests.now) }
        ensures told { OnOk result ((lines : List Line) → Tells lines self.now.outcomes → AllStandFor lines self.now (naturals_in requests.now) → map Own into.new.items ≡ ids_of lines (naturals_in requests.now)) }
    {
        into.clear();
        for field in requests {
            self.push_id(*field, into)?;
        }
        Ok(())
    }
}
