//! What is kept of the ranks' records as they come, in any order.

ghost use Rattle.std.specs.Prelude.{◌≡◌, ◌<◌, false, None, Err, length, IfOk, IfSome};
ghost use Rattle.gather.specs.declared.fault.RankFault.TheVariants.{OfSource};
ghost use Rattle.pairing.specs.Faults.{IsLawful};
ghost use Rattle.callstore.specs.Recordings.{IsClosed};
ghost use Rattle.gather.specs.Collected.{nothing_kept, refusal_kept, EntersRecord, torn, is_accepting, with_fault};
ghost use Rattle.gather.specs.Closes.{Concludes};

use crate::fault::{RankFault, Refusal};
use crate::outcome::{CloseFault, Outcome};
use moves::analyser::{Analyser, OfferFault};
use moves::reading::Reading;
use mpicall::fault::SourceFault;
use mpicall::record::Record;
use mpigroup::head::Head;
use std::alloc::{AllocError, Global};
use std::marker::Model;

/// What a step with a rank's feed found.
#[derive(Clone, Copy, Debug, PartialEq, Eq)]
pub enum Stepped {
    /// A record, which was accepted.
    Took,
    /// A record with a fault, the first of its rank.
    Refused,
    /// A record, which was thrown away: its rank has a fault, or memory ran out.
    Discarded,
    /// Nothing is there now.
    Empty,
    /// All was taken, the end mark last.
    Ended,
}

/// The records of all ranks that were accepted, and each rank's first fault. Contracts see these, and whether
/// memory ran out.
pub struct Ledger {
    analyser: Analyser,
    faults: Vec<Option<(u32, RankFault)>>,
    wanted: bool,
}

// By hand: a derived drop is proved again at each exit of a function that owns one.
impl Drop for Ledger {
    fn drop(self) {
        let Ledger {
            analyser: _,
            faults: _,
            wanted: _,
        } = self;
    }
}

impl Model for Ledger {
    ghost use Rattle.std.specs.Prelude.{◌≡◌, length};
    ghost use Rattle.gather.specs.Collected.{Kept};

    ghost Value = { Kept };

    ghost view = { λ l. record { reading = l.analyser.reading; groups = l.analyser.groups; recording = l.analyser.recording; faults = l.faults.items; wanted = l.wanted } };

    ghost invariant = { λ l. length l.faults.items ≡ length l.analyser.recording };
}

impl Ledger {
    /// Nothing is kept so far.
    pub fn new(alloc: Global, head: Head, reading: Reading) -> Result<Ledger, AllocError>
        ensures { IfOk result (λ ledger. ledger ≡ nothing_kept reading head) }
    {
        let faults = vec![in alloc; None; usize::from(head.ranks())]?;
        let analyser = Analyser::new(alloc, head, reading)?;
        Ok(Ledger {
            analyser,
            faults,
            wanted: false,
        })
    }

    /// The number of ranks.
    #[inline(always)]
    pub fn ranks(&self) -> u16
        ensures ranks { result ≡ length self.now.recording }
        ensures faults { length self.now.faults ≡ length self.now.recording }
    {
        self.analyser.head().ranks()
    }

    /// No call that was accepted has a fault after those of its rank before it. A law: it does nothing.
    pub fn calls_are_lawful(&self)
        ensures { IsLawful self.now.groups self.now.recording }
    {
        self.analyser.calls_are_lawful();
    }

    /// Whether a rank's records are still accepted.
    #[inline(always)]
    fn is_open(&self, rank: u16) -> bool
        requires { rank < length self.now.recording }
        ensures { result ≡ is_accepting self.now rank }
    {
        self.faults[usize::from(rank)].is_none() && !self.wanted
    }

    /// Keeps a fault of a rank after its records.
    fn keep(&mut self, rank: u16, fault: RankFault)
        requires { rank < length self.old.recording }
        ensures { self.new ≡ with_fault self.old rank fault }
    {
        let place = self.analyser.accepted(rank).unwrap_or(0);
        self.faults[usize::from(rank)] = Some((place, fault));
    }

    /// Takes the next record of a rank.
    #[inline(always)]
    pub fn enter(&mut self, rank: u16, call: &Record) -> Stepped
        requires { rank < length self.old.recording }
        ensures { EntersRecord rank call.now self.old result self.new }
    {
        if !self.is_open(rank) {
            return Stepped::Discarded;
        }
        match self.analyser.offer(rank, call) {
            Ok(()) => Stepped::Took,
            Err(OfferFault::Refused(fault)) => {
                self.keep(rank, RankFault::OfCall(fault));
                Stepped::Refused
            }
            Err(OfferFault::Memory) => {
                self.wanted = true;
                Stepped::Discarded
            }
        }
    }

    /// Takes the fault for which a rank's records stop.
    pub fn tear(&mut self, rank: u16, fault: SourceFault)
        requires { rank < length self.old.recording }
        ensures { self.new ≡ torn self.old rank (OfSource fault) }
    {
        if self.is_open(rank) {
            self.keep(rank, RankFault::OfSource(fault));
        }
    }

    /// Whether memory ran out.
    pub fn is_wanting(&self) -> bool
        ensures { result ≡ self.now.wanted }
    {
        self.wanted
    }

    /// The refusal of the lowest rank that has a fault.
    pub fn refusal(&self) -> Option<Refusal>
        ensures value { result ≡ refusal_kept self.now }
    {
        for rank in 0..self.ranks() {
            if let Some((call, fault)) = self.faults[usize::from(rank)] {
                return Some(Refusal { rank, call, fault });
            }
        }
        None
    }

    /// The analyser of the records that were accepted so far.
    pub fn analyser(&self) -> &Analyser
        ensures reading { result.now.reading ≡ self.now.reading }
        ensures groups { result.now.groups ≡ self.now.groups }
        ensures recording { result.now.recording ≡ self.now.recording }
    {
        &self.analyser
    }

    /// Why no outcome comes of what is kept, if none does. `Memory` comes first.
    fn fault(&self) -> Option<CloseFault>
        ensures some { IfSome result (λ fault. Concludes self.now (Err fault)) }
        ensures calm { result ≡ None → self.now.wanted ≡ false }
        ensures none { result ≡ None → refusal_kept self.now ≡ None }
        ensures lawful { IsLawful self.now.groups self.now.recording }
    {
        self.calls_are_lawful();
        match self.refusal() {
            _ if self.wanted => Some(CloseFault::Memory),
            Some(refusal) => Some(CloseFault::Refused(refusal)),
            None => None,
        }
    }

    /// What comes of the run once all of its records were taken. `Memory` comes first, where memory ran out;
    /// then `Refused`, for the lowest rank that has a fault. An outcome has each rank's calls once, in their order,
    /// and none after the rank's end record.
    pub fn conclude(self, alloc: Global) -> Result<Outcome, CloseFault>
        requires { self.wanted ≡ false → refusal_kept self ≡ None → IsLawful self.groups self.recording → IsClosed self.recording }
        ensures { Concludes self result }
    {
        match self.fault() {
            Some(fault) => Err(fault),
            None => Outcome::of(alloc, self.into_analyser()),
        }
    }

    /// The analyser of the records that were accepted.
    pub fn into_analyser(self) -> Analyser
        ensures reading { result.reading ≡ self.reading }
        ensures groups { result.groups ≡ self.groups }
        ensures recording { result.recording ≡ self.recording }
    {
        let Ledger {
            analyser,
            faults: _,
            wanted: _,
        } = self;
        analyser
    }
}
