//! Entries of calls that come seldom.

ghost use Rattle.std.specs.Prelude.{◌≡◌, ℕ, OnOk};
ghost use Rattle.closing.specs.inner.Makers.{MayMake};
ghost use Rattle.closing.specs.inner.Standings.{message_for};
ghost use Rattle.closing.specs.inner.Views.{called_view};
ghost use Rattle.closing.specs.inner.Walked.{LateCall, Meets, TakesCall, message_after};
ghost use Rattle.closing.specs.inner.Walks.{Spot};
ghost use Rattle.closing.specs.Recordings.{choice_in};

use super::{At, Walk};
use crate::called::Called;
use crate::numbers::Communicators;
use crate::stop::Stop;
use crate::walk::message::Halves;
use journals::lines::Lines;

impl Walk {
    /// Puts the lines of an entry of any call, or answers why the list ends at it.
    #[inline(never)]
    pub(super) fn take_seldom(
        &mut self,
        run: &Communicators,
        lines: &Lines,
        at: &At<'_>,
        it: &Called<'_>,
    ) -> Result<(), Stop>
        ensures same { self.new ≡ record self.old { list = self.new.list; requests = self.new.requests; ids = self.new.ids; wanted = self.new.wanted; late = self.new.late } }
        ensures outcomes { self.new.requests.outcomes ≡ self.old.requests.outcomes }
        ensures messages { OnOk result ((request : ℕ) → message_for self.new.requests request ≡ message_after (called_view it.now) (message_for self.old.requests) request) }
        ensures takes { (spot : Spot) → Meets spot lines.now self.old.requests at.now it.now → MayMake spot run.now self.old.rank at.now it.now →
            TakesCall (choice_in self.old.choice) spot (called_view it.now) result self.old.list self.new.list }
        ensures late { OnOk result ((spot : Spot) → Meets spot lines.now self.old.requests at.now it.now →
            LateCall (choice_in self.old.choice) spot (called_view it.now) self.old.list self.old.late.items self.new.late.items) }
    {
        match it {
            Called::Sends(mode, sent) => {
                let sent = *sent;
                self.sends(at, *mode, &sent)
            }
            Called::StartsSend(own, mode, sent) => {
                let sent = *sent;
                self.starts_send(at, *own, *mode, &sent)
            }
            Called::Receives(awaited) => {
                let awaited = *awaited;
                self.receives(at, &awaited)
            }
            Called::StartsReceive(own, awaited) => {
                let awaited = self.requests.unless_moved(*own, awaited);
                self.starts_receive(lines, at, *own, &awaited)
            }
            Called::Exchanges(sent, awaited) => {
                let (sent, awaited) = (*sent, *awaited);
                self.exchanges(at, &sent, &awaited)
            }
            Called::StartsExchange(own, other, sent, awaited) => {
                let awaited = self.requests.unless_moved(*other, awaited);
                let halves = Halves {
                    own: *own,
                    other: *other,
                    sent: *sent,
                    awaited,
                };
                self.starts_exchange(lines, at, &halves)
            }
            Called::Probes(awaited) => {
                let awaited = *awaited;
                self.probes(at, &awaited)
            }
            Called::ProbesMatching(own, awaited) => {
                let awaited = *awaited;
                self.probes_matching(at, *own, &awaited)
            }
            Called::Collects(collective, _, root) => self.collects(at, *collective, *root),
            Called::StartsCollective(own, collective, _, root) => {
                self.starts_collective(at, *own, *collective, *root)
            }
            Called::StartsDuplicate(own, _) => self.starts_duplicate(at, *own),
            Called::MakesOfGroup(_) => self.makes_of_group(at),
            Called::Duplicates(_) => self.makes(run, at, it),
            Called::Splits(..) => self.makes(run, at, it),
            Called::Makes(_) => self.makes(run, at, it),
            _ => self.take_wait(lines, at, it),
        }
    }
}
