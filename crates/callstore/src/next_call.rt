//! The next call of a rank, while it is put in.

ghost use Rattle.std.specs.Prelude.{◌≡◌, ◌≤◌, length};
ghost use Rattle.mpicall.specs.Effect.{effect_of};
ghost use Rattle.mpicall.specs.declared.limits.TheConstants.{MOST_REQUESTS};
ghost use Rattle.callstore.specs.Communicators.{makes, comm_of};
ghost use Rattle.callstore.specs.Envelopes.{envelope_of, probed_message};
ghost use Rattle.callstore.specs.Requests.{starts, waits_for, completes};
ghost use Rattle.callstore.specs.Waves.{joins};

use crate::comm::made_by;
use crate::envelope::{Envelope, Half, Message, envelope_in, probed_by};
use crate::request::{completes, starts, waits_for};
use crate::wave::joined_by;
use mpicall::call::Call;
use mpicall::effect::Effect;
use mpicall::record::Record;
use mpigroup::head::Head;
use std::marker::Model;

/// The next call of a rank with what it does, starts and waits for, which each table asks: it is found out once.
/// Contracts see the call.
#[derive(Drop)]
pub struct NextCall<'a> {
    record: &'a Record,
    effect: Effect,
    started: Option<u32>,
    named: &'a [u32],
    completed: &'a [u32],
}

impl<'a> Model for NextCall<'a> {
    ghost use Rattle.std.specs.Prelude.{◌≡◌, ◌≤◌, length};
    ghost use Rattle.mpicall.specs.Effect.{effect_of};
    ghost use Rattle.mpicall.specs.declared.call.Call.{Call};
    ghost use Rattle.mpicall.specs.declared.limits.TheConstants.{MOST_REQUESTS};
    ghost use Rattle.callstore.specs.Requests.{starts, waits_for, completes};

    ghost Value = { Call };

    ghost view = { λ n. n.record.now };

    ghost invariant = { λ n. (n.effect ≡ effect_of n.record.now) × ((n.started ≡ starts n.record.now) × ((n.named.now ≡ waits_for n.record.now) × ((length n.named.now ≤ MOST_REQUESTS) × (n.completed.now ≡ completes n.record.now)))) };
}

impl<'a> NextCall<'a> {
    /// The call of a record.
    #[inline(always)]
    pub fn of(call: &'a Record) -> NextCall<'a>
        ensures { result ≡ call.now }
    {
        let own = call.as_call();
        NextCall {
            record: call,
            effect: own.effect(),
            started: starts(own),
            named: waits_for(own),
            completed: completes(own),
        }
    }

    /// The call in its place.
    #[inline(always)]
    pub fn as_call(&self) -> &Call
        ensures { result.now ≡ self.now }
    {
        self.record.as_call()
    }

    /// The record in its place.
    #[inline(always)]
    pub fn record(&self) -> &Record
        ensures { result.now ≡ self.now }
    {
        self.record
    }

    /// What the call does.
    #[inline(always)]
    pub fn effect(&self) -> &Effect
        ensures { result.now ≡ effect_of self.now }
    {
        &self.effect
    }

    /// The request that the call starts, if it starts one.
    #[inline(always)]
    pub fn starts(&self) -> Option<u32>
        ensures { result ≡ starts self.now }
    {
        self.started
    }

    /// The requests that the call names, in its order; none where it is no wait.
    #[inline(always)]
    pub fn waits_for(&self) -> &[u32]
        ensures value { result.now ≡ waits_for self.now }
        ensures most { length result.now ≤ MOST_REQUESTS }
    {
        self.named
    }

    /// The requests that the call completes, in its order.
    #[inline(always)]
    pub fn completes(&self) -> &[u32]
        ensures { result.now ≡ completes self.now }
    {
        self.completed
    }

    /// The communicator over which the call is made, if it names one.
    #[inline(always)]
    pub fn comm(&self) -> Option<u16>
        ensures { result ≡ comm_of self.now }
    {
        match self.effect {
            Effect::PointToPoint { comm, .. } | Effect::Joins { comm, .. } => Some(comm),
            Effect::Local => None,
        }
    }

    /// The communicator whose members all make the call, if there is one.
    #[inline(always)]
    pub fn joins(&self) -> Option<u16>
        ensures { result ≡ joins self.now }
    {
        joined_by(&self.effect)
    }

    /// The communicator that the call makes for its rank, if it makes one.
    #[inline(always)]
    pub fn makes(&self) -> Option<u16>
        ensures { result ≡ makes self.now }
    {
        made_by(&self.effect)
    }

    /// The message that the call probes for.
    #[inline(always)]
    pub fn probed(&self) -> Option<Message>
        ensures { result ≡ probed_message self.now }
    {
        probed_by(&self.effect)
    }

    /// The envelope of the message that a half of the rank's call sends or receives. None where the call
    /// has no such message, and where the rank is not in the communicator's group.
    #[inline(always)]
    pub fn envelope(&self, head: &Head, rank: u16, half: Half) -> Option<Envelope>
        ensures { result ≡ envelope_of head.now rank half self.now }
    {
        envelope_in(head, rank, half, &self.effect)
    }
}
