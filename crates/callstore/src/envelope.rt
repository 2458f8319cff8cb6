//! Envelopes of messages, and the halves of calls that send and receive them.

ghost use Rattle.std.specs.Prelude.{◌≡◌, ◌+◌, ◌*◌, ◌^◌, Some};
ghost use Rattle.std.specs.Hash as fed;
ghost use Rattle.std.specs.Cmp.Rules.{hashing};
ghost use Rattle.std.proofs.Common.{rules};
ghost use Rattle.mpicall.specs.Effect.{effect_of};
ghost use Rattle.mpicall.specs.declared.call.Call.{Call as CallValue};
ghost use Rattle.callstore.specs.Envelopes.{other_half, message, message_by, probed_message, envelope_by, envelope_of, rank_of_half};

use mpicall::call::Peer;
use mpicall::effect::{Effect, Side};
use mpigroup::head::Head;
use std::hash::{Hash, Hasher};

/// A half of a call: it sends a message, or it receives one.
#[derive(Clone, Copy, PartialEq, Eq)]
pub enum Half {
    Send,
    Recv,
}

impl Half {
    /// The half that a message's other end has.
    pub fn other(self) -> Half
        ensures { result ≡ other_half self }
    {
        match self {
            Half::Send => Half::Recv,
            Half::Recv => Half::Send,
        }
    }
}

/// What a call says of the message that one of its halves sends or receives. The peer is a rank of the
/// communicator's group: the destination of what is sent, the source of what is received.
#[derive(Clone, Copy, PartialEq, Eq)]
pub struct Message {
    pub comm: u16,
    pub peer: u16,
    pub tag: u32,
}

/// What a message carries besides its data. Source and destination are ranks of the communicator's
/// group.
#[derive(Clone, Copy, PartialEq, Eq)]
pub struct Envelope {
    pub comm: u16,
    pub source: u16,
    pub dest: u16,
    pub tag: u32,
}

// All fields as one number, which is hashed faster than one after the other.
impl Hash for Envelope {
    ghost hash_input = { λ e. fed.u128 (e.comm * 2 ^ 64 + e.source * 2 ^ 48 + e.dest * 2 ^ 32 + e.tag) };

    ghost respects_eq = { Prim.search (hashing, rules) };

    fn hash<H: Hasher>(&self, state: &mut H) {
        let comm = u128::from(self.comm) * 0x1_0000_0000_0000_0000;
        let source = u128::from(self.source) * 0x1_0000_0000_0000;
        let dest = u128::from(self.dest) * 0x1_0000_0000;
        state.write_u128(comm + source + dest + u128::from(self.tag));
    }
}

/// A message over a communicator; none where its other end is MPI_PROC_NULL.
#[inline(always)]
pub(crate) fn message_with(comm: u16, side: Side) -> Option<Message>
    ensures { result ≡ message comm side }
{
    match side.peer {
        Peer::Rank(peer) => Some(Message {
            comm,
            peer,
            tag: side.tag,
        }),
        Peer::Null => None,
    }
}

/// The message that a half of what a call does sends or receives.
#[inline(always)]
pub(crate) fn message_by(half: Half, effect: &Effect) -> Option<Message>
    ensures { result ≡ message_by half effect.now }
{
    match (half, *effect) {
        (
            Half::Send,
            Effect::PointToPoint {
                comm,
                sent: Some(side),
                ..
            },
        )
        | (
            Half::Recv,
            Effect::PointToPoint {
                comm,
                received: Some(side),
                ..
            },
        ) => message_with(comm, side),
        _ => None,
    }
}

/// The message that a call which does this probes for.
#[inline(always)]
pub(crate) fn probed_by(effect: &Effect) -> Option<Message>
    ensures { (call : CallValue) → effect_of call ≡ effect.now → result ≡ probed_message call }
{
    match *effect {
        Effect::PointToPoint {
            comm,
            probed: Some(side),
            ..
        } => message_with(comm, side),
        _ => None,
    }
}

/// The envelope of a message by the half that the member with that rank in the group has of it.
#[inline(always)]
pub fn envelope_by(half: Half, message: Message, own: u16) -> Envelope
    ensures { result ≡ envelope_by half message own }
{
    let Message { comm, peer, tag } = message;
    match half {
        Half::Send => Envelope {
            comm,
            source: own,
            dest: peer,
            tag,
        },
        Half::Recv => Envelope {
            comm,
            source: peer,
            dest: own,
            tag,
        },
    }
}

/// The envelope of the message that a half of what the rank's call does sends or receives.
#[inline(always)]
pub(crate) fn envelope_in(head: &Head, rank: u16, half: Half, effect: &Effect) -> Option<Envelope>
    ensures { (call : CallValue) → effect_of call ≡ effect.now → result ≡ envelope_of head.now rank half call }
{
    let message = message_by(half, effect)?;
    let own = head.group_rank(message.comm, rank)?;
    Some(envelope_by(half, message, own))
}

/// The rank of the world whose calls have that half of the envelope's messages, if there is one.
#[inline(always)]
pub fn rank_of_half(head: &Head, half: Half, envelope: &Envelope) -> Option<u16>
    ensures { result ≡ rank_of_half head.now half envelope.now }
{
    match half {
        Half::Send => head.world_rank(envelope.comm, envelope.source),
        Half::Recv => head.world_rank(envelope.comm, envelope.dest),
    }
}
