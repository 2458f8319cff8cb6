//! A call that is kept, seen in its place.

ghost use Rattle.std.specs.Prelude.{◌≡◌, length};
ghost use Rattle.mpicall.specs.Effect.{effect_of};
ghost use Rattle.mpicall.specs.Ending.{ends_list};
ghost use Rattle.callstore.specs.Envelopes.{message_of, probed_message};
ghost use Rattle.callstore.specs.Requests.{starts, completes};
ghost use Rattle.callstore.specs.Waves.{joins};
ghost use Rattle.callstore.specs.Kinds.{bytes_told, kind_of, mode_of};
ghost use Rattle.callstore.specs.Hot.{hot_kind};
ghost use Rattle.callstore.specs.inner.Entries.{entry_at};
ghost use Rattle.callstore.specs.inner.Packed.{IsStored, unpack};

use crate::entries::{Entries, EntryRef};
use crate::envelope::{Half, Message, message_by, probed_by};
use crate::hot::{ANY, COLL, IRECV, ISEND, RECV, SEND, WAIT, WAITALL};
use crate::note::Note;
use crate::packed::Packed;
use crate::packing::unpack;
use crate::wave::joined_by;
use mpicall::call::{Kind, Mode, Peer};
use mpicall::effect::Effect;
use mpicall::record::Record;
use mpicall::word::Name;
use std::marker::Model;

/// A call that is kept. Contracts see the call.
#[derive(Drop)]
pub struct CallRef<'a> {
    entry: EntryRef<'a>,
    entries: &'a Entries,
    starts: &'a [u32],
}

impl<'a> Model for CallRef<'a> {
    ghost use Rattle.mpicall.specs.declared.call.Call.{Call};
    ghost use Rattle.callstore.specs.inner.Entries.{entry_at};
    ghost use Rattle.callstore.specs.inner.Packed.{IsStored, unpack};

    ghost Value = { Call };

    ghost view = { λ c. unpack c.entries.now.items c.starts.now c.entry.slot.now.call };

    ghost invariant = { λ c. IsStored c.entries.now.items c.starts.now (entry_at c.entry) };
}

impl<'a> CallRef<'a> {
    /// The call of an entry, with the lists of its rank.
    #[inline(always)]
    pub(crate) fn of(entry: EntryRef<'a>, entries: &'a Entries, starts: &'a [u32]) -> CallRef<'a>
        requires { IsStored entries.now.items starts.now (entry_at entry) }
        ensures { result ≡ unpack entries.now.items starts.now entry.entry.slot.now.call }
    {
        CallRef {
            entry,
            entries,
            starts,
        }
    }

    /// The call as a record.
    pub fn record(&self) -> Record
        ensures { result ≡ self.now }
    {
        Record::new(unpack(&self.entry.slot.call, self.entries, self.starts)).unwrap()
    }

    /// What the call does over its communicator.
    #[inline(always)]
    pub fn effect(&self) -> Effect
        ensures { result ≡ effect_of self.now }
    {
        self.entry.slot.call.effect()
    }

    /// The message that a half of the call sends or receives. None where the call has no such half, and
    /// where its peer is MPI_PROC_NULL.
    #[inline(always)]
    pub fn message(&self, half: Half) -> Option<Message>
        ensures { result ≡ message_of half self.now }
    {
        message_by(half, &self.effect())
    }

    /// The message that the call probes for. None where it is no probe, and where its source is
    /// MPI_PROC_NULL.
    #[inline(always)]
    pub fn probed(&self) -> Option<Message>
        ensures { result ≡ probed_message self.now }
    {
        probed_by(&self.effect())
    }

    /// The mode of a call that sends, blocking or not; None for every other call, MPI_Sendrecv too.
    #[inline(always)]
    pub fn mode(&self) -> Option<Mode>
        ensures { result ≡ mode_of self.now }
    {
        match self.entry.slot.call {
            Packed::Send { mode, .. } | Packed::Isend { mode, .. } => Some(mode),
            _ => None,
        }
    }

    /// How many bytes the message of a call that sends has, where the call says so; None where it doesn't, and
    /// for every other call.
    #[inline(always)]
    pub fn bytes(&self) -> Option<u32>
        ensures { result ≡ bytes_told self.now }
    {
        match self.entry.slot.call {
            Packed::Send { bytes, .. }
            | Packed::Isend { bytes, .. }
            | Packed::Exchange {
                name: Name::Sendrecv,
                bytes,
                ..
            } => bytes.bytes(),
            _ => None,
        }
    }

    /// The kind of a collective that isn't started alone; None for every other call.
    #[inline(always)]
    pub fn kind(&self) -> Option<Kind>
        ensures { result ≡ kind_of self.now }
    {
        match self.entry.slot.call {
            Packed::Coll { kind, .. } => Some(kind),
            _ => None,
        }
    }

    /// The number of the call's kind.
    #[inline(always)]
    #[tactic(auto, using(crate::proofs::PackedLemmas::kind_unpacked))]
    pub fn hot_kind(&self) -> u8
        ensures { result ≡ hot_kind self.now }
    {
        match self.entry.slot.call {
            Packed::Send { .. } => SEND,
            Packed::Recv { source, .. } => match source.peer() {
                Peer::Rank(_) => RECV,
                Peer::Null => ANY,
            },
            Packed::Isend { .. } => ISEND,
            Packed::Irecv { .. } => IRECV,
            Packed::Coll { .. } => COLL,
            Packed::Wait { .. } => WAIT,
            Packed::Waitall { .. } => WAITALL,
            _ => ANY,
        }
    }

    /// The request that the call starts, if it starts one.
    #[inline(always)]
    pub fn starts(&self) -> Option<u32>
        ensures { result ≡ starts self.now }
    {
        self.entry.slot.call.starts()
    }

    /// The communicator whose members all make the call, if there is one.
    #[inline(always)]
    pub fn joins(&self) -> Option<u16>
        ensures { result ≡ joins self.now }
    {
        match self.entry.slot.call {
            Packed::Coll { comm, .. } | Packed::Icoll { comm, .. } => Some(comm),
            _ => joined_by(&self.effect()),
        }
    }

    /// How many requests the call completes.
    #[inline(always)]
    pub fn completed_count(&self) -> usize
        ensures { result ≡ length (completes self.now) }
    {
        Note::of(self.entry, self.entries, self.starts).completed_count()
    }

    /// Whether no call of the rank comes after this one.
    #[inline(always)]
    pub fn ends_list(&self) -> bool
        ensures { result ≡ ends_list self.now }
    {
        matches!(
            self.entry.slot.call,
            Packed::Nothing {
                name: Name::Finalize | Name::Open
            }
        )
    }
}
