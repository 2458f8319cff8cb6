//! A record: a call whose fields all lie in the ranges of the trace format.

ghost use Rattle.std.specs.Prelude.{◌≡◌, ◌↔◌, ◌&&◌, [], ◌∷◌, map, IsTrue, IsSome, IfSome, MatchOption};
ghost use Rattle.std.specs.List.{list_all};
ghost use Rattle.mpicall.specs.Argument.{PeerOf, comm_argument, tag_argument, request_argument, bytes_arguments, is_in_range, peer_in_range, key_in_range, none_or_up_to};
ghost use Rattle.mpicall.specs.Ending.{ends_list};
ghost use Rattle.mpicall.specs.CallArgs.{args_in_line};
ghost use Rattle.mpicall.specs.Limits.{in_ranges, may_tell};
ghost use Rattle.mpicall.specs.inner.Parsing.{ReadsFields, BeginsWith};
ghost use Rattle.mpicall.specs.Spelling.{root_of, root_arguments};
ghost use Rattle.mpicall.specs.declared.call.Call.TheVariants.{Coll, Finalize};

use crate::body::read_fields;
use crate::call::{Call, Kind, Mode, Peer};
use crate::call_args::CallArgs;
use crate::fields::Fields;
use crate::limits::{
    GREATEST_BYTES, GREATEST_COLOUR, GREATEST_COMM, GREATEST_RANK, GREATEST_REQUEST, GREATEST_TAG,
};
use crate::often::read_often;
use crate::word::root_of;
use std::marker::Model;
use std::{fmt, slice};

/// A call all of whose fields lie in their ranges, so that it has one spelling in a trace.
#[derive(Clone, Copy, PartialEq, Eq)]
pub struct Record {
    call: Call,
}

impl Model for Record {
    ghost use Rattle.std.specs.Prelude.{IsTrue};
    ghost use Rattle.mpicall.specs.declared.call.Call.{Call};
    ghost use Rattle.mpicall.specs.Limits.{in_ranges};

    ghost Value = { Call };

    ghost view = { λ r. r.call };

    ghost invariant = { λ r. IsTrue (in_ranges r.call) };

    ghost inverse = { λ c. record { call = c } };
}

/// Faults that hand a record back print it by this; `write_line` writes what it says.
impl fmt::Debug for Record {
    fn fmt<W: fmt::Write>(&self, f: &mut fmt::Formatter<W>) -> fmt::Result {
        f.write_str("Record")
    }
}

fn is_peer_in_range(peer: Peer) -> bool
    ensures { result ≡ peer_in_range peer }
{
    match peer {
        Peer::Rank(rank) => rank <= GREATEST_RANK,
        Peer::Null => true,
    }
}

/// Whether a communicator, a peer and a tag are in their ranges.
fn is_message_in_ranges(comm: u16, peer: Peer, tag: u32) -> bool
    ensures { result ≡ list_all is_in_range (comm_argument comm ∷ PeerOf peer ∷ tag_argument tag ∷ []) }
{
    comm <= GREATEST_COMM && is_peer_in_range(peer) && tag <= GREATEST_TAG
}

fn is_kind_in_range(kind: Kind) -> bool
    ensures { result ≡ list_all is_in_range (root_arguments (root_of kind)) }
{
    match root_of(kind) {
        Some(root) => root <= GREATEST_RANK,
        None => true,
    }
}

#[tactic(auto, using(crate::proofs::RequestLemmas::request_steps))]
fn are_requests_in_range(reqs: &[u32]) -> bool
    ensures { result ≡ list_all is_in_range (map request_argument reqs.now) }
{
    for req in reqs {
        if *req > GREATEST_REQUEST {
            return false;
        }
    }
    true
}

/// Whether a colour, or a new communicator, is none or in its range.
fn is_none_or_up_to(greatest: u32, number: Option<u32>) -> bool
    ensures { result ≡ none_or_up_to greatest number }
{
    match number {
        Some(number) => number <= greatest,
        None => true,
    }
}

/// Each key of 32 bits is in range.
fn is_key_in_range(key: i32) -> bool
    ensures { result ≡ key_in_range key }
{
    -2_147_483_648 <= key && key <= 2_147_483_647
}

/// Whether a send of the mode may say so many bytes.
fn are_bytes_in_range(mode: Mode, bytes: Option<u32>) -> bool
    ensures { result ≡ (list_all is_in_range (bytes_arguments bytes) && may_tell mode bytes) }
{
    match (mode, bytes) {
        (_, None) => true,
        (Mode::Standard, Some(bytes)) => bytes <= GREATEST_BYTES,
        _ => false,
    }
}

/// Whether what follows a name is in its ranges.
fn args_in_ranges(call_args: CallArgs) -> bool
    ensures { result ≡ list_all is_in_range (args_in_line call_args) }
{
    match call_args {
        CallArgs::Nothing => true,
        CallArgs::Message { comm, source, tag } => is_message_in_ranges(comm, source, tag),
        CallArgs::Exchange {
            comm,
            dest,
            send_tag,
            source,
            recv_tag,
            bytes,
        } => {
            is_message_in_ranges(comm, dest, send_tag)
                && is_peer_in_range(source)
                && recv_tag <= GREATEST_TAG
                && are_bytes_in_range(Mode::Standard, bytes)
        }
        CallArgs::Copy { comm, new } => comm <= GREATEST_COMM && new <= GREATEST_COMM,
        CallArgs::Split {
            comm,
            colour,
            key,
            new,
        } => {
            comm <= GREATEST_COMM
                && is_none_or_up_to(GREATEST_COLOUR, colour)
                && is_key_in_range(key)
                && is_none_or_up_to(u32::from(GREATEST_COMM), new.map(u32::from))
        }
    }
}

/// Whether each field of a call is in its range. Inlined: where the call is known, only its own fields are asked.
#[inline(always)]
pub(crate) fn is_in_ranges(call: &Call) -> bool
    ensures { result ≡ in_ranges call.now }
{
    match *call {
        Call::Send {
            mode,
            comm,
            dest,
            tag,
            bytes,
        } => is_message_in_ranges(comm, dest, tag) && are_bytes_in_range(mode, bytes),
        Call::Recv { comm, source, tag } => is_message_in_ranges(comm, source, tag),
        Call::Isend {
            req,
            mode,
            comm,
            dest,
            tag,
            bytes,
        } => {
            req <= GREATEST_REQUEST
                && is_message_in_ranges(comm, dest, tag)
                && are_bytes_in_range(mode, bytes)
        }
        Call::Irecv {
            req,
            comm,
            source,
            tag,
        } => { req <= GREATEST_REQUEST && is_message_in_ranges(comm, source, tag) }
        Call::Wait { req } => req <= GREATEST_REQUEST,
        Call::Waitall { ref reqs } => are_requests_in_range(reqs.as_slice()),
        Call::Waitany { chosen, ref reqs } => {
            usize::from(chosen) < reqs.count() && are_requests_in_range(reqs.as_slice())
        }
        Call::Coll { comm, kind } => comm <= GREATEST_COMM && is_kind_in_range(kind),
        Call::Icoll { req, comm, kind } => {
            req <= GREATEST_REQUEST && comm <= GREATEST_COMM && is_kind_in_range(kind)
        }
        _ => match call.call_args() {
            Some((_, call_args)) => args_in_ranges(call_args),
            None => true,
        },
    }
}

impl Record {
    /// The record of a call, or None exactly where one of the call's fields is out of its range.
    pub fn new(call: Call) -> Option<Record>
        ensures some { IsSome result ↔ IsTrue (in_ranges call) }
        ensures value { IfSome result (λ x. x ≡ call) }
    {
        if is_in_ranges(&call) {
            Some(Record { call })
        } else {
            None
        }
    }

    /// The record of MPI_Finalize.
    pub fn finalize() -> Record
        ensures { result ≡ Finalize }
    {
        Record {
            call: Call::Finalize,
        }
    }

    /// Reads the record of the fields of a line, its word first; says whether there is one, and else
    /// leaves this one alone.
    pub(crate) fn read_fields(&mut self, fields: Fields<'_>) -> bool
        ensures { ReadsFields fields.entry result self.old self.new }
    {
        read_fields(fields, &mut self.call)
    }

    /// Reads the record of the first line of some bytes, where it is one that comes often; says how many bytes it has,
    /// and else leaves this one alone.
    #[inline(always)]
    pub(crate) fn read_often(&mut self, bytes: &[u8]) -> Option<usize>
        ensures { MatchOption result (self.new ≡ self.old) (BeginsWith bytes.now self.new) }
    {
        read_often(bytes, &mut self.call)
    }

    /// The call in its place, for those that only look at it: a record takes some 264 bytes.
    pub fn as_call(&self) -> &Call
        ensures value { result.now ≡ self.now }
        ensures in_ranges { IsTrue (in_ranges result.now) }
    {
        &self.call
    }

    /// Makes the record that of a collective. Where it is one already, only its communicator and its kind are written.
    #[inline(always)]
    fn set_collective(&mut self, to: u16, of: Kind)
        requires { IsTrue (in_ranges (Coll to of)) }
        ensures { self.new ≡ Coll to of }
    {
        match &mut self.call {
            Call::Coll { comm, kind } => {
                *comm = to;
                *kind = of;
            }
            _ => self.call = Call::Coll { comm: to, kind: of },
        }
    }

    /// Makes it the record of a call: a short one is copied field by field, since most of a record's bytes are for waits
    /// that name many requests.
    #[inline(always)]
    pub(crate) fn set(&mut self, call: &Call)
        requires { IsTrue (in_ranges call.now) }
        ensures { self.new ≡ call.now }
    {
        match *call {
            Call::Send {
                mode,
                comm,
                dest,
                tag,
                bytes,
            } => self.call = Call::Send {
                mode,
                comm,
                dest,
                tag,
                bytes,
            },
            Call::Recv { comm, source, tag } => self.call = Call::Recv { comm, source, tag },
            Call::Isend {
                req,
                mode,
                comm,
                dest,
                tag,
                bytes,
            } => self.call = Call::Isend {
                req,
                mode,
                comm,
                dest,
                tag,
                bytes,
            },
            Call::Irecv {
                req,
                comm,
                source,
                tag,
            } => self.call = Call::Irecv {
                req,
                comm,
                source,
                tag,
            },
            Call::Wait { req } => self.call = Call::Wait { req },
            Call::Coll { comm, kind } => self.set_collective(comm, kind),
            _ => slice::from_mut(&mut self.call).copy_from_slice(slice::from_ref(call)),
        }
    }

    /// Copies the record into a place.
    #[inline(always)]
    pub(crate) fn write(&self, into: &mut Record)
        ensures { into.new ≡ self.now }
    {
        into.set(&self.call);
    }

    /// Whether no call of the rank comes after this one.
    pub fn ends_list(&self) -> bool
        ensures { result ≡ ends_list self.now }
    {
        self.as_call().ends_list()
    }

    /// The call, with its fields in their ranges.
    pub fn call(&self) -> Call
        ensures value { result ≡ self.now }
        ensures in_ranges { IsTrue (in_ranges result) }
    {
        *self.as_call()
    }
}
