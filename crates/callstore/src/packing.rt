//! Calls packed, and unpacked again.

ghost use Rattle.std.specs.Prelude.{◌≡◌, ◌+◌, ◌≤◌, [], ◌++◌, List, ℕ, length, IsTrue};
ghost use Rattle.std.specs.List.{list_all};
ghost use Rattle.mpicall.specs.Argument.{is_in_range};
ghost use Rattle.mpicall.specs.CallArgs.{args_in_line};
ghost use Rattle.mpicall.specs.inner.CallArgs.{call_from};
ghost use Rattle.mpicall.specs.Limits.{few_enough, names_enough, in_ranges};
ghost use Rattle.callstore.specs.Requests.{waits_for};
ghost use Rattle.callstore.specs.Notes.{listed};
ghost use Rattle.callstore.specs.inner.Packed.{request_at, req_at, reqs_at, part, unpack, unpack_starts, end_of, listed_starts};
ghost use Rattle.callstore.specs.inner.Entries.{Entry};

use crate::entries::Entries;
use crate::packed::Packed;
use crate::packed_fields::{PackedBytes, PackedPeer};
use mpicall::call::Call;
use mpicall::call_args::CallArgs;
use mpicall::limits::MOST_REQUESTS;
use mpicall::reqs::Reqs;
use mpicall::word::Name;
use std::slice::from_ref;

/// The requests of a wait that may name several.
#[inline(always)]
pub(crate) fn listed(call: &Call) -> &[u32]
    ensures value { result.now ≡ listed call.now }
    ensures most { length result.now ≤ MOST_REQUESTS }
{
    match call {
        Call::Waitall { reqs } | Call::Waitany { reqs, .. } => reqs.as_slice(),
        _ => &[],
    }
}

/// The starts of a wait that may name several requests.
#[inline(always)]
pub(crate) fn listed_starts<'a>(call: &Call, starts: &'a [u32]) -> &'a [u32]
    ensures { result.now ≡ listed_starts call.now starts.now }
{
    match call {
        Call::Waitall { .. } | Call::Waitany { .. } => starts,
        _ => &[],
    }
}

/// How many requests there are.
fn count(reqs: &Reqs) -> u8
    ensures { result ≡ length reqs.now }
{
    reqs.as_slice().len() as u8
}

/// A name and what follows it, packed.
fn pack_args(name: Name, call_args: CallArgs) -> Packed
    requires { IsTrue (list_all is_in_range (args_in_line call_args)) }
    ensures call { (entries : List Entry) (starts : List ℕ) → unpack entries starts result ≡ call_from name call_args }
    ensures starts { (starts : List ℕ) → unpack_starts starts result ≡ [] }
    ensures end { end_of result ≡ 0 }
{
    match call_args {
        CallArgs::Nothing => Packed::Nothing { name },
        CallArgs::Message { comm, source, tag } => Packed::Message {
            name,
            comm,
            source: PackedPeer::of(source),
            tag,
        },
        CallArgs::Exchange {
            comm,
            dest,
            send_tag,
            source,
            recv_tag,
            bytes,
        } => Packed::Exchange {
            name,
            comm,
            dest: PackedPeer::of(dest),
            source: PackedPeer::of(source),
            send_tag,
            recv_tag,
            bytes: PackedBytes::of(bytes),
        },
        CallArgs::Copy { comm, new } => Packed::Copy { name, comm, new },
        CallArgs::Split {
            comm,
            colour,
            key,
            new,
        } => Packed::Split {
            name,
            comm,
            colour,
            key,
            new,
        },
    }
}

/// The call packed. The places that started the requests which it names are given, and those that are listed
/// come into the rank's list from `first` on.
#[inline(always)]
pub(crate) fn pack(call: &Call, first: u32, starts: &[u32]) -> Packed
    requires starts { length starts.now ≡ length (waits_for call.now) }
    requires ranges { IsTrue (in_ranges call.now) }
    ensures call { (entries : List Entry) (before : List ℕ) → reqs_at entries starts.now ≡ waits_for call.now → length before ≡ first →
        unpack entries (before ++ listed_starts call.now starts.now) result ≡ call.now }
    ensures starts { (before : List ℕ) → length before ≡ first → unpack_starts (before ++ listed_starts call.now starts.now) result ≡ starts.now }
    ensures end { end_of result ≤ first + length (listed_starts call.now starts.now) }
{
    match *call {
        Call::Send {
            mode,
            comm,
            dest,
            tag,
            bytes,
        } => Packed::Send {
            mode,
            comm,
            dest: PackedPeer::of(dest),
            tag,
            bytes: PackedBytes::of(bytes),
        },
        Call::Recv { comm, source, tag } => Packed::Recv {
            comm,
            source: PackedPeer::of(source),
            tag,
        },
        Call::Isend {
            req,
            mode,
            comm,
            dest,
            tag,
            bytes,
        } => Packed::Isend {
            mode,
            comm,
            dest: PackedPeer::of(dest),
            req,
            tag,
            bytes: PackedBytes::of(bytes),
        },
        Call::Irecv {
            req,
            comm,
            source,
            tag,
        } => Packed::Irecv {
            req,
            comm,
            source: PackedPeer::of(source),
            tag,
        },
        Call::Coll { comm, kind } => Packed::Coll { comm, kind },
        Call::Icoll { req, comm, kind } => Packed::Icoll { req, comm, kind },
        Call::Wait { .. } => Packed::Wait { start: starts[0] },
        Call::Waitall { ref reqs } => Packed::Waitall {
            first,
            count: count(reqs),
        },
        Call::Waitany { chosen, ref reqs } => Packed::Waitany {
            chosen,
            first,
            count: count(reqs),
        },
        _ => match call.call_args() {
            Some((name, call_args)) => pack_args(name, call_args),
            None => Packed::Nothing {
                name: Name::Finalize,
            },
        },
    }
}

/// The places that started the requests which a wait names, in its order; none where the call is no wait.
#[inline(always)]
pub(crate) fn unpack_starts<'a>(packed: &'a Packed, starts: &'a [u32]) -> &'a [u32]
    requires { end_of packed.now ≤ length starts.now }
    ensures { result.now ≡ unpack_starts starts.now packed.now }
{
    match packed {
        Packed::Wait { start } => from_ref(start),
        Packed::Waitall { first, count } | Packed::Waitany { first, count, .. } => {
            part(starts, *first, *count)
        }
        _ => &[],
    }
}

/// So many of the places, from the first on.
#[inline(always)]
fn part(places: &[u32], first: u32, count: u8) -> &[u32]
    requires { first + count ≤ length places.now }
    ensures { result.now ≡ part places.now first count }
{
    let first = first as usize;
    &places[first..first + usize::from(count)]
}

/// The request that the rank's call at the place starts.
fn request_at(entries: &Entries, place: u32) -> Option<u32>
    ensures { result ≡ request_at entries.now.items place }
{
    entries.get(place as usize)?.slot.call.starts()
}

/// The request that the rank's call at the place starts; 0 where that call starts none.
pub(crate) fn req_at(entries: &Entries, place: u32) -> u32
    ensures { result ≡ req_at entries.now.items place }
{
    request_at(entries, place).unwrap_or(0)
}

/// The requests that the calls at the places start.
fn reqs_at(entries: &Entries, places: &[u32]) -> Reqs
    requires { IsTrue (few_enough (reqs_at entries.now.items places.now)) }
    ensures { result ≡ reqs_at entries.now.items places.now }
{
    let mut reqs = [0; MOST_REQUESTS];
    for i in 0..places.len() {
        reqs[i] = req_at(entries, places[i]);
    }
    Reqs::new(&reqs[..places.len()]).unwrap()
}

/// The call, by the entries of its rank and the starts of their waits.
pub(crate) fn unpack(packed: &Packed, entries: &Entries, starts: &[u32]) -> Call
    requires within { end_of packed.now ≤ length starts.now }
    requires few { IsTrue (names_enough (unpack entries.now.items starts.now packed.now)) }
    ensures { result ≡ unpack entries.now.items starts.now packed.now }
{
    match *packed {
        Packed::Send {
            mode,
            comm,
            dest,
            tag,
            bytes,
        } => Call::Send {
            mode,
            comm,
            dest: dest.peer(),
            tag,
            bytes: bytes.bytes(),
        },
        Packed::Recv { comm, source, tag } => Call::Recv {
            comm,
            source: source.peer(),
            tag,
        },
        Packed::Isend {
            mode,
            comm,
            dest,
            req,
            tag,
            bytes,
        } => Call::Isend {
            req,
            mode,
            comm,
            dest: dest.peer(),
            tag,
            bytes: bytes.bytes(),
        },
        Packed::Irecv {
            req,
            comm,
            source,
            tag,
        } => Call::Irecv {
            req,
            comm,
            source: source.peer(),
            tag,
        },
        Packed::Coll { comm, kind } => Call::Coll { comm, kind },
        Packed::Icoll { req, comm, kind } => Call::Icoll { req, comm, kind },
        Packed::Wait { start } => Call::Wait {
            req: req_at(entries, start),
        },
        Packed::Waitall { first, count } => Call::Waitall {
            reqs: reqs_at(entries, part(starts, first, count)),
        },
        Packed::Waitany {
            chosen,
            first,
            count,
        } => Call::Waitany {
            chosen,
            reqs: reqs_at(entries, part(starts, first, count)),
        },
        _ => match packed.plain() {
            Some(call) => call,
            None => Call::Finalize,
        },
    }
}
