//! Calls stored compactly: in 20 bytes, and each request that a wait for several names takes 4 more.
//!
//! A wait keeps the places of the calls that started its requests, and no numbers. The analyser asks for
//! places at each step; numbers are needed for reports alone, at the price of one look-up each.

ghost use Rattle.std.specs.Prelude.{◌≡◌, List, ℕ, unwrap_or};
ghost use Rattle.mpicall.specs.declared.call.Call.TheVariants.{Finalize};
ghost use Rattle.mpicall.specs.Effect.{effect_of};
ghost use Rattle.callstore.specs.Requests.{starts};
ghost use Rattle.callstore.specs.inner.Packed.{request_of, plain_of, unpack};
ghost use Rattle.callstore.specs.inner.Entries.{Entry};

use crate::packed_fields::{PackedBytes, PackedPeer};
use mpicall::call::{Call, Kind, Mode};
use mpicall::call_args::CallArgs;
use mpicall::effect::Effect;
use mpicall::word::{Name, root_of};
use std::mem::size_of;

/// A call: an operation or a wait has a variant of its own, as in `Call`, and any other call that of its layout,
/// with its name. A wait has the places that started its requests, and their numbers are read from the calls there. A
/// wait for several says where these places are in a list of its rank: `count` of them from `first` on.
#[derive(Clone, Copy)]
pub(crate) enum Packed {
    Send {
        mode: Mode,
        comm: u16,
        dest: PackedPeer,
        tag: u32,
        bytes: PackedBytes,
    },
    Recv {
        comm: u16,
        source: PackedPeer,
        tag: u32,
    },
    Isend {
        mode: Mode,
        comm: u16,
        dest: PackedPeer,
        req: u32,
        tag: u32,
        bytes: PackedBytes,
    },
    Irecv {
        req: u32,
        comm: u16,
        source: PackedPeer,
        tag: u32,
    },
    Wait {
        start: u32,
    },
    Waitall {
        first: u32,
        count: u8,
    },
    Waitany {
        chosen: u8,
        first: u32,
        count: u8,
    },
    Coll {
        comm: u16,
        kind: Kind,
    },
    Icoll {
        req: u32,
        comm: u16,
        kind: Kind,
    },
    Nothing {
        name: Name,
    },
    Message {
        name: Name,
        comm: u16,
        source: PackedPeer,
        tag: u32,
    },
    Exchange {
        name: Name,
        comm: u16,
        dest: PackedPeer,
        source: PackedPeer,
        send_tag: u32,
        recv_tag: u32,
        bytes: PackedBytes,
    },
    Copy {
        name: Name,
        comm: u16,
        new: u16,
    },
    Split {
        name: Name,
        comm: u16,
        colour: Option<u32>,
        key: i32,
        new: Option<u16>,
    },
}

const _: () = prove!(size_of::<Packed>() <= 20);

impl Packed {
    /// The call of a name and what follows it; None for an operation and a wait.
    #[inline(always)]
    pub(crate) fn plain(&self) -> Option<Call>
        ensures { result ≡ plain_of self.now }
    {
        let call = match *self {
            Packed::Nothing { name } => name.call(CallArgs::Nothing),
            Packed::Message {
                name,
                comm,
                source,
                tag,
            } => name.call(CallArgs::Message {
                comm,
                source: source.peer(),
                tag,
            }),
            Packed::Exchange {
                name,
                comm,
                dest,
                source,
                send_tag,
                recv_tag,
                bytes,
            } => name.call(CallArgs::Exchange {
                comm,
                dest: dest.peer(),
                send_tag,
                source: source.peer(),
                recv_tag,
                bytes: bytes.bytes(),
            }),
            Packed::Copy { name, comm, new } => name.call(CallArgs::Copy { comm, new }),
            Packed::Split {
                name,
                comm,
                colour,
                key,
                new,
            } => name.call(CallArgs::Split {
                comm,
                colour,
                key,
                new,
            }),
            _ => return None,
        };
        Some(call)
    }

    /// What a call of a name does over its communicator; nothing for every other call.
    fn plain_effect(&self) -> Effect
        ensures { result ≡ effect_of (unwrap_or (plain_of self.now) Finalize) }
    {
        match self.plain() {
            Some(call) => call.effect(),
            None => Effect::Local,
        }
    }

    /// What the call does over its communicator.
    #[inline(always)]
    pub(crate) fn effect(&self) -> Effect
        ensures { (entries : List Entry) (starts : List ℕ) → result ≡ effect_of (unpack entries starts self.now) }
    {
        match *self {
            Packed::Send {
                comm,
                dest,
                tag,
                ..
            }
            | Packed::Isend {
                comm,
                dest,
                tag,
                ..
            } => Effect::sends(comm, dest.peer(), tag),
            Packed::Recv { comm, source, tag }
            | Packed::Irecv {
                comm,
                source,
                tag,
                ..
            } => Effect::receives(comm, source.peer(), tag),
            Packed::Coll { comm, kind } | Packed::Icoll { comm, kind, .. } => Effect::Joins {
                comm,
                root: root_of(kind),
                made: None,
            },
            Packed::Wait { .. } | Packed::Waitall { .. } | Packed::Waitany { .. } => Effect::Local,
            // Taken apart and put together, so that what the other arms answer needs no place in memory.
            _ => match self.plain_effect() {
                Effect::PointToPoint {
                    comm,
                    sent,
                    received,
                    probed,
                } => Effect::PointToPoint {
                    comm,
                    sent,
                    received,
                    probed,
                },
                Effect::Joins { comm, root, made } => Effect::Joins { comm, root, made },
                Effect::Local => Effect::Local,
            },
        }
    }

    /// The request that the call starts, if it starts one.
    #[inline(always)]
    pub(crate) fn starts(&self) -> Option<u32>
        ensures value { result ≡ request_of self.now }
        ensures call { (entries : List Entry) (places : List ℕ) → result ≡ starts (unpack entries places self.now) }
    {
        match *self {
            Packed::Isend { req, .. } | Packed::Irecv { req, .. } | Packed::Icoll { req, .. } => {
                Some(req)
            }
            _ => None,
        }
    }
}
