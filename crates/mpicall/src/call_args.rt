//! The calls that are no operation and no wait: a name, and what follows it, by the layout of the name.

ghost use Rattle.std.specs.Prelude.{◌≡◌, IfSome, Some, unwrap_or};
ghost use Rattle.mpicall.specs.CallArgs.{call_args_of, call_by};
ghost use Rattle.mpicall.specs.declared.call.Call.TheVariants.{Recv};
ghost use Rattle.mpicall.specs.declared.call.Peer.TheVariants.{Null};

use crate::call::{Call, Peer};
use crate::word::Name;

/// What follows the name of such a call: a variant for each layout that such names have.
#[derive(Clone, Copy, PartialEq, Eq)]
pub enum CallArgs {
    Nothing,
    Message {
        comm: u16,
        source: Peer,
        tag: u32,
    },
    Exchange {
        comm: u16,
        dest: Peer,
        send_tag: u32,
        source: Peer,
        recv_tag: u32,
        bytes: Option<u32>,
    },
    Copy {
        comm: u16,
        new: u16,
    },
    Split {
        comm: u16,
        colour: Option<u32>,
        key: i32,
        new: Option<u16>,
    },
}

impl Call {
    /// The name of the call and what follows it; None for an operation and a wait.
    #[inline(always)]
    pub fn call_args(&self) -> Option<(Name, CallArgs)>
        ensures value { result ≡ call_args_of self.now }
        ensures back { IfSome result (λ it. call_by it.0 it.1 ≡ Some self.now) }
    {
        match *self {
            Call::Sendrecv {
                comm,
                dest,
                send_tag,
                source,
                recv_tag,
                bytes,
            } => Some((
                Name::Sendrecv,
                CallArgs::Exchange {
                    comm,
                    dest,
                    send_tag,
                    source,
                    recv_tag,
                    bytes,
                },
            )),
            Call::Dup { comm, new } => Some((Name::Dup, CallArgs::Copy { comm, new })),
            Call::Split {
                comm,
                colour,
                key,
                new,
            } => Some((
                Name::Split,
                CallArgs::Split {
                    comm,
                    colour,
                    key,
                    new,
                },
            )),
            Call::Probe { comm, source, tag } => {
                Some((Name::Probe, CallArgs::Message { comm, source, tag }))
            }
            Call::Finalize => Some((Name::Finalize, CallArgs::Nothing)),
            Call::Open => Some((Name::Open, CallArgs::Nothing)),
            _ => None,
        }
    }
}

impl Name {
    /// The call of the name and what follows it; a receive from nobody where they don't go together.
    #[inline(always)]
    pub fn call(self, call_args: CallArgs) -> Call
        ensures { result ≡ unwrap_or (call_by self call_args) (Recv 0 Null 0) }
    {
        match (self, call_args) {
            (
                Name::Sendrecv,
                CallArgs::Exchange {
                    comm,
                    dest,
                    send_tag,
                    source,
                    recv_tag,
                    bytes,
                },
            ) => Call::Sendrecv {
                comm,
                dest,
                send_tag,
                source,
                recv_tag,
                bytes,
            },
            (Name::Dup, CallArgs::Copy { comm, new }) => Call::Dup { comm, new },
            (
                Name::Split,
                CallArgs::Split {
                    comm,
                    colour,
                    key,
                    new,
                },
            ) => Call::Split {
                comm,
                colour,
                key,
                new,
            },
            (Name::Probe, CallArgs::Message { comm, source, tag }) => Call::Probe {
                comm,
                source,
                tag,
            },
            (Name::Finalize, CallArgs::Nothing) => Call::Finalize,
            (Name::Open, CallArgs::Nothing) => Call::Open,
            _ => Call::Recv {
                comm: 0,
                source: Peer::Null,
                tag: 0,
            },
        }
    }
}
