//! What a call does over its communicator.

ghost use Rattle.std.specs.Prelude.{◌≡◌, Some, None};
ghost use Rattle.mpicall.specs.Effect.{effect_of};

use crate::call::{Call, Peer};
use crate::word::root_of;

/// What a call says of one of its messages besides the communicator: who is at the other end, and the tag.
#[derive(Clone, Copy, PartialEq, Eq)]
pub struct Side {
    pub peer: Peer,
    pub tag: u32,
}

/// What a call does over a communicator, whether it waits for that itself or only starts it.
#[derive(Clone, Copy, PartialEq, Eq)]
pub enum Effect {
    /// It sends a message, receives one, or waits for one that it doesn't take; MPI_Sendrecv does two of these.
    PointToPoint {
        comm: u16,
        sent: Option<Side>,
        received: Option<Side>,
        probed: Option<Side>,
    },
    /// All members make it: with a root, if it has one, and with the communicator that it makes, if it makes one.
    Joins {
        comm: u16,
        root: Option<u16>,
        made: Option<u16>,
    },
    /// It names no communicator.
    Local,
}

impl Effect {
    /// It sends a message.
    #[inline(always)]
    pub fn sends(comm: u16, peer: Peer, tag: u32) -> Effect
        ensures { result ≡ Effect.PointToPoint comm (Some (record { peer = peer; tag = tag })) None None }
    {
        Effect::PointToPoint {
            comm,
            sent: Some(Side { peer, tag }),
            received: None,
            probed: None,
        }
    }

    /// It receives a message.
    #[inline(always)]
    pub fn receives(comm: u16, peer: Peer, tag: u32) -> Effect
        ensures { result ≡ Effect.PointToPoint comm None (Some (record { peer = peer; tag = tag })) None }
    {
        Effect::PointToPoint {
            comm,
            sent: None,
            received: Some(Side { peer, tag }),
            probed: None,
        }
    }
}

impl Call {
    /// What the call does.
    #[inline(always)]
    pub fn effect(&self) -> Effect
        ensures { result ≡ effect_of self.now }
    {
        match *self {
            Call::Send {
                comm,
                dest,
                tag,
                ..
            }
            | Call::Isend {
                comm,
                dest,
                tag,
                ..
            } => Effect::sends(comm, dest, tag),
            Call::Recv { comm, source, tag }
            | Call::Irecv {
                comm,
                source,
                tag,
                ..
            } => Effect::receives(comm, source, tag),
            Call::Sendrecv {
                comm,
                dest,
                send_tag,
                source,
                recv_tag,
                ..
            } => Effect::PointToPoint {
                comm,
                sent: Some(Side {
                    peer: dest,
                    tag: send_tag,
                }),
                received: Some(Side {
                    peer: source,
                    tag: recv_tag,
                }),
                probed: None,
            },
            Call::Probe { comm, source, tag } => Effect::PointToPoint {
                comm,
                sent: None,
                received: None,
                probed: Some(Side { peer: source, tag }),
            },
            Call::Coll { comm, kind } | Call::Icoll { comm, kind, .. } => Effect::Joins {
                comm,
                root: root_of(kind),
                made: None,
            },
            Call::Dup { comm, new } => Effect::Joins {
                comm,
                root: None,
                made: Some(new),
            },
            Call::Split { comm, new, .. } => Effect::Joins {
                comm,
                root: None,
                made: new,
            },
            _ => Effect::Local,
        }
    }
}
