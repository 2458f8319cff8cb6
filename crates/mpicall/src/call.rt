//! The recorded calls of a rank: one variant a shape of MPI call, one record a call.

use crate::reqs::Reqs;

/// The other end of a point-to-point call.
#[derive(Clone, Copy, PartialEq, Eq)]
pub enum Peer {
    /// A rank of the communicator's group.
    Rank(u16),
    /// MPI_PROC_NULL: the call is done at once and meets nobody (MPI 4.0, section 3.11).
    Null,
}

/// How a send completes (MPI 4.0, section 3.4).
#[derive(Clone, Copy, PartialEq, Eq)]
pub enum Mode {
    Standard,
    Synchronous,
    Buffered,
}

/// A collective operation over a communicator (MPI 4.0, chapter 6); the rooted ones name the root's
/// rank in the communicator's group.
#[derive(Clone, Copy, PartialEq, Eq)]
pub enum Kind {
    Barrier,
    Bcast(u16),
    Gather(u16),
    Scatter(u16),
    Reduce(u16),
    Allgather,
    Alltoall,
    Allreduce,
    Scan,
    Exscan,
}

/// One MPI call with its recorded arguments. `comm` is a communicator of the run's head, with 0 the
/// world; `dest` and `source` are ranks of that communicator's group; tags are those of messages; `req`
/// and `reqs` are numbers that the recorder gave to requests.
#[derive(Clone, Copy, PartialEq, Eq)]
pub enum Call {
    /// `bytes` is how many bytes the message has, where a standard send says it.
    Send {
        mode: Mode,
        comm: u16,
        dest: Peer,
        tag: u32,
        bytes: Option<u32>,
    },
    Recv {
        comm: u16,
        source: Peer,
        tag: u32,
    },
    /// A send that is started, and completed by a wait for its request (MPI 4.0, section 3.7).
    Isend {
        req: u32,
        mode: Mode,
        comm: u16,
        dest: Peer,
        tag: u32,
        bytes: Option<u32>,
    },
    /// A receive that is started, and completed by a wait for its request.
    Irecv {
        req: u32,
        comm: u16,
        source: Peer,
        tag: u32,
    },
    Sendrecv {
        comm: u16,
        dest: Peer,
        send_tag: u32,
        source: Peer,
        recv_tag: u32,
        bytes: Option<u32>,
    },
    /// MPI_Probe: it waits for the message that the next receive would take.
    Probe {
        comm: u16,
        source: Peer,
        tag: u32,
    },
    Wait {
        req: u32,
    },
    Waitall {
        reqs: Reqs,
    },
    /// MPI_Waitany: it completed the request at index `chosen` of the list, counted from 0.
    Waitany {
        chosen: u8,
        reqs: Reqs,
    },
    Coll {
        comm: u16,
        kind: Kind,
    },
    /// A collective that is started, and completed by a wait for its request (MPI 4.0, section 6.12).
    Icoll {
        req: u32,
        comm: u16,
        kind: Kind,
    },
    /// MPI_Comm_dup: the new communicator has the number `new`.
    Dup {
        comm: u16,
        new: u16,
    },
    /// MPI_Comm_split: no colour stands for MPI_UNDEFINED, which gives no new communicator.
    Split {
        comm: u16,
        colour: Option<u32>,
        key: i32,
        new: Option<u16>,
    },
    Finalize,
    /// What came after was not recorded: the list is left open.
    Open,
}

impl Call {
    ghost use Rattle.std.specs.Prelude.{◌≡◌};
    ghost use Rattle.mpicall.specs.Ending.{ends_list};

    /// Whether no call of the rank comes after this one.
    pub fn ends_list(&self) -> bool
        ensures { result ≡ ends_list self.now }
    {
        match *self {
            Call::Finalize | Call::Open => true,
            _ => false,
        }
    }
}
