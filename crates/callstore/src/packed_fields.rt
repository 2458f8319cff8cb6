//! A peer in 2 bytes, and the bytes of a message in 4, so that a packed call stays small. Contracts see the peer
//! and the bytes themselves.

ghost use Rattle.std.specs.Prelude.{◌≡◌, ◌<◌, IfSome};
ghost use Rattle.callstore.specs.inner.PackedFields.{no_bytes, FitsPeer};

use mpicall::call::Peer;
use std::marker::Model;

/// A peer in 2 bytes: a rank of a group, or MPI_PROC_NULL.
#[derive(Clone, Copy)]
pub(crate) struct PackedPeer {
    rank: u16,
}

impl Model for PackedPeer {
    ghost use Rattle.mpicall.specs.declared.call.Peer.{Peer};
    ghost use Rattle.callstore.specs.inner.PackedFields.{peer_at, rank_of};

    ghost Value = { Peer };

    ghost view = { λ p. peer_at p.rank };

    ghost inverse = { λ peer. record { rank = rank_of peer } };
}

const NO_RANK: u16 = 65535;

impl PackedPeer {
    /// Packs a peer.
    pub(crate) fn of(peer: Peer) -> PackedPeer
        requires { FitsPeer peer }
        ensures { result ≡ peer }
    {
        match peer {
            Peer::Rank(rank) => PackedPeer { rank },
            Peer::Null => PackedPeer { rank: NO_RANK },
        }
    }

    /// The peer.
    pub(crate) fn peer(&self) -> Peer
        ensures { result ≡ self.now }
    {
        if self.rank == NO_RANK {
            Peer::Null
        } else {
            Peer::Rank(self.rank)
        }
    }
}

/// How many bytes a message has, where its call says so, in 4 bytes.
#[derive(Clone, Copy)]
pub(crate) struct PackedBytes {
    count: u32,
}

impl Model for PackedBytes {
    ghost use Rattle.std.specs.Prelude.{Option, ℕ};
    ghost use Rattle.callstore.specs.inner.PackedFields.{bytes_at, count_of};

    ghost Value = { Option ℕ };

    ghost view = { λ b. bytes_at b.count };

    ghost inverse = { λ bytes. record { count = count_of bytes } };
}

impl PackedBytes {
    /// Packs bytes.
    pub(crate) fn of(bytes: Option<u32>) -> PackedBytes
        requires { IfSome bytes (λ count. count < no_bytes) }
        ensures { result ≡ bytes }
    {
        PackedBytes {
            count: bytes.unwrap_or(u32::MAX),
        }
    }

    /// The bytes.
    pub(crate) fn bytes(&self) -> Option<u32>
        ensures { result ≡ self.now }
    {
        if self.count == u32::MAX {
            None
        } else {
            Some(self.count)
        }
    }
}
