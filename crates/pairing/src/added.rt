//! What the adding of a call makes known, and why a call is refused.

use crate::fault::CallFault;
use thiserror::Error;

/// The wave that a call joins: its communicator, its number from 0, and whether each member of the
/// communicator has its call of the wave.
#[derive(Clone, Copy, PartialEq, Eq)]
pub struct Joined {
    pub comm: u16,
    pub wave: u32,
    pub is_full: bool,
}

/// What the adding of a call made known: for each of its halves the rank and place of the partner, if it
/// has one already, and the wave that the call joins.
#[derive(Clone, Copy, PartialEq, Eq)]
pub struct Added {
    pub send: Option<(u16, u32)>,
    pub recv: Option<(u16, u32)>,
    pub wave: Option<Joined>,
}

/// Why a call was not added.
#[derive(Clone, Copy, Debug, PartialEq, Eq, Error)]
pub enum PairFault {
    #[error("{0}")]
    Refused(CallFault),
    #[error("memory")]
    Memory,
}
