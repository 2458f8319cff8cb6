//! Why ranks can't move on.

/// Why some ranks can't move on: ranks that wait for each other in a ring, a call that a rank waits for and that its
/// peer never makes, or a message that nobody may send.
#[derive(PartialEq, Eq, Drop)]
pub enum Cause {
    /// The ranks, each of which waits for the next and the last for the first, from the lowest on.
    Cycle(Vec<u16>),
    /// `rank` waits for a call that `peer` lacks.
    Missing { rank: u16, peer: u16 },
    /// `rank` waits for a message that nobody may send.
    Starved { rank: u16 },
}
