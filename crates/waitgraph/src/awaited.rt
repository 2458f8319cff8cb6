//! What a rank waits for that stands at its open.

use moves::need::Need;

/// What one of the items of a pending call waits for.
#[derive(Clone, Copy, PartialEq, Eq)]
pub enum Awaited {
    /// What a request needs.
    Call(Need),
    /// Any further call of the rank, or one that it hasn't reached: it may send a message.
    Rank { rank: u16 },
    /// A message that nobody may send.
    Nobody,
}
