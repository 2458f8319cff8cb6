//! How the walk from rank to rank goes on.

/// Where the walk to a cause goes on from a rank that waits.
#[derive(Clone, Copy, PartialEq, Eq)]
pub enum NextHop {
    /// To the rank that it waits for.
    To { rank: u16 },
    /// Nowhere: this rank lacks the call that it waits for.
    Lacks { rank: u16 },
    /// Nowhere: nobody may send the message that it waits for.
    Nobody,
}
