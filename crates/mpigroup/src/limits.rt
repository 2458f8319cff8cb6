//! The limits of a head. The definitions give them in numbers; a law says that these are the same.

ghost use Rattle.mpigroup.specs.HeadText.{TheLimitsOfAHead};

use mpicall::limits::{GREATEST_COMM, GREATEST_RANK};

/// The most ranks of a run.
pub const MOST_RANKS: u16 = GREATEST_RANK + 1;

/// The most communicators of a run, the world counted. A head has a line for each.
pub const MOST_COMMS: u16 = GREATEST_COMM + 1;

/// The most bytes of a head's line, its line feed counted.
pub const MOST_HEAD_LINE_BYTES: usize = 4096;

/// So many bytes of a text decide what it says, or all where it has fewer: all lines that a head may
/// have, at their greatest length, and one byte that shows whether there is a further one.
pub const DECIDING_BYTES: usize = MOST_COMMS as usize * MOST_HEAD_LINE_BYTES + 1;

/// The limits are those that the definitions give in numbers. A law: it does nothing.
pub fn the_limits_of_a_head()
    ensures { TheLimitsOfAHead }
{}
