//! The limits of a trace. The definitions give them in numbers; a law says that these are the same.

ghost use Rattle.mpicall.specs.Limits.{TheLimitsOfATrace};

/// The greatest communicator number; 0 is the world.
pub const GREATEST_COMM: u16 = 4095;

/// The greatest rank of a run.
pub const GREATEST_RANK: u16 = 1023;

/// The greatest tag of a message.
pub const GREATEST_TAG: u32 = 2_147_483_647;

/// The greatest number of a request.
pub const GREATEST_REQUEST: u32 = 2_147_483_647;

/// The greatest number of bytes of a message.
pub const GREATEST_BYTES: u32 = 2_147_483_647;

/// The greatest colour of a split.
pub const GREATEST_COLOUR: u32 = 2_147_483_647;

/// The greatest key of a split; the least is one below its negative.
pub const GREATEST_KEY: u32 = 2_147_483_647;

/// The most requests that one wait names.
pub const MOST_REQUESTS: usize = 64;

/// The most bytes of a trace's line, its line feed counted.
pub const MOST_LINE_BYTES: usize = 1024;

/// The limits are those that the definitions give in numbers. A law: it does nothing.
pub fn the_limits_of_a_trace()
    ensures { TheLimitsOfATrace }
{}
