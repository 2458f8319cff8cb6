//! The limits of a journal. The definitions give them in numbers; a law says that these are the same.

ghost use Rattle.journals.specs.Limits.{TheLimitsOfAJournal};

/// The most bytes of a journal's line, its line feed counted.
pub const MOST_LINE_BYTES: usize = 32_768;

/// The most ranks of a run.
pub const MOST_RANKS: u32 = 1024;

/// The greatest number of a request, a message or a communicator, of bytes and of a site.
pub const GREATEST: u32 = 2_147_483_647;

/// The limits are those that the definitions give in numbers. A law: it does nothing.
pub fn the_limits_of_a_journal()
    ensures { TheLimitsOfAJournal }
{}
