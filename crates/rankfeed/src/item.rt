//! What a feed carries: the records of its rank, and after them one end mark.

ghost use Rattle.std.specs.Prelude.{◌≡◌, Some};
ghost use Rattle.rankfeed.specs.Items.{mark_in};

use mpicall::fault::Ending;
use mpicall::record::Record;

/// One item of a feed.
#[derive(Clone, Copy)]
pub enum Item {
    Entry(Record),
    Mark(Ending),
}

impl Item {
    /// The end mark, where the item is one.
    pub fn mark(&self) -> Option<Ending>
        ensures { result ≡ mark_in (Some self.now) }
    {
        match *self {
            Item::Entry(_) => None,
            Item::Mark(end) => Some(end),
        }
    }
}
