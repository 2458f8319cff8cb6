//! How far the source of a rank was read, while those of other ranks are read in between.

ghost use Rattle.std.specs.Prelude.{◌≡◌};
ghost use Rattle.driver.specs.inner.Turns.{first_turn};

/// The number of the next record of a rank's source, whether the last record ended the list, and whether the source
/// has ended. The source itself stays in the list of all sources.
#[derive(Clone, Copy)]
pub(crate) struct Turn {
    pub(crate) line: u32,
    pub(crate) done: bool,
    pub(crate) over: bool,
}

impl Turn {
    /// The turn of a source of which nothing was read.
    pub(crate) fn first() -> Turn
        ensures { result ≡ first_turn }
    {
        Turn {
            line: 0,
            done: false,
            over: false,
        }
    }
}
