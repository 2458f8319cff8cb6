//! The unmet needs of all ranks, kept in one list.

ghost use Rattle.std.specs.Prelude.{◌≡◌, [], ◌∷◌, ◌++◌, OnOk};
ghost use Rattle.waitgraph.specs.Waits.{needs_in};

use moves::need::Need;
use std::alloc::{AllocError, Global};
use std::marker::Model;

/// Where the needs of a rank are among those of all.
#[derive(Clone, Copy)]
struct Span {
    start: usize,
    end: usize,
}

/// What each rank waits for. Contracts see a list of needs for each rank. All needs are in one list, so that they
/// take no more room than their own.
pub(crate) struct Waits {
    needs: Vec<Need>,
    spans: Vec<Span>,
}

// By hand: a derived drop is proved again at each exit of a function that owns one.
impl Drop for Waits {
    fn drop(self) {
        let Waits { needs: _, spans: _ } = self;
    }
}

impl Model for Waits {
    ghost use Rattle.std.specs.Prelude.{List, length, map};
    ghost use Rattle.std.specs.List.{All};
    ghost use Rattle.moves.specs.declared.need.Need.{Need};
    ghost use Rattle.waitgraph.specs.inner.Spans.{needs_at, LiesWithin};

    ghost Value = { List (List Need) };

    ghost view = { λ w. map (needs_at w.needs.items) w.spans.items };

    ghost invariant = { λ w. All (LiesWithin (length w.needs.items)) w.spans.items };
}

impl Waits {
    /// No rank yet.
    pub(crate) fn new(alloc: Global) -> Waits
        ensures { result ≡ [] }
    {
        Waits {
            needs: Vec::new(alloc),
            spans: Vec::new(alloc),
        }
    }

    /// Puts in what the next rank waits for.
    pub(crate) fn push(&mut self, needs: &[Need]) -> Result<(), AllocError>
        ensures { OnOk result (self.new ≡ self.old ++ needs.now ∷ []) }
    {
        let start = self.needs.len();
        self.needs.extend_from_slice(needs)?;
        let end = self.needs.len();
        self.spans.push(Span { start, end })?;
        Ok(())
    }

    /// What a rank waits for; nothing where there is no such rank.
    pub(crate) fn get(&self, rank: u16) -> &[Need]
        ensures { result.now ≡ needs_in self.now rank }
    {
        match self.spans.get(usize::from(rank)) {
            Some(span) => &self.needs[span.start..span.end],
            None => &[],
        }
    }
}
