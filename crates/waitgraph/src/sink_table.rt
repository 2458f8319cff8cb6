//! Sinks by their ranks.

ghost use Rattle.std.specs.Prelude.{◌≡◌, ◌≢◌, ◌==◌, ◌<◌, [], ◌∷◌, ◌++◌, if◌then◌else◌, ℕ, length, IfOk, OnOk};
ghost use Rattle.waitgraph.specs.inner.Buckets.{bucket};
ghost use Rattle.waitgraph.specs.inner.SinkTables.{HasThoseOf};

use crate::pending::Sink;
use std::alloc::{AllocError, Global};
use std::marker::Model;

/// Sinks, and those of each rank. Contracts see the sinks.
pub(crate) struct SinkTable<'a> {
    all: &'a [Sink],
    by_rank: Vec<Vec<Sink>>,
}

// By hand: a derived drop is proved again at each exit of a function that owns one.
impl<'a> Drop for SinkTable<'a> {
    fn drop(self) {
        let SinkTable { all: _, by_rank: _ } = self;
    }
}

impl<'a> Model for SinkTable<'a> {
    ghost use Rattle.std.specs.Prelude.{List};
    ghost use Rattle.waitgraph.specs.declared.pending.Sink.{Sink};
    ghost use Rattle.waitgraph.specs.inner.SinkTables.{AreByRank};

    ghost Value = { List Sink };

    ghost view = { λ t. t.all.now };

    ghost invariant = { λ t. AreByRank t.all.now t.by_rank.items };
}

/// No sinks yet, of so many ranks.
fn no_sinks(alloc: Global, ranks: u16) -> Result<Vec<Vec<Sink>>, AllocError>
    ensures { IfOk result (λ by_rank. (rank : ℕ) → bucket by_rank.items rank ≡ []) }
{
    let mut by_rank = Vec::new(alloc);
    for _rank in 0..ranks {
        by_rank.push(Vec::new(alloc))?;
    }
    Ok(by_rank)
}

/// Adds the sink to those of the rank.
fn put(by_rank: &mut Vec<Vec<Sink>>, rank: u16, sink: Sink) -> Result<(), AllocError>
    requires { rank < length by_rank.old.items }
    ensures len { length by_rank.new.items ≡ length by_rank.old.items }
    ensures own { OnOk result (bucket by_rank.new.items rank ≡ bucket by_rank.old.items rank ++ sink ∷ []) }
    ensures others { OnOk result ((other : ℕ) → other ≢ rank → bucket by_rank.new.items other ≡ bucket by_rank.old.items other) }
{
    let own = &mut by_rank[usize::from(rank)];
    own.push(sink)?;
    Ok(())
}

/// Adds the sink to those of its own rank, if there is such a rank.
fn add(by_rank: &mut Vec<Vec<Sink>>, sink: &Sink) -> Result<(), AllocError>
    ensures len { length by_rank.new.items ≡ length by_rank.old.items }
    ensures more { OnOk result ((rank : ℕ) → rank < length by_rank.old.items → bucket by_rank.new.items rank ≡ bucket by_rank.old.items rank ++ (if sink.now.rank == rank then sink.now ∷ [] else [])) }
{
    if usize::from(sink.rank) < by_rank.len() {
        put(by_rank, sink.rank, *sink)?;
    }
    Ok(())
}

impl<'a> SinkTable<'a> {
    /// The table of some sinks, in a run of so many ranks.
    pub(crate) fn new(
        alloc: Global,
        ranks: u16,
        all: &'a [Sink],
    ) -> Result<SinkTable<'a>, AllocError>
        ensures { IfOk result (λ table. table ≡ all.now) }
    {
        let mut by_rank = no_sinks(alloc, ranks)?;
        for sink in all {
            add(&mut by_rank, sink)?;
        }
        Ok(SinkTable { all, by_rank })
    }

    /// The sinks among which those of the rank are to be looked for: its own, or all where the run has no such rank.
    pub(crate) fn of(&self, rank: u16) -> &[Sink]
        ensures { HasThoseOf rank result.now self.now }
    {
        match self.by_rank.get(usize::from(rank)) {
            Some(own) => own.as_slice(),
            None => self.all,
        }
    }
}
