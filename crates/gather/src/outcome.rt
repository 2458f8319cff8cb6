//! What comes of a run whose records were all received, or why nothing does.

ghost use Rattle.std.specs.Prelude.{◌≡◌, ◌↔◌, false, IfOk, IfErr};
ghost use Rattle.callstore.specs.Recordings.{IsClosed};
ghost use Rattle.waitgraph.specs.Held.{is_some_left_open};
ghost use Rattle.waitgraph.specs.Verdicts.{IsVerdictOf, SomeRankIsStuck};
ghost use Rattle.waitgraph.specs.declared.verdict.Verdict.TheVariants.{Hang};
ghost use Rattle.waitgraph.specs.Graphs.{IsGraphOf};
ghost use Rattle.gather.specs.declared.outcome.CloseFault.TheVariants.{Memory};

use crate::fault::Refusal;
use moves::analyser::Analyser;
use std::alloc::Global;
use std::marker::Model;
use thiserror::Error;
use waitgraph::graph::Graph;
use waitgraph::verdict::Verdict;

/// Why a session has no outcome.
#[derive(Clone, Copy, Debug, PartialEq, Eq, Error)]
pub enum CloseFault {
    #[error("memory")]
    Memory,
    /// The lowest rank without a receipt.
    #[error("rank {0} has no receipt")]
    Unproved(u16),
    /// The refusal of the lowest rank that has a fault.
    #[error("{0}")]
    Refused(Refusal),
}

/// What is said of a run whose calls were all accepted. Each rank's last call is its end record, and none comes
/// after that. Contracts see what its analyser has.
pub struct Outcome {
    analyser: Analyser,
    graph: Graph,
}

// By hand: a derived drop is proved again at each exit of a function that owns one.
impl Drop for Outcome {
    fn drop(self) {
        let Outcome {
            analyser: _,
            graph: _,
        } = self;
    }
}

impl Model for Outcome {
    ghost use Rattle.callstore.specs.Recordings.{IsClosed};
    ghost use Rattle.moves.specs.Analysed.{Analysed};
    ghost use Rattle.waitgraph.specs.inner.Graphs.{IsGraphBy};

    ghost Value = { Analysed };

    ghost view = { λ o. o.analyser };

    ghost invariant = { λ o. ∥ IsClosed o.analyser.recording ∥₁ × IsGraphBy o.analyser.reading o.analyser.groups o.analyser.recording o.graph };
}

impl Outcome {
    /// The outcome of these calls. It takes memory for the wait graph.
    pub(crate) fn of(alloc: Global, analyser: Analyser) -> Result<Outcome, CloseFault>
        requires { IsClosed analyser.recording }
        ensures ok { IfOk result (λ outcome. outcome ≡ analyser) }
        ensures fault { IfErr result (λ fault. fault ≡ Memory) }
    {
        match Graph::of(alloc, &analyser) {
            Ok(graph) => Ok(Outcome { analyser, graph }),
            Err(_) => Err(CloseFault::Memory),
        }
    }

    /// Whether the run can hang: exactly if some rank is held. Where no list was left open, that is so exactly if
    /// some rank is stuck.
    pub fn verdict(&self) -> Verdict
        ensures value { IsVerdictOf self.now.reading self.now.groups self.now.recording result }
        ensures closed { is_some_left_open self.now.recording ≡ false → (result ≡ Hang) ↔ SomeRankIsStuck self.now.reading self.now.groups self.now.recording }
    {
        self.graph.verdict()
    }

    /// The calls of all ranks.
    pub fn analyser(&self) -> &Analyser
        ensures { result.now ≡ self.now }
    {
        &self.analyser
    }

    /// Who waits for whom, and why.
    pub fn graph(&self) -> &Graph
        ensures { IsGraphOf self.now.reading self.now.groups self.now.recording result.now }
    {
        &self.graph
    }
}
