//! Who waits for whom in a recorded run, and why. Lists may have been cut off, and then what is known of the calls that
//! ranks were in counts too.
//!
//! What it promises, as contracts that are proved, by definitions of `specs/`:
//!
//! - `graph::Graph::of` answers the stuck ranks of a closed recording, for each rank the needs of its present
//!   call that aren't met where the ranks stand, by rank and place and each once (`Stuck`), the held ranks,
//!   which are the greatest deadlocked set: each member waits for a member, or for a call that a rank lacks
//!   whose list ended (`Held`), and the causes: the cycles of held ranks that wait for each other, and the calls
//!   that a held rank waits for and its peer lacks for good (`Causes`).
//! - Each held rank stands where it does, whatever calls come in the place of an `open` (`Stays`).
//! - `Graph::verdict` answers the verdict: `Hang` exactly if some rank is held, else `Unfinished` if some list
//!   was left open (`Verdicts`). Where none was, exactly the stuck ranks are held.
//! - `graph::Graph::of_pending` answers the same where it is known in which calls ranks were when their lists were left
//!   open, and which receives a message may have met (`Pending`): the held ranks, which are the greatest set in which
//!   no rank may move on while all of them stay (`PendingHeld`), what those at their opens wait for (`PendingNeeds`),
//!   the causes (`PendingCauses`), the verdict (`PendingVerdicts`) and the findings (`PendingGraphs`). Where the sinks fit
//!   the calls, each held rank stands where it does, whether sinks are met or not and however pending calls come back
//!   (`PendingStays`). Where nothing of the kind is known it is the graph of `of`.
//! - Its findings are what else is wrong with the recording, as the crate `findings` defines them.
//! - Laws, each on a function that does nothing: the unmet needs are those needs of the present call that
//!   aren't met and no others; each stuck rank has one, no other rank has, and who is waited for at a place is
//!   stuck too; the held ranks are the greatest deadlocked set; a closed recording has one verdict and one list of
//!   causes; the walk from each held rank comes to a listed cause, each listed cause is the end of such a walk,
//!   and none is listed twice.
//!
//! What only proofs and private contracts cite is in `specs/inner/`, and nobody has to believe it.
//!
//! ```text
//! // rank 0: send 0 1 0 / recv 0 1 0 / finalize      rank 1: send 0 0 0 / recv 0 0 0 / finalize
//! let graph = Graph::of(alloc, &analyser)?;
//! graph.stuck() == [0, 1]
//! graph.unmet(0) == [Need::At { rank: 1, place: 1 }]
//! graph.causes() == [Cause::Cycle([0, 1])]
//! ```
#![tactic(auto)]

mod at_open;
pub mod awaited;
mod blocked;
pub mod cause;
mod disagreement;
mod free;
pub mod graph;
pub mod held;
pub mod loose;
mod may_move;
pub mod next_hop;
pub mod pending;
mod senders;
mod sink_table;
mod spares;
pub mod standing;
pub mod unmet;
pub mod verdict;
mod waits;
pub mod walk;
