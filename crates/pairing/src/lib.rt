//! What the calls of a run mean for one another: which send goes with which receive, which call started a
//! request, which collectives belong together, and which calls a rank may not make.
//!
//! What it promises, as contracts that are proved, by definitions of `specs/` and of `callstore`:
//!
//! - `pairs::Pairs` has the calls of all ranks, added one by one. `add` refuses a call exactly where it has a
//!   fault after its rank's calls before it (`Faults`), with the first one, or where memory runs out, and
//!   then nothing has changed. Else it answers the partners and the wave of the call (`Pairs`).
//! - `partner` answers the partner of a half of a call (`Partners`): the first send of an envelope goes with
//!   its first receive, the second with the second, in whatever form each is called. `wave_of` answers the
//!   wave that a collective joins, and `member` a member's call in a wave (`Waves`): blocking and nonblocking
//!   ones count together. `started` and `completed` answer the call that started a request which a wait
//!   names, or completes (`Requests`). `probed` answers the send that a probe sees (`Probed`): the one that
//!   the next receive of its envelope takes. `has_unreceived`, `may_have_active` and `has_made` answer by the
//!   tables alone where no message waits for its receive, no request is active and no communicator was made.
//! - `left_open::is_left_open` answers whether a rank's list was left open (`LeftOpen`).
//! - Laws, each on a function that does nothing: partners are mutual, no two sends have one receive, and
//!   messages of one envelope do not overtake; in a list without faults each request that a wait names has its
//!   start, and no request is started while it is active; partners and what probes see stay as a recording goes on.
//!
//! What a call means by itself, and how it is kept, is the matter of `callstore`. The definitions are in
//! `specs/`, to be read in the order of docs/DEFINITIONS.md. What only proofs and private contracts cite is
//! in `specs/inner/`, and nobody has to believe it.
//!
//! No look-up takes memory or goes through a list of calls: that is seen in the code alone.
//!
//! Each collective has 4 bytes in the table of waves. There each rank has a list for the world, and one for each
//! other communicator on which it has called a collective, so that the table follows the run and not its head. A
//! probe has an entry in a table of its own, which leads to its seat: there the place of the next receive is kept.
//! Only the halves that have no partner yet are in an arena of lists, and `work` counts what was done there: 1 for
//! each half.
//!
//! ```text
//! let mut pairs = Pairs::new(alloc, head)?;
//! pairs.add(0, 0, &isend)?;                               // rank 0: isend 7 0 1 5
//! pairs.add(1, 0, &recv)?.recv == Some((0, 0))            // rank 1: recv 0 0 5
//! pairs.partner(0, 0, Half::Send) == Some((1, 0))
//! pairs.add(0, 1, &wait)?;                                // rank 0: wait 7
//! pairs.started(0, 1, 7) == Some(0)
//! ```
#![tactic(auto)]

mod active;
pub mod added;
pub mod call_at;
mod envelope_index;
pub mod fault;
mod first_fault;
mod kept;
pub mod left_open;
mod made_comms;
mod matches;
mod meeting;
pub mod pairs;
pub mod partner;
pub mod probed;
mod probes;
mod probing;
mod tables;
mod waves;
