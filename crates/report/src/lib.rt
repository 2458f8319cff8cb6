//! The report of a run, as text or as JSON. Its lists may be open, and pending calls known.
//!
//! What it promises, as contracts that are proved, by definitions of `specs/`:
//!
//! - `write::write_report` writes exactly the report of a recording, as text or as JSON (`TextReport`,
//!   `JsonReport`, `Reports`): the verdict, who waits for whom where the ranks stand, the causes and the
//!   findings, as the crates `waitgraph` and `findings` define them.
//! - Where a write fails, what was written before is a prefix of that report. Lack of memory is
//!   answered for JSON alone, and then nothing was written.
//!
//! `pending::write_pending` writes the report of journals where it is known in which calls ranks were (`PendingReport`).
//! `finding::push_finding` has the one text of a finding (`FindingTexts`).
//!
//! What only proofs and private contracts cite is in `specs/inner/`, and nobody has to believe it.
//!
//! ```text
//! let graph = Graph::of(alloc, &analyser)?;
//! write_report(alloc, &analyser, &graph, Format::Text, &mut output)?;
//! ```
#![tactic(auto)]

pub mod finding;
mod json;
pub mod judged;
pub mod pending;
mod stand;
pub mod write;
