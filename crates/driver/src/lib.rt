//! The report of a run over the sources of its ranks.
//!
//! `run::run` reads one source a rank, all at once and each by a thread of its own, and writes the report of
//! the run: whether some rank is held, so that it can't reach its end record, whatever way the run goes.
//! `run::run_by` does the same, or reads the sources by turns in one thread, with no feed between. `texts::run_texts`
//! runs over texts in memory, of which no clause asks whether inputs know their bytes.
//!
//! What it promises, as contracts that are proved:
//!
//! - At Ok, where the sources' inputs know their bytes, no rank had a fault, and the verdict is that of the
//!   traces that these bytes hold by definition. It is `Hang` exactly if some rank is held; where no list was
//!   left open, exactly if some rank comes to its Finalize in no run over them.
//! - The output then has the report of these traces, in the format that was asked for.
//! - At a refusal nothing was written. Where the bytes are known, no lower rank has a fault, and the place
//!   and the fault are that rank's first by definition, unless the fault is one of a read, the gate or a
//!   thread.
//! - The gate was asked of each line that was read.
//! - A write that failed is reported only where that device's count of failures rose.
//!
//! By threads it uses the sessions of the crate `gather`; `threads` feeds one from a source by a thread for
//! each rank. By turns each record goes straight to what a session keeps.
//!
//! The definitions are in `specs/`: `VerdictContract` says what an answer says where the inputs know their bytes,
//! `OutputContract` what was written then, `Runs` what a run answers by what was read, `Texts` what it answers over
//! texts. What only proofs and private contracts cite is in `specs/inner/`, and nobody has to believe it.
//!
//! ```text
//! let head = Head::read(alloc, b"ranks 1\n")?;
//! let sources = vec![in alloc; Source::new(MemoryInput::new(b"finalize\n"))]?;
//! let verdict = run(alloc, head, Reading::Strict, sources, 64, &OpenGate, Format::Text, &mut output, &rt)?;
//! ```
#![tactic(auto)]

mod poll;
mod round_robin;
pub mod run;
pub mod texts;
mod threaded;
pub mod threads;
mod turn;
