//! How far a check is, shown by a thread while another one checks.
//!
//! What it promises, as contracts that are proved:
//!
//! - `tracker::Tracker` is handed the analyser of a check now and then. It gets it by a shared reference and gives
//!   nothing back, so no answer depends on it. `Untracked` does nothing.
//! - `publishing::Publishing` publishes where the ranks stand, by the crate `watches`.
//! - `viewer::Viewer` reads a watch, and each update is one write of the line of stands that were published. No rank
//!   stands lower there than in the line before.
//! - `gauge::Gauge` is what both threads share: how much was read of the files, and whether the check has ended.
//!
//! The definitions are in `specs/`: `Lines` says what the line of some stands is, and `Updates` what an update writes.
#![tactic(auto)]

pub mod gauge;
pub mod line;
pub mod publishing;
pub mod tracker;
pub mod viewer;
