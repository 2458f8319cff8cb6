//! Tests of the crates that judge runs, through their public calls, of what no row of text can say: memory that is
//! refused, sessions, watches, and whole runs over threads and by turns.
//!
//! They are in a crate of their own, so that those crates are proved once, and not again with their tests.
#![tactic(auto)]

#[cfg(test)]
mod feeding;
#[cfg(test)]
mod kept;
#[cfg(test)]
mod opened;
#[cfg(test)]
mod pairs;
#[cfg(test)]
mod sessions;
#[cfg(test)]
mod stands;
#[cfg(test)]
mod watching;
#[cfg(test)]
mod whole_runs;
