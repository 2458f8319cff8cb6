//! From journals to a verdict: the report of the recording that the journals of a run are, and that recording
//! as files.
//!
//! What it promises, as contracts that are proved, by definitions of `specs/`:
//!
//! - `judge::judge` writes the report of the recording that the journals' texts stand for, by what is known of pending
//!   calls and sinks, and answers its verdict; or the first fault of the journals, or of a cut that isn't clean
//!   (`Judging`). Where it is asked for, the report says which ranks are held, among those that are asked for
//!   (`HeldSaid`).
//! - `close::close` writes that recording as a head and a trace for each rank (`Closing`).
//! - `read::read_journals` answers the lines of all journals, or the first fault of the lowest rank.
#![tactic(auto)]

pub mod close;
mod head;
mod held;
pub mod judge;
mod known;
pub mod read;
mod reported;
mod spots;
mod turns;
pub mod under_way;
