//! The program `mpiwait` over files in memory, whose texts are known. The program itself uses nothing of it.
//!
//! - `memory_files` has what opens such files and what makes the folder of a recording.
//! - `in_memory::program_in_memory` runs the program over them, and says whole how each command ends.
//! - `head_to_head::two_that_send_first` is one such run.
//!
//! The definitions are in `specs/`: `MemoryFiles` for the files, `InMemory` for a check and a lint,
//! `JournalsInMemory` for `judge` and `close`, `HeadToHead` for the run of two.
#![tactic(auto)]

pub mod head_to_head;
pub mod in_memory;
pub mod memory_files;
