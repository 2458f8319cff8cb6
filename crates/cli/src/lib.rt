//! The program `mpiwait` over any words, files and outputs: what its words ask for, the check, the lint, the
//! judgement or the closing that does it, its texts and its exit statuses.
//!
//! - `argv::run` runs it on the words of the process, in which a folder is replaced by its files and `--held=R,..` by
//!   an option for each rank, and gives what ends the process with the status.
//! - `program::program` runs it on words that are texts, and gives the status.
//! - `opener::Opener` is what opens the files that the words name, and `opener::Maker` what makes the folder of a
//!   recording; `opener::Disk` does both on the machine. The crate `cli_memory` has both in memory, where texts are known.
//!
//! What is on both outputs at the end, by the words and by the texts of the files, is the contract of
//! `program`; that of `argv::run` says the same of some words. The definitions are in `specs/`: `CommandLine` for
//! the words, `Options` for the options, `ExitContract` for the end, `Texts` and `Lints` for what a check and a lint
//! answer, `Journals` and `JournalFolders` for `judge` and `close`.
//! What only proofs and private contracts cite is in `specs/inner/`, and nobody has to believe it.
#![tactic(auto)]

pub mod argv;
pub mod capacity;
mod check;
pub mod command_line;
pub mod fault;
mod folder;
mod found;
mod held_words;
mod journal_folder;
pub mod limit;
mod lint;
mod manner;
mod measured;
mod number;
pub mod opener;
pub mod options;
pub mod program;
pub mod shown;
pub mod status;
