//! The program over files and outputs in memory. How each command ends there is said whole: the contract has no premise
//! about what an opener, a maker or an output reports, as that of `program` does.

ghost use Rattle.std.specs.Prelude.{◌≢◌, map};
ghost use Rattle.mpicall.specs.Devices.{bytes_written};
ghost use Rattle.cli_memory.specs.InMemory.{ChecksTexts, LintsText};
ghost use Rattle.cli_memory.specs.JournalsInMemory.{ClosesJournals, JudgesJournals};
ghost use Rattle.cli_memory.specs.MemoryFiles.{text_at, text_on};

use crate::memory_files::{MemoryFile, MemoryFiles, MemoryMaker};
use cli::program::program;
use cli::shown::Screen;
use cli::status::Status;
use mpicall::memory::MemoryOutput;
use std::alloc::Global;
use std::sync::Wait;
use std::thread::Threads;
use std::time::Clock;

/// Does what the words ask for over files in memory. Unless it ends with a fault, as where memory runs out, a check
/// of files that are there ends by their texts, and writes what these say and nothing else. So do a lint, and
/// `judge` and `close` of a folder that has a journal of rank 0. `close` makes the folder of exactly these texts.
pub fn program_in_memory<R: Threads + Wait + Clock + Sync>(
    alloc: Global,
    words: &[&str],
    files: &[MemoryFile<'_>],
    maker: &mut MemoryMaker,
    rt: &R,
    out: &mut MemoryOutput,
    err: &mut MemoryOutput,
) -> Status
    ensures check { result ≢ Status.Fault → ChecksTexts (text_on files.now) (map (λ word. word.now) words.now) result (bytes_written out.old) (bytes_written out.new) (bytes_written err.old) (bytes_written err.new) }
    ensures lint { result ≢ Status.Fault → LintsText (text_on files.now) (map (λ word. word.now) words.now) result (bytes_written out.old) (bytes_written out.new) (bytes_written err.old) (bytes_written err.new) }
    ensures judge { result ≢ Status.Fault → JudgesJournals (text_on files.now) (map (λ word. word.now) words.now) result (bytes_written out.old) (bytes_written out.new) (bytes_written err.old) (bytes_written err.new) }
    ensures close { result ≢ Status.Fault → ClosesJournals (text_on files.now) (text_at maker.new.kept) (map (λ word. word.now) words.now) result (bytes_written out.old) (bytes_written out.new) (bytes_written err.old) (bytes_written err.new) }
{
    let opener = MemoryFiles { files };
    let mut screen = Screen {
        out: MemoryOutput::new(alloc),
        is_terminal: false,
    };
    program(alloc, words, &opener, maker, rt, out, err, &mut screen)
}
