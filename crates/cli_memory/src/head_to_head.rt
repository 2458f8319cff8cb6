//! A run over files in memory, of which it is proved what comes of it.

ghost use Rattle.std.specs.Prelude.{◌≡◌, ◌≢◌, ◌++◌};
ghost use Rattle.mpicall.specs.Devices.{bytes_written};
ghost use Rattle.cli_memory.specs.HeadToHead.{report};

use crate::memory_files::{MemoryFile, MemoryFiles, MemoryMaker};
use cli::program::program;
use cli::shown::Screen;
use cli::status::Status;
use mpicall::memory::MemoryOutput;
use std::alloc::Global;
use std::sync::Wait;
use std::thread::Threads;
use std::time::Clock;

/// Checks two ranks that send to each other before either receives. Unless that ends with a fault, as where memory runs
/// out, it ends with `Hang` and leaves the report, and nothing on the output of errors.
pub fn two_that_send_first<R: Threads + Wait + Clock + Sync>(
    alloc: Global,
    rt: &R,
    out: &mut MemoryOutput,
    err: &mut MemoryOutput,
) -> Status
    ensures hang { result ≢ Status.Fault → result ≡ Status.Hang }
    ensures report { result ≢ Status.Fault → bytes_written out.new ≡ bytes_written out.old ++ report }
    ensures errors { result ≢ Status.Fault → err.new ≡ err.old }
{
    let files = [
        MemoryFile {
            path: "head",
            text: b"ranks 2\n",
        },
        MemoryFile {
            path: "r0",
            text: b"send 0 1 0\nrecv 0 1 0\nfinalize\n",
        },
        MemoryFile {
            path: "r1",
            text: b"send 0 0 0\nrecv 0 0 0\nfinalize\n",
        },
    ];
    let opener = MemoryFiles { files: &files };
    let words = ["check", "head", "r0", "r1"];
    let mut screen = Screen {
        out: MemoryOutput::new(alloc),
        is_terminal: false,
    };
    let mut maker = MemoryMaker::new();
    program(
        alloc,
        &words,
        &opener,
        &mut maker,
        rt,
        out,
        err,
        &mut screen,
    )
}
