//! The program `mpiwait`: whether a recorded MPI run can hang.
#![tactic(auto)]

use cli::argv::{Ended, run};
use cli::opener::Disk;
use cli::shown::Screen;
use mpicall::counted::Counted;
use std::io::IsTerminal;

fn main(rt: HostRuntime) -> Ended {
    let mut out = Counted::new(rt.stdout());
    let mut err = Counted::new(rt.stderr());
    let mut screen = Screen {
        is_terminal: rt.stderr().is_terminal(),
        out: Counted::new(rt.stderr()),
    };
    let (disk, mut maker) = (Disk(&rt), Disk(&rt));
    run(&rt, &disk, &mut maker, &rt, &mut out, &mut err, &mut screen)
}
