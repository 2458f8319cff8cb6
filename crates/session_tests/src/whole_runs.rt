//! Runs over threads and by turns: a gate at which the ranks meet, one that stops them, threads that can't start.

ghost use Rattle.std.specs.Prelude.{IfOk};
ghost use Rattle.driver.specs.VerdictContract.{AreFresh};

use driver::run::{ReadBy, run, run_by};
use gather::fault::{RankFault, Refusal, RunFault};
use gather::gate::{Gate, OpenGate};
use moves::reading::Reading;
use mpicall::fault::SourceFault;
use mpicall::memory::{MemoryInput, MemoryOutput};
use mpicall::source::Source;
use mpigroup::head::Head;
use progress::tracker::Untracked;
use report::write::Format;
use std::alloc::{AllocError, Global};
use std::process::Abort;
use std::sync::Wait;
use std::sync::atomic::{AtomicBool, AtomicU32, Ordering};
use std::test::Fail;
use std::thread;
use std::thread::Threads;
use waitgraph::verdict::Verdict;

/// Two ranks that send to each other in buffered mode, receive and end.
pub(crate) const TEXTS: [&[u8]; 2] = [
    b"bsend 0 1 0\nrecv 0 1 0\nfinalize\n",
    b"bsend 0 0 0\nrecv 0 0 0\nfinalize\n",
];

/// The sources of these texts.
fn sources_of<'a>(
    alloc: Global,
    texts: &[&'a [u8]],
) -> Result<Vec<Source<MemoryInput<'a>>>, AllocError>
    ensures { IfOk result (λ sources. AreFresh sources.items) }
{
    let mut sources = Vec::new(alloc);
    for text in texts {
        sources.push(Source::new(MemoryInput::new(text)))?;
    }
    Ok(sources)
}

const IN_THREADS: ReadBy = ReadBy::Threads { stack_size: None };

/// What a run of two ranks over these texts answers, with room for one record a rank. It writes that it is free,
/// or nothing.
fn answer<G: Gate + Sync, R: Threads + Wait + Sync>(
    alloc: Global,
    texts: &[&[u8]],
    gate: &G,
    rt: &R,
    by: ReadBy,
) -> Result<Result<Verdict, RunFault>, Fail> {
    let sources = sources_of(alloc, texts)?;
    let head = Head::read(alloc, b"ranks 2\n")?;
    if sources.len() != usize::from(head.ranks()) {
        return Err("one source a rank".into());
    }
    let (reading, format) = (Reading::Strict, Format::Text);
    let mut out = MemoryOutput::new(alloc);
    let answer = if by == IN_THREADS {
        run(alloc, head, reading, sources, 1, gate, format, &mut out, rt)
    } else {
        run_by(
            alloc, head, reading, sources, 1, gate, format, &mut out, &Untracked, rt, by,
        )
    };
    let written: &[u8] = if answer.is_ok() {
        b"verdict free\n"
    } else {
        b""
    };
    if out.bytes() == written {
        Ok(answer)
    } else {
        Err("what was written".into())
    }
}

/// How often a rank looks whether the other one is asked too, for half a minute or more: a busy machine may let the
/// other thread wait for long.
const MOST_LOOKS: u32 = 100_000_000;

/// A gate at whose first question each of two ranks waits until the other one is asked as well.
#[derive(Drop)]
struct Meeting {
    first: AtomicBool,
    second: AtomicBool,
}

impl Gate for Meeting {
    fn ask(&self, rank: u16, line: u32) -> bool {
        let (own, other) = if rank == 0 {
            (&self.first, &self.second)
        } else {
            (&self.second, &self.first)
        };
        own.store(true, Ordering::SeqCst);
        for _ in 0..MOST_LOOKS {
            if line > 0 || other.load(Ordering::SeqCst) {
                return true;
            }
            thread::yield_now();
        }
        false
    }
}

#[test]
fn the_ranks_are_read_at_once(rt: HostRuntime) -> Result<(), Fail> {
    let gate = Meeting {
        first: AtomicBool::new(false),
        second: AtomicBool::new(false),
    };
    assert!(rt; answer(rt.alloc(), &TEXTS, &gate, &rt, IN_THREADS)? == Ok(Verdict::Free));
    Ok(())
}

/// A gate that stops one rank at a line.
#[derive(Drop)]
pub(crate) struct StopsAt(pub(crate) u16, pub(crate) u32);

impl Gate for StopsAt {
    fn ask(&self, rank: u16, line: u32) -> bool {
        (rank, line) != (self.0, self.1)
    }
}

/// The refusal of a run at a rank's call.
fn refused(rank: u16, call: u32, fault: SourceFault) -> Result<Verdict, RunFault> {
    let fault = RankFault::OfSource(fault);
    Err(RunFault::Refused(Refusal { rank, call, fault }))
}

/// Asserts that the place at which a gate stops a rank is reported, for each place: one for each of the three
/// records, and one for the end after them.
fn stops_at_each_question<R: Abort + AllocGlobal + Threads + Wait + Sync>(
    rt: &R,
    by: ReadBy,
) -> Result<(), Fail> {
    for place in 0..8u32 {
        let (rank, line) = (if place < 4 { 0 } else { 1 }, place % 4);
        let answer = answer(rt.alloc(), &TEXTS, &StopsAt(rank, line), rt, by)?;
        assert!(rt;
            answer == refused(rank, line, SourceFault::GateStopped),
            "{place}"
        );
    }
    Ok(())
}

#[test]
fn a_gate_stops_a_rank(rt: HostRuntime) -> Result<(), Fail> {
    stops_at_each_question(&rt, IN_THREADS)?;
    stops_at_each_question(&rt, ReadBy::Turns)
}

/// A line a thousand times, and then the end of the trace.
fn long_text(alloc: Global, line: &[u8]) -> Result<Vec<u8>, AllocError> {
    let mut text = Vec::new(alloc);
    for _ in 0..1_000 {
        text.extend_from_slice(line)?;
    }
    text.extend_from_slice(b"finalize\n")?;
    Ok(text)
}

/// A gate that stops a rank which is more than a hundred lines ahead of the other.
#[derive(Drop)]
struct Abreast {
    first: AtomicU32,
    second: AtomicU32,
}

impl Gate for Abreast {
    fn ask(&self, rank: u16, line: u32) -> bool {
        let (own, other) = if rank == 0 {
            (&self.first, &self.second)
        } else {
            (&self.second, &self.first)
        };
        own.store(line, Ordering::SeqCst);
        line <= other.load(Ordering::SeqCst).saturating_add(100)
    }
}

/// By turns the ranks are read abreast too, and not one to its end before the next.
#[test]
fn turns_keep_the_ranks_abreast(rt: HostRuntime) -> Result<(), Fail> {
    let first = long_text(rt.alloc(), b"send 0 1 0\n")?;
    let second = long_text(rt.alloc(), b"recv 0 0 0\n")?;
    let gate = Abreast {
        first: AtomicU32::new(0),
        second: AtomicU32::new(0),
    };
    let texts: [&[u8]; 2] = [&first, &second];
    assert!(rt; answer(rt.alloc(), &texts, &gate, &rt, ReadBy::Turns)? == Ok(Verdict::Free));
    Ok(())
}

#[test]
fn no_thread_starts(rt: HostRuntime) -> Result<(), Fail> {
    let by = ReadBy::Threads {
        stack_size: Some(usize::MAX),
    };
    let answer = answer(rt.alloc(), &TEXTS, &OpenGate, &rt, by)?;
    assert!(rt; answer == refused(0, 0, SourceFault::ThreadNotStarted));
    Ok(())
}
