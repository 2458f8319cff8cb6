//! A run over texts in memory. What comes of it is known whole: the contract has no premise about what inputs
//! report, as that of `run_by` does.

ghost use Rattle.std.specs.Prelude.{◌≡◌, ◌<◌, Some, IfOk, IfErr, length, map};
ghost use Rattle.mpicall.specs.Devices.{bytes_left, bytes_written};
ghost use Rattle.mpicall.specs.Source.{coming};
ghost use Rattle.mpicall.specs.Trace.{trace_of};
ghost use Rattle.mpigroup.specs.Groups.{ranks_of};
ghost use Rattle.driver.specs.Texts.{EndsWell, EndsBadly};
ghost use Rattle.driver.specs.VerdictContract.{AreFresh};

use crate::run::{ReadBy, run_by};
use gather::fault::RunFault;
use gather::gate::OpenGate;
use moves::reading::Reading;
use mpicall::memory::{MemoryInput, MemoryOutput};
use mpicall::source::Source;
use mpigroup::head::Head;
use progress::tracker::Untracked;
use report::write::Format;
use std::alloc::{AllocError, Global};
use std::sync::Wait;
use std::thread::Threads;
use waitgraph::verdict::Verdict;

/// The sources of the records that the texts hold.
fn sources_of<'a>(
    alloc: Global,
    texts: &[&'a [u8]],
) -> Result<Vec<Source<MemoryInput<'a>>>, AllocError>
    ensures fresh { IfOk result (λ sources. AreFresh sources.items) }
    ensures told { IfOk result (λ sources. map (coming (λ input. Some (bytes_left input))) sources.items
        ≡ map (λ text. Some (trace_of text.now)) texts.now) }
{
    let mut sources = Vec::with_capacity(alloc, texts.len())?;
    for text in texts {
        sources.push(Source::new(MemoryInput::new(text)))?;
    }
    Ok(sources)
}

/// Checks a run as `run_by` does, over a text for each rank, in rank order. Of each text it is said what its run
/// answers and what is written, with no premise but that memory suffices and that threads start.
pub fn run_texts<R: Threads + Wait + Sync>(
    alloc: Global,
    head: Head,
    reading: Reading,
    texts: &[&[u8]],
    capacity: u16,
    format: Format,
    out: &mut MemoryOutput,
    rt: &R,
    by: ReadBy,
) -> Result<Verdict, RunFault>
    requires room { 0 < capacity }
    requires one_a_rank { length texts.now ≡ ranks_of head }
    ensures ok { IfOk result (EndsWell reading head format (map (λ text. text.now) texts.now) (bytes_written out.old) (bytes_written out.new)) }
    ensures fault { IfErr result (EndsBadly reading head format (map (λ text. text.now) texts.now) (bytes_written out.old) (bytes_written out.new)) }
{
    let Ok(sources) = sources_of(alloc, texts) else {
        return Err(RunFault::Memory);
    };
    run_by(
        alloc, head, reading, sources, capacity, &OpenGate, format, out, &Untracked, rt, by,
    )
}
