//! `mpiwait check`: the head of a run and its traces are opened and read, and the run's report written.

ghost use Rattle.std.specs.Prelude.{◌≡◌, ℕ, List, Some, All, IfOk, IfErr, OnOk, map, option_map};
ghost use Rattle.std.specs.Io.KnownBytes.{Keeps, prepend_known};
ghost use Rattle.mpicall.specs.Source.{coming};
ghost use Rattle.mpicall.specs.Trace.{trace_of};
ghost use Rattle.mpigroup.specs.HeadText.{read_head};
ghost use Rattle.driver.specs.VerdictContract.{AreFresh};
ghost use Rattle.cli.specs.inner.Front.{IsFrontFault, IsFrontOf};
ghost use Rattle.cli.specs.inner.Outputs.{LeavesAtFault};
ghost use Rattle.cli.specs.Openings.{Opened, fate_of};
ghost use Rattle.cli.specs.Texts.{IsFaultOfCheck, IsHeadOf, IsVerdictOfTexts};
ghost use Rattle.cli.specs.inner.Texts.{IsFaultOfFront, IsFaultOfHead, IsFaultOfOpening, WritesReportOf};

use crate::fault::Fault;
use crate::opener::Opener;
use crate::options::Options;
use driver::run::{ReadBy, run_by};
use gather::gate::OpenGate;
use mpicall::device::{DeviceFault, Input, Output};
use mpicall::source::Source;
use mpigroup::fault::ReadFault;
use mpigroup::head::{DECIDING_BYTES, Head};
use progress::tracker::Tracker;
use std::alloc::Global;
use std::sync::Wait;
use std::thread::Threads;
use waitgraph::verdict::Verdict;

/// How many bytes of a head are read at once.
const PIECE: usize = 4096;

/// The bytes of a head, as far as they decide it. What is after them stays in the input.
fn read_front<'a, I: Input>(alloc: Global, input: &mut I) -> Result<Vec<u8>, Fault<'a>>
    ensures front { IfOk result (λ front. IsFrontOf (I.left input.old) front.items) }
    ensures left { IfOk result (λ front. Keeps (I.left input.old) (prepend_known front.items (I.left input.new))) }
    ensures count { OnOk result (I.failures input.new ≡ I.failures input.old) }
    ensures fault { IfErr result (IsFrontFault I.left I.failures input.old input.new) }
{
    let mut front = Vec::new(alloc);
    let mut piece = [0; PIECE];
    // The proof names the loop by its label.
    'pieces: while front.len() < DECIDING_BYTES {
        let most = PIECE.min(DECIDING_BYTES - front.len());
        let count = match input.read_some(&mut piece[..most]) {
            Ok(count) => count,
            Err(DeviceFault) => return Err(Fault::ReadHead),
        };
        if count == 0 {
            return Ok(front);
        }
        front.extend_from_slice(&piece[..count])?;
    }
    Ok(front)
}

/// The head that the front of its text gives.
fn head_of_front<'a>(alloc: Global, front: &[u8]) -> Result<Head, Fault<'a>>
    ensures head { IfOk result (λ head. read_head front.now ≡ Ok head) }
    ensures fault { IfErr result (IsFaultOfFront front.now) }
{
    match Head::read(alloc, front) {
        Ok(head) => Ok(head),
        Err(ReadFault::Text(fault)) => Err(Fault::Head(fault)),
        Err(ReadFault::Memory) => Err(Fault::Memory),
    }
}

/// The head of the run, from the file that the path names.
pub(crate) fn open_head<'a, P: Opener>(
    alloc: Global,
    opener: &P,
    path: &'a str,
) -> Result<Head, Fault<'a>>
    ensures head { IfOk result (IsHeadOf (P.told opener.now path.now)) }
    ensures opened { OnOk result (fate_of P.In.left P.In.failures (P.may_give opener.now) path.now Opened) }
    ensures fault { IfErr result (IsFaultOfHead (fate_of P.In.left P.In.failures (P.may_give opener.now)) (P.told opener.now) path.now) }
{
    let Some(mut input) = opener.open_input(path) else {
        return Err(Fault::Open(path));
    };
    let front = read_front(alloc, &mut input)?;
    head_of_front(alloc, &front)
}

/// The sources of the ranks' records, from the files that the paths name.
fn open_sources<'a, P: Opener>(
    alloc: Global,
    opener: &P,
    paths: &[&'a str],
) -> Result<Vec<Source<P::In>>, Fault<'a>>
    ensures fresh { IfOk result (λ sources. AreFresh sources.items) }
    ensures told { IfOk result (λ sources. map (coming P.In.left) sources.items
        ≡ map (λ path. option_map trace_of (P.told opener.now path.now)) paths.now) }
    ensures fault { IfErr result (IsFaultOfOpening (fate_of P.In.left P.In.failures (P.may_give opener.now)) (P.told opener.now) paths.now) }
{
    let mut sources = Vec::with_capacity(alloc, paths.len())?;
    for path in paths {
        let Some(input) = opener.open_input(path) else {
            return Err(Fault::Open(path));
        };
        sources.push(Source::new(input))?;
    }
    Ok(sources)
}

/// The bytes of the stack of a thread that reads a trace: there may be 1,024 of them. The largest values there are a
/// source, 12 KB, and an array of 4,096 bytes.
const READER_STACK: usize = 256 * 1024;

/// How the files that the paths name are read: each by a thread where a read of one may wait, else by turns.
fn read_by<P: Opener>(opener: &P, paths: &[&str]) -> ReadBy
    ensures { result ≡ ReadBy.Turns → All (λ path. P.never_waits opener.now path.now) paths.now }
{
    for path in paths {
        if opener.waits(path) {
            return ReadBy::Threads {
                stack_size: Some(READER_STACK),
            };
        }
    }
    ReadBy::Turns
}

/// Checks a run, of which the paths of the head and of the traces in rank order are given, and writes its report. The
/// traces are opened in rank order, once their number is known to be that of the ranks, and then read at once. The
/// tracker is handed the analyser meanwhile, and nothing depends on it.
pub fn check<'a, P: Opener, O: Output, T: Tracker, R: Threads + Wait + Sync>(
    alloc: Global,
    head: &'a str,
    files: &[&'a str],
    options: Options,
    opener: &P,
    tracker: &T,
    rt: &R,
    out: &mut O,
) -> Result<Verdict, Fault<'a>>
    // The answer is that of the texts of the files, where the opener knows them.
    ensures verdict { IfOk result (λ verdict. (text : List ℕ) (texts : List (List ℕ)) →
        P.told opener.now head.now ≡ Some text →
        map (λ file. P.told opener.now file.now) files.now ≡ map Some texts →
        IsVerdictOfTexts options.reading text texts verdict) }

    // Which fault is reported, by what came before it: a read of the head failed where that is reported, and a file
    // that isn't opened is the first one.
    ensures fault { IfErr result (IsFaultOfCheck (fate_of P.In.left P.In.failures (P.may_give opener.now)) (P.told opener.now) head.now files.now) }

    ensures written { IfOk result (WritesReportOf O.written out.old out.new options (P.told opener.now head.now) (map (λ file. P.told opener.now file.now) files.now)) }
    ensures no_write_failed { OnOk result (O.failures out.new ≡ O.failures out.old) }
    ensures output { IfErr result (LeavesAtFault O.written O.failures out.old out.new) }
{
    let head = open_head(alloc, opener, head)?;
    if files.len() != usize::from(head.ranks()) {
        return Err(Fault::FileCount {
            ranks: head.ranks(),
            files: files.len(),
        });
    }
    let sources = open_sources(alloc, opener, files)?;
    let records = options.capacity.records();
    let by = read_by(opener, files);
    match run_by(
        alloc,
        head,
        options.reading,
        sources,
        records,
        &OpenGate,
        options.format,
        out,
        tracker,
        rt,
        by,
    ) {
        Ok(verdict) => Ok(verdict),
        Err(fault) => Err(Fault::from(fault)),
    }
}
