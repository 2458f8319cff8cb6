//! The report where it is known in which calls ranks were, as text.

ghost use Rattle.std.specs.Prelude.{◌≤◌, All, flat_map, length, map};
ghost use Rattle.std.specs.List.{range_with_len};
ghost use Rattle.waitgraph.specs.Pending.{view_of};
ghost use Rattle.waitgraph.specs.Verdicts.{verdict_by};
ghost use Rattle.report.specs.PendingReport.{pending_of, awaited_line, lines_of_rank, pending_text};
ghost use Rattle.report.specs.inner.Opened.{TellsOf};
ghost use Rattle.report.specs.inner.Printing.{PrintsAll, Prints};

use crate::judged::{Judged, MOST_WORDS};
use crate::pending::PendingRun;
use crate::stand::ranks_of;
use crate::write::opened::{Opened, pending_of, write_awaited};
use crate::write::printer::Printer;
use crate::write::text::{push_verdict, write_all_left, write_causes, write_findings, write_needs};
use mpicall::device::{DeviceFault, Output};
use waitgraph::awaited::Awaited;
use waitgraph::pending::PendingCall;

/// Writes the lines of a rank at its open: none where nothing is awaited.
fn write_opened<O: Output>(
    printer: &mut Printer,
    out: &mut O,
    run: &PendingRun<'_>,
    rank: u16,
    awaits: &[Awaited],
)
    ensures { Prints O.written O.failures out.old printer.old out.new printer.new (flat_map (awaited_line run.now.analyser.now.reading run.now.analyser.now.groups run.now.analyser.now.recording (pending_of (map view_of run.now.pending.now) rank) rank) awaits.now) }
{
    let unknown = PendingCall::Unknown;
    let opened = Opened {
        analyser: run.analyser,
        call: pending_of(run.pending, &unknown, rank),
        rank,
    };
    write_awaited(printer, out, &opened, awaits);
}

/// Writes the lines of a rank.
fn write_rank<O: Output>(printer: &mut Printer, out: &mut O, run: &PendingRun<'_>, rank: u16)
    requires { TellsOf run.now }
    ensures { Prints O.written O.failures out.old printer.old out.new printer.new (lines_of_rank run.now.analyser.now.reading run.now.analyser.now.groups run.now.analyser.now.recording (map view_of run.now.pending.now) run.now.graph.now.at_open rank) }
{
    write_needs(printer, out, run.analyser, rank, run.graph.unmet(rank));
    write_opened(printer, out, run, rank, run.graph.at_open(rank));
}

/// Writes the lines of all ranks.
fn write_ranks<O: Output>(printer: &mut Printer, out: &mut O, run: &PendingRun<'_>)
    requires { TellsOf run.now }
    ensures { Prints O.written O.failures out.old printer.old out.new printer.new (flat_map (lines_of_rank run.now.analyser.now.reading run.now.analyser.now.groups run.now.analyser.now.recording (map view_of run.now.pending.now) run.now.graph.now.at_open) (range_with_len 0 (length run.now.analyser.now.recording))) }
{
    for rank in 0..ranks_of(run.analyser) {
        write_rank(printer, out, run, rank);
    }
}

/// Writes the report as text.
pub(crate) fn write_pending_text<O: Output>(
    run: &PendingRun<'_>,
    judged: &Judged<'_>,
    out: &mut O,
) -> Result<(), DeviceFault>
    requires graph { TellsOf run.now }
    requires short { All (λ one. length one.why.now ≤ MOST_WORDS) judged.now.left.now }
    ensures { PrintsAll (O.written out.old) (O.failures out.old) (O.written out.new) (O.failures out.new)
        (pending_text run.now.analyser.now.reading run.now.analyser.now.groups run.now.analyser.now.recording (verdict_by run.now.graph.now.held run.now.graph.now.left_open) (map view_of run.now.pending.now) run.now.graph.now.at_open run.now.graph.now.causes judged.now.findings.now judged.now.left.now) result }
{
    let mut printer = Printer::new();
    push_verdict(&mut printer.page, run.graph.verdict());
    write_ranks(&mut printer, out, run);
    write_causes(&mut printer, out, run.graph.causes());
    write_findings(&mut printer, out, judged.findings);
    write_all_left(&mut printer, out, judged.left);
    printer.finish(out)
}
