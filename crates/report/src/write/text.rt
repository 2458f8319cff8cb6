//! The report as text: a line with the verdict, and then a line for each unmet need, each cause and each
//! finding.

ghost use Rattle.std.specs.Prelude.{◌≡◌, ◌+◌, ◌≤◌, [], ◌∷◌, ◌++◌, All, flat_map, length};
ghost use Rattle.std.specs.Option.{option_map_or};
ghost use Rattle.std.specs.Fmt.{decimal};
ghost use Rattle.mpicall.specs.Spelling.{space, fields_of};
ghost use Rattle.waitgraph.specs.Causes.{CycleOf, MissingOf, StarvedOf, view_of};
ghost use Rattle.waitgraph.specs.Graphs.{IsGraphOf};
ghost use Rattle.waitgraph.specs.Verdicts.{verdict_by};
ghost use Rattle.report.specs.inner.Printing.{with_fields, PrintsAll, Prints};
ghost use Rattle.findings.specs.Places.{call_at};
ghost use Rattle.report.specs.Judged.{left_line};
ghost use Rattle.report.specs.TextReport.{cause_line, finding_line, need_fields, rank_lines, text_report, unmet_line, verdict_line, verdict_text};

use crate::finding::push_finding;
use crate::judged::{LeftAt, MOST_WORDS};
use crate::stand::stand_of;
use crate::write::printer::{Printer, ROOM_BYTES};
use findings::finding::Finding;
use moves::analyser::Analyser;
use moves::need::Need;
use mpicall::device::{DeviceFault, Output};
use mpicall::page::{PAGE_BYTES, Page};
use mpicall::record::Record;
use waitgraph::cause::Cause;
use waitgraph::graph::Graph;
use waitgraph::verdict::Verdict;

/// The word for a verdict.
pub(crate) fn verdict_text(verdict: Verdict) -> &'static str
    ensures value { result.now ≡ verdict_text verdict }
    ensures short { length result.now ≤ 10 }
{
    match verdict {
        Verdict::Free => "free",
        Verdict::Hang => "hang",
        Verdict::Unfinished => "unfinished",
    }
}

pub(crate) fn push_verdict(page: &mut Page, verdict: Verdict)
    requires { length page.old + ROOM_BYTES ≤ PAGE_BYTES }
    ensures { page.new ≡ page.old ++ verdict_line verdict }
{
    page.push_str("verdict");
    page.push_field(verdict_text(verdict));
    page.push_str("\n");
}

/// Adds the fields of a record.
fn push_record(page: &mut Page, record: &Record)
    requires { length page.old + 1025 ≤ PAGE_BYTES }
    ensures value { page.new ≡ with_fields page.old (fields_of record.now) }
    ensures short { length page.new ≤ length page.old + 1025 }
{
    page.push_str(" ");
    page.push_call(record.as_call());
}

/// Adds the call of a rank at a place, if there is one.
fn push_call_at(page: &mut Page, analyser: &Analyser, rank: u16, place: u32)
    requires { length page.old + 1025 ≤ PAGE_BYTES }
    ensures value { page.new ≡ with_fields page.old (option_map_or fields_of (call_at analyser.now.recording rank place) []) }
    ensures short { length page.new ≤ length page.old + 1025 }
{
    if let Some(record) = analyser.record(rank, place) {
        push_record(page, &record);
    }
}

pub(crate) fn push_need(page: &mut Page, need: &Need)
    requires { length page.old + 34 ≤ PAGE_BYTES }
    ensures value { page.new ≡ with_fields page.old (need_fields need.now) }
    ensures short { length page.new ≤ length page.old + 34 }
{
    page.push_field("rank");
    match *need {
        Need::At { rank, place } => {
            page.push_number(u32::from(rank));
            page.push_field("call");
            page.push_number(place);
        }
        Need::Lacking { rank } => {
            page.push_number(u32::from(rank));
            page.push_field("none");
        }
    }
}

/// Adds the line of one unmet need of a rank.
fn push_unmet(page: &mut Page, analyser: &Analyser, rank: u16, need: &Need)
    requires { length page.old + ROOM_BYTES ≤ PAGE_BYTES }
    ensures { page.new ≡ page.old ++ unmet_line analyser.now.reading analyser.now.groups analyser.now.recording rank need.now }
{
    let stand = stand_of(analyser, rank);
    page.push_str("rank");
    page.push_number(u32::from(rank));
    page.push_field("at");
    page.push_number(stand);
    push_call_at(page, analyser, rank, stand);
    page.push_field("waits");
    push_need(page, need);
    page.push_str("\n");
}

#[tactic(auto, using(crate::proofs::PrintingLemmas::prints_pushed))]
fn write_unmet<O: Output>(
    printer: &mut Printer,
    out: &mut O,
    analyser: &Analyser,
    rank: u16,
    need: &Need,
)
    ensures { Prints O.written O.failures out.old printer.old out.new printer.new (unmet_line analyser.now.reading analyser.now.groups analyser.now.recording rank need.now) }
{
    printer.make_room(out);
    push_unmet(&mut printer.page, analyser, rank, need);
}

/// Writes a line for each of the needs of a rank.
#[tactic(auto, using(crate::proofs::PrintingLemmas::prints_none, crate::proofs::PrintingLemmas::prints_next))]
pub(crate) fn write_needs<O: Output>(
    printer: &mut Printer,
    out: &mut O,
    analyser: &Analyser,
    rank: u16,
    needs: &[Need],
)
    ensures { Prints O.written O.failures out.old printer.old out.new printer.new (flat_map (unmet_line analyser.now.reading analyser.now.groups analyser.now.recording rank) needs.now) }
{
    for need in needs {
        write_unmet(printer, out, analyser, rank, need);
    }
}

/// Writes a line for each unmet need of a rank.
fn write_rank<O: Output>(
    printer: &mut Printer,
    out: &mut O,
    analyser: &Analyser,
    graph: &Graph,
    rank: u16,
)
    requires { IsGraphOf analyser.now.reading analyser.now.groups analyser.now.recording graph.now }
    ensures { Prints O.written O.failures out.old printer.old out.new printer.new (rank_lines analyser.now.reading analyser.now.groups analyser.now.recording rank) }
{
    write_needs(printer, out, analyser, rank, graph.unmet(rank));
}

/// Writes the lines of some ranks.
#[tactic(auto, using(crate::proofs::PrintingLemmas::prints_none, crate::proofs::PrintingLemmas::prints_next))]
fn write_ranks<O: Output>(
    printer: &mut Printer,
    out: &mut O,
    analyser: &Analyser,
    graph: &Graph,
    ranks: &[u16],
)
    requires { IsGraphOf analyser.now.reading analyser.now.groups analyser.now.recording graph.now }
    ensures { Prints O.written O.failures out.old printer.old out.new printer.new (flat_map (rank_lines analyser.now.reading analyser.now.groups analyser.now.recording) ranks.now) }
{
    for rank in ranks {
        write_rank(printer, out, analyser, graph, *rank);
    }
}

/// Writes a text that has room.
#[tactic(auto, using(crate::proofs::PrintingLemmas::prints_pushed))]
fn write_piece<O: Output>(printer: &mut Printer, out: &mut O, text: &str)
    requires { length text.now ≤ ROOM_BYTES }
    ensures { Prints O.written O.failures out.old printer.old out.new printer.new text.now }
{
    printer.make_room(out);
    printer.page.push_str(text);
}

/// Writes a rank as a further field.
#[tactic(auto, using(crate::proofs::PrintingLemmas::prints_pushed))]
fn write_rank_field<O: Output>(printer: &mut Printer, out: &mut O, rank: u16)
    ensures { Prints O.written O.failures out.old printer.old out.new printer.new (space ∷ decimal rank) }
{
    printer.make_room(out);
    printer.page.push_number(u32::from(rank));
}

#[tactic(auto, using(crate::proofs::PrintingLemmas::prints_none, crate::proofs::PrintingLemmas::prints_next))]
fn write_rank_fields<O: Output>(printer: &mut Printer, out: &mut O, ranks: &[u16])
    ensures { Prints O.written O.failures out.old printer.old out.new printer.new (flat_map (λ rank. space ∷ decimal rank) ranks.now) }
{
    for rank in ranks {
        write_rank_field(printer, out, *rank);
    }
}

fn write_cycle<O: Output>(printer: &mut Printer, out: &mut O, ranks: &[u16])
    ensures { Prints O.written O.failures out.old printer.old out.new printer.new (cause_line (CycleOf ranks.now)) }
{
    write_piece(printer, out, "cycle");
    write_rank_fields(printer, out, ranks);
    write_piece(printer, out, "\n");
}

fn push_missing(page: &mut Page, rank: u16, peer: u16)
    requires { length page.old + ROOM_BYTES ≤ PAGE_BYTES }
    ensures { page.new ≡ page.old ++ cause_line (MissingOf rank peer) }
{
    page.push_str("missing");
    page.push_number(u32::from(rank));
    page.push_number(u32::from(peer));
    page.push_str("\n");
}

#[tactic(auto, using(crate::proofs::PrintingLemmas::prints_pushed))]
fn write_missing<O: Output>(printer: &mut Printer, out: &mut O, rank: u16, peer: u16)
    ensures { Prints O.written O.failures out.old printer.old out.new printer.new (cause_line (MissingOf rank peer)) }
{
    printer.make_room(out);
    push_missing(&mut printer.page, rank, peer);
}

fn push_starved(page: &mut Page, rank: u16)
    requires { length page.old + ROOM_BYTES ≤ PAGE_BYTES }
    ensures { page.new ≡ page.old ++ cause_line (StarvedOf rank) }
{
    page.push_str("starved");
    page.push_number(u32::from(rank));
    page.push_str("\n");
}

#[tactic(auto, using(crate::proofs::PrintingLemmas::prints_pushed))]
fn write_starved<O: Output>(printer: &mut Printer, out: &mut O, rank: u16)
    ensures { Prints O.written O.failures out.old printer.old out.new printer.new (cause_line (StarvedOf rank)) }
{
    printer.make_room(out);
    push_starved(&mut printer.page, rank);
}

fn write_cause<O: Output>(printer: &mut Printer, out: &mut O, cause: &Cause)
    ensures { Prints O.written O.failures out.old printer.old out.new printer.new (cause_line (view_of cause.now)) }
{
    match *cause {
        Cause::Cycle(ref ranks) => write_cycle(printer, out, ranks),
        Cause::Missing { rank, peer } => write_missing(printer, out, rank, peer),
        Cause::Starved { rank } => write_starved(printer, out, rank),
    }
}

#[tactic(auto, using(crate::proofs::PrintingLemmas::prints_none, crate::proofs::PrintingLemmas::prints_next))]
pub(crate) fn write_causes<O: Output>(printer: &mut Printer, out: &mut O, causes: &[Cause])
    ensures { Prints O.written O.failures out.old printer.old out.new printer.new (flat_map (λ cause. cause_line (view_of cause)) causes.now) }
{
    for cause in causes {
        write_cause(printer, out, cause);
    }
}

fn push_finding_line(page: &mut Page, finding: &Finding)
    requires { length page.old + ROOM_BYTES ≤ PAGE_BYTES }
    ensures { page.new ≡ page.old ++ finding_line finding.now }
{
    page.push_str("finding ");
    push_finding(page, finding);
    page.push_str("\n");
}

#[tactic(auto, using(crate::proofs::PrintingLemmas::prints_pushed))]
fn write_finding<O: Output>(printer: &mut Printer, out: &mut O, finding: &Finding)
    ensures { Prints O.written O.failures out.old printer.old out.new printer.new (finding_line finding.now) }
{
    printer.make_room(out);
    push_finding_line(&mut printer.page, finding);
}

#[tactic(auto, using(crate::proofs::PrintingLemmas::prints_none, crate::proofs::PrintingLemmas::prints_next))]
pub(crate) fn write_findings<O: Output>(printer: &mut Printer, out: &mut O, findings: &[Finding])
    ensures { Prints O.written O.failures out.old printer.old out.new printer.new (flat_map finding_line findings.now) }
{
    for finding in findings {
        write_finding(printer, out, finding);
    }
}

/// Writes the report of a run as text, by way of a page in place; after a fault a prefix of it was
/// written.
pub(crate) fn write_text<O: Output>(
    analyser: &Analyser,
    graph: &Graph,
    out: &mut O,
) -> Result<(), DeviceFault>
    requires { IsGraphOf analyser.now.reading analyser.now.groups analyser.now.recording graph.now }
    ensures { PrintsAll (O.written out.old) (O.failures out.old) (O.written out.new) (O.failures out.new) (text_report analyser.now.reading analyser.now.groups analyser.now.recording (verdict_by graph.now.held graph.now.left_open) graph.now.causes) result }
{
    let mut printer = Printer::new();
    push_verdict(&mut printer.page, graph.verdict());
    write_ranks(&mut printer, out, analyser, graph, graph.stuck());
    write_causes(&mut printer, out, graph.causes());
    write_findings(&mut printer, out, graph.findings());
    printer.finish(out)
}

// ---- What journals say in addition ----

/// Adds the line of a list that ended before its end.
fn push_left(page: &mut Page, left: &LeftAt)
    requires room { length page.old + ROOM_BYTES ≤ PAGE_BYTES }
    requires short { length left.now.why.now ≤ MOST_WORDS }
    ensures { page.new ≡ page.old ++ left_line left.now }
{
    page.push_str("left");
    page.push_number(u32::from(left.rank));
    page.push_number(left.line);
    page.push_field(left.why);
    page.push_str("\n");
}

#[tactic(auto, using(crate::proofs::PrintingLemmas::prints_pushed))]
fn write_left<O: Output>(printer: &mut Printer, out: &mut O, left: &LeftAt)
    requires { length left.now.why.now ≤ MOST_WORDS }
    ensures { Prints O.written O.failures out.old printer.old out.new printer.new (left_line left.now) }
{
    printer.make_room(out);
    push_left(&mut printer.page, left);
}

/// Writes a line for each list that ended before its end.
#[tactic(auto, using(crate::proofs::PrintingLemmas::prints_none, crate::proofs::PrintingLemmas::prints_next))]
pub(crate) fn write_all_left<O: Output>(printer: &mut Printer, out: &mut O, left: &[LeftAt])
    requires { All (λ one. length one.why.now ≤ MOST_WORDS) left.now }
    ensures { Prints O.written O.failures out.old printer.old out.new printer.new (flat_map left_line left.now) }
{
    for one in left {
        write_left(printer, out, one);
    }
}
