//! What the wait graph, the findings and the report answer.

ghost use Rattle.waitgraph.specs.Graphs.{IsGraphOf};

use crate::answer::Answer;
use crate::fault::Fault;
use findings::finding::{Finding, findings};
use moves::analyser::Analyser;
use moves::need::Need;
use mpicall::memory::MemoryOutput;
use mpicall::page::Page;
use pairing::pairs::Pairs;
use report::finding::push_finding;
use report::write::{Format, write_report};
use waitgraph::cause::Cause;
use waitgraph::graph::Graph;
use waitgraph::verdict::Verdict;

/// Adds `RANK PLACE` for each call that is waited for, and `RANK none` for one that is lacking.
fn tell_needs(answer: &mut Answer, needs: &[Need]) {
    for need in needs {
        answer.separate(", ");
        match *need {
            Need::At { rank, place } => answer.pair("", rank, place),
            Need::Lacking { rank } => {
                answer.value("", &rank);
                answer.put(" none");
            }
        }
    }
}

fn tell_causes(answer: &mut Answer, causes: &[Cause]) {
    for cause in causes {
        answer.separate(", ");
        match cause {
            Cause::Cycle(ranks) => {
                answer.put("cycle ");
                answer.numbers(ranks);
            }
            Cause::Missing { rank, peer } => {
                answer.value("missing ", rank);
                answer.value(" ", peer);
            }
            Cause::Starved { rank } => answer.value("starved ", rank),
        }
    }
}

fn verdict_text(verdict: Verdict) -> &'static str {
    match verdict {
        Verdict::Free => "free",
        Verdict::Hang => "hang",
        Verdict::Unfinished => "unfinished",
    }
}

/// What is asked of a wait graph.
#[derive(Clone, Copy)]
pub enum GraphQuestion {
    Verdict,
    Stuck,
    Held,
    Unmet(u16),
    Causes,
    Report(Format),
}

/// The question that a word asks of a wait graph, with what follows it.
pub fn question_in(word: &str, rest: &str) -> Option<GraphQuestion> {
    match (word, rest) {
        ("verdict", "") => Some(GraphQuestion::Verdict),
        ("stuck", "") => Some(GraphQuestion::Stuck),
        ("held", "") => Some(GraphQuestion::Held),
        ("causes", "") => Some(GraphQuestion::Causes),
        ("unmet", rank) => Some(GraphQuestion::Unmet(rank.parse::<u16>().ok()?)),
        ("report", "text") => Some(GraphQuestion::Report(Format::Text)),
        ("report", "json") => Some(GraphQuestion::Report(Format::Json)),
        _ => None,
    }
}

fn tell_report(answer: &mut Answer, run: &Analyser, graph: &Graph, format: Format)
    requires { IsGraphOf run.now.reading run.now.groups run.now.recording graph.now }
{
    let mut out = MemoryOutput::new(answer.alloc());
    match write_report(answer.alloc(), run, graph, format, &mut out) {
        Ok(()) => answer.escaped(out.bytes()),
        Err(_) => answer.fail(Fault::Memory),
    }
}

fn tell_of_graph(answer: &mut Answer, run: &Analyser, graph: &Graph, asked: GraphQuestion)
    requires { IsGraphOf run.now.reading run.now.groups run.now.recording graph.now }
{
    match asked {
        GraphQuestion::Verdict => answer.put(verdict_text(graph.verdict())),
        GraphQuestion::Stuck => answer.numbers(graph.stuck()),
        GraphQuestion::Held => answer.numbers(graph.held()),
        GraphQuestion::Unmet(rank) => tell_needs(answer, graph.unmet(rank)),
        GraphQuestion::Causes => tell_causes(answer, graph.causes()),
        GraphQuestion::Report(format) => tell_report(answer, run, graph, format),
    }
}

/// Answers a question about the wait graph of a run, with `\n` for each line feed of a report.
pub fn tell_of_waits(answer: &mut Answer, run: &Analyser, asked: GraphQuestion) {
    if !run.is_closed() {
        answer.fail(Fault::Missing);
        return;
    }
    match Graph::of(answer.alloc(), run) {
        Ok(graph) => tell_of_graph(answer, run, &graph, asked),
        Err(_) => answer.fail(Fault::Memory),
    }
}

/// What else is wrong with the calls.
pub fn tell_findings(answer: &mut Answer, pairs: &Pairs) {
    match findings(answer.alloc(), pairs) {
        Ok(found) => tell_each(answer, &found),
        Err(_) => answer.fail(Fault::Memory),
    }
}

fn tell_each(answer: &mut Answer, found: &[Finding]) {
    for finding in found {
        answer.separate(", ");
        let mut page = Page::new();
        push_finding(&mut page, finding);
        answer.put(page.as_str());
    }
}
