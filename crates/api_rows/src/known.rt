//! What is known of how lists go on, and the report with it.

ghost use Rattle.std.specs.Prelude.{◌≤◌, All, length};
ghost use Rattle.report.specs.declared.judged.TheConstants.{MOST_WORDS};

use crate::answer::Answer;
use crate::fault::Fault;
use crate::words::{first_word, number_in, short};
use findings::finding::Finding;
use moves::analyser::Analyser;
use mpicall::memory::MemoryOutput;
use report::judged::Judged;
use report::pending::{PendingRun, write_pending};
use report::write::Format;
use std::alloc::{AllocError, Global};
use waitgraph::graph::Graph;
use waitgraph::pending::{Item, PendingCall, Sink, Wanted};

/// Pending calls, by rank, and sinks.
pub struct Known {
    pending: Vec<PendingCall>,
    sinks: Vec<Sink>,
}

impl Drop for Known {
    fn drop(self) {
        let Known {
            pending: _,
            sinks: _,
        } = self;
    }
}

/// A number, or None for `any`; nothing where a word is neither.
fn number_or_any(word: &str) -> Option<Option<u32>> {
    if word == "any" {
        return Some(None);
    }
    Some(Some(number_in(word)?))
}

/// The message that `C:P:T` spells.
fn wanted_in(word: &str) -> Option<Wanted> {
    let (comm, rest) = word.split_once(':')?;
    let (source, tag) = rest.split_once(':')?;
    let comm = short(number_in(comm)?);
    let source = match number_or_any(source)? {
        Some(source) => Some(short(source)),
        None => None,
    };
    let tag = number_or_any(tag)?;
    Some(Wanted { comm, source, tag })
}

fn item_in(word: &str) -> Option<Item> {
    if word.contains(':') {
        return Some(Item::Message(wanted_in(word)?));
    }
    Some(Item::Request(number_in(word)?))
}

/// The items of a line; None where one can't be read.
fn items_in(alloc: Global, words: &str) -> Result<Option<Vec<Item>>, AllocError> {
    let mut items = Vec::new(alloc);
    for word in words.split(' ') {
        match item_in(word) {
            Some(item) => items.push(item)?,
            None => return Ok(None),
        }
    }
    Ok(Some(items))
}

/// The pending call of a line: `all` or `any`, and its items.
fn call_in(alloc: Global, line: &str) -> Result<Option<PendingCall>, AllocError> {
    let (word, rest) = first_word(line);
    let Some(items) = items_in(alloc, rest)? else {
        return Ok(None);
    };
    match word {
        "all" => Ok(Some(PendingCall::All(items))),
        "any" => Ok(Some(PendingCall::Any(items))),
        _ => Ok(None),
    }
}

/// The sink of a line: its rank, its place and its message.
fn sink_in(line: &str) -> Option<Sink> {
    let (rank, rest) = first_word(line);
    let (place, message) = first_word(rest);
    let rank = short(number_in(rank)?);
    let place = number_in(place)?;
    let wanted = wanted_in(message)?;
    Some(Sink {
        rank,
        place,
        wanted,
    })
}

/// What a report says in addition to the graph: findings alone.
fn with_findings(findings: &[Finding]) -> Judged<'_>
    ensures { All (λ one. length one.why.now ≤ MOST_WORDS) result.left.now }
{
    Judged {
        findings,
        left: &[],
        lines: &[],
        held: None,
    }
}

impl Known {
    /// Nothing.
    pub fn new(alloc: Global) -> Known {
        Known {
            pending: Vec::new(alloc),
            sinks: Vec::new(alloc),
        }
    }

    /// Adds the pending call of the next rank; whether the line could be read.
    fn add_pending(&mut self, alloc: Global, line: &str) -> Result<bool, AllocError> {
        if line == "unknown" {
            self.pending.push(PendingCall::Unknown)?;
            return Ok(true);
        }
        match call_in(alloc, line)? {
            Some(call) => {
                self.pending.push(call)?;
                Ok(true)
            }
            None => Ok(false),
        }
    }

    fn add_sink(&mut self, line: &str) -> Result<bool, AllocError> {
        match sink_in(line) {
            Some(sink) => {
                self.sinks.push(sink)?;
                Ok(true)
            }
            None => Ok(false),
        }
    }

    /// Does what a line says, if it is one that adds to what is known.
    pub fn set(&mut self, answer: &mut Answer, word: &str, rest: &str) -> bool {
        let added = match word {
            "pending" => self.add_pending(answer.alloc(), rest),
            "sink" => self.add_sink(rest),
            _ => return false,
        };
        match added {
            Ok(true) => {}
            Ok(false) => answer.fail(Fault::Unread),
            Err(_) => answer.fail(Fault::Memory),
        }
        true
    }

    /// Answers the ranks that are held with it.
    pub fn tell_held(&self, answer: &mut Answer, run: &Analyser) {
        match Graph::of_pending(answer.alloc(), run, &self.pending, &self.sinks) {
            Ok(graph) => answer.numbers(graph.held()),
            Err(_) => answer.fail(Fault::Memory),
        }
    }

    /// Answers the report of the run with it.
    pub fn tell(&self, answer: &mut Answer, run: &Analyser, format: Format) {
        let Ok(graph) = Graph::of_pending(answer.alloc(), run, &self.pending, &self.sinks) else {
            answer.fail(Fault::Memory);
            return;
        };
        let judged = with_findings(graph.findings());
        let run = PendingRun {
            analyser: run,
            graph: &graph,
            pending: self.pending.as_slice(),
        };
        let mut out = MemoryOutput::new(answer.alloc());
        match write_pending(answer.alloc(), &run, &judged, format, &mut out) {
            Ok(()) => answer.escaped(out.bytes()),
            Err(_) => answer.fail(Fault::Memory),
        }
    }
}
