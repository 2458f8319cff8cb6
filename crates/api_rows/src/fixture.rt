//! What a row holds while its questions are asked.

use crate::answer::Answer;
use crate::chains::{set_lists, take_of_lists, tell_list};
use crate::fault::Fault;
use crate::fields::tell_sized;
use crate::groups::tell_split;
use crate::known::Known;
use crate::numbers::{Calls, tell_numbers};
use crate::pairs::{add, tell_partner, told};
use crate::readings::{reading_in, tell_held_back};
use crate::runs::{begin, offer, offer_of_all, tell_stands};
use crate::texts::{
    add_text, tell_call, tell_fronts, tell_head, tell_line, tell_records, tell_text, tell_trace,
};
use crate::waits::{question_in, tell_findings, tell_of_waits};
use crate::words::{Numbers, first_word, number_in, numbers_in, short};
use arenalist::lists::Lists;
use callstore::call_ref::CallRef;
use moves::analyser::Analyser;
use moves::reading::Reading;
use mpicall::record::Record;
use mpigroup::head::Head;
use pairing::pairs::Pairs;
use report::write::Format;
use std::alloc::{AllocError, Global};
use std::sync::Wait;

/// The name of a row, the head of its run, its calls as they were offered to an analyser and added to pairs, a text, lists,
/// and what is known of how the run goes on.
pub struct Fixture {
    name: String,
    head: Vec<u8>,
    run: Analyser,
    pairs: Pairs,
    text: Vec<u8>,
    lists: Lists<u32>,
    known: Known,
}

impl Drop for Fixture {
    fn drop(self) {
        let Fixture {
            name: _,
            head: _,
            run: _,
            pairs: _,
            text: _,
            lists: _,
            known: _,
        } = self;
    }
}

/// Pairs without calls, of the ranks and groups of a head.
fn no_pairs(alloc: Global, head: &[u8]) -> Result<Pairs, Fault> {
    let Ok(head) = Head::read(alloc, head) else {
        return Err(Fault::Unread);
    };
    match Pairs::new(alloc, head) {
        Ok(pairs) => Ok(pairs),
        Err(_) => Err(Fault::Memory),
    }
}

/// The record of a stored call, if there is one.
fn record_of_call(call: Option<CallRef<'_>>) -> Option<Record> {
    match call {
        Some(call) => Some(call.record()),
        None => None,
    }
}

/// Puts the lines of a head in place of others.
fn set_head(head: &mut Vec<u8>, lines: &str) -> Result<(), AllocError> {
    head.clear();
    for line in lines.split(" / ") {
        head.extend_from_slice(line.as_bytes())?;
        head.push(b'\n')?;
    }
    Ok(())
}

impl Fixture {
    /// One rank, and nothing else.
    pub fn new(alloc: Global) -> Result<Fixture, Fault> {
        let mut head = Vec::new(alloc);
        if set_head(&mut head, "ranks 1").is_err() {
            return Err(Fault::Memory);
        }
        let run = begin(alloc, &head, Reading::Strict)?;
        match no_pairs(alloc, &head) {
            Ok(pairs) => Ok(Fixture {
                name: String::new(alloc),
                head,
                run,
                pairs,
                text: Vec::new(alloc),
                lists: Lists::new(alloc),
                known: Known::new(alloc),
            }),
            Err(fault) => Err(fault),
        }
    }

    /// Begins a run, with the lines of its head.
    fn begin_run(&mut self, answer: &mut Answer, lines: &str) {
        if set_head(&mut self.head, lines).is_err() {
            answer.fail(Fault::Memory);
        }
        self.read_by(answer, Some(Reading::Strict));
    }

    /// Begins the run again, by a reading.
    fn read_by(&mut self, answer: &mut Answer, reading: Option<Reading>) {
        let Some(reading) = reading else {
            answer.fail(Fault::Unread);
            return;
        };
        match begin(answer.alloc(), &self.head, reading) {
            Ok(run) => self.run = run,
            Err(fault) => answer.fail(fault),
        }
        match no_pairs(answer.alloc(), &self.head) {
            Ok(pairs) => self.pairs = pairs,
            Err(fault) => answer.fail(fault),
        }
    }

    /// The name of the row.
    pub fn name(&self) -> &str {
        self.name.as_str()
    }

    /// Begins a row.
    pub fn begin(&mut self, answer: &mut Answer, name: &str) {
        self.name.clear();
        if self.name.push_str(name).is_err() {
            answer.fail(Fault::Memory);
        }
        self.text.clear();
        self.lists = Lists::new(answer.alloc());
        self.known = Known::new(answer.alloc());
        self.begin_run(answer, "ranks 1");
    }

    /// Adds a text so many times.
    fn add_text(&mut self, answer: &mut Answer, times: u32, text: &str) {
        for _ in 0..times {
            if !add_text(&mut self.text, text) {
                answer.fail(Fault::Unread);
            }
        }
    }

    /// Adds a text so many times as the number in front of it says.
    fn add_many(&mut self, answer: &mut Answer, line: &str) {
        let (number, text) = first_word(line);
        match number_in(number) {
            Some(times) => self.add_text(answer, times, text),
            None => answer.fail(Fault::Unread),
        }
    }

    /// Does what a line without an answer says, if it is such a one.
    pub fn set(&mut self, answer: &mut Answer, line: &str) -> bool {
        let (word, rest) = first_word(line);
        match word {
            "head" => self.begin_run(answer, rest),
            "reading" => self.read_by(answer, reading_in(rest)),
            "text" => {
                self.text.clear();
                self.add_text(answer, 1, rest);
            }
            "more" => self.add_many(answer, rest),
            _ => {
                return self.known.set(answer, word, rest)
                    || set_lists(answer, &mut self.lists, word, rest);
            }
        }
        true
    }

    /// Answers a line that gives calls once, if it is such a one.
    fn take_once(&mut self, answer: &mut Answer, word: &str, rest: &str) -> bool {
        match word {
            "offer" => offer(answer, &mut self.run, 1, rest),
            "add" => add(answer, &mut self.pairs, 1, rest),
            "told" => told(answer, &mut self.pairs, rest),
            _ => return take_of_lists(answer, &mut self.lists, word, rest),
        }
        true
    }

    /// Answers a line that gives calls so many times, if it is such a one.
    fn take_often(&mut self, answer: &mut Answer, word: &str, rest: &str) -> bool {
        let (number, calls) = first_word(rest);
        let Some(times) = number_in(number) else {
            return false;
        };
        match word {
            "offers" => offer(answer, &mut self.run, times, calls),
            "all" => offer_of_all(answer, &mut self.run, times, calls),
            "adds" => add(answer, &mut self.pairs, times, calls),
            _ => return false,
        }
        true
    }

    /// Answers a question after whose word there are no numbers, if it is such a one.
    fn tell_of_words(&self, answer: &mut Answer, word: &str, rest: &str) -> bool {
        match word {
            "line" => tell_text(answer, rest),
            "values" => tell_call(answer, rest),
            "split" => tell_split(answer, rest),
            "sized" => tell_sized(answer, rest),
            "heldback" => tell_held_back(answer, &self.head, &self.run, rest),
            "partner" => tell_partner(answer, &self.pairs, rest),
            "known" => self.tell_of_known(answer, rest),
            _ => return self.tell_of_graph(answer, word, rest),
        }
        true
    }

    /// Answers who is held, or the report, where pending calls and sinks are known.
    fn tell_of_known(&self, answer: &mut Answer, asked: &str) {
        match asked {
            "held" => self.known.tell_held(answer, &self.run),
            "text" => self.known.tell(answer, &self.run, Format::Text),
            "json" => self.known.tell(answer, &self.run, Format::Json),
            _ => answer.fail(Fault::Unread),
        }
    }

    /// Answers a question about the wait graph, if it is such a one.
    fn tell_of_graph(&self, answer: &mut Answer, word: &str, rest: &str) -> bool {
        match question_in(word, rest) {
            Some(question) => {
                tell_of_waits(answer, &self.run, question);
                true
            }
            None => false,
        }
    }

    /// Answers a question without words, if more than one value answers it.
    fn tell_of_none(&self, answer: &mut Answer, asked: &str, wait: &impl Wait) -> bool {
        match asked {
            "stands" => tell_stands(answer, &self.run),
            "findings" => tell_findings(answer, &self.pairs),
            "asline" => tell_line(answer, &self.text),
            "ashead" => tell_head(answer, &self.text),
            "astrace" => tell_trace(answer, &self.text, wait),
            "touched" => answer.value("", &self.lists.work()),
            _ => return false,
        }
        true
    }

    /// Answers a question with one number, if more than one value answers it.
    fn tell_of_one(&self, answer: &mut Answer, asked: &str, number: u32) -> bool {
        match asked {
            "gives" => tell_records(answer, &self.text, number),
            "list" => tell_list(answer, &self.lists, number),
            _ => return false,
        }
        true
    }

    /// Answers a question with two numbers, if more than one value answers it.
    fn tell_of_two(
        &self,
        answer: &mut Answer,
        asked: &str,
        first: u32,
        second: u32,
        wait: &impl Wait,
    ) -> bool {
        match asked {
            "fronts" => tell_fronts(answer, &self.text, first, second, wait),
            "record" => answer.record(self.run.record(short(first), second)),
            "call" => answer.record(record_of_call(self.pairs.call(short(first), second))),
            _ => return false,
        }
        true
    }

    /// Answers a question with these numbers.
    fn tell_of_numbers(
        &self,
        answer: &mut Answer,
        asked: &str,
        numbers: Numbers,
        wait: &impl Wait,
    ) {
        let is_answered = match numbers {
            Numbers::None => self.tell_of_none(answer, asked, wait),
            Numbers::One(number) => self.tell_of_one(answer, asked, number),
            Numbers::Two(first, second) => self.tell_of_two(answer, asked, first, second, wait),
            Numbers::Three(..) => false,
        };
        if !is_answered {
            let calls = Calls {
                run: &self.run,
                pairs: &self.pairs,
            };
            tell_numbers(answer, calls, asked, numbers);
        }
    }

    /// Answers a question: `none` where there is nothing to answer.
    pub fn ask(&mut self, answer: &mut Answer, line: &str, wait: &impl Wait) {
        let (asked, rest) = first_word(line);
        let is_answered = self.take_once(answer, asked, rest)
            || self.take_often(answer, asked, rest)
            || self.tell_of_words(answer, asked, rest);
        if !is_answered {
            match numbers_in(rest) {
                Some(numbers) => self.tell_of_numbers(answer, asked, numbers, wait),
                None => answer.fail(Fault::Unread),
            }
        }
        answer.close();
    }
}
