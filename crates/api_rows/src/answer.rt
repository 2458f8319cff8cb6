//! Answers, as texts. Each is put together in place; one that stays empty is `none`.

use crate::fault::Fault;
use mpicall::memory::MemoryOutput;
use mpicall::record::Record;
use mpicall::spelling::write_line;
use std::alloc::Global;
use std::fmt::Display;

/// An answer, and the first thing that went wrong with it. So what adds to it needs to report no fault.
pub struct Answer {
    text: String,
    /// Where the last of several answers begins.
    last: usize,
    fault: Option<Fault>,
}

impl Drop for Answer {
    fn drop(self) {
        let Answer {
            text: _,
            last: _,
            fault: _,
        } = self;
    }
}

impl Answer {
    pub fn new(alloc: Global) -> Answer {
        Answer {
            text: String::new(alloc),
            last: 0,
            fault: None,
        }
    }

    pub fn clear(&mut self) {
        self.text.clear();
        self.last = 0;
        self.fault = None;
    }

    pub fn alloc(&self) -> Global {
        *self.text.allocator()
    }

    pub fn text(&self) -> &str {
        self.text.as_str()
    }

    pub fn is_wrong(&self) -> bool {
        self.fault.is_some()
    }

    /// Notes what went wrong, if nothing did before.
    pub fn fail(&mut self, fault: Fault) {
        if self.fault.is_none() {
            self.fault = Some(fault);
        }
    }

    pub fn put(&mut self, text: &str) {
        if self.text.push_str(text).is_err() {
            self.fail(Fault::Memory);
        }
    }

    pub fn yes_or_no(&mut self, is_so: bool) {
        self.put(if is_so { "yes" } else { "no" });
    }

    /// Adds a separator, unless it is the first.
    pub fn separate(&mut self, separator: &str) {
        if !self.text.is_empty() {
            self.put(separator);
        }
    }

    /// Adds a value after a text.
    pub fn value<T: Display>(&mut self, before: &str, value: &T) {
        if write!(self.text, "{before}{value}").is_err() {
            self.fail(Fault::Memory);
        }
    }

    /// Adds a fault's code and words.
    pub fn coded<T: Display>(&mut self, code: &str, fault: &T) {
        self.put(code);
        self.value(" ", fault);
    }

    /// Adds a number after a text.
    pub fn number(&mut self, before: &str, number: u32) {
        self.value(before, &number);
    }

    /// Adds numbers, with a space between two.
    pub fn numbers<T: Display>(&mut self, numbers: &[T]) {
        let mut separator = "";
        for number in numbers {
            self.value(separator, number);
            separator = " ";
        }
    }

    /// Adds a rank and a place, or a communicator and a wave, after a text.
    pub fn pair(&mut self, before: &str, first: u16, second: u32) {
        self.number(before, u32::from(first));
        self.number(" ", second);
    }

    /// Adds another answer, and what went wrong with it.
    pub fn add(&mut self, other: &Answer) {
        if let Some(fault) = other.fault {
            self.fail(fault);
        }
        self.put(other.text());
    }

    /// Adds one of several answers, if it differs from the one before it.
    pub fn other(&mut self, other: &Answer) {
        if other.is_wrong() || self.text.get(self.last..) != Some(other.text()) {
            self.separate(", or ");
            self.last = self.text.len();
            self.add(other);
        }
    }

    /// Adds bytes as a text with `\n` for each line feed.
    pub fn escaped(&mut self, bytes: &[u8]) {
        let text = self.text_in(bytes);
        for line in text.split_inclusive('\n') {
            match line.strip_suffix('\n') {
                Some(line) => self.value(line, &"\\n"),
                None => self.put(line),
            }
        }
    }

    /// The text that bytes are.
    fn text_in<'a>(&mut self, bytes: &'a [u8]) -> &'a str {
        match str::from_utf8(bytes) {
            Ok(text) => text,
            Err(_) => {
                self.fail(Fault::Unread);
                ""
            }
        }
    }

    /// Adds the line of a record, without its line feed.
    pub fn line(&mut self, record: &Record) {
        let mut output = MemoryOutput::new(self.alloc());
        if write_line(record, &mut output).is_err() {
            self.fail(Fault::Memory);
        }
        let line = self.text_in(output.bytes());
        self.put(line.trim_end());
    }

    /// Adds the line of a record, if there is one.
    pub fn record(&mut self, record: Option<Record>) {
        if let Some(record) = record {
            self.line(&record);
        }
    }

    /// Adds `none` where nothing was added.
    pub fn close(&mut self) {
        if self.text.is_empty() {
            self.put("none");
        }
    }

    /// Whether this is the wanted answer, with nothing wrong.
    pub fn is(&self, wanted: &str) -> bool {
        self.fault.is_none() && self.text.as_str() == wanted
    }

    /// What went wrong, or the answer.
    pub fn told(&self) -> &str {
        match self.fault {
            Some(fault) => fault.text(),
            None => self.text.as_str(),
        }
    }
}
