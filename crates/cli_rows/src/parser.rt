//! Rows as lines of text.

use crate::fault::LineFault;
use crate::row::{Asked, Rest, Row, StoredFile};
use std::alloc::Global;

/// What a line came to.
#[derive(Clone, Copy)]
pub enum Step {
    /// It is taken.
    More,
    /// It ends the row that was read.
    Row,
}

/// Where the lines of a text belong.
#[derive(Clone, Copy)]
enum Place {
    Nowhere,
    LastFile,
    LastMade,
    Output,
    Error,
}

/// The row that is being read.
#[derive(Drop)]
pub struct RowParser {
    row: Row,
    is_open: bool,
    place: Place,
}

/// The number that a text spells.
fn number(text: &str) -> Result<u64, LineFault> {
    match text.parse::<u64>() {
        Ok(number) => Ok(number),
        Err(_) => Err(LineFault::NoNumber),
    }
}

/// How many bytes a read or a write may have: one at least, since none would mean the end.
fn most(text: &str) -> Result<usize, LineFault> {
    match text.parse::<usize>() {
        Ok(most) if most > 0 => Ok(most),
        _ => Err(LineFault::NoNumber),
    }
}

/// The byte that two hexadecimal digits spell.
fn byte(digits: &str) -> Result<u8, LineFault> {
    match u8::from_str_radix(digits, 16) {
        Ok(byte) => Ok(byte),
        Err(_) => Err(LineFault::NoNumber),
    }
}

/// Adds a piece of a text with this end.
fn push(to: &mut String, text: &str, end: &str) -> Result<(), LineFault> {
    to.push_str(text)?;
    to.push_str(end)?;
    Ok(())
}

impl RowParser {
    /// Nothing was read.
    pub fn new(alloc: Global) -> RowParser {
        RowParser {
            row: Row::new(alloc),
            is_open: false,
            place: Place::Nowhere,
        }
    }

    /// The row whose end was read last.
    pub fn row(&self) -> &Row {
        &self.row
    }

    /// Whether a row has begun, and its end wasn't read.
    pub fn is_open(&self) -> bool {
        self.is_open
    }

    /// Begins a row, with the words and files of the row before or with none.
    fn begin(&mut self, alloc: Global, name: &str, follows: bool) -> Result<Step, LineFault> {
        if self.is_open {
            return Err(LineFault::RowInRow);
        }
        if name.is_empty() {
            return Err(LineFault::NoText);
        }
        if !follows {
            self.row = Row::new(alloc);
        }
        self.row.follow(alloc, name.to_string(alloc)?);
        self.is_open = true;
        self.place = Place::Nowhere;
        Ok(Step::More)
    }

    /// Ends the row, if it is a whole one.
    fn end(&mut self) -> Result<Step, LineFault> {
        if !self.is_open {
            return Err(LineFault::NoRow);
        }
        self.is_open = false;
        let row = &self.row;
        if row.asked.is_none() {
            return Err(LineFault::NothingAsked);
        }
        if row.wanted.status.is_none() {
            return Err(LineFault::NoStatus);
        }
        let failing = row.devices.failing.as_str();
        if !failing.is_empty() && !row.has_file(failing) {
            return Err(LineFault::NoSuchFile);
        }
        let (first, second) = &row.devices.meeting;
        if !first.is_empty() && !(row.has_file(first) && row.has_file(second)) {
            return Err(LineFault::NoSuchFile);
        }
        if !row.wanted.parts.is_empty() && !row.wanted.out.is_empty() {
            return Err(LineFault::WholeAndParts);
        }
        Ok(Step::Row)
    }

    /// What the row asks for, and words without blanks in them.
    fn ask(&mut self, alloc: Global, asked: Asked, words: &str) -> Result<(), LineFault> {
        if self.row.asked.is_some() {
            return Err(LineFault::SaidTwice);
        }
        self.row.asked = Some(asked);
        for word in words.split_whitespace() {
            self.add_word(alloc, word)?;
        }
        Ok(())
    }

    /// A word as it is.
    fn add_word(&mut self, alloc: Global, word: &str) -> Result<(), LineFault> {
        self.row
            .words
            .push(Vec::from_slice(alloc, word.as_bytes())?)?;
        Ok(())
    }

    /// A word by its bytes.
    fn add_bytes(&mut self, alloc: Global, bytes: &str) -> Result<(), LineFault> {
        let mut word = Vec::new(alloc);
        for digits in bytes.split_whitespace() {
            word.push(byte(digits)?)?;
        }
        self.row.words.push(word)?;
        Ok(())
    }

    /// A file, of which no text was read yet.
    fn add_file(&mut self, alloc: Global, path: &str) -> Result<(), LineFault> {
        if path.is_empty() {
            return Err(LineFault::NoText);
        }
        if self.row.has_file(path) {
            return Err(LineFault::SaidTwice);
        }
        let path = path.to_string(alloc)?;
        let text = String::new(alloc);
        self.row.files.push(StoredFile { path, text })?;
        self.place = Place::LastFile;
        Ok(())
    }

    /// A file that is to be made, of which no text was read yet.
    fn add_made(&mut self, alloc: Global, path: &str) -> Result<(), LineFault> {
        if path.is_empty() {
            return Err(LineFault::NoText);
        }
        let path = path.to_string(alloc)?;
        let text = String::new(alloc);
        self.row.wanted.made.push(StoredFile { path, text })?;
        self.place = Place::LastMade;
        Ok(())
    }

    /// Adds to the text that is being read.
    fn add(&mut self, text: &str, end: &str) -> Result<(), LineFault> {
        match self.place {
            Place::Nowhere => Err(LineFault::NoPlace),
            Place::LastFile => match self.row.files.last_mut() {
                Some(file) => push(&mut file.text, text, end),
                None => Err(LineFault::NoPlace),
            },
            Place::LastMade => match self.row.wanted.made.last_mut() {
                Some(file) => push(&mut file.text, text, end),
                None => Err(LineFault::NoPlace),
            },
            Place::Output => push(&mut self.row.wanted.out, text, end),
            Place::Error => push(&mut self.row.wanted.err, text, end),
        }
    }

    /// Adds so often to the text that is being read.
    fn add_many(&mut self, rest: &str, end: &str) -> Result<(), LineFault> {
        let (times, text) = rest.split_once(' ').ok_or(LineFault::NoText)?;
        let times = number(times)?;
        for _ in 0..times {
            self.add(text, end)?;
        }
        Ok(())
    }

    /// Adds a line so often to the text that is being read, with its number after it, from 1.
    fn add_counted(&mut self, alloc: Global, rest: &str) -> Result<(), LineFault> {
        let (times, text) = rest.split_once(' ').ok_or(LineFault::NoText)?;
        let times = number(times)?;
        for before in 0..times {
            let line = format!(in alloc; "{text} {}", before + 1)?;
            self.add(line.as_str(), "\n")?;
        }
        Ok(())
    }

    /// The file and its read that fails.
    fn fail_read(&mut self, alloc: Global, rest: &str) -> Result<(), LineFault> {
        let (path, read) = rest.split_once(' ').ok_or(LineFault::NoText)?;
        if !self.row.devices.failing.is_empty() {
            return Err(LineFault::SaidTwice);
        }
        self.row.devices.failing = path.to_string(alloc)?;
        self.row.devices.failing_read = number(read)?;
        Ok(())
    }

    /// A read of a file that comes after a rest.
    fn add_rest(&mut self, alloc: Global, rest: &str) -> Result<(), LineFault> {
        let (path, numbers) = rest.split_once(' ').ok_or(LineFault::NoText)?;
        let (read, millis) = numbers.split_once(' ').ok_or(LineFault::NoText)?;
        let path = path.to_string(alloc)?;
        self.row.devices.rests.push(Rest {
            path,
            read: number(read)?,
            millis: number(millis)?,
        })?;
        Ok(())
    }

    /// The two files whose first reads wait for each other.
    fn meet(&mut self, alloc: Global, rest: &str) -> Result<(), LineFault> {
        let (first, second) = rest.split_once(' ').ok_or(LineFault::NoText)?;
        if first.is_empty() || !self.row.devices.meeting.0.is_empty() {
            return Err(LineFault::SaidTwice);
        }
        self.row.devices.meeting = (first.to_string(alloc)?, second.to_string(alloc)?);
        Ok(())
    }

    fn set_status(&mut self, rest: &str) -> Result<(), LineFault> {
        if self.row.wanted.status.is_some() {
            return Err(LineFault::SaidTwice);
        }
        let status = rest.parse::<u8>().ok().ok_or(LineFault::NoNumber)?;
        self.row.wanted.status = Some(status);
        Ok(())
    }

    /// Something that is on standard output, at the end of a line or anywhere.
    fn add_part(&mut self, alloc: Global, text: &str, end: &str) -> Result<(), LineFault> {
        if text.is_empty() {
            return Err(LineFault::NoText);
        }
        let mut part = text.to_string(alloc)?;
        part.push_str(end)?;
        self.row.wanted.parts.push(part)?;
        Ok(())
    }

    /// What is among the updates.
    fn add_shown(&mut self, alloc: Global, text: &str) -> Result<(), LineFault> {
        if text.is_empty() {
            return Err(LineFault::NoText);
        }
        self.row.wanted.shown.push(text.to_string(alloc)?)?;
        Ok(())
    }

    /// Reads a line of what must be answered.
    fn read_wanted(&mut self, alloc: Global, kind: &str, rest: &str) -> Result<(), LineFault> {
        match kind {
            "status" => self.set_status(rest)?,
            "made" => self.add_made(alloc, rest)?,
            "out" => self.place = Place::Output,
            "err" => self.place = Place::Error,
            "begins" => self.row.wanted.begins = true,
            "has" => self.add_part(alloc, rest, "")?,
            "shown" => self.add_shown(alloc, rest)?,
            "has-end" => self.add_part(alloc, rest, "\n")?,
            _ => return Err(LineFault::UnknownWord),
        }
        Ok(())
    }

    /// Reads a line of the devices.
    fn read_devices(&mut self, alloc: Global, kind: &str, rest: &str) -> Result<(), LineFault> {
        match kind {
            "fails" => self.fail_read(alloc, rest)?,
            "pieces" => self.row.devices.most_read = most(rest)?,
            "threads" => self.row.devices.in_threads = true,
            "meet" => self.meet(alloc, rest)?,
            "out-fails" => self.row.devices.failing_output = number(rest)?,
            "out-pieces" => self.row.devices.most_written = most(rest)?,
            "err-fails" => self.row.devices.failing_error = number(rest)?,
            "rests" => self.add_rest(alloc, rest)?,
            "terminal" => self.row.devices.is_terminal = true,
            "shown-fails" => self.row.devices.failing_screen = number(rest)?,
            _ => return self.read_wanted(alloc, kind, rest),
        }
        Ok(())
    }

    /// Reads a line of what is asked and given.
    fn read_given(&mut self, alloc: Global, kind: &str, rest: &str) -> Result<(), LineFault> {
        match kind {
            "words" => self.ask(alloc, Asked::Program, rest)?,
            "capacity" => self.ask(alloc, Asked::Capacity, rest)?,
            "number" => self.ask(alloc, Asked::Number, rest)?,
            "fault" => self.ask(alloc, Asked::Fault, rest)?,
            "word" => self.add_word(alloc, rest)?,
            "bytes" => self.add_bytes(alloc, rest)?,
            "file" => self.add_file(alloc, rest)?,
            "|" => self.add(rest, "\n")?,
            "." => self.add(rest, "")?,
            "zero" => self.add("\0", rest)?,
            "many" => self.add_many(rest, "\n")?,
            "repeat" => self.add_many(rest, "")?,
            "counts" => self.add_counted(alloc, rest)?,
            _ => return self.read_devices(alloc, kind, rest),
        }
        Ok(())
    }

    /// Reads a line.
    pub fn read(&mut self, alloc: Global, line: &str) -> Result<Step, LineFault> {
        let (kind, rest) = line.split_once(' ').unwrap_or((line, ""));
        match kind {
            "" | "#" => Ok(Step::More),
            "row" => self.begin(alloc, rest, false),
            "same" => self.begin(alloc, rest, true),
            "end" => self.end(),
            _ if !self.is_open => Err(LineFault::NoRow),
            _ => {
                self.read_given(alloc, kind, rest)?;
                Ok(Step::More)
            }
        }
    }
}
