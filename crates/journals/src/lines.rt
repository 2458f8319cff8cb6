//! The lines of a journal, packed.
//!
//! A line has 8 bytes, and its fields stay together in one list of all fields, 5 bytes each. A line that is remembered
//! has those of the one before. A line with a fault may leave fields there that no line has.

ghost use Rattle.std.specs.Prelude.{◌≡◌, ◌<◌, ◌≤◌, [], length};
ghost use Rattle.std.specs.List.{list_any};
ghost use Rattle.journals.specs.Known.{is_report};
ghost use Rattle.journals.specs.Lines.{line_of};
ghost use Rattle.journals.specs.Taking.{frees_request, word_at, fields_at};
ghost use Rattle.journals.specs.inner.Packing.{PutsLine};
ghost use Rattle.journals.specs.inner.Taking.{TakesLine};
ghost use Rattle.journals.specs.declared.word.ReportWord.TheVariants.{Moved};

use crate::field::Field;
use crate::limits::MOST_LINE_BYTES;
use crate::line::{LineFault, read_line};
use crate::remembered::Remembered;
use crate::word::{CallWord, ReportWord, Word};
use std::alloc::Global;
use std::marker::Model;

/// The most lines of a journal that are held, and the most fields; more are out of memory.
const MOST: usize = 0xffff_ffff;

/// A line that was read: its place among all, and its word.
#[derive(Clone, Copy)]
pub(crate) struct Taken {
    pub line: u32,
    pub word: Word,
}

/// A line: its word, and which of the list of all fields are its own.
#[derive(Clone, Copy)]
pub(crate) struct PackedLine {
    start: u32,
    count: u16,
    word: Word,
}

/// Whether a word is that of a call by which a program frees a request.
#[inline(always)]
fn frees_request(word: Word) -> bool
    ensures { result ≡ frees_request word }
{
    matches!(word, Word::Call(CallWord::RequestFree))
}

/// Whether a word is that of a report that a receive goes on in the next journal.
#[inline(always)]
fn is_moved(word: Word) -> bool
    ensures { result ≡ is_report Moved word }
{
    matches!(word, Word::Report(ReportWord::Moved))
}

/// How many lines and fields some journal has.
#[derive(Clone, Copy)]
pub(crate) struct Size {
    pub lines: usize,
    pub fields: usize,
}

/// An empty list with room for so many, where there is memory for that.
fn list_for<T: Drop>(alloc: Global, count: usize) -> Vec<T>
    ensures { result.items ≡ [] }
{
    match Vec::with_capacity(alloc, count) {
        Ok(list) => list,
        Err(_) => Vec::new(alloc),
    }
}

/// The lines of a journal after its header; contracts see their list.
#[derive(Drop)]
pub struct Lines {
    lines: Vec<PackedLine>,
    fields: Vec<Field>,
    remembered: Remembered,
}

/// Puts a line after the others, where its fields are held; answers its place.
#[inline(always)]
fn push(lines: &mut Vec<PackedLine>, packed: PackedLine) -> Result<Taken, LineFault>
    ensures { PutsLine packed lines.old.items lines.new.items result }
{
    let place = lines.len();
    if place >= MOST {
        return Err(LineFault::Memory);
    }
    lines.push(packed)?;
    Ok(Taken {
        line: place as u32,
        word: packed.word,
    })
}

impl Model for Lines {
    ghost use Rattle.std.specs.Prelude.{List};
    ghost use Rattle.journals.specs.Lines.{Line};
    ghost use Rattle.journals.specs.inner.Packing.{lines_in, HasFields};
    ghost use Rattle.journals.specs.inner.Remembered.{AreHeld};

    ghost Value = { List Line };

    ghost view = { λ l. lines_in l.fields.items l.lines.items };

    ghost invariant = { λ l. (HasFields l.fields.items l.lines.items)
        × (AreHeld l.fields.items l.remembered.known) };
}

impl Lines {
    /// No lines, with room for a journal of that size.
    pub(crate) fn for_size(alloc: Global, size: Size) -> Lines
        ensures { result ≡ [] }
    {
        Lines {
            lines: list_for(alloc, size.lines),
            fields: list_for(alloc, size.fields),
            remembered: Remembered::new(),
        }
    }

    /// Gives the room back that isn't used, and answers how much is.
    pub(crate) fn fit(&mut self) -> Size
        ensures { self.new ≡ self.old }
    {
        self.lines.shrink_to_fit();
        self.fields.shrink_to_fit();
        Size {
            lines: self.lines.len(),
            fields: self.fields.len(),
        }
    }

    /// How many lines there are.
    pub fn count(&self) -> usize
        ensures { result ≡ length self.now }
    {
        self.lines.len()
    }

    /// The word of a line; None beyond the last one.
    #[inline(always)]
    pub fn word(&self, line: u32) -> Option<Word>
        ensures { result ≡ word_at self.now line }
    {
        Some(self.lines.get(line as usize)?.word)
    }

    /// The fields of a line; none beyond the last one.
    #[inline(always)]
    pub fn fields(&self, line: u32) -> &[Field]
        ensures { result.now ≡ fields_at self.now line }
    {
        let Some(packed) = self.lines.get(line as usize) else {
            return &[];
        };
        let start = packed.start as usize;
        match self.fields.get(start..start + usize::from(packed.count)) {
            Some(fields) => fields,
            None => &[],
        }
    }

    /// Whether a line frees a request.
    pub fn have_free(&self) -> bool
        ensures { result ≡ list_any (λ line. frees_request line.word) self.now }
    {
        self.lines.iter().any(|packed| frees_request(packed.word))
    }

    /// Whether a line reports that a receive goes on in the next journal.
    pub(crate) fn have_moved(&self) -> bool
        ensures { result ≡ list_any (λ line. is_report Moved line.word) self.now }
    {
        self.lines.iter().any(|packed| is_moved(packed.word))
    }

    /// Reads a line, without its line feed, of a run of so many ranks, and puts it after the others; answers
    /// its place.
    #[inline(always)]
    pub(crate) fn read(&mut self, ranks: u32, line: &[u8]) -> Result<Taken, LineFault>
        requires some { 1 ≤ ranks }
        requires short { length line.now < MOST_LINE_BYTES }
        ensures { TakesLine (line_of ranks line.now) self.old self.new result }
    {
        if let Some(packed) = self.remembered.find(ranks, line) {
            return push(&mut self.lines, packed);
        }
        let start = self.fields.len();
        let word = match read_line(ranks, line, &mut self.fields) {
            Ok(word) => word,
            Err(fault) => return Err(fault),
        };
        let count = self.fields.len().saturating_sub(start);
        if start >= MOST || count > MOST_LINE_BYTES {
            return Err(LineFault::Memory);
        }
        let packed = PackedLine {
            start: start as u32,
            count: count as u16,
            word,
        };
        self.remembered.keep(ranks, line, packed);
        push(&mut self.lines, packed)
    }
}
