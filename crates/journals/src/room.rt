//! Room for what is known of the requests of a journal, which each journal leaves to the next, and for its lines, of
//! which the next one mostly has about as many.
//!
//! Lists that grow from nothing for each journal would be moved, got from the machine and given back page by page.

ghost use Rattle.std.specs.Prelude.{◌≡◌, ℕ, None, []};
ghost use Rattle.journals.specs.inner.Notes.{note_at};

use crate::lines::{Lines, Size};
use crate::note::Note;
use crate::note_table::Notes;
use std::alloc::Global;
use std::mem;

/// The room that the journals of a run share. What is read doesn't depend on it.
#[derive(Drop)]
pub struct Room {
    alloc: Global,
    notes: Vec<Option<Note>>,
    /// That of the last journal.
    size: Size,
}

impl Room {
    pub fn new(alloc: Global) -> Room {
        Room {
            alloc,
            notes: Vec::new(alloc),
            size: Size {
                lines: 0,
                fields: 0,
            },
        }
    }

    pub(crate) fn alloc(&self) -> Global {
        self.alloc
    }

    /// No lines.
    pub(crate) fn lines(&self) -> Lines
        ensures { result ≡ [] }
    {
        Lines::for_size(self.alloc, self.size)
    }

    /// These are all lines of the journal.
    pub(crate) fn fit(&mut self, lines: &mut Lines)
        ensures { lines.new ≡ lines.old }
    {
        self.size = lines.fit();
    }

    /// Notes of no request.
    pub(crate) fn take(&mut self) -> Notes
        ensures { (number : ℕ) → note_at result number ≡ None }
    {
        let list = mem::replace(&mut self.notes, Vec::new(self.alloc));
        Notes::of_none(self.alloc, list)
    }

    /// The notes aren't needed any more.
    pub(crate) fn keep(&mut self, notes: Notes) {
        self.notes = notes.into_list();
    }
}
