//! The board on which the last publication is, for watches that read it without waiting.
//!
//! Of the two copies of `left_right` the one that nobody reads is written over, and the readers are turned
//! to it. No operation is kept for the other copy, so `publish` takes no memory and can't be refused half
//! way.

ghost use Rattle.std.specs.Prelude.{◌≡◌, ◌<◌, ◌≤◌, ◌⊎◌, IfOk, IfSome};
ghost use Rattle.left_right.specs.Sides.{view};
ghost use Rattle.mpigroup.specs.declared.limits.TheConstants.{MOST_RANKS};
ghost use Rattle.watches.specs.Published.{list_known, book_of};
ghost use Rattle.watches.specs.inner.Shown.{list_shown, nobody};

use crate::publication::Publication;
use crate::watch::Watch;
use atomic_table::{Join, Split};
use crossbeam_utils::rule::{Outcome, Protocol};
use left_right::Absorb;
use left_right::writer::Writer;
use std::alloc::{AllocError, Global};
use std::sync::Wait;

/// Which list a reader knows, if any. No value of it is made.
pub struct View {
    pub known: u64,
    pub name: u64,
}

/// The two copies of the board need nothing of each other: a publication is written over the one that no watch
/// reads, and no operation is kept for the other.
impl Absorb<()> for Publication {
    type State = ();

    ghost state = { λ publication. record {} };

    ghost applied = { λ state operation. record {} };

    fn absorb_first(&mut self, _operation: &(), _other: &Publication) -> Result<(), AllocError> {
        Ok(())
    }
}

/// All know one list, or none.
pub struct OneList;

impl Protocol<Publication, View> for OneList {
    ghost use Rattle.watches.specs.inner.Shown.{KnowOneList, nobody};

    ghost holds = { KnowOneList };

    ghost first = { nobody };
}

/// A step that sees what is on the board.
pub struct Sees;

impl Outcome<Publication, View> for Sees {
    ghost use Rattle.watches.specs.inner.Shown.{SeesList};

    ghost then = { SeesList };
}

/// What the board says of its list, and a reader learns.
pub struct Names;

impl Split<View> for Names {
    ghost left = { λ v. v };

    ghost right = { λ v. v };
}

impl Join<View> for Names {
    ghost use Rattle.watches.specs.inner.Shown.{nobody};

    ghost both = { λ v w. w };

    ghost spent = { nobody };
}

type BoardWriter = Writer<Publication, (), View, OneList>;

/// Writes a publication of the same list over the copy that no watch reads, and turns the watches to it. It
/// waits for those that still read that copy, and takes no memory.
fn turn(writer: BoardWriter, next: &Publication, wait: &impl Wait) -> BoardWriter
    requires list { book_of next.now ≡ book_of writer.desk.shown.value }
    requires names { (view writer.desk.place ≡ nobody) ⊎ (view writer.desk.place ≡ list_shown writer.desk.shown.value) }
    ensures shown { result.desk.shown.value ≡ next.now }
    ensures names { view result.desk.place ≡ list_shown next.now }
{
    let mut writer = writer;
    let (open, mut spare) = writer.desk.open(wait);
    spare.copy_from(next);
    writer.desk = open.show_as::<Sees>(spare);
    writer
}

/// The last publication, shown to watches. It is not `Drop`: end it by `end`.
pub struct Board {
    writer: BoardWriter,
    ghost names: { view writer.desk.place ≡ list_shown writer.desk.shown.value },
}

impl Board {
    ghost use Rattle.watches.specs.Boards.{shown};
    ghost use Rattle.watches.specs.Watches.{IsWatchOf};

    /// A board with places for so many watches.
    pub(crate) fn open(
        alloc: Global,
        first: &Publication,
        watches: u16,
        wait: &impl Wait,
    ) -> Result<Board, AllocError>
        requires { 0 < watches }
        ensures { IfOk result (λ board. shown board ≡ first.now) }
    {
        let places = usize::from(watches);
        let writer = Writer::new(alloc, first.again(), first.again(), places)?;
        Ok(Board {
            writer: turn(writer, first, wait),
        })
    }

    /// Shows a publication of the same list.
    pub(crate) fn show(self, next: &Publication, wait: &impl Wait) -> Board
        requires { book_of next.now ≡ book_of (shown self) }
        ensures { shown result ≡ next.now }
    {
        let Board { writer } = self;
        Board {
            writer: turn(writer, next, wait),
        }
    }

    /// One more watch, which knows what is shown. None where no place is free.
    pub(crate) fn watch(&mut self, ranks: u16) -> Option<Watch>
        requires { ranks ≤ MOST_RANKS }
        ensures kept { shown self.new ≡ shown self.old }
        ensures watch { IfSome result (IsWatchOf ranks (book_of (shown self.old)) (list_known (shown self.old))) }
    {
        let Ok(mut reader) = self.writer.factory().reader() else {
            return None;
        };
        reader.learn::<Names>(self.writer.tell::<Names>());
        Some(Watch::new(ranks, reader, self.writer.published().again()))
    }

    /// Takes the board down. It waits for the watches that still read it.
    pub(crate) fn end(self, wait: &impl Wait) {
        let Board { writer } = self;
        drop(writer.take(wait));
    }
}
