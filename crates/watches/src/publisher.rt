//! What publishes the stands: their list, and the board that shows the last of them where there are watches.
//!
//! The number of publications grows in the step in which the list does, before it is shown. To take the
//! board down is to wait for the watches that read it; `close` waits for nobody, so the collector holds the
//! board in a `ManuallyDrop`, and `withdraw` takes it down in order.

ghost use Rattle.std.specs.Prelude.{◌≡◌, ◌≤◌, [], ◌∷◌, All, IfOk, IfSome, vec_len, vec_capacity};
ghost use Rattle.std.specs.Option.{ForSome};
ghost use Rattle.core.specs.Mem.{manually_drop_value};
ghost use Rattle.mpigroup.specs.declared.limits.TheConstants.{MOST_RANKS};
ghost use Rattle.watches.specs.Boards.{shown};
ghost use Rattle.watches.specs.Published.{list_known, book_of};
ghost use Rattle.watches.specs.inner.Written.{IsLast};
ghost use Rattle.watches.specs.Watches.{IsWatchOf};

use crate::append::Pen;
use crate::board::Board;
use crate::publication::Publication;
use crate::stands::Stands;
use crate::watch::{Told, Watch};
use core::mem::ManuallyDrop;
use std::alloc::Global;
use std::sync::Wait;
use thiserror::Error;

/// Why a session wasn't opened.
#[derive(Clone, Copy, Debug, PartialEq, Eq, Error)]
pub enum OpenFault {
    #[error("memory")]
    Memory,
    /// A watch found no place.
    #[error("watch")]
    Watch,
}

/// Why stands weren't published.
#[derive(Clone, Copy, Debug, PartialEq, Eq, Error)]
pub enum PublishFault {
    /// They are no further than those that were published last.
    #[error("no further")]
    NoFurther,
}

/// The publications of a session, and the board that shows the last one. There is a board only where there are
/// watches. It isn't taken down when this is dropped, since that would wait for the watches.
#[derive(Drop)]
pub struct Publisher {
    pen: Pen,
    last: Publication,
    board: Option<ManuallyDrop<Board>>,
    ghost head: { IsLast pen last },
    ghost shown: { ForSome board (λ board. shown (manually_drop_value board) ≡ last) },
}

/// A board that may be let go of.
fn left_up(board: Board) -> ManuallyDrop<Board>
    ensures { manually_drop_value result ≡ board }
{
    unsafe { ManuallyDrop::new_unchecked(board) }
}

/// So many watches of a board. None where one found no place.
fn watch_all(board: &mut Board, watches: u16, ranks: u16, all: Vec<Watch>) -> Option<Vec<Watch>>
    requires ranks { ranks ≤ MOST_RANKS }
    requires nothing { all.items ≡ [] }
    requires room { watches ≤ vec_capacity all }
    ensures kept { shown board.new ≡ shown board.old }
    ensures len { IfSome result (λ all. vec_len all ≡ watches) }
    ensures watches { IfSome result (λ all. All (IsWatchOf ranks (book_of (shown board.old)) (list_known (shown board.old))) all.items) }
{
    let mut all = all;
    for _ in 0..watches {
        let watch = board.watch(ranks)?;
        let Ok(()) = all.push(watch) else {
            unreachable!()
        };
    }
    Some(all)
}

impl Publisher {
    ghost use mathlib.Core.List.{IsPrefix};
    ghost use Rattle.std.specs.Prelude.{◌≢◌, Err, OnOk, OnErr, false};
    ghost use Rattle.watches.specs.declared.publisher.OpenFault.TheVariants.{Watch as WatchFault};
    ghost use Rattle.watches.specs.Publications.{at_start, AreRising, Publishes, IsNoFurther};
    ghost use Rattle.watches.specs.Publishers.{published_by, book_published, is_watched, IsShown};
    ghost use Rattle.watches.specs.Watches.{publications_told, list_told, seen_by, list_watched, AnswersBy};

    /// A new list, whose first publication are the stands 0 everywhere, and so many watches.
    pub fn open(
        alloc: Global,
        ranks: u16,
        watches: u16,
        wait: &impl Wait,
    ) -> Result<(Publisher, Vec<Watch>), OpenFault>
        requires { ranks ≤ MOST_RANKS }
        ensures published { IfOk result (λ ends. published_by ends.0 ≡ at_start ∷ []) }
        ensures rising { IfOk result (λ ends. AreRising (published_by ends.0)) }
        ensures len { IfOk result (λ ends. vec_len ends.1 ≡ watches) }
        ensures watches { IfOk result (λ ends. All (IsWatchOf ranks (book_published ends.0) (at_start ∷ [])) ends.1.items) }
        ensures unwatched { watches ≡ 0 → result ≢ Err WatchFault }
    {
        let pen = Pen::begin();
        let last = Publication::first(pen.known());
        let Ok(all) = Vec::with_capacity(alloc, usize::from(watches)) else {
            return Err(OpenFault::Memory);
        };
        if watches == 0 {
            let publisher = Publisher {
                pen,
                last,
                board: None,
            };
            return Ok((publisher, all));
        }
        let Ok(mut board) = Board::open(alloc, &last, watches, wait) else {
            return Err(OpenFault::Memory);
        };
        let Some(all) = watch_all(&mut board, watches, ranks, all) else {
            board.end(wait);
            return Err(OpenFault::Watch);
        };
        let publisher = Publisher {
            pen,
            last,
            board: Some(left_up(board)),
        };
        Ok((publisher, all))
    }

    /// Publishes stands, unless they were published last. It takes no memory, and refuses only stands that are neither
    /// the last nor further.
    pub fn publish(&mut self, stands: &Stands, wait: &impl Wait) -> Result<Told, PublishFault>
        ensures ok { OnOk result (Publishes stands.now (published_by self.old) (published_by self.new)) }
        ensures err { OnErr result (published_by self.new ≡ published_by self.old) }
        ensures refused { OnErr result (IsNoFurther stands.now (published_by self.old)) }
        ensures rising { AreRising (published_by self.new) }
        ensures told { IfOk result (λ told. publications_told told ≡ published_by self.new) }
        ensures list_told { IfOk result (λ told. list_told told ≡ book_published self.new) }
        ensures list { book_published self.new ≡ book_published self.old }
        ensures shown { IsShown self.new }
        ensures watched { is_watched self.new ≡ is_watched self.old }
    {
        if *stands == *self.last.stands() {
            return Ok(Told::of(&self.last));
        }
        if !self.last.become_next(&mut self.pen, stands) {
            return Err(PublishFault::NoFurther);
        }
        self.board = match self.board.take() {
            Some(board) => Some(left_up(ManuallyDrop::into_inner(board).show(&self.last, wait))),
            None => None,
        };
        Ok(Told::of(&self.last))
    }

    /// A watch of these publications shows what was published: what it has seen begins them, so it answers by one of
    /// them. That holds at any time; nothing is asked.
    pub fn published_all_seen(&self, watch: &Watch)
        requires { list_watched watch.now ≡ book_published self.now }
        ensures seen { IsPrefix (seen_by watch.now) (published_by self.now) }
        ensures answers { AnswersBy (published_by self.now) watch.now }
    {
        self.pen.wrote(watch.known().known());
    }

    /// Takes the board down. It waits for the watches that still read it.
    pub fn withdraw(&mut self, wait: &impl Wait)
        ensures published { published_by self.new ≡ published_by self.old }
        ensures list { book_published self.new ≡ book_published self.old }
        ensures watched { is_watched self.new ≡ false }
    {
        if let Some(board) = self.board.take() {
            ManuallyDrop::into_inner(board).end(wait);
        }
    }
}
