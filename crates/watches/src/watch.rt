//! A watch: it says how far each rank has come, and never waits.
//!
//! A watch answers by the last publication that it has seen or learned of. What it knows only grows, so its answers
//! for a rank never fall, and none is below what it learned. A thread that shows where each rank stands while a
//! session runs, another thread steps and publishes:
//!
//! ```text
//! let (feeds, mut collector, mut watches) = Session::open(alloc, head, Reading::Strict, 64, 1, &rt)?;
//!
//! // One thread takes the records, and publishes now and then.
//! collector.step(rank);
//! let told = collector.publish(&rt)?;
//!
//! // Another one has the watch, and shows how far the ranks are whenever it likes.
//! while let Ok(Some(stand)) = watch.read(rank) {
//!     println!(rt; "rank {rank}: {stand} calls")?;
//!     thread::yield_now();
//! }
//!
//! // Whoever hands it what `publish` answered makes sure that it shows no less from then on.
//! watch.learn(&told);
//! ```

ghost use Rattle.std.specs.Prelude.{◌≡◌, ◌≤◌, true, false, is_some, None, Some, Ok, IfOk, OnErr};
ghost use Rattle.std.specs.Option.{ForSome};
ghost use mathlib.Core.List.{IsPrefix};
ghost use Rattle.left_right.specs.Sides.{view};
ghost use Rattle.mpigroup.specs.declared.limits.TheConstants.{MOST_RANKS};
ghost use Rattle.watches.specs.Published.{list_known, book_of};
ghost use Rattle.watches.specs.Publications.{last_published, NeverFalls};
ghost use Rattle.watches.specs.inner.Shown.{list_shown};

use crate::board::{OneList, Sees, View};
use crate::publication::Publication;
use crate::stands::Stands;
use left_right::reader::Reader;
use thiserror::Error;

/// The collector was withdrawn, so nothing more will be shown.
#[derive(Clone, Copy, Debug, PartialEq, Eq, Error)]
#[error("gone")]
pub struct Gone;

type BoardReader = Reader<Publication, View, OneList>;

/// A reader of the stands of a session's ranks. A thread of its own may have it.
#[derive(Drop)]
pub struct Watch {
    ranks: u16,
    /// It is away only within a look.
    reader: Option<BoardReader>,
    known: Publication,
    ghost few: { ranks ≤ MOST_RANKS },
    ghost there: { is_some reader ≡ true },
    ghost same: { ForSome reader (λ reader. view reader.place ≡ list_shown known) },
}

/// What is answered of a publication. Threads may share it.
#[derive(Drop)]
pub struct Told {
    publication: Publication,
}

impl Told {
    ghost use Rattle.watches.specs.Watches.{publications_told, list_told};

    pub(crate) fn of(publication: &Publication) -> Told
        ensures told { publications_told result ≡ list_known publication.now }
        ensures list { list_told result ≡ book_of publication.now }
    {
        Told {
            publication: publication.again(),
        }
    }
}

/// Looks at the board, and keeps what is shown there if it is later than what is known. It answers whether
/// the board was there.
fn look(reader: BoardReader, known: &mut Publication) -> (BoardReader, bool)
    requires same { view reader.place ≡ list_shown known.old }
    ensures same { view result.0.place ≡ list_shown known.new }
    ensures this { IsPrefix (list_known known.old) (list_known known.new) }
    ensures gone { result.1 ≡ false → known.new ≡ known.old }
    ensures list { book_of known.new ≡ book_of known.old }
{
    match reader.enter_as::<Sees>() {
        Ok(reading) => {
            known.become_newer(reading.get());
            (reading.leave(), true)
        }
        Err(reader) => (reader, false),
    }
}

impl Watch {
    ghost use Rattle.watches.specs.Watches.{seen_by, list_watched, ranks_watched, publications_told, list_told, IsWatchOf, ReadsAt};

    pub(crate) fn new(ranks: u16, reader: BoardReader, known: Publication) -> Watch
        requires few { ranks ≤ MOST_RANKS }
        requires same { view reader.place ≡ list_shown known }
        ensures { IsWatchOf ranks (book_of known) (list_known known) result }
    {
        Watch {
            ranks,
            reader: Some(reader),
            known,
        }
    }

    /// Where a rank stands in the last publication that is then known. None where there is no such rank, which
    /// is looked at first. Where the board is gone the watch stays as it was.
    #[tactic(auto, using(crate::proofs::RisingLemmas::never_falls))]
    pub fn read(&mut self, rank: u16) -> Result<Option<u32>, Gone>
        ensures none { ranks_watched self.old ≤ rank → result ≡ Ok None }
        ensures ok { IfOk result (λ stand. ReadsAt rank self.new stand) }
        ensures grows { IsPrefix (seen_by self.old) (seen_by self.new) }
        ensures never_falls { NeverFalls (last_published (seen_by self.old)) (last_published (seen_by self.new)) }
        ensures gone { OnErr result (seen_by self.new ≡ seen_by self.old) }
        ensures list { list_watched self.new ≡ list_watched self.old }
        ensures ranks { ranks_watched self.new ≡ ranks_watched self.old }
    {
        if rank >= self.ranks {
            return Ok(None);
        }
        let Some(reader) = self.reader.take() else {
            unreachable!()
        };
        let (reader, is_there) = look(reader, &mut self.known);
        self.reader = Some(reader);
        if is_there {
            Ok(Some(self.known.stands().of(rank)))
        } else {
            Err(Gone)
        }
    }

    /// Where all ranks stand in the last publication that is then known, at one moment. Where the board is gone the
    /// watch stays as it was.
    #[tactic(auto, using(crate::proofs::RisingLemmas::never_falls))]
    pub fn stands(&mut self) -> Result<Stands, Gone>
        ensures ok { IfOk result (λ stands. last_published (seen_by self.new) ≡ Some stands) }
        ensures grows { IsPrefix (seen_by self.old) (seen_by self.new) }
        ensures never_falls { NeverFalls (last_published (seen_by self.old)) (last_published (seen_by self.new)) }
        ensures gone { OnErr result (seen_by self.new ≡ seen_by self.old) }
        ensures list { list_watched self.new ≡ list_watched self.old }
        ensures ranks { ranks_watched self.new ≡ ranks_watched self.old }
    {
        let Some(reader) = self.reader.take() else {
            unreachable!()
        };
        let (reader, is_there) = look(reader, &mut self.known);
        self.reader = Some(reader);
        if is_there {
            Ok(*self.known.stands())
        } else {
            Err(Gone)
        }
    }

    /// What it answers by.
    pub(crate) fn known(&self) -> &Publication
        ensures { result.now ≡ self.now.known }
    {
        &self.known
    }

    /// Learns what `publish` answered. From then on no answer is below it.
    #[tactic(auto, using(crate::proofs::RisingLemmas::never_falls))]
    pub fn learn(&mut self, told: &Told)
        requires { list_told told.now ≡ list_watched self.old }
        ensures told { IsPrefix (publications_told told.now) (seen_by self.new) }
        ensures no_less { NeverFalls (last_published (publications_told told.now)) (last_published (seen_by self.new)) }
        ensures grows { IsPrefix (seen_by self.old) (seen_by self.new) }
        ensures never_falls { NeverFalls (last_published (seen_by self.old)) (last_published (seen_by self.new)) }
        ensures list { list_watched self.new ≡ list_watched self.old }
        ensures ranks { ranks_watched self.new ≡ ranks_watched self.old }
    {
        self.known.become_newer(&told.publication);
    }
}
