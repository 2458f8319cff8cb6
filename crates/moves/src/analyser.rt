//! The analyser: it takes records one by one, of any rank, and knows at any time where the ranks stand.
//!
//! The bound on touches is an account in the analyser's invariant, and no counter of the code. A call pays
//! 3 when it is accepted, 13 when it is reached, 2 when it is passed and 4 when its wave is complete: 22 in
//! all, of the 24 that the contract promises. Looks aren't counted.

ghost use Rattle.std.specs.Prelude.{◌≡◌, ◌≢◌, ◌<◌, ◌≤◌, ◌↔◌, [], length, true, replicate, slice_get, option_map, None, Some, Err, IfOk, IfErr, IfSome, OnOk, OnErr};
ghost use Rattle.std.specs.List.{list_all, range_with_len};
ghost use Rattle.mpigroup.specs.Groups.{ranks_of};
ghost use Rattle.callstore.specs.Limits.{most_calls};
ghost use Rattle.callstore.specs.Recordings.{calls_of, appended, is_ended, IsClosed};
ghost use Rattle.pairing.specs.Faults.{fault_of, IsLawful};
ghost use Rattle.pairing.specs.Pairs.{TellsFault};
ghost use Rattle.pairing.specs.declared.added.PairFault.TheVariants.{Refused, Memory};
ghost use Rattle.moves.specs.Runs.{start, IsTheEnd, StandsNoLater};
ghost use Rattle.moves.specs.Needs.{can_move};
ghost use Rattle.moves.specs.Stands.{stands_of, is_at_end};
ghost use Rattle.moves.specs.Arrivals.{IsKeptOn};
ghost use Rattle.moves.specs.Analysed.{most_touches, ranks_waiting};

use crate::progress::Progress;
use crate::reading::Reading;
use crate::settle::arrive;
use crate::waiters::Waiters;
use crate::world::{Positions, World};
use mpicall::record::Record;
use mpigroup::head::Head;
pub use pairing::added::PairFault as OfferFault;
use pairing::pairs::Pairs;
use std::alloc::{AllocError, Global};
use std::marker::Model;

/// The calls of all ranks that were accepted so far, and where the ranks stand. Contracts see the groups of
/// the run's head, the reading, each rank's list of calls, and each rank's stand: the number of its calls that it has
/// completed. At any time the ranks stand where every maximal run over these calls ends. They see too how
/// much was done in the arena in which waiting ranks are linked, and how often waiting ranks and waves were
/// touched: what that arena counts, and the changes of how far waves are.
pub struct Analyser {
    world: World,
    positions: Positions,
}

// By hand: a derived drop is proved again at each exit of a function that owns one.
impl Drop for Analyser {
    fn drop(self) {
        let Analyser {
            world: _,
            positions: _,
        } = self;
    }
}

impl Model for Analyser {
    ghost use Rattle.moves.specs.Analysed.{Analysed};
    ghost use Rattle.moves.specs.inner.Waiting.{touches_of};
    ghost use Rattle.moves.specs.inner.Positions.{AreSettled};

    ghost Value = { Analysed };

    ghost view = { λ a. record {
      reading = a.world.reading;
      groups = a.world.pairs.groups;
      recording = a.world.pairs.recording;
      stands = a.positions.stands.items;
      work = a.positions.waiters.work;
      touches = touches_of a.positions.progress a.positions.waiters;
    } };

    ghost invariant = { λ a. AreSettled a.world a.positions };
}

/// The place of the next call of a rank.
#[inline(always)]
fn next_place(pairs: &Pairs, rank: u16) -> u32
    ensures value { result ≡ length (calls_of pairs.now.recording rank) }
    ensures most { result ≤ most_calls }
{
    pairs.accepted(rank).unwrap_or(0)
}

/// Whether the list of each of the first ranks is ended.
fn are_ended(pairs: &Pairs, ranks: u16) -> bool
    ensures { result ≡ list_all (λ rank. is_ended (calls_of pairs.now.recording rank)) (range_with_len 0 ranks) }
{
    (0..ranks).all(|rank| pairs.is_ended(rank))
}

/// Whether the list of each rank is closed.
fn are_closed(pairs: &Pairs) -> bool
    ensures { (result ≡ true) ↔ IsClosed pairs.now.recording }
{
    pairs.calls_are_lawful();
    are_ended(pairs, pairs.head().ranks())
}

impl Analyser {
    /// No calls yet, for the ranks of the head, each of which stands at 0. The sends are read by the reading, at all
    /// times.
    pub fn new(alloc: Global, head: Head, reading: Reading) -> Result<Analyser, AllocError>
        ensures reading { IfOk result (λ analyser. analyser.reading ≡ reading) }
        ensures groups { IfOk result (λ analyser. analyser.groups ≡ head) }
        ensures recording { IfOk result (λ analyser. analyser.recording ≡ replicate (ranks_of head) []) }
        ensures stands { IfOk result (λ analyser. analyser.stands ≡ start (ranks_of head)) }
        ensures end { IfOk result (λ analyser. IsTheEnd (can_move analyser.reading analyser.groups analyser.recording) (length analyser.recording) analyser.stands) }
        ensures work { IfOk result (λ analyser. analyser.work ≡ 0) }
        ensures touches { IfOk result (λ analyser. analyser.touches ≡ 0) }
    {
        let (ranks, comms) = (head.ranks(), head.comms());
        let stands = vec![in alloc; 0u32; usize::from(ranks)]?;
        let progress = Progress::new(alloc, comms)?;
        let waiters = Waiters::new(alloc, ranks, comms)?;
        let pairs = Pairs::new(alloc, head)?;
        Ok(Analyser {
            world: World { reading, pairs },
            positions: Positions {
                stands,
                progress,
                waiters,
            },
        })
    }

    /// Takes the next call of a rank, and moves the ranks on until none can move. The call is refused
    /// exactly where it has a fault after its rank's calls so far, with the first one, or where memory
    /// runs out; and then all is as it was. Once the call is accepted, the rest takes no memory.
    #[inline(always)]
    pub fn offer(&mut self, rank: u16, call: &Record) -> Result<(), OfferFault>
        requires is_rank { rank < length self.old.recording }
        ensures reading { self.new.reading ≡ self.old.reading }
        ensures groups { self.new.groups ≡ self.old.groups }
        ensures ok { OnOk result (self.new.recording ≡ appended self.old.recording rank call.now) }
        ensures refused { IfSome (fault_of self.old.groups rank (calls_of self.old.recording rank) call.now) (λ fault. result ≡ Err (Refused fault)) }
        ensures fault { IfErr result (TellsFault (fault_of self.old.groups rank (calls_of self.old.recording rank) call.now)) }
        ensures err { OnErr result (self.new ≡ self.old) }
        ensures kept { result ≢ Err Memory → IsKeptOn self.old.groups self.old.recording self.new.recording (rank, call.now) }
        ensures end { IsTheEnd (can_move self.new.reading self.new.groups self.new.recording) (length self.new.recording) self.new.stands }
        ensures stands { self.new.stands ≡ stands_of self.new.reading self.new.groups self.new.recording }
        ensures no_lower { StandsNoLater self.old.stands self.new.stands }
        ensures touches { self.new.touches ≤ most_touches self.new.recording }
        ensures no_fewer { self.old.touches ≤ self.new.touches }
    {
        let place = next_place(&self.world.pairs, rank);
        match self.world.pairs.admit(rank, place, call) {
            Ok(()) => {
                arrive(&self.world, &mut self.positions, rank, place);
                Ok(())
            }
            Err(fault) => Err(fault),
        }
    }

    /// How much was done so far to have the ranks stand where they do: 1 each time that a rank was put into a
    /// list of waiting ranks or of those to look at, or taken out of one, and 1 each time that it was noted
    /// how far a communicator's waves are. So it is no less than what was done in the arena of those lists, and that
    /// no less than the number of ranks that wait. Looks are not counted.
    pub fn touches(&self) -> u64
        ensures value { result ≡ self.now.touches }
        ensures linked { ranks_waiting self.now.recording self.now.stands ≤ self.now.work }
        ensures least { self.now.work ≤ result }
        ensures most { result ≤ most_touches self.now.recording }
    {
        let work = self.positions.waiters.work();
        work.saturating_add(self.positions.progress.changes)
    }

    /// The calls that were accepted, with the reading of their sends.
    pub fn world(&self) -> &World
        ensures reading { result.now.reading ≡ self.now.reading }
        ensures groups { result.now.pairs.groups ≡ self.now.groups }
        ensures recording { result.now.pairs.recording ≡ self.now.recording }
    {
        &self.world
    }

    /// By which reading the sends are read.
    pub fn reading(&self) -> Reading
        ensures { result ≡ self.now.reading }
    {
        self.world.reading
    }

    /// The head of the run.
    #[inline(always)]
    pub fn head(&self) -> &Head
        ensures value { result.now ≡ self.now.groups }
        ensures ranks { length self.now.recording ≡ ranks_of self.now.groups }
    {
        self.world.pairs.head()
    }

    /// No call that was accepted has a fault after those of its rank before it. A law: it does nothing.
    pub fn calls_are_lawful(&self)
        ensures { IsLawful self.now.groups self.now.recording }
    {
        self.world.pairs.calls_are_lawful();
    }

    /// The ranks stand where every maximal run over the calls that were accepted ends. A law: it does nothing.
    pub fn stands_are_the_end(&self)
        ensures end { IsTheEnd (can_move self.now.reading self.now.groups self.now.recording) (length self.now.recording) self.now.stands }
        ensures stands { self.now.stands ≡ stands_of self.now.reading self.now.groups self.now.recording }
    {
        // For the proof: what the analyser's type says of the stands is known once they are read.
        let _stands = self.positions.stands.len();
    }

    /// The calls that were accepted, with what each means for the others.
    pub fn pairs(&self) -> &Pairs
        ensures groups { result.now.groups ≡ self.now.groups }
        ensures recording { result.now.recording ≡ self.now.recording }
    {
        &self.world.pairs
    }

    /// Where the ranks stand, the lowest first.
    pub fn stands(&self) -> &[u32]
        ensures { result.now ≡ self.now.stands }
    {
        self.positions.stands.as_slice()
    }

    /// Where a rank stands: how many of its calls it has completed. None where there is no such rank.
    pub fn stand(&self, rank: u16) -> Option<u32>
        ensures { result ≡ slice_get self.now.stands rank }
    {
        self.positions.stands.get(usize::from(rank)).copied()
    }

    /// Whether a rank stands at the call that ends its list, its Finalize or the end of a list that was cut off; not
    /// where there is no such rank.
    pub fn is_ended(&self, rank: u16) -> bool
        ensures { result ≡ is_at_end self.now.recording self.now.stands rank }
    {
        match self.world.pairs.call(rank, self.positions.stand(rank)) {
            Some(call) => call.ends_list(),
            None => false,
        }
    }

    /// Whether the list of each rank is ended: its Finalize was accepted, or that the list was cut off.
    pub fn is_closed(&self) -> bool
        ensures { (result ≡ true) ↔ IsClosed self.now.recording }
    {
        are_closed(&self.world.pairs)
    }

    /// The call of a rank at a place; None where there is none.
    pub fn record(&self, rank: u16, place: u32) -> Option<Record>
        ensures { result ≡ slice_get (calls_of self.now.recording rank) place }
    {
        match self.world.pairs.call(rank, place) {
            Some(call) => Some(call.record()),
            None => None,
        }
    }

    /// How many calls of a rank were accepted; None where there is no such rank.
    pub fn accepted(&self, rank: u16) -> Option<u32>
        ensures value { result ≡ option_map length (slice_get self.now.recording rank) }
        ensures most { IfSome result (λ count. count ≤ most_calls) }
    {
        self.world.pairs.accepted(rank)
    }
}
