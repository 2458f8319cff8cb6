//! The sources of all ranks, read by turns in one thread, each record judged as soon as it is read.

ghost use Rattle.std.specs.Prelude.{◌≡◌, ◌<◌, true, false, None, All, IsTrue, length, replicate, vec_len};
ghost use Rattle.mpicall.specs.Source.{ended};
ghost use Rattle.gather.specs.Collected.{nothing_kept};
ghost use Rattle.driver.specs.VerdictContract.{AreFresh};
ghost use Rattle.driver.specs.inner.Turns.{at_turn, at_turns, first_turn, IsReady, IsLater, AreLater, AreReadOf};

use crate::turn::Turn;
use gather::feed::next_of;
use gather::gate::Gate;
use gather::ledger::Ledger;
use mpicall::device::Input;
use mpicall::record::Record;
use mpicall::source::Source;
use progress::tracker::Tracker;
use rankfeed::Ending;
use std::sync::Wait;

/// How many records of a rank are read before those of the next.
const RECORDS_A_TURN: u16 = 64;

/// Reads the next record of a source into one place, and enters it.
fn read_next<I: Input, G: Gate>(
    source: &mut Source<I>,
    turn: &mut Turn,
    rank: u16,
    ledger: &mut Ledger,
    into: &mut Record,
    gate: &G,
)
    requires is_rank { rank < length ledger.old.recording }
    requires going { turn.old.over ≡ false }
    requires fresh { ended source.old ≡ None }
    ensures { IsLater I.left (G.may_answer gate.now) rank (at_turn source.old turn.old) ledger.old (at_turn source.new turn.new) ledger.new }
{
    match next_of(rank, source, turn.done, &mut turn.line, into, gate) {
        None => {
            turn.done = into.ends_list();
            ledger.enter(rank, into);
        }
        Some(Ending::Sealed) => turn.over = true,
        Some(Ending::Torn(fault)) => {
            turn.over = true;
            ledger.tear(rank, fault);
        }
    }
}

/// Whether all sources have ended.
fn are_over(turns: &[Turn]) -> bool
    ensures { IsTrue result → All (λ turn. turn.over ≡ true) turns.now }
{
    for turn in turns {
        if !turn.over {
            return false;
        }
    }
    true
}

/// Reads some records of a source, and enters them.
fn take_a_turn<I: Input, G: Gate>(
    source: &mut Source<I>,
    turn: &mut Turn,
    ledger: &mut Ledger,
    rank: u16,
    gate: &G,
)
    requires is_rank { rank < length ledger.old.recording }
    requires ready { IsReady (at_turn source.old turn.old) }
    ensures { IsLater I.left (G.may_answer gate.now) rank (at_turn source.old turn.old) ledger.old (at_turn source.new turn.new) ledger.new }
{
    let mut into = Record::finalize();
    for _ in 0..RECORDS_A_TURN {
        if turn.over {
            return;
        }
        read_next(source, turn, rank, ledger, &mut into, gate);
    }
}

/// A turn of each source.
fn take_a_round<I: Input, G: Gate>(
    sources: &mut Vec<Source<I>>,
    turns: &mut Vec<Turn>,
    ledger: &mut Ledger,
    gate: &G,
)
    requires one_a_rank { length ledger.old.recording ≡ vec_len sources.old }
    requires one_a_source { vec_len turns.old ≡ vec_len sources.old }
    requires ready { All (λ turn. IsReady turn) (at_turns sources.old.items turns.old.items) }
    ensures later { AreLater I.left (G.may_answer gate.now) (at_turns sources.old.items turns.old.items) ledger.old (at_turns sources.new.items turns.new.items) ledger.new }
    ensures sources { vec_len sources.new ≡ vec_len sources.old }
    ensures turns { vec_len turns.new ≡ vec_len turns.old }
{
    for rank in 0..ledger.ranks() {
        let source = &mut sources[usize::from(rank)];
        let turn = &mut turns[usize::from(rank)];
        take_a_turn(source, turn, ledger, rank, gate);
    }
}

/// The most records of a round.
fn most_of(ranks: u16) -> u64 {
    u64::from(ranks) * u64::from(RECORDS_A_TURN)
}

/// Turns of all sources until each has ended. The tracker is handed the analyser after each round.
fn take_all_turns<I: Input, G: Gate>(
    sources: &mut Vec<Source<I>>,
    turns: &mut Vec<Turn>,
    ledger: &mut Ledger,
    gate: &G,
    tracker: &impl Tracker,
    wait: &impl Wait,
)
    requires one_a_rank { length ledger.old.recording ≡ vec_len sources.old }
    requires one_a_source { vec_len turns.old ≡ vec_len sources.old }
    requires ready { All (λ turn. IsReady turn) (at_turns sources.old.items turns.old.items) }
    ensures turns { AreLater I.left (G.may_answer gate.now) (at_turns sources.old.items turns.old.items) ledger.old (at_turns sources.new.items turns.new.items) ledger.new }
    ensures over { All (λ turn. turn.over ≡ true) turns.new.items }
{
    for _ in wait.forever() {
        if are_over(turns) {
            return;
        }
        take_a_round(sources, turns, ledger, gate);
        tracker.note(ledger.analyser(), most_of(ledger.ranks()));
    }
    unreachable!()
}

/// Reads the sources by turns, each to its end, and enters what comes. `turns` has the first turn of each source, so
/// that once the first record is read only the ledger takes memory.
pub(crate) fn read_in_turns<I: Input + Drop, G: Gate>(
    sources: Vec<Source<I>>,
    turns: Vec<Turn>,
    ledger: Ledger,
    gate: &G,
    tracker: &impl Tracker,
    wait: &impl Wait,
) -> Ledger
    requires one_a_rank { length ledger.recording ≡ vec_len sources }
    requires fresh { AreFresh sources.items }
    requires nothing_kept { ledger ≡ nothing_kept ledger.reading ledger.groups }
    requires none_begun { turns.items ≡ replicate (length sources.items) first_turn }
    ensures reading { result.reading ≡ ledger.reading }
    ensures groups { result.groups ≡ ledger.groups }
    ensures read { AreReadOf I.left (G.may_answer gate.now) sources.items result }
{
    let mut ledger = ledger;
    let mut sources = sources;
    let mut turns = turns;
    take_all_turns(&mut sources, &mut turns, &mut ledger, gate, tracker, wait);
    ledger
}
