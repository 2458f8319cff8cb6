//! How the halves of a noted call meet those that are pending.

ghost use Rattle.std.specs.Prelude.{◌≡◌, ◌+◌, ◌≤◌, ◌<◌, Some, option_map, IfSome, is_some};
ghost use Rattle.arenaqueue.specs.Numbers.{counted};
ghost use Rattle.callstore.specs.Envelopes.{other_half, rank_of_half};
ghost use Rattle.callstore.specs.Notes.{partnered};
ghost use Rattle.callstore.specs.inner.Notes.{recording_of};
ghost use Rattle.pairing.specs.inner.Matched.{Filing, filed_on, filed_halves, worked_if, worked, HasNumber, ArePaired, IsNext};
ghost use Rattle.callstore.specs.declared.envelope.Half.TheVariants.{Send as SendHalf, Recv as RecvHalf};

use crate::matches::{Halves, Matches, NumberedEnvelope};
use callstore::envelope::{Half, rank_of_half};
use callstore::notes::Notes;
use mpigroup::head::Head;

/// A half of a rank's call at a place.
#[derive(Clone, Copy)]
struct HalfAt {
    rank: u16,
    place: u32,
    half: Half,
}

/// Notes with a half of a call, and with the half that it met, where the other is.
#[inline(always)]
fn note_partners(head: &Head, notes: &mut Notes, at: HalfAt, own: &NumberedEnvelope, there: u32)
    ensures recording { recording_of notes.new.lists ≡ recording_of notes.old.lists }
    ensures partners { IfSome (rank_of_half head.now (other_half at.half) own.now.envelope) (λ other.
        notes.new.lists ≡ partnered (partnered notes.old.lists at.rank at.place at.half there) other there (other_half at.half) at.place) }
{
    if let Some(other) = rank_of_half(head, at.half.other(), &own.envelope) {
        notes.set_partner(at.rank, at.place, at.half, there);
        notes.set_partner(other, there, at.half.other(), at.place);
    }
}

/// A half of a noted call meets the first pending other half of its envelope, or is pending itself.
#[inline(always)]
fn meet_own(
    head: &Head,
    notes: &mut Notes,
    matches: &mut Matches,
    at: HalfAt,
    own: &NumberedEnvelope,
)
    requires number { HasNumber matches.old own.now }
    requires room { 0 < matches.old.spare }
    ensures recording { recording_of notes.new.lists ≡ recording_of notes.old.lists }
    ensures paired { (filing : Filing) → ArePaired head.now notes.old.lists filing matches.old
        → IsNext head.now (recording_of notes.old.lists) filing at.rank at.place at.half own.now.envelope
        → ArePaired head.now notes.new.lists (filed_on at.half (Some own.now.envelope) at.place filing) matches.new }
    ensures keys { matches.new.keys ≡ matches.old.keys }
    ensures spare { matches.old.spare ≤ matches.new.spare + 1 }
    ensures work { matches.new.work ≡ counted matches.old.work 1 }
{
    if let Some(there) = matches.meet(at.half, own.number, at.place) {
        note_partners(head, notes, at, own, there);
    }
}

/// A half of a noted call meets the first pending other half of its envelope, or is pending itself; nothing changes
/// where the call has no such half.
#[inline(always)]
fn meet_half(
    head: &Head,
    notes: &mut Notes,
    matches: &mut Matches,
    at: HalfAt,
    own: &Option<NumberedEnvelope>,
)
    requires number { IfSome own.now (HasNumber matches.old) }
    requires room { 0 < matches.old.spare }
    ensures recording { recording_of notes.new.lists ≡ recording_of notes.old.lists }
    ensures paired { (filing : Filing) → ArePaired head.now notes.old.lists filing matches.old
        → IfSome own.now (λ it. IsNext head.now (recording_of notes.old.lists) filing at.rank at.place at.half it.envelope)
        → ArePaired head.now notes.new.lists (filed_on at.half (option_map (λ it. it.envelope) own.now) at.place filing) matches.new }
    ensures keys { matches.new.keys ≡ matches.old.keys }
    ensures spare { matches.old.spare ≤ matches.new.spare + 1 }
    ensures work { matches.new.work ≡ worked_if (is_some own.now) matches.old.work }
{
    if let Some(own) = own {
        meet_own(head, notes, matches, at, own);
    }
}

/// The halves of the rank's noted call meet those that are pending.
#[inline(always)]
pub(crate) fn meet_halves(
    head: &Head,
    notes: &mut Notes,
    matches: &mut Matches,
    at: (u16, u32),
    halves: &Halves,
)
    requires send { IfSome halves.now.send (HasNumber matches.old) }
    requires recv { IfSome halves.now.recv (HasNumber matches.old) }
    requires room { 2 ≤ matches.old.spare }
    ensures recording { recording_of notes.new.lists ≡ recording_of notes.old.lists }
    ensures paired { (filing : Filing) → ArePaired head.now notes.old.lists filing matches.old
        → IfSome halves.now.send (λ it. IsNext head.now (recording_of notes.old.lists) filing at.0 at.1 SendHalf it.envelope)
        → IfSome halves.now.recv (λ it. IsNext head.now (recording_of notes.old.lists) filing at.0 at.1 RecvHalf it.envelope)
        → ArePaired head.now notes.new.lists (filed_halves halves.now at.1 filing) matches.new }
    ensures work { matches.new.work ≡ worked halves.now matches.old.work }
{
    let (rank, place) = at;
    let half = Half::Send;
    meet_half(
        head,
        notes,
        matches,
        HalfAt { rank, place, half },
        &halves.send,
    );
    let half = Half::Recv;
    meet_half(
        head,
        notes,
        matches,
        HalfAt { rank, place, half },
        &halves.recv,
    );
}
