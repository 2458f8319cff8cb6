//! Sends that no receive has, by the ranks to which they go.

ghost use Rattle.std.specs.Prelude.{◌≡◌, ◌≢◌, ◌<◌, true, [], ◌∷◌, ◌++◌, ℕ, length, option_to_list, IfOk, OnOk};
ghost use Rattle.callstore.specs.Recordings.{calls_of};
ghost use Rattle.waitgraph.specs.Pending.{spare_at, spare_to, spares_by, spares_to};
ghost use Rattle.waitgraph.specs.inner.Buckets.{bucket};
ghost use Rattle.waitgraph.specs.inner.Scenes.{is_asked};

use crate::pending::{PendingCall, Spare};
use callstore::envelope::{Envelope, Half, envelope_by, rank_of_half};
use pairing::pairs::Pairs;
use std::alloc::{AllocError, Global};

/// The envelope of what the call at the place sends, where no receive has it.
#[tactic(auto, using(pairing::proofs::SeenLemmas::seen_partner))]
pub(crate) fn spare_at(pairs: &Pairs, sender: u16, place: u32) -> Option<Envelope>
    ensures { result ≡ spare_at pairs.now.groups pairs.now.recording sender place }
{
    let call = pairs.at(sender, place)?;
    if call.partner(Half::Send).is_some() {
        return None;
    }
    let message = call.call().message(Half::Send)?;
    let own = pairs.head().group_rank(message.comm, sender)?;
    Some(envelope_by(Half::Send, message, own))
}

/// No spare sends yet, to so many ranks.
fn no_spares(alloc: Global, ranks: u16) -> Result<Vec<Vec<Spare>>, AllocError>
    ensures len { IfOk result (λ spares. length spares.items ≡ ranks) }
    ensures none { IfOk result (λ spares. (rank : ℕ) → bucket spares.items rank ≡ []) }
{
    let mut spares = Vec::new(alloc);
    for _rank in 0..ranks {
        spares.push(Vec::new(alloc))?;
    }
    Ok(spares)
}

/// Adds the send to those to the rank.
fn put(spares: &mut Vec<Vec<Spare>>, dest: u16, spare: Spare) -> Result<(), AllocError>
    requires { dest < length spares.old.items }
    ensures len { length spares.new.items ≡ length spares.old.items }
    ensures own { OnOk result (bucket spares.new.items dest ≡ bucket spares.old.items dest ++ spare ∷ []) }
    ensures others { OnOk result ((rank : ℕ) → rank ≢ dest → bucket spares.new.items rank ≡ bucket spares.old.items rank) }
{
    let to = &mut spares[usize::from(dest)];
    to.push(spare)?;
    Ok(())
}

/// Adds the call at the place, if it is a spare send.
fn add_at(
    spares: &mut Vec<Vec<Spare>>,
    pairs: &Pairs,
    sender: u16,
    place: u32,
) -> Result<(), AllocError>
    ensures len { length spares.new.items ≡ length spares.old.items }
    ensures more { OnOk result ((rank : ℕ) → rank < length spares.old.items → bucket spares.new.items rank ≡ bucket spares.old.items rank ++ option_to_list (spare_to pairs.now.groups pairs.now.recording rank sender place)) }
{
    let Some(envelope) = spare_at(pairs, sender, place) else {
        return Ok(());
    };
    let Some(dest) = rank_of_half(pairs.head(), Half::Recv, &envelope) else {
        return Ok(());
    };
    if usize::from(dest) < spares.len() {
        let spare = Spare {
            sender,
            place,
            envelope,
        };
        put(spares, dest, spare)?;
    }
    Ok(())
}

/// How many calls a rank has.
fn calls(pairs: &Pairs, rank: u16) -> u32
    ensures { result ≡ length (calls_of pairs.now.recording rank) }
{
    pairs.accepted(rank).unwrap_or(0)
}

fn add_of_rank(spares: &mut Vec<Vec<Spare>>, pairs: &Pairs, sender: u16) -> Result<(), AllocError>
    ensures len { length spares.new.items ≡ length spares.old.items }
    ensures more { OnOk result ((rank : ℕ) → rank < length spares.old.items → bucket spares.new.items rank ≡ bucket spares.old.items rank ++ spares_by pairs.now.groups pairs.now.recording rank sender) }
{
    for place in 0..calls(pairs, sender) {
        add_at(spares, pairs, sender, place)?;
    }
    Ok(())
}

/// How many ranks the run has.
fn ranks(pairs: &Pairs) -> u16
    ensures { result ≡ length pairs.now.recording }
{
    pairs.head().ranks()
}

/// The spare sends to each rank.
fn spares(alloc: Global, pairs: &Pairs) -> Result<Vec<Vec<Spare>>, AllocError>
    ensures { IfOk result (λ spares. (rank : ℕ) → rank < length pairs.now.recording → bucket spares.items rank ≡ spares_to pairs.now.groups pairs.now.recording rank) }
{
    let mut spares = no_spares(alloc, ranks(pairs))?;
    for sender in 0..ranks(pairs) {
        add_of_rank(&mut spares, pairs, sender)?;
    }
    Ok(spares)
}

/// Whether a pending call waits for something.
fn is_asked(pending: &[PendingCall]) -> bool
    ensures { result ≡ is_asked pending.now }
{
    pending.iter().any(|call| !call.items().is_empty())
}

/// The spare sends to each rank, where a pending call waits for something; no others are looked for.
pub(crate) fn spares_if_asked(
    alloc: Global,
    pairs: &Pairs,
    pending: &[PendingCall],
) -> Result<Vec<Vec<Spare>>, AllocError>
    ensures { IfOk result (λ spares. is_asked pending.now ≡ true → (rank : ℕ) → rank < length pairs.now.recording → bucket spares.items rank ≡ spares_to pairs.now.groups pairs.now.recording rank) }
{
    if is_asked(pending) {
        spares(alloc, pairs)
    } else {
        Ok(Vec::new(alloc))
    }
}
