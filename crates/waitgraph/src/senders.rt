//! Who is waited for by a rank that waits for a message.

ghost use Rattle.std.specs.Prelude.{◌≡◌, ◌<◌, ◌++◌, ◌&&◌, ◌==◌, length, map, IfOk, OnOk};
ghost use Rattle.std.specs.List.{filter, list_any};
ghost use Rattle.pairing.specs.LeftOpen.{is_left_open};
ghost use Rattle.waitgraph.specs.Pending.{is_wanted};
ghost use Rattle.waitgraph.specs.PendingNeeds.{is_source, may_send, is_sender, senders_of, on_senders, message_awaits};
ghost use Rattle.waitgraph.specs.inner.Scenes.{comes, staying, HasOpened, HasSpares};
ghost use Rattle.waitgraph.specs.declared.awaited.Awaited.TheVariants as awaited;

use crate::awaited::Awaited;
use crate::may_move::{Scene, message_comes, ranks, spares_of, stays, takes};
use crate::pending::{Spare, Wanted};
use mpigroup::head::Head;
use pairing::left_open::is_left_open;
use std::alloc::{AllocError, Global};

/// Whether the rank is one of those from which the message may come.
#[tactic(auto, using(crate::proofs::SenderLemmas::found_if_any))]
fn is_source(head: &Head, wanted: &Wanted, rank: u16) -> bool
    ensures { result ≡ is_source head.now wanted.now rank }
{
    let Some(source) = wanted.source else {
        return head.group_rank(wanted.comm, rank).is_some();
    };
    match head.world_rank(wanted.comm, source) {
        Some(sender) => sender == rank,
        None => false,
    }
}

/// Whether one of the spare sends is the sender's, and wanted.
fn has_spare(spares: &[Spare], wanted: &Wanted, sender: u16) -> bool
    ensures { result ≡ list_any (λ spare. spare.sender == sender && is_wanted wanted.now spare) spares.now }
{
    spares.iter().any(|spare| spare.sender == sender && takes(wanted, &spare.envelope))
}

/// Whether the rank's list was left open.
fn is_opened(scene: &Scene<'_>, rank: u16) -> bool
    requires { HasOpened scene.now }
    ensures { result ≡ is_left_open scene.now.world.now.pairs.recording rank }
{
    match scene.opened.get(usize::from(rank)) {
        Some(mark) => *mark,
        None => is_left_open(&scene.world.pairs, rank),
    }
}

/// Whether the sender may go on to send, or has a spare send of such a message to the rank.
fn may_send(scene: &Scene<'_>, rank: u16, wanted: &Wanted, sender: u16) -> bool
    requires is_rank { rank < length scene.now.world.now.pairs.recording }
    requires spares { HasSpares scene.now }
    requires opened { HasOpened scene.now }
    ensures { result ≡ may_send scene.now.world.now.pairs.groups scene.now.world.now.pairs.recording rank wanted.now sender }
{
    is_opened(scene, sender) || has_spare(spares_of(scene.spares, rank), wanted, sender)
}

/// Whether the sender is another rank that stays and may send such a message to the rank.
fn is_sender(scene: &Scene<'_>, marks: &[bool], rank: u16, wanted: &Wanted, sender: u16) -> bool
    requires is_rank { rank < length scene.now.world.now.pairs.recording }
    requires spares { HasSpares scene.now }
    requires opened { HasOpened scene.now }
    ensures { result ≡ is_sender scene.now.world.now.pairs.groups scene.now.world.now.pairs.recording (staying marks.now) rank wanted.now sender }
{
    stays(marks, sender)
        && sender != rank
        && is_source(scene.world.pairs.head(), wanted, sender)
        && may_send(scene, rank, wanted, sender)
}

/// The ranks that are so, rising.
fn senders(
    alloc: Global,
    scene: &Scene<'_>,
    marks: &[bool],
    rank: u16,
    wanted: &Wanted,
) -> Result<Vec<u16>, AllocError>
    requires is_rank { rank < length scene.now.world.now.pairs.recording }
    requires spares { HasSpares scene.now }
    requires opened { HasOpened scene.now }
    ensures { IfOk result (λ senders. senders.items ≡ senders_of scene.now.world.now.pairs.groups scene.now.world.now.pairs.recording (staying marks.now) rank wanted.now) }
{
    (0..ranks(scene))
        .filter(|sender| is_sender(scene, marks, rank, wanted, *sender))
        .collect(alloc)
}

/// Adds the ranks to what is awaited.
fn add_ranks(awaits: &mut Vec<Awaited>, ranks: &[u16]) -> Result<(), AllocError>
    ensures { OnOk result (awaits.new.items ≡ awaits.old.items ++ map awaited.Rank ranks.now) }
{
    for rank in ranks {
        awaits.push(Awaited::Rank { rank: *rank })?;
    }
    Ok(())
}

/// What is awaited where these ranks may send.
fn on_senders(alloc: Global, senders: &[u16]) -> Result<Vec<Awaited>, AllocError>
    ensures { IfOk result (λ awaits. awaits.items ≡ on_senders senders.now) }
{
    let mut awaits = Vec::new(alloc);
    if senders.is_empty() {
        awaits.push(Awaited::Nobody)?;
    } else {
        add_ranks(&mut awaits, senders)?;
    }
    Ok(awaits)
}

/// What is awaited for a message: nothing where one comes.
pub(crate) fn message_awaits(
    alloc: Global,
    scene: &Scene<'_>,
    marks: &[bool],
    rank: u16,
    wanted: &Wanted,
) -> Result<Vec<Awaited>, AllocError>
    requires is_rank { rank < length scene.now.world.now.pairs.recording }
    requires spares { HasSpares scene.now }
    requires opened { HasOpened scene.now }
    ensures { IfOk result (λ awaits. awaits.items ≡ message_awaits (comes scene.now marks.now) scene.now.world.now.pairs.groups scene.now.world.now.pairs.recording (staying marks.now) rank wanted.now) }
{
    if message_comes(scene, marks, rank, wanted) {
        return Ok(Vec::new(alloc));
    }
    let senders = senders(alloc, scene, marks, rank, wanted)?;
    on_senders(alloc, &senders)
}
