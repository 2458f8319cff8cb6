//! The messages of receives and probes, and what can't be of peers, tags and roots.

ghost use Rattle.std.specs.Prelude.{◌≡◌, ◌&&◌, IsTrue, option_map};
ghost use Rattle.journals.specs.Known.{is_any};
ghost use Rattle.closing.specs.Reported.{known_field, with_wildcards, message_can_be, message_in, message_of, is_rooted, peer_can_be, root_can_be, tag_can_be};
ghost use Rattle.mpicall.specs.declared.word.Collective.TheVariants as coll;
ghost use Rattle.closing.specs.Endings.{sent_can_be};
ghost use Rattle.closing.specs.Entry.{root_in, peer as peer_of, tag as tag_number};
ghost use Rattle.closing.specs.inner.Views.{awaited_view, message_view, message_with_source, sent_view};

use crate::called::{Awaited, Sent};
use journals::field::Field;
use mpicall::call::Peer;
use mpicall::limits::GREATEST_RANK;
use mpicall::word::Collective;

/// The source and the tag of a message. By value the kit moves one: what is used again is copied from behind a
/// reference.
#[derive(Clone, Copy)]
pub(crate) struct Message {
    pub source: Field,
    pub tag: Field,
}

/// The message of the fields of a report.
pub(crate) fn message_in(fields: &[Field]) -> Option<Message>
    ensures { option_map message_view result ≡ message_in fields.now }
{
    match fields {
        [source, tag] => Some(Message {
            source: *source,
            tag: *tag,
        }),
        _ => None,
    }
}

/// A field, or what was reported where it is a wildcard.
fn known_field(field: Field, reported: Field) -> Field
    ensures { result ≡ known_field field reported }
{
    if field == Field::Any { reported } else { field }
}

/// What stands in the place of wildcards, where something was reported.
fn with_wildcards(awaited: &Awaited, reported: Option<Message>) -> Option<Message>
    ensures { option_map message_view result ≡ with_wildcards (awaited_view awaited.now) (option_map message_view reported) }
{
    match reported {
        Some(reported) => Some(Message {
            source: known_field(awaited.source, reported.source),
            tag: known_field(awaited.tag, reported.tag),
        }),
        None => None,
    }
}

fn is_any(field: Field) -> bool
    ensures { result ≡ is_any field }
{
    matches!(field, Field::Any)
}

/// The message that a receive or probe takes or sees that has a source; None where it has a wildcard of which
/// nothing was reported.
#[inline(always)]
fn message_from(awaited: &Awaited, reported: Option<Message>) -> Option<Message>
    ensures { option_map message_view result ≡ message_with_source (awaited_view awaited.now) (option_map message_view reported) }
{
    if is_any(awaited.source) || is_any(awaited.tag) {
        return with_wildcards(awaited, reported);
    }
    Some(Message {
        source: awaited.source,
        tag: awaited.tag,
    })
}

/// The message that a receive or probe takes or sees; None where it has a wildcard of which nothing was
/// reported. From nobody there is no wildcard: any tag is 0.
#[inline(always)]
pub(crate) fn message_of(awaited: &Awaited, reported: Option<Message>) -> Option<Message>
    ensures { option_map message_view result ≡ message_of (awaited_view awaited.now) (option_map message_view reported) }
{
    match awaited.source {
        Field::Null => Some(Message {
            source: Field::Null,
            tag: known_field(awaited.tag, Field::signed(0)),
        }),
        Field::Natural(_) | Field::Signed(_) | Field::Any | Field::Undefined => {
            message_from(awaited, reported)
        }
    }
}

// ---- What can be ----

/// Whether a peer is in a group of so many ranks, nobody, or not yet known.
pub(crate) fn peer_can_be(size: u32, peer: Field) -> bool
    ensures { result ≡ peer_can_be size peer }
{
    match peer {
        Field::Signed(rank) => {
            let rank = rank.get();
            0 <= rank && (rank as u32) < size
        }
        Field::Null | Field::Any => true,
        _ => false,
    }
}

fn tag_can_be(tag: Field) -> bool
    ensures { result ≡ tag_can_be tag }
{
    match tag {
        Field::Signed(tag) => 0 <= tag.get(),
        Field::Any => true,
        _ => false,
    }
}

fn is_rooted(collective: Collective) -> bool
    ensures { result ≡ is_rooted collective }
{
    matches!(
        collective,
        Collective::Bcast | Collective::Gather | Collective::Scatter | Collective::Reduce
    )
}

/// Whether a root is a rank of the group, where the collective has one.
pub(crate) fn root_can_be(size: u32, collective: Collective, root: Option<i32>) -> bool
    ensures { result ≡ root_can_be size collective root }
{
    match root {
        Some(root) => peer_can_be(size, Field::signed(root)),
        None => !is_rooted(collective),
    }
}

pub(crate) fn sent_can_be(size: u32, sent: &Sent) -> bool
    ensures { result ≡ sent_can_be size (sent_view sent.now) }
{
    peer_can_be(size, sent.dest) && tag_can_be(sent.tag)
}

/// Whether the message that a receive or probe took or saw can be, where that is known.
fn message_can_be(size: u32, message: Option<Message>) -> bool
    ensures { result ≡ message_can_be size (option_map message_view message) }
{
    match message {
        Some(message) => peer_can_be(size, message.source) && tag_can_be(message.tag),
        None => true,
    }
}

/// Whether what a receive or probe names can be, and the message that it took or saw, where that is known.
pub(crate) fn awaited_can_be(size: u32, awaited: &Awaited, message: Option<Message>) -> bool
    ensures { result ≡ (peer_can_be size awaited.now.source && (tag_can_be awaited.now.tag && message_can_be size (option_map message_view message))) }
{
    peer_can_be(size, awaited.source) && tag_can_be(awaited.tag) && message_can_be(size, message)
}

// ---- Fields of the trace ----

pub(crate) fn rank_of(peer: Field) -> Peer
    ensures { IsTrue (peer_can_be 1024 peer) → result ≡ peer_of peer }
{
    let Field::Signed(rank) = peer else {
        return Peer::Null;
    };
    let rank = rank.get();
    if 0 <= rank && rank <= i32::from(GREATEST_RANK) {
        Peer::Rank(rank as u16)
    } else {
        Peer::Null
    }
}

pub(crate) fn tag_of(tag: Field) -> u32
    ensures { result ≡ tag_number tag }
{
    let Field::Signed(tag) = tag else {
        return 0;
    };
    let tag = tag.get();
    if 0 <= tag { tag as u32 } else { 0 }
}

pub(crate) fn root_of(root: Option<i32>) -> u16
    ensures { IsTrue (root_can_be 1024 coll.Bcast root) → result ≡ root_in root }
{
    match root {
        Some(root) if 0 <= root && root <= i32::from(GREATEST_RANK) => root as u16,
        _ => 0,
    }
}
