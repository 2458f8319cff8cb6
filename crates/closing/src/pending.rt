//! What is known of receives whose messages nobody knows, and of the call in which a rank was.

ghost use Rattle.std.specs.Prelude.{◌≡◌, ◌==◌, ◌++◌, ℕ, [], ◌∷◌, None, Some, true, unwrap_or, if◌then◌else◌, OnOk};
ghost use Rattle.std.specs.List.{list_any};
ghost use Rattle.mpicall.specs.Word.{or_else};
ghost use Rattle.closing.specs.Sinks.{are_alike, overlap};
ghost use Rattle.closing.specs.inner.Sinks.{name_of, named_in};

use std::alloc::{AllocError, Global};
use std::collections::HashMap;

/// The messages that a receive or probe may take: on the communicator, from the rank of its group, with the tag. None
/// stands for any.
#[derive(Clone, Copy, PartialEq, Eq)]
pub struct Wanted {
    pub comm: u16,
    pub source: Option<u16>,
    pub tag: Option<u32>,
}

/// A receive of which nobody knows what it took. In the list a receive from nobody has its place.
#[derive(Clone, Copy, PartialEq, Eq)]
pub struct Sink {
    pub place: u32,
    pub wanted: Wanted,
}

/// What a pending call waits for: one of these messages, or the active request with the number.
#[derive(Clone, Copy, PartialEq, Eq)]
pub enum Item {
    Message(Wanted),
    Request(u32),
}

/// The call in which a rank was when its list was left open: it comes back once all of its items came, or one of them.
/// Without items nothing is known of it.
#[derive(Drop)]
pub struct Pending {
    pub is_for_all: bool,
    pub items: Vec<Item>,
}

impl Pending {
    pub(crate) fn unknown(alloc: Global) -> Pending
        ensures all { result.is_for_all ≡ true }
        ensures none { result.items.items ≡ [] }
    {
        Pending {
            is_for_all: true,
            items: Vec::new(alloc),
        }
    }
}

/// Whether one of them may be the other.
fn are_alike_ranks(one: Option<u16>, other: Option<u16>) -> bool
    ensures { result ≡ are_alike one other }
{
    match (one, other) {
        (Some(one), Some(other)) => one == other,
        _ => true,
    }
}

fn are_alike_tags(one: Option<u32>, other: Option<u32>) -> bool
    ensures { result ≡ are_alike one other }
{
    match (one, other) {
        (Some(one), Some(other)) => one == other,
        _ => true,
    }
}

/// Whether some message may be taken by both.
fn overlap(one: &Wanted, other: &Wanted) -> bool
    ensures { result ≡ overlap one.now other.now }
{
    one.comm == other.comm
        && are_alike_ranks(one.source, other.source)
        && are_alike_tags(one.tag, other.tag)
}

/// The sinks of a rank's list.
#[derive(Drop)]
pub(crate) struct Sinks {
    all: Vec<Sink>,
    /// The messages of those that have a request or message of the journal, by its number.
    named: HashMap<u32, Wanted>,
}

impl Sinks {
    pub(crate) fn new(alloc: Global) -> Sinks
        ensures all { result.all.items ≡ [] }
        ensures named { (id : ℕ) → named_in result id ≡ None }
    {
        Sinks {
            all: Vec::new(alloc),
            named: HashMap::new(alloc),
        }
    }

    pub(crate) fn all(&self) -> &[Sink]
        ensures { result.now ≡ self.now.all.items }
    {
        self.all.as_slice()
    }

    #[inline(always)]
    pub(crate) fn are_none(&self) -> bool
        ensures { result ≡ true → self.now.all.items ≡ [] }
    {
        self.all.as_slice().is_empty()
    }

    /// Whether a sink may take one of these messages.
    pub(crate) fn overlap(&self, wanted: &Wanted) -> bool
        ensures { result ≡ list_any (λ sink. overlap wanted.now sink.wanted) self.now.all.items }
    {
        self.all
            .as_slice()
            .iter()
            .any(|sink| overlap(wanted, &sink.wanted))
    }

    /// The messages of the sink that is a request's.
    pub(crate) fn named(&self, id: u32) -> Option<Wanted>
        ensures { result ≡ named_in self.now id }
    {
        self.named.get(&id).copied()
    }

    fn add(&mut self, sink: Sink) -> Result<(), AllocError>
        ensures named { self.new.named ≡ self.old.named }
        ensures all { OnOk result (self.new.all.items ≡ self.old.all.items ++ sink ∷ []) }
    {
        self.all.push(sink)?;
        Ok(())
    }

    /// What the sink of a request may take; where there is none, this.
    fn named_or(&self, id: u32, wanted: Wanted) -> Wanted
        ensures { result ≡ unwrap_or (named_in self.now id) wanted }
    {
        match self.named(id) {
            Some(first) => first,
            None => wanted,
        }
    }

    /// A request or message of the journal is that of a sink; of several with one number the first stays.
    fn name(&mut self, id: u32, wanted: Wanted) -> Result<(), AllocError>
        ensures all { self.new.all ≡ self.old.all }
        ensures named { OnOk result ((other : ℕ) → named_in self.new other ≡ or_else (named_in self.old other) (if id == other then Some wanted else None)) }
    {
        let first = self.named_or(id, wanted);
        self.named.insert(id, first)?;
        Ok(())
    }

    /// Puts a sink, with its request or message of the journal, if it has one.
    pub(crate) fn put(&mut self, sink: Sink, own: Option<u32>) -> Result<(), AllocError>
        ensures all { OnOk result (self.new.all.items ≡ self.old.all.items ++ sink ∷ []) }
        ensures named { OnOk result ((id : ℕ) → named_in self.new id ≡ or_else (named_in self.old id) (name_of own sink.wanted id)) }
    {
        self.add(sink)?;
        match own {
            Some(own) => self.name(own, sink.wanted),
            None => Ok(()),
        }
    }
}
