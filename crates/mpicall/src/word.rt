//! The words of the format. A call that starts an operation has an `i` before the operation's word.

ghost use Rattle.std.specs.Prelude.{◌≡◌, ◌≤◌, length, map};
ghost use Rattle.mpicall.specs.Word.{names, collective_of, operation_of, started_word, name_in, named_of, word_of, layout_of, letter_of, stem_of, collective_text, operation_text};
ghost use Rattle.mpicall.specs.Spelling.{name_of, root_of, word_of_call};
ghost use Rattle.mpicall.specs.declared.word.TheConstants.{NAMES};

use crate::call::{Call, Kind, Mode};

/// The collectives by name.
#[derive(Clone, Copy, PartialEq, Eq)]
pub enum Collective {
    Barrier,
    Bcast,
    Gather,
    Scatter,
    Reduce,
    Allgather,
    Alltoall,
    Allreduce,
    Scan,
    Exscan,
}

/// What a call may do at once, or start.
#[derive(Clone, Copy, PartialEq, Eq)]
pub enum Operation {
    Send(Mode),
    Recv,
    Coll(Collective),
}

/// What follows a word that is no operation's.
#[derive(Clone, Copy, PartialEq, Eq)]
pub enum Layout {
    /// Nothing.
    Nothing,
    /// A communicator, a source and a tag.
    Message,
    /// A communicator, a destination with its tag, a source with its tag, and how many bytes are sent, if that is said.
    Exchange,
    /// A request.
    Request,
    /// Requests.
    Requests,
    /// The index of a request, and the requests.
    Chosen,
    /// A communicator and a new one.
    Copy,
    /// A communicator, a colour, a key and a new communicator.
    Split,
}

/// The words that are no operation's.
#[derive(Clone, Copy, PartialEq, Eq)]
pub enum Name {
    Waitall,
    Wait,
    Waitany,
    Sendrecv,
    Dup,
    Split,
    Finalize,
    Probe,
    Open,
}

/// The text of each name and what follows it: a row each, in the order of the variants of `Name`.
pub const NAMES: [(&str, Name, Layout); 9] = [
    ("waitall", Name::Waitall, Layout::Requests),
    ("wait", Name::Wait, Layout::Request),
    ("waitany", Name::Waitany, Layout::Chosen),
    ("sendrecv", Name::Sendrecv, Layout::Exchange),
    ("dup", Name::Dup, Layout::Copy),
    ("split", Name::Split, Layout::Split),
    ("finalize", Name::Finalize, Layout::Nothing),
    ("probe", Name::Probe, Layout::Message),
    ("open", Name::Open, Layout::Nothing),
];

/// The table is that of the definitions. A law: it does nothing.
pub fn the_names_are_those_of_the_format()
    ensures { map (λ row. (row.0.now, row.1, row.2)) NAMES ≡ names }
{}

/// A word that a line may begin with.
#[derive(Clone, Copy, PartialEq, Eq)]
pub enum Word {
    Blocking(Operation),
    Started(Operation),
    Named(Name),
}

impl Word {
    /// The word of a call.
    pub fn of(call: &Call) -> Word
        ensures { result ≡ word_of_call call.now }
    {
        match *call {
            Call::Send { mode, .. } => Word::Blocking(Operation::Send(mode)),
            Call::Recv { .. } => Word::Blocking(Operation::Recv),
            Call::Isend { mode, .. } => Word::Started(Operation::Send(mode)),
            Call::Irecv { .. } => Word::Started(Operation::Recv),
            Call::Wait { .. } => Word::Named(Name::Wait),
            Call::Waitall { .. } => Word::Named(Name::Waitall),
            Call::Waitany { .. } => Word::Named(Name::Waitany),
            Call::Coll { kind, .. } => Word::Blocking(Operation::Coll(name_of(kind))),
            Call::Icoll { kind, .. } => Word::Started(Operation::Coll(name_of(kind))),
            _ => match call.call_args() {
                Some((name, _)) => Word::Named(name),
                None => Word::Named(Name::Finalize),
            },
        }
    }

    /// The letter before the word of an operation that a call starts; nothing before other words.
    pub fn letter(self) -> &'static str
        ensures { result.now ≡ letter_of self }
    {
        match self {
            Word::Started(_) => "i",
            _ => "",
        }
    }

    /// The text after that.
    pub fn stem(self) -> &'static str
        ensures value { result.now ≡ stem_of self }
        ensures short { length result.now ≤ 9 }
    {
        match self {
            Word::Blocking(operation) | Word::Started(operation) => operation_text(operation),
            Word::Named(name) => NAMES[name as usize].0,
        }
    }
}

/// What follows a name.
pub(crate) fn layout_of(name: Name) -> Layout
    ensures { result ≡ layout_of name }
{
    NAMES[name as usize].2
}

/// The collective that a field spells, if the format has it.
#[tactic(auto, unfolding(crate::specs::Word::collective_of))]
fn collective_of(field: &[u8]) -> Option<Collective>
    ensures { result ≡ collective_of field.now }
{
    if field == b"barrier".as_slice() {
        return Some(Collective::Barrier);
    }
    if field == b"bcast".as_slice() {
        return Some(Collective::Bcast);
    }
    if field == b"gather".as_slice() {
        return Some(Collective::Gather);
    }
    if field == b"scatter".as_slice() {
        return Some(Collective::Scatter);
    }
    if field == b"reduce".as_slice() {
        return Some(Collective::Reduce);
    }
    if field == b"allgather".as_slice() {
        return Some(Collective::Allgather);
    }
    if field == b"alltoall".as_slice() {
        return Some(Collective::Alltoall);
    }
    if field == b"allreduce".as_slice() {
        return Some(Collective::Allreduce);
    }
    if field == b"scan".as_slice() {
        return Some(Collective::Scan);
    }
    if field == b"exscan".as_slice() {
        return Some(Collective::Exscan);
    }
    None
}

/// The operation that a field spells, if the format has it.
#[tactic(auto, unfolding(crate::specs::Word::operation_of))]
fn operation_of(field: &[u8]) -> Option<Operation>
    ensures { result ≡ operation_of field.now }
{
    if field == b"send".as_slice() {
        return Some(Operation::Send(Mode::Standard));
    }
    if field == b"recv".as_slice() {
        return Some(Operation::Recv);
    }
    if field == b"ssend".as_slice() {
        return Some(Operation::Send(Mode::Synchronous));
    }
    if field == b"bsend".as_slice() {
        return Some(Operation::Send(Mode::Buffered));
    }
    match collective_of(field) {
        Some(collective) => Some(Operation::Coll(collective)),
        None => None,
    }
}

/// The word that starts the operation that a field spells after its `i`.
fn started_word(field: &[u8]) -> Option<Word>
    ensures { result ≡ started_word field.now }
{
    let (letter, text) = field.split_first()?;
    if *letter != b'i' {
        return None;
    }
    match operation_of(text) {
        Some(operation) => Some(Word::Started(operation)),
        None => None,
    }
}

/// The name that a field spells, if it is in the table.
fn name_in(mut table: &[(&str, Name, Layout)], field: &[u8]) -> Option<Name>
    ensures { result ≡ name_in (map (λ row. (row.0.now, row.1)) table.entry.now) field.now }
{
    while let [row, rest @ ..] = table {
        if field == row.0.as_bytes() {
            return Some(row.1);
        }
        table = rest;
    }
    None
}

/// A word that is no operation's, if the field spells one.
fn named_of(field: &[u8]) -> Option<Word>
    ensures { result ≡ named_of field.now }
{
    match name_in(&NAMES, field) {
        Some(name) => Some(Word::Named(name)),
        None => None,
    }
}

/// The word that a field spells, if the format has it.
#[tactic(auto, unfolding(crate::specs::Word::word_of))]
pub(crate) fn word_of(field: &[u8]) -> Option<Word>
    ensures { result ≡ word_of field.now }
{
    if let Some(operation) = operation_of(field) {
        return Some(Word::Blocking(operation));
    }
    if let Some(word) = started_word(field) {
        return Some(word);
    }
    named_of(field)
}

fn collective_text(collective: Collective) -> &'static str
    ensures value { result.now ≡ collective_text collective }
    ensures short { length result.now ≤ 9 }
{
    match collective {
        Collective::Barrier => "barrier",
        Collective::Bcast => "bcast",
        Collective::Gather => "gather",
        Collective::Scatter => "scatter",
        Collective::Reduce => "reduce",
        Collective::Allgather => "allgather",
        Collective::Alltoall => "alltoall",
        Collective::Allreduce => "allreduce",
        Collective::Scan => "scan",
        Collective::Exscan => "exscan",
    }
}

/// The text of an operation's word.
fn operation_text(operation: Operation) -> &'static str
    ensures value { result.now ≡ operation_text operation }
    ensures short { length result.now ≤ 9 }
{
    match operation {
        Operation::Send(Mode::Standard) => "send",
        Operation::Send(Mode::Synchronous) => "ssend",
        Operation::Send(Mode::Buffered) => "bsend",
        Operation::Recv => "recv",
        Operation::Coll(collective) => collective_text(collective),
    }
}

/// The name of a kind of collective.
pub(crate) fn name_of(kind: Kind) -> Collective
    ensures { result ≡ name_of kind }
{
    match kind {
        Kind::Barrier => Collective::Barrier,
        Kind::Bcast(_) => Collective::Bcast,
        Kind::Gather(_) => Collective::Gather,
        Kind::Scatter(_) => Collective::Scatter,
        Kind::Reduce(_) => Collective::Reduce,
        Kind::Allgather => Collective::Allgather,
        Kind::Alltoall => Collective::Alltoall,
        Kind::Allreduce => Collective::Allreduce,
        Kind::Scan => Collective::Scan,
        Kind::Exscan => Collective::Exscan,
    }
}

/// The root of a rooted collective, as a rank of the communicator's group.
pub fn root_of(kind: Kind) -> Option<u16>
    ensures { result ≡ root_of kind }
{
    match kind {
        Kind::Bcast(root) | Kind::Gather(root) | Kind::Scatter(root) | Kind::Reduce(root) => {
            Some(root)
        }
        _ => None,
    }
}
