//! Lines that come often, each read in one pass from the bytes that are held: the end of the line isn't sought before.
//!
//! A line that isn't read so may still be that of a record. Then it is read as any other.

ghost use Rattle.std.specs.Prelude.{◌≡◌, ◌≤◌, ◌+◌, true, length, take, slice_index, IfSome, MatchOption};
ghost use Rattle.mpicall.specs.declared.call.Call.TheVariants.{Isend, Irecv};
ghost use Rattle.mpicall.specs.declared.call.Mode.TheVariants.{Standard};
ghost use Rattle.mpicall.specs.declared.call.Peer.TheVariants.{Rank};
ghost use Rattle.mpicall.specs.inner.Often.{HasNumber, HasField, HasLast, HasMessage};
ghost use Rattle.mpicall.specs.inner.Parsing.{BeginsWith};

use crate::call::{Call, Kind, Mode, Peer};
use crate::limits::{GREATEST_COMM, GREATEST_RANK};
use crate::reqs::Reqs;

/// A line is read here only where so many bytes are held. It has no more, unless it is that of a wait for many requests.
const ENOUGH: usize = 64;

/// A message's fields. `said` is how many bytes it has, where the line says it.
#[derive(Clone, Copy)]
struct Message {
    comm: u16,
    rank: u16,
    tag: u32,
    said: Option<u32>,
}

/// Whether some bytes begin with others.
#[inline(always)]
fn begin_with<const N: usize>(bytes: &[u8], front: &[u8; N]) -> bool
    ensures { result ≡ true → take N bytes.now ≡ front.now }
{
    match bytes.first_chunk::<N>() {
        Some(first) => *first == *front,
        None => false,
    }
}

/// Takes off a number of at most nine digits; `next` is then the byte behind it. `likely` is the byte that most often
/// comes there, a matter of time alone.
#[inline(always)]
fn take_number(bytes: &[u8], at: &mut usize, next: &mut u8, likely: u8) -> Option<u32>
    requires { at.old + 10 ≤ length bytes.now }
    ensures { IfSome result (λ number. HasNumber bytes.now at.old at.new number next.new) }
{
    let from = *at;
    let first = bytes[from];
    if !first.is_ascii_digit() {
        return None;
    }
    let mut number = u32::from(first - b'0');
    *next = bytes[from + 1];
    if number == 0 || *next == likely {
        *at = from + 1;
        return Some(number);
    }
    for count in 1..9 {
        if !next.is_ascii_digit() {
            *at = from + count;
            return Some(number);
        }
        number = number * 10 + u32::from(*next - b'0');
        *next = bytes[from + count + 1];
    }
    *at = from + 9;
    Some(number)
}

/// Takes off a number, and the byte that has to come next.
#[inline(always)]
fn take_field(bytes: &[u8], at: &mut usize, end: u8) -> Option<u32>
    requires { at.old + 10 ≤ length bytes.now }
    ensures { IfSome result (λ number. HasField bytes.now at.old at.new number end) }
{
    let mut next = 0;
    let number = take_number(bytes, at, &mut next, end)?;
    if next != end {
        return None;
    }
    *at += 1;
    Some(number)
}

/// Takes off the end of the line, and before it how many bytes the message has, where that is said. `next` is the byte
/// that comes first.
#[inline(always)]
fn take_last(bytes: &[u8], at: &mut usize, next: u8) -> Option<Option<u32>>
    requires room { at.old + 11 ≤ length bytes.now }
    requires next { slice_index bytes.now at.old ≡ next }
    ensures { IfSome result (λ said. HasLast bytes.now at.old at.new said) }
{
    *at += 1;
    if next == b'\n' {
        return Some(None);
    }
    if next != b' ' {
        return None;
    }
    let said = take_field(bytes, at, b'\n')?;
    Some(Some(said))
}

/// Takes off a message's fields, through the end of the line.
#[inline(always)]
fn take_message(bytes: &[u8], at: &mut usize) -> Option<Message>
    requires { at.old + 40 ≤ length bytes.now }
    ensures { IfSome result (λ m. HasMessage bytes.now at.old at.new m.comm m.rank m.tag m.said) }
{
    let comm = take_field(bytes, at, b' ')?;
    let rank = take_field(bytes, at, b' ')?;
    if comm > u32::from(GREATEST_COMM) || rank > u32::from(GREATEST_RANK) {
        return None;
    }
    let mut next = 0;
    let tag = take_number(bytes, at, &mut next, b'\n')?;
    let said = take_last(bytes, at, next)?;
    Some(Message {
        comm: comm as u16,
        rank: rank as u16,
        tag,
        said,
    })
}

/// Makes a call that of a send that is started. Where it is one already, only its fields are written.
fn set_isend(into: &mut Call, number: u32, message: Message)
    ensures { into.new ≡ Isend number Standard message.comm (Rank message.rank) message.tag message.said }
{
    match into {
        Call::Isend {
            req,
            mode,
            comm,
            dest,
            tag,
            bytes,
        } => {
            *req = number;
            *mode = Mode::Standard;
            *comm = message.comm;
            *dest = Peer::Rank(message.rank);
            *tag = message.tag;
            *bytes = message.said;
        }
        _ => *into = Call::Isend {
            req: number,
            mode: Mode::Standard,
            comm: message.comm,
            dest: Peer::Rank(message.rank),
            tag: message.tag,
            bytes: message.said,
        },
    }
}

fn read_isend(bytes: &[u8], into: &mut Call) -> Option<usize>
    requires { ENOUGH ≤ length bytes.now }
    ensures { MatchOption result (into.new ≡ into.old) (BeginsWith bytes.now into.new) }
{
    if !begin_with(bytes, b"isend ") {
        return None;
    }
    let mut at = 6;
    let req = take_field(bytes, &mut at, b' ')?;
    let message = take_message(bytes, &mut at)?;
    set_isend(into, req, message);
    Some(at)
}

/// Makes a call that of a receive that is started. Where it is one already, only its fields are written.
fn set_irecv(into: &mut Call, number: u32, message: Message)
    ensures { into.new ≡ Irecv number message.comm (Rank message.rank) message.tag }
{
    match into {
        Call::Irecv {
            req,
            comm,
            source,
            tag,
        } => {
            *req = number;
            *comm = message.comm;
            *source = Peer::Rank(message.rank);
            *tag = message.tag;
        }
        _ => *into = Call::Irecv {
            req: number,
            comm: message.comm,
            source: Peer::Rank(message.rank),
            tag: message.tag,
        },
    }
}

fn read_irecv(bytes: &[u8], into: &mut Call) -> Option<usize>
    requires { ENOUGH ≤ length bytes.now }
    ensures { MatchOption result (into.new ≡ into.old) (BeginsWith bytes.now into.new) }
{
    if !begin_with(bytes, b"irecv ") {
        return None;
    }
    let mut at = 6;
    let req = take_field(bytes, &mut at, b' ')?;
    let message = take_message(bytes, &mut at)?;
    if message.said.is_some() {
        return None;
    }
    set_irecv(into, req, message);
    Some(at)
}

fn read_send(bytes: &[u8], into: &mut Call) -> Option<usize>
    requires { ENOUGH ≤ length bytes.now }
    ensures { MatchOption result (into.new ≡ into.old) (BeginsWith bytes.now into.new) }
{
    if !begin_with(bytes, b"send ") {
        return None;
    }
    let mut at = 5;
    let message = take_message(bytes, &mut at)?;
    *into = Call::Send {
        mode: Mode::Standard,
        comm: message.comm,
        dest: Peer::Rank(message.rank),
        tag: message.tag,
        bytes: message.said,
    };
    Some(at)
}

fn read_recv(bytes: &[u8], into: &mut Call) -> Option<usize>
    requires { ENOUGH ≤ length bytes.now }
    ensures { MatchOption result (into.new ≡ into.old) (BeginsWith bytes.now into.new) }
{
    if !begin_with(bytes, b"recv ") {
        return None;
    }
    let mut at = 5;
    let message = take_message(bytes, &mut at)?;
    if message.said.is_some() {
        return None;
    }
    *into = Call::Recv {
        comm: message.comm,
        source: Peer::Rank(message.rank),
        tag: message.tag,
    };
    Some(at)
}

fn read_wait(bytes: &[u8], into: &mut Call) -> Option<usize>
    requires { ENOUGH ≤ length bytes.now }
    ensures { MatchOption result (into.new ≡ into.old) (BeginsWith bytes.now into.new) }
{
    if !begin_with(bytes, b"wait ") {
        return None;
    }
    let mut at = 5;
    let req = take_field(bytes, &mut at, b'\n')?;
    *into = Call::Wait { req };
    Some(at)
}

fn read_waitall(bytes: &[u8], into: &mut Call) -> Option<usize>
    requires { ENOUGH ≤ length bytes.now }
    ensures { MatchOption result (into.new ≡ into.old) (BeginsWith bytes.now into.new) }
{
    if !begin_with(bytes, b"waitall ") {
        return None;
    }
    let mut at = 8;
    let mut next = 0;
    let first = take_number(bytes, &mut at, &mut next, b' ')?;
    let mut reqs = Reqs::of_one(first);
    while next == b' ' {
        if reqs.is_full() || bytes.len() - at <= 10 {
            return None;
        }
        at += 1;
        let req = take_number(bytes, &mut at, &mut next, b' ')?;
        reqs.push(req);
    }
    if next != b'\n' {
        return None;
    }
    *into = Call::Waitall { reqs };
    Some(at + 1)
}

fn read_barrier(bytes: &[u8], into: &mut Call) -> Option<usize>
    requires { ENOUGH ≤ length bytes.now }
    ensures { MatchOption result (into.new ≡ into.old) (BeginsWith bytes.now into.new) }
{
    if !begin_with(bytes, b"barrier ") {
        return None;
    }
    let mut at = 8;
    let comm = take_field(bytes, &mut at, b'\n')?;
    if comm > u32::from(GREATEST_COMM) {
        return None;
    }
    *into = Call::Coll {
        comm: comm as u16,
        kind: Kind::Barrier,
    };
    Some(at)
}

/// Reads the call of the first line of some bytes, where it is one that comes often; says how many bytes it has, and
/// else leaves the place alone. The word is guessed by two of its letters.
pub(crate) fn read_often(bytes: &[u8], into: &mut Call) -> Option<usize>
    ensures { MatchOption result (into.new ≡ into.old) (BeginsWith bytes.now into.new) }
{
    if bytes.len() < ENOUGH {
        return None;
    }
    match bytes[0] {
        b'i' => match bytes[1] {
            b's' => read_isend(bytes, into),
            b'r' => read_irecv(bytes, into),
            _ => None,
        },
        b's' => read_send(bytes, into),
        b'r' => read_recv(bytes, into),
        b'w' => match bytes[4] {
            b'a' => read_waitall(bytes, into),
            _ => read_wait(bytes, into),
        },
        b'b' => read_barrier(bytes, into),
        _ => None,
    }
}
