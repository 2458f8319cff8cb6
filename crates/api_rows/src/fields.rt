//! The values of a call, one by one.

use crate::answer::Answer;
use crate::fault::Fault;
use crate::words::{first_word, number_in};
use mpicall::call::{Call, Kind, Mode, Peer};
use mpicall::record::Record;
use mpicall::word::root_of;

fn mode_text(mode: Mode) -> &'static str {
    match mode {
        Mode::Standard => "standard",
        Mode::Synchronous => "synchronous",
        Mode::Buffered => "buffered",
    }
}

fn kind_text(kind: Kind) -> &'static str {
    match kind {
        Kind::Barrier => "Barrier",
        Kind::Bcast(_) => "Bcast",
        Kind::Gather(_) => "Gather",
        Kind::Scatter(_) => "Scatter",
        Kind::Reduce(_) => "Reduce",
        Kind::Allgather => "Allgather",
        Kind::Alltoall => "Alltoall",
        Kind::Allreduce => "Allreduce",
        Kind::Scan => "Scan",
        Kind::Exscan => "Exscan",
    }
}

fn tell_kind(answer: &mut Answer, comm: u16, kind: Kind) {
    answer.value("comm ", &comm);
    answer.value(", ", &kind_text(kind));
    if let Some(root) = root_of(kind) {
        answer.value(" root ", &root);
    }
}

/// Adds a number after a name, or `none`.
fn tell_option(answer: &mut Answer, name: &str, number: Option<u32>) {
    match number {
        Some(number) => answer.number(name, number),
        None => answer.value(name, &"none"),
    }
}

/// Adds the name of a peer's place, the peer and the tag.
fn tell_peer(answer: &mut Answer, name: &str, peer: Peer, tag: u32) {
    answer.put(name);
    match peer {
        Peer::Rank(rank) => answer.value(" rank ", &rank),
        Peer::Null => answer.put(" null"),
    }
    answer.number(", tag ", tag);
}

/// Adds the bytes of a message, where they are known.
fn tell_bytes(answer: &mut Answer, bytes: Option<u32>) {
    if let Some(count) = bytes {
        answer.number(", bytes ", count);
    }
}

/// Adds the shape of a call that starts a request, and the request.
fn tell_started(answer: &mut Answer, name: &str, req: u32) {
    answer.put(name);
    answer.number(" req ", req);
    answer.put(", ");
}

/// Adds the values of a message that is received or seen, and the communicator.
fn tell_received(answer: &mut Answer, comm: u16, source: Peer, tag: u32) {
    answer.value("comm ", &comm);
    tell_peer(answer, ", source", source, tag);
}

/// Adds the values of a message that is sent, after how it is sent.
fn tell_sent(answer: &mut Answer, mode: Mode, comm: u16, dest: Peer, tag: u32) {
    answer.put(mode_text(mode));
    answer.value(", comm ", &comm);
    tell_peer(answer, ", dest", dest, tag);
}

/// Adds the values of a call that receives or probes.
fn tell_receive(answer: &mut Answer, call: &Call) {
    match *call {
        Call::Recv { comm, source, tag } => {
            answer.put("Recv ");
            tell_received(answer, comm, source, tag);
        }
        Call::Irecv {
            req,
            comm,
            source,
            tag,
        } => {
            tell_started(answer, "Irecv", req);
            tell_received(answer, comm, source, tag);
        }
        Call::Probe { comm, source, tag } => {
            answer.put("Probe ");
            tell_received(answer, comm, source, tag);
        }
        _ => {}
    }
}

/// Adds the values of a call that sends, or of one that receives.
fn tell_message(answer: &mut Answer, call: &Call) {
    match *call {
        Call::Send {
            mode,
            comm,
            dest,
            tag,
            bytes,
        } => {
            answer.put("Send ");
            tell_sent(answer, mode, comm, dest, tag);
            tell_bytes(answer, bytes);
        }
        Call::Isend {
            req,
            mode,
            comm,
            dest,
            tag,
            bytes,
        } => {
            tell_started(answer, "Isend", req);
            tell_sent(answer, mode, comm, dest, tag);
            tell_bytes(answer, bytes);
        }
        _ => tell_receive(answer, call),
    }
}

/// Adds the values of a collective call, or of one that makes a communicator.
fn tell_collective(answer: &mut Answer, call: &Call) {
    match *call {
        Call::Coll { comm, kind } => {
            answer.put("Coll ");
            tell_kind(answer, comm, kind);
        }
        Call::Icoll { req, comm, kind } => {
            tell_started(answer, "Icoll", req);
            tell_kind(answer, comm, kind);
        }
        Call::Dup { comm, new } => {
            answer.value("Dup comm ", &comm);
            answer.value(", new ", &new);
        }
        Call::Split {
            comm,
            colour,
            key,
            new,
        } => {
            answer.value("Split comm ", &comm);
            tell_option(answer, ", colour ", colour);
            answer.value(", key ", &key);
            tell_option(answer, ", new ", new.map(u32::from));
        }
        _ => tell_message(answer, call),
    }
}

/// Adds the values of a call: its shape, and each value after its name.
pub fn tell_values(answer: &mut Answer, call: &Call) {
    match *call {
        Call::Sendrecv {
            comm,
            dest,
            send_tag,
            source,
            recv_tag,
            bytes,
        } => {
            answer.value("Sendrecv comm ", &comm);
            tell_peer(answer, ", dest", dest, send_tag);
            tell_peer(answer, ", source", source, recv_tag);
            tell_bytes(answer, bytes);
        }
        Call::Wait { req } => answer.number("Wait req ", req),
        Call::Waitall { ref reqs } => {
            answer.put("Waitall reqs ");
            answer.numbers(reqs.as_slice());
        }
        Call::Waitany { chosen, ref reqs } => {
            answer.value("Waitany chosen ", &chosen);
            answer.put(", reqs ");
            answer.numbers(reqs.as_slice());
        }
        Call::Finalize => answer.put("Finalize"),
        Call::Open => answer.put("Open"),
        _ => tell_collective(answer, call),
    }
}

/// A send of so many bytes to rank 0. Where a request is asked for, it starts the one numbered 0.
fn sized_send(mode: Mode, is_started: bool, bytes: Option<u32>) -> Call {
    let (comm, dest, tag, req) = (0, Peer::Rank(0), 0, 0);
    if is_started {
        Call::Isend {
            req,
            mode,
            comm,
            dest,
            tag,
            bytes,
        }
    } else {
        Call::Send {
            mode,
            comm,
            dest,
            tag,
            bytes,
        }
    }
}

/// An exchange with rank 0, which sends so many bytes.
fn sized_exchange(bytes: Option<u32>) -> Call {
    Call::Sendrecv {
        comm: 0,
        dest: Peer::Rank(0),
        send_tag: 0,
        source: Peer::Rank(0),
        recv_tag: 0,
        bytes,
    }
}

/// A send of so many bytes to rank 0, by the word of its line; none has a word of another kind.
fn sized_call(word: &str, bytes: Option<u32>) -> Option<Call> {
    match word {
        "send" => Some(sized_send(Mode::Standard, false, bytes)),
        "isend" => Some(sized_send(Mode::Standard, true, bytes)),
        "ssend" => Some(sized_send(Mode::Synchronous, false, bytes)),
        "issend" => Some(sized_send(Mode::Synchronous, true, bytes)),
        "bsend" => Some(sized_send(Mode::Buffered, false, bytes)),
        "ibsend" => Some(sized_send(Mode::Buffered, true, bytes)),
        "sendrecv" => Some(sized_exchange(bytes)),
        _ => None,
    }
}

/// The call of a word and of the bytes after it, a number or `none`.
fn sized_in(text: &str) -> Option<Call> {
    let (word, bytes) = first_word(text);
    if bytes == "none" {
        return sized_call(word, None);
    }
    let count = number_in(bytes)?;
    sized_call(word, Some(count))
}

/// Whether there is a record of a send of so many bytes.
pub fn tell_sized(answer: &mut Answer, text: &str) {
    match sized_in(text) {
        Some(call) => answer.yes_or_no(Record::new(call).is_some()),
        None => answer.fail(Fault::Unread),
    }
}
