//! What is answered of calls that are added to `Pairs`.

use crate::answer::Answer;
use crate::calls::{calls_in, record_of};
use crate::fault::Fault;
use crate::words::{Numbers, first_word, numbers_in, short};
use callstore::envelope::Half;
use mpicall::record::Record;
use pairing::added::{Added, PairFault};
use pairing::pairs::Pairs;

/// Adds a rank's next call, answers why it is refused, if it is, and else answers what the row asks of it.
fn add_call(answer: &mut Answer, pairs: &mut Pairs, rank: u16, call: &Record) -> Option<Added> {
    let place = pairs.accepted(rank).unwrap_or(0);
    if rank >= pairs.head().ranks() {
        answer.fail(Fault::Missing);
        return None;
    }
    match pairs.add(rank, place, call) {
        Ok(added) => Some(added),
        Err(PairFault::Refused(fault)) => {
            answer.number("refused ", place);
            answer.put(" ");
            answer.coded(fault.code(), &fault);
            None
        }
        Err(PairFault::Memory) => {
            answer.fail(Fault::Memory);
            None
        }
    }
}

/// Adds calls, up to the first that is refused, and answers whether all were taken.
fn add_calls(answer: &mut Answer, pairs: &mut Pairs, calls: &[(u16, Record)]) -> bool {
    for (rank, call) in calls {
        if add_call(answer, pairs, *rank, call).is_none() {
            return false;
        }
    }
    true
}

fn add_times(answer: &mut Answer, pairs: &mut Pairs, times: u32, calls: &[(u16, Record)]) {
    for _ in 0..times {
        if !add_calls(answer, pairs, calls) {
            return;
        }
    }
    answer.put("ok");
}

/// Adds the calls of a text, so many times.
pub fn add(answer: &mut Answer, pairs: &mut Pairs, times: u32, text: &str) {
    match calls_in(answer.alloc(), text) {
        Ok(calls) => add_times(answer, pairs, times, &calls),
        Err(fault) => answer.fail(fault),
    }
}

/// Tells a partner of a call that was added, if it has one.
fn tell_half(answer: &mut Answer, half: &str, partner: Option<(u16, u32)>) {
    if let Some((rank, place)) = partner {
        answer.separate(", ");
        answer.pair(half, rank, place);
    }
}

/// Tells the partners and the wave of a call that was added.
fn tell_added(answer: &mut Answer, added: &Added) {
    tell_half(answer, "send ", added.send);
    tell_half(answer, "recv ", added.recv);
    if let Some(joined) = added.wave {
        answer.separate(", ");
        answer.pair("wave ", joined.comm, joined.wave);
        answer.put(if joined.is_full { " full" } else { "" });
    }
}

/// Adds one call of a rank: what the row asks of it.
pub fn told(answer: &mut Answer, pairs: &mut Pairs, text: &str) {
    let (word, line) = first_word(text);
    let rank = word.parse::<u16>().unwrap_or(u16::MAX);
    match record_of(answer.alloc(), line) {
        Ok(call) => {
            if let Some(added) = add_call(answer, pairs, rank, &call) {
                tell_added(answer, &added);
            }
        }
        Err(fault) => answer.fail(fault),
    }
}

/// The rank, the place and the half of a call that a text names.
fn half_in(text: &str) -> Option<(u16, u32, Half)> {
    let (numbers, word) = text.rsplit_once(' ')?;
    let half = match word {
        "send" => Half::Send,
        "recv" => Half::Recv,
        _ => return None,
    };
    match numbers_in(numbers) {
        Some(Numbers::Two(rank, place)) => Some((short(rank), place, half)),
        _ => None,
    }
}

/// The partner of the half of a call that a text names.
pub fn tell_partner(answer: &mut Answer, pairs: &Pairs, text: &str) {
    match half_in(text) {
        Some((rank, place, half)) => tell_half(answer, "", pairs.partner(rank, place, half)),
        None => answer.fail(Fault::Unread),
    }
}
