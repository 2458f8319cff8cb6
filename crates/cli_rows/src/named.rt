//! Faults by their codes.

use cli::fault::Fault;
use gather::fault::{RankFault, Refusal, RunFault};
use mpicall::fault::{LineFault, SourceFault};
use mpigroup::fault::{HeadFault, HeadFaultKind};
use pairing::fault::CallFault;

/// The faults of a line, of a source's end, of a call and of a head, in the order of their codes.
const OF_LINE: [LineFault; 7] = [
    LineFault::EmptyField,
    LineFault::UnknownWord,
    LineFault::FieldCount,
    LineFault::FieldForm,
    LineFault::Wildcard,
    LineFault::TooLong,
    LineFault::NoLineFeed,
];

const OF_END: [SourceFault; 4] = [
    SourceFault::NoFinalize,
    SourceFault::ReadFailed,
    SourceFault::GateStopped,
    SourceFault::ThreadNotStarted,
];

const OF_CALL: [CallFault; 9] = [
    CallFault::UnknownCommunicator,
    CallFault::CommunicatorNotHeld,
    CallFault::PeerOutOfGroup,
    CallFault::RequestInUse,
    CallFault::RequestNotActive,
    CallFault::RequestRepeated,
    CallFault::WrongNewCommunicator,
    CallFault::TooManyCalls,
    CallFault::CallAfterFinalize,
];

const OF_HEAD: [HeadFaultKind; 6] = [
    HeadFaultKind::FirstLine,
    HeadFaultKind::RankCount,
    HeadFaultKind::CommLine,
    HeadFaultKind::Group,
    HeadFaultKind::TooManyComms,
    HeadFaultKind::LineForm,
];

/// The fault of these that the digit of a code names, from 1.
fn numbered<T: Copy>(faults: &[T], digit: u8) -> Option<T> {
    let before = digit.checked_sub(b'1')?;
    faults.get(usize::from(before)).copied()
}

/// A fault of a rank, by its code.
fn fault_of_rank(letter: u8, digit: u8) -> Option<RankFault> {
    match letter {
        b'L' if digit == b'8' => Some(RankFault::OfSource(SourceFault::TextAfterFinalize)),
        b'L' => Some(RankFault::OfSource(SourceFault::Line(numbered(&OF_LINE, digit)?))),
        b'E' => Some(RankFault::OfSource(numbered(&OF_END, digit)?)),
        b'C' => Some(RankFault::OfCall(numbered(&OF_CALL, digit)?)),
        _ => None,
    }
}

/// A fault of a rank's call or of a line of the head, by its code and its place.
fn coded(letter: u8, digit: u8, place: u16, call: u32) -> Option<Fault<'static>> {
    if letter == b'H' {
        let kind = numbered(&OF_HEAD, digit)?;
        let line = u32::from(place);
        return Some(Fault::from(HeadFault { line, kind }));
    }
    let fault = fault_of_rank(letter, digit)?;
    let rank = place;
    Some(Fault::from(RunFault::Refused(Refusal { rank, call, fault })))
}

/// The fault of a code, a rank or a line of the head, and a call. These are 0 where the fault has none.
pub fn fault_of(code: &[u8], place: u16, call: u32) -> Option<Fault<'static>> {
    match code {
        b"memory" => Some(Fault::from(RunFault::Memory)),
        b"seal" => Some(Fault::from(RunFault::Unproved(place))),
        b"write" => Some(Fault::from(RunFault::Write)),
        [letter, digit] => coded(*letter, *digit, place, call),
        _ => None,
    }
}
