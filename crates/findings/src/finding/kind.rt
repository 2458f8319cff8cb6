//! Members that make another call in a wave than the first one.

ghost use Rattle.std.specs.Prelude.{◌≡◌, ◌++◌, option_to_list, OnOk};
ghost use Rattle.findings.specs.Findings.{same_word, kind_found, kinds_of};

use crate::finding::Finding;
use crate::finding::wave::{Compared, add_in_waves};
use mpicall::call::Call;
use mpicall::word::Word;
use pairing::pairs::Pairs;
use std::alloc::AllocError;

/// Whether both calls have the same word of the trace format.
pub fn is_same_word(first: &Call, call: &Call) -> bool
    ensures { result ≡ same_word first.now call.now }
{
    Word::of(first) == Word::of(call)
}

/// What is found of a member whose call has another word than the first member's.
#[tactic(auto, unfolding(crate::specs::Findings::kind_found))]
pub(crate) fn kind_found(
    comm: u16,
    wave: u32,
    member: u16,
    first: &Call,
    call: &Call,
) -> Option<Finding>
    ensures { option_to_list result ≡ kind_found comm wave member first.now call.now }
{
    if is_same_word(first, call) {
        return None;
    }
    Some(Finding::Kind {
        comm,
        wave,
        member,
        first: Word::of(first),
        word: Word::of(call),
    })
}

/// Adds the members that make another call, by communicator, wave and member.
#[tactic(auto, unfolding(crate::specs::Findings::kinds_of))]
pub fn add_kinds(findings: &mut Vec<Finding>, pairs: &Pairs) -> Result<(), AllocError>
    ensures { OnOk result (findings.new.items ≡ findings.old.items ++ kinds_of pairs.now.groups pairs.now.recording) }
{
    add_in_waves(findings, pairs, Compared::Kinds)
}
