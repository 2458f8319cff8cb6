//! The text of a finding, as both reports have it.

ghost use Rattle.std.specs.Prelude.{◌≡◌, ◌+◌, ◌≤◌, [], ◌∷◌, ◌++◌, length};
ghost use Rattle.std.specs.Fmt.{decimal};
ghost use Rattle.std.specs.List.{join_with_byte};
ghost use Rattle.mpicall.specs.Spelling.{space};
ghost use Rattle.mpicall.specs.Word.{text_of};
ghost use Rattle.report.specs.FindingTexts.{finding_fields};

use findings::finding::Finding;
use mpicall::page::{PAGE_BYTES, Page};
use mpicall::word::Word;

/// Adds a word of the trace format as a further field.
fn push_word(page: &mut Page, word: Word)
    requires { length page.old + 11 ≤ PAGE_BYTES }
    ensures value { page.new ≡ page.old ++ space ∷ text_of word }
    ensures short { length page.new ≤ length page.old + 11 }
{
    page.push_str(" ");
    page.push_word(word);
}

/// Adds a word for what is wrong in a wave, and the wave and the member.
fn push_wave(page: &mut Page, text: &str, comm: u16, wave: u32, member: u16)
    requires { length page.old + length text.now + 36 ≤ PAGE_BYTES }
    ensures value { page.new ≡ page.old ++ join_with_byte space (text.now ∷ decimal comm ∷ decimal wave ∷ decimal member ∷ []) }
    ensures short { length page.new ≤ length page.old + length text.now + 36 }
{
    page.push_str(text);
    page.push_number(u32::from(comm));
    page.push_number(wave);
    page.push_number(u32::from(member));
}

/// Adds a word for what is wrong with a call, and where the call is.
fn push_place(page: &mut Page, text: &str, rank: u16, place: u32)
    requires { length page.old + length text.now + 24 ≤ PAGE_BYTES }
    ensures value { page.new ≡ page.old ++ join_with_byte space (text.now ∷ decimal rank ∷ decimal place ∷ []) }
    ensures short { length page.new ≤ length page.old + length text.now + 24 }
{
    page.push_str(text);
    page.push_number(u32::from(rank));
    page.push_number(place);
}

/// Adds the fields of a finding, with one space between them.
pub fn push_finding(page: &mut Page, finding: &Finding)
    requires { length page.old + 100 ≤ PAGE_BYTES }
    ensures value { page.new ≡ page.old ++ join_with_byte space (finding_fields finding.now) }
    ensures short { length page.new ≤ length page.old + 100 }
{
    match *finding {
        Finding::Kind {
            comm,
            wave,
            member,
            first,
            word,
        } => {
            push_wave(page, "kind", comm, wave, member);
            push_word(page, first);
            push_word(page, word);
        }
        Finding::Root {
            comm,
            wave,
            member,
            first,
            root,
        } => {
            push_wave(page, "root", comm, wave, member);
            page.push_number(u32::from(first));
            page.push_number(u32::from(root));
        }
        Finding::Unreceived { rank, place } => push_place(page, "unreceived", rank, place),
        Finding::Request { rank, place, req } => {
            push_place(page, "request", rank, place);
            page.push_number(req);
        }
        Finding::Group { rank, place } => push_place(page, "group", rank, place),
    }
}
