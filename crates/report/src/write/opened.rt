//! Lines of held ranks at their opens, and the texts of their pending calls.

ghost use Rattle.std.specs.Prelude.{◌≡◌, ◌+◌, ◌≤◌, true, [], ◌∷◌, ◌++◌, codes, flat_map, length, map, slice_index};
ghost use Rattle.std.specs.Fmt.{decimal};
ghost use Rattle.mpicall.specs.Spelling.{space, line_feed};
ghost use Rattle.moves.specs.Stands.{stands_of};
ghost use Rattle.waitgraph.specs.Pending.{view_of};
ghost use Rattle.report.specs.PendingReport.{number_text, item_text, pending_of, pending_word, awaited_fields, awaited_line};
ghost use Rattle.report.specs.inner.Printing.{with_fields, Prints};

use crate::stand::stand_of;
use crate::write::printer::{Printer, ROOM_BYTES};
use crate::write::text::push_need;
use itoa::Buffer;
use moves::analyser::Analyser;
use mpicall::device::Output;
use mpicall::page::{PAGE_BYTES, Page};
use waitgraph::awaited::Awaited;
use waitgraph::pending::{Item, PendingCall, Wanted};

/// A held rank at its open, and the call in which it was.
#[derive(Clone, Copy)]
pub(crate) struct Opened<'a> {
    pub analyser: &'a Analyser,
    pub call: &'a PendingCall,
    pub rank: u16,
}

/// The pending call of a rank; the other where there is none.
pub(crate) fn pending_of<'a>(
    pending: &'a [PendingCall],
    unknown: &'a PendingCall,
    rank: u16,
) -> &'a PendingCall
    requires { view_of unknown.now ≡ record { is_all = true; items = [] } }
    ensures { view_of result.now ≡ pending_of (map view_of pending.now) rank }
{
    match pending.get(usize::from(rank)) {
        Some(call) => call,
        None => unknown,
    }
}

/// Adds a number, or `any`.
fn push_number_or_any(page: &mut Page, number: Option<u32>)
    requires { length page.old + 11 ≤ PAGE_BYTES }
    ensures value { page.new ≡ page.old ++ number_text number }
    ensures short { length page.new ≤ length page.old + 11 }
{
    match number {
        Some(number) => page.push_str(Buffer::new().format(number)),
        None => page.push_str("any"),
    }
}

/// The rank of the group from which the message comes, if that is known.
fn source_of(wanted: &Wanted) -> Option<u32>
    ensures { result ≡ wanted.now.source }
{
    match wanted.source {
        Some(source) => Some(u32::from(source)),
        None => None,
    }
}

/// Adds an item of a pending call.
pub(crate) fn push_item(page: &mut Page, item: &Item)
    requires { length page.old + 40 ≤ PAGE_BYTES }
    ensures value { page.new ≡ page.old ++ item_text item.now }
    ensures short { length page.new ≤ length page.old + 40 }
{
    match *item {
        Item::Message(wanted) => {
            push_number_or_any(page, Some(u32::from(wanted.comm)));
            page.push_str(":");
            push_number_or_any(page, source_of(&wanted));
            page.push_str(":");
            push_number_or_any(page, wanted.tag);
        }
        Item::Request(req) => push_number_or_any(page, Some(req)),
    }
}

/// The word for a pending call.
pub(crate) fn pending_word(call: &PendingCall) -> &'static str
    ensures value { result.now ≡ pending_word (view_of call.now) }
    ensures short { length result.now ≤ 3 }
{
    match call {
        PendingCall::All(items) if items.len() > 1 => "all",
        PendingCall::Unknown | PendingCall::All(_) | PendingCall::Any(_) => "any",
    }
}

/// Adds the front of a line: the rank, where it stands, and the word for its call.
fn push_front(page: &mut Page, opened: &Opened<'_>)
    requires { length page.old + ROOM_BYTES ≤ PAGE_BYTES }
    ensures { page.new ≡ page.old ++ with_fields (codes "rank") (decimal opened.now.rank ∷ codes "at" ∷ decimal (slice_index (stands_of opened.now.analyser.now.reading opened.now.analyser.now.groups opened.now.analyser.now.recording) opened.now.rank) ∷ pending_word (view_of opened.now.call.now) ∷ []) }
{
    page.push_str("rank");
    page.push_number(u32::from(opened.rank));
    page.push_field("at");
    page.push_number(stand_of(opened.analyser, opened.rank));
    page.push_field(pending_word(opened.call));
}

#[tactic(auto, using(crate::proofs::PrintingLemmas::prints_pushed))]
fn write_front<O: Output>(printer: &mut Printer, out: &mut O, opened: &Opened<'_>)
    ensures { Prints O.written O.failures out.old printer.old out.new printer.new (with_fields (codes "rank") (decimal opened.now.rank ∷ codes "at" ∷ decimal (slice_index (stands_of opened.now.analyser.now.reading opened.now.analyser.now.groups opened.now.analyser.now.recording) opened.now.rank) ∷ pending_word (view_of opened.now.call.now) ∷ [])) }
{
    printer.make_room(out);
    push_front(&mut printer.page, opened);
}

fn push_item_field(page: &mut Page, item: &Item)
    requires { length page.old + ROOM_BYTES ≤ PAGE_BYTES }
    ensures { page.new ≡ page.old ++ space ∷ item_text item.now }
{
    page.push_str(" ");
    push_item(page, item);
}

/// Writes an item as a further field.
#[tactic(auto, using(crate::proofs::PrintingLemmas::prints_pushed))]
fn write_item<O: Output>(printer: &mut Printer, out: &mut O, item: &Item)
    ensures { Prints O.written O.failures out.old printer.old out.new printer.new (space ∷ item_text item.now) }
{
    printer.make_room(out);
    push_item_field(&mut printer.page, item);
}

#[tactic(auto, using(crate::proofs::PrintingLemmas::prints_none, crate::proofs::PrintingLemmas::prints_next))]
fn write_items<O: Output>(printer: &mut Printer, out: &mut O, items: &[Item])
    ensures { Prints O.written O.failures out.old printer.old out.new printer.new (flat_map (λ one. space ∷ item_text one) items.now) }
{
    for item in items {
        write_item(printer, out, item);
    }
}

/// Adds the end of a line: what is waited for.
fn push_awaited(page: &mut Page, one: &Awaited)
    requires { length page.old + ROOM_BYTES ≤ PAGE_BYTES }
    ensures { page.new ≡ page.old ++ (with_fields (codes " waits") (awaited_fields one.now) ++ line_feed ∷ []) }
{
    page.push_str(" waits");
    match *one {
        Awaited::Call(need) => push_need(page, &need),
        Awaited::Rank { rank } => {
            page.push_field("rank");
            page.push_number(u32::from(rank));
        }
        Awaited::Nobody => page.push_field("nobody"),
    }
    page.push_str("\n");
}

#[tactic(auto, using(crate::proofs::PrintingLemmas::prints_pushed))]
fn write_end<O: Output>(printer: &mut Printer, out: &mut O, one: &Awaited)
    ensures { Prints O.written O.failures out.old printer.old out.new printer.new (with_fields (codes " waits") (awaited_fields one.now) ++ line_feed ∷ []) }
{
    printer.make_room(out);
    push_awaited(&mut printer.page, one);
}

/// Writes the line for one thing that the rank waits for.
fn write_line<O: Output>(printer: &mut Printer, out: &mut O, opened: &Opened<'_>, one: &Awaited)
    ensures { Prints O.written O.failures out.old printer.old out.new printer.new (awaited_line opened.now.analyser.now.reading opened.now.analyser.now.groups opened.now.analyser.now.recording (view_of opened.now.call.now) opened.now.rank one.now) }
{
    write_front(printer, out, opened);
    write_items(printer, out, opened.call.items());
    write_end(printer, out, one);
}

/// Writes the lines for all that it waits for.
#[tactic(auto, using(crate::proofs::PrintingLemmas::prints_none, crate::proofs::PrintingLemmas::prints_next))]
pub(crate) fn write_awaited<O: Output>(
    printer: &mut Printer,
    out: &mut O,
    opened: &Opened<'_>,
    awaits: &[Awaited],
)
    ensures { Prints O.written O.failures out.old printer.old out.new printer.new (flat_map (awaited_line opened.now.analyser.now.reading opened.now.analyser.now.groups opened.now.analyser.now.recording (view_of opened.now.call.now) opened.now.rank) awaits.now) }
{
    for one in awaits {
        write_line(printer, out, opened, one);
    }
}
