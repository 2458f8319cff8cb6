//! The fields of a line, read one by one: a small function for each form of field. A call is read into
//! one place, which is written once all the fields have come; a line that has a fault leaves it alone, and is
//! looked at again, by `fault_of_fields`.

ghost use Rattle.std.specs.Prelude.{◌≡◌, ◌≤◌, ◌-◌, [], ◌∷◌, Some, None, true, false, length, IfSome, MatchOption};
ghost use Rattle.mpicall.specs.Argument.{NumberUpTo, PeerForm, ColourForm, KeyForm, NewForm, Number, PeerOf, Colour, Key, New, comm_form, tag_form, request_form, root_form, comm_argument, tag_argument, request_argument, bytes_arguments, root_argument};
ghost use Rattle.mpicall.specs.inner.CallArgs.{has_args};
ghost use Rattle.mpicall.specs.inner.Lines.{is_empty};
ghost use Rattle.mpicall.specs.Spelling.{name_of, root_of, root_arguments};
ghost use Rattle.mpicall.specs.Line.{root_forms, bytes_forms, operation_forms};
ghost use Rattle.mpicall.specs.inner.Line.{args_forms};
ghost use Rattle.mpicall.specs.Parsing.{next_argument, take_arguments};
ghost use Rattle.mpicall.specs.inner.Parsing.{all_taken, TakesArgs, ReadsWhole};
ghost use Rattle.mpicall.specs.Word.{layout_of};
ghost use Rattle.mpicall.specs.declared.word.Layout.TheVariants as layout;
ghost use Rattle.mpicall.specs.declared.word.Name.TheVariants as name;
ghost use Rattle.mpicall.specs.declared.word.Word.TheVariants.{Blocking, Started, Named};

use crate::call::{Call, Kind, Mode, Peer};
use crate::call_args::CallArgs;
use crate::fields::Fields;
use crate::limits::{
    GREATEST_BYTES, GREATEST_COLOUR, GREATEST_COMM, GREATEST_RANK, GREATEST_REQUEST, GREATEST_TAG,
};
use crate::number::{read_number, read_signed};
use crate::word::{Collective, Layout, Name, Operation, layout_of};

/// The next field, where it is a number up to `greatest`: the slow way, by a look at the field and then at its digits,
/// for what isn't read in one pass.
#[inline(never)]
fn read_other_number(greatest: u32, fields: &mut Fields<'_>) -> Option<u32>
    ensures value { MatchOption result
        (next_argument (NumberUpTo greatest) fields.old ≡ None)
        (λ n. next_argument (NumberUpTo greatest) fields.old ≡ Some (Number greatest n, fields.new)) }
    ensures within { IfSome result (λ n. n ≤ greatest) }
{
    let field = fields.next_field()?;
    read_number(greatest, field)
}

/// The next field, where it is a number up to `greatest`. Where it is one, it is read in one pass.
#[inline(always)]
pub(crate) fn next_number(greatest: u32, fields: &mut Fields<'_>) -> Option<u32>
    ensures value { MatchOption result
        (next_argument (NumberUpTo greatest) fields.old ≡ None)
        (λ n. next_argument (NumberUpTo greatest) fields.old ≡ Some (Number greatest n, fields.new)) }
    ensures within { IfSome result (λ n. n ≤ greatest) }
{
    if let Some(number) = fields.next_canonical(greatest) {
        return Some(number);
    }
    // The slow way is given a copy, so that the fields themselves need no place in memory.
    let mut rest = fields.again();
    let number = read_other_number(greatest, &mut rest);
    *fields = rest;
    number
}

#[inline(always)]
fn next_comm(fields: &mut Fields<'_>) -> Option<u16>
    ensures { MatchOption result
        (next_argument comm_form fields.old ≡ None)
        (λ comm. next_argument comm_form fields.old ≡ Some (comm_argument comm, fields.new)) }
{
    Some(next_number(u32::from(GREATEST_COMM), fields)? as u16)
}

#[inline(always)]
fn next_tag(fields: &mut Fields<'_>) -> Option<u32>
    ensures { MatchOption result
        (next_argument tag_form fields.old ≡ None)
        (λ tag. next_argument tag_form fields.old ≡ Some (tag_argument tag, fields.new)) }
{
    next_number(GREATEST_TAG, fields)
}

#[inline(always)]
pub(crate) fn next_request(fields: &mut Fields<'_>) -> Option<u32>
    ensures { MatchOption result
        (next_argument request_form fields.old ≡ None)
        (λ req. next_argument request_form fields.old ≡ Some (request_argument req, fields.new)) }
{
    next_number(GREATEST_REQUEST, fields)
}

#[inline(always)]
fn next_root(fields: &mut Fields<'_>) -> Option<u16>
    ensures { MatchOption result
        (next_argument root_form fields.old ≡ None)
        (λ root. next_argument root_form fields.old ≡ Some (root_argument root, fields.new)) }
{
    Some(next_number(u32::from(GREATEST_RANK), fields)? as u16)
}

/// The next field, where it is a peer: the slow way, for what is no rank's number.
#[inline(never)]
fn next_other_peer(fields: &mut Fields<'_>) -> Option<Peer>
    ensures { MatchOption result
        (next_argument PeerForm fields.old ≡ None)
        (λ peer. next_argument PeerForm fields.old ≡ Some (PeerOf peer, fields.new)) }
{
    let field = fields.next_field()?;
    if field == b"null".as_slice() {
        return Some(Peer::Null);
    }
    let rank = read_number(u32::from(GREATEST_RANK), field)?;
    Some(Peer::Rank(rank as u16))
}

/// The next field, where it is a peer. A rank's number is read in one pass.
#[inline(always)]
fn next_peer(fields: &mut Fields<'_>) -> Option<Peer>
    ensures { MatchOption result
        (next_argument PeerForm fields.old ≡ None)
        (λ peer. next_argument PeerForm fields.old ≡ Some (PeerOf peer, fields.new)) }
{
    if let Some(rank) = fields.next_canonical(u32::from(GREATEST_RANK)) {
        return Some(Peer::Rank(rank as u16));
    }
    let mut rest = fields.again();
    let peer = next_other_peer(&mut rest);
    *fields = rest;
    peer
}

fn next_colour(fields: &mut Fields<'_>) -> Option<Option<u32>>
    ensures { MatchOption result
        (next_argument ColourForm fields.old ≡ None)
        (λ colour. next_argument ColourForm fields.old ≡ Some (Colour colour, fields.new)) }
{
    let field = fields.next_field()?;
    if field == b"undefined".as_slice() {
        return Some(None);
    }
    let colour = read_number(GREATEST_COLOUR, field)?;
    Some(Some(colour))
}

fn next_key(fields: &mut Fields<'_>) -> Option<i32>
    ensures { MatchOption result
        (next_argument KeyForm fields.old ≡ None)
        (λ key. next_argument KeyForm fields.old ≡ Some (Key key, fields.new)) }
{
    let field = fields.next_field()?;
    read_signed(field)
}

/// The next field, where it is a new communicator, or `none`.
fn next_new(fields: &mut Fields<'_>) -> Option<Option<u16>>
    ensures { MatchOption result
        (next_argument NewForm fields.old ≡ None)
        (λ new. next_argument NewForm fields.old ≡ Some (New new, fields.new)) }
{
    let field = fields.next_field()?;
    if field == b"none".as_slice() {
        return Some(None);
    }
    let comm = read_number(u32::from(GREATEST_COMM), field)?;
    Some(Some(comm as u16))
}

/// A communicator, a peer and a tag, as each message has them.
#[inline(always)]
fn next_message(fields: &mut Fields<'_>) -> Option<(u16, Peer, u32)>
    ensures { MatchOption result
        (take_arguments (comm_form ∷ PeerForm ∷ tag_form ∷ []) fields.old ≡ None)
        (λ m. take_arguments (comm_form ∷ PeerForm ∷ tag_form ∷ []) fields.old
        ≡ Some (comm_argument m.0 ∷ PeerOf m.1 ∷ tag_argument m.2 ∷ [], fields.new)) }
{
    let comm = next_comm(fields)?;
    let peer = next_peer(fields)?;
    let tag = next_tag(fields)?;
    Some((comm, peer, tag))
}

/// The bytes of a message, where they are last; no other fields are left.
#[inline(always)]
fn last_bytes(fields: &mut Fields<'_>) -> Option<Option<u32>>
    ensures { MatchOption result
        (all_taken (take_arguments (bytes_forms 0 (length fields.old)) fields.old) ≡ None)
        (λ bytes. take_arguments (bytes_forms 0 (length fields.old)) fields.old ≡ Some (bytes_arguments bytes, [])) }
{
    let Some(field) = fields.next_field() else {
        return Some(None);
    };
    let bytes = read_number(GREATEST_BYTES, field)?;
    end_of(fields)?;
    Some(Some(bytes))
}

/// A communicator, a peer and a tag, after which the bytes may be last.
#[inline(always)]
fn last_message(fields: &mut Fields<'_>) -> Option<(u16, Peer, u32, Option<u32>)>
    ensures { MatchOption result
        (all_taken (take_arguments (comm_form ∷ PeerForm ∷ tag_form ∷ bytes_forms 3 (length fields.old)) fields.old) ≡ None)
        (λ m. take_arguments (comm_form ∷ PeerForm ∷ tag_form ∷ bytes_forms 3 (length fields.old)) fields.old
        ≡ Some (comm_argument m.0 ∷ PeerOf m.1 ∷ tag_argument m.2 ∷ bytes_arguments m.3, [])) }
{
    let (comm, peer, tag) = next_message(fields)?;
    let bytes = last_bytes(fields)?;
    Some((comm, peer, tag, bytes))
}

/// The kind of a collective, whose root is the next field if it has one.
fn next_kind(collective: Collective, fields: &mut Fields<'_>) -> Option<Kind>
    ensures value { MatchOption result
        (take_arguments (root_forms collective) fields.old ≡ None)
        (λ kind. take_arguments (root_forms collective) fields.old ≡ Some (root_arguments (root_of kind), fields.new)) }
    ensures name { IfSome result (λ kind. name_of kind ≡ collective) }
{
    let kind = match collective {
        Collective::Barrier => Kind::Barrier,
        Collective::Bcast => Kind::Bcast(next_root(fields)?),
        Collective::Gather => Kind::Gather(next_root(fields)?),
        Collective::Scatter => Kind::Scatter(next_root(fields)?),
        Collective::Reduce => Kind::Reduce(next_root(fields)?),
        Collective::Allgather => Kind::Allgather,
        Collective::Alltoall => Kind::Alltoall,
        Collective::Allreduce => Kind::Allreduce,
        Collective::Scan => Kind::Scan,
        Collective::Exscan => Kind::Exscan,
    };
    Some(kind)
}

/// No more, where all the fields have come.
#[inline(always)]
fn end_of(fields: &mut Fields<'_>) -> Option<()>
    ensures { MatchOption result (is_empty fields.old ≡ false) (λ _. fields.old ≡ []) }
{
    match fields.next_field() {
        Some(_) => None,
        None => Some(()),
    }
}

/// Reads a call that does an operation at once.
pub(crate) fn read_blocking(
    operation: Operation,
    mut fields: Fields<'_>,
    into: &mut Call,
) -> Option<()>
    ensures { ReadsWhole (Blocking operation) (operation_forms operation (length fields.entry)) fields.entry result into.old into.new }
{
    match operation {
        Operation::Send(Mode::Standard) => {
            let (comm, dest, tag, bytes) = last_message(&mut fields)?;
            *into = Call::Send {
                mode: Mode::Standard,
                comm,
                dest,
                tag,
                bytes,
            };
        }
        Operation::Send(mode) => {
            let (comm, dest, tag) = next_message(&mut fields)?;
            end_of(&mut fields)?;
            *into = Call::Send {
                mode,
                comm,
                dest,
                tag,
                bytes: None,
            };
        }
        Operation::Recv => {
            let (comm, source, tag) = next_message(&mut fields)?;
            end_of(&mut fields)?;
            *into = Call::Recv { comm, source, tag };
        }
        Operation::Coll(collective) => {
            let comm = next_comm(&mut fields)?;
            let kind = next_kind(collective, &mut fields)?;
            end_of(&mut fields)?;
            *into = Call::Coll { comm, kind };
        }
    }
    Some(())
}

/// Reads a call that starts an operation.
pub(crate) fn read_started(
    operation: Operation,
    mut fields: Fields<'_>,
    into: &mut Call,
) -> Option<()>
    ensures { ReadsWhole (Started operation) (request_form ∷ operation_forms operation (length fields.entry - 1)) fields.entry result into.old into.new }
{
    let req = next_request(&mut fields)?;
    match operation {
        Operation::Send(Mode::Standard) => {
            let (comm, dest, tag, bytes) = last_message(&mut fields)?;
            *into = Call::Isend {
                req,
                mode: Mode::Standard,
                comm,
                dest,
                tag,
                bytes,
            };
        }
        Operation::Send(mode) => {
            let (comm, dest, tag) = next_message(&mut fields)?;
            end_of(&mut fields)?;
            *into = Call::Isend {
                req,
                mode,
                comm,
                dest,
                tag,
                bytes: None,
            };
        }
        Operation::Recv => {
            let (comm, source, tag) = next_message(&mut fields)?;
            end_of(&mut fields)?;
            *into = Call::Irecv {
                req,
                comm,
                source,
                tag,
            };
        }
        Operation::Coll(collective) => {
            let comm = next_comm(&mut fields)?;
            let kind = next_kind(collective, &mut fields)?;
            end_of(&mut fields)?;
            *into = Call::Icoll { req, comm, kind };
        }
    }
    Some(())
}

/// A communicator, a source and a tag.
fn last_source(fields: &mut Fields<'_>) -> Option<CallArgs>
    ensures { TakesArgs layout.Message fields.old result }
{
    let (comm, source, tag) = next_message(fields)?;
    end_of(fields)?;
    Some(CallArgs::Message { comm, source, tag })
}

/// Both messages of MPI_Sendrecv.
fn last_exchange(fields: &mut Fields<'_>) -> Option<CallArgs>
    ensures { TakesArgs layout.Exchange fields.old result }
{
    let (comm, dest, send_tag) = next_message(fields)?;
    let source = next_peer(fields)?;
    let recv_tag = next_tag(fields)?;
    let bytes = last_bytes(fields)?;
    Some(CallArgs::Exchange {
        comm,
        dest,
        send_tag,
        source,
        recv_tag,
        bytes,
    })
}

/// A communicator and a new one.
fn last_copy(fields: &mut Fields<'_>) -> Option<CallArgs>
    ensures { TakesArgs layout.Copy fields.old result }
{
    let comm = next_comm(fields)?;
    let new = next_comm(fields)?;
    end_of(fields)?;
    Some(CallArgs::Copy { comm, new })
}

/// What a split has after it.
fn last_split(fields: &mut Fields<'_>) -> Option<CallArgs>
    ensures { TakesArgs layout.Split fields.old result }
{
    let comm = next_comm(fields)?;
    let colour = next_colour(fields)?;
    let key = next_key(fields)?;
    let new = next_new(fields)?;
    end_of(fields)?;
    Some(CallArgs::Split {
        comm,
        colour,
        key,
        new,
    })
}

/// What follows a name of a layout that no wait has.
fn last_args(layout: Layout, fields: &mut Fields<'_>) -> Option<CallArgs>
    requires { has_args layout ≡ true }
    ensures { TakesArgs layout fields.old result }
{
    match layout {
        Layout::Message => last_source(fields),
        Layout::Exchange => last_exchange(fields),
        Layout::Copy => last_copy(fields),
        Layout::Split => last_split(fields),
        _ => {
            end_of(fields)?;
            Some(CallArgs::Nothing)
        }
    }
}

/// Reads the call of a name that is no wait's.
pub(crate) fn read_args(name: Name, mut fields: Fields<'_>, into: &mut Call) -> Option<()>
    requires { has_args (layout_of name) ≡ true }
    ensures { ReadsWhole (Named name) (args_forms (layout_of name) (length fields.entry)) fields.entry result into.old into.new }
{
    let call_args = last_args(layout_of(name), &mut fields)?;
    *into = name.call(call_args);
    Some(())
}

pub(crate) fn read_wait(mut fields: Fields<'_>, into: &mut Call) -> Option<()>
    ensures { ReadsWhole (Named name.Wait) (request_form ∷ []) fields.entry result into.old into.new }
{
    let req = next_request(&mut fields)?;
    end_of(&mut fields)?;
    *into = Call::Wait { req };
    Some(())
}
