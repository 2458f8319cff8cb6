//! The fields of a line.
//!
//! A field is a number or one of three names. What a name or a number means follows from the form of the
//! field, so a field doesn't keep it.

ghost use Rattle.std.specs.Prelude.{◌≡◌, ◌≤◌, option_map, codes};
ghost use Rattle.mpicall.specs.Number.{negative, signed_of, number_up_to};
ghost use Rattle.journals.specs.inner.Fields.{number_field};
ghost use Rattle.journals.specs.inner.Texts.{IsNumber};
ghost use Rattle.journals.specs.Fields.{positive_of, signed_field, peer_field, or_any, or_named, field_of};

use crate::form::Form;
use crate::limits::GREATEST;
use crate::texts::Piece;
use crate::unaligned::{NaturalBytes, SignedBytes};
use mpicall::number::read_number;
use std::mem::size_of;

/// What a field is.
#[derive(Clone, Copy, PartialEq, Eq)]
pub enum Field {
    /// The number of a request, a message, a communicator or a rank of the world, or bytes.
    Natural(NaturalBytes),
    /// A peer, a tag, a root, a colour or a key.
    Signed(SignedBytes),
    /// `null`: no peer.
    Null,
    /// `any`: a wildcard.
    Any,
    /// `undefined`: no colour.
    Undefined,
}

const _: () = prove!(size_of::<Field>() <= 5);

impl Field {
    /// The field of a natural number.
    #[inline(always)]
    pub fn natural(number: u32) -> Field
        ensures { result ≡ Field.Natural number }
    {
        Field::Natural(NaturalBytes::of(number))
    }

    /// The field of a signed number.
    #[inline(always)]
    pub fn signed(number: i32) -> Field
        ensures { result ≡ Field.Signed number }
    {
        Field::Signed(SignedBytes::of(number))
    }
}

/// A canonical number from 1 to 2147483647.
pub(crate) fn read_positive(text: &[u8]) -> Option<u32>
    ensures { result ≡ positive_of text.now }
{
    let number = read_number(GREATEST, text)?;
    if number == 0 {
        return None;
    }
    Some(number)
}

fn positive_field(text: &[u8]) -> Option<Field>
    ensures { result ≡ option_map (λ n. Field.Natural n) (positive_of text.now) }
{
    Some(Field::natural(read_positive(text)?))
}

/// The field of a canonical number up to a greatest one.
fn natural_field(greatest: u32, text: &[u8]) -> Option<Field>
    ensures { result ≡ option_map (λ n. Field.Natural n) (number_up_to greatest text.now) }
{
    Some(Field::natural(read_number(greatest, text)?))
}

/// The negative of a number other than 0.
fn negative(number: u32) -> Option<i32>
    requires { number ≤ 2147483648 }
    ensures { result ≡ negative number }
{
    if number == 0 {
        return None;
    }
    Some((-i64::from(number)) as i32)
}

/// The signed number of 32 bits that a text spells, if it does.
#[tactic(auto, unfolding(mpicall::specs::Number::signed_of))]
fn read_signed(text: &[u8]) -> Option<i32>
    ensures { result ≡ signed_of text.now }
{
    let (first, digits) = text.split_first()?;
    if *first == b'-' {
        return negative(read_number(GREATEST + 1, digits)?);
    }
    Some(read_number(GREATEST, text)? as i32)
}

fn signed_field(text: &[u8]) -> Option<Field>
    ensures { result ≡ signed_field text.now }
{
    Some(Field::signed(read_signed(text)?))
}

fn peer_field(text: &[u8]) -> Option<Field>
    ensures { result ≡ peer_field text.now }
{
    if text == b"null".as_slice() {
        return Some(Field::Null);
    }
    signed_field(text)
}

fn source_field(text: &[u8]) -> Option<Field>
    ensures { result ≡ or_any text.now (peer_field text.now) }
{
    if text == b"any".as_slice() {
        return Some(Field::Any);
    }
    peer_field(text)
}

fn source_tag_field(text: &[u8]) -> Option<Field>
    ensures { result ≡ or_any text.now (signed_field text.now) }
{
    if text == b"any".as_slice() {
        return Some(Field::Any);
    }
    signed_field(text)
}

fn colour_field(text: &[u8]) -> Option<Field>
    ensures { result ≡ or_named (codes "undefined") Field.Undefined text.now (signed_field text.now) }
{
    if text == b"undefined".as_slice() {
        return Some(Field::Undefined);
    }
    signed_field(text)
}

/// The field of a form that a text spells, in a run of so many ranks; None if it isn't in that form or its
/// range.
pub fn read_field(ranks: u32, form: Form, text: &[u8]) -> Option<Field>
    requires { 1 ≤ ranks }
    ensures { result ≡ field_of ranks form text.now }
{
    match form {
        Form::NewRequest | Form::NewMessage | Form::Request | Form::Message => {
            positive_field(text)
        }
        Form::Comm | Form::NewComm | Form::Bytes => natural_field(GREATEST, text),
        Form::Member => natural_field(ranks - 1, text),
        Form::Peer => peer_field(text),
        Form::Source => source_field(text),
        Form::SourceTag => source_tag_field(text),
        Form::Colour => colour_field(text),
        Form::Tag | Form::Root | Form::Key => signed_field(text),
    }
}

/// The field of a form that is a canonical number up to the greatest one; None if it isn't in the form's range.
#[inline(always)]
fn number_field(ranks: u32, form: Form, number: u32) -> Option<Field>
    requires some { 1 ≤ ranks }
    requires within { number ≤ GREATEST }
    ensures { result ≡ number_field ranks form number }
{
    match form {
        Form::NewRequest | Form::NewMessage | Form::Request | Form::Message => {
            if number == 0 {
                return None;
            }
            Some(Field::natural(number))
        }
        Form::Comm | Form::NewComm | Form::Bytes => Some(Field::natural(number)),
        Form::Member => {
            if number > ranks - 1 {
                return None;
            }
            Some(Field::natural(number))
        }
        Form::Peer
        | Form::Source
        | Form::SourceTag
        | Form::Colour
        | Form::Tag
        | Form::Root
        | Form::Key => Some(Field::signed(number as i32)),
    }
}

/// The field of a form that a text spells, whose number was read with it where it is one; None if it isn't in that form
/// or its range.
#[inline(always)]
#[tactic(auto, using(crate::proofs::FieldLemmas::number_read))]
pub(crate) fn read_piece(ranks: u32, form: Form, piece: Piece<'_>) -> Option<Field>
    requires some { 1 ≤ ranks }
    requires number { IsNumber piece.text.now piece.number }
    ensures { result ≡ field_of ranks form piece.entry.text.now }
{
    match piece.number {
        Some(number) => number_field(ranks, form, number),
        None => read_field(ranks, form, piece.text),
    }
}
