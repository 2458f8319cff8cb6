//! Canonical numbers: `0`, or decimal digits the first of which isn't `0`; and signed ones.

ghost use Rattle.std.specs.Prelude.{◌≡◌, ◌&&◌, ◌≤◌, nat_le, Some, None, IfSome, if◌then◌else◌};
ghost use Rattle.std.specs.Str.{all_ascii_digits};
ghost use Rattle.mpicall.specs.inner.Front.{IsFront};
ghost use Rattle.mpicall.specs.Number.{has_leading_zero, is_canonical, number_up_to, value_of, negative, signed_of};

use crate::limits::GREATEST_KEY;

/// Whether a field has a `0` before further bytes.
#[inline(always)]
pub(crate) fn has_leading_zero(field: &[u8]) -> bool
    ensures { result ≡ has_leading_zero field.now }
{
    field.len() > 1 && field[0] == b'0'
}

/// Whether a field holds nothing but decimal digits.
fn is_digits(field: &[u8]) -> bool
    ensures { result ≡ all_ascii_digits field.now }
{
    for byte in field {
        if !byte.is_ascii_digit() {
            return false;
        }
    }
    true
}

/// Whether a field is a canonical number, of whatever size.
#[tactic(auto, unfolding(crate::specs::Number::is_canonical))]
pub fn is_canonical(field: &[u8]) -> bool
    ensures { result ≡ is_canonical field.now }
{
    !field.is_empty() && is_digits(field) && !has_leading_zero(field)
}

/// The number that digits write, if it is at most `limit`.
#[inline(always)]
#[tactic(auto, using(crate::proofs::NumberLemmas::number_steps))]
fn read_digits(limit: u32, field: &[u8]) -> Option<u32>
    ensures value { result
        ≡ (if all_ascii_digits field.now && nat_le (value_of field.now) limit
        then Some (value_of field.now) else None) }
    ensures within { IfSome result (λ number. number ≤ limit) }
{
    let mut value = 0;
    for byte in field {
        if !byte.is_ascii_digit() {
            return None;
        }
        let next = u64::from(value) * 10 + u64::from(*byte - b'0');
        if next > u64::from(limit) {
            return None;
        }
        value = next as u32;
    }
    Some(value)
}

/// The number that a field spells, if it is a canonical one of at most `limit`.
#[inline(always)]
#[tactic(auto, unfolding(crate::specs::Number::is_canonical, crate::specs::Number::number_up_to))]
pub fn read_number(limit: u32, field: &[u8]) -> Option<u32>
    ensures value { result ≡ number_up_to limit field.now }
    ensures within { IfSome result (λ number. number ≤ limit) }
{
    if field.is_empty() || has_leading_zero(field) {
        return None;
    }
    read_digits(limit, field)
}

/// Decimal digits at the front of some bytes: how many there are, and the number that they write.
#[derive(Clone, Copy)]
pub(crate) struct Front {
    pub count: usize,
    pub number: u32,
}

/// The digits before the first space of some bytes, or all of them where there is no space. None where another byte
/// comes first, or where they write a number above `limit`.
#[inline(always)]
pub(crate) fn read_front(limit: u32, bytes: &[u8]) -> Option<Front>
    ensures { IfSome result (λ front. IsFront limit bytes.now front.count front.number) }
{
    let mut number = 0;
    for at in 0..bytes.len() {
        let byte = bytes[at];
        if !byte.is_ascii_digit() {
            if byte != b' ' {
                return None;
            }
            return Some(Front { count: at, number });
        }
        let next = u64::from(number) * 10 + u64::from(byte - b'0');
        if next > u64::from(limit) {
            return None;
        }
        number = next as u32;
    }
    Some(Front {
        count: bytes.len(),
        number,
    })
}

/// The negative of a number other than 0.
fn negative(number: u32) -> Option<i32>
    requires { number ≤ 2147483648 }
    ensures { result ≡ negative number }
{
    if number == 0 {
        return None;
    }
    Some((-i64::from(number)) as i32)
}

/// The signed number of 32 bits that a field spells, if it does.
#[tactic(auto, unfolding(crate::specs::Number::signed_of))]
pub(crate) fn read_signed(field: &[u8]) -> Option<i32>
    ensures { result ≡ signed_of field.now }
{
    let (first, digits) = field.split_first()?;
    if *first == b'-' {
        return negative(read_number(GREATEST_KEY + 1, digits)?);
    }
    Some(read_number(GREATEST_KEY, field)? as i32)
}
