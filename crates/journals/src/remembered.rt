//! Lines that came before, each with where its fields are held: programs are loops, so many lines equal one of the
//! last few.
//!
//! A line that is sought is compared with a remembered one as a whole, and it is known where the line that this one
//! spells is held. So which lines are remembered and sought is a matter of time alone. Those that number a request or
//! complete one don't come again. Where fewer than half of the others are found, none is sought for a while.

ghost use Rattle.std.specs.Prelude.{◌≡◌, ◌<◌, List, IfSome};
ghost use Rattle.std.specs.Str.{bytes_eq};
ghost use Rattle.journals.specs.declared.field.Field.{Field};
ghost use Rattle.journals.specs.inner.Remembered.{IsHeldLine, AreHeld};

use crate::lines::PackedLine;
use crate::word::are_same;

/// How many lines are remembered.
const MOST_KNOWN: usize = 16;

/// The most bytes of a line that is remembered.
const MOST_KNOWN_BYTES: usize = 24;

/// How often a line may be missed until none is sought for a while; each that is found makes up for one.
const MOST_MISSED: u16 = 32;

/// The count at which that while ends.
const MOST_PASSED: u16 = 4096;

/// A line of a run of so many ranks, and where it is held.
#[derive(Clone, Copy)]
struct KnownLine {
    ranks: u32,
    bytes: [u8; MOST_KNOWN_BYTES],
    len: u8,
    packed: PackedLine,
}

/// The lines that are remembered, by a mark of each.
#[derive(Drop)]
pub(crate) struct Remembered {
    known: [Option<KnownLine>; MOST_KNOWN],
    /// How many lines were missed, less those that were found; from the most on, each line counts.
    missed: u16,
}

/// The place of a line, by its last bytes.
#[inline(always)]
fn place_of(line: &[u8]) -> usize
    ensures { result < MOST_KNOWN }
{
    let Some(last) = line.last_chunk::<4>() else {
        return 0;
    };
    let mark = u32::from_le_bytes(*last).wrapping_mul(0x9e37_79b1) >> 24;
    mark as usize % MOST_KNOWN
}

/// Whether a line may come again: most nonblocking calls, waits and reports of requests don't.
#[inline(always)]
fn may_come_again(line: &[u8]) -> bool {
    !matches!(line, [b'i' | b'w', ..] | [b'=', b'd', ..])
}

/// Whether two lines are the same, compared by four bytes at once as long as there are so many.
#[inline(always)]
fn are_same_lines(mut one: &[u8], mut other: &[u8]) -> bool
    ensures { result ≡ bytes_eq one.entry.now other.entry.now }
{
    while let Some((front, rest)) = one.split_first_chunk::<4>() {
        let Some((its_front, its_rest)) = other.split_first_chunk::<4>() else {
            return are_same(one, other);
        };
        if *front != *its_front {
            return are_same(one, other);
        }
        one = rest;
        other = its_rest;
    }
    are_same(one, other)
}

impl Remembered {
    pub(crate) fn new() -> Remembered
        ensures { (fields : List Field) → AreHeld fields result.known }
    {
        Remembered {
            known: [None; MOST_KNOWN],
            missed: 0,
        }
    }

    /// Where a line is held, if it is remembered.
    #[inline(always)]
    fn get(&self, ranks: u32, line: &[u8]) -> Option<PackedLine>
        ensures { (fields : List Field) → AreHeld fields self.now.known
            → IfSome result (λ packed. IsHeldLine fields ranks line.now packed) }
    {
        let Some(known) = &self.known[place_of(line)] else {
            return None;
        };
        let text = known.bytes.get(..usize::from(known.len))?;
        if known.ranks != ranks || !are_same_lines(text, line) {
            return None;
        }
        Some(known.packed)
    }

    /// Where a line is held, if it is remembered and sought.
    #[inline(always)]
    pub(crate) fn find(&mut self, ranks: u32, line: &[u8]) -> Option<PackedLine>
        ensures known { self.new.known ≡ self.old.known }
        ensures held { (fields : List Field) → AreHeld fields self.old.known
            → IfSome result (λ packed. IsHeldLine fields ranks line.now packed) }
    {
        if !may_come_again(line) {
            return None;
        }
        if self.missed >= MOST_MISSED {
            self.missed = if self.missed < MOST_PASSED {
                self.missed + 1
            } else {
                0
            };
            return None;
        }
        let found = self.get(ranks, line);
        if found.is_some() {
            self.missed = self.missed.saturating_sub(1);
        } else {
            self.missed += 1;
        }
        found
    }

    /// Remembers a line that wasn't found, if it is short.
    #[inline(always)]
    pub(crate) fn keep(&mut self, ranks: u32, line: &[u8], packed: PackedLine)
        ensures { (fields : List Field) → AreHeld fields self.old.known
            → IsHeldLine fields ranks line.now packed → AreHeld fields self.new.known }
    {
        if line.len() > MOST_KNOWN_BYTES || self.missed >= MOST_MISSED || !may_come_again(line) {
            return;
        }
        let mut bytes = [0; MOST_KNOWN_BYTES];
        bytes[..line.len()].copy_from_slice(line);
        self.known[place_of(line)] = Some(KnownLine {
            ranks,
            bytes,
            len: line.len() as u8,
            packed,
        });
    }
}
