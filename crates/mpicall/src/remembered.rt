//! Lines that came before, held in place with their records: the traces of programs are loops, so that most lines
//! equal one of the last few.
//!
//! The policy has two modes. While lines repeat, the line that came after the last one before is expected,
//! and else one with the same mark is compared. After 32 more misses than hits, lines that come often are read
//! at once (`often.rt`), which is faster than to look whether they are known. Another is compared with the line
//! that came again last, up to 16 misses in a row, and else read plainly. That mode ends after some 4,000 lines,
//! or if expected lines bring the count below 32 again.
//!
//! A sought line is always compared with the kept one as a whole, and the kept one is known to spell its
//! record. So the policy is a matter of time alone, and nothing is proved of it.

ghost use Rattle.std.specs.Prelude.{◌≡◌, ◌≤◌, true, length, take, IfOk, MatchOption, MatchBool};
ghost use Rattle.mpicall.specs.Parsing.{record_of_line};
ghost use Rattle.mpicall.specs.inner.Parsing.{ReadsInto, Spells, BeginsWith};
ghost use Rattle.mpicall.specs.declared.remembered.TheConstants.{MOST_KEPT_BYTES};

use crate::fault::LineFault;
use crate::line::read_into;
use crate::record::Record;

/// How many lines are kept.
const MOST_KEPT: usize = 24;

/// The most bytes of a line that is kept.
const MOST_KEPT_BYTES: usize = 56;

/// How often a line may be missed before no other line is sought for a while than the one that came again last; one that
/// was expected makes up for it.
const MOST_MISSED: u16 = 32;

/// The count at which that while ends; it ends too where expected lines bring the count below the other.
const MOST_PASSED: u16 = 4096;

/// So many lines may be missed in a row until, within that while, none is expected any more.
const MOST_MISSED_IN_A_ROW: u16 = 16;

/// A line, and the record that it spells.
#[derive(Clone, Copy)]
struct KnownLine {
    known: Record,
    bytes: [u8; MOST_KEPT_BYTES],
    len: u8,
    ghost short: { len ≤ MOST_KEPT_BYTES },
    ghost spelled: { Spells (take len bytes) known },
}

/// The last lines that were kept. A line that is sought is compared with the kept one, so that the places below may
/// be any.
#[derive(Drop)]
pub(crate) struct Remembered {
    kept: [KnownLine; MOST_KEPT],
    /// The place of the line that came last after each.
    behind: [u8; MOST_KEPT],
    /// The place of the last line with each mark.
    places: [u8; 256],
    /// The place of the line that came last, if it was kept.
    last: u8,
    /// The place of the last line that was known when it came, and how many were missed then.
    again: u8,
    missed_before: u16,
    /// The place of the next line that is kept, modulo how many there are.
    fresh: u8,
    /// The mark of the line that was sought last.
    mark: u8,
    /// How many lines were missed, less those that were expected and came; from the most on, each line that is plainly
    /// read counts as missed.
    missed: u16,
}

/// A mark of a line, by its ends.
fn mark_of(line: &[u8]) -> u8 {
    let (Some(first), Some(last)) = (line.first_chunk::<4>(), line.last_chunk::<4>()) else {
        return 0;
    };
    let ends = u32::from_le_bytes(*first).wrapping_mul(31) ^ u32::from_le_bytes(*last);
    ((ends.wrapping_mul(0x9e37_79b1) >> 24) & 0xff) as u8
}

/// Whether two lines of one length are the same. Those of 8 to 16 bytes, as most are, are compared by their first 8 and
/// last 8, others whole.
#[inline(always)]
fn are_same(one: &[u8], other: &[u8]) -> bool
    requires { length one.now ≡ length other.now }
    ensures { result ≡ true → one.now ≡ other.now }
{
    if one.len() > 16 {
        return one == other;
    }
    let (Some(first), Some(second)) = (one.first_chunk::<8>(), other.first_chunk::<8>()) else {
        return one == other;
    };
    let (Some(last), Some(latter)) = (one.last_chunk::<8>(), other.last_chunk::<8>()) else {
        return one == other;
    };
    *first == *second && *last == *latter
}

impl KnownLine {
    /// The line `finalize`, with its record.
    fn finalize() -> KnownLine {
        let mut bytes = [0; MOST_KEPT_BYTES];
        bytes[..9].copy_from_slice(b"finalize\n");
        KnownLine {
            known: Record::finalize(),
            bytes,
            len: 9,
        }
    }

    fn line(&self) -> &[u8]
        ensures { Spells result.now self.now.known }
    {
        &self.bytes[..usize::from(self.len)]
    }
}

impl Remembered {
    pub(crate) fn new() -> Remembered {
        Remembered {
            kept: [KnownLine::finalize(); MOST_KEPT],
            behind: [0; MOST_KEPT],
            places: [0; 256],
            last: 0,
            again: 0,
            missed_before: 0,
            fresh: 0,
            mark: 0,
            missed: 0,
        }
    }

    /// Notes that the line at a place came, after the last one.
    fn note(&mut self, at: u8) {
        if let Some(behind) = self.behind.get_mut(usize::from(self.last)) {
            *behind = at;
        }
        self.last = at;
    }

    /// The place of the line that is expected: the one that came after the last line before, or, where few lines come
    /// again, the last that did.
    #[inline(always)]
    fn expected(&self) -> Option<u8> {
        if self.missed < MOST_MISSED {
            return self.behind.get(usize::from(self.last)).copied();
        }
        if self.missed.wrapping_sub(self.missed_before) < MOST_MISSED_IN_A_ROW {
            Some(self.again)
        } else {
            None
        }
    }

    /// Notes that the line at a place was known when it came.
    #[inline(always)]
    fn note_known(&mut self, at: u8) {
        self.again = at;
        self.missed_before = self.missed;
    }

    /// Reads the record of the first line of some bytes, where it is the line that is expected; says how many bytes it
    /// has, and else leaves the place alone.
    #[inline(always)]
    pub(crate) fn expect(&mut self, buffered: &[u8], into: &mut Record) -> Option<usize>
        ensures { MatchOption result (into.new ≡ into.old) (BeginsWith buffered.now into.new) }
    {
        let at = self.expected()?;
        let kept = self.kept.get(usize::from(at))?;
        let line = kept.line();
        if buffered.len() < line.len() || !are_same(&buffered[..line.len()], line) {
            return None;
        }
        let len = line.len();
        kept.known.write(into);
        self.missed = self.missed.saturating_sub(1);
        self.last = at;
        self.note_known(at);
        Some(len)
    }

    /// Notes that a line was missed.
    #[inline(always)]
    fn note_missed(&mut self) {
        self.missed = if self.missed < MOST_PASSED {
            self.missed + 1
        } else {
            0
        };
    }

    /// Reads the record of the first line of some bytes, where lines come again and it is the one that is expected. Says
    /// how many bytes it has, and else leaves the place alone.
    #[inline(always)]
    pub(crate) fn read_expected(&mut self, buffered: &[u8], into: &mut Record) -> Option<usize>
        ensures { MatchOption result (into.new ≡ into.old) (BeginsWith buffered.now into.new) }
    {
        if self.missed >= MOST_MISSED {
            return None;
        }
        self.expect(buffered, into)
    }

    /// Reads the record of the first line of some bytes, where few lines come again, and it is one of those that come
    /// often, or the one that is expected. Says how many bytes it has, and else leaves the place alone.
    #[inline(always)]
    pub(crate) fn read_front(&mut self, buffered: &[u8], into: &mut Record) -> Option<usize>
        ensures { MatchOption result (into.new ≡ into.old) (BeginsWith buffered.now into.new) }
    {
        if self.missed < MOST_MISSED {
            return None;
        }
        if let Some(len) = into.read_often(buffered) {
            self.note_missed();
            return Some(len);
        }
        self.expect(buffered, into)
    }

    /// Reads the record of a line that is kept; says whether it is, and else leaves the place alone.
    #[inline(never)]
    fn find(&mut self, line: &[u8], into: &mut Record) -> bool
        ensures { MatchBool result (Spells line.now into.new) (into.new ≡ into.old) }
    {
        self.mark = mark_of(line);
        let at = self.places[usize::from(self.mark)];
        let Some(kept) = self.kept.get(usize::from(at)) else {
            return false;
        };
        if kept.line() != line {
            return false;
        }
        kept.known.write(into);
        self.note(at);
        self.note_known(at);
        true
    }

    /// Keeps a line that was not found, if it is short.
    #[inline(never)]
    fn keep(&mut self, line: &[u8], entry: &Record)
        requires { Spells line.now entry.now }
    {
        if line.len() > MOST_KEPT_BYTES {
            return;
        }
        let at = self.fresh % MOST_KEPT as u8;
        self.fresh = self.fresh.wrapping_add(1);
        self.places[usize::from(self.mark)] = at;
        self.note(at);
        let mut bytes = [0; MOST_KEPT_BYTES];
        bytes[..line.len()].copy_from_slice(line);
        self.kept[usize::from(at)] = KnownLine {
            known: *entry,
            bytes,
            len: line.len() as u8,
        };
    }

    /// Reads the record of a line into one place, which a line with a fault leaves alone.
    pub(crate) fn read(&mut self, line: &[u8], into: &mut Record) -> Result<(), LineFault>
        ensures reading { ReadsInto result into.old into.new (record_of_line line.now) }
        ensures ok { IfOk result (λ _. Spells line.now into.new) }
    {
        let missed = self.missed;
        if missed < MOST_MISSED && self.find(line, into) {
            return Ok(());
        }
        match read_into(line, into) {
            Ok(()) => {
                if missed < MOST_MISSED {
                    self.keep(line, into);
                }
                self.note_missed();
                Ok(())
            }
            Err(fault) => Err(fault),
        }
    }
}
