//! The bytes that were read ahead of an input, held in place.
//!
//! The buffer has room for a line of the greatest length and 4 kB more. Held bytes are moved to its front only if
//! there is no room left after them.

ghost use Rattle.std.specs.Prelude.{◌≡◌, ◌≢◌, true, false, Ok, ◌+◌, ◌-◌, ◌≤◌, ◌<◌, ℕ, List, [], ◌++◌, length, drop, IsTrue, IfOk, MatchOption, OnErr, ◌↔◌};
ghost use Rattle.std.specs.Io.KnownBytes.{Keeps, prepend_known, IsAtEnd};
ghost use Rattle.mpicall.specs.Device.{CountsFailure};
ghost use Rattle.journals.specs.inner.LineWindow.{Fills, held_between, NoFeedBelow, FirstFeed, EndsLine};

use crate::limits::MOST_LINE_BYTES;
use memchr::memchr;
use mpicall::device::{DeviceFault, Input};
use std::marker::Model;

/// How many bytes may be held.
const CAPACITY: usize = 36_864;

/// Bytes that were read and not yet used; contracts see their list.
#[derive(Drop)]
pub(crate) struct Window {
    buffer: [u8; CAPACITY],
    /// The places in the buffer at which the held bytes begin and end.
    start: usize,
    end: usize,
}

impl Model for Window {
    ghost use Rattle.std.specs.Prelude.{List, ℕ, ◌≤◌};
    ghost use Rattle.journals.specs.inner.LineWindow.{held_between};
    ghost use Rattle.journals.specs.declared.line_window.TheConstants.{CAPACITY};

    ghost Value = { List ℕ };

    ghost view = { λ w. held_between w.start w.end w.buffer };

    ghost invariant = { λ w. (w.start ≤ w.end) × (w.end ≤ CAPACITY) };
}

/// Makes room after the bytes that are held from `start` to `end`; they move to the buffer's front
/// if that is needed.
fn make_room(buffer: &mut [u8; CAPACITY], start: &mut usize, end: &mut usize)
    requires order { start.old ≤ end.old }
    requires within { end.old ≤ CAPACITY }
    requires few { end.old - start.old ≤ MOST_LINE_BYTES }
    ensures held { held_between start.new end.new buffer.new ≡ held_between start.old end.old buffer.old }
    ensures order { start.new ≤ end.new }
    ensures room { end.new < CAPACITY }
{
    if *start == *end {
        *start = 0;
        *end = 0;
    }
    if *end == CAPACITY {
        buffer.copy_within(*start..*end, 0);
        *end -= *start;
        *start = 0;
    }
}

impl Window {
    pub(crate) fn new() -> Window
        ensures { result ≡ [] }
    {
        Window {
            buffer: [0; CAPACITY],
            start: 0,
            end: 0,
        }
    }

    #[inline(always)]
    pub(crate) fn held(&self) -> &[u8]
        ensures { result.now ≡ self.now }
    {
        &self.buffer[self.start..self.end]
    }

    pub(crate) fn is_empty(&self) -> bool
        ensures { IsTrue result ↔ (self.now ≡ []) }
    {
        self.start == self.end
    }

    /// Lets the first `count` bytes go.
    #[inline(always)]
    pub(crate) fn drop_front(&mut self, count: usize)
        requires { count ≤ length self.old }
        ensures { self.new ≡ drop count self.old }
    {
        self.start += count;
    }

    /// Lets all bytes go.
    pub(crate) fn clear(&mut self)
        ensures { self.new ≡ [] }
    {
        self.start = 0;
        self.end = 0;
    }

    /// Reads once, right after the held bytes, and says how many bytes came; 0 at the input's end.
    pub(crate) fn fill<I: Input>(&mut self, input: &mut I) -> Result<usize, DeviceFault>
        requires { length self.old ≤ MOST_LINE_BYTES }
        ensures known { Keeps
            (prepend_known self.old (I.left input.old))
            (prepend_known self.new (I.left input.new)) }
        ensures ok { IfOk result (λ count. Fills self.old self.new count) }
        ensures end { IfOk result (λ count. count ≡ 0 → IsAtEnd (I.left input.new)) }
        ensures fault { OnErr result (self.new ≡ self.old) }
        ensures count { CountsFailure (I.failures input.old) (I.failures input.new) result }
    {
        make_room(&mut self.buffer, &mut self.start, &mut self.end);
        match input.read_some(&mut self.buffer[self.end..]) {
            Ok(count) => {
                self.end += count;
                Ok(count)
            }
            Err(fault) => Err(fault),
        }
    }
}

/// The place of the first line feed, which is not before `from`.
#[inline(always)]
pub(crate) fn feed_at(bytes: &[u8], from: usize) -> Option<usize>
    requires within { from ≤ length bytes.now }
    requires before { NoFeedBelow bytes.now from }
    ensures { MatchOption result (NoFeedBelow bytes.now (length bytes.now)) (FirstFeed bytes.now) }
{
    match memchr(b'\n', &bytes[from..]) {
        Some(at) => Some(from + at),
        None => None,
    }
}

/// Reads on until the next line is held or too long, or no bytes are left; says how many of the held
/// bytes it has.
#[inline(always)]
pub(crate) fn line_end<I: Input>(window: &mut Window, input: &mut I) -> Result<usize, DeviceFault>
    ensures known { Keeps
        (prepend_known window.old (I.left input.old))
        (prepend_known window.new (I.left input.new)) }
    ensures ends { IfOk result (EndsLine window.new (I.left input.new)) }
    ensures cut { OnErr result (NoFeedBelow window.new (length window.new)) }
    ensures short { OnErr result (length window.new ≤ MOST_LINE_BYTES) }
    ensures count { CountsFailure (I.failures input.old) (I.failures input.new) result }
{
    let mut searched = 0;
    loop {
        if let Some(at) = feed_at(window.held(), searched) {
            return Ok(at + 1);
        }
        searched = window.held().len();
        if searched > MOST_LINE_BYTES || window.fill(input)? == 0 {
            return Ok(searched);
        }
    }
}
