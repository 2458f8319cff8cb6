//! The bytes that were read ahead of an input, held in place.
//!
//! Held bytes are moved to the front of the buffer only if there is no room left after them.

ghost use Rattle.std.specs.Prelude.{◌≡◌, ◌≢◌, true, false, Ok, ◌+◌, ◌-◌, ◌≤◌, ◌<◌, ℕ, List, [], length, drop, IsTrue, IfOk, MatchOption, OnErr, ◌↔◌};
ghost use Rattle.std.specs.Io.KnownBytes.{Keeps, prepend_known, IsAtEnd};
ghost use Rattle.mpicall.specs.Device.{CountsFailure};
ghost use Rattle.mpicall.specs.inner.Window.{Fills, buffered_between, NoFeedBelow, FirstFeed, EndsLine};

use crate::device::{DeviceFault, Input};
use crate::limits::MOST_LINE_BYTES;
use memchr::memchr;
use std::marker::Model;

/// How many bytes may be held.
const CAPACITY: usize = 4096;

/// Bytes that were read and not yet used; contracts see their list.
#[derive(Drop)]
pub(crate) struct Window {
    buffer: [u8; CAPACITY],
    /// Where the held bytes begin and end in the buffer.
    start: usize,
    end: usize,
}

impl Model for Window {
    ghost use Rattle.std.specs.Prelude.{List, ℕ, ◌≤◌};
    ghost use Rattle.mpicall.specs.inner.Window.{buffered_between};
    ghost use Rattle.mpicall.specs.declared.window.TheConstants.{CAPACITY};

    ghost Value = { List ℕ };

    ghost view = { λ w. buffered_between w.start w.end w.buffer };

    ghost invariant = { λ w. (w.start ≤ w.end) × (w.end ≤ CAPACITY) };
}

/// Makes room after the bytes that are held from `start` to `end`; they go to the buffer's front
/// where that is needed.
fn make_room(buffer: &mut [u8; CAPACITY], start: &mut usize, end: &mut usize)
    requires order { start.old ≤ end.old }
    requires within { end.old ≤ CAPACITY }
    requires few { end.old - start.old ≤ MOST_LINE_BYTES }
    ensures buffered { buffered_between start.new end.new buffer.new ≡ buffered_between start.old end.old buffer.old }
    ensures order { start.new ≤ end.new }
    ensures room { end.new < CAPACITY }
{
    if *start == *end {
        *start = 0;
        *end = 0;
    }
    if *end == CAPACITY {
        buffer.copy_within(*start..*end, 0);
        *end -= *start;
        *start = 0;
    }
}

impl Window {
    pub(crate) fn new() -> Window
        ensures { result ≡ [] }
    {
        Window {
            buffer: [0; CAPACITY],
            start: 0,
            end: 0,
        }
    }

    pub(crate) fn buffered(&self) -> &[u8]
        ensures { result.now ≡ self.now }
    {
        &self.buffer[self.start..self.end]
    }

    pub(crate) fn is_empty(&self) -> bool
        ensures { IsTrue result ↔ (self.now ≡ []) }
    {
        self.start == self.end
    }

    /// Lets the first `count` bytes go.
    pub(crate) fn drop_front(&mut self, count: usize)
        requires { count ≤ length self.old }
        ensures { self.new ≡ drop count self.old }
    {
        self.start += count;
    }

    /// Reads once, straight after the held bytes, and says how many bytes came; 0 at the input's end.
    pub(crate) fn fill<I: Input>(&mut self, input: &mut I) -> Result<usize, DeviceFault>
        requires { length self.old ≤ MOST_LINE_BYTES }
        ensures known { Keeps
            (prepend_known self.old (I.left input.old))
            (prepend_known self.new (I.left input.new)) }
        ensures ok { IfOk result (λ count. Fills self.old self.new count) }
        ensures end { IfOk result (λ count. count ≡ 0 → IsAtEnd (I.left input.new)) }
        ensures fault { OnErr result (self.new ≡ self.old) }
        ensures count { CountsFailure (I.failures input.old) (I.failures input.new) result }
    {
        make_room(&mut self.buffer, &mut self.start, &mut self.end);
        match input.read_some(&mut self.buffer[self.end..]) {
            Ok(count) => {
                self.end += count;
                Ok(count)
            }
            Err(fault) => Err(fault),
        }
    }
}

/// Where the first line feed is, which is no place before `from`.
fn feed_at(bytes: &[u8], from: usize) -> Option<usize>
    requires within { from ≤ length bytes.now }
    requires before { NoFeedBelow bytes.now from }
    ensures { MatchOption result (NoFeedBelow bytes.now (length bytes.now)) (FirstFeed bytes.now) }
{
    match memchr(b'\n', &bytes[from..]) {
        Some(at) => Some(from + at),
        None => None,
    }
}

/// Reads on until the next line is held or too long, or no bytes are left; says how many of the held
/// bytes it has.
pub(crate) fn line_end<I: Input>(window: &mut Window, input: &mut I) -> Result<usize, DeviceFault>
    ensures known { Keeps
        (prepend_known window.old (I.left input.old))
        (prepend_known window.new (I.left input.new)) }
    ensures ends { IfOk result (EndsLine window.new (I.left input.new)) }
    ensures cut { OnErr result (NoFeedBelow window.new (length window.new)) }
    ensures short { OnErr result (length window.new ≤ MOST_LINE_BYTES) }
    ensures count { CountsFailure (I.failures input.old) (I.failures input.new) result }
{
    let mut searched = 0;
    loop {
        if let Some(at) = feed_at(window.buffered(), searched) {
            return Ok(at + 1);
        }
        searched = window.buffered().len();
        if searched > MOST_LINE_BYTES || window.fill(input)? == 0 {
            return Ok(searched);
        }
    }
}

/// Whether any bytes are left, held or in the input.
pub(crate) fn has_more<I: Input>(window: &mut Window, input: &mut I) -> Result<bool, DeviceFault>
    ensures known { Keeps
        (prepend_known window.old (I.left input.old))
        (prepend_known window.new (I.left input.new)) }
    ensures some { result ≡ Ok true → window.new ≢ [] }
    ensures none { result ≡ Ok false → (window.new ≡ []) × IsAtEnd (I.left input.new) }
    ensures cut { OnErr result (window.new ≡ []) }
    ensures count { CountsFailure (I.failures input.old) (I.failures input.new) result }
{
    if !window.is_empty() {
        return Ok(true);
    }
    match window.fill(input) {
        Ok(0) => Ok(false),
        Ok(_) => Ok(true),
        Err(fault) => Err(fault),
    }
}
