//! The whole lines of a journal's text, one by one.
//!
//! A line longer than any may be is passed over without being held: whether it is a fault depends on whether
//! its line feed comes at all, as a last line without one isn't read.

ghost use Rattle.std.specs.Prelude.{◌≡◌, ◌≢◌, ◌-◌, ◌≤◌, ◌<◌, length, slice_index, IfOk, IfSome, OnErr, MatchBool};
ghost use Rattle.std.specs.Io.KnownBytes.{prepend_known};
ghost use Rattle.mpicall.specs.Device.{CountsFailure};
ghost use Rattle.mpicall.specs.Spelling.{line_feed};
ghost use Rattle.journals.specs.Inputs.{input_within, text_left};
ghost use Rattle.journals.specs.inner.LineWindow.{NoFeedBelow};
ghost use Rattle.journals.specs.inner.Reader.{IsHeld, IsLine, KeepsText, coming, NoneComes, LongComes, Finds, CutsLine};

use crate::limits::MOST_LINE_BYTES;
use crate::line_window::{Window, feed_at, line_end};
use crate::text::TextInput;
use mpicall::device::{DeviceFault, Input};
use std::sync::Wait;

/// The next line of a text.
pub(crate) enum NextLine {
    /// It has so many of the held bytes, its line feed last.
    Whole(usize),
    /// It is too long.
    TooLong,
    /// There is no further whole line.
    End,
}

/// Whether the last of the first `count` bytes is a line feed.
#[inline(always)]
fn ends_line(held: &[u8], count: usize) -> bool
    requires { count ≤ length held.now }
    ensures { MatchBool result
        ((0 < count) × (slice_index held.now (count - 1) ≡ line_feed))
        (0 < count → slice_index held.now (count - 1) ≢ line_feed) }
{
    if count == 0 {
        return false;
    }
    held[count - 1] == b'\n'
}

/// Looks for the line feed of a line that is too long; says whether it comes.
fn skip_long<I: Input>(
    window: &mut Window,
    text: &mut TextInput<I>,
    wait: &impl Wait,
) -> Result<bool, DeviceFault>
    requires none { NoFeedBelow window.old (length window.old) }
    requires long { MOST_LINE_BYTES < length window.old }
    ensures lines { IfOk result (λ ends. MatchBool ends
        (LongComes (coming window.old (text_left I.left text.old)))
        (NoneComes (coming window.old (text_left I.left text.old)))) }
    ensures cut { OnErr result (CutsLine
        (prepend_known window.old (text_left I.left text.old)) (text_left I.left text.new)) }
    ensures count { CountsFailure
        (I.failures (input_within text.old)) (I.failures (input_within text.new)) result }
{
    for _ in wait.forever() {
        window.clear();
        if window.fill(text)? == 0 {
            return Ok(false);
        }
        if feed_at(window.held(), 0).is_some() {
            return Ok(true);
        }
    }
    unreachable!()
}

/// How many of the held bytes the next line has, where it is held as a whole and isn't too long.
#[inline(always)]
pub(crate) fn whole_line(window: &Window) -> Option<usize>
    ensures { IfSome result (IsLine window.now) }
{
    let at = feed_at(window.held(), 0)?;
    if at >= MOST_LINE_BYTES {
        return None;
    }
    Some(at + 1)
}

/// Looks for the next whole line. A text may have no end, so this may wait for good in a line without end.
#[inline(never)]
pub(crate) fn next_line<I: Input>(
    window: &mut Window,
    text: &mut TextInput<I>,
    wait: &impl Wait,
) -> Result<NextLine, DeviceFault>
    ensures held { IfOk result (IsHeld window.new) }
    ensures known { IfOk result (KeepsText
        (prepend_known window.old (text_left I.left text.old)) window.new (text_left I.left text.new)) }
    ensures lines { IfOk result (Finds
        (coming window.old (text_left I.left text.old)) window.new (text_left I.left text.new)) }
    ensures cut { OnErr result (CutsLine
        (prepend_known window.old (text_left I.left text.old)) (text_left I.left text.new)) }
    ensures count { CountsFailure
        (I.failures (input_within text.old)) (I.failures (input_within text.new)) result }
{
    let count = line_end(window, text)?;
    if ends_line(window.held(), count) {
        if count > MOST_LINE_BYTES {
            return Ok(NextLine::TooLong);
        }
        return Ok(NextLine::Whole(count));
    }
    if count <= MOST_LINE_BYTES {
        return Ok(NextLine::End);
    }
    let ends = skip_long(window, text, wait)?;
    if ends {
        return Ok(NextLine::TooLong);
    }
    Ok(NextLine::End)
}
