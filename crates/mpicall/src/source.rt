//! A source of records: the lines of an input, read one by one.
//!
//! A source takes 12 KB in place: a buffer of 4 KB, into which reads go straight, and the last lines with
//! their records. So a source takes no memory of its own. A record has 264 bytes, so it is read into one
//! place of the caller's, which is written once the whole line was read: a fault leaves it as it was.

ghost use Rattle.mpicall.specs.inner.Stage.{is_own, stage_behind};
ghost use Rattle.mpicall.specs.Lines.{lines_of};
ghost use Rattle.mpicall.specs.Trace.{Trace, IsTraceOf, trace_of};
ghost use Rattle.std.specs.Prelude.{◌≡◌, ◌↔◌, List, [], ◌≢◌, ℕ, true, Some, None, Ok, Err, option_map, IfErr, IfSome};

use crate::device::Input;
use crate::fault::SourceFault;
use crate::limits::MOST_LINE_BYTES;
use crate::record::Record;
use crate::remembered::Remembered;
use crate::window::{Window, has_more, line_end};

/// How far a source is.
#[derive(Clone, Copy, PartialEq, Eq)]
enum Stage {
    /// No end record, `finalize` or `open`, was read so far.
    Reading,
    /// The end record was the last one.
    Ended,
    /// The bytes ended after the end record, and None was answered.
    Done,
    /// This fault was answered.
    Failed(SourceFault),
}

/// A source of records over an input. It asks its input only while what it holds neither has a line
/// feed nor is longer than a line may be, and after the end record only while it holds nothing.
#[derive(Drop)]
pub struct Source<I> {
    input: I,
    window: Window,
    stage: Stage,
    remembered: Remembered,
    ghost own: { is_own stage ≡ true },
}

impl<I: Input> Source<I> {
    ghost use Rattle.mpicall.specs.declared.call.Call.{Call as CallValue};
    ghost use Rattle.mpicall.specs.declared.source.Stage.TheVariants.{Reading, Ended};
    ghost use Rattle.mpicall.specs.Source.{coming, ended, input_of, Gives, end_of_answer, answer_of, answer_into, count_after, IsOwnFault, unread, trace_by, IsCutOff};
    ghost use Rattle.mpicall.specs.Spelling.{spelling};
    ghost use Rattle.mpicall.specs.declared.fault.SourceFault.TheVariants.{ReadFailed};
    ghost use Rattle.std.specs.Io.KnownBytes.{Consumes};

    /// The source of the records that an input's bytes hold.
    #[tactic(auto, using(crate::proofs::SourceLemmas::source_steps), unfolding(crate::specs::Source::coming))]
    pub fn new(input: I) -> Source<I>
        ensures trace { coming I.left result ≡ option_map trace_of (I.left input) }
        ensures end { ended result ≡ None }
        ensures input { input_of result ≡ input }
        ensures bytes { unread I.left result ≡ I.left input }
        ensures reads { (bytes : List ℕ) → trace_by result bytes ≡ Some (trace_of bytes) }
    {
        Source {
            input,
            window: Window::new(),
            stage: Stage::Reading,
            remembered: Remembered::new(),
        }
    }

    /// The next line's record; None once the bytes end after the end record. A fault is answered for
    /// good, and so is None.
    pub fn next(&mut self) -> Result<Option<Record>, SourceFault>
        ensures trace { Gives (coming I.left self.old) (coming I.left self.new) result }
        ensures end { ended self.new ≡ end_of_answer result }
        ensures repeats { IfSome (ended self.old) (λ end. (result ≡ answer_of end) × (self.new ≡ self.old)) }
        ensures count { I.failures (input_of self.new)
            ≡ count_after (ended self.old) result (I.failures (input_of self.old)) }
        ensures own { IfErr result IsOwnFault }
        ensures line { (x : CallValue) → result ≡ Ok (Some x)
            → Consumes (unread I.left self.old) (unread I.left self.new) (spelling x) }
        ensures cut { ended self.old ≡ None → result ≡ Err ReadFailed
            → IsCutOff I.left self.old self.new [] }
    {
        let mut record = Record::finalize();
        match self.next_into(&mut record) {
            Ok(true) => Ok(Some(record)),
            Ok(false) => Ok(None),
            Err(fault) => Err(fault),
        }
    }

    /// Reads the next line's record into one place, for those that read many: a record takes some 264
    /// bytes. False once the bytes end after the end record. Only a true answer changes the place. A
    /// fault is answered for good, and so is false.
    #[inline(always)]
    pub fn next_into(&mut self, into: &mut Record) -> Result<bool, SourceFault>
        ensures trace { Gives (coming I.left self.old) (coming I.left self.new) (answer_into result into.new) }
        ensures end { ended self.new ≡ end_of_answer (answer_into result into.new) }
        ensures repeats { IfSome (ended self.old) (λ end. (answer_into result into.new ≡ answer_of end) × (self.new ≡ self.old)) }
        ensures count { I.failures (input_of self.new)
            ≡ count_after (ended self.old) (answer_into result into.new) (I.failures (input_of self.old)) }
        ensures own { IfErr result IsOwnFault }
        ensures kept { result ≢ Ok true → into.new ≡ into.old }
        ensures line { result ≡ Ok true
            → Consumes (unread I.left self.old) (unread I.left self.new) (spelling into.new) }
        ensures cut { ended self.old ≡ None → result ≡ Err ReadFailed
            → IsCutOff I.left self.old self.new [] }
    {
        match self.stage {
            Stage::Reading => self.read_record(into),
            Stage::Ended => self.read_end(),
            Stage::Done => Ok(false),
            Stage::Failed(fault) => Err(fault),
        }
    }

    /// Reads the next line, where no end record came so far. Where lines come again and it is the one that is expected,
    /// that is done here, without a call of a function.
    #[inline(always)]
    fn read_record(&mut self, into: &mut Record) -> Result<bool, SourceFault>
        requires { self.old.stage ≡ Reading }
        ensures trace { Gives (coming I.left self.old) (coming I.left self.new) (answer_into result into.new) }
        ensures end { ended self.new ≡ end_of_answer (answer_into result into.new) }
        ensures count { I.failures (input_of self.new)
            ≡ count_after None (answer_into result into.new) (I.failures (input_of self.old)) }
        ensures own { IfErr result IsOwnFault }
        ensures kept { result ≢ Ok true → into.new ≡ into.old }
        ensures line { result ≡ Ok true
            → Consumes (unread I.left self.old) (unread I.left self.new) (spelling into.new) }
        ensures cut { result ≡ Err ReadFailed
            → IsCutOff I.left self.old self.new [] }
    {
        if let Some(count) = self.remembered.read_expected(self.window.buffered(), into) {
            self.window.drop_front(count);
            self.stage = stage_behind(into);
            return Ok(true);
        }
        self.read_unexpected(into)
    }

    /// Reads the next line, where no end record came so far: at once, where few lines come again and it is one of those
    /// that come often.
    #[inline(never)]
    fn read_unexpected(&mut self, into: &mut Record) -> Result<bool, SourceFault>
        requires { self.old.stage ≡ Reading }
        ensures trace { Gives (coming I.left self.old) (coming I.left self.new) (answer_into result into.new) }
        ensures end { ended self.new ≡ end_of_answer (answer_into result into.new) }
        ensures count { I.failures (input_of self.new)
            ≡ count_after None (answer_into result into.new) (I.failures (input_of self.old)) }
        ensures own { IfErr result IsOwnFault }
        ensures kept { result ≢ Ok true → into.new ≡ into.old }
        ensures line { result ≡ Ok true
            → Consumes (unread I.left self.old) (unread I.left self.new) (spelling into.new) }
        ensures cut { result ≡ Err ReadFailed
            → IsCutOff I.left self.old self.new [] }
    {
        if let Some(count) = self.remembered.read_front(self.window.buffered(), into) {
            self.window.drop_front(count);
            self.stage = stage_behind(into);
            return Ok(true);
        }
        self.read_other(into)
    }

    /// Reads the next line, which may be any, where no end record came so far.
    #[inline(never)]
    fn read_other(&mut self, into: &mut Record) -> Result<bool, SourceFault>
        requires { self.old.stage ≡ Reading }
        ensures trace { Gives (coming I.left self.old) (coming I.left self.new) (answer_into result into.new) }
        ensures end { ended self.new ≡ end_of_answer (answer_into result into.new) }
        ensures count { I.failures (input_of self.new)
            ≡ count_after None (answer_into result into.new) (I.failures (input_of self.old)) }
        ensures own { IfErr result IsOwnFault }
        ensures kept { result ≢ Ok true → into.new ≡ into.old }
        ensures line { result ≡ Ok true
            → Consumes (unread I.left self.old) (unread I.left self.new) (spelling into.new) }
        ensures cut { result ≡ Err ReadFailed
            → IsCutOff I.left self.old self.new [] }
    {
        let len = match line_end(&mut self.window, &mut self.input) {
            Ok(len) => len,
            Err(_) => {
                self.stage = Stage::Failed(SourceFault::ReadFailed);
                return Err(SourceFault::ReadFailed);
            }
        };
        if len == 0 {
            self.stage = Stage::Failed(SourceFault::NoFinalize);
            return Err(SourceFault::NoFinalize);
        }
        match self.remembered.read(&self.window.buffered()[..len], into) {
            Ok(()) => {
                self.window.drop_front(len);
                self.stage = stage_behind(into);
                Ok(true)
            }
            Err(fault) => {
                self.stage = Stage::Failed(SourceFault::Line(fault));
                Err(SourceFault::Line(fault))
            }
        }
    }

    /// Looks for bytes after the end record.
    fn read_end(&mut self) -> Result<bool, SourceFault>
        requires { self.old.stage ≡ Ended }
        ensures trace { (call : CallValue) → Gives (coming I.left self.old) (coming I.left self.new) (answer_into result call) }
        ensures end { (call : CallValue) → ended self.new ≡ end_of_answer (answer_into result call) }
        ensures count { (call : CallValue) → I.failures (input_of self.new)
            ≡ count_after None (answer_into result call) (I.failures (input_of self.old)) }
        ensures own { IfErr result IsOwnFault }
        ensures no_record { result ≢ Ok true }
        ensures cut { result ≡ Err ReadFailed
            → IsCutOff I.left self.old self.new [] }
    {
        match has_more(&mut self.window, &mut self.input) {
            Ok(false) => {
                self.stage = Stage::Done;
                Ok(false)
            }
            Ok(true) => {
                self.stage = Stage::Failed(SourceFault::TextAfterFinalize);
                Err(SourceFault::TextAfterFinalize)
            }
            Err(_) => {
                self.stage = Stage::Failed(SourceFault::ReadFailed);
                Err(SourceFault::ReadFailed)
            }
        }
    }
}

/// Each text has one trace, by the spellings and the first fault of its lines.
pub fn each_text_has_one_trace()
    ensures { (bytes : List ℕ) (trace : Trace) → IsTraceOf (lines_of bytes) trace ↔ (trace ≡ trace_of bytes) }
{}

/// How far a source is after a record.
fn stage_behind(entry: &Record) -> Stage
    ensures { result ≡ stage_behind entry.now }
{
    if entry.ends_list() {
        Stage::Ended
    } else {
        Stage::Reading
    }
}
