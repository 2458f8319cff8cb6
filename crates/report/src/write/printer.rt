//! What a report is printed by: a page of bytes that wait, and whether the output refused a write.

ghost use Rattle.std.specs.Prelude.{◌≡◌, ◌+◌, ◌≤◌, ℕ, Option, List, [], false, length};
ghost use Rattle.report.specs.inner.Printing.{IsPrinted, KeepsPrinted, PrintsAll};

use mpicall::device::{DeviceFault, Output, write_all};
use mpicall::page::{PAGE_BYTES, Page};

/// The room that a line is given, more than any line but a cycle's takes.
pub(crate) const ROOM_BYTES: usize = 2048;

/// Prints a report: lines wait on its page, and the output is given full pages. It keeps that a write failed, and then
/// gives no more, so that who prints needn't ask.
#[derive(Drop)]
pub(crate) struct Printer {
    pub page: Page,
    pub failed: bool,
}

impl Printer {
    /// Nothing is printed yet.
    pub(crate) fn new() -> Printer
        ensures page { result.page ≡ [] }
        ensures failed { result.failed ≡ false }
    {
        Printer {
            page: Page::new(),
            failed: false,
        }
    }

    /// Gives what waits to the output, unless a write failed before, and answers whether one has failed then.
    #[tactic(auto, using(crate::proofs::PrintingLemmas::printed_given))]
    fn give<O: Output>(&self, out: &mut O) -> bool
        ensures { (begun : Option (List ℕ)) (count : ℕ) (text : List ℕ) →
            IsPrinted self.now.failed begun count text (O.written out.old) (O.failures out.old) self.now.page →
            IsPrinted result begun count text (O.written out.new) (O.failures out.new) [] }
    {
        if self.failed {
            return true;
        }
        write_all(out, self.page.as_str().as_bytes()).is_err()
    }

    /// Gives what waits to the output, unless a write failed before.
    fn flush<O: Output>(&mut self, out: &mut O)
        ensures keeps { KeepsPrinted O.written O.failures out.old self.old out.new self.new }
        ensures none_waits { self.new.page ≡ [] }
    {
        self.failed = self.give(out);
        self.page.clear();
    }

    /// Has room for a line on the page.
    pub(crate) fn make_room<O: Output>(&mut self, out: &mut O)
        ensures keeps { KeepsPrinted O.written O.failures out.old self.old out.new self.new }
        ensures room { length self.new.page + ROOM_BYTES ≤ PAGE_BYTES }
    {
        if self.page.as_str().len() > PAGE_BYTES - ROOM_BYTES {
            self.flush(out);
        }
    }

    /// Gives the rest to the output, and answers whether a write failed.
    #[tactic(auto, using(crate::proofs::PrintingLemmas::printed_all))]
    pub(crate) fn finish<O: Output>(&mut self, out: &mut O) -> Result<(), DeviceFault>
        ensures { (begun : Option (List ℕ)) (count : ℕ) (text : List ℕ) →
            IsPrinted self.old.failed begun count text (O.written out.old) (O.failures out.old) self.old.page →
            PrintsAll begun count (O.written out.new) (O.failures out.new) text result }
    {
        self.flush(out);
        if self.failed {
            return Err(DeviceFault);
        }
        Ok(())
    }
}
