//! Reading a source to its end, for what is wrong with it alone.

ghost use Rattle.std.specs.Prelude.{◌≡◌, ℕ, true, Some, None, IfErr, List, length};
ghost use Rattle.mpicall.specs.Lint.{TellsTrace, last_answer, IsCutAt};
ghost use Rattle.mpicall.specs.Source.{coming, ended, input_of, end_of_answer, count_after, IsOwnFault, ComesBeforeTheCut, breaks_off};
ghost use Rattle.mpicall.specs.Lines.{whole_lines};
ghost use Rattle.mpicall.specs.Codes.{text_of_lint};
ghost use Rattle.mpicall.specs.Trace.{trace_of};
ghost use Rattle.mpicall.specs.declared.fault.SourceFault.TheVariants.{ReadFailed};

use crate::device::Input;
use crate::fault::SourceFault;
use crate::record::Record;
use crate::source::Source;
use std::error::Error;
use std::fmt;
use std::sync::Wait;

/// The fault with which a source ends, after `call` records; that number stays at the greatest `u64`.
#[derive(Clone, Copy, Debug, PartialEq, Eq)]
pub struct LintFault {
    pub call: u64,
    pub fault: SourceFault,
}

impl fmt::Display for LintFault {
    ghost output = { λ fault. Some (text_of_lint fault) };

    fn fmt<W: fmt::Write>(&self, f: &mut fmt::Formatter<W>) -> fmt::Result {
        let LintFault { call, fault } = *self;
        let code = fault.code();
        write!(f, "call {call} {code} {fault}")
    }
}

impl Error for LintFault {}

/// Reads a source to its end: the number of the records that it still gives, up to the greatest `u64`, or
/// the fault with which it ends. An input may have no end, so this may wait for good.
pub fn lint<I: Input>(source: &mut Source<I>, wait: &impl Wait) -> Result<u64, LintFault>
    ensures trace { TellsTrace (coming I.left source.old) result }
    ensures end { ended source.new ≡ end_of_answer (last_answer result) }
    ensures count { I.failures (input_of source.new)
        ≡ count_after (ended source.old) (last_answer result) (I.failures (input_of source.old)) }
    ensures own { IfErr result (λ told. IsOwnFault told.fault) }
    ensures cut { IfErr result (λ told. ended source.old ≡ None → told.fault ≡ ReadFailed
        → IsCutAt I.left source.old source.new told.call) }
{
    let mut count: u64 = 0;
    let mut record = Record::finalize();
    for _ in wait.forever() {
        match source.next_into(&mut record) {
            Ok(true) => count = count.saturating_add(1),
            Ok(false) => return Ok(count),
            Err(fault) => return Err(LintFault { call: count, fault }),
        }
    }
    unreachable!()
}

/// Where a read fails, a record that the source gave before is the first of those that came: so the records before
/// a failed read are those of the whole lines that came. Its premises are what `Source::next` ensures where it gives
/// a record.
pub fn records_come_before_a_failed_read<I: Input>()
    ensures { ComesBeforeTheCut I.left }
{}

/// A text with which nothing is wrong but that no more of it came has a record for each of its whole lines: so the
/// place of a failed read is the number of the whole lines that came.
#[tactic(auto, using(crate::proofs::WholeLemmas::text_count))]
pub fn each_whole_line_that_came_is_a_record()
    ensures { (came : List ℕ) → breaks_off (trace_of came).end ≡ true
        → length (trace_of came).records ≡ whole_lines came }
{}
