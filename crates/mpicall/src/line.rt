//! Lines of a trace: each record has one spelling, and each other line its first fault.

ghost use Rattle.std.specs.Prelude.{◌≡◌, ◌↔◌, Ok, Err, Some, IsTrue, IfOk, MatchResult};
ghost use Rattle.mpicall.specs.declared.call.Call.{Call as CallValue};
ghost use Rattle.mpicall.specs.Limits.{in_ranges};
ghost use Rattle.mpicall.specs.Spelling.{spelling};
ghost use Rattle.mpicall.specs.Line.{fault_of_line};
ghost use Rattle.mpicall.specs.Parsing.{record_of_line};
ghost use Rattle.mpicall.specs.inner.Parsing.{IsBody, Spells, ReadsInto};
ghost use Rattle.mpicall.specs.declared.fault.LineFault.{LineFault as FaultValue};

use crate::fault::LineFault;
use crate::fields::Fields;
use crate::first_fault::fault_of_fields;
use crate::limits::MOST_LINE_BYTES;
use crate::record::Record;

/// The body of a line: its bytes without the last line feed.
#[tactic(auto, unfolding(crate::specs::Line::fault_of_line))]
fn body_of(line: &[u8]) -> Result<&[u8], LineFault>
    ensures { MatchResult result
        (λ body. IsBody line.now body.now)
        (λ fault. fault_of_line line.now ≡ Some fault) }
{
    if line.len() > MOST_LINE_BYTES {
        return Err(LineFault::TooLong);
    }
    let Some((last, body)) = line.split_last() else {
        return Err(LineFault::NoLineFeed);
    };
    if *last != b'\n' {
        return Err(LineFault::NoLineFeed);
    }
    Ok(body)
}

/// Reads the record of a line into one place, which a line with a fault leaves alone.
pub(crate) fn read_into(line: &[u8], into: &mut Record) -> Result<(), LineFault>
    ensures reading { ReadsInto result into.old into.new (record_of_line line.now) }
    ensures ok { IfOk result (λ _. Spells line.now into.new) }
{
    let body = match body_of(line) {
        Ok(body) => body,
        Err(fault) => return Err(fault),
    };
    if into.read_fields(Fields::of(body)) {
        Ok(())
    } else {
        Err(fault_of_fields(Fields::of(body)))
    }
}

/// Reads one line, with its line feed: the record that it spells, or its first fault.
pub fn read_line(line: &[u8]) -> Result<Record, LineFault>
    ensures ok { (x : CallValue) → (result ≡ Ok x) ↔ (IsTrue (in_ranges x) × (line.now ≡ spelling x)) }
    ensures fault { (fault : FaultValue) → (result ≡ Err fault) ↔ (fault_of_line line.now ≡ Some fault) }
{
    let mut record = Record::finalize();
    match read_into(line, &mut record) {
        Ok(()) => Ok(record),
        Err(fault) => Err(fault),
    }
}
