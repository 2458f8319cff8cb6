//! The spelling of a record, written to an output.

ghost use Rattle.std.specs.Prelude.{ℕ, List, ◌≡◌, [], ◌++◌, IsTrue, OnOk, OnErr};
ghost use Rattle.std.specs.Io.KnownBytes.{Appends};
ghost use Rattle.mpicall.specs.Limits.{in_ranges};
ghost use Rattle.mpicall.specs.declared.call.Call.{Call as CallValue};
ghost use Rattle.mpicall.specs.Spelling.{spelling};
ghost use Rattle.mpicall.specs.Device.{CountsFailure, AppendsBeginning};

use crate::device::{DeviceFault, Output, write_all};
use crate::page::Page;
use crate::record::Record;

#[tactic(auto, unfolding(crate::specs::Spelling::spelling))]
/// Writes the one spelling of a record; after a fault a prefix of it was written.
pub fn write_line<O: Output>(entry: &Record, output: &mut O) -> Result<(), DeviceFault>
    ensures ok { OnOk result
        (Appends (O.written output.old) (O.written output.new) (spelling entry.now)) }
    ensures fault { OnErr result
        (AppendsBeginning (O.written output.old) (O.written output.new) (spelling entry.now)) }
    ensures count { CountsFailure (O.failures output.old) (O.failures output.new) result }
{
    let mut line = Page::new();
    line.push_call(entry.as_call());
    line.push_str("\n");
    write_all(output, line.as_str().as_bytes())
}

/// No spelling begins another one: of a text, at most one record can be read at its front.
pub fn no_spelling_begins_another()
    ensures { (x y : CallValue) (rest : List ℕ) → IsTrue (in_ranges x) → IsTrue (in_ranges y)
        → spelling x ++ rest ≡ spelling y → (x ≡ y) × (rest ≡ []) }
{}
