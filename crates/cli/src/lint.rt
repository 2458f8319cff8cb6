//! `mpiwait lint`: one trace is read alone, and the number of its calls is the answer.

ghost use Rattle.std.specs.Prelude.{◌≡◌, IfOk, IfErr, OnOk};
ghost use Rattle.std.specs.Io.KnownBytes.{Appends};
ghost use Rattle.cli.specs.Lints.{IsCountOf, IsFaultOfLint, IsFaultOfTrace};
ghost use Rattle.cli.specs.Outputs.{lint_report};
ghost use Rattle.cli.specs.inner.Outputs.{LeavesAtFault};

use crate::fault::Fault;
use crate::opener::Opener;
use mpicall::device::{Output, write_all};
use mpicall::lint::lint;
use mpicall::source::Source;
use std::alloc::Global;
use std::sync::Wait;

/// Reads the trace that a path names to its end.
#[tactic(auto, using(crate::proofs::LintLemmas::count_is, crate::proofs::LintLemmas::fault_is))]
fn lint_opened<'a, P: Opener>(file: &'a str, opener: &P, wait: &impl Wait) -> Result<u64, Fault<'a>>
    ensures count { IfOk result (IsCountOf (P.told opener.now file.now)) }
    ensures fault { IfErr result (IsFaultOfTrace (P.told opener.now) file.now) }
{
    let Some(input) = opener.open_input(file) else {
        return Err(Fault::Open(file));
    };
    let mut source = Source::new(input);
    match lint(&mut source, wait) {
        Ok(count) => Ok(count),
        Err(fault) => Err(Fault::from(fault)),
    }
}

/// Reads one trace alone, and writes how many calls it has, or answers its first fault.
pub fn lint_file<'a, P: Opener, O: Output>(
    alloc: Global,
    file: &'a str,
    opener: &P,
    wait: &impl Wait,
    out: &mut O,
) -> Result<u64, Fault<'a>>
    ensures count { IfOk result (IsCountOf (P.told opener.now file.now)) }
    ensures written { IfOk result (λ count. Appends (O.written out.old) (O.written out.new) (lint_report count)) }
    ensures no_write_failed { OnOk result (O.failures out.new ≡ O.failures out.old) }
    ensures fault { IfErr result (IsFaultOfLint (P.told opener.now) file.now) }
    ensures output { IfErr result (LeavesAtFault O.written O.failures out.old out.new) }
{
    let count = lint_opened(file, opener, wait)?;
    let text = format!(in alloc; "lint ok {count}\n")?;
    match write_all(out, text.as_bytes()) {
        Ok(()) => Ok(count),
        Err(_) => Err(Fault::Write),
    }
}
