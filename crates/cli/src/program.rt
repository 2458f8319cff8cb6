//! The whole program, over any files and outputs.

ghost use Rattle.std.specs.Prelude.{◌≡◌, map};
ghost use Rattle.closing.specs.Recordings.{choice_in};
ghost use Rattle.cli.specs.inner.Answer.{Complains, IsAnswered, Refuses, Shows, TellsFaultLine};
ghost use Rattle.cli.specs.ExitContract.{Ends, EndsInCount, EndsInFiles, EndsInJudged, EndsInReport, IsDone, IsFaultOf, made_by};
ghost use Rattle.cli.specs.FaultTexts.{line_of_fault};
ghost use Rattle.cli.specs.Faults.{status_of_fault};
ghost use Rattle.cli.specs.JournalFolders.{known_in};
ghost use Rattle.cli.specs.Journals.{IsFaultOfClose, IsFaultOfJudge};
ghost use Rattle.cli.specs.inner.Journals.{of_close, of_judge};
ghost use Rattle.cli.specs.Lints.{IsFaultOfLint};
ghost use Rattle.cli.specs.Openings.{fate_of};
ghost use Rattle.cli.specs.Outputs.{Tries};
ghost use Rattle.cli.specs.Statuses.{status_of_verdict};
ghost use Rattle.cli.specs.Texts.{IsFaultOfCheck};

use crate::command_line::{CommandLine, parse};
use crate::fault::Fault;
use crate::journal_folder::{JournalFolder, close_folder};
use crate::lint::lint_file;
use crate::opener::{Maker, Opener};
use crate::options::Options;
use crate::shown::{Screen, check_shown, judge_shown};
use crate::status::Status;
use closing::choice::Choice;
use judging::close::CloseFault;
use judging::judge::{JudgeFault, Manner};
use mpicall::device::{Output, write_all};
use progress::viewer::Manner as ShownBy;
use std::alloc::Global;
use std::sync::Wait;
use std::thread::Threads;
use std::time::Clock;
use waitgraph::verdict::Verdict;

/// What goes to standard error: what clap says of wrong words, or a fault.
#[derive(Debug, Drop)]
enum Complaint<'a> {
    Usage(String),
    Fault(Fault<'a>),
}

/// The status of a verdict.
fn status_of(verdict: Verdict) -> Status
    ensures { result ≡ status_of_verdict verdict }
{
    match verdict {
        Verdict::Free => Status::Free,
        Verdict::Hang => Status::Hang,
        Verdict::Unfinished => Status::Unfinished,
    }
}

/// Writes a text that was asked for.
fn show<'a, O: Output>(text: &str, status: Status, out: &mut O) -> Result<Status, Complaint<'a>>
    ensures { Shows O.written O.failures out.old out.new text.now status result }
{
    match write_all(out, text.as_bytes()) {
        Ok(()) => Ok(status),
        Err(_) => Err(Complaint::Fault(Fault::Write)),
    }
}

/// Writes a fault of the texts on standard output; each other one is a complaint.
fn refuse<'a, O: Output>(
    alloc: Global,
    fault: Fault<'a>,
    out: &mut O,
) -> Result<Status, Complaint<'a>>
    ensures { Refuses O.written O.failures out.old out.new fault.entry result }
{
    if fault.status() != Status::Refused {
        return Err(Complaint::Fault(fault));
    }
    match format!(in alloc; "{fault}\n") {
        Ok(line) => show(&line, Status::Refused, out),
        Err(_) => Err(Complaint::Fault(Fault::Memory)),
    }
}

/// Checks a run.
fn answer_check<'a, P, O, L, R>(
    alloc: Global,
    head: &'a str,
    files: &[&'a str],
    options: Options,
    opener: &P,
    rt: &R,
    out: &mut O,
    screen: &mut L,
    shown: Option<ShownBy>,
) -> Result<Status, Complaint<'a>>
where
    P: Opener,
    O: Output,
    L: Output + Send,
    R: Threads + Wait + Clock + Sync,
    ensures { let told = P.told opener.now in
        IsAnswered O.written O.failures (EndsInReport options (told head.now) (map (λ file. told file.now) files.now)) (IsFaultOfCheck (fate_of P.In.left P.In.failures (P.may_give opener.now)) told head.now files.now) out.old out.new result }
{
    match check_shown(alloc, head, files, options, opener, rt, out, screen, shown) {
        Ok(verdict) => Ok(status_of(verdict)),
        Err(fault) => refuse(alloc, fault, out),
    }
}

/// Reads one trace alone.
fn answer_lint<'a, P: Opener, O: Output>(
    alloc: Global,
    file: &'a str,
    opener: &P,
    wait: &impl Wait,
    out: &mut O,
) -> Result<Status, Complaint<'a>>
    ensures { let told = P.told opener.now in
        IsAnswered O.written O.failures (EndsInCount (told file.now)) (IsFaultOfLint told file.now) out.old out.new result }
{
    match lint_file(alloc, file, opener, wait, out) {
        Ok(_) => Ok(Status::Free),
        Err(fault) => refuse(alloc, fault, out),
    }
}

/// Why journals in a folder weren't judged.
fn fault_of_judge<'a>(folder: &'a str, fault: JudgeFault) -> Fault<'a>
    ensures { result ≡ of_judge folder.entry fault }
{
    match fault {
        JudgeFault::Read(fault) => Fault::of_journals(folder, fault),
        JudgeFault::Head(fault) => Fault::Head(fault),
        JudgeFault::Refused(refusal) => Fault::Refused(refusal),
        JudgeFault::Unended => Fault::Unproved(0),
        JudgeFault::Unclean(entry) => Fault::UncleanCut(entry),
        JudgeFault::Memory => Fault::Memory,
        JudgeFault::Write => Fault::Write,
    }
}

/// Judges the journals in a folder.
fn answer_judge<'a, P, O, L, R>(
    journals: &JournalFolder<'_, 'a, P>,
    manner: Manner,
    rt: &R,
    out: &mut O,
    screen: &mut L,
    shown: Option<ShownBy>,
) -> Result<Status, Complaint<'a>>
where
    P: Opener,
    O: Output,
    L: Output + Send,
    R: Threads + Wait + Clock + Sync,
    ensures { let known = known_in (P.told journals.now.opener.now) (P.named journals.now.opener.now) journals.now.path.now in
        IsAnswered O.written O.failures (EndsInJudged known manner) (IsFaultOfJudge known manner.choice journals.now.path.now) out.old out.new result }
{
    match judge_shown(journals, manner, rt, out, screen, shown) {
        Ok(verdict) => Ok(status_of(verdict)),
        Err(fault) => {
            let fault = fault_of_judge(journals.path, fault);
            refuse(journals.alloc, fault, out)
        }
    }
}

/// Why the recording of journals in a folder wasn't written.
fn fault_of_close<'a>(folder: &'a str, path: &'a str, fault: CloseFault) -> Fault<'a>
    ensures { result ≡ of_close folder.entry path.entry fault }
{
    match fault {
        CloseFault::Read(fault) => Fault::of_journals(folder, fault),
        CloseFault::Make => Fault::Make(path),
        CloseFault::Write => Fault::WriteFile,
        CloseFault::Memory => Fault::Memory,
    }
}

/// Writes the recording of the journals in a folder into another one.
fn answer_close<'a, P: Opener, M: Maker, O: Output>(
    journals: &JournalFolder<'_, 'a, P>,
    maker: &mut M,
    path: &'a str,
    choice: Choice,
    wait: &impl Wait,
    out: &mut O,
) -> Result<Status, Complaint<'a>>
    ensures { let known = known_in (P.told journals.now.opener.now) (P.named journals.now.opener.now) journals.now.path.now in
        IsAnswered O.written O.failures (EndsInFiles known (choice_in choice) (M.empty maker.old) (M.text maker.new path.now)) (IsFaultOfClose known journals.now.path.now path.now) out.old out.new result }
{
    match close_folder(journals, choice, maker, path, wait) {
        Ok(()) => Ok(Status::Free),
        Err(fault) => {
            let fault = fault_of_close(journals.path, path, fault);
            refuse(journals.alloc, fault, out)
        }
    }
}

/// Does what the words ask for, and gives the exit status where that goes with standard output.
fn answer<'a, P, M, O, L, R>(
    alloc: Global,
    words: CommandLine<'a>,
    opener: &P,
    maker: &mut M,
    rt: &R,
    out: &mut O,
    screen: &mut Screen<L>,
) -> Result<Status, Complaint<'a>>
where
    P: Opener,
    M: Maker,
    O: Output,
    L: Output + Send,
    R: Threads + Wait + Clock + Sync,
    ensures { IsAnswered O.written O.failures (IsDone (P.told opener.now) (P.named opener.now) (made_by M.empty M.text maker.old maker.new) words.entry) (IsFaultOf (fate_of P.In.left P.In.failures (P.may_give opener.now)) (P.told opener.now) (P.named opener.now) words.entry) out.old out.new result }
{
    match words {
        CommandLine::Check {
            head,
            files,
            options,
            progress,
        } => {
            let shown = screen.manner(progress);
            let screen = &mut screen.out;
            answer_check(alloc, head, &files, options, opener, rt, out, screen, shown)
        }
        CommandLine::Lint { file } => answer_lint(alloc, file, opener, rt, out),
        CommandLine::Judge {
            folder,
            manner,
            progress,
        } => {
            let judged = JournalFolder::new(alloc, opener, folder);
            let shown = screen.manner(progress);
            answer_judge(&judged, manner, rt, out, &mut screen.out, shown)
        }
        CommandLine::Close {
            folder,
            out: path,
            choice,
        } => {
            let journals = JournalFolder::new(alloc, opener, folder);
            answer_close(&journals, maker, path, choice, rt, out)
        }
        CommandLine::Said {
            text,
            is_error: false,
        } => show(&text, Status::Free, out),
        CommandLine::Said {
            text,
            is_error: true,
        } => Err(Complaint::Usage(text)),
        CommandLine::NoMemory => Err(Complaint::Fault(Fault::Memory)),
    }
}

/// Writes a text on standard error. Where that fails there is nothing left to do.
pub(crate) fn write_error<E: Output>(text: &str, err: &mut E)
    ensures { Tries E.written E.failures err.old err.new text.now }
{
    let _ = write_all(err, text.as_bytes());
}

/// Writes the line of a fault to standard error, and gives the exit status.
fn tell<E: Output>(fault: Fault<'_>, line: &str, err: &mut E) -> Status
    requires { line.now ≡ line_of_fault fault }
    ensures status { result ≡ status_of_fault fault.entry }
    ensures told { Tries E.written E.failures err.old err.new (line_of_fault fault.entry) }
{
    write_error(line, err);
    fault.status()
}

/// Makes and writes the line of a fault, and gives the exit status; where there is no memory for the line, that is
/// reported. The line of a failed write takes none, so it says what became of the other output.
fn tell_fault<E: Output>(alloc: Global, fault: Fault<'_>, err: &mut E) -> Status
    ensures { TellsFaultLine E.written E.failures err.old err.new fault.entry result }
{
    if fault == Fault::Write {
        return tell(fault, "fault write\n", err);
    }
    match format!(in alloc; "{fault}\n") {
        Ok(line) => tell(fault, &line, err),
        Err(_) => tell(Fault::Memory, "fault memory\n", err),
    }
}

/// Writes a complaint to standard error, and gives the exit status.
fn complain<E: Output>(alloc: Global, complaint: Complaint<'_>, err: &mut E) -> Status
    ensures { Complains E.written E.failures err.old err.new complaint.entry result }
{
    match complaint {
        Complaint::Usage(text) => {
            write_error(&text, err);
            Status::Usage
        }
        Complaint::Fault(fault) => tell_fault(alloc, fault, err),
    }
}

/// Does what the words after the program's name ask for, over the opener's files, and gives the exit
/// status. The maker makes the folder of a recording. A trace may have no end, so it may wait. How far it is is shown
/// on the screen alone, and nothing else depends on that.
pub fn program<P, M, O, E, L, R>(
    alloc: Global,
    words: &[&str],
    opener: &P,
    maker: &mut M,
    rt: &R,
    out: &mut O,
    err: &mut E,
    screen: &mut Screen<L>,
) -> Status
where
    P: Opener,
    M: Maker,
    O: Output,
    E: Output,
    L: Output + Send,
    R: Threads + Wait + Clock + Sync,
    ensures { Ends O.written O.failures E.written E.failures (fate_of P.In.left P.In.failures (P.may_give opener.now)) (P.told opener.now) (P.named opener.now) (made_by M.empty M.text maker.old maker.new) out.old out.new err.old err.new (map (λ word. word.now) words.now) result }
{
    match answer(alloc, parse(alloc, words), opener, maker, rt, out, screen) {
        Ok(status) => status,
        Err(complaint) => complain(alloc, complaint, err),
    }
}
