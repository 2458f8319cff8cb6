//! The words of the command line.

ghost use Rattle.std.specs.Prelude.{◌≡◌, false, IfOk, map, option_and_then, option_map};
ghost use Rattle.clap.specs.Matches.{found_of};
ghost use Rattle.clap.specs.Simple.{app_of, subcommand_rows_of};
ghost use Rattle.clap.specs.Values.{kind_of};
ghost use Rattle.clap.specs.Walk.{rows_of, rule_of};
ghost use Rattle.clap.specs.declared.builder.command.Command.TheViews.{out-Command as fields_of};
ghost use Rattle.clap.specs.declared.error.kind.ErrorKind.TheVariants.{OutOfMemory};
ghost use Rattle.cli.specs.CommandLine.{Answers, LintTrace, check, check_of, close, close_of, closing_of, folder_rule, head_rule, is_text, judge, judge_of, judging_of, lint, lint_of, out_rule, program, run_of, task_of, trace_rule, traces_rule};
ghost use Rattle.cli.specs.inner.CommandLine.{Names, Says, SaysError};

use crate::found::{text_of, texts_of};
use crate::manner::{choice_arguments, choice_of, manner_arguments, manner_of};
use crate::options::{Options, is_shown, option_arguments, options_of};
use clap::error::ErrorKind;
use clap::{Arg, ArgMatches, Command, Error};
use closing::choice::Choice;
use judging::judge::Manner;
use std::alloc::{AllocError, Global};

/// What the words ask for.
#[derive(Debug, Drop)]
pub enum CommandLine<'a> {
    /// To check a run, by the path of its head and those of its traces, at least one, in rank order.
    Check {
        head: &'a str,
        files: Vec<&'a str>,
        options: Options,
        /// Whether it is shown how far the check is.
        progress: bool,
    },
    /// To read one trace alone, by its path.
    Lint {
        file: &'a str,
    },
    /// To judge the journals in a folder.
    Judge {
        folder: &'a str,
        manner: Manner,
        progress: bool,
    },
    /// To write the recording of the journals in a folder into another one, which is made.
    Close {
        folder: &'a str,
        out: &'a str,
        choice: Choice,
    },
    /// To show a text: the help or the version, or what is wrong with the words.
    Said {
        text: String,
        is_error: bool,
    },
    /// There was no memory to read the words.
    NoMemory,
}

const VERSION: &str = "1.0.0";

const ABOUT: &str =
    "Reads the recorded MPI calls of a parallel run, one trace a rank, and says whether the run can hang";

const CHECK_ABOUT: &str =
    "Reads the head of a run and its traces, and says whether the run can hang";

const CHECK_LONG_ABOUT: &str = "\
Reads the head of a run and its traces, and says whether the run can hang. A FOLDER has them as the files
head, r0, r1 and so on; `mpiwait FOLDER` is short for `mpiwait check FOLDER`.

Lines of the report:
  verdict free|hang|unfinished
      hang: some rank can't come to its end, whatever way the run goes
      unfinished: no rank is known to hang, but some trace ends with `open`: its rank was cut off
  rank R at I CALL waits rank K (call J|none)
      rank R is stuck at its call I until rank K comes to its call J; none: rank K has no such call
  cycle R ..
      these ranks wait for one another: each for the next, the last for the first
  missing R K
      rank R waits for a call that rank K doesn't have
  finding kind|root|unreceived|request|group ..
      what else is wrong: calls or roots of one collective that differ, a message that isn't received,
      a request that isn't waited for, a new communicator with another group than its call gives it
docs/FORMATS.md explains each.";

const TRACES_HELP: &str = "\
The traces of the ranks, one file a rank, in rank order. All are open at once: where `fault open`
names a file that is there, `ulimit -n` lets a process have too few open files";

const LINT_ABOUT: &str = "Reads one trace alone, and says whether it is in its format";

const AFTER: &str = "\
Examples:
  mpiwait run                           checks the run in the folder `run`: its files head, r0, r1, ..
  mpiwait check --json run              reports it as one JSON value
  mpiwait check run/head run/r0 run/r1  names its files, in rank order
  mpiwait lint run/r0                   reads one trace alone

Exit status:
  0  no hang; a trace is in its format; a recording was written; help or the version was asked for
  1  hang
  2  refused: a file isn't in its format, or a call can't be as recorded
  3  usage: the words, or the number of files
  4  fault: a file, the memory or the output
  5  unfinished: the run was cut off, and no rank is known to hang";

/// How the program is called, as its help shows it.
const PROGRAM_USAGE: &str = "\
mpiwait <COMMAND>
       mpiwait <FOLDER>";

/// How `check` is called.
const CHECK_USAGE: &str = "\
mpiwait check [OPTIONS] <HEAD> <FILE>...
       mpiwait check [OPTIONS] <FOLDER>";

const USAGE: &str =
    "usage: mpiwait check [OPTIONS] HEAD FILE.. or mpiwait check [OPTIONS] FOLDER or mpiwait lint FILE \
or mpiwait judge [OPTIONS] FOLDER or mpiwait close [OPTIONS] FOLDER OUT\n";

/// What clap knows of the head.
fn head_argument<'a>(alloc: Global) -> Arg<'a>
    ensures rule { rule_of result ≡ head_rule }
    ensures local { result.global ≡ false }
{
    Arg::new(alloc, "HEAD")
        .required(true)
        .help("The head of the run: its ranks and their communicators")
}

/// What clap knows of the traces.
fn traces_argument<'a>(alloc: Global) -> Arg<'a>
    ensures rule { rule_of result ≡ traces_rule }
    ensures local { result.global ≡ false }
{
    Arg::new(alloc, "FILE")
        .required(true)
        .num_args(1..)
        .help("The traces of the ranks, one file a rank, in rank order")
        .long_help(TRACES_HELP)
}

/// What clap knows of one trace.
fn trace_argument<'a>(alloc: Global) -> Arg<'a>
    ensures rule { rule_of result ≡ trace_rule }
    ensures local { result.global ≡ false }
{
    Arg::new(alloc, "FILE")
        .required(true)
        .help("The trace of one rank")
}

/// What clap knows of `check`.
fn check_command<'a>(alloc: Global) -> Result<Command<'a>, AllocError>
    ensures app { IfOk result (λ command. app_of command ≡ check) }
    ensures local { IfOk result (λ command. (fields_of command).has_globals ≡ false) }
{
    let options = option_arguments(alloc)?;
    Command::new(alloc, "check")
        .about(CHECK_ABOUT)
        .long_about(CHECK_LONG_ABOUT)
        .override_usage(CHECK_USAGE)
        .after_help(AFTER)
        .version(VERSION)
        .arg(head_argument(alloc))?
        .arg(traces_argument(alloc))?
        .args(options)
}

/// What clap knows of `lint`.
fn lint_command<'a>(alloc: Global) -> Result<Command<'a>, AllocError>
    ensures app { IfOk result (λ command. app_of command ≡ lint) }
    ensures local { IfOk result (λ command. (fields_of command).has_globals ≡ false) }
{
    Command::new(alloc, "lint")
        .about(LINT_ABOUT)
        .after_help(AFTER)
        .version(VERSION)
        .arg(trace_argument(alloc))
}

const JUDGE_ABOUT: &str =
    "Reads the journals of a run, one a rank, and says whether the run can hang";

const CLOSE_ABOUT: &str = "Reads the journals of a run, and writes its head and its traces";

/// What clap knows of the folder of journals.
fn folder_argument<'a>(alloc: Global) -> Arg<'a>
    ensures rule { rule_of result ≡ folder_rule }
    ensures local { result.global ≡ false }
{
    Arg::new(alloc, "FOLDER")
        .required(true)
        .help("The folder of the journals: journal0, journal1 and so on")
}

/// What clap knows of the folder that is made.
fn out_argument<'a>(alloc: Global) -> Arg<'a>
    ensures rule { rule_of result ≡ out_rule }
    ensures local { result.global ≡ false }
{
    Arg::new(alloc, "OUT")
        .required(true)
        .help("The folder that is made, for head, r0, r1 and so on")
}

/// What clap knows of `judge`.
fn judge_command<'a>(alloc: Global) -> Result<Command<'a>, AllocError>
    ensures app { IfOk result (λ command. app_of command ≡ judge) }
    ensures local { IfOk result (λ command. (fields_of command).has_globals ≡ false) }
{
    let options = manner_arguments(alloc)?;
    Command::new(alloc, "judge")
        .about(JUDGE_ABOUT)
        .after_help(AFTER)
        .version(VERSION)
        .arg(folder_argument(alloc))?
        .args(options)
}

/// What clap knows of `close`.
fn close_command<'a>(alloc: Global) -> Result<Command<'a>, AllocError>
    ensures app { IfOk result (λ command. app_of command ≡ close) }
    ensures local { IfOk result (λ command. (fields_of command).has_globals ≡ false) }
{
    let options = choice_arguments(alloc)?;
    Command::new(alloc, "close")
        .about(CLOSE_ABOUT)
        .after_help(AFTER)
        .version(VERSION)
        .arg(folder_argument(alloc))?
        .arg(out_argument(alloc))?
        .args(options)
}

/// What clap knows of the program.
fn program_command<'a>(alloc: Global) -> Result<Command<'a>, AllocError>
    ensures { IfOk result (λ command. app_of command ≡ program) }
{
    let check = check_command(alloc)?;
    let lint = lint_command(alloc)?;
    let judge = judge_command(alloc)?;
    let close = close_command(alloc)?;
    Command::new(alloc, "mpiwait")
        .about(ABOUT)
        .override_usage(PROGRAM_USAGE)
        .after_help(AFTER)
        .version(VERSION)
        .no_binary_name(true)
        .subcommand_required(true)
        .disable_help_subcommand(true)
        .bin_name("mpiwait")?
        .subcommand(check)?
        .subcommand(lint)?
        .subcommand(judge)?
        .subcommand(close)
}

/// The usage as the answer; without memory for it, that.
fn say_usage<'a>(alloc: Global, is_error: bool) -> CommandLine<'a>
    ensures { Says is_error result }
{
    match String::from_str(alloc, USAGE) {
        Ok(text) => CommandLine::Said { text, is_error },
        Err(_) => CommandLine::NoMemory,
    }
}

/// Whether clap answers with its help or with the version.
fn is_text(kind: ErrorKind) -> bool
    ensures { result ≡ is_text kind }
{
    matches!(kind, ErrorKind::DisplayHelp | ErrorKind::DisplayVersion)
}

/// What clap says instead of an answer. Its contracts say nothing of its texts, so the usage stands in for an empty one.
fn say_error<'a>(alloc: Global, error: Error) -> CommandLine<'a>
    ensures says { SaysError (kind_of error) result }
    ensures memory { kind_of error ≡ OutOfMemory → result ≡ CommandLine.NoMemory }
{
    if error.kind() == ErrorKind::OutOfMemory {
        return CommandLine::NoMemory;
    }
    let is_error = !is_text(error.kind());
    match error.to_string(alloc) {
        Ok(text) if text.is_empty() => say_usage(alloc, is_error),
        Ok(text) => CommandLine::Said { text, is_error },
        Err(_) => CommandLine::NoMemory,
    }
}

/// The run that these paths name.
#[tactic(auto, using(crate::proofs::AskedLemmas::asked_steps))]
fn run_named<'a>(
    alloc: Global,
    head: Option<&'a str>,
    files: Option<&[&'a str]>,
    options: Option<Options>,
    progress: bool,
) -> CommandLine<'a>
    ensures { Names (run_of (option_map (λ path. path.now) head.entry) (option_map (λ paths. map (λ path. path.now) paths.now) files.entry) options) result }
{
    let Some(head) = head else {
        return say_usage(alloc, true);
    };
    let Some(files) = files else {
        return say_usage(alloc, true);
    };
    if files.is_empty() {
        return say_usage(alloc, true);
    }
    let Some(options) = options else {
        return say_usage(alloc, true);
    };
    match Vec::from_slice(alloc, files) {
        Ok(files) => CommandLine::Check {
            head,
            files,
            options,
            progress,
        },
        Err(_) => CommandLine::NoMemory,
    }
}

/// The run that the words after `check` name.
fn check_of<'a>(alloc: Global, matches: &ArgMatches<'a>) -> CommandLine<'a>
    ensures { Names (check_of (rows_of (found_of matches.now))) result }
{
    run_named(
        alloc,
        text_of(matches, "HEAD"),
        texts_of(matches, "FILE"),
        options_of(matches),
        is_shown(matches),
    )
}

/// The trace that this path names.
#[tactic(auto, using(crate::proofs::AskedLemmas::asked_steps))]
fn trace_named<'a>(alloc: Global, file: Option<&'a str>) -> CommandLine<'a>
    ensures { Names (option_map LintTrace (option_map (λ path. path.now) file.entry)) result }
{
    match file {
        Some(file) => CommandLine::Lint { file },
        None => say_usage(alloc, true),
    }
}

/// The trace that the words after `lint` name.
fn lint_of<'a>(alloc: Global, matches: &ArgMatches<'a>) -> CommandLine<'a>
    ensures { Names (lint_of (rows_of (found_of matches.now))) result }
{
    trace_named(alloc, text_of(matches, "FILE"))
}

/// The journals in this folder, to be judged.
#[tactic(auto, using(crate::proofs::AskedLemmas::asked_steps))]
fn judging_of<'a>(
    alloc: Global,
    folder: Option<&'a str>,
    manner: Option<Manner>,
    progress: bool,
) -> CommandLine<'a>
    ensures { Names (judging_of (option_map (λ path. path.now) folder.entry) manner) result }
{
    let Some(folder) = folder else {
        return say_usage(alloc, true);
    };
    match manner {
        Some(manner) => CommandLine::Judge {
            folder,
            manner,
            progress,
        },
        None => say_usage(alloc, true),
    }
}

/// The journals that the words after `judge` name.
fn judge_of<'a>(alloc: Global, matches: &ArgMatches<'a>) -> CommandLine<'a>
    ensures { Names (judge_of (rows_of (found_of matches.now))) result }
{
    judging_of(
        alloc,
        text_of(matches, "FOLDER"),
        manner_of(matches),
        is_shown(matches),
    )
}

/// The journals in this folder, for whose recording that one is made.
#[tactic(auto, using(crate::proofs::AskedLemmas::asked_steps))]
fn closing_of<'a>(
    alloc: Global,
    folder: Option<&'a str>,
    out: Option<&'a str>,
    choice: Option<Choice>,
) -> CommandLine<'a>
    ensures { Names (closing_of (option_map (λ path. path.now) folder.entry) (option_map (λ path. path.now) out.entry) choice) result }
{
    let Some(folder) = folder else {
        return say_usage(alloc, true);
    };
    let Some(out) = out else {
        return say_usage(alloc, true);
    };
    match choice {
        Some(choice) => CommandLine::Close {
            folder,
            out,
            choice,
        },
        None => say_usage(alloc, true),
    }
}

/// The journals and the folder that the words after `close` name.
fn close_of<'a>(alloc: Global, matches: &ArgMatches<'a>) -> CommandLine<'a>
    ensures { Names (close_of (rows_of (found_of matches.now))) result }
{
    closing_of(
        alloc,
        text_of(matches, "FOLDER"),
        text_of(matches, "OUT"),
        choice_of(matches),
    )
}

/// The task of a command and of the words after it.
#[tactic(auto, using(crate::proofs::AskedLemmas::asked_steps))]
fn task_of<'a>(alloc: Global, name: &str, matches: &ArgMatches<'a>) -> CommandLine<'a>
    ensures { Names (task_of name.now (rows_of (found_of matches.now))) result }
{
    if name == "check" {
        check_of(alloc, matches)
    } else if name == "lint" {
        lint_of(alloc, matches)
    } else if name == "judge" {
        judge_of(alloc, matches)
    } else if name == "close" {
        close_of(alloc, matches)
    } else {
        say_usage(alloc, true)
    }
}

/// What the words that clap takes ask for.
#[tactic(auto, using(crate::proofs::AskedLemmas::asked_steps))]
fn asked<'a>(alloc: Global, matches: &ArgMatches<'a>) -> CommandLine<'a>
    ensures { Names (option_and_then (λ found. task_of found.0 found.1) (subcommand_rows_of matches.now)) result }
{
    match matches.subcommand() {
        Some((name, found)) => task_of(alloc, name, found),
        None => say_usage(alloc, true),
    }
}

/// What the words after the program's name ask for.
pub fn parse<'a>(alloc: Global, words: &'a [&'a str]) -> CommandLine<'a>
    ensures { Answers (map (λ word. word.now) words.now) result }
{
    let Ok(command) = program_command(alloc) else {
        return CommandLine::NoMemory;
    };
    match command.try_get_matches_from(words) {
        Ok(matches) => asked(alloc, &matches),
        Err(error) => say_error(alloc, error),
    }
}
