//! The options of `judge` and `close`: what clap is asked to read of each, and their values.

ghost use Rattle.std.specs.Prelude.{◌≡◌, false, All, IfOk, map, option_and_then, option_map};
ghost use Rattle.std.specs.List.{range_with_len};
ghost use Rattle.clap.specs.Matches.{found_of};
ghost use Rattle.clap.specs.Walk.{rows_of, rule_of};
ghost use Rattle.judging.specs.declared.judge.TheConstants.{RANKS_ASKED};
ghost use Rattle.cli.specs.Choices.{asked_by, calls_in, calls_rule, can_say, choice_by, choice_of, choice_rules, held_rank_rule, held_rule, is_named, is_rank, manner_by, manner_of, manner_rules, tests_in, tests_rule};

use crate::found::{text_of, texts_of};
use crate::limit::read_reading;
use crate::number::number_within;
use crate::options::{eager_argument, format_of, is_given, json_argument, progress_argument};
use clap::builder::ValueParser;
use clap::{Arg, ArgAction, ArgMatches};
use closing::choice::{Calls, Choice, Tests, Unreported};
use judging::judge::{Manner, RANKS_ASKED};
use moves::reading::Reading;
use report::write::Format;
use std::alloc::{AllocError, Global};

/// What a test that completed a send means.
fn tests_argument<'a>(alloc: Global) -> Arg<'a>
    ensures rule { rule_of result ≡ tests_rule }
    ensures local { result.global ≡ false }
{
    Arg::new(alloc, "tests")
        .long("tests")
        .value_name("HOW")
        .default_value("wait")
        .help(
            "Takes a test that completed a send as a wait (wait), or as a wait at the rank's end (pass)",
        )
}

/// What a call that came back means.
fn calls_argument<'a>(alloc: Global) -> Arg<'a>
    ensures rule { rule_of result ≡ calls_rule }
    ensures local { result.global ≡ false }
{
    Arg::new(alloc, "calls")
        .long("calls")
        .value_name("HOW")
        .default_value("strict")
        .help(
            "The question: whether the run can hang (strict), or what held its ranks when it was cut off (went)",
        )
}

/// Whether the report says which ranks are held.
fn held_argument<'a>(alloc: Global) -> Arg<'a>
    ensures rule { rule_of result ≡ held_rule }
    ensures local { result.global ≡ false }
{
    Arg::new(alloc, "held")
        .long("held")
        .action(ArgAction::SetTrue)
        .help(
            "Adds to the JSON report which ranks are held, in a run that still goes on; --held=R,.. asks only for these ranks",
        )
}

/// A rank that is asked for.
fn held_rank_argument<'a>(alloc: Global) -> Arg<'a>
    ensures rule { rule_of result ≡ held_rank_rule }
    ensures local { result.global ≡ false }
{
    Arg::new(alloc, "held-rank")
        .long("held-rank")
        .value_name("R")
        .action(ArgAction::Append)
        .value_parser(ValueParser::unsigned(0, RANKS_ASKED as u64 - 1))
        .help(
            "Asks only for this rank, and for others that are given so; --held=0,3 stands for two of them",
        )
}

/// The options of `close`, in the order of the help.
pub(crate) fn choice_arguments<'a>(alloc: Global) -> Result<Vec<Arg<'a>>, AllocError>
    ensures rules { IfOk result (λ arguments. map rule_of arguments.items ≡ choice_rules) }
    ensures local { IfOk result (λ arguments. All (λ argument. argument.global ≡ false) arguments.items) }
{
    let arguments = vec![in alloc; tests_argument(alloc), calls_argument(alloc)]?;
    Ok(arguments)
}

/// Those of `judge`.
pub(crate) fn manner_arguments<'a>(alloc: Global) -> Result<Vec<Arg<'a>>, AllocError>
    ensures rules { IfOk result (λ arguments. map rule_of arguments.items ≡ manner_rules) }
    ensures local { IfOk result (λ arguments. All (λ argument. argument.global ≡ false) arguments.items) }
{
    let arguments = vec![in alloc;
        json_argument(alloc),
        eager_argument(alloc),
        progress_argument(alloc),
        held_argument(alloc),
        held_rank_argument(alloc),
        tests_argument(alloc),
        calls_argument(alloc),
    ]?;
    Ok(arguments)
}

fn tests_in(word: &str) -> Option<Tests>
    ensures { result ≡ tests_in word.now }
{
    if word == "wait" {
        Some(Tests::Wait)
    } else if word == "pass" {
        Some(Tests::Pass)
    } else {
        None
    }
}

fn calls_in(word: &str) -> Option<Calls>
    ensures { result ≡ calls_in word.now }
{
    if word == "strict" {
        Some(Calls::Strict)
    } else if word == "went" {
        Some(Calls::Went)
    } else {
        None
    }
}

fn tests_of(word: Option<&str>) -> Option<Tests>
    ensures { result ≡ option_and_then tests_in (option_map (λ text. text.now) word.entry) }
{
    tests_in(word?)
}

fn calls_of(word: Option<&str>) -> Option<Calls>
    ensures { result ≡ option_and_then calls_in (option_map (λ text. text.now) word.entry) }
{
    calls_in(word?)
}

/// How journals are closed, if each word is one of its option's.
fn choice_by(tests: Option<Tests>, calls: Option<Calls>) -> Option<Choice>
    ensures { result ≡ choice_by tests calls }
{
    Some(Choice {
        tests: tests?,
        calls: calls?,
        unreported: Unreported::Ends,
    })
}

/// Whether the rank is the number that the text spells.
fn is_rank(rank: u16, text: &str) -> bool
    ensures { result ≡ is_rank rank text.now }
{
    match number_within(0, RANKS_ASKED as u32 - 1, text) {
        Some(number) => number == u32::from(rank),
        None => false,
    }
}

/// Whether the rank is named.
fn is_named(texts: &[&str], rank: u16) -> bool
    ensures { result ≡ is_named (map (λ text. text.now) texts.now) rank }
{
    texts.iter().any(|text| is_rank(rank, text))
}

/// A mark for each rank that is asked for.
fn marks_of(texts: &[&str]) -> [bool; RANKS_ASKED]
    ensures { result ≡ map (is_named (map (λ text. text.now) texts.now)) (range_with_len 0 RANKS_ASKED) }
{
    let mut marks = [false; RANKS_ASKED];
    for rank in 0..RANKS_ASKED {
        marks[rank] = is_named(texts, rank as u16);
    }
    marks
}

/// The ranks that are asked for: those that are named, or all.
fn asked_by(is_held: bool, texts: Option<&[&str]>) -> Option<[bool; RANKS_ASKED]>
    ensures { result ≡ asked_by is_held (option_map (λ texts. map (λ text. text.now) texts.now) texts.entry) }
{
    match texts {
        Some(texts) => Some(marks_of(texts)),
        None if is_held => Some([true; RANKS_ASKED]),
        None => None,
    }
}

/// Whether what is asked for can be said in the format.
fn can_say(format: Format, asked: &Option<[bool; RANKS_ASKED]>) -> bool
    ensures { result ≡ can_say format asked.now }
{
    match format {
        Format::Json => true,
        Format::Text => asked.is_none(),
    }
}

/// How journals are judged, if each option has a value of its form.
fn manner_by(
    choice: Option<Choice>,
    reading: Option<Reading>,
    format: Format,
    held: Option<[bool; RANKS_ASKED]>,
) -> Option<Manner>
    ensures { result ≡ manner_by choice reading format held }
{
    let choice = choice?;
    let reading = reading?;
    if !can_say(format, &held) {
        return None;
    }
    Some(Manner {
        choice,
        reading,
        format,
        held,
    })
}

/// How journals are closed, by the options that were found.
pub(crate) fn choice_of(matches: &ArgMatches<'_>) -> Option<Choice>
    ensures { result ≡ choice_of (rows_of (found_of matches.now)) }
{
    choice_by(
        tests_of(text_of(matches, "tests")),
        calls_of(text_of(matches, "calls")),
    )
}

/// How journals are judged, by the options that were found.
pub(crate) fn manner_of(matches: &ArgMatches<'_>) -> Option<Manner>
    ensures { result ≡ manner_of (rows_of (found_of matches.now)) }
{
    manner_by(
        choice_of(matches),
        read_reading(text_of(matches, "eager")),
        format_of(text_of(matches, "json")),
        asked_by(
            is_given(text_of(matches, "held")),
            texts_of(matches, "held-rank"),
        ),
    )
}
