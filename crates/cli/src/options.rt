//! The options of a check: what clap is asked to read of each, and their values. Each option has one function; a
//! command has a list of them, and a record of their values.

ghost use Rattle.std.specs.Prelude.{◌≡◌, false, All, IfOk, map, option_map};
ghost use Rattle.clap.specs.Matches.{found_of};
ghost use Rattle.clap.specs.Walk.{rows_of, rule_of};
ghost use Rattle.cli.specs.Options.{capacity_of, capacity_rule, eager_rule, format_of, given, is_given, json_rule, option_rules, options_of, progress_rule};
ghost use Rattle.cli.specs.inner.Options.{is_shown};

use crate::capacity::{Capacity, LEAST, MOST};
use crate::found::text_of;
use crate::limit::read_reading;
use clap::builder::ValueParser;
use clap::{Arg, ArgAction, ArgMatches};
use moves::reading::Reading;
use mpicall::limits::GREATEST_BYTES;
use report::write::Format;
use std::alloc::{AllocError, Global};

/// How a check is done.
#[derive(Clone, Copy, Debug, PartialEq, Eq)]
pub struct Options {
    /// How sends are read.
    pub reading: Reading,
    /// How the report is written.
    pub format: Format,
    /// How many records of a rank may be read ahead of the checking.
    pub capacity: Capacity,
}

/// The flag for JSON.
pub(crate) fn json_argument<'a>(alloc: Global) -> Arg<'a>
    ensures rule { rule_of result ≡ json_rule }
    ensures local { result.global ≡ false }
{
    Arg::new(alloc, "json")
        .long("json")
        .action(ArgAction::SetTrue)
        .help("Writes the report as one JSON value")
}

/// The number of records that may wait.
fn capacity_argument<'a>(alloc: Global) -> Arg<'a>
    ensures rule { rule_of result ≡ capacity_rule }
    ensures local { result.global ≡ false }
{
    Arg::new(alloc, "capacity")
        .long("capacity")
        .value_name("N")
        .default_value("64")
        .value_parser(ValueParser::unsigned(u64::from(LEAST), u64::from(MOST)))
        .help("How many records of a rank may be read ahead of the checking, 1 to 1024")
}

/// The eager limit.
pub(crate) fn eager_argument<'a>(alloc: Global) -> Arg<'a>
    ensures rule { rule_of result ≡ eager_rule }
    ensures local { result.global ≡ false }
{
    Arg::new(alloc, "eager")
        .long("eager")
        .value_name("N")
        .value_parser(ValueParser::unsigned(0, u64::from(GREATEST_BYTES)))
        .help("Takes standard sends of at most N recorded bytes as buffered, 0 to 2147483647")
}

/// The flag for a check to be shown.
pub(crate) fn progress_argument<'a>(alloc: Global) -> Arg<'a>
    ensures rule { rule_of result ≡ progress_rule }
    ensures local { result.global ≡ false }
{
    Arg::new(alloc, "progress")
        .long("progress")
        .action(ArgAction::SetTrue)
        .help("Shows on standard error how far it is, a line a second")
}

/// All options, in the order of the help.
pub(crate) fn option_arguments<'a>(alloc: Global) -> Result<Vec<Arg<'a>>, AllocError>
    ensures rules { IfOk result (λ arguments. map rule_of arguments.items ≡ option_rules) }
    ensures local { IfOk result (λ arguments. All (λ argument. argument.global ≡ false) arguments.items) }
{
    let arguments = vec![in alloc;
        json_argument(alloc),
        capacity_argument(alloc),
        eager_argument(alloc),
        progress_argument(alloc),
    ]?;
    Ok(arguments)
}

/// Whether the word after this one is its value.
pub(crate) fn takes_value(word: &str) -> bool {
    word == "--capacity" || word == "--eager"
}

/// The format that a flag asks for.
pub(crate) fn format_of(flag: Option<&str>) -> Format
    ensures { result ≡ format_of (option_map (λ value. value.now) flag.entry) }
{
    match flag {
        Some(value) if value == "true" => Format::Json,
        _ => Format::Text,
    }
}

/// The number of records that an option names.
fn capacity_of(number: Option<&str>) -> Option<Capacity>
    ensures { result ≡ capacity_of (option_map (λ text. text.now) number.entry) }
{
    Capacity::read(number?)
}

/// The options with these values; None if one of them has no value of its form.
fn given(reading: Option<Reading>, format: Format, capacity: Option<Capacity>) -> Option<Options>
    ensures { result ≡ given reading format capacity }
{
    Some(Options {
        reading: reading?,
        format,
        capacity: capacity?,
    })
}

/// Whether a flag is given.
pub(crate) fn is_given(flag: Option<&str>) -> bool
    ensures { result ≡ is_given (option_map (λ value. value.now) flag.entry) }
{
    match flag {
        Some(value) => value == "true",
        None => false,
    }
}

/// Whether it is to be shown how far the check is.
pub(crate) fn is_shown(matches: &ArgMatches<'_>) -> bool
    ensures { result ≡ is_shown (rows_of (found_of matches.now)) }
{
    is_given(text_of(matches, "progress"))
}

/// The options that were found.
pub(crate) fn options_of(matches: &ArgMatches<'_>) -> Option<Options>
    ensures { result ≡ options_of (rows_of (found_of matches.now)) }
{
    given(
        read_reading(text_of(matches, "eager")),
        format_of(text_of(matches, "json")),
        capacity_of(text_of(matches, "capacity")),
    )
}
