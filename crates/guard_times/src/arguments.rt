//! The arguments that ask for guard times.

ghost use Rattle.std.specs.Prelude.{◌≡◌, IfOk, IfErr, map, List, Option, codes, false};
ghost use Rattle.clap.specs.Words.{rule_of, app_of};
ghost use Rattle.command_line.specs.Status.{failure_status};
ghost use Rattle.cltu.specs.declared.limit.CodeblockLimit.{CodeblockLimit as Limit};
ghost use Rattle.guard_times.specs.Arguments.{CommasPart, between_commas, limits_text, WritesLimit, WriteLimits, AsksLimits, WritesRate, AsksRate, form_asked};
ghost use Rattle.receiver_options.specs.Options.{option, option_with_default, flag};
ghost use Rattle.guard_times.specs.Options.{with_guard_options as with_options};
ghost use Rattle.guard_times.specs.declared.bit_rate.BitRate.{BitRate as Rate};

use crate::{BitRate, Form};
use clap::{Arg, ArgAction, ArgMatches, Command};
use cltu::CodeblockLimit;
use command_line::{Failure, number_within};
use receiver_options::mode_option;
use std::alloc::{AllocError, Global};

// The limits where none are asked for.
const UNASKED: &str = "1,10,37,147";

/// The option `--limit`, whose value is one limit, or several with commas between them.
pub fn limits_option<'a>(heap: Global) -> Arg<'a>
    ensures rule { rule_of result ≡ option_with_default (codes "limit") (codes "1,10,37,147") }
    ensures local { result.global ≡ false }
{
    Arg::new(heap, "limit")
        .long("limit")
        .value_name("L,..")
        .default_value(UNASKED)
        .help("The most codeblocks that the receiver takes in a CLTU, each from 1 to 147")
}

// The texts between the commas of a text.
fn parts<'t>(heap: Global, text: &'t str) -> Result<Vec<&'t str>, AllocError>
    ensures { IfOk result (λ parts. map (λ part. part.now) parts.items ≡ between_commas text.now) }
{
    text.split(',').collect(heap)
}

// The limit that a text writes.
fn limit_in(heap: Global, text: &str) -> Result<CodeblockLimit, Failure>
    ensures limit { IfOk result (WritesLimit text.now) }
    ensures refused { IfErr result (λ failure. failure_status failure ≡ 2
        → (limit : Limit) → WritesLimit text.now limit → ⊥) }
{
    let count = number_within(heap, "--limit", 1, 147, text)?;
    Ok(CodeblockLimit::try_from(count as usize).unwrap())
}

// The limits that texts write.
fn limits_in(heap: Global, texts: &[&str]) -> Result<Vec<CodeblockLimit>, Failure>
    ensures limits { IfOk result (λ limits. WriteLimits (map (λ text. text.now) texts.now) limits.items) }
    ensures refused { IfErr result (λ failure. failure_status failure ≡ 2
        → (limits : List Limit) → WriteLimits (map (λ text. text.now) texts.now) limits → ⊥) }
{
    let mut limits = Vec::new(heap);
    for text in texts {
        let limit = limit_in(heap, text)?;
        limits.push(limit)?;
    }
    Ok(limits)
}

// The limits that are asked for, as they are written.
fn limits_text<'a>(matches: &ArgMatches<'a>) -> &'a str
    ensures { result.now ≡ limits_text matches.now }
{
    match matches.get_str("limit") {
        Some(text) => text,
        None => UNASKED,
    }
}

/// The limits that are asked for, in order: 1, 10, 37 and 147 where `--limit` has no value.
pub fn asked_limits(heap: Global, matches: &ArgMatches<'_>) -> Result<Vec<CodeblockLimit>, Failure>
    ensures limits { IfOk result (λ limits. AsksLimits matches.now limits.items) }
    ensures refused { IfErr result (λ failure. failure_status failure ≡ 2
        → (limits : List Limit) → AsksLimits matches.now limits → ⊥) }
    ensures commas { CommasPart }
{
    let texts = parts(heap, limits_text(matches))?;
    limits_in(heap, texts.as_slice())
}

/// The option `--rate`.
pub fn rate_option<'a>(heap: Global) -> Arg<'a>
    ensures rule { rule_of result ≡ option (codes "rate") }
    ensures local { result.global ≡ false }
{
    Arg::new(heap, "rate")
        .long("rate")
        .value_name("BITS_PER_SECOND")
        .help("Tells milliseconds too, at this rate, from 1 to 4000000")
}

// The rate that a text writes.
fn rate_in(heap: Global, text: &str) -> Result<BitRate, Failure>
    ensures rate { IfOk result (WritesRate text.now) }
    ensures refused { IfErr result (λ failure. failure_status failure ≡ 2
        → (rate : Rate) → WritesRate text.now rate → ⊥) }
{
    let bits = number_within(heap, "--rate", 1, 4_000_000, text)?;
    Ok(BitRate::new(bits as usize).unwrap())
}

/// The rate that is asked for, or `None` where `--rate` is not given.
pub fn asked_rate(heap: Global, matches: &ArgMatches<'_>) -> Result<Option<BitRate>, Failure>
    ensures rate { IfOk result (AsksRate matches.now) }
    ensures refused { IfErr result (λ failure. failure_status failure ≡ 2
        → (rate : Option Rate) → AsksRate matches.now rate → ⊥) }
{
    match matches.get_str("rate") {
        None => Ok(None),
        Some(text) => {
            let rate = rate_in(heap, text)?;
            Ok(Some(rate))
        }
    }
}

/// The option `--csv`, which takes no value.
pub fn csv_option<'a>(heap: Global) -> Arg<'a>
    ensures rule { rule_of result ≡ flag (codes "csv") }
    ensures local { result.global ≡ false }
{
    Arg::new(heap, "csv")
        .long("csv")
        .action(ArgAction::SetTrue)
        .help("Prints values with commas between them, for a spreadsheet")
}

/// The form that is asked for: a table where `--csv` is not given.
pub fn asked_form(matches: &ArgMatches<'_>) -> Form
    ensures { result ≡ form_asked matches.now }
{
    match matches.get_str("csv") {
        Some("true") => Form::Csv,
        _ => Form::Table,
    }
}

/// Gives a command the options `--limit`, `--mode`, `--rate` and `--csv`.
pub fn with_guard_options(heap: Global, command: Command<'_>) -> Result<Command<'_>, AllocError>
    ensures { IfOk result (λ changed. app_of changed ≡ with_options (app_of command.entry)) }
{
    command
        .arg(limits_option(heap))?
        .arg(mode_option(heap))?
        .arg(rate_option(heap))?
        .arg(csv_option(heap))
}
