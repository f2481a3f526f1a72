//! Each option alone.

ghost use Rattle.std.specs.Prelude.{◌≡◌, ℕ, IfOk, IfErr, Option, codes, false, unwrap_or};
ghost use Rattle.clap.specs.Words.{rule_of};
ghost use Rattle.cltu.specs.Limit.{codeblocks_allowed};
ghost use Rattle.command_line.specs.Status.{failure_status};
ghost use Rattle.receiver_options.specs.Options.{flag, option, option_with_default};
ghost use Rattle.receiver_options.specs.Asked.{AsksCells, AsksLimit, AsksMode, asked_randomizer as randomizer_of, value};

use bch::Mode;
use clap::{Arg, ArgAction, ArgMatches};
use cltu::CodeblockLimit;
use command_line::{Failure, number_within};
use randomizer::Randomizer;
use std::alloc::Global;

// The value of an option that is not given.
const UNASKED: &str = "37";

// The value of an option, 37 where it has none.
fn value_of<'a>(matches: &ArgMatches<'a>, option: &str) -> &'a str
    ensures { result.now ≡ unwrap_or (value matches.now option.now) (codes "37") }
{
    match matches.get_str(option) {
        Some(value) => value,
        None => UNASKED,
    }
}

/// The option `--mode`, which has no value where it is not given.
pub fn mode_option<'a>(heap: Global) -> Arg<'a>
    ensures rule { rule_of result ≡ option (codes "mode") }
    ensures local { result.global ≡ false }
{
    Arg::new(heap, "mode").long("mode").value_name("MODE").help(
        "How wrong bits are treated: correcting, one in a codeblock, or detecting",
    )
}

/// The mode that is asked for, or `None` where `--mode` is not given.
pub fn asked_mode(heap: Global, matches: &ArgMatches<'_>) -> Result<Option<Mode>, Failure>
    ensures mode { IfOk result (AsksMode matches.now) }
    ensures refused { IfErr result (λ failure. failure_status failure ≡ 2
        → (mode : Option Mode) → AsksMode matches.now mode → ⊥) }
{
    match matches.get_str("mode") {
        None => Ok(None),
        Some("correcting") => Ok(Some(Mode::Correcting)),
        Some("detecting") => Ok(Some(Mode::Detecting)),
        Some(text) => Err(Failure::Arguments(format!(in heap;
            "--mode takes correcting or detecting, not '{text}'"
        )?)),
    }
}

/// The option `--limit`, which is 37 where it is not given.
pub fn limit_option<'a>(heap: Global) -> Arg<'a>
    ensures rule { rule_of result ≡ option_with_default (codes "limit") (codes "37") }
    ensures local { result.global ≡ false }
{
    Arg::new(heap, "limit")
        .long("limit")
        .value_name("L")
        .default_value(UNASKED)
        .help("The most codeblocks that a CLTU may have, from 1 to 147")
}

/// The limit that is asked for, 37 where `--limit` has no value.
pub fn asked_limit(heap: Global, matches: &ArgMatches<'_>) -> Result<CodeblockLimit, Failure>
    ensures limit { IfOk result (λ limit. AsksLimit matches.now (codeblocks_allowed limit)) }
    ensures refused { IfErr result (λ failure. failure_status failure ≡ 2
        → (limit : ℕ) → AsksLimit matches.now limit → ⊥) }
{
    let value = value_of(matches, "limit");
    let count = number_within(heap, "--limit", 1, 147, value)?;
    Ok(CodeblockLimit::try_from(count as usize).unwrap())
}

/// The option `--cells`, which is 37 where it is not given.
pub fn cells_option<'a>(heap: Global) -> Arg<'a>
    ensures rule { rule_of result ≡ option_with_default (codes "cells") (codes "37") }
    ensures local { result.global ≡ false }
{
    Arg::new(heap, "cells")
        .long("cells")
        .value_name("K")
        .default_value(UNASKED)
        .help("How many codeblocks the hold has room for, from 0 to 65535")
}

/// The number of cells that is asked for, 37 where `--cells` has no value.
pub fn asked_cells(heap: Global, matches: &ArgMatches<'_>) -> Result<u16, Failure>
    ensures cells { IfOk result (AsksCells matches.now) }
    ensures refused { IfErr result (λ failure. failure_status failure ≡ 2
        → (cells : ℕ) → AsksCells matches.now cells → ⊥) }
{
    let value = value_of(matches, "cells");
    let count = number_within(heap, "--cells", 0, 65535, value)?;
    Ok(count as u16)
}

/// The option `--random`, which takes no value.
pub fn random_option<'a>(heap: Global) -> Arg<'a>
    ensures rule { rule_of result ≡ flag (codes "random") }
    ensures local { result.global ≡ false }
{
    Arg::new(heap, "random")
        .long("random")
        .action(ArgAction::SetTrue)
        .help("The randomizer is on")
}

/// Whether the randomizer is asked to be on.
pub fn asked_randomizer(matches: &ArgMatches<'_>) -> Randomizer
    ensures { result ≡ randomizer_of (value matches.now (codes "random")) }
{
    match matches.get_str("random") {
        Some("true") => Randomizer::On,
        _ => Randomizer::Off,
    }
}
