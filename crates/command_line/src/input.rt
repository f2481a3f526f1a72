//! The file that a program reads.

ghost use Rattle.std.specs.Prelude.{◌≡◌, IfErr, codes, false, option_map};
ghost use Rattle.clap.specs.Words.{new_rule, rule_of};
ghost use Rattle.command_line.specs.Input.{file_of, file_of_word as file_named};
ghost use Rattle.command_line.specs.Status.{failure_status};

use crate::Failure;
use anyhow::anyhow;
use clap::{Arg, ArgMatches};
use std::alloc::Global;
use std::fs::{self, Files, OpenFile};

/// The argument for the file that a program reads.
pub fn input_file<'a>(heap: Global) -> Arg<'a>
    ensures rule { rule_of result ≡ new_rule (codes "FILE") }
    ensures local { result.global ≡ false }
{
    Arg::new(heap, "FILE").help("The file to read; without it, or where it is -, standard input")
}

/// The file that a word of the arguments names, or `None` for `-`, which is standard input.
pub fn file_of_word<'a>(word: &'a str) -> Option<&'a str>
    ensures { option_map (λ s. s.now) result ≡ file_named word.entry.now }
{
    if word == "-" { None } else { Some(word) }
}

/// The file that is to be read, or `None` for standard input.
pub fn named_file<'a>(matches: &ArgMatches<'a>) -> Option<&'a str>
    ensures { option_map (λ s. s.now) result ≡ file_of matches.now }
{
    matches.get_str("FILE").and_then(file_of_word)
}

/// The file with this name, opened to be read. The failure names it, where it is a directory too.
pub fn opened<R: Files>(rt: &R, name: &str) -> Result<R::File, Failure>
    ensures { IfErr result (λ failure. failure_status failure ≡ 1) }
{
    let file = fs::open(rt, name).map_err(|e| anyhow!("cannot open '{name}': {e}"))?;
    match file.metadata() {
        Ok(metadata) if metadata.is_dir() => Err(Failure::Work(anyhow!(
            "cannot read '{name}': it is a directory"
        ))),
        _ => Ok(file),
    }
}
