//! What the program is asked for.

use bch::Mode;
use clap::{Arg, ArgAction, ArgMatches, Command};
use cltu::{CodeblockLimit, Sender};
use command_line::{Failure, input_file, named_file, number_within, program};
use pass_lines::{Form, PassSettings, WrongPlaces};
use receiver_options::{asked_limit, asked_randomizer, limit_option, random_option};
use reception::recovery_bits;
use std::alloc::{AllocError, Global};

/// The program's name.
pub const NAME: &str = "pass";

const LINES: &str = "\
Each line read is a frame in hexadecimal digits of either case, two an octet, or a line that encode
prints: cltu CODEBLOCKS FILL OCTETS DIGITS, which is taken as that CLTU, or end, which is passed over.
Any other line is an error, and then nothing is written.

Idle stands before each CLTU, also the first: alternating bits, as many as --guard tells. Without
--guard it is as long as a correcting receiver of that limit needs to be back in search.

  --to record   a pass record, at most 65,535 octets: what receive reads
  --to packed   the symbols, eight to an octet, the first highest, padded with zeros to whole octets
  --to bits     an octet a symbol, 0 or 1
  --to levels   a signed octet a symbol, 64 for a 0 and -64 for a 1

With --out it prints the form, and how many segments, symbols and octets there are.";

// The most bits of idle before a CLTU.
const LONGEST_GUARD: u64 = 1_000_000;

/// What `pass` is asked for.
#[derive(Drop)]
pub struct PassArguments<'a> {
    /// How lines become a pass.
    pub settings: PassSettings,
    /// The file that it writes, or `None` for standard output.
    pub out: Option<&'a str>,
    /// The file that it reads, or `None` for standard input.
    pub file: Option<&'a str>,
}

fn valued<'a>(heap: Global, name: &'a str, value: &'a str, help: &'a str) -> Arg<'a> {
    Arg::new(heap, name).long(name).value_name(value).help(help)
}

/// The program's arguments.
pub fn command<'a>(heap: Global) -> Result<Command<'a>, AllocError> {
    program(heap, NAME)
        .about("pass: writes the symbols that a satellite receives during a pass")
        .after_help(LINES)
        .arg(random_option(heap))?
        .arg(limit_option(heap))?
        .arg(valued(
            heap,
            "guard",
            "BITS",
            "The idle before each CLTU, from 0 to 1000000 bits",
        ))?
        .arg(valued(
            heap,
            "first",
            "BIT",
            "The first bit of that idle, 0 or 1; without it 0",
        ))?
        .arg(valued(
            heap,
            "flip",
            "PLACE,..",
            "The symbols that are wrong, counted from 0 over all segments",
        ))?
        .arg(
            Arg::new(heap, "apart")
                .long("apart")
                .action(ArgAction::SetTrue)
                .help("A segment for each CLTU"),
        )?
        .arg(valued(
            heap,
            "to",
            "FORM",
            "record, packed, bits or levels; without it record",
        ))?
        .arg(valued(
            heap,
            "out",
            "FILE",
            "The file to write; without it standard output",
        ))?
        .arg(input_file(heap))
}

// The idle before each CLTU.
fn asked_guard(
    heap: Global,
    matches: &ArgMatches<'_>,
    limit: CodeblockLimit,
) -> Result<usize, Failure> {
    match matches.get_str("guard") {
        Some(value) => Ok(number_within(heap, "--guard", 0, LONGEST_GUARD, value)? as usize),
        None => Ok(recovery_bits(Mode::Correcting, limit)),
    }
}

// Its first bit.
fn asked_first(heap: Global, matches: &ArgMatches<'_>) -> Result<bool, Failure> {
    match matches.get_str("first") {
        None => Ok(false),
        Some(value) => Ok(number_within(heap, "--first", 0, 1, value)? == 1),
    }
}

// The places of a list.
fn places_of(heap: Global, list: &str) -> Result<Vec<usize>, Failure> {
    let mut places = Vec::new(heap);
    for place in list.split(',') {
        places.push(number_within(heap, "--flip", 0, u64::MAX, place)? as usize)?;
    }
    Ok(places)
}

// The symbols that are wrong.
fn asked_places(heap: Global, matches: &ArgMatches<'_>) -> Result<WrongPlaces, Failure> {
    let Some(list) = matches.get_str("flip") else {
        return Ok(WrongPlaces::none(heap));
    };
    match WrongPlaces::new(places_of(heap, list)?) {
        Ok(wrong) => Ok(wrong),
        Err(place) => Err(Failure::Arguments(format!(in heap;
            "--flip names the place {place} twice"
        )?)),
    }
}

// The form that is written.
fn asked_form(heap: Global, matches: &ArgMatches<'_>) -> Result<Form, Failure> {
    match matches.get_str("to") {
        None | Some("record") => Ok(Form::Record),
        Some("packed") => Ok(Form::Packed),
        Some("bits") => Ok(Form::Bits),
        Some("levels") => Ok(Form::Levels),
        Some(value) => Err(Failure::Arguments(format!(in heap;
            "--to takes record, packed, bits or levels, not '{value}'"
        )?)),
    }
}

impl<'a> PassArguments<'a> {
    /// What the matches of `command` ask for.
    pub fn asked(heap: Global, matches: &ArgMatches<'a>) -> Result<PassArguments<'a>, Failure> {
        let limit = asked_limit(heap, matches)?;
        let settings = PassSettings {
            sender: Sender {
                limit,
                randomizer: asked_randomizer(matches),
            },
            guard: asked_guard(heap, matches, limit)?,
            first: asked_first(heap, matches)?,
            apart: matches.get_str("apart") == Some("true"),
            wrong: asked_places(heap, matches)?,
            form: asked_form(heap, matches)?,
        };
        Ok(PassArguments {
            settings,
            out: matches.get_str("out"),
            file: named_file(matches),
        })
    }
}
