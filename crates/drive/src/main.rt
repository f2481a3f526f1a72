//! `drive`: calls of a receiver in, its answers out, one line each.
#![tactic(auto)]

use chain::{Chain, LinkedCell};
use clap::{Arg, ArgMatches, Command};
use command_line::{Failure, input_file, named_file, number_within, opened, program, run, words};
use decoding::Settings;
use derandomizing::Derandomizing;
use drive_lines::drive;
use hold::Hold;
use randomizer::Randomizer;
use receiver::Receiver;
use receiver_options::{ReceiverOptions, with_receiver_options};
use ring::{Cell, Ring};
use std::alloc::{AllocError, Global};
use std::fs::Files;
use std::io;
use std::io::{BufRead, BufReader};
use std::process::ExitCode;

const NAME: &str = "drive";

const LINES: &str = "\
Each line is a call of the receiver, its words parted by blanks or tabs. Lines that are empty or blank,
and those that begin with #, are passed over. The answers:

  up, down, release      ok, or refused N
  bits 0110..            made N: how many reports the symbols made; or refused N
  octets EB90..          the same: their bits, the first of each its highest
  idle FIRST COUNT       the same: COUNT alternating bits, at most 1000000, of which FIRST is the first
  levels -5,3,..         the same: soft levels from -128 to 127, of which the negative are ones
  oldest                 candidate LENGTH DIGITS, the oldest finished candidate; or refused 7
  state                  INACTIVE, SEARCH or DECODE, then lost, free, open and finished with a number each
  anything else          unreadable

Behind the answer comes a line for each report that the call made, as closed 1 0, as far as the queue
had slots. Last is

  end LINES REPORTS      how many lines were answered, and how many reports printed

";

/// Over which hold the receiver is made.
#[derive(Clone, Copy)]
enum Store {
    Ring,
    Chain,
}

/// What is asked for.
#[derive(Clone, Copy)]
struct Asked {
    receiver: ReceiverOptions,
    store: Store,
    /// How many reports of a call are kept until they are printed.
    slots: u16,
}

fn command<'a>(heap: Global) -> Result<Command<'a>, AllocError> {
    let store = Arg::new(heap, "hold")
        .long("hold")
        .value_name("HOLD")
        .default_value("ring")
        .help("The hold that keeps candidates: ring or chain");
    let slots = Arg::new(heap, "reports")
        .long("reports")
        .value_name("SLOTS")
        .default_value("16")
        .help("How many reports of a call find a slot, from 0 to 65535: the others are lost");
    let command = program(heap, NAME)
        .about("drive: a receiver that is called by hand, or by a script")
        .after_help(LINES);
    with_receiver_options(heap, command)?
        .arg(store)?
        .arg(slots)?
        .arg(input_file(heap))
}

fn asked_store(heap: Global, matches: &ArgMatches<'_>) -> Result<Store, Failure> {
    match matches.get_str("hold") {
        None | Some("ring") => Ok(Store::Ring),
        Some("chain") => Ok(Store::Chain),
        Some(text) => Err(Failure::Arguments(format!(in heap;
            "--hold takes ring or chain, not '{text}'"
        )?)),
    }
}

fn asked_slots(heap: Global, matches: &ArgMatches<'_>) -> Result<u16, Failure> {
    match matches.get_str("reports") {
        None => Ok(16),
        Some(text) => {
            let slots = number_within(heap, "--reports", 0, 65535, text)?;
            Ok(slots as u16)
        }
    }
}

/// A receiver over this hold, driven to the end of the input.
fn drive_over<R: Print + AllocGlobal, H: Hold + Drop, I: BufRead>(
    rt: &R,
    asked: Asked,
    hold: H,
    input: &mut I,
) -> Result<(), Failure> {
    let settings = Settings {
        mode: asked.receiver.mode,
        limit: asked.receiver.limit,
    };
    let receiver = Receiver::new(settings, hold);
    drive(
        rt.alloc(),
        receiver,
        asked.slots,
        input,
        &mut io::writer(rt),
    )?;
    Ok(())
}

/// The same, with the randomizer's sequence taken off where that is asked for.
fn drive_randomized<R: Print + AllocGlobal, H: Hold + Drop, I: BufRead>(
    rt: &R,
    asked: Asked,
    hold: H,
    input: &mut I,
) -> Result<(), Failure> {
    match asked.receiver.randomizer {
        Randomizer::On => drive_over(rt, asked, Derandomizing::over(hold), input),
        Randomizer::Off => drive_over(rt, asked, hold, input),
    }
}

/// A receiver as it is asked for, driven to the end of the input.
fn drive_asked<R: Print + AllocGlobal, I: BufRead>(
    rt: &R,
    asked: Asked,
    input: &mut I,
) -> Result<(), Failure> {
    let heap = rt.alloc();
    let count = usize::from(asked.receiver.cells);
    match asked.store {
        Store::Ring => {
            let mut cells = vec![in heap; Cell::EMPTY; count]?;
            drive_randomized(rt, asked, Ring::new(cells.as_mut_slice()), input)
        }
        Store::Chain => {
            let mut cells = vec![in heap; LinkedCell::EMPTY; count]?;
            drive_randomized(rt, asked, Chain::new(cells.as_mut_slice()), input)
        }
    }
}

fn work<R>(rt: &R, matches: &ArgMatches<'_>) -> Result<(), Failure>
where
    R: Print + Input + Files + AllocGlobal,
{
    let heap = rt.alloc();
    let asked = Asked {
        receiver: ReceiverOptions::asked(heap, matches)?,
        store: asked_store(heap, matches)?,
        slots: asked_slots(heap, matches)?,
    };
    match named_file(matches) {
        Some(name) => {
            let mut input = BufReader::new(heap, opened(rt, name)?)?;
            drive_asked(rt, asked, &mut input)
        }
        None => {
            let mut input = BufReader::new(heap, rt.reader())?;
            drive_asked(rt, asked, &mut input)
        }
    }
}

fn main(rt: HostRuntime) -> ExitCode {
    let words = words(&rt);
    run(&rt, NAME, command(rt.alloc()), &words, |matches| {
        work(&rt, matches)
    })
}
