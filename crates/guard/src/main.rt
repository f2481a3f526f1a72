//! `guard`: prints how long the idle between two commands has to be.
#![tactic(auto)]

use clap::{ArgMatches, Command};
use command_line::{Failure, program, run, words};
use guard_times::{Asked, with_guard_options};
use std::alloc::{AllocError, Global};
use std::process::ExitCode;

const NAME: &str = "guard";

fn command<'a>(heap: Global) -> Result<Command<'a>, AllocError> {
    let command = program(heap, NAME).about(
        "Prints guard times: the idle that has to lie between two commands",
    );
    with_guard_options(heap, command)
}

fn work<R: Print + AllocGlobal>(rt: &R, matches: &ArgMatches<'_>) -> Result<(), Failure> {
    let asked = Asked::by(rt.alloc(), matches)?;
    let text = asked.text(rt.alloc())?;
    rt.print(text.as_str())?;
    Ok(())
}

fn main(rt: HostRuntime) -> ExitCode {
    let words = words(&rt);
    run(&rt, NAME, command(rt.alloc()), &words, |matches| {
        work(&rt, matches)
    })
}
