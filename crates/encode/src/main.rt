//! `encode`: frames in, CLTUs out, one line each.
#![tactic(auto)]

use cltu::{CodeblockLimit, Sender};
use command_line::{Failure, opened, run, words};
use encode_arguments::{EncodeArguments, NAME, command};
use encode_lines::print_cltus;
use std::fs::Files;
use std::io;
use std::process::ExitCode;

fn work<R>(rt: &R, asked: EncodeArguments<'_>) -> Result<(), Failure>
where
    R: Print + Input + Files + AllocGlobal,
{
    let sender = Sender {
        limit: CodeblockLimit::most(),
        randomizer: asked.randomizer,
    };
    let mut output = io::writer(rt);
    match asked.file {
        Some(name) => print_cltus(rt.alloc(), sender, &mut opened(rt, name)?, &mut output)?,
        None => print_cltus(rt.alloc(), sender, &mut rt.reader(), &mut output)?,
    }
    Ok(())
}

fn main(rt: HostRuntime) -> ExitCode {
    let words = words(&rt);
    run(&rt, NAME, command(rt.alloc()), &words, |matches| {
        work(&rt, EncodeArguments::asked(rt.alloc(), matches)?)
    })
}
