//! `receive`: a pass record or the symbols of one segment in, reports and candidates out, one line each.
#![tactic(auto)]

use command_line::{Failure, opened, run, words};
use pass_record::fault;
use receive_arguments::{NAME, ReceiveArguments, command};
use receive_lines::{answer_record, print_symbols};
use std::fs::Files;
use std::io::{self, Read, Write};
use std::process::ExitCode;

// One octet more than a pass record may have: input that fills it is too long.
const MOST: u64 = 65536;

/// Prints what a receiver makes of the input.
fn receive<R, I>(rt: &R, asked: ReceiveArguments<'_>, input: &mut I) -> anyhow::Result<()>
where
    R: Print + Eprint + AllocGlobal,
    I: Read,
{
    let heap = rt.alloc();
    let mut output = io::writer(rt);
    if let Some(form) = asked.form {
        return print_symbols(heap, asked.setup, asked.view, form, input, &mut output);
    }
    let mut octets = Vec::new(heap);
    input.take(MOST).read_to_end(&mut octets)?;
    if asked.why {
        if let Some(fault) = fault(octets.as_slice()) {
            eprintln!(rt; "{NAME}: {fault}")?;
        }
    }
    let text = answer_record(heap, asked.setup, asked.view, octets.as_slice())?;
    output.write_all(text.as_bytes())?;
    Ok(())
}

fn work<R>(rt: &R, asked: ReceiveArguments<'_>) -> Result<(), Failure>
where
    R: Print + Eprint + Input + Files + AllocGlobal,
{
    match asked.file {
        Some(name) => receive(rt, asked, &mut opened(rt, name)?)?,
        None => receive(rt, asked, &mut rt.reader())?,
    }
    Ok(())
}

fn main(rt: HostRuntime) -> ExitCode {
    let words = words(&rt);
    run(&rt, NAME, command(rt.alloc()), &words, |matches| {
        work(&rt, ReceiveArguments::asked(rt.alloc(), matches)?)
    })
}
