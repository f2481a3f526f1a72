//! `pass`: frames or CLTUs in, the symbols that a satellite receives out.
#![tactic(auto)]

mod arguments;

use anyhow::anyhow;
use arguments::{NAME, PassArguments, command};
use command_line::{Failure, opened, run, words};
use pass_lines::{Pass, pass_of_lines};
use std::fs::Files;
use std::io::{Read, Write};
use std::process::ExitCode;
use std::{fs, io};

// All octets of the input.
fn read_input<R>(rt: &R, file: Option<&str>) -> Result<Vec<u8>, Failure>
where
    R: Input + Files + AllocGlobal,
{
    let mut input = Vec::new(rt.alloc());
    match file {
        Some(name) => opened(rt, name)?.read_to_end(&mut input)?,
        None => rt.reader().read_to_end(&mut input)?,
    };
    Ok(input)
}

// Writes the octets of a pass to standard output, or to a file, and tells then what it wrote.
fn write_pass<R: Print + Files>(rt: &R, out: Option<&str>, pass: &Pass) -> Result<(), Failure> {
    match out {
        None => io::writer(rt).write_all(pass.octets.as_slice())?,
        Some(name) => {
            fs::write(rt, name, pass.octets.as_slice()).map_err(|e| anyhow!(
                "cannot write '{name}': {e}"
            ))?;
            println!(rt; "{pass}")?;
        }
    }
    Ok(())
}

fn work<R>(rt: &R, asked: PassArguments<'_>) -> Result<(), Failure>
where
    R: Print + Input + Files + AllocGlobal,
{
    let input = read_input(rt, asked.file)?;
    match pass_of_lines(rt.alloc(), &asked.settings, input.as_slice()) {
        Ok(pass) => write_pass(rt, asked.out, &pass),
        Err(e) => Err(Failure::Work(anyhow!("{e}"))),
    }
}

fn main(rt: HostRuntime) -> ExitCode {
    let words = words(&rt);
    run(&rt, NAME, command(rt.alloc()), &words, |matches| {
        work(&rt, PassArguments::asked(rt.alloc(), matches)?)
    })
}
