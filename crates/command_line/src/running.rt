//! How a program runs.

ghost use Rattle.std.specs.Prelude.{◌≡◌, map, string_bytes};
ghost use Rattle.std.specs.IoError.{error_kind};
ghost use Rattle.std.specs.Process.{exit_status};
ghost use Rattle.clap.specs.Words.{app_of, kind_of};
ghost use Rattle.command_line.specs.Program.{program_app};
ghost use Rattle.command_line.specs.Running.{Ends, EndsOn, EndsWithout, IsParse, unread_status};
ghost use Rattle.command_line.specs.Status.{failure_status, status_of};

use crate::mistakes::mistake;
use crate::one_line::without_controls;
use crate::{Failure, VERSION};
use anyhow::anyhow;
use clap::error::ErrorKind;
use clap::{ArgMatches, Command};
use std::alloc::{AllocError, Global};
use std::env::args;
use std::io;
use std::process::ExitCode;
use std::rt::Env;

// How the error of a pipe that nobody reads any more prints.
const CLOSED_PIPE: &str = "Broken pipe (os error 32)";

/// The words that a program was called with, of which the first is its name.
pub fn words<R: Env + AllocGlobal>(rt: &R) -> io::Result<Vec<String>> {
    Ok(args(rt)?.collect(rt.alloc())?)
}

/// The command of a program of this name, with no arguments yet but `--help` and `--version`.
pub fn program<'a>(heap: Global, name: &'a str) -> Command<'a>
    ensures { app_of result ≡ program_app name.entry.now }
{
    Command::new(heap, name).version(VERSION)
}

// Why there are no words: one of them is no text, or the system did not give them.
fn unread(heap: Global, error: io::Error) -> Failure
    ensures { failure_status result ≡ unread_status (error_kind error) }
{
    match error.kind() {
        io::ErrorKind::InvalidData => Failure::Arguments(String::from_str(
            heap,
            "a word of the arguments is not UTF-8",
        ).unwrap_or(String::new(heap))),
        _ => error.into(),
    }
}

// What is done where the words give no matches: the help or the version is printed, or nothing can be done.
fn done_without<R>(rt: &R, command: &Command<'_>, error: &clap::Error) -> Result<(), Failure>
where
    R: Print + Eprint + AllocGlobal,
    ensures { EndsWithout (kind_of error.now) (status_of result) }
{
    match error.kind() {
        ErrorKind::DisplayHelp | ErrorKind::DisplayVersion => {
            error.print(rt)?;
            Ok(())
        }
        ErrorKind::OutOfMemory => Err(AllocError.into()),
        _ => {
            let heap = rt.alloc();
            let text = mistake(heap, command, error).unwrap_or(String::new(heap));
            Err(Failure::Arguments(text))
        }
    }
}

// Parses the words.
fn parsed<'a>(command: &mut Command<'a>, words: &'a [String]) -> Result<ArgMatches<'a>, clap::Error>
    ensures { IsParse command.old (map string_bytes words.entry.now) result }
{
    command.try_get_matches_from_mut(words)
}

// Does what the words ask for.
fn done<'a, R, W>(
    rt: &R,
    mut command: Command<'a>,
    words: &'a io::Result<Vec<String>>,
    work: W,
) -> Result<(), Failure>
where
    R: Print + Eprint + AllocGlobal,
    W: FnOnce(&ArgMatches<'a>) -> Result<(), Failure>,
    requires { W.IsAlwaysCallable work }
    ensures { EndsOn W.FnOnce work command.entry words.entry.now (status_of result) }
{
    let words = match words {
        Ok(words) => words.as_slice(),
        Err(e) => return Err(unread(rt.alloc(), *e)),
    };
    match parsed(&mut command, words) {
        Ok(matches) => work(&matches),
        Err(e) => done_without(rt, &command, &e),
    }
}

// The line of a failure, without the program's name. Where arguments are wrong and nothing says why, memory was lacking
// for that.
fn line_of(heap: Global, failure: &Failure) -> Result<String, AllocError> {
    match failure {
        Failure::Arguments(text) if text.as_str().is_empty() => Err(AllocError),
        Failure::Arguments(text) => without_controls(heap, text.as_str()),
        Failure::Work(e) => without_controls(heap, format!(in heap; "{e:#}")?.as_str()),
    }
}

// Prints the line of a failure, but for a pipe that nobody reads any more. Where memory is lacking for the line,
// that is told: it takes none.
fn tell<R: Eprint + AllocGlobal>(rt: &R, name: &str, failure: &Failure) -> io::Result<()> {
    match line_of(rt.alloc(), failure) {
        Ok(line) if line.as_str().ends_with(CLOSED_PIPE) => Ok(()),
        Ok(line) => eprintln!(rt; "{name}: {line}"),
        Err(e) => eprintln!(rt; "{name}: {e}"),
    }
}

/// How a program of this name ends whose work ended so: with 0 where it was done, with 2 where the arguments are
/// wrong, and with 1 where the work failed. A failure is one line on standard error that begins with the name;
/// where nobody reads a pipe any more there is none.
pub fn ended<R>(rt: &R, name: &str, done: Result<(), Failure>) -> ExitCode
where
    R: Eprint + AllocGlobal,
    ensures { exit_status result ≡ status_of done }
{
    match done {
        Ok(()) => ExitCode::SUCCESS,
        Err(failure) => {
            // Where the line cannot be printed, the status alone tells.
            let _told = tell(rt, name, &failure);
            match failure {
                Failure::Arguments(_) => ExitCode::from(2),
                Failure::Work(_) => ExitCode::FAILURE,
            }
        }
    }
}

/// Runs a program of this name on the words that it was called with: its work on what the arguments are, or its
/// help or version.
pub fn run<'a, R, W>(
    rt: &R,
    name: &str,
    command: Result<Command<'a>, AllocError>,
    words: &'a io::Result<Vec<String>>,
    work: W,
) -> ExitCode
where
    R: Print + Eprint + AllocGlobal,
    W: FnOnce(&ArgMatches<'a>) -> Result<(), Failure>,
    requires { W.IsAlwaysCallable work }
    ensures { Ends W.FnOnce work command.entry words.entry.now (exit_status result) }
{
    let done = match command {
        Ok(command) => done(rt, command, words, work),
        Err(e) => Err(e.into()),
    };
    ended(rt, name, done)
}
