//! Runs the code on test vectors that an unrelated encoder made: see vectors/README.md.
#![tactic(auto)]

use bch::{Accepted, INFORMATION_OCTETS, Mode};
use clap::{ArgMatches, Command};
use coding::{codeblock, judge, syndrome, wrong_place};
use command_line::{Failure, input_file, named_file, opened, program, run, words};
use hex::FromHex;
use std::alloc::{AllocError, Global};
use std::fs::Files;
use std::io::{BufRead, BufReader, Read};
use std::process::ExitCode;

/// What a line asks of the code.
#[derive(Clone, Copy)]
enum Question {
    /// The codeblock of this information.
    Code([u8; INFORMATION_OCTETS]),
    /// What is made of this word.
    Word(u64),
}

impl Question {
    // `None` where the line cannot be read.
    fn read(line: &str) -> Option<Question> {
        let (kind, digits) = line.split_once(' ')?;
        match kind {
            "code" => Some(Question::Code(FromHex::from_hex(digits).ok()?)),
            "word" => Some(Question::Word(u64::from_be_bytes(FromHex::from_hex(digits).ok()?))),
            _ => None,
        }
    }

    fn answer(self, heap: Global) -> Result<String, AllocError> {
        match self {
            Question::Code(information) => {
                let digits = hex::encode_upper(heap, codeblock(information))?;
                format!(in heap; "codeblock {digits}")
            }
            Question::Word(word) => word_answer(heap, word),
        }
    }
}

fn word_answer(heap: Global, word: u64) -> Result<String, AllocError> {
    let (parity, number) = syndrome(word);
    let place = place_text(heap, number)?;
    let detecting = verdict_text(heap, judge(Mode::Detecting, word))?;
    let correcting = verdict_text(heap, judge(Mode::Correcting, word))?;
    format!(in heap;
        "syndrome {parity} {number} place {place} detecting {detecting} correcting {correcting}"
    )
}

fn place_text(heap: Global, number: u8) -> Result<String, AllocError> {
    match wrong_place(number) {
        Some(degree) => degree.to_string(heap),
        None => String::from_str(heap, "-"),
    }
}

fn verdict_text(heap: Global, verdict: Option<Accepted>) -> Result<String, AllocError> {
    let Some(accepted) = verdict else {
        return String::from_str(heap, "rejected");
    };
    let mut text = hex::encode_upper(heap, accepted.information)?;
    if accepted.corrected {
        text.push_str(" corrected")?;
    }
    Ok(text)
}

fn answer(heap: Global, line: &str) -> Result<String, AllocError> {
    match Question::read(line) {
        Some(question) => question.answer(heap),
        None => String::from_str(heap, "unreadable"),
    }
}

// Prints the answer to each line.
fn print_answers<R: Read + Drop>(rt: &(impl Print + AllocGlobal), input: R) -> Result<(), Failure> {
    let heap = rt.alloc();
    for line in BufReader::new(heap, input)?.lines(heap) {
        rt.println(answer(heap, line?.as_str())?)?;
    }
    Ok(())
}

fn work<R>(rt: &R, matches: &ArgMatches<'_>) -> Result<(), Failure>
where
    R: Print + Input + Files + AllocGlobal,
{
    match named_file(matches) {
        Some(name) => print_answers(rt, opened(rt, name)?),
        None => print_answers(rt, rt.reader()),
    }
}

const NAME: &str = "outside_vectors";

const LINES: &str = "\
Each line has hexadecimal digits of either case, and is answered by one line:

  code DIGITS   seven octets of information: codeblock, and the octets of their codeblock
  word DIGITS   eight octets as received: syndrome, its parity and its number; place, the degree at
                which a bit is wrong, or -; and for each mode rejected, or the information, behind
                which stands corrected where a bit was turned
  any other     unreadable";

fn command<'a>(heap: Global) -> Result<Command<'a>, AllocError> {
    program(heap, NAME)
        .about(
            "outside_vectors: codeblocks and verdicts, to be compared with those of another encoder",
        )
        .after_help(LINES)
        .arg(input_file(heap))
}

fn main(rt: HostRuntime) -> ExitCode {
    let words = words(&rt);
    run(
        &rt,
        NAME,
        command(rt.alloc()),
        &words,
        |matches| work(&rt, matches),
    )
}
