ghost use Rattle.std.specs.Prelude.{IfOk, OnOk};
ghost use Rattle.std.specs.Io.KnownBytes.{Appends};
ghost use Rattle.drive_lines.specs.Driving.{PrintsAll};
ghost use Rattle.drive_lines.specs.Reads.{ReadsLine};

use crate::Driving;
use anyhow::anyhow;
use hold::Hold;
use receiver::Receiver;
use std::alloc::Global;
use std::io;
use std::io::{BufRead, Write};

/// Drives a receiver by the lines of an input to its end, with a queue of so many slots for the reports of a line,
/// and prints the answer to each as soon as it is there, then the line `end` with how many lines were answered and
/// how many reports printed.
pub fn drive<H: Hold + Drop, R: BufRead, W: Write>(
    heap: Global,
    receiver: Receiver<H>,
    slots: u16,
    input: &mut R,
    output: &mut W,
) -> anyhow::Result<()>
    ensures { OnOk result (PrintsAll H.Hold slots receiver (R.remaining input.old) (R.remaining input.new)
        (W.contents output.old) (W.contents output.new)) }
{
    let mut driving = Driving::new(receiver, slots);
    let mut line = Vec::new(heap);
    let mut text = String::new(heap);
    for _ in 0..u64::MAX {
        let more = read_line(input, &mut line)?;
        text.clear();
        driving.answer_line(heap, line.as_slice(), &mut text)?;
        if !more {
            driving.end(&mut text)?;
            return Ok(print(output, text.as_bytes())?);
        }
        print(output, text.as_bytes())?;
    }
    Err(anyhow!("the input has no end"))
}

// Reads a line, which its newline is not part of, and answers whether there was a newline: where there was none,
// the input is at its end.
fn read_line<R: BufRead>(input: &mut R, line: &mut Vec<u8>) -> io::Result<bool>
    ensures { IfOk result (ReadsLine (R.remaining input.old) (R.remaining input.new) line.new.items) }
{
    line.clear();
    input.read_until(b'\n', line)?;
    if line.last() != Some(&b'\n') {
        return Ok(false);
    }
    line.pop();
    Ok(true)
}

// Writes octets, so that they are there to be read.
fn print<W: Write>(output: &mut W, octets: &[u8]) -> io::Result<()>
    ensures { OnOk result (Appends (W.contents output.old) (W.contents output.new) octets.now) }
{
    output.write_all(octets)?;
    output.flush()
}
