//! Programs that read lines of hexadecimal digits and answer each: what answers the octets of a line, the lines
//! of an input with what they count, and the loop that reads and prints.
#![tactic(auto)]

ghost use Rattle.std.specs.Prelude.{OnOk};
ghost use Rattle.answered_lines.specs.Printing.{PrintsAll};

mod answering;
mod lines;

pub use answering::{Answer, Answering};
use anyhow::anyhow;
pub use lines::{AnsweredLines, LinesError};
use std::alloc::Global;
use std::io::{ErrorKind, Read, Write};

// How many octets are read at once, at most.
const PIECE: usize = 8192;

/// Reads lines to the end of the input and prints the answer of each, then the line that tells how many lines
/// there were and what they count. However the input comes, what is printed is the text for all of its octets.
pub fn print_answers<A: Answering, R: Read, W: Write>(
    heap: Global,
    answering: A,
    input: &mut R,
    output: &mut W,
) -> anyhow::Result<()>
where
    A: Drop,
    ensures { OnOk result (PrintsAll (A.meaning answering) (R.remaining input.old) (R.remaining input.new)
        (W.contents output.old) (W.contents output.new)) }
{
    let mut lines = AnsweredLines::new(heap, answering);
    let mut piece = vec![in heap; 0u8; PIECE]?;
    let mut text = String::new(heap);
    for _ in 0..u64::MAX {
        let count = match input.read(piece.as_mut_slice()) {
            Ok(count) => count,
            Err(e) if e.kind() == ErrorKind::Interrupted => continue,
            Err(e) => return Err(e.into()),
        };
        if count == 0 {
            lines.end(heap, &mut text)?;
            output.write_all(text.as_bytes())?;
            return Ok(());
        }
        lines.take(heap, &piece[..count], &mut text)?;
        output.write_all(text.as_bytes())?;
        text.clear();
    }
    Err(anyhow!("the input has no end"))
}
