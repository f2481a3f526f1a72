//! What the program `frames` answers a candidate with, as lines, and the whole of it but for its arguments.
#![tactic(auto)]

ghost use Rattle.std.specs.Prelude.{◌+◌, ◌<◌, ◌^◌, [], IfOk, OnOk};
ghost use Rattle.answered_lines.specs.Answers.{Tells};
ghost use Rattle.answered_lines.specs.Printing.{PrintsAll};
ghost use Rattle.cutting.specs.Cutting.{cutting};
ghost use Rattle.cutting.specs.Items.{part_of};
ghost use Rattle.frames_lines.specs.Lines.{part_line, refusal_line, cutting_lines, counts_as, frames_in, frames_meaning, further_octets};
ghost use Rattle.frames_lines.specs.Answers.{Writes};

use answered_lines::{Answer, Answering, print_answers};
use cutting::{Cutter, Item};
use refusals::Refusal;
use std::alloc::{AllocError, Global};
use std::io::{Read, Write};

/// What answers the lines of the program `frames`: each is a candidate. For each item of it there is a line:
/// `frame` with its place, how many octets it has and these in capital hexadecimal digits, or `fill` with its
/// place and how many octets it has. Where cutting is refused, `refused 9` and the place come behind the items
/// before it. The frames are counted.
#[derive(Clone, Copy, Debug)]
pub struct FramesLines;

impl Answering for FramesLines {
    ghost meaning = { λ _. frames_meaning };

    fn most_octets(&self) -> Option<usize> {
        None
    }

    fn answer(&self, heap: Global, octets: &[u8]) -> Result<Answer, AllocError> {
        candidate_answer(heap, octets)
    }

    ghost further_octets_change_nothing = { λ _. further_octets };
}

/// Reads lines to the end of the input and prints the items of each candidate, then the line `end` with how many
/// lines there were and how many frames.
pub fn print_items<R: Read, W: Write>(
    heap: Global,
    input: &mut R,
    output: &mut W,
) -> anyhow::Result<()>
    ensures { OnOk result (PrintsAll frames_meaning (R.remaining input.old) (R.remaining input.new)
        (W.contents output.old) (W.contents output.new)) }
{
    print_answers(heap, FramesLines, input, output)
}

// The answer to a candidate.
fn candidate_answer(heap: Global, candidate: &[u8]) -> Result<Answer, AllocError>
    ensures { IfOk result (Tells (cutting_lines (cutting candidate.now)) (frames_in (cutting candidate.now).parts)) }
{
    let mut answer = Answer {
        text: String::new(heap),
        counted: 0,
    };
    let mut cutter = Cutter::new(candidate);
    loop {
        match cutter.next_item() {
            Ok(Some(item)) => write_item(heap, item, &mut answer)?,
            Ok(None) => return Ok(answer),
            Err(refusal) => {
                write_refusal(refusal, &mut answer)?;
                return Ok(answer);
            }
        }
    }
}

// Writes the line of an item.
fn write_item(heap: Global, item: Item<'_>, answer: &mut Answer) -> Result<(), AllocError>
    requires { answer.old.counted + 1 < 2 ^ 64 }
    ensures { OnOk result (Writes (part_line (part_of item.entry)) (counts_as (part_of item.entry).kind)
        answer.old answer.new) }
{
    match item {
        Item::Frame { place, octets } => {
            let count = octets.len();
            let digits = hex::encode_upper(heap, octets)?;
            writeln!(answer.text, "frame {place} {count} {digits}")?;
            answer.counted += 1;
        }
        Item::Fill { place, octets } => {
            let count = octets.len();
            writeln!(answer.text, "fill {place} {count}")?;
        }
    }
    Ok(())
}

// Writes the line of a refusal, with the place where it arose.
fn write_refusal(refusal: Refusal, answer: &mut Answer) -> Result<(), AllocError>
    ensures { OnOk result (Writes (refusal_line refusal) 0 answer.old answer.new) }
{
    if let Refusal::NeitherFrameNorFill(place) = refusal {
        writeln!(answer.text, "{refusal} {place}")?;
    } else {
        writeln!(answer.text, "{refusal}")?;
    }
    Ok(())
}

#[cfg(test)]
mod tests {
    use super::*;
    use std::io::{Error, ErrorKind, Result as IoResult};
    use std::test::Fail;

    // Gives its octets one by one, and then, if it breaks, an error.
    #[derive(Drop)]
    struct Drops<'a> {
        octets: &'a [u8],
        breaks: bool,
    }

    impl Read for Drops<'_> {
        fn read(&mut self, buf: &mut [u8]) -> IoResult<usize> {
            if self.breaks && self.octets.is_empty() {
                return Err(Error::from(ErrorKind::BrokenPipe));
            }
            let few = buf.len().min(1);
            self.octets.read(&mut buf[..few])
        }
    }

    #[test]
    fn lines_in_pieces(rt: HostRuntime) -> Result<(), Fail> {
        let octets = b"00010004005555\r\n00G1\n\r\n55\r";
        let text = "frame 0 5 0001000400\nfill 5 2\nunreadable\nunreadable\nend 4 1\n";
        let mut whole = octets.as_slice();
        let mut written = Vec::new(rt.alloc());
        print_items(rt.alloc(), &mut whole, &mut written)?;
        assert_eq!(rt; written.as_slice(), text.as_bytes());
        let mut drops = Drops {
            octets,
            breaks: false,
        };
        let mut written = Vec::new(rt.alloc());
        print_items(rt.alloc(), &mut drops, &mut written)?;
        assert_eq!(rt; written.as_slice(), text.as_bytes());
        Ok(())
    }

    #[test]
    fn no_end_behind_an_error(rt: HostRuntime) -> Result<(), Fail> {
        let mut drops = Drops {
            octets: b"G\n55",
            breaks: true,
        };
        let mut written = Vec::new(rt.alloc());
        assert!(rt; print_items(rt.alloc(), &mut drops, &mut written).is_err());
        assert_eq!(rt; written.as_slice(), b"unreadable\n".as_slice());
        Ok(())
    }

    #[test]
    fn items_and_refusals(rt: HostRuntime) -> Result<(), Fail> {
        let answer = FramesLines.answer(rt.alloc(), &[0, 1, 0, 4, 0xAB, 0, 1, 0, 4, 0, 0x55])?;
        assert_eq!(rt;
            answer.text.as_str(),
            "frame 0 5 00010004AB\nframe 5 5 0001000400\nfill 10 1\n"
        );
        assert_eq!(rt; answer.counted, 2);
        let answer = FramesLines.answer(rt.alloc(), &[0, 1, 0, 4, 0, 0, 1, 0, 7, 0, 0, 0])?;
        assert_eq!(rt; answer.text.as_str(), "frame 0 5 0001000400\nrefused 9 5\n");
        assert_eq!(rt; answer.counted, 1);
        Ok(())
    }

    #[test]
    fn no_item(rt: HostRuntime) -> Result<(), Fail> {
        let answer = FramesLines.answer(rt.alloc(), &[])?;
        assert_eq!(rt; answer.text.as_str(), "");
        assert_eq!(rt; answer.counted, 0);
        Ok(())
    }
}
