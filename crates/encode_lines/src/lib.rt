//! What the program `encode` answers a frame with, as a line, and the whole of it but for its arguments.
#![tactic(auto)]

ghost use Rattle.std.specs.Prelude.{◌≡◌, IfOk, OnOk, Some};
ghost use Rattle.answered_lines.specs.Printing.{PrintsAll};
ghost use Rattle.encode_lines.specs.Lines.{Answers, IsNeverTooShort, answer_text, encode_meaning, outcome, cltus};
ghost use Rattle.encode_lines.specs.TooLong.{further_octets};

use answered_lines::{Answer, Answering, print_answers};
use bch::INFORMATION_OCTETS;
use cltu::{LONGEST_CLTU, LONGEST_FRAME, Sender, codeblocks_for};
use refusals::Refusal;
use std::alloc::{AllocError, Global};
use std::fmt;
use std::io::{Read, Write};

/// The answer to a frame. It prints as a line, without its end.
#[derive(Debug, Drop)]
pub enum FrameAnswer {
    /// The CLTU of the frame.
    Cltu {
        /// How many codeblocks it has.
        codeblocks: usize,
        /// How many octets of fill it has.
        fill: usize,
        /// How many octets it has.
        octets: usize,
        /// Its octets in capital hexadecimal digits.
        digits: String,
    },
    /// The sender refuses the frame.
    Refused(Refusal),
}

impl fmt::Display for FrameAnswer {
    ghost output = { λ answer. Some (answer_text answer) };

    fn fmt<W: fmt::Write>(&self, f: &mut fmt::Formatter<W>) -> fmt::Result {
        match self {
            FrameAnswer::Cltu {
                codeblocks,
                fill,
                octets,
                digits,
            } => write!(f, "cltu {codeblocks} {fill} {octets} {digits}"),
            FrameAnswer::Refused(refusal) => write!(f, "{refusal}"),
        }
    }
}

impl FrameAnswer {
    // How many CLTUs it tells.
    fn cltus(&self) -> usize
        ensures { result ≡ cltus (outcome self.now) }
    {
        match self {
            FrameAnswer::Cltu { .. } => 1,
            FrameAnswer::Refused(_) => 0,
        }
    }
}

/// The answer to a frame: the CLTU that the sender makes of it, or why the sender refuses it. The number is
/// always 1: 2, memory too short, never comes.
#[tactic(auto, using(crate::proofs::Memory::in_the_memory))]
pub fn frame_answer(heap: Global, sender: Sender, frame: &[u8]) -> Result<FrameAnswer, AllocError>
    ensures answer { IfOk result (λ a. Answers sender frame.now a) }
    ensures memory { IfOk result IsNeverTooShort }
{
    let mut memory = [0u8; LONGEST_CLTU];
    match sender.write_cltu(frame, &mut memory) {
        Ok(octets) => {
            let codeblocks = codeblocks_for(frame.len());
            Ok(FrameAnswer::Cltu {
                codeblocks,
                fill: INFORMATION_OCTETS * codeblocks - frame.len(),
                octets,
                digits: hex::encode_upper(heap, &memory[..octets])?,
            })
        }
        Err(refusal) => Ok(FrameAnswer::Refused(refusal)),
    }
}

/// What answers the lines of the program `encode`: each is a frame for this sender. A frame is answered by `cltu`
/// with the count of codeblocks, of fill octets and of octets, and the octets, which counts as one; or by
/// `refused` and the number, which counts as none.
#[derive(Clone, Copy, Debug)]
pub struct EncodeLines {
    /// The sender of the frames.
    pub sender: Sender,
}

impl Answering for EncodeLines {
    ghost meaning = { λ lines. encode_meaning lines.sender };

    fn most_octets(&self) -> Option<usize> {
        Some(LONGEST_FRAME + 1)
    }

    fn answer(&self, heap: Global, octets: &[u8]) -> Result<Answer, AllocError> {
        let answer = frame_answer(heap, self.sender, octets)?;
        Ok(Answer {
            text: format!(in heap; "{answer}\n")?,
            counted: answer.cltus(),
        })
    }

    ghost further_octets_change_nothing = { λ lines. further_octets lines.sender };
}

/// Reads lines to the end of the input and prints what this sender answers each with, then the line `end` with how
/// many lines there were and how many CLTUs.
pub fn print_cltus<R: Read, W: Write>(
    heap: Global,
    sender: Sender,
    input: &mut R,
    output: &mut W,
) -> anyhow::Result<()>
    ensures { OnOk result (PrintsAll (encode_meaning sender) (R.remaining input.old) (R.remaining input.new)
        (W.contents output.old) (W.contents output.new)) }
{
    print_answers(heap, EncodeLines { sender }, input, output)
}

#[cfg(test)]
mod tests {
    use super::*;
    use cltu::CodeblockLimit;
    use randomizer::Randomizer;
    use std::test::Fail;

    #[test]
    fn randomizer_and_limit(rt: HostRuntime) -> Result<(), Fail> {
        let heap = rt.alloc();
        let random = EncodeLines {
            sender: Sender {
                limit: CodeblockLimit::most(),
                randomizer: Randomizer::On,
            },
        };
        let answer = random.answer(heap, &[0])?;
        assert_eq!(rt;
            answer.text.as_str(),
            "cltu 1 6 18 EB90FF6CCB0F3DBC5330C5C5C5C5C5C5C579\n"
        );
        assert_eq!(rt; answer.counted, 1);
        let small = EncodeLines {
            sender: Sender {
                limit: CodeblockLimit::try_from(1usize)?,
                randomizer: Randomizer::Off,
            },
        };
        let answer = small.answer(heap, &[1, 2, 3, 4, 5, 6, 7, 8])?;
        assert_eq!(rt; answer.text.as_str(), "refused 1\n");
        assert_eq!(rt; answer.counted, 0);
        Ok(())
    }
}
