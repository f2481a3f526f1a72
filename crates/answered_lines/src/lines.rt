//! The lines of an input, answered one after the other.

ghost use Rattle.std.specs.Prelude.{◌≡◌, [], ◌∷◌, ◌++◌, IfOk, OnOk, string_bytes};
ghost use Rattle.answered_lines.specs.Lines.{LinesEnd};
ghost use Rattle.answered_lines.specs.Printed.{end_line};
ghost use Rattle.answered_lines.specs.Taken.{waiting, answering_of, Reads, HasTaken, Takes, AnswersWhatIsRead, TellsWhatIsRead, EndsWith, PrintsToTheEnd};

use crate::Answering;
use hexadecimal::DigitReader;
use std::alloc::{AllocError, Global};
use thiserror::Error;

/// Why lines are not answered any further.
#[derive(Debug, Drop, Error)]
pub enum LinesError {
    /// There is no memory.
    #[error(transparent)]
    Memory(#[from(alloc)] AllocError),
    /// A count does not fit into 64 bits.
    #[error("more than 64 bits can count")]
    Count,
}

/// The octet of an input that came last.
#[derive(Clone, Copy, Debug)]
enum Last {
    /// A newline, or none has come: no line is open.
    Newline,
    /// A carriage return, which is not read: it is of the line's end if a newline comes.
    CarriageReturn,
    /// Another, which is read.
    Other,
}

/// Takes the octets of an input as they come, and answers each line. A line ends with a newline, or a carriage
/// return and a newline; the last may lack its end. A line that is not whole octets of hexadecimal digits is
/// answered by `unreadable`. Of a line only the octets that its answer takes notice of are kept.
#[derive(Drop)]
pub struct AnsweredLines<A> {
    answering: A,
    reader: DigitReader,
    last: Last,
    lines: u64,
    counted: u64,
}

impl<A: Answering> AnsweredLines<A> {
    /// The lines of an input of which nothing has come.
    #[tactic(auto, using(crate::proofs::LinesOf::lines_end))]
    pub fn new(heap: Global, answering: A) -> Self
        ensures answering { answering_of result ≡ answering }
        ensures taken { HasTaken A.meaning result [] [] }
        ensures lines { LinesEnd }
    {
        let most = answering.most_octets();
        AnsweredLines {
            answering,
            reader: DigitReader::new(heap, most),
            last: Last::Newline,
            lines: 0,
            counted: 0,
        }
    }

    /// Takes further octets of the input, and writes the answers of the lines that end in them behind the text.
    pub fn take(&mut self, heap: Global, octets: &[u8], text: &mut String) -> Result<(), LinesError>
        ensures answering { answering_of self.new ≡ answering_of self.old }
        ensures taken { OnOk result (Takes A.meaning self.old self.new octets.now
            (string_bytes text.old) (string_bytes text.new)) }
    {
        for octet in octets {
            self.take_octet(heap, *octet, text)?;
        }
        Ok(())
    }

    /// At the end of the input: writes the answer of the last line behind the text, if that lacks its end, and
    /// then the line `end` with how many lines there were and what they counted.
    pub fn end(mut self, heap: Global, text: &mut String) -> Result<(), LinesError>
    where
        A: Drop,
        ensures { OnOk result (PrintsToTheEnd A.meaning self (string_bytes text.old) (string_bytes text.new)) }
    {
        self.end_last_line(heap, text)?;
        write_end(self.lines, self.counted, text)?;
        Ok(())
    }

    // Takes one octet.
    fn take_octet(&mut self, heap: Global, octet: u8, text: &mut String) -> Result<(), LinesError>
        ensures answering { self.new.answering ≡ self.old.answering }
        ensures taken { OnOk result (Takes A.meaning self.old self.new (octet ∷ [])
            (string_bytes text.old) (string_bytes text.new)) }
    {
        if octet == b'\n' {
            self.answer_line(heap, text)?;
            return Ok(());
        }
        self.read_return()?;
        if octet == b'\r' {
            self.last = Last::CarriageReturn;
        } else {
            self.reader.read(octet)?;
            self.last = Last::Other;
        }
        Ok(())
    }

    // Reads the carriage return that waits, if one does: it is of the line, since no newline came.
    fn read_return(&mut self) -> Result<(), AllocError>
        ensures read { OnOk result (Reads (waiting self.old.last) self.old.reader self.new.reader) }
        ensures same { self.new ≡ record self.old { reader = self.new.reader } }
    {
        if let Last::CarriageReturn = self.last {
            self.reader.read(b'\r')?;
        }
        Ok(())
    }

    // Answers what is read as a line, and opens none.
    fn answer_line(&mut self, heap: Global, text: &mut String) -> Result<(), LinesError>
        ensures answering { self.new.answering ≡ self.old.answering }
        ensures line { OnOk result (AnswersWhatIsRead A.meaning self.old self.new
            (string_bytes text.old) (string_bytes text.new)) }
    {
        let counted = self.write_answer(heap, text)?;
        self.lines = self.lines.checked_add(1).ok_or(LinesError::Count)?;
        self.counted = self
            .counted
            .checked_add(counted as u64)
            .ok_or(LinesError::Count)?;
        self.reader.clear();
        self.last = Last::Newline;
        Ok(())
    }

    // Writes the answer to what is read, and tells what it counts.
    fn write_answer(&self, heap: Global, text: &mut String) -> Result<usize, AllocError>
        ensures { IfOk result (TellsWhatIsRead A.meaning self.now (string_bytes text.old) (string_bytes text.new)) }
    {
        match self.reader.octets() {
            Some(octets) => {
                let answer = self.answering.answer(heap, octets)?;
                text.push_str(answer.text.as_str())?;
                Ok(answer.counted)
            }
            None => {
                text.push_str("unreadable\n")?;
                Ok(0)
            }
        }
    }

    // Answers the line that is open, if one is.
    fn end_last_line(&mut self, heap: Global, text: &mut String) -> Result<(), LinesError>
        ensures answering { self.new.answering ≡ self.old.answering }
        ensures done { OnOk result (EndsWith A.meaning self.old self.new
            (string_bytes text.old) (string_bytes text.new)) }
    {
        if let Last::Newline = self.last {
            return Ok(());
        }
        self.read_return()?;
        self.answer_line(heap, text)?;
        Ok(())
    }
}

// Writes the line that tells how many lines there were and what they counted.
fn write_end(lines: u64, counted: u64, text: &mut String) -> Result<(), AllocError>
    ensures { OnOk result (string_bytes text.new ≡ string_bytes text.old ++ end_line lines counted) }
{
    writeln!(text, "end {lines} {counted}")?;
    Ok(())
}
