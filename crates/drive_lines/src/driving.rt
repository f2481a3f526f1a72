use crate::calling::{answer, print_reports};
use crate::{Call, Line};
use hold::Hold;
use queue::Queue;
use receiver::Receiver;
use reception::Report;
use std::alloc::{AllocError, Global};
use thiserror::Error;

/// Why lines are not answered any further.
#[derive(Debug, Drop, Error)]
pub enum DrivingError {
    /// There is no memory.
    #[error(transparent)]
    Memory(#[from(alloc)] AllocError),
    /// A count does not fit into 64 bits.
    #[error("more than 64 bits can count")]
    Count,
}

/// A receiver that is driven by lines, and what was printed for them.
#[derive(Drop)]
pub struct Driving<H: Hold> {
    receiver: Receiver<H>,
    // How many slots the queue of each call has. It is made anew, since none waits between the lines.
    slots: u16,
    // How many lines were answered, and how many reports printed.
    lines: u64,
    printed: u64,
}

impl<H: Hold> Driving<H> {
    ghost use Rattle.std.specs.Prelude.{◌≡◌, ◌++◌, OnOk, string_bytes};
    ghost use Rattle.drive_lines.specs.Asked.{asks, unreadable, asked, reading};
    ghost use Rattle.drive_lines.specs.Session.{end_line};
    ghost use Rattle.drive_lines.specs.Driving.{receiver_in, slots_in, lines_in, printed_in, Answers};

    /// A receiver in any state, to be driven from now on. The reports of a line go into a queue of so many slots
    /// until they are printed behind its answer; those that find no slot are lost.
    pub fn new(receiver: Receiver<H>, slots: u16) -> Driving<H>
        ensures receiver { receiver_in result ≡ receiver }
        ensures slots { slots_in result ≡ slots }
        ensures lines { lines_in result ≡ 0 }
        ensures printed { printed_in result ≡ 0 }
    {
        Driving {
            receiver,
            slots,
            lines: 0,
            printed: 0,
        }
    }

    /// Does what a line asks for, and writes the answer to it behind the text, with a line for each report. A line
    /// that is passed over changes nothing.
    pub fn answer_line(
        &mut self,
        heap: Global,
        line: &[u8],
        text: &mut String,
    ) -> Result<(), DrivingError>
        ensures { OnOk result (Answers H.Hold (reading line.now) self.old self.new
            (string_bytes text.old) (string_bytes text.new)) }
    {
        match Line::read(heap, line)? {
            Line::PassedOver => Ok(()),
            Line::Call(call) => self.answer_call(heap, &call, text),
            Line::Unreadable => self.answer_unreadable(text),
        }
    }

    // Makes a call, and writes its answer and the reports.
    fn answer_call(
        &mut self,
        heap: Global,
        call: &Call,
        text: &mut String,
    ) -> Result<(), DrivingError>
        ensures { OnOk result (Answers H.Hold (asks (asked call.now)) self.old self.new
            (string_bytes text.old) (string_bytes text.new)) }
    {
        let mut slots = vec![in heap; Report::UNUSED; usize::from(self.slots)]?;
        let mut reports = Queue::new(slots.as_mut_slice());
        let answer = answer(heap, call, &mut self.receiver, &mut reports)?;
        writeln!(text, "{answer}")?;
        let printed = print_reports(&mut reports, text)?;
        self.lines = self.lines.checked_add(1).ok_or(DrivingError::Count)?;
        self.printed = self
            .printed
            .checked_add(printed)
            .ok_or(DrivingError::Count)?;
        Ok(())
    }

    // Writes that a line cannot be read.
    fn answer_unreadable(&mut self, text: &mut String) -> Result<(), DrivingError>
        ensures { OnOk result (Answers H.Hold unreadable self.old self.new
            (string_bytes text.old) (string_bytes text.new)) }
    {
        text.push_str("unreadable\n")?;
        self.lines = self.lines.checked_add(1).ok_or(DrivingError::Count)?;
        Ok(())
    }

    /// Writes the last line behind the text: how many lines were answered, and how many reports printed.
    pub fn end(&self, text: &mut String) -> Result<(), AllocError>
        ensures { OnOk result (string_bytes text.new
            ≡ string_bytes text.old ++ end_line (lines_in self.now) (printed_in self.now)) }
    {
        let (lines, printed) = (self.lines, self.printed);
        writeln!(text, "end {lines} {printed}")?;
        Ok(())
    }
}
