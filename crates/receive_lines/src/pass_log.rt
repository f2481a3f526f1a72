use crate::error::one_more;
use crate::{Place, ReceivingError, View};
use hex::encode_upper;
use hold::Hold;
use receiver::Receiver;
use reception::Report;
use std::alloc::{AllocError, Global};

// What is written of a pass so far, and how many reports and frames it has.
#[derive(Drop)]
pub(crate) struct PassLog {
    heap: Global,
    pub(crate) view: View,
    pub(crate) text: String,
    pub(crate) reports: u64,
    pub(crate) frames: u64,
}

impl PassLog {
    ghost use Rattle.std.specs.Prelude.{◌≡◌, [], ◌∷◌, ◌++◌, IfOk, OnOk, string_bytes};
    ghost use Rattle.receiver.specs.Meaning.{held_by};
    ghost use Rattle.receive_lines.specs.Lines.{told_at, report_line, frame_line, last_line};
    ghost use Rattle.receive_lines.specs.Releasing.{oldest_line, Writes};

    pub(crate) fn new(heap: Global, view: View) -> PassLog
        ensures view { result.view ≡ view }
        ensures text { string_bytes result.text ≡ [] }
        ensures reports { result.reports ≡ 0 }
        ensures frames { result.frames ≡ 0 }
    {
        PassLog {
            heap,
            view,
            text: String::new(heap),
            reports: 0,
            frames: 0,
        }
    }

    // Writes the lines for a report.
    pub(crate) fn write_report(
        &mut self,
        place: Place,
        report: Report,
    ) -> Result<(), ReceivingError>
        ensures { OnOk result (Writes (report_line (told_at place report) ∷ []) self.old self.new) }
    {
        self.reports = one_more(self.reports)?;
        let Place { segment, symbol } = place;
        match self.view {
            View::Plain => writeln!(self.text, "{report}")?,
            View::Places => writeln!(self.text, "at {segment} {symbol}\n{report}")?,
            View::Candidates => {}
        }
        Ok(())
    }

    // Writes the line for a candidate.
    pub(crate) fn write_frame(&mut self, octets: &[u8]) -> Result<(), ReceivingError>
        ensures { OnOk result (Writes (frame_line octets.now ∷ []) self.old self.new) }
    {
        self.frames = one_more(self.frames)?;
        let count = octets.len();
        let digits = encode_upper(self.heap, octets)?;
        match self.view {
            View::Plain | View::Places => writeln!(self.text, "frame {count} {digits}")?,
            View::Candidates => writeln!(self.text, "{digits}")?,
        }
        Ok(())
    }

    // Writes the line for the oldest finished candidate.
    pub(crate) fn write_oldest<H: Hold>(
        &mut self,
        receiver: &Receiver<H>,
    ) -> Result<(), ReceivingError>
        ensures { OnOk result (Writes (oldest_line (held_by H.Hold receiver.now).finished) self.old self.new) }
    {
        if let Ok(octets) = receiver.oldest_length() {
            let mut memory = vec![in self.heap; 0u8; octets]?;
            let _ = receiver.copy_oldest(memory.as_mut_slice());
            self.write_frame(memory.as_slice())?;
        }
        Ok(())
    }

    // The text, with its last line.
    pub(crate) fn into_text(mut self) -> Result<String, AllocError>
        ensures { IfOk result (λ s. string_bytes s
            ≡ string_bytes self.text ++ last_line self.view self.reports self.frames) }
    {
        let (reports, frames) = (self.reports, self.frames);
        match self.view {
            View::Plain | View::Places => writeln!(self.text, "end {reports} {frames}")?,
            View::Candidates => {}
        }
        let PassLog { text, .. } = self;
        Ok(text)
    }
}
