ghost use Rattle.std.specs.Prelude.{◌≡◌, ◌^◌, ◌<◌, ◌≤◌};
ghost use Rattle.reception.specs.Decoding.{abandoning, report, ends, closing, counting_in, decoded};
ghost use Rattle.cltu.specs.Limit.{most_codeblocks};
ghost use Rattle.decoding.specs.Meaning.{rules_of, held_in};
ghost use Rattle.decoding.specs.Counts.{counted_as, CountsFew};

use crate::settings::Settings;
use bch::Accepted;
use coding::judge;
use hold::Hold;
use reception::{Reason, Report};
use std::ops::ControlFlow;

/// What was read behind a start: the symbols of a codeblock so far, and what is to be told of the candidate.
#[derive(Clone, Copy)]
pub struct Decoding {
    // The symbols of the codeblock, the first of them highest.
    pub(crate) word: u64,
    // How many of them there are.
    pub(crate) count: u8,
    // How many codeblocks were added to the candidate.
    pub(crate) codeblocks: u8,
    // How many of these were corrected.
    pub(crate) corrections: u8,
    ghost unfinished: { count < 64 },
    ghost few_bits: { word < 2 ^ count },
    ghost few: { codeblocks ≤ most_codeblocks },
    ghost among: { corrections ≤ codeblocks },
}

impl Decoding {
    ghost use Rattle.std.specs.Prelude.{◌+◌, ◌*◌};
    ghost use Rattle.reception.specs.Symbols.{bit_value};
    ghost use Rattle.reception.specs.Decoding.{opening, begun, read_symbol};
    ghost use Rattle.reception.specs.declared.Reason.TheVariants.{Down as down};
    ghost use Rattle.decoding.specs.Outcomes.{reading_in, decoded_as};

    /// Begins a candidate in the hold, behind a start sequence: nothing is read yet. Where a candidate is open it
    /// stays open, and what is accepted is added to it; the counts begin at 0 all the same.
    pub fn begin<H: Hold>(hold: &mut H) -> Decoding
        ensures reading { reading_in result ≡ begun }
        ensures held { held_in H.Hold hold.new ≡ opening (held_in H.Hold hold.old) }
    {
        // Refused where one is open, which stays open then.
        let _ = hold.open();
        Decoding {
            count: 0,
            word: 0,
            codeblocks: 0,
            corrections: 0,
        }
    }

    /// One symbol more, by the settings in force. The 64th of a codeblock has it judged. Decoding goes on, or
    /// breaks off with a report: the candidate is finished or abandoned.
    pub fn symbol<H: Hold>(
        self,
        hold: &mut H,
        settings: Settings,
        bit: bool,
    ) -> ControlFlow<Report, Decoding>
        ensures { decoded_as result (held_in H.Hold hold.new)
            ≡ read_symbol (rules_of settings) H.Hold.showing (held_in H.Hold hold.old) (reading_in self) bit }
    {
        let word = self.word_with(bit);
        if self.count < 63 {
            return ControlFlow::Continue(Decoding {
                count: self.count + 1,
                word,
                codeblocks: self.codeblocks,
                corrections: self.corrections,
            });
        }
        let (codeblocks, corrections) = decode(
            hold,
            settings,
            self.codeblocks,
            self.corrections,
            word,
        )?;
        ControlFlow::Continue(Decoding {
            count: 0,
            word: 0,
            codeblocks,
            corrections,
        })
    }

    /// The carrier went down: the candidate is abandoned.
    pub fn lose_carrier<H: Hold>(self, hold: &mut H) -> Report
        ensures report { result ≡ report down (reading_in self).codeblocks (reading_in self).corrections }
        ensures held { held_in H.Hold hold.new ≡ abandoning (held_in H.Hold hold.old) }
    {
        abandon(hold, Reason::Down, self.codeblocks, self.corrections)
    }

    // The symbols of the codeblock with one more.
    fn word_with(self, bit: bool) -> u64
        ensures { result ≡ 2 * self.word + bit_value bit }
    {
        (self.word << 1) | u64::from(bit)
    }
}

// What is told of a candidate when it ends.
fn report(reason: Reason, codeblocks: u8, corrections: u8) -> Report
    ensures { result ≡ report reason codeblocks corrections }
{
    Report {
        reason,
        codeblocks: usize::from(codeblocks),
        corrections: usize::from(corrections),
    }
}

// The candidate is abandoned, for this reason. Refused where none is open, and then there is none to abandon.
fn abandon<H: Hold>(hold: &mut H, reason: Reason, codeblocks: u8, corrections: u8) -> Report
    ensures report { result ≡ report reason codeblocks corrections }
    ensures held { held_in H.Hold hold.new ≡ abandoning (held_in H.Hold hold.old) }
{
    let _ = hold.abandon();
    report(reason, codeblocks, corrections)
}

// Judges 64 symbols, behind so many codeblocks and corrections.
// Not inlined, since it is for one symbol in 64, and passed numbers: the others then stay in registers.
#[inline(never)]
fn decode<H: Hold>(
    hold: &mut H,
    settings: Settings,
    codeblocks: u8,
    corrections: u8,
    word: u64,
) -> ControlFlow<Report, (u8, u8)>
    requires { (codeblocks ≤ most_codeblocks) × (corrections ≤ codeblocks) }
    ensures decoded { counted_as result (held_in H.Hold hold.new)
        ≡ decoded (rules_of settings) H.Hold.showing (held_in H.Hold hold.old) codeblocks corrections word }
    ensures few { CountsFew result }
{
    match judge(settings.mode, word) {
        None => ControlFlow::Break(close(hold, codeblocks, corrections)),
        Some(accepted) => count_in(hold, settings, codeblocks, corrections, accepted),
    }
}

// A rejected codeblock: the candidate is finished or, where nothing was added to it, abandoned.
fn close<H: Hold>(hold: &mut H, codeblocks: u8, corrections: u8) -> Report
    ensures { ends (held_in H.Hold hold.new) result ≡ closing (held_in H.Hold hold.old) codeblocks corrections }
{
    if codeblocks == 0 {
        abandon(hold, Reason::Empty, codeblocks, corrections)
    } else {
        let _ = hold.finish();
        report(Reason::Closed, codeblocks, corrections)
    }
}

// An accepted codeblock: it is added, unless as many as the limit are or the hold is full.
fn count_in<H: Hold>(
    hold: &mut H,
    settings: Settings,
    codeblocks: u8,
    corrections: u8,
    accepted: Accepted,
) -> ControlFlow<Report, (u8, u8)>
    requires { (codeblocks ≤ most_codeblocks) × (corrections ≤ codeblocks) }
    ensures counted { counted_as result (held_in H.Hold hold.new)
        ≡ counting_in (rules_of settings) H.Hold.showing (held_in H.Hold hold.old)
        codeblocks corrections accepted.information accepted.corrected }
    ensures few { CountsFew result }
{
    let reason = if usize::from(codeblocks) >= settings.limit.count() {
        Reason::Long
    } else if (*hold).free_space() == 0 {
        Reason::Full
    } else {
        let _ = hold.add(accepted.information);
        return ControlFlow::Continue((codeblocks + 1, corrections + u8::from(accepted.corrected)));
    };
    ControlFlow::Break(abandon(hold, reason, codeblocks, corrections))
}
