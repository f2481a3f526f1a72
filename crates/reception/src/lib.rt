//! Reception on paper: the rules by which a receiver goes from symbols to candidates, in `specs/`,
//! and what holds of every run of them.
#![tactic(auto)]

ghost use Rattle.std.specs.Prelude.{◌≡◌, Some};
ghost use Rattle.cltu.specs.Limit.{codeblocks_allowed};
ghost use Rattle.hold.specs.Candidates.{Showing};
ghost use Rattle.reception.specs.Reports.{reason_number, reason_word, report_text};
ghost use Rattle.reception.specs.Decoding.{settings};
ghost use Rattle.reception.specs.Runs.{recovery_bits};
ghost use Rattle.reception.specs.Promise.{Promise};

use bch::Mode;
use cltu::CodeblockLimit;
use std::fmt;

/// Why a candidate ended.
#[derive(Clone, Copy, Debug, PartialEq, Eq)]
pub enum Reason {
    /// A codeblock was rejected after at least one was accepted: the candidate is finished.
    Closed = 1,
    /// The first codeblock was rejected.
    Empty = 2,
    /// A codeblock was accepted when as many as the limit already were.
    Long = 3,
    /// The hold had no free space for an accepted codeblock.
    Full = 4,
    /// The carrier went down.
    Down = 5,
}

impl Reason {
    /// The number of the reason.
    pub fn number(self) -> u8
        ensures { result ≡ reason_number self }
    {
        self as u8
    }
}

/// The reason in a word, as `closed`.
impl fmt::Display for Reason {
    ghost output = { λ reason. Some (reason_word reason) };

    fn fmt<W: fmt::Write>(&self, f: &mut fmt::Formatter<W>) -> fmt::Result {
        f.write_str(match self {
            Reason::Closed => "closed",
            Reason::Empty => "empty",
            Reason::Long => "long",
            Reason::Full => "full",
            Reason::Down => "down",
        })
    }
}

/// What a receiver tells of a candidate that ended.
#[derive(Clone, Copy, Debug, PartialEq, Eq)]
pub struct Report {
    /// Why it ended.
    pub reason: Reason,
    /// How many codeblocks were added to it.
    pub codeblocks: usize,
    /// How many of those were corrected.
    pub corrections: usize,
}

impl Report {
    /// A report to make memory for a queue of.
    pub const UNUSED: Report = Report {
        reason: Reason::Empty,
        codeblocks: 0,
        corrections: 0,
    };
}

/// The reason, the codeblocks and the corrections, as `closed 3 1`.
impl fmt::Display for Report {
    ghost output = { λ report. Some (report_text report) };

    fn fmt<W: fmt::Write>(&self, f: &mut fmt::Formatter<W>) -> fmt::Result {
        write!(
            f,
            "{} {} {}",
            self.reason, self.codeblocks, self.corrections
        )
    }
}

/// How many idle bits bring a receiver with these settings back to SEARCH, whatever it received
/// before: the guard time between commands, in bits. The idle may begin with either bit.
pub fn recovery_bits(mode: Mode, limit: CodeblockLimit) -> usize
    ensures value { result ≡ recovery_bits mode (codeblocks_allowed limit) }
    ensures promise { (showing : Showing) → Promise (settings mode (codeblocks_allowed limit)) showing }
{
    match mode {
        Mode::Correcting => 64 * limit.count() + 67,
        Mode::Detecting => 127,
    }
}
