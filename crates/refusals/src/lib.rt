//! Every refusal of the channel end, as one enum. Each call has conditions on which it refuses. Where none of
//! them holds it does what it is for; where some hold it answers the lowest of their numbers and alters nothing.
#![tactic(auto)]

ghost use Rattle.std.specs.Prelude.{◌≡◌, Some};
ghost use Rattle.refusals.specs.Numbers.{refusal_number, refusal_text};

use std::error::Error;
use std::fmt;

/// Why a call was refused.
#[derive(Clone, Copy, Debug, PartialEq, Eq)]
pub enum Refusal {
    /// 1: the frame has no octet or too many, or some of its octets lie outside the caller's frame memory.
    FrameLength,
    /// 2: the result is longer than the caller's memory.
    MemoryTooShort,
    /// 3: an acquisition or idle length is outside its range.
    IdleLength,
    /// 4: the greatest count of codeblocks is outside 1 to 147.
    CodeblockLimit,
    /// 5: carrier up while the carrier is up already.
    CarrierAlreadyUp,
    /// 6: carrier down, or symbols, while the carrier is down.
    CarrierDown,
    /// 7: no finished candidate waits.
    NoCandidate,
    /// 8: an octet was asked for at or past the end of the oldest candidate.
    PastCandidateEnd,
    /// 9: cutting met neither a frame nor fill, at this place in the candidate.
    NeitherFrameNorFill(usize),
    /// 10: open while a candidate is open.
    CandidateOpen,
    /// 11: add, finish or abandon while no candidate is open.
    NoCandidateOpen,
    /// 12: add while no space is free.
    NoFreeSpace,
    /// 13: finish while the open candidate has no codeblock.
    CandidateEmpty,
    /// 14: put into a full queue.
    QueueFull,
    /// 15: take from an empty queue.
    QueueEmpty,
    /// 16: a pass record that is not laid out as it should be.
    RecordLayout,
}

impl Refusal {
    /// The number by which the manual speaks of this refusal.
    pub fn number(self) -> u8
        ensures { result ≡ refusal_number self }
    {
        // Not by a cast, which an enum has only where no case has a value.
        match self {
            Refusal::FrameLength => 1,
            Refusal::MemoryTooShort => 2,
            Refusal::IdleLength => 3,
            Refusal::CodeblockLimit => 4,
            Refusal::CarrierAlreadyUp => 5,
            Refusal::CarrierDown => 6,
            Refusal::NoCandidate => 7,
            Refusal::PastCandidateEnd => 8,
            Refusal::NeitherFrameNorFill(_) => 9,
            Refusal::CandidateOpen => 10,
            Refusal::NoCandidateOpen => 11,
            Refusal::NoFreeSpace => 12,
            Refusal::CandidateEmpty => 13,
            Refusal::QueueFull => 14,
            Refusal::QueueEmpty => 15,
            Refusal::RecordLayout => 16,
        }
    }
}

/// `refused` and the number.
impl fmt::Display for Refusal {
    ghost output = { λ refusal. Some (refusal_text refusal) };

    fn fmt<W: fmt::Write>(&self, f: &mut fmt::Formatter<W>) -> fmt::Result {
        write!(f, "refused {}", self.number())
    }
}

impl Error for Refusal {}
