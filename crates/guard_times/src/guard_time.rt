use crate::BitRate;
use bch::Mode;
use cltu::CodeblockLimit;
use reception::recovery_bits;

/// The guard time between two commands to receivers of this mode and limit: how long the idle between them has to
/// be, so that a receiver is back in SEARCH whatever became of the first.
#[derive(Clone, Copy, Debug, PartialEq, Eq)]
pub struct GuardTime {
    /// Whether the receivers correct wrong bits.
    pub mode: Mode,
    /// How many codeblocks they take in a CLTU.
    pub limit: CodeblockLimit,
}

impl GuardTime {
    ghost use Rattle.std.specs.Prelude.{◌≡◌, ◌≤◌};
    ghost use Rattle.cltu.specs.Limit.{codeblocks_allowed};
    ghost use Rattle.hold.specs.Candidates.{Showing};
    ghost use Rattle.reception.specs.Decoding.{settings};
    ghost use Rattle.reception.specs.Runs.{recovery_bits};
    ghost use Rattle.reception.specs.Recovery.{IdleBringsItBack};
    ghost use Rattle.guard_times.specs.Rate.{bits_a_second};
    ghost use Rattle.guard_times.specs.Guard.{guard_bits, IsLeast, HoldBits, BitsPass};

    /// In bits: so many bits of idle bring a receiver back to SEARCH.
    pub fn bits(self) -> usize
        ensures value { result ≡ guard_bits self }
        ensures most { result ≤ 9475 }
        ensures promise { (showing : Showing) →
            IdleBringsItBack (settings self.mode (codeblocks_allowed self.limit)) showing }
    {
        recovery_bits(self.mode, self.limit)
    }

    /// In octets: the fewest that hold these bits.
    #[tactic(auto, using(crate::proofs::Ceiling::least_ceiling))]
    pub fn octets(self) -> usize
        ensures { IsLeast (HoldBits (guard_bits self)) result }
    {
        self.bits().div_ceil(8)
    }

    /// In milliseconds at a rate: the fewest in which these bits, and not the whole octets, are sent.
    #[tactic(auto, using(crate::proofs::Ceiling::least_ceiling))]
    pub fn milliseconds(self, rate: BitRate) -> usize
        ensures { IsLeast (BitsPass (bits_a_second rate) (guard_bits self)) result }
    {
        (1000 * self.bits()).div_ceil(rate.bits_a_second())
    }
}
