use crate::{BitRate, GuardTime};

/// A row of a table of guard times.
#[derive(Clone, Copy, Debug, PartialEq, Eq)]
pub struct Row {
    /// Whose guard time it tells.
    pub guard: GuardTime,
    /// The guard time in bits.
    pub bits: usize,
    /// The guard time in octets.
    pub octets: usize,
    /// The guard time in milliseconds, where a rate is known.
    pub milliseconds: Option<usize>,
}

impl Row {
    ghost use Rattle.std.specs.Prelude.{◌≡◌};
    ghost use Rattle.guard_times.specs.Rows.{TellsItsGuard};

    /// The row of a guard time, at this rate if there is one.
    pub fn new(guard: GuardTime, rate: Option<BitRate>) -> Row
        ensures guard { result.guard ≡ guard }
        ensures tells { TellsItsGuard rate result }
    {
        Row {
            guard,
            bits: guard.bits(),
            octets: guard.octets(),
            milliseconds: rate.map(|rate| guard.milliseconds(rate)),
        }
    }
}
