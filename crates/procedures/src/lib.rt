//! The physical layer operations procedures: what is on the carrier from an acquisition to the break behind
//! it, in `specs/`, and what a receiver makes of it.
#![tactic(auto)]

ghost use Rattle.std.specs.Prelude.{◌≡◌};
ghost use Rattle.procedures.specs.Stretch.{idle_octet, idle_behind};

/// By which of the two procedures CLTUs are sent.
#[derive(Clone, Copy, Debug, PartialEq, Eq)]
pub enum Plop {
    /// PLOP-1: the modulation ends behind each CLTU, so that it takes an acquisition to send another.
    One = 1,
    /// PLOP-2: one CLTU follows another, an idle octet behind each.
    Two = 2,
}

impl Plop {
    /// How many idle octets are written behind each CLTU.
    pub fn idle_behind(self) -> usize
        ensures { result ≡ idle_behind self }
    {
        match self {
            Plop::One => 0,
            Plop::Two => 1,
        }
    }
}

/// The octet that acquisition and idle sequences repeat: alternating bits.
#[derive(Clone, Copy, Debug, PartialEq, Eq)]
pub enum IdleOctet {
    /// 55: idle begins with a zero.
    ZeroFirst = 0x55,
    /// AA: idle begins with a one.
    OneFirst = 0xAA,
}

impl IdleOctet {
    /// The octet itself.
    pub fn octet(self) -> u8
        ensures { result ≡ idle_octet self }
    {
        self as u8
    }
}
