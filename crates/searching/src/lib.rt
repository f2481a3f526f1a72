//! From symbols to a start: what a symbol counts as, and the window in which a start sequence is
//! searched.
#![tactic(auto)]

ghost use Rattle.std.specs.Prelude.{◌≡◌, Bool};
ghost use Rattle.reception.specs.Searching.{next_count, next_window, start_tolerance, is_start};
ghost use Rattle.searching.specs.Levels.{is_negative};
ghost use Rattle.searching.specs.Windows.{entered, last_bits};

use bch::Mode;

/// What a demodulator delivers for one bit: anything that can be decided to be a 0 or a 1.
pub trait Symbol {
    /// The bit that a value counts as.
    ghost bit: { Self → Bool };

    /// The bit that it counts as, `true` for a 1.
    fn hard_decision(&self) -> bool
        ensures { result ≡ bit self.now };
}

/// A bit counts as itself.
impl Symbol for bool {
    ghost bit = { λ b. b };

    fn hard_decision(&self) -> bool {
        *self
    }
}

/// A soft level, from −128 to 127, counts as 1 when it is negative.
impl Symbol for i8 {
    ghost bit = { λ level. is_negative level };

    fn hard_decision(&self) -> bool {
        *self < 0
    }
}

const START_SEQUENCE: u16 = 0xEB90;

/// The last symbols of a search, at most 16.
#[derive(Clone, Copy)]
pub struct Window {
    // How many symbols entered, up to 16.
    count: u8,
    // The first of them highest.
    bits: u16,
}

impl Window {
    /// A window that no symbol has entered.
    pub fn empty() -> Window
        ensures count { entered result ≡ 0 }
        ensures bits { last_bits result ≡ 0 }
    {
        Window { count: 0, bits: 0 }
    }

    /// The window after one more symbol.
    pub fn with(self, bit: bool) -> Window
        ensures count { entered result ≡ next_count (entered self) }
        ensures bits { last_bits result ≡ next_window (last_bits self) bit }
    {
        Window {
            count: self.count.saturating_add(1).min(16),
            bits: (self.bits << 1) | u16::from(bit),
        }
    }

    /// Whether 16 symbols are there that differ from the start sequence EB 90 in no more bits than the
    /// mode allows: one when correcting, none when detecting.
    pub fn is_start(self, mode: Mode) -> bool
        ensures { result ≡ is_start mode (entered self) (last_bits self) }
    {
        self.count == 16 && (self.bits ^ START_SEQUENCE).count_ones() <= tolerance(mode)
    }
}

// In how many bits a start sequence may be wrong.
fn tolerance(mode: Mode) -> u32
    ensures { result ≡ start_tolerance mode }
{
    match mode {
        Mode::Correcting => 1,
        Mode::Detecting => 0,
    }
}
