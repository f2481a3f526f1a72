//! Why lines become no pass.

ghost use Rattle.std.specs.Prelude.{◌≡◌, Some};
ghost use Rattle.pass_lines.specs.Told.{error_text};
ghost use Rattle.pass_lines.specs.declared.error.PassError.TheVariants.{Memory};

use crate::line::LineFault;
use std::alloc::{AllocError, AllocFailed};
use std::fmt;

/// Why lines become no pass.
#[derive(Clone, Copy, Debug, PartialEq, Eq)]
pub enum PassError {
    /// There is no memory.
    Memory,
    /// A line is neither a frame that the sender takes nor a line of `encode` that tells a CLTU or the end.
    BadLine {
        /// Which line it is, the first being 1.
        number: usize,
        /// What is wrong with it.
        fault: LineFault,
    },
    /// A place that is to be wrong is past the last symbol.
    PastTheEnd {
        /// The place, the first being 0.
        place: usize,
        /// How many symbols there are.
        symbols: usize,
    },
    /// The record would have more than 65,535 octets.
    RecordTooLong,
}

impl From<AllocError> for PassError {
    ghost from_gives = { λ _ e. e ≡ Memory };

    fn from(_e: AllocError) -> PassError {
        PassError::Memory
    }
}

impl<T: Drop> From<AllocFailed<T>> for PassError {
    ghost from_gives = { λ _ e. e ≡ Memory };

    fn from(_e: AllocFailed<T>) -> PassError {
        PassError::Memory
    }
}

/// Why, in words.
impl fmt::Display for PassError {
    ghost output = { λ e. Some (error_text e) };

    fn fmt<W: fmt::Write>(&self, f: &mut fmt::Formatter<W>) -> fmt::Result {
        match self {
            PassError::Memory => f.write_str("out of memory"),
            PassError::BadLine { number, fault } => write!(f, "line {number}: {fault}"),
            PassError::PastTheEnd { place, symbols } => {
                write!(f, "no symbol has the place {place}: there are {symbols}")
            }
            PassError::RecordTooLong => {
                f.write_str("the record would have more than 65,535 octets")
            }
        }
    }
}
