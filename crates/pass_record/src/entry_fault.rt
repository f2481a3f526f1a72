ghost use Rattle.std.specs.Prelude.{Some};
ghost use Rattle.pass_record.specs.FaultText.{entry_fault_text};

use std::error::Error;
use std::fmt;

/// What is wrong with an entry of a pass record. Places count octets from 0.
#[derive(Clone, Copy, Debug, PartialEq, Eq)]
pub enum EntryFault {
    /// Its segment begins at one place, and is due at another, behind the segment before.
    BeginsElsewhere { begin: usize, due: usize },
    /// Its segment has no symbols.
    NoSymbols,
    /// Its segment ends past the place of the first entry.
    PastFirstEntry { end: usize, first_entry: usize },
    /// The bits of its segment's last octet, at this place, that no symbol takes are not all zero.
    PaddingNotZero { place: usize },
}

/// What is wrong in plain words, on one line.
impl fmt::Display for EntryFault {
    ghost output = { λ fault. Some (entry_fault_text fault) };

    fn fmt<W: fmt::Write>(&self, f: &mut fmt::Formatter<W>) -> fmt::Result {
        match self {
            EntryFault::BeginsElsewhere { begin, due } => {
                write!(
                    f,
                    "its segment begins at place {begin}, and is due at place {due}"
                )
            }
            EntryFault::NoSymbols => write!(f, "its segment has no symbols"),
            EntryFault::PastFirstEntry { end, first_entry } => write!(
                f,
                "its segment ends at place {end}, past the first entry at place {first_entry}"
            ),
            EntryFault::PaddingNotZero { place } => {
                write!(
                    f,
                    "the padding in the last octet of its segment, at place {place}, is not zero"
                )
            }
        }
    }
}

impl Error for EntryFault {}
