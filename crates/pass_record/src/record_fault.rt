ghost use Rattle.std.specs.Prelude.{Some};
ghost use Rattle.pass_record.specs.FaultText.{record_fault_text};

use crate::EntryFault;
use std::error::Error;
use std::fmt;

/// What is wrong with octets that are no pass record. Places count octets from 0.
#[derive(Clone, Copy, Debug, PartialEq, Eq)]
pub enum RecordFault {
    /// There are so many octets, and a record has at least 8.
    TooShort { octets: usize },
    /// There are so many octets, and a record has at most 65,535.
    TooLong { octets: usize },
    /// The entries end at one place, by what the last eight octets tell, and these begin at another.
    EntriesEndElsewhere { end: usize, due: usize },
    /// Something is wrong with the entry of this number, counted from 1.
    Entry { number: usize, fault: EntryFault },
    /// The octets from a place up to the first entry belong to no segment.
    GapBeforeEntries { place: usize, first_entry: usize },
}

/// What is wrong in plain words, on one line.
impl fmt::Display for RecordFault {
    ghost output = { λ fault. Some (record_fault_text fault) };

    fn fmt<W: fmt::Write>(&self, f: &mut fmt::Formatter<W>) -> fmt::Result {
        match self {
            RecordFault::TooShort { octets } => {
                write!(f, "{octets} octets, and a record has at least 8")
            }
            RecordFault::TooLong { .. } => {
                f.write_str("more than 65535 octets, and a record has no more")
            }
            RecordFault::EntriesEndElsewhere { end, due } => {
                write!(
                    f,
                    "the entries end at place {end}, and are due to end at place {due}"
                )
            }
            RecordFault::Entry { number, fault } => write!(f, "entry {number}: {fault}"),
            RecordFault::GapBeforeEntries { place, first_entry } => write!(
                f,
                "the octets from place {place} up to the first entry, at place {first_entry}, belong to no segment"
            ),
        }
    }
}

impl Error for RecordFault {}
