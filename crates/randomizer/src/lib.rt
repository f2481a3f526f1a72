//! The randomizer: a fixed sequence of bits that a sender adds to a filled frame before coding.
#![tactic(auto)]

ghost use Rattle.std.specs.Prelude.{◌≡◌, ℕ, ◌%◌, ◌<◌};
ghost use Rattle.randomizer.specs.Sequence.{sequence_bit, sequence_octet, first_octets, added_at, FollowsTheRule, RandomizingTwiceGivesBack};

/// Whether a sender adds the sequence.
#[derive(Clone, Copy, Debug, PartialEq, Eq)]
pub enum Randomizer {
    /// The sequence is added to each filled frame.
    On,
    /// Frames are coded as they are.
    Off,
}

impl Randomizer {
    /// The octet that is added, bit by bit modulo 2, at this place of a frame: 0 where the randomizer is off.
    pub fn octet_at(self, place: usize) -> u8
        ensures { result ≡ added_at self place }
    {
        match self {
            Randomizer::On => sequence_octet(place),
            Randomizer::Off => 0,
        }
    }
}

/// After so many octets the sequence repeats: its bits do after 255, so its octets do too.
pub const PERIOD_OCTETS: usize = 255;

// One period of the sequence.
const SEQUENCE: [u8; PERIOD_OCTETS] = *b"\
    \xFF\x39\x9E\x5A\x68\xE9\x06\xF5\x6C\x89\x2F\xA1\x31\x5E\x08\xC0\x52\
    \xA8\xBB\xAE\x4E\xC2\xC7\xED\x66\xDC\x38\xD4\xF8\x86\x50\x3D\xFE\x73\
    \x3C\xB4\xD1\xD2\x0D\xEA\xD9\x12\x5F\x42\x62\xBC\x11\x80\xA5\x51\x77\
    \x5C\x9D\x85\x8F\xDA\xCD\xB8\x71\xA9\xF1\x0C\xA0\x7B\xFC\xE6\x79\x69\
    \xA3\xA4\x1B\xD5\xB2\x24\xBE\x84\xC5\x78\x23\x01\x4A\xA2\xEE\xB9\x3B\
    \x0B\x1F\xB5\x9B\x70\xE3\x53\xE2\x19\x40\xF7\xF9\xCC\xF2\xD3\x47\x48\
    \x37\xAB\x64\x49\x7D\x09\x8A\xF0\x46\x02\x95\x45\xDD\x72\x76\x16\x3F\
    \x6B\x36\xE1\xC6\xA7\xC4\x32\x81\xEF\xF3\x99\xE5\xA6\x8E\x90\x6F\x56\
    \xC8\x92\xFA\x13\x15\xE0\x8C\x05\x2A\x8B\xBA\xE4\xEC\x2C\x7E\xD6\x6D\
    \xC3\x8D\x4F\x88\x65\x03\xDF\xE7\x33\xCB\x4D\x1D\x20\xDE\xAD\x91\x25\
    \xF4\x26\x2B\xC1\x18\x0A\x55\x17\x75\xC9\xD8\x58\xFD\xAC\xDB\x87\x1A\
    \x9F\x10\xCA\x07\xBF\xCE\x67\x96\x9A\x3A\x41\xBD\x5B\x22\x4B\xE8\x4C\
    \x57\x82\x30\x14\xAA\x2E\xEB\x93\xB0\xB1\xFB\x59\xB7\x0E\x35\x3E\x21\
    \x94\x0F\x7F\x9C\xCF\x2D\x34\x74\x83\x7A\xB6\x44\x97\xD0\x98\xAF\x04\
    \x60\x29\x54\x5D\xD7\x27\x61\x63\xF6\xB3\x6E\x1C\x6A\x7C\x43\x28\x1E";

// The octet at every place that stands here in its period, from a table of one period.
fn period_octet(table: &[u8; PERIOD_OCTETS], k: usize) -> u8
    requires table { table.now ≡ first_octets 255 }
    requires place { k < 255 }
    ensures octet { (place : ℕ) → place % 255 ≡ k → result ≡ sequence_octet place }
    ensures rule { FollowsTheRule sequence_bit }
    ensures twice { RandomizingTwiceGivesBack }
{
    table[k]
}

/// The octet of the sequence at a place, its first bit the most significant. The sequence has no
/// end, and who adds it twice has what was there before.
pub fn sequence_octet(place: usize) -> u8
    ensures octet { result ≡ sequence_octet place }
    ensures rule { FollowsTheRule sequence_bit }
    ensures twice { RandomizingTwiceGivesBack }
{
    period_octet(&SEQUENCE, place % PERIOD_OCTETS)
}
