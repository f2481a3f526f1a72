//! The telecommand code: codeblocks of eight octets, seven of information and one of the check bits and the
//! filler, and what is made of one that is received. Here are its definitions, in `specs/`, and its laws; the
//! functions that fly are in the crate `coding`.
#![tactic(auto)]

/// How many octets of information a codeblock has.
pub const INFORMATION_OCTETS: usize = 7;

/// How many octets a codeblock has: its information, and one of the check bits and the filler.
pub const CODEBLOCK_OCTETS: usize = 8;

/// How a receiver treats wrong bits.
#[derive(Clone, Copy, Debug, PartialEq, Eq)]
pub enum Mode {
    /// A codeblock whose syndrome is not zero in both parts is rejected.
    Detecting,
    /// One wrong bit in a codeblock is turned.
    Correcting,
}

/// What is accepted of 64 received bits. Where they are rejected there is none.
#[derive(Clone, Copy, Debug, PartialEq, Eq)]
pub struct Accepted {
    /// The seven octets of information.
    pub information: [u8; INFORMATION_OCTETS],
    /// Whether a bit was turned, also one of the check bits.
    pub corrected: bool,
}
