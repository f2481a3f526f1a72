//! Writing a frame as a CLTU into the caller's memory.
#![tactic(auto)]

ghost use Rattle.std.specs.Prelude.{◌≡◌, ◌+◌, ◌*◌, ◌<◌, ◌≤◌, length, take, drop, slice_index};
ghost use Rattle.randomizer.specs.Sequence.{randomized};
ghost use Rattle.bch.specs.Codeblock.{information_octets, codeblock_octets};
ghost use Rattle.cltu.specs.Limit.{codeblocks_allowed};
ghost use Rattle.cltu.specs.Cltu.{longest_frame, codeblocks_for, LeastThatHolds, filled, coded, cltu};
ghost use Rattle.cltu.specs.Writing.{frame_refused, cltu_octets, length_answer, LengthOf, writing_answer, memory_after, NoCltuIsLonger, IsNeverTooShort};

use bch::{CODEBLOCK_OCTETS, INFORMATION_OCTETS};
use coding::codeblock;
use randomizer::Randomizer;
use refusals::Refusal;

mod limit;

pub use limit::CodeblockLimit;
use limit::MOST_CODEBLOCKS;

/// What a sender's CLTUs have in common.
#[derive(Clone, Copy, Debug, PartialEq, Eq)]
pub struct Sender {
    /// How many codeblocks its receivers take.
    pub limit: CodeblockLimit,
    /// Whether frames are randomized.
    pub randomizer: Randomizer,
}

/// How many codeblocks a frame of so many octets takes, seven octets each.
pub fn codeblocks_for(octets: usize) -> usize
    ensures value { result ≡ codeblocks_for octets }
    ensures least { LeastThatHolds octets result }
{
    octets.div_ceil(INFORMATION_OCTETS)
}

/// How many octets a frame has at most.
pub const LONGEST_FRAME: usize = 1024;

/// How many octets the longest CLTU has, 1,186. It is for the length of an array: a constant has no
/// contract, so take `longest_cltu` where a call will do.
pub const LONGEST_CLTU: usize = START_SEQUENCE.len()
    + CODEBLOCK_OCTETS * MOST_CODEBLOCKS
    + TAIL_SEQUENCE.len();

/// How many octets the longest CLTU has, that of 147 codeblocks. Memory of so many is never too short
/// for `Sender::write_cltu`.
#[tactic(auto, using(crate::proofs::Longest::no_cltu_is_longer, crate::proofs::Longest::is_never_too_short))]
pub fn longest_cltu() -> usize
    ensures value { result ≡ 1186 }
    ensures longest { NoCltuIsLonger result }
    ensures suffices { IsNeverTooShort result }
{
    LONGEST_CLTU
}

const START_SEQUENCE: [u8; 2] = [0xEB, 0x90];

const TAIL_SEQUENCE: [u8; 8] = [0xC5, 0xC5, 0xC5, 0xC5, 0xC5, 0xC5, 0xC5, 0x79];

/// The octet with which a frame is lengthened to whole codeblocks.
pub const FILL: u8 = 0x55;

/// A frame that a sender takes, and how many codeblocks its CLTU has.
#[derive(Clone, Copy)]
struct Outgoing<'a> {
    frame: &'a [u8],
    randomizer: Randomizer,
    // How many codeblocks hold the frame.
    codeblocks: usize,
    ghost short: { length frame.now ≤ longest_frame },
    ghost whole: { codeblocks ≡ codeblocks_for (length frame.now) },
}

impl<'a> Outgoing<'a> {
    fn new(frame: &'a [u8], randomizer: Randomizer) -> Self
        requires { length frame.now ≤ longest_frame }
        ensures frame { result.frame.now ≡ frame.now }
        ensures randomizer { result.randomizer ≡ randomizer }
    {
        Outgoing {
            frame,
            randomizer,
            codeblocks: codeblocks_for(frame.len()),
        }
    }

    // The octet at a place of the filled and randomized frame.
    fn octet(&self, place: usize) -> u8
        requires { place < information_octets * self.now.codeblocks }
        ensures { result ≡ slice_index (randomized self.now.randomizer (filled self.now.frame.now)) place }
    {
        self.frame.get(place).copied().unwrap_or(FILL) ^ self.randomizer.octet_at(place)
    }

    // The information of the codeblock at an index: seven octets of the filled and randomized frame.
    fn information(&self, index: usize) -> [u8; INFORMATION_OCTETS]
        requires { index < self.now.codeblocks }
        ensures { result ≡ take information_octets
            (drop (information_octets * index) (randomized self.now.randomizer (filled self.now.frame.now))) }
    {
        // Written out: by `array::from_fn` a frame takes some 4 in a hundred longer to write.
        let first = INFORMATION_OCTETS * index;
        [
            self.octet(first),
            self.octet(first + 1),
            self.octet(first + 2),
            self.octet(first + 3),
            self.octet(first + 4),
            self.octet(first + 5),
            self.octet(first + 6),
        ]
    }

    // Puts the codeblocks into memory for just these.
    fn put_codeblocks(&self, memory: &mut [u8])
        requires { length memory.old ≡ codeblock_octets * self.now.codeblocks }
        ensures { memory.new ≡ coded self.now.codeblocks (randomized self.now.randomizer (filled self.now.frame.now)) }
    {
        // By index: after a loop over `chunks_exact_mut` the checker knows of no octet that it wrote.
        for index in 0..self.codeblocks {
            let at = CODEBLOCK_OCTETS * index;
            memory[at..at + CODEBLOCK_OCTETS].copy_from_slice(&codeblock(self.information(index)));
        }
    }

    /// Puts the CLTU into memory for just it.
    fn put_cltu(&self, memory: &mut [u8])
        requires { length memory.old ≡ cltu_octets (length self.now.frame.now) }
        ensures { memory.new ≡ cltu self.now.randomizer self.now.frame.now }
    {
        let (start, rest) = memory.split_at_mut(START_SEQUENCE.len());
        let (codeblocks, tail) = rest.split_at_mut(CODEBLOCK_OCTETS * self.codeblocks);
        start.copy_from_slice(&START_SEQUENCE);
        self.put_codeblocks(codeblocks);
        tail.copy_from_slice(&TAIL_SEQUENCE);
    }
}

impl Sender {
    // Whether a frame of so many octets is refused.
    fn refuses(self, octets: usize) -> bool
        ensures { result ≡ frame_refused (codeblocks_allowed self.limit) octets }
    {
        !(1..=LONGEST_FRAME).contains(&octets) || octets > INFORMATION_OCTETS * self.limit.count()
    }

    /// How many octets the CLTU of a frame of so many octets has. Refused with 1 where the frame is empty, has
    /// more than 1,024 octets or more than the limit's codeblocks hold.
    #[tactic(auto, using(crate::proofs::Places::length_cltu))]
    pub fn cltu_length(self, octets: usize) -> Result<usize, Refusal>
        ensures answer { result ≡ length_answer self octets }
        ensures length { LengthOf self octets result }
    {
        if self.refuses(octets) {
            return Err(Refusal::FrameLength);
        }
        Ok(START_SEQUENCE.len() + CODEBLOCK_OCTETS * codeblocks_for(octets) + TAIL_SEQUENCE.len())
    }

    /// Writes the CLTU of a frame at the front of the memory and answers how many octets it has.
    /// Refused with 1 where the frame is empty, has more than 1,024 octets or more than the limit's
    /// codeblocks hold, and with 2 where the memory is too short; then the memory is as it was.
    pub fn write_cltu(self, frame: &[u8], memory: &mut [u8]) -> Result<usize, Refusal>
        ensures answer { result ≡ writing_answer self frame.now memory.old }
        ensures memory { memory.new ≡ memory_after self frame.now memory.old result }
    {
        let octets = self.cltu_length(frame.len())?;
        if memory.len() < octets {
            return Err(Refusal::MemoryTooShort);
        }
        Outgoing::new(frame, self.randomizer).put_cltu(&mut memory[..octets]);
        Ok(octets)
    }
}
