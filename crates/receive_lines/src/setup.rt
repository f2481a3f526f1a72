use decoding::Settings;
use randomizer::Randomizer;

/// How a receiver is set up.
#[derive(Clone, Copy)]
pub struct Setup {
    /// How it treats wrong bits, and how many codeblocks it takes in a CLTU.
    pub settings: Settings,
    /// How many cells the ring has that it keeps candidates in, one for each codeblock.
    pub cells: u16,
    /// Whether the sender randomizes. If so, a layer over the ring takes the sequence off again.
    pub randomizer: Randomizer,
}
