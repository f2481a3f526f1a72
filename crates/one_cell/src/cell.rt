ghost use Rattle.std.specs.Prelude.{◌≡◌, length};

/// What is held, apart from the octets.
#[derive(Clone, Copy)]
pub(crate) enum Held {
    /// No candidate.
    Nothing,
    /// An open candidate that is empty.
    Open,
    /// An open candidate that has the codeblock.
    Added,
    /// A finished candidate.
    Finished,
    /// A finished candidate, and an open one that is empty.
    FinishedAndOpen,
}

/// A hold with room for one codeblock, in memory of its own.
#[derive(Drop)]
pub struct OneCell {
    pub(crate) octets: [u8; 7],
    pub(crate) held: Held,
    // A law sees the octets as a list, and of its length this alone.
    ghost seven: { length octets ≡ 7 },
}
