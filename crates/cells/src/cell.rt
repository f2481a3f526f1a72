use bch::INFORMATION_OCTETS;

/// Room for one codeblock. What a caller writes into it before a hold is made of it does not show.
#[derive(Clone, Copy)]
pub struct Cell {
    /// A codeblock.
    pub octets: [u8; INFORMATION_OCTETS],
    /// In the first cell of a finished candidate, how many codeblocks the candidate has.
    pub codeblocks: u16,
}

impl Cell {
    /// A cell to make memory for a hold of.
    pub const EMPTY: Cell = Cell {
        octets: [0; INFORMATION_OCTETS],
        codeblocks: 0,
    };
}
