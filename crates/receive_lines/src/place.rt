/// A symbol of a pass, by its segment and its turn in that. Both are counted from 1; before the first symbol of a
/// segment the turn is 0.
#[derive(Clone, Copy, Debug, PartialEq, Eq)]
pub struct Place {
    /// Which segment of the pass.
    pub segment: u64,
    /// Which symbol of the segment.
    pub symbol: u64,
}
