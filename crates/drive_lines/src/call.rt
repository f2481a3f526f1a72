/// What a line asks of a receiver.
#[derive(Debug, Drop)]
pub enum Call {
    /// Carrier up.
    Up,
    /// Carrier down.
    Down,
    /// Release of the oldest finished candidate.
    Release,
    /// Symbols that are bits.
    Bits(Vec<bool>),
    /// Symbols that are soft levels.
    Levels(Vec<i8>),
    /// Which candidate is the oldest that is finished.
    Oldest,
    /// How the receiver and its hold stand.
    State,
}
