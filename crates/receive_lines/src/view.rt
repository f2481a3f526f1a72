/// What is printed of a pass.
#[derive(Clone, Copy, Debug, PartialEq, Eq)]
pub enum View {
    /// A line for each report and for each candidate, and last how many there were.
    Plain,
    /// The same, and before each report a line with the place of the symbol that made it.
    Places,
    /// A line with the octets of each candidate, and no other.
    Candidates,
}
