/// The three states of a receiver.
#[derive(Clone, Copy, Debug, PartialEq, Eq)]
pub enum ReceiverState {
    /// The carrier is down.
    Inactive,
    /// It looks for a start sequence.
    Search,
    /// It collects codeblocks.
    Decode,
}
