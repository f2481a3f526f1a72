use decoding::Decoding;
use searching::Window;

/// The state of a receiver with what belongs to it.
#[derive(Clone, Copy)]
pub(crate) enum Phase {
    Inactive,
    Search(Window),
    Decode(Decoding),
}

/// What happens to a receiver from outside.
#[derive(Clone, Copy)]
pub(crate) enum Event {
    CarrierUp,
    CarrierDown,
    /// A call with symbols begins, with any number of them, also none.
    Symbols,
    /// A symbol of such a call.
    Symbol(bool),
}
