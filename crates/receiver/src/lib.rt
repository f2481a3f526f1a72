//! The receiver: symbols in, candidates into a hold, reports into the caller's queue.
#![tactic(auto)]

mod phase;
mod receiver;
mod receiver_state;
mod state;

pub use receiver::Receiver;
pub use receiver_state::ReceiverState;
