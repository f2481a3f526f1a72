//! What the programs on the ground share: how their arguments are read, and how a run of one ends.
#![tactic(auto)]

mod failure;
mod input;
mod mistakes;
mod number;
mod one_line;
mod running;

pub use failure::Failure;
pub use input::{file_of_word, input_file, named_file, opened};
pub use mistakes::unknown_argument;
pub use number::number_within;
pub use running::{ended, program, run, words};

/// The words that a program was called with, as the system gives them.
pub use std::env::args as arguments;

/// The version of the programs.
pub const VERSION: &str = "0.2.0";
