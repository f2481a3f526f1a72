//! The options of a receiver, for the programs that run one: `--mode`, `--limit`, `--cells` and `--random`.
#![tactic(auto)]

mod arguments;
mod options;

pub use arguments::{
    asked_cells, asked_limit, asked_mode, asked_randomizer, cells_option, limit_option,
    mode_option, random_option,
};
pub use options::{ReceiverOptions, with_receiver_options};
