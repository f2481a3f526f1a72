//! Decoding: from a start sequence on, symbols become codeblocks, and codeblocks a candidate in a hold.
//! Nothing here knows how a start is found, nor of windows, carriers and states: the settings in force come
//! with each symbol, and the answer tells whether the candidate goes on or ended.
#![tactic(auto)]

mod decoding;
mod settings;

pub use decoding::Decoding;
pub use settings::Settings;
