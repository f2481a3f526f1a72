//! A receiver that is driven by lines: what a line asks for, what it is answered by, and the loop that reads
//! lines and prints their answers.
#![tactic(auto)]

mod answer;
mod call;
mod calling;
mod driving;
mod line;
mod printing;
mod words;

pub use answer::Answer;
pub use call::Call;
pub use driving::{Driving, DrivingError};
pub use line::Line;
pub use printing::drive;
