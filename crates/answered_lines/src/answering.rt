//! What answers the octets of a line.

ghost use Rattle.std.specs.Prelude.{◌≡◌, IfOk};
ghost use Rattle.answered_lines.specs.Meaning.{Meaning, FurtherOctetsChangeNothing};
ghost use Rattle.answered_lines.specs.Answers.{Tells};

use std::alloc::{AllocError, Global};

/// The answer to the octets of a line.
#[derive(Debug, Drop)]
pub struct Answer {
    /// The lines that it is printed as, each with its end; or none.
    pub text: String,
    /// How many it counts of what the program counts.
    pub counted: usize,
}

/// What answers the octets of a line.
pub trait Answering {
    /// The text that octets are answered by, what that counts, and of how many octets this takes notice.
    ghost meaning: { Self → Meaning };

    /// Of how many octets of a line this takes notice, or `None` where it is of all.
    fn most_octets(&self) -> Option<usize>
        ensures { result ≡ (meaning self.now).most };

    /// The answer to these octets.
    fn answer(&self, heap: Global, octets: &[u8]) -> Result<Answer, AllocError>
        ensures { IfOk result (Tells ((meaning self.now).text octets.now) ((meaning self.now).count octets.now)) };

    /// Octets behind those change nothing.
    ghost further_octets_change_nothing: { (answering : Self) → FurtherOctetsChangeNothing (meaning answering) };
}
