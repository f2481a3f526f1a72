ghost use Rattle.std.specs.Prelude.{◌≡◌, Some};
ghost use Rattle.drive_lines.specs.Answers.{answer_text, done_text, made_text, state_word};

use receiver::ReceiverState;
use refusals::Refusal;
use std::fmt;

/// The answer to a call. It prints as a line, without its end.
#[derive(Debug, Drop)]
pub enum Answer {
    /// The call was made.
    Done,
    /// Symbols were taken, and made so many reports.
    Made(usize),
    /// The call was refused.
    Refused(Refusal),
    /// The oldest finished candidate.
    Candidate {
        /// How many octets it has.
        octets: usize,
        /// Its octets in capital hexadecimal digits.
        digits: String,
    },
    /// How the receiver and its hold stand.
    State {
        /// The state of the receiver.
        state: ReceiverState,
        /// How many reports were lost.
        lost: u16,
        /// How many codeblocks the hold can still take.
        free: usize,
        /// How many codeblocks the open candidate has.
        open: usize,
        /// How many finished candidates wait.
        finished: usize,
    },
}

impl fmt::Display for Answer {
    ghost output = { λ answer. Some (answer_text answer) };

    fn fmt<W: fmt::Write>(&self, f: &mut fmt::Formatter<W>) -> fmt::Result {
        match self {
            Answer::Done => f.write_str("ok"),
            Answer::Made(reports) => write!(f, "made {reports}"),
            Answer::Refused(refusal) => write!(f, "{refusal}"),
            Answer::Candidate { octets, digits } => write!(f, "candidate {octets} {digits}"),
            Answer::State {
                state,
                lost,
                free,
                open,
                finished,
            } => {
                let word = state_word(*state);
                write!(
                    f,
                    "{word} lost {lost} free {free} open {open} finished {finished}"
                )
            }
        }
    }
}

// A state in a word.
fn state_word(state: ReceiverState) -> &'static str
    ensures { result.now ≡ state_word state }
{
    match state {
        ReceiverState::Inactive => "INACTIVE",
        ReceiverState::Search => "SEARCH",
        ReceiverState::Decode => "DECODE",
    }
}

impl Answer {
    // What a call answers that tells nothing.
    pub(crate) fn done(answer: Result<(), Refusal>) -> Answer
        ensures { answer_text result ≡ done_text answer }
    {
        match answer {
            Ok(()) => Answer::Done,
            Err(refusal) => Answer::Refused(refusal),
        }
    }

    // What a call with symbols answers.
    pub(crate) fn made(answer: Result<usize, Refusal>) -> Answer
        ensures { answer_text result ≡ made_text answer }
    {
        match answer {
            Ok(reports) => Answer::Made(reports),
            Err(refusal) => Answer::Refused(refusal),
        }
    }
}
