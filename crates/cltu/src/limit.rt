ghost use Rattle.std.specs.Prelude.{◌≡◌, ◌≤◌};

use refusals::Refusal;

/// How many codeblocks a CLTU has at most.
pub(crate) const MOST_CODEBLOCKS: usize = 147;

/// A limit on the length of CLTUs: how many codeblocks one may have, from 1 to 147.
#[derive(Clone, Copy, Debug, PartialEq, Eq)]
pub struct CodeblockLimit {
    count: usize,
    ghost range: { (1 ≤ count) × (count ≤ 147) },
}

/// The limit of so many codeblocks. Refused with 4 outside 1 to 147.
impl TryFrom<usize> for CodeblockLimit {
    ghost use Rattle.cltu.specs.Limit.{MadeOf};

    type Error = Refusal;

    ghost try_from_gives = { MadeOf };

    fn try_from(count: usize) -> Result<Self, Refusal> {
        if (1..=MOST_CODEBLOCKS).contains(&count) {
            Ok(CodeblockLimit { count })
        } else {
            Err(Refusal::CodeblockLimit)
        }
    }
}

impl CodeblockLimit {
    ghost use Rattle.cltu.specs.Limit.{codeblocks_allowed};
    ghost use Rattle.cltu.specs.Writing.{RefusesNoFrame};

    /// As many codeblocks as any CLTU has. A constant has no contract: take `most` where a call will do.
    pub const MOST: CodeblockLimit = CodeblockLimit {
        count: MOST_CODEBLOCKS,
    };

    /// As many codeblocks as any CLTU has, 147. With this limit no frame of 1 to 1,024 octets is refused.
    #[tactic(auto, using(crate::proofs::Longest::refuses_no_frame))]
    pub fn most() -> CodeblockLimit
        ensures value { codeblocks_allowed result ≡ 147 }
        ensures takes { RefusesNoFrame (codeblocks_allowed result) }
    {
        Self::MOST
    }

    /// How many codeblocks it allows.
    pub fn count(self) -> usize
        ensures value { result ≡ codeblocks_allowed self }
        ensures range { (1 ≤ result) × (result ≤ 147) }
    {
        self.count
    }
}
