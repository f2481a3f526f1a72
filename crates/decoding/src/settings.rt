use bch::Mode;
use cltu::CodeblockLimit;
use refusals::Refusal;

/// What a receiver is set to.
#[derive(Clone, Copy)]
pub struct Settings {
    /// How it treats wrong bits.
    pub mode: Mode,
    /// How many codeblocks it takes in a CLTU.
    pub limit: CodeblockLimit,
}

impl Settings {
    ghost use Rattle.std.specs.Prelude.{◌≡◌};
    ghost use Rattle.decoding.specs.Meaning.{made_settings, settings_answer};

    /// A mode, with a limit on how many codeblocks a CLTU has. Refused with 4 where this is outside 1 to 147.
    pub fn new(mode: Mode, limit: usize) -> Result<Settings, Refusal>
        ensures { made_settings result ≡ settings_answer mode limit }
    {
        let limit = CodeblockLimit::try_from(limit)?;
        Ok(Settings { mode, limit })
    }
}
