//! The options together.

ghost use Rattle.std.specs.Prelude.{◌≡◌, IfOk};
ghost use Rattle.clap.specs.Words.{app_of};
ghost use Rattle.receiver_options.specs.Options.{with_receiver_options as with_options};

use crate::{
    asked_cells, asked_limit, asked_mode, asked_randomizer, cells_option, limit_option,
    mode_option, random_option,
};
use bch::Mode;
use clap::{ArgMatches, Command};
use cltu::CodeblockLimit;
use command_line::Failure;
use randomizer::Randomizer;
use std::alloc::{AllocError, Global};

/// The receiver that is asked for.
#[derive(Clone, Copy, Debug, PartialEq, Eq)]
pub struct ReceiverOptions {
    /// How it treats wrong bits.
    pub mode: Mode,
    /// How many codeblocks a CLTU may have.
    pub limit: CodeblockLimit,
    /// How many cells its hold has.
    pub cells: u16,
    /// Whether what it takes is randomized.
    pub randomizer: Randomizer,
}

/// Gives a command the options of a receiver.
pub fn with_receiver_options(heap: Global, command: Command<'_>) -> Result<Command<'_>, AllocError>
    ensures { IfOk result (λ changed. app_of changed ≡ with_options (app_of command.entry)) }
{
    command
        .arg(mode_option(heap))?
        .arg(limit_option(heap))?
        .arg(cells_option(heap))?
        .arg(random_option(heap))
}

impl ReceiverOptions {
    ghost use Rattle.std.specs.Prelude.{◌≡◌, IfOk, IfErr};
    ghost use Rattle.command_line.specs.Status.{failure_status};
    ghost use Rattle.receiver_options.specs.Asked.{Asks};
    ghost use Rattle.receiver_options.specs.declared.options.ReceiverOptions.{ReceiverOptions as Options};

    /// The receiver that the options ask for: correcting, with a limit of 37, 37 cells and the randomizer off
    /// where they say nothing else. The arguments are wrong where an option has a value that it does not take.
    pub fn asked(heap: Global, matches: &ArgMatches<'_>) -> Result<ReceiverOptions, Failure>
        ensures options { IfOk result (Asks matches.now) }
        ensures refused { IfErr result (λ failure. failure_status failure ≡ 2
            → (options : Options) → Asks matches.now options → ⊥) }
    {
        Ok(ReceiverOptions {
            mode: asked_mode(heap, matches)?.unwrap_or(Mode::Correcting),
            limit: asked_limit(heap, matches)?,
            cells: asked_cells(heap, matches)?,
            randomizer: asked_randomizer(matches),
        })
    }
}

#[cfg(test)]
mod tests {
    use super::*;
    use command_line::program;
    use std::test::Fail;

    // The receiver that these words behind the program's name ask for, or `None` where they are wrong.
    fn asked_by<'a>(heap: Global, words: &'a [&'a str]) -> Result<Option<ReceiverOptions>, Fail> {
        let command = with_receiver_options(heap, program(heap, "receive"))?;
        match command.try_get_matches_from(words) {
            Ok(matches) => Ok(ReceiverOptions::asked(heap, &matches).ok()),
            Err(_) => Ok(None),
        }
    }

    #[test]
    fn each_option(rt: HostRuntime) -> Result<(), Fail> {
        let heap = rt.alloc();
        let unasked = ReceiverOptions {
            mode: Mode::Correcting,
            limit: CodeblockLimit::try_from(37usize)?,
            cells: 37,
            randomizer: Randomizer::Off,
        };
        assert_eq!(rt; asked_by(heap, &["receive"])?, Some(unasked));
        let words = [
            "receive",
            "--mode",
            "detecting",
            "--limit=147",
            "--cells",
            "0",
            "--random",
        ];
        let all = asked_by(heap, &words)?;
        assert_eq!(rt;
            all,
            Some(ReceiverOptions {
                mode: Mode::Detecting,
                limit: CodeblockLimit::MOST,
                cells: 0,
                randomizer: Randomizer::On,
            })
        );
        let many = asked_by(heap, &["receive", "--cells=65535"])?;
        assert_eq!(rt;
            many,
            Some(ReceiverOptions {
                cells: 65535,
                ..unasked
            })
        );
        for wrong in [
            "--limit=0",
            "--limit=148",
            "--limit=",
            "--cells=65536",
            "--cells=-1",
            "--mode=both",
        ] {
            assert_eq!(rt; asked_by(heap, &["receive", wrong])?, None);
        }
        Ok(())
    }
}
