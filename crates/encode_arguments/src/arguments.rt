//! What the program is asked for.

use clap::ArgMatches;
use command_line::{Failure, file_of_word, unknown_argument};
use randomizer::Randomizer;
use receiver_options::asked_randomizer;
use std::alloc::Global;

/// What `encode` is asked for.
#[derive(Clone, Copy, Debug, PartialEq, Eq)]
pub struct EncodeArguments<'a> {
    /// Whether frames are randomized.
    pub randomizer: Randomizer,
    /// The file that it reads, or `None` for standard input.
    pub file: Option<&'a str>,
}

impl<'a> EncodeArguments<'a> {
    ghost use Rattle.std.specs.Prelude.{◌≡◌, IfOk, IfErr, true};
    ghost use Rattle.command_line.specs.Status.{failure_status};
    ghost use Rattle.encode_arguments.specs.Words.{Asks, first_word, second_word, is_one_too_many};

    /// What the matches of `command` ask for. The arguments are wrong where a second word stands behind another
    /// than `random`.
    pub fn asked(heap: Global, matches: &ArgMatches<'a>) -> Result<EncodeArguments<'a>, Failure>
        ensures asked { IfOk result (Asks matches.now) }
        ensures refused { IfErr result (λ failure. failure_status failure ≡ 2
            → is_one_too_many (first_word matches.now) (second_word matches.now) ≡ true) }
    {
        let (first, second) = (matches.get_str("word"), matches.get_str("file"));
        match (first, second) {
            (Some("random"), file) => Ok(EncodeArguments {
                randomizer: Randomizer::On,
                file: file.and_then(|word| file_of_word(word)),
            }),
            (Some(_), Some(other)) => Err(Failure::Arguments(unknown_argument(heap, other)?)),
            _ => Ok(EncodeArguments {
                randomizer: asked_randomizer(matches),
                file: first.and_then(|word| file_of_word(word)),
            }),
        }
    }
}

#[cfg(test)]
mod tests {
    use super::*;
    use crate::command;
    use std::test::Fail;

    // What these words behind the program's name ask for, or `None` where they are wrong.
    fn asked_by<'a>(
        heap: Global,
        words: &'a [&'a str],
    ) -> Result<Option<EncodeArguments<'a>>, Fail> {
        match command(heap)?.try_get_matches_from(words) {
            Ok(matches) => Ok(EncodeArguments::asked(heap, &matches).ok()),
            Err(_) => Ok(None),
        }
    }

    #[test]
    fn words_and_options(rt: HostRuntime) -> Result<(), Fail> {
        let heap = rt.alloc();
        let plain = EncodeArguments {
            randomizer: Randomizer::Off,
            file: None,
        };
        let random = EncodeArguments {
            randomizer: Randomizer::On,
            file: None,
        };
        assert_eq!(rt; asked_by(heap, &["encode"])?, Some(plain));
        assert_eq!(rt; asked_by(heap, &["encode", "-"])?, Some(plain));
        assert_eq!(rt; asked_by(heap, &["encode", "random"])?, Some(random));
        assert_eq!(rt; asked_by(heap, &["encode", "--random"])?, Some(random));
        assert_eq!(rt; asked_by(heap, &["encode", "random", "-"])?, Some(random));
        let named = asked_by(heap, &["encode", "--random", "./random"])?;
        assert_eq!(rt;
            named,
            Some(EncodeArguments {
                file: Some("./random"),
                ..random
            })
        );
        let named = asked_by(heap, &["encode", "frames"])?;
        assert_eq!(rt;
            named,
            Some(EncodeArguments {
                file: Some("frames"),
                ..plain
            })
        );
        assert_eq!(rt; asked_by(heap, &["encode", "frames", "random"])?, None);
        assert_eq!(rt; asked_by(heap, &["encode", "--random", "--random"])?, None);
        assert_eq!(rt; asked_by(heap, &["encode", "--randomly"])?, None);
        Ok(())
    }
}
