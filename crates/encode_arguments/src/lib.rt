//! The arguments of the program `encode`: `random` or `--random`, and the file that it reads.
#![tactic(auto)]

ghost use Rattle.std.specs.Prelude.{◌≡◌, IfOk, codes, false};
ghost use Rattle.clap.specs.Words.{app_of, rule_of};
ghost use Rattle.command_line.specs.Program.{program_app};
ghost use Rattle.encode_arguments.specs.Command.{encode_app, word as plain_word};

mod arguments;

pub use arguments::EncodeArguments;
use clap::{Arg, Command};
use command_line::program;
use receiver_options::random_option;
use std::alloc::{AllocError, Global};

/// The program's name.
pub const NAME: &str = "encode";

const LINES: &str = "\
Each line read is a frame in hexadecimal digits of either case, two an octet. Each is answered by one
line:

  cltu CODEBLOCKS FILL OCTETS DIGITS   its CLTU: how many codeblocks, fill octets and octets,
                                       and the octets in capitals
  refused 1                            the frame is empty or longer than 1,024 octets
  unreadable                           the line is not whole octets of hexadecimal digits

An empty line is an empty frame. A line ends with a newline, or a carriage return and a newline;
the last may lack its end. After the last line comes

  end LINES CLTUS                      how many lines were read and how many CLTUs written

A CLTU has at most 147 codeblocks.";

// A word that is no option.
fn word<'a>(heap: Global, id: &'a str, shown: &'a str, help: &'a str) -> Arg<'a>
    ensures rule { rule_of result ≡ plain_word id.entry.now }
    ensures local { result.global ≡ false }
{
    Arg::new(heap, id).value_name(shown).help(help)
}

// The program's name and help.
fn described<'a>(heap: Global) -> Command<'a>
    ensures { app_of result ≡ program_app (codes "encode") }
{
    program(heap, NAME)
        .about("encode: writes frames as CLTUs")
        .after_help(LINES)
}

/// The program's arguments.
pub fn command<'a>(heap: Global) -> Result<Command<'a>, AllocError>
    ensures { IfOk result (λ made. app_of made ≡ encode_app) }
{
    described(heap)
        .arg(random_option(heap))?
        .arg(word(
            heap,
            "word",
            "random",
            "The same as --random; a file of this name is ./random",
        ))?
        .arg(word(
            heap,
            "file",
            "FILE",
            "The file to read; without it, or where it is -, standard input",
        ))
}
