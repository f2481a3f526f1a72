//! The arguments of the program `receive`: the receiver, what of it is printed, how its input is laid out, and the
//! file that it reads.
#![tactic(auto)]

ghost use Rattle.std.specs.Prelude.{◌≡◌, IfOk, codes, false};
ghost use Rattle.clap.specs.Words.{app_of, rule_of};
ghost use Rattle.command_line.specs.Program.{program_app};
ghost use Rattle.receiver_options.specs.Options.{flag as plain_flag, option_with_default};
ghost use Rattle.receive_arguments.specs.Command.{with_text_options as with_options, receive_app};

mod arguments;

pub use arguments::ReceiveArguments;
use clap::{Arg, ArgAction, Command};
use command_line::{input_file, program};
use receiver_options::with_receiver_options;
use std::alloc::{AllocError, Global};

/// The program's name.
pub const NAME: &str = "receive";

const LINES: &str = "\
The input is a pass record: segments of symbols as a radio received them, packed eight to an octet,
then an entry for each segment, then how many entries there are and where they begin. The carrier goes
up before each segment and down after it. In the other forms the input is one segment of any length,
taken as it comes: packed, eight symbols an octet, first the highest; bits, an octet a symbol, 0 or 1;
levels, a signed octet a symbol, which is a 1 where it is negative.

For each candidate that ends receive writes

  REASON CODEBLOCKS CORRECTIONS   closed, empty, long, full or down; how many codeblocks were added
                                  to the candidate, and how many of them were corrected

and behind closed, before the next symbol,

  frame OCTETS DIGITS             the candidate, fill included: how many octets it has, and these
                                  in capital hexadecimal digits

After the last segment comes

  end REPORTS FRAMES              how many reports and frames were written

With --places there stands before each report

  at SEGMENT SYMBOL               the symbol that made it, both counted from 1; of down the last one

Where the input is no pass record, the only line is

  refused 16";

// An option that takes no value.
fn flag<'a>(heap: Global, name: &'a str, help: &'a str) -> Arg<'a>
    ensures rule { rule_of result ≡ plain_flag name.entry.now }
    ensures local { result.global ≡ false }
{
    Arg::new(heap, name)
        .long(name)
        .action(ArgAction::SetTrue)
        .help(help)
}

// The option `--from`, which is `record` where it is not given.
fn form_option<'a>(heap: Global) -> Arg<'a>
    ensures rule { rule_of result ≡ option_with_default (codes "from") (codes "record") }
    ensures local { result.global ≡ false }
{
    Arg::new(heap, "from")
        .long("from")
        .value_name("FORM")
        .default_value("record")
        .help("How the input is laid out: record, packed, bits or levels")
}

// The program's name and help.
fn described<'a>(heap: Global) -> Command<'a>
    ensures { app_of result ≡ program_app (codes "receive") }
{
    program(heap, NAME)
        .about("receive: runs a receiver over what was received")
        .after_help(LINES)
}

// The option `--places`.
fn places_option<'a>(heap: Global) -> Arg<'a>
    ensures rule { rule_of result ≡ plain_flag (codes "places") }
    ensures local { result.global ≡ false }
{
    flag(
        heap,
        "places",
        "Before each report a line with the symbol that made it",
    )
}

// The option `--candidates`.
fn candidates_option<'a>(heap: Global) -> Arg<'a>
    ensures rule { rule_of result ≡ plain_flag (codes "candidates") }
    ensures local { result.global ≡ false }
{
    flag(
        heap,
        "candidates",
        "Only the octets of each candidate, a line each",
    )
}

// The option `--why`.
fn why_option<'a>(heap: Global) -> Arg<'a>
    ensures rule { rule_of result ≡ plain_flag (codes "why") }
    ensures local { result.global ≡ false }
{
    flag(
        heap,
        "why",
        "Tells on standard error what is wrong with an input that is no pass record",
    )
}

// Gives a command the options of what is read and printed.
fn with_text_options(heap: Global, command: Command<'_>) -> Result<Command<'_>, AllocError>
    ensures { IfOk result (λ changed. app_of changed ≡ with_options (app_of command.entry)) }
{
    command
        .arg(form_option(heap))?
        .arg(places_option(heap))?
        .arg(candidates_option(heap))?
        .arg(why_option(heap))
}

/// The program's arguments.
pub fn command<'a>(heap: Global) -> Result<Command<'a>, AllocError>
    ensures { IfOk result (λ made. app_of made ≡ receive_app) }
{
    let command = with_receiver_options(heap, described(heap))?;
    with_text_options(heap, command)?.arg(input_file(heap))
}
