//! What the program is asked for.

ghost use Rattle.std.specs.Prelude.{◌≡◌, Some, None, Option, IfOk, IfErr};
ghost use Rattle.command_line.specs.Status.{failure_status};
ghost use Rattle.receive_lines.specs.declared.form.Form.{Form as Laid};
ghost use Rattle.receive_arguments.specs.declared.arguments.ReceiveArguments.{ReceiveArguments as Arguments};
ghost use Rattle.receive_arguments.specs.Asked.{given, view_asked, AsksForm, Asks};

use clap::ArgMatches;
use command_line::{Failure, named_file};
use decoding::Settings;
use receive_lines::{Form, Setup, View};
use receiver_options::ReceiverOptions;
use std::alloc::Global;

/// What `receive` is asked for.
#[derive(Clone, Copy)]
pub struct ReceiveArguments<'a> {
    /// The receiver.
    pub setup: Setup,
    /// What is printed.
    pub view: View,
    /// The form of one segment, or `None` where the input is a pass record.
    pub form: Option<Form>,
    /// Whether to tell what is wrong with an input that is no record.
    pub why: bool,
    /// The file that it reads, or `None` for standard input.
    pub file: Option<&'a str>,
}

// Whether an option that takes no value is given.
fn is_given(matches: &ArgMatches<'_>, option: &str) -> bool
    ensures { result ≡ given matches.now option.now }
{
    match matches.get_str(option) {
        Some(value) => value == "true",
        None => false,
    }
}

// What is to be printed.
fn asked_view(heap: Global, matches: &ArgMatches<'_>) -> Result<View, Failure>
    ensures view { IfOk result (λ view. view_asked matches.now ≡ Some view) }
    ensures refused { IfErr result (λ failure. failure_status failure ≡ 2 → view_asked matches.now ≡ None) }
{
    match (is_given(matches, "places"), is_given(matches, "candidates")) {
        (false, false) => Ok(View::Plain),
        (true, false) => Ok(View::Places),
        (false, true) => Ok(View::Candidates),
        (true, true) => Err(Failure::Arguments(format!(in heap;
            "--places and --candidates exclude each other"
        )?)),
    }
}

// How the input is laid out.
fn asked_form(heap: Global, matches: &ArgMatches<'_>) -> Result<Option<Form>, Failure>
    ensures form { IfOk result (AsksForm matches.now) }
    ensures refused { IfErr result (λ failure. failure_status failure ≡ 2
        → (form : Option Laid) → AsksForm matches.now form → ⊥) }
{
    match matches.get_str("from") {
        None | Some("record") => Ok(None),
        Some("packed") => Ok(Some(Form::Packed)),
        Some("bits") => Ok(Some(Form::Bits)),
        Some("levels") => Ok(Some(Form::Levels)),
        Some(text) => Err(Failure::Arguments(format!(in heap;
            "--from takes record, packed, bits or levels, not '{text}'"
        )?)),
    }
}

impl<'a> ReceiveArguments<'a> {
    /// What the matches of `command` ask for. The arguments are wrong where an option has a value that it does
    /// not take, and where both places and candidates alone are asked for.
    pub fn asked(heap: Global, matches: &ArgMatches<'a>) -> Result<ReceiveArguments<'a>, Failure>
        ensures asked { IfOk result (Asks matches.now) }
        ensures refused { IfErr result (λ failure. failure_status failure ≡ 2
            → (asked : Arguments) → Asks matches.now asked → ⊥) }
    {
        let options = ReceiverOptions::asked(heap, matches)?;
        let view = asked_view(heap, matches)?;
        let form = asked_form(heap, matches)?;
        Ok(ReceiveArguments {
            setup: Setup {
                settings: Settings {
                    mode: options.mode,
                    limit: options.limit,
                },
                cells: options.cells,
                randomizer: options.randomizer,
            },
            view,
            form,
            why: is_given(matches, "why"),
            file: named_file(matches),
        })
    }
}
