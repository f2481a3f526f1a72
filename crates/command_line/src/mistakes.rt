//! What is wrong with the arguments, as the line of an error says it.

ghost use Rattle.std.specs.Prelude.{◌≡◌, ◌++◌, IfOk, codes, string_bytes};

use clap::builder::ValueParser;
use clap::error::ErrorKind;
use clap::{Arg, Command};
use std::alloc::{AllocError, Global};

/// The line of an error, without the program's name, for a word that no argument takes.
pub fn unknown_argument(heap: Global, word: &str) -> Result<String, AllocError>
    ensures { IfOk result (λ line. string_bytes line
        ≡ codes "unknown argument '" ++ word.now ++ codes "'; --help tells what there is") }
{
    format!(in heap; "unknown argument '{word}'; --help tells what there is")
}

// The text behind the first of `before`, up to the first of `after` behind that.
fn between<'t>(text: &'t str, before: &str, after: &str) -> Option<&'t str> {
    let (_, rest) = text.split_once(before)?;
    let (found, _) = rest.split_once(after)?;
    Some(found)
}

// An argument as its user writes it: `--limit` of `--limit <L>`, and `FILE` of `[FILE]`.
fn written(shown: &str) -> &str {
    let (name, _) = shown.split_once(' ').unwrap_or((shown, ""));
    name.trim_matches(|c| matches!(c, '<' | '>' | '[' | ']'))
}

// What values an argument takes.
fn values(heap: Global, parser: ValueParser<'_>) -> Result<String, AllocError> {
    match parser {
        ValueParser::Signed(least, most) => format!(in heap; "{least} to {most}"),
        ValueParser::Unsigned(least, most) => format!(in heap; "{least} to {most}"),
        ValueParser::Names(names) => {
            let mut text = String::from_str(heap, "one of")?;
            let mut separator = " ";
            for name in names {
                text.push_str(separator)?;
                text.push_str(name)?;
                separator = ", ";
            }
            Ok(text)
        }
        _ => String::from_str(heap, "another value"),
    }
}

fn find<'c, 'a>(command: &'c Command<'a>, name: &str) -> Option<&'c Arg<'a>> {
    let long = name.strip_prefix("--")?;
    command
        .get_arguments()
        .iter()
        .find(|arg| arg.get_long() == Some(long))
}

// A value that its argument does not take.
fn wrong_value(heap: Global, command: &Command<'_>, text: &str) -> Result<String, AllocError> {
    let Some(value) = between(text, "invalid value '", "' for '") else {
        let name = written(between(text, "for '", "'").unwrap_or(""));
        return format!(in heap; "{name} lacks its value");
    };
    let name = written(between(text, "' for '", "'").unwrap_or(""));
    let parser = find(command, name).map_or(ValueParser::String, |arg| arg.get_value_parser());
    let values = values(heap, parser)?;
    format!(in heap; "{name} takes {values}, not '{value}'")
}

/// What is wrong, without the program's name.
pub(crate) fn mistake(
    heap: Global,
    command: &Command<'_>,
    error: &clap::Error,
) -> Result<String, AllocError> {
    let text = error.to_string(heap)?;
    let text = text.as_str();
    match error.kind() {
        ErrorKind::UnknownArgument => {
            unknown_argument(heap, between(text, "argument '", "' found").unwrap_or(""))
        }
        ErrorKind::InvalidValue | ErrorKind::ValueValidation => wrong_value(heap, command, text),
        ErrorKind::TooManyValues => {
            let value = between(text, "value '", "' for '").unwrap_or("");
            let name = written(between(text, "' for '", "'").unwrap_or(""));
            format!(in heap; "{name} takes no value, and has '{value}'")
        }
        ErrorKind::ArgumentConflict => {
            let name = written(between(text, "argument '", "'").unwrap_or(""));
            match between(text, "cannot be used with '", "'") {
                Some(other) => {
                    let other = written(other);
                    format!(in heap; "{name} and {other} do not go together")
                }
                None => format!(in heap; "{name} stands more than once"),
            }
        }
        ErrorKind::MissingRequiredArgument => {
            let name = written(between(text, "provided:\n  ", "\n").unwrap_or(""));
            format!(in heap; "{name} is missing")
        }
        kind => kind.to_string(heap),
    }
}
