//! A line of the input, and what it gives.

ghost use Rattle.std.specs.Prelude.{◌≡◌, ◌==◌, ◌-◌, IfOk, Some, length, slice_index, vec_items};
ghost use Rattle.std.specs.Char.{is_ascii_digit};
ghost use Rattle.std.specs.List.{before_first, after_first, list_all, position};
ghost use Rattle.std.specs.Option.{option_map};
ghost use Rattle.cltu.specs.Writing.{sent_cltu, length_answer};
ghost use Rattle.pass_lines.specs.Told.{fault_text};
ghost use Rattle.pass_lines.specs.Given.{is_number, is_end_line, octets_written, told_fill, told_digits, is_printed, told_cltu, if_sent, line_given, octets_given};

use cltu::Sender;
use hex::FromHexError;
use refusals::Refusal;
use std::alloc::{AllocError, Global};
use std::fmt;

/// What is wrong with a line.
#[derive(Clone, Copy, Debug, PartialEq, Eq)]
pub enum LineFault {
    /// It is not whole octets of hexadecimal digits, and no line of `encode` that tells a CLTU or the end.
    Unreadable,
    /// It begins as a line that tells a CLTU, and is none: its numbers do not agree with its digits.
    NotACltu,
    /// It is a frame that the sender refuses.
    Refused(Refusal),
}

// The first place of an octet in a text.
fn first_place(text: &[u8], octet: u8) -> Option<usize>
    ensures { result ≡ position (λ x. x == octet) text.now }
{
    text.iter().position(|x| *x == octet)
}

// The part of a text in front of the first such octet, and the part behind it: all and nothing where there is none.
#[tactic(auto, using(crate::proofs::Cuts::cuts))]
pub(crate) fn cut(text: &[u8], octet: u8) -> (&[u8], &[u8])
    ensures front { result.0.now ≡ before_first (λ x. x == octet) text.now }
    ensures behind { result.1.now ≡ after_first (λ x. x == octet) text.now }
{
    match first_place(text, octet) {
        Some(place) => (&text[..place], &text[place + 1..]),
        None => (text, &[]),
    }
}

// Whether a text is decimal digits alone.
fn all_digits(text: &[u8]) -> bool
    ensures { result ≡ list_all is_ascii_digit text.now }
{
    text.iter().all(|x| x.is_ascii_digit())
}

// Whether a text is a number in decimal digits.
fn is_number(text: &[u8]) -> bool
    ensures { result ≡ is_number text.now }
{
    !text.is_empty() && all_digits(text)
}

// Whether a line is `end` and two numbers.
fn is_end_line(line: &[u8]) -> bool
    ensures { result ≡ is_end_line line.now }
{
    let (_end, numbers) = cut(line, b' ');
    let (lines, cltus) = cut(numbers, b' ');
    line.starts_with(b"end ") && is_number(lines) && is_number(cltus)
}

// The octets that digits write, two an octet in either case, or `None` where they are not whole octets.
fn octets_written(heap: Global, digits: &[u8]) -> Result<Option<Vec<u8>>, AllocError>
    ensures { IfOk result (λ o. option_map vec_items o ≡ octets_written digits.now) }
{
    match hex::decode(heap, digits) {
        Ok(octets) => Ok(Some(octets)),
        Err(FromHexError::OutOfMemory) => Err(AllocError),
        Err(_) => Ok(None),
    }
}

// The digit that a text begins with, as a number.
fn first_digit(text: &[u8]) -> u8
    ensures { result ≡ slice_index text.now 0 - 48 }
{
    text.first().copied().unwrap_or(0).saturating_sub(b'0')
}

// Whether a line is what `encode` prints for a CLTU of these octets, with this fill and these digits.
fn is_printed(
    heap: Global,
    line: &[u8],
    octets: usize,
    fill: u8,
    digits: &[u8],
) -> Result<bool, AllocError>
    ensures { IfOk result (λ b. b ≡ is_printed line.now octets fill digits.now) }
{
    if octets < 10 || octets % 8 != 2 || fill >= 7 {
        return Ok(false);
    }
    let mut text = Vec::new(heap);
    let numbers = format!(in heap; "cltu {} {fill} {octets} ", (octets - 10) / 8)?;
    text.extend_from_slice(numbers.as_bytes())?;
    text.extend_from_slice(digits)?;
    Ok(line == text.as_slice())
}

// Of a line that tells a CLTU the fill and the digits.
fn told(line: &[u8]) -> (u8, &[u8])
    ensures fill { result.0 ≡ told_fill line.now }
    ensures digits { result.1.now ≡ told_digits line.now }
{
    let (_cltu, rest) = cut(line, b' ');
    let (_codeblocks, rest) = cut(rest, b' ');
    let fill = first_digit(rest);
    let (_fill, rest) = cut(rest, b' ');
    let (_octets, digits) = cut(rest, b' ');
    (fill, digits)
}

// The CLTU that a line tells, if it tells one.
fn told_cltu(heap: Global, line: &[u8]) -> Result<Option<Vec<u8>>, AllocError>
    ensures { IfOk result (λ o. option_map vec_items o ≡ told_cltu line.now) }
{
    let (fill, digits) = told(line);
    let Some(octets) = octets_written(heap, digits)? else {
        return Ok(None);
    };
    let is_told = is_printed(heap, line, octets.len(), fill, digits)?;
    Ok(is_told.then_some(octets))
}

// The CLTU that the sender makes of a frame, or why it refuses the frame.
fn cltu_of(
    heap: Global,
    sender: Sender,
    frame: &[u8],
) -> Result<Result<Option<Vec<u8>>, LineFault>, AllocError>
    ensures { IfOk result (λ given. octets_given given
        ≡ if_sent (sent_cltu sender frame.now) (length_answer sender (length frame.now))) }
{
    match sender.cltu_length(frame.len()) {
        Ok(octets) => {
            let mut memory = vec![in heap; 0u8; octets]?;
            // Not refused: the memory is as long as the CLTU.
            let _ = sender.write_cltu(frame, memory.as_mut_slice());
            Ok(Ok(Some(memory)))
        }
        Err(refusal) => Ok(Err(LineFault::Refused(refusal))),
    }
}

// What a line gives: the octets of a CLTU, or nothing where it is passed over.
pub(crate) fn line_given(
    heap: Global,
    sender: Sender,
    line: &[u8],
) -> Result<Result<Option<Vec<u8>>, LineFault>, AllocError>
    ensures { IfOk result (λ given. octets_given given ≡ line_given sender line.now) }
{
    if line.starts_with(b"cltu ") {
        return Ok(match told_cltu(heap, line)? {
            Some(octets) => Ok(Some(octets)),
            None => Err(LineFault::NotACltu),
        });
    }
    if is_end_line(line) {
        return Ok(Ok(None));
    }
    match octets_written(heap, line)? {
        Some(frame) => cltu_of(heap, sender, frame.as_slice()),
        None => Ok(Err(LineFault::Unreadable)),
    }
}

/// What is wrong, in words.
impl fmt::Display for LineFault {
    ghost output = { λ fault. Some (fault_text fault) };

    fn fmt<W: fmt::Write>(&self, f: &mut fmt::Formatter<W>) -> fmt::Result {
        match self {
            LineFault::Unreadable => f.write_str(
                "neither whole octets of hexadecimal digits nor a line that encode prints",
            ),
            LineFault::NotACltu => {
                f.write_str("no CLTU as encode prints one: its numbers and digits do not agree")
            }
            LineFault::Refused(refusal) => write!(f, "{refusal}"),
        }
    }
}
