ghost use Rattle.std.specs.Prelude.{◌≡◌, IfOk, map};
ghost use Rattle.std.specs.Option.{option_map};
ghost use Rattle.std.specs.Result.{result_ok};
ghost use Rattle.hex.specs.Hex.{decode_of};
ghost use Rattle.bch.specs.Bits.{octet_bits, bits_of};
ghost use Rattle.reception.specs.Runs.{idle};
ghost use Rattle.drive_lines.specs.Asked.{ask_symbols, reading, asked, asked_by, asked_by_name, asked_by_symbols, asked_by_idle, first_bit, is, meant};

use crate::Call;
use crate::words::{bit, bits, levels, number, without_return, words};
use hex::FromHexError;
use std::alloc::{AllocError, Global};

/// How many bits of idle a line may ask for.
const MOST_IDLE: u32 = 1_000_000;

/// What a line is.
#[derive(Debug, Drop)]
pub enum Line {
    /// Empty or blank, or a comment: it is passed over.
    PassedOver,
    /// A call.
    Call(Call),
    /// Anything else.
    Unreadable,
}

impl Line {
    /// What a line is, without its newline. Its words are parted by blanks or tabs, and a carriage return at its
    /// end is dropped. Lines that are empty or blank and those that begin with `#` are passed over.
    pub fn read(heap: Global, line: &[u8]) -> Result<Line, AllocError>
        ensures { IfOk result (λ l. meant l ≡ reading line.now) }
    {
        let line = without_return(line);
        if line.first() == Some(&b'#') {
            return Ok(Line::PassedOver);
        }
        let words = words(heap, line)?;
        if words.is_empty() {
            return Ok(Line::PassedOver);
        }
        match call_of(heap, words.as_slice())? {
            Some(call) => Ok(Line::Call(call)),
            None => Ok(Line::Unreadable),
        }
    }
}

// The call that words ask for.
fn call_of(heap: Global, words: &[&[u8]]) -> Result<Option<Call>, AllocError>
    ensures { IfOk result (λ o. option_map asked o ≡ asked_by (map (λ w. w.now) words.now)) }
{
    match words {
        [name] => Ok(call_of_name(name)),
        [name, written] => call_of_symbols(heap, name, written),
        [name, first, count] => call_of_idle(heap, name, first, count),
        _ => Ok(None),
    }
}

// Whether a name is this word.
fn is(word: &[u8], name: &[u8]) -> bool
    ensures { result ≡ is word.now name.now }
{
    name == word
}

// The call that a word asks for alone.
fn call_of_name(name: &[u8]) -> Option<Call>
    ensures { option_map asked result ≡ asked_by_name name.now }
{
    if is(b"up", name) {
        Some(Call::Up)
    } else if is(b"down", name) {
        Some(Call::Down)
    } else if is(b"release", name) {
        Some(Call::Release)
    } else if is(b"oldest", name) {
        Some(Call::Oldest)
    } else if is(b"state", name) {
        Some(Call::State)
    } else {
        None
    }
}

// The call with symbols that two words ask for.
fn call_of_symbols(heap: Global, name: &[u8], written: &[u8]) -> Result<Option<Call>, AllocError>
    ensures { IfOk result (λ o. option_map asked o ≡ asked_by_symbols name.now written.now) }
{
    if is(b"bits", name) {
        Ok(bits(heap, written)?.map(Call::Bits))
    } else if is(b"octets", name) {
        call_of_octets(heap, written)
    } else if is(b"levels", name) {
        Ok(levels(heap, written)?.map(Call::Levels))
    } else {
        Ok(None)
    }
}

// The call whose symbols are the bits of octets.
fn call_of_octets(heap: Global, written: &[u8]) -> Result<Option<Call>, AllocError>
    ensures { IfOk result (λ o. option_map asked o
        ≡ option_map (λ octets. ask_symbols (bits_of octets)) (result_ok (decode_of written.now))) }
{
    match hex::decode(heap, written) {
        Ok(octets) => Ok(Some(Call::Bits(bits_of(heap, octets.as_slice())?))),
        Err(FromHexError::OutOfMemory) => Err(AllocError),
        Err(_) => Ok(None),
    }
}

// The bits of octets, in the order in which they are sent.
fn bits_of(heap: Global, octets: &[u8]) -> Result<Vec<bool>, AllocError>
    ensures { IfOk result (λ bits. bits.items ≡ bits_of octets.now) }
{
    let mut bits = Vec::new(heap);
    for octet in octets {
        bits.extend_from_slice(&octet_bits(*octet))?;
    }
    Ok(bits)
}

// The bits of an octet, in the order in which they are sent.
fn octet_bits(octet: u8) -> [bool; 8]
    ensures { result ≡ octet_bits octet }
{
    [
        octet >> 7 & 1 == 1,
        octet >> 6 & 1 == 1,
        octet >> 5 & 1 == 1,
        octet >> 4 & 1 == 1,
        octet >> 3 & 1 == 1,
        octet >> 2 & 1 == 1,
        octet >> 1 & 1 == 1,
        octet & 1 == 1,
    ]
}

// The bit that a word of one digit writes.
fn first_bit(word: &[u8]) -> Option<bool>
    ensures { result ≡ first_bit word.now }
{
    match word {
        [digit] => bit(*digit),
        _ => None,
    }
}

// The call whose symbols are idle.
fn call_of_idle(
    heap: Global,
    name: &[u8],
    first: &[u8],
    count: &[u8],
) -> Result<Option<Call>, AllocError>
    ensures { IfOk result (λ o. option_map asked o ≡ asked_by_idle name.now first.now count.now) }
{
    if !is(b"idle", name) {
        return Ok(None);
    }
    let Some(first) = first_bit(first) else {
        return Ok(None);
    };
    let Some(count) = number(count, MOST_IDLE) else {
        return Ok(None);
    };
    Ok(Some(Call::Bits(idle(heap, first, count)?)))
}

// So many alternating bits.
fn idle(heap: Global, first: bool, count: u32) -> Result<Vec<bool>, AllocError>
    ensures { IfOk result (λ bits. bits.items ≡ idle first count) }
{
    let mut bits = Vec::new(heap);
    let mut bit = first;
    for _ in 0..count {
        bits.push(bit)?;
        bit = !bit;
    }
    Ok(bits)
}
