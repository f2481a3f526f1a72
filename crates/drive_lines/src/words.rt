ghost use Rattle.std.specs.Prelude.{◌≡◌, ◌<◌, ◌^◌, ◌==◌, IfOk, map};
ghost use Rattle.std.specs.Option.{option_map};
ghost use Rattle.std.specs.List.{slice_split};
ghost use Rattle.drive_lines.specs.Words.{is_gap, words, strip_return, number, bit, bits, level, levels};

use std::alloc::{AllocError, Global};

// Whether an octet parts words.
fn is_gap(octet: u8) -> bool
    ensures { result ≡ is_gap octet }
{
    octet == b' ' || octet == b'\t'
}

// The words of a line.
pub(crate) fn words(heap: Global, line: &[u8]) -> Result<Vec<&[u8]>, AllocError>
    ensures { IfOk result (λ ws. map (λ w. w.now) ws.items ≡ words line.now) }
{
    line.split(|octet| is_gap(*octet))
        .filter(|word| !word.is_empty())
        .collect(heap)
}

// The line without the carriage return at its end, if one is there.
pub(crate) fn without_return(line: &[u8]) -> &[u8]
    ensures { result.now ≡ strip_return line.now }
{
    match line {
        [front @ .., b'\r'] => front,
        _ => line,
    }
}

// The number that a word writes in decimal digits alone, if it is at most so much.
pub(crate) fn number(word: &[u8], most: u32) -> Option<u32>
    requires { most < 2 ^ 24 }
    ensures { result ≡ number most word.now }
{
    if word.is_empty() {
        return None;
    }
    let mut value = 0;
    for digit in word {
        if !digit.is_ascii_digit() {
            return None;
        }
        value = 10 * value + u32::from(*digit - b'0');
        if value > most {
            return None;
        }
    }
    Some(value)
}

// The bit that a digit writes.
pub(crate) fn bit(digit: u8) -> Option<bool>
    ensures { result ≡ bit digit }
{
    match digit {
        b'0' => Some(false),
        b'1' => Some(true),
        _ => None,
    }
}

// The bits that a word writes, a digit each.
pub(crate) fn bits(heap: Global, word: &[u8]) -> Result<Option<Vec<bool>>, AllocError>
    ensures { IfOk result (λ o. option_map (λ v. v.items) o ≡ bits word.now) }
{
    let mut bits = Vec::new(heap);
    for digit in word {
        let Some(bit) = bit(*digit) else {
            return Ok(None);
        };
        bits.push(bit)?;
    }
    Ok(Some(bits))
}

// The soft level that a word writes.
fn level(word: &[u8]) -> Option<i8>
    ensures { result ≡ level word.now }
{
    match word {
        [b'-', digits @ ..] => Some((0 - number(digits, 128)? as i32) as i8),
        _ => Some(number(word, 127)? as i8),
    }
}

// What stands between the commas of a word.
fn parts(heap: Global, word: &[u8]) -> Result<Vec<&[u8]>, AllocError>
    ensures { IfOk result (λ parts. map (λ w. w.now) parts.items ≡ slice_split (λ x. x == 44) word.now) }
{
    word.split(|octet| *octet == b',').collect(heap)
}

// The levels that a word writes, parted by commas.
pub(crate) fn levels(heap: Global, word: &[u8]) -> Result<Option<Vec<i8>>, AllocError>
    ensures { IfOk result (λ o. option_map (λ v. v.items) o ≡ levels word.now) }
{
    let parts = parts(heap, word)?;
    let mut levels = Vec::new(heap);
    for part in &parts {
        let Some(level) = level(part) else {
            return Ok(None);
        };
        levels.push(level)?;
    }
    Ok(Some(levels))
}
