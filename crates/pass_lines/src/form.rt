//! The forms in which symbols are written.

ghost use Rattle.std.specs.Prelude.{◌≡◌, ◌⊎◌, Some, Ok, Err, IfOk, IfErr, map, length};
ghost use Rattle.pass_record.specs.Record.{packed};
ghost use Rattle.pass_lines.specs.Forms.{form_word, bit_octet, level_octet, record_made, octets_made, segment_symbols};
ghost use Rattle.pass_lines.specs.Symbols.{all_symbols};
ghost use Rattle.pass_lines.specs.declared.error.PassError.TheVariants.{Memory};

use crate::PassError;
use pass_record::{octet_of, record_length, write_record};
use std::alloc::{AllocError, Global};
use std::fmt;

/// A form in which symbols are written.
#[derive(Clone, Copy, Debug, PartialEq, Eq)]
pub enum Form {
    /// A pass record, which keeps the segments apart.
    Record,
    /// Eight symbols an octet, the first in its highest bit, padded with zeros to whole octets.
    Packed,
    /// An octet a symbol, 0 or 1.
    Bits,
    /// A signed octet a symbol: 64 for a 0, -64 for a 1.
    Levels,
}

/// The form in a word, as `record`.
impl fmt::Display for Form {
    ghost output = { λ form. Some (form_word form) };

    fn fmt<W: fmt::Write>(&self, f: &mut fmt::Formatter<W>) -> fmt::Result {
        f.write_str(match self {
            Form::Record => "record",
            Form::Packed => "packed",
            Form::Bits => "bits",
            Form::Levels => "levels",
        })
    }
}

// The record of segments.
fn record(heap: Global, segments: &[&[bool]]) -> Result<Vec<u8>, PassError>
    ensures made { IfOk result (λ v. record_made (segment_symbols segments.now) ≡ Ok v.items) }
    ensures none { IfErr result (λ e. (e ≡ Memory) ⊎ (record_made (segment_symbols segments.now) ≡ Err e)) }
{
    match record_length(segments) {
        Ok(octets) => {
            let mut memory = vec![in heap; 0u8; octets]?;
            // Not refused: the memory is as long as the record.
            let _ = write_record(segments, memory.as_mut_slice());
            Ok(memory)
        }
        Err(_) => Err(PassError::RecordTooLong),
    }
}

// Symbols, eight to an octet.
fn packed(heap: Global, symbols: &[bool]) -> Result<Vec<u8>, AllocError>
    ensures { IfOk result (λ v. v.items ≡ packed symbols.now) }
{
    let mut octets = Vec::new(heap);
    for k in 0..symbols.len().div_ceil(8) {
        octets.push(octet_of(&symbols[8 * k..]))?;
    }
    Ok(octets)
}

// Symbols, one to an octet.
fn bits(heap: Global, symbols: &[bool]) -> Result<Vec<u8>, AllocError>
    ensures { IfOk result (λ v. v.items ≡ map bit_octet symbols.now) }
{
    symbols
        .iter()
        .map(|bit| if *bit { 1u8 } else { 0 })
        .collect(heap)
}

// Symbols as levels, of which 192 as an octet is -64.
fn levels(heap: Global, symbols: &[bool]) -> Result<Vec<u8>, AllocError>
    ensures { IfOk result (λ v. v.items ≡ map level_octet symbols.now) }
{
    symbols
        .iter()
        .map(|bit| if *bit { 192u8 } else { 64 })
        .collect(heap)
}

impl Form {
    // Segments, of which these are all symbols, in this form.
    pub(crate) fn octets(
        self,
        heap: Global,
        segments: &[&[bool]],
        symbols: &[bool],
    ) -> Result<Vec<u8>, PassError>
        requires { symbols.now ≡ all_symbols (segment_symbols segments.now) }
        ensures made { IfOk result (λ v. octets_made self (segment_symbols segments.now) ≡ Ok v.items) }
        ensures none { IfErr result (λ e.
            (e ≡ Memory) ⊎ (octets_made self (segment_symbols segments.now) ≡ Err e)) }
    {
        Ok(match self {
            Form::Record => return record(heap, segments),
            Form::Packed => packed(heap, symbols)?,
            Form::Bits => bits(heap, symbols)?,
            Form::Levels => levels(heap, symbols)?,
        })
    }
}
