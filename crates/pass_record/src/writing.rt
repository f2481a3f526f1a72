//! Writing a pass record into the caller's memory.

ghost use Rattle.std.specs.Prelude.{◌≡◌, ◌+◌, ◌*◌, ◌<◌, ◌≤◌, ◌^◌, ◌++◌, map, length, take, IfOk, MatchResult, Err, Some, None, cond, nat_lt, nat_le};
ghost use Rattle.std.specs.List.{flat_map, list_all};
ghost use Rattle.refusals.specs.declared.Refusal.TheVariants.{RecordLayout};
ghost use Rattle.pass_record.specs.Record.{octet_of, octets_for, packed, weighed, four_octets, entries, record_of, IsRecord};
ghost use Rattle.pass_record.specs.Writing.{HasNoRecord, length_answer, writing_answer, memory_after, ReadBackFrom};

use crate::LONGEST_RECORD;
use refusals::Refusal;
use std::convert::AsSlice;

// How many octets hold so many symbols, eight to an octet.
fn octets_for(symbols: usize) -> usize
    ensures { result ≡ octets_for symbols }
{
    symbols.div_ceil(8)
}

// A symbol with its weight in an octet; past the last symbol the bits are zero.
fn weighed(weight: u8, symbols: &[bool], place: usize) -> u8
    ensures value { result ≡ weighed weight symbols.now place }
    ensures most { result ≤ weight }
{
    if symbols.get(place).copied().unwrap_or(false) {
        weight
    } else {
        0
    }
}

/// The first eight symbols in an octet, the first in its most significant bit; where there are fewer, the bits left
/// over are zero.
pub fn octet_of(symbols: &[bool]) -> u8
    ensures { result ≡ octet_of symbols.now }
{
    weighed(128, symbols, 0)
        + weighed(64, symbols, 1)
        + weighed(32, symbols, 2)
        + weighed(16, symbols, 3)
        + weighed(8, symbols, 4)
        + weighed(4, symbols, 5)
        + weighed(2, symbols, 6)
        + weighed(1, symbols, 7)
}

// Packs symbols into memory for just them.
fn put_packed(symbols: &[bool], memory: &mut [u8])
    requires { length memory.old ≡ octets_for (length symbols.now) }
    ensures { memory.new ≡ packed symbols.now }
{
    for k in 0..memory.len() {
        memory[k] = octet_of(&symbols[8 * k..]);
    }
}

// Puts a number into memory for just it, the highest octet first.
fn put_number(number: usize, memory: &mut [u8])
    requires small { number < 2 ^ 32 }
    requires four { length memory.old ≡ 4 }
    ensures { memory.new ≡ four_octets number }
{
    memory.copy_from_slice(&(number as u32).to_be_bytes());
}

// Puts two numbers into memory for just them.
fn put_numbers(first: usize, second: usize, memory: &mut [u8])
    requires small { (first < 2 ^ 32) × (second < 2 ^ 32) }
    requires eight { length memory.old ≡ 8 }
    ensures { memory.new ≡ four_octets first ++ four_octets second }
{
    let (front, back) = memory.split_at_mut(4);
    put_number(first, front);
    put_number(second, back);
}

// Packs the symbols of segments into memory for just them.
fn put_symbols<S: AsSlice<bool>>(segments: &[S], memory: &mut [u8])
    requires { length memory.old ≡ length (flat_map packed (map S.items segments.now)) }
    ensures { memory.new ≡ flat_map packed (map S.items segments.now) }
{
    let mut begin = 0;
    for segment in segments {
        let symbols = segment.as_slice();
        let end = begin + octets_for(symbols.len());
        put_packed(symbols, &mut memory[begin..end]);
        begin = end;
    }
}

// Puts the entries of segments into memory for just them.
fn put_entries<S: AsSlice<bool>>(segments: &[S], memory: &mut [u8])
    requires symbols { length (flat_map packed (map S.items segments.now)) ≤ 65535 }
    requires entries { length memory.old ≡ 8 * length segments.now }
    ensures { memory.new ≡ entries 0 (map S.items segments.now) }
{
    let mut begin = 0;
    for (i, segment) in segments.iter().enumerate() {
        let symbols = segment.as_slice().len();
        put_numbers(begin, symbols, &mut memory[8 * i..8 * i + 8]);
        begin += octets_for(symbols);
    }
}

// Puts a record into memory for just it.
fn put_record<S: AsSlice<bool>>(segments: &[S], memory: &mut [u8])
    requires record { length memory.old ≡ length (record_of (map S.items segments.now)) }
    requires most { length memory.old ≤ 65535 }
    ensures { memory.new ≡ record_of (map S.items segments.now) }
{
    let first_entry = memory.len() - 8 - 8 * segments.len();
    let (symbols, rest) = memory.split_at_mut(first_entry);
    let (entries, numbers) = rest.split_at_mut(8 * segments.len());
    put_symbols(segments, symbols);
    put_entries(segments, entries);
    put_numbers(segments.len(), first_entry, numbers);
}

// How many octets the record of segments has, if they are no more than so many.
fn octets_within<S: AsSlice<bool>>(segments: &[S], most: usize) -> Option<usize>
    ensures { let octets = length (record_of (map S.items segments.now)) in
        result ≡ cond (nat_le octets most) (Some octets) None }
{
    let mut octets: usize = 8;
    for segment in segments {
        octets = octets.checked_add(8 + octets_for(segment.as_slice().len()))?;
    }
    (octets <= most).then_some(octets)
}

// Whether each segment has a symbol.
fn each_has_a_symbol<S: AsSlice<bool>>(segments: &[S]) -> bool
    ensures { result ≡ list_all (λ segment. nat_lt 0 (length (S.items segment))) segments.now }
{
    segments
        .iter()
        .all(|segment| !segment.as_slice().is_empty())
}

/// How many octets the record of segments has, 65,535 at most. Refused with 16 where no octets are the
/// record of them: where a segment has no symbol, or where they would be more.
#[tactic(auto, using(crate::proofs::Kept::kept))]
pub fn record_length<S: AsSlice<bool>>(segments: &[S]) -> Result<usize, Refusal>
    ensures answer { result ≡ length_answer (map S.items segments.now) }
    ensures record { let segments = map S.items segments.now in
        MatchResult result (λ octets. IsRecord (record_of segments) segments) (λ why. HasNoRecord segments) }
{
    let octets = octets_within(segments, LONGEST_RECORD).ok_or(Refusal::RecordLayout)?;
    if each_has_a_symbol(segments) {
        Ok(octets)
    } else {
        Err(Refusal::RecordLayout)
    }
}

/// Writes the record of segments at the front of the memory and answers how many octets it has.
/// Refused with 2 where the memory is shorter than that, and with 16 where no octets are the record
/// of these segments; then the memory is as it was. What is written, `PassRecord::read` gives back.
#[tactic(auto, using(crate::proofs::Kept::written))]
pub fn write_record<S: AsSlice<bool>>(segments: &[S], memory: &mut [u8]) -> Result<usize, Refusal>
    ensures answer { result ≡ writing_answer (map S.items segments.now) memory.old }
    ensures memory { memory.new ≡ memory_after (map S.items segments.now) memory.old result }
    ensures record { IfOk result (λ octets. IsRecord (take octets memory.new) (map S.items segments.now)) }
    ensures reads_back { IfOk result (λ octets. ReadBackFrom (map S.items segments.now) (take octets memory.new)) }
    ensures none { result ≡ Err RecordLayout → HasNoRecord (map S.items segments.now) }
{
    if octets_within(segments, memory.len()).is_none() {
        return Err(Refusal::MemoryTooShort);
    }
    let octets = record_length(segments)?;
    put_record(segments, &mut memory[..octets]);
    Ok(octets)
}

#[cfg(test)]
mod tests {
    use super::*;
    use std::alloc::{AllocError, Global};
    use std::test::Fail;

    // The symbols 101, and 000100101.
    const SEGMENTS: [&[bool]; 2] = [
        &[true, false, true],
        &[false, false, false, true, false, false, true, false, true],
    ];

    const RECORD: [u8; 27] = [
        0xA0, 0x12, 0x80, 0, 0, 0, 0, 0, 0, 0, 3, 0, 0, 0, 1, 0, 0, 0, 9, 0, 0, 0, 2, 0, 0, 0, 3,
    ];

    #[test]
    fn two_segments(rt: HostRuntime) -> Result<(), Fail> {
        let mut memory = [0x55; 30];
        assert!(rt; record_length(&SEGMENTS) == Ok(27));
        assert!(rt; write_record(&SEGMENTS, &mut memory) == Ok(27));
        assert!(rt; &memory[..27] == RECORD.as_slice() && &memory[27..] == [0x55; 3].as_slice());
        Ok(())
    }

    #[test]
    fn no_segments(rt: HostRuntime) {
        let none: [&[bool]; 0] = [];
        let mut memory = [0x55; 8];
        assert!(rt; write_record(&none, &mut memory) == Ok(8) && memory == [0; 8]);
    }

    #[test]
    fn refusals(rt: HostRuntime) {
        let mut memory = [0x55; 27];
        assert!(rt; write_record(&SEGMENTS, &mut memory[..26]) == Err(Refusal::MemoryTooShort));
        let with_an_empty: [&[bool]; 2] = [&[true], &[]];
        assert!(rt; write_record(&with_an_empty, &mut memory) == Err(Refusal::RecordLayout));
        assert!(rt;
            write_record(&with_an_empty, &mut memory[..24]) == Err(Refusal::MemoryTooShort)
        );
        assert!(rt; memory == [0x55; 27]);
    }

    // What the length is of a record of one segment that takes so many octets.
    fn length_of_one(heap: Global, octets: usize) -> Result<Result<usize, Refusal>, AllocError> {
        let symbols = vec![in heap; true; octets.saturating_mul(8)]?;
        Ok(record_length(&[symbols.as_slice()]))
    }

    #[test]
    fn longest(rt: HostRuntime) -> Result<(), Fail> {
        assert!(rt; length_of_one(rt.alloc(), 65519)? == Ok(65535));
        assert!(rt; length_of_one(rt.alloc(), 65520)? == Err(Refusal::RecordLayout));
        Ok(())
    }
}
