//! Reading and writing a pass record: segments of received symbols, in octets that the caller lends.
#![tactic(auto)]

ghost use Rattle.std.specs.Prelude.{◌≡◌, ℕ, ◌+◌, ◌%◌, ◌^◌, ◌<◌, ◌≤◌, length, Decides, MatchOption, MatchResult, ◌==◌, slice_index};
ghost use Rattle.std.specs.Option.{option_map};
ghost use Rattle.std.specs.Iterator.{YieldsFirst, YieldsFirstBy, item_count};
ghost use Rattle.std.specs.List.{slice_get};
ghost use Rattle.pass_record.specs.Record.{octets_for, IsRecord, IsNoRecord, OneListOfSegments};
ghost use Rattle.pass_record.specs.Reading.{number_at, unused, told_place, told_count, told_begin, told_size, told_segments, RightEnd, RightEntry};
ghost use Rattle.pass_record.specs.Faults.{IsEntryFault, IsFirstFault};
ghost use Rattle.pass_record.specs.Segments.{segments_in, symbols_in, segments_left, symbols_left, RefusedLayout, GivesBack};

use refusals::Refusal;
use std::array;
use std::ops::Range;

mod entry_fault;
mod record;
mod record_fault;
mod segment;
mod writing;

pub use entry_fault::EntryFault;
pub use record::PassRecord;
pub use record_fault::RecordFault;
pub use segment::Segment;
pub use writing::{octet_of, record_length, write_record};

/// How many octets a record has at most.
const LONGEST_RECORD: usize = 65535;

// What the entry of a segment tells.
#[derive(Clone, Copy)]
struct Entry {
    // The place of the segment's first octet.
    begin: u32,
    // How many symbols the segment has.
    symbols: u32,
}

// The octet at a place, or 0 past the end.
fn octet_at(octets: &[u8], place: usize) -> u8
    ensures { result ≡ slice_index octets.now place }
{
    octets.get(place).copied().unwrap_or(0)
}

// The number in the four octets from a place on, the highest first.
fn number_at(octets: &[u8], place: usize) -> u32
    requires { place + 3 < 2 ^ 64 }
    ensures { result ≡ number_at octets.now place }
{
    u32::from_be_bytes(array::from_fn(|i| octet_at(octets, place + i)))
}

// How many entries there are.
fn told_count(octets: &[u8]) -> u32
    ensures { result ≡ told_count octets.now }
{
    number_at(octets, octets.len().saturating_sub(8))
}

// The place of the first entry.
fn told_place(octets: &[u8]) -> u32
    ensures { result ≡ told_place octets.now }
{
    number_at(octets, octets.len().saturating_sub(4))
}

// What the entry of the segment i tells.
fn told_entry(octets: &[u8], i: u32) -> Entry
    ensures begin { result.begin ≡ told_begin octets.now i }
    ensures symbols { result.symbols ≡ told_size octets.now i }
{
    let place = told_place(octets) as usize + 8 * i as usize;
    Entry {
        begin: number_at(octets, place),
        symbols: number_at(octets, place + 4),
    }
}

// Whether the bits of the last octet that so many symbols leave unused are zero.
fn zero_padded(last: u8, symbols: u32) -> bool
    ensures { result ≡ (last % 2 ^ unused symbols == 0) }
{
    let unused = (8 - symbols % 8) % 8;
    last % (1 << unused) == 0
}

// Where the segment i ends, if its entry is right and tells that it begins at this place.
fn segment_end(octets: &[u8], i: u32, begin: usize) -> Result<usize, EntryFault>
    requires { begin < 2 ^ 32 }
    ensures { MatchResult result
        (λ end. RightEntry octets.now i begin × (end ≡ begin + octets_for (told_size octets.now i)))
        (IsEntryFault octets.now i begin) }
{
    let entry = told_entry(octets, i);
    let told = entry.begin as usize;
    if told != begin {
        return Err(EntryFault::BeginsElsewhere {
            begin: told,
            due: begin,
        });
    }
    if entry.symbols == 0 {
        return Err(EntryFault::NoSymbols);
    }
    let end = begin + entry.symbols.div_ceil(8) as usize;
    let first_entry = told_place(octets) as usize;
    if end > first_entry {
        return Err(EntryFault::PastFirstEntry { end, first_entry });
    }
    if !zero_padded(octet_at(octets, end - 1), entry.symbols) {
        return Err(EntryFault::PaddingNotZero { place: end - 1 });
    }
    Ok(end)
}

// What is wrong with how many octets there are, or with where the entries end.
fn end_fault(octets: &[u8]) -> Option<RecordFault>
    ensures { MatchOption result (RightEnd octets.now) (λ fault. IsFirstFault octets.now fault × ¬ RightEnd octets.now) }
{
    let count = octets.len();
    if count < 8 {
        return Some(RecordFault::TooShort { octets: count });
    }
    if count > LONGEST_RECORD {
        return Some(RecordFault::TooLong { octets: count });
    }
    let end = told_place(octets) as usize + 8 * told_count(octets) as usize;
    let due = count - 8;
    if end != due {
        return Some(RecordFault::EntriesEndElsewhere { end, due });
    }
    None
}

/// What is wrong with octets, the first thing in the order of reading: how many they are, where the
/// entries end, each entry, and what is left between the segments and the entries. `None` exactly
/// where they are a record.
pub fn fault(octets: &[u8]) -> Option<RecordFault>
    ensures { MatchOption result
        (IsRecord octets.now (told_segments octets.now))
        (λ fault. IsFirstFault octets.now fault × IsNoRecord octets.now) }
{
    if let Some(fault) = end_fault(octets) {
        return Some(fault);
    }
    // A `for` with one line of invariant, where `try_fold` would need an induction.
    let mut place = 0;
    for i in 0..told_count(octets) {
        match segment_end(octets, i, place) {
            Ok(end) => place = end,
            Err(fault) => {
                let number = i as usize + 1;
                return Some(RecordFault::Entry { number, fault });
            }
        }
    }
    let first_entry = told_place(octets) as usize;
    if place < first_entry {
        return Some(RecordFault::GapBeforeEntries { place, first_entry });
    }
    None
}

#[tactic(auto, using(crate::proofs::Within::length_segments, std::proofs::lemmas::Option::slice_get_past))]
impl<'a> PassRecord<'a> {
    /// The record in these octets. Refused with `RecordLayout` exactly where they are not laid out as
    /// a pass record, whatever its segments.
    #[tactic(auto, using(crate::proofs::Places::one_list_of_segments))]
    pub fn read(octets: &'a [u8]) -> Result<PassRecord<'a>, Refusal>
        ensures answer { MatchResult result
            (λ pass. IsRecord octets.now (segments_in pass))
            (RefusedLayout octets.now) }
        ensures one { OneListOfSegments octets.now }
        ensures back { GivesBack octets.now result }
    {
        match fault(octets) {
            None => Ok(PassRecord { octets }),
            Some(_) => Err(Refusal::RecordLayout),
        }
    }

    /// How many segments the record has.
    pub fn count(&self) -> usize
        ensures { result ≡ length (segments_in self.now) }
    {
        told_count(self.octets) as usize
    }

    // The segment i, as its entry tells.
    #[tactic(auto, using(crate::proofs::Within::segment_within, crate::proofs::Within::segment_there))]
    fn told_segment(&self, i: u32) -> Segment<'a>
        requires { i < told_count self.now.octets.now }
        ensures { slice_get (segments_in self.now) i ≡ Some (symbols_in result) }
    {
        let entry = told_entry(self.octets, i);
        Segment {
            octets: &self.octets[entry.begin as usize..],
            symbols: entry.symbols,
        }
    }

    /// The segment at a place among the segments, the first at 0. None at and past the count.
    pub fn segment(&self, i: usize) -> Option<Segment<'a>>
        ensures { option_map symbols_in result ≡ slice_get (segments_in self.now) i }
    {
        if i < told_count(self.octets) as usize {
            Some(self.told_segment(i as u32))
        } else {
            None
        }
    }

    /// The segments in order.
    pub fn segments(&self) -> Segments<'a>
        ensures { segments_left result ≡ segments_in self.now }
    {
        Segments {
            pass: *self,
            places: 0..self.count(),
        }
    }
}

#[tactic(auto, using(crate::proofs::Within::length_symbols))]
impl<'a> Segment<'a> {
    /// How many symbols the segment has.
    pub fn len(&self) -> usize
        ensures { result ≡ length (symbols_in self.now) }
    {
        self.symbols as usize
    }

    // The symbol at a place.
    fn symbol(&self, place: usize) -> bool
        requires { place < length (symbols_in self.now) }
        ensures { slice_get (symbols_in self.now) place ≡ Some result }
    {
        self.octets[place / 8] >> (7 - place % 8) & 1 == 1
    }

    /// The symbol at a place among the segment's symbols, the first at 0. None at and past the end.
    pub fn bit(&self, place: usize) -> Option<bool>
        ensures { result ≡ slice_get (symbols_in self.now) place }
    {
        if place < self.symbols as usize {
            Some(self.symbol(place))
        } else {
            None
        }
    }

    /// The symbols in order.
    pub fn bits(&self) -> Bits<'a>
        ensures { symbols_left result ≡ symbols_in self.now }
    {
        Bits {
            segment: *self,
            places: 0..self.len(),
        }
    }
}

/// The segments of a pass record, in order.
#[derive(Drop)]
pub struct Segments<'a> {
    pass: PassRecord<'a>,
    // The places of the segments still to come.
    places: Range<usize>,
}

impl<'a> Iterator for Segments<'a> {
    type Item = Segment<'a>;

    ghost next_gives = { YieldsFirstBy symbols_in segments_left };

    ghost remaining = { item_count segments_left };

    #[tactic(auto, using(crate::proofs::Coming::coming))]
    fn next(&mut self) -> Option<Segment<'a>> {
        let place = self.places.next()?;
        self.pass.segment(place)
    }
}

/// The symbols of a segment, in order.
// Not one type with `Segments`: what each gives is seen through a definition of its own.
#[derive(Drop)]
pub struct Bits<'a> {
    segment: Segment<'a>,
    // The places of the symbols still to come.
    places: Range<usize>,
}

impl Iterator for Bits<'_> {
    type Item = bool;

    ghost next_gives = { YieldsFirst symbols_left };

    ghost remaining = { item_count symbols_left };

    #[tactic(auto, using(crate::proofs::Coming::coming))]
    fn next(&mut self) -> Option<bool> {
        let place = self.places.next()?;
        self.segment.bit(place)
    }
}

#[cfg(test)]
mod tests {
    use super::*;
    use std::alloc::Global;
    use std::test::Fail;

    // One CLTU of one codeblock, 144 symbols.
    const ONE_SEGMENT: [u8; 34] = [
        0xEB, 0x90, 0, 0, 0, 0, 0, 0, 0x01, 0x74, 0xC5, 0xC5, 0xC5, 0xC5, 0xC5, 0xC5, 0xC5, 0x79,
        0, 0, 0, 0, 0, 0, 0, 0x90, 0, 0, 0, 1, 0, 0, 0, 0x12,
    ];

    // The symbols 101, and 000100101.
    const TWO_SEGMENTS: [u8; 27] = [
        0xA0, 0x12, 0x80, 0, 0, 0, 0, 0, 0, 0, 3, 0, 0, 0, 1, 0, 0, 0, 9, 0, 0, 0, 2, 0, 0, 0, 3,
    ];

    fn refused(octets: &[u8]) -> bool {
        PassRecord::read(octets).err() == Some(Refusal::RecordLayout)
    }

    // Whether two segments are refused with another octet at a place.
    fn refused_with(place: usize, octet: u8) -> bool {
        let mut octets = TWO_SEGMENTS;
        if place < octets.len() {
            octets[place] = octet;
        }
        refused(&octets)
    }

    #[test]
    fn one_segment(rt: HostRuntime) -> Result<(), Fail> {
        let pass = PassRecord::read(&ONE_SEGMENT)?;
        assert!(rt; pass.count() == 1 && pass.segment(1).is_none());
        let segment = pass.segment(0).ok_or("no segment")?;
        assert!(rt; segment.len() == 144 && segment.bit(144) == None);
        for place in 0..144 {
            let octet = ONE_SEGMENT[place / 8];
            assert!(rt; segment.bit(place) == Some(octet >> (7 - place % 8) & 1 == 1));
        }
        assert!(rt; pass.segments().count() == 1 && segment.bits().count() == 144);
        Ok(())
    }

    #[test]
    fn two_segments(rt: HostRuntime) -> Result<(), Fail> {
        let pass = PassRecord::read(&TWO_SEGMENTS)?;
        assert!(rt; pass.count() == 2);
        let first = pass.segment(0).ok_or("no first segment")?;
        let second = pass.segment(1).ok_or("no second segment")?;
        assert!(rt; first.len() == 3 && first.bit(2) == Some(true) && first.bit(3) == None);
        assert!(rt;
            second.len() == 9 && second.bit(0) == Some(false) && second.bit(3) == Some(true)
        );
        assert!(rt; second.bit(8) == Some(true) && second.bit(9) == None);
        Ok(())
    }

    #[test]
    fn no_segment(rt: HostRuntime) -> Result<(), Fail> {
        assert!(rt; PassRecord::read(&[0; 8])?.count() == 0);
        assert!(rt; refused(&[]) && refused(&[0; 7]) && refused(&[0; 9]));
        Ok(())
    }

    // Whether this is the text of what is wrong with two segments with another octet at a place.
    fn tells(heap: Global, place: usize, octet: u8, text: &str) -> Result<bool, Fail> {
        let mut octets = TWO_SEGMENTS;
        if place < octets.len() {
            octets[place] = octet;
        }
        let fault = fault(&octets).ok_or("no fault")?;
        Ok(fault.to_string(heap)?.as_str() == text)
    }

    #[test]
    fn faults(rt: HostRuntime) -> Result<(), Fail> {
        let heap = rt.alloc();
        assert!(rt; fault(&TWO_SEGMENTS) == None);
        assert!(rt; fault(&TWO_SEGMENTS[..7]) == Some(RecordFault::TooShort { octets: 7 }));
        let ends = "the entries end at place 20, and are due to end at place 19";
        assert!(rt; tells(heap, 26, 4, ends)?);
        let begins = "entry 2: its segment begins at place 2, and is due at place 1";
        assert!(rt; tells(heap, 14, 2, begins)?);
        assert!(rt; tells(heap, 10, 0, "entry 1: its segment has no symbols")?);
        let past = "entry 2: its segment ends at place 4, past the first entry at place 3";
        assert!(rt; tells(heap, 18, 17, past)?);
        let padding =
            "entry 1: the padding in the last octet of its segment, at place 0, is not zero";
        assert!(rt; tells(heap, 0, 0xB0, padding)?);
        let gap = "the octets from place 2 up to the first entry, at place 3, belong to no segment";
        assert!(rt; tells(heap, 18, 8, gap)?);
        Ok(())
    }

    #[test]
    fn numbers_that_do_not_fit(rt: HostRuntime) {
        let counts = [(22, 3), (22, 1), (19, 0xFF)];
        let first_entries = [(26, 4), (26, 2), (23, 0xFF)];
        let gap_overlap_far = [(14, 2), (14, 0), (3, 0x80)];
        let sizes = [(10, 0), (18, 8), (18, 17)];
        for changes in [counts, first_entries, gap_overlap_far, sizes] {
            for (place, octet) in changes {
                assert!(rt; refused_with(place, octet));
            }
        }
        let mut octets = TWO_SEGMENTS;
        octets[15..19].copy_from_slice(&[0xFF; 4]);
        assert!(rt; refused(&octets));
    }

    #[test]
    fn padding_that_is_not_zero(rt: HostRuntime) {
        for (place, octet) in [(0, 0xB0), (0, 0xA1), (2, 0xC0), (2, 0x81)] {
            assert!(rt; refused_with(place, octet));
        }
        assert!(rt; !refused_with(0, 0xE0) && !refused_with(2, 0x00));
    }

    // Whether zeros with these sixteen octets at their end are refused.
    fn refused_ending(octets: &mut [u8], end: &[u8; 16]) -> bool
        requires { 16 ≤ length octets.old }
    {
        let place = octets.len() - 16;
        octets[place..].copy_from_slice(end);
        refused(octets)
    }

    #[test]
    fn longest(rt: HostRuntime) {
        let most = [0, 0, 0, 0, 0, 7, 0xFF, 0x78, 0, 0, 0, 1, 0, 0, 0xFF, 0xEF];
        assert!(rt; !refused_ending(&mut [0; 65535], &most));
        let one_more = [0, 0, 0, 0, 0, 7, 0xFF, 0x80, 0, 0, 0, 1, 0, 0, 0xFF, 0xF0];
        assert!(rt; refused_ending(&mut [0; 65536], &one_more));
    }
}
