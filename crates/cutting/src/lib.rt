//! Cutting a candidate into the frames in it and the fill behind them.
#![tactic(auto)]

ghost use Rattle.std.specs.Prelude.{◌≡◌, ◌+◌, ◌<◌, ◌==◌, length, drop, IfSome, OnSome, IfOk, OnErr};
ghost use Rattle.std.specs.List.{list_all};
ghost use Rattle.std.specs.Option.{option_map};
ghost use Rattle.cltu.specs.Cltu.{fill_octet};
ghost use Rattle.cutting.specs.Cutting.{cutting, is_fill, frame_octets, part_in_front};
ghost use Rattle.cutting.specs.Items.{part_of, answered, octets_left, to_cut, first_to_come, rest_to_come, ComesNext};
ghost use Rattle.cutting.specs.Laws.{CutWhole, CutTillRefused, SentComesBack};

use bch::INFORMATION_OCTETS;
use cltu::FILL;
use refusals::Refusal;

mod cutter;

pub use cutter::Cutter;

// The header of a transfer frame.
const HEADER_OCTETS: usize = 5;

// Fill is less than the information of a codeblock.
const MOST_FILL: usize = INFORMATION_OCTETS - 1;

/// What is cut out of a candidate. It borrows its octets from the candidate's.
#[derive(Clone, Copy, Debug, PartialEq, Eq)]
pub enum Item<'a> {
    /// A transfer frame.
    Frame {
        /// The place of its first octet in the candidate.
        place: usize,
        /// Its octets, the header first.
        octets: &'a [u8],
    },
    /// The octets with which the sender lengthened its frames to whole codeblocks. They are the last.
    Fill {
        /// The place of its first octet in the candidate.
        place: usize,
        /// Its octets, at most six, all 55.
        octets: &'a [u8],
    },
}

impl Item<'_> {
    fn octet_count(self) -> usize
        ensures { result ≡ length (part_of self.entry).octets }
    {
        match self {
            Item::Frame { octets, .. } | Item::Fill { octets, .. } => octets.len(),
        }
    }
}

// Whether each of the octets is one of fill.
fn is_each_fill(octets: &[u8]) -> bool
    ensures { result ≡ list_all (λ x. x == fill_octet) octets.now }
{
    octets.iter().all(|&octet| octet == FILL)
}

// Whether octets that are left of a candidate are fill.
fn is_fill(left: &[u8]) -> bool
    ensures { result ≡ is_fill left.now }
{
    left.len() <= MOST_FILL && is_each_fill(left)
}

// How many octets the frame has that octets begin with, if they begin with a frame.
#[tactic(auto, using(crate::proofs::Header::header_read, std::proofs::lemmas::Bool::Decides::nat_tests))]
fn frame_octets(left: &[u8]) -> Option<usize>
    ensures { result ≡ frame_octets left.now }
{
    // The five octets of the header, each named by the fields in it, and what follows the header.
    let [
        version_flags_spacecraft_high,
        _spacecraft_low,
        channel_length_high,
        length_low,
        _sequence_number,
        rest @ ..,
    ] = left
    else {
        return None;
    };
    let version = version_flags_spacecraft_high / 64;
    let length = 256 * usize::from(channel_length_high % 4) + usize::from(*length_low);
    // The length is one less than the frame has octets.
    let octets = length + 1;
    let is_frame = version == 0 && HEADER_OCTETS <= octets && octets - HEADER_OCTETS <= rest.len();
    is_frame.then_some(octets)
}

// The item that octets left at a place begin with.
fn item_in_front(place: usize, left: &[u8]) -> Option<Item<'_>>
    ensures { option_map part_of result ≡ part_in_front place left.now }
{
    if is_fill(left) {
        return Some(Item::Fill {
            place,
            octets: left,
        });
    }
    let octets = frame_octets(left)?;
    Some(Item::Frame {
        place,
        octets: &left[..octets],
    })
}

impl<'a> Cutter<'a> {
    /// A cutter at the first octet of a candidate.
    #[tactic(auto, using(crate::proofs::Sent::sent_comes_back))]
    pub fn new(candidate: &'a [u8]) -> Cutter<'a>
        ensures from_the_front { to_cut result ≡ cutting candidate.now }
        ensures whole { CutWhole }
        ensures till_refused { CutTillRefused }
        ensures sent { SentComesBack }
    {
        Cutter {
            candidate,
            place: 0,
        }
    }

    // The item at the cutter's place.
    fn item(&self) -> Option<Item<'a>>
        requires { self.now.place < length self.now.candidate.now }
        ensures part { option_map part_of result
            ≡ part_in_front self.now.place (drop self.now.place self.now.candidate.now) }
        ensures next { IfSome result (ComesNext self.now) }
    {
        item_in_front(self.place, &self.candidate[self.place..])
    }

    /// Cuts the next item and moves past it, or answers `None` at the end of the candidate. Refused with 9
    /// and the place where there is neither a frame nor fill; then the cutter stays there, and refuses
    /// again. Each item leaves fewer octets, so a loop that goes on while there is one ends.
    pub fn next_item(&mut self) -> Result<Option<Item<'a>>, Refusal>
        ensures item { answered result ≡ first_to_come (to_cut self.old) }
        ensures rest { to_cut self.new ≡ rest_to_come (to_cut self.old) }
        ensures fewer { IfOk result (λ item. OnSome item (octets_left self.new < octets_left self.old)) }
        ensures refused { OnErr result (self.new ≡ self.old) }
    {
        if self.place == self.candidate.len() {
            return Ok(None);
        }
        let item = self.item().ok_or(Refusal::NeitherFrameNorFill(self.place))?;
        self.place += item.octet_count();
        Ok(Some(item))
    }
}

#[cfg(test)]
mod tests {
    use super::*;
    use std::test::Fail;

    fn frame(place: usize, octets: &[u8]) -> Result<Option<Item<'_>>, Refusal> {
        Ok(Some(Item::Frame { place, octets }))
    }

    fn fill(place: usize, octets: &[u8]) -> Result<Option<Item<'_>>, Refusal> {
        Ok(Some(Item::Fill { place, octets }))
    }

    // What a cutter answers first.
    fn first(candidate: &[u8]) -> Result<Option<Item<'_>>, Refusal> {
        Cutter::new(candidate).next_item()
    }

    // How many items a candidate has that is cut to its end.
    fn item_count(candidate: &[u8]) -> Result<u32, Refusal> {
        let mut cutter = Cutter::new(candidate);
        let mut items: u32 = 0;
        while let Some(_item) = cutter.next_item()? {
            items = items.saturating_add(1);
        }
        Ok(items)
    }

    #[test]
    fn frame_and_fill(rt: HostRuntime) {
        let candidate = [0x00, 0x01, 0x00, 0x04, 0x00, 0x55, 0x55];
        let mut cutter = Cutter::new(&candidate);
        assert_eq!(rt;
            cutter.next_item(),
            frame(0, &[0x00, 0x01, 0x00, 0x04, 0x00])
        );
        assert_eq!(rt; cutter.next_item(), fill(5, &[0x55, 0x55]));
        assert_eq!(rt; cutter.next_item(), Ok(None));
        assert_eq!(rt; cutter.next_item(), Ok(None));
        assert_eq!(rt; item_count(&candidate), Ok(2));
    }

    #[test]
    fn nothing_or_fill_alone(rt: HostRuntime) {
        assert_eq!(rt; first(&[]), Ok(None));
        assert_eq!(rt; first(&[0x55; 6]), fill(0, &[0x55; 6]));
        assert_eq!(rt; first(&[0x55; 7]), Err(Refusal::NeitherFrameNorFill(0)));
    }

    // A frame of seven octets whose header has ones beside the version and the length.
    const SEVEN: [u8; 7] = [0x3F, 0xFF, 0xFC, 0x06, 0xFF, 0x55, 0x55];

    #[test]
    fn all_that_is_left(rt: HostRuntime) {
        assert_eq!(rt; first(&SEVEN), frame(0, &SEVEN));
    }

    #[test]
    fn more_than_is_left(rt: HostRuntime) {
        assert_eq!(rt; first(&SEVEN[..6]), Err(Refusal::NeitherFrameNorFill(0)));
        let eight = [0x00, 0x01, 0x00, 0x07, 0x00, 0x00, 0x00];
        assert_eq!(rt; first(&eight), Err(Refusal::NeitherFrameNorFill(0)));
    }

    #[test]
    fn refused_behind_a_frame(rt: HostRuntime) {
        let candidate = [0x00, 0x01, 0x00, 0x04, 0x00, 0x40, 0x01, 0x00, 0x04, 0x00];
        let mut cutter = Cutter::new(&candidate);
        let before = cutter.next_item();
        assert_eq!(rt; cutter.next_item(), Err(Refusal::NeitherFrameNorFill(5)));
        assert_eq!(rt; cutter.next_item(), Err(Refusal::NeitherFrameNorFill(5)));
        assert_eq!(rt; before, frame(0, &[0x00, 0x01, 0x00, 0x04, 0x00]));
    }
}
