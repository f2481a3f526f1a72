//! The places of symbols that are wrong.

ghost use Rattle.std.specs.Prelude.{◌≡◌, [], None, Some, Option, MatchResult, nat_le, find};
ghost use Rattle.pass_lines.specs.Places.{places_of, named_twice, NamedTwice};

use std::alloc::Global;

/// Places of symbols that are wrong, counted from 0 over the symbols of all segments. None is named twice.
#[derive(Debug, Drop)]
pub struct WrongPlaces {
    pub(crate) places: Vec<usize>,
}

impl WrongPlaces {
    /// No place: every symbol is right.
    pub fn none(heap: Global) -> WrongPlaces
        ensures { places_of result ≡ [] }
    {
        WrongPlaces {
            places: Vec::new(heap),
        }
    }

    /// These places, in any order. `Err` is the first that is named again behind.
    #[tactic(auto, using(crate::proofs::Twice::named_twice_tells))]
    pub fn new(places: Vec<usize>) -> Result<WrongPlaces, usize>
        ensures answer { MatchResult result
            (λ wrong. (named_twice places.items ≡ None) × (places_of wrong ≡ places.items))
            (λ place. named_twice places.items ≡ Some place) }
        ensures twice { NamedTwice places.items }
    {
        match named_twice(places.as_slice()) {
            Some(place) => Err(place),
            None => Ok(WrongPlaces { places }),
        }
    }

    // The first of them, as they were named, that is not among so many symbols.
    pub(crate) fn first_past(&self, symbols: usize) -> Option<usize>
        ensures { result ≡ find (λ place. nat_le symbols place) (places_of self.now) }
    {
        self.places.iter().copied().find(|place| symbols <= *place)
    }
}

// The first place that is named again behind.
fn named_twice(places: &[usize]) -> Option<usize>
    ensures { result ≡ named_twice places.now }
{
    let mut rest = places;
    while let [first, further @ ..] = rest {
        if further.contains(first) {
            return Some(*first);
        }
        rest = further;
    }
    None
}
