//! How CLTUs become symbols, and what they are written as.

ghost use Rattle.std.specs.Prelude.{◌≡◌, ◌⊎◌, Some, Ok, Err, IfOk, IfErr, length, vec_items};
ghost use Rattle.std.specs.List.{flat_map};
ghost use Rattle.pass_lines.specs.Cltus.{octets_of_each};
ghost use Rattle.pass_lines.specs.Symbols.{with_guard, segments_sent, segments_received, inverted_at, parts, parts_length};
ghost use Rattle.pass_lines.specs.Places.{places_of};
ghost use Rattle.pass_lines.specs.Forms.{segment_symbols};

use crate::symbols::Symbols;
use crate::{Form, WrongPlaces};
use cltu::Sender;
use std::alloc::{AllocError, Global};

/// How lines become a pass.
#[derive(Debug, Drop)]
pub struct PassSettings {
    /// The sender of the frames.
    pub sender: Sender,
    /// How many bits of idle stand before each CLTU, also the first.
    pub guard: usize,
    /// The first bit of that idle, each time.
    pub first: bool,
    /// Whether each CLTU has a segment of its own, its idle before it. Else one segment has all.
    pub apart: bool,
    /// The symbols that are wrong.
    pub wrong: WrongPlaces,
    /// The form in which the symbols are written.
    pub form: Form,
}

// The segments of these symbols, one for each CLTU.
fn cut_apart<'a>(
    heap: Global,
    guard: usize,
    cltus: &[Vec<u8>],
    symbols: &'a [bool],
) -> Result<Vec<&'a [bool]>, AllocError>
    requires { length symbols.now ≡ parts_length guard (octets_of_each cltus.now) }
    ensures { IfOk result (λ v. segment_symbols v.items ≡ parts guard (octets_of_each cltus.now) symbols.now) }
{
    let mut segments = Vec::new(heap);
    let mut rest = symbols;
    for cltu in cltus {
        let (segment, further) = rest.split_at(guard + 8 * cltu.len());
        segments.push(segment)?;
        rest = further;
    }
    Ok(segments)
}

impl PassSettings {
    // All symbols of CLTUs, as they are received.
    pub(crate) fn symbols(&self, heap: Global, cltus: &[Vec<u8>]) -> Result<Vec<bool>, AllocError>
        ensures { IfOk result (λ v. v.items ≡ inverted_at (places_of self.now.wrong) 0
            (flat_map (with_guard self.now.first self.now.guard) (octets_of_each cltus.now))) }
    {
        let mut symbols = Symbols::new(heap, self.wrong.places.as_slice());
        symbols.put_cltus(self.first, self.guard, cltus)?;
        let Symbols { received, .. } = symbols;
        Ok(received)
    }

    // The segments of these symbols.
    pub(crate) fn segments<'a>(
        &self,
        heap: Global,
        cltus: &[Vec<u8>],
        symbols: &'a [bool],
    ) -> Result<Vec<&'a [bool]>, AllocError>
        requires { symbols.now ≡ inverted_at (places_of self.now.wrong) 0
            (flat_map (with_guard self.now.first self.now.guard) (octets_of_each cltus.now)) }
        ensures { IfOk result (λ v. segment_symbols v.items ≡ segments_received (places_of self.now.wrong) 0
            (segments_sent self.now.apart self.now.first self.now.guard (octets_of_each cltus.now))) }
    {
        if self.apart {
            return cut_apart(heap, self.guard, cltus, symbols);
        }
        if cltus.is_empty() {
            return Ok(Vec::new(heap));
        }
        Ok(vec![in heap; symbols]?)
    }
}
