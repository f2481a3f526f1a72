//! A layer over any hold that takes the randomizer's sequence off what is added.
#![tactic(auto)]

ghost use Rattle.std.specs.Prelude.{◌≡◌, ◌*◌, ◌<◌};
ghost use Rattle.randomizer.specs.declared.Randomizer.TheVariants.{On, Off};
ghost use Rattle.randomizer.specs.Sequence.{randomized_from};
ghost use Rattle.hold.specs.Candidates.{Matches, open_codeblocks, add_answer, after_add};
ghost use Rattle.derandomizing.specs.Derandomized.{derandomized};
ghost use Rattle.derandomizing.specs.Apart.{shows_apart};
ghost use Rattle.derandomizing.specs.Below.{below_of};

use bch::INFORMATION_OCTETS;
use hold::Hold;
use randomizer::{PERIOD_OCTETS, sequence_octet};
use refusals::Refusal;

/// A hold that keeps candidates of a randomizing sender as they were before the sender randomized
/// them. It stands over any hold and owns it.
#[derive(Drop)]
pub struct Derandomizing<H> {
    below: H,
}

impl<H: Hold> Derandomizing<H> {
    /// The layer over a hold, in whatever state that is. What is held below is what the layer holds.
    #[tactic(auto, using(crate::proofs::Shown::matches_over))]
    pub fn over(below: H) -> Derandomizing<H>
        ensures below { below_of result ≡ below }
        ensures capacity { ⟦<Derandomizing<H> as Hold>⟧.capacity result ≡ H.Hold.capacity below }
        ensures finished { ⟦<Derandomizing<H> as Hold>⟧.finished result ≡ H.Hold.finished below }
        ensures opened { ⟦<Derandomizing<H> as Hold>⟧.opened result ≡ H.Hold.opened below }
        ensures showing { ⟦<Derandomizing<H> as Hold>⟧.showing ≡ derandomized H.Hold.showing }
        ensures matches { Matches H.Hold.showing Off → Matches ⟦<Derandomizing<H> as Hold>⟧.showing On }
    {
        Derandomizing { below }
    }

    /// Ends the layer and gives back the hold below it, which holds what the layer held.
    pub fn into_below(self) -> H
        ensures below { result ≡ below_of self }
        ensures capacity { H.Hold.capacity result ≡ ⟦<Derandomizing<H> as Hold>⟧.capacity self }
        ensures finished { H.Hold.finished result ≡ ⟦<Derandomizing<H> as Hold>⟧.finished self }
        ensures opened { H.Hold.opened result ≡ ⟦<Derandomizing<H> as Hold>⟧.opened self }
    {
        let Derandomizing { below } = self;
        below
    }
}

// Seven octets with the sequence added, from a place of a candidate on.
#[tactic(auto, using(crate::proofs::Shown::randomized_more))]
fn derandomized(mut octets: [u8; INFORMATION_OCTETS], place: usize) -> [u8; INFORMATION_OCTETS]
    requires { place < 7 * 255 }
    ensures { result ≡ randomized_from On place octets }
{
    for (i, octet) in octets.iter_mut().enumerate() {
        *octet ^= sequence_octet(place + i);
    }
    octets
}

impl<H: Hold> Hold for Derandomizing<H> {
    ghost capacity = { λ layer. H.Hold.capacity (below_of layer) };

    ghost finished = { λ layer. H.Hold.finished (below_of layer) };

    ghost opened = { λ layer. H.Hold.opened (below_of layer) };

    ghost showing = { derandomized H.Hold.showing };

    ghost apart = { shows_apart H.Hold.showing H.Hold.apart };

    ghost sound = { λ layer. H.Hold.sound (below_of layer) };

    fn open(&mut self) -> Result<(), Refusal> {
        self.below.open()
    }

    fn add(&mut self, octets: [u8; INFORMATION_OCTETS]) -> Result<(), Refusal> {
        // The sequence repeats after a period.
        let place = INFORMATION_OCTETS * (self.below.open_codeblocks() % PERIOD_OCTETS);
        self.below.add(derandomized(octets, place))
    }

    fn finish(&mut self) -> Result<(), Refusal> {
        self.below.finish()
    }

    fn abandon(&mut self) -> Result<(), Refusal> {
        self.below.abandon()
    }

    fn release(&mut self) -> Result<(), Refusal> {
        self.below.release()
    }

    fn free_space(&self) -> usize {
        self.below.free_space()
    }

    fn open_codeblocks(&self) -> usize {
        self.below.open_codeblocks()
    }

    fn finished_count(&self) -> usize {
        self.below.finished_count()
    }

    fn oldest_length(&self) -> Result<usize, Refusal> {
        self.below.oldest_length()
    }

    fn read_oldest(&self, place: usize, memory: &mut [u8]) -> Result<(), Refusal> {
        self.below.read_oldest(place, memory)
    }
}
