//! A hold of candidates in lent cells: no allocation, and constant time for each call but a read.
#![tactic(auto)]

ghost use Rattle.std.specs.Prelude.{◌≡◌, ◌-◌, ◌<◌, ◌≤◌, min, length, Ok, MatchResult, slice_index};
ghost use Rattle.hold.specs.Candidates.{stretch_answer, after_stretch};
ghost use Rattle.hold.specs.Plain.{plain_showing, plain_shows_apart, EmptyPlainHold};
ghost use Rattle.cells.specs.Held.{oldest_of, Oldest, NoneWaits};
ghost use Rattle.ring.specs.Held.{in_turn, capacity_of, finished_in, opened_in, sound_ring};

use bch::INFORMATION_OCTETS;
use cells::{Counts, stretch_within};
use circular::Circle;
use hold::Hold;
use refusals::Refusal;

mod ring;

pub use cells::Cell;
pub use ring::Ring;

impl<'a> Ring<'a> {
    /// A ring over these cells, or the first 65,535 of them where there are more, in which no candidate
    /// is open and none waits. What the cells held before does not show. It refuses nothing: with no
    /// cells at all it is a ring with no space.
    #[tactic(auto, using(hold::proofs::Plain::plain_matches))]
    pub fn new(cells: &'a mut [Cell]) -> Ring<'a>
        ensures { EmptyPlainHold ⟦<Ring<'static> as Hold>⟧ (min (length cells.old) 65535) result }
    {
        let counts = Counts::of_nothing(cells.len());
        let cells = Circle::new(&mut cells[..counts.cells]);
        Ring { cells, counts }
    }

    // How many codeblocks the oldest finished candidate has. Refused where none waits.
    #[tactic(auto, using(crate::proofs::Turns::oldest_counted))]
    fn oldest(&self) -> Result<u16, Refusal>
        ensures { MatchResult result (Oldest self.now.counts (in_turn self.now)) (NoneWaits (finished_in self.now)) }
    {
        if self.counts.waiting == 0 {
            return Err(Refusal::NoCandidate);
        }
        Ok(self.cells.get(0).unwrap().codeblocks)
    }

    // The octet at a place of the oldest finished candidate.
    #[tactic(auto, using(crate::proofs::Turns::turn_below, crate::proofs::Turns::octet_value))]
    fn octet(&self, place: usize) -> u8
        requires { place < length (oldest_of (finished_in self.now)) }
        ensures { result ≡ slice_index (oldest_of (finished_in self.now)) place }
    {
        self.cells.get(place / INFORMATION_OCTETS).unwrap().octets[place % INFORMATION_OCTETS]
    }

    // Reads a stretch of the oldest finished candidate, from a place on, into memory that is as long.
    #[tactic(auto, using(crate::proofs::Turns::reads))]
    fn read(&self, place: usize, memory: &mut [u8])
        requires { (0 < self.now.counts.waiting)
            × (length memory.old ≤ length (oldest_of (finished_in self.now)) - place) }
        ensures answer { stretch_answer (finished_in self.now) place memory.old ≡ Ok tt }
        ensures memory { memory.new ≡ after_stretch (finished_in self.now) place memory.old }
    {
        for (i, octet) in memory.iter_mut().enumerate() {
            *octet = self.octet(place + i);
        }
    }
}

impl<'a> Hold for Ring<'a> {
    ghost capacity = { λ ring. capacity_of ring };

    ghost finished = { λ ring. finished_in ring };

    ghost opened = { λ ring. opened_in ring };

    ghost showing = { plain_showing };

    ghost apart = { plain_shows_apart };

    ghost sound = { λ ring. sound_ring ring };

    fn open(&mut self) -> Result<(), Refusal> {
        let mut counts = self.counts;
        counts.open()?;
        self.counts = counts;
        Ok(())
    }

    fn add(&mut self, octets: [u8; 7]) -> Result<(), Refusal> {
        let turn = self.counts.held();
        let mut counts = self.counts;
        counts.add()?;
        let cell = Cell {
            octets,
            codeblocks: 0,
        };
        self.cells.set(turn, cell);
        self.counts = counts;
        Ok(())
    }

    fn finish(&mut self) -> Result<(), Refusal> {
        let turn = self.counts.used;
        let mut counts = self.counts;
        let codeblocks = counts.finish()?;
        let mut cell = *self.cells.get(turn).unwrap();
        cell.codeblocks = codeblocks as u16;
        self.cells.set(turn, cell);
        self.counts = counts;
        Ok(())
    }

    fn abandon(&mut self) -> Result<(), Refusal> {
        let mut counts = self.counts;
        counts.abandon()?;
        self.counts = counts;
        Ok(())
    }

    #[tactic(auto, using(crate::proofs::Turns::releases))]
    fn release(&mut self) -> Result<(), Refusal> {
        let codeblocks = self.oldest()? as usize;
        self.cells.advance(codeblocks);
        self.counts.waiting -= 1;
        self.counts.used -= codeblocks;
        Ok(())
    }

    fn free_space(&self) -> usize {
        self.counts.free_space()
    }

    fn open_codeblocks(&self) -> usize {
        self.counts.open_codeblocks()
    }

    #[tactic(auto, using(crate::proofs::Turns::length_finished))]
    fn finished_count(&self) -> usize {
        self.counts.waiting
    }

    fn oldest_length(&self) -> Result<usize, Refusal> {
        Ok(INFORMATION_OCTETS * self.oldest()? as usize)
    }

    fn read_oldest(&self, place: usize, memory: &mut [u8]) -> Result<(), Refusal> {
        stretch_within(self.oldest_length()?, place, memory.len())?;
        self.read(place, memory);
        Ok(())
    }
}

#[cfg(test)]
mod tests {
    use super::*;
    use std::test::Fail;

    #[test]
    fn three_cells(rt: HostRuntime) -> Result<(), Fail> {
        let mut cells = [Cell::EMPTY; 3];
        let mut ring = Ring::new(&mut cells);
        for octet in 1..6 {
            ring.open()?;
            ring.add([octet; 7])?;
            ring.add([octet + 10; 7])?;
            ring.finish()?;
            let mut memory = [0; 2];
            ring.read_oldest(6, &mut memory)?;
            assert!(rt; memory == [octet, octet + 10] && ring.free_space() == 1);
            ring.release()?;
        }
        assert!(rt; ring.release() == Err(Refusal::NoCandidate));
        Ok(())
    }
}
