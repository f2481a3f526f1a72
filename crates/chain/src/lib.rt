//! A hold of candidates in lent cells that link to one another: no allocation, any free cell serves, and
//! constant time for each call but the making and a read.
#![tactic(auto)]

ghost use Rattle.std.specs.Prelude.{◌≡◌, ℕ, ◌+◌, ◌-◌, ◌/◌, ◌<◌, ◌≤◌, ◌==◌, cond, min, length, Ok, MatchResult, OnErr, OnOk};
ghost use Rattle.hold.specs.Candidates.{add_answer, after_add, stretch_answer, after_stretch};
ghost use Rattle.hold.specs.Plain.{plain_showing, plain_shows_apart, EmptyPlainHold};
ghost use Rattle.cells.specs.Cells.{added};
ghost use Rattle.cells.specs.Held.{oldest_of, Oldest, NoneWaits};
ghost use Rattle.chain.specs.Links.{LinkInTurn, in_turn, cell_at, after, filled, noted, moved_behind, first_behind};
ghost use Rattle.chain.specs.Held.{capacity_of, finished_in, opened_in, sound_chain};
ghost use Rattle.chain.specs.Taken.{TakesFree};

use bch::INFORMATION_OCTETS;
use cells::{Cell, Counts, stretch_within};
use hold::Hold;
use refusals::Refusal;

mod chain;

pub use chain::{Chain, LinkedCell};

impl LinkedCell {
    /// A cell to make memory for a chain of.
    pub const EMPTY: LinkedCell = LinkedCell {
        room: Cell::EMPTY,
        last: 0,
        next: 0,
    };
}

// Links each cell to the one that lies behind it.
#[tactic(auto, unfolding(crate::specs::Links::LinkInTurn))]
fn link_in_turn(cells: &mut [LinkedCell])
    requires { length cells.old ≤ 65535 }
    ensures { LinkInTurn cells.new }
{
    for (place, cell) in cells.iter_mut().enumerate() {
        cell.next = (place + 1) as u16;
    }
}

// Puts a codeblock into a cell, and gives which cell comes next.
#[tactic(auto, unfolding(crate::specs::Links::filled))]
fn fill(cells: &mut [LinkedCell], place: u16, codeblock: Cell) -> u16
    requires { place < length cells.old }
    ensures cells { cells.new ≡ filled cells.old place codeblock }
    ensures next { result ≡ (cell_at cells.old place).next }
{
    let cell = &mut cells[place as usize];
    cell.room = codeblock;
    cell.next
}

// Notes in the first cell of a candidate how many codeblocks it has, and which cell is its last.
#[tactic(auto, unfolding(crate::specs::Links::noted))]
fn note(cells: &mut [LinkedCell], place: u16, codeblocks: u16, last: u16)
    requires { place < length cells.old }
    ensures { cells.new ≡ noted cells.old place codeblocks last }
{
    let cell = &mut cells[place as usize];
    cell.room.codeblocks = codeblocks;
    cell.last = last;
}

// Takes the cells from the first of all to `end` off the front, and puts them behind the last that is
// held and before the first free one. Gives which cell comes first then.
#[tactic(auto, unfolding(crate::specs::Links::moved_behind, crate::specs::Links::first_behind))]
fn move_behind(
    cells: &mut [LinkedCell],
    first: u16,
    end: u16,
    last_held: u16,
    first_free: u16,
) -> u16
    requires { (end < length cells.old) × (last_held < length cells.old) }
    ensures cells { cells.new ≡ moved_behind cells.old first end last_held first_free }
    ensures first { result ≡ first_behind cells.old first end last_held }
{
    cells[last_held as usize].next = first;
    let cell = &mut cells[end as usize];
    let front = cell.next;
    cell.next = first_free;
    front
}

impl<'a> Chain<'a> {
    /// A chain of these cells, or of the first 65,535 of them where there are more, in which no candidate
    /// is open and none waits. What the cells held before does not show. It refuses nothing: with no
    /// cells at all it is a chain with no space.
    #[tactic(auto, using(crate::proofs::Begin::few_taken, hold::proofs::Plain::plain_matches))]
    pub fn new(cells: &'a mut [LinkedCell]) -> Chain<'a>
        ensures { EmptyPlainHold ⟦<Chain<'static> as Hold>⟧ (min (length cells.old) 65535) result }
    {
        let counts = Counts::of_nothing(cells.len());
        let cells = &mut cells[..counts.cells];
        link_in_turn(cells);
        Chain {
            cells,
            first: 0,
            first_open: 0,
            first_free: 0,
            last_finished: 0,
            last_held: 0,
            counts,
        }
    }

    // How many codeblocks the oldest finished candidate has. Refused where none waits.
    #[tactic(auto, using(crate::proofs::Oldest::oldest_counted, crate::proofs::Oldest::first_below))]
    fn oldest(&self) -> Result<u16, Refusal>
        ensures { MatchResult result
            (Oldest self.now.counts (in_turn self.now.cells.now self.now.first))
            (NoneWaits (finished_in self.now)) }
    {
        if self.counts.waiting == 0 {
            return Err(Refusal::NoCandidate);
        }
        Ok(self.cells[self.first as usize].room.codeblocks)
    }

    // Which cell the open candidate begins with where this one is the first free one.
    fn first_open_if_free(&self, first_free: u16) -> u16
        ensures { result ≡ cond (added self.now.counts.unfinished == 0) first_free self.now.first_open }
    {
        if self.counts.open_codeblocks() == 0 {
            first_free
        } else {
            self.first_open
        }
    }

    // Which cell so many links lead to from the first of all.
    #[tactic(auto, using(crate::proofs::Links::after_more, crate::proofs::Oldest::cell_below))]
    fn cell_after(&self, links: usize) -> u16
        requires { links < length self.now.cells.now }
        ensures { result ≡ after links self.now.cells.now self.now.first }
    {
        let mut place = self.first;
        for followed in 0..links {
            place = self.cells[place as usize].next;
        }
        place
    }

    // In which cell the octet stands that follows the one at a place of the oldest finished candidate, if
    // that one stands in this cell.
    #[tactic(auto, using(crate::proofs::Oldest::next_octet, crate::proofs::Oldest::octet_cell_below))]
    fn cell_of_next(&self, cell: u16, place: usize) -> u16
        requires { (cell ≡ after (place / 7) self.now.cells.now self.now.first)
            × (place < length (oldest_of (finished_in self.now))) }
        ensures { result ≡ after ((place + 1) / 7) self.now.cells.now self.now.first }
    {
        if place % INFORMATION_OCTETS == INFORMATION_OCTETS - 1 {
            self.cells[cell as usize].next
        } else {
            cell
        }
    }

    // Reads a stretch of the oldest finished candidate, from a place on, into memory that is as long.
    #[tactic(auto, using(crate::proofs::Oldest::reads))]
    fn read(&self, place: usize, memory: &mut [u8])
        requires { (0 < self.now.counts.waiting)
            × (length memory.old ≤ length (oldest_of (finished_in self.now)) - place) }
        ensures answer { stretch_answer (finished_in self.now) place memory.old ≡ Ok tt }
        ensures memory { memory.new ≡ after_stretch (finished_in self.now) place memory.old }
    {
        if memory.is_empty() {
            return;
        }
        let mut cell = self.cell_after(place / INFORMATION_OCTETS);
        for (i, octet) in memory.iter_mut().enumerate() {
            *octet = self.cells[cell as usize].room.octets[(place + i) % INFORMATION_OCTETS];
            cell = self.cell_of_next(cell, place + i);
        }
    }
}

impl<'a> Hold for Chain<'a> {
    ghost capacity = { λ chain. capacity_of chain };

    ghost finished = { λ chain. finished_in chain };

    ghost opened = { λ chain. opened_in chain };

    ghost showing = { plain_showing };

    ghost apart = { plain_shows_apart };

    ghost sound = { λ chain. sound_chain chain };

    fn open(&mut self) -> Result<(), Refusal> {
        let mut counts = self.counts;
        counts.open()?;
        self.counts = counts;
        Ok(())
    }

    #[tactic(auto, using(crate::proofs::Writes::filled_finished, crate::proofs::Writes::filled_opened))]
    fn add(&mut self, octets: [u8; 7]) -> Result<(), Refusal>
        ensures answer { result ≡ add_answer (capacity_of self.old) (finished_in self.old) (opened_in self.old) }
        ensures capacity { capacity_of self.new ≡ capacity_of self.old }
        ensures finished { finished_in self.new ≡ finished_in self.old }
        ensures opened { opened_in self.new
            ≡ after_add plain_showing (capacity_of self.old) (finished_in self.old) (opened_in self.old) octets }
        ensures refused { OnErr result (self.new ≡ self.old) }
        // The codeblock goes into a cell that no candidate had, and all other cells are as they were.
        ensures takes { OnOk result (TakesFree self.old self.new octets) }
    {
        let mut counts = self.counts;
        counts.add()?;
        let codeblock = Cell {
            octets,
            codeblocks: 0,
        };
        let place = self.first_free;
        self.first_free = fill(self.cells, place, codeblock);
        self.last_held = place;
        self.counts = counts;
        Ok(())
    }

    #[tactic(auto, using(crate::proofs::Writes::noted_finished, crate::proofs::Writes::noted_opened))]
    fn finish(&mut self) -> Result<(), Refusal> {
        let mut counts = self.counts;
        let codeblocks = counts.finish()?;
        note(
            self.cells,
            self.first_open,
            codeblocks as u16,
            self.last_held,
        );
        self.last_finished = self.last_held;
        self.first_open = self.first_free;
        self.counts = counts;
        Ok(())
    }

    fn abandon(&mut self) -> Result<(), Refusal> {
        let mut counts = self.counts;
        counts.abandon()?;
        self.first_free = self.first_open;
        self.last_held = self.last_finished;
        self.counts = counts;
        Ok(())
    }

    #[tactic(auto, using(crate::proofs::Releases::releases))]
    fn release(&mut self) -> Result<(), Refusal> {
        let codeblocks = self.oldest()? as usize;
        let freed = self.first;
        let end = self.cells[freed as usize].last;
        let first_open = self.first_open_if_free(freed);
        self.first = move_behind(self.cells, freed, end, self.last_held, self.first_free);
        self.first_open = first_open;
        self.first_free = freed;
        self.counts.waiting -= 1;
        self.counts.used -= codeblocks;
        Ok(())
    }

    fn free_space(&self) -> usize {
        self.counts.free_space()
    }

    fn open_codeblocks(&self) -> usize {
        self.counts.open_codeblocks()
    }

    #[tactic(auto, using(crate::proofs::Oldest::length_finished))]
    fn finished_count(&self) -> usize {
        self.counts.waiting
    }

    fn oldest_length(&self) -> Result<usize, Refusal> {
        Ok(INFORMATION_OCTETS * self.oldest()? as usize)
    }

    fn read_oldest(&self, place: usize, memory: &mut [u8]) -> Result<(), Refusal> {
        stretch_within(self.oldest_length()?, place, memory.len())?;
        self.read(place, memory);
        Ok(())
    }
}

#[cfg(test)]
mod tests {
    use super::*;
    use std::test::Fail;

    #[test]
    fn three_cells(rt: HostRuntime) -> Result<(), Fail> {
        let mut cells = [LinkedCell::EMPTY; 3];
        let mut chain = Chain::new(&mut cells);
        for octet in 1..6 {
            chain.open()?;
            chain.add([octet; 7])?;
            chain.add([octet + 10; 7])?;
            chain.finish()?;
            let mut memory = [0; 2];
            chain.read_oldest(6, &mut memory)?;
            assert!(rt; memory == [octet, octet + 10] && chain.free_space() == 1);
            chain.release()?;
        }
        assert!(rt; chain.release() == Err(Refusal::NoCandidate));
        Ok(())
    }
}
