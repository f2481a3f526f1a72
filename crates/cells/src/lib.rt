//! Candidates in cells that are read one behind the other, a codeblock a cell: what the holds that stand on no other
//! have in common.
#![tactic(auto)]

ghost use Rattle.std.specs.Prelude.{◌≡◌, ℕ, ◌-◌, ◌<◌, ◌≤◌, min, List, length, None as absent, MatchResult, OnErr};
ghost use Rattle.refusals.specs.declared.Refusal.TheVariants.{PastCandidateEnd};
ghost use Rattle.hold.specs.Candidates.{free_space, open_codeblocks, open_answer, after_open, abandon_answer};
ghost use Rattle.cells.specs.declared.cell.Cell.{Cell};
ghost use Rattle.cells.specs.Cells.{added};
ghost use Rattle.cells.specs.Held.{stopped, held_by, finished_of, opened_of, Counted, SameFinished, Adds, AddsNone, Finishes, FinishesNone};

use refusals::Refusal;

mod cell;
mod counts;

pub use cell::Cell;
pub use counts::Counts;

// So many that the count of a candidate's codeblocks fits its cell.
const MOST_CELLS: usize = u16::MAX as usize;

impl Counts {
    /// Counts of nothing, in so many cells, or in 65,535 where there are more.
    pub fn of_nothing(cells: usize) -> Counts
        ensures cells { result.cells ≡ min cells 65535 }
        ensures used { result.used ≡ 0 }
        ensures waiting { result.waiting ≡ 0 }
        ensures unfinished { result.unfinished ≡ absent }
    {
        Counts {
            cells: cells.min(MOST_CELLS),
            used: 0,
            waiting: 0,
            unfinished: None,
        }
    }

    /// How many cells are held, by finished candidates or the open one.
    pub fn held(&self) -> usize
        ensures { result ≡ stopped (held_by self.now) }
    {
        self.used.saturating_add(self.unfinished.unwrap_or(0))
    }

    /// How many cells are free.
    #[tactic(auto, using(crate::specs::Held::free_cells))]
    pub fn free_space(&self) -> usize
        ensures cells { result ≡ self.now.cells - held_by self.now }
        ensures space { (cells : List Cell)
            → Counted self.now cells
            → result ≡ free_space self.now.cells (finished_of self.now cells) (opened_of self.now cells) }
    {
        self.cells.saturating_sub(self.held())
    }

    /// How many codeblocks the open candidate has: 0 where none is open.
    #[tactic(auto, using(crate::specs::Held::open_is_added))]
    pub fn open_codeblocks(&self) -> usize
        ensures counted { result ≡ added self.now.unfinished }
        ensures codeblocks { (cells : List Cell)
            → Counted self.now cells
            → result ≡ open_codeblocks (opened_of self.now cells) }
    {
        self.unfinished.unwrap_or(0)
    }

    /// Counts a candidate that has no codeblock yet. Refused with 10 while one is open.
    pub fn open(&mut self) -> Result<(), Refusal>
        ensures answer { (cells : List Cell) → result ≡ open_answer (opened_of self.old cells) }
        ensures opened { (cells : List Cell) → opened_of self.new cells ≡ after_open (opened_of self.old cells) }
        ensures codeblocks { added self.new.unfinished ≡ added self.old.unfinished }
        ensures finished { SameFinished self.old self.new }
        ensures refused { OnErr result (self.new ≡ self.old) }
    {
        if self.unfinished.is_some() {
            return Err(Refusal::CandidateOpen);
        }
        self.unfinished = Some(0);
        Ok(())
    }

    /// Counts one codeblock more of the open candidate. Refused with 11 where none is open, and with 12
    /// where no cell is free.
    #[tactic(auto, using(crate::proofs::Writes::adding))]
    pub fn add(&mut self) -> Result<(), Refusal>
        ensures { MatchResult result (λ _. Adds self.old self.new) (AddsNone self.old self.new) }
    {
        let Some(codeblocks) = self.unfinished else {
            return Err(Refusal::NoCandidateOpen);
        };
        if self.free_space() == 0 {
            return Err(Refusal::NoFreeSpace);
        }
        self.unfinished = Some(codeblocks + 1);
        Ok(())
    }

    /// Counts the open candidate among the finished ones, and gives how many codeblocks it has. Refused with
    /// 11 where none is open, and with 13 where it is empty.
    #[tactic(auto, using(crate::proofs::Writes::finishing))]
    pub fn finish(&mut self) -> Result<usize, Refusal>
        ensures { MatchResult result (Finishes self.old self.new) (FinishesNone self.old self.new) }
    {
        let Some(codeblocks) = self.unfinished else {
            return Err(Refusal::NoCandidateOpen);
        };
        if codeblocks == 0 {
            return Err(Refusal::CandidateEmpty);
        }
        self.used = self.used.saturating_add(codeblocks);
        self.waiting = self.waiting.saturating_add(1);
        self.unfinished = None;
        Ok(codeblocks)
    }

    /// Counts the open candidate no more. Refused with 11 where none is open.
    pub fn abandon(&mut self) -> Result<(), Refusal>
        ensures answer { (cells : List Cell) → result ≡ abandon_answer (opened_of self.old cells) }
        ensures opened { self.new.unfinished ≡ absent }
        ensures finished { SameFinished self.old self.new }
        ensures refused { OnErr result (self.new ≡ self.old) }
    {
        self.unfinished.take().ok_or(Refusal::NoCandidateOpen)?;
        Ok(())
    }
}

/// Whether a stretch of so many octets, from a place on, lies within a candidate of so many. Refused with 8 where
/// an octet at or past its end is asked for.
pub fn stretch_within(candidate: usize, place: usize, octets: usize) -> Result<(), Refusal>
    ensures { MatchResult result
        (λ _. octets ≤ candidate - place)
        (λ why. (why ≡ PastCandidateEnd) × (candidate - place < octets)) }
{
    if octets > candidate.saturating_sub(place) {
        return Err(Refusal::PastCandidateEnd);
    }
    Ok(())
}
