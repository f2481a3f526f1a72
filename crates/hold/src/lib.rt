//! Where received candidates wait: what a hold is, and a copy out of any hold.
#![tactic(auto)]

ghost use Rattle.std.specs.Prelude.{◌≡◌, ℕ, ◌≤◌, List, length, None as absent, Ok, Option as Optional, OnErr};
ghost use Rattle.hold.specs.Candidates.{Candidate, Showing, ShowsApart, Sound, free_space, open_codeblocks, open_answer, after_open, add_answer, after_add, finish_answer, open_after_finish, finished_after_finish, abandon_answer, release_answer, after_release, oldest_length, oldest_octet, stretch_answer, after_stretch, copy_answer, after_copy};

use bch::INFORMATION_OCTETS;
use refusals::Refusal;

/// A place where received candidates wait until a reader takes them. A candidate is the octets of
/// accepted codeblocks, seven a codeblock; one candidate may be open, and the finished ones wait in
/// the order in which they were finished.
pub trait Hold {
    /// How many codeblocks it has room for; this never changes.
    ghost capacity: { Self → ℕ };

    /// The finished candidates, the oldest first.
    ghost finished: { Self → List Candidate };

    /// The candidate that is open, or none.
    ghost opened: { Self → Optional Candidate };

    /// As which octet an octet shows that is added at a place of a candidate.
    ghost showing: { Showing };

    /// Begins an empty candidate. Refused with 10 while one is open.
    fn open(&mut self) -> Result<(), Refusal>
        ensures answer { result ≡ open_answer (opened self.old) }
        ensures capacity { capacity self.new ≡ capacity self.old }
        ensures finished { finished self.new ≡ finished self.old }
        ensures opened { opened self.new ≡ after_open (opened self.old) }
        ensures refused { OnErr result (self.new ≡ self.old) };

    /// Appends a codeblock to the open candidate, each octet as it shows at its place. Refused with 11
    /// where none is open, and with 12 where there is no free space.
    fn add(&mut self, octets: [u8; INFORMATION_OCTETS]) -> Result<(), Refusal>
        ensures answer { result ≡ add_answer (capacity self.old) (finished self.old) (opened self.old) }
        ensures capacity { capacity self.new ≡ capacity self.old }
        ensures finished { finished self.new ≡ finished self.old }
        ensures opened { opened self.new
            ≡ after_add showing (capacity self.old) (finished self.old) (opened self.old) octets }
        ensures refused { OnErr result (self.new ≡ self.old) };

    /// Closes the open candidate, which then waits behind those that are finished. Refused with 11 where none is
    /// open, and with 13 where it is empty.
    fn finish(&mut self) -> Result<(), Refusal>
        ensures answer { result ≡ finish_answer (opened self.old) }
        ensures capacity { capacity self.new ≡ capacity self.old }
        ensures finished { finished self.new ≡ finished_after_finish (finished self.old) (opened self.old) }
        ensures opened { opened self.new ≡ open_after_finish (opened self.old) }
        ensures refused { OnErr result (self.new ≡ self.old) };

    /// Drops the open candidate, whose space is free then. Refused with 11 where none is open.
    fn abandon(&mut self) -> Result<(), Refusal>
        ensures answer { result ≡ abandon_answer (opened self.old) }
        ensures capacity { capacity self.new ≡ capacity self.old }
        ensures finished { finished self.new ≡ finished self.old }
        ensures opened { opened self.new ≡ absent }
        ensures refused { OnErr result (self.new ≡ self.old) };

    /// Takes the oldest of the finished candidates away, whose space is free then. Refused with 7 where none
    /// waits.
    fn release(&mut self) -> Result<(), Refusal>
        ensures answer { result ≡ release_answer (finished self.old) }
        ensures capacity { capacity self.new ≡ capacity self.old }
        ensures finished { finished self.new ≡ after_release (finished self.old) }
        ensures opened { opened self.new ≡ opened self.old }
        ensures refused { OnErr result (self.new ≡ self.old) };

    /// How many codeblocks can still be added.
    fn free_space(&self) -> usize
        ensures { result ≡ free_space (capacity self.now) (finished self.now) (opened self.now) };

    /// How many codeblocks the open candidate has: 0 where none is open.
    fn open_codeblocks(&self) -> usize
        ensures { result ≡ open_codeblocks (opened self.now) };

    /// How many finished candidates wait.
    fn finished_count(&self) -> usize
        ensures { result ≡ length (finished self.now) };

    /// How many octets the oldest finished candidate has. Refused with 7 where none waits.
    fn oldest_length(&self) -> Result<usize, Refusal>
        ensures { result ≡ oldest_length (finished self.now) };

    /// Reads a stretch of the oldest finished candidate, from a place on, into memory that is as long.
    /// Refused with 7 where none waits, and with 8 where an octet at or past its end is asked for;
    /// then the memory is as it was.
    fn read_oldest(&self, place: usize, memory: &mut [u8]) -> Result<(), Refusal>
        ensures answer { result ≡ stretch_answer (finished self.now) place memory.old }
        ensures memory { memory.new ≡ after_stretch (finished self.now) place memory.old };

    /// The octet at a place of the oldest finished candidate. Refused with 7 where none waits, and with 8
    /// at or past its end. It is a stretch of one octet, so a kind of hold need not tell it once more.
    fn oldest_octet(&self, place: usize) -> Result<u8, Refusal>
        ensures { result ≡ oldest_octet (finished self.now) place }
    {
        let mut memory = [0];
        self.read_oldest(place, &mut memory)?;
        Ok(memory[0])
    }

    /// The showing sends octets to octets, and no two of them to one.
    ghost apart: { ShowsApart showing };

    /// What is held is whole candidates within the capacity.
    ghost sound: { (hold : Self) → Sound (capacity hold) (finished hold) (opened hold) };
}

/// Copies the oldest finished candidate to the front of the memory and answers how many octets it
/// has; the rest of the memory is as it was. Refused with 2 where the memory is too short for it, and
/// with 7 where none waits; then the memory is as it was.
#[tactic(auto, using(crate::proofs::Copies::copy_answered, crate::proofs::Copies::copied))]
pub fn copy_oldest<H: Hold>(hold: &H, memory: &mut [u8]) -> Result<usize, Refusal>
    ensures answer { result ≡ copy_answer (H.Hold.finished hold.now) memory.old }
    ensures memory { memory.new ≡ after_copy (H.Hold.finished hold.now) memory.old }
{
    let octets = hold.oldest_length()?;
    if memory.len() < octets {
        return Err(Refusal::MemoryTooShort);
    }
    hold.read_oldest(0, &mut memory[..octets])?;
    Ok(octets)
}
