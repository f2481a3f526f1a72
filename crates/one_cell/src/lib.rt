//! A hold of one codeblock: the smallest that keeps something.
#![tactic(auto)]

ghost use Rattle.hold.specs.Plain.{plain_showing, plain_shows_apart, EmptyPlainHold};
ghost use Rattle.one_cell.specs.Held.{finished_in, opened_in, sound_cell};

use cell::Held;
use hold::Hold;
use refusals::Refusal;

mod cell;

pub use cell::OneCell;

impl OneCell {
    /// An empty hold, in which no candidate is open and none waits.
    #[tactic(auto, using(hold::proofs::Plain::plain_matches))]
    pub fn new() -> OneCell
        ensures { EmptyPlainHold ⟦<OneCell as Hold>⟧ 1 result }
    {
        OneCell {
            octets: [0; 7],
            held: Held::Nothing,
        }
    }
}

impl Hold for OneCell {
    ghost capacity = { λ cell. 1 };

    ghost finished = { λ cell. finished_in cell };

    ghost opened = { λ cell. opened_in cell };

    ghost showing = { plain_showing };

    ghost apart = { plain_shows_apart };

    ghost sound = { λ cell. sound_cell cell };

    fn open(&mut self) -> Result<(), Refusal> {
        self.held = match self.held {
            Held::Nothing => Held::Open,
            Held::Finished => Held::FinishedAndOpen,
            Held::Open | Held::Added | Held::FinishedAndOpen => {
                return Err(Refusal::CandidateOpen);
            }
        };
        Ok(())
    }

    #[tactic(auto, using(hold::proofs::Plain::shown_plain))]
    fn add(&mut self, octets: [u8; 7]) -> Result<(), Refusal> {
        match self.held {
            Held::Open => {
                self.octets = octets;
                self.held = Held::Added;
                Ok(())
            }
            Held::Added | Held::FinishedAndOpen => Err(Refusal::NoFreeSpace),
            Held::Nothing | Held::Finished => Err(Refusal::NoCandidateOpen),
        }
    }

    fn finish(&mut self) -> Result<(), Refusal> {
        match self.held {
            Held::Added => {
                self.held = Held::Finished;
                Ok(())
            }
            Held::Open | Held::FinishedAndOpen => Err(Refusal::CandidateEmpty),
            Held::Nothing | Held::Finished => Err(Refusal::NoCandidateOpen),
        }
    }

    fn abandon(&mut self) -> Result<(), Refusal> {
        self.held = match self.held {
            Held::Open | Held::Added => Held::Nothing,
            Held::FinishedAndOpen => Held::Finished,
            Held::Nothing | Held::Finished => return Err(Refusal::NoCandidateOpen),
        };
        Ok(())
    }

    fn release(&mut self) -> Result<(), Refusal> {
        self.held = match self.held {
            Held::Finished => Held::Nothing,
            Held::FinishedAndOpen => Held::Open,
            Held::Nothing | Held::Open | Held::Added => return Err(Refusal::NoCandidate),
        };
        Ok(())
    }

    fn free_space(&self) -> usize {
        usize::from(matches!(self.held, Held::Nothing | Held::Open))
    }

    fn open_codeblocks(&self) -> usize {
        usize::from(matches!(self.held, Held::Added))
    }

    fn finished_count(&self) -> usize {
        usize::from(matches!(self.held, Held::Finished | Held::FinishedAndOpen))
    }

    fn oldest_length(&self) -> Result<usize, Refusal> {
        match self.held {
            Held::Finished | Held::FinishedAndOpen => Ok(7),
            Held::Nothing | Held::Open | Held::Added => Err(Refusal::NoCandidate),
        }
    }

    fn read_oldest(&self, place: usize, memory: &mut [u8]) -> Result<(), Refusal> {
        let octets = self.oldest_length()?;
        let rest = &self.octets[place.min(octets)..];
        let stretch = rest.get(..memory.len()).ok_or(Refusal::PastCandidateEnd)?;
        memory.copy_from_slice(stretch);
        Ok(())
    }
}

#[cfg(test)]
mod tests {
    use super::*;
    use hold::copy_oldest;
    use std::test::Fail;

    #[test]
    fn one_codeblock_after_another(rt: HostRuntime) -> Result<(), Fail> {
        let mut hold = OneCell::new();
        for octet in 1..4 {
            hold.open()?;
            hold.add([octet; 7])?;
            hold.finish()?;
            hold.open()?;
            let mut memory = [0; 8];
            let octets = copy_oldest(&hold, &mut memory)?;
            assert!(rt; octets == 7 && memory[..7] == [octet; 7] && hold.oldest_octet(6)? == octet);
            assert!(rt; hold.add([0; 7]) == Err(Refusal::NoFreeSpace));
            hold.abandon()?;
            hold.release()?;
        }
        assert!(rt; hold.release() == Err(Refusal::NoCandidate));
        Ok(())
    }
}
