//! Runs one long list of operations on a ring, on a chain and on a model of a hold that keeps lists, and
//! compares every answer: where the cells are used many times, where they held something before, under the
//! derandomizing layer, and with no cells.
#![tactic(auto)]

use chain::{Chain, LinkedCell};
use command_line::{program, run, words};
use derandomizing::Derandomizing;
use hold::{Hold, copy_oldest};
use rand::RngExt;
use rand_pcg::Pcg32;
use randomizer::Randomizer;
use refusals::Refusal;
use ring::{Cell, Ring};
use std::alloc::{AllocError, AllocFailed, Global};
use std::collections::VecDeque;
use std::process::ExitCode;

/// Why the model does not do what is asked: it refuses, as a hold does, or memory ran out.
#[derive(Drop)]
enum Failure {
    Refused(Refusal),
    NoMemory(AllocError),
}

impl From<Refusal> for Failure {
    fn from(refusal: Refusal) -> Failure {
        Failure::Refused(refusal)
    }
}

impl<T: Drop> From<AllocFailed<T>> for Failure {
    fn from(failed: AllocFailed<T>) -> Failure {
        Failure::NoMemory(AllocError::from(failed))
    }
}

/// What a hold should have, as lists.
#[derive(Drop)]
struct Model {
    heap: Global,
    capacity: usize,
    // Of the sender whose sequence the hold takes off.
    randomizer: Randomizer,
    finished: VecDeque<Vec<u8>>,
    unfinished: Option<Vec<u8>>,
}

impl Model {
    fn new(heap: Global, capacity: usize, randomizer: Randomizer) -> Model {
        Model {
            heap,
            capacity,
            randomizer,
            finished: VecDeque::new(heap),
            unfinished: None,
        }
    }

    fn held(&self) -> usize {
        let octets = self.finished.iter().fold(
            0usize,
            |octets, candidate| octets.saturating_add(candidate.len()),
        );
        octets / 7
    }

    fn open_codeblocks(&self) -> usize {
        self.unfinished
            .as_ref()
            .map_or(0, |candidate| candidate.len() / 7)
    }

    fn free_space(&self) -> usize {
        self.capacity
            .saturating_sub(self.held())
            .saturating_sub(self.open_codeblocks())
    }

    fn open(&mut self) -> Result<(), Refusal> {
        if self.unfinished.is_some() {
            return Err(Refusal::CandidateOpen);
        }
        self.unfinished = Some(Vec::new(self.heap));
        Ok(())
    }

    fn add(&mut self, octets: [u8; 7]) -> Result<(), Failure> {
        let full = self.free_space() == 0;
        let randomizer = self.randomizer;
        let candidate = self.unfinished.as_mut().ok_or(Refusal::NoCandidateOpen)?;
        if full {
            return Err(Failure::Refused(Refusal::NoFreeSpace));
        }
        for octet in octets {
            candidate.push(octet ^ randomizer.octet_at(candidate.len()))?;
        }
        Ok(())
    }

    fn finish(&mut self) -> Result<(), Failure> {
        let candidate = self.unfinished.take().ok_or(Refusal::NoCandidateOpen)?;
        if candidate.is_empty() {
            self.unfinished = Some(candidate);
            return Err(Failure::Refused(Refusal::CandidateEmpty));
        }
        self.finished.push_back(candidate)?;
        Ok(())
    }

    fn abandon(&mut self) -> Result<(), Refusal> {
        let _ = self.unfinished.take().ok_or(Refusal::NoCandidateOpen)?;
        Ok(())
    }

    fn release(&mut self) -> Result<(), Refusal> {
        let _ = self.finished.pop_front().ok_or(Refusal::NoCandidate)?;
        Ok(())
    }

    fn oldest_octet(&self, place: usize) -> Result<u8, Refusal> {
        let candidate = self.finished.front().ok_or(Refusal::NoCandidate)?;
        candidate
            .get(place)
            .copied()
            .ok_or(Refusal::PastCandidateEnd)
    }

    /// Whether a hold answers all questions as the model does, and has the oldest candidate in three ways.
    fn is_answered_by<H: Hold>(&self, hold: &H, place: usize) -> bool {
        hold.free_space() == self.free_space()
            && hold.open_codeblocks() == self.open_codeblocks()
            && hold.finished_count() == self.finished.len()
            && hold.oldest_octet(place) == self.oldest_octet(place)
            && self.is_copied_by(hold, place)
    }

    /// The oldest candidate's length, a copy of it, and a stretch.
    fn is_copied_by<H: Hold>(&self, hold: &H, place: usize) -> bool {
        let mut memory = [0xEEu8; 64];
        let copied = copy_oldest(hold, &mut memory);
        match self.finished.front() {
            None => copied == Err(Refusal::NoCandidate) && memory == [0xEEu8; 64],
            Some(candidate) => {
                hold.oldest_length() == Ok(candidate.len())
                    && copied == Ok(candidate.len())
                    && memory.get(0..candidate.len()) == Some(candidate.as_slice())
                    && has_stretch(hold, candidate.as_slice(), place)
            }
        }
    }
}

/// Whether a hold reads three octets from a place on of this candidate, or refuses and leaves the memory.
fn has_stretch<H: Hold>(hold: &H, candidate: &[u8], place: usize) -> bool {
    let mut memory = [0xEEu8; 3];
    let read = hold.read_oldest(place, &mut memory);
    match candidate.get(place..place.saturating_add(3)) {
        Some(stretch) => read == Ok(()) && stretch == memory.as_slice(),
        None => read == Err(Refusal::PastCandidateEnd) && memory == [0xEEu8; 3],
    }
}

/// Whether the model answers what the hold answered.
fn alike(answer: Result<(), Refusal>, model: Result<(), Failure>) -> Result<bool, AllocError> {
    match model {
        Ok(()) => Ok(answer == Ok(())),
        Err(Failure::Refused(refusal)) => Ok(answer == Err(refusal)),
        Err(Failure::NoMemory(error)) => Err(error),
    }
}

/// Two holds, a model of both, and the numbers that choose what is done to them.
#[derive(Drop)]
struct Trial<R, C> {
    ring: R,
    chain: C,
    model: Model,
    numbers: Pcg32,
}

impl<R: Hold, C: Hold> Trial<R, C> {
    /// One operation, chosen by a number: whether the holds and the model answer alike.
    fn operation(&mut self) -> Result<bool, AllocError> {
        let (ring, chain, alike) = match self.numbers.random_range(0..16u32) {
            0..=2 => {
                let ring = self.ring.open();
                (ring, self.chain.open(), ring == self.model.open())
            }
            3..=9 => {
                let octets: [u8; 7] = self.numbers.random();
                let ring = self.ring.add(octets);
                (
                    ring,
                    self.chain.add(octets),
                    alike(ring, self.model.add(octets))?,
                )
            }
            10..=12 => {
                let ring = self.ring.finish();
                (ring, self.chain.finish(), alike(ring, self.model.finish())?)
            }
            13 => {
                let ring = self.ring.abandon();
                (ring, self.chain.abandon(), ring == self.model.abandon())
            }
            _ => {
                let ring = self.ring.release();
                (ring, self.chain.release(), ring == self.model.release())
            }
        };
        Ok(alike && ring == chain)
    }

    /// How many of so many operations were answered otherwise than by the model.
    fn otherwise(&mut self, operations: u32) -> Result<u32, AllocError> {
        let mut otherwise: u32 = 0;
        for _ in 0..operations {
            let alike = self.operation()?;
            let place = self.numbers.random_range(0..40usize);
            if !alike
                || !self.model.is_answered_by(&self.ring, place)
                || !self.model.is_answered_by(&self.chain, place)
            {
                otherwise = otherwise.saturating_add(1);
            }
        }
        Ok(otherwise)
    }
}

/// Does so many operations to two empty holds and to the model of them, and prints how they were answered.
fn tried<R: Hold + Drop, C: Hold + Drop>(
    rt: &impl Print,
    what: &str,
    ring: R,
    chain: C,
    model: Model,
    operations: u32,
) -> anyhow::Result<()> {
    let mut trial = Trial {
        ring,
        chain,
        model,
        numbers: Pcg32::new(1, 0),
    };
    let otherwise = trial.otherwise(operations)?;
    println!(rt;
        "{what}: {operations} operations, {otherwise} answered otherwise than by the model"
    )?;
    Ok(())
}

/// All trials.
fn work(rt: &(impl Print + AllocGlobal)) -> anyhow::Result<()> {
    let heap = rt.alloc();
    let mut cells = [Cell::EMPTY; 5];
    let mut links = [LinkedCell::EMPTY; 5];
    let (ring, chain) = (Ring::new(&mut cells), Chain::new(&mut links));
    let model = Model::new(heap, 5, Randomizer::Off);
    tried(rt, "ring and chain of 5 cells", ring, chain, model, 20000)?;

    let (ring, chain) = (Ring::new(&mut cells), Chain::new(&mut links));
    let model = Model::new(heap, 5, Randomizer::Off);
    tried(
        rt,
        "ring and chain of the same cells",
        ring,
        chain,
        model,
        2000,
    )?;

    let ring = Derandomizing::over(Ring::new(&mut cells));
    let chain = Derandomizing::over(Chain::new(&mut links));
    let model = Model::new(heap, 5, Randomizer::On);
    tried(rt, "layers over both", ring, chain, model, 20000)?;

    let mut cells = [Cell::EMPTY; 9];
    let mut links = [LinkedCell::EMPTY; 9];
    let (ring, chain) = (Ring::new(&mut cells), Chain::new(&mut links));
    let model = Model::new(heap, 9, Randomizer::Off);
    tried(rt, "ring and chain of 9 cells", ring, chain, model, 20000)?;

    let mut cells = [Cell::EMPTY; 0];
    let mut links = [LinkedCell::EMPTY; 0];
    let (ring, chain) = (Ring::new(&mut cells), Chain::new(&mut links));
    let model = Model::new(heap, 0, Randomizer::Off);
    tried(rt, "ring and chain of no cells", ring, chain, model, 2000)?;
    Ok(())
}

const NAME: &str = "hold_trials";

const ABOUT: &str = "\
hold_trials: runs a ring and a chain, and the layer over each, beside a model that keeps lists, and
counts the answers that differ";

fn main(rt: HostRuntime) -> ExitCode {
    let words = words(&rt);
    let command = program(rt.alloc(), NAME).about(ABOUT);
    run(&rt, NAME, Ok(command), &words, |_| Ok(work(&rt)?))
}
