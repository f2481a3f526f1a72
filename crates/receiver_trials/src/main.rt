//! Runs receivers beside a model of reception in plain lists, and compares every answer.
#![tactic(auto)]

use anyhow::Context;
use bch::Mode;
use chain::{Chain, LinkedCell};
use cltu::{CodeblockLimit, LONGEST_CLTU, Sender};
use command_line::{program, words};
use decoding::Settings;
use derandomizing::Derandomizing;
use hold::Hold;
use queue::Queue;
use rand::RngExt;
use rand::seq::IndexedRandom;
use rand_pcg::Pcg32;
use randomizer::Randomizer;
use receiver::{Receiver, ReceiverState};
use reception::{Reason, Report, recovery_bits};
use refusals::Refusal;
use ring::{Cell, Ring};
use std::alloc::{AllocError, Global};
use std::collections::VecDeque;
use std::process::ExitCode;
use std::{fmt, iter};

/// One of these, or 0 where there are none.
fn pick<T: Copy + Default>(numbers: &mut Pcg32, from: &[T]) -> T {
    from.choose(numbers).copied().unwrap_or_default()
}

/// A soft level that counts as this bit.
fn level(numbers: &mut Pcg32, bit: bool) -> i8 {
    let level: i8 = numbers.random();
    if (level < 0) == bit { level } else { !level }
}

/// The start sequence EB 90.
const START: [bool; 16] = [
    true, true, true, false, true, false, true, true, true, false, false, true, false, false,
    false, false,
];

/// What each bit of an octet counts, in the order in which bits are sent.
const WEIGHTS: [u8; 8] = [0x80, 0x40, 0x20, 0x10, 0x08, 0x04, 0x02, 0x01];

/// So many alternating bits, of which this is the first.
fn put_idle(line: &mut Vec<bool>, bits: usize, first: bool) -> Result<(), AllocError> {
    line.extend((0..bits).map(|k| first == (k % 2 == 0)))
}

/// As what symbols are brought to the receiver.
#[derive(Clone, Copy)]
enum Feed {
    Bits,
    SoftLevels,
    /// Some calls as bits, some as soft levels.
    Mixed,
}

/// Which hold a receiver is made over.
#[derive(Clone, Copy)]
enum Store {
    Ring,
    Chain,
}

/// What a receiver, its hold and its queue are made with, and what they meet.
#[derive(Clone, Copy)]
struct Setup {
    settings: Settings,
    /// Whether frames are randomized, and the hold takes the sequence off again.
    randomizer: Randomizer,
    store: Store,
    /// How many codeblocks the hold has room for.
    cells: usize,
    /// How many reports the queue has room for.
    slots: usize,
    /// Whether reports are taken out of the queue during a run.
    taken: bool,
    feed: Feed,
    /// Of 65,536 symbols so many are wrong.
    wrong: u16,
}

/// All that can be asked of a receiver and its queue.
#[derive(PartialEq, Drop)]
struct Answers {
    state: ReceiverState,
    lost: u16,
    free_space: usize,
    open_codeblocks: usize,
    finished_count: usize,
    length: Result<usize, Refusal>,
    oldest: Vec<u8>,
    reports: VecDeque<Report>,
}

/// Why the model does not do what is asked: it refuses, as a receiver does, or memory ran out.
#[derive(Drop)]
enum Failure {
    Refused(Refusal),
    NoMemory(AllocError),
}

impl From<AllocError> for Failure {
    fn from(error: AllocError) -> Failure {
        Failure::NoMemory(error)
    }
}

/// Whether the model answers what the receiver answered.
fn alike<T: PartialEq + Drop>(
    answer: Result<T, Refusal>,
    model: Result<T, Failure>,
) -> Result<bool, AllocError> {
    match model {
        Ok(value) => Ok(answer == Ok(value)),
        Err(Failure::Refused(refusal)) => Ok(answer == Err(refusal)),
        Err(Failure::NoMemory(error)) => Err(error),
    }
}

/// What a receiver should have.
#[derive(Drop)]
struct Model {
    heap: Global,
    setup: Setup,
    // What the hold adds to the octets of a candidate: the randomizer's sequence, or nothing.
    sequence: Vec<u8>,
    state: ReceiverState,
    // In SEARCH the last symbols, at most 16; in DECODE those of a codeblock so far.
    symbols: Vec<bool>,
    opened: Vec<u8>,
    corrections: usize,
    finished: VecDeque<Vec<u8>>,
    reports: VecDeque<Report>,
    lost: u16,
}

// X times a remainder by the generator X^7 + X^6 + X^2 + 1.
fn times_x(remainder: u8) -> u8 {
    let product = (remainder << 1) & 0x7f;
    if remainder & 0x40 == 0 {
        product
    } else {
        product ^ 0x45
    }
}

// The remainder of 63 symbols, of which the last seven are complemented.
fn remainder(symbols: &[bool]) -> u8 {
    let coded = symbols.iter().enumerate().take(63);
    coded.fold(0, |remainder, (i, symbol)| {
        times_x(remainder) ^ u8::from(*symbol != (i >= 56))
    })
}

// The symbol that has to be turned to make a codeblock of 64 symbols with this remainder.
fn turned_symbol(remainder: u8) -> Option<usize> {
    iter::successors(Some(1), |power| Some(times_x(*power)))
        .take(63)
        .position(|power| power == remainder)
        .map(|degree| 62 - degree)
}

impl Model {
    /// A receiver that was just made over an empty hold.
    fn new(heap: Global, setup: Setup, sequence: Vec<u8>) -> Model {
        Model {
            heap,
            setup,
            sequence,
            state: ReceiverState::Inactive,
            symbols: Vec::new(heap),
            opened: Vec::new(heap),
            corrections: 0,
            finished: VecDeque::new(heap),
            reports: VecDeque::new(heap),
            lost: 0,
        }
    }

    fn free_space(&self) -> usize {
        let finished = self.finished.iter().map(Vec::len);
        let octets = finished.fold(self.opened.len(), usize::saturating_add);
        self.setup.cells.saturating_sub(octets / 7)
    }

    /// What a receiver should answer.
    fn answers(&self) -> Result<Answers, AllocError> {
        let (length, oldest) = match self.finished.front() {
            Some(candidate) => (Ok(candidate.len()), candidate.clone()?),
            None => (Err(Refusal::NoCandidate), Vec::new(self.heap)),
        };
        Ok(Answers {
            state: self.state,
            lost: self.lost,
            free_space: self.free_space(),
            open_codeblocks: self.opened.len() / 7,
            finished_count: self.finished.len(),
            length,
            oldest,
            reports: self.reports.clone()?,
        })
    }

    fn carrier_up(&mut self) -> Result<(), Refusal> {
        if self.state != ReceiverState::Inactive {
            return Err(Refusal::CarrierAlreadyUp);
        }
        self.state = ReceiverState::Search;
        Ok(())
    }

    fn carrier_down(&mut self) -> Result<(), Failure> {
        match self.state {
            ReceiverState::Inactive => return Err(Failure::Refused(Refusal::CarrierDown)),
            ReceiverState::Search => self.symbols.clear(),
            ReceiverState::Decode => self.end(Reason::Down)?,
        }
        self.state = ReceiverState::Inactive;
        Ok(())
    }

    fn release(&mut self) -> Result<(), Refusal> {
        let _ = self.finished.pop_front().ok_or(Refusal::NoCandidate)?;
        Ok(())
    }

    /// The reader of reports takes one.
    fn take_report(&mut self) -> Result<Report, Refusal> {
        self.reports.pop_front().ok_or(Refusal::QueueEmpty)
    }

    fn symbols(&mut self, symbols: &[bool]) -> Result<usize, Failure> {
        if self.state == ReceiverState::Inactive {
            return Err(Failure::Refused(Refusal::CarrierDown));
        }
        let mut made: usize = 0;
        for symbol in symbols {
            made = made.saturating_add(self.symbol(*symbol)?);
        }
        Ok(made)
    }

    // One symbol while the carrier is up: how many reports it makes.
    fn symbol(&mut self, symbol: bool) -> Result<usize, AllocError> {
        self.symbols.push(symbol)?;
        if self.state == ReceiverState::Search {
            self.search();
        } else if self.symbols.len() == 64 {
            return self.decode();
        }
        Ok(0)
    }

    fn search(&mut self) {
        if self.symbols.len() > 16 {
            let _ = self.symbols.remove(0);
        }
        let pairs = self.symbols.iter().zip(START.iter());
        let wrong = pairs.filter(|(symbol, sent)| symbol != sent).count();
        let allowed = match self.setup.settings.mode {
            Mode::Correcting => 1,
            Mode::Detecting => 0,
        };
        if self.symbols.len() == 16 && wrong <= allowed {
            self.symbols.clear();
            self.state = ReceiverState::Decode;
        }
    }

    // 64 symbols are there: how many reports they make.
    fn decode(&mut self) -> Result<usize, AllocError> {
        let remainder = remainder(self.symbols.as_slice());
        let turned = match self.setup.settings.mode {
            Mode::Correcting => turned_symbol(remainder),
            Mode::Detecting => None,
        };
        let reason = if remainder != 0 && turned.is_none() {
            if self.opened.is_empty() {
                Reason::Empty
            } else {
                Reason::Closed
            }
        } else if self.opened.len() / 7 >= self.setup.settings.limit.count() {
            Reason::Long
        } else if self.free_space() == 0 {
            Reason::Full
        } else {
            self.add(turned)?;
            return Ok(0);
        };
        self.end(reason)?;
        self.state = ReceiverState::Search;
        Ok(1)
    }

    // Adds the information of a codeblock in which a symbol may have to be turned.
    fn add(&mut self, turned: Option<usize>) -> Result<(), AllocError> {
        if let Some(place) = turned
            && let Some(symbol) = self.symbols.get_mut(place)
        {
            *symbol = !*symbol;
        }
        for bits in self.symbols.chunks(8).take(7) {
            let octet = bits
                .iter()
                .fold(0, |octet, bit| (octet << 1) | u8::from(*bit));
            let place = self.opened.len();
            let added = self.sequence.get(place).copied().unwrap_or(0);
            self.opened.push(octet ^ added)?;
        }
        self.corrections = self
            .corrections
            .saturating_add(usize::from(turned.is_some()));
        self.symbols.clear();
        Ok(())
    }

    // The candidate ends: it is finished or dropped, and a report tells of it.
    fn end(&mut self, reason: Reason) -> Result<(), AllocError> {
        let report = Report {
            reason,
            codeblocks: self.opened.len() / 7,
            corrections: self.corrections,
        };
        if self.reports.len() < self.setup.slots {
            self.reports.push_back(report)?;
        } else {
            self.lost = self.lost.saturating_add(1);
        }
        let candidate = std::mem::replace(&mut self.opened, Vec::new(self.heap));
        if let Reason::Closed = reason {
            self.finished.push_back(candidate)?;
        }
        self.corrections = 0;
        self.symbols.clear();
        Ok(())
    }
}

/// The next eight bits of the randomizer's sequence behind these, of which the earliest is highest.
fn next_octet(octet: &u8) -> Option<u8> {
    let next = (0..8).fold(*octet, |last, _| {
        // The bits n, n + 1, n + 2, n + 3, n + 4 and n + 6 of bits n to n + 7.
        let sum = (last & 0b11111010).count_ones() % 2;
        (last << 1) | u8::from(sum == 1)
    });
    Some(next)
}

/// The randomizer's sequence by its rule, so many octets of it.
fn sequence(heap: Global, octets: usize) -> Result<Vec<u8>, AllocError> {
    iter::successors(Some(0xff), next_octet)
        .take(octets)
        .collect(heap)
}

/// How much was compared, and where the first difference was.
#[derive(Clone, Copy, Default)]
struct Tally {
    runs: u32,
    comparisons: u32,
    /// How many of these were around refused calls.
    refused: u32,
    symbols: usize,
    reports: usize,
    differences: u32,
    /// The run and the comparison of the first difference.
    first: Option<(u32, u32)>,
}

impl Tally {
    /// One comparison more.
    fn count(&mut self, alike: bool) {
        self.comparisons = self.comparisons.saturating_add(1);
        if !alike {
            self.differences = self.differences.saturating_add(1);
            self.first = self.first.or(Some((self.runs, self.comparisons)));
        }
    }
}

impl fmt::Display for Tally {
    fn fmt<W: fmt::Write>(&self, f: &mut fmt::Formatter<W>) -> fmt::Result {
        write!(
            f,
            "{} runs, {} symbols, {} reports, {} comparisons, {} of them around refused calls",
            self.runs, self.symbols, self.reports, self.comparisons, self.refused
        )
    }
}

/// A receiver, its queue and the model of both, and what a trial draws and counts.
#[derive(Drop)]
struct Bench<'a, H: Hold> {
    heap: Global,
    setup: Setup,
    receiver: Receiver<H>,
    queue: Queue<'a, Report>,
    model: Model,
    // Chooses soft levels, so that the other choices of a run do not depend on how symbols are brought.
    noise: Pcg32,
    numbers: &'a mut Pcg32,
    tally: &'a mut Tally,
}

/// The reports in a queue, which is left as it was.
fn waiting(heap: Global, queue: &mut Queue<'_, Report>) -> Result<VecDeque<Report>, AllocError> {
    let mut reports = VecDeque::new(heap);
    for _ in 0..queue.len() {
        if let Ok(report) = queue.take() {
            reports.push_back(report)?;
            let _ = queue.put(report);
        }
    }
    Ok(reports)
}

impl<'a, H: Hold + Drop> Bench<'a, H> {
    /// A new receiver over an empty hold to which nothing, or this sequence, is added.
    fn new(
        heap: Global,
        setup: Setup,
        hold: H,
        slots: &'a mut [Report],
        sequence: Vec<u8>,
        numbers: &'a mut Pcg32,
        tally: &'a mut Tally,
    ) -> Bench<'a, H> {
        Bench {
            heap,
            setup,
            receiver: Receiver::new(setup.settings, hold),
            queue: Queue::new(slots),
            model: Model::new(heap, setup, sequence),
            noise: Pcg32::new(2, 0),
            numbers,
            tally,
        }
    }

    /// A frame of so many octets.
    fn frame(&mut self, octets: usize) -> Result<Vec<u8>, AllocError> {
        (0..octets)
            .map(|_| self.numbers.random())
            .collect(self.heap)
    }

    /// The CLTU of a frame, which may have more codeblocks than the receiver's limit.
    fn put_cltu(&self, line: &mut Vec<bool>, frame: &[u8]) -> anyhow::Result<()> {
        let sender = Sender {
            limit: CodeblockLimit::MOST,
            randomizer: self.setup.randomizer,
        };
        let mut memory = vec![in self.heap; 0u8; LONGEST_CLTU]?;
        let octets = sender
            .write_cltu(frame, memory.as_mut_slice())
            .context("a frame was refused")?;
        for octet in memory.iter().take(octets) {
            line.extend(WEIGHTS.iter().map(|weight| *octet & *weight != 0))?;
        }
        Ok(())
    }

    /// A line with wrong symbols, as many as the setup wants.
    fn damaged(&mut self, line: &[bool]) -> Result<Vec<bool>, AllocError> {
        let wrong = self.setup.wrong;
        line.iter()
            .map(|bit| *bit != (self.numbers.random::<u16>() < wrong))
            .collect(self.heap)
    }

    /// A CLTU with idle around it and wrong bits anywhere. It may have a codeblock more than the limit.
    fn command(&mut self) -> anyhow::Result<Vec<bool>> {
        let most = (self.setup.settings.limit.count() * 7 + 7).min(1024);
        let octets = self.numbers.random_range(1..=most);
        let frame = self.frame(octets)?;
        let mut line = Vec::new(self.heap);
        put_idle(
            &mut line,
            self.numbers.random_range(0..200),
            self.numbers.random(),
        )?;
        self.put_cltu(&mut line, frame.as_slice())?;
        put_idle(
            &mut line,
            self.numbers.random_range(0..400),
            self.numbers.random(),
        )?;
        Ok(self.damaged(line.as_slice())?)
    }

    /// The oldest finished candidate, empty where none waits.
    fn oldest(&self) -> Result<Vec<u8>, AllocError> {
        let octets = self.receiver.oldest_length().unwrap_or(0);
        let mut oldest = vec![in self.heap; 0u8; octets]?;
        let _ = self.receiver.copy_oldest(oldest.as_mut_slice());
        Ok(oldest)
    }

    /// All that can be asked of the receiver and its queue.
    fn answers(&mut self) -> Result<Answers, AllocError> {
        Ok(Answers {
            state: self.receiver.state(),
            lost: self.receiver.lost(),
            free_space: self.receiver.free_space(),
            open_codeblocks: self.receiver.open_codeblocks(),
            finished_count: self.receiver.finished_count(),
            length: self.receiver.oldest_length(),
            oldest: self.oldest()?,
            reports: waiting(self.heap, &mut self.queue)?,
        })
    }

    // Counts a call that was or was not answered alike, with whether all questions are.
    fn compare(&mut self, alike: bool) -> Result<(), AllocError> {
        let answers = self.answers()?;
        self.tally.count(alike && answers == self.model.answers()?);
        Ok(())
    }

    fn carrier_up(&mut self) -> Result<(), AllocError> {
        let alike = self.receiver.carrier_up() == self.model.carrier_up();
        self.compare(alike)
    }

    fn carrier_down(&mut self) -> Result<(), AllocError> {
        let answer = self.receiver.carrier_down(&mut self.queue);
        let alike = alike(answer, self.model.carrier_down())?;
        self.compare(alike)
    }

    /// One of the calls by which a reader takes what was received, or no symbols.
    fn reading(&mut self) -> Result<(), AllocError> {
        let alike = match self.numbers.random_range(0..3u32) {
            0 => self.receiver.release() == self.model.release(),
            1 if self.setup.taken => self.queue.take() == self.model.take_report(),
            _ => {
                let none: [bool; 0] = [];
                let answer = self.receiver.symbols(&none, &mut self.queue);
                alike(answer, self.model.symbols(&none))?
            }
        };
        self.compare(alike)
    }

    /// Calls that are refused as things stand, and whether any answer is another after them.
    fn refused(&mut self) -> Result<(), AllocError> {
        let before = self.answers()?;
        let mut refused = self.refuses_carrier();
        if before.finished_count == 0 {
            refused &= self.receiver.release() == Err(Refusal::NoCandidate);
        }
        let after = self.answers()?;
        self.tally.refused = self.tally.refused.saturating_add(1);
        self.tally.count(refused && before == after);
        Ok(())
    }

    // Whether the calls are refused that the state refuses.
    fn refuses_carrier(&mut self) -> bool {
        if self.receiver.state() != ReceiverState::Inactive {
            return self.receiver.carrier_up() == Err(Refusal::CarrierAlreadyUp);
        }
        let none: [i8; 0] = [];
        self.receiver.carrier_down(&mut self.queue) == Err(Refusal::CarrierDown)
            && self.receiver.symbols(&[true, false], &mut self.queue) == Err(Refusal::CarrierDown)
            && self.receiver.symbols(&none, &mut self.queue) == Err(Refusal::CarrierDown)
    }

    /// Symbols in calls of any length, with other calls between.
    fn line(&mut self, line: &[bool]) -> Result<(), AllocError> {
        let mut rest = line;
        for _ in 0..line.len() {
            let length = self.numbers.random_range(1..=150usize).min(rest.len());
            let (call, after) = rest.split_at(length);
            self.symbols(call)?;
            if self.numbers.random::<u16>() < 20000 {
                self.reading()?;
            }
            rest = after;
            if rest.is_empty() {
                break;
            }
        }
        Ok(())
    }

    /// Releases all finished candidates.
    fn release_all(&mut self) -> Result<(), AllocError> {
        for _ in 0..self.receiver.finished_count() {
            let alike = self.receiver.release() == self.model.release();
            self.compare(alike)?;
        }
        Ok(())
    }

    /// Takes a report, which has to tell of a full hold that took nothing.
    fn take_full(&mut self) -> Result<(), AllocError> {
        let full = Report {
            reason: Reason::Full,
            codeblocks: 0,
            corrections: 0,
        };
        let taken = self.queue.take();
        let alike = taken == Ok(full) && self.model.take_report() == taken;
        self.compare(alike)
    }

    /// Whether the receiver searches and no codeblock is in an open candidate.
    fn searches(&self) -> bool {
        self.receiver.state() == ReceiverState::Search && self.receiver.open_codeblocks() == 0
    }

    /// Whether the only finished candidate is this frame with its fill.
    fn has_only(&self, frame: &[u8]) -> Result<bool, AllocError> {
        let oldest = self.oldest()?;
        let is_one = self.receiver.finished_count() == 1
            && oldest.len() / 7 == frame.len().div_ceil(7);
        let fill = oldest.as_slice().strip_prefix(frame);
        Ok(is_one && fill.is_some_and(|fill| fill.iter().all(|octet| *octet == 0x55)))
    }

    /// What may lie between two CLTUs besides symbols: a carrier break, refused calls or nothing.
    fn between(&mut self) -> Result<(), AllocError> {
        match self.numbers.random_range(0..4u32) {
            0 => self.refused(),
            1 => {
                self.carrier_down()?;
                self.refused()?;
                self.reading()?;
                self.carrier_up()
            }
            _ => Ok(()),
        }
    }

    /// Symbols in one call.
    fn symbols(&mut self, bits: &[bool]) -> Result<(), AllocError> {
        let soft = match self.setup.feed {
            Feed::Bits => false,
            Feed::SoftLevels => true,
            Feed::Mixed => self.noise.random(),
        };
        let made = if soft {
            let levels = levels(self.heap, bits, &mut self.noise)?;
            self.receiver.symbols(levels.as_slice(), &mut self.queue)
        } else {
            self.receiver.symbols(bits, &mut self.queue)
        };
        self.tally.symbols = self.tally.symbols.saturating_add(bits.len());
        self.tally.reports = self.tally.reports.saturating_add(made.unwrap_or(0));
        let alike = alike(made, self.model.symbols(bits))?;
        self.compare(alike)
    }
}

/// Soft levels that count as these bits.
fn levels(heap: Global, bits: &[bool], numbers: &mut Pcg32) -> Result<Vec<i8>, AllocError> {
    bits.iter().map(|bit| level(numbers, *bit)).collect(heap)
}

/// A setup of any kind.
fn any_setup(numbers: &mut Pcg32) -> anyhow::Result<Setup> {
    let mode = if numbers.random() {
        Mode::Correcting
    } else {
        Mode::Detecting
    };
    let randomizer = if numbers.random() {
        Randomizer::On
    } else {
        Randomizer::Off
    };
    let limit = pick(numbers, &[1, 2, 3, 5, 8, 37, 147]);
    Ok(Setup {
        settings: Settings::new(mode, limit).context("a limit was refused")?,
        randomizer,
        store: Store::Ring,
        cells: pick(numbers, &[1, 2, 3, 5, 8, 13, 200]),
        slots: pick(numbers, &[1, 2, 5, 9]),
        taken: true,
        feed: Feed::Mixed,
        wrong: pick(numbers, &[0, 60, 300, 1000, 3000]),
    })
}

/// What is done to a receiver, over any hold, and to its model.
trait Trial {
    fn run<H: Hold + Drop>(&self, bench: &mut Bench<'_, H>) -> anyhow::Result<()>;
}

/// Several commands with what lies between them. Some break off, so that more calls come in DECODE.
#[derive(Clone, Copy)]
struct Pass;

impl Trial for Pass {
    fn run<H: Hold + Drop>(&self, bench: &mut Bench<'_, H>) -> anyhow::Result<()> {
        bench.refused()?;
        bench.carrier_up()?;
        for _ in 0..7 {
            let mut line = bench.command()?;
            if bench.numbers.random_range(0..4u32) == 0 {
                let end = bench.numbers.random_range(0..=line.len());
                line.truncate(end);
            }
            bench.line(line.as_slice())?;
            bench.between()?;
        }
        Ok(())
    }
}

/// Up to 300 symbols of garbage, as much idle as recovery takes, and a command that is received whole.
#[derive(Clone, Copy)]
struct Recovery;

impl Trial for Recovery {
    fn run<H: Hold + Drop>(&self, bench: &mut Bench<'_, H>) -> anyhow::Result<()> {
        let settings = bench.setup.settings;
        bench.carrier_up()?;
        let mut garbage = bench.command()?;
        garbage.truncate(bench.numbers.random_range(0..=300));
        bench.line(garbage.as_slice())?;
        let mut idle = Vec::new(bench.heap);
        let bits = recovery_bits(settings.mode, settings.limit);
        put_idle(&mut idle, bits, bench.numbers.random())?;
        bench.line(idle.as_slice())?;
        let searches = bench.searches();
        bench.tally.count(searches);
        bench.release_all()?;
        let most = (settings.limit.count() * 7).min(1024);
        let octets = bench.numbers.random_range(1..=most);
        let frame = bench.frame(octets)?;
        let mut line = Vec::new(bench.heap);
        bench.put_cltu(&mut line, frame.as_slice())?;
        bench.symbols(line.as_slice())?;
        let has_only = bench.has_only(frame.as_slice())?;
        bench.tally.count(has_only);
        Ok(())
    }
}

/// One codeblock, for which a hold of no cells is full.
#[derive(Clone, Copy)]
struct Full;

impl Trial for Full {
    fn run<H: Hold + Drop>(&self, bench: &mut Bench<'_, H>) -> anyhow::Result<()> {
        bench.carrier_up()?;
        let octets = bench.numbers.random_range(1..=7usize);
        let frame = bench.frame(octets)?;
        let mut line = Vec::new(bench.heap);
        bench.put_cltu(&mut line, frame.as_slice())?;
        bench.symbols(line.as_slice())?;
        bench.take_full()?;
        Ok(())
    }
}

/// More reports than the lost count can say, each of a start with idle behind it.
#[derive(Clone, Copy)]
struct Lost;

impl Trial for Lost {
    fn run<H: Hold + Drop>(&self, bench: &mut Bench<'_, H>) -> anyhow::Result<()> {
        bench.carrier_up()?;
        let mut line = START.to_vec(bench.heap)?;
        put_idle(&mut line, 64, false)?;
        for _ in 0..65600 {
            bench.symbols(line.as_slice())?;
        }
        Ok(())
    }
}

/// Idle from this bit on, behind as much of a start sequence as makes it last longest, bit by bit until
/// the receiver is back in SEARCH.
#[derive(Clone, Copy)]
struct Idle {
    first: bool,
}

impl Trial for Idle {
    fn run<H: Hold + Drop>(&self, bench: &mut Bench<'_, H>) -> anyhow::Result<()> {
        bench.carrier_up()?;
        for bit in START.iter().take(13) {
            bench.symbols(&[*bit])?;
        }
        if self.first {
            bench.symbols(&[false])?;
        }
        for i in 0..bench.setup.settings.limit.count() * 64 + 300 {
            bench.symbols(&[self.first == (i % 2 == 0)])?;
            if i > 3 && bench.searches() {
                break;
            }
        }
        Ok(())
    }
}

/// A trial over a hold that matches the sender: this one, which alters no octet, or the layer over it.
fn run_over<H: Hold + Drop, T: Trial>(
    heap: Global,
    setup: Setup,
    hold: H,
    trial: &T,
    numbers: &mut Pcg32,
    tally: &mut Tally,
) -> anyhow::Result<()> {
    let mut slots = vec![in heap; Report::UNUSED; setup.slots]?;
    let slots = slots.as_mut_slice();
    match setup.randomizer {
        Randomizer::Off => {
            let none = Vec::new(heap);
            trial.run(&mut Bench::new(heap, setup, hold, slots, none, numbers, tally))
        }
        Randomizer::On => {
            let sequence = sequence(heap, 1029)?;
            let layer = Derandomizing::over(hold);
            trial.run(&mut Bench::new(heap, setup, layer, slots, sequence, numbers, tally))
        }
    }
}

/// A trial with the hold that the setup wants.
fn run<T: Trial>(
    heap: Global,
    setup: Setup,
    trial: &T,
    numbers: &mut Pcg32,
    tally: &mut Tally,
) -> anyhow::Result<()> {
    match setup.store {
        Store::Ring => {
            let mut cells = vec![in heap; Cell::EMPTY; setup.cells]?;
            let ring = Ring::new(cells.as_mut_slice());
            run_over(heap, setup, ring, trial, numbers, tally)
        }
        Store::Chain => {
            let mut cells = vec![in heap; LinkedCell::EMPTY; setup.cells]?;
            let chain = Chain::new(cells.as_mut_slice());
            run_over(heap, setup, chain, trial, numbers, tally)
        }
    }
}

/// The trials so far.
#[derive(Drop)]
struct Trials<'a, R> {
    rt: &'a R,
    numbers: Pcg32,
    /// How many differences they found.
    differences: u32,
}

impl<R: Print + AllocGlobal> Trials<'_, R> {
    /// So many runs of a trial, each with another setup that was changed for it, and a line that tells what
    /// they compared.
    fn tried<T: Trial, F: Fn(Setup) -> Setup>(
        &mut self,
        what: &str,
        runs: u32,
        change: F,
        trial: &T,
    ) -> anyhow::Result<()>
        requires { F.IsAlwaysCallable change }
    {
        let mut tally = Tally::default();
        for _ in 0..runs {
            tally.runs = tally.runs.saturating_add(1);
            let setup = change(any_setup(&mut self.numbers)?);
            run(self.rt.alloc(), setup, trial, &mut self.numbers, &mut tally)?;
        }
        self.differences = self.differences.saturating_add(tally.differences);
        println!(self.rt; "{what}: {tally}")?;
        if let Some((run, comparison)) = tally.first {
            println!(self.rt;
                "{what}: {} differences, the first in run {run} at comparison {comparison}",
                tally.differences
            )?;
        }
        Ok(())
    }

    /// All trials but those of feeds and those that count idle bits.
    fn all(&mut self) -> anyhow::Result<()> {
        self.tried("damaged passes", 600, |setup| setup, &Pass)?;
        self.tried("queue of no slots", 100, |setup| untaken(setup, 0), &Pass)?;
        self.tried("queue of one slot", 100, |setup| untaken(setup, 1), &Pass)?;
        self.tried(
            "more lost reports than are counted",
            1,
            |setup| Setup { slots: 0, ..setup },
            &Lost,
        )?;
        self.tried("ring of no cells", 100, without_cells, &Pass)?;
        self.tried(
            "one codeblock for a ring of no cells",
            100,
            without_cells,
            &Full,
        )?;
        self.tried("recovery after garbage", 600, with_room, &Recovery)
    }

    /// The same passes, with their symbols brought in this way.
    fn fed(&mut self, what: &str, feed: Feed) -> anyhow::Result<()> {
        self.numbers = Pcg32::new(3, 0);
        self.tried(what, 100, |setup| Setup { feed, ..setup }, &Pass)
    }

    /// Passes over a chain, and over the derandomizing layer over a chain.
    fn over_a_chain(&mut self) -> anyhow::Result<()> {
        self.numbers = Pcg32::new(4, 0);
        let store = Store::Chain;
        self.tried(
            "passes over a chain",
            200,
            |setup| Setup { store, ..setup },
            &Pass,
        )
    }

    /// The idle bit at which a receiver with this limit is back in SEARCH.
    fn recovery_bits(&mut self, limit: usize, first: bool) -> anyhow::Result<()> {
        let mut tally = Tally::default();
        let mut numbers = Pcg32::new(1, 0);
        let settings = Settings::new(Mode::Correcting, limit).context("a limit was refused")?;
        let setup = Setup {
            settings,
            cells: limit,
            ..any_setup(&mut numbers)?
        };
        run(
            self.rt.alloc(),
            setup,
            &Idle { first },
            &mut numbers,
            &mut tally,
        )?;
        // The start sequence ends with three bits of idle from a zero, or with two of idle from a one.
        let back = tally.symbols.saturating_sub(13 + usize::from(first));
        tally.count(back == settings.limit.count() * 64 + 67 - usize::from(first));
        self.differences = self.differences.saturating_add(tally.differences);
        let first = u8::from(first);
        println!(self.rt; "recovery L {limit}, idle from {first}: back at idle bit {back}")?;
        Ok(())
    }
}

/// A queue of so many slots, from which nobody takes a report.
fn untaken(setup: Setup, slots: usize) -> Setup {
    Setup {
        slots,
        taken: false,
        ..setup
    }
}

fn without_cells(setup: Setup) -> Setup {
    Setup { cells: 0, ..setup }
}

/// A hold that is not full before the limit is reached.
fn with_room(setup: Setup) -> Setup {
    Setup {
        cells: setup.settings.limit.count() + 2,
        ..setup
    }
}

/// All trials.
fn work(rt: &(impl Print + AllocGlobal)) -> anyhow::Result<()> {
    let mut trials = Trials {
        rt,
        numbers: Pcg32::new(1, 0),
        differences: 0,
    };
    trials.all()?;
    trials.fed("passes as bits", Feed::Bits)?;
    trials.fed("the same as soft levels", Feed::SoftLevels)?;
    trials.fed("the same as both", Feed::Mixed)?;
    trials.over_a_chain()?;
    for limit in [1, 2, 37, 147] {
        trials.recovery_bits(limit, false)?;
        trials.recovery_bits(limit, true)?;
    }
    let differences = trials.differences;
    println!(rt; "differences: {differences}")?;
    Ok(())
}

const NAME: &str = "receiver_trials";

const ABOUT: &str = "\
receiver_trials: runs receivers beside a model of reception in plain lists, and counts the answers
that differ";

fn main(rt: HostRuntime) -> ExitCode {
    let words = words(&rt);
    let command = program(rt.alloc(), NAME).about(ABOUT);
    command_line::run(&rt, NAME, Ok(command), &words, |_| Ok(work(&rt)?))
}
