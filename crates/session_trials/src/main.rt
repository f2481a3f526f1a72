//! Runs sessions into receivers: what is sent has to come back.
#![tactic(auto)]

use anyhow::{Context, Result, bail};
use bch::Mode;
use cltu::LONGEST_CLTU;
use command_line::{Failure, program, words};
use decoding::Settings;
use derandomizing::Derandomizing;
use hold::Hold;
use procedures::{IdleOctet, Plop};
use queue::Queue;
use rand::RngExt;
use rand_pcg::Pcg32;
use randomizer::Randomizer;
use receiver::Receiver;
use reception::{Reason, Report};
use refusals::Refusal;
use ring::{Cell, Ring};
use session::{AfterSending, Carrier, FrameSpan, Job, Locked, Sent, Silent};
use std::alloc::{AllocError, Global};
use std::collections::VecDeque;
use std::process::ExitCode;

/// What a session and its receiver are set to.
#[derive(Clone, Copy)]
struct Setup {
    plop: Plop,
    randomizer: Randomizer,
    idle: IdleOctet,
    limit: usize,
    mode: Mode,
    /// Which stream of numbers the session draws from: each setup has another.
    stream: u64,
}

/// What was counted in the sessions of a setup.
#[derive(Clone, Copy)]
struct Counts {
    stretches: u64,
    /// In how many of them the hold has no room for all frames.
    overfull: u64,
    octets: u64,
    sent: u64,
    back: u64,
    /// How many of these were released while their stretch still came.
    early: u64,
    refused: u64,
    differences: u64,
}

const NOTHING: Counts = Counts {
    stretches: 0,
    overfull: 0,
    octets: 0,
    sent: 0,
    back: 0,
    early: 0,
    refused: 0,
    differences: 0,
};

/// How many octets the longest call writes: a CLTU, the idle octet of PLOP-2 and a job's idle octets.
const LONGEST_CALL: usize = LONGEST_CLTU + 1 + 2000;

/// How many octets the frame memory has.
const FRAME_MEMORY: usize = 3000;

/// What each bit of an octet counts, in the order in which bits are sent.
const WEIGHTS: [u8; 8] = [0x80, 0x40, 0x20, 0x10, 0x08, 0x04, 0x02, 0x01];

/// A receiver that takes a session's symbols.
#[derive(Drop)]
struct Link<H: Hold> {
    heap: Global,
    setup: Setup,
    numbers: Pcg32,
    receiver: Receiver<H>,
    /// The filled frames that are on their way, the oldest first.
    expected: VecDeque<Vec<u8>>,
    /// How many codeblocks the frames of the stretch have, so far.
    codeblocks: usize,
    /// What the caller's memory held before a call.
    before: Vec<u8>,
    counts: Counts,
}

/// A job that was never put.
const NO_JOB: Job = Job {
    frame: FrameSpan {
        place: 0,
        length: 0,
    },
    idle: 0,
};

/// A job that may be done: the frame is the first octet.
const ONE_OCTET: Job = Job {
    frame: FrameSpan {
        place: 0,
        length: 1,
    },
    idle: 0,
};

/// Another.
const TWO_OCTETS: Job = Job {
    frame: FrameSpan {
        place: 1,
        length: 2,
    },
    idle: 3,
};

/// Idle that has to be refused: how many octets, in memory of how many, and the refusal. Where two apply it is the
/// lower.
const REFUSED_IDLE: [(usize, usize, Refusal); 8] = [
    (0, LONGEST_CALL, Refusal::IdleLength),
    (0, 0, Refusal::IdleLength),
    (2001, LONGEST_CALL, Refusal::IdleLength),
    (1, 0, Refusal::MemoryTooShort),
    (60, 59, Refusal::MemoryTooShort),
    (2000, 1999, Refusal::MemoryTooShort),
    (2001, 2000, Refusal::MemoryTooShort),
    (usize::MAX, LONGEST_CALL, Refusal::MemoryTooShort),
];

/// A session in a state in which it may write idle.
#[derive(Drop)]
enum Modulated<'a> {
    Locked(&'a Locked),
    Sent(&'a Sent),
}

impl Modulated<'_> {
    fn idle(&self, octets: usize, memory: &mut [u8]) -> Result<usize, Refusal> {
        match self {
            Modulated::Locked(locked) => locked.idle(octets, memory),
            Modulated::Sent(sent) => sent.idle(octets, memory),
        }
    }
}

/// A job that has to be refused, in memory of so many octets.
#[derive(Clone, Copy)]
struct RefusedJob {
    job: Job,
    memory: usize,
    refusal: Refusal,
}

fn refused(
    place: usize,
    length: usize,
    idle: usize,
    memory: usize,
    refusal: Refusal,
) -> RefusedJob {
    RefusedJob {
        job: Job {
            frame: FrameSpan { place, length },
            idle,
        },
        memory,
        refusal,
    }
}

/// How many octets a frame of this setup has at most.
fn longest_frame(setup: Setup) -> usize {
    setup.limit.saturating_mul(7).min(1024)
}

/// Frames that are empty, too long or not wholly in a frame memory of so many octets. With too little memory it is
/// the same refusal, which is the lower.
fn refused_spans(setup: Setup, frames: usize) -> [RefusedJob; 14] {
    let all = LONGEST_CALL;
    let why = Refusal::FrameLength;
    [
        refused(0, 0, 0, all, why),
        refused(frames, 0, 0, all, why),
        refused(frames.saturating_add(1), 0, 0, all, why),
        refused(0, 1025, 0, all, why),
        refused(0, longest_frame(setup).saturating_add(1), 0, all, why),
        refused(0, frames, 0, all, why),
        refused(frames, 1, 0, all, why),
        refused(frames.saturating_sub(1), 2, 0, all, why),
        refused(frames.saturating_add(1), 1, 0, all, why),
        refused(usize::MAX, 1, 0, all, why),
        refused(1, usize::MAX, 0, all, why),
        refused(usize::MAX, usize::MAX, 0, all, why),
        refused(0, 0, 0, 0, why),
        refused(frames, 1, 0, 0, why),
    ]
}

/// Frames for which the memory is too short: by an octet, or there is none.
fn refused_for_memory(setup: Setup) -> [RefusedJob; 4] {
    let longest = longest_frame(setup);
    let short = |length: usize| {
        let frame = FrameSpan { place: 0, length };
        octets_of(setup, Job { frame, idle: 0 }).saturating_sub(1)
    };
    let why = Refusal::MemoryTooShort;
    [
        refused(0, 1, 0, short(1), why),
        refused(0, 1, 0, 0, why),
        refused(0, longest, 0, short(longest), why),
        refused(0, longest, 0, 0, why),
    ]
}

/// Jobs that ask for too much idle, or for more than the memory takes.
fn refused_for_idle(setup: Setup, frames: usize) -> [RefusedJob; 8] {
    let without = octets_of(setup, ONE_OCTET);
    let short = |idle: usize| without.saturating_add(idle).saturating_sub(1);
    [
        refused(0, 1, 2001, LONGEST_CALL, Refusal::IdleLength),
        refused(0, 1, 2001, short(2002), Refusal::IdleLength),
        refused(0, 1, 2001, short(2001), Refusal::MemoryTooShort),
        refused(0, 1, 2000, short(2000), Refusal::MemoryTooShort),
        refused(0, 1, 1, short(1), Refusal::MemoryTooShort),
        refused(0, 1, usize::MAX, LONGEST_CALL, Refusal::MemoryTooShort),
        refused(frames, 1, 2001, LONGEST_CALL, Refusal::FrameLength),
        refused(frames, 1, 2001, 0, Refusal::FrameLength),
    ]
}

/// How many codeblocks a frame has.
fn codeblocks_of(frame: FrameSpan) -> usize {
    frame.length.div_ceil(7)
}

/// How many octets are written for a job: the start, the codeblocks, the tail and idle.
fn octets_of(setup: Setup, job: Job) -> usize {
    let idle = match setup.plop {
        Plop::One => job.idle,
        Plop::Two => job.idle.saturating_add(1),
    };
    let codeblocks = codeblocks_of(job.frame).saturating_mul(8);
    codeblocks.saturating_add(2 + 8).saturating_add(idle)
}

/// The answer of a call that may hand its session back, without the session.
fn answered<T: Drop, S: Drop>(answer: Result<T, (S, Refusal)>) -> Result<T, Refusal> {
    answer.map_err(|(_, refusal)| refusal)
}

/// The symbols of octets, of which these are a 0 and a 1.
fn symbols<S: Copy + Drop>(
    heap: Global,
    octets: &[u8],
    zero: S,
    one: S,
) -> Result<Vec<S>, AllocError> {
    let mut symbols = Vec::new(heap);
    for octet in octets {
        for weight in WEIGHTS {
            symbols.push(if octet & weight == 0 { zero } else { one })?;
        }
    }
    Ok(symbols)
}

/// The octets of a frame and its fill.
fn filled(heap: Global, frame: &[u8]) -> Result<Vec<u8>, AllocError> {
    let mut filled = Vec::new(heap);
    for octet in frame {
        filled.push(*octet)?;
    }
    let whole = frame.len().div_ceil(7).saturating_mul(7);
    for _ in frame.len()..whole {
        filled.push(0x55)?;
    }
    Ok(filled)
}

impl<H: Hold + Drop> Link<H> {
    /// Counts a difference unless this holds.
    fn compare(&mut self, same: bool) {
        if !same {
            self.counts.differences = self.counts.differences.saturating_add(1);
        }
    }

    /// Counts a call that was to be refused so, and compares the whole memory.
    fn compare_refused(&mut self, refusal: Refusal, expected: Refusal, memory: &[u8]) {
        self.counts.refused = self.counts.refused.saturating_add(1);
        self.compare(refusal == expected);
        let same = memory == self.before.as_slice();
        self.compare(same);
    }

    /// Compares what stands behind the octets that a call wrote, and brings these to the receiver.
    fn carry(&mut self, memory: &[u8], octets: usize, expected: usize) -> Result<()> {
        self.compare(octets == expected);
        let same = memory.get(octets..) == self.before.get(octets..);
        self.compare(same);
        let written = memory.get(..octets).context("octets past the memory")?;
        for (before, octet) in self.before.iter_mut().zip(written) {
            *before = *octet;
        }
        let cut = self.numbers.random_range(0..=written.len());
        let (first, rest) = written.split_at(cut);
        self.bring(first)?;
        if self.receiver.finished_count() > 0 && self.numbers.random() {
            self.release_early()?;
        }
        self.bring(rest)
    }

    /// The same, where all that was written has to be the idle octet.
    fn carry_idle(&mut self, memory: &[u8], octets: usize, expected: usize) -> Result<()> {
        let idle = match self.setup.idle {
            IdleOctet::ZeroFirst => 0x55,
            IdleOctet::OneFirst => 0xAA,
        };
        let same = memory.iter().take(octets).all(|octet| *octet == idle);
        self.compare(same);
        self.carry(memory, octets, expected)
    }

    /// Brings octets to the receiver, as bits or as soft levels. Every candidate that ends by them is closed, with
    /// nothing corrected.
    fn bring(&mut self, octets: &[u8]) -> Result<()> {
        let mut slots = [Report::UNUSED; 4];
        let mut reports = Queue::new(&mut slots);
        let made = if self.numbers.random() {
            let bits = symbols(self.heap, octets, false, true)?;
            self.receiver.symbols(bits.as_slice(), &mut reports)?
        } else {
            let levels = symbols(self.heap, octets, 100i8, -3i8)?;
            self.receiver.symbols(levels.as_slice(), &mut reports)?
        };
        for _ in 0..made {
            let report = reports.take()?;
            self.compare(report.reason == Reason::Closed && report.corrections == 0);
        }
        self.counts.octets = self.counts.octets.saturating_add(octets.len() as u64);
        Ok(())
    }

    /// A frame somewhere in the frame memory, short enough for the limit.
    fn some_frame(&mut self, frames: &[u8]) -> FrameSpan {
        let most = longest_frame(self.setup).min(frames.len());
        let length = self.numbers.random_range(1..=most.max(1));
        let last = frames.len().saturating_sub(length);
        FrameSpan {
            place: self.numbers.random_range(0..=last),
            length,
        }
    }

    /// Remembers a frame that was sent, and has the hold make room for it.
    fn expect(&mut self, frames: &[u8], frame: FrameSpan) -> Result<()> {
        let end = frame.place.saturating_add(frame.length);
        let octets = frames.get(frame.place..end).context("no frame there")?;
        let codeblocks = codeblocks_of(frame);
        self.codeblocks = self.codeblocks.saturating_add(codeblocks);
        for _ in 0..self.receiver.finished_count() {
            if self.receiver.free_space() < codeblocks {
                self.release_early()?;
            }
        }
        self.expected.push_back(filled(self.heap, octets)?)?;
        self.counts.sent = self.counts.sent.saturating_add(1);
        Ok(())
    }

    /// Takes the oldest candidate out of the hold, and compares it with what was sent.
    fn release(&mut self) -> Result<()> {
        let mut memory = [0u8; 1029];
        let octets = self.receiver.copy_oldest(&mut memory)?;
        self.receiver.release()?;
        let expected = self.expected.pop_front().context("a candidate too many")?;
        let same = memory.get(..octets) == Some(expected.as_slice());
        self.compare(same);
        self.counts.back = self.counts.back.saturating_add(1);
        Ok(())
    }

    /// The same, while the stretch still comes.
    fn release_early(&mut self) -> Result<()> {
        self.counts.early = self.counts.early.saturating_add(1);
        self.release()
    }

    /// Takes all that is left out of the hold.
    fn collect(&mut self) -> Result<()> {
        for _ in 0..self.receiver.finished_count() {
            self.release()?;
        }
        let none_left = self.expected.is_empty();
        self.compare(none_left);
        Ok(())
    }

    /// Acquisitions that have to be refused, in memory of so many octets.
    fn refuse_acquisitions(&mut self, mut carrier: Carrier, memory: &mut [u8]) -> Result<Carrier> {
        for (octets, lent, expected) in [
            (15, LONGEST_CALL, Refusal::IdleLength),
            (256, LONGEST_CALL, Refusal::IdleLength),
            (0, LONGEST_CALL, Refusal::IdleLength),
            (0, 0, Refusal::IdleLength),
            (16, 0, Refusal::MemoryTooShort),
            (16, 15, Refusal::MemoryTooShort),
            (255, 254, Refusal::MemoryTooShort),
            (15, 14, Refusal::MemoryTooShort),
            (256, 255, Refusal::MemoryTooShort),
            (usize::MAX, LONGEST_CALL, Refusal::MemoryTooShort),
        ] {
            let lent = memory.get_mut(..lent).context("not so much memory")?;
            let Err((back, refusal)) = carrier.acquire(octets, lent) else {
                bail!("an acquisition of {octets} octets");
            };
            carrier = back;
            self.compare_refused(refusal, expected, memory);
        }
        Ok(carrier)
    }

    /// Idle that has to be refused.
    fn refuse_idle(&mut self, session: &Modulated<'_>, memory: &mut [u8]) -> Result<()> {
        for (octets, lent, expected) in REFUSED_IDLE {
            let lent = memory.get_mut(..lent).context("not so much memory")?;
            let Err(refusal) = session.idle(octets, lent) else {
                bail!("idle of {octets} octets");
            };
            self.compare_refused(refusal, expected, memory);
        }
        Ok(())
    }

    /// A frame that has to be refused, by itself and as a job.
    fn refuse_frame(
        &mut self,
        locked: Locked,
        frames: &[u8],
        case: RefusedJob,
        memory: &mut [u8],
    ) -> Result<Locked> {
        let lent = memory.get_mut(..case.memory).context("not so much memory")?;
        let Err((locked, refusal)) = locked.send(frames, case.job.frame, lent) else {
            bail!("a frame that was to be refused");
        };
        self.compare_refused(refusal, case.refusal, memory);
        self.refuse_job(locked, frames, case, memory)
    }

    /// A job that has to be refused. It waits in front of another, behind a slot that is free again: the queue and
    /// the slots are as they were.
    fn refuse_job(
        &mut self,
        locked: Locked,
        frames: &[u8],
        case: RefusedJob,
        memory: &mut [u8],
    ) -> Result<Locked> {
        let mut slots = [NO_JOB; 3];
        let mut jobs = Queue::new(&mut slots);
        jobs.put(ONE_OCTET)?;
        let _ = jobs.take()?;
        jobs.put(case.job)?;
        jobs.put(TWO_OCTETS)?;
        let lent = memory.get_mut(..case.memory).context("not so much memory")?;
        let Err((locked, refusal)) = locked.run_next(&mut jobs, frames, lent) else {
            bail!("a job that was to be refused");
        };
        self.compare_refused(refusal, case.refusal, memory);
        let waiting = [jobs.take(), jobs.take(), jobs.take()];
        self.compare(waiting == [Ok(case.job), Ok(TWO_OCTETS), Err(Refusal::QueueEmpty)]);
        self.compare(slots == [ONE_OCTET, case.job, TWO_OCTETS]);
        Ok(locked)
    }

    /// No job waits, with memory and without.
    fn refuse_no_job(
        &mut self,
        mut locked: Locked,
        frames: &[u8],
        memory: &mut [u8],
    ) -> Result<Locked> {
        for lent in [LONGEST_CALL, 0] {
            let mut slots = [NO_JOB; 3];
            let mut jobs = Queue::new(&mut slots);
            jobs.put(ONE_OCTET)?;
            let _ = jobs.take()?;
            let lent = memory.get_mut(..lent).context("not so much memory")?;
            let Err((back, refusal)) = locked.run_next(&mut jobs, frames, lent) else {
                bail!("a job where none waits");
            };
            locked = back;
            self.compare_refused(refusal, Refusal::QueueEmpty, memory);
            let none = jobs.take() == Err(Refusal::QueueEmpty);
            self.compare(none && slots == [ONE_OCTET, NO_JOB, NO_JOB]);
        }
        Ok(locked)
    }

    /// All that has to be refused with the carrier locked.
    fn refuse_all(&mut self, locked: Locked, frames: &[u8], memory: &mut [u8]) -> Result<Locked> {
        self.refuse_idle(&Modulated::Locked(&locked), memory)?;
        let mut locked = self.refuse_no_job(locked, frames, memory)?;
        for case in refused_spans(self.setup, frames.len()) {
            locked = self.refuse_frame(locked, frames, case, memory)?;
        }
        for case in refused_for_memory(self.setup) {
            locked = self.refuse_frame(locked, frames, case, memory)?;
        }
        for case in refused_for_idle(self.setup, frames.len()) {
            locked = self.refuse_job(locked, frames, case, memory)?;
        }
        Ok(locked)
    }

    /// Sends a frame, by itself or as the job that waits longest.
    fn send(
        &mut self,
        locked: Locked,
        frames: &[u8],
        jobs: &mut Queue<'_, Job>,
        memory: &mut [u8],
    ) -> Result<AfterSending> {
        let (after, job, octets) = if self.numbers.random() {
            let frame = self.some_frame(frames);
            let (after, octets) = answered(locked.send(frames, frame, memory))?;
            (after, Job { frame, idle: 0 }, octets)
        } else {
            let job = jobs.front().copied().context("no job waits")?;
            let others = jobs.len().saturating_sub(1);
            let (after, octets) = answered(locked.run_next(jobs, frames, memory))?;
            self.compare(jobs.len() == others);
            (after, job, octets)
        };
        self.expect(frames, job.frame)?;
        self.carry(memory, octets, octets_of(self.setup, job))?;
        Ok(after)
    }

    /// Lets jobs wait, as many as the queue takes.
    fn fill_jobs(&mut self, frames: &[u8], jobs: &mut Queue<'_, Job>) -> Result<()> {
        for _ in jobs.len()..jobs.capacity() {
            let frame = self.some_frame(frames);
            let idle = self.numbers.random_range(0..3usize) * 1000;
            jobs.put(Job { frame, idle })?;
        }
        Ok(())
    }

    /// From an acquisition to a break.
    fn stretch(
        &mut self,
        carrier: Carrier,
        frames: &[u8],
        jobs: &mut Queue<'_, Job>,
        memory: &mut [u8],
    ) -> Result<Carrier> {
        let carrier = self.refuse_acquisitions(carrier, memory)?;
        self.fill_jobs(frames, jobs)?;
        self.receiver.carrier_up()?;
        let acquisition = self.numbers.random_range(16..=255usize);
        let (locked, octets) = answered(carrier.acquire(acquisition, memory))?;
        self.carry_idle(memory, octets, acquisition)?;
        let mut locked = self.refuse_all(locked, frames, memory)?;
        for _ in 0..4 {
            if self.numbers.random() {
                let idle = self.numbers.random_range(1..=60usize);
                let octets = locked.idle(idle, memory)?;
                self.carry_idle(memory, octets, idle)?;
            }
            match self.send(locked, frames, jobs, memory)? {
                AfterSending::Locked(next) => locked = next,
                AfterSending::Sent(sent) => return self.after_the_only(sent, memory),
            }
        }
        self.carrier_down()?;
        Ok(locked.break_modulation())
    }

    /// PLOP-1: idle, and the break.
    fn after_the_only(&mut self, sent: Sent, memory: &mut [u8]) -> Result<Carrier> {
        self.refuse_idle(&Modulated::Sent(&sent), memory)?;
        let idle = self.numbers.random_range(1..=60usize);
        let octets = sent.idle(idle, memory)?;
        self.carry_idle(memory, octets, idle)?;
        self.carrier_down()?;
        Ok(sent.break_modulation())
    }

    fn carrier_down(&mut self) -> Result<()> {
        let mut slots = [Report::UNUSED; 1];
        let mut reports = Queue::new(&mut slots);
        self.receiver.carrier_down(&mut reports)?;
        self.compare(reports.len() == 0);
        self.counts.stretches = self.counts.stretches.saturating_add(1);
        if self.codeblocks > self.setup.limit {
            self.counts.overfull = self.counts.overfull.saturating_add(1);
        }
        self.codeblocks = 0;
        Ok(())
    }

    /// A whole session, of so many stretches.
    fn session(&mut self, stretches: usize, frames: &[u8]) -> Result<()> {
        let setup = self.setup;
        let mut memory = random_octets(self.heap, LONGEST_CALL)?;
        let mut slots = [NO_JOB; 5];
        let mut jobs = Queue::new(&mut slots);
        let silent = Silent::new(setup.plop, setup.limit, setup.randomizer, setup.idle)?;
        let mut carrier = silent.raise();
        for _ in 0..stretches {
            carrier = self.stretch(carrier, frames, &mut jobs, memory.as_mut_slice())?;
            self.collect()?;
        }
        let _silent = carrier.lower();
        Ok(())
    }
}

/// Runs a session into a receiver over this hold.
fn run<H: Hold + Drop>(heap: Global, setup: Setup, hold: H, frames: &[u8]) -> Result<Counts> {
    let settings = Settings::new(setup.mode, setup.limit)?;
    let mut link = Link {
        heap,
        setup,
        numbers: Pcg32::new(1, setup.stream),
        receiver: Receiver::new(settings, hold),
        expected: VecDeque::new(heap),
        codeblocks: 0,
        before: random_octets(heap, LONGEST_CALL)?,
        counts: NOTHING,
    };
    link.session(40, frames)?;
    Ok(link.counts)
}

/// Runs a session into a receiver whose hold matches it, and has room for the longest frame and no more.
fn run_matching(heap: Global, setup: Setup, frames: &[u8]) -> Result<Counts> {
    let mut cells = vec![in heap; Cell::EMPTY; setup.limit]?;
    let ring = Ring::new(cells.as_mut_slice());
    match setup.randomizer {
        Randomizer::Off => run(heap, setup, ring, frames),
        Randomizer::On => run(heap, setup, Derandomizing::over(ring), frames),
    }
}

/// A setup in words: the number of its procedure, its randomizer, its idle octet and its mode.
fn setup_words(setup: Setup) -> (u8, &'static str, &'static str, &'static str) {
    (
        setup.plop as u8,
        match setup.randomizer {
            Randomizer::On => "on",
            Randomizer::Off => "off",
        },
        match setup.idle {
            IdleOctet::ZeroFirst => "55",
            IdleOctet::OneFirst => "AA",
        },
        match setup.mode {
            Mode::Correcting => "correcting",
            Mode::Detecting => "detecting",
        },
    )
}

/// Runs a setup, prints its line, and tells how many differences there were.
fn report(rt: &(impl Print + AllocGlobal), setup: Setup, frames: &[u8]) -> Result<u64> {
    let Counts {
        stretches,
        overfull,
        octets,
        sent,
        back,
        early,
        refused,
        differences,
    } = run_matching(rt.alloc(), setup, frames)?;
    let (plop, random, idle, mode) = setup_words(setup);
    let limit = setup.limit;
    print!(rt; "PLOP-{plop}, randomizer {random}, idle {idle}, {mode}, L {limit}: ")?;
    print!(rt;
        "{stretches} stretches, {overfull} of them more than the hold takes, {octets} octets, "
    )?;
    println!(rt;
        "{sent} frames sent, {back} back, {early} of them before the break, {refused} calls refused"
    )?;
    Ok(differences)
}

/// So many octets by chance, each time the same.
fn random_octets(heap: Global, length: usize) -> Result<Vec<u8>, AllocError> {
    let mut octets = vec![in heap; 0u8; length]?;
    Pcg32::new(1, 0).fill(octets.as_mut_slice());
    Ok(octets)
}

/// A session of every setup.
fn work(rt: &(impl Print + AllocGlobal)) -> Result<(), Failure> {
    let frames = random_octets(rt.alloc(), FRAME_MEMORY)?;
    let mut differences: u64 = 0;
    let mut stream: u64 = 0;
    for plop in [Plop::One, Plop::Two] {
        for randomizer in [Randomizer::Off, Randomizer::On] {
            for idle in [IdleOctet::ZeroFirst, IdleOctet::OneFirst] {
                for (mode, limit) in [(Mode::Correcting, 147), (Mode::Detecting, 37)] {
                    stream = stream.saturating_add(1);
                    let setup = Setup {
                        plop,
                        randomizer,
                        idle,
                        limit,
                        mode,
                        stream,
                    };
                    let more = report(rt, setup, frames.as_slice())?;
                    differences = differences.saturating_add(more);
                }
            }
        }
    }
    println!(rt; "differences: {differences}")?;
    Ok(())
}

const NAME: &str = "session_trials";

const ABOUT: &str = "\
session_trials: runs sessions into receivers, where what is sent has to come back, and counts what
differs";

fn main(rt: HostRuntime) -> ExitCode {
    let words = words(&rt);
    let command = program(rt.alloc(), NAME).about(ABOUT);
    command_line::run(&rt, NAME, Ok(command), &words, |_| work(&rt))
}
