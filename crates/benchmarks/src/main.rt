//! `benchmarks`: what the code costs, against rivals in the same run.
#![tactic(auto)]

use bch::{Accepted, Mode};
use chain::{Chain, LinkedCell};
use clap::{Arg, ArgMatches, Command};
use cltu::{CodeblockLimit, LONGEST_CLTU, Sender};
use coding::{codeblock, judge};
use command_line::{Failure, program, run, unknown_argument, words};
use decoding::Settings;
use hold::{Hold, copy_oldest};
use queue::Queue;
use randomizer::{Randomizer, sequence_octet};
use receiver::Receiver;
use reception::Report;
use ring::{Cell, Ring};
use searching::Symbol;
use std::alloc::{AllocError, Global};
use std::process::ExitCode;
use std::rt::Clock;
use std::time::Instant;
use std::{array, fmt};

const HELP: &str = "\
benchmarks: what the code costs, against rivals in the same run

usage: benchmarks time

time measures for some seconds and prints a line for each comparison of one way against another:
nanoseconds an operation of the first and of the second, and the first divided by the second. The
checksum at the end depends on every answer, so that the compiler leaves no work out.

The times differ from run to run, so without an argument nothing is measured.";

/// How often both sides of a comparison are measured, in turn. The quickest round counts: other work
/// on the machine can only make a round slower.
const ROUNDS: u64 = 5;

/// How many places of the sequence one repetition reads.
const PLACES: usize = 1_000;

/// How many cells the large ring has, and the small one.
const MANY_CELLS: usize = 8_192;

const FEW_CELLS: usize = 8;

/// How many octets the frame has.
const FRAME_OCTETS: usize = 1_024;

/// How many symbols the pass has: idle, a CLTU of 37 codeblocks, and idle again.
const SYMBOLS: usize = 4_096;

const CLTU_BEGINS: usize = 1_000;

/// What is measured.
trait Work {
    /// How many operations a round has.
    fn operations(&self) -> u64;

    /// Does so many operations in this round, and answers a number that depends on all their answers.
    fn checksum(&self, operations: u64, round: u64) -> u64;
}

fn folded(checksum: u64, answer: u64) -> u64 {
    checksum.wrapping_mul(31).wrapping_add(answer)
}

/// Octets of the randomizer's sequence, at places from this one on.
#[derive(Clone, Copy)]
struct Sequence {
    first: usize,
}

impl Work for Sequence {
    fn operations(&self) -> u64 {
        50_000_000
    }

    // Sums a thousand octets at a time. Each repetition begins one place further than the last, so that
    // none is the same as the one before, and begins again after eight.
    fn checksum(&self, operations: u64, round: u64) -> u64 {
        let mut sum: u64 = round;
        for repetition in 0..operations / 1_000 {
            let from = self.first.wrapping_add((repetition & 7) as usize);
            // A range from the first place on takes a tenth longer.
            for k in 0..PLACES {
                sum = sum.wrapping_add(u64::from(sequence_octet(from.wrapping_add(k))));
            }
        }
        sum
    }
}

// The information of the codeblock with this number: different octets, spread over all values.
fn information(number: u64) -> [u8; 7] {
    let [a, b, c, d, e, f, g, _] = number.wrapping_mul(0x9E37_79B9_7F4A_7C15).to_be_bytes();
    [a, b, c, d, e, f, g]
}

// Seven octets and an eighth of 0, as one number.
fn as_number(information: [u8; 7]) -> u64 {
    let [a, b, c, d, e, f, g] = information;
    u64::from_be_bytes([a, b, c, d, e, f, g, 0])
}

// The rival of `codeblock`: a register of seven bits, fed with the 56 bits of information one by one.
fn shift_register_codeblock(information: [u8; 7]) -> [u8; 8] {
    let [a, b, c, d, e, f, g] = information;
    let mut bits = as_number(information);
    let mut register: u8 = 0;
    for _ in 0..56u8 {
        let bit = ((bits >> 63) & 1) as u8;
        bits <<= 1;
        let feedback = (register >> 6) ^ bit;
        register = (register << 1) & 0x7F;
        if feedback == 1 {
            register ^= 0x45;
        }
    }
    [a, b, c, d, e, f, g, (register ^ 0x7F) << 1]
}

// Makes codeblocks of the information with these numbers.
fn codeblocks_checksum<F: Fn([u8; 7]) -> [u8; 8]>(make: F, operations: u64, round: u64) -> u64
    requires { F.IsAlwaysCallable make }
{
    let mut checksum: u64 = round;
    for number in 0..operations {
        let block = make(information(number.wrapping_add(round)));
        checksum = folded(checksum, u64::from_be_bytes(block));
    }
    checksum
}

/// Codeblocks, by the table.
#[derive(Clone, Copy)]
struct Table;

impl Work for Table {
    fn operations(&self) -> u64 {
        8_000_000
    }

    fn checksum(&self, operations: u64, round: u64) -> u64 {
        codeblocks_checksum(codeblock, operations, round)
    }
}

/// Codeblocks, by the shift register.
#[derive(Clone, Copy)]
struct ShiftRegister;

impl Work for ShiftRegister {
    fn operations(&self) -> u64 {
        1_000_000
    }

    fn checksum(&self, operations: u64, round: u64) -> u64 {
        codeblocks_checksum(shift_register_codeblock, operations, round)
    }
}

/// Verdicts on codeblocks to which these wrong bits were added.
#[derive(Clone, Copy)]
struct Judging {
    wrong: u64,
    operations: u64,
}

impl Work for Judging {
    fn operations(&self) -> u64 {
        self.operations
    }

    // Judges 1,000 codeblocks, made beforehand, again and again.
    fn checksum(&self, operations: u64, round: u64) -> u64 {
        let words: [u64; 1_000] = array::from_fn(|k| {
            let block = codeblock(information(round.wrapping_add(k as u64)));
            u64::from_be_bytes(block) ^ self.wrong
        });
        let mut checksum: u64 = round;
        for _ in 0..operations / 1_000 {
            for word in &words {
                checksum = folded(checksum, judged_number(judge(Mode::Correcting, *word)));
            }
        }
        checksum
    }
}

fn judged_number(verdict: Option<Accepted>) -> u64 {
    verdict.map_or(1, |accepted| as_number(accepted.information))
}

/// CLTUs of a frame of 1,024 octets.
#[derive(Clone, Copy)]
struct Writing {
    sender: Sender,
}

impl Work for Writing {
    fn operations(&self) -> u64 {
        40_000
    }

    // Writes the frame again and again, and changes an octet of it each time.
    fn checksum(&self, operations: u64, round: u64) -> u64 {
        let mut frame = [0x55u8; FRAME_OCTETS];
        let mut memory = [0u8; LONGEST_CLTU];
        let mut checksum: u64 = round;
        for number in 0..operations {
            let place = (number & 1_023) as usize;
            frame[place] = (number & 255) as u8;
            let octets = self.sender.write_cltu(&frame, &mut memory).unwrap_or(0);
            checksum = folded(
                checksum,
                (octets as u64).wrapping_add(u64::from(memory[place])),
            );
        }
        checksum
    }
}

/// Calls of a ring of so many cells.
// Of the front of one array: a const parameter has no bound, and an array of so many cells might be too large.
#[derive(Clone, Copy)]
struct RingCalls {
    cells: usize,
}

impl Work for RingCalls {
    fn operations(&self) -> u64 {
        8_000_000
    }

    fn checksum(&self, operations: u64, round: u64) -> u64 {
        let mut cells = [Cell::EMPTY; MANY_CELLS];
        let mut ring = Ring::new(&mut cells[..self.cells.min(MANY_CELLS)]);
        calls_checksum(&mut ring, operations, round)
    }
}

/// Calls of a chain of so many cells.
#[derive(Clone, Copy)]
struct ChainCalls {
    cells: usize,
}

impl Work for ChainCalls {
    fn operations(&self) -> u64 {
        8_000_000
    }

    fn checksum(&self, operations: u64, round: u64) -> u64 {
        let mut cells = [LinkedCell::EMPTY; MANY_CELLS];
        let mut chain = Chain::new(&mut cells[..self.cells.min(MANY_CELLS)]);
        calls_checksum(&mut chain, operations, round)
    }
}

// A candidate of two codeblocks comes and goes: eight calls each time.
fn calls_checksum<H: Hold>(hold: &mut H, operations: u64, round: u64) -> u64 {
    let mut checksum: u64 = round;
    for number in 0..operations / 8 {
        let _ = hold.open();
        let _ = hold.add(information(number));
        let _ = hold.add(information(round));
        let _ = hold.finish();
        let octet = hold.oldest_octet(3).unwrap_or(0);
        let octets = hold.oldest_length().unwrap_or(0);
        let _ = hold.release();
        let free = hold.free_space() as u64;
        checksum = folded(
            checksum,
            u64::from(octet)
                .wrapping_add(octets as u64)
                .wrapping_add(free),
        );
    }
    checksum
}

/// Octets copied from a ring of a candidate of so many codeblocks.
#[derive(Clone, Copy)]
struct RingCopying {
    codeblocks: usize,
}

impl Work for RingCopying {
    fn operations(&self) -> u64 {
        40_000_000
    }

    fn checksum(&self, operations: u64, round: u64) -> u64 {
        let mut cells = [Cell::EMPTY; 147];
        let mut ring = Ring::new(&mut cells);
        copying_checksum(&mut ring, self.codeblocks, operations, round)
    }
}

/// Octets copied from a chain of a candidate of so many codeblocks.
#[derive(Clone, Copy)]
struct ChainCopying {
    codeblocks: usize,
}

impl Work for ChainCopying {
    fn operations(&self) -> u64 {
        40_000_000
    }

    fn checksum(&self, operations: u64, round: u64) -> u64 {
        let mut cells = [LinkedCell::EMPTY; 147];
        let mut chain = Chain::new(&mut cells);
        copying_checksum(&mut chain, self.codeblocks, operations, round)
    }
}

// A candidate of so many codeblocks is copied again and again.
fn copying_checksum<H: Hold>(hold: &mut H, codeblocks: usize, operations: u64, round: u64) -> u64 {
    let _ = hold.open();
    for _ in 0..codeblocks {
        let _ = hold.add(information(round));
    }
    let _ = hold.finish();
    let mut memory = [0u8; 1_029];
    let octets = (codeblocks as u64).saturating_mul(7).max(1);
    copied_checksum(hold, &mut memory, operations / octets, round)
}

fn copied_checksum<H: Hold>(hold: &H, memory: &mut [u8], copies: u64, round: u64) -> u64 {
    let mut checksum: u64 = round;
    for number in 0..copies {
        let copied = copy_oldest(hold, memory).unwrap_or(0);
        let octet = memory.get((number & 6) as usize).copied().unwrap_or(0);
        checksum = folded(checksum, u64::from(octet).wrapping_add(copied as u64));
    }
    checksum
}

// The bit of the pass at this place, by the octets of its CLTU.
fn pass_bit(cltu: &[u8], place: usize) -> bool {
    let Some(behind) = place.checked_sub(CLTU_BEGINS) else {
        return place % 2 == 1;
    };
    match cltu.get(behind / 8) {
        Some(octet) => (*octet >> (7 - behind % 8)) & 1 == 1,
        None => behind % 2 == 1,
    }
}

/// The bits of the pass.
fn pass_bits(round: u64) -> [bool; SYMBOLS] {
    let mut cltu = [0u8; 306];
    let sender = Sender {
        limit: CodeblockLimit::MOST,
        randomizer: Randomizer::Off,
    };
    let _ = sender.write_cltu(&[(round & 255) as u8; 259], &mut cltu);
    array::from_fn(|place| pass_bit(&cltu, place))
}

/// The same as soft levels.
fn pass_levels(round: u64) -> [i8; SYMBOLS] {
    pass_bits(round).map(|bit| if bit { -100 } else { 100 })
}

/// Receives the pass again and again, so many symbols a call.
fn received_checksum<S: Symbol>(pass: &[S], a_call: usize, operations: u64, round: u64) -> u64 {
    let settings = Settings::new(Mode::Correcting, 37).unwrap();
    let mut cells = [Cell::EMPTY; 37];
    let mut slots = [Report::UNUSED; 4];
    let mut queue = Queue::new(&mut slots);
    let mut receiver = Receiver::new(settings, Ring::new(&mut cells));
    let _ = receiver.carrier_up();
    let mut checksum: u64 = round;
    for _ in 0..operations / 4_096 {
        for symbols in pass.chunks(a_call.max(1)) {
            let _ = receiver.symbols(symbols, &mut queue);
        }
        let codeblocks = queue.take().map_or(0, |report| report.codeblocks);
        let octet = receiver.oldest_octet(3).unwrap_or(0);
        let _ = receiver.release();
        checksum = folded(checksum, (codeblocks as u64).wrapping_add(u64::from(octet)));
    }
    checksum
}

/// Symbols received as bits, so many a call.
#[derive(Clone, Copy)]
struct Bits {
    a_call: usize,
}

impl Work for Bits {
    fn operations(&self) -> u64 {
        40_960_000
    }

    fn checksum(&self, operations: u64, round: u64) -> u64 {
        received_checksum(&pass_bits(round), self.a_call, operations, round)
    }
}

/// Symbols received as soft levels.
#[derive(Clone, Copy)]
struct Levels;

impl Work for Levels {
    fn operations(&self) -> u64 {
        40_960_000
    }

    fn checksum(&self, operations: u64, round: u64) -> u64 {
        received_checksum(&pass_levels(round), SYMBOLS, operations, round)
    }
}

/// The rival: bits in arrays, a window that is moved bit by bit, and the code by a shift register.
// Arrays with a count beside them, and a flag, as a first version has them: ours is compared with that.
#[derive(Drop)]
struct PlainReceiver {
    window: [bool; 16],
    entered: usize,
    block: [bool; 64],
    filled: usize,
    decoding: bool,
    codeblocks: u64,
    candidate: [u8; 259],
}

impl PlainReceiver {
    fn new() -> PlainReceiver {
        PlainReceiver {
            window: [false; 16],
            entered: 0,
            block: [false; 64],
            filled: 0,
            decoding: false,
            codeblocks: 0,
            candidate: [0; 259],
        }
    }

    // How many bits of the window differ from the start sequence.
    fn wrong_bits(&self) -> u32 {
        // By a chain of `zip`, `filter` and `count` a symbol takes the rival twice as long.
        let mut wrong = 0u32;
        for (place, bit) in self.window.iter().enumerate() {
            if *bit != ((0xEB90u16 >> (15 - place % 16)) & 1 == 1) {
                wrong = wrong.saturating_add(1);
            }
        }
        wrong
    }

    fn search(&mut self, bit: bool) {
        self.window.rotate_left(1);
        self.window[15] = bit;
        self.entered = self.entered.saturating_add(1).min(16);
        if self.entered == 16 && self.wrong_bits() <= 1 {
            self.decoding = true;
            self.filled = 0;
            self.codeblocks = 0;
        }
    }

    // What a register of seven bits has left of the codeblock: 0 where it is undamaged.
    fn register(&self) -> u8 {
        let mut register: u8 = 0;
        for (place, bit) in self.block.iter().enumerate().take(63) {
            let turned = *bit != (place >= 56);
            let feedback = register >= 0x40;
            register = ((register & 0x3F) << 1) | u8::from(turned);
            if feedback {
                register ^= 0x45;
            }
        }
        register & 0x7F
    }

    fn keep(&mut self) {
        let begins = (self.codeblocks & 0xFF) as usize * 7;
        if let Some(cells) = self.candidate.get_mut(begins..begins + 7) {
            for (cell, bits) in cells.iter_mut().zip(self.block.chunks(8)) {
                *cell = bits
                    .iter()
                    .fold(0, |octet, bit| (octet << 1) | u8::from(*bit));
            }
        }
        self.codeblocks = self.codeblocks.saturating_add(1);
    }

    // Answers how many codeblocks the candidate has that this symbol ends.
    fn symbol(&mut self, bit: bool) -> Option<u64> {
        if !self.decoding {
            self.search(bit);
            return None;
        }
        if let Some(place) = self.block.get_mut(self.filled) {
            *place = bit;
        }
        self.filled = self.filled.saturating_add(1);
        if self.filled < 64 {
            return None;
        }
        self.filled = 0;
        if self.register() == 0 && self.codeblocks < 37 {
            self.keep();
            return None;
        }
        self.decoding = false;
        self.entered = 0;
        Some(self.codeblocks)
    }
}

/// Symbols received by the rival, which detects wrong bits and corrects none.
#[derive(Clone, Copy)]
struct PlainBits;

impl Work for PlainBits {
    fn operations(&self) -> u64 {
        4_096_000
    }

    fn checksum(&self, operations: u64, round: u64) -> u64 {
        plain_checksum(&pass_bits(round), operations, round)
    }
}

fn plain_checksum(pass: &[bool], operations: u64, round: u64) -> u64 {
    let mut plain = PlainReceiver::new();
    let mut checksum: u64 = round;
    for _ in 0..operations / 4_096 {
        let mut codeblocks = 0u64;
        for bit in pass {
            if let Some(ended) = plain.symbol(*bit) {
                codeblocks = ended;
            }
        }
        let octet = plain.candidate[3];
        checksum = folded(checksum, codeblocks.wrapping_add(u64::from(octet)));
    }
    checksum
}

/// Hundredths, shown with two decimals.
#[derive(Clone, Copy)]
struct Hundredths(u64);

impl Hundredths {
    // 0 where the divisor is.
    fn quotient(dividend: u64, divisor: u64) -> Hundredths {
        Hundredths(
            dividend
                .saturating_mul(100)
                .checked_div(divisor)
                .unwrap_or(0),
        )
    }
}

impl fmt::Display for Hundredths {
    fn fmt<W: fmt::Write>(&self, f: &mut fmt::Formatter<W>) -> fmt::Result {
        let whole = self.0 / 100;
        let part = self.0 % 100;
        write!(f, "{whole}.{part:02}")
    }
}

/// What was measured of one work.
#[derive(Clone, Copy)]
struct Measured {
    /// The time of the quickest round.
    nanos: u64,
    /// How many operations a round has.
    operations: u64,
}

impl Measured {
    fn nanos_an_operation(self) -> Hundredths {
        Hundredths::quotient(self.nanos, self.operations)
    }

    // The time of an operation of this divided by the time of one of the rival.
    fn ratio(self, rival: Measured) -> Hundredths {
        let here = self.nanos.saturating_mul(1_000) / self.operations.max(1);
        let there = rival.nanos.saturating_mul(1_000) / rival.operations.max(1);
        Hundredths::quotient(here, there)
    }
}

// The time of one round, whose answers are folded into the sum.
fn round_nanos(
    rt: &impl Clock,
    work: &impl Work,
    round: u64,
    sum: &mut u64,
) -> anyhow::Result<u64> {
    let start = Instant::now(rt)?;
    *sum = folded(*sum, work.checksum(work.operations(), round));
    let spent = start.elapsed(rt)?;
    Ok(u64::try_from(spent.as_nanos()).unwrap_or(u64::MAX))
}

// Measures both in turn, and prints the line that compares them.
fn compare(
    rt: &(impl Print + Clock),
    name: &str,
    subject: &impl Work,
    rival: &impl Work,
) -> anyhow::Result<(Measured, Measured)> {
    let mut here = Measured {
        nanos: u64::MAX,
        operations: subject.operations(),
    };
    let mut there = Measured {
        nanos: u64::MAX,
        operations: rival.operations(),
    };
    let mut checksum: u64 = 0;
    for round in 0..ROUNDS {
        let nanos = round_nanos(rt, subject, round, &mut checksum)?;
        here.nanos = here.nanos.min(nanos);
        let nanos = round_nanos(rt, rival, round, &mut checksum)?;
        there.nanos = there.nanos.min(nanos);
    }
    let time = here.nanos_an_operation();
    let rival_time = there.nanos_an_operation();
    let ratio = here.ratio(there);
    println!(rt; "{name}: {time} ns, {rival_time} ns, ratio {ratio} (checksum {checksum:016x})")?;
    Ok((here, there))
}

// Whether two works give the same answers.
fn agreement(subject: &impl Work, rival: &impl Work) -> &'static str {
    if subject.checksum(100_000, 0) == rival.checksum(100_000, 0) {
        "agree"
    } else {
        "DIFFER"
    }
}

fn octets_a_microsecond(measured: Measured) -> Hundredths {
    let octets = measured.operations.saturating_mul(1_024);
    Hundredths::quotient(octets.saturating_mul(1_000), measured.nanos)
}

fn time_sequence(rt: &(impl Print + Clock)) -> anyhow::Result<()> {
    let near = Sequence { first: 0 };
    let far = Sequence { first: 1_000_000 };
    let _ = compare(
        rt,
        "sequence octet, places from 1,000,000 against from 0",
        &far,
        &near,
    )?;
    Ok(())
}

fn time_codeblock(rt: &(impl Print + Clock)) -> anyhow::Result<()> {
    let table = Table;
    let register = ShiftRegister;
    let _ = compare(
        rt,
        "codeblock, shift register against table",
        &register,
        &table,
    )?;
    let agree = agreement(&register, &table);
    println!(rt; "  shift register and table: checksums of 100,000 codeblocks {agree}")?;
    Ok(())
}

fn time_verdict(rt: &(impl Print + Clock)) -> anyhow::Result<()> {
    let undamaged = Judging {
        wrong: 0,
        operations: 6_000_000,
    };
    let lowest = Judging {
        wrong: 2,
        operations: 6_000_000,
    };
    let highest = Judging {
        wrong: 1 << 63,
        operations: 1_000_000,
    };
    let _ = compare(
        rt,
        "verdict, wrong bit at degree 0 against undamaged",
        &lowest,
        &undamaged,
    )?;
    let _ = compare(
        rt,
        "verdict, wrong bit at degree 62 against undamaged",
        &highest,
        &undamaged,
    )?;
    let at_lowest = agreement(&lowest, &undamaged);
    let at_highest = agreement(&highest, &undamaged);
    println!(rt;
        "  corrected and undamaged: checksums of 100,000 verdicts {at_lowest}, {at_highest}"
    )?;
    Ok(())
}

fn time_writing(rt: &(impl Print + Clock)) -> anyhow::Result<()> {
    let limit = CodeblockLimit::MOST;
    let on = Writing {
        sender: Sender {
            limit,
            randomizer: Randomizer::On,
        },
    };
    let off = Writing {
        sender: Sender {
            limit,
            randomizer: Randomizer::Off,
        },
    };
    let (with, without) = compare(
        rt,
        "frame of 1,024 octets, randomizer on against off",
        &on,
        &off,
    )?;
    let rate_on = octets_a_microsecond(with);
    let rate_off = octets_a_microsecond(without);
    println!(rt; "  octets of the frame a microsecond: {rate_on} on, {rate_off} off")?;
    Ok(())
}

fn time_ring(rt: &(impl Print + Clock)) -> anyhow::Result<()> {
    let large = RingCalls { cells: MANY_CELLS };
    let small = RingCalls { cells: FEW_CELLS };
    let _ = compare(rt, "call of a ring, 8,192 cells against 8", &large, &small)?;
    let long = RingCopying { codeblocks: 147 };
    let short = RingCopying { codeblocks: 7 };
    let _ = compare(
        rt,
        "octet of a copy from a ring, candidate of 147 codeblocks against 7",
        &long,
        &short,
    )?;
    Ok(())
}

fn time_chain(rt: &(impl Print + Clock)) -> anyhow::Result<()> {
    let large = ChainCalls { cells: MANY_CELLS };
    let small = ChainCalls { cells: FEW_CELLS };
    let _ = compare(rt, "call of a chain, 8,192 cells against 8", &large, &small)?;
    let long = ChainCopying { codeblocks: 147 };
    let short = ChainCopying { codeblocks: 7 };
    let _ = compare(
        rt,
        "octet of a copy from a chain, candidate of 147 codeblocks against 7",
        &long,
        &short,
    )?;
    Ok(())
}

fn time_symbols(rt: &(impl Print + Clock)) -> anyhow::Result<()> {
    let bits = Bits { a_call: SYMBOLS };
    let plain = PlainBits;
    let _ = compare(
        rt,
        "symbol received, plain rival against receiver",
        &plain,
        &bits,
    )?;
    let single = Bits { a_call: 1 };
    let _ = compare(
        rt,
        "symbol received, one a call against 4,096 a call",
        &single,
        &bits,
    )?;
    let levels = Levels;
    let _ = compare(
        rt,
        "symbol received, soft levels against bits",
        &levels,
        &bits,
    )?;
    let by_plain = agreement(&plain, &bits);
    let one_a_call = agreement(&single, &bits);
    let soft = agreement(&levels, &bits);
    println!(rt;
        "  rival, one a call, soft levels: checksums of 24 passes {by_plain}, {one_a_call}, {soft}"
    )?;
    Ok(())
}

fn time(rt: &(impl Print + Clock)) -> anyhow::Result<()> {
    time_sequence(rt)?;
    time_codeblock(rt)?;
    time_verdict(rt)?;
    time_writing(rt)?;
    time_ring(rt)?;
    time_chain(rt)?;
    time_symbols(rt)
}

const NAME: &str = "benchmarks";

fn command<'a>(heap: Global) -> Result<Command<'a>, AllocError> {
    program(heap, NAME)
        .override_help(HELP)
        .arg(Arg::new(heap, "WHAT"))
}

fn measure(
    rt: &(impl Print + Clock + AllocGlobal),
    matches: &ArgMatches<'_>,
) -> Result<(), Failure> {
    match matches.get_str("WHAT") {
        None => rt.println(HELP)?,
        Some("time") => time(rt)?,
        Some(other) => {
            return Err(Failure::Arguments(unknown_argument(rt.alloc(), other)?));
        }
    }
    Ok(())
}

fn main(rt: HostRuntime) -> ExitCode {
    let words = words(&rt);
    run(
        &rt,
        NAME,
        command(rt.alloc()),
        &words,
        |matches| measure(&rt, matches),
    )
}
