//! The telecommand code at work: codeblocks written, and received words judged. A received word is
//! 64 bits, the first bit received its highest.
#![tactic(auto)]

ghost use Rattle.std.specs.Prelude.{◌≡◌, ℕ, ◌*◌, ◌/◌, ◌%◌, ◌^◌, ◌<◌, ◌≤◌, Some, [], ◌∷◌, ◌++◌};
ghost use Rattle.std.specs.Int.Digits.{number_from_digits};
ghost use Rattle.bch.specs.Polynomial.{◌⊕◌, weight, remainder as remainder_by, DivisionLeavesTheRemainder};
ghost use Rattle.bch.specs.Codeblock.{generator, complemented, check_bits, codeblock, information_of};
ghost use Rattle.bch.specs.Reception.{syndrome_polynomial, received, syndrome, place_from, wrong_place, turned, accepted, judged, verdict};
ghost use Rattle.bch.specs.Laws.{IsTheWrongPlace, AbsentOnlyAtZero, UndamagedIsAccepted, OneWrongBitIsCorrected, TwoWrongBitsAreRejected, OneOrThreeWrongBitsAreDetected, TheFillerDecidesNothing};

use bch::{Accepted, CODEBLOCK_OCTETS, INFORMATION_OCTETS, Mode};

// The bits before the filler are the coefficients of X^0 to X^62.
const DEGREES: u8 = 63;

// A polynomial with the coefficients of X^0 to X^6, each 1.
const SEVEN_ONES: u8 = 0x7F;

const X_TO_THE_6: u8 = 0x40;

// X^6 + X + 1.
const SYNDROME_POLYNOMIAL: u8 = 0x43;

// The seven coefficients of a polynomial of degree at most 6, that of X^6 highest.
#[derive(Clone, Copy)]
struct Coefficients {
    bits: u8,
    ghost seven: { bits < 2 ^ 7 },
}

impl Coefficients {
    fn plus(self, other: Coefficients) -> Coefficients
        ensures { result.bits ≡ self.bits ⊕ other.bits }
    {
        Coefficients {
            bits: self.bits ^ other.bits,
        }
    }

    fn complemented(self) -> Coefficients
        ensures { result.bits ≡ complemented self.bits }
    {
        Coefficients {
            bits: self.bits ^ SEVEN_ONES,
        }
    }

    // As the bits of an octet whose last bit is a filler 0.
    fn with_filler(self) -> u8
        ensures { result ≡ 2 * self.bits }
    {
        self.bits << 1
    }

    // The parity of every polynomial that has this remainder by the generator, which has X + 1 as a factor.
    fn parity(self) -> u8
        ensures { (p : ℕ) → p < 2 ^ 63 → self.bits ≡ remainder_by generator 7 p → result ≡ weight 63 p % 2 }
    {
        (self.bits.count_ones() & 1) as u8
    }

    // The remainder by X^6 + X + 1, which is that of every polynomial that has this remainder by the
    // generator, of which X^6 + X + 1 is a factor.
    fn reduced(self) -> u8
        ensures value { result ≡ remainder_by syndrome_polynomial 6 self.bits }
        ensures number { (p : ℕ)
            → p < 2 ^ 63
            → self.bits ≡ remainder_by generator 7 p
            → result ≡ remainder_by syndrome_polynomial 6 p }
    {
        if self.bits < X_TO_THE_6 {
            self.bits
        } else {
            self.bits ^ SYNDROME_POLYNOMIAL
        }
    }
}

// The remainder of X^7 · v(X) by X^7 + X^6 + X^2 + 1, for each octet v.
const REMAINDERS: [u8; 256] = *b"\
    \x00\x45\x4F\x0A\x5B\x1E\x14\x51\x73\x36\x3C\x79\x28\x6D\x67\x22\
    \x23\x66\x6C\x29\x78\x3D\x37\x72\x50\x15\x1F\x5A\x0B\x4E\x44\x01\
    \x46\x03\x09\x4C\x1D\x58\x52\x17\x35\x70\x7A\x3F\x6E\x2B\x21\x64\
    \x65\x20\x2A\x6F\x3E\x7B\x71\x34\x16\x53\x59\x1C\x4D\x08\x02\x47\
    \x49\x0C\x06\x43\x12\x57\x5D\x18\x3A\x7F\x75\x30\x61\x24\x2E\x6B\
    \x6A\x2F\x25\x60\x31\x74\x7E\x3B\x19\x5C\x56\x13\x42\x07\x0D\x48\
    \x0F\x4A\x40\x05\x54\x11\x1B\x5E\x7C\x39\x33\x76\x27\x62\x68\x2D\
    \x2C\x69\x63\x26\x77\x32\x38\x7D\x5F\x1A\x10\x55\x04\x41\x4B\x0E\
    \x57\x12\x18\x5D\x0C\x49\x43\x06\x24\x61\x6B\x2E\x7F\x3A\x30\x75\
    \x74\x31\x3B\x7E\x2F\x6A\x60\x25\x07\x42\x48\x0D\x5C\x19\x13\x56\
    \x11\x54\x5E\x1B\x4A\x0F\x05\x40\x62\x27\x2D\x68\x39\x7C\x76\x33\
    \x32\x77\x7D\x38\x69\x2C\x26\x63\x41\x04\x0E\x4B\x1A\x5F\x55\x10\
    \x1E\x5B\x51\x14\x45\x00\x0A\x4F\x6D\x28\x22\x67\x36\x73\x79\x3C\
    \x3D\x78\x72\x37\x66\x23\x29\x6C\x4E\x0B\x01\x44\x15\x50\x5A\x1F\
    \x58\x1D\x17\x52\x03\x46\x4C\x09\x2B\x6E\x64\x21\x70\x35\x3F\x7A\
    \x7B\x3E\x34\x71\x20\x65\x6F\x2A\x08\x4D\x47\x02\x53\x16\x1C\x59";

fn octet_remainder(v: u8) -> u8
    ensures { result ≡ remainder_by generator 7 (2 ^ 7 * v) }
{
    REMAINDERS[v as usize]
}

// The remainder of X^7 · I(X) by X^7 + X^6 + X^2 + 1: each octet makes of the remainder r that of
// X^8 · r(X) + X^7 · v(X), and that is X^7 times a polynomial of eight coefficients.
fn information_remainder(information: &[u8; INFORMATION_OCTETS]) -> Coefficients
    ensures { result.bits ≡ remainder_by generator 7 (2 ^ 7 * number_from_digits 256 information.now) }
{
    let mut bits: u8 = 0;
    for octet in information {
        bits = octet_remainder((bits << 1) ^ *octet);
    }
    Coefficients { bits }
}

// The check bits and the filler.
fn check_octet(information: &[u8; INFORMATION_OCTETS]) -> u8
    ensures { result ≡ 2 * check_bits (number_from_digits 256 information.now) }
{
    let remainder = information_remainder(information);
    remainder.complemented().with_filler()
}

fn followed_by(information: [u8; INFORMATION_OCTETS], last: u8) -> [u8; CODEBLOCK_OCTETS]
    ensures { result ≡ information ++ last ∷ [] }
{
    let mut octets = [last; CODEBLOCK_OCTETS];
    octets[..INFORMATION_OCTETS].copy_from_slice(&information);
    octets
}

/// The codeblock of seven octets of information: these, and an octet of seven check bits and the
/// filler bit 0.
pub fn codeblock(information: [u8; INFORMATION_OCTETS]) -> [u8; CODEBLOCK_OCTETS]
    ensures { result ≡ codeblock information }
{
    followed_by(information, check_octet(&information))
}

// The first seven octets of a received word. `[information @ .., _]` gets no proof at an array.
fn information_in(word: u64) -> [u8; INFORMATION_OCTETS]
    ensures { result ≡ information_of word }
{
    let [a, b, c, d, e, f, g, _] = word.to_be_bytes();
    [a, b, c, d, e, f, g]
}

// The check bits of a received word, which stand before its last bit.
fn check_in(word: u64) -> Coefficients
    ensures { result.bits ≡ word % 256 / 2 }
{
    Coefficients {
        bits: ((word & 0xFF) >> 1) as u8,
    }
}

// The remainder by the generator of the received polynomial: that of its information, with the
// check bits added as they were sent.
fn received_remainder(word: u64) -> Coefficients
    ensures value { result.bits ≡ remainder_by generator 7 (received word) }
    ensures degree { received word < 2 ^ 63 }
    ensures division { DivisionLeavesTheRemainder }
{
    information_remainder(&information_in(word))
        .plus(check_in(word))
        .complemented()
}

/// The syndrome of the first 63 bits: their parity, with the check bits complemented, and their
/// remainder by X^6 + X + 1 as a number below 64.
pub fn syndrome(word: u64) -> (u8, u8)
    ensures value { result ≡ syndrome word }
    ensures range { (result.0 < 2) × (result.1 < 64) }
    ensures division { DivisionLeavesTheRemainder }
{
    let remainder = received_remainder(word);
    (remainder.parity(), remainder.reduced())
}

// The first of the lowest degrees whose power of X has this remainder by X^6 + X + 1.
fn first_place(number: u8, degrees: u8) -> Option<u8>
    requires { degrees ≤ 63 }
    ensures { result ≡ place_from 0 degrees number }
{
    let mut power: u8 = 1;
    for degree in 0..degrees {
        if power == number {
            return Some(degree);
        }
        power = Coefficients { bits: power << 1 }.reduced();
    }
    None
}

/// The degree from 0 to 62 of the one wrong bit that gives a syndrome its number: the power of X
/// that leaves this remainder. There is none for the number 0, nor for one that is no remainder.
#[tactic(auto, using(bch::proofs::Places::is_the_wrong_place, bch::proofs::Places::absent_only_at_zero))]
pub fn wrong_place(number: u8) -> Option<u8>
    ensures value { result ≡ wrong_place number }
    ensures place { IsTheWrongPlace number result }
    ensures absent { AbsentOnlyAtZero number result }
{
    first_place(number, DEGREES)
}

fn accepted(word: u64, corrected: bool) -> Accepted
    ensures { Some result ≡ accepted (information_of word) corrected }
{
    Accepted {
        information: information_in(word),
        corrected,
    }
}

// The bit that stands at this degree of the received polynomial, turned: below it stands the filler.
fn turned(word: u64, degree: u8) -> u64
    requires { degree < 63 }
    ensures { result ≡ turned degree word }
{
    word ^ (2 << degree)
}

fn judged(mode: Mode, word: u64, syndrome: (u8, u8)) -> Option<Accepted>
    requires { syndrome.0 < 2 }
    ensures { result ≡ judged mode word syndrome.0 syndrome.1 }
{
    match (mode, syndrome) {
        (_, (0, 0)) => Some(accepted(word, false)),
        (Mode::Correcting, (1, number)) => {
            let degree = wrong_place(number)?;
            Some(accepted(turned(word, degree), true))
        }
        _ => None,
    }
}

/// The verdict on 64 received bits: what is accepted of them, or none where they are rejected. Parity 0 with
/// number 0 is accepted in both modes. Correcting accepts besides a word whose parity is 1 and whose number has a
/// wrong place, with the bit there turned. All others are rejected. The filler decides nothing.
pub fn judge(mode: Mode, word: u64) -> Option<Accepted>
    ensures value { result ≡ verdict mode word }
    ensures undamaged { UndamagedIsAccepted word result }
    ensures one_wrong_bit { OneWrongBitIsCorrected mode word result }
    ensures two_wrong_bits { TwoWrongBitsAreRejected word result }
    ensures one_or_three { OneOrThreeWrongBitsAreDetected mode word result }
    ensures filler { TheFillerDecidesNothing mode word result }
{
    judged(mode, word, syndrome(word))
}
