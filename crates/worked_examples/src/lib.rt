//! Worked examples of the definitions, proved, and a self test that runs the code on vectors in the caller's memory.
#![tactic(auto)]

ghost use Rattle.std.specs.Prelude.{◌≡◌, ◌↔◌, ℕ, IsTrue, Option, None, IfNone};
ghost use Rattle.std.specs.List.{All};
ghost use Rattle.std.specs.Int.Digits.{number_from_digits};
ghost use Rattle.worked_examples.specs.Worked.{WorkedExamples};
ghost use Rattle.worked_examples.specs.Vectors.{information_in, IsCodeblock, IsAccepted, IsAcceptedByBothModes, FailsFirst, worked_vectors};

use bch::{CODEBLOCK_OCTETS, INFORMATION_OCTETS, Mode};
use coding::{codeblock, judge};

/// Four codeblocks that were worked out by hand: the information is 00 seven times, C5 seven times, 00 six times and
/// 01, and 55 seven times.
pub const WORKED_VECTORS: [[u8; CODEBLOCK_OCTETS]; 4] = [
    [0x00, 0x00, 0x00, 0x00, 0x00, 0x00, 0x00, 0xFE],
    [0xC5, 0xC5, 0xC5, 0xC5, 0xC5, 0xC5, 0xC5, 0xFE],
    [0x00, 0x00, 0x00, 0x00, 0x00, 0x00, 0x01, 0x74],
    [0x55, 0x55, 0x55, 0x55, 0x55, 0x55, 0x55, 0xD6],
];

/// The vectors of `WORKED_VECTORS`: the contract says which they are.
pub fn worked_vectors() -> [[u8; CODEBLOCK_OCTETS]; 4]
    ensures { result ≡ worked_vectors }
{
    WORKED_VECTORS
}

// The seven octets of information of a vector. `[information @ .., _]` gets no proof at an array.
fn information_in(vector: &[u8; CODEBLOCK_OCTETS]) -> [u8; INFORMATION_OCTETS]
    ensures { result ≡ information_in vector.now }
{
    let [a, b, c, d, e, f, g, _] = *vector;
    [a, b, c, d, e, f, g]
}

// Whether the code writes this vector.
fn is_written(vector: &[u8; CODEBLOCK_OCTETS]) -> bool
    ensures { IsTrue result ↔ IsCodeblock vector.now }
{
    codeblock(information_in(vector)) == *vector
}

// The 64 bits of a vector, the first of them highest.
fn word_of(vector: &[u8; CODEBLOCK_OCTETS]) -> u64
    ensures { result ≡ number_from_digits 256 vector.now }
{
    u64::from_be_bytes(*vector)
}

// Whether a receiver accepts the vector as it is, with its own information.
fn is_accepted(mode: Mode, vector: &[u8; CODEBLOCK_OCTETS]) -> bool
    ensures { IsTrue result ↔ IsAccepted mode vector.now }
{
    match judge(mode, word_of(vector)) {
        Some(accepted) => !accepted.corrected && accepted.information == information_in(vector),
        None => false,
    }
}

fn is_accepted_by_both_modes(vector: &[u8; CODEBLOCK_OCTETS]) -> bool
    ensures { IsTrue result ↔ IsAcceptedByBothModes vector.now }
{
    is_accepted(Mode::Detecting, vector) && is_accepted(Mode::Correcting, vector)
}

#[tactic(auto, using(crate::proofs::Accepted::accepted_as_sent))]
fn passes(vector: &[u8; CODEBLOCK_OCTETS]) -> bool
    ensures codeblock { IsTrue result ↔ IsCodeblock vector.now }
    ensures accepted { IsTrue result → IsAcceptedByBothModes vector.now }
{
    is_written(vector) && is_accepted_by_both_modes(vector)
}

/// Which vector fails first, counted from 0, or `None` where none does. A vector passes if it is the codeblock of its
/// first seven octets. The test writes that codeblock, and compares; and it judges the vector in both modes, which
/// accept it then, with its own information.
///
/// The vectors have to be in memory that no compiler knows, read from a store or brought from outside. What it knows
/// it computes, and then the unit does not.
#[must_use]
// Not inlined, so that it is found in the object code by its name.
#[inline(never)]
#[tactic(auto, using(crate::proofs::Computed::worked_examples))]
pub fn self_test(vectors: &[[u8; CODEBLOCK_OCTETS]]) -> Option<usize>
    ensures first { FailsFirst vectors.now result }
    ensures only { (other : Option ℕ) → FailsFirst vectors.now other → other ≡ result }
    ensures accepted { IfNone result (All IsAcceptedByBothModes vectors.now) }
    ensures worked { vectors.now ≡ worked_vectors → result ≡ None }
    ensures examples { WorkedExamples }
{
    for (place, vector) in vectors.iter().enumerate() {
        if !passes(vector) {
            return Some(place);
        }
    }
    None
}

#[cfg(test)]
mod tests {
    use super::*;
    use std::test::Fail;

    #[test]
    fn none_fails(rt: HostRuntime) -> Result<(), Fail> {
        assert!(rt; self_test(&worked_vectors()).is_none());
        assert!(rt; self_test(&[]).is_none());
        Ok(())
    }

    #[test]
    fn a_vector_with_a_wrong_bit(rt: HostRuntime) -> Result<(), Fail> {
        for place in 0..4 {
            for octet in 0..CODEBLOCK_OCTETS {
                for bit in 0..8u32 {
                    let mut vectors = worked_vectors();
                    vectors[place][octet] ^= 1 << bit;
                    assert!(rt; self_test(&vectors) == Some(place));
                }
            }
        }
        Ok(())
    }

    #[test]
    fn the_first_of_two(rt: HostRuntime) -> Result<(), Fail> {
        let mut vectors = worked_vectors();
        vectors[1][7] = 0xFF;
        vectors[3][0] = 0x54;
        assert!(rt; self_test(&vectors) == Some(1));
        assert!(rt; self_test(&vectors[2..]) == Some(1));
        assert!(rt; self_test(&vectors[..1]).is_none());
        Ok(())
    }
}
