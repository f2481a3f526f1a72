//! Octets from hexadecimal digits that come one by one.

ghost use Rattle.std.specs.Prelude.{◌≡◌, List, ℕ, [], ◌∷◌, ◌++◌, OnOk};
ghost use Rattle.std.specs.Option.{option_map, option_copied};
ghost use Rattle.std.specs.Result.{result_ok};
ghost use Rattle.hex.specs.Hex.{pair_value};
ghost use Rattle.hexadecimal.specs.Text.{octets_written, DigitsReadBack};
ghost use Rattle.hexadecimal.specs.Kept.{kept};
ghost use Rattle.hexadecimal.specs.Reading.{HasRead, most_kept};

use hex::FromHex;
use std::alloc::{AllocError, Global};

/// What the text is so far.
#[derive(Clone, Copy, Debug)]
enum Progress {
    /// Whole octets.
    Whole,
    /// Whole octets, and this byte behind them.
    Half(u8),
    /// No text that begins so is whole octets.
    Unreadable,
}

/// Reads a text of hexadecimal digits, two an octet, the high digit first, in either case, as it comes. Of the
/// octets it keeps the first ones, as many as it was made for, or all of them; of the text only one byte, and
/// nothing of what stands behind two bytes that are no octet.
#[derive(Debug, Drop)]
pub struct DigitReader {
    octets: Vec<u8>,
    most: Option<usize>,
    progress: Progress,
}

impl DigitReader {
    /// A reader that has read nothing, and will keep so many octets, or all. What it gives for a text are the
    /// octets that the text writes: those whose digits the text is, in capitals or small letters.
    #[tactic(auto, using(crate::proofs::DigitByDigit::nothing_read, crate::proofs::ReadBack::digits_read_back))]
    pub fn new(heap: Global, most: Option<usize>) -> Self
        ensures text { HasRead result [] }
        ensures most { most_kept result ≡ most }
        ensures read_back { DigitsReadBack }
    {
        DigitReader {
            octets: Vec::new(heap),
            most,
            progress: Progress::Whole,
        }
    }

    /// Reads one more byte of the text.
    pub fn read(&mut self, byte: u8) -> Result<(), AllocError>
        ensures text { OnOk result ((text : List ℕ) → HasRead self.old text
            → HasRead self.new (text ++ byte ∷ [])) }
        ensures most { most_kept self.new ≡ most_kept self.old }
    {
        match self.progress {
            Progress::Whole => self.progress = Progress::Half(byte),
            Progress::Half(high) => match octet_value(high, byte) {
                Some(octet) => {
                    self.keep(octet)?;
                    self.progress = Progress::Whole;
                }
                None => self.progress = Progress::Unreadable,
            },
            Progress::Unreadable => {}
        }
        Ok(())
    }

    /// The octets that the text writes, as far as they are kept, or `None` where it is not whole octets.
    pub fn octets(&self) -> Option<&[u8]>
        ensures { (text : List ℕ) → HasRead self.now text
            → option_copied result ≡ option_map (kept (most_kept self.now)) (octets_written text) }
    {
        match self.progress {
            Progress::Whole => Some(self.octets.as_slice()),
            Progress::Half(_) | Progress::Unreadable => None,
        }
    }

    /// Forgets what was read, for another text.
    #[tactic(auto, using(crate::proofs::DigitByDigit::nothing_read))]
    pub fn clear(&mut self)
        ensures text { HasRead self.new [] }
        ensures most { most_kept self.new ≡ most_kept self.old }
    {
        self.octets.clear();
        self.progress = Progress::Whole;
    }

    // Keeps an octet, if there are not as many as are to be kept.
    fn keep(&mut self, octet: u8) -> Result<(), AllocError>
        ensures kept { OnOk result ((octets : List ℕ) → self.old.octets.items ≡ kept self.old.most octets
            → self.new.octets.items ≡ kept self.old.most (octets ++ octet ∷ [])) }
        ensures most { self.new.most ≡ self.old.most }
    {
        match self.most {
            None => self.octets.push(octet)?,
            Some(most) => {
                if self.octets.len() < most {
                    self.octets.push(octet)?;
                }
            }
        }
        Ok(())
    }
}

// The octet of two digits, or `None` where either byte is not a hexadecimal digit.
fn octet_value(high: u8, low: u8) -> Option<u8>
    ensures { result ≡ result_ok (pair_value high low 0) }
{
    let [octet] = <[u8; 1]>::from_hex([high, low]).ok()?;
    Some(octet)
}
