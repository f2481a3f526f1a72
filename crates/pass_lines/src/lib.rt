//! What the program `pass` makes of lines: the symbols that a satellite receives, as a pass record or as they are.
#![tactic(auto)]

ghost use Rattle.std.specs.Prelude.{◌≡◌, ◌⊎◌, Some, Ok, Err, IfOk, IfErr};
ghost use Rattle.pass_lines.specs.Cltus.{octets_of_each};
ghost use Rattle.pass_lines.specs.Making.{segments_made, sent_by, pass_answer, made, pass_text};
ghost use Rattle.pass_lines.specs.Laws.{WrongWhereNamed, RecordsHoldSegments};
ghost use Rattle.pass_lines.specs.declared.error.PassError.TheVariants.{Memory};

use std::alloc::Global;
use std::fmt;

mod error;
mod form;
mod input;
mod line;
mod places;
mod settings;
mod symbols;

pub use error::PassError;
pub use form::Form;
pub use input::read_cltus;
pub use line::LineFault;
pub use places::WrongPlaces;
pub use settings::PassSettings;

/// What lines became.
#[derive(Debug, Drop)]
pub struct Pass {
    /// The form of the octets.
    pub form: Form,
    /// How many segments there are.
    pub segments: usize,
    /// How many symbols these have.
    pub symbols: usize,
    /// The octets that they are written as.
    pub octets: Vec<u8>,
}

/// The form, the segments, the symbols and the octets, as `record 1 720 114`.
impl fmt::Display for Pass {
    ghost output = { λ pass. Some (pass_text pass) };

    fn fmt<W: fmt::Write>(&self, f: &mut fmt::Formatter<W>) -> fmt::Result {
        let octets = self.octets.len();
        write!(
            f,
            "{} {} {} {octets}",
            self.form, self.segments, self.symbols
        )
    }
}

// The pass of CLTUs.
fn pass_of(heap: Global, settings: &PassSettings, cltus: &[Vec<u8>]) -> Result<Pass, PassError>
    ensures made { IfOk result (λ pass.
        segments_made settings.now (sent_by settings.now (octets_of_each cltus.now)) ≡ Ok (made pass)) }
    ensures none { IfErr result (λ e. (e ≡ Memory)
        ⊎ (segments_made settings.now (sent_by settings.now (octets_of_each cltus.now)) ≡ Err e)) }
{
    let received = settings.symbols(heap, cltus)?;
    let symbols = received.len();
    match settings.wrong.first_past(symbols) {
        Some(place) => return Err(PassError::PastTheEnd { place, symbols }),
        None => {}
    }
    let segments = settings.segments(heap, cltus, received.as_slice())?;
    let octets = settings
        .form
        .octets(heap, segments.as_slice(), received.as_slice())?;
    Ok(Pass {
        form: settings.form,
        segments: segments.len(),
        symbols,
        octets,
    })
}

/// The pass of the CLTUs that the lines of an input give: each with idle in front, and the symbols at the named places
/// wrong.
#[tactic(auto, using(crate::proofs::Laws::wrong_where_named, crate::proofs::Laws::records_hold_segments))]
pub fn pass_of_lines(heap: Global, settings: &PassSettings, input: &[u8]) -> Result<Pass, PassError>
    ensures made { IfOk result (λ pass. pass_answer settings.now input.now ≡ Ok (made pass)) }
    ensures none { IfErr result (λ e. (e ≡ Memory) ⊎ (pass_answer settings.now input.now ≡ Err e)) }
    ensures wrong { WrongWhereNamed }
    ensures records { RecordsHoldSegments }
{
    let cltus = read_cltus(heap, settings.sender, input)?;
    pass_of(heap, settings, cltus.as_slice())
}

#[cfg(test)]
mod tests {
    use super::*;
    use cltu::{CodeblockLimit, Sender};
    use randomizer::Randomizer;
    use std::test::Fail;

    // Eight bits of idle that begins with a one, of which the first and the last are wrong.
    fn settings(heap: Global, form: Form) -> Result<PassSettings, Fail> {
        let wrong = WrongPlaces::new(vec![in heap; 7, 0]?);
        Ok(PassSettings {
            sender: Sender {
                limit: CodeblockLimit::most(),
                randomizer: Randomizer::On,
            },
            guard: 8,
            first: true,
            apart: true,
            wrong: wrong.unwrap_or(WrongPlaces::none(heap)),
            form,
        })
    }

    // What one frame becomes in a form, the first octets of it.
    fn begins(heap: Global, form: Form, digits: &str) -> Result<bool, Fail> {
        let pass = pass_of_lines(heap, &settings(heap, form)?, b"end 0 0\r\n00")?;
        let text = hex::encode_upper(heap, pass.octets.as_slice())?;
        Ok(text.as_str().starts_with(digits))
    }

    #[test]
    fn each_form(rt: HostRuntime) -> Result<(), Fail> {
        for (form, digits) in [
            (
                Form::Record,
                "2BEB90FF6CCB0F3DBC5330C5C5C5C5C5C5C57900000000000000980000000100000013",
            ),
            (Form::Packed, "2BEB90FF6CCB0F3DBC5330C5C5C5C5C5C5C579"),
            (Form::Bits, "00000100010001010101010001000101"),
            (Form::Levels, "4040C040C040C0C0C0C0C040C040C0C0"),
        ] {
            assert!(rt; begins(rt.alloc(), form, digits)?);
        }
        Ok(())
    }
}
