//! The lines of an input, and the CLTUs that they give.

ghost use Rattle.std.specs.Prelude.{◌≡◌, ◌≢◌, ◌<◌, ◌⊎◌, ◌∷◌, [], Ok, Err, IfOk, IfErr, length};
ghost use Rattle.std.specs.Str.Lines.{strip_carriage_return};
ghost use Rattle.answered_lines.specs.Lines.{lines_of};
ghost use Rattle.pass_lines.specs.LinesLaw.{PrintedLinesGive};
ghost use Rattle.pass_lines.specs.Cltus.{cltus_given, octets_of_each};
ghost use Rattle.pass_lines.specs.declared.error.PassError.TheVariants.{Memory};

use crate::PassError;
use crate::line::{cut, line_given};
use cltu::Sender;
use std::alloc::Global;

// A line without the carriage return at its end, if it has one.
fn without_return(line: &[u8]) -> &[u8]
    ensures { result.now ≡ strip_carriage_return line.now }
{
    match line {
        [front @ .., b'\r'] => front,
        _ => line,
    }
}

// The first line of a text without its end, and what stands behind it.
fn first_line(text: &[u8]) -> (&[u8], &[u8])
    requires { text.now ≢ [] }
    ensures lines { lines_of text.now ≡ result.0.now ∷ lines_of result.1.now }
    ensures shorter { length result.1.now < length text.now }
{
    let (line, further) = cut(text, b'\n');
    if line.len() == text.len() {
        return (line, further);
    }
    (without_return(line), further)
}

/// The CLTUs that the lines of an input give, in order. A line ends with a newline, or a carriage return and a
/// newline; the last may lack its end.
#[tactic(auto, using(crate::proofs::Printed::printed_lines_give))]
pub fn read_cltus(heap: Global, sender: Sender, input: &[u8]) -> Result<Vec<Vec<u8>>, PassError>
    ensures given { IfOk result (λ cltus. cltus_given sender input.now ≡ Ok (octets_of_each cltus.items)) }
    ensures bad { IfErr result (λ e. (e ≡ Memory) ⊎ (cltus_given sender input.now ≡ Err e)) }
    ensures printed { PrintedLinesGive }
{
    let mut cltus = Vec::new(heap);
    let mut number = 0;
    let mut rest = input;
    while !rest.is_empty() {
        let (line, further) = first_line(rest);
        number += 1;
        match line_given(heap, sender, line)? {
            Ok(Some(cltu)) => cltus.push(cltu)?,
            Ok(None) => {}
            Err(fault) => return Err(PassError::BadLine { number, fault }),
        }
        rest = further;
    }
    Ok(cltus)
}
