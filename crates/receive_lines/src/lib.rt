//! A pass as lines of text: what a receiver reports of it, and the candidates that it finishes.
#![tactic(auto)]

ghost use Rattle.std.specs.Prelude.{◌≡◌, ◌≤◌, IfOk, OnOk, string_bytes, vec_len};
ghost use Rattle.reception.specs.Rules.{made};
ghost use Rattle.pass_record.specs.Segments.{segments_in};
ghost use Rattle.decoding.specs.Meaning.{rules_of, held_in};
ghost use Rattle.receive_lines.specs.Lines.{whole_text};
ghost use Rattle.receive_lines.specs.Pass.{placed_pass};
ghost use Rattle.receive_lines.specs.Answers.{IsTextOf, OneText, Answers};
ghost use Rattle.receive_lines.specs.Printing.{PrintsAll, PrintsFrom};
ghost use Rattle.receive_lines.specs.Releasing.{lines_of};

use anyhow::anyhow;
use decoding::Settings;
use derandomizing::Derandomizing;
use hold::Hold;
use pass_record::PassRecord;
use randomizer::Randomizer;
use receiver::Receiver;
use receiving::Receiving;
use reception::Report;
use ring::{Cell, Ring};
use std::alloc::{AllocError, Global};
use std::io::{ErrorKind, Read, Write};

mod error;
mod form;
mod pass_log;
mod place;
mod receiving;
mod setup;
mod view;

pub use error::ReceivingError;
pub use form::Form;
pub use place::Place;
pub use setup::Setup;
pub use view::View;

// How many octets are read at once, at most.
const PIECE: usize = 8192;

// What a receiver over a hold writes of a record.
fn text_over<H: Hold + Drop>(
    heap: Global,
    settings: Settings,
    hold: H,
    view: View,
    pass: PassRecord<'_>,
) -> Result<String, ReceivingError>
    ensures { let events = placed_pass (segments_in pass.entry) in
        let lines = lines_of (rules_of settings) H.Hold.showing (made (held_in H.Hold hold)) events in
        IfOk result (λ s. string_bytes s ≡ whole_text view lines) }
{
    let mut slots = [Report::UNUSED];
    let receiver = Receiver::new(settings, hold);
    let mut receiving = Receiving::new(heap, receiver, &mut slots, view);
    receiving.take_pass(pass)?;
    Ok(receiving.into_text()?)
}

// Cells for so many codeblocks.
fn new_cells(heap: Global, cells: u16) -> Result<Vec<Cell>, AllocError>
    ensures cells { IfOk result (λ v. vec_len v ≡ cells) }
    ensures few { cells ≤ 65535 }
{
    vec![in heap; Cell::EMPTY; cells as usize]
}

// What a receiver over a ring writes of a record.
fn pass_text(
    heap: Global,
    setup: Setup,
    view: View,
    pass: PassRecord<'_>,
) -> Result<String, ReceivingError>
    ensures { IfOk result (λ s. IsTextOf setup view (segments_in pass.entry) (string_bytes s)) }
{
    let mut cells = new_cells(heap, setup.cells)?;
    let ring = Ring::new(cells.as_mut_slice());
    match setup.randomizer {
        Randomizer::On => text_over(heap, setup.settings, Derandomizing::over(ring), view, pass),
        Randomizer::Off => text_over(heap, setup.settings, ring, view, pass),
    }
}

/// The lines of a pass record: for each report its reason, its codeblocks and its corrections, and before
/// it its place if that is asked for; behind `closed` the candidate that was finished; last, how many
/// reports and frames there were. Where candidates alone are asked for, their octets are the only lines.
/// `refused 16` alone where the octets are no pass record. The receiver is told to release each candidate
/// as soon as that is written, so its ring never fills where it has as many cells as a CLTU may have
/// codeblocks.
pub fn answer_record(
    heap: Global,
    setup: Setup,
    view: View,
    octets: &[u8],
) -> Result<String, ReceivingError>
    ensures answers { IfOk result (λ s. Answers setup view octets.now (string_bytes s)) }
    ensures one { OneText }
{
    match PassRecord::read(octets) {
        Ok(pass) => pass_text(heap, setup, view, pass),
        Err(refusal) => Ok(format!(in heap; "{refusal}\n")?),
    }
}

// Reads the octets of one segment to the end of the input, and prints what a receiver over a hold writes of it.
fn print_over<H: Hold + Drop, R: Read, W: Write>(
    heap: Global,
    settings: Settings,
    hold: H,
    view: View,
    form: Form,
    input: &mut R,
    output: &mut W,
) -> anyhow::Result<()>
    ensures { OnOk result (PrintsFrom view form (R.remaining input.old) (R.remaining input.new)
        (W.contents output.old) (W.contents output.new)
        (rules_of settings) H.Hold.showing (made (held_in H.Hold hold))) }
{
    let mut slots = [Report::UNUSED];
    let receiver = Receiver::new(settings, hold);
    let mut receiving = Receiving::new(heap, receiver, &mut slots, view);
    receiving.begin_segment()?;
    let mut piece = vec![in heap; 0u8; PIECE]?;
    for _ in 0..u64::MAX {
        let count = match input.read(piece.as_mut_slice()) {
            Ok(count) => count,
            Err(e) if e.kind() == ErrorKind::Interrupted => continue,
            Err(e) => return Err(e.into()),
        };
        if count == 0 {
            receiving.end_segment()?;
            let text = receiving.into_text()?;
            output.write_all(text.as_bytes())?;
            return Ok(());
        }
        let taken = receiving.take_octets(form, &piece[..count]);
        // What was written before an octet that is no bit is printed too.
        output.write_all(receiving.log.text.as_bytes())?;
        taken?;
        receiving.clear_text();
    }
    Err(anyhow!("the input has no end"))
}

/// Reads the octets of one segment to the end of the input, in constant memory, and prints its lines: those of a
/// pass record that has this segment alone. The symbols stand in the octets in this form. However the octets
/// come, what is printed is the text for all of them.
pub fn print_symbols<R: Read, W: Write>(
    heap: Global,
    setup: Setup,
    view: View,
    form: Form,
    input: &mut R,
    output: &mut W,
) -> anyhow::Result<()>
    ensures { OnOk result (PrintsAll view form (R.remaining input.old) (R.remaining input.new)
        (W.contents output.old) (W.contents output.new) setup) }
{
    let mut cells = new_cells(heap, setup.cells)?;
    let ring = Ring::new(cells.as_mut_slice());
    let settings = setup.settings;
    match setup.randomizer {
        Randomizer::On => {
            let layer = Derandomizing::over(ring);
            print_over(heap, settings, layer, view, form, input, output)
        }
        Randomizer::Off => print_over(heap, settings, ring, view, form, input, output),
    }
}

#[cfg(test)]
mod tests {
    use super::*;
    use bch::Mode;
    use std::test::Fail;

    // A CLTU of one codeblock, and one of two.
    const ONE: [u8; 18] = *b"\xEB\x90\0\0\0\0\0\0\x01\x74\xC5\xC5\xC5\xC5\xC5\xC5\xC5\x79";

    const TWO: [u8; 26] =
        *b"\xEB\x90\0\0\0\0\0\0\x01\x74\0\0\0\0\0\0\x01\x74\xC5\xC5\xC5\xC5\xC5\xC5\xC5\x79";

    // What is printed of one segment.
    fn printed(
        heap: Global,
        setup: Setup,
        view: View,
        form: Form,
        mut octets: &[u8],
    ) -> anyhow::Result<Vec<u8>> {
        let mut written = Vec::new(heap);
        print_symbols(heap, setup, view, form, &mut octets, &mut written)?;
        Ok(written)
    }

    fn usual() -> Result<Setup, Fail> {
        Ok(Setup {
            settings: Settings::new(Mode::Correcting, 37)?,
            cells: 37,
            randomizer: Randomizer::Off,
        })
    }

    #[test]
    fn receivers(rt: HostRuntime) -> Result<(), Fail> {
        let usual = usual()?;
        let random = Setup {
            randomizer: Randomizer::On,
            ..usual
        };
        let one_cell = Setup { cells: 1, ..usual };
        let one_codeblock = Setup {
            settings: Settings::new(Mode::Correcting, 1)?,
            ..usual
        };
        let detecting = Setup {
            settings: Settings::new(Mode::Detecting, 37)?,
            ..usual
        };
        let mut wrong = ONE;
        wrong[4] = 1;
        let text = printed(rt.alloc(), random, View::Plain, Form::Packed, &ONE)?;
        assert_eq!(rt;
            text.as_slice(),
            b"closed 1 0\nframe 7 FF399E5A68E907\nend 1 1\n".as_slice()
        );
        let text = printed(rt.alloc(), one_cell, View::Plain, Form::Packed, &TWO)?;
        assert_eq!(rt; text.as_slice(), b"full 1 0\nend 1 0\n".as_slice());
        let text = printed(rt.alloc(), one_codeblock, View::Plain, Form::Packed, &TWO)?;
        assert_eq!(rt; text.as_slice(), b"long 1 0\nend 1 0\n".as_slice());
        let text = printed(rt.alloc(), detecting, View::Plain, Form::Packed, &wrong)?;
        assert_eq!(rt; text.as_slice(), b"empty 0 0\nend 1 0\n".as_slice());
        let text = printed(rt.alloc(), usual, View::Plain, Form::Packed, &wrong)?;
        assert_eq!(rt;
            text.as_slice(),
            b"closed 1 1\nframe 7 00000000000001\nend 1 1\n".as_slice()
        );
        Ok(())
    }

    #[test]
    fn forms_and_views(rt: HostRuntime) -> Result<(), Fail> {
        let usual = usual()?;
        let mut bits = [0; 144];
        let mut levels = [64; 144];
        for place in 0..144 {
            if ONE[place / 8] >> (7 - place % 8) & 1 == 1 {
                bits[place] = 1;
                levels[place] = 0x80;
            }
        }
        let text = printed(rt.alloc(), usual, View::Places, Form::Bits, &bits)?;
        let places = b"at 1 144\nclosed 1 0\nframe 7 00000000000001\nend 1 1\n";
        assert_eq!(rt; text.as_slice(), places.as_slice());
        let text = printed(rt.alloc(), usual, View::Candidates, Form::Levels, &levels)?;
        assert_eq!(rt; text.as_slice(), b"00000000000001\n".as_slice());
        let text = answer_record(rt.alloc(), usual, View::Candidates, &ONE)?;
        assert_eq!(rt; text.as_str(), "refused 16\n");
        Ok(())
    }

    #[test]
    fn no_bit(rt: HostRuntime) -> Result<(), Fail> {
        let heap = rt.alloc();
        let mut written = Vec::new(heap);
        let mut octets = b"\x01\0\x02\0".as_slice();
        let ended = print_symbols(
            heap,
            usual()?,
            View::Plain,
            Form::Bits,
            &mut octets,
            &mut written,
        );
        match ended {
            Ok(()) => assert!(rt; false),
            Err(e) => {
                let text = format!(in heap; "{e}")?;
                assert_eq!(rt; text.as_str(), "symbol 3 is 2, neither 0 nor 1");
            }
        }
        Ok(())
    }

    #[test]
    fn places_in_segments(rt: HostRuntime) -> Result<(), Fail> {
        let mut octets = [0; 45];
        octets[..18].copy_from_slice(&ONE);
        octets[18..20].copy_from_slice(b"\xEB\x90");
        octets[28] = 144;
        octets[32] = 18;
        octets[36] = 24;
        octets[40] = 2;
        octets[44] = 21;
        let text = answer_record(rt.alloc(), usual()?, View::Places, &octets)?;
        assert_eq!(rt;
            text.as_str(),
            "at 1 144\nclosed 1 0\nframe 7 00000000000001\nat 2 24\ndown 0 0\nend 2 1\n"
        );
        Ok(())
    }
}
