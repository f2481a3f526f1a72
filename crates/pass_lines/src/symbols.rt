//! Symbols one behind the other, those at the wrong places inverted.

ghost use Rattle.std.specs.Prelude.{◌≡◌, [], ◌∷◌, OnOk};
ghost use Rattle.std.specs.List.{flat_map};
ghost use Rattle.bch.specs.Bits.{octet_bits, bits_of};
ghost use Rattle.reception.specs.Runs.{idle};
ghost use Rattle.pass_lines.specs.Cltus.{octets_of_each};
ghost use Rattle.pass_lines.specs.Symbols.{with_guard};
ghost use Rattle.pass_lines.specs.Received.{Receives};

use std::alloc::{AllocError, Global};

/// The symbols that were received so far.
#[derive(Drop)]
pub(crate) struct Symbols<'a> {
    /// The places of those that are wrong.
    wrong: &'a [usize],
    pub(crate) received: Vec<bool>,
}

// The bits of an octet, in the order in which they are sent.
fn bits(octet: u8) -> [bool; 8]
    ensures { result ≡ octet_bits octet }
{
    [
        octet >> 7 & 1 == 1,
        octet >> 6 & 1 == 1,
        octet >> 5 & 1 == 1,
        octet >> 4 & 1 == 1,
        octet >> 3 & 1 == 1,
        octet >> 2 & 1 == 1,
        octet >> 1 & 1 == 1,
        octet & 1 == 1,
    ]
}

impl<'a> Symbols<'a> {
    /// None so far.
    pub(crate) fn new(heap: Global, wrong: &'a [usize]) -> Self
        ensures wrong { result.wrong.now ≡ wrong.now }
        ensures received { result.received.items ≡ [] }
    {
        Symbols {
            wrong,
            received: Vec::new(heap),
        }
    }

    // One more is sent.
    fn put(&mut self, bit: bool) -> Result<(), AllocError>
        ensures { OnOk result (Receives (bit ∷ []) self.old self.new) }
    {
        let place = self.received.len();
        let is_wrong = self.wrong.contains(&place);
        self.received.push(if is_wrong { !bit } else { bit })?;
        Ok(())
    }

    // Idle is sent.
    fn put_idle(&mut self, first: bool, count: usize) -> Result<(), AllocError>
        ensures { OnOk result (Receives (idle first count) self.old self.new) }
    {
        let mut bit = first;
        for _ in 0..count {
            self.put(bit)?;
            bit = !bit;
        }
        Ok(())
    }

    // Symbols are sent.
    fn put_all(&mut self, bits: &[bool]) -> Result<(), AllocError>
        ensures { OnOk result (Receives bits.now self.old self.new) }
    {
        for bit in bits {
            self.put(*bit)?;
        }
        Ok(())
    }

    // The bits of octets are sent.
    fn put_octets(&mut self, octets: &[u8]) -> Result<(), AllocError>
        ensures { OnOk result (Receives (bits_of octets.now) self.old self.new) }
    {
        for octet in octets {
            self.put_all(&bits(*octet))?;
        }
        Ok(())
    }

    /// CLTUs are sent, each with idle in front.
    pub(crate) fn put_cltus(
        &mut self,
        first: bool,
        guard: usize,
        cltus: &[Vec<u8>],
    ) -> Result<(), AllocError>
        ensures { OnOk result (Receives (flat_map (with_guard first guard) (octets_of_each cltus.now)) self.old self.new) }
    {
        for cltu in cltus {
            self.put_idle(first, guard)?;
            self.put_octets(cltu.as_slice())?;
        }
        Ok(())
    }
}
