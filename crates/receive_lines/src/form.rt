/// How symbols stand in octets.
#[derive(Clone, Copy, Debug, PartialEq, Eq)]
pub enum Form {
    /// Eight symbols an octet, the first in its most significant bit.
    Packed,
    /// A symbol an octet, which is 0 or 1.
    Bits,
    /// A soft level an octet, from −128 to 127, which counts as 1 when it is negative.
    Levels,
}

impl Form {
    ghost use Rattle.std.specs.Prelude.{◌≡◌};
    ghost use Rattle.bch.specs.Bits.{octet_bits};

    // The bits of an octet, its most significant first.
    pub(crate) fn octet_bits(octet: u8) -> [bool; 8]
        ensures { result ≡ octet_bits octet }
    {
        [
            octet / 128 % 2 == 1,
            octet / 64 % 2 == 1,
            octet / 32 % 2 == 1,
            octet / 16 % 2 == 1,
            octet / 8 % 2 == 1,
            octet / 4 % 2 == 1,
            octet / 2 % 2 == 1,
            octet % 2 == 1,
        ]
    }
}
