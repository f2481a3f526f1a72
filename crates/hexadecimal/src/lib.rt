//! Octets from hexadecimal text that comes piece by piece, for programs on the ground that read frames.
#![tactic(auto)]

mod digit_reader;

pub use digit_reader::DigitReader;

#[cfg(test)]
mod tests {
    use super::*;
    use std::test::Fail;

    #[test]
    fn reads_digit_by_digit(rt: HostRuntime) -> Result<(), Fail> {
        for (text, octets) in [
            ("", Some([].as_slice())),
            ("Eb", Some(&[0xEB])),
            ("eB9000", Some(&[0xEB, 0x90])),
            ("EB900000", Some(&[0xEB, 0x90])),
            ("EB9000G", None),
            ("EB90000", None),
            ("5G00", None),
            ("G500", None),
        ] {
            let mut reader = DigitReader::new(rt.alloc(), Some(2));
            for byte in text.as_bytes() {
                reader.read(*byte)?;
            }
            assert_eq!(rt; reader.octets(), octets, "{}", text);
            reader.clear();
            assert_eq!(rt; reader.octets(), Some([].as_slice()));
        }
        Ok(())
    }
}
