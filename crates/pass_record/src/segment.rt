ghost use Rattle.std.specs.Prelude.{◌*◌, ◌≤◌, length};

/// One segment of a pass record: symbols that were received without a gap.
#[derive(Clone, Copy)]
pub struct Segment<'a> {
    // The first octet of the segment, and all that follow it in the record.
    pub(crate) octets: &'a [u8],
    // How many symbols the segment has.
    pub(crate) symbols: u32,
    ghost held: { symbols ≤ 8 * length octets.now },
}
