ghost use Rattle.std.specs.Prelude.{◌≤◌, length};

/// Cuts a candidate, item by item from its front.
#[derive(Debug, Drop)]
pub struct Cutter<'a> {
    pub(crate) candidate: &'a [u8],
    // Where the next item begins.
    pub(crate) place: usize,
    ghost within: { place ≤ length candidate.now },
}
