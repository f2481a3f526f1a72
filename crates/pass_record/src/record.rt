ghost use Rattle.pass_record.specs.Record.{IsRecord};
ghost use Rattle.pass_record.specs.Reading.{told_segments};

/// The segments of symbols that were received while a satellite was in view, in lent octets.
#[derive(Clone, Copy)]
pub struct PassRecord<'a> {
    pub(crate) octets: &'a [u8],
    ghost laid_out: { ∥ IsRecord octets.now (told_segments octets.now) ∥₁ },
}
