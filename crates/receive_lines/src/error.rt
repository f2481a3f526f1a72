ghost use Rattle.std.specs.Prelude.{◌≡◌, suc, IfOk};

use std::alloc::AllocError;
use thiserror::Error;

/// Why what is received is not written any further.
#[derive(Debug, Drop, Error)]
pub enum ReceivingError {
    /// There is no memory.
    #[error(transparent)]
    Memory(#[from(alloc)] AllocError),
    /// A count does not fit into 64 bits.
    #[error("more than 64 bits can count")]
    Count,
    /// An octet that stands for one bit is neither 0 nor 1.
    #[error("symbol {symbol} is {octet}, neither 0 nor 1")]
    NoBit {
        /// Which symbol it is, the first being 1.
        symbol: u64,
        /// The octet.
        octet: u8,
    },
}

// One more, where 64 bits can count it.
pub(crate) fn one_more(count: u64) -> Result<u64, ReceivingError>
    ensures { IfOk result (λ n. n ≡ suc count) }
{
    count.checked_add(1).ok_or(ReceivingError::Count)
}
