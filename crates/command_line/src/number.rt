//! Numbers in arguments.

ghost use Rattle.std.specs.Prelude.{◌≡◌, ℕ, IfOk, IfErr};
ghost use Rattle.command_line.specs.Number.{WritesWithin};
ghost use Rattle.command_line.specs.Status.{failure_status};

use crate::Failure;
use std::alloc::Global;

/// The number from `least` to `most` that the value of the option writes in decimal digits. The failure names
/// the option and the value.
pub fn number_within(
    heap: Global,
    option: &str,
    least: u64,
    most: u64,
    value: &str,
) -> Result<u64, Failure>
    ensures number { IfOk result (WritesWithin least most value.now) }
    ensures refused { IfErr result (λ failure. failure_status failure ≡ 2
        → (number : ℕ) → WritesWithin least most value.now number → ⊥) }
{
    match value.parse::<u64>() {
        Ok(number) if least <= number && number <= most => Ok(number),
        _ => Err(Failure::Arguments(format!(in heap;
            "{option} takes {least} to {most}, not '{value}'"
        )?)),
    }
}
