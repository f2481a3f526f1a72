ghost use Rattle.std.specs.Prelude.{◌≡◌, ◌≤◌, length, OnOk, OnErr};
ghost use Rattle.reception.specs.Runs.{idle};
ghost use Rattle.reception.specs.Calls.{refused_if_down, answered};
ghost use Rattle.receiver.specs.Meaning.{state_of};
ghost use Rattle.receiver.specs.Events.{Ran};
ghost use Rattle.callers.specs.InUse.{InUse, BackInSearch, idle_needed, idle_around_a_release};

use crate::carrier::carrier_is_up;
use hold::Hold;
use queue::Queue;
use receiver::Receiver;
use reception::Report;
use refusals::Refusal;

/// Brings a receiver back to SEARCH, whatever it received before: it hears idle, as many bits as the memory has, in
/// two calls with a release between. The idle is written into the memory and begins with the bit `first`.
/// That it is back is proved where it came by calls from its making and the memory has at least `recovery_bits` bits.
/// Refused with 6 where the receiver is INACTIVE, and then nothing is changed.
pub fn recover<H: Hold>(
    receiver: &mut Receiver<H>,
    first: bool,
    memory: &mut [bool],
    reports: &mut Queue<'_, Report>,
) -> Result<(), Refusal>
    ensures answer { result ≡ answered (refused_if_down (state_of H.Hold receiver.old).phase) tt }
    ensures memory { OnOk result (memory.new ≡ idle first (length memory.old)) }
    ensures ran { OnOk result (let events = idle_around_a_release first (length memory.old) in
        Ran H.Hold events receiver.old receiver.new reports.old reports.new) }
    ensures back { OnOk result (
        InUse H.Hold receiver.old → idle_needed receiver.old ≤ length memory.old → BackInSearch H.Hold receiver.new) }
    ensures in_use { InUse H.Hold receiver.old → InUse H.Hold receiver.new }
    ensures refused { OnErr result (
        (receiver.new ≡ receiver.old) × (memory.new ≡ memory.old) × (reports.new ≡ reports.old)) }
{
    carrier_is_up(receiver)?;
    write_idle(first, memory);
    let (front, behind) = memory.split_at(memory.len() / 2);
    // Not refused: the carrier is up.
    let _ = receiver.symbols(front, reports);
    // Refused where none waits, and then nothing is released.
    let _ = receiver.release();
    let _ = receiver.symbols(behind, reports);
    Ok(())
}

// Writes idle over all of the memory.
fn write_idle(first: bool, memory: &mut [bool])
    ensures { memory.new ≡ idle first (length memory.old) }
{
    let mut bit = first;
    for place in memory.iter_mut() {
        *place = bit;
        bit = !bit;
    }
}
