ghost use Rattle.std.specs.Prelude.{◌≡◌, ℕ, ◌≤◌, List, [], ◌∷◌, length};
ghost use Rattle.queue.specs.declared.slots.Queue.{Queue as Records};
ghost use Rattle.cltu.specs.Cltu.{filled};
ghost use Rattle.reception.specs.declared.Report.{Report as Told};
ghost use Rattle.reception.specs.Rules.{INACTIVE};
ghost use Rattle.reception.specs.Runs.{CarrierIsUp};
ghost use Rattle.receiver.specs.Meaning.{held_by, state_of};
ghost use Rattle.receiver.specs.Events.{Ran};
ghost use Rattle.receiver.specs.Joined.{PromiseOverCalls};
ghost use Rattle.callers.specs.InUse.{InUse, BackInSearch};
ghost use Rattle.callers.specs.Command.{releases, CommandHeard, IsCommand, IsFrameInFront};

use crate::carrier::carrier_is_up;
use hold::Hold;
use queue::Queue;
use receiver::Receiver;
use reception::Report;
use refusals::Refusal;

/// Hears symbols that bring a command, and copies it to the front of the memory: the frame with its fill, which has
/// as many octets as are answered. The symbols are its CLTU, and behind it idle, which begins with either bit, or
/// nothing. What was finished before is released first, so read that before this call.
/// That the frame comes, and waits alone, is proved where the receiver was back in SEARCH, the CLTU is within the
/// allowance, and the hold matches the sender's randomizer and has capacity for the codeblocks; then the receiver is
/// back in SEARCH again. It stands in the memory where that is long enough.
/// Refused with 6 where the receiver is INACTIVE, and then nothing is changed. Refused with 7 where the symbols
/// finished no candidate, and with 2 where the memory is too short for it: then the symbols were heard, the memory
/// is as it was, and a candidate that was finished still waits.
pub fn receive_command<H: Hold>(
    receiver: &mut Receiver<H>,
    symbols: &[bool],
    reports: &mut Queue<'_, Report>,
    memory: &mut [u8],
) -> Result<usize, Refusal>
    ensures heard { CarrierIsUp (state_of H.Hold receiver.old).phase →
        CommandHeard H.Hold symbols.now receiver.old receiver.new reports.old reports.new memory.old memory.new result }
    ensures received { BackInSearch H.Hold receiver.old → (frame : List ℕ) →
        IsCommand H.Hold receiver.old frame symbols.now →
        ((held_by H.Hold receiver.new).finished ≡ filled frame ∷ []) × BackInSearch H.Hold receiver.new
        × (length (filled frame) ≤ length memory.old → IsFrameInFront frame memory.old memory.new result) }
    ensures in_use { InUse H.Hold receiver.old → InUse H.Hold receiver.new }
    ensures refused { (state_of H.Hold receiver.old).phase ≡ INACTIVE →
        (result ≡ Err Refusal.CarrierDown) × (receiver.new ≡ receiver.old) × (reports.new ≡ reports.old)
        × (memory.new ≡ memory.old) }
{
    carrier_is_up(receiver)?;
    release_all(receiver);
    // Not refused: the carrier is up.
    let _ = receiver.symbols(symbols, reports);
    receiver.copy_oldest(memory)
}

// Releases all that is finished.
fn release_all<H: Hold>(receiver: &mut Receiver<H>)
    ensures released { PromiseOverCalls H.Hold → (queue : Records Told) →
        Ran H.Hold (releases (length (held_by H.Hold receiver.old).finished)) receiver.old receiver.new queue queue }
    ensures in_use { InUse H.Hold receiver.old → InUse H.Hold receiver.new }
{
    for _ in 0..receiver.finished_count() {
        // Not refused: so many wait.
        let _ = receiver.release();
    }
}
