ghost use Rattle.std.specs.Prelude.{◌≡◌};
ghost use Rattle.reception.specs.Calls.{refused_if_down, answered};
ghost use Rattle.receiver.specs.Meaning.{state_of};

use hold::Hold;
use receiver::{Receiver, ReceiverState};
use refusals::Refusal;

// Refuses with 6 where the receiver is INACTIVE, before anything is changed.
pub(crate) fn carrier_is_up<H: Hold>(receiver: &Receiver<H>) -> Result<(), Refusal>
    ensures { result ≡ answered (refused_if_down (state_of H.Hold receiver.now).phase) tt }
{
    match receiver.state() {
        ReceiverState::Inactive => Err(Refusal::CarrierDown),
        ReceiverState::Search | ReceiverState::Decode => Ok(()),
    }
}
