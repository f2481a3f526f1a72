ghost use Rattle.std.specs.Prelude.{◌≡◌, []};
ghost use Rattle.reception.specs.Rules.{searching, state};
ghost use Rattle.reception.specs.Decoding.{abandoning};
ghost use Rattle.decoding.specs.Meaning.{held_in};
ghost use Rattle.receiver.specs.Meaning.{settings_of, lost_of, state_of};
ghost use Rattle.callers.specs.InUse.{BackInSearch};

use decoding::Settings;
use hold::Hold;
use receiver::Receiver;

/// A receiver over a hold in any state, whose carrier is up. It is in SEARCH with no candidate open, and
/// `receive_command` may follow.
pub fn listening<H: Hold>(settings: Settings, hold: H) -> Receiver<H>
    ensures state { state_of H.Hold result ≡ state searching (abandoning (held_in H.Hold hold)) }
    ensures settings { settings_of result ≡ settings }
    ensures lost { lost_of result ≡ 0 }
    ensures ready { BackInSearch H.Hold result }
{
    let mut receiver = Receiver::new(settings, hold);
    // Not refused: it is INACTIVE.
    let _ = receiver.carrier_up();
    receiver
}
