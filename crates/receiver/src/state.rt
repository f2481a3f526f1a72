ghost use Rattle.std.specs.Prelude.{◌≤◌};

use crate::phase::Phase;
use decoding::Settings;

/// What a receiver is apart from its hold.
#[derive(Clone, Copy)]
pub(crate) struct State {
    pub(crate) settings: Settings,
    pub(crate) phase: Phase,
    // How many reports found no place in the caller's queue, up to 65,535.
    pub(crate) lost: u16,
    ghost lost_few: { lost ≤ 65535 },
}
