ghost use Rattle.std.specs.Prelude.{◌≡◌};
ghost use Rattle.guard_times.specs.Csv.{mode_name};

use bch::Mode;

// A mode as it is told.
pub(crate) fn mode_name(mode: Mode) -> &'static str
    ensures { result.now ≡ mode_name mode }
{
    match mode {
        Mode::Detecting => "detecting",
        Mode::Correcting => "correcting",
    }
}
