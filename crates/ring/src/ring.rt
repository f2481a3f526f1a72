ghost use Rattle.circular.specs.Turns.{in_turn};
ghost use Rattle.cells.specs.Held.{Counted};

use cells::{Cell, Counts};
use circular::Circle;

/// Finished candidates and an open one in lent cells, a codeblock a cell. The cells of a candidate
/// follow one another, and after the last cell comes the first.
#[derive(Drop)]
pub struct Ring<'a> {
    // The cells, those of the oldest finished candidate first.
    pub(crate) cells: Circle<'a, Cell>,
    pub(crate) counts: Counts,
    ghost counted: { Counted counts (in_turn cells) },
}
