ghost use Rattle.std.specs.Prelude.{◌≤◌, length};
ghost use Rattle.circular.specs.Turns.{in_turn};

use circular::Circle;

/// Records that wait in a ring of lent slots, to be taken in the order in which they were put.
#[derive(Drop)]
pub struct Queue<'a, T> {
    // The slots, that of the oldest record first.
    pub(crate) slots: Circle<'a, T>,
    // How many records wait.
    pub(crate) count: usize,
    ghost within: { count ≤ length (in_turn slots) },
}
