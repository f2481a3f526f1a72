ghost use Rattle.std.specs.Prelude.{◌≤◌, length};

/// Lent cells in a circle, which has a first: the others come in their turn, and after the last comes the first of all.
#[derive(Drop)]
pub struct Circle<'a, T> {
    pub(crate) cells: &'a mut [T],
    // The place of the cell whose turn is first.
    pub(crate) first: usize,
    ghost placed: { first ≤ length cells.now },
}
