ghost use Rattle.cells.specs.Cells.{added};
ghost use Rattle.cells.specs.Held.{Counted};
ghost use Rattle.chain.specs.Links.{Chained, in_turn};

use cells::{Cell, Counts};

/// Room for one codeblock of a chain.
#[derive(Clone, Copy)]
pub struct LinkedCell {
    pub(crate) room: Cell,
    // In the first cell of a finished candidate, which cell is its last.
    pub(crate) last: u16,
    // Which cell comes next.
    pub(crate) next: u16,
}

/// Finished candidates and an open one in lent cells, a codeblock a cell. Each cell links to the next:
/// first come the cells of the finished candidates, the oldest first, then those of the open one, then
/// the free ones.
#[derive(Drop)]
pub struct Chain<'a> {
    pub(crate) cells: &'a mut [LinkedCell],
    // Which cell comes first of all.
    pub(crate) first: u16,
    // Which comes behind those of the finished candidates: the first of the open one, or a free one.
    pub(crate) first_open: u16,
    // Which comes behind those that are held: the first free one, if one is free.
    pub(crate) first_free: u16,
    // Which is the last of the finished candidates, if one waits.
    pub(crate) last_finished: u16,
    // Which is the last that is held, if one is.
    pub(crate) last_held: u16,
    pub(crate) counts: Counts,
    ghost counted: { Counted counts (in_turn cells.now first) },
    ghost chained: { Chained cells.now first first_open first_free last_finished last_held
        counts.used counts.waiting (added counts.unfinished) },
}
