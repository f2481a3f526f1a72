//! Places in a circle: after the last comes the first.
#![tactic(auto)]

ghost use Rattle.std.specs.Prelude.{◌≡◌, ◌<◌, ◌≤◌, length, IsSome, slice_get, slice_set};
ghost use Rattle.std.specs.Option.{option_copied};
ghost use Rattle.circular.specs.Circle.{round_from, Turned};
ghost use Rattle.circular.specs.Turns.{in_turn, memory_of, first_of};

mod circle;

pub use circle::Circle;

// The place that comes `turn` after `first`, in a circle of so many places: after the last comes place 0. A `first`
// past the last place stands for place 0. A `turn` of more than a whole round counts on from place 0, past the last.
fn place_after(places: usize, first: usize, turn: usize) -> usize
    ensures { Turned places first turn result }
{
    let to_the_end = places.saturating_sub(first);
    if turn < to_the_end {
        first + turn
    } else {
        turn - to_the_end
    }
}

impl<'a, T: Copy> Circle<'a, T> {
    /// A circle of these cells, in which the first of them is first.
    #[tactic(auto, using(crate::proofs::Rounds::round_from_start))]
    pub fn new(cells: &'a mut [T]) -> Circle<'a, T>
        ensures cells { in_turn result ≡ cells.old }
        ensures memory { memory_of result ≡ cells.old }
        ensures first { first_of result ≡ 0 }
    {
        Circle { cells, first: 0 }
    }

    /// How many cells the circle has.
    #[tactic(auto, using(crate::proofs::Rounds::length_round_from))]
    pub fn len(&self) -> usize
        ensures { result ≡ length (in_turn self.now) }
    {
        self.cells.len()
    }

    /// The cell whose turn this is. `None` past the last.
    #[tactic(auto, using(crate::proofs::Rounds::length_round_from))]
    pub fn get(&self, turn: usize) -> Option<&T>
        ensures value { option_copied result ≡ slice_get (in_turn self.now) turn }
        ensures there { turn < length (in_turn self.now) → IsSome result }
    {
        let cells: &[T] = self.cells;
        if turn >= cells.len() {
            return None;
        }
        Some(&cells[place_after(cells.len(), self.first, turn)])
    }

    /// Puts a value into the cell whose turn this is. A turn past the last changes nothing.
    #[tactic(auto, using(crate::proofs::Rounds::writes))]
    pub fn set(&mut self, turn: usize, value: T)
        ensures cells { in_turn self.new ≡ slice_set (in_turn self.old) turn value }
        ensures first { first_of self.new ≡ first_of self.old }
        ensures past { length (in_turn self.old) ≤ turn → self.new ≡ self.old }
    {
        if turn < self.cells.len() {
            let place = place_after(self.cells.len(), self.first, turn);
            self.cells[place] = value;
        }
    }

    /// Passes so many cells over: they come last. As many as all, or more, change nothing.
    #[tactic(auto, using(crate::proofs::Rounds::passes))]
    pub fn advance(&mut self, turns: usize)
        ensures cells { in_turn self.new ≡ round_from turns (in_turn self.old) }
        ensures memory { memory_of self.new ≡ memory_of self.old }
        ensures past { length (in_turn self.old) ≤ turns → self.new ≡ self.old }
    {
        if turns < self.cells.len() {
            self.first = place_after(self.cells.len(), self.first, turns);
        }
    }
}
