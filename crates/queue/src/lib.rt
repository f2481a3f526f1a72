//! One queue in lent memory, for any plain record: no allocation, and constant time for each call.
#![tactic(auto)]

ghost use Rattle.std.specs.Prelude.{◌≡◌, ◌+◌, [], ◌∷◌, length, OnOk, OnErr};
ghost use Rattle.std.specs.Option.{option_copied};
ghost use Rattle.queue.specs.Waiting.{waiting, free, capacity, slots_of, memory_of, first_of, all_free, with_behind, without_oldest, front, put_answer, take_answer};

use circular::Circle;
use refusals::Refusal;

mod slots;

pub use slots::Queue;

impl<'a, T: Copy> Queue<'a, T> {
    /// A queue over these slots, in which nothing waits: all of them are free, and hold what they held.
    pub fn new(slots: &'a mut [T]) -> Queue<'a, T>
        ensures slots { slots_of result ≡ all_free slots.old }
        ensures memory { memory_of result ≡ slots.old }
        ensures first { first_of result ≡ 0 }
    {
        Queue {
            slots: Circle::new(slots),
            count: 0,
        }
    }

    /// How many records can wait at once: the number of slots, those in which a record waits and the free ones.
    #[tactic(auto, using(crate::proofs::Laws::every_slot))]
    pub fn capacity(&self) -> usize
        ensures slots { result ≡ capacity self.now }
        ensures every { length (waiting self.now) + length (free self.now) ≡ result }
    {
        self.slots.len()
    }

    /// How many records wait.
    #[tactic(auto, using(crate::proofs::Laws::length_waiting))]
    pub fn len(&self) -> usize
        ensures { result ≡ length (waiting self.now) }
    {
        self.count
    }

    /// The record that waits longest, which stays. `None` where none waits.
    pub fn front(&self) -> Option<&T>
        ensures { option_copied result ≡ front (waiting self.now) }
    {
        if self.count == 0 {
            return None;
        }
        self.slots.get(0)
    }

    /// Puts a record behind all that wait, into a free slot. Refused with `QueueFull` exactly where no slot is
    /// free, and then the queue and the memory under it are as they were.
    #[tactic(auto, using(crate::proofs::Turns::put_behind, crate::proofs::Laws::length_waiting))]
    pub fn put(&mut self, record: T) -> Result<(), Refusal>
        ensures answer { result ≡ put_answer (free self.old) }
        ensures accepted { OnOk result (slots_of self.new ≡ with_behind («record» ∷ []) (slots_of self.old)) }
        // So no other slot is written, and none is moved in memory.
        ensures first { first_of self.new ≡ first_of self.old }
        ensures slots { capacity self.new ≡ capacity self.old }
        ensures refused { OnErr result (self.new ≡ self.old) }
    {
        let waiting = self.len();
        if waiting == self.capacity() {
            return Err(Refusal::QueueFull);
        }
        self.slots.set(waiting, record);
        self.count += 1;
        Ok(())
    }

    /// Takes the record that waits longest, and frees its slot. Refused with `QueueEmpty` exactly where none
    /// waits, and then the queue and the memory under it are as they were.
    #[tactic(auto, using(crate::proofs::Turns::taken_off))]
    pub fn take(&mut self) -> Result<T, Refusal>
        ensures answer { result ≡ take_answer (waiting self.old) }
        ensures accepted { OnOk result (slots_of self.new ≡ without_oldest (slots_of self.old)) }
        ensures memory { memory_of self.new ≡ memory_of self.old }
        ensures slots { capacity self.new ≡ capacity self.old }
        ensures refused { OnErr result (self.new ≡ self.old) }
    {
        let Some(oldest) = self.front().copied() else {
            return Err(Refusal::QueueEmpty);
        };
        self.slots.advance(1);
        self.count -= 1;
        Ok(oldest)
    }
}

#[cfg(test)]
mod tests {
    use super::*;
    use std::test::Fail;

    #[derive(Clone, Copy)]
    struct Sample {
        number: u8,
        odd: bool,
    }

    fn numbered(number: u8) -> Sample {
        Sample {
            number,
            odd: number % 2 == 1,
        }
    }

    #[test]
    fn three_slots(rt: HostRuntime) -> Result<(), Fail> {
        let mut slots = [numbered(0); 3];
        let mut queue = Queue::new(&mut slots);
        for number in 1..4 {
            queue.put(numbered(number))?;
        }
        for number in 4..12 {
            assert!(rt; queue.put(numbered(number)) == Err(Refusal::QueueFull));
            assert!(rt; queue.front().map(|sample| sample.number) == Some(number - 3));
            let oldest = queue.take()?;
            assert!(rt; oldest.number == number - 3 && oldest.odd == (number % 2 == 0));
            queue.put(numbered(number))?;
        }
        assert!(rt; queue.len() == 3 && queue.capacity() == 3);
        Ok(())
    }

    // A slot keeps its record until another is put there, and a refused put changes none.
    #[test]
    fn memory_under_the_queue(rt: HostRuntime) -> Result<(), Fail> {
        let mut slots = [0; 3];
        let mut queue = Queue::new(&mut slots);
        for record in 1..4 {
            queue.put(record)?;
        }
        assert!(rt; queue.put(4) == Err(Refusal::QueueFull));
        assert!(rt; queue.take()? == 1 && queue.take()? == 2);
        queue.put(5)?;
        assert!(rt; slots == [5, 2, 3]);
        Ok(())
    }

    #[test]
    fn no_slots(rt: HostRuntime) {
        let mut slots: [u8; 0] = [];
        let mut queue = Queue::new(&mut slots);
        assert!(rt; queue.put(1) == Err(Refusal::QueueFull));
        assert!(rt; queue.take() == Err(Refusal::QueueEmpty));
    }
}
