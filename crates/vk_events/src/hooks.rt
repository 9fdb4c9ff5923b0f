ghost use Rattle.std.specs.Prelude.{◌≡◌, ◌<◌, ◌≤◌, ◌+◌, ◌∷◌, [], ℕ, OnOk, IfSome, IfNone, Contains};
ghost use Rattle.std.specs.List.Sorted.{IsPermutation};

use std::alloc::{AllocError, Global};
use std::cmp::Reverse;
use std::collections::BinaryHeap;
use std::marker::Model;

/// Numbers, each under a count. The least count comes out first, and of one count the least
/// number. Contracts see the pairs, in no particular order, and for how many more there is room.
#[derive(Drop)]
pub(crate) struct Hooks {
    heap: BinaryHeap<Reverse<(u32, u32)>>,
}

impl Model for Hooks {
    ghost use Rattle.std.specs.Prelude.{map, ◌-◌};
    ghost use Rattle.std.specs.BinaryHeap.{IsHeap, heap_items, heap_len, heap_capacity};
    ghost use Rattle.vk_events.specs.Inner.Hooks.{Hung, by_least};

    ghost Value = { Hung };

    ghost view = { λ s. record {
      pairs = map (λ x. x.0) (heap_items s.heap);
      room = heap_capacity s.heap - heap_len s.heap;
    } };

    ghost invariant = { λ s. IsHeap by_least (heap_items s.heap) };
}

impl Hooks {
    /// Nothing hangs.
    pub(crate) fn new(alloc: Global) -> Hooks
        ensures { result.pairs ≡ [] }
    {
        Hooks {
            heap: BinaryHeap::new(alloc),
        }
    }

    /// Takes room for so many more numbers.
    pub(crate) fn reserve(&mut self, more: usize) -> Result<(), AllocError>
        ensures pairs { self.new.pairs ≡ self.old.pairs }
        ensures room { OnOk result (more ≤ self.new.room) }
    {
        self.heap.reserve(more)
    }

    /// Hangs a number under a count, where there is room.
    pub(crate) fn push(&mut self, count: u32, number: u32)
        requires { 0 < self.old.room }
        ensures pairs { IsPermutation ((count, number) ∷ self.old.pairs) self.new.pairs }
        ensures room { self.old.room ≤ self.new.room + 1 }
    {
        match self.heap.push(Reverse((count, number))) {
            Ok(()) => {}
            Err(_) => unreachable!(),
        }
    }

    /// Takes the number off that hangs under the least count, unless that is above a limit.
    pub(crate) fn pop_within(&mut self, limit: usize) -> Option<u32>
        ensures pairs { IfSome result (λ i. (k : ℕ) × (k ≤ limit)
            × IsPermutation self.old.pairs ((k, i) ∷ self.new.pairs)
            × ((x : ℕ × ℕ) → Contains self.old.pairs x → k ≤ x.0)) }
        ensures none { IfNone result ((self.new ≡ self.old)
            × ((x : ℕ × ℕ) → Contains self.old.pairs x → limit < x.0)) }
        ensures room { self.old.room ≤ self.new.room }
    {
        match self.heap.peek() {
            Some(Reverse((count, _))) if *count as usize <= limit => {}
            _ => return None,
        }
        match self.heap.pop() {
            Some(Reverse((_, number))) => Some(number),
            None => unreachable!(),
        }
    }
}
