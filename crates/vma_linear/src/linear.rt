ghost use Rattle.std.specs.Prelude.{◌≡◌, ◌+◌, ◌<◌, ◌^◌, ◌++◌, ◌∷◌, [], Some, None, true, All, map, IfOk, OnErr, IsErrOf};
ghost use Rattle.vk_model.specs.Memory.Suballocation.{IsRequest, IsLargestFree};
ghost use Rattle.vk_model.specs.Memory.Room.{all_taken, is_none_left, stack_place, ring_place, lower_place, upper_place};
ghost use Rattle.vk_model.specs.Memory.LinearBlocks.{empty_linear, after_lower, after_upper, after_free};
ghost use Rattle.vma_linear.specs.Inner.Slots.{comes_before};
ghost use Rattle.vk_model.specs.Memory.TakenRanges.{taken_of};
ghost use Rattle.vma_linear.specs.Inner.Gaps as gaps;
ghost use Rattle.vma_linear.specs.Inner.Gaps.{last_after};

use crate::gaps::{Gap, free_from, free_to};
use crate::list::RangeList;
use crate::slots::Direction;
use crate::walks::Widest;
use std::alloc::{AllocError, Global};
use std::marker::Model;
use std::mem;
use vk_model::{Kind, SubFault, TakenRange};

/// One block of a linear pool. Contracts see it as the definitions' record: its size, whether it may
/// be a ring, and the ranges of its lower stack, of those that went round to the start, and of its
/// upper stack, each in the order in which they were taken (VMA, "Linear allocation algorithm").
#[derive(Drop)]
pub struct Linear {
    alloc: Global,
    pub(crate) size: u64,
    ring: bool,
    lower: RangeList,
    wrapped: RangeList,
    upper: RangeList,
}

impl Model for Linear {
    ghost use Rattle.std.specs.Prelude.{◌≡◌};
    ghost use Rattle.vk_model.specs.Memory.Room.{Linear as Block};

    ghost Value = { Block };

    ghost use Rattle.vma_linear.specs.Inner.Blocks.{AreLists};

    ghost view = { λ b. record {
      size = b.size;
      ring = b.ring;
      lower = b.lower.taken;
      wrapped = b.wrapped.taken;
      upper = b.upper.taken;
    } };

    ghost invariant = { AreLists };
}

impl Linear {
    /// A block of `size` bytes of which nothing is taken; with `ring`, ranges may go round to its
    /// start. It takes no memory.
    pub fn new(alloc: Global, size: u64, ring: bool) -> Linear
        requires { size < 2 ^ 63 }
        ensures { result ≡ empty_linear size ring }
    {
        Linear {
            alloc,
            size,
            ring,
            lower: RangeList::new(alloc, Direction::Up),
            wrapped: RangeList::new(alloc, Direction::Up),
            upper: RangeList::new(alloc, Direction::Down),
        }
    }

    /// Takes a range on the lower stack, or else after those that went round to the start, and
    /// answers its start in bytes. `bytes` is a multiple of 16 above 0, `align` is 16, 64 or 256.
    ///
    /// # Errors
    /// `NoRoom` where there is no place, or `NoMemory` where the block's own lists could not grow.
    /// Nothing is changed then.
    pub fn allocate_lower(&mut self, bytes: u64, align: u64, kind: Kind) -> Result<u64, SubFault>
        requires { IsRequest bytes align }
        ensures ok { IfOk result (λ start.
            (lower_place self.old (record { size = bytes; align = align; kind = kind }) ≡ Some start)
            × (self.new ≡ after_lower self.old (record { size = bytes; align = align; kind = kind }))) }
        ensures no_room { IsErrOf result SubFault.NoRoom
            → lower_place self.old (record { size = bytes; align = align; kind = kind }) ≡ None }
        ensures err { OnErr result (self.new ≡ self.old) }
    {
        match self.place_on_stack(bytes, align, kind) {
            Some(start) => add(&mut self.lower, start, bytes, kind),
            None => match self.place_in_ring(bytes, align, kind) {
                Some(start) => add(&mut self.wrapped, start, bytes, kind),
                None => Err(SubFault::NoRoom),
            },
        }
    }

    /// Takes a range at the upper end, and answers its start in bytes. `bytes` is a multiple of 16
    /// above 0, `align` is 16, 64 or 256.
    ///
    /// # Errors
    /// `NoRoom` where there is no place, or `NoMemory` where the block's own lists could not grow.
    /// Nothing is changed then.
    pub fn allocate_upper(&mut self, bytes: u64, align: u64, kind: Kind) -> Result<u64, SubFault>
        requires { IsRequest bytes align }
        ensures ok { IfOk result (λ start.
            (upper_place self.old (record { size = bytes; align = align; kind = kind }) ≡ Some start)
            × (self.new ≡ after_upper self.old (record { size = bytes; align = align; kind = kind }))) }
        ensures no_room { IsErrOf result SubFault.NoRoom
            → upper_place self.old (record { size = bytes; align = align; kind = kind }) ≡ None }
        ensures err { OnErr result (self.new ≡ self.old) }
    {
        match self.place_above(bytes, align, kind) {
            Some(start) => add(&mut self.upper, start, bytes, kind),
            None => Err(SubFault::NoRoom),
        }
    }

    /// Gives back the range that starts here, if there is one. When nothing is left of the lower
    /// stack, what went round to the start becomes the lower stack.
    pub fn give_back(&mut self, start: u64)
        ensures { self.new ≡ after_free self.old start }
    {
        self.lower.give_back(start);
        self.wrapped.give_back(start);
        self.upper.give_back(start);
        if self.lower.is_empty() {
            mem::swap(&mut self.lower, &mut self.wrapped);
        }
    }

    /// Whether nothing is taken.
    pub fn is_empty(&self) -> bool
        ensures { result ≡ is_none_left (all_taken self.now) }
    {
        self.lower.is_empty() && self.wrapped.is_empty() && self.upper.is_empty()
    }

    /// The ranges that are taken: those of the lower stack, those that went round, and those of the
    /// upper stack. The only error is want of memory.
    pub fn taken(&self) -> Result<Vec<TakenRange>, AllocError>
        ensures { IfOk result (λ ranges. map taken_of ranges.items ≡ all_taken self.now) }
    {
        let mut ranges = Vec::new(self.alloc);
        self.lower.copy_to(&mut ranges)?;
        self.wrapped.copy_to(&mut ranges)?;
        self.upper.copy_to(&mut ranges)?;
        Ok(ranges)
    }

    /// The length in bytes of the longest free range.
    pub fn widest_gap(&self) -> u64
        ensures { IsLargestFree self.now.size (all_taken self.now) result }
    {
        let round = self.wrapped.walk_up(Widest { edge: 0, width: 0 });
        let below = self.lower.walk_up(round);
        let above = self.upper.walk_down(Widest {
            edge: self.size,
            width: below.width,
        });
        above.width.max(above.edge.saturating_sub(below.edge))
    }

    /// The place of a request on the lower stack.
    fn place_on_stack(&self, bytes: u64, align: u64, kind: Kind) -> Option<u64>
        requires { IsRequest bytes align }
        ensures { result
            ≡ stack_place self.now (record { size = bytes; align = align; kind = kind }) }
    {
        if self.wrapped.is_empty() {
            self.middle(kind).lowest(bytes, align)
        } else {
            None
        }
    }

    /// The place of a request at the start of a ring.
    fn place_in_ring(&self, bytes: u64, align: u64, kind: Kind) -> Option<u64>
        requires { IsRequest bytes align }
        ensures { result
            ≡ ring_place self.now (record { size = bytes; align = align; kind = kind }) }
    {
        if !self.ring || !self.upper.is_empty() || self.lower.is_empty() {
            return None;
        }
        let gap = Gap {
            from: free_from(kind, self.wrapped.last()),
            to: free_to(self.size, kind, self.lower.first()),
        };
        gap.lowest(bytes, align)
    }

    /// The place of a request on the upper stack.
    fn place_above(&self, bytes: u64, align: u64, kind: Kind) -> Option<u64>
        requires { IsRequest bytes align }
        ensures { result
            ≡ upper_place self.now (record { size = bytes; align = align; kind = kind }) }
    {
        if self.wrapped.is_empty() {
            self.middle(kind).highest(bytes, align)
        } else {
            None
        }
    }

    /// The bytes between the lower and the upper stack that a resource of a kind may take. All
    /// ranges of a page are of one kind, so the two next to the gap answer for the others.
    fn middle(&self, kind: Kind) -> Gap
        ensures from { result.from ≡ gaps.free_from kind (last_after None self.now.lower) }
        ensures to { result.to ≡ gaps.free_to self.now.size kind (last_after None self.now.upper) }
        ensures within { result.from < 2 ^ 63 + 1024 }
    {
        Gap {
            from: free_from(kind, self.lower.last()),
            to: free_to(self.size, kind, self.upper.last()),
        }
    }
}

/// Adds a range to a list, and answers its start.
fn add(list: &mut RangeList, start: u64, bytes: u64, kind: Kind) -> Result<u64, SubFault>
    requires { All (λ t. comes_before list.old.direction t.start start ≡ true) list.old.taken }
    ensures ok { IfOk result (λ s. (s ≡ start) × (list.new ≡ record list.old {
      taken = list.old.taken ++ record { start = start; size = bytes; kind = kind } ∷ [];
    })) }
    ensures err { OnErr result (list.new ≡ list.old) }
    ensures no_room { IsErrOf result SubFault.NoRoom → ⊥ }
{
    let range = TakenRange {
        start,
        size: bytes,
        kind,
    };
    match list.push(range) {
        Ok(()) => Ok(start),
        Err(_) => Err(SubFault::NoMemory),
    }
}
