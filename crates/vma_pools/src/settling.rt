ghost use Rattle.std.specs.Prelude.{◌≡◌, Some, IfSome};
ghost use Rattle.vk_memory.specs.MemoryState.{IsLive};
ghost use Rattle.vma_pools.specs.State.{ArePools, Backs, IfLive, released};
ghost use Rattle.vma_pools.specs.Moves.{IsMoving, IsSettled, IsCancelled, IsRebound};
ghost use Rattle.vma_pools.specs.Inner.Settling.{HasPlaces};

use crate::allocations::{Allocation, Home};
use crate::pool::PoolPlace;
use crate::pools::PoolsOf;
use vk_memory::Memories;
use vma_blocks::PoolBlock;

/// The two places of an allocation that moves.
#[derive(Clone, Copy)]
pub(crate) struct Moving {
    /// Its pool, by its number.
    pool: u64,
    /// Where it lies.
    from: PoolPlace,
    /// The place that is reserved for it.
    target: PoolPlace,
}

/// Frees a memory object, if there is one.
fn release(memories: &mut Memories, gone: Option<u64>)
    requires { IfSome gone (λ n. IsLive memories.old n) }
    ensures { memories.new ≡ released memories.old gone }
{
    if let Some(memory) = gone {
        memories.free(memory);
    }
}

impl<B: PoolBlock> PoolsOf<B> {
    /// Where an allocation that moves lies, and which place is reserved for it.
    fn moving(&self, allocation: u64) -> Moving
        requires { IfLive self.now allocation (λ a. IsMoving a.home a.target) }
        ensures { IfLive self.now allocation (λ a. (a.home ≡ Home.Shared result.pool result.from) × (a.target ≡ Some result.target)) }
    {
        let Some(live) = self.allocations[allocation as usize] else {
            unreachable!()
        };
        let Home::Shared { pool, place } = live.home else {
            unreachable!()
        };
        let Some(target) = live.target else {
            unreachable!()
        };
        Moving {
            pool,
            from: place,
            target,
        }
    }

    /// Gives back one of the two places of an allocation, which lies at the other from now on, and
    /// answers the memory object of its block where that has gone.
    fn settle(
        &mut self,
        allocation: u64,
        pool: u64,
        back: PoolPlace,
        stays: PoolPlace,
    ) -> Option<u64>
        requires { IfLive self.old allocation (λ a. HasPlaces a pool back stays) }
        ensures settled { IfLive self.old allocation (λ a. IsSettled self.old self.new allocation a pool back stays result) }
        // What the type's invariant says.
        ensures always { ArePools self.old }
    {
        let Some(live) = self.allocations[allocation as usize] else {
            unreachable!()
        };
        self.allocations[allocation as usize] = Some(Allocation {
            home: Home::Shared { pool, place: stays },
            target: None,
            ..live
        });
        match &mut self.pools[pool as usize] {
            Some(kept) => kept.free(back, live.asked),
            None => unreachable!(),
        }
    }

    /// Cancels the move of an allocation: its reserved place is given back. Answers the memory object
    /// that is freed with it: its block, where nothing else is taken in it.
    pub fn cancel(&mut self, memories: &mut Memories, allocation: u64) -> Option<u64>
        requires moving { IfLive self.old allocation (λ a. IsMoving a.home a.target) }
        requires backs { Backs self.old memories.old }
        ensures cancelled { IfLive self.old allocation (λ a. IsCancelled self.old self.new allocation a a.home a.target result) }
        ensures memories { memories.new ≡ released memories.old result }
        ensures kept { Backs self.new memories.new }
    {
        let its = self.moving(allocation);
        let gone = self.settle(allocation, its.pool, its.target, its.from);
        release(memories, gone);
        gone
    }

    /// Ends the move of an allocation at its reserved place: it lies there from now on, and its old
    /// range is given back. Answers the memory object that is freed with that: its block, where
    /// nothing else is taken in it.
    pub fn rebind(&mut self, memories: &mut Memories, allocation: u64) -> Option<u64>
        requires moving { IfLive self.old allocation (λ a. IsMoving a.home a.target) }
        requires backs { Backs self.old memories.old }
        ensures rebound { IfLive self.old allocation (λ a. IsRebound self.old self.new allocation a a.home a.target result) }
        ensures memories { memories.new ≡ released memories.old result }
        ensures kept { Backs self.new memories.new }
    {
        let its = self.moving(allocation);
        let gone = self.settle(allocation, its.pool, its.from, its.target);
        release(memories, gone);
        gone
    }
}
