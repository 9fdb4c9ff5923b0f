ghost use Rattle.std.specs.Prelude.{◌≡◌, IfOk, OnErr, MatchOption};
ghost use Rattle.vk_memory.specs.MemoryState.{MemoryState};
ghost use Rattle.vma_pools.specs.State.{Backs, IfLive, IsMovable, IsTargetSpot, HasLower, HasNoLower, IsReserved};
ghost use Rattle.vma_pools.specs.Moves.{IsMoving};
ghost use Rattle.vma_pools.specs.Exhausted.{IsExhaustedFor, IsExhaustedBefore};

use crate::allocations::{Allocation, Home};
use crate::pool::PoolPlace;
use crate::pools::PoolsOf;
use std::alloc::AllocError;
use vk_model::Spot;
use vma_blocks::PoolBlock;

impl<B: PoolBlock> PoolsOf<B> {
    /// The move target of an allocation in its pool, of which nothing is taken; none where there is
    /// none. The search begins at `low`, below which the allocation fits nowhere.
    pub fn lower_place(&self, allocation: u64, low: PoolPlace) -> Option<PoolPlace>
        requires movable { IfLive self.now allocation (λ a. IsMovable self.now a.home a.target) }
        requires low { IsExhaustedFor self.now allocation low }
        ensures lower { MatchOption result (HasNoLower self.now allocation) (HasLower self.now allocation) }
        // Where the next search may begin.
        ensures exhausted { MatchOption result (IsExhaustedBefore self.now allocation) (IsExhaustedFor self.now allocation) }
    {
        let Some(live) = self.allocations[allocation as usize] else {
            unreachable!()
        };
        let Home::Shared { pool, place } = live.home else {
            unreachable!()
        };
        let Some(kept) = &self.pools[pool as usize] else {
            unreachable!()
        };
        kept.lower_place(place, low, live.asked)
    }

    /// The place that is reserved for an allocation: its memory object, and its range there.
    pub fn target(&self, allocation: u64) -> Spot
        requires { IfLive self.now allocation (λ a. IsMoving a.home a.target) }
        ensures { IfLive self.now allocation (λ a. IsTargetSpot self.now a.home a.target a.asked result) }
    {
        let Some(live) = self.allocations[allocation as usize] else {
            unreachable!()
        };
        let Home::Shared { pool, .. } = live.home else {
            unreachable!()
        };
        let Some(target) = live.target else {
            unreachable!()
        };
        match &self.pools[pool as usize] {
            Some(kept) => Spot {
                memory: kept.memory_of(target.block),
                offset: target.start,
                size: live.asked.size,
            },
            None => unreachable!(),
        }
    }

    /// Reserves the move target of an allocation in its pool: the lowest place of the first earlier
    /// block that holds it, else the lowest of its own block that ends at or below its start; none
    /// where there is no such place. The search begins at `low`, below which the allocation fits
    /// nowhere. The only error is want of memory.
    pub fn reserve_lower(
        &mut self,
        allocation: u64,
        low: PoolPlace,
    ) -> Result<Option<PoolPlace>, AllocError>
        requires movable { IfLive self.old allocation (λ a. IsMovable self.old a.home a.target) }
        requires low { IsExhaustedFor self.old allocation low }
        ensures ok { IfOk result (λ o. MatchOption o (HasNoLower self.old allocation × (self.new ≡ self.old)) (λ target. IsReserved self.old self.new allocation target)) }
        // Where the next search may begin.
        ensures exhausted { IfOk result (λ o. MatchOption o (IsExhaustedBefore self.new allocation) (λ target. IsExhaustedFor self.old allocation target × IsExhaustedFor self.new allocation target)) }
        ensures err { OnErr result (self.new ≡ self.old) }
        // The memory objects stay as they are, and so does what they are.
        ensures backs { (m : MemoryState) → Backs self.old m → Backs self.new m }
    {
        let Some(live) = self.allocations[allocation as usize] else {
            unreachable!()
        };
        let Home::Shared { pool, place } = live.home else {
            unreachable!()
        };
        let Some(kept) = &mut self.pools[pool as usize] else {
            unreachable!()
        };
        let Some(target) = kept.take_lower(place, low, live.asked)? else {
            return Ok(None);
        };
        self.allocations[allocation as usize] = Some(Allocation {
            target: Some(target),
            ..live
        });
        Ok(Some(target))
    }
}
