ghost use Rattle.std.specs.Prelude.{◌≡◌, ◌<◌, [], ◌∷◌, ◌++◌, ◌^◌, Some, None, length, set, slice_set, IfOk, IfSome, IfNone, OnErr, IsOk, IsErrOf, IsSome, ◌≤◌, ⊤};
ghost use Rattle.vk_model.specs.Memory.Pools.{empty_pool, state_of};
ghost use Rattle.vma_blocks.specs.PoolInfos.{IsPoolInfo};
ghost use Rattle.vma_pools.specs.Pools.{Kept, heaps};
ghost use Rattle.vk_memory.specs.MemoryState.{IsFull, MemoryState};
ghost use Rattle.vk_model.specs.Memory.Suballocation.{IsRequest};
ghost use Rattle.vk_model.specs.Memory.Room.{NoRoomInPool};

use crate::allocations::{Allocation, Asked, Home};
use crate::counted::CountedPool;
use crate::numbers::leave_ended;
use std::alloc::{AllocError, Global};
use std::marker::Model;
use vk_memory::{MapState, Memories, MemoryError};
use vk_model::{PoolInfo, Spot};
use vma_blocks::PoolBlock;

/// Pools, and the allocations in them and in memory objects of their own, each by its number. Numbers
/// rise, and are never given again.
#[derive(Drop)]
pub struct PoolsOf<B: PoolBlock> {
    pub(crate) alloc: Global,
    pub(crate) pools: Vec<Option<CountedPool<B>>>,
    pub(crate) allocations: Vec<Option<Allocation>>,
    /// The numbers of the live allocations, and of some that have ended, so that a walk over those
    /// that live needn't go over all that were made.
    pub(crate) numbers: Vec<u64>,
    /// How many allocations are live. No contract rests on it.
    live: usize,
}

impl<B: PoolBlock> Model for PoolsOf<B> {
    ghost use Rattle.vma_pools.specs.State.{PoolsState};

    ghost Value = { PoolsState };

    ghost view = { λ s. record { pools = s.pools.items; allocations = s.allocations.items } };

    ghost use Rattle.vma_pools.specs.Inner.Numbers.{AreKept};

    ghost invariant = { λ s. AreKept (record { pools = s.pools.items; allocations = s.allocations.items }) s.numbers.items };
}

impl<B: PoolBlock> PoolsOf<B> {
    ghost use Rattle.std.specs.Prelude.{◌↔◌, ◌+◌, ◌-◌, OnOk};
    ghost use Rattle.vma_pools.specs.State.{ArePools, ArePlacesApart, pool_at, allocation_at, request_in, with_allocation, IfKept, IfLive, IsUnused, Backs, IsOwn, IsShared, IsEnded, IsSpotOf, released};

    /// No pools and no allocations. It takes no memory.
    pub fn new(alloc: Global) -> PoolsOf<B>
        ensures { result ≡ record { pools = []; allocations = [] } }
    {
        PoolsOf {
            alloc,
            pools: Vec::new(alloc),
            allocations: Vec::new(alloc),
            numbers: Vec::new(alloc),
            live: 0,
        }
    }

    /// Makes a pool, and answers its number.
    pub fn pool(&mut self, info: PoolInfo) -> Result<u64, AllocError>
        requires { IsPoolInfo info }
        ensures ok { IfOk result (λ n. (n ≡ length self.old.pools)
            × (self.new ≡ record self.old { pools = self.old.pools ++ Some (record { pool = empty_pool info; memories = [] }) ∷ [] })) }
        ensures err { OnErr result (self.new ≡ self.old) }
        // The memory objects stay as they are, and so does what they are.
        ensures backs { (m : MemoryState) → Backs self.old m → Backs self.new m }
    {
        let number = self.pools.len();
        self.pools.push(Some(CountedPool::new(self.alloc, info)))?;
        Ok(number as u64)
    }

    /// What a pool was made with.
    pub fn info(&self, pool: u64) -> PoolInfo
        requires { IsSome (pool_at self.now pool) }
        ensures { IfKept self.now pool (λ k. result ≡ k.pool.info) }
    {
        let Some(kept) = &self.pools[pool as usize] else {
            unreachable!()
        };
        kept.info()
    }

    /// Ends a pool in which no allocation lies.
    pub fn drop_pool(&mut self, pool: u64)
        requires live { IsSome (pool_at self.old pool) }
        requires unused { IsUnused self.old pool }
        ensures dropped { self.new ≡ record self.old { pools = set self.old.pools pool None } }
        ensures backs { (m : MemoryState) → Backs self.old m → Backs self.new m }
    {
        self.pools[pool as usize] = None;
    }

    /// Puts an allocation in a memory object of its own, and answers its number.
    pub fn dedicated(
        &mut self,
        memories: &mut Memories,
        memory_type: u32,
        asked: Asked,
    ) -> Result<u64, MemoryError>
        requires { IsRequest asked.size asked.align }
        ensures backs { Backs self.old memories.old → Backs self.new memories.new }
        ensures ok { IfOk result (λ a. IsOwn self.old self.new memories.old memories.new memory_type asked a) }
        ensures room { IsOk result → IsFull memories.old memory_type asked.size → ⊥ }
        ensures full { IsErrOf result MemoryError.NoRoom → IsFull memories.old memory_type asked.size }
        ensures err { OnErr result (self.new ≡ self.old) }
        ensures memories { OnErr result (memories.new ≡ memories.old) }
    {
        self.allocations.reserve(1)?;
        self.numbers.reserve(1)?;
        let memory = memories.allocate(memory_type, asked.size)?;
        let number = self.allocations.len();
        self.allocations.push_reserved(Some(Allocation {
            home: Home::Own { memory },
            asked,
            maps: 0,
            target: None,
        }));
        self.numbers.push_reserved(number as u64);
        self.live = self.live.saturating_add(1);
        Ok(number as u64)
    }

    /// Puts an allocation in a pool, at the upper end of its block where that is asked, and answers its
    /// number.
    pub fn allocate(
        &mut self,
        memories: &mut Memories,
        pool: u64,
        asked: Asked,
        upper: bool,
    ) -> Result<u64, MemoryError>
        requires request { IsRequest asked.size asked.align }
        requires fits { IfKept self.old pool (λ k. asked.size ≤ k.pool.info.block_size) }
        ensures backs { Backs self.old memories.old → Backs self.new memories.new }
        ensures ok { IfOk result (λ a. IsShared self.old self.new memories.old memories.new pool asked upper a) }
        ensures room { IsOk result → IfKept self.old pool (λ k. NoRoomInPool (heaps memories.old) (state_of k.pool) (request_in asked) upper → ⊥) }
        ensures no_room { IsErrOf result MemoryError.NoRoom → IfKept self.old pool (λ k. NoRoomInPool (heaps memories.old) (state_of k.pool) (request_in asked) upper) }
        ensures err { OnErr result (self.new ≡ self.old) }
        ensures memories { OnErr result (memories.new ≡ memories.old) }
    {
        self.allocations.reserve(1)?;
        self.numbers.reserve(1)?;
        let number = self.allocations.len();
        let Some(kept) = &mut self.pools[pool as usize] else {
            unreachable!()
        };
        let place = kept.allocate(self.alloc, memories, asked, upper)?;
        self.allocations.push_reserved(Some(Allocation {
            home: Home::Shared { pool, place },
            asked,
            maps: 0,
            target: None,
        }));
        self.numbers.push_reserved(number as u64);
        self.live = self.live.saturating_add(1);
        Ok(number as u64)
    }

    /// Ends an allocation for which no place is reserved, and answers the memory object that ends with
    /// it.
    fn end(&mut self, allocation: u64) -> Option<u64>
        requires { IfLive self.old allocation (λ a. a.target ≡ None) }
        ensures ended { IfLive self.old allocation (λ a. IsEnded self.old self.new allocation a.home result) }
        // What the type's invariant says.
        ensures always { ArePools self.old }
    {
        leave_ended(self.alloc, &mut self.numbers, &self.allocations, self.live);
        let Some(ended) = self.allocations[allocation as usize].take() else {
            unreachable!()
        };
        self.live = self.live.saturating_sub(1);
        match ended.home {
            Home::Own { memory } => Some(memory),
            Home::Shared { pool, place } => match &mut self.pools[pool as usize] {
                Some(kept) => kept.free(place, ended.asked),
                None => unreachable!(),
            },
        }
    }

    /// Ends an allocation for which no place is reserved, and answers the memory object that is freed
    /// with it: its own, or its block where nothing else is taken in it.
    pub fn free(&mut self, memories: &mut Memories, allocation: u64) -> Option<u64>
        requires unreserved { IfLive self.old allocation (λ a. a.target ≡ None) }
        requires backs { Backs self.old memories.old }
        ensures ended { IfLive self.old allocation (λ a. IsEnded self.old self.new allocation a.home result) }
        ensures memories { memories.new ≡ released memories.old result }
        ensures kept { Backs self.new memories.new }
    {
        let gone = self.end(allocation);
        if let Some(memory) = gone {
            memories.free(memory);
        }
        gone
    }

    /// Where an allocation lies: its memory object, and its range there.
    pub fn place(&self, allocation: u64) -> Spot
        requires { IsSome (allocation_at self.now allocation) }
        ensures { IfLive self.now allocation (λ a. IsSpotOf self.now a.home a.asked result) }
    {
        let Some(live) = &self.allocations[allocation as usize] else {
            unreachable!()
        };
        let size = live.asked.size;
        match live.home {
            Home::Own { memory } => Spot {
                memory,
                offset: 0,
                size,
            },
            Home::Shared { pool, place } => match &self.pools[pool as usize] {
                Some(kept) => Spot {
                    memory: kept.memory_of(place.block),
                    offset: place.start,
                    size,
                },
                None => unreachable!(),
            },
        }
    }

    /// Maps an allocation once more, as `vmaMapMemory`.
    pub fn map(&mut self, allocation: u64)
        requires { IfLive self.old allocation (λ a. a.maps + 1 < 2 ^ 32) }
        ensures mapped { IfLive self.old allocation (λ a. self.new ≡ with_allocation self.old allocation (record a { maps = a.maps + 1 })) }
        // The memory objects stay as they are, and so does what they are.
        ensures backs { (m : MemoryState) → Backs self.old m → Backs self.new m }
    {
        let Some(live) = &mut self.allocations[allocation as usize] else {
            unreachable!()
        };
        live.maps += 1;
    }

    /// Unmaps an allocation once, as `vmaUnmapMemory`; refused where it isn't mapped.
    pub fn unmap(&mut self, allocation: u64) -> Result<(), MapState>
        requires { IsSome (allocation_at self.old allocation) }
        ensures ok { OnOk result (IfLive self.old allocation (λ a. self.new ≡ with_allocation self.old allocation (record a { maps = a.maps - 1 }))) }
        ensures state { IfLive self.old allocation (λ a. IsOk result ↔ (0 < a.maps)) }
        ensures err { OnErr result (self.new ≡ self.old) }
        ensures backs { (m : MemoryState) → Backs self.old m → Backs self.new m }
    {
        let Some(live) = &mut self.allocations[allocation as usize] else {
            unreachable!()
        };
        if live.maps == 0 {
            return Err(MapState);
        }
        live.maps -= 1;
        Ok(())
    }

    /// Of the places that are taken for allocations in pools no two conflict: none share a byte, nor a
    /// page where one is of an optimal image.
    pub fn places_apart(&self)
        ensures { ArePlacesApart self.now }
    {
        let _pools = &self.pools;
    }

    /// What always holds of pools and allocations: the blocks of each pool are as the algorithm of the
    /// pool leaves them, and the ranges that are taken there are those of allocations, one each.
    pub fn are_pools(&self)
        ensures { ArePools self.now }
    {
        let _pools = &self.pools;
    }
}
