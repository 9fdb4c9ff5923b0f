ghost use Rattle.std.specs.Prelude.{◌≡◌, ◌↔◌, ℕ, ◌-◌, ◌<◌, ◌≤◌, ◌==◌, [], Contains, IsTrue, Option, Some, None, IfOk, IfSome, OnOk, IsSome, IsSomeAnd, max, if◌then◌else◌};
ghost use Rattle.std.specs.List.{filter_map};
ghost use Rattle.vk_model.specs.Memory.Suballocation.{IsRequest};
ghost use Rattle.vma_blocks.specs.PoolInfos.{IsPoolInfo};
ghost use Rattle.vk_model.specs.Trace.Objects.{Resource};
ghost use Rattle.vk_memory.specs.MemoryState.{MemoryState};
ghost use Rattle.vma_pools.specs.State.{pool_at, IfKept};

use std::alloc::{AllocError, Global};
use std::collections::BTreeMap;
use std::marker::Model;
use vk_memory::{Memories, MemoryError};
use vk_model::{PoolInfo, Spot};
use vma_pools::{Asked, Pools};

/// The type of memory that the host reaches through a cache that isn't coherent (profile).
const CACHED_TYPE: u32 = 2;

/// The alignment in bytes of what lies in blocks on that type: an atom (profile).
const CACHED_ALIGN: u64 = 64;

/// A memory object that an id has of its own.
#[derive(Clone, Copy)]
pub struct Own {
    /// The number of the memory object.
    pub object: u64,
    /// The number of its allocation, where it is that of a resource: one that the trace made has
    /// none.
    pub allocation: Option<u64>,
}

/// The memory objects that ids have of their own, pools, and the allocations of resources, in pools
/// and in memory objects of their own. Memory objects are handed in to each call, which are to be
/// those of the calls before it.
#[derive(Drop)]
pub struct Backing {
    /// What an id has of its own.
    pub(crate) owned: BTreeMap<u32, Own>,
    pub(crate) pools: Pools,
    /// The number of each pool, by its id.
    pub(crate) numbers: BTreeMap<u32, u64>,
    /// The number of the allocation that a resource has in a pool.
    pub(crate) allocations: BTreeMap<u32, u64>,
}

impl Model for Backing {
    ghost use Rattle.vk_backing.specs.Backed.{Backed};

    ghost Value = { Backed };

    ghost view = { λ b. record { owned = b.owned.entries; pools = b.pools; numbers = b.numbers.entries; allocations = b.allocations.entries } };
}

ghost use Rattle.vma_pools.specs.State.{allocation_at, with_allocation, IfLive, Backs};
ghost use Rattle.vk_backing.specs.Steps.{one_more};

/// Maps an allocation once more. A count that is full stays: no trace has so many entries.
fn map_once(pools: &mut Pools, allocation: u64)
    requires { IsSome (allocation_at pools.old allocation) }
    ensures counts { IfLive pools.old allocation (λ a. pools.new ≡ with_allocation pools.old allocation (record a { maps = one_more a.maps })) }
    ensures backs { (m : MemoryState) → Backs pools.old m → Backs pools.new m }
{
    let Some(live) = pools.allocation(allocation) else {
        unreachable!()
    };
    if live.maps < u32::MAX {
        pools.map(allocation);
    }
}

/// Unmaps an allocation once. One that isn't mapped stays so: no trace that breaks no rule unmaps
/// it.
fn unmap_once(pools: &mut Pools, allocation: u64)
    requires { IsSome (allocation_at pools.old allocation) }
    ensures counts { IfLive pools.old allocation (λ a. pools.new ≡ with_allocation pools.old allocation (record a { maps = a.maps - 1 })) }
    ensures backs { (m : MemoryState) → Backs pools.old m → Backs pools.new m }
{
    let _ = pools.unmap(allocation);
}

impl Backing {
    ghost use Rattle.vk_backing.specs.Backed.{Backed, object_of, pool_of, allocation_of, mapping_of, pool_by, IsBacked, IsStill, IsWhole, LiesIn};
    ghost use Rattle.vk_backing.specs.Allotted.{allotted};
    ghost use Rattle.vk_backing.specs.Spots.{AreSpots};
    ghost use Rattle.vk_backing.specs.Steps.{Grows, OwnsOr, OwnsAlone, OwnsDedicated, OwnAllots, Maps, KeepsAllotted, MakesPool, PoolAllots, DropsPool, DropAllots, IsUnused, SharesOr, ShareAllots, Asks, Releases, ReleaseAllots};

    /// Nothing is backed. It takes no memory.
    pub fn new(alloc: Global) -> Backing
        ensures { result ≡ record { owned = []; pools = record { pools = []; allocations = [] }; numbers = []; allocations = [] } }
    {
        Backing {
            owned: BTreeMap::new(alloc),
            pools: Pools::new(alloc),
            numbers: BTreeMap::new(alloc),
            allocations: BTreeMap::new(alloc),
        }
    }

    /// The number of the memory object that an id has of its own; none where it has none.
    pub fn object(&self, id: u32) -> Option<u64>
        ensures { result ≡ object_of self.now id }
    {
        match self.owned.get(&id) {
            Some(own) => Some(own.object),
            None => None,
        }
    }

    /// The number of the allocation that is mapped with a resource; none where it has none.
    fn mapping(&self, id: u32) -> Option<u64>
        ensures { result ≡ mapping_of self.now id }
    {
        let dedicated = match self.owned.get(&id) {
            Some(own) => own.allocation,
            None => None,
        };
        match dedicated {
            Some(_) => dedicated,
            None => self.allocations.get(&id).copied(),
        }
    }

    /// The numbers of the allocations that resources have in pools, in their order; those that have
    /// none are left out. The only error is want of memory.
    pub(crate) fn numbers_of(&self, alloc: Global, ids: &[u32]) -> Result<Vec<u64>, AllocError>
        ensures { IfOk result (λ numbers. numbers.items ≡ filter_map (allocation_of self.now) ids.now) }
    {
        let mut numbers = Vec::new(alloc);
        for id in ids {
            if let Some(number) = self.allocations.get(id) {
                numbers.push(*number)?;
            }
        }
        Ok(numbers)
    }

    /// Resources have no allocations in pools any more.
    pub(crate) fn forget(&mut self, ids: &[u32])
        ensures owned { self.new.owned ≡ self.old.owned }
        ensures pools { self.new.pools ≡ self.old.pools }
        ensures numbers { self.new.numbers ≡ self.old.numbers }
        ensures gone { (i : ℕ) → Contains ids.now i → allocation_of self.new i ≡ None }
        ensures others { (i : ℕ) → (Contains ids.now i → ⊥) → allocation_of self.new i ≡ allocation_of self.old i }
    {
        for id in ids {
            self.allocations.remove(id);
        }
    }

    /// Where resources lie in pools: some bytes of live memory objects that no id has of its own, and
    /// no two share a byte.
    pub fn spots_apart(&self, memories: &Memories)
        requires { IsBacked self.now memories.now }
        ensures { AreSpots self.now memories.now }
    {
        let _backing = &self.owned;
        let _memories = memories;
    }

    /// Where a resource lies in a pool; none where it is in none.
    pub fn place(&self, id: u32) -> Option<Spot>
        requires backed { (m : MemoryState) × IsBacked self.now m }
        ensures lies { IfSome result (λ spot. (pool : ℕ) × LiesIn self.now id pool spot) }
        ensures none { result ≡ None → allocation_of self.now id ≡ None }
    {
        match self.allocations.get(&id) {
            Some(allocation) => Some(self.pools.place(*allocation)),
            None => None,
        }
    }

    /// Makes a memory object for an id, which is no resource, and answers its number; none where
    /// there is no room. The only error is want of memory.
    pub fn own(
        &mut self,
        memories: &mut Memories,
        id: u32,
        memory_type: u32,
        size: u64,
    ) -> Result<Option<u64>, AllocError>
        requires backed { IsBacked self.old memories.old }
        requires absent { object_of self.old id ≡ None }
        requires apart { allocation_of self.old id ≡ None }
        requires some { 0 < size }
        ensures backed { IsBacked self.new memories.new }
        ensures grows { Grows memories.old memories.new }
        ensures owns { IfOk result (λ o. OwnsOr o self.old self.new memories.old memories.new id memory_type size) }
        ensures alone { IfOk result (λ o. OwnsAlone o self.old self.new id) }
        ensures whole { IfOk result (λ o. IsWhole self.old → IsWhole self.new) }
        ensures allots { IfOk result (λ o. OwnAllots o (allotted self.old memories.old) (allotted self.new memories.new) id memory_type size) }
    {
        let number = match memories.allocate(memory_type, size) {
            Ok(number) => number,
            Err(MemoryError::NoRoom) => return Ok(None),
            Err(MemoryError::NoMemory) => return Err(AllocError),
        };
        let own = Own {
            object: number,
            allocation: None,
        };
        self.owned.insert(id, own)?;
        Ok(Some(number))
    }

    /// Puts a resource in a memory object of its own, and answers the number of that; none where
    /// there is no room. The only error is want of memory.
    pub fn dedicate(
        &mut self,
        memories: &mut Memories,
        id: u32,
        memory_type: u32,
        asked: Asked,
    ) -> Result<Option<u64>, AllocError>
        requires backed { IsBacked self.old memories.old }
        requires absent { object_of self.old id ≡ None }
        requires apart { allocation_of self.old id ≡ None }
        requires request { IsRequest asked.size asked.align }
        ensures backed { IsBacked self.new memories.new }
        ensures grows { Grows memories.old memories.new }
        ensures owns { IfOk result (λ o. OwnsOr o self.old self.new memories.old memories.new id memory_type asked.size) }
        ensures dedicated { IfOk result (λ o. OwnsDedicated o self.old self.new memories.old memories.new id memory_type asked) }
        ensures whole { IfOk result (λ o. IsWhole self.old → IsWhole self.new) }
        ensures allots { IfOk result (λ o. OwnAllots o (allotted self.old memories.old) (allotted self.new memories.new) id memory_type asked.size) }
    {
        let allocation = match self.pools.dedicated(memories, memory_type, asked) {
            Ok(allocation) => allocation,
            Err(MemoryError::NoRoom) => return Ok(None),
            Err(MemoryError::NoMemory) => return Err(AllocError),
        };
        self.pools.are_pools();
        let object = self.pools.place(allocation).memory;
        let own = Own {
            object,
            allocation: Some(allocation),
        };
        self.owned.insert(id, own)?;
        Ok(Some(object))
    }

    /// Makes a pool for an id. The only error is want of memory.
    pub fn pool(&mut self, id: u32, info: PoolInfo) -> Result<(), AllocError>
        requires info { IsPoolInfo info }
        requires absent { pool_of self.old id ≡ None }
        requires backed { (m : MemoryState) × IsBacked self.old m }
        ensures backed { (m : MemoryState) → IsBacked self.old m → IsBacked self.new m }
        ensures makes { OnOk result (MakesPool self.old self.new id info) }
        ensures whole { OnOk result (IsWhole self.old → IsWhole self.new) }
        ensures allots { OnOk result ((m : MemoryState) → IsBacked self.old m → PoolAllots (allotted self.old m) (allotted self.new m) id info) }
    {
        let number = self.pools.pool(info)?;
        self.pools.are_pools();
        self.numbers.insert(id, number)?;
        Ok(())
    }

    /// Ends the pool of an id, in which no resource lies.
    pub fn drop_pool(&mut self, id: u32)
        requires there { IsSome (pool_of self.old id) }
        requires whole { IsWhole self.old }
        requires unused { IsUnused self.old id }
        requires backed { (m : MemoryState) × IsBacked self.old m }
        ensures backed { (m : MemoryState) → IsBacked self.old m → IsBacked self.new m }
        ensures drops { DropsPool self.old self.new id }
        ensures whole { IsWhole self.new }
        ensures allots { (m : MemoryState) → IsBacked self.old m → DropAllots (allotted self.old m) (allotted self.new m) id }
    {
        if let Some(number) = self.numbers.remove(&id) {
            self.pools.drop_pool(number);
            self.pools.are_pools();
        }
    }

    /// The alignment in bytes that a resource gets in the blocks of a pool, where it asks for one.
    fn align_in(&self, pool: u64, align: u64) -> u64
        requires { IsSome (pool_at self.now.pools pool) }
        ensures { IfKept self.now.pools pool (λ k. result ≡ (if k.pool.info.memory_type == 2 then max 64 align else align)) }
    {
        let info = self.pools.info(pool);
        if info.memory_type == CACHED_TYPE {
            CACHED_ALIGN.max(align)
        } else {
            align
        }
    }

    /// Puts a resource in the pool of an id, at the upper end of its block where that is asked, and
    /// answers where it lies; none where there is no room. The only error is want of memory.
    pub fn share(
        &mut self,
        memories: &mut Memories,
        id: u32,
        pool: u32,
        asked: Asked,
        upper: bool,
    ) -> Result<Option<Spot>, AllocError>
        requires backed { IsBacked self.old memories.old }
        requires absent { allocation_of self.old id ≡ None }
        requires apart { object_of self.old id ≡ None }
        requires request { IsRequest asked.size asked.align }
        requires fits { IsSomeAnd (pool_by self.old pool) (λ k. asked.size ≤ k.pool.info.block_size) }
        ensures backed { IsBacked self.new memories.new }
        ensures grows { Grows memories.old memories.new }
        ensures shares { IfOk result (λ o. SharesOr o self.old self.new memories.old memories.new id pool asked upper) }
        ensures whole { IfOk result (λ o. IsWhole self.old → IsWhole self.new) }
        ensures allots { IfOk result (λ o. (r : Resource) → Asks r asked → ShareAllots o (allotted self.old memories.old) (allotted self.new memories.new) id pool r upper) }
    {
        let Some(number) = self.numbers.get(&pool).copied() else {
            unreachable!()
        };
        let align = self.align_in(number, asked.align);
        let allocation = match self
            .pools
            .allocate(memories, number, Asked { align, ..asked }, upper)
        {
            Ok(allocation) => allocation,
            Err(MemoryError::NoRoom) => return Ok(None),
            Err(MemoryError::NoMemory) => return Err(AllocError),
        };
        self.pools.are_pools();
        self.allocations.insert(id, allocation)?;
        Ok(Some(self.pools.place(allocation)))
    }

    /// Ends what backs an id: its memory object, with the allocation that it is of, or its
    /// allocation in a pool; and answers the memory object that is freed with it, its own or that
    /// of a block that held nothing else.
    pub fn release(&mut self, memories: &mut Memories, id: u32) -> Option<u64>
        requires backed { IsBacked self.old memories.old }
        requires still { IsStill self.old id }
        ensures backed { IsBacked self.new memories.new }
        ensures releases { Releases self.old self.new memories.old memories.new id result }
        ensures whole { IsWhole self.old → IsWhole self.new }
        ensures allots { ReleaseAllots (allotted self.old memories.old) (allotted self.new memories.new) id }
    {
        if let Some(own) = self.owned.remove(&id) {
            let Some(dedicated) = own.allocation else {
                memories.free(own.object);
                return Some(own.object);
            };
            let freed = self.pools.free(memories, dedicated);
            self.pools.are_pools();
            return freed;
        }
        let allocation = self.allocations.remove(&id)?;
        let gone = self.pools.free(memories, allocation);
        self.pools.are_pools();
        gone
    }

    /// Maps the allocation of a resource once more, and answers whether it has one.
    pub fn map(&mut self, id: u32) -> bool
        requires backed { (m : MemoryState) × IsBacked self.old m }
        ensures has { IsTrue result ↔ IsSome (mapping_of self.old id) }
        ensures maps { Maps self.old self.new id one_more }
        ensures backed { (m : MemoryState) → IsBacked self.old m → IsBacked self.new m }
        ensures whole { IsWhole self.old → IsWhole self.new }
        ensures allots { (m : MemoryState) → IsBacked self.old m → KeepsAllotted (allotted self.old m) (allotted self.new m) }
    {
        let Some(allocation) = self.mapping(id) else {
            return false;
        };
        map_once(&mut self.pools, allocation);
        self.pools.are_pools();
        true
    }

    /// Unmaps the allocation of a resource once, where it is mapped, and answers whether it has
    /// one.
    pub fn unmap(&mut self, id: u32) -> bool
        requires backed { (m : MemoryState) × IsBacked self.old m }
        ensures has { IsTrue result ↔ IsSome (mapping_of self.old id) }
        ensures maps { Maps self.old self.new id (λ n. n - 1) }
        ensures backed { (m : MemoryState) → IsBacked self.old m → IsBacked self.new m }
        ensures whole { IsWhole self.old → IsWhole self.new }
        ensures allots { (m : MemoryState) → IsBacked self.old m → KeepsAllotted (allotted self.old m) (allotted self.new m) }
    {
        let Some(allocation) = self.mapping(id) else {
            return false;
        };
        unmap_once(&mut self.pools, allocation);
        self.pools.are_pools();
        true
    }
}
