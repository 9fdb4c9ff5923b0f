ghost use Rattle.std.specs.Prelude.{◌≡◌, [], ◌+◌, ◌*◌, ◌<◌, ◌≤◌, ◌^◌, Any, MatchOption, IfNone, IfSome, IfOk, IsOk, IsTrue, OnErr, IsErrOf};
ghost use Rattle.vk_model.specs.Memory.Suballocation.{IsRequest};
ghost use Rattle.vk_model.specs.Memory.Room.{NoRoomInPool};
ghost use Rattle.vk_model.specs.Memory.Pools.{AreStatistics, empty_pool, numbered_blocks, pool_without, state_of};
ghost use Rattle.vma_pools.specs.Pools.{HasNoTarget, HasTarget, IsMemoryOf, KeepsBlocks, Loses, Takes, TakesTarget, heaps};
ghost use Rattle.vma_pools.specs.Ranges.{HasRange};
ghost use Rattle.vma_pools.specs.Exhausted.{IsExhausted};
ghost use Rattle.vma_pools.specs.State.{range_at, request_in, start_of};
ghost use Rattle.vma_blocks.specs.PoolInfos.{IsPoolInfo};
ghost use Rattle.vma_pools.specs.Alike.{IsAlikePool};

use crate::allocations::Asked;
use crate::pool::{PoolOf, PoolPlace};
use std::alloc::{AllocError, Global};
use std::marker::Model;
use vk_memory::{Memories, MemoryError};
use vk_model::{PoolInfo, PoolKind, Statistics};
use vma_blocks::PoolBlock;

/// A pool, and how much of its blocks is taken, so that no call has to count it. A pool that would
/// pass what can be counted, 2^64 bytes, answers that there is no memory.
#[derive(Drop)]
pub(crate) struct CountedPool<B: PoolBlock> {
    pub(crate) pool: PoolOf<B>,
    /// How many ranges are taken; one that is reserved counts.
    ranges: usize,
    /// The bytes of these ranges.
    bytes: u64,
}

impl<B: PoolBlock> Model for CountedPool<B> {
    ghost use Rattle.vma_pools.specs.Inner.Counts.{IsCounted};
    ghost use Rattle.vma_pools.specs.Pools.{Kept};

    ghost Value = { Kept };

    ghost view = { λ c. c.pool };

    ghost invariant = { λ c. IsCounted c.pool.pool c.ranges c.bytes };
}

/// Whether one more range of so many bytes can be counted.
fn can_count_range(ranges: usize, used: u64, bytes: u64) -> bool
    ensures { IsTrue result → (ranges + 1 < 2 ^ 64) × (used + bytes < 2 ^ 64) }
{
    ranges < usize::MAX && bytes <= u64::MAX - used
}

/// Whether the bytes of one more block can be counted.
fn can_count_block(blocks: u64, block_size: u64) -> bool
    requires { 0 < block_size }
    ensures { IsTrue result → (blocks + 1) * block_size < 2 ^ 64 }
{
    blocks < u64::MAX / block_size
}

impl<B: PoolBlock> CountedPool<B> {
    /// A pool without blocks.
    pub(crate) fn new(alloc: Global, info: PoolInfo) -> CountedPool<B>
        requires { IsPoolInfo info }
        ensures { result ≡ record { pool = empty_pool info; memories = [] } }
    {
        CountedPool {
            pool: PoolOf::new(alloc, info),
            ranges: 0,
            bytes: 0,
        }
    }

    /// What the pool was made with.
    pub(crate) fn info(&self) -> PoolInfo
        ensures { result ≡ self.now.pool.info }
    {
        self.pool.info()
    }

    /// Takes a range of the first block that holds the request, or of a new one where none does.
    pub(crate) fn allocate(
        &mut self,
        alloc: Global,
        memories: &mut Memories,
        asked: Asked,
        upper: bool,
    ) -> Result<PoolPlace, MemoryError>
        requires request { IsRequest asked.size asked.align }
        requires fits { asked.size ≤ self.old.pool.info.block_size }
        requires numbers { self.old.pool.next < 2 ^ 63 }
        ensures ok { IfOk result (λ s. Takes self.old self.new memories.old memories.new (request_in asked) upper (record { block = s.block; start = s.start })) }
        ensures room { IsOk result → NoRoomInPool (heaps memories.old) (state_of self.old.pool) (request_in asked) upper → ⊥ }
        ensures no_room { IsErrOf result MemoryError.NoRoom → NoRoomInPool (heaps memories.old) (state_of self.old.pool) (request_in asked) upper }
        ensures pool { OnErr result (self.new ≡ self.old) }
        ensures memories { OnErr result (memories.new ≡ memories.old) }
    {
        self.pool.is_kept();
        let block_size = self.pool.info().block_size;
        if !can_count_range(self.ranges, self.bytes, asked.size)
            || !can_count_block(self.pool.blocks(), block_size)
        {
            return Err(MemoryError::NoMemory);
        }
        let place = self.pool.allocate(
            alloc,
            memories,
            asked.size,
            asked.align,
            asked.kind,
            upper,
        )?;
        self.ranges += 1;
        self.bytes += asked.size;
        Ok(place)
    }

    /// Gives back a range, and answers the memory object of its block where that has gone, since
    /// nothing is left of it.
    pub(crate) fn free(&mut self, place: PoolPlace, asked: Asked) -> Option<u64>
        requires { HasRange self.old.pool place.block (range_at place.start asked) }
        ensures pool { IsAlikePool (pool_without self.old.pool (record { block = place.block; start = place.start })) self.new.pool }
        ensures kept { IfNone result (self.new.memories ≡ self.old.memories) }
        ensures gone { IfSome result (λ memory. Loses self.old.memories self.new.memories memory) }
        ensures blocks { KeepsBlocks result place.block self.old self.new }
    {
        self.pool.is_kept();
        let gone = self.pool.free(place);
        self.ranges -= 1;
        self.bytes -= asked.size;
        gone
    }

    /// Takes the move target of what is at a place: the lowest place of the first earlier block
    /// that holds it, else the lowest of its own block that ends at or below its start; none where
    /// there is no such place. The search begins at `low`, below which it fits nowhere. The only
    /// error is want of memory.
    pub(crate) fn take_lower(
        &mut self,
        from: PoolPlace,
        low: PoolPlace,
        asked: Asked,
    ) -> Result<Option<PoolPlace>, AllocError>
        requires request { IsRequest asked.size asked.align }
        requires general { self.old.pool.info.kind ≡ PoolKind.Tlsf }
        requires inside { from.start + asked.size ≤ self.old.pool.info.block_size }
        requires low { IsExhausted self.old.pool (start_of low) (request_in asked) }
        ensures ok { IfOk result (λ o. MatchOption o
            (HasNoTarget self.old.pool (record { block = from.block; start = from.start }) (request_in asked) × (self.new ≡ self.old))
            (λ s. TakesTarget self.old self.new (record { block = from.block; start = from.start }) (request_in asked) (record { block = s.block; start = s.start }))) }
        ensures err { OnErr result (self.new ≡ self.old) }
    {
        self.pool.is_kept();
        if !can_count_range(self.ranges, self.bytes, asked.size) {
            return Err(AllocError);
        }
        let Some(lower) = self
            .pool
            .take_lower(from, low, asked.size, asked.align, asked.kind)?
        else {
            return Ok(None);
        };
        self.ranges += 1;
        self.bytes += asked.size;
        Ok(Some(lower))
    }

    /// The move target of what is at a place, of which nothing is taken; none where there is none. The
    /// search begins at `low`, below which it fits nowhere.
    pub(crate) fn lower_place(
        &self,
        from: PoolPlace,
        low: PoolPlace,
        asked: Asked,
    ) -> Option<PoolPlace>
        requires request { IsRequest asked.size asked.align }
        requires general { self.now.pool.info.kind ≡ PoolKind.Tlsf }
        requires inside { from.start + asked.size ≤ self.now.pool.info.block_size }
        requires low { IsExhausted self.now.pool (start_of low) (request_in asked) }
        ensures { MatchOption result
            (HasNoTarget self.now.pool (record { block = from.block; start = from.start }) (request_in asked))
            (λ s. HasTarget self.now.pool (record { block = from.block; start = from.start }) (request_in asked) (record { block = s.block; start = s.start })) }
    {
        self.pool.is_kept();
        self.pool
            .lower_place(from, low, asked.size, asked.align, asked.kind)
    }

    /// How much of the pool's memory is in use.
    pub(crate) fn stats(&self) -> Statistics
        ensures { AreStatistics (numbered_blocks self.now.pool.blocks) result }
    {
        self.pool.is_kept();
        let blocks = self.pool.blocks();
        Statistics {
            blocks: blocks as usize,
            allocations: self.ranges,
            used: self.bytes,
            held: blocks * self.pool.info().block_size,
            largest_free: self.pool.largest_free(),
        }
    }

    /// The number of the memory object that the block of a number is.
    pub(crate) fn memory_of(&self, number: u64) -> u64
        requires { Any (λ b. b.number ≡ number) self.now.pool.blocks }
        ensures { IsMemoryOf self.now number result }
    {
        self.pool.memory_of(number)
    }
}
