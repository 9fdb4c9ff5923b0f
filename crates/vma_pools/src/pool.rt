ghost use Rattle.std.specs.Prelude.{◌≡◌, [], ◌<◌, ◌≤◌, ◌^◌, nat_le, length, ◌+◌, All, Any, MatchOption, IfNone, IfSome, IfOk, IsOk, OnErr, IsErrOf};
ghost use Rattle.vk_model.specs.Memory.Suballocation.{IsRequest};
ghost use Rattle.vk_model.specs.Memory.Room.{BlockHolds, NoRoomInPool};
ghost use Rattle.vk_model.specs.Memory.Pools.{IsLargestIn, empty_pool, numbered_blocks, pool_without, state_of};
ghost use Rattle.vma_pools.specs.Pools.{HasNoTarget, HasTarget, HasTaken, IsMemoryOf, KeepsBlocks, Loses, TakesTarget, TakesOld, TakesNew};
ghost use Rattle.vma_pools.specs.Pools.{Takes, heaps};
ghost use Rattle.vma_pools.specs.Exhausted.{IsExhausted};
ghost use Rattle.vk_memory.specs.MemoryState.{IsFull};
ghost use Rattle.vma_blocks.specs.PoolInfos.{IsPoolInfo};
ghost use Rattle.vma_pools.specs.Alike.{IsAlikePool};

use crate::blocks::{Held, begin_block, index_of, largest_in, take_in};
use crate::lower::{Mover, place_below, take_below};
use std::alloc::{AllocError, Global};
use std::marker::Model;
use vk_memory::{Memories, MemoryError};
use vk_model::{Kind, PoolInfo, PoolKind, SubFault, blocks_give};
use vma_blocks::PoolBlock;

/// A place in a pool.
#[derive(Clone, Copy, Debug, PartialEq, Eq)]
pub struct PoolPlace {
    /// The number of the block.
    pub block: u64,
    /// Where it starts there, in bytes.
    pub start: u64,
}

/// A pool: its blocks by rising number, each a memory object.
#[derive(Drop)]
pub(crate) struct PoolOf<B: PoolBlock> {
    info: PoolInfo,
    pub(crate) blocks: Vec<Held<B>>,
    next: u64,
}

impl<B: PoolBlock> Model for PoolOf<B> {
    ghost use Rattle.vma_pools.specs.Inner.Kinds.{IsKeptPool};
    ghost use Rattle.vma_pools.specs.Pools.{Kept};

    ghost Value = { Kept };

    ghost use Rattle.vma_pools.specs.Inner.Walk.{kept_of};

    ghost view = { λ p. kept_of B.block p.info p.blocks.items p.next };

    ghost invariant = { λ p. IsKeptPool (kept_of B.block p.info p.blocks.items p.next).pool };
}

impl<B: PoolBlock> PoolOf<B> {
    ghost use Rattle.vma_pools.specs.Inner.Kinds.{IsKeptPool};

    /// A pool without blocks.
    pub(crate) fn new(alloc: Global, info: PoolInfo) -> PoolOf<B>
        requires { IsPoolInfo info }
        ensures { result ≡ record { pool = empty_pool info; memories = [] } }
    {
        PoolOf {
            info,
            blocks: Vec::new(alloc),
            next: 0,
        }
    }

    /// What the pool was made with.
    pub(crate) fn info(&self) -> PoolInfo
        ensures { result ≡ self.now.pool.info }
    {
        self.info
    }

    /// What always holds of a pool that is kept.
    pub(crate) fn is_kept(&self)
        ensures { IsKeptPool self.now.pool }
    {
        let _blocks = &self.blocks;
    }

    /// Takes a range of the first block that holds the request.
    pub(crate) fn take(
        &mut self,
        bytes: u64,
        align: u64,
        kind: Kind,
        upper: bool,
    ) -> Result<PoolPlace, SubFault>
        requires { IsRequest bytes align }
        ensures ok { IfOk result (λ s. TakesOld self.old self.new (record { size = bytes; align = align; kind = kind }) upper (record { block = s.block; start = s.start })) }
        ensures no_room { IsErrOf result SubFault.NoRoom → All (λ b. BlockHolds b.block (record { size = bytes; align = align; kind = kind }) upper → ⊥) self.old.pool.blocks }
        ensures err { OnErr result (self.new ≡ self.old) }
    {
        let (index, start) = take_in(&mut self.blocks, bytes, align, kind, upper)?;
        let block = self.blocks[index].number;
        Ok(PoolPlace { block, start })
    }
    /// Takes a range of a new block, where no block holds the request.
    pub(crate) fn take_new(
        &mut self,
        alloc: Global,
        memories: &mut Memories,
        bytes: u64,
        align: u64,
        kind: Kind,
        upper: bool,
    ) -> Result<PoolPlace, MemoryError>
        requires request { IsRequest bytes align }
        requires fits { bytes ≤ self.old.pool.info.block_size }
        requires none { All (λ b. BlockHolds b.block (record { size = bytes; align = align; kind = kind }) upper → ⊥) self.old.pool.blocks }
        requires numbers { self.old.pool.next < 2 ^ 63 }
        ensures ok { IfOk result (λ s. TakesNew self.old self.new memories.old memories.new (record { size = bytes; align = align; kind = kind }) upper (record { block = s.block; start = s.start })) }
        ensures room { IsOk result → IsFull memories.old self.old.pool.info.memory_type self.old.pool.info.block_size → ⊥ }
        ensures full { IsErrOf result MemoryError.NoRoom → IsFull memories.old self.old.pool.info.memory_type self.old.pool.info.block_size }
        ensures pool { OnErr result (self.new ≡ self.old) }
        ensures memories { OnErr result (memories.new ≡ memories.old) }
    {
        self.blocks.reserve(1)?;
        let fresh = begin_block::<B>(alloc, self.info, bytes, align, kind, upper)?;
        let memory = memories.allocate(self.info.memory_type, self.info.block_size)?;
        let block = self.next;
        self.blocks.push_reserved(Held {
            number: block,
            memory,
            block: fresh.block,
        });
        self.next += 1;
        Ok(PoolPlace {
            block,
            start: fresh.start,
        })
    }
    /// Whether the pool has as many blocks as it may have.
    fn is_at_limit(&self) -> bool
        ensures { result ≡ nat_le self.now.pool.info.block_limit (length self.now.pool.blocks) }
    {
        self.info.block_limit as usize <= self.blocks.len()
    }

    /// Takes a range of the first block that holds the request, or of a new one where none does.
    pub(crate) fn allocate(
        &mut self,
        alloc: Global,
        memories: &mut Memories,
        bytes: u64,
        align: u64,
        kind: Kind,
        upper: bool,
    ) -> Result<PoolPlace, MemoryError>
        requires request { IsRequest bytes align }
        requires fits { bytes ≤ self.old.pool.info.block_size }
        requires numbers { self.old.pool.next < 2 ^ 63 }
        ensures ok { IfOk result (λ s. Takes self.old self.new memories.old memories.new (record { size = bytes; align = align; kind = kind }) upper (record { block = s.block; start = s.start })) }
        ensures room { IsOk result → NoRoomInPool (heaps memories.old) (state_of self.old.pool) (record { size = bytes; align = align; kind = kind }) upper → ⊥ }
        ensures no_room { IsErrOf result MemoryError.NoRoom → NoRoomInPool (heaps memories.old) (state_of self.old.pool) (record { size = bytes; align = align; kind = kind }) upper }
        ensures pool { OnErr result (self.new ≡ self.old) }
        ensures memories { OnErr result (memories.new ≡ memories.old) }
    {
        blocks_give();
        match self.take(bytes, align, kind, upper) {
            Ok(place) => Ok(place),
            Err(SubFault::NoMemory) => Err(MemoryError::NoMemory),
            Err(SubFault::NoRoom) => {
                if self.is_at_limit() {
                    return Err(MemoryError::NoRoom);
                }
                self.take_new(alloc, memories, bytes, align, kind, upper)
            }
        }
    }
    /// Gives back a range, and answers the memory object of its block where that has gone, since
    /// nothing is left of it.
    pub(crate) fn free(&mut self, place: PoolPlace) -> Option<u64>
        requires { HasTaken self.old.pool (record { block = place.block; start = place.start }) }
        ensures pool { IsAlikePool (pool_without self.old.pool (record { block = place.block; start = place.start })) self.new.pool }
        ensures kept { IfNone result (self.new.memories ≡ self.old.memories) }
        ensures gone { IfSome result (λ memory. Loses self.old.memories self.new.memories memory) }
        ensures blocks { KeepsBlocks result place.block self.old self.new }
    {
        let index = index_of(&self.blocks, place.block);
        let held = &mut self.blocks[index];
        held.block.free(place.start);
        if !held.block.is_empty() {
            return None;
        }
        let gone = self.blocks.remove(index);
        Some(gone.memory)
    }

    /// Takes the move target of what is at a place: the lowest place of the first earlier block
    /// that holds it, else the lowest of its own block that ends at or below its start; none where
    /// there is no such place. The search begins at `low`, below which it fits nowhere. The only
    /// error is want of memory.
    pub(crate) fn take_lower(
        &mut self,
        from: PoolPlace,
        low: PoolPlace,
        bytes: u64,
        align: u64,
        kind: Kind,
    ) -> Result<Option<PoolPlace>, AllocError>
        requires request { IsRequest bytes align }
        requires general { self.old.pool.info.kind ≡ PoolKind.Tlsf }
        requires inside { from.start + bytes ≤ self.old.pool.info.block_size }
        requires low { IsExhausted self.old.pool (record { block = low.block; start = low.start }) (record { size = bytes; align = align; kind = kind }) }
        ensures ok { IfOk result (λ o. MatchOption o
            (HasNoTarget self.old.pool (record { block = from.block; start = from.start }) (record { size = bytes; align = align; kind = kind }) × (self.new ≡ self.old))
            (λ s. TakesTarget self.old self.new (record { block = from.block; start = from.start }) (record { size = bytes; align = align; kind = kind }) (record { block = s.block; start = s.start }))) }
        ensures err { OnErr result (self.new ≡ self.old) }
    {
        let mover = Mover {
            block: from.block,
            start: from.start,
            bytes,
            align,
            kind,
        };
        let size = self.info.block_size;
        let (index, start) = match take_below(&mut self.blocks, size, mover, low)? {
            Some(lower) => lower,
            None => return Ok(None),
        };
        Ok(Some(PoolPlace {
            block: self.blocks[index].number,
            start,
        }))
    }

    /// The move target of what is at a place, of which nothing is taken; none where there is none. The
    /// search begins at `low`, below which it fits nowhere.
    pub(crate) fn lower_place(
        &self,
        from: PoolPlace,
        low: PoolPlace,
        bytes: u64,
        align: u64,
        kind: Kind,
    ) -> Option<PoolPlace>
        requires request { IsRequest bytes align }
        requires general { self.now.pool.info.kind ≡ PoolKind.Tlsf }
        requires inside { from.start + bytes ≤ self.now.pool.info.block_size }
        requires low { IsExhausted self.now.pool (record { block = low.block; start = low.start }) (record { size = bytes; align = align; kind = kind }) }
        ensures { MatchOption result
            (HasNoTarget self.now.pool (record { block = from.block; start = from.start }) (record { size = bytes; align = align; kind = kind }))
            (λ s. HasTarget self.now.pool (record { block = from.block; start = from.start }) (record { size = bytes; align = align; kind = kind }) (record { block = s.block; start = s.start })) }
    {
        let mover = Mover {
            block: from.block,
            start: from.start,
            bytes,
            align,
            kind,
        };
        let size = self.info.block_size;
        let (index, start) = match place_below(&self.blocks, size, mover, low) {
            Some(lower) => lower,
            None => return None,
        };
        Some(PoolPlace {
            block: self.blocks[index].number,
            start,
        })
    }

    /// The length in bytes of the longest free range of a block; 0 where there is no block.
    pub(crate) fn largest_free(&self) -> u64
        ensures { IsLargestIn (numbered_blocks self.now.pool.blocks) result }
    {
        largest_in(&self.blocks)
    }

    /// How many blocks there are.
    pub(crate) fn blocks(&self) -> u64
        ensures { result ≡ length self.now.pool.blocks }
    {
        self.blocks.len() as u64
    }

    /// The number of the memory object that the block of a number is.
    pub(crate) fn memory_of(&self, number: u64) -> u64
        requires { Any (λ b. b.number ≡ number) self.now.pool.blocks }
        ensures { IsMemoryOf self.now number result }
    {
        self.blocks[index_of(&self.blocks, number)].memory
    }
}
