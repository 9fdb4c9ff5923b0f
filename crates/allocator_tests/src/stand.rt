//! Pools over two heaps, and what tests do with them.

ghost use Rattle.std.specs.Prelude.{◌≡◌, IfOk};
ghost use Rattle.vk_model.specs.Memory.Suballocation.{IsRequest};
ghost use Rattle.vma_blocks.specs.PoolInfos.{IsPoolInfo};
ghost use Rattle.vma_pools.specs.State.{Backs};

use std::alloc::{AllocError, Global};
use vk_memory::{MapState, Memories, MemoryError};
use vk_model::{Config, Kind, PoolInfo, PoolKind, Statistics};
use vma_pools::{Allocation, Asked, Home, PoolPlace, Pools};

/// Pools, over two heaps of 65,536 bytes.
#[derive(Drop)]
pub struct Stand {
    /// The pools.
    pub pools: Pools,
    /// The memory that their blocks are made of.
    pub memories: Memories,
}

/// One pool of blocks of so many bytes, which can be defragmented.
pub fn one_pool(
    alloc: Global,
    memory_type: u32,
    block_size: u64,
    block_limit: u32,
) -> Result<Stand, &'static str>
    requires { IsPoolInfo (record { kind = PoolKind.Tlsf; memory_type = memory_type; block_size = block_size; block_limit = block_limit }) }
    ensures { IfOk result (λ s. Backs s.pools s.memories) }
{
    let config = Config::new(65536, 65536).ok_or("no heap")?;
    let mut pools = Pools::new(alloc);
    let info = PoolInfo {
        kind: PoolKind::Tlsf,
        memory_type,
        block_size,
        block_limit,
    };
    match pools.pool(info) {
        Ok(_) => Ok(Stand {
            pools,
            memories: Memories::new(alloc, config),
        }),
        Err(AllocError) => Err("no memory"),
    }
}

/// Puts an allocation in the pool.
pub fn put(stand: &mut Stand, size: u64, align: u64, kind: Kind) -> Result<u64, MemoryError>
    requires request { IsRequest size align }
    requires backs { Backs stand.old.pools stand.old.memories }
    ensures { Backs stand.new.pools stand.new.memories }
{
    if !stand.pools.is_pool(0) || stand.pools.info(0).block_size < size {
        return Err(MemoryError::NoRoom);
    }
    let asked = Asked { size, align, kind };
    stand.pools.allocate(&mut stand.memories, 0, asked, false)
}

/// Ends an allocation that is at rest.
pub fn end(stand: &mut Stand, allocation: u64) -> Result<Option<u64>, &'static str>
    requires { Backs stand.old.pools stand.old.memories }
    ensures { Backs stand.new.pools stand.new.memories }
{
    match stand.pools.allocation(allocation) {
        Some(Allocation { target: None, .. }) => {
            Ok(stand.pools.free(&mut stand.memories, allocation))
        }
        _ => Err("not at rest"),
    }
}

/// Reserves the move target of an allocation.
pub fn reserve(stand: &mut Stand, allocation: u64) -> Result<Option<PoolPlace>, &'static str>
    requires { Backs stand.old.pools stand.old.memories }
    ensures { Backs stand.new.pools stand.new.memories }
{
    let Some(live) = stand.pools.allocation(allocation) else {
        return Err("no allocation");
    };
    let Home::Shared { pool, .. } = live.home else {
        return Err("not in a pool");
    };
    if live.target.is_some() || !stand.pools.is_pool(pool) {
        return Err("moves");
    }
    match stand.pools.info(pool).kind {
        PoolKind::Tlsf => {}
        PoolKind::Linear => return Err("in a linear pool"),
    }
    let start = PoolPlace { block: 0, start: 0 };
    match stand.pools.reserve_lower(allocation, start) {
        Ok(target) => Ok(target),
        Err(AllocError) => Err("no memory"),
    }
}

/// Cancels the move of an allocation.
pub fn cancel(stand: &mut Stand, allocation: u64) -> Result<Option<u64>, &'static str>
    requires { Backs stand.old.pools stand.old.memories }
    ensures { Backs stand.new.pools stand.new.memories }
{
    match stand.pools.allocation(allocation) {
        Some(
            Allocation {
                home: Home::Shared { .. },
                target: Some(_),
                ..
            },
        ) => Ok(stand.pools.cancel(&mut stand.memories, allocation)),
        _ => Err("no move"),
    }
}

/// Makes the move of an allocation.
pub fn rebind(stand: &mut Stand, allocation: u64) -> Result<Option<u64>, &'static str>
    requires { Backs stand.old.pools stand.old.memories }
    ensures { Backs stand.new.pools stand.new.memories }
{
    match stand.pools.allocation(allocation) {
        Some(
            Allocation {
                home: Home::Shared { .. },
                target: Some(_),
                ..
            },
        ) => Ok(stand.pools.rebind(&mut stand.memories, allocation)),
        _ => Err("no move"),
    }
}

/// The memory object of an allocation, and where it starts there.
pub fn spot(stand: &Stand, allocation: u64) -> Option<(u64, u64)> {
    match stand.pools.allocation(allocation) {
        Some(_) => {
            let spot = stand.pools.place(allocation);
            Some((spot.memory, spot.offset))
        }
        None => None,
    }
}

/// How much of the pool is in use.
pub fn stats(stand: &Stand) -> Option<Statistics> {
    if stand.pools.is_pool(0) {
        Some(stand.pools.stats(0))
    } else {
        None
    }
}

/// Puts so many allocations of 1,024 bytes.
pub fn fill(stand: &mut Stand, count: u64) -> Result<(), &'static str>
    requires { Backs stand.old.pools stand.old.memories }
    ensures { Backs stand.new.pools stand.new.memories }
{
    for _number in 0..count {
        if put(stand, 1024, 16, Kind::Linear).is_err() {
            return Err("no room");
        }
    }
    Ok(())
}

/// Maps an allocation once more.
pub fn map(stand: &mut Stand, allocation: u64) -> bool {
    match stand.pools.allocation(allocation) {
        Some(live) if live.maps < 2 => {
            stand.pools.map(allocation);
            true
        }
        _ => false,
    }
}

/// Unmaps an allocation once.
pub fn unmap(stand: &mut Stand, allocation: u64) -> Option<Result<(), MapState>> {
    match stand.pools.allocation(allocation) {
        Some(_) => Some(stand.pools.unmap(allocation)),
        None => None,
    }
}
