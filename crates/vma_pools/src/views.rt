ghost use Rattle.std.specs.Prelude.{◌≡◌, map, IfOk, IsSome};
ghost use Rattle.vma_pools.specs.State.{IfKept, pool_at};
ghost use Rattle.vma_pools.specs.Views.{AreBlockObjects};

use crate::blocks::Held;
use crate::pool::PoolOf;
use crate::pools::PoolsOf;
use std::alloc::{AllocError, Global};
use vma_blocks::PoolBlock;

/// A block of a pool, and the memory object that it is.
#[derive(Clone, Copy, Debug, PartialEq, Eq)]
pub struct BlockObject {
    /// The number of the block in its pool.
    pub number: u64,
    /// The number of the memory object.
    pub memory: u64,
}

/// The numbers of blocks, with their memory objects.
fn objects_of<B: PoolBlock>(
    alloc: Global,
    blocks: &[Held<B>],
) -> Result<Vec<BlockObject>, AllocError>
    ensures { IfOk result (λ found. found.items ≡ map (λ held. record { number = held.number; memory = held.memory }) blocks.now) }
{
    blocks
        .iter()
        .map(|held| BlockObject {
            number: held.number,
            memory: held.memory,
        })
        .collect(alloc)
}

impl<B: PoolBlock> PoolOf<B> {
    /// The blocks, the oldest first.
    fn block_objects(&self, alloc: Global) -> Result<Vec<BlockObject>, AllocError>
        ensures { IfOk result (λ found. AreBlockObjects self.now found.items) }
    {
        let found = objects_of(alloc, &self.blocks)?;
        Ok(found)
    }
}

impl<B: PoolBlock> PoolsOf<B> {
    /// The blocks of a pool, the oldest first. The only error is want of memory.
    pub fn blocks(&self, pool: u64) -> Result<Vec<BlockObject>, AllocError>
        requires { IsSome (pool_at self.now pool) }
        ensures { IfOk result (λ found. IfKept self.now pool (λ k. AreBlockObjects k found.items)) }
    {
        let Some(kept) = &self.pools[pool as usize] else {
            unreachable!()
        };
        kept.pool.block_objects(self.alloc)
    }
}
