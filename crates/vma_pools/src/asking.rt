ghost use Rattle.std.specs.Prelude.{◌≡◌, ◌↔◌, IsSome, IsTrue};
ghost use Rattle.vma_pools.specs.State.{allocation_at, pool_at};

use crate::allocations::Allocation;
use crate::numbers::entry_at;
use crate::pools::PoolsOf;
use vma_blocks::PoolBlock;

impl<B: PoolBlock> PoolsOf<B> {
    /// Whether a pool has been made and has not ended.
    pub fn is_pool(&self, pool: u64) -> bool
        ensures { IsTrue result ↔ IsSome (pool_at self.now pool) }
    {
        match self.pools.get(pool as usize) {
            Some(kept) => kept.is_some(),
            None => false,
        }
    }

    /// An allocation as it stands, as `vmaGetAllocationInfo`; none where it has ended or was never
    /// made.
    pub fn allocation(&self, allocation: u64) -> Option<Allocation>
        ensures { result ≡ allocation_at self.now allocation }
    {
        entry_at(&self.allocations, allocation)
    }
}
