ghost use Rattle.std.specs.Prelude.{◌≡◌};

use crate::backing::{Backing, Own};
use crate::passes::Passes;
use std::collections::BTreeMap;
use vma_pools::Pools;

impl Backing {
    /// The memory object that each id has of its own, by the ids.
    pub fn owned(&self) -> &BTreeMap<u32, Own>
        ensures { result.now.entries ≡ self.now.owned }
    {
        &self.owned
    }

    /// The pools, and all allocations.
    pub fn pools(&self) -> &Pools
        ensures { result.now ≡ self.now.pools }
    {
        &self.pools
    }

    /// The number of each pool, by its id.
    pub fn pool_numbers(&self) -> &BTreeMap<u32, u64>
        ensures { result.now.entries ≡ self.now.numbers }
    {
        &self.numbers
    }

    /// The number of the allocation that each resource of a pool has, by the resource's id.
    pub fn allocation_numbers(&self) -> &BTreeMap<u32, u64>
        ensures { result.now.entries ≡ self.now.allocations }
    {
        &self.allocations
    }
}

impl Passes {
    /// The id of the defragmentation whose pass is open; none where no pass is.
    pub fn opened(&self) -> Option<u32>
        ensures { result ≡ self.now.opened }
    {
        self.opened
    }
}
