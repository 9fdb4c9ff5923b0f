ghost use Rattle.std.specs.Prelude.{◌≡◌, ◌-◌, IfOk, OnOk, None, IsSome, true, false};
ghost use Rattle.vma_blocks.specs.PoolInfos.{IsPoolInfo};
ghost use Rattle.vk_model.specs.Memory.Suballocation.{IsRequest};

use crate::resources::Resources;
use std::alloc::AllocError;
use vk_model::PoolInfo;
use vma_pools::Asked;

impl Resources {
    ghost use Rattle.vk_resources.specs.Held.{IsConsistent, object_of};
    ghost use Rattle.vk_resources.specs.Inner.Steps.{MadeOr, PoolMade, PoolDropped, Remaps};
    ghost use Rattle.vk_backing.specs.Backed.{allocation_of, pool_of, IsWhole};
    ghost use Rattle.vk_backing.specs.Steps.{IsUnused, one_more};

    /// Puts a resource in a memory object of its own, and answers the number of that; none where
    /// there is no room.
    pub(crate) fn dedicate(
        &mut self,
        id: u32,
        memory_type: u32,
        asked: Asked,
    ) -> Result<Option<u64>, AllocError>
        requires absent { object_of self.old id ≡ None }
        requires apart { allocation_of self.old.backed id ≡ None }
        requires request { IsRequest asked.size asked.align }
        ensures made { IfOk result (λ o. MadeOr o self.old self.new id memory_type asked.size) }
        ensures consistent { IsConsistent self.old }
    {
        self.backing
            .dedicate(&mut self.memories, id, memory_type, asked)
    }

    /// Makes a pool for an id.
    pub(crate) fn make_pool(&mut self, id: u32, info: PoolInfo) -> Result<(), AllocError>
        requires info { IsPoolInfo info }
        // What the type's invariant says may be used to show it.
        requires absent { IsConsistent self.old → pool_of self.old.backed id ≡ None }
        ensures made { OnOk result (PoolMade self.old self.new id info) }
        ensures consistent { IsConsistent self.old }
    {
        self.backing.pool(id, info)
    }

    /// Ends the pool of an id, in which nothing lies.
    pub(crate) fn drop_pool(&mut self, id: u32)
        requires there { IsSome (pool_of self.old.backed id) }
        requires whole { IsWhole self.old.backed }
        // What the type's invariant says may be used to show it.
        requires unused { IsConsistent self.old → IsUnused self.old.backed id }
        ensures dropped { PoolDropped self.old self.new id }
        ensures consistent { IsConsistent self.old }
    {
        self.backing.drop_pool(id)
    }

    /// Maps the allocation of a resource once more, or the memory object that it is bound to.
    pub(crate) fn map(&mut self, id: u32)
        ensures { Remaps self.old self.new id one_more true }
    {
        if self.backing.map(id) {
            return;
        }
        if let Some(placed) = self.resources.get(&id) {
            // A trace that breaks no rule maps no memory object twice: it would stay mapped.
            let _ = self.memories.map(placed.object);
        }
    }

    /// Unmaps the allocation of a resource once, or the memory object that it is bound to.
    pub(crate) fn unmap(&mut self, id: u32)
        ensures { Remaps self.old self.new id (λ n. n - 1) false }
    {
        if self.backing.unmap(id) {
            return;
        }
        if let Some(placed) = self.resources.get(&id) {
            // A trace that breaks no rule unmaps what is mapped: it would stay as it is.
            let _ = self.memories.unmap(placed.object);
        }
    }
}
