ghost use Rattle.std.specs.Prelude.{◌≡◌, ◌==◌, ℕ, min, Some, Contains};
ghost use Rattle.std.specs.List.{list_any};
ghost use Rattle.vk_model.specs.Basics.{holds};
ghost use Rattle.vk_model.specs.Trace.Objects.{Resource, live_resources, memory_of, pool_of};
ghost use Rattle.vk_model.specs.Rules.Binding as binding;
ghost use Rattle.vk_model.specs.Rules.Passes as passes;
ghost use Rattle.vk_history.specs.PointViews.{past};

use crate::history::History;
use vk_model::{Entry, Kind};

impl History<'_> {
    /// Whether a resource that asks for so many bytes would conflict, at an offset of a memory object,
    /// with a live resource there. One byte more than the greatest size stands for all that is above it.
    pub fn is_aliased(&self, memory: u32, offset: u64, size: u64, kind: Kind) -> bool
        ensures { (r : Resource) → size ≡ min r.size 67108865 → kind ≡ r.kind → result ≡ binding.is_aliased (past self.now) r memory offset }
    {
        self.tables.bound.is_aliased(memory, offset, size, kind)
    }

    /// Whether a live resource is bound to a memory object.
    pub fn is_memory_used(&self, memory: u32) -> bool
        ensures { result ≡ list_any (λ r. holds (memory_of (past self.now) r) (λ s. memory == s)) (live_resources (past self.now)) }
    {
        self.tables.occupants.has_memory(memory)
    }

    /// Whether a live resource is in a pool.
    pub fn is_pool_used(&self, pool: u32) -> bool
        ensures { result ≡ list_any (λ r. holds (pool_of (past self.now) r) (λ s. pool == s)) (live_resources (past self.now)) }
    {
        self.tables.occupants.has_pool(pool)
    }

    /// The resources that were ever created in a pool, the oldest first.
    pub fn residents(&self, pool: u32) -> &[u32]
        ensures { (r : ℕ) → pool_of (past self.now) r ≡ Some pool → Contains result.now r }
    {
        self.tables.residents.of(pool)
    }

    /// The pool of a defragmentation that hasn't ended.
    pub fn defragmented(&self, defrag: u32) -> Option<u32>
        ensures { result ≡ passes.pool_of_defrag (past self.now) defrag }
    {
        match self.live(defrag) {
            Some(Entry::Defrag { pool, .. }) => Some(*pool),
            _ => None,
        }
    }

    /// Whether a pool has a defragmentation that hasn't ended.
    pub fn has_defrag(&self, pool: u32) -> bool
        ensures { result ≡ passes.has_defrag (past self.now) pool }
    {
        self.tables.defrags.has_pool(pool)
    }

    /// Whether a pass of a defragmentation is open.
    pub fn is_in_pass(&self, defrag: u32) -> bool
        ensures { result ≡ passes.in_pass (past self.now) defrag }
    {
        self.tables.defrags.is_in_pass(defrag)
    }

    /// Whether a pass of any pool is open.
    pub fn has_pass(&self) -> bool
        ensures { result ≡ passes.some_pass (past self.now) }
    {
        self.tables.defrags.has_pass()
    }

    /// Whether a pass of a resource's pool is open.
    pub fn is_moving(&self, resource: u32) -> bool
        ensures { result ≡ passes.moves_now (past self.now) resource }
    {
        match self.pool_of(resource) {
            Some(pool) => self.is_pool_in_pass(pool),
            None => false,
        }
    }

    fn is_pool_in_pass(&self, pool: u32) -> bool
        ensures { result ≡ passes.pool_in_pass (past self.now) pool }
    {
        self.tables.defrags.is_pool_in_pass(pool)
    }
}
