ghost use Rattle.std.specs.Prelude.{◌≡◌, ◌<◌, ◌^◌, [], IfOk, OnErr, OnOk};
ghost use Rattle.vk_model.specs.Memory.MoveTargets.{over_limit};
ghost use Rattle.vk_model.specs.declared.resource.PoolKind.TheVariants as algorithm;
ghost use Rattle.vk_memory.specs.MemoryState.{MemoryState};
ghost use Rattle.vma_pools.specs.State.{Backs, IfKept, PoolsState};
ghost use Rattle.vma_defrag.specs.Passes.{AreAlikePools};
ghost use Rattle.vma_defrag.specs.Plans.{ArePlanned};
ghost use Rattle.vma_defrag.specs.Inner.Planned.{moves_of};
ghost use Rattle.vma_defrag.specs.Inner.Choosing.{HasChosen, HasReserved};

use crate::cursors::{Cursor, keep, low_for};
use crate::open::{Fate, Planned};
use std::alloc::{AllocError, Global};
use vk_memory::Memories;
use vma_blocks::PoolBlock;
use vma_pools::PoolsOf;

/// What a pass may move at most: bytes and moves, 0 for any number.
#[derive(Clone, Copy)]
pub(crate) struct Limits {
    /// Bytes.
    pub(crate) bytes: u64,
    /// Moves.
    pub(crate) moves: u32,
}

impl Limits {
    /// Whether one more move of some bytes would pass a limit, after so many bytes and moves.
    fn is_passed(self, bytes: u64, moves: usize, more: u64) -> bool
        ensures passed { result ≡ over_limit self.bytes self.moves bytes moves more }
        // What its type says.
        ensures small { self.bytes < 2 ^ 64 }
    {
        let too_many_bytes = self.bytes > 0 && (bytes > self.bytes || more > self.bytes - bytes);
        too_many_bytes || self.moves > 0 && moves >= self.moves as usize
    }
}

/// Cancels moves, from the last on: each leaves the pool alike to what it was before its target was
/// reserved.
pub(crate) fn cancel_all<B: PoolBlock>(
    pools: &mut PoolsOf<B>,
    memories: &mut Memories,
    planned: &mut Vec<Planned>,
)
    requires reserved { (old : PoolsState) × HasReserved old pools.old (moves_of planned.old.items) }
    requires backs { Backs pools.old memories.old }
    ensures alike { (old : PoolsState) → HasReserved old pools.old (moves_of planned.old.items) → AreAlikePools old pools.new }
    ensures memories { memories.new ≡ memories.old }
    ensures backs { Backs pools.new memories.new }
{
    while let Some(one) = planned.pop() {
        pools.cancel(memories, one.allocation);
    }
}

/// The moves of a pass over a pool, from the highest place down, whose targets are reserved: the first
/// that would pass a limit ends the list. The only error is want of memory, after which nothing is
/// reserved.
pub(crate) fn reserve_moves<B: PoolBlock>(
    alloc: Global,
    pools: &mut PoolsOf<B>,
    memories: &mut Memories,
    pool: u64,
    limits: Limits,
) -> Result<Vec<Planned>, AllocError>
    requires general { IfKept pools.old pool (λ k. k.pool.info.kind ≡ algorithm.Tlsf) }
    requires planned { ArePlanned pools.old pool [] }
    requires backs { Backs pools.old memories.old }
    ensures chosen { IfOk result (λ planned. HasChosen pools.old pools.new pool limits.bytes limits.moves planned.items) }
    ensures planned { IfOk result (λ planned. ArePlanned pools.new pool (moves_of planned.items)) }
    ensures reserved { IfOk result (λ planned. HasReserved pools.old pools.new (moves_of planned.items)) }
    ensures err { OnErr result (AreAlikePools pools.old pools.new) }
    ensures memories { memories.new ≡ memories.old }
    ensures backs { Backs pools.new memories.new }
{
    let mut planned = Vec::new(alloc);
    match reserve_each(alloc, pools, &mut planned, pool, limits) {
        Ok(()) => Ok(planned),
        Err(refused) => {
            cancel_all(pools, memories, &mut planned);
            Err(refused)
        }
    }
}

/// Reserves targets for the allocations of a pool, one after another, as the limits allow. The only
/// error is want of memory, after which those before it are reserved.
fn reserve_each<B: PoolBlock>(
    alloc: Global,
    pools: &mut PoolsOf<B>,
    planned: &mut Vec<Planned>,
    pool: u64,
    limits: Limits,
) -> Result<(), AllocError>
    requires general { IfKept pools.old pool (λ k. k.pool.info.kind ≡ algorithm.Tlsf) }
    requires planned { ArePlanned pools.old pool [] }
    requires none { planned.old.items ≡ [] }
    ensures chosen { OnOk result (HasChosen pools.old pools.new pool limits.bytes limits.moves planned.new.items) }
    ensures planned { ArePlanned pools.new pool (moves_of planned.new.items) }
    ensures reserved { HasReserved pools.old pools.new (moves_of planned.new.items) }
    ensures backs { (m : MemoryState) → Backs pools.old m → Backs pools.new m }
{
    pools.are_pools();
    let listed = pools.by_place(pool)?;
    let mut cursors = Vec::new(alloc);
    let mut bytes: u64 = 0;
    for allocation in &listed {
        let own = Cursor::at(pools, *allocation);
        let size = own.asked.size;
        let low = low_for(&cursors, own.asked);
        if limits.is_passed(bytes, planned.len(), size) {
            if pools.lower_place(*allocation, low).is_some() {
                return Ok(());
            }
            keep(&mut cursors, own);
        } else {
            planned.reserve(1)?;
            match pools.reserve_lower(*allocation, low)? {
                Some(to) => {
                    planned.push_reserved(Planned {
                        allocation: *allocation,
                        to,
                        bytes: size,
                        fate: Fate::Made,
                    });
                    // Without a limit on bytes their sum isn't asked for.
                    bytes = bytes.saturating_add(size);
                    keep(&mut cursors, Cursor { low: to, ..own });
                }
                None => keep(&mut cursors, own),
            }
        }
    }
    Ok(())
}
