ghost use Rattle.std.specs.Prelude.{◌≡◌, ◌==◌, map, filter, IfOk, IsSome};
ghost use Rattle.std.specs.List.{filter_map};
ghost use Rattle.vk_memory.specs.MemoryState.{MemoryState, object_at};
ghost use Rattle.vk_backing.specs.Backed.{IsBacked};
ghost use Rattle.vma_pools.specs.State.{IfKept, pool_at};
ghost use Rattle.vk_places.specs.Listed.{heap_in, resource_in, object_in, objects_from, hold_in, range_in, lying_of, reserved_of, IsBlockOf, AreBlocksOf};
ghost use Rattle.vk_places.specs.States.{AreRanges, IsPoolOf, ArePoolsOf, IsStateOf};

use crate::owners::{Owned, owners_of};
use crate::states::{HeapUse, Hold, LiveBlock, LiveObject, LivePool, LiveResource, State, Taken};
use std::alloc::{AllocError, Global};
use std::collections::BTreeMap;
use vk_backing::{Backing, Passes};
use vk_memory::Memories;
use vk_resources::Resources;
use vma_pools::{Allocation, BlockObject, Home, PoolPlace, Pools};

/// How much of a heap is in use.
fn heap_of(memories: &Memories, heap: u32) -> HeapUse
    ensures { result ≡ heap_in memories.now heap }
{
    HeapUse {
        size: memories.heap_bytes(heap),
        used: memories.used(heap),
    }
}

/// The live memory object of a number; none where it was freed or never made.
fn object_of(memories: &Memories, owners: &BTreeMap<u64, Owned>, number: u64) -> Option<LiveObject>
    ensures { result ≡ object_in owners.now.entries number (object_at memories.now number) }
{
    let info = memories.object(number)?;
    let (mapped, owner) = match owners.get(&number) {
        Some(owned) => (info.mapped || owned.mapped, Some(owned.owner)),
        None => (info.mapped, None),
    };
    Some(LiveObject {
        number,
        memory_type: info.memory_type,
        size: info.size,
        mapped,
        owner,
    })
}

/// The live memory objects, by their numbers.
fn objects_of(
    alloc: Global,
    memories: &Memories,
    owners: &BTreeMap<u64, Owned>,
) -> Result<Vec<LiveObject>, AllocError>
    ensures { IfOk result (λ found. found.items ≡ objects_from owners.now.entries 0 memories.now.objects) }
{
    let mut objects = Vec::new(alloc);
    for number in 0..memories.next_number() {
        if let Some(object) = object_of(memories, owners, number) {
            objects.push(object)?;
        }
    }
    Ok(objects)
}

/// The live buffers and images, by their ids.
fn resources_of(alloc: Global, resources: &Resources) -> Result<Vec<LiveResource>, AllocError>
    ensures { IfOk result (λ found. found.items ≡ map (resource_in resources.now) resources.now.resources) }
{
    resources
        .places()
        .iter()
        .map(|(id, placed)| LiveResource {
            id: *id,
            tiling: resources.tiling(*id),
            object: placed.object,
            offset: placed.offset,
            size: placed.size,
        })
        .collect(alloc)
}

/// The range that the allocation of a resource has at a place of a pool.
fn range_at(id: u32, live: &Allocation, pool: u64, place: PoolPlace, hold: Hold) -> Taken
    ensures { result ≡ range_in id live.now pool place hold }
{
    Taken {
        pool,
        block: place.block,
        offset: place.start,
        size: live.asked.size,
        kind: live.asked.kind,
        id,
        hold,
    }
}

/// How the place of an allocation is taken, by the place that is reserved for it.
fn hold_of(target: Option<PoolPlace>) -> Hold
    ensures { result ≡ hold_in target }
{
    match target {
        Some(_) => Hold::Moves,
        None => Hold::Lies,
    }
}

/// The range in which the allocation of a resource lies; none where it lies in no pool.
fn lying(pools: &Pools, id: u32, number: u64) -> Option<Taken>
    ensures { result ≡ lying_of pools.now (id, number) }
{
    let live = pools.allocation(number)?;
    match live.home {
        Home::Shared { pool, place } => {
            Some(range_at(id, &live, pool, place, hold_of(live.target)))
        }
        Home::Own { .. } => None,
    }
}

/// The range that is reserved for the allocation of a resource; none where it doesn't move.
fn reserved(pools: &Pools, id: u32, number: u64) -> Option<Taken>
    ensures { result ≡ reserved_of pools.now (id, number) }
{
    let live = pools.allocation(number)?;
    match (live.home, live.target) {
        (Home::Shared { pool, .. }, Some(target)) => {
            Some(range_at(id, &live, pool, target, Hold::Reserved))
        }
        _ => None,
    }
}

/// The ranges in which resources lie in pools.
fn lying_ranges(alloc: Global, backing: &Backing) -> Result<Vec<Taken>, AllocError>
    ensures { IfOk result (λ found. found.items ≡ filter_map (lying_of backing.now.pools) backing.now.allocations) }
{
    let pools = backing.pools();
    backing
        .allocation_numbers()
        .iter()
        .filter_map(|(id, number)| lying(pools, *id, *number))
        .collect(alloc)
}

/// The ranges that are reserved in pools for resources that move.
fn reserved_ranges(alloc: Global, backing: &Backing) -> Result<Vec<Taken>, AllocError>
    ensures { IfOk result (λ found. found.items ≡ filter_map (reserved_of backing.now.pools) backing.now.allocations) }
{
    let pools = backing.pools();
    backing
        .allocation_numbers()
        .iter()
        .filter_map(|(id, number)| reserved(pools, *id, *number))
        .collect(alloc)
}

/// What is taken in all pools, by rising offset.
fn ranges_of(alloc: Global, backing: &Backing) -> Result<Vec<Taken>, AllocError>
    ensures { IfOk result (λ ranges. AreRanges backing.now ranges.items) }
{
    let mut ranges = lying_ranges(alloc, backing)?;
    let targets = reserved_ranges(alloc, backing)?;
    ranges.extend_from_slice(targets.as_slice())?;
    ranges.sort_by_key(|range| range.offset)?;
    Ok(ranges)
}

/// What is taken in a pool.
fn ranges_in(alloc: Global, ranges: &[Taken], pool: u64) -> Result<Vec<Taken>, AllocError>
    ensures { IfOk result (λ found. found.items ≡ filter (λ r. r.pool == pool) ranges.now) }
{
    ranges
        .iter()
        .copied()
        .filter(|range| range.pool == pool)
        .collect(alloc)
}

/// What is taken in a block, among the ranges of its pool.
fn taken_in(alloc: Global, ranges: &[Taken], block: u64) -> Result<Vec<Taken>, AllocError>
    ensures { IfOk result (λ found. found.items ≡ filter (λ r. r.block == block) ranges.now) }
{
    ranges
        .iter()
        .copied()
        .filter(|range| range.block == block)
        .collect(alloc)
}

/// A block, with what is taken of it among the ranges of its pool.
fn block_of(alloc: Global, ranges: &[Taken], block: BlockObject) -> Result<LiveBlock, AllocError>
    ensures { IfOk result (IsBlockOf ranges.now block) }
{
    let taken = taken_in(alloc, ranges, block.number)?;
    Ok(LiveBlock {
        number: block.number,
        object: block.memory,
        taken,
    })
}

/// The blocks of a pool, with what is taken of each among the ranges of the pool.
fn blocks_of(
    alloc: Global,
    ranges: &[Taken],
    objects: &[BlockObject],
) -> Result<Vec<LiveBlock>, AllocError>
    ensures { IfOk result (λ found. AreBlocksOf ranges.now objects.now found.items) }
{
    let mut found = Vec::new(alloc);
    for block in objects {
        let one = block_of(alloc, ranges, *block)?;
        found.push(one)?;
    }
    Ok(found)
}

/// A live pool, with what is taken there among the ranges of all pools.
fn pool_of(
    alloc: Global,
    pools: &Pools,
    ranges: &[Taken],
    id: u32,
    number: u64,
) -> Result<LivePool, AllocError>
    requires { IsSome (pool_at pools.now number) }
    ensures named { IfOk result (λ p. p.id ≡ id) }
    ensures pool { IfOk result (λ p. IfKept pools.now number (IsPoolOf ranges.now id number p)) }
{
    let its = ranges_in(alloc, ranges, number)?;
    let objects = pools.blocks(number)?;
    let blocks = blocks_of(alloc, its.as_slice(), objects.as_slice())?;
    Ok(LivePool {
        id,
        info: pools.info(number),
        statistics: pools.stats(number),
        blocks,
    })
}

/// The live pools, by their ids, with what is taken there among the ranges of all pools.
fn pools_of(alloc: Global, backing: &Backing, ranges: &[Taken]) -> Result<Vec<LivePool>, AllocError>
    requires { (m : MemoryState) × IsBacked backing.now m }
    ensures { IfOk result (λ found. ArePoolsOf backing.now ranges.now backing.now.numbers found.items) }
{
    let mut pools = Vec::new(alloc);
    for (id, number) in backing.pool_numbers().iter() {
        let pool = pool_of(alloc, backing.pools(), ranges, *id, *number)?;
        pools.push(pool)?;
    }
    Ok(pools)
}

/// Where everything lies after an entry: what resources and passes of a device hold. The only error is
/// want of memory.
pub fn state_of(
    alloc: Global,
    resources: &Resources,
    passes: &Passes,
    entry: usize,
) -> Result<State, AllocError>
    ensures { IfOk result (λ s. (s.entry ≡ entry) × IsStateOf resources.now passes.now s) }
{
    let memories = resources.memories();
    let backing = resources.backing();
    let owners = owners_of(alloc, backing)?;
    resources.are_resources();
    let ranges = ranges_of(alloc, backing)?;
    Ok(State {
        entry,
        heap0: heap_of(memories, 0),
        heap1: heap_of(memories, 1),
        objects: objects_of(alloc, memories, &owners)?,
        pools: pools_of(alloc, backing, ranges.as_slice())?,
        resources: resources_of(alloc, resources)?,
        opened: passes.opened(),
    })
}
