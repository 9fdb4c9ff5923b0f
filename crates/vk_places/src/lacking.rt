use crate::requests::{Request, request_of};
use crate::states::{HeapUse, LiveObject, LivePool, State};
use crate::windows::go_of;
use std::alloc::{AllocError, Global};
use vk_model::Entry;
use vma_pools::Asked;

/// What an allocation asks for that finds no room, and what is free there.
#[derive(Debug, Drop)]
pub struct Lack {
    /// The id that it was to make.
    pub id: u32,
    /// What it asks of a pool, where it is put in one.
    pub pool: Option<PoolLack>,
    /// What the memory object that it needs asks of a heap; none where its pool may have no more blocks.
    pub heap: Option<HeapLack>,
}

/// What is asked of a pool, no block of which has a place for it.
#[derive(Debug, Drop)]
pub struct PoolLack {
    /// The id of the pool.
    pub id: u32,
    /// The bytes that are asked for.
    pub size: u64,
    /// The place is to start at a multiple of this many bytes.
    pub align: u64,
    /// The bytes that are free in all its blocks.
    pub free: u64,
    /// The length in bytes of the longest range of a block of which nothing is taken.
    pub largest_free: u64,
    /// The ids of what would have to go: resources that lie next to each other in one block, of as few
    /// bytes as any. None where there are none, and in a linear pool, where the order counts.
    pub go: Option<Vec<u32>>,
}

/// What is asked of a heap that has no room for it.
#[derive(Debug, Drop)]
pub struct HeapLack {
    /// The number of the heap.
    pub heap: u32,
    /// The bytes that are asked for.
    pub size: u64,
    /// The bytes of the heap that no memory object has.
    pub free: u64,
    /// How many memory objects are live on both heaps, of 4,096 at most.
    pub objects: usize,
    /// The numbers of the memory objects that would have to go: as few of this heap as have the bytes
    /// that are missing, the largest first. None where all of them have fewer.
    pub go: Option<Vec<u64>>,
}

/// The alignment in bytes of what lies in blocks on type 2 (profile).
const CACHED_ALIGN: u64 = 64;

/// The memory type that the host reaches through a cache (profile).
const CACHED_TYPE: u32 = 2;

/// How many memory objects may be live at once (profile).
const MOST_OBJECTS: usize = 4096;

/// The heap of a memory type, by its number.
fn heap_number(memory_type: u32) -> u32 {
    if memory_type == 0 { 0 } else { 1 }
}

/// The live memory objects of a heap, the largest first.
fn largest_first(
    alloc: Global,
    objects: &[LiveObject],
    heap: u32,
) -> Result<Vec<LiveObject>, AllocError> {
    let mut found: Vec<LiveObject> = objects
        .iter()
        .copied()
        .filter(|object| heap_number(object.memory_type) == heap)
        .collect(alloc)?;
    found.sort_by_key(|object| u64::MAX - object.size)?;
    Ok(found)
}

/// The numbers of as few memory objects as have so many bytes, and of so many at least; none where all
/// of them have fewer.
fn enough_of(
    alloc: Global,
    objects: &[LiveObject],
    bytes: u64,
    count: usize,
) -> Result<Option<Vec<u64>>, AllocError> {
    let mut numbers = Vec::new(alloc);
    let mut missing = bytes;
    for object in objects {
        if missing == 0 && numbers.len() >= count {
            break;
        }
        numbers.push(object.number)?;
        missing = missing.saturating_sub(object.size);
    }
    if missing == 0 && numbers.len() >= count {
        Ok(Some(numbers))
    } else {
        Ok(None)
    }
}

/// What a memory object lacks; nothing where there is room for it.
fn heap_lack(
    alloc: Global,
    state: &State,
    memory_type: u32,
    size: u64,
) -> Result<Option<HeapLack>, AllocError> {
    let heap = heap_number(memory_type);
    let of: HeapUse = if heap == 0 { state.heap0 } else { state.heap1 };
    let free = of.size.saturating_sub(of.used);
    let objects = state.objects.len();
    let count = usize::from(objects >= MOST_OBJECTS);
    if size <= free && count == 0 {
        return Ok(None);
    }
    let by_size = largest_first(alloc, state.objects.as_slice(), heap)?;
    let go = enough_of(alloc, by_size.as_slice(), size.saturating_sub(free), count)?;
    Ok(Some(HeapLack {
        heap,
        size,
        free,
        objects,
        go,
    }))
}

/// What a request lacks in a pool, and of a heap where the pool may have one more block.
fn shared_lack(
    alloc: Global,
    state: &State,
    id: u32,
    pool: &LivePool,
    asked: Asked,
) -> Result<Lack, AllocError> {
    let info = pool.info;
    let align = if info.memory_type == CACHED_TYPE {
        CACHED_ALIGN.max(asked.align)
    } else {
        asked.align
    };
    let its = PoolLack {
        id: pool.id,
        size: asked.size,
        align,
        free: pool.statistics.held.saturating_sub(pool.statistics.used),
        largest_free: pool.statistics.largest_free,
        go: go_of(alloc, pool, Asked { align, ..asked })?,
    };
    let heap = if (pool.blocks.len() as u64) < u64::from(info.block_limit) {
        heap_lack(alloc, state, info.memory_type, info.block_size)?
    } else {
        None
    };
    Ok(Lack {
        id,
        pool: Some(its),
        heap,
    })
}

/// What an entry lacks that finds no room, by where everything lies before it; nothing where it asks for
/// no memory. The only error is want of memory.
pub fn lack_of(alloc: Global, state: &State, entry: &Entry) -> Result<Option<Lack>, AllocError> {
    match request_of(entry) {
        Some(
            Request::Object {
                id,
                memory_type,
                size,
            },
        ) => Ok(Some(Lack {
            id,
            pool: None,
            heap: heap_lack(alloc, state, memory_type, size)?,
        })),
        Some(Request::Shared { id, pool, asked }) => {
            match state.pools.iter().find(|its| its.id == pool) {
                Some(its) => Ok(Some(shared_lack(alloc, state, id, its, asked)?)),
                None => Ok(None),
            }
        }
        None => Ok(None),
    }
}
