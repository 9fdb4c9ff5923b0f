use crate::cases::{Candidates, Case};
use crate::entries::replaced;
use std::alloc::AllocError;
use vk_model::{
    Action, BufferInfo, Duplicate, Entry, ImageInfo, MemoryInfo, Place, PoolInfo, PoolKind,
};

/// What the size of a larger memory object is a multiple of, in bytes.
const UNIT: u64 = 64;

/// So many places are tried at most.
const MOST_STARTS: usize = 36;

/// Other memory types: of what the entry makes, or of what is mapped.
pub fn memory_type(case: &Case<'_>, found: &mut Candidates) -> Result<(), AllocError> {
    let number = match case.refused.action {
        Action::Host(Entry::Map { buffer }) => case.creator(*buffer),
        Action::Host(_) => case
            .trace
            .get(case.refused.entry)
            .map(|x| (case.refused.entry, x)),
        _ => None,
    };
    let Some((number, entry)) = number else {
        return Ok(());
    };
    for memory_type in [1, 0, 2] {
        replaced(case, number, with_type(entry, memory_type)?, found)?;
        if let Some((memory, creator)) = case.creator(memory_of(entry)) {
            replaced(case, memory, with_type(creator, memory_type)?, found)?;
        }
    }
    dedicated(case, number, entry, found)
}

/// The memory object or pool that a resource is put in; 0 where there is none.
pub fn memory_of(entry: &Entry) -> u32 {
    let place = match entry {
        Entry::Buffer { info, .. } => info.place,
        Entry::Image { info, .. } => info.place,
        _ => return 0,
    };
    match place {
        Place::Memory { memory, .. } => memory,
        Place::Pool { pool } | Place::PoolUpper { pool } => pool,
        Place::Dedicated { .. } => 0,
    }
}

fn with_type(entry: &Entry, memory_type: u32) -> Result<Entry, AllocError> {
    match entry {
        Entry::Memory { id, info } => Ok(Entry::Memory {
            id: *id,
            info: MemoryInfo {
                memory_type,
                ..*info
            },
        }),
        Entry::Pool { id, info } => Ok(Entry::Pool {
            id: *id,
            info: PoolInfo {
                memory_type,
                ..*info
            },
        }),
        Entry::Buffer { id, info } if matches!(info.place, Place::Dedicated { .. }) => {
            with_place(entry, *id, Place::Dedicated { memory_type })
        }
        Entry::Image { id, info } if matches!(info.place, Place::Dedicated { .. }) => {
            with_place(entry, *id, Place::Dedicated { memory_type })
        }
        other => other.duplicate(),
    }
}

fn with_place(entry: &Entry, id: u32, place: Place) -> Result<Entry, AllocError> {
    match entry {
        Entry::Buffer { info, .. } => Ok(Entry::Buffer {
            id,
            info: BufferInfo { place, ..*info },
        }),
        Entry::Image { info, .. } => Ok(Entry::Image {
            id,
            info: ImageInfo { place, ..*info },
        }),
        other => other.duplicate(),
    }
}

/// The entry that puts a buffer into memory that the host sees, and its number.
pub fn visible(case: &Case<'_>, buffer: u32) -> Result<Option<(usize, Entry)>, AllocError> {
    let Some((number, entry)) = case.creator(buffer) else {
        return Ok(None);
    };
    if let Some((memory, creator)) = case.creator(memory_of(entry)) {
        return Ok(Some((memory, with_type(creator, 1)?)));
    }
    Ok(Some((number, with_type(entry, 1)?)))
}

/// A resource in a memory object of its own.
fn dedicated(
    case: &Case<'_>,
    number: usize,
    entry: &Entry,
    found: &mut Candidates,
) -> Result<(), AllocError> {
    if let Some(id) = entry.made_id() {
        for memory_type in [1, 0] {
            let mut edits = case.edits();
            edits.replace(
                number,
                with_place(entry, id, Place::Dedicated { memory_type })?,
            )?;
            found.add_weaker(edits)?;
        }
    }
    Ok(())
}

/// Other places in the memory object of a resource: the lowest that others leave, multiples of powers
/// of two above and below its own; then after what there is, in a larger object.
pub fn binding(case: &Case<'_>, found: &mut Candidates) -> Result<(), AllocError> {
    let Action::Host(entry) = case.refused.action else {
        return Ok(());
    };
    let (id, place) = match entry {
        Entry::Buffer { id, info } => (*id, info.place),
        Entry::Image { id, info } => (*id, info.place),
        _ => return Ok(()),
    };
    let Place::Memory { memory, offset } = place else {
        return Ok(());
    };
    let mut starts = Vec::new(case.alloc);
    for unit in [16, 64, 256, 1024] {
        let below: u64 = offset / unit * unit;
        for start in [below.saturating_add(unit), below, 0] {
            add_start(&mut starts, start)?;
        }
    }
    let ends = ends_in(case, memory)?;
    for unit in [16, 64, 256, 1024] {
        for end in ends.as_slice() {
            add_start(&mut starts, rounded(*end, unit))?;
        }
    }
    for start in starts.as_slice() {
        moved_to(case, entry, id, memory, *start, found)?;
    }
    larger_memory(case, entry, memory, found)?;
    dedicated(case, case.refused.entry, entry, found)
}

/// A place more to try, if it is new and there aren't too many.
fn add_start(starts: &mut Vec<u64>, start: u64) -> Result<(), AllocError> {
    if !starts.contains(&start) && starts.len() < MOST_STARTS {
        starts.push(start)?;
    }
    Ok(())
}

fn rounded(offset: u64, unit: u64) -> u64 {
    if unit == 0 {
        return offset;
    }
    offset.saturating_add(unit - 1) / unit * unit
}

fn moved_to(
    case: &Case<'_>,
    entry: &Entry,
    id: u32,
    memory: u32,
    offset: u64,
    found: &mut Candidates,
) -> Result<(), AllocError> {
    let moved = with_place(entry, id, Place::Memory { memory, offset })?;
    replaced(case, case.refused.entry, moved, found)
}

/// Where the buffers end that are bound to a memory object.
fn ends_in(case: &Case<'_>, memory: u32) -> Result<Vec<u64>, AllocError> {
    let mut ends = Vec::new(case.alloc);
    for point in case.earlier {
        if let Action::Host(Entry::Buffer { info, .. }) = point.action {
            if let Place::Memory {
                memory: other,
                offset,
            } = info.place
            {
                if other == memory {
                    ends.push(offset.saturating_add(info.size))?;
                }
            }
        }
    }
    Ok(ends)
}

/// Where a buffer ends in its memory object; 0 for others.
fn bound_end(entry: &Entry) -> u64 {
    match entry {
        Entry::Buffer { info, .. } => match info.place {
            Place::Memory { offset, .. } => offset.saturating_add(info.size),
            _ => 0,
        },
        _ => 0,
    }
}

/// A larger memory object: just as large as a buffer needs it, or twice as large and more; the resource stays,
/// or comes after what it was before.
fn larger_memory(
    case: &Case<'_>,
    entry: &Entry,
    memory: u32,
    found: &mut Candidates,
) -> Result<(), AllocError> {
    let Some((number, Entry::Memory { id, info })) = case.creator(memory) else {
        return Ok(());
    };
    let size = rounded(bound_end(entry), UNIT);
    if size > info.size {
        let info = MemoryInfo { size, ..*info };
        replaced(case, number, Entry::Memory { id: *id, info }, found)?;
    }
    let mut size = info.size;
    for _ in 0..10 {
        size = size.saturating_mul(2).min(67_108_864);
        for is_moved in [false, true] {
            let mut edits = case.edits();
            edits.replace(
                number,
                Entry::Memory {
                    id: *id,
                    info: MemoryInfo { size, ..*info },
                },
            )?;
            if is_moved {
                if let Some(bound) = entry.made_id() {
                    let offset = rounded(info.size, 1_024);
                    let place = Place::Memory { memory, offset };
                    edits.replace(case.refused.entry, with_place(entry, bound, place)?)?;
                }
            }
            found.add(edits)?;
        }
    }
    Ok(())
}

/// Larger blocks of the pool of a resource.
pub fn pool_size(case: &Case<'_>, found: &mut Candidates) -> Result<(), AllocError> {
    let Action::Host(entry) = case.refused.action else {
        return Ok(());
    };
    let Some((number, Entry::Pool { id, info })) = case.creator(memory_of(entry)) else {
        return Ok(());
    };
    let mut block_size = info.block_size;
    for _ in 0..14 {
        block_size = block_size.saturating_mul(2).min(16_777_216);
        let larger = Entry::Pool {
            id: *id,
            info: PoolInfo {
                block_size,
                ..*info
            },
        };
        replaced(case, number, larger, found)?;
    }
    dedicated(case, case.refused.entry, entry, found)
}

/// A place from below, or a pool that has an upper end; a pool that can be defragmented.
pub fn pool_kind(case: &Case<'_>, found: &mut Candidates) -> Result<(), AllocError> {
    let Action::Host(entry) = case.refused.action else {
        return Ok(());
    };
    if let Entry::Defrag { pool, .. } = entry {
        return general(case, *pool, found);
    }
    let pool = memory_of(entry);
    if let Some(id) = entry.made_id() {
        let lower = with_place(entry, id, Place::Pool { pool })?;
        replaced(case, case.refused.entry, lower, found)?;
    }
    if let Some((number, Entry::Pool { id, info })) = case.creator(pool) {
        let linear = Entry::Pool {
            id: *id,
            info: PoolInfo {
                kind: PoolKind::Linear,
                block_limit: 1,
                ..*info
            },
        };
        replaced(case, number, linear, found)?;
    }
    Ok(())
}

/// A pool that can be defragmented; also with each place at its upper end from below.
fn general(case: &Case<'_>, pool: u32, found: &mut Candidates) -> Result<(), AllocError> {
    for is_lower in [false, true] {
        let mut edits = case.edits();
        for (number, entry) in case.trace.iter().enumerate() {
            match entry {
                Entry::Pool { id, info } if *id == pool => {
                    let kind = PoolKind::Tlsf;
                    let info = PoolInfo { kind, ..*info };
                    edits.replace(number, Entry::Pool { id: pool, info })?;
                }
                Entry::Buffer { id, .. } | Entry::Image { id, .. }
                    if is_lower && memory_of(entry) == pool => {
                    let lower = with_place(entry, *id, Place::Pool { pool })?;
                    edits.replace(number, lower)?;
                }
                _ => {}
            }
        }
        found.add(edits)?;
    }
    Ok(())
}
