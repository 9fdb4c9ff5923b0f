use crate::states::{Hold, LiveBlock, LivePool, Taken};
use std::alloc::{AllocError, Global};
use vk_model::{Kind, PoolKind};
use vma_pools::Asked;

/// The bytes of a page of `bufferImageGranularity` (profile).
const PAGE: u64 = 1024;

/// Ranges of a block that lie next to each other, by their indices.
#[derive(Clone, Copy)]
struct Window {
    /// The first one.
    first: usize,
    /// How many they are.
    count: usize,
    /// Their bytes.
    bytes: u64,
}

/// The next multiple of some bytes; of 0 they are one.
fn rounded_up(bytes: u64, unit: u64) -> u64 {
    let unit = unit.max(1);
    bytes.div_ceil(unit).saturating_mul(unit)
}

/// Where free bytes begin behind a range, for bytes that lie so: on another page where those of the
/// range lie otherwise.
fn begin_behind(range: Option<&Taken>, kind: Kind) -> u64 {
    match range {
        Some(range) => {
            let end = range.offset.saturating_add(range.size);
            if range.kind == kind {
                end
            } else {
                rounded_up(end, PAGE)
            }
        }
        None => 0,
    }
}

/// Where free bytes end before a range, or at the end of the block.
fn end_before(range: Option<&Taken>, block_size: u64, kind: Kind) -> u64 {
    match range {
        Some(range) if range.kind == kind => range.offset,
        Some(range) => range.offset / PAGE * PAGE,
        None => block_size,
    }
}

/// The fewest ranges of a block from one on, without which a request fits behind the one before it;
/// none where it fits without none that stays.
fn window_from(taken: &[Taken], first: usize, block_size: u64, asked: Asked) -> Option<Window> {
    let before = match first {
        0 => None,
        _ => taken.get(first - 1),
    };
    let start = rounded_up(begin_behind(before, asked.kind), asked.align);
    let need = start.saturating_add(asked.size);
    let mut bytes = 0;
    for end in first..=taken.len() {
        let next = taken.get(end);
        if need <= end_before(next, block_size, asked.kind) {
            let count = end.saturating_sub(first);
            return Some(Window {
                first,
                count,
                bytes,
            });
        }
        match next {
            Some(range) if range.hold == Hold::Lies => bytes = range.size.saturating_add(bytes),
            _ => return None,
        }
    }
    None
}

/// The ranges of a block, next to each other and of as few bytes as any, without which a request fits.
fn window_of(block: &LiveBlock, block_size: u64, asked: Asked) -> Option<Window> {
    let taken = block.taken.as_slice();
    let mut best: Option<Window> = None;
    for first in 0..=taken.len() {
        if let Some(window) = window_from(taken, first, block_size, asked) {
            if best.is_none_or(|least| window.bytes < least.bytes) {
                best = Some(window);
            }
        }
    }
    best
}

/// The ids of what would have to go from a pool for a request: those of ranges of one block that lie next
/// to each other, of as few bytes as any, without which it fits between those that stay. None where there
/// are none, and in a linear pool, where the order counts. The only error is want of memory.
pub(crate) fn go_of(
    alloc: Global,
    pool: &LivePool,
    asked: Asked,
) -> Result<Option<Vec<u32>>, AllocError> {
    if pool.info.kind == PoolKind::Linear {
        return Ok(None);
    }
    let mut best: Option<(&LiveBlock, Window)> = None;
    for block in pool.blocks.iter() {
        if let Some(window) = window_of(block, pool.info.block_size, asked) {
            if best.is_none_or(|(_, least)| window.bytes < least.bytes) {
                best = Some((block, window));
            }
        }
    }
    match best {
        Some((block, window)) => {
            let gone = block.taken.iter().skip(window.first).take(window.count);
            Ok(Some(gone.map(|range| range.id).collect(alloc)?))
        }
        None => Ok(None),
    }
}
