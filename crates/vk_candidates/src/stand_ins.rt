use crate::cases::{Candidates, Case};
use crate::ids::Kind;
use crate::lists::EditList;
use crate::reaches::{Extent, extent_of, reach_of, room_in};
use crate::renaming::{Renaming, rename};
use std::alloc::AllocError;
use vk_model::{
    Action, BufferInfo, Entry, Format, ImageInfo, Kind as Tiling, MemoryInfo, Place, PoolInfo,
    PoolKind, Sharing, Usage,
};

/// The fewest bytes of what is made up.
const LEAST: u64 = 64;
/// The bytes of the blocks of a pool that is made up.
const BLOCK: u64 = 65_536;
/// How many blocks it may have.
const BLOCKS: u32 = 16;

/// What nothing makes is made before the point, as large as the trace reaches in it, by an id that
/// the point names then.
pub fn stand_in(
    case: &Case<'_>,
    kind: Kind,
    renaming: Renaming,
    found: &mut Candidates,
) -> Result<(), AllocError> {
    match kind {
        Kind::Buffer | Kind::Resource => {
            for sharing in [Sharing::Concurrent, Sharing::Exclusive] {
                made_up(case, buffer(case, renaming, sharing), renaming, found)?;
            }
            Ok(())
        }
        Kind::Image => {
            for sharing in [Sharing::Concurrent, Sharing::Exclusive] {
                made_up(case, image(case, renaming, sharing), renaming, found)?;
            }
            Ok(())
        }
        Kind::Memory => {
            for memory_type in [1, 0] {
                let size = room_in(case, renaming.from).max(LEAST);
                let info = MemoryInfo { memory_type, size };
                let id = renaming.to;
                made_up(case, Entry::Memory { id, info }, renaming, found)?;
            }
            Ok(())
        }
        Kind::Pool => {
            for memory_type in [1, 0] {
                for (kind, blocks) in [(PoolKind::Tlsf, BLOCKS), (PoolKind::Linear, 1)] {
                    let pool = pool(renaming.to, memory_type, kind, blocks);
                    made_up(case, pool, renaming, found)?;
                }
            }
            Ok(())
        }
        Kind::Semaphore | Kind::Event | Kind::Defrag => Ok(()),
    }
}

fn made_up(
    case: &Case<'_>,
    entry: Entry,
    renaming: Renaming,
    found: &mut Candidates,
) -> Result<(), AllocError> {
    found.add_stand_in(with_made(case, entry, renaming)?)
}

/// An entry before the point that makes what the point names then; a buffer that the point needs
/// mapped is mapped.
pub fn with_made(
    case: &Case<'_>,
    entry: Entry,
    renaming: Renaming,
) -> Result<EditList, AllocError> {
    let number = case.refused.entry;
    let mut edits = case.edits();
    edits.insert(number, entry)?;
    if let Action::Host(
        Entry::Unmap { .. }
        | Entry::Write { .. }
        | Entry::Read { .. }
        | Entry::Flush { .. }
        | Entry::Invalidate { .. },
    ) = case.refused.action
    {
        let buffer = renaming.to;
        edits.insert(number, Entry::Map { buffer })?;
    }
    if renaming.from != renaming.to {
        rename(case, &mut edits, renaming)?;
    }
    Ok(edits)
}

fn buffer(case: &Case<'_>, renaming: Renaming, sharing: Sharing) -> Entry {
    Entry::Buffer {
        id: renaming.to,
        info: BufferInfo {
            size: reach_of(case, renaming.from).max(LEAST),
            usage: Usage(3),
            sharing,
            place: Place::Dedicated { memory_type: 1 },
        },
    }
}

fn image(case: &Case<'_>, renaming: Renaming, sharing: Sharing) -> Entry {
    let Extent {
        width,
        height,
        levels,
        layers,
    } = extent_of(case, renaming.from);
    Entry::Image {
        id: renaming.to,
        info: ImageInfo {
            format: Format::R8Uint,
            width,
            height,
            levels,
            layers,
            tiling: Tiling::Optimal,
            usage: Usage(3),
            sharing,
            place: Place::Dedicated { memory_type: 0 },
        },
    }
}

fn pool(id: u32, memory_type: u32, kind: PoolKind, block_limit: u32) -> Entry {
    Entry::Pool {
        id,
        info: PoolInfo {
            kind,
            memory_type,
            block_size: BLOCK,
            block_limit,
        },
    }
}
