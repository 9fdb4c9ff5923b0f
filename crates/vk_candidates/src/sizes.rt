use crate::cases::{Candidates, Case, place_of};
use crate::entries::replaced;
use crate::reaches::reach_of;
use std::alloc::AllocError;
use vk_model::{
    Action, BufferCopy, BufferElement, BufferInfo, Cmd, Element, Entry, ImageInfo, Kind, Length,
    MemoryInfo, PoolInfo, Sequence,
};

/// The most bytes of a memory object.
const MOST_MEMORY: u64 = 67_108_864;
/// The most bytes of a block.
const MOST_BLOCK: u64 = 16_777_216;
/// The fewest, of which the others are multiples.
const BLOCK_UNIT: u64 = 1_024;

/// Counts within their limits; ranges to the end in place of ranges of no byte; commands without
/// empty regions; reads of a byte in place of none.
pub fn size(case: &Case<'_>, found: &mut Candidates) -> Result<(), AllocError> {
    match case.refused.action {
        Action::Host(entry) => entry_size(case, entry, found),
        Action::Run(command) => command_size(case, command, found),
        _ => Ok(()),
    }
}

fn entry_size(case: &Case<'_>, entry: &Entry, found: &mut Candidates) -> Result<(), AllocError> {
    let number = case.refused.entry;
    match entry {
        Entry::Image { id, info } => {
            let (id, info) = (*id, within_limits(info));
            replaced(case, number, Entry::Image { id, info }, found)
        }
        Entry::Buffer { id, info } => {
            let mut edits = case.edits();
            let size = reach_of(case, *id).max(info.size).max(1);
            let info = BufferInfo { size, ..*info };
            edits.replace(number, Entry::Buffer { id: *id, info })?;
            found.add_stand_in(edits)
        }
        Entry::Pool { id, info } => {
            let (id, info) = (*id, blocks_within_limits(info));
            replaced(case, number, Entry::Pool { id, info }, found)
        }
        Entry::Flush { buffer, offset, .. } => {
            let flush = Entry::Flush {
                buffer: *buffer,
                offset: *offset,
                size: Length::Whole,
            };
            replaced(case, number, flush, found)
        }
        Entry::Invalidate { buffer, offset, .. } => {
            let invalidate = Entry::Invalidate {
                buffer: *buffer,
                offset: *offset,
                size: Length::Whole,
            };
            replaced(case, number, invalidate, found)
        }
        Entry::Read { buffer, offset, .. } => one_byte(case, *buffer, *offset, found),
        _ => Ok(()),
    }
}

/// A memory object of as many bytes as there may be.
pub fn memory_size(case: &Case<'_>, found: &mut Candidates) -> Result<(), AllocError> {
    if let Action::Host(Entry::Memory { id, info }) = case.refused.action {
        let size = info.size.max(1).min(MOST_MEMORY);
        let mut edits = case.edits();
        edits.replace(
            case.refused.entry,
            Entry::Memory {
                id: *id,
                info: MemoryInfo { size, ..*info },
            },
        )?;
        found.add_weaker(edits)?;
    }
    Ok(())
}

/// A read of a byte in place of none.
fn one_byte(
    case: &Case<'_>,
    buffer: u32,
    offset: u64,
    found: &mut Candidates,
) -> Result<(), AllocError> {
    let size = 1;
    let read = Entry::Read {
        buffer,
        offset,
        size,
    };
    let mut edits = case.edits();
    edits.replace(case.refused.entry, read)?;
    found.add_weaker(edits)
}

/// An image with sides, levels and layers that images may have.
fn within_limits(info: &ImageInfo) -> ImageInfo {
    let width = info.width.max(1).min(4_096);
    let height = info.height.max(1).min(4_096);
    let (levels, layers) = match info.tiling {
        Kind::Linear => (1, 1),
        Kind::Optimal => (
            info.levels.max(1).min(most_levels(width.max(height))),
            info.layers.max(1).min(256),
        ),
    };
    ImageInfo {
        width,
        height,
        levels,
        layers,
        ..*info
    }
}

/// How many levels an image may have whose longer side has so many texels.
fn most_levels(side: u32) -> u32 {
    let mut levels = 1;
    let mut rest = side / 2;
    for _ in 0..12 {
        if rest > 0 {
            levels = 1u32.saturating_add(levels);
            rest /= 2;
        }
    }
    levels
}

fn blocks_within_limits(info: &PoolInfo) -> PoolInfo {
    let units = info.block_size.min(MOST_BLOCK).saturating_add(1_023) / BLOCK_UNIT;
    PoolInfo {
        block_size: units.max(1).saturating_mul(BLOCK_UNIT),
        block_limit: info.block_limit.max(1).min(64),
        ..*info
    }
}

fn command_size(case: &Case<'_>, command: &Cmd, found: &mut Candidates) -> Result<(), AllocError> {
    if let Some(word) = one_word(case, command)? {
        let mut edits = case.edits();
        edits.replace_command(place_of(&case.refused), word)?;
        return found.add_stand_in(edits);
    }
    let changed = match command {
        Cmd::Copy {
            source,
            destination,
            regions,
        } => Cmd::Copy {
            source: *source,
            destination: *destination,
            regions: not_empty(case, regions.as_slice())?,
        },
        Cmd::Barrier { elements } => Cmd::Barrier {
            elements: to_the_end(case, elements.as_slice())?,
        },
        _ => return Ok(()),
    };
    let mut edits = case.edits();
    edits.replace_command(place_of(&case.refused), changed)?;
    found.add(edits)
}

/// A fill or an update of a word in place of none.
fn one_word(case: &Case<'_>, command: &Cmd) -> Result<Option<Cmd>, AllocError> {
    match command {
        Cmd::Fill {
            buffer,
            offset,
            word,
            ..
        } => Ok(Some(Cmd::Fill {
            buffer: *buffer,
            offset: *offset,
            size: Length::Bytes(4),
            word: *word,
        })),
        Cmd::Update {
            buffer,
            offset,
            bytes,
        } if bytes.is_empty() => Ok(Some(Cmd::Update {
            buffer: *buffer,
            offset: *offset,
            bytes: Sequence::new(vec![in case.alloc; 0; 4]?),
        })),
        _ => Ok(None),
    }
}

fn not_empty(case: &Case<'_>, regions: &[BufferCopy]) -> Result<Sequence<BufferCopy>, AllocError> {
    let mut all = Vec::new(case.alloc);
    for region in regions {
        if region.size > 0 {
            all.push(*region)?;
        }
    }
    Ok(Sequence::new(all))
}

fn to_the_end(case: &Case<'_>, elements: &[Element]) -> Result<Sequence<Element>, AllocError> {
    let mut all = Vec::new(case.alloc);
    for element in elements {
        match element {
            Element::Buffer(range) if range.size == Length::Bytes(0) => {
                all.push(Element::Buffer(BufferElement {
                    size: Length::Whole,
                    ..*range
                }))?;
            }
            other => all.push(*other)?,
        }
    }
    Ok(Sequence::new(all))
}
