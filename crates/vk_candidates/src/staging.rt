use crate::cases::{Candidates, Case, place_of};
use crate::edits::InBatch;
use crate::hazards::barrier;
use crate::overlaps::{MOST, part, parts};
use crate::reaches::TEXEL;
use crate::rows::{Rows, rows_of, texel_bytes};
use std::alloc::AllocError;
use vk_model::{
    Accesses, Action, BufferCopy, BufferImageCopy, BufferInfo, Cmd, Dependency, Duplicate, Entry,
    ImageCopy, Layout, Place, Sequence, Sharing, Stages, Usage,
};

/// What each region in the buffer between starts at a multiple of, in bytes.
const APART: u64 = 16;

/// Commands that do through a buffer between what one command would do.
#[derive(Drop)]
struct Detour {
    /// The first of them.
    first: Cmd,
    /// The second, after a barrier.
    second: Cmd,
    /// The bytes of the buffer between.
    size: u64,
}

/// A copy of a buffer or an image onto itself goes through a buffer that nothing else uses; the
/// regions of its second half together, or one after another.
pub fn within_one(case: &Case<'_>, found: &mut Candidates) -> Result<(), AllocError> {
    let between = case.fresh_id(0);
    let Action::Run(command) = case.refused.action else {
        return Ok(());
    };
    if let Some(detour) = onto_itself(case, command, between)? {
        let count = parts(&detour.second).min(MOST);
        taken(case, &detour, between, 1, found)?;
        if count > 1 {
            taken(case, &detour, between, count, found)?;
        }
    }
    Ok(())
}

/// An update of parts of words, or a copy between an image and bytes that aren't aligned, goes
/// through a buffer that nothing else uses.
pub fn unaligned(case: &Case<'_>, found: &mut Candidates) -> Result<(), AllocError> {
    let between = case.fresh_id(0);
    let Action::Run(command) = case.refused.action else {
        return Ok(());
    };
    if let Some(detour) = by_bytes(case, command, between)? {
        taken(case, &detour, between, 1, found)?;
    }
    Ok(())
}

/// The commands of a detour in place of the refused one, the second in so many parts.
fn taken(
    case: &Case<'_>,
    detour: &Detour,
    between: u32,
    count: usize,
    found: &mut Candidates,
) -> Result<(), AllocError> {
    let at = place_of(&case.refused);
    let next = InBatch {
        place: at.place.saturating_add(1),
        ..at
    };
    let mut edits = case.edits();
    let made = Entry::Buffer {
        id: between,
        info: private(detour.size),
    };
    edits.insert(at.entry, made)?;
    edits.replace_command(at, detour.first.duplicate()?)?;
    for number in 0..count {
        let one = if count == 1 {
            detour.second.duplicate()?
        } else {
            part(case, &detour.second, number)?
        };
        edits.insert_command(next, barrier(case, after_writes())?)?;
        edits.insert_command(next, one)?;
    }
    found.add(edits)
}

/// A buffer of so many bytes to copy into and out of, in memory of its own.
fn private(size: u64) -> BufferInfo {
    BufferInfo {
        size: size.max(1),
        usage: Usage(3),
        sharing: Sharing::Exclusive,
        place: Place::Dedicated { memory_type: 0 },
    }
}

/// From writes to reads and writes of transfers.
fn after_writes() -> Dependency {
    Dependency {
        source_stages: Stages::TRANSFER,
        source_accesses: Accesses::TRANSFER_WRITE,
        destination_stages: Stages::TRANSFER,
        destination_accesses: Accesses(6144),
    }
}

fn onto_itself(case: &Case<'_>, command: &Cmd, between: u32) -> Result<Option<Detour>, AllocError> {
    match command {
        Cmd::Copy {
            source,
            destination,
            regions,
        } if source == destination => {
            let detour = of_buffer(case, *source, regions.as_slice(), between)?;
            Ok(Some(detour))
        }
        Cmd::CopyImage {
            source,
            source_layout,
            destination,
            destination_layout,
            regions,
        } if source == destination => {
            let (first, second, size) = of_texels(case, regions.as_slice())?;
            Ok(Some(Detour {
                first: copy_out(*source, *source_layout, between, first),
                second: copy_in(between, *destination, *destination_layout, second),
                size,
            }))
        }
        _ => Ok(None),
    }
}

fn copy_out(image: u32, layout: Layout, buffer: u32, regions: Sequence<BufferImageCopy>) -> Cmd {
    Cmd::CopyOut {
        image,
        layout,
        buffer,
        regions,
    }
}

fn copy_in(buffer: u32, image: u32, layout: Layout, regions: Sequence<BufferImageCopy>) -> Cmd {
    Cmd::CopyIn {
        buffer,
        image,
        layout,
        regions,
    }
}

fn copy(source: u32, destination: u32, regions: Vec<BufferCopy>) -> Cmd {
    Cmd::Copy {
        source,
        destination,
        regions: Sequence::new(regions),
    }
}

fn of_buffer(
    case: &Case<'_>,
    buffer: u32,
    regions: &[BufferCopy],
    between: u32,
) -> Result<Detour, AllocError> {
    let mut first = Vec::new(case.alloc);
    let mut second = Vec::new(case.alloc);
    let mut size: u64 = 0;
    for region in regions {
        first.push(BufferCopy {
            destination_offset: size,
            ..*region
        })?;
        second.push(BufferCopy {
            source_offset: size,
            ..*region
        })?;
        size = after(size, region.size);
    }
    Ok(Detour {
        first: copy(buffer, between, first),
        second: copy(between, buffer, second),
        size,
    })
}

/// The regions of either half of a copy within an image, and the bytes that they need.
fn of_texels(
    case: &Case<'_>,
    regions: &[ImageCopy],
) -> Result<(Sequence<BufferImageCopy>, Sequence<BufferImageCopy>, u64), AllocError> {
    let mut firsts = Vec::new(case.alloc);
    let mut seconds = Vec::new(case.alloc);
    let mut size: u64 = 0;
    for region in regions {
        let first = BufferImageCopy {
            buffer_offset: size,
            row_length: 0,
            image_height: 0,
            level: region.source_level,
            first_layer: region.source_first_layer,
            layers: region.layers,
            x: region.source_x,
            y: region.source_y,
            width: region.width,
            height: region.height,
        };
        firsts.push(first)?;
        seconds.push(BufferImageCopy {
            level: region.destination_level,
            first_layer: region.destination_first_layer,
            x: region.destination_x,
            y: region.destination_y,
            ..first
        })?;
        size = after(size, bytes_of(region));
    }
    Ok((Sequence::new(firsts), Sequence::new(seconds), size))
}

/// The most bytes that the texels of a region may have.
fn bytes_of(region: &ImageCopy) -> u64 {
    TEXEL
        .saturating_mul(region.width as u64)
        .saturating_mul(region.height as u64)
        .saturating_mul(region.layers as u64)
}

/// Where the next region starts after so many bytes more.
fn after(size: u64, more: u64) -> u64 {
    let end = size.saturating_add(more);
    end.saturating_add(APART - 1) / APART * APART
}

fn by_bytes(case: &Case<'_>, command: &Cmd, between: u32) -> Result<Option<Detour>, AllocError> {
    match command {
        Cmd::Update {
            buffer,
            offset,
            bytes,
        } => {
            let detour = of_update(case, *buffer, *offset, bytes.as_slice(), between)?;
            Ok(Some(detour))
        }
        Cmd::CopyOut {
            image,
            layout,
            buffer,
            regions,
        } => {
            let Some(rows) = rows_of(case, regions.as_slice(), texel_bytes(case, *image))? else {
                return Ok(None);
            };
            Ok(Some(out_by_rows(*image, *layout, *buffer, rows, between)))
        }
        Cmd::CopyIn {
            buffer,
            image,
            layout,
            regions,
        } => {
            let Some(rows) = rows_of(case, regions.as_slice(), texel_bytes(case, *image))? else {
                return Ok(None);
            };
            let detour = in_by_rows(case, *buffer, *image, *layout, rows, between)?;
            Ok(Some(detour))
        }
        _ => Ok(None),
    }
}

/// A copy out of an image to the buffer between, of which the rows are copied on.
fn out_by_rows(image: u32, layout: Layout, buffer: u32, rows: Rows, between: u32) -> Detour {
    let Rows { tight, lines, size } = rows;
    Detour {
        first: copy_out(image, layout, between, Sequence::new(tight)),
        second: copy(between, buffer, lines),
        size,
    }
}

/// A copy of the rows to the buffer between, which is copied into an image.
fn in_by_rows(
    case: &Case<'_>,
    buffer: u32,
    image: u32,
    layout: Layout,
    rows: Rows,
    between: u32,
) -> Result<Detour, AllocError> {
    let Rows { tight, lines, size } = rows;
    Ok(Detour {
        first: copy(buffer, between, turned(case, lines.as_slice())?),
        second: copy_in(between, image, layout, Sequence::new(tight)),
        size,
    })
}

/// Regions the other way.
fn turned(case: &Case<'_>, regions: &[BufferCopy]) -> Result<Vec<BufferCopy>, AllocError> {
    let mut all = Vec::new(case.alloc);
    for region in regions {
        all.push(BufferCopy {
            source_offset: region.destination_offset,
            destination_offset: region.source_offset,
            size: region.size,
        })?;
    }
    Ok(all)
}

/// An update of whole words of the buffer between, of which the bytes that are meant are copied.
fn of_update(
    case: &Case<'_>,
    buffer: u32,
    offset: u64,
    bytes: &[u8],
    between: u32,
) -> Result<Detour, AllocError> {
    let mut words = Vec::from_slice(case.alloc, bytes)?;
    let rest = bytes.len() % 4;
    if rest > 0 {
        for _ in rest..4 {
            words.push(0)?;
        }
    }
    let size = words.len() as u64;
    let region = BufferCopy {
        source_offset: 0,
        destination_offset: offset,
        size: bytes.len() as u64,
    };
    Ok(Detour {
        first: Cmd::Update {
            buffer: between,
            offset: 0,
            bytes: Sequence::new(words),
        },
        second: copy(between, buffer, vec![in case.alloc; region]?),
        size,
    })
}
