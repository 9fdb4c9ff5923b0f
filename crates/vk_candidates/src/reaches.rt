use crate::cases::Case;
use crate::rows::{line_start, texel_bytes};
use vk_model::{Action, BufferImageCopy, Cmd, Element, Entry, Length, Place, SubresourceRange};

/// The most bytes of a texel.
pub const TEXEL: u64 = 16;

/// The sides of an image.
#[derive(Clone, Copy)]
pub struct Extent {
    /// In texels.
    pub width: u32,
    /// In texels.
    pub height: u32,
    /// How many levels.
    pub levels: u32,
    /// How many layers.
    pub layers: u32,
}

/// How many bytes of a buffer the trace reaches.
pub fn reach_of(case: &Case<'_>, buffer: u32) -> u64 {
    let mut reach = 0;
    for entry in case.trace {
        reach = reach.max(reach_in(case, entry, buffer));
    }
    reach
}

/// How many bytes of a buffer the refused point reaches.
pub fn reach_at(case: &Case<'_>, buffer: u32) -> u64 {
    match case.refused.action {
        Action::Host(entry) => reach_in(case, entry, buffer),
        Action::Run(command) => reach_by(case, command, buffer),
        Action::Wait(_) | Action::Signal(_) => 0,
    }
}

fn reach_in(case: &Case<'_>, entry: &Entry, buffer: u32) -> u64 {
    match entry {
        Entry::Write {
            buffer: other,
            offset,
            bytes,
        } if *other == buffer => end(*offset, bytes.len() as u64),
        Entry::Read {
            buffer: other,
            offset,
            size,
        } if *other == buffer => end(*offset, *size),
        Entry::Flush {
            buffer: other,
            offset,
            size,
        }
        | Entry::Invalidate {
            buffer: other,
            offset,
            size,
        } if *other == buffer => end(*offset, bytes_in(*size)),
        Entry::Submit { batches, .. } => {
            let mut reach = 0;
            for batch in batches.as_slice() {
                for command in batch.commands.as_slice() {
                    reach = reach.max(reach_by(case, command, buffer));
                }
            }
            reach
        }
        _ => 0,
    }
}

fn end(offset: u64, size: u64) -> u64 {
    offset.saturating_add(size)
}

fn bytes_in(length: Length) -> u64 {
    match length {
        Length::Bytes(bytes) => bytes,
        Length::Whole => 1,
    }
}

fn reach_by(case: &Case<'_>, command: &Cmd, buffer: u32) -> u64 {
    match command {
        Cmd::Fill {
            buffer: other,
            offset,
            size,
            ..
        } if *other == buffer => end(*offset, bytes_in(*size).max(4)),
        Cmd::Update {
            buffer: other,
            offset,
            bytes,
        } if *other == buffer => end(*offset, bytes.len() as u64),
        Cmd::CopyIn {
            buffer: other,
            image,
            regions,
            ..
        }
        | Cmd::CopyOut {
            buffer: other,
            image,
            regions,
            ..
        } if *other == buffer => texels_reach(regions.as_slice(), texel_bytes(case, *image)),
        _ => reach_of_list(command, buffer),
    }
}

fn texels_reach(regions: &[BufferImageCopy], texel: u64) -> u64 {
    let mut reach = 0;
    for region in regions {
        reach = reach.max(texels_end(region, texel));
    }
    reach
}

/// How many bytes of a buffer a copy between buffers or a barrier reaches.
fn reach_of_list(command: &Cmd, buffer: u32) -> u64 {
    let mut reach = 0;
    match command {
        Cmd::Copy {
            source,
            destination,
            regions,
        } => {
            for region in regions.as_slice() {
                if *source == buffer {
                    reach = reach.max(end(region.source_offset, region.size));
                }
                if *destination == buffer {
                    reach = reach.max(end(region.destination_offset, region.size));
                }
            }
        }
        Cmd::Barrier { elements } => {
            for element in elements.as_slice() {
                reach = reach.max(element_end(element, buffer));
            }
        }
        _ => {}
    }
    reach
}

fn element_end(element: &Element, buffer: u32) -> u64 {
    match element {
        Element::Buffer(range) if range.buffer == buffer => {
            end(range.offset, bytes_in(range.size))
        }
        _ => 0,
    }
}

/// The end of a region between a buffer and an image whose texels have so many bytes.
fn texels_end(region: &BufferImageCopy, texel: u64) -> u64 {
    let layer = region.layers.saturating_sub(1);
    let row = region.height.saturating_sub(1);
    let width = region.width as u64;
    end(
        line_start(region, texel, layer, row),
        width.saturating_mul(texel),
    )
}

/// How many bytes of a memory object the resources in it may take.
pub fn room_in(case: &Case<'_>, memory: u32) -> u64 {
    let mut room = 0;
    for entry in case.trace {
        let (place, size) = match entry {
            Entry::Buffer { info, .. } => (info.place, info.size),
            Entry::Image { info, .. } => {
                let texels = (info.width as u64).saturating_mul(info.height as u64);
                let all = texels.saturating_mul(info.layers as u64).saturating_mul(2);
                (info.place, all.saturating_mul(TEXEL).saturating_add(4096))
            }
            _ => (Place::Dedicated { memory_type: 0 }, 0),
        };
        if let Place::Memory {
            memory: other,
            offset,
        } = place
        {
            if other == memory {
                room = room.max(end(offset, size).saturating_add(63) / 64 * 64);
            }
        }
    }
    room
}

/// The sides of an image, as far as the trace reaches in it.
pub fn extent_of(case: &Case<'_>, image: u32) -> Extent {
    let mut extent = Extent {
        width: 1,
        height: 1,
        levels: 1,
        layers: 1,
    };
    for entry in case.trace {
        if let Entry::Submit { batches, .. } = entry {
            for batch in batches.as_slice() {
                for command in batch.commands.as_slice() {
                    extent = reached_by(command, image, extent);
                }
            }
        }
    }
    extent
}

fn reached_by(command: &Cmd, image: u32, extent: Extent) -> Extent {
    let mut wider = extent;
    match command {
        Cmd::Clear {
            image: other,
            ranges,
            ..
        } if *other == image => {
            for range in ranges.as_slice() {
                wider = with_range(wider, range);
            }
        }
        Cmd::CopyIn {
            image: other,
            regions,
            ..
        }
        | Cmd::CopyOut {
            image: other,
            regions,
            ..
        } if *other == image => {
            for region in regions.as_slice() {
                wider = with_region(wider, region);
            }
        }
        Cmd::Barrier { elements } => {
            for element in elements.as_slice() {
                if let Element::Image(range) = element {
                    if range.image == image {
                        wider = with_range(wider, &range.range);
                    }
                }
            }
        }
        _ => {}
    }
    wider
}

fn with_range(extent: Extent, range: &SubresourceRange) -> Extent {
    let levels = extent
        .levels
        .max(range.first_level.saturating_add(range.levels));
    let layers = extent
        .layers
        .max(range.first_layer.saturating_add(range.layers));
    Extent {
        width: scaled(extent.width.max(1), levels),
        height: extent.height,
        levels,
        layers,
    }
}

/// A side that has so many levels.
fn scaled(side: u32, levels: u32) -> u32 {
    side.max(at_level_0(1, levels.saturating_sub(1)))
}

/// The side of an image that has so many texels at a level.
fn at_level_0(side: u32, level: u32) -> u32 {
    let mut longer = side;
    for _ in 0..level.min(12) {
        longer = longer.saturating_mul(2);
    }
    longer
}

fn with_region(extent: Extent, region: &BufferImageCopy) -> Extent {
    let width = at_level_0(region.x.saturating_add(region.width), region.level);
    let height = at_level_0(region.y.saturating_add(region.height), region.level);
    Extent {
        width: extent.width.max(width),
        height: extent.height.max(height),
        levels: extent.levels.max(region.level.saturating_add(1)),
        layers: extent
            .layers
            .max(region.first_layer.saturating_add(region.layers)),
    }
}
