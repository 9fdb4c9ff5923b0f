use crate::creating::CreatingEntries;
use vk_image_tiles::texel_size;
use vk_model::{BufferCopy, BufferImageCopy, Cmd, Entry, ImageCopy, Length, SubresourceRange};
use vk_order::Byte;

/// Where the value comes from that a command writes to a byte.
#[derive(Clone, Copy)]
pub enum Origin {
    /// The command has it.
    Command,
    /// It is copied from another byte.
    Byte(Byte),
}

/// Where the value comes from that a command writes to a byte, if it writes it; of several writes the
/// first decides. The objects are those that were made before the command.
pub fn origin_of(creating: &CreatingEntries<'_>, command: &Cmd, byte: Byte) -> Option<Origin> {
    match byte {
        Byte::Buffer { buffer, at } => buffer_origin(creating, command, buffer, at),
        Byte::Texel { .. } => texel_origin(creating, command, byte),
    }
}

fn buffer_origin(
    creating: &CreatingEntries<'_>,
    command: &Cmd,
    own: u32,
    at: u64,
) -> Option<Origin> {
    match command {
        Cmd::Fill {
            buffer,
            offset,
            size,
            ..
        } if *buffer == own => {
            let size = filled(creating, own, *offset, *size);
            is_within(at, *offset, size).then_some(Origin::Command)
        }
        Cmd::Update {
            buffer,
            offset,
            bytes,
        } if *buffer == own => {
            is_within(at, *offset, bytes.len() as u64).then_some(Origin::Command)
        }
        Cmd::Copy {
            source,
            destination,
            regions,
        } if *destination == own => copied_from(regions.as_slice(), *source, at),
        Cmd::CopyOut {
            image,
            buffer,
            regions,
            ..
        } if *buffer == own => {
            let texel = texel_of(creating, *image)?;
            for region in regions.as_slice() {
                if let Some(from) = texel_at(region, *image, texel, at) {
                    return Some(Origin::Byte(from));
                }
            }
            None
        }
        _ => None,
    }
}

/// How many bytes a fill writes.
fn filled(creating: &CreatingEntries<'_>, buffer: u32, offset: u64, size: Length) -> u64 {
    match creating.entry(buffer) {
        Some(Entry::Buffer { info, .. }) => size.filled(info.size, offset),
        _ => 0,
    }
}

fn is_within(at: u64, offset: u64, size: u64) -> bool {
    at.checked_sub(offset).is_some_and(|from| from < size)
}

/// Where a copy between buffers takes a byte from.
fn copied_from(regions: &[BufferCopy], source: u32, at: u64) -> Option<Origin> {
    for region in regions {
        if let Some(from) = at.checked_sub(region.destination_offset) {
            if from < region.size {
                return Some(Origin::Byte(Byte::Buffer {
                    buffer: source,
                    at: region.source_offset.saturating_add(from),
                }));
            }
        }
    }
    None
}

/// How many bytes a texel of an image has.
fn texel_of(creating: &CreatingEntries<'_>, image: u32) -> Option<u64> {
    match creating.entry(image) {
        Some(Entry::Image { info, .. }) => Some(texel_size(info.format) as u64),
        _ => None,
    }
}

/// How many texels lie from one row to the next in the buffer of a region, and how many rows from one
/// layer to the next.
fn pitches(region: &BufferImageCopy) -> (u64, u64) {
    let row = match region.row_length {
        0 => region.width,
        length => length,
    };
    let layer = match region.image_height {
        0 => region.height,
        height => height,
    };
    (row as u64, layer as u64)
}

/// The byte of a texel that a region has at a byte of its buffer.
fn texel_at(region: &BufferImageCopy, image: u32, texel: u64, at: u64) -> Option<Byte> {
    let from = at.checked_sub(region.buffer_offset)?;
    let (row, layer) = pitches(region);
    let number = from.checked_div(texel)?;
    let texel_byte = from.checked_rem(texel)?;
    let line = number.checked_div(row)?;
    let x = number.checked_rem(row)?;
    let z = line.checked_div(layer)?;
    let y = line.checked_rem(layer)?;
    let is_inside = x < region.width as u64 && y < region.height as u64 && z < region.layers as u64;
    if !is_inside {
        return None;
    }
    Some(Byte::Texel {
        image,
        level: region.level,
        layer: region.first_layer.saturating_add(z as u32),
        x: region.x.saturating_add(x as u32),
        y: region.y.saturating_add(y as u32),
        texel_byte: u32::try_from(texel_byte).ok()?,
    })
}

fn texel_origin(creating: &CreatingEntries<'_>, command: &Cmd, byte: Byte) -> Option<Origin> {
    let Byte::Texel { image: own, .. } = byte else {
        return None;
    };
    match command {
        Cmd::Clear { image, ranges, .. } if *image == own => cleared(ranges.as_slice(), byte),
        Cmd::CopyIn {
            buffer,
            image,
            regions,
            ..
        } if *image == own => {
            let texel = texel_of(creating, *image)?;
            for region in regions.as_slice() {
                if let Some(from) = buffer_byte_at(region, *buffer, texel, byte) {
                    return Some(Origin::Byte(from));
                }
            }
            None
        }
        Cmd::CopyImage {
            source,
            destination,
            regions,
            ..
        } if *destination == own => {
            for region in regions.as_slice() {
                if let Some(from) = source_texel(region, *source, byte) {
                    return Some(Origin::Byte(from));
                }
            }
            None
        }
        _ => None,
    }
}

/// That a clear has the value of a byte, if one of its ranges has the byte.
fn cleared(ranges: &[SubresourceRange], byte: Byte) -> Option<Origin> {
    for range in ranges {
        if has_texel(range, byte) {
            return Some(Origin::Command);
        }
    }
    None
}

/// Whether levels and layers of its image have a byte.
pub fn has_texel(range: &SubresourceRange, byte: Byte) -> bool {
    match byte {
        Byte::Texel { level, layer, .. } => {
            is_counted(level, range.first_level, range.levels).is_some()
                && is_counted(layer, range.first_layer, range.layers).is_some()
        }
        Byte::Buffer { .. } => false,
    }
}

/// How far a number is from the first of so many, if it is among them.
fn is_counted(number: u32, first: u32, count: u32) -> Option<u32> {
    let from = number.checked_sub(first)?;
    if from < count { Some(from) } else { None }
}

/// The byte of its buffer that a region has at a byte of a texel.
fn buffer_byte_at(region: &BufferImageCopy, buffer: u32, texel: u64, byte: Byte) -> Option<Byte> {
    let Byte::Texel {
        level,
        layer,
        x,
        y,
        texel_byte,
        ..
    } = byte
    else {
        return None;
    };
    if level != region.level {
        return None;
    }
    let z = is_counted(layer, region.first_layer, region.layers)?;
    let x = is_counted(x, region.x, region.width)?;
    let y = is_counted(y, region.y, region.height)?;
    let (row, rows) = pitches(region);
    let line = (z as u64).checked_mul(rows)?.checked_add(y as u64)?;
    let number = line.checked_mul(row)?.checked_add(x as u64)?;
    let from = number.checked_mul(texel)?.checked_add(texel_byte as u64)?;
    Some(Byte::Buffer {
        buffer,
        at: region.buffer_offset.checked_add(from)?,
    })
}

/// The byte of a texel that a region of a copy between images takes to another one.
fn source_texel(region: &ImageCopy, source: u32, byte: Byte) -> Option<Byte> {
    let Byte::Texel {
        level,
        layer,
        x,
        y,
        texel_byte,
        ..
    } = byte
    else {
        return None;
    };
    if level != region.destination_level {
        return None;
    }
    let z = is_counted(layer, region.destination_first_layer, region.layers)?;
    let x = is_counted(x, region.destination_x, region.width)?;
    let y = is_counted(y, region.destination_y, region.height)?;
    Some(Byte::Texel {
        image: source,
        level: region.source_level,
        layer: region.source_first_layer.checked_add(z)?,
        x: region.source_x.checked_add(x)?,
        y: region.source_y.checked_add(y)?,
        texel_byte,
    })
}
