use crate::cases::Case;
use crate::reaches::TEXEL;
use std::alloc::AllocError;
use vk_image_tiles::texel_size;
use vk_model::{BufferCopy, BufferImageCopy, Entry};

/// Regions with more rows than this aren't taken apart.
const MOST: u64 = 256;
/// What the texels of each region start at a multiple of, in bytes.
const APART: u64 = 16;

/// Regions between an image and a buffer, taken apart.
#[derive(Drop)]
pub struct Rows {
    /// The same texels, packed in another buffer.
    pub tight: Vec<BufferImageCopy>,
    /// From there row by row to where they belong.
    pub lines: Vec<BufferCopy>,
    /// The bytes of the other buffer.
    pub size: u64,
}

/// The bytes of a texel of an image; the most where nothing makes it.
pub fn texel_bytes(case: &Case<'_>, image: u32) -> u64 {
    match case.creator(image) {
        Some((_, Entry::Image { info, .. })) => texel_size(info.format) as u64,
        _ => TEXEL,
    }
}

/// Regions whose texels have so many bytes, taken apart; none where they have too many rows.
pub fn rows_of(
    case: &Case<'_>,
    regions: &[BufferImageCopy],
    texel: u64,
) -> Result<Option<Rows>, AllocError> {
    let mut rows = Rows {
        tight: Vec::new(case.alloc),
        lines: Vec::new(case.alloc),
        size: 0,
    };
    let mut count: u64 = 0;
    for region in regions {
        count = count.saturating_add((region.height as u64).saturating_mul(region.layers as u64));
        if count > MOST {
            return Ok(None);
        }
        add_region(&mut rows, region, texel)?;
    }
    Ok(Some(rows))
}

fn add_region(rows: &mut Rows, region: &BufferImageCopy, texel: u64) -> Result<(), AllocError> {
    let start = rows.size;
    rows.tight.push(BufferImageCopy {
        buffer_offset: start,
        row_length: 0,
        image_height: 0,
        ..*region
    })?;
    let line = texel.saturating_mul(region.width as u64);
    let mut end = start;
    for layer in 0..region.layers {
        for row in 0..region.height {
            rows.lines.push(BufferCopy {
                source_offset: end,
                destination_offset: line_start(region, texel, layer, row),
                size: line,
            })?;
            end = end.saturating_add(line);
        }
    }
    rows.size = end.saturating_add(APART - 1) / APART * APART;
    Ok(())
}

/// Where a row of a region starts in its buffer, in bytes.
pub fn line_start(region: &BufferImageCopy, texel: u64, layer: u32, row: u32) -> u64 {
    let length = region.row_length.max(region.width) as u64;
    let height = region.image_height.max(region.height) as u64;
    let earlier = height
        .saturating_mul(layer as u64)
        .saturating_add(row as u64);
    let texels = earlier.saturating_mul(length);
    region
        .buffer_offset
        .saturating_add(texels.saturating_mul(texel))
}
