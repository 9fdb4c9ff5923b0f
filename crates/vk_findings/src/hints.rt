use crate::areas::Area;
use std::alloc::{AllocError, Global};
use vk_model::{BufferImageCopy, Format};
use vk_overlaps::{Extent, Span, TexelBox, last_byte, overlapping, row_count, row_size, row_start};

/// So many rows, at most, are looked at as parts.
const MOST_ROWS: usize = 4_194_304;

/// The number of a written area that is likely to meet another one. Nothing is promised of it: it only
/// says where to look first.
pub fn likely(alloc: Global, written: &[Area], read: &[Area]) -> Result<Option<usize>, AllocError> {
    if let Some(number) = likely_rows(alloc, written)? {
        return Ok(Some(number));
    }
    let ones = extents_of(alloc, written)?;
    let others = extents_of(alloc, read)?;
    match overlapping(alloc, ones.as_slice(), others.as_slice())? {
        Some(extent) => Ok(ones.iter().position(|one| *one == extent)),
        None => Ok(None),
    }
}

/// The number of an area, where all are rows, of which one overlaps a later one.
fn likely_rows(alloc: Global, areas: &[Area]) -> Result<Option<usize>, AllocError> {
    let mut rows = Vec::new(alloc);
    let mut owners = Vec::new(alloc);
    for (number, area) in areas.iter().enumerate() {
        let Area::Rows {
            buffer,
            format,
            region,
        } = area
        else {
            return Ok(None);
        };
        for row in 0..row_count(region) {
            let start = u64::try_from(row_start(region, *format, row));
            let (Ok(start), true) = (start, rows.len() < MOST_ROWS) else {
                return Ok(None);
            };
            rows.push(extent_of_bytes(*buffer, start, row_size(region, *format)))?;
            owners.push(number)?;
        }
    }
    let Some(extent) = overlapping(alloc, rows.as_slice(), &[])? else {
        return Ok(None);
    };
    let Some(place) = rows.iter().position(|row| *row == extent) else {
        return Ok(None);
    };
    Ok(owners.get(place).copied())
}

fn extents_of(alloc: Global, areas: &[Area]) -> Result<Vec<Extent>, AllocError> {
    let mut extents = Vec::with_capacity(alloc, areas.len())?;
    for area in areas {
        extents.push(extent_of(area))?;
    }
    Ok(extents)
}

/// Where an area lies; of rows the bytes from the first to the last.
fn extent_of(area: &Area) -> Extent {
    match area {
        Area::Bytes {
            buffer,
            offset,
            size,
        } => extent_of_bytes(*buffer, *offset, *size),
        Area::Rows {
            buffer,
            format,
            region,
        } => extent_of_bytes(*buffer, region.buffer_offset, bytes_of(region, *format)),
        Area::Texels { image, texels } => extent_of_texels(*image, texels),
        Area::Subresources { image, range } => Extent {
            resources: span(*image, 1),
            levels: span(range.first_level, range.levels),
            layers: span(range.first_layer, range.layers),
            columns: span(0, 1),
            rows: span(0, 1),
        },
    }
}

fn extent_of_bytes(buffer: u32, start: u64, size: u64) -> Extent {
    Extent {
        resources: span(buffer, 1),
        levels: span(0, 1),
        layers: span(0, 1),
        columns: Span { start, size },
        rows: span(0, 1),
    }
}

fn extent_of_texels(image: u32, texels: &TexelBox) -> Extent {
    Extent {
        resources: span(image, 1),
        levels: span(texels.level, 1),
        layers: span(texels.first_layer, texels.layers),
        columns: span(texels.x, texels.width),
        rows: span(texels.y, texels.height),
    }
}

/// The bytes from the first to the last of a region.
fn bytes_of(region: &BufferImageCopy, format: Format) -> u64 {
    if region.layers == 0 || region.height == 0 || region.width == 0 {
        return 0;
    }
    match u64::try_from(last_byte(region, format)) {
        Ok(end) => end.saturating_sub(region.buffer_offset),
        Err(_) => u64::MAX,
    }
}

fn span(start: u32, size: u32) -> Span {
    Span {
        start: u64::from(start),
        size: u64::from(size),
    }
}
