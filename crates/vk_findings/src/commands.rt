ghost use Rattle.std.specs.Prelude.{◌≡◌, ◌∷◌, [], IfOk, map};
ghost use Rattle.vk_model.specs.Trace.Image.{texel};
ghost use Rattle.vk_model.specs.World.Areas as spec;
ghost use Rattle.vk_model.specs.World.ByteWrites.{buffer_size, fill_size};
ghost use Rattle.vk_history.specs.PointViews.{past};
ghost use Rattle.vk_findings.specs.Inner.Areas.{area_of};

use crate::areas::Area;
use std::alloc::{AllocError, Global};
use vk_history::History;
use vk_model::{BufferCopy, BufferImageCopy, Cmd, Format, ImageCopy, Length, SubresourceRange};
use vk_overlaps::{destination_box, region_box, source_box};

/// The areas that a command writes, by its regions or ranges in order.
pub fn areas_written(
    alloc: Global,
    history: &History<'_>,
    command: &Cmd,
) -> Result<Vec<Area>, AllocError>
    ensures { IfOk result (λ areas. map area_of areas.items ≡ spec.areas_written (past history.now) command.now) }
{
    match command {
        Cmd::Fill {
            buffer,
            offset,
            size,
            ..
        } => filled(alloc, history, *buffer, *offset, *size),
        Cmd::Update {
            buffer,
            offset,
            bytes,
        } => one_range(alloc, *buffer, *offset, bytes.len() as u64),
        Cmd::Copy {
            destination,
            regions,
            ..
        } => copies_written(alloc, *destination, regions.as_slice()),
        Cmd::Clear { image, ranges, .. } => ranges_cleared(alloc, *image, ranges.as_slice()),
        Cmd::CopyIn { image, regions, .. } => region_texels(alloc, *image, regions.as_slice()),
        Cmd::CopyOut {
            image,
            buffer,
            regions,
            ..
        } => region_rows(alloc, history, *buffer, *image, regions.as_slice()),
        Cmd::CopyImage {
            destination,
            regions,
            ..
        } => texels_written(alloc, *destination, regions.as_slice()),
        _ => Ok(Vec::new(alloc)),
    }
}

/// The areas that it reads, by its regions in order.
pub fn areas_read(
    alloc: Global,
    history: &History<'_>,
    command: &Cmd,
) -> Result<Vec<Area>, AllocError>
    ensures { IfOk result (λ areas. map area_of areas.items ≡ spec.areas_read (past history.now) command.now) }
{
    match command {
        Cmd::Copy {
            source,
            regions,
            ..
        } => copies_read(alloc, *source, regions.as_slice()),
        Cmd::CopyIn {
            buffer,
            image,
            regions,
            ..
        } => region_rows(alloc, history, *buffer, *image, regions.as_slice()),
        Cmd::CopyOut { image, regions, .. } => region_texels(alloc, *image, regions.as_slice()),
        Cmd::CopyImage {
            source,
            regions,
            ..
        } => texels_read(alloc, *source, regions.as_slice()),
        _ => Ok(Vec::new(alloc)),
    }
}

/// What a fill writes.
fn filled(
    alloc: Global,
    history: &History<'_>,
    buffer: u32,
    offset: u64,
    length: Length,
) -> Result<Vec<Area>, AllocError>
    ensures { IfOk result (λ areas. map area_of areas.items ≡ spec.Bytes buffer offset (fill_size (buffer_size (past history.now) buffer) offset length) ∷ []) }
{
    let bytes = length.filled(history.size(buffer), offset);
    one_range(alloc, buffer, offset, bytes)
}

fn one_range(alloc: Global, buffer: u32, offset: u64, size: u64) -> Result<Vec<Area>, AllocError>
    ensures { IfOk result (λ areas. map area_of areas.items ≡ spec.Bytes buffer offset size ∷ []) }
{
    let mut areas = Vec::new(alloc);
    areas.push(Area::Bytes {
        buffer,
        offset,
        size,
    })?;
    Ok(areas)
}

fn copies_written(
    alloc: Global,
    buffer: u32,
    regions: &[BufferCopy],
) -> Result<Vec<Area>, AllocError>
    ensures { IfOk result (λ areas. map area_of areas.items ≡ map (λ g. spec.Bytes buffer g.destination_offset g.size) regions.now) }
{
    let mut areas = Vec::with_capacity(alloc, regions.len())?;
    for region in regions {
        areas.push(Area::Bytes {
            buffer,
            offset: region.destination_offset,
            size: region.size,
        })?;
    }
    Ok(areas)
}

fn copies_read(alloc: Global, buffer: u32, regions: &[BufferCopy]) -> Result<Vec<Area>, AllocError>
    ensures { IfOk result (λ areas. map area_of areas.items ≡ map (λ g. spec.Bytes buffer g.source_offset g.size) regions.now) }
{
    let mut areas = Vec::with_capacity(alloc, regions.len())?;
    for region in regions {
        areas.push(Area::Bytes {
            buffer,
            offset: region.source_offset,
            size: region.size,
        })?;
    }
    Ok(areas)
}

fn ranges_cleared(
    alloc: Global,
    image: u32,
    ranges: &[SubresourceRange],
) -> Result<Vec<Area>, AllocError>
    ensures { IfOk result (λ areas. map area_of areas.items ≡ map (spec.Subresources image) ranges.now) }
{
    let mut areas = Vec::with_capacity(alloc, ranges.len())?;
    for range in ranges {
        areas.push(Area::Subresources {
            image,
            range: *range,
        })?;
    }
    Ok(areas)
}

fn region_texels(
    alloc: Global,
    image: u32,
    regions: &[BufferImageCopy],
) -> Result<Vec<Area>, AllocError>
    ensures { IfOk result (λ areas. map area_of areas.items ≡ map (λ g. spec.Texels image (spec.region_box g)) regions.now) }
{
    let mut areas = Vec::with_capacity(alloc, regions.len())?;
    for region in regions {
        areas.push(Area::Texels {
            image,
            texels: region_box(region),
        })?;
    }
    Ok(areas)
}

fn region_rows(
    alloc: Global,
    history: &History<'_>,
    buffer: u32,
    id: u32,
    regions: &[BufferImageCopy],
) -> Result<Vec<Area>, AllocError>
    ensures { IfOk result (λ areas. map area_of areas.items ≡ spec.region_rows (past history.now) buffer id regions.now) }
{
    match history.image(id) {
        Some(info) => rows_of(alloc, buffer, info.format, regions),
        None => Ok(Vec::new(alloc)),
    }
}

fn rows_of(
    alloc: Global,
    buffer: u32,
    format: Format,
    regions: &[BufferImageCopy],
) -> Result<Vec<Area>, AllocError>
    ensures { IfOk result (λ areas. map area_of areas.items ≡ map (spec.Rows buffer (texel format)) regions.now) }
{
    let mut areas = Vec::with_capacity(alloc, regions.len())?;
    for region in regions {
        areas.push(Area::Rows {
            buffer,
            format,
            region: *region,
        })?;
    }
    Ok(areas)
}

fn texels_written(alloc: Global, image: u32, regions: &[ImageCopy]) -> Result<Vec<Area>, AllocError>
    ensures { IfOk result (λ areas. map area_of areas.items ≡ map (λ g. spec.Texels image (spec.destination_box g)) regions.now) }
{
    let mut areas = Vec::with_capacity(alloc, regions.len())?;
    for region in regions {
        areas.push(Area::Texels {
            image,
            texels: destination_box(region),
        })?;
    }
    Ok(areas)
}

fn texels_read(alloc: Global, image: u32, regions: &[ImageCopy]) -> Result<Vec<Area>, AllocError>
    ensures { IfOk result (λ areas. map area_of areas.items ≡ map (λ g. spec.Texels image (spec.source_box g)) regions.now) }
{
    let mut areas = Vec::with_capacity(alloc, regions.len())?;
    for region in regions {
        areas.push(Area::Texels {
            image,
            texels: source_box(region),
        })?;
    }
    Ok(areas)
}
