ghost use Rattle.std.specs.Prelude.{◌≡◌, ℕ, IfOk};
ghost use Rattle.std.specs.List.{flat_map};
ghost use Rattle.vk_model.specs.Sync.Access.{bytes_of};
ghost use Rattle.vk_hazards.specs.Areas.{AreAreas};
ghost use Rattle.vk_hazards.specs.Inner.Parts.{layer_bytes, region_bytes, box_bytes, source_bytes, destination_bytes, range_part};

use crate::areas::{Area, bytes, destination_box, level_area, region_box, row_area, source_box};
use std::alloc::{AllocError, Global};
use vk_model::{BufferCopy, BufferImageCopy, ImageCopy, ImageInfo, SubresourceRange};

/// What a copy between buffers reads.
pub fn copied(alloc: Global, source: u32, regions: &[BufferCopy]) -> Result<Vec<Area>, AllocError>
    ensures { IfOk result (λ areas. AreAreas areas.items (flat_map (λ g. bytes_of source g.source_offset g.size) regions.now)) }
{
    let mut areas = Vec::new(alloc);
    for region in regions {
        areas.push(bytes(source, region.source_offset, region.size))?;
    }
    Ok(areas)
}

/// What a copy between buffers writes.
pub fn pasted(
    alloc: Global,
    destination: u32,
    regions: &[BufferCopy],
) -> Result<Vec<Area>, AllocError>
    ensures { IfOk result (λ areas. AreAreas areas.items (flat_map (λ g. bytes_of destination g.destination_offset g.size) regions.now)) }
{
    let mut areas = Vec::new(alloc);
    for region in regions {
        areas.push(bytes(destination, region.destination_offset, region.size))?;
    }
    Ok(areas)
}

/// The texels of a copy between a buffer and an image, which have so many bytes.
pub fn boxes(
    alloc: Global,
    image: u32,
    texel: u32,
    regions: &[BufferImageCopy],
) -> Result<Vec<Area>, AllocError>
    ensures { IfOk result (λ areas. AreAreas areas.items (flat_map (box_bytes image texel) regions.now)) }
{
    let mut areas = Vec::new(alloc);
    for region in regions {
        areas.push(region_box(image, texel, region))?;
    }
    Ok(areas)
}

/// The texels that a copy between images reads.
pub fn sources(
    alloc: Global,
    image: u32,
    texel: u32,
    regions: &[ImageCopy],
) -> Result<Vec<Area>, AllocError>
    ensures { IfOk result (λ areas. AreAreas areas.items (flat_map (source_bytes image texel) regions.now)) }
{
    let mut areas = Vec::new(alloc);
    for region in regions {
        areas.push(source_box(image, texel, region))?;
    }
    Ok(areas)
}

/// The texels that a copy between images writes.
pub fn destinations(
    alloc: Global,
    image: u32,
    texel: u32,
    regions: &[ImageCopy],
) -> Result<Vec<Area>, AllocError>
    ensures { IfOk result (λ areas. AreAreas areas.items (flat_map (destination_bytes image texel) regions.now)) }
{
    let mut areas = Vec::new(alloc);
    for region in regions {
        areas.push(destination_box(image, texel, region))?;
    }
    Ok(areas)
}

/// The bytes in the buffer of a copy between a buffer and an image.
pub fn rows(
    alloc: Global,
    buffer: u32,
    texel: u32,
    regions: &[BufferImageCopy],
) -> Result<Vec<Area>, AllocError>
    ensures { IfOk result (λ areas. AreAreas areas.items (flat_map (region_bytes buffer texel) regions.now)) }
{
    let mut areas = Vec::new(alloc);
    for region in regions {
        let mut more = region_rows(alloc, buffer, texel, region)?;
        areas.append(&mut more)?;
    }
    Ok(areas)
}

/// The rows of a region.
fn region_rows(
    alloc: Global,
    buffer: u32,
    texel: u32,
    region: &BufferImageCopy,
) -> Result<Vec<Area>, AllocError>
    ensures { IfOk result (λ areas. AreAreas areas.items (region_bytes buffer texel region.now)) }
{
    let mut areas = Vec::new(alloc);
    for layer in 0..region.layers {
        let mut more = layer_rows(alloc, buffer, texel, region, layer)?;
        areas.append(&mut more)?;
    }
    Ok(areas)
}

/// The rows of a layer of a region.
fn layer_rows(
    alloc: Global,
    buffer: u32,
    texel: u32,
    region: &BufferImageCopy,
    layer: u32,
) -> Result<Vec<Area>, AllocError>
    ensures { IfOk result (λ areas. AreAreas areas.items (layer_bytes buffer texel region.now layer)) }
{
    let mut areas = Vec::new(alloc);
    for row in 0..region.height {
        if let Some(area) = row_area(buffer, texel, region, layer, row) {
            areas.push(area)?;
        }
    }
    Ok(areas)
}

/// The texels of ranges of levels and layers.
pub fn cleared(
    alloc: Global,
    image: u32,
    info: &ImageInfo,
    ranges: &[SubresourceRange],
) -> Result<Vec<Area>, AllocError>
    ensures { IfOk result (λ areas. AreAreas areas.items (flat_map (range_part image info.now) ranges.now)) }
{
    let mut areas = Vec::new(alloc);
    for range in ranges {
        let mut more = levels(alloc, image, info, range)?;
        areas.append(&mut more)?;
    }
    Ok(areas)
}

/// The texels of a range of levels and layers.
pub fn levels(
    alloc: Global,
    image: u32,
    info: &ImageInfo,
    range: &SubresourceRange,
) -> Result<Vec<Area>, AllocError>
    ensures { IfOk result (λ areas. AreAreas areas.items (range_part image info.now range.now)) }
{
    let mut areas = Vec::new(alloc);
    for index in 0..range.levels {
        if let Some(area) = level_area(image, info, range, index) {
            areas.push(area)?;
        }
    }
    Ok(areas)
}
