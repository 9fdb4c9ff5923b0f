ghost use Rattle.std.specs.Prelude.{◌≡◌, ◌∷◌, [], ◌+◌, ◌%◌, ℕ, List, IfOk, map};
ghost use Rattle.std.specs.List.{flat_map, enumerate_from};
ghost use Rattle.vk_model.specs.Basics.{below, byte_of};
ghost use Rattle.vk_model.specs.World.Bytes.{in_buffer};
ghost use Rattle.vk_model.specs.Sync.Access.{targets, origins, image_bytes};
ghost use Rattle.vk_model.specs.World.ByteWrites as writes;
ghost use Rattle.vk_hazards.specs.Areas.{AreAreas};

use crate::areas::{Area, bytes};
use crate::regions::{boxes, cleared, copied, destinations, levels, pasted, rows, sources};
use std::alloc::{AllocError, Global};
use vk_image_tiles::texel_size;
use vk_model::{BufferCopy, BufferImageCopy, ImageCopy, ImageElement, ImageInfo, SubresourceRange};

/// What a fill writes.
pub fn fill_targets(
    alloc: Global,
    buffer: u32,
    offset: u64,
    size: u64,
) -> Result<Vec<Area>, AllocError>
    ensures { IfOk result (λ areas. (w : ℕ) → AreAreas areas.items (targets (map (λ k. writes.byte_write (in_buffer buffer (offset + k)) (writes.Value (byte_of w (k % 4)))) (below size)))) }
{
    let areas = one(alloc, bytes(buffer, offset, size))?;
    Ok(areas)
}

/// What an update writes.
pub fn update_targets(
    alloc: Global,
    buffer: u32,
    offset: u64,
    values: &[u8],
) -> Result<Vec<Area>, AllocError>
    ensures { IfOk result (λ areas. AreAreas areas.items (targets (map (λ p. writes.byte_write (in_buffer buffer (offset + p.0)) (writes.Value p.1)) (enumerate_from 0 values.now)))) }
{
    let areas = one(alloc, bytes(buffer, offset, values.len() as u64))?;
    Ok(areas)
}

/// One area.
pub fn one(alloc: Global, area: Area) -> Result<Vec<Area>, AllocError>
    ensures { IfOk result (λ areas. areas.items ≡ area ∷ []) }
{
    let mut areas = Vec::new(alloc);
    areas.push(area)?;
    Ok(areas)
}

/// What a copy between buffers reads.
#[tactic(auto, using(crate::proofs::CommandAreas::copy_reads))]
pub fn copy_reads(
    alloc: Global,
    source: u32,
    regions: &[BufferCopy],
) -> Result<Vec<Area>, AllocError>
    ensures { IfOk result (λ areas. (d : ℕ) → AreAreas areas.items (origins (flat_map (writes.copy_writes source d) regions.now))) }
{
    let areas = copied(alloc, source, regions)?;
    Ok(areas)
}

/// What a copy between buffers writes.
#[tactic(auto, using(crate::proofs::CommandAreas::copy_targets))]
pub fn copy_targets(
    alloc: Global,
    destination: u32,
    regions: &[BufferCopy],
) -> Result<Vec<Area>, AllocError>
    ensures { IfOk result (λ areas. (s : ℕ) → AreAreas areas.items (targets (flat_map (writes.copy_writes s destination) regions.now))) }
{
    let areas = pasted(alloc, destination, regions)?;
    Ok(areas)
}

/// What a clear writes.
pub fn clear_targets(
    alloc: Global,
    image: u32,
    info: Option<ImageInfo>,
    ranges: &[SubresourceRange],
) -> Result<Vec<Area>, AllocError>
    ensures { IfOk result (λ areas. (color : List ℕ) → AreAreas areas.items (targets (flat_map (writes.clear_writes image color info) ranges.now))) }
{
    let Some(info) = info else {
        return Ok(Vec::new(alloc));
    };
    let areas = cleared(alloc, image, &info, ranges)?;
    Ok(areas)
}

/// What a copy from a buffer to an image reads.
pub fn copy_in_reads(
    alloc: Global,
    buffer: u32,
    info: Option<ImageInfo>,
    regions: &[BufferImageCopy],
) -> Result<Vec<Area>, AllocError>
    ensures { IfOk result (λ areas. (i : ℕ) → AreAreas areas.items (origins (flat_map (writes.copy_in_writes buffer i info) regions.now))) }
{
    let Some(info) = info else {
        return Ok(Vec::new(alloc));
    };
    let areas = rows(alloc, buffer, texel_size(info.format), regions)?;
    Ok(areas)
}

/// What a copy from a buffer to an image writes.
pub fn copy_in_targets(
    alloc: Global,
    image: u32,
    info: Option<ImageInfo>,
    regions: &[BufferImageCopy],
) -> Result<Vec<Area>, AllocError>
    ensures { IfOk result (λ areas. (b : ℕ) → AreAreas areas.items (targets (flat_map (writes.copy_in_writes b image info) regions.now))) }
{
    let Some(info) = info else {
        return Ok(Vec::new(alloc));
    };
    let areas = boxes(alloc, image, texel_size(info.format), regions)?;
    Ok(areas)
}

/// What a copy from an image to a buffer reads.
pub fn copy_out_reads(
    alloc: Global,
    image: u32,
    info: Option<ImageInfo>,
    regions: &[BufferImageCopy],
) -> Result<Vec<Area>, AllocError>
    ensures { IfOk result (λ areas. (b : ℕ) → AreAreas areas.items (origins (flat_map (writes.copy_out_writes image b info) regions.now))) }
{
    let Some(info) = info else {
        return Ok(Vec::new(alloc));
    };
    let areas = boxes(alloc, image, texel_size(info.format), regions)?;
    Ok(areas)
}

/// What a copy from an image to a buffer writes.
pub fn copy_out_targets(
    alloc: Global,
    buffer: u32,
    info: Option<ImageInfo>,
    regions: &[BufferImageCopy],
) -> Result<Vec<Area>, AllocError>
    ensures { IfOk result (λ areas. (i : ℕ) → AreAreas areas.items (targets (flat_map (writes.copy_out_writes i buffer info) regions.now))) }
{
    let Some(info) = info else {
        return Ok(Vec::new(alloc));
    };
    let areas = rows(alloc, buffer, texel_size(info.format), regions)?;
    Ok(areas)
}

/// What a copy between images reads, by the image that it writes.
pub fn copy_image_reads(
    alloc: Global,
    source: u32,
    info: Option<ImageInfo>,
    regions: &[ImageCopy],
) -> Result<Vec<Area>, AllocError>
    ensures { IfOk result (λ areas. (d : ℕ) → AreAreas areas.items (origins (flat_map (writes.copy_image_writes source d info) regions.now))) }
{
    let Some(info) = info else {
        return Ok(Vec::new(alloc));
    };
    let areas = sources(alloc, source, texel_size(info.format), regions)?;
    Ok(areas)
}

/// What a copy between images writes.
pub fn copy_image_targets(
    alloc: Global,
    destination: u32,
    info: Option<ImageInfo>,
    regions: &[ImageCopy],
) -> Result<Vec<Area>, AllocError>
    ensures { IfOk result (λ areas. (s : ℕ) → AreAreas areas.items (targets (flat_map (writes.copy_image_writes s destination info) regions.now))) }
{
    let Some(info) = info else {
        return Ok(Vec::new(alloc));
    };
    let areas = destinations(alloc, destination, texel_size(info.format), regions)?;
    Ok(areas)
}

/// The bytes that an image element names.
#[tactic(auto, using(crate::proofs::CommandAreas::named_bytes))]
pub fn named_bytes(
    alloc: Global,
    info: Option<ImageInfo>,
    element: &ImageElement,
) -> Result<Vec<Area>, AllocError>
    ensures { IfOk result (λ areas. AreAreas areas.items (image_bytes info element.now)) }
{
    let Some(info) = info else {
        return Ok(Vec::new(alloc));
    };
    let areas = levels(alloc, element.image, &info, &element.range)?;
    Ok(areas)
}
