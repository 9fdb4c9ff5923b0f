ghost use Rattle.std.specs.Prelude.{◌≡◌, IfOk, map};
ghost use Rattle.vk_model.specs.Basics.{some_pair};
ghost use Rattle.vk_model.specs.World.Areas.{subresources_meet};
ghost use Rattle.vk_overlaps.specs.Regions as regions_of;
ghost use Rattle.vk_overlaps.specs.Inner.Places as places;

use crate::extents::{Extent, Span};
use crate::overlaps::overlap;
use std::alloc::{AllocError, Global};
use vk_model::{BufferCopy, BufferImageCopy, ImageCopy, SubresourceRange};

/// Whether regions of a buffer copy overlap: what one writes, with what another writes or any reads. The
/// only error, of this and of the others, is want of memory.
pub fn copies_overlap(
    alloc: Global,
    source: u32,
    destination: u32,
    regions: &[BufferCopy],
) -> Result<bool, AllocError>
    ensures { IfOk result (λ found. found ≡ regions_of.copies_overlap source destination regions.now) }
{
    if source == destination {
        copies_within(alloc, regions)
    } else {
        copies_between(alloc, regions)
    }
}

/// The same from one buffer to another.
fn copies_between(alloc: Global, regions: &[BufferCopy]) -> Result<bool, AllocError>
    ensures { IfOk result (λ found. found ≡ some_pair regions_of.copies_meet regions.now) }
{
    if regions.len() < 2 {
        return Ok(false);
    }
    let written = copies_written(alloc, regions)?;
    overlap(alloc, written.as_slice(), &[])
}

/// The same within one buffer.
fn copies_within(alloc: Global, regions: &[BufferCopy]) -> Result<bool, AllocError>
    ensures { IfOk result (λ found. found ≡ regions_of.copies_overlap 0 0 regions.now) }
{
    let written = copies_written(alloc, regions)?;
    let read = copies_read(alloc, regions)?;
    overlap(alloc, written.as_slice(), read.as_slice())
}

fn copies_written(alloc: Global, regions: &[BufferCopy]) -> Result<Vec<Extent>, AllocError>
    ensures { IfOk result (λ parts. parts.items ≡ map places.copy_written regions.now) }
{
    regions
        .iter()
        .map(|region| bytes_at(region.destination_offset, region.size))
        .collect(alloc)
}

fn copies_read(alloc: Global, regions: &[BufferCopy]) -> Result<Vec<Extent>, AllocError>
    ensures { IfOk result (λ parts. parts.items ≡ map places.copy_read regions.now) }
{
    regions
        .iter()
        .map(|region| bytes_at(region.source_offset, region.size))
        .collect(alloc)
}

/// Where bytes of a buffer lie.
pub fn bytes_at(start: u64, size: u64) -> Extent
    ensures { result ≡ places.bytes_at start size }
{
    let one = Span { start: 0, size: 1 };
    Extent {
        resources: one,
        levels: one,
        layers: one,
        columns: Span { start, size },
        rows: one,
    }
}

/// Whether ranges of one image have a subresource in common.
pub fn ranges_overlap(alloc: Global, ranges: &[SubresourceRange]) -> Result<bool, AllocError>
    ensures { IfOk result (λ found. found ≡ some_pair subresources_meet ranges.now) }
{
    if ranges.len() < 2 {
        return Ok(false);
    }
    let parts = ranges_of(alloc, ranges)?;
    overlap(alloc, parts.as_slice(), &[])
}

fn ranges_of(alloc: Global, ranges: &[SubresourceRange]) -> Result<Vec<Extent>, AllocError>
    ensures { IfOk result (λ parts. parts.items ≡ map (places.range_at 0) ranges.now) }
{
    ranges.iter().map(|range| range_at(0, range)).collect(alloc)
}

/// Where levels and layers of an image lie.
pub fn range_at(image: u32, range: &SubresourceRange) -> Extent
    ensures { result ≡ places.range_at image range.now }
{
    let one = Span { start: 0, size: 1 };
    Extent {
        resources: span(image, 1),
        levels: span(range.first_level, range.levels),
        layers: span(range.first_layer, range.layers),
        columns: one,
        rows: one,
    }
}

fn span(start: u32, size: u32) -> Span
    ensures { result ≡ places.span_of start size }
{
    Span {
        start: u64::from(start),
        size: u64::from(size),
    }
}

/// Whether regions have a texel of the image in common.
pub fn regions_overlap(alloc: Global, regions: &[BufferImageCopy]) -> Result<bool, AllocError>
    ensures { IfOk result (λ found. found ≡ some_pair regions_of.regions_meet regions.now) }
{
    if regions.len() < 2 {
        return Ok(false);
    }
    let parts = texels_of(alloc, regions)?;
    overlap(alloc, parts.as_slice(), &[])
}

fn texels_of(alloc: Global, regions: &[BufferImageCopy]) -> Result<Vec<Extent>, AllocError>
    ensures { IfOk result (λ parts. parts.items ≡ map places.region_texels regions.now) }
{
    regions.iter().map(region_texels).collect(alloc)
}

fn region_texels(region: &BufferImageCopy) -> Extent
    ensures { result ≡ places.region_texels region.now }
{
    Extent {
        resources: Span { start: 0, size: 1 },
        levels: span(region.level, 1),
        layers: span(region.first_layer, region.layers),
        columns: span(region.x, region.width),
        rows: span(region.y, region.height),
    }
}

/// Whether regions of an image copy overlap: what one writes, with what another writes or any reads.
pub fn image_copies_overlap(
    alloc: Global,
    source: u32,
    destination: u32,
    regions: &[ImageCopy],
) -> Result<bool, AllocError>
    ensures { IfOk result (λ found. found ≡ regions_of.image_copies_overlap source destination regions.now) }
{
    if source == destination {
        image_copies_within(alloc, regions)
    } else {
        image_copies_between(alloc, regions)
    }
}

/// The same from one image to another.
fn image_copies_between(alloc: Global, regions: &[ImageCopy]) -> Result<bool, AllocError>
    ensures { IfOk result (λ found. found ≡ some_pair regions_of.image_copies_meet regions.now) }
{
    if regions.len() < 2 {
        return Ok(false);
    }
    let written = image_copies_written(alloc, regions)?;
    overlap(alloc, written.as_slice(), &[])
}

/// The same within one image.
fn image_copies_within(alloc: Global, regions: &[ImageCopy]) -> Result<bool, AllocError>
    ensures { IfOk result (λ found. found ≡ regions_of.image_copies_overlap 0 0 regions.now) }
{
    let written = image_copies_written(alloc, regions)?;
    let read = image_copies_read(alloc, regions)?;
    overlap(alloc, written.as_slice(), read.as_slice())
}

fn image_copies_written(alloc: Global, regions: &[ImageCopy]) -> Result<Vec<Extent>, AllocError>
    ensures { IfOk result (λ parts. parts.items ≡ map places.image_copy_written regions.now) }
{
    regions.iter().map(destination_texels).collect(alloc)
}

fn destination_texels(region: &ImageCopy) -> Extent
    ensures { result ≡ places.image_copy_written region.now }
{
    Extent {
        resources: Span { start: 0, size: 1 },
        levels: span(region.destination_level, 1),
        layers: span(region.destination_first_layer, region.layers),
        columns: span(region.destination_x, region.width),
        rows: span(region.destination_y, region.height),
    }
}

fn image_copies_read(alloc: Global, regions: &[ImageCopy]) -> Result<Vec<Extent>, AllocError>
    ensures { IfOk result (λ parts. parts.items ≡ map places.image_copy_read regions.now) }
{
    regions.iter().map(source_texels).collect(alloc)
}

fn source_texels(region: &ImageCopy) -> Extent
    ensures { result ≡ places.image_copy_read region.now }
{
    Extent {
        resources: Span { start: 0, size: 1 },
        levels: span(region.source_level, 1),
        layers: span(region.source_first_layer, region.layers),
        columns: span(region.source_x, region.width),
        rows: span(region.source_y, region.height),
    }
}
