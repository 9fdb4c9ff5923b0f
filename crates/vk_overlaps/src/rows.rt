ghost use Rattle.std.specs.Prelude.{◌≡◌, ◌<◌, ◌-◌, ◌+◌, ◌*◌, ◌^◌, ◌++◌, IfOk, IfSome, map, true, false};
ghost use Rattle.std.specs.List.{list_any, filter, flat_map};
ghost use Rattle.vk_model.specs.Trace.Image.{texel};
ghost use Rattle.vk_model.specs.Basics.{some_pair};
ghost use Rattle.vk_model.specs.Memory.Suballocation as ranges_of;
ghost use Rattle.vk_model.specs.World.Areas as areas;
ghost use Rattle.vk_model.specs.World.ByteWrites as bytes;
ghost use Rattle.vk_overlaps.specs.Inner.Places as places;
ghost use Rattle.vk_overlaps.specs.Inner.Rows.{row_meets_some, rows_have};

use crate::extents::{Extent, Span};
use crate::overlaps::{overlap, overlapping};
use crate::regions::bytes_at;
use std::alloc::{AllocError, Global};
use vk_image_tiles::texel_size;
use vk_model::{BufferImageCopy, Format};

/// So many rows, at most, are looked at as parts.
const MOST_ROWS: usize = 4_194_304;

/// Where the last texel of a region ends in the buffer.
pub fn last_byte(region: &BufferImageCopy, format: Format) -> u128
    requires layers { 0 < region.now.layers }
    requires rows { 0 < region.now.height }
    requires texels { 0 < region.now.width }
    ensures { result ≡ bytes.buffer_texel region.now (texel format) (region.now.layers - 1) (region.now.height - 1) (region.now.width - 1) (texel format) }
{
    let texel = u128::from(texel_size(format));
    u128::from(region.buffer_offset) + last_texel(region) * texel + texel
}

/// How many texels of the buffer come before the last one of a region, from its first one on.
fn last_texel(region: &BufferImageCopy) -> u128
    requires layers { 0 < region.now.layers }
    requires rows { 0 < region.now.height }
    requires texels { 0 < region.now.width }
    ensures count { result ≡ ((region.now.layers - 1) * bytes.layer_rows region.now + (region.now.height - 1)) * bytes.row_texels region.now + (region.now.width - 1) }
    ensures within { result < 2 ^ 97 }
{
    let rows = u128::from(region.layers - 1) * u128::from(layer_rows(region))
        + u128::from(region.height - 1);
    rows * u128::from(row_texels(region)) + u128::from(region.width - 1)
}

/// The texels from one row to the next in the buffer.
fn row_texels(region: &BufferImageCopy) -> u32
    ensures { result ≡ bytes.row_texels region.now }
{
    if region.row_length == 0 {
        region.width
    } else {
        region.row_length
    }
}

/// The rows from one layer to the next in the buffer.
fn layer_rows(region: &BufferImageCopy) -> u32
    ensures { result ≡ bytes.layer_rows region.now }
{
    if region.image_height == 0 {
        region.height
    } else {
        region.image_height
    }
}

/// Whether the rows of two regions have a byte of the buffer in common. The gaps between rows belong to
/// none. Where regions overlap by the bytes from the first to the last of each, the rows of all are looked
/// at as parts; where these overlap, the regions near the place are compared, and then each with each, as
/// the rows of one region may overlap. Those of more than `MOST_ROWS` rows are compared each with each.
/// The only error is want of memory.
pub fn rows_overlap(
    alloc: Global,
    regions: &[BufferImageCopy],
    format: Format,
) -> Result<bool, AllocError>
    ensures { IfOk result (λ found. found ≡ some_pair (λ g h. areas.rows_meet (texel format) g (texel format) h) regions.now) }
{
    if !may_meet(alloc, regions, format)? {
        return Ok(false);
    }
    match rows_of(alloc, regions, format)? {
        Some(rows) => overlap_among(alloc, regions, format, rows.as_slice()),
        None => Ok(some_rows_meet(regions, format)),
    }
}

/// The same, where these are the rows of the regions.
fn overlap_among(
    alloc: Global,
    regions: &[BufferImageCopy],
    format: Format,
    rows: &[Extent],
) -> Result<bool, AllocError>
    requires { rows.now ≡ flat_map (places.rows_at (texel format)) regions.now }
    ensures { IfOk result (λ found. found ≡ some_pair (λ g h. areas.rows_meet (texel format) g (texel format) h) regions.now) }
{
    match overlapping(alloc, rows, &[])? {
        None => Ok(false),
        Some(row) => {
            let near = near_meet(alloc, regions, format, row.columns)?;
            Ok(near || some_rows_meet(regions, format))
        }
    }
}

/// Whether two regions that have some bytes in their rows have rows that meet.
fn near_meet(
    alloc: Global,
    regions: &[BufferImageCopy],
    format: Format,
    bytes: Span,
) -> Result<bool, AllocError>
    ensures { IfOk result (λ found. found ≡ true → some_pair (λ g h. areas.rows_meet (texel format) g (texel format) h) regions.now ≡ true) }
{
    let near = regions_near(alloc, regions, format, bytes)?;
    Ok(some_rows_meet(near.as_slice(), format))
}

/// The regions that have some bytes in their rows.
fn regions_near(
    alloc: Global,
    regions: &[BufferImageCopy],
    format: Format,
    bytes: Span,
) -> Result<Vec<BufferImageCopy>, AllocError>
    ensures { IfOk result (λ near. near.items ≡ filter (rows_have (texel format) bytes.start bytes.size) regions.now) }
{
    let mut near = Vec::from_slice(alloc, regions)?;
    near.retain(|region| has_bytes(region, format, u128::from(bytes.start), bytes.size));
    Ok(near)
}

/// The rows of regions, region by region, unless one lies past what a `u64` holds or there are more than
/// `MOST_ROWS`.
fn rows_of(
    alloc: Global,
    regions: &[BufferImageCopy],
    format: Format,
) -> Result<Option<Vec<Extent>>, AllocError>
    ensures { IfOk result (λ found. IfSome found (λ rows. rows.items ≡ flat_map (places.rows_at (texel format)) regions.now)) }
{
    let mut rows = Vec::new(alloc);
    for region in regions {
        if !push_rows(&mut rows, region, format)? {
            return Ok(None);
        }
    }
    Ok(Some(rows))
}

/// Adds the rows of a region, and answers whether all could be added.
fn push_rows(
    rows: &mut Vec<Extent>,
    region: &BufferImageCopy,
    format: Format,
) -> Result<bool, AllocError>
    ensures { IfOk result (λ whole. whole ≡ true → rows.new.items ≡ rows.old.items ++ places.rows_at (texel format) region.now) }
{
    let size = row_size(region, format);
    for row in 0..row_count(region) {
        if rows.len() >= MOST_ROWS {
            return Ok(false);
        }
        match u64::try_from(row_start(region, format, row)) {
            Ok(start) => rows.push(bytes_at(start, size))?,
            Err(_) => return Ok(false),
        }
    }
    Ok(true)
}

/// Whether regions may overlap, by the bytes from the first to the last of each.
fn may_meet(alloc: Global, regions: &[BufferImageCopy], format: Format) -> Result<bool, AllocError>
    ensures { IfOk result (λ may. may ≡ false → some_pair (λ g h. areas.rows_meet (texel format) g (texel format) h) regions.now ≡ false) }
{
    if regions.len() < 2 {
        return Ok(false);
    }
    match hulls_of(alloc, regions, format)? {
        Some(hulls) => overlap(alloc, hulls.as_slice(), &[]),
        None => Ok(true),
    }
}

/// The bytes from the first to the last of each region, unless one ends past what a `u64` holds.
fn hulls_of(
    alloc: Global,
    regions: &[BufferImageCopy],
    format: Format,
) -> Result<Option<Vec<Extent>>, AllocError>
    ensures { IfOk result (λ found. IfSome found (λ hulls. hulls.items ≡ map (places.hull (texel format)) regions.now)) }
{
    let mut hulls = Vec::new(alloc);
    for region in regions {
        match hull_of(region, format) {
            Some(hull) => hulls.push(hull)?,
            None => return Ok(None),
        }
    }
    Ok(Some(hulls))
}

/// The bytes from the first to the last of a region.
fn hull_of(region: &BufferImageCopy, format: Format) -> Option<Extent>
    ensures { IfSome result (λ hull. hull ≡ places.hull (texel format) region.now) }
{
    let start = region.buffer_offset;
    if region.layers == 0 || region.height == 0 || region.width == 0 {
        return Some(bytes_at(start, 0));
    }
    match u64::try_from(last_byte(region, format)) {
        Ok(end) => Some(bytes_at(start, end.saturating_sub(start))),
        Err(_) => None,
    }
}

fn some_rows_meet(regions: &[BufferImageCopy], format: Format) -> bool
    ensures { result ≡ some_pair (λ g h. areas.rows_meet (texel format) g (texel format) h) regions.now }
{
    let mut rest = regions;
    while let [first, later @ ..] = rest {
        if rows_meet_any(first, later, format) {
            return true;
        }
        rest = later;
    }
    false
}

fn rows_meet_any(region: &BufferImageCopy, others: &[BufferImageCopy], format: Format) -> bool
    ensures { result ≡ list_any (λ h. areas.rows_meet (texel format) region.now (texel format) h) others.now }
{
    others.iter().any(|other| rows_meet(region, other, format))
}

fn rows_meet(one: &BufferImageCopy, other: &BufferImageCopy, format: Format) -> bool
    ensures { result ≡ areas.rows_meet (texel format) one.now (texel format) other.now }
{
    for row in 0..row_count(one) {
        if row_meets(one, row, other, format) {
            return true;
        }
    }
    false
}

/// Whether a row of a region has a byte in common with a row of another.
fn row_meets(one: &BufferImageCopy, row: u64, other: &BufferImageCopy, format: Format) -> bool
    requires { row < areas.row_count one.now }
    ensures { result ≡ row_meets_some (texel format) one.now row other.now }
{
    has_bytes(
        other,
        format,
        row_start(one, format, row),
        row_size(one, format),
    )
}

/// Whether a row of a region has one of some bytes.
fn has_bytes(region: &BufferImageCopy, format: Format, start: u128, size: u64) -> bool
    requires { start < 2 ^ 102 }
    ensures { result ≡ rows_have (texel format) start size region.now }
{
    for row in 0..row_count(region) {
        if bytes_meet(
            start,
            size,
            row_start(region, format, row),
            row_size(region, format),
        ) {
            return true;
        }
    }
    false
}

fn bytes_meet(start: u128, size: u64, other_start: u128, other_size: u64) -> bool
    requires starts { start < 2 ^ 102 }
    requires others { other_start < 2 ^ 102 }
    ensures { result ≡ ranges_of.ranges_meet start size other_start other_size }
{
    size > 0
        && other_size > 0
        && start < other_start + u128::from(other_size)
        && other_start < start + u128::from(size)
}

/// The bytes of a row of a region.
pub fn row_size(region: &BufferImageCopy, format: Format) -> u64
    ensures { result ≡ region.now.width * texel format }
{
    u64::from(region.width) * u64::from(texel_size(format))
}

/// The number of rows that a region has in the buffer; none where it has no texel.
pub fn row_count(region: &BufferImageCopy) -> u64
    ensures { result ≡ areas.row_count region.now }
{
    if region.width == 0 {
        0
    } else {
        u64::from(region.layers) * u64::from(region.height)
    }
}

/// Where a row of a region begins in the buffer.
pub fn row_start(region: &BufferImageCopy, format: Format, row: u64) -> u128
    requires { row < areas.row_count region.now }
    ensures start { result ≡ areas.row_start (texel format) region.now row }
    ensures within { result < 2 ^ 102 }
{
    let height = u64::from(region.height);
    let texels = first_texel(region, row / height, row % height);
    u128::from(region.buffer_offset) + texels * u128::from(texel_size(format))
}

/// How many texels of the buffer come before a row of a layer, from the region's first one on.
fn first_texel(region: &BufferImageCopy, layer: u64, row: u64) -> u128
    requires layers { layer < 2 ^ 32 }
    requires rows { row < 2 ^ 32 }
    ensures count { result ≡ (layer * bytes.layer_rows region.now + row) * bytes.row_texels region.now }
    ensures within { result < 2 ^ 97 }
{
    let rows = u128::from(layer) * u128::from(layer_rows(region)) + u128::from(row);
    rows * u128::from(row_texels(region))
}
