ghost use Rattle.std.specs.Prelude.{◌≡◌, ◌<◌, ◌==◌, ◌&&◌, IfSome, is_some, nat_lt, not, Some};
ghost use Rattle.std.specs.List.{list_any};
ghost use Rattle.vk_model.specs.Trace.Image.{texel};
ghost use Rattle.vk_model.specs.Rules.Ranges as rules;
ghost use Rattle.vk_rules.specs.Ranges.{end_of, IsShort};
ghost use Rattle.vk_rules.specs.Inner.Ranges.{AreRowsPast, IsShortAt};

use vk_model::{BufferImageCopy, Format};
use vk_overlaps::last_byte;

/// A region of a copy between a buffer and an image whose last texel ends past the buffer.
#[derive(Clone, Copy)]
pub struct PastRows {
    /// The index of the region.
    pub region: usize,
    /// The id of the buffer.
    pub buffer: u32,
    /// Where the last texel ends, in bytes from the buffer's start.
    pub end: u128,
    /// The bytes of the buffer; 0 where the id is of none.
    pub size: u64,
}

/// What of a region may be too short.
#[derive(Clone, Copy)]
pub enum RowSide {
    /// The row length, under the width.
    Row,
    /// The image height, under the height.
    Layer,
}

/// A row length or an image height under the extent of its region.
#[derive(Clone, Copy)]
pub struct ShortRows {
    /// The index of the region.
    pub region: usize,
    /// Which of the two.
    pub side: RowSide,
    /// The row length in texels, or the image height in rows.
    pub length: u32,
    /// The width or the height of the region, in texels.
    pub extent: u32,
}

/// The first region whose last texel ends past a buffer of a size.
pub fn past_rows(
    size: u64,
    buffer: u32,
    format: Format,
    regions: &[BufferImageCopy],
) -> Option<PastRows>
    ensures broken { is_some result ≡ list_any (rules.region_past size (texel format)) regions.now }
    ensures reported { IfSome result (AreRowsPast size buffer (texel format) regions.now) }
{
    for (index, region) in regions.iter().enumerate() {
        if let Some(end) = end_past(size, format, region) {
            return Some(PastRows {
                region: index,
                buffer,
                end,
                size,
            });
        }
    }
    None
}

/// Where the last texel of a region ends, if that's past a buffer of a size.
fn end_past(size: u64, format: Format, region: &BufferImageCopy) -> Option<u128>
    ensures broken { is_some result ≡ rules.region_past size (texel format) region.now }
    ensures reported { IfSome result (λ end. (end_of (texel format) region.now ≡ Some end) × (size < end)) }
{
    let end = last_end(region, format)?;
    if end > u128::from(size) {
        Some(end)
    } else {
        None
    }
}

/// Where the last texel of a region ends in the buffer; none of a region without texels. The gap after
/// the last row counts for nothing.
fn last_end(region: &BufferImageCopy, format: Format) -> Option<u128>
    ensures { result ≡ end_of (texel format) region.now }
{
    if region.layers > 0 && region.height > 0 && region.width > 0 {
        Some(last_byte(region, format))
    } else {
        None
    }
}

/// The first region with a row length or an image height that isn't 0 and is under its extent.
pub fn short_rows(regions: &[BufferImageCopy]) -> Option<ShortRows>
    ensures broken { is_some result ≡ list_any rules.is_short regions.now }
    ensures reported { IfSome result (IsShort regions.now) }
{
    for (index, region) in regions.iter().enumerate() {
        if let Some(short) = short_row(index, region) {
            return Some(short);
        }
    }
    None
}

fn short_row(index: usize, region: &BufferImageCopy) -> Option<ShortRows>
    ensures broken { is_some result ≡ rules.is_short region.now }
    ensures reported { IfSome result (IsShortAt index region.now) }
{
    match short_side(index, RowSide::Row, region.row_length, region.width) {
        Some(short) => Some(short),
        None => short_side(index, RowSide::Layer, region.image_height, region.height),
    }
}

fn short_side(region: usize, side: RowSide, length: u32, extent: u32) -> Option<ShortRows>
    ensures broken { is_some result ≡ (not (length == 0) && nat_lt length extent) }
    ensures reported { IfSome result (λ m. m ≡ record { region = region; side = side; length = length; extent = extent }) }
{
    if length != 0 && length < extent {
        Some(ShortRows {
            region,
            side,
            length,
            extent,
        })
    } else {
        None
    }
}
