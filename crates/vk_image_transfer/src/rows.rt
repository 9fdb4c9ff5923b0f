ghost use Rattle.std.specs.Prelude.{◌≡◌, ◌+◌, ◌*◌, ◌/◌, ◌%◌, ◌^◌, ◌<◌, ◌≤◌, ℕ};
ghost use Rattle.vk_image_transfer.specs.Inner.Lines.{line_place, line_texel, line_first, rows_of};
ghost use Rattle.vk_image_transfer.specs.Rows.{BoxFits, image_row, buffer_row};
ghost use Rattle.vk_model.specs.World.Areas.{region_box};
ghost use Rattle.vk_model.specs.World.ByteWrites as writes;
ghost use Rattle.vk_model.specs.Trace.Image.{texel, level_width, level_height, image_size};

use crate::lines::Line;
use vk_image_tiles::{Shape, level_height};
use vk_model::BufferImageCopy;

/// A row of a region: which layer of it, and which row of that.
#[derive(Clone, Copy, Debug, PartialEq, Eq)]
pub(crate) struct RowPlace {
    /// The layer, counted from the region's first.
    pub(crate) layer: u32,
    /// The row, counted from the region's first.
    pub(crate) row: u32,
}

impl RowPlace {
    /// The row of a number, of a region of some layers and rows.
    pub(crate) fn new(number: u64, layers: u32, rows: u32) -> RowPlace
        requires { number < layers * rows }
        ensures layer { result.layer ≡ number / rows }
        ensures row { result.row ≡ number % rows }
        ensures layer_there { result.layer < layers }
        ensures row_there { result.row < rows }
    {
        RowPlace {
            layer: (number / u64::from(rows)) as u32,
            row: (number % u64::from(rows)) as u32,
        }
    }
}

/// A row of an image that lies from `start` on, from its texel `first` on.
pub(crate) fn image_line(
    image: &Shape,
    start: u64,
    level: u32,
    layer: u32,
    first: u32,
    y: u32,
) -> Line
    requires level_there { level < image.now.levels }
    requires layer_there { layer < image.now.layers }
    requires y_there { y < level_height image.now level }
    ensures places { (x : ℕ) → line_place result x ≡ image_row image.now start level layer first y x }
    ensures texel { line_texel result ≡ texel image.now.format }
    ensures first { line_first result ≡ first }
    ensures inside { (x : ℕ) → first + x < level_width image.now level → line_place result x + texel image.now.format ≤ start + image_size image.now image.now.tiling }
{
    Line::Image {
        start,
        first,
        row: image.row(level, layer, y),
    }
}

/// A row of a region in an image that lies from `start` on.
pub(crate) fn region_line(
    region: &BufferImageCopy,
    place: RowPlace,
    image: &Shape,
    start: u64,
) -> Line
    requires region { BoxFits image.now (region_box region.now) }
    requires layer { place.layer < region.now.layers }
    requires row { place.row < region.now.height }
    ensures places { (x : ℕ) → line_place result x ≡ image_row image.now start region.now.level (region.now.first_layer + place.layer) region.now.x (region.now.y + place.row) x }
    ensures texel { line_texel result ≡ texel image.now.format }
    ensures first { line_first result ≡ region.now.x }
    ensures inside { (x : ℕ) → region.now.x + x < level_width image.now region.now.level → line_place result x + texel image.now.format ≤ start + image_size image.now image.now.tiling }
{
    // The image's layers and rows are numbers of 32 bits, so those of a region in it are too.
    let _height = level_height(&image.image(), region.level);
    let layer = region.first_layer + place.layer;
    let y = region.y + place.row;
    image_line(image, start, region.level, layer, region.x, y)
}

/// A row of a region in a buffer that lies from `start` on, with texels of some bytes.
pub(crate) fn buffer_line(region: &BufferImageCopy, texel: u64, start: u64, place: RowPlace) -> Line
    requires few { texel ≤ 16 }
    requires place { buffer_row region.now texel start place.layer place.row 0 < 2 ^ 64 }
    ensures places { (x : ℕ) → line_place result x ≡ buffer_row region.now texel start place.layer place.row x }
    ensures texel { line_texel result ≡ texel }
    ensures first { line_first result ≡ 0 }
{
    let rows = u128::from(place.layer) * u128::from(layer_rows(region)) + u128::from(place.row);
    let texels = rows * u128::from(row_texels(region));
    let before = texels * u128::from(texel);
    Line::Buffer {
        at: start + region.buffer_offset + before as u64,
        texel,
    }
}

/// The texels from one row of a region to the next in its buffer.
fn row_texels(region: &BufferImageCopy) -> u32
    ensures { result ≡ writes.row_texels region.now }
{
    if region.row_length == 0 {
        region.width
    } else {
        region.row_length
    }
}

/// The rows from one layer of a region to the next in its buffer.
fn layer_rows(region: &BufferImageCopy) -> u32
    ensures { result ≡ writes.layer_rows region.now }
{
    if region.image_height == 0 {
        region.height
    } else {
        region.image_height
    }
}

/// How many rows a region of some width has; none where it has no texel.
pub(crate) fn row_count(width: u32, height: u32, layers: u32) -> u64
    ensures { result ≡ rows_of width height layers }
{
    if width == 0 {
        0
    } else {
        u64::from(layers) * u64::from(height)
    }
}
