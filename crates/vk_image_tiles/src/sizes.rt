ghost use Rattle.std.specs.Prelude.{◌≡◌, ◌≤◌, ◌<◌, ◌+◌, ◌*◌, ◌/◌, ◌^◌, nat_lt, nat_le, max, count_by};
ghost use Rattle.vk_model.specs.Trace.Image as image;
ghost use Rattle.vk_model.specs.Rules.Sizes as sizes;

use vk_model::{Format, ImageInfo, Kind};

/// The longest side of an image in texels.
const LONGEST_SIDE: u32 = 4_096;

/// The most layers of an image.
const MOST_LAYERS: u32 = 256;

/// The longest side that an image needs for each level more.
const SIDES: [u32; 13] = [1, 2, 4, 8, 16, 32, 64, 128, 256, 512, 1_024, 2_048, 4_096];

/// The bytes of one texel.
pub fn texel_size(format: Format) -> u32
    ensures size { result ≡ image.texel format }
    ensures above { 0 < result }
    ensures within { result ≤ 16 }
{
    match format {
        Format::R8Uint => 1,
        Format::R8G8Uint | Format::R16Uint => 2,
        Format::R8G8B8A8Uint | Format::R32Uint => 4,
        Format::R32G32Uint => 8,
        Format::R32G32B32A32Uint => 16,
    }
}

/// The texels of a row of a level.
pub fn level_width(info: &ImageInfo, level: u32) -> u32
    ensures { result ≡ image.level_width info.now level }
{
    halved(info.width, level)
}

/// The rows of a level.
pub fn level_height(info: &ImageInfo, level: u32) -> u32
    ensures { result ≡ image.level_height info.now level }
{
    halved(info.height, level)
}

/// A side of a level: each level halves it, down to one texel.
fn halved(side: u32, level: u32) -> u32
    ensures { result ≡ max 1 (side / 2 ^ level) }
{
    if level < 32 {
        (side >> level).max(1)
    } else {
        1
    }
}

/// The alignment that an image asks for in bytes.
pub fn image_align(tiling: Kind) -> u64
    ensures align { result ≡ image.image_align tiling }
    ensures above { 0 < result }
{
    match tiling {
        Kind::Linear => 64,
        Kind::Optimal => 256,
    }
}

/// Whether an image asks for more than so many bytes of memory.
pub fn asks_more(info: &ImageInfo, limit: u64) -> bool
    ensures { result ≡ nat_lt limit (image.image_size info.now info.now.tiling) }
{
    match info.tiling {
        Kind::Linear => row_pitch(info) * u128::from(info.height) > u128::from(limit),
        Kind::Optimal => layers_ask_more(info, limit),
    }
}

/// The bytes from one row of a linear image to the next.
pub fn row_pitch(info: &ImageInfo) -> u128
    ensures pitch { result ≡ image.row_pitch info.now }
    ensures within { result < 2 ^ 64 }
{
    let row = u128::from(info.width) * u128::from(texel_size(info.format));
    (row + 63) / 64 * 64
}

/// Whether the layers of an optimal image ask for more than so many bytes. No level is looked at
/// once those before it do.
fn layers_ask_more(info: &ImageInfo, limit: u64) -> bool
    ensures { result ≡ nat_lt limit (image.layer_size info.now * info.now.layers) }
{
    if info.layers == 0 {
        return false;
    }
    let mut total: u128 = 0;
    for level in 0..info.levels {
        total += level_size(info, level);
        if total > u128::from(limit) {
            return true;
        }
    }
    total * u128::from(info.layers) > u128::from(limit)
}

/// The bytes of a level of an optimal image.
pub fn level_size(info: &ImageInfo, level: u32) -> u128
    ensures size { result ≡ image.level_size info.now level }
    ensures within { result < 2 ^ 80 }
{
    let tiles = tiles(level_width(info, level)) * tiles(level_height(info, level));
    (tiles * 64 * u128::from(texel_size(info.format)) + 255) / 256 * 256
}

/// How many tiles of 8 texels a side has; the last one may reach over the edge.
pub fn tiles(side: u32) -> u128
    ensures count { result ≡ (side + 7) / 8 }
    ensures within { result < 2 ^ 30 }
{
    (u128::from(side) + 7) / 8
}

/// Whether an image has a side, a count of layers or one of levels that is 0 or over its limit.
pub fn has_bad_shape(info: &ImageInfo) -> bool
    ensures { result ≡ sizes.bad_image info.now }
{
    is_outside(LONGEST_SIDE, info.width)
        || is_outside(LONGEST_SIDE, info.height)
        || is_outside(MOST_LAYERS, info.layers)
        || has_bad_levels(info)
}

fn has_bad_levels(info: &ImageInfo) -> bool
    ensures { result ≡ sizes.bad_levels info.now.tiling info.now }
{
    match info.tiling {
        Kind::Linear => info.levels != 1 || info.layers != 1,
        Kind::Optimal => is_outside(most_levels(info.width, info.height), info.levels),
    }
}

fn is_outside(most: u32, count: u32) -> bool
    ensures { result ≡ sizes.is_outside most count }
{
    count == 0 || count > most
}

/// How many levels an image with these sides can have.
fn most_levels(width: u32, height: u32) -> u32
    ensures { result ≡ image.most_levels width height }
{
    count_up_to(&SIDES, width.max(height)) as u32
}

fn count_up_to(sides: &[u32], most: u32) -> usize
    ensures { result ≡ count_by (λ side. nat_le side most) sides.now }
{
    sides.iter().filter(|side| **side <= most).count()
}
