ghost use Rattle.std.specs.Prelude.{◌≡◌, ◌+◌, ◌*◌, ◌<◌, ◌≤◌, ℕ, slice_index};
ghost use Rattle.vk_model.specs.Trace.Image.{texel, component};
ghost use Rattle.vk_model.specs.World.ByteWrites.{color_byte};

use vk_image_tiles::texel_size;
use vk_model::{Format, ImageInfo};

/// How many bytes of texels of one color are written at once.
pub(crate) const COLORED: usize = 64;

/// The bytes of one component.
fn component_size(format: Format) -> usize
    ensures size { result ≡ component format }
    ensures above { 0 < result }
    ensures within { result ≤ 4 }
    ensures texel { texel format ≤ 4 * result }
{
    match format {
        Format::R8Uint | Format::R8G8Uint | Format::R8G8B8A8Uint => 1,
        Format::R16Uint => 2,
        Format::R32Uint | Format::R32G32Uint | Format::R32G32B32A32Uint => 4,
    }
}

/// A byte of a texel of a color: that of its component, little-endian.
fn color_byte(image: &ImageInfo, color: &[u32; 4], part: usize) -> u8
    requires { part < texel image.now.format }
    ensures { result ≡ color_byte image.now color.now part }
{
    let size = component_size(image.format);
    let bytes = color[part / size].to_le_bytes();
    bytes[part % size]
}

/// The bytes of texels of a color, one after another.
pub(crate) fn color_bytes(image: &ImageInfo, color: &[u32; 4]) -> [u8; COLORED]
    ensures { (x p : ℕ) → p < texel image.now.format → x * texel image.now.format + p < 64 → slice_index result (x * texel image.now.format + p) ≡ color_byte image.now color.now p }
{
    let texel = texel_size(image.format) as usize;
    let mut bytes = [0; COLORED];
    for index in 0..COLORED {
        bytes[index] = color_byte(image, color, index % texel);
    }
    bytes
}
