ghost use Rattle.std.specs.Prelude.{◌≡◌, ◌≤◌, ◌<◌, ◌+◌, ◌*◌, ◌^◌, ℕ, false};
ghost use Rattle.vk_model.specs.Trace.Image as image;
ghost use Rattle.vk_model.specs.Rules.Sizes.{bad_image};
ghost use Rattle.vk_image_bytes.specs.Numbers as numbers;
ghost use Rattle.vk_image_bytes.specs.Subresources.{AreOf};
ghost use Rattle.vk_image_bytes.specs.Inner.Kept.{AreFirsts};
ghost use Rattle.vk_image_bytes.specs.Inner.Rows.{image_places};

use crate::rows::Places;
use std::marker::Model;
use vk_image_tiles::{level_height, level_width, texel_size};
use vk_model::ImageInfo;

/// The most levels of an image.
const MOST_LEVELS: u32 = 13;

/// Subresources of an image with numbers in a row.
#[derive(Clone, Copy, Debug)]
pub struct Subresources {
    /// The number of the first.
    pub first: u32,
    /// The number of the last, which may be the first too.
    pub last: u32,
}

/// The bytes of an image that breaks no rule on sizes, numbered. Contracts see the image.
#[derive(Debug, Drop)]
pub struct ImageBytes {
    image: ImageInfo,
    texel: u64,
    firsts: [u64; 14],
}

impl Model for ImageBytes {
    ghost use Rattle.vk_model.specs.declared.resource.ImageInfo.{ImageInfo};
    ghost use Rattle.vk_image_bytes.specs.Subresources.{AreOf};
    ghost use Rattle.vk_image_bytes.specs.Inner.Kept.{IsKept};

    ghost Value = { ImageInfo };

    ghost view = { λ b. b.image };

    ghost invariant = { λ b. IsKept b.image b.texel b.firsts };
}

impl ImageBytes {
    /// The bytes of an image.
    pub fn of(image: &ImageInfo) -> ImageBytes
        requires { bad_image image.now ≡ false }
        ensures { result ≡ image.now }
    {
        ImageBytes {
            image: *image,
            texel: u64::from(texel_size(image.format)),
            firsts: level_firsts(image),
        }
    }

    /// How many bytes the image has, each with a number below this.
    pub fn len(&self) -> u64
        ensures count { result ≡ numbers.byte_count self.now }
        ensures within { result < 2 ^ 40 }
    {
        u64::from(self.image.layers) * self.layer_len()
    }

    /// How many levels of how many layers it has.
    pub(crate) fn subresource_count(&self) -> u32
        ensures count { result ≡ self.now.layers * self.now.levels }
        ensures within { result ≤ 3328 }
    {
        self.image.layers * self.image.levels
    }

    /// The number of the subresource of a byte: the levels of a layer follow each other, layer
    /// after layer.
    pub fn subresource_at(&self, byte: u64) -> u32
        requires { byte < numbers.byte_count self.now }
        ensures subresource { result ≡ numbers.subresource_at self.now byte }
        ensures there { result < self.now.layers * self.now.levels }
    {
        let levels = self.image.levels;
        let len = self.layer_len();
        let level = self.level_at(byte % len);
        (byte / len) as u32 * levels + level
    }

    /// The subresources that some bytes are of, by the numbers of the first one and the last.
    pub fn subresources(&self, low: u64, high: u64) -> Subresources
        requires some { low < high }
        requires within { high ≤ numbers.byte_count self.now }
        ensures { AreOf self.now low high result }
    {
        Subresources {
            first: self.subresource_at(low),
            last: self.subresource_at(high - 1),
        }
    }

    /// The level of a byte of a layer.
    fn level_at(&self, byte: u64) -> u32
        requires { byte < numbers.layer_byte_count self.now }
        ensures there { result < self.now.levels }
        ensures from { numbers.level_first self.now result ≤ byte }
        ensures to { byte < numbers.level_first self.now (result + 1) }
    {
        for level in 1..self.image.levels {
            if byte < self.firsts[level as usize] {
                return level - 1;
            }
        }
        self.image.levels - 1
    }

    /// The bytes of a texel.
    pub(crate) fn texel_len(&self) -> u64
        ensures size { result ≡ image.texel self.now.format }
        ensures above { 0 < result }
        ensures within { result ≤ 16 }
    {
        self.texel
    }

    /// Where the rows of a level of a layer begin, from a texel on.
    pub(crate) fn places(&self, level: u32, layer: u32, x: u32, y: u32) -> Places
        requires level_there { level < self.now.levels }
        requires layer_there { layer < self.now.layers }
        ensures { result ≡ image_places self.now level layer x y }
    {
        let width = u64::from(level_width(&self.image, level));
        let texels = u64::from(y) * width + u64::from(x);
        let texel = self.texel_len();
        let len = self.layer_len();
        let before = u64::from(layer) * len;
        let in_layer = self.level_first(level) + texels * texel;
        Places {
            first: before + in_layer,
            row: width * texel,
            layer: len,
        }
    }

    /// How many levels each layer has.
    pub(crate) fn levels(&self) -> u32
        ensures count { result ≡ self.now.levels }
        ensures shaped { bad_image self.now ≡ false }
        ensures above { 0 < result }
        ensures within { result ≤ 13 }
    {
        self.image.levels
    }

    /// How many layers the image has.
    pub(crate) fn layers(&self) -> u32
        ensures count { result ≡ self.now.layers }
        ensures above { 0 < result }
        ensures within { result ≤ 256 }
    {
        self.image.layers
    }

    /// The bytes of a layer before one of its levels.
    pub(crate) fn level_first(&self, level: u32) -> u64
        requires { level ≤ self.now.levels }
        ensures first { result ≡ numbers.level_first self.now level }
        ensures within { result ≤ numbers.layer_byte_count self.now }
    {
        self.firsts[level as usize]
    }

    /// The bytes of a layer.
    pub(crate) fn layer_len(&self) -> u64
        ensures count { result ≡ numbers.layer_byte_count self.now }
        ensures above { 0 < result }
        ensures within { result ≤ 13 * 268435456 }
    {
        self.firsts[self.image.levels as usize]
    }
}

/// Where each level of a layer begins, and after the last of 13 where it ends.
fn level_firsts(image: &ImageInfo) -> [u64; 14]
    requires { bad_image image.now ≡ false }
    ensures { AreFirsts image.now result }
{
    let mut firsts = [0; 14];
    for level in 0..MOST_LEVELS {
        let index = level as usize;
        firsts[index + 1] = firsts[index] + level_byte_count(image, level);
    }
    firsts
}

/// The bytes of a level of a layer.
fn level_byte_count(image: &ImageInfo, level: u32) -> u64
    requires { bad_image image.now ≡ false }
    ensures { result ≡ numbers.level_byte_count image.now level }
{
    let texels = u64::from(level_height(image, level)) * u64::from(level_width(image, level));
    texels * u64::from(texel_size(image.format))
}
