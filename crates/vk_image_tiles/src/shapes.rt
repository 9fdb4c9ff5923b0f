ghost use Rattle.std.specs.Prelude.{◌≡◌, ◌≤◌, ◌<◌, ◌+◌, ◌*◌, ℕ, false};
ghost use Rattle.vk_model.specs.declared.resource.Kind.TheVariants as kind;
ghost use Rattle.vk_model.specs.Memory.Addresses as addresses;
ghost use Rattle.vk_model.specs.Trace.Image as image;
ghost use Rattle.vk_model.specs.Rules.Sizes.{bad_image};
ghost use Rattle.vk_image_tiles.specs.Shapes.{IsMade, image_need, bare_image};
ghost use Rattle.vk_image_tiles.specs.Rows.{EndWithin, place_in};
ghost use Rattle.vk_image_tiles.specs.Inner.Kept.{AreStarts};

use crate::rows::{Row, number_in_tile};
use crate::sizes::{
    asks_more, has_bad_shape, image_align, level_size, level_width, row_pitch, texel_size, tiles,
};
use std::marker::Model;
use vk_model::{
    Format, ImageInfo, Kind, Need, Place, Rule, Sharing, SubresourceLayout, Usage,
    subresources_hold, texels_inside,
};

/// The most bytes that a resource may ask for.
const MOST_BYTES: u64 = 67_108_864;

/// The most levels of an image.
const MOST_LEVELS: u32 = 13;

/// The shape of an image that breaks no rule on sizes: where its texels lie. Contracts see the
/// image.
#[derive(Debug, Drop)]
pub struct Shape {
    image: ImageInfo,
    texel: u64,
    pitch: u64,
    starts: [u64; 14],
}

impl Model for Shape {
    ghost use Rattle.vk_model.specs.declared.resource.ImageInfo.{ImageInfo};
    ghost use Rattle.vk_image_tiles.specs.Inner.Kept.{IsKept};

    ghost Value = { ImageInfo };

    ghost view = { λ s. s.image };

    ghost invariant = { λ s. IsKept s.image s.texel s.pitch s.starts };
}

impl Shape {
    /// The shape of an image with these numbers, sides in texels of level 0.
    ///
    /// # Errors
    ///
    /// As those of `of`.
    pub fn new(
        format: Format,
        width: u32,
        height: u32,
        levels: u32,
        layers: u32,
        tiling: Kind,
    ) -> Result<Shape, Rule>
        ensures { IsMade result (bare_image format width height levels layers tiling) }
    {
        Shape::of(&ImageInfo {
            format,
            width,
            height,
            levels,
            layers,
            tiling,
            usage: Usage(0),
            sharing: Sharing::Concurrent,
            place: Place::Dedicated { memory_type: 0 },
        })
    }

    /// The shape of an image. What it's used for, who owns it and where its memory is don't matter.
    ///
    /// # Errors
    ///
    /// `Rule::Size` where a side or a count is 0 or over its limit, else `Rule::MemorySize` where
    /// the image asks for more than 67,108,864 bytes.
    pub fn of(image: &ImageInfo) -> Result<Shape, Rule>
        ensures { IsMade result image.now }
    {
        if has_bad_shape(image) {
            return Err(Rule::Size);
        }
        if asks_more(image, MOST_BYTES) {
            return Err(Rule::MemorySize);
        }
        Ok(Shape {
            image: *image,
            texel: u64::from(texel_size(image.format)),
            pitch: row_pitch(image) as u64,
            starts: level_starts(image),
        })
    }

    /// The image, which breaks no rule on sizes.
    pub fn image(&self) -> ImageInfo
        ensures image { result ≡ self.now }
        ensures shaped { bad_image self.now ≡ false }
    {
        self.image
    }

    /// What the image asks of the memory that it is put in.
    pub fn requirements(&self) -> Need
        ensures need { result ≡ image_need self.now }
        ensures within { result.size ≤ 67108864 }
    {
        let (size, types) = match self.image.tiling {
            Kind::Linear => (self.pitch * u64::from(self.image.height), 7),
            Kind::Optimal => (self.layer_size() * u64::from(self.image.layers), 1),
        };
        Need {
            size,
            align: image_align(self.image.tiling),
            types,
        }
    }

    /// The first byte of a texel of a level and a layer, counted from the image's.
    pub fn address(&self, level: u32, layer: u32, x: u32, y: u32) -> u64
        requires level_there { level < self.now.levels }
        requires layer_there { layer < self.now.layers }
        requires x_there { x < image.level_width self.now level }
        requires y_there { y < image.level_height self.now level }
        ensures place { result ≡ addresses.address self.now self.now.tiling level layer x y }
        ensures inside { result + image.texel self.now.format ≤ image.image_size self.now self.now.tiling }
    {
        texels_inside();
        match self.image.tiling {
            Kind::Linear => u64::from(y) * self.pitch + u64::from(x) * self.texel,
            Kind::Optimal => {
                let across = tiles(level_width(&self.image, level)) as u64;
                let tile = u64::from(y / 8) * across + u64::from(x / 8);
                let texels = tile * 64 + number_in_tile(x, y);
                self.start_of(level, layer) + texels * self.texel
            }
        }
    }

    /// Where a level of a layer lies: its first byte, its size, and the bytes from one row to the
    /// next. There are no rows where the texels lie in tiles, and the last number is 0.
    pub fn subresource_layout(&self, level: u32, layer: u32) -> SubresourceLayout
        requires level_there { level < self.now.levels }
        requires layer_there { layer < self.now.layers }
        ensures layout { result ≡ addresses.subresource_layout self.now self.now.tiling level layer }
        ensures inside { result.offset + result.size ≤ image.image_size self.now self.now.tiling }
    {
        subresources_hold();
        match self.image.tiling {
            Kind::Linear => SubresourceLayout {
                offset: 0,
                size: self.pitch * u64::from(self.image.height),
                row_pitch: self.pitch,
            },
            Kind::Optimal => SubresourceLayout {
                offset: self.start_of(level, layer),
                size: level_size(&self.image, level) as u64,
                row_pitch: 0,
            },
        }
    }

    /// A row of a level and a layer, to ask where many of its texels lie.
    pub fn row(&self, level: u32, layer: u32, y: u32) -> Row
        requires level_there { level < self.now.levels }
        requires layer_there { layer < self.now.layers }
        requires y_there { y < image.level_height self.now level }
        ensures places { (x : ℕ) → place_in result x ≡ addresses.address self.now self.now.tiling level layer x y }
        ensures texel { result.texel ≡ image.texel self.now.format }
        ensures inside { EndWithin (image.image_size self.now self.now.tiling) result (image.level_width self.now level) }
    {
        texels_inside();
        Row::new(
            self.address(level, layer, 0, y),
            self.texel,
            self.image.tiling,
        )
    }

    /// Where a level of a layer of an optimal image starts.
    fn start_of(&self, level: u32, layer: u32) -> u64
        requires tiled { self.now.tiling ≡ kind.Optimal }
        requires level_there { level < self.now.levels }
        requires layer_there { layer < self.now.layers }
        ensures { result ≡ layer * image.layer_size self.now + addresses.level_start self.now level }
    {
        texels_inside();
        let start = self.starts[level as usize];
        u64::from(layer) * self.layer_size() + start
    }

    /// The bytes of a layer of an optimal image.
    fn layer_size(&self) -> u64
        ensures { result ≡ image.layer_size self.now }
    {
        self.starts[self.image.levels as usize]
    }
}

/// Where each level of a layer starts, in bytes, and after the last of 13 where it ends.
fn level_starts(image: &ImageInfo) -> [u64; 14]
    requires { bad_image image.now ≡ false }
    ensures { AreStarts image.now result }
{
    let mut starts = [0; 14];
    for level in 0..MOST_LEVELS {
        let index = level as usize;
        starts[index + 1] = starts[index] + level_size(image, level) as u64;
    }
    starts
}
