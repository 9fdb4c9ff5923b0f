ghost use Rattle.std.specs.Prelude.{◌≡◌};
ghost use Rattle.vk_model.specs.World.Areas as areas;
ghost use Rattle.vk_overlaps.specs.Boxes.{box_of};

use vk_model::{BufferImageCopy, ImageCopy};

/// Texels of one level and some layers of an image.
#[derive(Clone, Copy)]
pub struct TexelBox {
    /// The mip level.
    pub level: u32,
    /// The first array layer.
    pub first_layer: u32,
    /// How many layers.
    pub layers: u32,
    /// In texels, from the left.
    pub x: u32,
    /// In texels, from the top.
    pub y: u32,
    /// In texels.
    pub width: u32,
    /// In texels.
    pub height: u32,
}

/// The texels that a region names in its image.
pub fn region_box(region: &BufferImageCopy) -> TexelBox
    ensures { box_of result ≡ areas.region_box region.now }
{
    TexelBox {
        level: region.level,
        first_layer: region.first_layer,
        layers: region.layers,
        x: region.x,
        y: region.y,
        width: region.width,
        height: region.height,
    }
}

/// The texels that a region of an image copy reads.
pub fn source_box(region: &ImageCopy) -> TexelBox
    ensures { box_of result ≡ areas.source_box region.now }
{
    TexelBox {
        level: region.source_level,
        first_layer: region.source_first_layer,
        layers: region.layers,
        x: region.source_x,
        y: region.source_y,
        width: region.width,
        height: region.height,
    }
}

/// The texels that a region of an image copy writes.
pub fn destination_box(region: &ImageCopy) -> TexelBox
    ensures { box_of result ≡ areas.destination_box region.now }
{
    TexelBox {
        level: region.destination_level,
        first_layer: region.destination_first_layer,
        layers: region.layers,
        x: region.destination_x,
        y: region.destination_y,
        width: region.width,
        height: region.height,
    }
}
