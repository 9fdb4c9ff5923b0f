ghost use Rattle.std.specs.Prelude.{◌≡◌, ◌∷◌, [], ◌≤◌, ◌<◌, ◌^◌, ◌&&◌, false, IfSome, None};
ghost use Rattle.vk_model.specs.World.ByteWrites as writes;
ghost use Rattle.vk_model.specs.World.ByteWrites.{buffer_texel};
ghost use Rattle.vk_model.specs.Sync.Access.{bytes_of};
ghost use Rattle.vk_model.specs.World.Bytes.{Byte as AnyByte, in_image};
ghost use Rattle.vk_order.specs.Bytes.{byte_of};
ghost use Rattle.vk_hazards.specs.declared.areas.Area.TheVariants as area;
ghost use Rattle.vk_hazards.specs.Areas.{AreAreas, has};
ghost use Rattle.vk_hazards.specs.Inner.Parts.{row_bytes, box_bytes, source_bytes, destination_bytes, level_part};

use vk_image_tiles::{level_height, level_width, texel_size};
use vk_model::{BufferImageCopy, ImageCopy, ImageInfo, SubresourceRange};
use vk_order::Byte;

/// Texels of one level of some layers of an image.
#[derive(Clone, Copy, Debug)]
pub struct Texels {
    /// The id of the image.
    pub image: u32,
    /// The mip level.
    pub level: u32,
    /// The first array layer.
    pub first_layer: u32,
    /// The layer after the last one.
    pub end_layer: u32,
    /// The first column of texels.
    pub left: u32,
    /// The column after the last one.
    pub right: u32,
    /// The first row of texels.
    pub top: u32,
    /// The row after the last one.
    pub bottom: u32,
    /// The bytes of a texel.
    pub texel: u32,
}

/// Bytes of a resource that a node accesses.
#[derive(Clone, Copy, Debug)]
pub enum Area {
    /// A range of a buffer.
    Bytes {
        /// The id of the buffer.
        buffer: u32,
        /// The first byte.
        low: u64,
        /// The byte after the last one.
        high: u64,
    },
    /// Texels of an image.
    Texels(Texels),
}

/// So many bytes of a buffer from an offset on, as far as they have numbers of 64 bits.
pub fn bytes(buffer: u32, offset: u64, size: u64) -> Area
    ensures { AreAreas (result ∷ []) (bytes_of buffer offset size) }
{
    Area::Bytes {
        buffer,
        low: offset,
        high: offset.saturating_add(size),
    }
}

/// The texels of a region of a copy between a buffer and an image, which have so many bytes.
pub fn region_box(image: u32, texel: u32, region: &BufferImageCopy) -> Area
    ensures { AreAreas (result ∷ []) (box_bytes image texel region.now) }
{
    Area::Texels(Texels {
        image,
        level: region.level,
        first_layer: region.first_layer,
        end_layer: region.first_layer.saturating_add(region.layers),
        left: region.x,
        right: region.x.saturating_add(region.width),
        top: region.y,
        bottom: region.y.saturating_add(region.height),
        texel,
    })
}

/// The texels that a region of a copy between images reads.
pub fn source_box(image: u32, texel: u32, region: &ImageCopy) -> Area
    ensures { AreAreas (result ∷ []) (source_bytes image texel region.now) }
{
    Area::Texels(Texels {
        image,
        level: region.source_level,
        first_layer: region.source_first_layer,
        end_layer: region.source_first_layer.saturating_add(region.layers),
        left: region.source_x,
        right: region.source_x.saturating_add(region.width),
        top: region.source_y,
        bottom: region.source_y.saturating_add(region.height),
        texel,
    })
}

/// The texels that a region of a copy between images writes.
pub fn destination_box(image: u32, texel: u32, region: &ImageCopy) -> Area
    ensures { AreAreas (result ∷ []) (destination_bytes image texel region.now) }
{
    Area::Texels(Texels {
        image,
        level: region.destination_level,
        first_layer: region.destination_first_layer,
        end_layer: region.destination_first_layer.saturating_add(region.layers),
        left: region.destination_x,
        right: region.destination_x.saturating_add(region.width),
        top: region.destination_y,
        bottom: region.destination_y.saturating_add(region.height),
        texel,
    })
}

/// The texels of one level of a range of levels and layers, if its number has 32 bits.
pub fn level_area(
    image: u32,
    info: &ImageInfo,
    range: &SubresourceRange,
    index: u32,
) -> Option<Area>
    ensures some { IfSome result (λ a. AreAreas (a ∷ []) (level_part image info.now range.now index)) }
    ensures none { result ≡ None → AreAreas [] (level_part image info.now range.now index) }
{
    let level = range.first_level.checked_add(index)?;
    Some(Area::Texels(Texels {
        image,
        level,
        first_layer: range.first_layer,
        end_layer: range.first_layer.saturating_add(range.layers),
        left: 0,
        right: level_width(info, level),
        top: 0,
        bottom: level_height(info, level),
        texel: texel_size(info.format),
    }))
}

/// The bytes of a row of a layer of a region in its buffer, if its place is a number of 64 bits.
pub fn row_area(
    buffer: u32,
    texel: u32,
    region: &BufferImageCopy,
    layer: u32,
    row: u32,
) -> Option<Area>
    ensures some { IfSome result (λ a. AreAreas (a ∷ []) (row_bytes buffer texel region.now layer row)) }
    ensures none { result ≡ None → AreAreas [] (row_bytes buffer texel region.now layer row) }
{
    if region.width == 0 || texel == 0 {
        return None;
    }
    let start = row_start(region, texel, layer, row)?;
    let size = u64::from(region.width) * u64::from(texel);
    Some(bytes(buffer, start, size))
}

/// Where a row of a layer of a region that has texels begins in its buffer, if that is a number of
/// 64 bits.
fn row_start(region: &BufferImageCopy, texel: u32, layer: u32, row: u32) -> Option<u64>
    requires width { 0 < region.now.width }
    requires texel { 0 < texel }
    ensures some { IfSome result (λ start. start ≡ buffer_texel region.now texel layer row 0 0) }
    ensures none { result ≡ None → 2 ^ 64 ≤ buffer_texel region.now texel layer row 0 0 }
{
    let rows = u64::from(layer) * u64::from(layer_rows(region));
    let row = rows.checked_add(u64::from(row))?;
    let texels = row.checked_mul(u64::from(row_texels(region)))?;
    let bytes = texels.checked_mul(u64::from(texel))?;
    region.buffer_offset.checked_add(bytes)
}

/// The texels from one row of a region to the next in its buffer.
fn row_texels(region: &BufferImageCopy) -> u32
    ensures texels { result ≡ writes.row_texels region.now }
    ensures some { 0 < region.now.width → 0 < result }
{
    if region.row_length == 0 {
        region.width
    } else {
        region.row_length
    }
}

/// The rows from one layer of a region to the next in its buffer.
fn layer_rows(region: &BufferImageCopy) -> u32
    ensures { result ≡ writes.layer_rows region.now }
{
    if region.image_height == 0 {
        region.height
    } else {
        region.image_height
    }
}

impl Texels {
    /// The first byte of a layer.
    pub fn first_of(&self, layer: u32) -> Byte
        ensures { byte_of result ≡ in_image self.now.image self.now.level layer self.now.left self.now.top 0 }
    {
        Byte::Texel {
            image: self.image,
            level: self.level,
            layer,
            x: self.left,
            y: self.top,
            texel_byte: 0,
        }
    }

    /// The texels that are of both, where they are of one level of one image.
    fn common(&self, other: &Texels) -> Option<Texels>
        ensures some { IfSome result (λ t. (b : AnyByte) → has (area.Texels t) b ≡ (has (area.Texels self.now) b && has (area.Texels other.now) b)) }
        ensures none { result ≡ None → (b : AnyByte) → (has (area.Texels self.now) b && has (area.Texels other.now) b) ≡ false }
    {
        if self.image != other.image || self.level != other.level {
            return None;
        }
        Some(Texels {
            image: self.image,
            level: self.level,
            first_layer: self.first_layer.max(other.first_layer),
            end_layer: self.end_layer.min(other.end_layer),
            left: self.left.max(other.left),
            right: self.right.min(other.right),
            top: self.top.max(other.top),
            bottom: self.bottom.min(other.bottom),
            texel: self.texel.min(other.texel),
        })
    }
}

impl Area {
    /// What two areas have in common.
    pub fn common(&self, other: &Area) -> Option<Area>
        ensures some { IfSome result (λ a. (b : AnyByte) → has a b ≡ (has self.now b && has other.now b)) }
        ensures none { result ≡ None → (b : AnyByte) → (has self.now b && has other.now b) ≡ false }
    {
        match (self, other) {
            (
                Area::Bytes { buffer, low, high },
                Area::Bytes {
                    buffer: b,
                    low: l,
                    high: h,
                },
            ) if *buffer == *b => {
                Some(Area::Bytes {
                    buffer: *buffer,
                    low: (*low).max(*l),
                    high: (*high).min(*h),
                })
            }
            (Area::Texels(texels), Area::Texels(others)) => texels.common(others).map(Area::Texels),
            _ => None,
        }
    }
}
