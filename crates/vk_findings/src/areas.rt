ghost use Rattle.std.specs.Prelude.{◌≡◌, ◌==◌, IfSome, is_some};
ghost use Rattle.vk_model.specs.Trace.Image.{texel};
ghost use Rattle.vk_model.specs.World.Areas as spec;
ghost use Rattle.vk_overlaps.specs.Boxes.{box_of};
ghost use Rattle.vk_findings.specs.Commons.{IsIn};
ghost use Rattle.vk_findings.specs.Inner.Areas.{area_of};

use crate::commons::{Common, first_byte, first_number};
use crate::rows::first_in_rows;
use vk_model::{BufferImageCopy, Format, SubresourceRange};
use vk_overlaps::TexelBox;

/// An area of a resource that a command reads or writes.
#[derive(Clone, Copy)]
pub enum Area {
    /// Bytes of a buffer.
    Bytes {
        /// The id of the buffer.
        buffer: u32,
        /// The first byte.
        offset: u64,
        /// How many bytes.
        size: u64,
    },
    /// The rows of a region in a buffer.
    Rows {
        /// The id of the buffer.
        buffer: u32,
        /// The format of the texels.
        format: Format,
        /// The region.
        region: BufferImageCopy,
    },
    /// Texels of an image.
    Texels {
        /// The id of the image.
        image: u32,
        /// The texels.
        texels: TexelBox,
    },
    /// Whole subresources of an image.
    Subresources {
        /// The id of the image.
        image: u32,
        /// The levels and layers.
        range: SubresourceRange,
    },
}

/// What two areas have in common.
pub fn common_of(one: &Area, other: &Area) -> Option<Common>
    ensures meet { is_some result ≡ spec.areas_meet (area_of one.now) (area_of other.now) }
    ensures in_one { IfSome result (IsIn (area_of one.now)) }
    ensures in_other { IfSome result (IsIn (area_of other.now)) }
{
    match one {
        Area::Bytes {
            buffer,
            offset,
            size,
        } => with_bytes(*buffer, *offset, *size, other),
        Area::Rows {
            buffer,
            format,
            region,
        } => with_rows(*buffer, *format, region, other),
        Area::Texels { image, texels } => with_texels(*image, texels, other),
        Area::Subresources { image, range } => with_subresources(*image, range, other),
    }
}

fn with_bytes(buffer: u32, offset: u64, size: u64, other: &Area) -> Option<Common>
    ensures meet { is_some result ≡ spec.areas_meet (spec.Bytes buffer offset size) (area_of other.now) }
    ensures in_one { IfSome result (IsIn (spec.Bytes buffer offset size)) }
    ensures in_other { IfSome result (IsIn (area_of other.now)) }
{
    match other {
        Area::Bytes {
            buffer: other_buffer,
            offset: other_offset,
            size: other_size,
        } if buffer == *other_buffer => {
            let at = first_byte(
                u128::from(offset),
                size,
                u128::from(*other_offset),
                *other_size,
            )?;
            Some(Common::Byte { buffer, at })
        }
        _ => None,
    }
}

fn with_rows(buffer: u32, format: Format, region: &BufferImageCopy, other: &Area) -> Option<Common>
    ensures meet { is_some result ≡ spec.areas_meet (spec.Rows buffer (texel format) region.now) (area_of other.now) }
    ensures in_one { IfSome result (IsIn (spec.Rows buffer (texel format) region.now)) }
    ensures in_other { IfSome result (IsIn (area_of other.now)) }
{
    match other {
        Area::Rows {
            buffer: other_buffer,
            format: other_format,
            region: other_region,
        } if buffer == *other_buffer => {
            let at = first_in_rows(region, format, other_region, *other_format)?;
            Some(Common::Byte { buffer, at })
        }
        _ => None,
    }
}

fn with_texels(image: u32, texels: &TexelBox, other: &Area) -> Option<Common>
    ensures meet { is_some result ≡ spec.areas_meet (spec.Texels image (box_of texels.now)) (area_of other.now) }
    ensures in_one { IfSome result (IsIn (spec.Texels image (box_of texels.now))) }
    ensures in_other { IfSome result (IsIn (area_of other.now)) }
{
    match other {
        Area::Texels {
            image: other_image,
            texels: other_texels,
        } if image == *other_image => first_texel(image, texels, other_texels),
        _ => None,
    }
}

fn first_texel(image: u32, one: &TexelBox, other: &TexelBox) -> Option<Common>
    ensures meet { is_some result ≡ spec.boxes_meet (box_of one.now) (box_of other.now) }
    ensures in_one { IfSome result (IsIn (spec.Texels image (box_of one.now))) }
    ensures in_other { IfSome result (IsIn (spec.Texels image (box_of other.now))) }
{
    if one.level != other.level {
        return None;
    }
    let layer = first_number(one.first_layer, one.layers, other.first_layer, other.layers)?;
    let x = first_number(one.x, one.width, other.x, other.width)?;
    let y = first_number(one.y, one.height, other.y, other.height)?;
    Some(Common::Texel {
        image,
        level: one.level,
        layer,
        x,
        y,
    })
}

fn with_subresources(image: u32, range: &SubresourceRange, other: &Area) -> Option<Common>
    ensures meet { is_some result ≡ spec.areas_meet (spec.Subresources image range.now) (area_of other.now) }
    ensures in_one { IfSome result (IsIn (spec.Subresources image range.now)) }
    ensures in_other { IfSome result (IsIn (area_of other.now)) }
{
    match other {
        Area::Subresources {
            image: other_image,
            range: other_range,
        } if image == *other_image => first_subresource(image, range, other_range),
        _ => None,
    }
}

fn first_subresource(image: u32, one: &SubresourceRange, other: &SubresourceRange) -> Option<Common>
    ensures meet { is_some result ≡ spec.subresources_meet one.now other.now }
    ensures in_one { IfSome result (IsIn (spec.Subresources image one.now)) }
    ensures in_other { IfSome result (IsIn (spec.Subresources image other.now)) }
{
    let level = first_number(one.first_level, one.levels, other.first_level, other.levels)?;
    let layer = first_number(one.first_layer, one.layers, other.first_layer, other.layers)?;
    Some(Common::Subresource {
        image,
        level,
        layer,
    })
}
