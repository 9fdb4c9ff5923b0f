ghost use Rattle.std.specs.Prelude.{◌≡◌, ◌+◌, ◌/◌, ◌%◌, ◌<◌, ◌≤◌, ℕ};
ghost use Rattle.vk_model.specs.Sync.Seen.{covers, has_byte};
ghost use Rattle.vk_order.specs.Bytes.{byte_of};
ghost use Rattle.vk_order.specs.Units.{HaveNumbers, unit_byte, units_resource};

use crate::bytes::Byte;
use vk_model::{Element, Length, SubresourceRange};

/// A resource whose bytes are looked at one after another, as many at once as a dependency can't
/// tell apart.
#[derive(Clone, Copy, Debug, PartialEq, Eq)]
pub enum Units {
    /// The bytes of a buffer.
    Bytes {
        /// The id of the buffer.
        buffer: u32,
    },
    /// The subresources of an image, numbered layer by layer: that of a level and a layer has the
    /// number `layer * levels + level`.
    Subresources {
        /// The id of the image.
        image: u32,
        /// How many mip levels it has.
        levels: u32,
    },
}

impl Units {
    /// The id of the resource.
    pub fn resource(self) -> u32
        ensures { result ≡ units_resource self }
    {
        match self {
            Units::Bytes { buffer } => buffer,
            Units::Subresources { image, .. } => image,
        }
    }

    /// The first byte of the unit of a number.
    pub fn byte(self, at: u64) -> Byte
        requires { HaveNumbers self (at + 1) }
        ensures { byte_of result ≡ unit_byte self at }
    {
        match self {
            Units::Bytes { buffer } => Byte::Buffer { buffer, at },
            Units::Subresources { image, levels } => Byte::Texel {
                image,
                level: (at % u64::from(levels)) as u32,
                layer: (at / u64::from(levels)) as u32,
                x: 0,
                y: 0,
                texel_byte: 0,
            },
        }
    }
}

/// Up to where, and at most to an end, a range has the numbers from one on or has none of them.
fn range_until(offset: u64, size: Length, at: u64, end: u64) -> u64
    requires order { at < end }
    ensures further { at < result }
    ensures within { result ≤ end }
    ensures alike { (k : ℕ) → at ≤ k → k < result → has_byte offset size k ≡ has_byte offset size at }
{
    if at < offset {
        return offset.min(end);
    }
    match size {
        Length::Bytes(bytes) if at - offset < bytes => offset.saturating_add(bytes).min(end),
        _ => end,
    }
}

/// The same of a range of subresources of an image of some levels: by whole layers where it has all
/// levels, and else within a layer.
fn subresources_until(range: &SubresourceRange, levels: u32, at: u64, end: u64) -> u64
    requires order { at < end }
    requires some { 0 < levels }
    requires numbers { end ≤ 4294967296 }
    ensures further { at < result }
    ensures within { result ≤ end }
    ensures alike { (k : ℕ) → at ≤ k → k < result → in_subresources range.now (k % levels) (k / levels) ≡ in_subresources range.now (at % levels) (at / levels) }
{
    let row = u64::from(levels);
    if range.first_level == 0 && range.levels >= levels {
        let first = u64::from(range.first_layer) * row;
        let count = u64::from(range.layers) * row;
        return range_until(first, Length::Bytes(count), at, end);
    }
    let start = at - at % row;
    let first = start + u64::from(range.first_level);
    range_until(
        first,
        Length::Bytes(range.levels.into()),
        at,
        end.min(start + row),
    )
}

ghost use Rattle.vk_order.specs.Units.{in_subresources};

/// The same of the range of an element.
pub(crate) fn element_until(element: &Element, units: Units, at: u64, end: u64) -> u64
    requires order { at < end }
    requires numbers { HaveNumbers units end }
    ensures further { at < result }
    ensures within { result ≤ end }
    ensures alike { (k : ℕ) → at ≤ k → k < result → covers element.now (unit_byte units k) ≡ covers element.now (unit_byte units at) }
{
    match (element, units) {
        (Element::Buffer(range), Units::Bytes { .. }) => {
            range_until(range.offset, range.size, at, end)
        }
        (Element::Image(range), Units::Subresources { levels, .. }) => {
            subresources_until(&range.range, levels, at, end)
        }
        _ => end,
    }
}
