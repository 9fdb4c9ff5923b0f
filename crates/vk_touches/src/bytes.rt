ghost use Rattle.std.specs.Prelude.{◌<◌, ◌≤◌, ℕ};
ghost use Rattle.vk_image_bytes.specs.Numbers.{byte_count, subresource_at};
ghost use Rattle.vk_order.specs.Units as order;
ghost use Rattle.vk_touches.specs.Bytes.{AreEarlier, AreUnits, HaveNumbers, IsOfEarlier};

use vk_image_bytes::ImageBytes;
use vk_order::Units;

/// The bytes of a resource, each by its number.
#[derive(Clone, Copy)]
pub enum Bytes<'a> {
    /// The bytes of a buffer, by its id.
    Buffer(u32),
    /// The bytes of an image.
    Image {
        /// The id of the image.
        id: u32,
        /// How many mip levels it has.
        levels: u32,
        /// Its bytes, numbered.
        bytes: &'a ImageBytes,
    },
}

/// Units in a row: bytes of a buffer or subresources of an image.
#[derive(Clone, Copy)]
pub(crate) struct UnitRun {
    /// What the numbers count.
    pub(crate) units: Units,
    /// The number of the first.
    pub(crate) low: u64,
    /// The number after the last.
    pub(crate) high: u64,
}

impl Bytes<'_> {
    /// The units that the bytes from `low` on and below `high` are of.
    pub(crate) fn units(&self, low: u64, high: u64) -> UnitRun
        requires order { low < high }
        requires numbers { HaveNumbers self.now high }
        ensures some { result.low < result.high }
        ensures numbers { order.HaveNumbers result.units result.high }
        ensures units { AreUnits self.now low high result }
    {
        match *self {
            Bytes::Buffer(buffer) => UnitRun {
                units: Units::Bytes { buffer },
                low,
                high,
            },
            Bytes::Image { id, levels, bytes } => {
                let subresources = bytes.subresources(low, high);
                UnitRun {
                    units: Units::Subresources { image: id, levels },
                    low: u64::from(subresources.first),
                    high: u64::from(subresources.last) + 1,
                }
            }
        }
    }

    /// Up to where, and at most to `high`, the bytes from `low` on are of units before one.
    pub(crate) fn before_unit(&self, low: u64, high: u64, unit: u64) -> u64
        requires order { low < high }
        requires numbers { HaveNumbers self.now high }
        requires first { IsOfEarlier self.now unit low }
        ensures further { low < result }
        ensures within { result ≤ high }
        ensures earlier { AreEarlier self.now unit low result }
    {
        match *self {
            Bytes::Buffer(_) => unit.min(high),
            Bytes::Image { bytes, .. } => before_subresource(bytes, low, high, unit),
        }
    }
}

/// Up to where, and at most to `high`, the bytes of an image from `low` on are of subresources
/// before one.
fn before_subresource(bytes: &ImageBytes, low: u64, high: u64, subresource: u64) -> u64
    requires order { low < high }
    requires within { high ≤ byte_count bytes.now }
    requires first { subresource_at bytes.now low < subresource }
    ensures further { low < result }
    ensures within { result ≤ high }
    ensures earlier { (k : ℕ) → low ≤ k → k < result → subresource_at bytes.now k < subresource }
{
    let mut last = low;
    let mut end = high;
    while end - last > 1 {
        let middle = last + (end - last) / 2;
        if u64::from(bytes.subresource_at(middle)) < subresource {
            last = middle;
        } else {
            end = middle;
        }
    }
    end
}
